// The top call over files, input and output in memory: what no command shows.
ghost use Rattle.std.specs.Prelude.{◌≡◌, IfOk};

use crate::source::MemSource;
use hy_base::{Files, MemFiles, MemSink, Sink, Source};
use hy_driver::{Report, Scope, hyloc};
use indexmap::IndexMap;
use std::alloc::{AllocError, Global};
use std::test::Fail;

// Each row has the words of a call, what the file `file` has, the input, and which calls fail, counted from 0: of an output
// with how many bytes of the piece still go out. Then come the status, the five counts, the output, the messages, and whether
// an object is returned. `/` stands for a line feed.
const ROWS: &str = "
run file; sum; ; - = 0 1 1 1 0 0; 42/; ; object
exec file; reads; 5/6/; - = 0 1 1 1 0 0; 5/6/; ; object
exec file; reads; 5/; input 2 0 = 6 1 1 0 0 0; 5/; hyloc: input fault/; object
exec file; loop; ; out 3 0 = 7 5 1 0 0 0; 0/1/2/; hyloc: output fault/; object
run file; sum; ; out 0 1 = 7 1 1 0 0 0; 4; hyloc: output fault/; object
run file; sum; ; out 0 0, err 0 5 = 7 1 1 0 0 0; ; hyloc; object
run file; sum; ; files 0 0 = 5 0 0 0 0 0; ; hyloc: file fault/; none
exec file; done; ; files 0 0 = 5 0 0 0 0 0; ; hyloc: file fault/; none
run file; sum; ; files 0 0, err 0 0 = 7 0 0 0 0 0; ; ; none
run file; free; ; err 0 9 = 7 0 0 0 0 0; ; file:1:20; none
exec file; least; ; err 0 0 = 7 1 1 0 0 0; 9223372036854775807/-9223372036854775808/; ; object
exec file --report; done; ; err 0 0 = 7 1 1 1 0 0; ; hyloc: output fault/; object
exec file --report; done; ; err 0 6, err 1 5 = 7 1 1 1 0 0; ; turns hyloc; object
exec file --report; least; ; err 0 4 = 7 1 1 0 0 0; 9223372036854775807/-9223372036854775808/; file; object
exec file --report; least; ; err 1 0 = 7 1 1 0 0 0; 9223372036854775807/-9223372036854775808/; file (94-99): trap overflow/; object
; sum; ; err 0 0 = 7 0 0 0 0 0; ; ; none
";

const SUM: &[u8] = b"fun main() { var x = 40; x = x + 2; print(x) }";

// A name that stands for nothing.
const FREE: &[u8] = b"fun main() { print(y) }";

// A `main` that returns.
const DONE: &[u8] = b"HYLO\x01\x00\x01\x00\x00\x00\x00\x00\x01\x12\x00";

// It prints two numbers that it reads: a span at 19, 1 word, and 5 instructions.
const READS: &[u8] =
    b"HYLO\x01\x01\x13\x06\x01\x00\x00\x00\x01\x00\x05\x21\x00\x00\x20\x00\x00\x21\x00\x00\x20\x00\x00\x12\x00";

// It prints 0 to 9, each in a pass of a loop: 4 words and 9 instructions. 0, 10 and 1 are set; then comes the test; a pass
// prints and adds 1; the test jumps back to it, which takes a turn.
const LOOP: &[u8] =
    b"HYLO\x01\x01\x2E\x06\x01\x00\x00\x00\x04\x00\x09\x01\x00\x00\x01\x01\x0A\x01\x02\x01\x0E\x06\
    \x20\x00\x00\x04\x00\x00\x02\x00\x0B\x03\x00\x01\x0F\x03\x04\x12\x00";

// It prints the greatest number and the least one, and then takes 1 from the least: 3 words and 7 instructions.
const LEAST: &[u8] =
    b"HYLO\x01\x01\x5E\x05\x01\x00\x00\x00\x03\x00\x07\x01\x00\xFF\xFF\xFF\xFF\xFF\xFF\xFF\xFF\xFF\x00\
    \x20\x00\x00\x01\x01\x80\x80\x80\x80\x80\x80\x80\x80\x80\x7F\x20\x01\x00\x01\x02\x7F\x04\x01\x01\x02\x00\x12\x00";

fn contents(name: &str) -> &'static [u8] {
    match name {
        "sum" => SUM,
        "free" => FREE,
        "done" => DONE,
        "reads" => READS,
        "loop" => LOOP,
        _ => LEAST,
    }
}

// Which calls fail.
#[derive(Drop)]
struct Failing {
    files: Vec<u64>,
    input: Vec<u64>,
    out: Vec<(u64, u32)>,
    err: Vec<(u64, u32)>,
}

fn put_failing(failing: &mut Failing, which: &str, call: u64, bytes: u32) -> Result<(), Fail> {
    match which {
        "files" => failing.files.push(call)?,
        "input" => failing.input.push(call)?,
        "out" => failing.out.push((call, bytes))?,
        _ => failing.err.push((call, bytes))?,
    }
    Ok(())
}

fn failing_of(alloc: Global, text: &str) -> Result<Failing, Fail> {
    let mut failing = Failing {
        files: Vec::new(alloc),
        input: Vec::new(alloc),
        out: Vec::new(alloc),
        err: Vec::new(alloc),
    };
    for one in text.split(", ") {
        if let Some((which, numbers)) = one.split_once(" ") {
            let (call, bytes) = numbers.split_once(" ").ok_or("two numbers are wanted")?;
            let call = call.parse::<u64>().map_err(|_| "a number is wanted")?;
            let bytes = bytes.parse::<u32>().map_err(|_| "a number is wanted")?;
            put_failing(&mut failing, which, call, bytes)?;
        }
    }
    Ok(failing)
}

fn words_of(alloc: Global, text: &str) -> Result<Vec<String>, AllocError> {
    let mut words = Vec::new(alloc);
    for word in text.split(" ") {
        if !word.is_empty() {
            words.push(String::from_str(alloc, word)?)?;
        }
    }
    Ok(words)
}

fn lines_of(alloc: Global, text: &str) -> Result<Vec<u8>, AllocError> {
    let mut bytes = text.as_bytes().to_vec(alloc)?;
    for byte in bytes.iter_mut() {
        if *byte == b'/' {
            *byte = b'\n';
        }
    }
    Ok(bytes)
}

fn files_of(alloc: Global, file: &[u8], failing: Vec<u64>) -> Result<MemFiles, AllocError>
    ensures { IfOk result (λ files. ⟦<MemFiles as Files>⟧.faults files ≡ 0) }
{
    let mut contents = IndexMap::new(alloc);
    contents.insert(String::from_str(alloc, "file")?, file.to_vec(alloc)?)?;
    Ok(MemFiles::new(alloc, contents, failing))
}

// What a call is made over.
#[derive(Drop)]
struct Outside {
    files: MemFiles,
    input: MemSource,
    out: MemSink,
    err: MemSink,
}

fn outside_of(alloc: Global, file: &[u8], input: Vec<u8>, failing: Failing) -> Result<Outside, Fail>
    ensures files { IfOk result (λ outside. ⟦<MemFiles as Files>⟧.faults outside.files ≡ 0) }
    ensures input { IfOk result (λ outside. ⟦<MemSource as Source>⟧.faults outside.input ≡ 0) }
    ensures out { IfOk result (λ outside. ⟦<MemSink as Sink>⟧.faults outside.out ≡ 0) }
    ensures err { IfOk result (λ outside. ⟦<MemSink as Sink>⟧.faults outside.err ≡ 0) }
{
    let files = files_of(alloc, file, failing.files)?;
    let out = MemSink::new(alloc, failing.out, 1000)?;
    let err = MemSink::new(alloc, failing.err, 1000)?;
    Ok(Outside {
        files,
        input: MemSource::new(input, failing.input),
        out,
        err,
    })
}

fn put_bytes(text: &mut String, bytes: &[u8]) -> Result<(), Fail> {
    for byte in bytes {
        let shown = if *byte == b'\n' {
            '/'
        } else {
            char::from(*byte)
        };
        text.push(shown)?;
    }
    text.push_str("; ")?;
    Ok(())
}

// What is seen of a call, as a row has it.
fn seen(alloc: Global, report: &Report, outside: &Outside) -> Result<String, Fail> {
    let status = report.status;
    let counts = report.counts;
    let mut text = format!(in alloc; "{status} {} {} ", counts.turns, counts.blocks)?;
    let rest = format!(in alloc; "{} {} {}; ", counts.freed, counts.opened, counts.closed)?;
    text.push_str(rest.as_str())?;
    put_bytes(&mut text, outside.out.bytes())?;
    put_bytes(&mut text, outside.err.bytes())?;
    text.push_str(if report.object.is_empty() {
        "none"
    } else {
        "object"
    })?;
    Ok(text)
}

fn report_of(alloc: Global, words: &str, outside: &mut Outside) -> Result<Report, AllocError>
    requires files { ⟦<MemFiles as Files>⟧.faults outside.old.files ≡ 0 }
    requires input { ⟦<MemSource as Source>⟧.faults outside.old.input ≡ 0 }
    requires out { ⟦<MemSink as Sink>⟧.faults outside.old.out ≡ 0 }
    requires err { ⟦<MemSink as Sink>⟧.faults outside.old.err ≡ 0 }
{
    let words = words_of(alloc, words)?;
    Ok(hyloc(
        alloc,
        &words,
        &mut outside.files,
        &mut outside.input,
        &mut outside.out,
        &mut outside.err,
    ))
}

fn answer_of(alloc: Global, given: &str) -> Result<String, Fail> {
    let (words, rest) = given.split_once("; ").ok_or("no words")?;
    let (file, rest) = rest.split_once("; ").ok_or("no file")?;
    let (input, failing) = rest.split_once("; ").ok_or("no input")?;
    let failing = failing_of(alloc, failing)?;
    let input = lines_of(alloc, input)?;
    let mut outside = outside_of(alloc, contents(file), input, failing)?;
    let report = report_of(alloc, words, &mut outside)?;
    seen(alloc, &report, &outside)
}

#[test]
fn calls_of_the_outside_fail(rt: HostRuntime) -> Result<(), Fail> {
    let alloc = rt.alloc();
    for row in ROWS.lines() {
        if let Some((given, wanted)) = row.split_once(" = ") {
            let answer = answer_of(alloc, given)?;
            assert_eq!(rt; answer.as_str(), wanted, "{given}");
        }
    }
    Ok(())
}

#[test]
fn a_sum_is_made_in_the_accumulator(rt: HostRuntime) -> Result<(), Fail> {
    let alloc = rt.alloc();
    let failing = failing_of(alloc, "-")?;
    let source = b"fun main() { print(1 + 2) }".as_slice();
    let mut outside = outside_of(alloc, source, Vec::new(alloc), failing)?;
    let report = report_of(alloc, "run file", &mut outside)?;
    let want: [u8; 31] = [
        0x48, 0x59, 0x4C, 0x4F, 0x01, // HYLO, version 1
        0x01, 0x13, 0x05, // one span, at 19, 5 long
        0x01, 0x00, 0x00, 0x00, 0x02, 0x00, 0x05, // one function, 2 words, 5 instructions
        0x01, 0x00, 0x01, 0x01, 0x01, 0x02, // 1, 2
        0x04, 0x00, 0x00, 0x01, 0x00, // the sum
        0x20, 0x00, 0x00, 0x12, 0x00, // print, return
    ];
    assert_eq!(rt; report.object.as_slice(), want.as_slice());
    Ok(())
}

#[test]
fn a_name_keeps_its_place(rt: HostRuntime) -> Result<(), Fail> {
    let alloc = rt.alloc();
    let mut scope = Scope::new(alloc);
    assert!(rt;
        scope
            .declare(alloc, b"x".as_slice())
            .expect(&rt, "no memory")
    );
    assert!(rt;
        scope
            .declare(alloc, b"y".as_slice())
            .expect(&rt, "no memory")
    );
    assert!(rt;
        !scope
            .declare(alloc, b"x".as_slice())
            .expect(&rt, "no memory")
    );
    assert_eq!(rt;
        (scope.len(), scope.position(b"y".as_slice())),
        (2, Some(1))
    );
    assert!(rt; scope.knows(b"x".as_slice()) && !scope.knows(b"z".as_slice()));
    Ok(())
}

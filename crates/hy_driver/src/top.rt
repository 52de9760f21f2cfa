// The top call: from the words of a command to a status.
ghost use Rattle.std.specs.Prelude.{◌≡◌, ◌-◌, ◌^◌, ◌<◌, ◌≤◌, List, ℕ, length, map, string_bytes, Some};
ghost use Rattle.hy_base.specs.Answers.{Answers};
ghost use Rattle.hy_front.specs.Phases.{Breaks};
ghost use Rattle.hy_words.specs.Asked.{ToRun, ToExec};
ghost use Rattle.hy_words.specs.Commands.{command_of};
ghost use Rattle.hy_words.specs.Reads.{word_at};
ghost use Rattle.hy_driver.specs.Course.{CallMayAnswer, SourceMayAnswer, answer, bare, IsEither, ended_answer, unloaded_answer};
ghost use Rattle.hy_driver.specs.Call.{call_seen, files_seen, streams_seen};
ghost use Rattle.hy_driver.specs.Promises.{Promises};
ghost use Rattle.hy_driver.specs.Texts.{out_of_memory, refusal_message};
ghost use Rattle.hy_driver.specs.Reply.{answer_of, IsCompiledFrom};

use crate::execute::{LONGEST_OBJECT, execute_file};
use crate::lower::lower;
use crate::message::{self, FILE_FAULT, Message, OUT_OF_MEMORY, USAGE};
use crate::reply::{Reply, Report, answered, bare, cut_off, with_message, write_reply};
use hy_base::{End, Ending, Fault, FileFault, Files, NO_COUNTS, Rule, Sink, Source, Span};
use hy_front::{LONGEST, front, one_tree};
use hy_machine::run;
use hy_object::{
    Object, encode, every_run_adds_up, one_place, one_run, one_spelling, writes_beginnings,
};
use hy_words::{Command, Options, TURNS, Usage, read_words};
use std::alloc::Global;

// The object of a source, with its bytes.
#[derive(Drop)]
pub struct CompiledSource {
    pub object: Object,
    pub bytes: Vec<u8>,
}

// The object of a source.
fn compile(alloc: Global, source: &[u8]) -> Result<CompiledSource, Fault>
    ensures { Answers (Breaks source.now) (IsCompiledFrom source.now) result }
{
    let tree = front(alloc, source)?;
    let object = lower(alloc, &tree)?;
    let bytes = encode(alloc, &object)?;
    Ok(CompiledSource { object, bytes })
}

// A source that breaks a rule.
fn refuse(alloc: Global, file: &str, source: &[u8], rule: Rule, span: Span) -> Reply
    ensures { IsEither (answer_of result) (bare 1 (refusal_message file.now source.now (record { rule = rule; span = span }))) (bare 8 out_of_memory) }
{
    let text = message::refusal(alloc, file, source, rule, span);
    with_message(1, Vec::new(alloc), NO_COUNTS, text)
}

// A run that came to its end.
fn end(alloc: Global, file: &str, source: &[u8], object: Vec<u8>, ending: Ending) -> Reply
    ensures { IsEither (answer_of result) (ended_answer file.now source.now object.items ending) (answer 8 out_of_memory object.items ending.counts) }
{
    let counts = ending.counts;
    match ending.end {
        End::Done => answered(0, object, counts, Message::Silent),
        End::Trap(kind, span) => {
            let text = message::trapped(alloc, file, source, kind, span);
            with_message(3, object, counts, text)
        }
        End::Spent => with_message(4, object, counts, message::spent(alloc, TURNS)),
        End::Asks => with_message(4, object, counts, message::spent(alloc, TURNS)),
    }
}

// Runs the object of a source.
fn run_compiled<I: Source, K: Sink>(
    alloc: Global,
    file: &str,
    source: &[u8],
    compiled: CompiledSource,
    input: &mut I,
    out: &mut K,
) -> Reply
    requires compiled { IsCompiledFrom source.now compiled }
    requires input_faults { I.faults input.old < 2 ^ 64 - 2 }
    requires out_faults { K.faults out.old < 2 ^ 64 - 2 }
    ensures { SourceMayAnswer file.now source.now (streams_seen I.Source K.Sink input.old out.old) (streams_seen I.Source K.Sink input.new out.new)
        (answer_of result) }
{
    let CompiledSource { object, bytes } = compiled;
    match run(alloc, &object, input, out, TURNS) {
        Ok(ending) => end(alloc, file, source, bytes, ending),
        Err(fault) => cut_off(bytes, fault),
    }
}

// Compiles a source and runs it.
fn run_source<I: Source, K: Sink>(
    alloc: Global,
    file: &str,
    source: &[u8],
    input: &mut I,
    out: &mut K,
) -> Reply
    requires input_faults { I.faults input.old < 2 ^ 64 - 2 }
    requires out_faults { K.faults out.old < 2 ^ 64 - 2 }
    ensures { SourceMayAnswer file.now source.now (streams_seen I.Source K.Sink input.old out.old) (streams_seen I.Source K.Sink input.new out.new)
        (answer_of result) }
{
    match compile(alloc, source) {
        Ok(compiled) => run_compiled(alloc, file, source, compiled, input, out),
        Err(Fault::Refused(rule, span)) => refuse(alloc, file, source, rule, span),
        Err(Fault::NoMemory) => bare(alloc, 8, OUT_OF_MEMORY),
    }
}

// A file that was not loaded.
fn not_loaded(alloc: Global, fault: FileFault) -> Reply
    ensures { answer_of result ≡ unloaded_answer fault }
{
    match fault {
        FileFault::Failed => bare(alloc, 5, FILE_FAULT),
        FileFault::NoMemory => bare(alloc, 8, OUT_OF_MEMORY),
    }
}

// `run FILE`, up to its message.
fn run_file<F: Files, I: Source, K: Sink>(
    alloc: Global,
    file: &str,
    files: &mut F,
    input: &mut I,
    out: &mut K,
) -> Reply
    requires file_faults { F.faults files.old < 2 ^ 64 - 2 }
    requires input_faults { I.faults input.old < 2 ^ 64 - 2 }
    requires out_faults { K.faults out.old < 2 ^ 64 - 2 }
    ensures way { (words : List (List ℕ)) → command_of words ≡ Some (ToRun file.now)
        → CallMayAnswer words (files_seen F.Files files.old) (files_seen F.Files files.new) (streams_seen I.Source K.Sink input.old out.old)
        (streams_seen I.Source K.Sink input.new out.new) (answer_of result) }
    ensures files { (name : List ℕ) → F.holds files.new name ≡ F.holds files.old name }
{
    match files.load(alloc, file, LONGEST) {
        Ok(source) => run_source(alloc, file, &source, input, out),
        Err(fault) => not_loaded(alloc, fault),
    }
}

// `exec FILE` with its options, up to its message.
fn exec_file<F: Files, I: Source, K: Sink>(
    alloc: Global,
    file: &str,
    options: Options,
    files: &mut F,
    input: &mut I,
    out: &mut K,
) -> Reply
    requires turns { options.turns ≤ 2 ^ 32 }
    requires file_faults { F.faults files.old < 2 ^ 64 - 2 }
    requires input_faults { I.faults input.old < 2 ^ 64 - 2 }
    requires out_faults { K.faults out.old < 2 ^ 64 - 2 }
    ensures way { (words : List (List ℕ)) → command_of words ≡ Some (ToExec file.now options)
        → CallMayAnswer words (files_seen F.Files files.old) (files_seen F.Files files.new) (streams_seen I.Source K.Sink input.old out.old)
        (streams_seen I.Source K.Sink input.new out.new) (answer_of result) }
    ensures files { (name : List ℕ) → F.holds files.new name ≡ F.holds files.old name }
{
    match files.load(alloc, file, LONGEST_OBJECT) {
        Ok(bytes) => execute_file(alloc, file, options, bytes, input, out),
        Err(fault) => not_loaded(alloc, fault),
    }
}

fn word_at(words: &[String], place: usize) -> &str
    requires { place < length words.now }
    ensures { result.now ≡ word_at (map string_bytes words.now) place }
{
    words[place].as_str()
}

// The whole of a call, up to its message.
fn carry_out<F: Files, I: Source, K: Sink>(
    alloc: Global,
    words: &[String],
    files: &mut F,
    input: &mut I,
    out: &mut K,
) -> Reply
    requires file_faults { F.faults files.old < 2 ^ 64 - 2 }
    requires input_faults { I.faults input.old < 2 ^ 64 - 2 }
    requires out_faults { K.faults out.old < 2 ^ 64 - 2 }
    ensures way { CallMayAnswer (map string_bytes words.now) (files_seen F.Files files.old) (files_seen F.Files files.new)
        (streams_seen I.Source K.Sink input.old out.old) (streams_seen I.Source K.Sink input.new out.new) (answer_of result) }
    ensures files { (name : List ℕ) → F.holds files.new name ≡ F.holds files.old name }
{
    match read_words(words) {
        Ok(Command::Run { file }) => run_file(alloc, word_at(words, file), files, input, out),
        Ok(
            Command::Exec {
                file,
                turns,
                report,
            },
        ) => {
            let options = Options { turns, report };
            exec_file(alloc, word_at(words, file), options, files, input, out)
        }
        Err(Usage) => bare(alloc, 2, USAGE),
    }
}

/// Carries a command out: `run FILE` loads the source, compiles it and runs its object with at most `TURNS` turns, and
/// `exec FILE` loads an object and runs it on the machine that checks. The words are those after the program's name.
/// `docs/MEANING.md` says what a source means, `docs/MACHINE.md` what an object does, `README.md` what each status says. What is
/// promised of a call stands in `specs/Promises.antt`, a fact with its name each.
pub fn hyloc<F: Files, I: Source, K: Sink, E: Sink>(
    alloc: Global,
    words: &[String],
    files: &mut F,
    input: &mut I,
    out: &mut K,
    err: &mut E,
) -> Report
    requires file_faults { F.faults files.old < 2 ^ 64 - 2 }
    requires input_faults { I.faults input.old < 2 ^ 64 - 2 }
    requires out_faults { K.faults out.old < 2 ^ 64 - 2 }
    requires err_faults { E.faults err.old < 2 ^ 64 - 2 }
    ensures { Promises (call_seen F.Files I.Source K.Sink E.Sink words.now files.old files.new input.old input.new out.old out.new err.old err.new result) }
{
    // The laws that its clauses stand on; these calls do nothing.
    one_tree();
    one_run();
    writes_beginnings();
    one_spelling();
    one_place();
    every_run_adds_up();
    let reply = carry_out(alloc, words, files, input, out);
    write_reply(err, reply)
}

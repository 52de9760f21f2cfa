ghost use Rattle.std.specs.Prelude.{◌≡◌, ◌-◌, ◌^◌, ◌<◌, IfOk};
ghost use Rattle.hy_base.specs.Outside.{faults_after, StillTells};
ghost use Rattle.hy_base.specs.Streams.{Takes};

use hy_base::{Failed, MemSink, PlainSource, RunCause, Sink, Source};
use hy_object::Shown;
use hy_runs::{Lines, put_line};
use std::alloc::Global;
use std::test::Fail;

// Each row has a line and its number.
const LINES: &str = "0 = 0
42 = 42
-42 = -42
007 = 7
-0 = 0
00000000000000000042 = 42
  42   = 42
42\r = 42
 -42 \r = -42
42\r  = none
42\r\r = none
4\r2 = none
\r = none
 = none
   = none
4 2 = none
- 42 = none
- = none
+5 = none
--5 = none
5- = none
5a = none
\t5 = none
9223372036854775807 = 9223372036854775807
9223372036854775808 = none
-9223372036854775808 = -9223372036854775808
-9223372036854775809 = none
9999999999999999999 = none
18446744073709551615 = none
18446744073709551617 = none
-18446744073709551617 = none";

fn source_of(alloc: Global, parts: [&str; 2]) -> Result<PlainSource, Fail> {
    let mut bytes = parts[0].as_bytes().to_vec(alloc)?;
    bytes.extend_from_slice(parts[1].as_bytes())?;
    Ok(PlainSource::new(bytes))
}

fn number_of(alloc: Global, parts: [&str; 2]) -> Result<Option<i64>, Fail> {
    let mut input = source_of(alloc, parts)?;
    let mut lines = Lines::new(alloc)?;
    Ok(lines.read(&mut input)?)
}

#[test]
fn lines_are_numbers_or_none(rt: HostRuntime) -> Result<(), Fail> {
    let alloc = rt.alloc();
    for row in LINES.lines() {
        let (line, want) = row.split_once(" = ").ok_or("a row has two parts")?;
        let want = want.parse::<i64>().ok();
        for end in ["\n", ""] {
            assert_eq!(rt; number_of(alloc, [line, end])?, want);
        }
    }
    Ok(())
}

fn zeros_and_seven(alloc: Global, zeros: usize, behind: &str) -> Result<PlainSource, Fail> {
    let mut bytes = vec![in alloc; b'0'; zeros]?;
    bytes.push(b'7')?;
    bytes.extend_from_slice(behind.as_bytes())?;
    Ok(PlainSource::new(bytes))
}

#[test]
fn a_line_has_at_most_4096_bytes(rt: HostRuntime) -> Result<(), Fail> {
    let alloc = rt.alloc();
    // Each row has how many zeros stand before a 7, what comes after it, and three numbers that are read.
    let rows = [
        (4095, "", [Some(7), None, None]),
        (4096, "", [None, None, None]),
        (4095, "\n5\n", [Some(7), Some(5), None]),
        (4096, "\n5\n", [None, None, Some(5)]),
        (4097, "\n5\n", [None, Some(7), Some(5)]),
    ];
    for (zeros, behind, want) in rows {
        let mut input = zeros_and_seven(alloc, zeros, behind)?;
        let mut lines = Lines::new(alloc)?;
        let numbers = [
            lines.read(&mut input),
            lines.read(&mut input),
            lines.read(&mut input),
        ];
        assert_eq!(rt; numbers, want.map(Ok));
    }
    Ok(())
}

// Gives a byte at each call but one, which fails, and counts the calls.
#[derive(Drop)]
struct Counted {
    bytes: Vec<u8>,
    failing: usize,
    calls: usize,
    faults: u64,
}

impl Source for Counted {
    ghost use Rattle.std.specs.Prelude.{None};

    ghost faults = { λ source. source.faults };

    ghost tells = { λ source. None };

    fn next(&mut self) -> Result<Option<u8>, Failed> {
        let call = self.calls;
        self.calls = call.saturating_add(1);
        if call == self.failing {
            self.faults += 1;
            return Err(Failed);
        }
        Ok(self.bytes.get(call).copied())
    }
}

fn source_failing_at(alloc: Global, text: &str, failing: usize) -> Result<Counted, Fail>
    ensures { IfOk result (λ source. source.faults ≡ 0) }
{
    let bytes = text.as_bytes().to_vec(alloc)?;
    Ok(Counted {
        bytes,
        failing,
        calls: 0,
        faults: 0,
    })
}

#[test]
fn an_input_that_fails_is_told(rt: HostRuntime) -> Result<(), Fail> {
    let alloc = rt.alloc();
    // Each row has the call that fails, and how many there are.
    for (failing, calls) in [(0, 1), (1, 2), (2, 3)] {
        let mut input = source_failing_at(alloc, "12\n", failing)?;
        let mut lines = Lines::new(alloc)?;
        let answer = lines.read(&mut input);
        assert_eq!(rt; (answer, input.calls), (Err(Failed), calls));
    }
    Ok(())
}

#[test]
fn an_input_that_has_ended_is_asked_no_more(rt: HostRuntime) -> Result<(), Fail> {
    let alloc = rt.alloc();
    let mut input = source_failing_at(alloc, "12\n3", 99)?;
    let mut lines = Lines::new(alloc)?;
    for (want, calls) in [(Some(12), 3), (Some(3), 5), (None, 5), (None, 5)] {
        input.faults = 0;
        let answer = lines.read(&mut input);
        assert_eq!(rt; (answer, input.calls), (Ok(want), calls));
    }
    Ok(())
}

#[test]
fn words_are_printed_in_one_piece_each(rt: HostRuntime) -> Result<(), Fail> {
    let alloc = rt.alloc();
    // Each row has a word, which call of the sink fails, the answer, and what went out.
    let rows = [
        (Shown::Int, 42, 1u64, Ok(()), "42\n"),
        (Shown::Int, i64::MIN, 1, Ok(()), "-9223372036854775808\n"),
        (Shown::Bool, 0, 1, Ok(()), "false\n"),
        (Shown::Bool, -3, 1, Ok(()), "true\n"),
        (Shown::Bool, 1, 0, Err(RunCause::Output), "tr"),
    ];
    for (shown, word, failing, want, written) in rows {
        let mut out = MemSink::new(alloc, [(failing, 2u32)].to_vec(alloc)?, 99)?;
        let answer = put_line(alloc, shown, word, &mut out);
        assert_eq!(rt; (answer, out.bytes()), (want, written.as_bytes()));
    }
    Ok(())
}

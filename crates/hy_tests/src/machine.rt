ghost use Rattle.std.specs.Prelude.{[], ◌∷◌, ◌≡◌, ◌-◌, ◌^◌, ◌<◌, IfOk};
ghost use Rattle.hy_base.specs.Outside.{faults_after, StillTells};
ghost use Rattle.hy_base.specs.Streams.{Takes, Puts};
ghost use Rattle.std.specs.Prelude.{All};
ghost use Rattle.hy_object.specs.Grammar.{IsInGrammar};
ghost use Rattle.hy_object.specs.Runs.{IsSafe};
ghost use Rattle.hy_machine.specs.Built.{IsBuilt};

use hy_base::{Counts, End, Ending, Failed, NoMemory, RunCause, Sink, Source, Span, TrapKind};
use hy_machine::{Halt, Machine, run};
use hy_object::{Fun, Instr, Kind, Object, Place, Shown};
use sqlite_items::Items;
use std::alloc::Global;
use std::test::Fail;

// No input.
#[derive(Drop)]
struct Nothing;

impl Source for Nothing {
    ghost use Rattle.std.specs.Prelude.{None};

    ghost faults = { λ source. 0 };

    ghost tells = { λ source. None };

    fn next(&mut self) -> Result<Option<u8>, Failed> {
        Ok(None)
    }
}

// Keeps what is written, and fails once that many pieces are there.
#[derive(Drop)]
struct Pieces {
    bytes: Vec<u8>,
    left: u32,
    faults: u64,
}

impl Sink for Pieces {
    ghost use Rattle.std.specs.Prelude.{None};

    ghost faults = { λ sink. sink.faults };

    ghost tells = { λ sink. None };

    fn put(&mut self, piece: &[u8]) -> Result<(), Failed> {
        if self.left > 0 && self.bytes.extend_from_slice(piece).is_ok() {
            self.left -= 1;
            return Ok(());
        }
        self.faults += 1;
        Err(Failed)
    }
}

fn no_pieces(alloc: Global, left: u32) -> Pieces
    ensures { result.faults ≡ 0 }
{
    Pieces {
        bytes: Vec::new(alloc),
        left,
        faults: 0,
    }
}

fn object_of(alloc: Global, instrs: &[Instr], words: u32) -> Result<Object, NoMemory>
    ensures { IfOk result (λ object. object ≡ record {
      spans = record { from = 29; to = 34 } ∷ [];
      funs = record { accesses = 0; owned = 0; result = 0; words = words; slots = 0; code = instrs.now } ∷ [];
    }) }
{
    let mut funs = Items::new(alloc);
    funs.push(Fun {
        accesses: 0,
        owned: 0,
        result: 0,
        words,
        slots: 0,
        code: Items::from_slice(alloc, instrs)?,
    })?;
    let spans = Items::from_slice(alloc, &[Span { from: 29, to: 34 }])?;
    Ok(Object { spans, funs })
}

fn place(offset: u32) -> Place {
    Place { base: 0, offset }
}

fn constant(value: i64) -> Instr {
    Instr::Const { to: 0, value }
}

fn copy(to: Place, from: Place, words: u32) -> Instr {
    Instr::Copy { to, from, words }
}

fn moved(to: Place, from: Place, words: u32) -> Instr {
    Instr::Move { to, from, words }
}

fn shows(word: u32) -> Instr {
    Instr::Print {
        word,
        shown: Shown::Bool,
    }
}

// fun main() { var x = 40; x = x + 2; print(x) }
const SUM: [Instr; 5] = [
    Instr::Const { to: 0, value: 40 },
    Instr::Const { to: 1, value: 2 },
    Instr::Add {
        to: 0,
        a: 0,
        b: 1,
        span: 0,
    },
    Instr::Print {
        word: 0,
        shown: Shown::Int,
    },
    Instr::Return { word: 0 },
];

// How these instructions halt, with three words and an output that takes two pieces, and what is then in that output.
fn run_alone(alloc: Global, instrs: &[Instr]) -> Result<(Halt, Pieces), NoMemory> {
    let object = object_of(alloc, instrs, 3)?;
    let mut out = no_pieces(alloc, 2);
    let mut machine = Machine::start(alloc, 3)?;
    let halt = machine.run_to_halt(alloc, &object, instrs, &mut out);
    Ok((halt, out))
}

#[test]
fn programs_halt_as_they_must(rt: HostRuntime) -> Result<(), Fail> {
    let alloc = rt.alloc();
    let (zero, one, two) = (place(0), place(1), place(2));
    let lent = Place { base: 1, offset: 0 };
    let set = constant(1);
    let double = Instr::Add {
        to: 1,
        a: 0,
        b: 0,
        span: 0,
    };
    let end = Instr::Return { word: 0 };
    let done = Halt::Ended(End::Done);
    let unset = Halt::Stuck(Kind::Unset);
    let outside = Halt::Stuck(Kind::Range);
    let overflow = Halt::Ended(End::Trap(TrapKind::Overflow, Span { from: 29, to: 34 }));
    let failed = Halt::Cut(RunCause::Output);
    let rows: [(&[Instr], Halt, &str); 9] = [
        (&SUM, done, "42\n"),
        (&[set, copy(one, zero, 1), shows(1), end], done, "true\n"),
        (
            &[set, moved(one, zero, 1), shows(1), shows(0)],
            unset,
            "true\n",
        ),
        (&[set, moved(zero, zero, 1), end], outside, ""),
        (&[set, copy(two, zero, 2), end], outside, ""),
        (&[moved(lent, zero, 0)], Halt::Stuck(Kind::Slot), ""),
        (&[constant(i64::MIN), double, end], overflow, ""),
        (&[constant(0), shows(0)], outside, "false\n"),
        (
            &[set, shows(0), shows(0), shows(0), end],
            failed,
            "true\ntrue\n",
        ),
    ];
    for (instrs, want, written) in rows {
        let (halt, out) = run_alone(alloc, instrs)?;
        assert_eq!(rt; halt, want);
        assert_eq!(rt; out.bytes.as_slice(), written.as_bytes());
    }
    Ok(())
}

fn sum_object(alloc: Global) -> Result<Object, NoMemory>
    ensures grammar { IfOk result (λ object. IsInGrammar object) }
    ensures built { IfOk result (λ object. IsBuilt object) }
    ensures safe { IfOk result (λ object. IsSafe object) }
{
    object_of(alloc, &SUM, 3)
}

fn ending(end: End, turns: u64) -> Ending {
    let counts = Counts {
        turns,
        blocks: turns,
        freed: turns,
        opened: 0,
        closed: 0,
    };
    Ending { end, counts }
}

#[test]
fn a_sum_runs_as_it_must(rt: HostRuntime) -> Result<(), Fail> {
    let alloc = rt.alloc();
    let object = sum_object(alloc)?;
    let mut input = Nothing;
    let rows = [
        (0, 1, Ok(ending(End::Spent, 0)), ""),
        (9, 1, Ok(ending(End::Done, 1)), "42\n"),
        (9, 0, Err(RunCause::Output), ""),
    ];
    for (turns, left, want, written) in rows {
        let mut out = no_pieces(alloc, left);
        let result = run(alloc, &object, &mut input, &mut out, turns);
        assert_eq!(rt; result.map_err(|fault| fault.cause), want);
        assert_eq!(rt; out.bytes.as_slice(), written.as_bytes());
    }
    Ok(())
}

// One line of input: room for its bytes, taken when it is made, so that no byte takes memory.
ghost use Rattle.std.specs.Prelude.{◌≡◌, ◌-◌, ◌^◌, ◌<◌, ◌++◌, ◌∷◌, [], length, IfOk};
ghost use Rattle.hy_base.specs.Lines.{number_of, trimmed};
ghost use Rattle.hy_base.specs.Outside.{faults_after};
ghost use Rattle.hy_runs.specs.Taking.{Fills};

use hy_base::{Failed, NoMemory, Source, number_of, trimmed};
use std::alloc::Global;
use std::marker::Model;

// The most bytes that are taken for a line, its line feed among them.
const MOST: u32 = 4097;

/// What comes after the bytes of a line.
#[derive(Clone, Copy, Debug, PartialEq, Eq)]
pub enum LineEnd {
    /// A line feed.
    Feed,
    /// The end of the input.
    Input,
    /// Nothing that was looked at: there is no room for a line feed.
    Room,
}

#[derive(Drop)]
pub struct Line {
    bytes: Vec<u8>,
}

impl Model for Line {
    ghost use Rattle.std.specs.Prelude.{◌≤◌, ℕ, List, vec_capacity};

    ghost Value = { List ℕ };

    ghost view = { λ line. line.bytes.items };

    ghost invariant = { λ line. 4097 ≤ vec_capacity line.bytes };
}

impl Line {
    pub fn new(alloc: Global) -> Result<Line, NoMemory>
        ensures { IfOk result (λ line. line ≡ []) }
    {
        let bytes = Vec::with_capacity(alloc, MOST as usize)?;
        Ok(Line { bytes })
    }

    fn clear(&mut self)
        ensures { self.new ≡ [] }
    {
        self.bytes.clear();
    }

    fn push(&mut self, byte: u8)
        requires { length self.old < 4097 }
        ensures { self.new ≡ self.old ++ byte ∷ [] }
    {
        self.bytes.push(byte).unwrap();
    }

    /// Takes a line from the input, up to and with a line feed, which is not kept.
    pub fn fill<I: Source>(&mut self, input: &mut I) -> Result<LineEnd, Failed>
        requires { I.faults input.old < 2 ^ 64 - 1 }

        ensures fills { Fills (I.tells input.old) (I.tells input.new) self.new result }
        ensures faults { I.faults input.new ≡ faults_after (I.faults input.old) result }
    {
        self.clear();
        for _ in 0..MOST {
            let Some(byte) = input.next()? else {
                return Ok(LineEnd::Input);
            };
            if byte == b'\n' {
                return Ok(LineEnd::Feed);
            }
            self.push(byte);
        }
        Ok(LineEnd::Room)
    }

    /// The number that the line is, if it is one.
    pub fn number(&self) -> Option<i64>
        ensures { result ≡ number_of (trimmed self.now) }
    {
        number_of(trimmed(self.bytes.as_slice()))
    }
}

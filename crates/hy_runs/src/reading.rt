// Lines of input.
ghost use Rattle.std.specs.Prelude.{◌≡◌, ◌-◌, ◌^◌, ◌<◌, true, false, IfOk};
ghost use Rattle.hy_base.specs.Outside.{faults_after};
ghost use Rattle.hy_runs.specs.Lines.{IsRead};

use crate::line::{Line, LineEnd};
use hy_base::{Failed, NoMemory, Source};
use std::alloc::Global;
use std::marker::Model;

/// A reader of lines. It keeps room for a line from the start, so that reading takes no memory.
#[derive(Drop)]
pub struct Lines {
    line: Line,
    ended: bool,
}

impl Model for Lines {
    ghost use Rattle.hy_runs.specs.Lines.{Reader};

    ghost Value = { Reader };

    ghost view = { λ lines. record { ended = lines.ended } };
}

impl Lines {
    /// A reader that has met no end of the input.
    pub fn new(alloc: Global) -> Result<Lines, NoMemory>
        ensures { IfOk result (λ lines. lines.ended ≡ false) }
    {
        let line = Line::new(alloc)?;
        Ok(Lines { line, ended: false })
    }

    /// Takes a line and gives its number, or `None` where it is none. It takes up to and with a line feed, and 4,097 bytes at
    /// most. Once the source has said that nothing is left, it is asked no more.
    pub fn read<I: Source>(&mut self, input: &mut I) -> Result<Option<i64>, Failed>
        requires { I.faults input.old < 2 ^ 64 - 1 }

        ensures read { IsRead (I.tells input.old) (I.tells input.new) self.old self.new result }
        ensures faults { I.faults input.new ≡ faults_after (I.faults input.old) result }
        ensures untouched { self.old.ended ≡ true → input.new ≡ input.old }
    {
        if self.ended {
            return Ok(None);
        }
        match self.line.fill(input)? {
            LineEnd::Feed => Ok(self.line.number()),
            LineEnd::Input => {
                self.ended = true;
                Ok(self.line.number())
            }
            LineEnd::Room => Ok(None),
        }
    }
}

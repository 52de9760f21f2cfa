// An input in memory that fails.
ghost use Rattle.std.specs.Prelude.{◌≡◌, [], Some};

use hy_base::{Failed, Source};

/// Bytes to read one by one, all told. It fails at the calls that it is told to fail at; such a call takes nothing.
#[derive(Drop)]
pub struct MemSource {
    bytes: Vec<u8>,
    taken: usize,
    failing: Vec<u64>,
    calls: u64,
    faults: u64,
}

impl MemSource {
    /// A source of which nothing was taken yet. `failing` has the numbers of the calls that fail, counted from 0. The
    /// number of calls stays at its greatest value once it is there.
    pub fn new(bytes: Vec<u8>, failing: Vec<u64>) -> MemSource
        ensures faults { ⟦<MemSource as Source>⟧.faults result ≡ 0 }
        ensures told { ⟦<MemSource as Source>⟧.tells result ≡ Some (record { left = bytes.items; taken = [] }) }
    {
        MemSource {
            bytes,
            taken: 0,
            failing,
            calls: 0,
            faults: 0,
        }
    }
}

impl Source for MemSource {
    ghost use Rattle.std.specs.Prelude.{Some, take, drop};

    ghost faults = { λ source. source.faults };

    ghost tells = { λ source. Some (record { left = drop source.taken source.bytes.items; taken = take source.taken source.bytes.items }) };

    fn next(&mut self) -> Result<Option<u8>, Failed> {
        let fails = self.failing.contains(&self.calls);
        self.calls = self.calls.saturating_add(1);
        if fails {
            self.faults += 1;
            return Err(Failed);
        }
        match self.bytes.get(self.taken) {
            Some(byte) => {
                self.taken += 1;
                Ok(Some(*byte))
            }
            None => Ok(None),
        }
    }
}

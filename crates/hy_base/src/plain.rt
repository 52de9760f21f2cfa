// Input, output and files in memory that never fail: their count of faults is always 0.
ghost use Rattle.std.specs.Prelude.{◌≡◌, ◌≤◌, ◌+◌, ◌++◌, ℕ, List, [], Some, IsSome, IsOk, IfOk, IsErrOf, length, take, vec_len, ◌↔◌};
ghost use Rattle.std.specs.Option.{unwrap_or};
ghost use Rattle.hy_base.specs.Files.{Holding, file_faults_after, Loads, Stores};
ghost use Rattle.hy_base.specs.Memory.{bytes_under};
ghost use Rattle.hy_base.specs.Outside.{faults_after, StillTells};
ghost use Rattle.hy_base.specs.Streams.{Takes, Puts};

use crate::buffer::Buffer;
use crate::contents::{load_front, store_copy};
use crate::{Failed, FileFault, Files, NoMemory, Sink, Source};
use indexmap::IndexMap;
use std::alloc::Global;

/// Bytes to read one by one, all told. No call fails.
#[derive(Drop)]
pub struct PlainSource {
    bytes: Vec<u8>,
    taken: usize,
}

impl PlainSource {
    /// A source of which nothing was taken yet.
    pub fn new(bytes: Vec<u8>) -> PlainSource
        ensures { ⟦<PlainSource as Source>⟧.tells result ≡ Some (record { left = bytes.items; taken = [] }) }
    {
        PlainSource { bytes, taken: 0 }
    }
}

impl Source for PlainSource {
    ghost use Rattle.std.specs.Prelude.{Some, take, drop};

    ghost faults = { λ source. 0 };

    ghost tells = { λ source. Some (record { left = drop source.taken source.bytes.items; taken = take source.taken source.bytes.items }) };

    fn next(&mut self) -> Result<Option<u8>, Failed>
        ensures faults { ⟦<PlainSource as Source>⟧.faults self.new ≡ faults_after (⟦<PlainSource as Source>⟧.faults self.old) result }
        ensures bytes { StillTells (⟦<PlainSource as Source>⟧.tells self.old) (⟦<PlainSource as Source>⟧.tells self.new) (Takes result) }
        ensures told { IsSome (⟦<PlainSource as Source>⟧.tells self.new) }
        ensures works { IsOk result }
    {
        match self.bytes.get(self.taken) {
            Some(byte) => {
                self.taken += 1;
                Ok(Some(*byte))
            }
            None => Ok(None),
        }
    }
}

/// Where bytes are written, up to a fixed count. What does not fit is dropped, and from then on nothing is known. No
/// call fails.
#[derive(Drop)]
pub struct PlainSink {
    buffer: Buffer,
    whole: bool,
}

impl PlainSink {
    ghost use Rattle.hy_base.specs.Sinks.{kept, room_of};

    /// A sink with room for `room` bytes in all. The room is taken here, since a write has no answer for want of memory.
    pub fn new(alloc: Global, room: u32) -> Result<PlainSink, NoMemory>
        ensures empty { IfOk result (λ sink. kept sink ≡ []) }
        ensures room { IfOk result (λ sink. room_of sink ≡ room) }
        ensures told { IfOk result (λ sink. ⟦<PlainSink as Sink>⟧.tells sink ≡ Some []) }
    {
        let buffer = Buffer::with_room(alloc, room)?;
        Ok(PlainSink {
            buffer,
            whole: true,
        })
    }

    /// The first of all bytes that were written, as many as there is room for.
    pub fn bytes(&self) -> &[u8]
        ensures kept { result.now ≡ kept self.now }
        ensures told { (all : List ℕ) → ⟦<PlainSink as Sink>⟧.tells self.now ≡ Some all → result.now ≡ all }
    {
        self.buffer.as_slice()
    }
}

impl Sink for PlainSink {
    ghost use Rattle.std.specs.Prelude.{Some, None, cond};
    ghost use Rattle.hy_base.specs.Sinks.{kept, room_of};

    ghost faults = { λ sink. 0 };

    ghost tells = { λ sink. cond sink.whole (Some sink.buffer.bytes) None };

    fn put(&mut self, piece: &[u8]) -> Result<(), Failed>
        ensures faults { ⟦<PlainSink as Sink>⟧.faults self.new ≡ faults_after (⟦<PlainSink as Sink>⟧.faults self.old) result }
        ensures bytes { StillTells (⟦<PlainSink as Sink>⟧.tells self.old) (⟦<PlainSink as Sink>⟧.tells self.new) (Puts piece.now result) }
        ensures kept { kept self.new ≡ take (room_of self.old) (kept self.old ++ piece.now) }
        ensures room { room_of self.new ≡ room_of self.old }
        ensures told { IsSome (⟦<PlainSink as Sink>⟧.tells self.new) ↔ (IsSome (⟦<PlainSink as Sink>⟧.tells self.old)
            × (length (kept self.old) + length piece.now ≤ room_of self.old)) }
        ensures works { IsOk result }
    {
        if !self.buffer.fits(piece.len()) {
            self.whole = false;
        }
        self.buffer.put(piece);
        Ok(())
    }
}

/// Files that hold every name: one that was never stored is empty. No call fails but for want of memory.
#[derive(Drop)]
pub struct PlainFiles {
    contents: IndexMap<String, Vec<u8>>,
}

impl PlainFiles {
    /// Files with these contents.
    pub fn new(contents: IndexMap<String, Vec<u8>>) -> PlainFiles
        ensures { (n : List ℕ) → ⟦<PlainFiles as Files>⟧.holds result n ≡ Holding (unwrap_or (bytes_under contents n) []) }
    {
        PlainFiles { contents }
    }
}

impl Files for PlainFiles {
    ghost use Rattle.std.specs.Prelude.{[]};
    ghost use Rattle.std.specs.Option.{unwrap_or};
    ghost use Rattle.hy_base.specs.Files.{Holding};
    ghost use Rattle.hy_base.specs.Memory.{bytes_under};

    ghost faults = { λ files. 0 };

    ghost holds = { λ files name. Holding (unwrap_or (bytes_under files.contents name) []) };

    ghost load_may_fail = { λ files name. ⊥ };

    ghost store_may_fail = { λ files name. ⊥ };

    fn load(&mut self, alloc: Global, name: &str, most: u32) -> Result<Vec<u8>, FileFault>
        ensures faults { ⟦<PlainFiles as Files>⟧.faults self.new ≡ file_faults_after (⟦<PlainFiles as Files>⟧.faults self.old) result }
        ensures cause { IsErrOf result FileFault.Failed → ⊥ }
        ensures bytes { IfOk result (λ bytes. Loads (⟦<PlainFiles as Files>⟧.holds self.old name.now) most bytes.items) }
        ensures size { IfOk result (λ bytes. vec_len bytes ≤ most + 1) }
        ensures same { (n : List ℕ) → ⟦<PlainFiles as Files>⟧.holds self.new n ≡ ⟦<PlainFiles as Files>⟧.holds self.old n }
    {
        match load_front(alloc, &self.contents, name, most)? {
            Some(front) => Ok(front),
            None => Ok(Vec::new(alloc)),
        }
    }

    fn store(&mut self, alloc: Global, name: &str, bytes: &[u8]) -> Result<(), FileFault>
        ensures faults { ⟦<PlainFiles as Files>⟧.faults self.new ≡ file_faults_after (⟦<PlainFiles as Files>⟧.faults self.old) result }
        ensures cause { IsErrOf result FileFault.Failed → ⊥ }
        ensures bytes { Stores (⟦<PlainFiles as Files>⟧.holds self.old) (⟦<PlainFiles as Files>⟧.holds self.new) name.now bytes.now result }
    {
        store_copy(alloc, &mut self.contents, name, bytes)?;
        Ok(())
    }
}

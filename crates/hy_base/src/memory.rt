// Output and files in memory that fail at the calls that they are told to fail at.
ghost use Rattle.std.specs.Str.{bytes_eq};
ghost use Rattle.indexmap.specs.IndexSet.{contains_text};
ghost use Rattle.std.specs.Prelude.{◌≢◌, true, false, IsTrue, OnErr, ◌≡◌, ◌-◌, ◌^◌, ◌<◌, ◌≤◌, ◌+◌, ◌++◌, ◌⊎◌, ◌↔◌, ℕ, List, [], Some, IsSome, IsOk, IsErr};
ghost use Rattle.std.specs.Prelude.{IfOk, OnOk, IsErrOf, length, take, vec_len, Contains};
ghost use Rattle.hy_base.specs.Files.{Holding, IsHolding, file_faults_after, Loads, Stores};
ghost use Rattle.hy_base.specs.Memory.{bytes_under, held, next_call, cut_at, cut, IsToCome};
ghost use Rattle.hy_base.specs.Outside.{faults_after, StillTells};
ghost use Rattle.hy_base.specs.Streams.{Puts};

use crate::buffer::Buffer;
use crate::contents::{load_front, store_copy};
use crate::{Failed, FileFault, Files, NoMemory, Sink};
use indexmap::{IndexMap, IndexSet};
use std::alloc::Global;

/// Where bytes are written, up to a fixed count. It fails at the calls that it is told to fail at, and where a piece
/// does not fit. Its bytes are always told.
#[derive(Drop)]
pub struct MemSink {
    buffer: Buffer,
    failing: Vec<(u64, u32)>,
    calls: u64,
    faults: u64,
}

// How many bytes go out in the call of this number, where it is one that fails.
fn find_cut(failing: &[(u64, u32)], number: u64) -> Option<u32>
    ensures { result ≡ cut_at failing.now number }
{
    failing
        .iter()
        .find(|entry| entry.0 == number)
        .map(|entry| entry.1)
}

impl MemSink {
    ghost use Rattle.hy_base.specs.Sinks.{sent, sent_room, sink_failing, sink_call};

    /// A sink with room for `room` bytes in all, which is taken here. `failing` has the numbers of the calls that fail,
    /// counted from 0, each with how many bytes of the piece still go out; of two entries with one number the first
    /// counts. The number of calls stays at its greatest value once it is there.
    pub fn new(alloc: Global, failing: Vec<(u64, u32)>, room: u32) -> Result<MemSink, NoMemory>
        ensures room { IfOk result (λ sink. sent_room sink ≡ room) }
        ensures failing { IfOk result (λ sink. sink_failing sink ≡ failing.items) }
        ensures first { IfOk result (λ sink. sink_call sink ≡ 0) }
        ensures faults { IfOk result (λ sink. ⟦<MemSink as Sink>⟧.faults sink ≡ 0) }
        ensures told { IfOk result (λ sink. ⟦<MemSink as Sink>⟧.tells sink ≡ Some []) }
    {
        let buffer = Buffer::with_room(alloc, room)?;
        Ok(MemSink {
            buffer,
            failing,
            calls: 0,
            faults: 0,
        })
    }

    /// The bytes that went out.
    pub fn bytes(&self) -> &[u8]
        ensures sent { result.now ≡ sent self.now }
        ensures told { ⟦<MemSink as Sink>⟧.tells self.now ≡ Some result.now }
    {
        self.buffer.as_slice()
    }
}

impl Sink for MemSink {
    ghost use Rattle.std.specs.Prelude.{Some};
    ghost use Rattle.hy_base.specs.Sinks.{sent, sent_room, sink_failing, sink_call};

    ghost faults = { λ sink. sink.faults };

    ghost tells = { λ sink. Some sink.buffer.bytes };

    fn put(&mut self, piece: &[u8]) -> Result<(), Failed>
        requires { ⟦<MemSink as Sink>⟧.faults self.old < 2 ^ 64 - 1 }
        ensures faults { ⟦<MemSink as Sink>⟧.faults self.new ≡ faults_after (⟦<MemSink as Sink>⟧.faults self.old) result }
        ensures bytes { StillTells (⟦<MemSink as Sink>⟧.tells self.old) (⟦<MemSink as Sink>⟧.tells self.new) (Puts piece.now result) }
        ensures told { ⟦<MemSink as Sink>⟧.tells self.new ≡ Some (sent self.new) }
        ensures sent { sent self.new ≡ sent self.old ++ take (sent_room self.old - length (sent self.old))
            (cut (cut_at (sink_failing self.old) (sink_call self.old)) piece.now) }
        ensures failed { IsErr result ↔ (IsSome (cut_at (sink_failing self.old) (sink_call self.old))
            ⊎ (sent_room self.old < length (sent self.old) + length piece.now)) }
        ensures call { sink_call self.new ≡ next_call (sink_call self.old) }
        ensures failing { sink_failing self.new ≡ sink_failing self.old }
        ensures room { sent_room self.new ≡ sent_room self.old }
    {
        let found = find_cut(&self.failing, self.calls);
        let whole = found.is_none() && self.buffer.fits(piece.len());
        let most = match found {
            Some(count) => (count as usize).min(piece.len()),
            None => piece.len(),
        };
        self.calls = self.calls.saturating_add(1);
        self.buffer.put(&piece[..most]);
        if whole {
            return Ok(());
        }
        self.faults += 1;
        Err(Failed)
    }
}

// The calls that fail, and the number of the next call.
#[derive(Drop)]
struct Schedule {
    failing: Vec<u64>,
    calls: u64,
}

impl Schedule {
    // Whether the next call is one that fails. It counts that call.
    fn next_fails(&mut self) -> bool
        ensures fails { IsTrue result ↔ Contains self.old.failing.items self.old.calls }
        ensures call { self.new.calls ≡ next_call self.old.calls }
        ensures failing { self.new.failing.items ≡ self.old.failing.items }
        ensures due { IsTrue result → IsToCome self.old.failing.items self.old.calls }
        ensures later { IsToCome self.new.failing.items self.new.calls → IsToCome self.old.failing.items self.old.calls }
    {
        let fails = self.failing.contains(&self.calls);
        self.calls = self.calls.saturating_add(1);
        fails
    }
}

// Adds a name to those of which nothing is known.
fn lose(alloc: Global, lost: &mut IndexSet<String>, name: &str) -> Result<(), NoMemory>
    ensures lost { OnOk result (contains_text lost.new name.now ≡ true) }
    ensures others { OnOk result ((n : List ℕ) → n ≢ name.now → contains_text lost.new n ≡ contains_text lost.old n) }
    ensures unchanged { OnErr result ((n : List ℕ) → contains_text lost.new n ≡ contains_text lost.old n) }
{
    let key = String::from_str(alloc, name)?;
    lost.insert(key)?;
    Ok(())
}

// Takes a name out of those of which nothing is known.
fn find_again(lost: &mut IndexSet<String>, name: &str)
    ensures found { contains_text lost.new name.now ≡ false }
    ensures others { (n : List ℕ) → n ≢ name.now → contains_text lost.new n ≡ contains_text lost.old n }
{
    lost.swap_remove(name);
}

/// Files that fail at the calls that they are told to fail at, and at the load of a name that holds nothing.
#[derive(Drop)]
pub struct MemFiles {
    contents: IndexMap<String, Vec<u8>>,
    lost: IndexSet<String>,
    schedule: Schedule,
    faults: u64,
}

impl MemFiles {
    ghost use Rattle.std.specs.Prelude.{false};
    ghost use Rattle.hy_base.specs.Contents.{files_failing, files_call};

    /// Files with these contents. `failing` has the numbers of the calls that fail, where calls of `load` and `store` are
    /// counted together from 0, also those for which there was no memory. The number of calls stays at its greatest value
    /// once it is there. Of a name whose store failed nothing is known, and no load finds it, until it is stored again.
    pub fn new(alloc: Global, contents: IndexMap<String, Vec<u8>>, failing: Vec<u64>) -> MemFiles
        ensures holds { (n : List ℕ) → ⟦<MemFiles as Files>⟧.holds result n ≡ held false (bytes_under contents n) }
        ensures failing { files_failing result ≡ failing.items }
        ensures first { files_call result ≡ 0 }
        ensures faults { ⟦<MemFiles as Files>⟧.faults result ≡ 0 }
    {
        MemFiles {
            contents,
            lost: IndexSet::new(alloc),
            schedule: Schedule { failing, calls: 0 },
            faults: 0,
        }
    }
}

impl Files for MemFiles {
    ghost use Rattle.std.specs.Prelude.{◌≡◌, ◌⊎◌, ℕ, List};
    ghost use Rattle.indexmap.specs.IndexSet.{contains_text};
    ghost use Rattle.hy_base.specs.Files.{IsHolding};
    ghost use Rattle.hy_base.specs.Memory.{bytes_under, held, IsToCome};
    ghost use Rattle.hy_base.specs.Contents.{files_failing, files_call};

    ghost faults = { λ files. files.faults };

    ghost holds = { λ files name. held (contains_text files.lost name) (bytes_under files.contents name) };

    ghost load_may_fail = { λ files name. (IsHolding (held (contains_text files.lost name) (bytes_under files.contents name)) → ⊥)
        ⊎ IsToCome files.schedule.failing.items files.schedule.calls };

    ghost store_may_fail = { λ files name. IsToCome files.schedule.failing.items files.schedule.calls };

    fn load(&mut self, alloc: Global, name: &str, most: u32) -> Result<Vec<u8>, FileFault>
        requires { ⟦<MemFiles as Files>⟧.faults self.old < 2 ^ 64 - 1 }
        ensures faults { ⟦<MemFiles as Files>⟧.faults self.new ≡ file_faults_after (⟦<MemFiles as Files>⟧.faults self.old) result }
        ensures cause { IsErrOf result FileFault.Failed → ⟦<MemFiles as Files>⟧.load_may_fail self.old name.now }
        ensures bytes { IfOk result (λ bytes. Loads (⟦<MemFiles as Files>⟧.holds self.old name.now) most bytes.items) }
        ensures size { IfOk result (λ bytes. vec_len bytes ≤ most + 1) }
        ensures same { (n : List ℕ) → ⟦<MemFiles as Files>⟧.holds self.new n ≡ ⟦<MemFiles as Files>⟧.holds self.old n }
        ensures loads { (n : List ℕ) → ⟦<MemFiles as Files>⟧.load_may_fail self.new n → ⟦<MemFiles as Files>⟧.load_may_fail self.old n }
        ensures stores { (n : List ℕ) → ⟦<MemFiles as Files>⟧.store_may_fail self.new n → ⟦<MemFiles as Files>⟧.store_may_fail self.old n }
        ensures failed { IsErrOf result FileFault.Failed → Contains (files_failing self.old) (files_call self.old)
            ⊎ (IsHolding (⟦<MemFiles as Files>⟧.holds self.old name.now) → ⊥) }
        ensures works { OnOk result ((Contains (files_failing self.old) (files_call self.old) → ⊥)
            × IsHolding (⟦<MemFiles as Files>⟧.holds self.old name.now)) }
        ensures call { files_call self.new ≡ next_call (files_call self.old) }
        ensures failing { files_failing self.new ≡ files_failing self.old }
    {
        if self.schedule.next_fails() || self.lost.contains(name) {
            self.faults += 1;
            return Err(FileFault::Failed);
        }
        match load_front(alloc, &self.contents, name, most)? {
            Some(front) => Ok(front),
            None => {
                self.faults += 1;
                Err(FileFault::Failed)
            }
        }
    }

    fn store(&mut self, alloc: Global, name: &str, bytes: &[u8]) -> Result<(), FileFault>
        requires { ⟦<MemFiles as Files>⟧.faults self.old < 2 ^ 64 - 1 }
        ensures faults { ⟦<MemFiles as Files>⟧.faults self.new ≡ file_faults_after (⟦<MemFiles as Files>⟧.faults self.old) result }
        ensures cause { IsErrOf result FileFault.Failed → ⟦<MemFiles as Files>⟧.store_may_fail self.old name.now }
        ensures bytes { Stores (⟦<MemFiles as Files>⟧.holds self.old) (⟦<MemFiles as Files>⟧.holds self.new) name.now bytes.now result }
        ensures loads { (n : List ℕ) → ⟦<MemFiles as Files>⟧.load_may_fail self.new n → ⟦<MemFiles as Files>⟧.load_may_fail self.old n }
        ensures stores { (n : List ℕ) → ⟦<MemFiles as Files>⟧.store_may_fail self.new n → ⟦<MemFiles as Files>⟧.store_may_fail self.old n }
        ensures failed { IsErrOf result FileFault.Failed → Contains (files_failing self.old) (files_call self.old) }
        ensures works { OnOk result (Contains (files_failing self.old) (files_call self.old) → ⊥) }
        ensures told { OnOk result (⟦<MemFiles as Files>⟧.holds self.new name.now ≡ Holding bytes.now) }
        ensures call { files_call self.new ≡ next_call (files_call self.old) }
        ensures failing { files_failing self.new ≡ files_failing self.old }
    {
        if self.schedule.next_fails() {
            lose(alloc, &mut self.lost, name)?;
            self.faults += 1;
            return Err(FileFault::Failed);
        }
        store_copy(alloc, &mut self.contents, name, bytes)?;
        find_again(&mut self.lost, name);
        Ok(())
    }
}

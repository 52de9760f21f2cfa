// The files, the input and the output of the system. They tell nothing of what they hold; each call that the system
// refuses is counted as a fault.
ghost use Rattle.std.specs.Prelude.{◌≡◌, ◌≤◌, ◌+◌, ◌-◌, ◌^◌, ◌<◌, ℕ, List, None, vec_len, IfOk, IsErrOf};
ghost use Rattle.hy_base.specs.Files.{Untold, file_faults_after};
ghost use Rattle.hyloc.specs.declared.host.TheConstants.{PIECE};

use hy_base::{Failed, FileFault, Files, Sink, Source};
use std::alloc::Global;
use std::io::{Read, Write};
use std::{fs, rt};

const PIECE: usize = 4096;

/// The system's files.
#[derive(Drop)]
pub struct HostFiles<R: rt::Files + Drop> {
    runtime: R,
    faults: u64,
}

impl<R: rt::Files + Drop> HostFiles<R> {
    /// The files that the runtime reaches.
    pub fn new(runtime: R) -> Self
        ensures { result.faults ≡ 0 }
    {
        HostFiles { runtime, faults: 0 }
    }
}

// The first `most + 1` bytes of a reader, or all where there are fewer.
fn read_front<R: Read>(alloc: Global, reader: &mut R, most: u32) -> Result<Vec<u8>, FileFault>
    ensures { IfOk result (λ bytes. vec_len bytes ≤ most + 1) }
{
    let wanted = most as usize + 1;
    let mut bytes = Vec::new(alloc);
    let mut piece = [0u8; PIECE];
    while bytes.len() < wanted {
        let room = (wanted - bytes.len()).min(PIECE);
        let Ok(count) = reader.read(&mut piece[..room]) else {
            return Err(FileFault::Failed);
        };
        if count == 0 {
            break;
        }
        let Ok(()) = bytes.extend_from_slice(&piece[..count]) else {
            return Err(FileFault::NoMemory);
        };
    }
    Ok(bytes)
}

fn load_file<R: rt::Files>(
    runtime: &R,
    alloc: Global,
    name: &str,
    most: u32,
) -> Result<Vec<u8>, FileFault>
    ensures { IfOk result (λ bytes. vec_len bytes ≤ most + 1) }
{
    let Ok(mut file) = fs::open(runtime, name) else {
        return Err(FileFault::Failed);
    };
    read_front(alloc, &mut file, most)
}

impl<R: rt::Files + Drop> Files for HostFiles<R> {
    ghost faults = { λ files. files.faults };

    ghost holds = { λ files name. Untold };

    ghost load_may_fail = { λ files name. Unit {0} };

    ghost store_may_fail = { λ files name. Unit {0} };

    fn load(&mut self, alloc: Global, name: &str, most: u32) -> Result<Vec<u8>, FileFault> {
        let loaded = load_file(&self.runtime, alloc, name, most);
        if let Err(FileFault::Failed) = loaded {
            self.faults += 1;
        }
        loaded
    }

    fn store(&mut self, _alloc: Global, name: &str, bytes: &[u8]) -> Result<(), FileFault> {
        match fs::write(&self.runtime, name, bytes) {
            Ok(()) => Ok(()),
            Err(_) => {
                self.faults += 1;
                Err(FileFault::Failed)
            }
        }
    }
}

/// The system's input, read in pieces.
#[derive(Drop)]
pub struct HostInput<R: Read + Drop> {
    reader: R,
    piece: [u8; PIECE],
    at: usize,
    end: usize,
    faults: u64,
    ghost within: { end ≤ PIECE },
}

impl<R: Read + Drop> HostInput<R> {
    /// Input from this reader.
    pub fn new(reader: R) -> Self
        ensures { result.faults ≡ 0 }
    {
        HostInput {
            reader,
            piece: [0; PIECE],
            at: 0,
            end: 0,
            faults: 0,
        }
    }
}

impl<R: Read + Drop> Source for HostInput<R> {
    ghost faults = { λ input. input.faults };

    ghost tells = { λ input. None };

    fn next(&mut self) -> Result<Option<u8>, Failed> {
        if self.at >= self.end {
            let Ok(count) = self.reader.read(&mut self.piece) else {
                self.faults += 1;
                return Err(Failed);
            };
            self.at = 0;
            self.end = count;
        }
        if self.at >= self.end {
            return Ok(None);
        }
        let byte = self.piece[self.at];
        self.at += 1;
        Ok(Some(byte))
    }
}

/// The system's output, flushed after each piece.
#[derive(Drop)]
pub struct HostOutput<W: Write + Drop> {
    writer: W,
    faults: u64,
}

impl<W: Write + Drop> HostOutput<W> {
    /// Output to this writer.
    pub fn new(writer: W) -> Self
        ensures { result.faults ≡ 0 }
    {
        HostOutput { writer, faults: 0 }
    }
}

// Whether all of the piece went out. A write that takes nothing has failed.
fn write_whole<W: Write>(writer: &mut W, piece: &[u8]) -> bool {
    let mut rest = piece;
    while !rest.is_empty() {
        let Ok(count) = writer.write(rest) else {
            return false;
        };
        if count == 0 {
            return false;
        }
        rest = &rest[count..];
    }
    writer.flush().is_ok()
}

impl<W: Write + Drop> Sink for HostOutput<W> {
    ghost faults = { λ out. out.faults };

    ghost tells = { λ out. None };

    fn put(&mut self, piece: &[u8]) -> Result<(), Failed> {
        if write_whole(&mut self.writer, piece) {
            return Ok(());
        }
        self.faults += 1;
        Err(Failed)
    }
}

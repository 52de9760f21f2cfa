// Bytes with room for a fixed count, taken when it is made, so that no write wants memory.
ghost use Rattle.std.specs.Prelude.{◌≡◌, ◌-◌, ◌≤◌, ◌++◌, [], length, take, nat_le, IfOk};

use crate::NoMemory;
use std::alloc::Global;
use std::marker::Model;

#[derive(Drop)]
pub(crate) struct Buffer {
    bytes: Vec<u8>,
    room: u32,
}

impl Model for Buffer {
    ghost use Rattle.std.specs.Prelude.{◌≤◌, vec_len, vec_capacity};
    ghost use Rattle.hy_base.specs.Filled.{Filled};

    ghost Value = { Filled };

    ghost view = { λ buffer. record { bytes = buffer.bytes.items; room = buffer.room } };

    ghost invariant = { λ buffer. (vec_len buffer.bytes ≤ buffer.room) × (buffer.room ≤ vec_capacity buffer.bytes) };
}

impl Buffer {
    pub(crate) fn with_room(alloc: Global, room: u32) -> Result<Buffer, NoMemory>
        ensures { IfOk result (λ buffer. (buffer.bytes ≡ []) × (buffer.room ≡ room)) }
    {
        let bytes = Vec::with_capacity(alloc, room as usize)?;
        Ok(Buffer { bytes, room })
    }

    pub(crate) fn as_slice(&self) -> &[u8]
        ensures { result.now ≡ self.now.bytes }
    {
        self.bytes.as_slice()
    }

    // Whether a piece of this length fits whole.
    pub(crate) fn fits(&self, count: usize) -> bool
        ensures fits { result ≡ nat_le count (self.now.room - length self.now.bytes) }
        ensures within { length self.now.bytes ≤ self.now.room }
    {
        count <= self.room as usize - self.bytes.len()
    }

    // Appends a piece, or as much of its front as there is room for.
    pub(crate) fn put(&mut self, piece: &[u8])
        ensures bytes { self.new.bytes ≡ self.old.bytes ++ take (self.old.room - length self.old.bytes) piece.now }
        ensures room { self.new.room ≡ self.old.room }
    {
        let left = self.room as usize - self.bytes.len();
        let front = &piece[..left.min(piece.len())];
        self.bytes.extend_from_slice(front).unwrap();
    }
}

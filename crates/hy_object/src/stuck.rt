/// Why an instruction cannot be done. `docs/MACHINE.md` says where each comes, and in which order they are looked for.
#[derive(Clone, Copy, Debug, PartialEq, Eq)]
pub enum Kind {
    /// A cell or an array is of a freed block.
    Freed,
    /// A cell that is read, copied or moved is unset.
    Unset,
    /// Cells are outside the frame, the access or the block, or two ranges overlap.
    Range,
    /// A block's name is found where a word is wanted, or the reverse.
    Kind,
    /// The use is not allowed beside a live access, or is a write through an access that reads.
    Access,
    /// A slot is empty where an access is wanted, taken where it is to be filled, or cannot be closed, or is open at the end.
    Slot,
    /// A block's name would be lost.
    Lost,
    /// A subscript's yield, slide or end comes where it may not.
    Order,
}

/// The place of an instruction: the number of its function in the object, and its own in that function's code.
#[derive(Clone, Copy, Debug, PartialEq, Eq)]
pub struct Pc {
    pub fun: u32,
    pub at: u32,
}

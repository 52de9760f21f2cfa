// What an access is.
ghost use Rattle.std.specs.Prelude.{◌↔◌, IsTrue};
ghost use Rattle.hy_access.specs.Accesses.{Meets};

/// The name of a live access. It names that access until it is closed, and may be given to a later one then.
#[derive(Clone, Copy, Debug, PartialEq, Eq)]
pub struct AccId {
    /// The place at which the access is kept.
    pub slot: u32,
}

/// Some cells of a block, one after the other. It may be without cells.
#[derive(Clone, Copy, Debug, PartialEq, Eq)]
pub struct Range {
    /// The name of the block.
    pub block: u64,
    /// The first cell, counted from 0, in words.
    pub from: u32,
    /// How many cells, in words.
    pub len: u32,
}

/// What may be done through an access.
#[derive(Clone, Copy, Debug, PartialEq, Eq)]
pub enum Way {
    /// Its cells may be read.
    Read,
    /// Its cells may be read, changed and moved out.
    Write,
}

impl Range {
    /// Whether two ranges have a cell in common. Ranges of different blocks have none, and a range without cells has
    /// none with any.
    pub fn meets(&self, other: &Range) -> bool
        ensures { IsTrue result ↔ Meets self.now other.now }
    {
        let end = u64::from(self.from) + u64::from(self.len);
        let other_end = u64::from(other.from) + u64::from(other.len);
        let first = u64::from(self.from.max(other.from));
        self.block == other.block && first < end && first < other_end
    }
}

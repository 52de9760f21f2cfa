// Cells of memory, and rows of them.
ghost use Rattle.std.specs.Prelude.{◌≡◌, ◌≤◌, ◌+◌, length, replicate, slice_get};
ghost use Rattle.hy_store.specs.Cells.{Unset, all_set, cell_in, no_name, window, with_window};

/// What a place of memory holds.
#[derive(Clone, Copy, Debug, PartialEq, Eq)]
pub enum Cell {
    Unset,
    Word(i64),
    /// The name of a block.
    Name(u64),
}

/// Whether every cell is set.
pub fn are_set(cells: &[Cell]) -> bool
    ensures { result ≡ all_set cells.now }
{
    for cell in cells {
        if let Cell::Unset = cell {
            return false;
        }
    }
    true
}

/// Whether no cell holds a name.
pub fn are_nameless(cells: &[Cell]) -> bool
    ensures { result ≡ no_name cells.now }
{
    for cell in cells {
        if let Cell::Name(_) = cell {
            return false;
        }
    }
    true
}

/// The cell at that place; one that does not exist is unset.
pub fn cell_at(cells: &[Cell], at: usize) -> Cell
    ensures { result ≡ cell_in (slice_get cells.now at) }
{
    match cells.get(at) {
        Some(cell) => *cell,
        None => Cell::Unset,
    }
}

/// So many cells from that place on.
pub fn window(cells: &[Cell], from: u32, words: u32) -> &[Cell]
    requires { from + words ≤ length cells.now }
    ensures { result.now ≡ window cells.now from words }
{
    let from = from as usize;
    &cells[from..from + words as usize]
}

/// Stores these cells from that place on.
pub fn put(cells: &mut [Cell], from: u32, new: &[Cell])
    requires { from + length new.now ≤ length cells.old }
    ensures { cells.new ≡ with_window cells.old from new.now }
{
    let from = from as usize;
    cells[from..from + new.len()].copy_from_slice(new);
}

/// Unsets so many cells from that place on.
pub fn unset(cells: &mut [Cell], from: u32, words: u32)
    requires { from + words ≤ length cells.old }
    ensures { cells.new ≡ with_window cells.old from (replicate words Unset) }
{
    let from = from as usize;
    cells[from..from + words as usize].fill(Cell::Unset);
}

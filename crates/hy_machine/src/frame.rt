// The words of a frame, and what an instruction does to them.
ghost use Rattle.std.specs.Prelude.{◌≡◌, ◌≤◌, ◌+◌, length, replicate, slice_get, slice_set, IfOk, Some};
ghost use Rattle.hy_base.specs.declared.position.Span.{Span};
ghost use Rattle.hy_object.specs.declared.object.Object.{Object};
ghost use Rattle.hy_object.specs.declared.instr.Instr.TheVariants as instr;
ghost use Rattle.hy_object.specs.Checks.{span_of};
ghost use Rattle.hy_machine.specs.Machine.{Unset, all_set, overlap, window, with_window};
ghost use Rattle.hy_machine.specs.Frames.{word_of, reached, Takes, IsSilent};

use hy_base::{End, RunCause, Span, TrapKind};
use hy_object::{Kind, Object, Place};
use std::alloc::{AllocError, Global};

/// A word of memory, with whether it is set.
#[derive(Clone, Copy, Debug, PartialEq, Eq)]
pub enum Cell {
    Unset,
    Word(i64),
}

/// Why no further instruction follows (`docs/MACHINE.md`).
#[derive(Clone, Copy, Debug, PartialEq, Eq)]
pub enum Halt {
    /// The run is at its end.
    Ended(End),
    /// The instruction cannot be done, for this reason. A safe object never comes here.
    Stuck(Kind),
    /// The output failed, or memory ran out.
    Cut(RunCause),
}

/// A frame of that many words, none of them set.
pub fn unset_frame(alloc: Global, words: u32) -> Result<Vec<Cell>, AllocError>
    ensures { IfOk result (λ frame. frame.items ≡ replicate words Unset) }
{
    let mut frame = Vec::new(alloc);
    for _ in 0..words {
        frame.push(Cell::Unset)?;
    }
    Ok(frame)
}

/// The word at that place of the frame.
pub fn read(frame: &[Cell], at: u32) -> Result<i64, Halt>
    ensures { result ≡ word_of (slice_get frame.now at) }
{
    match frame.get(at as usize) {
        None => Err(Halt::Stuck(Kind::Range)),
        Some(Cell::Unset) => Err(Halt::Stuck(Kind::Unset)),
        Some(Cell::Word(n)) => Ok(*n),
    }
}

fn set(frame: &mut [Cell], at: u32, cell: Cell)
    ensures { frame.new ≡ slice_set frame.old at cell }
{
    let at = at as usize;
    if at < frame.len() {
        frame[at] = cell;
    }
}

fn reach(frame: &[Cell], place: Place, words: u32) -> Result<(), Halt>
    ensures { result ≡ reached frame.now place words }
{
    if place.base != 0 {
        return Err(Halt::Stuck(Kind::Slot));
    }
    if place.offset as usize + words as usize > frame.len() {
        return Err(Halt::Stuck(Kind::Range));
    }
    Ok(())
}

fn are_set(cells: &[Cell]) -> bool
    ensures { result ≡ all_set cells.now }
{
    for cell in cells {
        if *cell == Cell::Unset {
            return false;
        }
    }
    true
}

fn span_in(spans: &[Span], number: u32) -> Span
    ensures { result ≡ span_of (slice_get spans.now number) }
{
    match spans.get(number as usize) {
        None => Span { from: 0, to: 0 },
        Some(span) => *span,
    }
}

/// Stores the value.
pub fn store(frame: &mut [Cell], to: u32, value: i64)
    ensures { (object : Object) → Takes object (instr.Const to value) frame.old frame.new (Ok tt) }
{
    set(frame, to, Cell::Word(value));
}

/// Stores the sum, or traps at the span where it does not fit.
pub fn add(
    frame: &mut [Cell],
    object: &Object,
    to: u32,
    a: u32,
    b: u32,
    span: u32,
) -> Result<(), Halt>
    ensures takes { Takes object.now (instr.Add to a b span) frame.old frame.new result }
    ensures silent { IsSilent result }
{
    let m = read(frame, a)?;
    let n = read(frame, b)?;
    match m.checked_add(n) {
        Some(sum) => {
            set(frame, to, Cell::Word(sum));
            Ok(())
        }
        None => Err(Halt::Ended(End::Trap(
            TrapKind::Overflow,
            span_in(object.spans.as_slice(), span),
        ))),
    }
}

/// Copies words.
pub fn copy_words(frame: &mut [Cell], to: Place, from: Place, words: u32) -> Result<(), Halt>
    ensures takes { (object : Object) → Takes object (instr.Copy to from words) frame.old frame.new result }
    ensures silent { IsSilent result }
{
    reach(frame, to, words)?;
    reach(frame, from, words)?;
    if !are_set(window(frame, from.offset, words)) {
        return Err(Halt::Stuck(Kind::Unset));
    }
    copy_window(frame, to.offset, from.offset, words);
    Ok(())
}

/// Moves words; where they were is unset.
pub fn move_words(frame: &mut [Cell], to: Place, from: Place, words: u32) -> Result<(), Halt>
    ensures takes { (object : Object) → Takes object (instr.Move to from words) frame.old frame.new result }
    ensures silent { IsSilent result }
{
    reach(frame, to, words)?;
    reach(frame, from, words)?;
    if overlap(to.offset, from.offset, words) {
        return Err(Halt::Stuck(Kind::Range));
    }
    if !are_set(window(frame, from.offset, words)) {
        return Err(Halt::Stuck(Kind::Unset));
    }
    copy_window(frame, to.offset, from.offset, words);
    unset_window(frame, from.offset, words);
    Ok(())
}

// Whether two ranges of that many words have one in common.
fn overlap(a: u32, b: u32, words: u32) -> bool
    ensures { result ≡ overlap a b words }
{
    let (a, b, words) = (u64::from(a), u64::from(b), u64::from(words));
    a < b + words && b < a + words
}

fn window(frame: &[Cell], from: u32, words: u32) -> &[Cell]
    requires { from + words ≤ length frame.now }
    ensures { result.now ≡ window frame.now from words }
{
    let from = from as usize;
    &frame[from..from + words as usize]
}

fn copy_window(frame: &mut [Cell], to: u32, from: u32, words: u32)
    requires to_fits { to + words ≤ length frame.old }
    requires from_fits { from + words ≤ length frame.old }
    ensures { frame.new ≡ with_window frame.old to (window frame.old from words) }
{
    let from = from as usize;
    frame.copy_within(from..from + words as usize, to as usize);
}

fn unset_window(frame: &mut [Cell], from: u32, words: u32)
    requires { from + words ≤ length frame.old }
    ensures { frame.new ≡ with_window frame.old from (replicate words Unset) }
{
    let from = from as usize;
    frame[from..from + words as usize].fill(Cell::Unset);
}

// How many scratch words and slots the segments of a body use.
ghost use Rattle.std.specs.Prelude.{◌≡◌, ◌+◌, map, length, max, IfOk};
ghost use Rattle.std.specs.Option.{option_map};
ghost use Rattle.hy_core.specs.Denotes.{op_of, place_of, stmt_of, stmts_of};
ghost use Rattle.hy_lower.specs.Code.{all_sizes, built_words, depth_all, depth_of, most, most_some, rest_sizes, scratch_all, scratch_of};
ghost use Rattle.hy_lower.specs.Code.{size_some};
ghost use Rattle.hy_lower.specs.Denotes.{frame};
ghost use Rattle.hy_lower.specs.Frames.{indexes};
ghost use Rattle.hy_lower.specs.Places.{place_size};

use crate::body::Body;
use crate::numbers::{count, plus};
use crate::places::{indexes, place_size};
use hy_base::NoMemory;
use hy_core::{CoreOp, CorePlace, CoreStmt};

fn larger(a: u32, b: u32) -> u32
    ensures { result ≡ max a b }
{
    if a < b { b } else { a }
}

// SLOTS

fn with_place(so_far: u32, place: &CorePlace) -> Result<u32, NoMemory>
    ensures { IfOk result (λ n. n ≡ max so_far (indexes (place_of place.now).steps)) }
{
    let steps = indexes(place.steps.as_slice())?;
    Ok(larger(so_far, steps))
}

fn most(so_far: u32, places: &[CorePlace]) -> Result<u32, NoMemory>
    ensures { IfOk result (λ n. n ≡ most so_far (map place_of places.now)) }
{
    let mut greatest = so_far;
    let mut left = places;
    while let Some((place, more)) = left.split_first() {
        greatest = with_place(greatest, place)?;
        left = more;
    }
    Ok(greatest)
}

fn most_some(so_far: u32, place: &Option<CorePlace>) -> Result<u32, NoMemory>
    ensures { IfOk result (λ n. n ≡ most_some so_far (option_map place_of place.now)) }
{
    match place {
        None => Ok(so_far),
        Some(place) => with_place(so_far, place),
    }
}

fn with_two(so_far: u32, to: &CorePlace, from: &CorePlace) -> Result<u32, NoMemory>
    ensures { IfOk result (λ n. n ≡ max (max so_far (indexes (place_of to.now).steps)) (indexes (place_of from.now).steps)) }
{
    let first = with_place(so_far, to)?;
    with_place(first, from)
}

/// The greatest of a number and of the index steps of a place that one of these statements opens itself.
#[cycle(depth)]
pub(crate) fn depth_all(so_far: u32, stmts: &[CoreStmt]) -> Result<u32, NoMemory>
    ensures { IfOk result (λ n. n ≡ depth_all so_far (stmts_of stmts.now)) }
{
    let mut greatest = so_far;
    for stmt in stmts {
        greatest = depth_of(greatest, stmt)?;
    }
    Ok(greatest)
}

#[cycle(depth)]
#[tactic(auto, using(hy_core::proofs::Equations::statements))]
fn depth_of(so_far: u32, stmt: &CoreStmt) -> Result<u32, NoMemory>
    ensures { IfOk result (λ n. n ≡ depth_of so_far (stmt_of stmt.now)) }
{
    match stmt {
        CoreStmt::Built {
            op: _,
            to,
            from,
            spans: _,
        } => {
            let first = most_some(so_far, to)?;
            most(first, from.as_slice())
        }
        CoreStmt::Set { to, value: _ } => with_place(so_far, to),
        CoreStmt::Move { to, from } => with_two(so_far, to, from),
        CoreStmt::Copy { to, from } => with_two(so_far, to, from),
        CoreStmt::Drop { place } => with_place(so_far, place),
        CoreStmt::Call {
            fun: _,
            lent: _,
            owned,
            to,
        } => {
            let first = with_place(so_far, to)?;
            most(first, owned.as_slice())
        }
        CoreStmt::Project {
            fun: _,
            lent: _,
            owned,
            to: _,
        } => most(so_far, owned.as_slice()),
        CoreStmt::If { on: _, yes, no } => {
            let first = depth_all(so_far, yes.as_slice())?;
            depth_all(first, no.as_slice())
        }
        CoreStmt::While { head, on: _, body } => {
            let first = depth_all(so_far, head.as_slice())?;
            depth_all(first, body.as_slice())
        }
        CoreStmt::Leave { from } => with_place(so_far, from),
        CoreStmt::Lend {
            to: _,
            place: _,
            write: _,
        } => Ok(so_far),
        CoreStmt::Close { of: _ } => Ok(so_far),
        CoreStmt::Slide { of: _ } => Ok(so_far),
        CoreStmt::Yield { of: _ } => Ok(so_far),
        CoreStmt::Break => Ok(so_far),
        CoreStmt::Continue => Ok(so_far),
    }
}

// WORDS

fn all_sizes(body: &Body, places: &[CorePlace]) -> Result<u32, NoMemory>
    ensures { IfOk result (λ n. n ≡ all_sizes (frame body.now) (map place_of places.now)) }
{
    let mut sum = 0u32;
    let mut left = places;
    while let Some((place, more)) = left.split_first() {
        sum = plus(sum, place_size(body, place))?;
        left = more;
    }
    Ok(sum)
}

fn rest_sizes(body: &Body, places: &[CorePlace]) -> Result<u32, NoMemory>
    ensures { IfOk result (λ n. n ≡ rest_sizes (frame body.now) (map place_of places.now)) }
{
    match places.split_first() {
        None => Ok(0),
        Some((_, more)) => all_sizes(body, more),
    }
}

fn size_some(body: &Body, place: &Option<CorePlace>) -> u32
    ensures { result ≡ size_some (frame body.now) (option_map place_of place.now) }
{
    match place {
        None => 0,
        Some(place) => place_size(body, place),
    }
}

fn operand_words(from: &[CorePlace]) -> Result<u32, NoMemory>
    ensures { IfOk result (λ n. n ≡ length (map place_of from.now) + 1) }
{
    let operands = count(from.len())?;
    plus(operands, 1)
}

fn built_words(
    body: &Body,
    op: CoreOp,
    to: &Option<CorePlace>,
    from: &[CorePlace],
) -> Result<u32, NoMemory>
    ensures { IfOk result (λ n. n ≡ built_words (frame body.now) (op_of op) (option_map place_of to.now) (map place_of from.now)) }
{
    match op {
        CoreOp::Push => rest_sizes(body, from),
        CoreOp::Pop => Ok(size_some(body, to)),
        CoreOp::Add
        | CoreOp::Sub
        | CoreOp::Mul
        | CoreOp::Div
        | CoreOp::Rem
        | CoreOp::Neg
        | CoreOp::Convert(_)
        | CoreOp::Eq
        | CoreOp::Lt
        | CoreOp::Le
        | CoreOp::Not
        | CoreOp::NewArray
        | CoreOp::Swap
        | CoreOp::Count
        | CoreOp::FreeArray
        | CoreOp::Print
        | CoreOp::Read
        | CoreOp::Check => operand_words(from),
    }
}

fn two_sizes(body: &Body, so_far: u32, to: &CorePlace, from: &CorePlace) -> u32
    ensures { result ≡ max (max so_far (place_size (frame body.now) (place_of to.now))) (place_size (frame body.now) (place_of from.now)) }
{
    let first = larger(so_far, place_size(body, to));
    larger(first, place_size(body, from))
}

/// The greatest of a number and of the scratch words that the segment of one of these statements uses.
#[cycle(scratch)]
pub(crate) fn scratch_all(body: &Body, so_far: u32, stmts: &[CoreStmt]) -> Result<u32, NoMemory>
    ensures { IfOk result (λ n. n ≡ scratch_all (frame body.now) so_far (stmts_of stmts.now)) }
{
    let mut greatest = so_far;
    for stmt in stmts {
        greatest = scratch_of(body, greatest, stmt)?;
    }
    Ok(greatest)
}

#[cycle(scratch)]
#[tactic(auto, using(hy_core::proofs::Equations::statements))]
fn scratch_of(body: &Body, so_far: u32, stmt: &CoreStmt) -> Result<u32, NoMemory>
    ensures { IfOk result (λ n. n ≡ scratch_of (frame body.now) so_far (stmt_of stmt.now)) }
{
    match stmt {
        CoreStmt::Built {
            op,
            to,
            from,
            spans: _,
        } => {
            let words = built_words(body, *op, to, from.as_slice())?;
            Ok(larger(so_far, words))
        }
        CoreStmt::Set { to, value: _ } => Ok(larger(so_far, place_size(body, to))),
        CoreStmt::Move { to, from } => Ok(two_sizes(body, so_far, to, from)),
        CoreStmt::Copy { to, from } => Ok(two_sizes(body, so_far, to, from)),
        CoreStmt::Call {
            fun: _,
            lent: _,
            owned,
            to,
        } => {
            let first = larger(so_far, place_size(body, to));
            let words = all_sizes(body, owned.as_slice())?;
            Ok(larger(first, words))
        }
        CoreStmt::Project {
            fun: _,
            lent: _,
            owned,
            to: _,
        } => {
            let words = all_sizes(body, owned.as_slice())?;
            Ok(larger(so_far, words))
        }
        CoreStmt::If { on: _, yes, no } => {
            let first = scratch_all(body, larger(so_far, 1), yes.as_slice())?;
            scratch_all(body, first, no.as_slice())
        }
        CoreStmt::While {
            head,
            on: _,
            body: pass,
        } => {
            let first = scratch_all(body, larger(so_far, 1), head.as_slice())?;
            scratch_all(body, first, pass.as_slice())
        }
        CoreStmt::Leave { from } => Ok(larger(so_far, place_size(body, from))),
        CoreStmt::Drop { place: _ } => Ok(so_far),
        CoreStmt::Lend {
            to: _,
            place: _,
            write: _,
        } => Ok(so_far),
        CoreStmt::Close { of: _ } => Ok(so_far),
        CoreStmt::Slide { of: _ } => Ok(so_far),
        CoreStmt::Yield { of: _ } => Ok(so_far),
        CoreStmt::Break => Ok(so_far),
        CoreStmt::Continue => Ok(so_far),
    }
}

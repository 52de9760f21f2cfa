// How many instructions the segments of statements have.
ghost use Rattle.std.specs.Prelude.{◌≡◌, ◌+◌, map, length, IfOk};
ghost use Rattle.std.specs.Option.{option_map};
ghost use Rattle.hy_core.specs.Denotes.{op_of, place_of, stmt_of, stmts_of};
ghost use Rattle.hy_lower.specs.Arrays.{arrays_in};
ghost use Rattle.hy_lower.specs.Places.{place_size, type_of};
ghost use Rattle.hy_lower.specs.Code.{built_length, change_length, close_length, constant_length, first_length, give_length, last_length};
ghost use Rattle.hy_lower.specs.Code.{lend_length, length_all, length_of, loads_length, scalar_length, stores_length, through_length};
ghost use Rattle.hy_lower.specs.Denotes.{frame};

use crate::arrays::arrays_in;
use crate::body::{Body, Home};
use crate::numbers::{count, plus};
use crate::places::{home_of, indexes, is_counted, place_size, type_of};
use hy_base::NoMemory;
use hy_core::{CoreOp, CorePlace, CoreStmt};

// So many at a place that is opened and closed.
fn through_length(place: &CorePlace, n: u32) -> Result<u32, NoMemory>
    ensures { IfOk result (λ m. m ≡ through_length (place_of place.now) n) }
{
    let count = indexes(place.steps.as_slice())?;
    let more = plus(n, count)?;
    plus(count, more)
}

fn loads_length(places: &[CorePlace]) -> Result<u32, NoMemory>
    ensures { IfOk result (λ n. n ≡ loads_length (map place_of places.now)) }
{
    let mut sum = 0u32;
    let mut left = places;
    while let Some((place, more)) = left.split_first() {
        sum = plus(sum, through_length(place, 1)?)?;
        left = more;
    }
    Ok(sum)
}

fn stores_length(to: &Option<CorePlace>) -> Result<u32, NoMemory>
    ensures { IfOk result (λ n. n ≡ stores_length (option_map place_of to.now)) }
{
    match to {
        None => Ok(0),
        Some(place) => through_length(place, 1),
    }
}

fn change_length(from: &[CorePlace], n: u32) -> Result<u32, NoMemory>
    ensures { IfOk result (λ m. m ≡ change_length (map place_of from.now) n) }
{
    match from.split_first() {
        None => Ok(0),
        Some((place, more)) => {
            let before = loads_length(more)?;
            plus(before, through_length(place, n)?)
        }
    }
}

fn give_length(to: &Option<CorePlace>, from: &[CorePlace]) -> Result<u32, NoMemory>
    ensures { IfOk result (λ m. m ≡ give_length (option_map place_of to.now) (map place_of from.now)) }
{
    match from.split_first() {
        None => Ok(0),
        Some((place, _)) => {
            let before = through_length(place, 1)?;
            plus(before, stores_length(to)?)
        }
    }
}

fn first_length(from: &[CorePlace]) -> Result<u32, NoMemory>
    ensures { IfOk result (λ m. m ≡ first_length (map place_of from.now)) }
{
    match from.split_first() {
        None => Ok(0),
        Some((place, _)) => through_length(place, 1),
    }
}

fn scalar_length(to: &Option<CorePlace>, from: &[CorePlace], n: u32) -> Result<u32, NoMemory>
    ensures { IfOk result (λ m. m ≡ scalar_length (option_map place_of to.now) (map place_of from.now) n) }
{
    let before = loads_length(from)?;
    let after = plus(n, stores_length(to)?)?;
    plus(before, after)
}

fn built_length(op: CoreOp, to: &Option<CorePlace>, from: &[CorePlace]) -> Result<u32, NoMemory>
    ensures { IfOk result (λ m. m ≡ built_length (op_of op) (option_map place_of to.now) (map place_of from.now)) }
{
    match op {
        CoreOp::NewArray => stores_length(to),
        CoreOp::Push => change_length(from, 2),
        CoreOp::Swap => change_length(from, 1),
        CoreOp::Pop | CoreOp::Count => give_length(to, from),
        CoreOp::FreeArray => first_length(from),
        CoreOp::Convert(_) => scalar_length(to, from, 2),
        CoreOp::Add
        | CoreOp::Sub
        | CoreOp::Mul
        | CoreOp::Div
        | CoreOp::Rem
        | CoreOp::Neg
        | CoreOp::Eq
        | CoreOp::Lt
        | CoreOp::Le
        | CoreOp::Not
        | CoreOp::Print
        | CoreOp::Read
        | CoreOp::Check => scalar_length(to, from, 1),
    }
}

fn set_length(body: &Body, to: &CorePlace) -> Result<u32, NoMemory>
    ensures { IfOk result (λ m. m ≡ constant_length (place_size (frame body.now) (place_of to.now)) + through_length (place_of to.now) 1) }
{
    let store = through_length(to, 1)?;
    if place_size(body, to) == 0 {
        Ok(store)
    } else {
        plus(1, store)
    }
}

fn lend_length(home: Home, place: &CorePlace) -> Result<u32, NoMemory>
    ensures { IfOk result (λ m. m ≡ lend_length home (place_of place.now)) }
{
    match home {
        Home::Words(_) => Ok(0),
        Home::Slot {
            slot: _,
            first: _,
            count: _,
        } => {
            let before = indexes(place.steps.as_slice())?;
            if is_counted(place.steps.as_slice()) {
                plus(before, 1)
            } else {
                Ok(before)
            }
        }
    }
}

fn close_length(home: Home) -> Result<u32, NoMemory>
    ensures { IfOk result (λ m. m ≡ close_length home) }
{
    match home {
        Home::Words(_) => Ok(0),
        Home::Slot {
            slot: _,
            first: _,
            count,
        } => plus(count, 1),
    }
}

fn move_length(to: &CorePlace, from: &CorePlace) -> Result<u32, NoMemory>
    ensures { IfOk result (λ m. m ≡ through_length (place_of from.now) 1 + through_length (place_of to.now) 1) }
{
    let before = through_length(from, 1)?;
    plus(before, through_length(to, 1)?)
}

fn drop_length(body: &Body, place: &CorePlace) -> Result<u32, NoMemory>
    ensures { IfOk result (λ m. m ≡ through_length (place_of place.now)
        (length (arrays_in body.now.types.now body.now.sizes.now (type_of (frame body.now) (place_of place.now))))) }
{
    let arrays = arrays_in(body.alloc, body.types, body.sizes, type_of(body, place))?;
    through_length(place, count(arrays.len())?)
}

fn call_length(owned: &[CorePlace], to: &CorePlace) -> Result<u32, NoMemory>
    ensures { IfOk result (λ m. m ≡ loads_length (map place_of owned.now) + through_length (place_of to.now) 1 + 1) }
{
    let before = loads_length(owned)?;
    let most = plus(before, through_length(to, 1)?)?;
    plus(most, 1)
}

// Of two lists of statements, with the jumps and the test.
fn both(one: u32, other: u32) -> Result<u32, NoMemory>
    ensures { IfOk result (λ m. m ≡ one + other + 3) }
{
    let sum = plus(one, other)?;
    plus(sum, 3)
}

/// The number of instructions of statements.
#[cycle(lengths)]
pub(crate) fn length_all(body: &Body, stmts: &[CoreStmt]) -> Result<u32, NoMemory>
    ensures { IfOk result (λ m. m ≡ length_all (frame body.now) (stmts_of stmts.now)) }
{
    let mut sum = 0u32;
    for stmt in stmts {
        sum = plus(sum, length_of(body, stmt)?)?;
    }
    Ok(sum)
}

/// The number of instructions of a statement.
#[cycle(lengths)]
#[tactic(auto, using(hy_core::proofs::Equations::statements))]
pub(crate) fn length_of(body: &Body, stmt: &CoreStmt) -> Result<u32, NoMemory>
    ensures { IfOk result (λ m. m ≡ length_of (frame body.now) (stmt_of stmt.now)) }
{
    match stmt {
        CoreStmt::Built {
            op,
            to,
            from,
            spans: _,
        } => built_length(*op, to, from.as_slice()),
        CoreStmt::Set { to, value: _ } => set_length(body, to),
        CoreStmt::Lend {
            to,
            place,
            write: _,
        } => lend_length(home_of(body, *to), place),
        CoreStmt::Close { of } => close_length(home_of(body, *of)),
        CoreStmt::Move { to, from } => move_length(to, from),
        CoreStmt::Copy { to, from } => move_length(to, from),
        CoreStmt::Drop { place } => drop_length(body, place),
        CoreStmt::Call {
            fun: _,
            lent: _,
            owned,
            to,
        } => call_length(owned.as_slice(), to),
        CoreStmt::Project {
            fun: _,
            lent: _,
            owned,
            to: _,
        } => {
            let before = loads_length(owned.as_slice())?;
            plus(before, 1)
        }
        CoreStmt::Slide { of: _ } => Ok(1),
        CoreStmt::Yield { of: _ } => Ok(1),
        CoreStmt::If { on: _, yes, no } => {
            let first = length_all(body, yes.as_slice())?;
            both(first, length_all(body, no.as_slice())?)
        }
        CoreStmt::While {
            head,
            on: _,
            body: pass,
        } => {
            let first = length_all(body, pass.as_slice())?;
            both(first, length_all(body, head.as_slice())?)
        }
        CoreStmt::Break => Ok(1),
        CoreStmt::Continue => Ok(1),
        CoreStmt::Leave { from } => {
            let before = through_length(from, 1)?;
            plus(before, 1)
        }
    }
}

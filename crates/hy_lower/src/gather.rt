// What the statements of a body name.
ghost use Rattle.std.specs.Prelude.{◌≡◌, ◌++◌, OnOk};
ghost use Rattle.hy_core.specs.Denotes.{stmt_of, stmts_of};
ghost use Rattle.hy_lower.specs.Frames.{filled_after, filled_one, handed_after, handed_one, inner_after, inner_one, so_many};

use crate::places::on_the_way;
use hy_base::NoMemory;
use hy_core::CoreStmt;
use sqlite_items::Items;

// Appends a local so many times.
fn repeat(out: &mut Items<u32>, count: u32, local: u32) -> Result<(), NoMemory>
    ensures { OnOk result (out.new ≡ out.old ++ so_many count local) }
{
    let mut left = count;
    while left > 0 {
        left -= 1;
        out.push(local)?;
    }
    Ok(())
}

// Appends these locals.
fn append(out: &mut Items<u32>, locals: &[u32]) -> Result<(), NoMemory>
    ensures { OnOk result (out.new ≡ out.old ++ locals.now) }
{
    let mut left = locals;
    while let Some((local, more)) = left.split_first() {
        out.push(*local)?;
        left = more;
    }
    Ok(())
}

/// Appends the locals that a `Lend` or `Project` of these statements fills.
#[cycle(filled)]
pub(crate) fn filled_all(stmts: &[CoreStmt], out: &mut Items<u32>) -> Result<(), NoMemory>
    ensures { OnOk result (out.new ≡ filled_after out.old (stmts_of stmts.now)) }
{
    for stmt in stmts {
        filled_one(stmt, out)?;
    }
    Ok(())
}

// Of one statement.
#[cycle(filled)]
#[tactic(auto, using(hy_core::proofs::Equations::statements))]
fn filled_one(stmt: &CoreStmt, out: &mut Items<u32>) -> Result<(), NoMemory>
    ensures { OnOk result (out.new ≡ filled_one out.old (stmt_of stmt.now)) }
{
    match stmt {
        CoreStmt::Lend {
            to,
            place: _,
            write: _,
        } => {
            out.push(*to)?;
            Ok(())
        }
        CoreStmt::Project {
            fun: _,
            lent: _,
            owned: _,
            to,
        } => {
            out.push(*to)?;
            Ok(())
        }
        CoreStmt::If { on: _, yes, no } => {
            filled_all(yes.as_slice(), out)?;
            filled_all(no.as_slice(), out)
        }
        CoreStmt::While { head, on: _, body } => {
            filled_all(head.as_slice(), out)?;
            filled_all(body.as_slice(), out)
        }
        CoreStmt::Built {
            op: _,
            to: _,
            from: _,
            spans: _,
        } => Ok(()),
        CoreStmt::Set { to: _, value: _ } => Ok(()),
        CoreStmt::Close { of: _ } => Ok(()),
        CoreStmt::Move { to: _, from: _ } => Ok(()),
        CoreStmt::Copy { to: _, from: _ } => Ok(()),
        CoreStmt::Drop { place: _ } => Ok(()),
        CoreStmt::Call {
            fun: _,
            lent: _,
            owned: _,
            to: _,
        } => Ok(()),
        CoreStmt::Slide { of: _ } => Ok(()),
        CoreStmt::Yield { of: _ } => Ok(()),
        CoreStmt::Break => Ok(()),
        CoreStmt::Continue => Ok(()),
        CoreStmt::Leave { from: _ } => Ok(()),
    }
}

/// Appends the locals that these statements hand over, each list in order.
#[cycle(handed)]
pub(crate) fn handed_all(stmts: &[CoreStmt], out: &mut Items<u32>) -> Result<(), NoMemory>
    ensures { OnOk result (out.new ≡ handed_after out.old (stmts_of stmts.now)) }
{
    for stmt in stmts {
        handed_one(stmt, out)?;
    }
    Ok(())
}

// Of one statement.
#[cycle(handed)]
#[tactic(auto, using(hy_core::proofs::Equations::statements))]
fn handed_one(stmt: &CoreStmt, out: &mut Items<u32>) -> Result<(), NoMemory>
    ensures { OnOk result (out.new ≡ handed_one out.old (stmt_of stmt.now)) }
{
    match stmt {
        CoreStmt::Call {
            fun: _,
            lent,
            owned: _,
            to: _,
        } => append(out, lent.as_slice()),
        CoreStmt::Project {
            fun: _,
            lent,
            owned: _,
            to: _,
        } => append(out, lent.as_slice()),
        CoreStmt::If { on: _, yes, no } => {
            handed_all(yes.as_slice(), out)?;
            handed_all(no.as_slice(), out)
        }
        CoreStmt::While { head, on: _, body } => {
            handed_all(head.as_slice(), out)?;
            handed_all(body.as_slice(), out)
        }
        CoreStmt::Built {
            op: _,
            to: _,
            from: _,
            spans: _,
        } => Ok(()),
        CoreStmt::Set { to: _, value: _ } => Ok(()),
        CoreStmt::Lend {
            to: _,
            place: _,
            write: _,
        } => Ok(()),
        CoreStmt::Close { of: _ } => Ok(()),
        CoreStmt::Move { to: _, from: _ } => Ok(()),
        CoreStmt::Copy { to: _, from: _ } => Ok(()),
        CoreStmt::Drop { place: _ } => Ok(()),
        CoreStmt::Slide { of: _ } => Ok(()),
        CoreStmt::Yield { of: _ } => Ok(()),
        CoreStmt::Break => Ok(()),
        CoreStmt::Continue => Ok(()),
        CoreStmt::Leave { from: _ } => Ok(()),
    }
}

/// Appends for each access that a `Lend` of these statements opens on its way the local.
#[cycle(inner)]
pub(crate) fn inner_all(stmts: &[CoreStmt], out: &mut Items<u32>) -> Result<(), NoMemory>
    ensures { OnOk result (out.new ≡ inner_after out.old (stmts_of stmts.now)) }
{
    for stmt in stmts {
        inner_one(stmt, out)?;
    }
    Ok(())
}

// Of one statement.
#[cycle(inner)]
#[tactic(auto, using(hy_core::proofs::Equations::statements))]
fn inner_one(stmt: &CoreStmt, out: &mut Items<u32>) -> Result<(), NoMemory>
    ensures { OnOk result (out.new ≡ inner_one out.old (stmt_of stmt.now)) }
{
    match stmt {
        CoreStmt::Lend {
            to,
            place,
            write: _,
        } => {
            let count = on_the_way(place.steps.as_slice())?;
            repeat(out, count, *to)
        }
        CoreStmt::If { on: _, yes, no } => {
            inner_all(yes.as_slice(), out)?;
            inner_all(no.as_slice(), out)
        }
        CoreStmt::While { head, on: _, body } => {
            inner_all(head.as_slice(), out)?;
            inner_all(body.as_slice(), out)
        }
        CoreStmt::Built {
            op: _,
            to: _,
            from: _,
            spans: _,
        } => Ok(()),
        CoreStmt::Set { to: _, value: _ } => Ok(()),
        CoreStmt::Close { of: _ } => Ok(()),
        CoreStmt::Move { to: _, from: _ } => Ok(()),
        CoreStmt::Copy { to: _, from: _ } => Ok(()),
        CoreStmt::Drop { place: _ } => Ok(()),
        CoreStmt::Call {
            fun: _,
            lent: _,
            owned: _,
            to: _,
        } => Ok(()),
        CoreStmt::Project {
            fun: _,
            lent: _,
            owned: _,
            to: _,
        } => Ok(()),
        CoreStmt::Slide { of: _ } => Ok(()),
        CoreStmt::Yield { of: _ } => Ok(()),
        CoreStmt::Break => Ok(()),
        CoreStmt::Continue => Ok(()),
        CoreStmt::Leave { from: _ } => Ok(()),
    }
}

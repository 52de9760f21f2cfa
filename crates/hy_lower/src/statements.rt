// The code of statements.
ghost use Rattle.std.specs.Prelude.{◌≡◌, ◌+◌, ◌++◌, ◌∷◌, [], IfOk, OnOk};
ghost use Rattle.hy_core.specs.Denotes.{stmt_of, stmts_of};
ghost use Rattle.hy_lower.specs.Code.{code_all, code_of, length_all};
ghost use Rattle.hy_lower.specs.Segments.{test};
ghost use Rattle.hy_lower.specs.Denotes.{frame};
ghost use Rattle.hy_object.specs.declared.instr.Instr.TheVariants.{Jump, JumpIf, JumpUnless};

use crate::body::Body;
use crate::lengths::{length_all, length_of};
use crate::numbers::plus;
use crate::segments::{
    built, call, close_local, copy, drop_place, leave, lend, move_to, project, set, slot_of, test,
};
use hy_base::NoMemory;
use hy_core::CoreStmt;
use hy_object::Instr;
use sqlite_items::Items;

/// Where the innermost loop goes on when it ends, and for its next pass.
#[derive(Clone, Copy)]
pub(crate) struct Targets {
    pub after: u32,
    pub again: u32,
}

fn jump(target: u32, code: &mut Items<Instr>) -> Result<(), NoMemory>
    ensures { OnOk result (code.new ≡ code.old ++ Jump target ∷ []) }
{
    code.push(Instr::Jump { target })?;
    Ok(())
}

// Where the parts of an `If` or `While` stand: the first and the second that stand in the code, and what follows.
#[derive(Clone, Copy)]
struct Parts {
    first: u32,
    second: u32,
    end: u32,
}

// The parts of an `If`, after its test, with a jump between them.
fn choice_at(body: &Body, pc: u32, yes: &[CoreStmt], no: &[CoreStmt]) -> Result<Parts, NoMemory>
    ensures { IfOk result (λ x. x ≡ record {
      first = pc + 2;
      second = pc + 2 + length_all (frame body.now) (stmts_of yes.now) + 1;
      end = pc + 2 + length_all (frame body.now) (stmts_of yes.now) + 1 + length_all (frame body.now) (stmts_of no.now);
    }) }
{
    let first = plus(pc, 2)?;
    let jump_at = plus(first, length_all(body, yes)?)?;
    let second = plus(jump_at, 1)?;
    let end = plus(second, length_all(body, no)?)?;
    Ok(Parts { first, second, end })
}

// The parts of a `While`, after a jump, with the test after them.
fn loop_at(body: &Body, pc: u32, head: &[CoreStmt], pass: &[CoreStmt]) -> Result<Parts, NoMemory>
    ensures { IfOk result (λ x. x ≡ record {
      first = pc + 1;
      second = pc + 1 + length_all (frame body.now) (stmts_of pass.now);
      end = pc + 1 + length_all (frame body.now) (stmts_of pass.now) + length_all (frame body.now) (stmts_of head.now) + 2;
    }) }
{
    let first = plus(pc, 1)?;
    let second = plus(first, length_all(body, pass)?)?;
    let test_at = plus(second, length_all(body, head)?)?;
    let end = plus(test_at, 2)?;
    Ok(Parts { first, second, end })
}

// The test of an `If`.
fn unless(body: &Body, on: u32, target: u32, code: &mut Items<Instr>) -> Result<(), NoMemory>
    ensures { OnOk result (code.new ≡ code.old ++ (test (frame body.now) on ++ JumpUnless body.now.scratch target ∷ [])) }
{
    test(body, on, code)?;
    code.push(Instr::JumpUnless {
        word: body.scratch,
        target,
    })?;
    Ok(())
}

// The test of a `While`.
fn back_if(body: &Body, on: u32, target: u32, code: &mut Items<Instr>) -> Result<(), NoMemory>
    ensures { OnOk result (code.new ≡ code.old ++ (test (frame body.now) on ++ JumpIf body.now.scratch target ∷ [])) }
{
    test(body, on, code)?;
    code.push(Instr::JumpIf {
        word: body.scratch,
        target,
    })?;
    Ok(())
}

/// The code of statements from a place on.
#[cycle(code)]
pub(crate) fn code_all(
    body: &Body,
    pc: u32,
    targets: Targets,
    stmts: &[CoreStmt],
    code: &mut Items<Instr>,
) -> Result<(), NoMemory>
    ensures { OnOk result (code.new ≡ code.old ++ code_all (frame body.now) pc targets.after targets.again (stmts_of stmts.now)) }
{
    let mut next = pc;
    for stmt in stmts {
        code_of(body, next, targets, stmt, code)?;
        next = plus(next, length_of(body, stmt)?)?;
    }
    Ok(())
}

/// The code of a statement at a place.
#[cycle(code)]
#[tactic(auto, using(hy_core::proofs::Equations::statements))]
fn code_of(
    body: &Body,
    pc: u32,
    targets: Targets,
    stmt: &CoreStmt,
    code: &mut Items<Instr>,
) -> Result<(), NoMemory>
    ensures { OnOk result (code.new ≡ code.old ++ code_of (frame body.now) pc targets.after targets.again (stmt_of stmt.now)) }
{
    match stmt {
        CoreStmt::Built {
            op,
            to,
            from,
            spans,
        } => built(body, *op, to, from.as_slice(), spans.as_slice(), code),
        CoreStmt::Set { to, value } => set(body, to, *value, code),
        CoreStmt::Lend { to, place, write } => lend(body, *to, place, *write, code),
        CoreStmt::Close { of } => close_local(body, *of, code),
        CoreStmt::Move { to, from } => move_to(body, to, from, code),
        CoreStmt::Copy { to, from } => copy(body, to, from, code),
        CoreStmt::Drop { place } => drop_place(body, place, code),
        CoreStmt::Call {
            fun,
            lent,
            owned,
            to,
        } => call(body, *fun, lent.as_slice(), owned.as_slice(), to, code),
        CoreStmt::Project {
            fun,
            lent,
            owned,
            to,
        } => project(body, *fun, lent.as_slice(), owned.as_slice(), *to, code),
        CoreStmt::Slide { of } => {
            code.push(Instr::Slide {
                slot: slot_of(body, *of),
            })?;
            Ok(())
        }
        CoreStmt::Yield { of } => {
            code.push(Instr::Yield {
                slot: slot_of(body, *of),
            })?;
            Ok(())
        }
        CoreStmt::If { on, yes, no } => {
            let yes = yes.as_slice();
            let no = no.as_slice();
            let parts = choice_at(body, pc, yes, no)?;
            unless(body, *on, parts.second, code)?;
            code_all(body, parts.first, targets, yes, code)?;
            jump(parts.end, code)?;
            code_all(body, parts.second, targets, no, code)?;
            Ok(())
        }
        CoreStmt::While {
            head,
            on,
            body: pass,
        } => {
            let head = head.as_slice();
            let pass = pass.as_slice();
            let parts = loop_at(body, pc, head, pass)?;
            let inside = Targets {
                after: parts.end,
                again: parts.second,
            };
            jump(parts.second, code)?;
            code_all(body, parts.first, inside, pass, code)?;
            code_all(body, parts.second, targets, head, code)?;
            back_if(body, *on, parts.first, code)?;
            Ok(())
        }
        CoreStmt::Break => jump(targets.after, code),
        CoreStmt::Continue => jump(targets.again, code),
        CoreStmt::Leave { from } => leave(body, from, code),
    }
}

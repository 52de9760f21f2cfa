// Names in expressions.
ghost use Rattle.std.specs.Prelude.{◌≡◌, OnOk};
ghost use Rattle.hy_tree.specs.Denotes.{expr_of, exprs_of, links_of, step_of, steps_of, args_of, choices_of};
ghost use Rattle.hy_tree.specs.Findings.{Alone, use_before, find_as, find_expr, find_exprs, find_links, find_step, find_steps, find_args, find_choices};
ghost use Rattle.hy_scope.specs.Noted.{after};
ghost use Rattle.hy_scope.specs.Shown.{around_of, blocks_of, noted};

use crate::around::Around;
use crate::blocks::Blocks;
use crate::named::walk_name;
use crate::notes::Notes;
use crate::written::walk_type;
use hy_base::{NoMemory, Rule};
use hy_tree::{Arg, Choice, Expr, ExprKind, Link, Step, StepKind};
use std::alloc::Global;

/// The names in an expression.
#[cycle(expression)]
pub fn walk_expr(
    alloc: Global,
    around: &Around,
    blocks: &Blocks,
    notes: &mut Notes,
    e: &Expr,
) -> Result<(), NoMemory>
    ensures { OnOk result (noted notes.new ≡ after (find_expr (around_of around.now) (blocks_of blocks.now) (expr_of e.now)) (noted notes.old)) }
{
    walk_before(alloc, around, blocks, notes, e, &[])
}

/// The names in an expression that has these steps right after it.
#[cycle(expression)]
#[tactic(auto, using(hy_tree::proofs::Equations::expr_variants))]
fn walk_before(
    alloc: Global,
    around: &Around,
    blocks: &Blocks,
    notes: &mut Notes,
    e: &Expr,
    behind: &[Step],
) -> Result<(), NoMemory>
    ensures { OnOk result (noted notes.new ≡ after (find_as (around_of around.now) (blocks_of blocks.now) (use_before (steps_of behind.now))
        (expr_of e.now)) (noted notes.old)) }
{
    match &e.kind {
        ExprKind::Chain(first, links) => {
            walk_expr(alloc, around, blocks, notes, first.get())?;
            walk_links(alloc, around, blocks, notes, links.as_slice())
        }
        ExprKind::Unary(_, operand) => walk_expr(alloc, around, blocks, notes, operand.get()),
        ExprKind::Marked(operand) => walk_expr(alloc, around, blocks, notes, operand.get()),
        ExprKind::Postfix(primary, steps) => {
            walk_before(
                alloc,
                around,
                blocks,
                notes,
                primary.get(),
                steps.as_slice(),
            )?;
            walk_steps(alloc, around, blocks, notes, steps.as_slice())
        }
        ExprKind::Number(_) => Ok(()),
        ExprKind::Bool(_) => Ok(()),
        ExprKind::Name(name) => walk_name(alloc, around, blocks, notes, name, e.node, behind),
        ExprKind::SelfValue(token) => {
            notes.when(around.own.is_none(), Rule::N1, *token);
            Ok(())
        }
        ExprKind::EmptyArray(element) => {
            walk_type(around, notes, element);
            Ok(())
        }
        ExprKind::Tuple(parts) => walk_exprs(alloc, around, blocks, notes, parts.as_slice()),
        ExprKind::Array(elements) => walk_exprs(alloc, around, blocks, notes, elements.as_slice()),
        ExprKind::If(choices, otherwise) => {
            walk_choices(alloc, around, blocks, notes, choices.as_slice())?;
            walk_expr(alloc, around, blocks, notes, otherwise.get())
        }
    }
}

#[cycle(expression)]
fn walk_exprs(
    alloc: Global,
    around: &Around,
    blocks: &Blocks,
    notes: &mut Notes,
    parts: &[Expr],
) -> Result<(), NoMemory>
    ensures { OnOk result (noted notes.new ≡ after (find_exprs (around_of around.now) (blocks_of blocks.now) (exprs_of parts.now)) (noted notes.old)) }
{
    for part in parts {
        walk_expr(alloc, around, blocks, notes, part)?;
    }
    Ok(())
}

#[cycle(expression)]
fn walk_links(
    alloc: Global,
    around: &Around,
    blocks: &Blocks,
    notes: &mut Notes,
    links: &[Link],
) -> Result<(), NoMemory>
    ensures { OnOk result (noted notes.new ≡ after (find_links (around_of around.now) (blocks_of blocks.now) (links_of links.now)) (noted notes.old)) }
{
    for link in links {
        walk_expr(alloc, around, blocks, notes, &link.operand)?;
    }
    Ok(())
}

#[cycle(expression)]
#[tactic(auto, using(hy_tree::proofs::Equations::step_variants))]
fn walk_step(
    alloc: Global,
    around: &Around,
    blocks: &Blocks,
    notes: &mut Notes,
    step: &Step,
) -> Result<(), NoMemory>
    ensures { OnOk result (noted notes.new ≡ after (find_step (around_of around.now) (blocks_of blocks.now) (step_of step.now)) (noted notes.old)) }
{
    match &step.kind {
        StepKind::Member(name) => {
            let known = around.file.members.find(name.text.as_slice()).is_some();
            notes.when(!known, Rule::N4, name.span);
            Ok(())
        }
        StepKind::Part(_) => Ok(()),
        StepKind::Call(args) => walk_args(alloc, around, blocks, notes, args.as_slice()),
        StepKind::Index(args) => walk_args(alloc, around, blocks, notes, args.as_slice()),
    }
}

#[cycle(expression)]
fn walk_steps(
    alloc: Global,
    around: &Around,
    blocks: &Blocks,
    notes: &mut Notes,
    steps: &[Step],
) -> Result<(), NoMemory>
    ensures { OnOk result (noted notes.new ≡ after (find_steps (around_of around.now) (blocks_of blocks.now) (steps_of steps.now)) (noted notes.old)) }
{
    for step in steps {
        walk_step(alloc, around, blocks, notes, step)?;
    }
    Ok(())
}

#[cycle(expression)]
fn walk_args(
    alloc: Global,
    around: &Around,
    blocks: &Blocks,
    notes: &mut Notes,
    args: &[Arg],
) -> Result<(), NoMemory>
    ensures { OnOk result (noted notes.new ≡ after (find_args (around_of around.now) (blocks_of blocks.now) (args_of args.now)) (noted notes.old)) }
{
    for arg in args {
        walk_expr(alloc, around, blocks, notes, &arg.value)?;
    }
    Ok(())
}

#[cycle(expression)]
fn walk_choices(
    alloc: Global,
    around: &Around,
    blocks: &Blocks,
    notes: &mut Notes,
    choices: &[Choice],
) -> Result<(), NoMemory>
    ensures { OnOk result (noted notes.new ≡ after (find_choices (around_of around.now) (blocks_of blocks.now) (choices_of choices.now)) (noted notes.old)) }
{
    for choice in choices {
        walk_expr(alloc, around, blocks, notes, &choice.condition)?;
        walk_expr(alloc, around, blocks, notes, &choice.value)?;
    }
    Ok(())
}

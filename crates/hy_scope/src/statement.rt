// Names in statements.
ghost use Rattle.std.specs.Prelude.{◌≡◌, ◌++◌, OnOk, option_map};
ghost use Rattle.hy_tree.specs.Denotes.{expr_of, stmt_of, block_of, branches_of, else_of};
ghost use Rattle.hy_tree.specs.Findings.{declares, find_expr, find_value, with_local, find_stmt, find_block, find_branches, find_otherwise, behind, here};
ghost use Rattle.hy_scope.specs.Noted.{after};
ghost use Rattle.hy_scope.specs.Shown.{around_of, blocks_of, noted};

use crate::around::Around;
use crate::blocks::Blocks;
use crate::declared::declare;
use crate::expression::walk_expr;
use crate::notes::Notes;
use crate::written::{walk_type, walk_written};
use hy_base::NoMemory;
use hy_tree::{Block, Branch, Expr, Name, Stmt, StmtKind};
use std::alloc::Global;

/// A name that a statement declares in the innermost block.
fn bind(
    alloc: Global,
    blocks: &mut Blocks,
    notes: &mut Notes,
    name: &Name,
    node: u32,
) -> Result<(), NoMemory>
    ensures notes { OnOk result (noted notes.new ≡ after (declares (here (blocks_of blocks.old)) name.now) (noted notes.old)) }
    ensures blocks { OnOk result (blocks_of blocks.new ≡ with_local name.now node (blocks_of blocks.old)) }
{
    let was = blocks.put(alloc, name, node)?;
    declare(notes, was, name);
    Ok(())
}

/// The names in the value of a `return`.
fn walk_value(
    alloc: Global,
    around: &Around,
    blocks: &Blocks,
    notes: &mut Notes,
    value: &Option<Expr>,
) -> Result<(), NoMemory>
    ensures { OnOk result (noted notes.new ≡ after (find_value (around_of around.now) (blocks_of blocks.now) (option_map expr_of value.now))
        (noted notes.old)) }
{
    match value {
        Some(value) => walk_expr(alloc, around, blocks, notes, value),
        None => Ok(()),
    }
}

/// The names in two expressions.
fn walk_two(
    alloc: Global,
    around: &Around,
    blocks: &Blocks,
    notes: &mut Notes,
    first: &Expr,
    second: &Expr,
) -> Result<(), NoMemory>
    ensures { OnOk result (noted notes.new ≡ after (find_expr (around_of around.now) (blocks_of blocks.now) (expr_of first.now)
        ++ find_expr (around_of around.now) (blocks_of blocks.now) (expr_of second.now)) (noted notes.old)) }
{
    walk_expr(alloc, around, blocks, notes, first)?;
    walk_expr(alloc, around, blocks, notes, second)
}

/// The names in a statement. A name that it declares is in the innermost block afterwards.
#[cycle(statement)]
#[tactic(auto, using(hy_tree::proofs::Equations::stmt_variants))]
fn walk_stmt(
    alloc: Global,
    around: &Around,
    blocks: &mut Blocks,
    notes: &mut Notes,
    stmt: &Stmt,
) -> Result<(), NoMemory>
    ensures notes { OnOk result (noted notes.new ≡ after (find_stmt (around_of around.now) (blocks_of blocks.old) (stmt_of stmt.now)) (noted notes.old)) }
    ensures blocks { OnOk result (blocks_of blocks.new ≡ behind (blocks_of blocks.old) (stmt_of stmt.now)) }
{
    match &stmt.kind {
        StmtKind::Binding(_, name, written, value) => {
            walk_written(around, notes, written);
            walk_expr(alloc, around, blocks, notes, value)?;
            bind(alloc, blocks, notes, name, stmt.node)
        }
        StmtKind::Declare(name, written) => {
            walk_type(around, notes, written);
            bind(alloc, blocks, notes, name, stmt.node)
        }
        StmtKind::Assign(target, value) => walk_two(alloc, around, blocks, notes, target, value),
        StmtKind::Compound(target, _, value) => {
            walk_two(alloc, around, blocks, notes, target, value)
        }
        StmtKind::Expr(value) => walk_expr(alloc, around, blocks, notes, value),
        StmtKind::If(branches, otherwise) => {
            walk_branches(alloc, around, blocks, notes, branches.as_slice())?;
            walk_else(alloc, around, blocks, notes, otherwise)
        }
        StmtKind::While(_, condition, body) => {
            walk_expr(alloc, around, blocks, notes, condition)?;
            walk_block(alloc, around, blocks, notes, body)
        }
        StmtKind::Return(_, value) => walk_value(alloc, around, blocks, notes, value),
        StmtKind::Break => Ok(()),
        StmtKind::Continue => Ok(()),
        StmtKind::Yield(_, value) => walk_expr(alloc, around, blocks, notes, value),
    }
}

/// The names in a block. It leaves the names around as they are.
#[cycle(statement)]
pub fn walk_block(
    alloc: Global,
    around: &Around,
    blocks: &mut Blocks,
    notes: &mut Notes,
    body: &Block,
) -> Result<(), NoMemory>
    ensures notes { OnOk result (noted notes.new ≡ after (find_block (around_of around.now) (blocks_of blocks.old) (block_of body.now)) (noted notes.old)) }
    ensures blocks { OnOk result (blocks_of blocks.new ≡ blocks_of blocks.old) }
{
    blocks.enter(alloc)?;
    for stmt in body.stmts.as_slice() {
        walk_stmt(alloc, around, blocks, notes, stmt)?;
    }
    blocks.leave();
    Ok(())
}

#[cycle(statement)]
fn walk_branches(
    alloc: Global,
    around: &Around,
    blocks: &mut Blocks,
    notes: &mut Notes,
    branches: &[Branch],
) -> Result<(), NoMemory>
    ensures notes { OnOk result (noted notes.new ≡ after (find_branches (around_of around.now) (blocks_of blocks.old) (branches_of branches.now))
        (noted notes.old)) }
    ensures blocks { OnOk result (blocks_of blocks.new ≡ blocks_of blocks.old) }
{
    for branch in branches {
        walk_expr(alloc, around, blocks, notes, &branch.condition)?;
        walk_block(alloc, around, blocks, notes, &branch.block)?;
    }
    Ok(())
}

#[cycle(statement)]
fn walk_else(
    alloc: Global,
    around: &Around,
    blocks: &mut Blocks,
    notes: &mut Notes,
    otherwise: &Option<Block>,
) -> Result<(), NoMemory>
    ensures notes { OnOk result (noted notes.new ≡ after (find_otherwise (around_of around.now) (blocks_of blocks.old) (else_of otherwise.now))
        (noted notes.old)) }
    ensures blocks { OnOk result (blocks_of blocks.new ≡ blocks_of blocks.old) }
{
    match otherwise {
        Some(body) => walk_block(alloc, around, blocks, notes, body),
        None => Ok(()),
    }
}

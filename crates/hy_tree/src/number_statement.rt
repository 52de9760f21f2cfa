// Numbers for the nodes of statements.
ghost use Rattle.std.specs.Option.{option_map};
ghost use Rattle.hy_tree.specs.Denotes.{type_of, expr_of, stmt_kind_of, stmt_of, stmts_of, block_of, branches_of, else_of};
ghost use Rattle.hy_tree.specs.Numbering.{IsNumberedFrom, IsKindNumberedFrom, AreTwoNumberedFrom};
ghost use Rattle.hy_tree.specs.Numbers as numbers;
ghost use Rattle.hy_tree.specs.Numbers.{count_optional, number_optional, count_type, count_expr, count_stmt, count_stmts};
ghost use Rattle.hy_tree.specs.Numbers.{count_block, count_branches, count_otherwise};

use crate::expression::Expr;
use crate::number_expression::number_expr;
use crate::number_written::number_type;
use crate::numbering::{copy_name, take};
use crate::statement::{Block, Branch, Stmt, StmtKind};
use crate::written::TypeExp;
use hy_base::NoMemory;
use sqlite_items::Items;
use std::alloc::Global;

/// The same type, where there is one, with its nodes numbered from `next` on.
pub fn number_optional_type(
    alloc: Global,
    next: &mut u32,
    written: &Option<TypeExp>,
) -> Result<Option<TypeExp>, NoMemory>
    ensures { IsNumberedFrom (option_map type_of) (count_optional count_type) (number_optional numbers.number_type) next.old written.now result next.new }
{
    match written {
        Some(written) => Ok(Some(number_type(alloc, next, written)?)),
        None => Ok(None),
    }
}

fn number_optional_expr(
    alloc: Global,
    next: &mut u32,
    value: &Option<Expr>,
) -> Result<Option<Expr>, NoMemory>
    ensures { IsNumberedFrom (option_map expr_of) (count_optional count_expr) (number_optional numbers.number_expr) next.old value.now result next.new }
{
    match value {
        Some(value) => Ok(Some(number_expr(alloc, next, value)?)),
        None => Ok(None),
    }
}

// The written type of a binding, and its value.
fn number_bound(
    alloc: Global,
    next: &mut u32,
    written: &Option<TypeExp>,
    value: &Expr,
) -> Result<(Option<TypeExp>, Expr), NoMemory>
    ensures { AreTwoNumberedFrom (option_map type_of) (count_optional count_type)
        (number_optional numbers.number_type) expr_of count_expr numbers.number_expr next.old
        written.now value.now result next.new }
{
    let written = number_optional_type(alloc, next, written)?;
    Ok((written, number_expr(alloc, next, value)?))
}

// Two expressions, one after the other.
fn number_two(
    alloc: Global,
    next: &mut u32,
    one: &Expr,
    other: &Expr,
) -> Result<(Expr, Expr), NoMemory>
    ensures { AreTwoNumberedFrom expr_of count_expr numbers.number_expr expr_of count_expr numbers.number_expr next.old one.now other.now result next.new }
{
    let one = number_expr(alloc, next, one)?;
    Ok((one, number_expr(alloc, next, other)?))
}

#[cycle(statements)]
fn number_stmt(alloc: Global, next: &mut u32, stmt: &Stmt) -> Result<Stmt, NoMemory>
    ensures { IsNumberedFrom stmt_of count_stmt numbers.number_stmt next.old stmt.now result next.new }
{
    let node = take(next)?;
    let kind = number_stmt_kind(alloc, next, &stmt.kind)?;
    Ok(Stmt {
        kind,
        span: stmt.span,
        node,
    })
}

#[cycle(statements)]
#[tactic(auto, using(crate::proofs::Equations::stmt_variants))]
fn number_stmt_kind(alloc: Global, next: &mut u32, kind: &StmtKind) -> Result<StmtKind, NoMemory>
    ensures { IsKindNumberedFrom stmt_kind_of count_stmt numbers.number_stmt next.old kind.now result next.new }
{
    match kind {
        StmtKind::Binding(introducer, name, written, value) => {
            let name = copy_name(alloc, name)?;
            let (written, value) = number_bound(alloc, next, written, value)?;
            Ok(StmtKind::Binding(*introducer, name, written, value))
        }
        StmtKind::Declare(name, written) => {
            let name = copy_name(alloc, name)?;
            Ok(StmtKind::Declare(name, number_type(alloc, next, written)?))
        }
        StmtKind::Assign(target, value) => {
            let (target, value) = number_two(alloc, next, target, value)?;
            Ok(StmtKind::Assign(target, value))
        }
        StmtKind::Compound(target, operator, value) => {
            let (target, value) = number_two(alloc, next, target, value)?;
            Ok(StmtKind::Compound(target, *operator, value))
        }
        StmtKind::Expr(value) => Ok(StmtKind::Expr(number_expr(alloc, next, value)?)),
        StmtKind::If(branches, otherwise) => {
            let branches = number_branches(alloc, next, branches.as_slice())?;
            Ok(StmtKind::If(branches, number_else(alloc, next, otherwise)?))
        }
        StmtKind::While(token, condition, body) => {
            let condition = number_expr(alloc, next, condition)?;
            Ok(StmtKind::While(*token, condition, number_block(alloc, next, body)?))
        }
        StmtKind::Return(token, value) => {
            Ok(StmtKind::Return(*token, number_optional_expr(alloc, next, value)?))
        }
        StmtKind::Break => Ok(StmtKind::Break),
        StmtKind::Continue => Ok(StmtKind::Continue),
        StmtKind::Yield(token, value) => Ok(StmtKind::Yield(
            *token,
            number_expr(alloc, next, value)?,
        )),
    }
}

#[cycle(statements)]
fn number_stmts(alloc: Global, next: &mut u32, stmts: &[Stmt]) -> Result<Items<Stmt>, NoMemory>
    ensures { IsNumberedFrom stmts_of count_stmts numbers.number_stmts next.old stmts.now result next.new }
{
    let mut made = Items::new(alloc);
    for stmt in stmts {
        made.push(number_stmt(alloc, next, stmt)?)?;
    }
    Ok(made)
}

/// The same block, with its nodes numbered from `next` on.
#[cycle(statements)]
pub fn number_block(alloc: Global, next: &mut u32, block: &Block) -> Result<Block, NoMemory>
    ensures { IsNumberedFrom block_of count_block numbers.number_block next.old block.now result next.new }
{
    let node = take(next)?;
    let stmts = number_stmts(alloc, next, block.stmts.as_slice())?;
    Ok(Block {
        stmts,
        span: block.span,
        node,
    })
}

#[cycle(statements)]
fn number_branches(
    alloc: Global,
    next: &mut u32,
    branches: &[Branch],
) -> Result<Items<Branch>, NoMemory>
    ensures { IsNumberedFrom branches_of count_branches numbers.number_branches next.old branches.now result next.new }
{
    let mut made = Items::new(alloc);
    for branch in branches {
        let condition = number_expr(alloc, next, &branch.condition)?;
        let block = number_block(alloc, next, &branch.block)?;
        made.push(Branch {
            keyword: branch.keyword,
            condition,
            block,
        })?;
    }
    Ok(made)
}

#[cycle(statements)]
fn number_else(
    alloc: Global,
    next: &mut u32,
    otherwise: &Option<Block>,
) -> Result<Option<Block>, NoMemory>
    ensures { IsNumberedFrom else_of count_otherwise numbers.number_otherwise next.old otherwise.now result next.new }
{
    match otherwise {
        Some(block) => Ok(Some(number_block(alloc, next, block)?)),
        None => Ok(None),
    }
}

// Statements.
ghost use Rattle.std.specs.Prelude.{◌≡◌};
ghost use Rattle.std.specs.Option.{option_map};
ghost use Rattle.hy_tree.specs.Denotes.{expr_of, stmt_of, block_of, branches_of, else_of, placed};
ghost use Rattle.hy_front.specs.Noted.{after};
ghost use Rattle.hy_front.specs.Unbuilt.{in_value, in_bound, in_printed, in_returned, in_stmt, in_block, in_branches, in_otherwise};
ghost use Rattle.hy_meaning.specs.Forms as forms;

use crate::expression::look_at_expr;
use crate::forms::{is_name, is_place, is_plain, printed};
use crate::least::{meet, meet_when};
use crate::written::{look_at_type, look_at_written};
use hy_base::{BrokenRule, Span};
use hy_tree::{Block, Branch, Expr, Introducer, Meant, Stmt, StmtKind};

/// Looks at the value of `var` or `=`.
fn look_at_value(first: Option<BrokenRule>, meant: &[Meant], value: &Expr) -> Option<BrokenRule>
    ensures { result ≡ after (in_value meant.now (expr_of value.now)) first }
{
    let first = meet_when(first, is_place(value), value.span);
    look_at_expr(first, meant, value)
}

/// Looks at the value that a name is bound to.
fn look_at_bound(
    first: Option<BrokenRule>,
    meant: &[Meant],
    introducer: Introducer,
    value: &Expr,
) -> Option<BrokenRule>
    ensures { result ≡ after (in_bound meant.now introducer (expr_of value.now)) first }
{
    match introducer {
        Introducer::Var => look_at_value(first, meant, value),
        Introducer::Let => look_at_expr(first, meant, value),
        Introducer::Inout => look_at_expr(first, meant, value),
    }
}

/// Looks at an expression that is a statement with this span.
fn look_at_evaluated(
    first: Option<BrokenRule>,
    meant: &[Meant],
    e: &Expr,
    span: Span,
) -> Option<BrokenRule>
    ensures { result ≡ after (in_printed meant.now (expr_of e.now) span (forms.printed (expr_of e.now))) first }
{
    match printed(e) {
        Some(value) => {
            let first = meet_when(first, e.span.from != span.from, span);
            look_at_expr(first, meant, value)
        }
        None => look_at_expr(meet(first, span), meant, e),
    }
}

/// Looks at the value of a `return`.
fn look_at_returned(
    first: Option<BrokenRule>,
    meant: &[Meant],
    value: &Option<Expr>,
) -> Option<BrokenRule>
    ensures { result ≡ after (in_returned meant.now (option_map expr_of value.now)) first }
{
    match value {
        Some(value) => look_at_expr(first, meant, value),
        None => first,
    }
}

/// Looks at a statement.
#[cycle(statement)]
#[tactic(auto, using(hy_tree::proofs::Equations::stmt_variants))]
fn look_at_stmt(first: Option<BrokenRule>, meant: &[Meant], stmt: &Stmt) -> Option<BrokenRule>
    ensures { result ≡ after (in_stmt meant.now (stmt_of stmt.now)) first }
{
    match &stmt.kind {
        StmtKind::Binding(introducer, _name, written, value) => {
            let first = meet_when(first, !is_plain(*introducer, written), stmt.span);
            let first = look_at_written(first, written);
            look_at_bound(first, meant, *introducer, value)
        }
        StmtKind::Declare(_name, written) => look_at_type(meet(first, stmt.span), written),
        StmtKind::Assign(target, value) => {
            let first = meet_when(first, !is_name(target), stmt.span);
            let first = look_at_expr(first, meant, target);
            look_at_value(first, meant, value)
        }
        StmtKind::Compound(target, _, value) => {
            let first = look_at_expr(meet(first, stmt.span), meant, target);
            look_at_expr(first, meant, value)
        }
        StmtKind::Expr(e) => look_at_evaluated(first, meant, e, stmt.span),
        StmtKind::If(branches, otherwise) => {
            let first = look_at_branches(meet(first, stmt.span), meant, branches.as_slice());
            look_at_else(first, meant, otherwise)
        }
        StmtKind::While(_, condition, body) => {
            let first = look_at_expr(meet(first, stmt.span), meant, condition);
            look_at_block(first, meant, body)
        }
        StmtKind::Return(_, value) => look_at_returned(meet(first, stmt.span), meant, value),
        StmtKind::Break => meet(first, stmt.span),
        StmtKind::Continue => meet(first, stmt.span),
        StmtKind::Yield(_, value) => look_at_expr(meet(first, stmt.span), meant, value),
    }
}

/// Looks at a block.
#[cycle(statement)]
pub fn look_at_block(first: Option<BrokenRule>, meant: &[Meant], body: &Block) -> Option<BrokenRule>
    ensures { result ≡ after (in_block meant.now (block_of body.now)) first }
{
    let mut first = first;
    for stmt in body.stmts.as_slice() {
        first = look_at_stmt(first, meant, stmt);
    }
    first
}

#[cycle(statement)]
fn look_at_branches(
    first: Option<BrokenRule>,
    meant: &[Meant],
    branches: &[Branch],
) -> Option<BrokenRule>
    ensures { result ≡ after (in_branches meant.now (branches_of branches.now)) first }
{
    let mut first = first;
    for branch in branches {
        first = look_at_expr(first, meant, &branch.condition);
        first = look_at_block(first, meant, &branch.block);
    }
    first
}

#[cycle(statement)]
fn look_at_else(
    first: Option<BrokenRule>,
    meant: &[Meant],
    otherwise: &Option<Block>,
) -> Option<BrokenRule>
    ensures { result ≡ after (in_otherwise meant.now (else_of otherwise.now)) first }
{
    match otherwise {
        Some(body) => look_at_block(first, meant, body),
        None => first,
    }
}

// The nodes of statements and blocks, each made of its parts and of where it stands. All have the number 0.
ghost use Rattle.std.specs.Prelude.{◌≡◌, None, Some, map};
ghost use Rattle.std.specs.Option.{option_map};
ghost use Rattle.hy_grammar.specs.Nodes as node;
ghost use Rattle.hy_tree.specs.Denotes.{type_of, expr_of, stmt_of, block_of, branch_of};

use hy_base::Span;
use hy_phrases::expr_nodes::between;
use hy_tree::{Arithmetic, Block, Branch, Expr, Introducer, Name, Stmt, StmtKind, TypeExp};
use sqlite_items::Items;

/// `var NAME: type = expr` from the word on, and the same with another word or without the type.
#[tactic(auto, using(crate::proofs::StatementNodes::stmt_parts), unfolding(hy_grammar::specs::Nodes::binding))]
pub fn binding(
    introducer: Introducer,
    word: Span,
    name: Name,
    written: Option<TypeExp>,
    value: Expr,
) -> Stmt
    ensures { stmt_of result ≡ node.binding introducer word name (option_map type_of written) (expr_of value) }
{
    let span = between(word, value.span);
    Stmt {
        kind: StmtKind::Binding(introducer, name, written, value),
        span,
        node: 0,
    }
}

/// `var NAME: type` from the word on.
#[tactic(auto, using(crate::proofs::StatementNodes::stmt_parts), unfolding(hy_grammar::specs::Nodes::declare))]
pub fn declare(word: Span, name: Name, written: TypeExp) -> Stmt
    ensures { stmt_of result ≡ node.declare word name (type_of written) }
{
    let span = between(word, written.span);
    Stmt {
        kind: StmtKind::Declare(name, written),
        span,
        node: 0,
    }
}

/// `target = value`
#[tactic(auto, using(crate::proofs::StatementNodes::stmt_parts), unfolding(hy_grammar::specs::Nodes::assign))]
pub fn assign(target: Expr, value: Expr) -> Stmt
    ensures { stmt_of result ≡ node.assign (expr_of target) (expr_of value) }
{
    let span = between(target.span, value.span);
    Stmt {
        kind: StmtKind::Assign(target, value),
        span,
        node: 0,
    }
}

/// `target += value`, and the same with another operator.
#[tactic(auto, using(crate::proofs::StatementNodes::stmt_parts), unfolding(hy_grammar::specs::Nodes::compound))]
pub fn compound(target: Expr, operator: Arithmetic, value: Expr) -> Stmt
    ensures { stmt_of result ≡ node.compound (expr_of target) operator (expr_of value) }
{
    let span = between(target.span, value.span);
    Stmt {
        kind: StmtKind::Compound(target, operator, value),
        span,
        node: 0,
    }
}

/// An expression that is a statement.
#[tactic(auto, using(crate::proofs::StatementNodes::stmt_parts), unfolding(hy_grammar::specs::Nodes::evaluate))]
pub fn evaluate(value: Expr) -> Stmt
    ensures { stmt_of result ≡ node.evaluate (expr_of value) }
{
    let span = value.span;
    Stmt {
        kind: StmtKind::Expr(value),
        span,
        node: 0,
    }
}

/// `_ = value`, from the `_` on.
#[tactic(auto, using(crate::proofs::StatementNodes::stmt_parts), unfolding(hy_grammar::specs::Nodes::discard))]
pub fn discard(word: Span, value: Expr) -> Stmt
    ensures { stmt_of result ≡ node.discard word (expr_of value) }
{
    let span = between(word, value.span);
    Stmt {
        kind: StmtKind::Expr(value),
        span,
        node: 0,
    }
}

/// `return` without a value.
#[tactic(auto, using(crate::proofs::StatementNodes::stmt_parts), unfolding(hy_grammar::specs::Nodes::return_nothing))]
pub fn return_nothing(word: Span) -> Stmt
    ensures { stmt_of result ≡ node.return_nothing word }
{
    Stmt {
        kind: StmtKind::Return(word, None),
        span: word,
        node: 0,
    }
}

/// `return value`
#[tactic(auto, using(crate::proofs::StatementNodes::stmt_parts), unfolding(hy_grammar::specs::Nodes::return_value))]
pub fn return_value(word: Span, value: Expr) -> Stmt
    ensures { stmt_of result ≡ node.return_value word (expr_of value) }
{
    let span = between(word, value.span);
    Stmt {
        kind: StmtKind::Return(word, Some(value)),
        span,
        node: 0,
    }
}

/// `break`
#[tactic(auto, using(crate::proofs::StatementNodes::stmt_parts), unfolding(hy_grammar::specs::Nodes::leave))]
pub fn leave(word: Span) -> Stmt
    ensures { stmt_of result ≡ node.leave word }
{
    Stmt {
        kind: StmtKind::Break,
        span: word,
        node: 0,
    }
}

/// `continue`
#[tactic(auto, using(crate::proofs::StatementNodes::stmt_parts), unfolding(hy_grammar::specs::Nodes::proceed))]
pub fn proceed(word: Span) -> Stmt
    ensures { stmt_of result ≡ node.proceed word }
{
    Stmt {
        kind: StmtKind::Continue,
        span: word,
        node: 0,
    }
}

/// `yield value`
#[tactic(auto, using(crate::proofs::StatementNodes::stmt_parts), unfolding(hy_grammar::specs::Nodes::yield_value))]
pub fn yield_value(word: Span, value: Expr) -> Stmt
    ensures { stmt_of result ≡ node.yield_value word (expr_of value) }
{
    let span = between(word, value.span);
    Stmt {
        kind: StmtKind::Yield(word, value),
        span,
        node: 0,
    }
}

/// Statements in braces, from the `{` to the `}`.
#[tactic(auto, using(crate::proofs::StatementNodes::stmt_parts), unfolding(hy_grammar::specs::Nodes::block))]
pub fn block(brace: Span, stmts: Items<Stmt>, close: Span) -> Block
    ensures { block_of result ≡ node.block brace (map stmt_of stmts) close }
{
    Block {
        stmts,
        span: between(brace, close),
        node: 0,
    }
}

/// `if condition block` in a statement, whose `if` is at `keyword`.
pub fn branch(keyword: Span, condition: Expr, block: Block) -> Branch
    ensures { branch_of result ≡ node.branch keyword (expr_of condition) (block_of block) }
{
    Branch {
        keyword,
        condition,
        block,
    }
}

/// `if` and each `else if`, from the first `if`, which begins at `from`, to the last block, which ends at `to`.
#[tactic(auto, using(crate::proofs::StatementNodes::made_if))]
pub fn if_only(from: u32, branches: Items<Branch>, to: u32) -> Stmt
    ensures { stmt_of result ≡ node.if_only from (map branch_of branches) to }
{
    Stmt {
        kind: StmtKind::If(branches, None),
        span: Span { from, to },
        node: 0,
    }
}

/// The same with the block of the last `else`.
#[tactic(auto, using(crate::proofs::StatementNodes::made_if_else))]
pub fn if_block(from: u32, branches: Items<Branch>, otherwise: Block) -> Stmt
    ensures { stmt_of result ≡ node.if_block from (map branch_of branches) (block_of otherwise) }
{
    let span = Span {
        from,
        to: otherwise.span.to,
    };
    Stmt {
        kind: StmtKind::If(branches, Some(otherwise)),
        span,
        node: 0,
    }
}

/// `while condition body`, from the word on.
#[tactic(auto, using(crate::proofs::StatementNodes::made_while))]
pub fn repeat(word: Span, condition: Expr, body: Block) -> Stmt
    ensures { stmt_of result ≡ node.while word (expr_of condition) (block_of body) }
{
    let span = between(word, body.span);
    Stmt {
        kind: StmtKind::While(word, condition, body),
        span,
        node: 0,
    }
}

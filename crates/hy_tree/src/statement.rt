// Blocks and statements.
use crate::expression::Expr;
use crate::name::Name;
use crate::operator::{Arithmetic, Introducer};
use crate::written::TypeExp;
use hy_base::Span;
use sqlite_items::Items;

/// Statements in braces.
#[cycle(statement)]
#[derive(Drop)]
pub struct Block {
    pub stmts: Items<Stmt>,
    /// With the braces.
    pub span: Span,
    pub node: u32,
}

/// A statement.
#[cycle(statement)]
#[derive(Drop)]
pub struct Stmt {
    pub kind: StmtKind,
    pub span: Span,
    pub node: u32,
}

/// What a statement is.
#[cycle(statement)]
#[derive(Drop)]
pub enum StmtKind {
    /// `var NAME: type = expr`, or the same with `let` or `inout`; the type may be left out
    Binding(Introducer, Name, Option<TypeExp>, Expr),
    /// `var NAME: type`
    Declare(Name, TypeExp),
    /// `expr = expr`
    Assign(Expr, Expr),
    /// `expr += expr`, and the same with another operator
    Compound(Expr, Arithmetic, Expr),
    /// `expr` or `_ = expr`
    Expr(Expr),
    /// `if`, each `else if`, and the block of the last `else`
    If(Items<Branch>, Option<Block>),
    /// `while expr block`, with the span of the token `while`
    While(Span, Expr, Block),
    /// `return expr`, of which the value may be left out, with the span of the token `return`
    Return(Span, Option<Expr>),
    Break,
    Continue,
    /// `yield expr`, with the span of the token `yield`
    Yield(Span, Expr),
}

/// `if expr block` in a statement.
#[cycle(statement)]
#[derive(Drop)]
pub struct Branch {
    /// The span of the token `if`.
    pub keyword: Span,
    pub condition: Expr,
    pub block: Block,
}

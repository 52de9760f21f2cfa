// Expressions.
use crate::name::Name;
use crate::operator::{Operator, UnaryOperator};
use crate::written::TypeExp;
use hy_base::{Span, Text};
use sqlite_items::{Boxed, Items};

/// An expression.
#[cycle(expression)]
#[derive(Drop)]
pub struct Expr {
    pub kind: ExprKind,
    /// With the parentheses around it.
    pub span: Span,
    pub node: u32,
}

/// What an expression is.
#[cycle(expression)]
#[derive(Drop)]
pub enum ExprKind {
    /// An operand, and one or more operators of one level, each with its right operand. A comparison has one.
    Chain(Boxed<Expr>, Items<Link>),
    /// `-` or `!` before its operand
    Unary(UnaryOperator, Boxed<Expr>),
    /// `&` before a place or a method call
    Marked(Boxed<Expr>),
    /// A primary expression, and one or more steps after it.
    Postfix(Boxed<Expr>, Items<Step>),
    /// `NUMBER`
    Number(i64),
    /// `true` or `false`
    Bool(bool),
    /// `NAME`
    Name(Name),
    /// `self`, with the span of its token
    SelfValue(Span),
    /// `Array<type>()`
    EmptyArray(TypeExp),
    /// `()`, or two or more expressions in parentheses
    Tuple(Items<Expr>),
    /// One or more expressions in brackets.
    Array(Items<Expr>),
    /// `if`, each `else if`, and the value of the last `else`.
    If(Items<Choice>, Boxed<Expr>),
}

/// An operator of a chain, with its right operand.
#[cycle(expression)]
#[derive(Drop)]
pub struct Link {
    pub operator: Operator,
    /// The span of the operator's token.
    pub token: Span,
    pub operand: Expr,
    /// From the first token of the chain to the end of the right operand.
    pub span: Span,
    pub node: u32,
}

/// A step after a primary expression.
#[cycle(expression)]
#[derive(Drop)]
pub struct Step {
    pub kind: StepKind,
    /// From the first token of the postfix expression to the end of the step.
    pub span: Span,
    pub node: u32,
}

/// What a step is.
#[cycle(expression)]
#[derive(Drop)]
pub enum StepKind {
    /// `.NAME`
    Member(Name),
    /// `.NUMBER`
    Part(i64),
    /// Arguments in parentheses.
    Call(Items<Arg>),
    /// Arguments in brackets.
    Index(Items<Arg>),
}

/// An argument.
#[cycle(expression)]
#[derive(Drop)]
pub struct Arg {
    pub label: Option<Text>,
    pub value: Expr,
}

/// `if expr { expr }` in an expression.
#[cycle(expression)]
#[derive(Drop)]
pub struct Choice {
    /// The span of the token `if`.
    pub keyword: Span,
    pub condition: Expr,
    pub value: Expr,
}

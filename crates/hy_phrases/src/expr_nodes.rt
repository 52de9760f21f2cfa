// Expressions, made of their parts.
ghost use Rattle.std.specs.Prelude.{◌≡◌, IfOk, map};
ghost use Rattle.hy_tree.specs.Denotes.{type_of, expr_of, step_of, arg_of, choice_of};
ghost use Rattle.hy_grammar.specs.Nodes as node;

use hy_base::{Span, Text};
use hy_tree::{Arg, Choice, Expr, ExprKind, Name, Step, StepKind, TypeExp, UnaryOperator};
use sqlite_items::{Boxed, Items};
use std::alloc::{AllocError, Global};

/// From the beginning of one part to the end of another.
pub fn between(from: Span, to: Span) -> Span
    ensures { result ≡ record { from = from.from; to = to.to } }
{
    Span {
        from: from.from,
        to: to.to,
    }
}

#[tactic(auto, using(hy_tree::proofs::Equations::expr_variants), unfolding(hy_grammar::specs::Nodes::number))]
pub fn number(value: i64, token: Span) -> Expr
    ensures { expr_of result ≡ node.number value token }
{
    Expr {
        kind: ExprKind::Number(value),
        span: token,
        node: 0,
    }
}

#[tactic(auto, using(hy_tree::proofs::Equations::expr_variants), unfolding(hy_grammar::specs::Nodes::truth))]
pub fn truth(value: bool, token: Span) -> Expr
    ensures { expr_of result ≡ node.truth value token }
{
    Expr {
        kind: ExprKind::Bool(value),
        span: token,
        node: 0,
    }
}

/// The name of a value.
#[tactic(auto, using(hy_tree::proofs::Equations::expr_variants), unfolding(hy_grammar::specs::Nodes::named))]
pub fn named(text: Text, token: Span) -> Expr
    ensures { expr_of result ≡ node.named text token }
{
    Expr {
        kind: ExprKind::Name(Name { text, span: token }),
        span: token,
        node: 0,
    }
}

/// `self`
#[tactic(auto, using(hy_tree::proofs::Equations::expr_variants), unfolding(hy_grammar::specs::Nodes::self_value))]
pub fn self_value(token: Span) -> Expr
    ensures { expr_of result ≡ node.self_value token }
{
    Expr {
        kind: ExprKind::SelfValue(token),
        span: token,
        node: 0,
    }
}

/// `Array<element>()`, from its word to its `)`.
#[tactic(auto, using(hy_tree::proofs::Equations::expr_variants), unfolding(hy_grammar::specs::Nodes::empty_array))]
pub fn empty_array(word: Span, element: TypeExp, close: Span) -> Expr
    ensures { expr_of result ≡ node.empty_array word (type_of element) close }
{
    Expr {
        kind: ExprKind::EmptyArray(element),
        span: between(word, close),
        node: 0,
    }
}

/// Expressions in parentheses: a tuple, or the expression that stands there alone.
#[tactic(auto, unfolding(hy_grammar::specs::Nodes::parts))]
pub fn parts(bracket: Span, mut parts: Items<Expr>, close: Span) -> Expr
    ensures { expr_of result ≡ node.parts bracket (map expr_of parts) close }
{
    let span = between(bracket, close);
    if parts.len() == 1 {
        let alone = parts.pop().unwrap();
        return Expr {
            kind: alone.kind,
            span,
            node: alone.node,
        };
    }
    Expr {
        kind: ExprKind::Tuple(parts),
        span,
        node: 0,
    }
}

/// Expressions in brackets.
#[tactic(auto, using(hy_tree::proofs::Equations::expr_variants), unfolding(hy_grammar::specs::Nodes::array))]
pub fn array(bracket: Span, elements: Items<Expr>, close: Span) -> Expr
    ensures { expr_of result ≡ node.array bracket (map expr_of elements) close }
{
    Expr {
        kind: ExprKind::Array(elements),
        span: between(bracket, close),
        node: 0,
    }
}

/// `if`, each `else if`, and the last value; from its first word, which begins there, to its last brace.
#[tactic(auto, using(hy_tree::proofs::Equations::expr_variants), unfolding(hy_grammar::specs::Nodes::if_else))]
pub fn if_else(
    alloc: Global,
    word: Span,
    choices: Items<Choice>,
    otherwise: Expr,
    close: Span,
) -> Result<Expr, AllocError>
    ensures { IfOk result (λ made. expr_of made ≡ node.if_else word.from (map choice_of choices) (expr_of otherwise) close) }
{
    Ok(Expr {
        kind: ExprKind::If(choices, Boxed::new(alloc, otherwise)?),
        span: between(word, close),
        node: 0,
    })
}

/// `.NAME` after a primary expression.
#[tactic(auto, using(hy_tree::proofs::Equations::step_variants, crate::proofs::Widened::expr_at), unfolding(hy_grammar::specs::Nodes::member_step))]
pub fn member_step(primary: &Expr, text: Text, token: Span) -> Step
    ensures { step_of result ≡ node.member_step (expr_of primary.now) text token }
{
    Step {
        kind: StepKind::Member(Name { text, span: token }),
        span: between(primary.span, token),
        node: 0,
    }
}

/// `.NUMBER` after a primary expression.
#[tactic(auto, using(hy_tree::proofs::Equations::step_variants, crate::proofs::Widened::expr_at), unfolding(hy_grammar::specs::Nodes::part_step))]
pub fn part_step(primary: &Expr, value: i64, token: Span) -> Step
    ensures { step_of result ≡ node.part_step (expr_of primary.now) value token }
{
    Step {
        kind: StepKind::Part(value),
        span: between(primary.span, token),
        node: 0,
    }
}

/// Arguments in parentheses after a primary expression.
#[tactic(auto, using(hy_tree::proofs::Equations::step_variants, crate::proofs::Widened::expr_at), unfolding(hy_grammar::specs::Nodes::call_step))]
pub fn call_step(primary: &Expr, args: Items<Arg>, close: Span) -> Step
    ensures { step_of result ≡ node.call_step (expr_of primary.now) (map arg_of args) close }
{
    Step {
        kind: StepKind::Call(args),
        span: between(primary.span, close),
        node: 0,
    }
}

/// Arguments in brackets after a primary expression.
#[tactic(auto, using(hy_tree::proofs::Equations::step_variants, crate::proofs::Widened::expr_at), unfolding(hy_grammar::specs::Nodes::index_step))]
pub fn index_step(primary: &Expr, args: Items<Arg>, close: Span) -> Step
    ensures { step_of result ≡ node.index_step (expr_of primary.now) (map arg_of args) close }
{
    Step {
        kind: StepKind::Index(args),
        span: between(primary.span, close),
        node: 0,
    }
}

/// A primary expression with the steps after it, the last of which ends there.
#[tactic(auto, using(hy_tree::proofs::Equations::expr_variants, crate::proofs::Widened::expr_at), unfolding(hy_grammar::specs::Nodes::postfix))]
pub fn postfix(
    alloc: Global,
    primary: Expr,
    steps: Items<Step>,
    to: u32,
) -> Result<Expr, AllocError>
    ensures { IfOk result (λ made. expr_of made ≡ node.postfix (expr_of primary) (map step_of steps) to) }
{
    if steps.is_empty() {
        return Ok(primary);
    }
    let span = Span {
        from: primary.span.from,
        to,
    };
    Ok(Expr {
        kind: ExprKind::Postfix(Boxed::new(alloc, primary)?, steps),
        span,
        node: 0,
    })
}

/// `-` or `!` with its operand.
#[tactic(auto, using(hy_tree::proofs::Equations::expr_variants, crate::proofs::Widened::expr_at), unfolding(hy_grammar::specs::Nodes::unary))]
pub fn unary(
    alloc: Global,
    operator: UnaryOperator,
    token: Span,
    operand: Expr,
) -> Result<Expr, AllocError>
    ensures { IfOk result (λ made. expr_of made ≡ node.unary operator token (expr_of operand)) }
{
    let span = between(token, operand.span);
    Ok(Expr {
        kind: ExprKind::Unary(operator, Boxed::new(alloc, operand)?),
        span,
        node: 0,
    })
}

/// `&` with what it marks.
#[tactic(auto, using(hy_tree::proofs::Equations::expr_variants, crate::proofs::Widened::expr_at), unfolding(hy_grammar::specs::Nodes::marked))]
pub fn marked(alloc: Global, token: Span, operand: Expr) -> Result<Expr, AllocError>
    ensures { IfOk result (λ made. expr_of made ≡ node.marked token (expr_of operand)) }
{
    let span = between(token, operand.span);
    Ok(Expr {
        kind: ExprKind::Marked(Boxed::new(alloc, operand)?),
        span,
        node: 0,
    })
}

// Expressions.
ghost use Rattle.std.specs.Prelude.{◌≡◌};
ghost use Rattle.hy_tree.specs.Denotes.{expr_of, exprs_of, link_of, links_of, step_of, steps_of, args_of, choices_of};
ghost use Rattle.hy_front.specs.Noted.{after};
ghost use Rattle.hy_front.specs.Unbuilt.{in_operand, in_expr, in_exprs, in_link, in_links, in_step, in_steps, in_args, in_choices};

use crate::forms::{is_callee, is_plus, is_variable};
use crate::least::{meet, meet_when};
use crate::written::look_at_type;
use hy_base::BrokenRule;
use hy_tree::{Arg, Choice, Expr, ExprKind, Link, Meant, Step, StepKind};

/// An operand is no sum.
#[tactic(auto, using(hy_tree::proofs::Equations::expr_variants))]
fn look_at_operand(first: Option<BrokenRule>, e: &Expr) -> Option<BrokenRule>
    ensures { result ≡ after (in_operand (expr_of e.now)) first }
{
    match &e.kind {
        ExprKind::Chain(_, _) => meet(first, e.span),
        ExprKind::Unary(_, _) => first,
        ExprKind::Marked(_) => first,
        ExprKind::Postfix(_, _) => first,
        ExprKind::Number(_) => first,
        ExprKind::Bool(_) => first,
        ExprKind::Name(_) => first,
        ExprKind::SelfValue(_) => first,
        ExprKind::EmptyArray(_) => first,
        ExprKind::Tuple(_) => first,
        ExprKind::Array(_) => first,
        ExprKind::If(_, _) => first,
    }
}

/// Looks at an expression, where `meant` has what names stand for.
#[cycle(expression)]
#[tactic(auto, using(hy_tree::proofs::Equations::expr_variants))]
pub fn look_at_expr(first: Option<BrokenRule>, meant: &[Meant], e: &Expr) -> Option<BrokenRule>
    ensures { result ≡ after (in_expr meant.now (expr_of e.now)) first }
{
    match &e.kind {
        ExprKind::Chain(operand, links) => {
            let operand = operand.get();
            let first = look_at_operand(first, operand);
            let first = look_at_expr(first, meant, operand);
            look_at_links(first, meant, links.as_slice())
        }
        ExprKind::Unary(_, operand) => look_at_expr(meet(first, e.span), meant, operand.get()),
        ExprKind::Marked(operand) => look_at_expr(meet(first, e.span), meant, operand.get()),
        ExprKind::Postfix(primary, steps) => {
            let called = is_callee(primary.get(), steps.as_slice());
            let first = meet(first, e.span);
            let first = if called {
                first
            } else {
                look_at_expr(first, meant, primary.get())
            };
            look_at_steps(first, meant, steps.as_slice())
        }
        ExprKind::Number(_) => first,
        ExprKind::Bool(_) => meet(first, e.span),
        ExprKind::Name(name) => { meet_when(first, !is_variable(meant, e.node), name.span) }
        ExprKind::SelfValue(_) => meet(first, e.span),
        ExprKind::EmptyArray(element) => look_at_type(meet(first, e.span), element),
        ExprKind::Tuple(parts) => look_at_exprs(meet(first, e.span), meant, parts.as_slice()),
        ExprKind::Array(elements) => look_at_exprs(meet(first, e.span), meant, elements.as_slice()),
        ExprKind::If(choices, otherwise) => {
            let first = look_at_choices(meet(first, e.span), meant, choices.as_slice());
            look_at_expr(first, meant, otherwise.get())
        }
    }
}

#[cycle(expression)]
fn look_at_exprs(first: Option<BrokenRule>, meant: &[Meant], parts: &[Expr]) -> Option<BrokenRule>
    ensures { result ≡ after (in_exprs meant.now (exprs_of parts.now)) first }
{
    let mut first = first;
    for part in parts {
        first = look_at_expr(first, meant, part);
    }
    first
}

/// Looks at an operator with its right operand.
#[cycle(expression)]
fn look_at_link(first: Option<BrokenRule>, meant: &[Meant], link: &Link) -> Option<BrokenRule>
    ensures { result ≡ after (in_link meant.now (link_of link.now)) first }
{
    let first = meet_when(first, !is_plus(link.operator), link.span);
    let first = look_at_operand(first, &link.operand);
    look_at_expr(first, meant, &link.operand)
}

#[cycle(expression)]
fn look_at_links(first: Option<BrokenRule>, meant: &[Meant], links: &[Link]) -> Option<BrokenRule>
    ensures { result ≡ after (in_links meant.now (links_of links.now)) first }
{
    let mut first = first;
    for link in links {
        first = look_at_link(first, meant, link);
    }
    first
}

#[cycle(expression)]
#[tactic(auto, using(hy_tree::proofs::Equations::step_variants))]
fn look_at_step(first: Option<BrokenRule>, meant: &[Meant], step: &Step) -> Option<BrokenRule>
    ensures { result ≡ after (in_step meant.now (step_of step.now)) first }
{
    let first = meet(first, step.span);
    match &step.kind {
        StepKind::Member(_) => first,
        StepKind::Part(_) => first,
        StepKind::Call(args) => look_at_args(first, meant, args.as_slice()),
        StepKind::Index(args) => look_at_args(first, meant, args.as_slice()),
    }
}

#[cycle(expression)]
fn look_at_steps(first: Option<BrokenRule>, meant: &[Meant], steps: &[Step]) -> Option<BrokenRule>
    ensures { result ≡ after (in_steps meant.now (steps_of steps.now)) first }
{
    let mut first = first;
    for step in steps {
        first = look_at_step(first, meant, step);
    }
    first
}

#[cycle(expression)]
fn look_at_args(first: Option<BrokenRule>, meant: &[Meant], args: &[Arg]) -> Option<BrokenRule>
    ensures { result ≡ after (in_args meant.now (args_of args.now)) first }
{
    let mut first = first;
    for arg in args {
        first = look_at_expr(first, meant, &arg.value);
    }
    first
}

#[cycle(expression)]
fn look_at_choices(
    first: Option<BrokenRule>,
    meant: &[Meant],
    choices: &[Choice],
) -> Option<BrokenRule>
    ensures { result ≡ after (in_choices meant.now (choices_of choices.now)) first }
{
    let mut first = first;
    for choice in choices {
        first = look_at_expr(first, meant, &choice.condition);
        first = look_at_expr(first, meant, &choice.value);
    }
    first
}

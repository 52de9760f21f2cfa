// Numbers for the nodes of expressions.
ghost use Rattle.hy_tree.specs.Denotes.{expr_kind_of, expr_of, exprs_of, links_of, step_kind_of, step_of, steps_of, args_of, choices_of};
ghost use Rattle.hy_tree.specs.Numbering.{IsNumberedFrom, IsKindNumberedFrom};
ghost use Rattle.hy_tree.specs.Numbers as numbers;
ghost use Rattle.hy_tree.specs.Numbers.{count_expr, count_exprs, count_links, count_step, count_steps, count_args, count_choices};

use crate::expression::{Arg, Choice, Expr, ExprKind, Link, Step, StepKind};
use crate::number_written::number_type;
use crate::numbering::{copy_label, copy_name, take};
use hy_base::NoMemory;
use sqlite_items::{Boxed, Items};
use std::alloc::Global;

/// The same expression, with its nodes numbered from `next` on.
#[cycle(expressions)]
pub fn number_expr(alloc: Global, next: &mut u32, e: &Expr) -> Result<Expr, NoMemory>
    ensures { IsNumberedFrom expr_of count_expr numbers.number_expr next.old e.now result next.new }
{
    let node = take(next)?;
    let kind = number_expr_kind(alloc, next, &e.kind)?;
    Ok(Expr {
        kind,
        span: e.span,
        node,
    })
}

#[cycle(expressions)]
fn number_boxed(alloc: Global, next: &mut u32, e: &Boxed<Expr>) -> Result<Boxed<Expr>, NoMemory>
    ensures { IsNumberedFrom expr_of count_expr numbers.number_expr next.old e.now result next.new }
{
    let e = number_expr(alloc, next, e.get())?;
    Ok(Boxed::new(alloc, e)?)
}

#[cycle(expressions)]
#[tactic(auto, using(crate::proofs::Equations::expr_variants))]
fn number_expr_kind(alloc: Global, next: &mut u32, kind: &ExprKind) -> Result<ExprKind, NoMemory>
    ensures { IsKindNumberedFrom expr_kind_of count_expr numbers.number_expr next.old kind.now result next.new }
{
    match kind {
        ExprKind::Chain(first, links) => {
            let first = number_boxed(alloc, next, first)?;
            Ok(ExprKind::Chain(first, number_links(alloc, next, links.as_slice())?))
        }
        ExprKind::Unary(operator, operand) => {
            Ok(ExprKind::Unary(*operator, number_boxed(alloc, next, operand)?))
        }
        ExprKind::Marked(operand) => Ok(ExprKind::Marked(number_boxed(alloc, next, operand)?)),
        ExprKind::Postfix(primary, steps) => {
            let primary = number_boxed(alloc, next, primary)?;
            Ok(ExprKind::Postfix(primary, number_steps(alloc, next, steps.as_slice())?))
        }
        ExprKind::Number(number) => Ok(ExprKind::Number(*number)),
        ExprKind::Bool(truth) => Ok(ExprKind::Bool(*truth)),
        ExprKind::Name(name) => Ok(ExprKind::Name(copy_name(alloc, name)?)),
        ExprKind::SelfValue(token) => Ok(ExprKind::SelfValue(*token)),
        ExprKind::EmptyArray(element) => Ok(ExprKind::EmptyArray(number_type(
            alloc, next, element,
        )?)),
        ExprKind::Tuple(parts) => Ok(ExprKind::Tuple(number_exprs(alloc, next, parts.as_slice())?)),
        ExprKind::Array(elements) => {
            Ok(ExprKind::Array(number_exprs(alloc, next, elements.as_slice())?))
        }
        ExprKind::If(choices, otherwise) => {
            let choices = number_choices(alloc, next, choices.as_slice())?;
            Ok(ExprKind::If(choices, number_boxed(alloc, next, otherwise)?))
        }
    }
}

#[cycle(expressions)]
fn number_exprs(alloc: Global, next: &mut u32, parts: &[Expr]) -> Result<Items<Expr>, NoMemory>
    ensures { IsNumberedFrom exprs_of count_exprs numbers.number_exprs next.old parts.now result next.new }
{
    let mut made = Items::new(alloc);
    for part in parts {
        made.push(number_expr(alloc, next, part)?)?;
    }
    Ok(made)
}

#[cycle(expressions)]
fn number_links(alloc: Global, next: &mut u32, links: &[Link]) -> Result<Items<Link>, NoMemory>
    ensures { IsNumberedFrom links_of count_links numbers.number_links next.old links.now result next.new }
{
    let mut made = Items::new(alloc);
    for link in links {
        let node = take(next)?;
        let operand = number_expr(alloc, next, &link.operand)?;
        made.push(Link {
            operator: link.operator,
            token: link.token,
            operand,
            span: link.span,
            node,
        })?;
    }
    Ok(made)
}

#[cycle(expressions)]
fn number_step(alloc: Global, next: &mut u32, step: &Step) -> Result<Step, NoMemory>
    ensures { IsNumberedFrom step_of count_step numbers.number_step next.old step.now result next.new }
{
    let node = take(next)?;
    let kind = number_step_kind(alloc, next, &step.kind)?;
    Ok(Step {
        kind,
        span: step.span,
        node,
    })
}

#[cycle(expressions)]
#[tactic(auto, using(crate::proofs::Equations::step_variants))]
fn number_step_kind(alloc: Global, next: &mut u32, kind: &StepKind) -> Result<StepKind, NoMemory>
    ensures { IsKindNumberedFrom step_kind_of count_step numbers.number_step next.old kind.now result next.new }
{
    match kind {
        StepKind::Member(name) => Ok(StepKind::Member(copy_name(alloc, name)?)),
        StepKind::Part(number) => Ok(StepKind::Part(*number)),
        StepKind::Call(args) => Ok(StepKind::Call(number_args(alloc, next, args.as_slice())?)),
        StepKind::Index(args) => Ok(StepKind::Index(number_args(alloc, next, args.as_slice())?)),
    }
}

#[cycle(expressions)]
fn number_steps(alloc: Global, next: &mut u32, steps: &[Step]) -> Result<Items<Step>, NoMemory>
    ensures { IsNumberedFrom steps_of count_steps numbers.number_steps next.old steps.now result next.new }
{
    let mut made = Items::new(alloc);
    for step in steps {
        made.push(number_step(alloc, next, step)?)?;
    }
    Ok(made)
}

#[cycle(expressions)]
fn number_args(alloc: Global, next: &mut u32, args: &[Arg]) -> Result<Items<Arg>, NoMemory>
    ensures { IsNumberedFrom args_of count_args numbers.number_args next.old args.now result next.new }
{
    let mut made = Items::new(alloc);
    for arg in args {
        let label = copy_label(alloc, &arg.label)?;
        let value = number_expr(alloc, next, &arg.value)?;
        made.push(Arg { label, value })?;
    }
    Ok(made)
}

#[cycle(expressions)]
fn number_choices(
    alloc: Global,
    next: &mut u32,
    choices: &[Choice],
) -> Result<Items<Choice>, NoMemory>
    ensures { IsNumberedFrom choices_of count_choices numbers.number_choices next.old choices.now result next.new }
{
    let mut made = Items::new(alloc);
    for choice in choices {
        let condition = number_expr(alloc, next, &choice.condition)?;
        let value = number_expr(alloc, next, &choice.value)?;
        made.push(Choice {
            keyword: choice.keyword,
            condition,
            value,
        })?;
    }
    Ok(made)
}

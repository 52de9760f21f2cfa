// Which forms are built.
ghost use Rattle.std.specs.Prelude.{◌≡◌, false};
ghost use Rattle.std.specs.Option.{option_map, option_copied};
ghost use Rattle.hy_tree.specs.Denotes.{expr_of, args_of, step_of, steps_of, callable_of, variant_of, type_of};
ghost use Rattle.hy_tree.specs.Findings as findings;
ghost use Rattle.hy_tree.specs.Tree.{DeclCallable};
ghost use Rattle.hy_meaning.specs.Forms as forms;
ghost use Rattle.hy_front.specs.Unbuilt as unbuilt;

use hy_tree::{
    Arg, Arithmetic, Callable, CallableKind, Expr, ExprKind, Introducer, Meant, Operator, Step,
    StepKind, TypeExp, Variant,
};

/// Whether it is the name `print`.
#[tactic(auto, using(hy_tree::proofs::Equations::expr_variants))]
fn is_print(e: &Expr) -> bool
    ensures { result ≡ forms.is_print (expr_of e.now) }
{
    match &e.kind {
        ExprKind::Name(name) => name.text.as_slice() == b"print".as_slice(),
        ExprKind::Chain(_, _) => false,
        ExprKind::Unary(_, _) => false,
        ExprKind::Marked(_) => false,
        ExprKind::Postfix(_, _) => false,
        ExprKind::Number(_) => false,
        ExprKind::Bool(_) => false,
        ExprKind::SelfValue(_) => false,
        ExprKind::EmptyArray(_) => false,
        ExprKind::Tuple(_) => false,
        ExprKind::Array(_) => false,
        ExprKind::If(_, _) => false,
    }
}

/// The value of one argument without a label.
fn only_value(args: &[Arg]) -> Option<&Expr>
    ensures { option_map expr_of (option_copied result) ≡ forms.only_value (args_of args.now) }
{
    if args.len() != 1 {
        return None;
    }
    match &args[0].label {
        None => Some(&args[0].value),
        Some(_) => None,
    }
}

/// The same of a call's.
#[tactic(auto, using(hy_tree::proofs::Equations::step_variants))]
fn call_value(step: &Step) -> Option<&Expr>
    ensures { option_map expr_of (option_copied result) ≡ forms.call_value (step_of step.now) }
{
    match &step.kind {
        StepKind::Call(args) => only_value(args.as_slice()),
        StepKind::Member(_) => None,
        StepKind::Part(_) => None,
        StepKind::Index(_) => None,
    }
}

/// The same where the call is the only step.
fn only_call(steps: &[Step]) -> Option<&Expr>
    ensures { option_map expr_of (option_copied result) ≡ forms.only_call (steps_of steps.now) }
{
    if steps.len() != 1 {
        return None;
    }
    call_value(&steps[0])
}

/// The value that is printed, if the expression is `print(value)`.
#[tactic(auto, using(hy_tree::proofs::Equations::expr_variants))]
pub fn printed(e: &Expr) -> Option<&Expr>
    ensures { option_map expr_of (option_copied result) ≡ forms.printed (expr_of e.now) }
{
    match &e.kind {
        ExprKind::Postfix(primary, steps) => {
            if is_print(primary.get()) {
                only_call(steps.as_slice())
            } else {
                None
            }
        }
        ExprKind::Name(_) => None,
        ExprKind::Chain(_, _) => None,
        ExprKind::Unary(_, _) => None,
        ExprKind::Marked(_) => None,
        ExprKind::Number(_) => None,
        ExprKind::Bool(_) => None,
        ExprKind::SelfValue(_) => None,
        ExprKind::EmptyArray(_) => None,
        ExprKind::Tuple(_) => None,
        ExprKind::Array(_) => None,
        ExprKind::If(_, _) => None,
    }
}

/// Whether it is `+`.
pub fn is_plus(operator: Operator) -> bool
    ensures { result ≡ unbuilt.is_plus operator }
{
    match operator {
        Operator::Arithmetic(Arithmetic::Add) => true,
        _ => false,
    }
}

/// Whether the step is `.NAME`, `.NUMBER` or `[..]`.
#[tactic(auto, using(hy_tree::proofs::Equations::step_variants))]
fn is_place_step(step: &Step) -> bool
    ensures { result ≡ unbuilt.is_place_step (step_of step.now) }
{
    match &step.kind {
        StepKind::Member(_) => true,
        StepKind::Part(_) => true,
        StepKind::Index(_) => true,
        StepKind::Call(_) => false,
    }
}

/// Whether the last step is such a one.
fn ends_in_place(steps: &[Step]) -> bool
    ensures { result ≡ unbuilt.ends_in_place false (steps_of steps.now) }
{
    let mut ends = false;
    for step in steps {
        ends = is_place_step(step);
    }
    ends
}

/// Whether it is a place form: a name, `self`, or an expression that ends in a step to a part.
#[tactic(auto, using(hy_tree::proofs::Equations::expr_variants))]
pub fn is_place(e: &Expr) -> bool
    ensures { result ≡ unbuilt.is_place (expr_of e.now) }
{
    match &e.kind {
        ExprKind::Name(_) => true,
        ExprKind::SelfValue(_) => true,
        ExprKind::Postfix(_, steps) => ends_in_place(steps.as_slice()),
        ExprKind::Chain(_, _) => false,
        ExprKind::Unary(_, _) => false,
        ExprKind::Marked(_) => false,
        ExprKind::Number(_) => false,
        ExprKind::Bool(_) => false,
        ExprKind::EmptyArray(_) => false,
        ExprKind::Tuple(_) => false,
        ExprKind::Array(_) => false,
        ExprKind::If(_, _) => false,
    }
}

/// Whether it is a name.
#[tactic(auto, using(hy_tree::proofs::Equations::expr_variants))]
pub fn is_name(e: &Expr) -> bool
    ensures { result ≡ unbuilt.is_name (expr_of e.now) }
{
    match &e.kind {
        ExprKind::Name(_) => true,
        ExprKind::SelfValue(_) => false,
        ExprKind::Postfix(_, _) => false,
        ExprKind::Chain(_, _) => false,
        ExprKind::Unary(_, _) => false,
        ExprKind::Marked(_) => false,
        ExprKind::Number(_) => false,
        ExprKind::Bool(_) => false,
        ExprKind::EmptyArray(_) => false,
        ExprKind::Tuple(_) => false,
        ExprKind::Array(_) => false,
        ExprKind::If(_, _) => false,
    }
}

/// Whether the step is `(..)` or `[..]`.
#[tactic(auto, using(hy_tree::proofs::Equations::step_variants))]
fn is_application(step: &Step) -> bool
    ensures { result ≡ unbuilt.is_application (step_of step.now) }
{
    match &step.kind {
        StepKind::Call(_) => true,
        StepKind::Index(_) => true,
        StepKind::Member(_) => false,
        StepKind::Part(_) => false,
    }
}

/// Whether arguments stand first among the steps.
fn has_arguments(steps: &[Step]) -> bool
    ensures { result ≡ unbuilt.has_arguments (steps_of steps.now) }
{
    match steps.first() {
        Some(step) => is_application(step),
        None => false,
    }
}

/// Whether an expression with these steps after it is a name that is called, which is no value.
pub fn is_callee(primary: &Expr, steps: &[Step]) -> bool
    ensures { result ≡ unbuilt.is_callee (expr_of primary.now) (steps_of steps.now) }
{
    is_name(primary) && has_arguments(steps)
}

/// Whether the name at a node stands for a variable.
pub fn is_variable(meant: &[Meant], node: u32) -> bool
    ensures { result ≡ unbuilt.is_variable meant.now node }
{
    match meant.get(node as usize) {
        Some(Meant::Local(_)) => true,
        _ => false,
    }
}

/// Whether a variant has a keyword or a new value.
pub fn is_special(variant: &Variant) -> bool
    ensures { result ≡ unbuilt.is_special (variant_of variant.now) }
{
    variant.keyword.is_some() || variant.value.is_some()
}

/// Whether it is `var` without a written type.
pub fn is_plain(introducer: Introducer, written: &Option<TypeExp>) -> bool
    ensures { result ≡ unbuilt.is_plain introducer (option_map type_of written.now) }
{
    match (introducer, written) {
        (Introducer::Var, None) => true,
        (Introducer::Var, Some(_)) => false,
        (Introducer::Let, _) => false,
        (Introducer::Inout, _) => false,
    }
}

fn is_function(kind: CallableKind) -> bool
    ensures { result ≡ findings.is_function kind }
{
    match kind {
        CallableKind::Function => true,
        CallableKind::Subscript => false,
        CallableKind::Deinit => false,
        CallableKind::Requirement => false,
    }
}

/// Whether this is `fun main()`, without generics and result.
pub fn is_main(c: &Callable) -> bool
    ensures { result ≡ findings.is_main (DeclCallable (callable_of c.now)) }
{
    let named = match &c.name {
        Some(name) => name.text.as_slice() == b"main".as_slice(),
        None => false,
    };
    let bare = c.generics.as_slice().is_empty() && c.params.as_slice().is_empty();
    is_function(c.kind) && named && bare && c.result.is_none()
}

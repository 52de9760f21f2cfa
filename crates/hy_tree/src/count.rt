// How many nodes a tree has.
ghost use Rattle.std.specs.Prelude.{◌≡◌, ◌-◌, ◌^◌, min};
ghost use Rattle.std.specs.Option.{option_map};
ghost use Rattle.hy_tree.specs.Denotes.{type_of, types_of, expr_of, exprs_of, links_of, step_of, steps_of, args_of, choices_of, stmt_of, stmts_of};
ghost use Rattle.hy_tree.specs.Denotes.{block_of, branches_of, else_of, param_of, variant_of, callable_of, member_of, decl_of, program_of};
ghost use Rattle.hy_tree.specs.Numbering.{IsCountedFrom, AreCountedFrom};
ghost use Rattle.hy_tree.specs.Numbers.{count_optional, count_type, count_types, count_expr, count_exprs, count_links, count_step, count_steps, count_args};
ghost use Rattle.hy_tree.specs.Numbers.{count_choices, count_stmt, count_stmts, count_block, count_branches, count_otherwise, count_use, count_generic};
ghost use Rattle.hy_tree.specs.Numbers.{count_param, count_variant, count_callable, count_member, count_decl, count_program};

use crate::declaration::{
    Callable, Decl, DeclKind, Member, MemberKind, Param, Program, TypeParam, Variant,
};
use crate::expression::{Arg, Choice, Expr, ExprKind, Link, Step, StepKind};
use crate::name::NameUse;
use crate::statement::{Block, Branch, Stmt, StmtKind};
use crate::written::{TypeExp, TypeKind};

impl Program {
    /// The number of its nodes, or 2^32 - 1 where there are more. Each number is below it, once `number` has given them.
    pub fn count(&self) -> u32
        ensures { result ≡ min (count_program (program_of self.now)) (2 ^ 32 - 1) }
    {
        decls_from(1, self.decls.as_slice())
    }
}

fn decls_from(so_far: u32, decls: &[Decl]) -> u32
    ensures { AreCountedFrom decl_of count_decl so_far decls.now result }
{
    let mut total = so_far;
    for decl in decls {
        total = decl_from(total, decl);
    }
    total
}

fn decl_from(so_far: u32, decl: &Decl) -> u32
    ensures { IsCountedFrom decl_of count_decl so_far decl.now result }
{
    let so_far = so_far.saturating_add(1);
    match &decl.kind {
        DeclKind::Callable(callable) => callable_from(so_far, callable),
        DeclKind::Product(product) => {
            let so_far = uses_from(so_far.saturating_add(1), product.traits.as_slice());
            members_from(so_far, product.members.as_slice())
        }
        DeclKind::Trait(definition) => {
            members_from(so_far.saturating_add(1), definition.members.as_slice())
        }
        DeclKind::Conformance(conform) => {
            let so_far = uses_from(so_far.saturating_add(2), conform.traits.as_slice());
            members_from(so_far, conform.members.as_slice())
        }
    }
}

fn members_from(so_far: u32, members: &[Member]) -> u32
    ensures { AreCountedFrom member_of count_member so_far members.now result }
{
    let mut total = so_far;
    for member in members {
        total = member_from(total, member);
    }
    total
}

fn member_from(so_far: u32, member: &Member) -> u32
    ensures { IsCountedFrom member_of count_member so_far member.now result }
{
    let so_far = so_far.saturating_add(1);
    match &member.kind {
        MemberKind::Field(_name, written) => type_from(so_far, written),
        MemberKind::MemberwiseInit => so_far,
        MemberKind::Callable(callable) => callable_from(so_far, callable),
    }
}

fn callable_from(so_far: u32, callable: &Callable) -> u32
    ensures { IsCountedFrom callable_of count_callable so_far callable.now result }
{
    let so_far = generics_from(so_far.saturating_add(1), callable.generics.as_slice());
    let so_far = params_from(so_far, callable.params.as_slice());
    let so_far = optional_type_from(so_far, &callable.result);
    variants_from(so_far, callable.variants.as_slice())
}

fn optional_type_from(so_far: u32, written: &Option<TypeExp>) -> u32
    ensures { IsCountedFrom (option_map type_of) (count_optional count_type) so_far written.now result }
{
    match written {
        Some(written) => type_from(so_far, written),
        None => so_far,
    }
}

fn generics_from(so_far: u32, generics: &[TypeParam]) -> u32
    ensures { AreCountedFrom (λ p. p) count_generic so_far generics.now result }
{
    let mut total = so_far;
    for generic in generics {
        total = uses_from(total, generic.bounds.as_slice());
    }
    total
}

fn uses_from(so_far: u32, uses: &[NameUse]) -> u32
    ensures { AreCountedFrom (λ u. u) count_use so_far uses.now result }
{
    let mut total = so_far;
    for _name in uses {
        total = total.saturating_add(1);
    }
    total
}

fn params_from(so_far: u32, params: &[Param]) -> u32
    ensures { AreCountedFrom param_of count_param so_far params.now result }
{
    let mut total = so_far;
    for param in params {
        total = type_from(total.saturating_add(1), &param.written);
    }
    total
}

fn variants_from(so_far: u32, variants: &[Variant]) -> u32
    ensures { AreCountedFrom variant_of count_variant so_far variants.now result }
{
    let mut total = so_far;
    for variant in variants {
        total = block_from(total.saturating_add(1), &variant.block);
    }
    total
}

#[cycle(statements)]
#[tactic(auto, using(crate::proofs::Equations::stmt_variants))]
fn stmt_from(so_far: u32, stmt: &Stmt) -> u32
    ensures { IsCountedFrom stmt_of count_stmt so_far stmt.now result }
{
    let so_far = so_far.saturating_add(1);
    match &stmt.kind {
        StmtKind::Binding(_introducer, _name, written, value) => {
            expr_from(optional_type_from(so_far, written), value)
        }
        StmtKind::Declare(_name, written) => type_from(so_far, written),
        StmtKind::Assign(target, value) => expr_from(expr_from(so_far, target), value),
        StmtKind::Compound(target, _operator, value) => expr_from(expr_from(so_far, target), value),
        StmtKind::Expr(value) => expr_from(so_far, value),
        StmtKind::If(branches, otherwise) => {
            else_from(branches_from(so_far, branches.as_slice()), otherwise)
        }
        StmtKind::While(_token, condition, body) => block_from(expr_from(so_far, condition), body),
        StmtKind::Return(_token, value) => optional_expr_from(so_far, value),
        StmtKind::Break => so_far,
        StmtKind::Continue => so_far,
        StmtKind::Yield(_token, value) => expr_from(so_far, value),
    }
}

fn optional_expr_from(so_far: u32, value: &Option<Expr>) -> u32
    ensures { IsCountedFrom (option_map expr_of) (count_optional count_expr) so_far value.now result }
{
    match value {
        Some(value) => expr_from(so_far, value),
        None => so_far,
    }
}

#[cycle(statements)]
#[tactic(auto, using(crate::proofs::Counts::stmt_lists))]
fn stmts_from(so_far: u32, stmts: &[Stmt]) -> u32
    ensures { IsCountedFrom stmts_of count_stmts so_far stmts.now result }
{
    let mut total = so_far;
    for stmt in stmts {
        total = stmt_from(total, stmt);
    }
    total
}

#[cycle(statements)]
#[tactic(auto, using(crate::proofs::Equations::block_is))]
fn block_from(so_far: u32, block: &Block) -> u32
    ensures { IsCountedFrom block_of count_block so_far block.now result }
{
    stmts_from(so_far.saturating_add(1), block.stmts.as_slice())
}

#[cycle(statements)]
fn else_from(so_far: u32, otherwise: &Option<Block>) -> u32
    ensures { IsCountedFrom else_of count_otherwise so_far otherwise.now result }
{
    match otherwise {
        Some(block) => block_from(so_far, block),
        None => so_far,
    }
}

#[cycle(statements)]
#[tactic(auto, using(crate::proofs::Counts::branch_lists))]
fn branches_from(so_far: u32, branches: &[Branch]) -> u32
    ensures { IsCountedFrom branches_of count_branches so_far branches.now result }
{
    let mut total = so_far;
    for branch in branches {
        total = block_from(expr_from(total, &branch.condition), &branch.block);
    }
    total
}

#[cycle(expressions)]
#[tactic(auto, using(crate::proofs::Equations::expr_variants))]
fn expr_from(so_far: u32, e: &Expr) -> u32
    ensures { IsCountedFrom expr_of count_expr so_far e.now result }
{
    let so_far = so_far.saturating_add(1);
    match &e.kind {
        ExprKind::Chain(first, links) => {
            links_from(expr_from(so_far, first.get()), links.as_slice())
        }
        ExprKind::Unary(_operator, operand) => expr_from(so_far, operand.get()),
        ExprKind::Marked(operand) => expr_from(so_far, operand.get()),
        ExprKind::Postfix(primary, steps) => {
            steps_from(expr_from(so_far, primary.get()), steps.as_slice())
        }
        ExprKind::Number(_number) => so_far,
        ExprKind::Bool(_truth) => so_far,
        ExprKind::Name(_name) => so_far,
        ExprKind::SelfValue(_token) => so_far,
        ExprKind::EmptyArray(element) => type_from(so_far, element),
        ExprKind::Tuple(parts) => exprs_from(so_far, parts.as_slice()),
        ExprKind::Array(elements) => exprs_from(so_far, elements.as_slice()),
        ExprKind::If(choices, otherwise) => {
            expr_from(choices_from(so_far, choices.as_slice()), otherwise.get())
        }
    }
}

#[cycle(expressions)]
#[tactic(auto, using(crate::proofs::Counts::expr_lists))]
fn exprs_from(so_far: u32, parts: &[Expr]) -> u32
    ensures { IsCountedFrom exprs_of count_exprs so_far parts.now result }
{
    let mut total = so_far;
    for part in parts {
        total = expr_from(total, part);
    }
    total
}

#[cycle(expressions)]
#[tactic(auto, using(crate::proofs::Counts::link_lists))]
fn links_from(so_far: u32, links: &[Link]) -> u32
    ensures { IsCountedFrom links_of count_links so_far links.now result }
{
    let mut total = so_far;
    for link in links {
        total = expr_from(total.saturating_add(1), &link.operand);
    }
    total
}

#[cycle(expressions)]
#[tactic(auto, using(crate::proofs::Equations::step_variants))]
fn step_from(so_far: u32, step: &Step) -> u32
    ensures { IsCountedFrom step_of count_step so_far step.now result }
{
    let so_far = so_far.saturating_add(1);
    match &step.kind {
        StepKind::Member(_name) => so_far,
        StepKind::Part(_number) => so_far,
        StepKind::Call(args) => args_from(so_far, args.as_slice()),
        StepKind::Index(args) => args_from(so_far, args.as_slice()),
    }
}

#[cycle(expressions)]
#[tactic(auto, using(crate::proofs::Counts::step_lists))]
fn steps_from(so_far: u32, steps: &[Step]) -> u32
    ensures { IsCountedFrom steps_of count_steps so_far steps.now result }
{
    let mut total = so_far;
    for step in steps {
        total = step_from(total, step);
    }
    total
}

#[cycle(expressions)]
#[tactic(auto, using(crate::proofs::Counts::arg_lists))]
fn args_from(so_far: u32, args: &[Arg]) -> u32
    ensures { IsCountedFrom args_of count_args so_far args.now result }
{
    let mut total = so_far;
    for arg in args {
        total = expr_from(total, &arg.value);
    }
    total
}

#[cycle(expressions)]
#[tactic(auto, using(crate::proofs::Counts::choice_lists))]
fn choices_from(so_far: u32, choices: &[Choice]) -> u32
    ensures { IsCountedFrom choices_of count_choices so_far choices.now result }
{
    let mut total = so_far;
    for choice in choices {
        total = expr_from(expr_from(total, &choice.condition), &choice.value);
    }
    total
}

#[cycle(types)]
#[tactic(auto, using(crate::proofs::Equations::type_variants))]
fn type_from(so_far: u32, written: &TypeExp) -> u32
    ensures { IsCountedFrom type_of count_type so_far written.now result }
{
    let so_far = so_far.saturating_add(1);
    match &written.kind {
        TypeKind::Name(_name) => so_far,
        TypeKind::SelfType(_token) => so_far,
        TypeKind::Array(element) => type_from(so_far, element.get()),
        TypeKind::Tuple(parts) => types_from(so_far, parts.as_slice()),
    }
}

#[cycle(types)]
#[tactic(auto, using(crate::proofs::Counts::type_lists))]
fn types_from(so_far: u32, parts: &[TypeExp]) -> u32
    ensures { IsCountedFrom types_of count_types so_far parts.now result }
{
    let mut total = so_far;
    for part in parts {
        total = type_from(total, part);
    }
    total
}

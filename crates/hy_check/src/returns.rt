// Paths through bodies that come to their end without a result.
ghost use Rattle.std.specs.Prelude.{◌≡◌, ◌&&◌, is_some, map, flat_map};
ghost use Rattle.hy_tree.specs.Denotes.{stmt_of, stmts_of, block_of, branches_of, else_of, callable_of, variant_of, member_of, decl_of, decl_kind_of};
ghost use Rattle.hy_signatures.specs.Declarations.{Source};
ghost use Rattle.hy_check.specs.Noted.{after};
ghost use Rattle.hy_check.specs.Phrases.{body_of};
ghost use Rattle.hy_check.specs.Refusals as refusals;
ghost use Rattle.hy_check.specs.Returns as returns;

use crate::meet::meet_when;
use hy_base::{BrokenRule, Rule};
use hy_tree::{
    Block, Branch, Callable, CallableKind, Decl, DeclKind, Member, MemberKind, Mode, Stmt,
    StmtKind, Variant,
};

/// Whether a path goes on after the statement.
#[cycle(paths)]
#[tactic(auto, using(hy_tree::proofs::Equations::stmt_variants))]
fn goes_on(stmt: &Stmt) -> bool
    ensures { result ≡ returns.goes_on (stmt_of stmt.now) }
{
    match &stmt.kind {
        StmtKind::Binding(_, _, _, _) => true,
        StmtKind::Declare(_, _) => true,
        StmtKind::Assign(_, _) => true,
        StmtKind::Compound(_, _, _) => true,
        StmtKind::Expr(_) => true,
        StmtKind::If(branches, otherwise) => {
            some_goes_on(branches.as_slice()) || other_goes_on(otherwise)
        }
        StmtKind::While(_, _, _) => true,
        StmtKind::Return(_, _) => false,
        StmtKind::Break => false,
        StmtKind::Continue => false,
        StmtKind::Yield(_, _) => true,
    }
}

/// Whether a path comes to the end of the block.
#[cycle(paths)]
#[tactic(auto, using(hy_tree::proofs::Equations::block_is))]
fn ends(body: &Block) -> bool
    ensures { result ≡ returns.ends (block_of body.now) }
{
    all_go_on(body.stmts.as_slice())
}

#[cycle(paths)]
fn all_go_on(stmts: &[Stmt]) -> bool
    ensures { result ≡ returns.all_go_on (stmts_of stmts.now) }
{
    for stmt in stmts {
        if !goes_on(stmt) {
            return false;
        }
    }
    true
}

#[cycle(paths)]
fn some_goes_on(branches: &[Branch]) -> bool
    ensures { result ≡ returns.some_goes_on (branches_of branches.now) }
{
    for branch in branches {
        if ends(&branch.block) {
            return true;
        }
    }
    false
}

#[cycle(paths)]
fn other_goes_on(otherwise: &Option<Block>) -> bool
    ensures { result ≡ returns.other_goes_on (else_of otherwise.now) }
{
    match otherwise {
        Some(body) => ends(body),
        None => true,
    }
}

/// Whether a body has to give a result.
fn has_result(c: &Callable, mode: Mode) -> bool
    ensures { (source : Source) (v : _) → v.mode ≡ mode → result ≡ is_some (body_of source (callable_of c.now) v).result }
{
    match c.kind {
        CallableKind::Function => c.result.is_some() && !(c.is_bundle() && mode == Mode::Inout),
        CallableKind::Subscript => c.result.is_some() && mode == Mode::Sink,
        CallableKind::Deinit => false,
        CallableKind::Requirement => false,
    }
}

/// Whether a body has to give a result, and some path comes to its end.
fn is_without_return(c: &Callable, v: &Variant) -> bool
    ensures { (source : Source) → result
        ≡ (is_some (body_of source (callable_of c.now) (variant_of v.now)).result && returns.ends (block_of v.now.block)) }
{
    has_result(c, v.mode) && ends(&v.block)
}

/// Meets a body with a result, some path through which comes to its end.
fn check_variant(first: Option<BrokenRule>, c: &Callable, v: &Variant) -> Option<BrokenRule>
    ensures { (source : Source) → result ≡ after (refusals.without_return source (callable_of c.now) (variant_of v.now)) first }
{
    meet_when(first, is_without_return(c, v), Rule::T5, c.head(v))
}

fn check_callable(first: Option<BrokenRule>, c: &Callable) -> Option<BrokenRule>
    ensures { (source : Source) → result ≡ after (refusals.callable_t5 source (callable_of c.now)) first }
{
    let mut first = first;
    for v in c.variants.as_slice() {
        first = check_variant(first, c, v);
    }
    first
}

fn check_member(first: Option<BrokenRule>, member: &Member) -> Option<BrokenRule>
    ensures { (source : Source) → result ≡ after (refusals.member_t5 source (member_of member.now)) first }
{
    match &member.kind {
        MemberKind::Field(_, _) => first,
        MemberKind::MemberwiseInit => first,
        MemberKind::Callable(c) => check_callable(first, c),
    }
}

fn check_members(first: Option<BrokenRule>, members: &[Member]) -> Option<BrokenRule>
    ensures { (source : Source) → result ≡ after (flat_map (refusals.member_t5 source) (map member_of members.now)) first }
{
    let mut first = first;
    for member in members {
        first = check_member(first, member);
    }
    first
}

fn check_decl(first: Option<BrokenRule>, decl: &DeclKind) -> Option<BrokenRule>
    ensures { (source : Source) → result ≡ after (refusals.t5 source (decl_kind_of decl.now)) first }
{
    match decl {
        DeclKind::Callable(c) => check_callable(first, c),
        DeclKind::Product(p) => check_members(first, p.members.as_slice()),
        DeclKind::Trait(_) => first,
        DeclKind::Conformance(c) => check_members(first, c.members.as_slice()),
    }
}

/// Meets each body with a result, some path through which comes to its end.
pub fn check_results(first: Option<BrokenRule>, decls: &[Decl]) -> Option<BrokenRule>
    ensures { (source : Source) → source.decls ≡ map decl_of decls.now
        → result ≡ after (refusals.in_each_decl (refusals.t5 source) source) first }
{
    let mut first = first;
    for decl in decls {
        first = check_decl(first, &decl.kind);
    }
    first
}

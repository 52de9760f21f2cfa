// The parts of a tree that passes ask for, and how many nodes it has.
use crate::rows::{parsed, push_if_wrong};
use hy_base::Span;
use hy_tree::{Callable, DeclKind, Expr, Member, MemberKind, Param, Program, StmtKind, number};
use std::alloc::{AllocError, Global};
use std::process::Abort;
use std::test::Fail;

const SOURCE: &str = "type P: Q { var x: Array<Self> } fun main() { f(&y, 2) }";

/// The same with a marked call.
const MARKED: &str = "type P: Q { var x: Array<Self> } fun main() {&f(&y, 2) }";

fn span(from: u32, to: u32) -> Span {
    Span { from, to }
}

fn check_nodes(rt: &impl Abort, alloc: Global, program: &Program) -> Result<(), Fail> {
    let mut numbers = Vec::new(alloc);
    for decl in program.decls.as_slice() {
        numbers.push(decl.node)?;
    }
    assert_eq!(rt; numbers.as_slice(), [1, 7].as_slice());
    assert_eq!(rt; program.count(), 18);
    assert_eq!(rt; program.span, span(0, 56));
    Ok(())
}

#[test]
fn nodes_are_numbered_in_preorder(rt: HostRuntime) -> Result<(), Fail> {
    // The parser numbers a tree that has no numbers.
    let program = parsed(rt.alloc(), SOURCE.as_bytes())?;
    check_nodes(&rt, rt.alloc(), &program)?;
    let again = number(rt.alloc(), &program)?;
    check_nodes(&rt, rt.alloc(), &again)
}

/// A row has a source, and after `=>` what its first callable, or that of its first member, tells: a `!` where its bodies have
/// keywords, where a refusal names it, and where one names each of its bodies; and then the labels of its parameters.
const ROWS: &str = "
fun f() {} => 4-5: 4-5;.
subscript s(): Int {} => 10-11: 0-9;.
subscript s(): Int { let {} inout {} } => !10-11: 21-24 28-33;.
trait A { fun f() } => 14-15:;.
type A { deinit {} } => 9-15: 9-15;.
type A { subscript(): Int {} } => 9-18: 9-18;.
type A { subscript(): Int { set(n) {} } } => !9-18: 28-31;.
type A { fun f() { sink {} } } => !13-14: 19-23;.
fun f(by d: Int, _ e: Int, g: Int) {} => 4-5: 4-5; 'by' - 'g'.
";

fn push_span(text: &mut String, alloc: Global, at: Span) -> Result<(), AllocError> {
    let from = at.from;
    let to = at.to;
    let one = format!(in alloc; "{from}-{to}")?;
    text.push_str(one.as_str())
}

fn push_label(text: &mut String, param: &Param) -> Result<(), AllocError> {
    let Some(label) = param.label() else {
        return text.push_str(" -");
    };
    text.push_str(" '")?;
    text.push_str(str::from_utf8(label.as_slice()).unwrap_or("?"))?;
    text.push_str("'")
}

fn callable_text(alloc: Global, callable: &Callable) -> Result<String, AllocError> {
    let mut text = String::new(alloc);
    if callable.is_bundle() {
        text.push_str("!")?;
    }
    push_span(&mut text, alloc, callable.name_span())?;
    text.push_str(":")?;
    for body in callable.variants.as_slice() {
        text.push_str(" ")?;
        push_span(&mut text, alloc, callable.head(body))?;
    }
    text.push_str(";")?;
    for param in callable.params.as_slice() {
        push_label(&mut text, param)?;
    }
    text.push_str(".")?;
    Ok(text)
}

fn first_member(members: &[Member]) -> Option<&Callable> {
    match &members.first()?.kind {
        MemberKind::Callable(callable) => Some(callable),
        _ => None,
    }
}

fn first_callable(program: &Program) -> Option<&Callable> {
    match &program.decls.as_slice().first()?.kind {
        DeclKind::Callable(callable) => Some(callable),
        DeclKind::Product(product) => first_member(product.members.as_slice()),
        DeclKind::Trait(definition) => first_member(definition.members.as_slice()),
        DeclKind::Conformance(conformance) => first_member(conformance.members.as_slice()),
    }
}

fn shown(alloc: Global, source: &str) -> Result<String, AllocError> {
    let Ok(program) = parsed(alloc, source.as_bytes()) else {
        return String::from_str(alloc, "refused");
    };
    match first_callable(&program) {
        Some(callable) => callable_text(alloc, callable),
        None => String::from_str(alloc, "no callable"),
    }
}

fn push_row(wrong: &mut String, alloc: Global, row: &str) -> Result<(), AllocError> {
    let Some((source, wanted)) = row.split_once(" => ") else {
        return Ok(());
    };
    let found = shown(alloc, source)?;
    push_if_wrong(wrong, row, found.as_str(), wanted)
}

#[test]
fn callables_and_their_labels(rt: HostRuntime) -> Result<(), Fail> {
    let mut wrong = String::new(rt.alloc());
    for row in ROWS.lines() {
        push_row(&mut wrong, rt.alloc(), row)?;
    }
    assert_eq!(rt; wrong.as_str(), "");
    Ok(())
}

/// The expression that the last function begins with.
fn first_expr(program: &Program) -> Option<&Expr> {
    let decl = program.decls.as_slice().last()?;
    let DeclKind::Callable(main) = &decl.kind else {
        return None;
    };
    let body = main.variants.as_slice().first()?;
    let stmt = body.block.stmts.as_slice().first()?;
    match &stmt.kind {
        StmtKind::Expr(e) => Some(e),
        _ => None,
    }
}

fn check_unmarked(rt: &impl Abort, alloc: Global, source: &str, at: Span) -> Result<(), Fail> {
    let program = parsed(alloc, source.as_bytes())?;
    let Some(e) = first_expr(&program) else {
        return Err(AllocError.into());
    };
    assert!(rt; e.span == at);
    assert!(rt; e.unmarked().span == span(46, 54));
    Ok(())
}

#[test]
fn marks_are_left_out(rt: HostRuntime) -> Result<(), Fail> {
    check_unmarked(&rt, rt.alloc(), SOURCE, span(46, 54))?;
    check_unmarked(&rt, rt.alloc(), MARKED, span(45, 54))
}

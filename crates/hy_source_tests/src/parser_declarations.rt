// The declarations that sources have.
use crate::rows::{parsed, push_if_wrong};
use hy_base::Span;
use hy_tree::{Callable, CallableKind, Decl, DeclKind, Label, Member, MemberKind, Mode, Program};
use std::alloc::{AllocError, Global};
use std::test::Fail;

/// A row has a source, and after `=>` its declarations. A declaration or member has its word, the number of its tokens and its
/// span. A type or a conformance has the number of its traits after its word. Something callable has the numbers
/// of bounds of its type parameters, its parameters (`T` label, `N` none, `S` the name; and the convention), its effect, a `>` if
/// there is a result, and its bodies (`!` with a word, and `:` with a new value).
const ROWS: &str = "
 =>
fun main() {} => fun 6 0-13 (){l};
public fun f<T, U: P & Q>(a: Int, b c: inout Int, _ d: sink Self, e: set (Int)) -> Array<Int> {}; => public fun 43 0-96 <0,2>(Sl,Ti,Nk,Ss)>{l};
subscript s(a: yielded Int, b: sink Int): Int {} => subscript 17 0-48 (Sy,Sk)>{l};
subscript s(a: Int): Int { let {} inout {} sink {} set(v) {} } => subscript 26 0-62 (Sl)>{!l!i!k!s:};
subscript s(): Int { sink {} } => subscript 11 0-30 ()>{!k};
fun f() {}; fun g() {} => fun 6 0-10 (){l}; fun 6 12-22 (){l};
fun f() {} fun g() {} => fun 6 0-10 (){l}; fun 6 11-21 (){l};
type P {} => type 4 0-9 [];
public type P: Q, R & S { var x: Int; memberwise init deinit {} public fun m() let -> Int {} fun n() { let {} inout {} } subscript (i: Int): Int {}; subscript t(): Int {} } => public type:3 62 0-172 [var 4 26-36; init 2 38-53; deinit 3 54-63 (){i}; public fun 10 64-92 ()l>{l}; fun 12 93-120 (){!l!i}; subscript 10 121-147 (Sl)>{l}; subscript 8 149-170 ()>{l};];
trait P { fun f(a: Int) fun g() inout; fun h() -> Int } => trait 23 0-55 [fun 7 10-23 (Sl){}; fun 5 24-37 ()i{}; fun 6 39-53 ()>{};];
conformance T: P { public fun f() {}; subscript (): Int {} } => conformance:1 21 0-60 [public fun 7 19-36 (){l}; subscript 7 38-58 ()>{l};];
";

fn mode_text(mode: Mode) -> &'static str {
    match mode {
        Mode::Let => "l",
        Mode::Inout => "i",
        Mode::Sink => "k",
        Mode::Set => "s",
        Mode::Yielded => "y",
    }
}

fn label_text(label: &Label) -> &'static str {
    match label {
        Label::Text(_) => "T",
        Label::Nothing => "N",
        Label::Same => "S",
    }
}

fn push_generics(text: &mut String, callable: &Callable, alloc: Global) -> Result<(), AllocError> {
    if callable.generics.as_slice().is_empty() {
        return Ok(());
    }
    let mut before = "<";
    for generic in callable.generics.as_slice() {
        let bounds = generic.bounds.len();
        let one = format!(in alloc; "{before}{bounds}")?;
        text.push_str(one.as_str())?;
        before = ",";
    }
    text.push_str(">")
}

fn push_params(text: &mut String, callable: &Callable) -> Result<(), AllocError> {
    let mut before = "(";
    for param in callable.params.as_slice() {
        text.push_str(before)?;
        text.push_str(label_text(&param.label))?;
        text.push_str(mode_text(param.mode))?;
        before = ",";
    }
    if callable.params.as_slice().is_empty() {
        text.push_str("(")?;
    }
    text.push_str(")")
}

fn push_bodies(text: &mut String, callable: &Callable) -> Result<(), AllocError> {
    text.push_str("{")?;
    for body in callable.variants.as_slice() {
        if let Some(_) = &body.keyword {
            text.push_str("!")?;
        }
        text.push_str(mode_text(body.mode))?;
        if let Some(_) = &body.value {
            text.push_str(":")?;
        }
    }
    text.push_str("}")
}

fn push_callable(text: &mut String, callable: &Callable, alloc: Global) -> Result<(), AllocError> {
    text.push_str(" ")?;
    push_generics(text, callable, alloc)?;
    push_params(text, callable)?;
    if let Some(mode) = callable.effect {
        text.push_str(mode_text(mode))?;
    }
    if let Some(_) = &callable.result {
        text.push_str(">")?;
    }
    push_bodies(text, callable)
}

fn callable_word(callable: &Callable) -> &'static str {
    match callable.kind {
        CallableKind::Function => "fun",
        CallableKind::Requirement => "fun",
        CallableKind::Subscript => "subscript",
        CallableKind::Deinit => "deinit",
    }
}

/// The word, the number of tokens and the span.
fn push_head(
    text: &mut String,
    alloc: Global,
    public: bool,
    word: &str,
    tokens: u32,
    span: Span,
) -> Result<(), AllocError> {
    if public {
        text.push_str("public ")?;
    }
    text.push_str(word)?;
    let from = span.from;
    let to = span.to;
    let rest = format!(in alloc; " {tokens} {from}-{to}")?;
    text.push_str(rest.as_str())
}

fn push_member(text: &mut String, alloc: Global, member: &Member) -> Result<(), AllocError> {
    let word = match &member.kind {
        MemberKind::Field(_, _) => "var",
        MemberKind::MemberwiseInit => "init",
        MemberKind::Callable(callable) => callable_word(callable),
    };
    push_head(text, alloc, member.public, word, member.tokens, member.span)?;
    if let MemberKind::Callable(callable) = &member.kind {
        push_callable(text, callable, alloc)?;
    }
    text.push_str(";")
}

fn push_members(text: &mut String, alloc: Global, members: &[Member]) -> Result<(), AllocError> {
    let mut before = " [";
    for member in members {
        text.push_str(before)?;
        push_member(text, alloc, member)?;
        before = " ";
    }
    if members.is_empty() {
        text.push_str(before)?;
    }
    text.push_str("]")
}

fn decl_word(alloc: Global, decl: &Decl) -> Result<String, AllocError> {
    match &decl.kind {
        DeclKind::Callable(callable) => String::from_str(alloc, callable_word(callable)),
        DeclKind::Trait(_) => String::from_str(alloc, "trait"),
        DeclKind::Product(product) => {
            let count = product.traits.len();
            if count == 0 {
                return String::from_str(alloc, "type");
            }
            format!(in alloc; "type:{count}")
        }
        DeclKind::Conformance(conformance) => {
            let count = conformance.traits.len();
            format!(in alloc; "conformance:{count}")
        }
    }
}

fn push_decl_head(text: &mut String, alloc: Global, decl: &Decl) -> Result<(), AllocError> {
    let word = decl_word(alloc, decl)?;
    let word = word.as_str();
    push_head(text, alloc, decl.public, word, decl.tokens, decl.span)
}

fn push_parts(text: &mut String, alloc: Global, decl: &Decl) -> Result<(), AllocError> {
    match &decl.kind {
        DeclKind::Callable(callable) => push_callable(text, callable, alloc),
        DeclKind::Product(product) => push_members(text, alloc, product.members.as_slice()),
        DeclKind::Trait(definition) => push_members(text, alloc, definition.members.as_slice()),
        DeclKind::Conformance(part) => push_members(text, alloc, part.members.as_slice()),
    }
}

fn push_decl(text: &mut String, alloc: Global, decl: &Decl) -> Result<(), AllocError> {
    push_decl_head(text, alloc, decl)?;
    push_parts(text, alloc, decl)?;
    text.push_str(";")
}

fn program_text(alloc: Global, program: &Program) -> Result<String, AllocError> {
    let mut text = String::new(alloc);
    for decl in program.decls.as_slice() {
        if !text.is_empty() {
            text.push_str(" ")?;
        }
        push_decl(&mut text, alloc, decl)?;
    }
    Ok(text)
}

fn shown(alloc: Global, source: &str) -> Result<String, AllocError> {
    match parsed(alloc, source.as_bytes()) {
        Ok(program) => program_text(alloc, &program),
        Err(_) => String::from_str(alloc, "refused"),
    }
}

fn push_row(wrong: &mut String, alloc: Global, row: &str) -> Result<(), AllocError> {
    let Some((source, wanted)) = row.split_once(" =>") else {
        return Ok(());
    };
    let found = shown(alloc, source)?;
    push_if_wrong(wrong, row, found.as_str(), wanted.trim_start())
}

#[test]
fn declarations(rt: HostRuntime) -> Result<(), Fail> {
    let mut wrong = String::new(rt.alloc());
    for row in ROWS.lines() {
        push_row(&mut wrong, rt.alloc(), row)?;
    }
    assert_eq!(rt; wrong.as_str(), "");
    Ok(())
}

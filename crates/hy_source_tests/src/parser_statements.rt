// The statements that blocks have.
use crate::rows::push_if_wrong;
use hy_base::Span;
use hy_lexer::{Token, lex};
use hy_phrases::{Stop, Tokens};
use hy_statements::read_block;
use hy_tree::{Block, StmtKind};
use std::alloc::{AllocError, Global};
use std::process::Abort;
use std::test::Fail;

/// A row has a block, with `|` for the end of a line, and after `=>` its statements.
const ROWS: &str = "
{ } => .
{ x } => Expr.
{ var x = 1 | + 1 | x(1) } => Binding Expr.
{ x | - 1 } => Expr.
{ while x {} | - 1 } => While Expr.
{ x | (x) } => Expr Expr.
{ x | .y } => Expr.
{ x | & y } => Expr Expr.
{ x; x } => Expr Expr.
{ x ; | x } => Expr Expr.
{ x | ; x } => Expr Expr.
{ return | x } => Return Expr.
{ return x } => Value.
{ return; x } => Return Expr.
{ return } => Return.
{ return - 1 } => Value.
{ return | - 1 } => Return Expr.
{ if x {} | else {} } => Else.
{ if x {} | else if y {} | else if z {} } => If.
{ if x { y } else if y { z; z } else { x } } => Else.
{ if x {} | x } => If Expr.
{ if x {}; x } => If Expr.
{ while x { break } } => While.
{ while x { if y { continue } else { break } } } => While.
{ while x { while y {} | break } } => While.
{ var x: Int } => Declare.
{ var x: Int | x = 1 } => Declare Assign.
{ var x: Int = 1 } => Typed.
{ let x: Array<Int> | = y } => Typed.
{ let x = 1; inout y = &x } => Binding Binding.
{ _ = x } => Expr.
{ _ | = x } => Expr.
{ x = 1 | y.z = 1; f(x) = 2 } => Assign Assign Assign.
{ x | = 1 } => Assign.
{ x += 1; x -= 1; x *= 1; x /= 1; x %= 1 } => Compound Compound Compound Compound Compound.
{ x | += 1 } => Compound.
{ yield &x } => Yield.
";

/// A row has a block, and the spans of its statements.
const SPANS: &str = "
{ var x = 1 } => 2-11.
{ let x: Int = 1 } => 2-16.
{ var x: Int } => 2-12.
{ _ = x } => 2-7.
{ x = 1; x += (1) } => 2-7 9-17.
{ (x) } => 2-5.
{ if x {} else if y { z } } => 2-25.
{ if x {} else { y } } => 2-20.
{ while x { break } } => 2-19.
{ return; return x } => 2-8 10-18.
{ yield &x } => 2-10.
";

fn kind_text(kind: &StmtKind) -> &'static str {
    match kind {
        StmtKind::Binding(_, _, None, _) => "Binding",
        StmtKind::Binding(_, _, Some(_), _) => "Typed",
        StmtKind::Declare(_, _) => "Declare",
        StmtKind::Assign(_, _) => "Assign",
        StmtKind::Compound(_, _, _) => "Compound",
        StmtKind::Expr(_) => "Expr",
        StmtKind::If(_, None) => "If",
        StmtKind::If(_, Some(_)) => "Else",
        StmtKind::While(_, _, _) => "While",
        StmtKind::Return(_, None) => "Return",
        StmtKind::Return(_, Some(_)) => "Value",
        StmtKind::Break => "Break",
        StmtKind::Continue => "Continue",
        StmtKind::Yield(_, _) => "Yield",
    }
}

fn block_text(alloc: Global, block: &Block) -> Result<String, AllocError> {
    let mut text = String::new(alloc);
    for stmt in block.stmts.as_slice() {
        if !text.is_empty() {
            text.push_str(" ")?;
        }
        text.push_str(kind_text(&stmt.kind))?;
    }
    text.push_str(".")?;
    Ok(text)
}

fn spans_text(alloc: Global, block: &Block) -> Result<String, AllocError> {
    let mut text = String::new(alloc);
    for stmt in block.stmts.as_slice() {
        if !text.is_empty() {
            text.push_str(" ")?;
        }
        let from = stmt.span.from;
        let to = stmt.span.to;
        let one = format!(in alloc; "{from}-{to}")?;
        text.push_str(one.as_str())?;
    }
    text.push_str(".")?;
    Ok(text)
}

/// What is read from the tokens of a block, the first of which is its `{`.
fn read(alloc: Global, tokens: &[Token]) -> Result<Block, Stop> {
    let mut tokens = Tokens { rest: tokens };
    tokens.skip();
    let brace = Span { from: 0, to: 1 };
    read_block(alloc, &mut tokens, 199, brace, false)
}

fn tokens_of(alloc: Global, row: &str) -> Result<Vec<Token>, AllocError> {
    let mut source = Vec::new(alloc);
    for byte in row.as_bytes().iter().copied() {
        source.push(if byte == b'|' { b'\n' } else { byte })?;
    }
    if source.len() > 1_048_576 {
        return Err(AllocError);
    }
    match lex(alloc, source.as_slice()) {
        Ok(tokens) => Ok(tokens),
        Err(_) => Err(AllocError),
    }
}

fn text_of(alloc: Global, block: &Block, spans: bool) -> Result<String, AllocError> {
    if spans {
        spans_text(alloc, block)
    } else {
        block_text(alloc, block)
    }
}

fn shown(alloc: Global, text: &str, spans: bool) -> Result<String, AllocError> {
    let tokens = tokens_of(alloc, text)?;
    match read(alloc, tokens.as_slice()) {
        Ok(block) => text_of(alloc, &block, spans),
        Err(_) => String::from_str(alloc, "refused"),
    }
}

fn push_row(wrong: &mut String, alloc: Global, row: &str, spans: bool) -> Result<(), AllocError> {
    let Some((text, wanted)) = row.split_once(" => ") else {
        return Ok(());
    };
    let found = shown(alloc, text, spans)?;
    push_if_wrong(wrong, row, found.as_str(), wanted)
}

fn check(rt: &impl Abort, alloc: Global, rows: &str, spans: bool) -> Result<(), Fail> {
    let mut wrong = String::new(alloc);
    for row in rows.lines() {
        push_row(&mut wrong, alloc, row, spans)?;
    }
    assert_eq!(rt; wrong.as_str(), "");
    Ok(())
}

#[test]
fn statements_of_blocks(rt: HostRuntime) -> Result<(), Fail> {
    check(&rt, rt.alloc(), ROWS, false)?;
    check(&rt, rt.alloc(), SPANS, true)
}

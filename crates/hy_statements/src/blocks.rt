// Blocks are read, and the statements in which blocks stand.
ghost use Rattle.std.specs.Prelude.{◌≤◌, ◌<◌, length, OnOk};
ghost use Rattle.hy_grammar.specs.OperandSteps.{beginning};
ghost use Rattle.hy_statements.specs.ReadsStatements.{ReadsStmt, ReadsStmtIn, ReadsBlock, ReadsBraces, ReadsSeparator};
ghost use Rattle.hy_grammar.specs.Stack.{ForBranch, ForLoop, Operand, StmtWanted};
ghost use Rattle.std.specs.Prelude.{[]};

use crate::plain_statements::{read_binding, read_discard, read_return, read_target, read_yield};
use crate::statement_nodes::{block, branch, if_block, if_only, leave, proceed, repeat};
use crate::statement_words::{StmtWord, begins_line, take_word};
use hy_base::Span;
use hy_expressions::read_expression;
use hy_phrases::{Mark, Stop, Tokens};
use hy_tree::{Block, Stmt};
use sqlite_items::Items;
use std::alloc::Global;

/// Reads what stands after a statement: the `}` of its block, of which it gives the span, or what separates it from the next.
pub fn read_separator(tokens: &mut Tokens<'_>) -> Result<Option<Span>, Stop>
    ensures reads { ReadsSeparator tokens.old.rest.now result tokens.new.rest.now }
    ensures within { length tokens.new.rest.now ≤ length tokens.old.rest.now }
{
    if let Some(close) = tokens.take(Mark::RightBrace) {
        return Ok(Some(close));
    }
    if let Some(_) = tokens.take(Mark::Semicolon) {
        return Ok(None);
    }
    if !begins_line(tokens) {
        return Err(tokens.stop());
    }
    Ok(None)
}

/// A block after its `{`, which is at `brace` and counted in `levels`: so many may still be opened. `looping` says whether
/// a `break` may stand in it.
#[cycle(blocks)]
pub fn read_block(
    alloc: Global,
    tokens: &mut Tokens<'_>,
    levels: usize,
    brace: Span,
    looping: bool,
) -> Result<Block, Stop>
    ensures reads { ReadsBlock brace looping levels tokens.old.rest.now result tokens.new.rest.now }
    ensures within { length tokens.new.rest.now ≤ length tokens.old.rest.now }
    ensures progress { OnOk result (length tokens.new.rest.now < length tokens.old.rest.now) }
{
    let mut stmts = Items::new(alloc);
    if let Some(close) = tokens.take(Mark::RightBrace) {
        return Ok(block(brace, stmts, close));
    }
    'stmts: loop {
        let stmt = read_stmt(alloc, tokens, levels, looping)?;
        stmts.push(stmt)?;
        if let Some(close) = read_separator(tokens)? {
            return Ok(block(brace, stmts, close));
        }
    }
}

/// A block, from its `{` on.
#[cycle(blocks)]
pub fn read_braces(
    alloc: Global,
    tokens: &mut Tokens<'_>,
    levels: usize,
    looping: bool,
) -> Result<Block, Stop>
    ensures reads { ReadsBraces looping levels tokens.old.rest.now result tokens.new.rest.now }
    ensures within { length tokens.new.rest.now ≤ length tokens.old.rest.now }
    ensures progress { OnOk result (length tokens.new.rest.now < length tokens.old.rest.now) }
{
    let (brace, inner) = tokens.open(Mark::LeftBrace, levels)?;
    read_block(alloc, tokens, inner, brace, looping)
}

/// A statement.
#[cycle(blocks)]
pub fn read_stmt(
    alloc: Global,
    tokens: &mut Tokens<'_>,
    levels: usize,
    looping: bool,
) -> Result<Stmt, Stop>
    ensures reads { ReadsStmtIn looping levels (λ x. StmtWanted x.before x.place) tokens.old.rest.now result tokens.new.rest.now }
    ensures within { length tokens.new.rest.now ≤ length tokens.old.rest.now }
    ensures progress { OnOk result (length tokens.new.rest.now < length tokens.old.rest.now) }
{
    let Some((word, span)) = take_word(tokens, looping) else {
        return read_target(alloc, tokens, levels);
    };
    match word {
        StmtWord::Bind(introducer) => read_binding(alloc, tokens, levels, introducer, span),
        StmtWord::Discard => read_discard(alloc, tokens, levels, span),
        StmtWord::If => read_if(alloc, tokens, levels, looping, span),
        StmtWord::While => read_while(alloc, tokens, levels, span),
        StmtWord::Return => read_return(alloc, tokens, levels, span),
        StmtWord::Break => Ok(leave(span)),
        StmtWord::Continue => Ok(proceed(span)),
        StmtWord::Yield => read_yield(alloc, tokens, levels, span),
    }
}

/// What stands after `while`.
#[cycle(blocks)]
pub fn read_while(
    alloc: Global,
    tokens: &mut Tokens<'_>,
    levels: usize,
    word: Span,
) -> Result<Stmt, Stop>
    ensures reads { ReadsStmt levels (λ x. Operand (beginning (ForLoop word x.before x.place))) tokens.old.rest.now result tokens.new.rest.now }
    ensures within { length tokens.new.rest.now ≤ length tokens.old.rest.now }
{
    let condition = read_expression(alloc, tokens, levels)?;
    let body = read_braces(alloc, tokens, levels, true)?;
    Ok(repeat(word, condition, body))
}

/// What stands after `if`, with each `else if` and `else`.
#[cycle(blocks)]
pub fn read_if(
    alloc: Global,
    tokens: &mut Tokens<'_>,
    levels: usize,
    looping: bool,
    first: Span,
) -> Result<Stmt, Stop>
    ensures reads { ReadsStmtIn looping levels (λ x. Operand (beginning (ForBranch first.from [] first x.before x.place))) tokens.old.rest.now result
        tokens.new.rest.now }
    ensures within { length tokens.new.rest.now ≤ length tokens.old.rest.now }
{
    let mut branches = Items::new(alloc);
    let mut word = first;
    'branches: loop {
        let condition = read_expression(alloc, tokens, levels)?;
        let body = read_braces(alloc, tokens, levels, looping)?;
        let to = body.span.to;
        branches.push(branch(word, condition, body))?;
        let Some(_) = tokens.take(Mark::Else) else {
            return Ok(if_only(first.from, branches, to));
        };
        let Some(next) = tokens.take(Mark::If) else {
            let otherwise = read_braces(alloc, tokens, levels, looping)?;
            return Ok(if_block(first.from, branches, otherwise));
        };
        word = next;
    }
}

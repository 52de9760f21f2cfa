// Statements without blocks are read, each after the word that it begins with.
ghost use Rattle.std.specs.Prelude.{◌≤◌, ◌<◌, length, OnOk};
ghost use Rattle.hy_grammar.specs.OperandSteps.{beginning};
ghost use Rattle.hy_statements.specs.ReadsStatements.{ReadsStmt};
ghost use Rattle.hy_grammar.specs.Stack.{ForTarget, ForVariable, ForYield, BindingWord, DiscardWord, ReturnWord, Operand, TypeWanted};

use crate::statement_nodes::{
    assign, binding, compound, declare, discard, evaluate, return_nothing, return_value,
    yield_value,
};
use crate::statement_words::{ends_here, take_compound};
use hy_base::Span;
use hy_expressions::read_expression;
use hy_phrases::{Mark, Stop, Tokens, read_type};
use hy_tree::{Introducer, Name, Stmt};
use std::alloc::Global;

/// A binding, after `var`, `let` or `inout`. So many levels may still be opened, here and below.
pub fn read_binding(
    alloc: Global,
    tokens: &mut Tokens<'_>,
    levels: usize,
    introducer: Introducer,
    word: Span,
) -> Result<Stmt, Stop>
    ensures reads { ReadsStmt levels (λ x. BindingWord introducer word x.before x.place) tokens.old.rest.now result tokens.new.rest.now }
    ensures within { length tokens.new.rest.now ≤ length tokens.old.rest.now }
{
    let name = tokens.name(alloc)?;
    if let Some(_) = tokens.take(Mark::Colon) {
        return read_typed_binding(alloc, tokens, levels, introducer, word, name);
    }
    tokens.want(Mark::Equal)?;
    let value = read_expression(alloc, tokens, levels)?;
    Ok(binding(introducer, word, name, None, value))
}

/// A binding with a written type, after its `:`. A `var` may leave the value out.
pub fn read_typed_binding(
    alloc: Global,
    tokens: &mut Tokens<'_>,
    levels: usize,
    introducer: Introducer,
    word: Span,
    name: Name,
) -> Result<Stmt, Stop>
    ensures reads { ReadsStmt levels (λ x. TypeWanted (ForVariable introducer word name x.before x.place)) tokens.old.rest.now result tokens.new.rest.now }
    ensures within { length tokens.new.rest.now ≤ length tokens.old.rest.now }
{
    let written = read_type(alloc, tokens, levels)?;
    if let Some(_) = tokens.take(Mark::Equal) {
        let value = read_expression(alloc, tokens, levels)?;
        return Ok(binding(introducer, word, name, Some(written), value));
    }
    match introducer {
        Introducer::Var => Ok(declare(word, name, written)),
        _ => Err(tokens.stop()),
    }
}

/// `_ = value`, after the `_`.
pub fn read_discard(
    alloc: Global,
    tokens: &mut Tokens<'_>,
    levels: usize,
    word: Span,
) -> Result<Stmt, Stop>
    ensures reads { ReadsStmt levels (λ x. DiscardWord word x.before x.place) tokens.old.rest.now result tokens.new.rest.now }
    ensures within { length tokens.new.rest.now ≤ length tokens.old.rest.now }
{
    tokens.want(Mark::Equal)?;
    let value = read_expression(alloc, tokens, levels)?;
    Ok(discard(word, value))
}

/// A statement that begins with an expression: that alone, or an assignment to it.
pub fn read_target(alloc: Global, tokens: &mut Tokens<'_>, levels: usize) -> Result<Stmt, Stop>
    ensures reads { ReadsStmt levels (λ x. Operand (beginning (ForTarget x.before x.place))) tokens.old.rest.now result tokens.new.rest.now }
    ensures within { length tokens.new.rest.now ≤ length tokens.old.rest.now }
    ensures progress { OnOk result (length tokens.new.rest.now < length tokens.old.rest.now) }
{
    let target = read_expression(alloc, tokens, levels)?;
    if let Some(_) = tokens.take(Mark::Equal) {
        let value = read_expression(alloc, tokens, levels)?;
        return Ok(assign(target, value));
    }
    if let Some(operator) = take_compound(tokens) {
        let value = read_expression(alloc, tokens, levels)?;
        return Ok(compound(target, operator, value));
    }
    Ok(evaluate(target))
}

/// What stands after `return`.
pub fn read_return(
    alloc: Global,
    tokens: &mut Tokens<'_>,
    levels: usize,
    word: Span,
) -> Result<Stmt, Stop>
    ensures reads { ReadsStmt levels (λ x. ReturnWord word x.before x.place) tokens.old.rest.now result tokens.new.rest.now }
    ensures within { length tokens.new.rest.now ≤ length tokens.old.rest.now }
{
    if ends_here(tokens) {
        return Ok(return_nothing(word));
    }
    let value = read_expression(alloc, tokens, levels)?;
    Ok(return_value(word, value))
}

/// What stands after `yield`.
pub fn read_yield(
    alloc: Global,
    tokens: &mut Tokens<'_>,
    levels: usize,
    word: Span,
) -> Result<Stmt, Stop>
    ensures reads { ReadsStmt levels (λ x. Operand (beginning (ForYield word x.before x.place))) tokens.old.rest.now result tokens.new.rest.now }
    ensures within { length tokens.new.rest.now ≤ length tokens.old.rest.now }
{
    let value = read_expression(alloc, tokens, levels)?;
    Ok(yield_value(word, value))
}

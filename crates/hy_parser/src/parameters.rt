// Parameters.
ghost use Rattle.std.specs.Prelude.{◌≡◌, ◌≤◌, ◌<◌, length, OnOk};
ghost use Rattle.hy_parser.specs.ReadsDeclarations.{ReadsParams, ReadsParam, ReadsParamName, ReadsUnlabelled, ReadsSecondName, ReadsMode};

use crate::declaration_nodes::param;
use crate::heading::{Heading, Role, Sort, take_mode};
use hy_phrases::{Mark, Stop, Tokens, read_type};
use hy_tree::{Label, Mode, Name, Param};
use std::alloc::Global;

/// The parameters after their `(`, with the `)`. So many levels may still be opened between them.
pub fn read_params(
    alloc: Global,
    tokens: &mut Tokens<'_>,
    levels: usize,
    sort: Sort,
    mut heading: Heading,
) -> Result<Heading, Stop>
    ensures reads { ReadsParams levels sort heading tokens.old.rest.now result tokens.new.rest.now }
    ensures within { length tokens.new.rest.now ≤ length tokens.old.rest.now }
{
    if let Some(close) = tokens.take(Mark::RightParen) {
        heading.end = close.to;
        return Ok(heading);
    }
    'params: loop {
        heading
            .params
            .push(read_param(alloc, tokens, levels, sort)?)?;
        let Some(_) = tokens.take(Mark::Comma) else {
            break;
        };
    }
    let close = tokens.want(Mark::RightParen)?;
    heading.end = close.to;
    Ok(heading)
}

// A parameter.
fn read_param(
    alloc: Global,
    tokens: &mut Tokens<'_>,
    levels: usize,
    sort: Sort,
) -> Result<Param, Stop>
    ensures reads { ReadsParam levels sort tokens.old.rest.now result tokens.new.rest.now }
    ensures within { length tokens.new.rest.now ≤ length tokens.old.rest.now }
    ensures progress { OnOk result (length tokens.new.rest.now < length tokens.old.rest.now) }
{
    let (from, label, name) = read_param_name(alloc, tokens)?;
    let mode = read_mode(tokens, sort);
    let written = read_type(alloc, tokens, levels)?;
    Ok(param(from, label, name, mode, written))
}

// The label and the name of a parameter, with the `:`, and where it begins.
fn read_param_name(alloc: Global, tokens: &mut Tokens<'_>) -> Result<(u32, Label, Name), Stop>
    ensures reads { ReadsParamName tokens.old.rest.now result tokens.new.rest.now }
    ensures within { length tokens.new.rest.now ≤ length tokens.old.rest.now }
{
    if let Some(word) = tokens.take(Mark::Underscore) {
        return read_unlabelled(alloc, tokens, word.from);
    }
    let first = tokens.name(alloc)?;
    read_second_name(alloc, tokens, first)
}

// The name of a parameter after `_`, with the `:`.
fn read_unlabelled(
    alloc: Global,
    tokens: &mut Tokens<'_>,
    from: u32,
) -> Result<(u32, Label, Name), Stop>
    ensures reads { ReadsUnlabelled from tokens.old.rest.now result tokens.new.rest.now }
    ensures within { length tokens.new.rest.now ≤ length tokens.old.rest.now }
{
    let name = tokens.name(alloc)?;
    tokens.want(Mark::Colon)?;
    Ok((from, Label::Nothing, name))
}

// What stands after the first name of a parameter: its own name, if the first is a label, and the `:`.
fn read_second_name(
    alloc: Global,
    tokens: &mut Tokens<'_>,
    first: Name,
) -> Result<(u32, Label, Name), Stop>
    ensures reads { ReadsSecondName first tokens.old.rest.now result tokens.new.rest.now }
    ensures within { length tokens.new.rest.now ≤ length tokens.old.rest.now }
{
    let from = first.span.from;
    if let Some(_) = tokens.take(Mark::Colon) {
        return Ok((from, Label::Same, first));
    }
    let name = tokens.name(alloc)?;
    tokens.want(Mark::Colon)?;
    Ok((from, Label::Text(first.text), name))
}

// The convention of a parameter, which is `let` where none is written.
fn read_mode(tokens: &mut Tokens<'_>, sort: Sort) -> Mode
    ensures reads { ReadsMode sort tokens.old.rest.now result tokens.new.rest.now }
    ensures within { length tokens.new.rest.now ≤ length tokens.old.rest.now }
{
    match take_mode(tokens, Role::Param, sort) {
        Some((mode, _)) => mode,
        None => Mode::Let,
    }
}

// What stands after the parameters of something callable: its effect, its result and its body.
ghost use Rattle.std.specs.Prelude.{◌≡◌, ◌≤◌, ◌<◌, true, length, OnOk};
ghost use Rattle.hy_parser.specs.Headings as spec;
ghost use Rattle.hy_parser.specs.ReadsDeclarations.{ReadsResult, ReadsArrow, ReadsEffect, ReadsOutcome, ReadsBody, ReadsPlainBody, ReadsVaryingBody};
ghost use Rattle.hy_parser.specs.ReadsDeclarations.{ReadsVariants, ReadsVariant, ReadsValueName};

use crate::declaration_nodes::{callable, plain_variant, variant};
use crate::heading::{Heading, Role, Sort, has_body, may_vary, take_mode};
use hy_base::Span;
use hy_lexer::{Token, TokenKind};
use hy_phrases::{Mark, Stop, Tokens, read_type};
use hy_statements::read_block;
use hy_tree::{Callable, Mode, Name, Variant};
use sqlite_items::Items;
use std::alloc::Global;

/// The effect and the result.
pub fn read_outcome(
    alloc: Global,
    tokens: &mut Tokens<'_>,
    levels: usize,
    sort: Sort,
    heading: Heading,
) -> Result<Heading, Stop>
    ensures reads { ReadsOutcome levels sort heading tokens.old.rest.now result tokens.new.rest.now }
    ensures within { length tokens.new.rest.now ≤ length tokens.old.rest.now }
{
    match sort {
        Sort::Subscript => {
            tokens.want(Mark::Colon)?;
            read_result(alloc, tokens, levels, sort, heading)
        }
        _ => {
            let heading = read_effect(tokens, sort, heading);
            read_arrow(alloc, tokens, levels, sort, heading)
        }
    }
}

// The effect after the parameters, if there is one.
fn read_effect(tokens: &mut Tokens<'_>, sort: Sort, mut heading: Heading) -> Heading
    ensures reads { ReadsEffect sort heading tokens.old.rest.now result tokens.new.rest.now }
    ensures within { length tokens.new.rest.now ≤ length tokens.old.rest.now }
{
    match take_mode(tokens, Role::Effect, sort) {
        Some((mode, span)) => {
            heading.effect = Some(mode);
            heading.end = span.to;
            heading
        }
        None => heading,
    }
}

// `->` and the result, if there is one.
fn read_arrow(
    alloc: Global,
    tokens: &mut Tokens<'_>,
    levels: usize,
    sort: Sort,
    heading: Heading,
) -> Result<Heading, Stop>
    ensures reads { ReadsArrow levels sort heading tokens.old.rest.now result tokens.new.rest.now }
    ensures within { length tokens.new.rest.now ≤ length tokens.old.rest.now }
{
    match tokens.take(Mark::Arrow) {
        Some(_) => read_result(alloc, tokens, levels, sort, heading),
        None => Ok(heading),
    }
}

// The type of the result.
fn read_result(
    alloc: Global,
    tokens: &mut Tokens<'_>,
    levels: usize,
    sort: Sort,
    mut heading: Heading,
) -> Result<Heading, Stop>
    ensures reads { ReadsResult levels sort heading tokens.old.rest.now result tokens.new.rest.now }
    ensures within { length tokens.new.rest.now ≤ length tokens.old.rest.now }
{
    let written = read_type(alloc, tokens, levels)?;
    heading.end = written.span.to;
    heading.result = Some(written);
    Ok(heading)
}

/// The body; a requirement has none.
pub fn read_body(
    alloc: Global,
    tokens: &mut Tokens<'_>,
    levels: usize,
    sort: Sort,
    heading: Heading,
) -> Result<Callable, Stop>
    ensures reads { ReadsBody levels sort heading tokens.old.rest.now result tokens.new.rest.now }
    ensures within { length tokens.new.rest.now ≤ length tokens.old.rest.now }
{
    if has_body(sort) {
        return read_braced(alloc, tokens, levels, sort, heading);
    }
    let end = heading.end;
    Ok(callable(sort, heading, Items::new(alloc), end))
}

// The body of what has one.
fn read_braced(
    alloc: Global,
    tokens: &mut Tokens<'_>,
    levels: usize,
    sort: Sort,
    heading: Heading,
) -> Result<Callable, Stop>
    requires { spec.has_body (spec.sort_of sort) ≡ true }
    ensures reads { ReadsBody levels sort heading tokens.old.rest.now result tokens.new.rest.now }
    ensures within { length tokens.new.rest.now ≤ length tokens.old.rest.now }
{
    let (brace, inner) = tokens.open(Mark::LeftBrace, levels)?;
    if may_vary(sort, heading.effect) {
        return read_varying_body(alloc, tokens, inner, sort, heading, brace);
    }
    read_plain_body(alloc, tokens, inner, sort, heading, brace)
}

// A body that may be variants, after its `{`.
fn read_varying_body(
    alloc: Global,
    tokens: &mut Tokens<'_>,
    levels: usize,
    sort: Sort,
    heading: Heading,
    brace: Span,
) -> Result<Callable, Stop>
    ensures reads { ReadsVaryingBody levels sort heading brace tokens.old.rest.now result tokens.new.rest.now }
    ensures within { length tokens.new.rest.now ≤ length tokens.old.rest.now }
{
    if begins_variants(tokens, sort) {
        return read_variants(alloc, tokens, levels, sort, heading);
    }
    read_plain_body(alloc, tokens, levels, sort, heading, brace)
}

// Whether variants begin here, after the `{` around them.
fn begins_variants(tokens: &Tokens<'_>, sort: Sort) -> bool
    ensures { result ≡ spec.begins_variants (spec.sort_of sort) tokens.now.rest.now }
{
    let Some((token, behind)) = tokens.rest.split_first() else {
        return false;
    };
    match &token.kind {
        TokenKind::Sink => true,
        TokenKind::Set => match sort {
            Sort::Subscript => true,
            _ => false,
        },
        TokenKind::Let => opens_block(behind),
        TokenKind::Inout => opens_block(behind),
        _ => false,
    }
}

// Whether a block begins here.
fn opens_block(tokens: &[Token]) -> bool
    ensures { result ≡ spec.opens_block tokens.now }
{
    let Some(token) = tokens.first() else {
        return false;
    };
    match &token.kind {
        TokenKind::LeftBrace => true,
        _ => false,
    }
}

/// One plain body, after its `{`.
pub fn read_plain_body(
    alloc: Global,
    tokens: &mut Tokens<'_>,
    levels: usize,
    sort: Sort,
    heading: Heading,
    brace: Span,
) -> Result<Callable, Stop>
    ensures reads { ReadsPlainBody levels sort heading brace tokens.old.rest.now result tokens.new.rest.now }
    ensures within { length tokens.new.rest.now ≤ length tokens.old.rest.now }
{
    let block = read_block(alloc, tokens, levels, brace, false)?;
    let end = block.span.to;
    let mut variants = Items::new(alloc);
    variants.push(plain_variant(sort, heading.effect, block))?;
    Ok(callable(sort, heading, variants, end))
}

// Variants, after the `{` around them.
fn read_variants(
    alloc: Global,
    tokens: &mut Tokens<'_>,
    levels: usize,
    sort: Sort,
    heading: Heading,
) -> Result<Callable, Stop>
    ensures reads { ReadsVariants levels sort heading tokens.old.rest.now result tokens.new.rest.now }
    ensures within { length tokens.new.rest.now ≤ length tokens.old.rest.now }
{
    let mut variants = Items::new(alloc);
    'variants: while let Some((mode, keyword)) = take_mode(tokens, Role::Body, sort) {
        variants.push(read_variant(alloc, tokens, levels, keyword, mode)?)?;
    }
    let close = tokens.want(Mark::RightBrace)?;
    Ok(callable(sort, heading, variants, close.to))
}

// A variant after its word.
fn read_variant(
    alloc: Global,
    tokens: &mut Tokens<'_>,
    levels: usize,
    keyword: Span,
    mode: Mode,
) -> Result<Variant, Stop>
    ensures reads { ReadsVariant levels keyword mode tokens.old.rest.now result tokens.new.rest.now }
    ensures within { length tokens.new.rest.now ≤ length tokens.old.rest.now }
{
    let value = read_value_name(alloc, tokens, levels, keyword, mode)?;
    let (brace, inner) = tokens.open(Mark::LeftBrace, levels)?;
    let block = read_block(alloc, tokens, inner, brace, false)?;
    Ok(variant(mode, keyword, value, block))
}

// The name of the new value, in parentheses after `set`.
fn read_value_name(
    alloc: Global,
    tokens: &mut Tokens<'_>,
    levels: usize,
    keyword: Span,
    mode: Mode,
) -> Result<Option<Name>, Stop>
    ensures reads { ReadsValueName levels keyword mode tokens.old.rest.now result tokens.new.rest.now }
    ensures within { length tokens.new.rest.now ≤ length tokens.old.rest.now }
{
    match mode {
        Mode::Set => {
            tokens.open(Mark::LeftParen, levels)?;
            let name = tokens.name(alloc)?;
            tokens.want(Mark::RightParen)?;
            Ok(Some(name))
        }
        _ => Ok(None),
    }
}

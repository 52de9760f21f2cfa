// Type parameters.
ghost use Rattle.std.specs.Prelude.{◌≡◌, ◌≤◌, ◌<◌, ◌∷◌, true, false, [], length, OnOk, MatchResult};
ghost use Rattle.hy_lexer.specs.declared.token.TokenKind.TheVariants as k;
ghost use Rattle.hy_parser.specs.ReadsDeclarations.{ReadsGenerics, ReadsTypeParams, ReadsGeneric, ReadsBounds};
ghost use Rattle.hy_parser.specs.Separated.{GoesOn};

use crate::heading::{Heading, Sort};
use hy_phrases::{Mark, Stop, Tokens};
use hy_tree::{Name, NameUse, TypeParam};
use sqlite_items::Items;
use std::alloc::Global;

/// The type parameters of a function or a method, if it has any. A requirement has none.
pub fn read_generics(
    alloc: Global,
    tokens: &mut Tokens<'_>,
    sort: Sort,
    heading: Heading,
) -> Result<Heading, Stop>
    ensures reads { ReadsGenerics sort heading tokens.old.rest.now result tokens.new.rest.now }
    ensures within { length tokens.new.rest.now ≤ length tokens.old.rest.now }
{
    match sort {
        Sort::Requirement => Ok(heading),
        _ => match tokens.take(Mark::Less) {
            Some(_) => read_type_params(alloc, tokens, sort, heading),
            None => Ok(heading),
        },
    }
}

// The type parameters after `<`, with the `>`.
fn read_type_params(
    alloc: Global,
    tokens: &mut Tokens<'_>,
    sort: Sort,
    mut heading: Heading,
) -> Result<Heading, Stop>
    ensures reads { ReadsTypeParams sort heading tokens.old.rest.now result tokens.new.rest.now }
    ensures within { length tokens.new.rest.now ≤ length tokens.old.rest.now }
{
    'generics: loop {
        let (generic, more) = read_generic(alloc, tokens)?;
        heading.generics.push(generic)?;
        if !more {
            return Ok(heading);
        }
    }
}

// A type parameter, and whether the token after it is `,` and not `>`.
fn read_generic(alloc: Global, tokens: &mut Tokens<'_>) -> Result<(TypeParam, bool), Stop>
    ensures reads { ReadsGeneric tokens.old.rest.now result tokens.new.rest.now }
    ensures within { length tokens.new.rest.now ≤ length tokens.old.rest.now }
    ensures progress { OnOk result (length tokens.new.rest.now < length tokens.old.rest.now) }
{
    let name = tokens.name(alloc)?;
    if let Some(_) = tokens.take(Mark::Colon) {
        return read_bounds(alloc, tokens, name);
    }
    let more = goes_on(tokens, Mark::Greater)?;
    let bounds = Items::new(alloc);
    Ok((TypeParam { name, bounds }, more))
}

// The bounds of a type parameter after its `:`, and whether the token after them is `,` and not `>`.
fn read_bounds(
    alloc: Global,
    tokens: &mut Tokens<'_>,
    name: Name,
) -> Result<(TypeParam, bool), Stop>
    ensures reads { ReadsBounds name tokens.old.rest.now result tokens.new.rest.now }
    ensures within { length tokens.new.rest.now ≤ length tokens.old.rest.now }
{
    let mut bounds = Items::new(alloc);
    'bounds: loop {
        bounds.push(name_use(tokens.name(alloc)?))?;
        let Some(_) = tokens.take(Mark::Ampersand) else {
            break;
        };
    }
    let more = goes_on(tokens, Mark::Greater)?;
    Ok((TypeParam { name, bounds }, more))
}

/// Takes `,`, after which a list goes on, or the token that ends it: whether it goes on.
pub fn goes_on(tokens: &mut Tokens<'_>, close: Mark) -> Result<bool, Stop>
    ensures token { GoesOn close tokens.old.rest.now result tokens.new.rest.now }
    ensures within { length tokens.new.rest.now ≤ length tokens.old.rest.now }
{
    if let Some(_) = tokens.take(Mark::Comma) {
        return Ok(true);
    }
    tokens.want(close)?;
    Ok(false)
}

/// A name that is used.
pub fn name_use(name: Name) -> NameUse
    ensures { result ≡ record { text = name.text; span = name.span; node = 0 } }
{
    NameUse {
        text: name.text,
        span: name.span,
        node: 0,
    }
}

// Functions, methods, requirements, subscripts and `deinit`, after their keyword.
ghost use Rattle.std.specs.Prelude.{◌≡◌, ◌≤◌, length};
ghost use Rattle.hy_parser.specs.Headings.{sort_of};
ghost use Rattle.hy_parser.specs.ReadsDeclarations.{ReadsOpened, ReadsFunction, ReadsSubscript, ReadsNamedSubscript, ReadsDeinit};

use crate::bodies::{read_body, read_outcome, read_plain_body};
use crate::generics::read_generics;
use crate::heading::{Heading, Sort};
use crate::parameters::read_params;
use hy_base::Span;
use hy_phrases::{Mark, Stop, Tokens};
use hy_tree::Callable;
use std::alloc::Global;

/// What stands after `fun`.
pub fn read_function(
    alloc: Global,
    tokens: &mut Tokens<'_>,
    levels: usize,
    sort: Sort,
    keyword: Span,
) -> Result<Callable, Stop>
    ensures reads { ReadsFunction levels sort keyword tokens.old.rest.now result tokens.new.rest.now }
    ensures within { length tokens.new.rest.now ≤ length tokens.old.rest.now }
{
    let name = tokens.name(alloc)?;
    let heading = Heading::new(alloc, keyword, Some(name));
    let opened = read_generics(alloc, tokens, sort, heading)?;
    read_opened(alloc, tokens, levels, sort, opened)
}

/// What stands after `subscript`. One of the file has a name.
pub fn read_subscript(
    alloc: Global,
    tokens: &mut Tokens<'_>,
    levels: usize,
    in_file: bool,
    keyword: Span,
) -> Result<Callable, Stop>
    ensures reads { ReadsSubscript levels in_file keyword tokens.old.rest.now result tokens.new.rest.now }
    ensures within { length tokens.new.rest.now ≤ length tokens.old.rest.now }
{
    if in_file {
        return read_named_subscript(alloc, tokens, levels, keyword);
    }
    if tokens.sees(Mark::LeftParen) {
        let heading = Heading::new(alloc, keyword, None);
        return read_opened(alloc, tokens, levels, Sort::Subscript, heading);
    }
    read_named_subscript(alloc, tokens, levels, keyword)
}

// What stands after `subscript`, where a name does.
fn read_named_subscript(
    alloc: Global,
    tokens: &mut Tokens<'_>,
    levels: usize,
    keyword: Span,
) -> Result<Callable, Stop>
    ensures reads { ReadsNamedSubscript levels keyword tokens.old.rest.now result tokens.new.rest.now }
    ensures within { length tokens.new.rest.now ≤ length tokens.old.rest.now }
{
    let name = tokens.name(alloc)?;
    let heading = Heading::new(alloc, keyword, Some(name));
    read_opened(alloc, tokens, levels, Sort::Subscript, heading)
}

// The parameters and what stands after them.
fn read_opened(
    alloc: Global,
    tokens: &mut Tokens<'_>,
    levels: usize,
    sort: Sort,
    heading: Heading,
) -> Result<Callable, Stop>
    ensures reads { ReadsOpened levels sort heading tokens.old.rest.now result tokens.new.rest.now }
    ensures within { length tokens.new.rest.now ≤ length tokens.old.rest.now }
{
    let (_, inner) = tokens.open(Mark::LeftParen, levels)?;
    let signed = read_params(alloc, tokens, inner, sort, heading)?;
    let whole = read_outcome(alloc, tokens, levels, sort, signed)?;
    read_body(alloc, tokens, levels, sort, whole)
}

/// What stands after `deinit`.
pub fn read_deinit(
    alloc: Global,
    tokens: &mut Tokens<'_>,
    levels: usize,
    keyword: Span,
) -> Result<Callable, Stop>
    ensures reads { ReadsDeinit levels keyword tokens.old.rest.now result tokens.new.rest.now }
    ensures within { length tokens.new.rest.now ≤ length tokens.old.rest.now }
{
    let (brace, inner) = tokens.open(Mark::LeftBrace, levels)?;
    let heading = Heading::new(alloc, keyword, None);
    read_plain_body(alloc, tokens, inner, Sort::Deinit, heading, brace)
}

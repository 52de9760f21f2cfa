// Declarations of the file.
ghost use Rattle.std.specs.Prelude.{◌≡◌, ◌≤◌, ◌<◌, ◌∷◌, [], length, OnOk};
ghost use Rattle.hy_parser.specs.Headings as spec;
ghost use Rattle.hy_parser.specs.ReadsDeclarations.{ReadsTraits, ReadsConformed, ReadsBehind, ReadsDeclKind, ReadsDecl, ReadsEnd, ReadsProgram};
ghost use Rattle.hy_grammar.specs.Stack.{TypeWord, TraitWord, ConformanceWord};
ghost use Rattle.hy_phrases.specs.Wanted.{tail};

use crate::callables::{read_function, read_subscript};
use crate::declaration_nodes::{conformance, decl, product, program, trait_def};
use crate::generics::name_use;
use crate::heading::{DeclWord, OwnerSort, Sort, take_decl_word};
use crate::members::{count_taken, read_members, take_public};
use hy_base::Span;
use hy_lexer::{Token, TokenKind};
use hy_phrases::{Mark, Stop, Tokens};
use hy_tree::{Callable, Decl, DeclKind, NameUse, Program};
use sqlite_items::Items;
use std::alloc::Global;

/// The declarations that are all of these tokens.
pub fn read_program(alloc: Global, all: &[Token]) -> Result<Program, Stop>
    ensures { ReadsProgram all.now result }
{
    let mut tokens = Tokens { rest: all };
    let mut decls = Items::new(alloc);
    let mut to = 0;
    'decls: while let Some(first) = tokens.peek() {
        let made = read_decl(alloc, &mut tokens, first)?;
        to = read_end(&mut tokens, made.span.to);
        decls.push(made)?;
    }
    Ok(program(decls, to))
}

// Where the file ends after a declaration that ends there, with the `;` after it.
fn read_end(tokens: &mut Tokens<'_>, before: u32) -> u32
    ensures reads { ReadsEnd before tokens.old.rest.now result tokens.new.rest.now }
    ensures within { length tokens.new.rest.now ≤ length tokens.old.rest.now }
{
    match tokens.take(Mark::Semicolon) {
        Some(span) => span.to,
        None => before,
    }
}

// A declaration, whose first token is given.
fn read_decl(alloc: Global, tokens: &mut Tokens<'_>, first: &Token) -> Result<Decl, Stop>
    requires { tokens.old.rest.now ≡ first.now ∷ tail tokens.old.rest.now }
    ensures reads { ReadsDecl tokens.old.rest.now result tokens.new.rest.now }
    ensures within { length tokens.new.rest.now ≤ length tokens.old.rest.now }
    ensures progress { OnOk result (length tokens.new.rest.now < length tokens.old.rest.now) }
{
    let before = tokens.rest.len();
    let public = take_public(tokens);
    let (kind, to) = read_decl_kind(alloc, tokens)?;
    let count = count_taken(before, tokens)?;
    Ok(decl(public, kind, count, first.span.from, to))
}

// What a declaration is, after `public`, and where it ends.
fn read_decl_kind(alloc: Global, tokens: &mut Tokens<'_>) -> Result<(DeclKind, u32), Stop>
    ensures reads { ReadsDeclKind tokens.old.rest.now result tokens.new.rest.now }
    ensures within { length tokens.new.rest.now ≤ length tokens.old.rest.now }
    ensures progress { OnOk result (length tokens.new.rest.now < length tokens.old.rest.now) }
{
    let Some((word, span)) = take_decl_word(tokens) else {
        return Err(tokens.stop());
    };
    match word {
        DeclWord::Function => Ok(called(read_function(alloc, tokens, 200, Sort::Function, span)?)),
        DeclWord::Subscript => Ok(called(read_subscript(alloc, tokens, 200, true, span)?)),
        DeclWord::Type => read_product(alloc, tokens, span),
        DeclWord::Trait => read_trait(alloc, tokens, span),
        DeclWord::Conformance => read_conformance(alloc, tokens, span),
    }
}

// A declaration that can be called, and where it ends.
fn called(callable: Callable) -> (DeclKind, u32)
    ensures { result ≡ (DeclKind.Callable callable, callable.span.to) }
{
    let to = callable.span.to;
    (DeclKind::Callable(callable), to)
}

// What stands after `type`.
fn read_product(
    alloc: Global,
    tokens: &mut Tokens<'_>,
    keyword: Span,
) -> Result<(DeclKind, u32), Stop>
    ensures reads { ReadsBehind TypeWord keyword tokens.old.rest.now result tokens.new.rest.now }
    ensures within { length tokens.new.rest.now ≤ length tokens.old.rest.now }
{
    let name = tokens.name(alloc)?;
    let traits = read_conformed(alloc, tokens)?;
    let (members, close) = read_members(alloc, tokens, OwnerSort::Product)?;
    let made = product(keyword, name, traits, members, close);
    Ok((DeclKind::Product(made), close.to))
}

// What stands after `trait`.
fn read_trait(
    alloc: Global,
    tokens: &mut Tokens<'_>,
    keyword: Span,
) -> Result<(DeclKind, u32), Stop>
    ensures reads { ReadsBehind TraitWord keyword tokens.old.rest.now result tokens.new.rest.now }
    ensures within { length tokens.new.rest.now ≤ length tokens.old.rest.now }
{
    let name = tokens.name(alloc)?;
    tokens.want(Mark::LeftBrace)?;
    let (members, close) = read_members(alloc, tokens, OwnerSort::Trait)?;
    let made = trait_def(keyword, name, members, close);
    Ok((DeclKind::Trait(made), close.to))
}

// What stands after `conformance`.
fn read_conformance(
    alloc: Global,
    tokens: &mut Tokens<'_>,
    keyword: Span,
) -> Result<(DeclKind, u32), Stop>
    ensures reads { ReadsBehind ConformanceWord keyword tokens.old.rest.now result tokens.new.rest.now }
    ensures within { length tokens.new.rest.now ≤ length tokens.old.rest.now }
{
    let name = tokens.name(alloc)?;
    let target = name_use(name);
    tokens.want(Mark::Colon)?;
    let traits = read_traits(alloc, tokens)?;
    let (members, close) = read_members(alloc, tokens, OwnerSort::Conformance)?;
    let made = conformance(keyword, target, traits, members, close);
    Ok((DeclKind::Conformance(made), close.to))
}

// The traits of a type, if it has any, and the `{` of its members.
fn read_conformed(alloc: Global, tokens: &mut Tokens<'_>) -> Result<Items<NameUse>, Stop>
    ensures reads { ReadsConformed tokens.old.rest.now result tokens.new.rest.now }
    ensures within { length tokens.new.rest.now ≤ length tokens.old.rest.now }
{
    if let Some(_) = tokens.take(Mark::Colon) {
        return read_traits(alloc, tokens);
    }
    tokens.want(Mark::LeftBrace)?;
    Ok(Items::new(alloc))
}

// Traits, and the `{` of the members.
fn read_traits(alloc: Global, tokens: &mut Tokens<'_>) -> Result<Items<NameUse>, Stop>
    ensures reads { ReadsTraits tokens.old.rest.now result tokens.new.rest.now }
    ensures within { length tokens.new.rest.now ≤ length tokens.old.rest.now }
{
    let mut traits = Items::new(alloc);
    'traits: loop {
        traits.push(name_use(tokens.name(alloc)?))?;
        if !take_separator(tokens) {
            break;
        }
    }
    tokens.want(Mark::LeftBrace)?;
    Ok(traits)
}

// Takes what separates two traits, if it comes.
fn take_separator(tokens: &mut Tokens<'_>) -> bool
    ensures token { spec.Separator tokens.old.rest.now result tokens.new.rest.now }
    ensures within { length tokens.new.rest.now ≤ length tokens.old.rest.now }
{
    let Some((token, behind)) = tokens.rest.split_first() else {
        return false;
    };
    match &token.kind {
        TokenKind::Comma => {
            tokens.rest = behind;
            true
        }
        TokenKind::Ampersand => {
            tokens.rest = behind;
            true
        }
        _ => false,
    }
}

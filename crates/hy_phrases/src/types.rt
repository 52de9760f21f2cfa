// Written types are read.
ghost use Rattle.std.specs.Prelude.{◌≤◌, ◌<◌, length, OnOk};
ghost use Rattle.hy_phrases.specs.ReadsTypes.{IsType, IsArrayType, IsTupleType, NestsTypes};

use crate::mark::Mark;
use crate::stop::Stop;
use crate::stream::{Tokens, copy_text};
use crate::type_nodes::{array_type, named_type, self_type, types};
use hy_base::Span;
use hy_lexer::TokenKind;
use hy_tree::TypeExp;
use sqlite_items::Items;
use std::alloc::Global;

/// The forms of types that hold types, over the function that reads those. So each is proved by itself.
#[derive(Clone, Copy)]
pub struct Types<F> {
    pub alloc: Global,
    /// How many levels may still be opened before the type.
    pub levels: usize,
    /// It reads a type.
    pub nested: F,
}

impl<F: Fn(Global, &mut Tokens<'_>, usize) -> Result<TypeExp, Stop>> Types<F> {
    fn inner(&self, tokens: &mut Tokens<'_>, levels: usize) -> Result<TypeExp, Stop>
        requires fewer { levels < self.now.levels }
        requires nests { NestsTypes self.now.levels (F.pre self.now.nested) (F.post self.now.nested) }
        ensures reads { IsType levels tokens.old.rest.now result tokens.new.rest.now }
        ensures within { length tokens.new.rest.now ≤ length tokens.old.rest.now }
        ensures progress { OnOk result (length tokens.new.rest.now < length tokens.old.rest.now) }
    {
        (self.nested)(self.alloc, tokens, levels)
    }

    /// `Array<type>`, after its word.
    fn array(&self, tokens: &mut Tokens<'_>, word: Span) -> Result<TypeExp, Stop>
        requires { NestsTypes self.now.levels (F.pre self.now.nested) (F.post self.now.nested) }
        ensures reads { IsArrayType self.now.levels word tokens.old.rest.now result tokens.new.rest.now }
        ensures within { length tokens.new.rest.now ≤ length tokens.old.rest.now }
    {
        let (_, levels) = tokens.open(Mark::Less, self.levels)?;
        let element = self.inner(tokens, levels)?;
        let close = tokens.want(Mark::Greater)?;
        Ok(array_type(self.alloc, word, element, close)?)
    }

    /// Types in parentheses, after the `(`.
    fn tuple(&self, tokens: &mut Tokens<'_>, bracket: Span, levels: usize) -> Result<TypeExp, Stop>
        requires fewer { levels < self.now.levels }
        requires nests { NestsTypes self.now.levels (F.pre self.now.nested) (F.post self.now.nested) }
        ensures reads { IsTupleType levels bracket tokens.old.rest.now result tokens.new.rest.now }
        ensures within { length tokens.new.rest.now ≤ length tokens.old.rest.now }
    {
        let mut parts = Items::new(self.alloc);
        if let Some(close) = tokens.take(Mark::RightParen) {
            return Ok(types(bracket, parts, close));
        }
        parts.push(self.inner(tokens, levels)?)?;
        'parts: while let Some(_) = tokens.take(Mark::Comma) {
            parts.push(self.inner(tokens, levels)?)?;
        }
        let close = tokens.want(Mark::RightParen)?;
        Ok(types(bracket, parts, close))
    }
}

/// A type. So many levels may still be opened.
pub fn read_type(alloc: Global, tokens: &mut Tokens<'_>, levels: usize) -> Result<TypeExp, Stop>
    ensures reads { IsType levels tokens.old.rest.now result tokens.new.rest.now }
    ensures within { length tokens.new.rest.now ≤ length tokens.old.rest.now }
    ensures progress { OnOk result (length tokens.new.rest.now < length tokens.old.rest.now) }
{
    let Some(token) = tokens.peek() else {
        return Err(tokens.stop());
    };
    let forms = Types {
        alloc,
        levels,
        nested: read_type,
    };
    match &token.kind {
        TokenKind::Name(text) => {
            tokens.skip();
            Ok(named_type(copy_text(alloc, text)?, token.span))
        }
        TokenKind::SelfType => {
            tokens.skip();
            Ok(self_type(token.span))
        }
        TokenKind::Array => {
            tokens.skip();
            forms.array(tokens, token.span)
        }
        TokenKind::LeftParen => {
            let inner = tokens.deeper(levels)?;
            tokens.skip();
            forms.tuple(tokens, token.span, inner)
        }
        _ => Err(tokens.stop()),
    }
}

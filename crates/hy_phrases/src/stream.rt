// The tokens that are left.
ghost use Rattle.std.specs.Prelude.{◌≡◌, ◌+◌, ◌-◌, ◌<◌, ◌≤◌, ◌∷◌, [], length, IsTrue, ◌↔◌, IfOk, OnOk, OnSome, MatchOption, MatchResult};
ghost use Rattle.hy_phrases.specs.Marks as spec;
ghost use Rattle.hy_phrases.specs.Wanted.{tail, Sees, Takes, Misses, OpensNone, TakesName, MissesName};

use crate::mark::{Mark, is};
use crate::stop::Stop;
use hy_base::{Span, Text};
use hy_lexer::{Token, TokenKind};
use hy_tree::Name;
use std::alloc::{AllocError, Global};

/// The tokens that are left to read.
#[derive(Drop)]
pub struct Tokens<'a> {
    pub rest: &'a [Token],
}

impl<'a> Tokens<'a> {
    /// The next token.
    pub fn peek(&self) -> Option<&'a Token>
        ensures token { MatchOption result (self.now.rest.now ≡ []) (λ t. self.now.rest.now ≡ t.now ∷ tail self.now.rest.now) }
        ensures some { OnSome result (0 < length self.now.rest.now) }
    {
        self.rest.first()
    }

    /// Leaves the next token out, if there is one.
    pub fn skip(&mut self)
        ensures rest { self.new.rest.now ≡ tail self.old.rest.now }
        ensures shorter { length self.new.rest.now ≡ length self.old.rest.now - 1 }
    {
        if let Some((_, rest)) = self.rest.split_first() {
            self.rest = rest;
        }
    }

    /// Whether the next token is this one.
    pub fn sees(&self, mark: Mark) -> bool
        ensures seen { IsTrue result ↔ Sees (spec.kind_of mark) self.now.rest.now }
        ensures some { IsTrue result → 0 < length self.now.rest.now }
    {
        match self.rest.first() {
            Some(token) => is(&token.kind, mark),
            None => false,
        }
    }

    /// That the next token cannot stand here.
    pub fn stop(&self) -> Stop
        ensures { result ≡ Stop.Unexpected (length self.now.rest.now) }
    {
        Stop::Unexpected(self.rest.len())
    }

    /// Takes the next token, if it is this one.
    pub fn take(&mut self, mark: Mark) -> Option<Span>
        ensures token { MatchOption result ((Sees (spec.kind_of mark) self.old.rest.now → ⊥)
            × (self.new.rest.now ≡ self.old.rest.now)) (λ span. Takes (spec.kind_of mark) self.old.rest.now span self.new.rest.now) }
        ensures within { length self.new.rest.now ≤ length self.old.rest.now }
        ensures progress { OnSome result (length self.new.rest.now < length self.old.rest.now) }
    {
        match self.rest.split_first() {
            Some((token, rest)) if is(&token.kind, mark) => {
                self.rest = rest;
                Some(token.span)
            }
            _ => None,
        }
    }

    /// Takes the next token, which is to be this one.
    pub fn want(&mut self, mark: Mark) -> Result<Span, Stop>
        ensures token { MatchResult result (λ span. Takes (spec.kind_of mark) self.old.rest.now span self.new.rest.now)
            (λ e. Misses (spec.kind_of mark) self.old.rest.now e) }
        ensures within { length self.new.rest.now ≤ length self.old.rest.now }
        ensures progress { OnOk result (length self.new.rest.now < length self.old.rest.now) }
    {
        match self.take(mark) {
            Some(span) => Ok(span),
            None => Err(self.stop()),
        }
    }

    /// How many levels are left after the next token, which opens one.
    pub fn deeper(&self, levels: usize) -> Result<usize, Stop>
        ensures { MatchResult result (λ inner. inner + 1 ≡ levels) (λ e. (levels ≡ 0) × (e ≡ Stop.TooDeep (length self.now.rest.now))) }
    {
        if levels == 0 {
            return Err(Stop::TooDeep(self.rest.len()));
        }
        Ok(levels - 1)
    }

    /// Takes the next token, which is to be this one and opens a level; with how many levels are left then.
    pub fn open(&mut self, mark: Mark, levels: usize) -> Result<(Span, usize), Stop>
        ensures token { MatchResult result (λ opened. Takes (spec.kind_of mark) self.old.rest.now opened.0 self.new.rest.now
            × (opened.1 + 1 ≡ levels)) (λ e. OpensNone (spec.kind_of mark) levels self.old.rest.now e) }
        ensures within { length self.new.rest.now ≤ length self.old.rest.now }
        ensures progress { OnOk result (length self.new.rest.now < length self.old.rest.now) }
    {
        if !self.sees(mark) {
            return Err(self.stop());
        }
        let inner = self.deeper(levels)?;
        Ok((self.want(mark)?, inner))
    }

    /// Takes the next token, which is to be a name.
    pub fn name(&mut self, alloc: Global) -> Result<Name, Stop>
        ensures token { MatchResult result (λ name. TakesName self.old.rest.now name self.new.rest.now) (λ e. MissesName self.old.rest.now e) }
        ensures within { length self.new.rest.now ≤ length self.old.rest.now }
        ensures progress { OnOk result (length self.new.rest.now < length self.old.rest.now) }
    {
        let Some((token, rest)) = self.rest.split_first() else {
            return Err(self.stop());
        };
        let TokenKind::Name(text) = &token.kind else {
            return Err(self.stop());
        };
        self.rest = rest;
        let text = copy_text(alloc, text)?;
        Ok(Name {
            text,
            span: token.span,
        })
    }
}

/// The same text.
pub fn copy_text(alloc: Global, text: &Text) -> Result<Text, AllocError>
    ensures { IfOk result (λ copy. copy ≡ text.now) }
{
    Ok(Text::from_vec(Vec::from_slice(alloc, text.as_slice())?))
}

// Expressions are read.
ghost use Rattle.std.specs.Prelude.{◌≡◌, ◌≤◌, ◌<◌, ◌∷◌, length, map, OnOk, IfOk};
ghost use Rattle.hy_tree.specs.Denotes.{expr_of, step_of, arg_of};
ghost use Rattle.hy_grammar.specs.ExprSteps as steps;
ghost use Rattle.hy_phrases.specs.OpenChains.{tiers_of};
ghost use Rattle.hy_phrases.specs.Wanted.{tail};
ghost use Rattle.hy_expressions.specs.ReadsExpressions.{IsExpression, IsOperand, IsPostfix, IsPrimary, IsEmptyArray, IsParts, IsArray, IsChoice, IsChoices};
ghost use Rattle.hy_expressions.specs.ReadsExpressions.{IsNextStep, IsDotted, IsArguments, IsArgument, IsLabel, NestsExpressions, IsPrefixAhead};
ghost use Rattle.hy_expressions.specs.ReadsExpressions.{IsOperator, IsOperatorAhead, IsOperated, IsOpening, Shrinks, brackets_of, closing, prefix_at};

use hy_base::{Span, Text};
use hy_lexer::{Token, TokenKind};
use hy_phrases::expr_nodes::{
    array, call_step, empty_array, if_else, index_step, marked, member_step, named, number,
    part_step, parts, postfix, self_value, truth, unary,
};
use hy_phrases::{
    Infix, Level, Mark, Stop, Tiers, Tokens, copy_text, infix_of, is, prefix_of, read_type,
};
use hy_tree::{Arg, Choice, Expr, Step, UnaryOperator};
use sqlite_items::Items;
use std::alloc::{AllocError, Global};

/// The two kinds of brackets that arguments stand in.
#[derive(Clone, Copy, Debug, PartialEq, Eq)]
pub enum Brackets {
    Round,
    Square,
}

impl Brackets {
    fn close(self) -> Mark
        ensures { result ≡ closing self }
    {
        match self {
            Brackets::Round => Mark::RightParen,
            Brackets::Square => Mark::RightBracket,
        }
    }
}

/// An operator before its operand.
#[derive(Clone, Copy, Drop)]
pub struct Prefix {
    pub operator: UnaryOperator,
    pub token: Span,
}

/// The parts of an expression, over the function that reads the expressions within it. So each is proved by itself.
#[derive(Clone, Copy)]
pub struct Expressions<F> {
    pub alloc: Global,
    /// How many levels may still be opened before the expression.
    pub levels: usize,
    /// It reads an expression.
    pub nested: F,
}

impl<F: Fn(Global, &mut Tokens<'_>, usize) -> Result<Expr, Stop>> Expressions<F> {
    fn inner(&self, tokens: &mut Tokens<'_>, levels: usize) -> Result<Expr, Stop>
        requires fewer { levels < self.now.levels }
        requires nests { NestsExpressions self.now.levels (F.pre self.now.nested) (F.post self.now.nested) }
        ensures reads { IsExpression levels tokens.old.rest.now result tokens.new.rest.now }
        ensures within { length tokens.new.rest.now ≤ length tokens.old.rest.now }
        ensures progress { OnOk result (length tokens.new.rest.now < length tokens.old.rest.now) }
    {
        (self.nested)(self.alloc, tokens, levels)
    }

    /// Operands with the operators between them.
    fn chain(&self, tokens: &mut Tokens<'_>) -> Result<Expr, Stop>
        requires { NestsExpressions self.now.levels (F.pre self.now.nested) (F.post self.now.nested) }
        ensures reads { IsExpression self.now.levels tokens.old.rest.now result tokens.new.rest.now }
        ensures within { length tokens.new.rest.now ≤ length tokens.old.rest.now }
        ensures progress { OnOk result (length tokens.new.rest.now < length tokens.old.rest.now) }
    {
        let mut operand = self.operand(tokens)?;
        let mut tiers = Tiers::new();
        'operators: loop {
            match operator_ahead(tokens, tiers.compares()) {
                Ok(Some(found)) => {
                    let (more, last) = self.operate(tokens, tiers, operand, found)?;
                    tiers = more;
                    operand = last;
                }
                Ok(None) => return Ok(tiers.joined(self.alloc, operand)?),
                Err(stop) => return Err(without(tiers, without(operand, stop))),
            }
        }
    }

    /// The operator that comes next, with the operand after it.
    fn operate(
        &self,
        tokens: &mut Tokens<'_>,
        tiers: Tiers,
        operand: Expr,
        found: Infix,
    ) -> Result<(Tiers, Expr), Stop>
        requires nests { NestsExpressions self.now.levels (F.pre self.now.nested) (F.post self.now.nested) }
        requires single { found.level ≡ Level.Comparison → tiers.comparison ≡ None }
        requires ahead { IsOperator tokens.old.rest.now found }
        ensures reads { IsOperated self.now.levels (expr_of operand) (tiers_of tiers) tokens.old.rest.now result tokens.new.rest.now }
        ensures within { length tokens.new.rest.now ≤ length tokens.old.rest.now }
        ensures progress { OnOk result (length tokens.new.rest.now < length tokens.old.rest.now) }
    {
        let Some(token) = tokens.peek() else {
            return Err(without(tiers, without(operand, tokens.stop())));
        };
        tokens.skip();
        let tiers = tiers.operate(self.alloc, operand, found, token.span)?;
        match self.operand(tokens) {
            Ok(operand) => Ok((tiers, operand)),
            Err(stop) => Err(without(tiers, stop)),
        }
    }

    /// An operand with the operators before it.
    fn operand(&self, tokens: &mut Tokens<'_>) -> Result<Expr, Stop>
        requires { NestsExpressions self.now.levels (F.pre self.now.nested) (F.post self.now.nested) }
        ensures reads { IsOperand self.now.levels tokens.old.rest.now result tokens.new.rest.now }
        ensures within { length tokens.new.rest.now ≤ length tokens.old.rest.now }
        ensures progress { OnOk result (length tokens.new.rest.now < length tokens.old.rest.now) }
    {
        let mut levels = self.levels;
        let mut prefixes = Items::new(self.alloc);
        'prefixes: while let Some(prefix) = prefix_ahead(tokens) {
            levels = tokens.deeper(levels)?;
            tokens.skip();
            prefixes.push(prefix)?;
        }
        let mark = tokens.take(Mark::Ampersand);
        let operand = self.postfix(tokens, levels)?;
        Ok(with_prefixes(self.alloc, prefixes, mark, operand)?)
    }

    /// A primary expression with the steps after it.
    fn postfix(&self, tokens: &mut Tokens<'_>, levels: usize) -> Result<Expr, Stop>
        requires fewer { levels ≤ self.now.levels }
        requires nests { NestsExpressions self.now.levels (F.pre self.now.nested) (F.post self.now.nested) }
        ensures reads { IsPostfix levels tokens.old.rest.now result tokens.new.rest.now }
        ensures within { length tokens.new.rest.now ≤ length tokens.old.rest.now }
        ensures progress { OnOk result (length tokens.new.rest.now < length tokens.old.rest.now) }
    {
        let primary = self.primary(tokens, levels)?;
        let mut steps = Items::new(self.alloc);
        let mut to = 0;
        'steps: while let Some(step) = self.step(tokens, levels, &primary)? {
            to = step.span.to;
            steps.push(step)?;
        }
        Ok(postfix(self.alloc, primary, steps, to)?)
    }

    fn primary(&self, tokens: &mut Tokens<'_>, levels: usize) -> Result<Expr, Stop>
        requires fewer { levels ≤ self.now.levels }
        requires nests { NestsExpressions self.now.levels (F.pre self.now.nested) (F.post self.now.nested) }
        ensures reads { IsPrimary levels tokens.old.rest.now result tokens.new.rest.now }
        ensures within { length tokens.new.rest.now ≤ length tokens.old.rest.now }
        ensures progress { OnOk result (length tokens.new.rest.now < length tokens.old.rest.now) }
    {
        let Some(token) = tokens.peek() else {
            return Err(tokens.stop());
        };
        match &token.kind {
            TokenKind::Number(value) => {
                tokens.skip();
                Ok(number(*value, token.span))
            }
            TokenKind::True => {
                tokens.skip();
                Ok(truth(true, token.span))
            }
            TokenKind::False => {
                tokens.skip();
                Ok(truth(false, token.span))
            }
            TokenKind::SelfValue => {
                tokens.skip();
                Ok(self_value(token.span))
            }
            TokenKind::Name(text) => {
                tokens.skip();
                Ok(named(copy_text(self.alloc, text)?, token.span))
            }
            TokenKind::Array => {
                tokens.skip();
                self.empty_array(tokens, token.span, levels)
            }
            TokenKind::LeftParen => {
                let inner = tokens.deeper(levels)?;
                tokens.skip();
                self.parts(tokens, token.span, inner)
            }
            TokenKind::LeftBracket => {
                let inner = tokens.deeper(levels)?;
                tokens.skip();
                self.array(tokens, token.span, inner)
            }
            TokenKind::If => {
                let inner = tokens.deeper(levels)?;
                tokens.skip();
                self.choices(tokens, token.span, inner)
            }
            _ => Err(tokens.stop()),
        }
    }

    /// `Array<type>()`, after its word.
    fn empty_array(&self, tokens: &mut Tokens<'_>, word: Span, levels: usize) -> Result<Expr, Stop>
        ensures reads { IsEmptyArray levels word tokens.old.rest.now result tokens.new.rest.now }
        ensures within { length tokens.new.rest.now ≤ length tokens.old.rest.now }
    {
        let (_, inner) = tokens.open(Mark::Less, levels)?;
        let element = read_type(self.alloc, tokens, inner)?;
        tokens.want(Mark::Greater)?;
        tokens.want(Mark::LeftParen)?;
        let close = tokens.want(Mark::RightParen)?;
        Ok(empty_array(word, element, close))
    }

    /// Expressions in parentheses, after the `(`.
    fn parts(&self, tokens: &mut Tokens<'_>, bracket: Span, levels: usize) -> Result<Expr, Stop>
        requires fewer { levels < self.now.levels }
        requires nests { NestsExpressions self.now.levels (F.pre self.now.nested) (F.post self.now.nested) }
        ensures reads { IsParts levels bracket tokens.old.rest.now result tokens.new.rest.now }
        ensures within { length tokens.new.rest.now ≤ length tokens.old.rest.now }
    {
        let mut made = Items::new(self.alloc);
        if let Some(close) = tokens.take(Mark::RightParen) {
            return Ok(parts(bracket, made, close));
        }
        made.push(self.inner(tokens, levels)?)?;
        'parts: while let Some(_) = tokens.take(Mark::Comma) {
            made.push(self.inner(tokens, levels)?)?;
        }
        let close = tokens.want(Mark::RightParen)?;
        Ok(parts(bracket, made, close))
    }

    /// Expressions in brackets, after the `[`.
    fn array(&self, tokens: &mut Tokens<'_>, bracket: Span, levels: usize) -> Result<Expr, Stop>
        requires fewer { levels < self.now.levels }
        requires nests { NestsExpressions self.now.levels (F.pre self.now.nested) (F.post self.now.nested) }
        ensures reads { IsArray levels bracket tokens.old.rest.now result tokens.new.rest.now }
        ensures within { length tokens.new.rest.now ≤ length tokens.old.rest.now }
    {
        let mut made = Items::new(self.alloc);
        made.push(self.inner(tokens, levels)?)?;
        'elements: while let Some(_) = tokens.take(Mark::Comma) {
            made.push(self.inner(tokens, levels)?)?;
        }
        let close = tokens.want(Mark::RightBracket)?;
        Ok(array(bracket, made, close))
    }

    /// `if expr { expr } else`, after the `if`.
    fn choice(&self, tokens: &mut Tokens<'_>, word: Span, levels: usize) -> Result<Choice, Stop>
        requires fewer { levels < self.now.levels }
        requires nests { NestsExpressions self.now.levels (F.pre self.now.nested) (F.post self.now.nested) }
        ensures reads { IsChoice levels word tokens.old.rest.now result tokens.new.rest.now }
        ensures within { length tokens.new.rest.now ≤ length tokens.old.rest.now }
    {
        let condition = self.inner(tokens, levels)?;
        tokens.want(Mark::LeftBrace)?;
        let value = self.inner(tokens, levels)?;
        tokens.want(Mark::RightBrace)?;
        tokens.want(Mark::Else)?;
        Ok(Choice {
            keyword: word,
            condition,
            value,
        })
    }

    /// An `if` with a value, after its first word.
    fn choices(&self, tokens: &mut Tokens<'_>, word: Span, levels: usize) -> Result<Expr, Stop>
        requires fewer { levels < self.now.levels }
        requires nests { NestsExpressions self.now.levels (F.pre self.now.nested) (F.post self.now.nested) }
        ensures reads { IsChoices levels word tokens.old.rest.now result tokens.new.rest.now }
        ensures within { length tokens.new.rest.now ≤ length tokens.old.rest.now }
    {
        let mut made = Items::new(self.alloc);
        made.push(self.choice(tokens, word, levels)?)?;
        'choices: while let Some(next) = tokens.take(Mark::If) {
            made.push(self.choice(tokens, next, levels)?)?;
        }
        tokens.want(Mark::LeftBrace)?;
        let otherwise = self.inner(tokens, levels)?;
        let close = tokens.want(Mark::RightBrace)?;
        Ok(if_else(self.alloc, word, made, otherwise, close)?)
    }

    /// The next step after a primary expression, if one comes.
    fn step(
        &self,
        tokens: &mut Tokens<'_>,
        levels: usize,
        primary: &Expr,
    ) -> Result<Option<Step>, Stop>
        requires fewer { levels ≤ self.now.levels }
        requires nests { NestsExpressions self.now.levels (F.pre self.now.nested) (F.post self.now.nested) }
        ensures reads { IsNextStep levels (expr_of primary.now) tokens.old.rest.now result tokens.new.rest.now }
        ensures within { length tokens.new.rest.now ≤ length tokens.old.rest.now }
        ensures progress { Shrinks result (length tokens.old.rest.now) (length tokens.new.rest.now) }
    {
        let Some(token) = tokens.peek() else {
            return Ok(None);
        };
        match &token.kind {
            TokenKind::Dot => {
                tokens.skip();
                Ok(Some(dotted(self.alloc, tokens, primary)?))
            }
            TokenKind::LeftParen => self.bracketed(tokens, levels, primary, token, Brackets::Round),
            TokenKind::LeftBracket => {
                self.bracketed(tokens, levels, primary, token, Brackets::Square)
            }
            _ => Ok(None),
        }
    }

    /// The step that begins with this bracket. A bracket that is the first on its line begins none.
    fn bracketed(
        &self,
        tokens: &mut Tokens<'_>,
        levels: usize,
        primary: &Expr,
        bracket: &Token,
        brackets: Brackets,
    ) -> Result<Option<Step>, Stop>
        requires fewer { levels ≤ self.now.levels }
        requires nests { NestsExpressions self.now.levels (F.pre self.now.nested) (F.post self.now.nested) }
        requires front { tokens.old.rest.now ≡ bracket.now ∷ tail tokens.old.rest.now }
        requires opens { IsOpening bracket.now.kind brackets }
        ensures reads { IsNextStep levels (expr_of primary.now) tokens.old.rest.now result tokens.new.rest.now }
        ensures within { length tokens.new.rest.now ≤ length tokens.old.rest.now }
        ensures progress { Shrinks result (length tokens.old.rest.now) (length tokens.new.rest.now) }
    {
        if bracket.first {
            return Ok(None);
        }
        let inner = tokens.deeper(levels)?;
        tokens.skip();
        Ok(Some(self.arguments(tokens, inner, primary, brackets)?))
    }

    /// A step of arguments, after its bracket.
    fn arguments(
        &self,
        tokens: &mut Tokens<'_>,
        levels: usize,
        primary: &Expr,
        brackets: Brackets,
    ) -> Result<Step, Stop>
        requires fewer { levels < self.now.levels }
        requires nests { NestsExpressions self.now.levels (F.pre self.now.nested) (F.post self.now.nested) }
        ensures reads { IsArguments levels (expr_of primary.now) brackets tokens.old.rest.now result tokens.new.rest.now }
        ensures within { length tokens.new.rest.now ≤ length tokens.old.rest.now }
    {
        let mut args = Items::new(self.alloc);
        if let Some(close) = tokens.take(brackets.close()) {
            return Ok(arguments_step(primary, brackets, args, close));
        }
        args.push(self.argument(tokens, levels)?)?;
        'arguments: while let Some(_) = tokens.take(Mark::Comma) {
            args.push(self.argument(tokens, levels)?)?;
        }
        let close = tokens.want(brackets.close())?;
        Ok(arguments_step(primary, brackets, args, close))
    }

    fn argument(&self, tokens: &mut Tokens<'_>, levels: usize) -> Result<Arg, Stop>
        requires fewer { levels < self.now.levels }
        requires nests { NestsExpressions self.now.levels (F.pre self.now.nested) (F.post self.now.nested) }
        ensures reads { IsArgument levels tokens.old.rest.now result tokens.new.rest.now }
        ensures within { length tokens.new.rest.now ≤ length tokens.old.rest.now }
    {
        let label = label(self.alloc, tokens)?;
        let value = self.inner(tokens, levels)?;
        Ok(Arg { label, value })
    }
}

/// The stop, where what was read before it is let go. Written out at an exit, the drop of something with many parts makes the check
/// of a long function slow; here it is one call.
fn without<A: Drop>(_read: A, stop: Stop) -> Stop
    ensures { result ≡ stop }
{
    stop
}

/// The operator that comes next between operands. A second comparison cannot stand after one.
fn operator_ahead(tokens: &Tokens<'_>, compares: bool) -> Result<Option<Infix>, Stop>
    ensures { IsOperatorAhead compares tokens.now.rest.now result }
{
    let Some(token) = tokens.peek() else {
        return Ok(None);
    };
    match infix_of(&token.kind) {
        Some(found) if compares && found.level == Level::Comparison => Err(tokens.stop()),
        found => Ok(found),
    }
}

/// The operator that comes next, where it stands before an operand.
fn prefix_ahead(tokens: &Tokens<'_>) -> Option<Prefix>
    ensures { IsPrefixAhead tokens.now.rest.now result }
{
    let token = tokens.peek()?;
    match prefix_of(&token.kind) {
        Some(operator) => Some(Prefix {
            operator,
            token: token.span,
        }),
        None => None,
    }
}

/// The operand with the operators before it, and its `&`.
fn with_prefixes(
    alloc: Global,
    mut prefixes: Items<Prefix>,
    mark: Option<Span>,
    operand: Expr,
) -> Result<Expr, AllocError>
    ensures { IfOk result (λ made. expr_of made ≡ steps.operand_of (record { operators = map prefix_at prefixes; mark = mark }) (expr_of operand)) }
{
    let mut made = match mark {
        Some(token) => marked(alloc, token, operand)?,
        None => operand,
    };
    'prefixes: while let Some(prefix) = prefixes.pop() {
        made = unary(alloc, prefix.operator, prefix.token, made)?;
    }
    Ok(made)
}

/// The label of an argument, if it has one: a name with a `:` after it.
fn label(alloc: Global, tokens: &mut Tokens<'_>) -> Result<Option<Text>, Stop>
    ensures reads { IsLabel tokens.old.rest.now result tokens.new.rest.now }
    ensures within { length tokens.new.rest.now ≤ length tokens.old.rest.now }
{
    let Some((name, behind)) = tokens.rest.split_first() else {
        return Ok(None);
    };
    let TokenKind::Name(text) = &name.kind else {
        return Ok(None);
    };
    let Some((colon, rest)) = behind.split_first() else {
        return Ok(None);
    };
    if !is(&colon.kind, Mark::Colon) {
        return Ok(None);
    }
    tokens.rest = rest;
    Ok(Some(copy_text(alloc, text)?))
}

/// A step after its `.`.
fn dotted(alloc: Global, tokens: &mut Tokens<'_>, primary: &Expr) -> Result<Step, Stop>
    ensures reads { IsDotted (expr_of primary.now) tokens.old.rest.now result tokens.new.rest.now }
    ensures within { length tokens.new.rest.now ≤ length tokens.old.rest.now }
{
    let Some(token) = tokens.peek() else {
        return Err(tokens.stop());
    };
    match &token.kind {
        TokenKind::Name(text) => {
            tokens.skip();
            Ok(member_step(primary, copy_text(alloc, text)?, token.span))
        }
        TokenKind::Number(value) => {
            tokens.skip();
            Ok(part_step(primary, *value, token.span))
        }
        _ => Err(tokens.stop()),
    }
}

/// Arguments after a primary expression.
fn arguments_step(primary: &Expr, brackets: Brackets, args: Items<Arg>, close: Span) -> Step
    ensures { step_of result ≡ steps.arguments_step (brackets_of brackets) (expr_of primary.now) (map arg_of args) close }
{
    match brackets {
        Brackets::Round => call_step(primary, args, close),
        Brackets::Square => index_step(primary, args, close),
    }
}

/// An expression. So many levels may still be opened.
pub fn read_expression(alloc: Global, tokens: &mut Tokens<'_>, levels: usize) -> Result<Expr, Stop>
    ensures reads { IsExpression levels tokens.old.rest.now result tokens.new.rest.now }
    ensures within { length tokens.new.rest.now ≤ length tokens.old.rest.now }
    ensures progress { OnOk result (length tokens.new.rest.now < length tokens.old.rest.now) }
{
    Expressions {
        alloc,
        levels,
        nested: read_expression,
    }
    .chain(tokens)
}

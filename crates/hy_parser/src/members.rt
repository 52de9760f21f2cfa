// Members of types, traits and conformances.
ghost use Rattle.std.specs.Prelude.{◌≡◌, ◌≤◌, ◌<◌, ◌-◌, [], length, IfOk, IfErr, OnOk};
ghost use Rattle.hy_lexer.specs.declared.token.TokenKind.TheVariants as k;
ghost use Rattle.hy_parser.specs.Headings as spec;
ghost use Rattle.hy_parser.specs.ReadsDeclarations.{ReadsMembers, ReadsMember, ReadsMemberKind, ReadsField, ReadsMemberwise};
ghost use Rattle.hy_parser.specs.Separated.{TakesPublic, TakesMemberPublic};
ghost use Rattle.hy_phrases.specs.Wanted.{Sees};

use crate::callables::{read_deinit, read_function, read_subscript};
use crate::declaration_nodes::member;
use crate::heading::{MemberWord, OwnerSort, take_member_word};
use hy_base::Span;
use hy_phrases::{Mark, Stop, Tokens, read_type};
use hy_tree::{Callable, Member, MemberKind};
use sqlite_items::Items;
use std::alloc::Global;

/// The members after their `{`, and the `}`.
pub fn read_members(
    alloc: Global,
    tokens: &mut Tokens<'_>,
    sort: OwnerSort,
) -> Result<(Items<Member>, Span), Stop>
    ensures reads { ReadsMembers sort tokens.old.rest.now result tokens.new.rest.now }
    ensures within { length tokens.new.rest.now ≤ length tokens.old.rest.now }
{
    let mut members = Items::new(alloc);
    'members: loop {
        if let Some(close) = tokens.take(Mark::RightBrace) {
            return Ok((members, close));
        }
        members.push(read_member(alloc, tokens, sort)?)?;
        let _ = tokens.take(Mark::Semicolon);
    }
}

// A member.
fn read_member(alloc: Global, tokens: &mut Tokens<'_>, sort: OwnerSort) -> Result<Member, Stop>
    requires { Sees k.RightBrace tokens.old.rest.now → ⊥ }
    ensures reads { ReadsMember sort tokens.old.rest.now result tokens.new.rest.now }
    ensures within { length tokens.new.rest.now ≤ length tokens.old.rest.now }
    ensures progress { OnOk result (length tokens.new.rest.now < length tokens.old.rest.now) }
{
    let before = tokens.rest.len();
    let Some(first) = tokens.peek() else {
        return Err(tokens.stop());
    };
    let public = take_member_public(tokens, sort);
    let (kind, to) = read_member_kind(alloc, tokens, sort)?;
    let count = count_taken(before, tokens)?;
    Ok(member(public, kind, count, first.span.from, to))
}

// Takes the `public` of a member, if it comes. Members of a trait have none.
fn take_member_public(tokens: &mut Tokens<'_>, sort: OwnerSort) -> bool
    ensures token { TakesMemberPublic sort tokens.old.rest.now result tokens.new.rest.now }
    ensures within { length tokens.new.rest.now ≤ length tokens.old.rest.now }
{
    match sort {
        OwnerSort::Trait => false,
        _ => take_public(tokens),
    }
}

/// Takes `public`, if it comes.
pub fn take_public(tokens: &mut Tokens<'_>) -> bool
    ensures token { TakesPublic tokens.old.rest.now result tokens.new.rest.now }
    ensures within { length tokens.new.rest.now ≤ length tokens.old.rest.now }
{
    match tokens.take(Mark::Public) {
        Some(_) => true,
        None => false,
    }
}

/// How many tokens were taken since so many were left. A count of 2^32 or more, whose tokens would take some hundred GiB, is
/// answered as out of memory.
pub fn count_taken(before: usize, tokens: &Tokens<'_>) -> Result<u32, Stop>
    requires { length tokens.now.rest.now ≤ before }
    ensures count { IfOk result (λ count. count ≡ before - length tokens.now.rest.now) }
    ensures stops { IfErr result (λ e. e ≡ Stop.NoMemory) }
{
    match u32::try_from(before - tokens.rest.len()) {
        Ok(count) => Ok(count),
        Err(_) => Err(Stop::NoMemory),
    }
}

// What a member is, after `public`, and where it ends.
fn read_member_kind(
    alloc: Global,
    tokens: &mut Tokens<'_>,
    sort: OwnerSort,
) -> Result<(MemberKind, u32), Stop>
    ensures reads { ReadsMemberKind sort tokens.old.rest.now result tokens.new.rest.now }
    ensures within { length tokens.new.rest.now ≤ length tokens.old.rest.now }
    ensures progress { OnOk result (length tokens.new.rest.now < length tokens.old.rest.now) }
{
    let Some((word, span)) = take_member_word(tokens, sort) else {
        return Err(tokens.stop());
    };
    match word {
        MemberWord::Field => read_field(alloc, tokens),
        MemberWord::Memberwise => read_memberwise(tokens),
        MemberWord::Deinit => Ok(called(read_deinit(alloc, tokens, 199, span)?)),
        MemberWord::Subscript => Ok(called(read_subscript(alloc, tokens, 199, false, span)?)),
        MemberWord::Function(of) => Ok(called(read_function(alloc, tokens, 199, of, span)?)),
    }
}

// A member that can be called, and where it ends.
fn called(callable: Callable) -> (MemberKind, u32)
    ensures { result ≡ (MemberKind.Callable callable, callable.span.to) }
{
    let to = callable.span.to;
    (MemberKind::Callable(callable), to)
}

// A field after `var`.
fn read_field(alloc: Global, tokens: &mut Tokens<'_>) -> Result<(MemberKind, u32), Stop>
    ensures reads { ReadsField tokens.old.rest.now result tokens.new.rest.now }
    ensures within { length tokens.new.rest.now ≤ length tokens.old.rest.now }
{
    let name = tokens.name(alloc)?;
    tokens.want(Mark::Colon)?;
    let written = read_type(alloc, tokens, 199)?;
    let to = written.span.to;
    Ok((MemberKind::Field(name, written), to))
}

// `init` after `memberwise`.
fn read_memberwise(tokens: &mut Tokens<'_>) -> Result<(MemberKind, u32), Stop>
    ensures reads { ReadsMemberwise tokens.old.rest.now result tokens.new.rest.now }
    ensures within { length tokens.new.rest.now ≤ length tokens.old.rest.now }
{
    let span = tokens.want(Mark::Init)?;
    Ok((MemberKind::MemberwiseInit, span.to))
}

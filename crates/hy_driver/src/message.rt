// The messages of the program, one line each. `docs/REFUSALS.md` has their texts.
ghost use Rattle.std.specs.Prelude.{◌≡◌, ◌<◌, ◌++◌, IfOk, OnOk, string_bytes};
ghost use Rattle.hy_driver.specs.Message.{bytes_of_message};
ghost use Rattle.hy_driver.specs.Texts.{line_number, column_number, located, place_text, worded, trap_text, refusal_message, trap_message};
ghost use Rattle.hy_driver.specs.Texts.{spent_message, object_trap_message, stuck_text, stuck_message, bad_object_message, count_line, report_lines};

use hy_base::{Counts, NoMemory, Rule, Span, TrapKind};
use hy_object::{Kind, Pc};
use std::alloc::Global;

/// A message to the user, or none.
#[derive(Drop)]
pub enum Message {
    Silent,
    Fixed(&'static str),
    Owned(String),
}

pub const USAGE: &str = "usage: hyloc run FILE | exec FILE [--turns N] [--report]\n";

pub const FILE_FAULT: &str = "hyloc: file fault\n";

pub const INPUT_FAULT: &str = "hyloc: input fault\n";

pub const OUTPUT_FAULT: &str = "hyloc: output fault\n";

pub const OUT_OF_MEMORY: &str = "hyloc: out of memory\n";

impl Message {
    /// Its bytes, with the line feed.
    pub fn as_bytes(&self) -> &[u8]
        ensures { result.now ≡ bytes_of_message self.now }
    {
        match self {
            Message::Silent => b"",
            Message::Fixed(text) => text.as_bytes(),
            Message::Owned(text) => text.as_bytes(),
        }
    }
}

// The line and the column of a byte, both from 1.
fn position(bytes: &[u8], at: usize) -> (u64, u64)
    ensures line { result.0 ≡ line_number bytes.now at }
    ensures column { result.1 ≡ column_number bytes.now at }
{
    let before = &bytes[..at.min(bytes.len())];
    let mut line = 1u64;
    let mut column = 1u64;
    for byte in before {
        if *byte == b'\n' {
            line += 1;
            column = 1;
        } else {
            column += 1;
        }
    }
    (line, column)
}

fn put(message: &mut String, text: &str) -> Result<(), NoMemory>
    ensures { OnOk result (string_bytes message.new ≡ string_bytes message.old ++ text.now) }
{
    message.push_str(text)?;
    Ok(())
}

// :LINE:COLUMN (FROM-TO):
fn place(alloc: Global, line: u64, column: u64, span: Span) -> Result<String, NoMemory>
    ensures { IfOk result (λ text. string_bytes text ≡ place_text line column span) }
{
    let from = span.from;
    let to = span.to;
    let text = format!(in alloc; ":{line}:{column} ({from}-{to}): ")?;
    Ok(text)
}

// FILE:LINE:COLUMN (FROM-TO): WORD TEXT
fn locate(
    alloc: Global,
    file: &str,
    bytes: &[u8],
    span: Span,
    word: &str,
    text: &str,
) -> Result<String, NoMemory>
    ensures { IfOk result (λ message. string_bytes message ≡ located file.now bytes.now span (worded word.now text.now)) }
{
    let (line, column) = position(bytes, span.from as usize);
    let place = place(alloc, line, column, span)?;
    let mut message = String::from_str(alloc, file)?;
    put(&mut message, place.as_str())?;
    put(&mut message, word)?;
    put(&mut message, " ")?;
    put(&mut message, text)?;
    put(&mut message, "\n")?;
    Ok(message)
}

/// What a refused source is answered.
pub fn refusal(
    alloc: Global,
    file: &str,
    bytes: &[u8],
    rule: Rule,
    span: Span,
) -> Result<String, NoMemory>
    ensures { IfOk result (λ message. string_bytes message ≡ refusal_message file.now bytes.now (record { rule = rule; span = span })) }
{
    let message = locate(alloc, file, bytes, span, rule.name(), rule.text())?;
    Ok(message)
}

fn text_of_trap(kind: TrapKind) -> &'static str
    ensures { result.now ≡ trap_text kind }
{
    match kind {
        TrapKind::Overflow => "overflow",
        TrapKind::Divide => "divide by zero",
        TrapKind::Index => "index out of range",
        TrapKind::Empty => "empty array",
        TrapKind::Input => "bad input",
        TrapKind::Precondition => "precondition",
    }
}

/// What a run that traps says.
pub fn trapped(
    alloc: Global,
    file: &str,
    bytes: &[u8],
    kind: TrapKind,
    span: Span,
) -> Result<String, NoMemory>
    ensures { IfOk result (λ message. string_bytes message ≡ trap_message file.now bytes.now kind span) }
{
    let message = locate(alloc, file, bytes, span, "trap", text_of_trap(kind))?;
    Ok(message)
}

/// What a run that has taken all its turns says.
pub fn spent(alloc: Global, turns: u64) -> Result<String, NoMemory>
    ensures { IfOk result (λ message. string_bytes message ≡ spent_message turns) }
{
    let message = format!(in alloc; "hyloc: spent after {turns} turns\n")?;
    Ok(message)
}

/// What an object that traps says: there is no text whose lines could be counted.
pub fn trapped_in_object(
    alloc: Global,
    file: &str,
    kind: TrapKind,
    span: Span,
) -> Result<String, NoMemory>
    ensures { IfOk result (λ message. string_bytes message ≡ object_trap_message file.now kind span) }
{
    let from = span.from;
    let to = span.to;
    let kind = text_of_trap(kind);
    let message = format!(in alloc; "{file} ({from}-{to}): trap {kind}\n")?;
    Ok(message)
}

fn text_of_kind(kind: Kind) -> &'static str
    ensures { result.now ≡ stuck_text kind }
{
    match kind {
        Kind::Freed => "freed",
        Kind::Unset => "unset",
        Kind::Range => "range",
        Kind::Kind => "kind",
        Kind::Access => "access",
        Kind::Slot => "slot",
        Kind::Lost => "lost",
        Kind::Order => "order",
    }
}

/// What a machine says that is stuck at an instruction.
pub fn stuck(alloc: Global, file: &str, kind: Kind, place: Pc) -> Result<String, NoMemory>
    ensures { IfOk result (λ message. string_bytes message ≡ stuck_message file.now kind place) }
{
    let kind = text_of_kind(kind);
    let fun = place.fun;
    let at = place.at;
    let message = format!(in alloc; "{file}: stuck {kind} at {fun}:{at}\n")?;
    Ok(message)
}

/// What a file is answered that is no object's.
pub fn bad_object(alloc: Global, file: &str, place: u64) -> Result<String, NoMemory>
    ensures { IfOk result (λ message. string_bytes message ≡ bad_object_message file.now place) }
{
    let message = format!(in alloc; "{file}: bad object at {place}\n")?;
    Ok(message)
}

fn put_count(alloc: Global, lines: &mut String, name: &str, count: u64) -> Result<(), NoMemory>
    ensures { OnOk result (string_bytes lines.new ≡ string_bytes lines.old ++ count_line name.now count) }
{
    let line = format!(in alloc; "{name} {count}\n")?;
    put(lines, line.as_str())
}

/// What a run has counted, in five lines.
pub fn counted(alloc: Global, counts: Counts) -> Result<String, NoMemory>
    ensures { IfOk result (λ lines. string_bytes lines ≡ report_lines counts) }
{
    let mut lines = String::new(alloc);
    put_count(alloc, &mut lines, "turns", counts.turns)?;
    put_count(alloc, &mut lines, "blocks", counts.blocks)?;
    put_count(alloc, &mut lines, "freed", counts.freed)?;
    put_count(alloc, &mut lines, "opened", counts.opened)?;
    put_count(alloc, &mut lines, "closed", counts.closed)?;
    Ok(lines)
}

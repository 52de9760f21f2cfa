// The scanner: what a text begins with.
ghost use Rattle.std.specs.Prelude.{◌≡◌, ◌<◌, ◌↔◌, IsTrue, length};
ghost use Rattle.hy_lexer.specs.Scans.{Begins, BeginsInAscii, HasSecond, OnlyMarks, Scans, class_at, class_of};

use crate::character::{behind_word, first_char, starts_word};
use crate::comment::closed_len;
use crate::marks::{pair_at, single};
use crate::run::{line_len, number_len};
use crate::token::TokenKind;

/// What a piece may be that begins with a byte.
#[derive(Clone, Copy, Debug, PartialEq, Eq)]
pub enum ByteClass {
    Space,
    /// A letter of ASCII, `_`, or a part of a character outside ASCII.
    Word,
    Digit,
    Slash,
    /// A mark, or nothing.
    Mark,
}

/// What a piece of a text is.
#[derive(Debug, Drop)]
pub enum Shape {
    Space,
    Comment,
    OpenComment,
    BadCharacter,
    Number,
    Word,
    Mark(TokenKind),
}

/// A piece at the start of a text, with how many bytes it has.
#[derive(Debug, Drop)]
pub struct Scanned {
    pub shape: Shape,
    pub length: usize,
}

/// What a piece may be that begins with this byte.
pub fn class_of(byte: u8) -> ByteClass
    ensures { result ≡ class_of byte }
{
    match byte {
        b' ' | b'\n' | b'\t' | b'\r' => ByteClass::Space,
        b'/' => ByteClass::Slash,
        b'0'..=b'9' => ByteClass::Digit,
        b'A'..=b'Z' | b'_' | b'a'..=b'z' | 128.. => ByteClass::Word,
        _ => ByteClass::Mark,
    }
}

/// What a text begins with.
pub fn next_piece(text: &str) -> Scanned
    requires { 0 < length text.now }
    ensures { Scans text.now result }
{
    match class_of(text.as_bytes()[0]) {
        ByteClass::Space => Scanned {
            shape: Shape::Space,
            length: 1,
        },
        ByteClass::Word => word(text),
        ByteClass::Digit => number(text),
        ByteClass::Slash => slash(text),
        ByteClass::Mark => mark(text),
    }
}

// A word, or a character outside ASCII that begins none.
fn word(text: &str) -> Scanned
    requires { class_at text.now ≡ ByteClass.Word }
    ensures { Scans text.now result }
{
    let (c, behind) = first_char(text);
    if !starts_word(c) {
        return Scanned {
            shape: Shape::BadCharacter,
            length: text.len() - behind.len(),
        };
    }
    let after = behind_word(behind);
    Scanned {
        shape: Shape::Word,
        length: text.len() - after.len(),
    }
}

fn number(text: &str) -> Scanned
    requires { class_at text.now ≡ ByteClass.Digit }
    ensures { Scans text.now result }
{
    Scanned {
        shape: Shape::Number,
        length: number_len(text.as_bytes()),
    }
}

// A comment, or a mark that begins with a slash.
fn slash(text: &str) -> Scanned
    requires { class_at text.now ≡ ByteClass.Slash }
    ensures { Scans text.now result }
{
    let bytes = text.as_bytes();
    if has_second(bytes, b'/') {
        return line_comment(text);
    }
    if has_second(bytes, b'*') {
        return block_comment(text);
    }
    mark(text)
}

// Whether this is the second byte of a text.
fn has_second(text: &[u8], byte: u8) -> bool
    ensures { IsTrue result ↔ HasSecond byte text.now }
{
    let Some((_, behind)) = text.split_first() else {
        return false;
    };
    let Some((second, _)) = behind.split_first() else {
        return false;
    };
    *second == byte
}

// A comment up to the end of its line.
fn line_comment(text: &str) -> Scanned
    requires { Begins 47 47 text.now }
    ensures { Scans text.now result }
{
    Scanned {
        shape: Shape::Comment,
        length: 2 + line_len(&text.as_bytes()[2..]),
    }
}

// A comment up to where it is closed, or to the end of the text.
fn block_comment(text: &str) -> Scanned
    requires { Begins 47 42 text.now }
    ensures { Scans text.now result }
{
    match closed_len(&text.as_bytes()[2..]) {
        Some(inner) => Scanned {
            shape: Shape::Comment,
            length: 2 + inner,
        },
        None => Scanned {
            shape: Shape::OpenComment,
            length: text.len(),
        },
    }
}

// A mark, or a character of ASCII that begins no token.
fn mark(text: &str) -> Scanned
    requires ascii { BeginsInAscii text.now }
    requires only { OnlyMarks text.now }
    ensures { Scans text.now result }
{
    let bytes = text.as_bytes();
    if let Some(kind) = pair_at(bytes) {
        return Scanned {
            shape: Shape::Mark(kind),
            length: 2,
        };
    }
    match single(bytes[0]) {
        Some(kind) => Scanned {
            shape: Shape::Mark(kind),
            length: 1,
        },
        None => Scanned {
            shape: Shape::BadCharacter,
            length: 1,
        },
    }
}

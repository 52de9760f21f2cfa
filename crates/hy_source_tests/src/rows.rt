// What the rows of tests share. In a source, `~` stands for a line feed.
use hy_base::Fault;
use hy_lexer::{lex, spans_are_apart};
use hy_parser::parse;
use hy_tree::Program;
use std::alloc::{AllocError, Global};

/// The source that a row has.
pub fn source_of(alloc: Global, text: &str) -> Result<Vec<u8>, AllocError> {
    let mut source = Vec::new(alloc);
    for byte in text.bytes() {
        source.push(if byte == b'~' { b'\n' } else { byte })?;
    }
    Ok(source)
}

/// Adds a row and what was found for it, where that is not what the row wants.
pub fn push_if_wrong(
    wrong: &mut String,
    row: &str,
    found: &str,
    wanted: &str,
) -> Result<(), AllocError> {
    if found == wanted {
        return Ok(());
    }
    wrong.push_str(row)?;
    wrong.push_str(" : ")?;
    wrong.push_str(found)?;
    wrong.push_str("; ")
}

/// The tree of a source.
pub fn parsed(alloc: Global, source: &[u8]) -> Result<Program, Fault> {
    let Ok(length) = u32::try_from(source.len()) else {
        return Err(Fault::NoMemory);
    };
    if length > 1_048_576 {
        return Err(Fault::NoMemory);
    }
    let tokens = lex(alloc, source)?;
    spans_are_apart();
    parse(alloc, tokens.as_slice(), length)
}

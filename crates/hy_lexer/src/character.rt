// Characters at the start of a text.
ghost use Rattle.std.specs.Prelude.{◌≡◌, ◌++◌, ◌<◌, ◌↔◌, length, IsTrue};
ghost use Rattle.std.specs.Char.{encode_utf8};
ghost use Rattle.std.specs.Str.{IsUtf8};
ghost use Rattle.unicode_ident.specs.Ident.{is_xid_continue};
ghost use Rattle.hy_lexer.specs.Pieces.{StartsWord};
ghost use Rattle.hy_lexer.specs.Scans.{IsWordRun};

/// The first character of a text, and what is after it.
pub fn first_char(text: &str) -> (char, &str)
    requires { 0 < length text.now }
    ensures spelled { text.now ≡ encode_utf8 result.0 ++ result.1.now }
    ensures shorter { length result.1.now < length text.now }
    ensures utf8 { IsUtf8 result.1.now }
{
    let byte = text.as_bytes()[0];
    if byte < 128 {
        let (_, behind) = text.split_at(1);
        return (byte as char, behind);
    }
    let mut chars = text.chars();
    match chars.next() {
        Some(c) => (c, chars.as_str()),
        None => unreachable!(),
    }
}

/// Whether a word may begin with the character.
pub fn starts_word(c: char) -> bool
    ensures { IsTrue result ↔ StartsWord c }
{
    c == '_' || unicode_ident::is_xid_start(c)
}

// Whether a word may go on with the character.
fn continues_word(c: char) -> bool
    ensures { result ≡ is_xid_continue c }
{
    if c.is_ascii() {
        return c.is_ascii_alphanumeric() || c == '_';
    }
    unicode_ident::is_xid_continue(c)
}

/// What is after the characters that continue a word.
pub fn behind_word(text: &str) -> &str
    ensures { IsWordRun text.now result.now }
{
    let mut rest = text;
    while !rest.is_empty() {
        let (c, behind) = first_char(rest);
        if !continues_word(c) {
            break;
        }
        rest = behind;
    }
    rest
}

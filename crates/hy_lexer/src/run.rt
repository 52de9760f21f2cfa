// Runs of bytes.
ghost use Rattle.std.specs.Prelude.{◌≡◌, ◌≢◌, ◌↔◌, IsTrue};
ghost use Rattle.hy_lexer.specs.Pieces.{IsNumberByte};
ghost use Rattle.hy_lexer.specs.Scans.{IsRun};

// Whether the byte is a digit or `_`.
fn is_number_byte(byte: u8) -> bool
    ensures { IsTrue result ↔ IsNumberByte byte }
{
    byte.is_ascii_digit() || byte == b'_'
}

/// How many bytes of a number a text begins with.
pub fn number_len(bytes: &[u8]) -> usize
    ensures { IsRun IsNumberByte bytes.now result }
{
    let mut rest = bytes;
    while let Some((byte, behind)) = rest.split_first() {
        if !is_number_byte(*byte) {
            break;
        }
        rest = behind;
    }
    bytes.len() - rest.len()
}

/// How many bytes the rest of a line has, without the line feed.
pub fn line_len(bytes: &[u8]) -> usize
    ensures { IsRun (λ byte. byte ≢ 10) bytes.now result }
{
    let mut rest = bytes;
    while let Some((byte, behind)) = rest.split_first() {
        if *byte == b'\n' {
            break;
        }
        rest = behind;
    }
    bytes.len() - rest.len()
}

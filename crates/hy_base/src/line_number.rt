// The number that a line of input spells: digits with `-` in front if it is below 0, between spaces, before a carriage return.
ghost use Rattle.std.specs.Prelude.{◌≡◌, reverse};
ghost use Rattle.hy_base.specs.Lines.{drop_return, drop_spaces, number_of, trimmed};
ghost use Rattle.hy_base.specs.Digits.{capped_digits};

/// The line without a final carriage return, and then without spaces at both ends.
pub fn trimmed(line: &[u8]) -> &[u8]
    ensures { result.now ≡ trimmed line.now }
{
    without_spaces_before(without_spaces_after(without_return(line)))
}

fn without_return(line: &[u8]) -> &[u8]
    ensures { result.now ≡ reverse (drop_return (reverse line.now)) }
{
    let Some((last, front)) = line.split_last() else {
        return line;
    };
    if *last == b'\r' { front } else { line }
}

fn without_spaces_after(line: &[u8]) -> &[u8]
    ensures { result.now ≡ reverse (drop_spaces (reverse line.now)) }
{
    let mut rest = line;
    while let Some((last, front)) = rest.split_last() {
        if *last != b' ' {
            return rest;
        }
        rest = front;
    }
    rest
}

fn without_spaces_before(line: &[u8]) -> &[u8]
    ensures { result.now ≡ drop_spaces line.now }
{
    let mut rest = line;
    while let Some((first, others)) = rest.split_first() {
        if *first != b' ' {
            return rest;
        }
        rest = others;
    }
    rest
}

/// The number, with a sign in front if it is below 0.
pub fn number_of(text: &[u8]) -> Option<i64>
    ensures { result ≡ number_of text.now }
{
    let (first, rest) = text.split_first()?;
    if *first == b'-' {
        let size = digits(rest)?;
        return 0i64.checked_sub_unsigned(size);
    }
    let size = digits(text)?;
    0i64.checked_add_unsigned(size)
}

// The number of one or more digits; one that passes 64 bits is their greatest.
fn digits(text: &[u8]) -> Option<u64>
    ensures { result ≡ capped_digits text.now }
{
    if text.is_empty() {
        return None;
    }
    let mut number: u64 = 0;
    for byte in text {
        if !byte.is_ascii_digit() {
            return None;
        }
        number = number
            .saturating_mul(10)
            .saturating_add(u64::from(*byte - b'0'));
    }
    Some(number)
}

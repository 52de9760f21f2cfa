// The value of a number.
ghost use Rattle.std.specs.Prelude.{◌≡◌, ◌<◌, MatchOption, pos};
ghost use Rattle.hy_lexer.specs.Pieces.{number_of};

// The largest number, which a signed one of 64 bits holds.
const LARGEST: u64 = 9223372036854775807;

/// The number that digits spell, unless it is above 9223372036854775807. Each `_` is skipped.
pub fn number_value(digits: &[u8]) -> Option<i64>
    ensures { MatchOption result (9223372036854775807 < number_of digits.now) (λ value. value ≡ pos (number_of digits.now)) }
{
    let mut value: u64 = 0;
    let mut rest = digits;
    while let Some((byte, behind)) = rest.split_first() {
        if *byte != b'_' {
            let digit = u64::from(byte.saturating_sub(b'0'));
            if value > (LARGEST - digit) / 10 {
                return None;
            }
            value = value * 10 + digit;
        }
        rest = behind;
    }
    Some(value as i64)
}

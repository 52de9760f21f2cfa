// Numbers, read from the front of some bytes.
ghost use Rattle.std.specs.Prelude.{◌≡◌, ◌<◌, ◌^◌, []};
ghost use Rattle.hy_object.specs.Numbers.{low_group};
ghost use Rattle.hy_object.specs.Reading.{Finds, read_groups, read_count, read_signed, read_value, read_row, last_group, with_group, value_by_sign};

/// A count: a number below 2^32 in its shortest form, and what follows it.
pub fn count(bytes: &[u8]) -> Option<(u32, &[u8])>
    ensures { Finds (λ x. (x.0, x.1.now)) result (read_count bytes.now) }
{
    groups(bytes, 5)
}

/// A number of at most so many groups of seven bits. The last group has the highest bits.
fn groups(bytes: &[u8], most: u32) -> Option<(u32, &[u8])>
    ensures { Finds (λ x. (x.0, x.1.now)) result (read_groups most bytes.now) }
{
    if most == 0 {
        return None;
    }
    let Some((first, rest)) = bytes.split_first() else {
        return None;
    };
    let first = *first;
    if first < 128 {
        return Some((first as u32, rest));
    }
    let Some((high, rest)) = groups(rest, most - 1) else {
        return None;
    };
    if high == 0 {
        return None;
    }
    if high >= 1 << 25 {
        return None;
    }
    Some((128 * high + (first - 128) as u32, rest))
}

/// So many counts, and what follows them.
pub fn row<const N: usize>(bytes: &[u8]) -> Option<([u32; N], &[u8])>
    ensures { Finds (λ x. (x.0, x.1.now)) result (read_row N [] bytes.now) }
{
    let mut row = [0; N];
    let mut rest = bytes;
    for i in 0..N {
        let Some((n, behind)) = count(rest) else {
            return None;
        };
        row[i] = n;
        rest = behind;
    }
    Some((row, rest))
}

/// A number by its sign: itself, or one less than its negation.
#[derive(Clone, Copy)]
struct Signed {
    negative: bool,
    number: u64,
}

/// A number of 64 bits in its shortest form, and what follows it.
pub fn value(bytes: &[u8]) -> Option<(i64, &[u8])>
    ensures { Finds (λ x. (x.0, x.1.now)) result (read_value bytes.now) }
{
    let (signed, rest) = signed_groups(bytes, 10)?;
    Some((value_of(signed), rest))
}

fn value_of(signed: Signed) -> i64
    requires { signed.number < 2 ^ 63 }
    ensures { result ≡ value_by_sign signed.negative signed.number }
{
    let number = signed.number as i64;
    if signed.negative {
        return -1 - number;
    }
    number
}

/// The same of a number with a sign. The last group has the sign in its highest bit.
fn signed_groups(bytes: &[u8], most: u32) -> Option<(Signed, &[u8])>
    ensures { Finds (λ x. (x.0, x.1.now)) result (read_signed most bytes.now) }
{
    if most == 0 {
        return None;
    }
    let Some((first, rest)) = bytes.split_first() else {
        return None;
    };
    let first = *first;
    if first < 128 {
        return Some((last_group(first), rest));
    }
    let Some((high, rest)) = signed_groups(rest, most - 1) else {
        return None;
    };
    let Some(number) = with_group(high, first - 128) else {
        return None;
    };
    Some((number, rest))
}

fn last_group(group: u8) -> Signed
    requires { group < 128 }
    ensures { result ≡ last_group group }
{
    if group < 64 {
        return Signed {
            negative: false,
            number: group as u64,
        };
    }
    Signed {
        negative: true,
        number: (127 - group) as u64,
    }
}

/// A number with a lower group. There is none where it needs no further group, or has more than 64 bits.
fn with_group(high: Signed, group: u8) -> Option<Signed>
    requires { group < 128 }
    ensures { result ≡ with_group group high }
{
    if high.number >= 1 << 56 {
        return None;
    }
    let number = 128 * high.number + low_group(high.negative, group) as u64;
    if number < 64 {
        return None;
    }
    Some(Signed {
        negative: high.negative,
        number,
    })
}

/// A group of seven bits in two's complement.
pub fn low_group(negative: bool, group: u8) -> u8
    requires { group < 128 }
    ensures { result ≡ low_group negative group }
{
    if negative { 127 - group } else { group }
}

// The integer types, and arithmetic in them. `docs/TYPES.md` has their ranges, `docs/MEANING.md` what traps.
ghost use Rattle.std.specs.Prelude.{◌≡◌, ◌≤ℤ◌, neg_ℤ};
ghost use Rattle.hy_base.specs.declared.numbers.IntegerType.TheVariants.{Int, Sized};
ghost use Rattle.hy_base.specs.declared.numbers.Num.TheVariants.{U64};
ghost use Rattle.hy_base.specs.declared.numbers.Operation.TheVariants.{Rem};
ghost use Rattle.hy_base.specs.Numbers.{least, greatest, is_in, fitting, calculated, of_word, word_of};

use crate::TrapKind;

/// A sized integer type: signed, or unsigned for a name with `U`, with the bits that its name says.
#[derive(Clone, Copy, Debug, PartialEq, Eq, Hash)]
pub enum Num {
    /// `Int8`: from -128 to 127.
    I8,
    /// `Int16`: from -32768 to 32767.
    I16,
    /// `Int32`: from -2147483648 to 2147483647.
    I32,
    /// `UInt8`: from 0 to 255.
    U8,
    /// `UInt16`: from 0 to 65535.
    U16,
    /// `UInt32`: from 0 to 4294967295.
    U32,
    /// `UInt64`: from 0 to 18446744073709551615.
    U64,
}

/// An integer type.
#[derive(Clone, Copy, Debug, PartialEq, Eq)]
pub enum IntegerType {
    /// `Int`: signed, with 64 bits.
    Int,
    Sized(Num),
}

/// An operation on two integers of one type.
#[derive(Clone, Copy, Debug, PartialEq, Eq)]
pub enum Operation {
    Add,
    Sub,
    Mul,
    /// The quotient of the division that truncates toward zero.
    Div,
    /// The remainder of that division, which has the sign of the dividend.
    Rem,
}

impl Operation {
    /// What it gives of two integers of `Int`, or the trap: `Divide` for a divisor of zero, `Overflow` for a result outside
    /// `Int` and for the remainder of its least integer by -1.
    pub fn of_ints(self, x: i64, y: i64) -> Result<i64, TrapKind>
        ensures { result ≡ calculated Int self x y }
    {
        let found = match self {
            Operation::Add => x.checked_add(y),
            Operation::Sub => x.checked_sub(y),
            Operation::Mul => x.checked_mul(y),
            Operation::Div if y == 0 => return Err(TrapKind::Divide),
            Operation::Div => x.checked_div(y),
            Operation::Rem if y == 0 => return Err(TrapKind::Divide),
            Operation::Rem => x.checked_rem(y),
        };
        found.ok_or(TrapKind::Overflow)
    }
}

/// An integer of `Int` with the other sign, or the trap `Overflow` for the least one.
pub fn negated_int(x: i64) -> Result<i64, TrapKind>
    ensures { result ≡ fitting Int (neg_ℤ x) }
{
    x.checked_neg().ok_or(TrapKind::Overflow)
}

impl IntegerType {
    /// The least integer of the type.
    pub fn least(self) -> i128
        ensures { result ≡ least self }
    {
        match self {
            IntegerType::Int => -0x8000_0000_0000_0000,
            IntegerType::Sized(Num::I8) => -0x80,
            IntegerType::Sized(Num::I16) => -0x8000,
            IntegerType::Sized(Num::I32) => -0x8000_0000,
            IntegerType::Sized(_) => 0,
        }
    }

    /// The greatest integer of the type.
    pub fn greatest(self) -> i128
        ensures { result ≡ greatest self }
    {
        match self {
            IntegerType::Int => 0x7FFF_FFFF_FFFF_FFFF,
            IntegerType::Sized(Num::I8) => 0x7F,
            IntegerType::Sized(Num::I16) => 0x7FFF,
            IntegerType::Sized(Num::I32) => 0x7FFF_FFFF,
            IntegerType::Sized(Num::U8) => 0xFF,
            IntegerType::Sized(Num::U16) => 0xFFFF,
            IntegerType::Sized(Num::U32) => 0xFFFF_FFFF,
            IntegerType::Sized(Num::U64) => 0xFFFF_FFFF_FFFF_FFFF,
        }
    }

    /// Whether the integer is one of the type.
    pub fn has(self, x: i128) -> bool
        ensures { result ≡ is_in self x }
    {
        self.least() <= x && x <= self.greatest()
    }

    /// The integer as one of the type, or the trap `Overflow` where it is none.
    pub fn fitting(self, x: i128) -> Result<i128, TrapKind>
        ensures { result ≡ fitting self x }
    {
        if self.has(x) {
            Ok(x)
        } else {
            Err(TrapKind::Overflow)
        }
    }

    /// The integer with the other sign as one of the type, or the trap `Overflow` where that is none.
    pub fn negated(self, x: i128) -> Result<i128, TrapKind>
        ensures { result ≡ fitting self (neg_ℤ x) }
    {
        match x.checked_neg() {
            Some(n) => self.fitting(n),
            None => Err(TrapKind::Overflow),
        }
    }

    /// What the operation gives in the type, or the trap: `Divide` for a divisor of zero, `Overflow` for a result outside the
    /// type and for the remainder of the least integer of a signed type by -1. The operands need not be of the type.
    pub fn calculate(self, operation: Operation, x: i128, y: i128) -> Result<i128, TrapKind>
        ensures { result ≡ calculated self operation x y }
    {
        let found = match operation {
            Operation::Add => x.checked_add(y),
            Operation::Sub => x.checked_sub(y),
            Operation::Mul => x.checked_mul(y),
            Operation::Div if y == 0 => return Err(TrapKind::Divide),
            Operation::Div => x.checked_div(y),
            Operation::Rem => return self.remainder(x, y),
        };
        match found {
            Some(n) => self.fitting(n),
            None => Err(TrapKind::Overflow),
        }
    }

    fn remainder(self, x: i128, y: i128) -> Result<i128, TrapKind>
        ensures { result ≡ calculated self Rem x y }
    {
        if y == 0 {
            return Err(TrapKind::Divide);
        }
        if y != -1 {
            return self.fitting(x % y);
        }
        if x < 0 && x == self.least() {
            return Err(TrapKind::Overflow);
        }
        Ok(0)
    }

    /// The integer that a word of a machine stands for in the type: itself, but in `UInt64` the integer from 2^63 on for a
    /// negative word.
    pub fn of_word(self, word: i64) -> i128
        ensures { result ≡ of_word self word }
    {
        let word = i128::from(word);
        if word < 0 && self == IntegerType::Sized(Num::U64) {
            return word + 0x1_0000_0000_0000_0000;
        }
        word
    }
}

/// The word that stands for an integer of one of the types.
pub fn word_of(x: i128) -> i64
    requires from { least Int ≤ℤ x }
    requires below { x ≤ℤ greatest (Sized U64) }
    ensures { result ≡ word_of x }
{
    if x <= 0x7FFF_FFFF_FFFF_FFFF {
        return x as i64;
    }
    (x - 0x1_0000_0000_0000_0000) as i64
}

ghost use Rattle.std.specs.Prelude.{◌≡◌};
ghost use Rattle.hy_base.specs.declared.refusal.Fault.TheVariants.{NoMemory};
ghost use Rattle.hy_base.specs.Rules.{name_of, text_of, place_of};

use crate::Span;
use std::alloc::{AllocError, AllocFailed};
use thiserror::Error;

/// Memory ran out. It is merged with no other answer, and nothing ties it to a particular cause.
#[derive(Clone, Copy, Debug, PartialEq, Eq, Error)]
#[error("out of memory")]
pub struct NoMemory;

impl From<AllocError> for NoMemory {
    fn from(_: AllocError) -> Self {
        NoMemory
    }
}

impl<T: Drop> From<AllocFailed<T>> for NoMemory {
    fn from(_: AllocFailed<T>) -> Self {
        NoMemory
    }
}

/// The rules by which a source is refused, in the order of `docs/REFUSALS.md`.
#[derive(Clone, Copy, Debug, PartialEq, Eq)]
pub enum Rule {
    Z1,
    L1,
    L2,
    L3,
    L4,
    P1,
    P2,
    N1,
    N2,
    N3,
    N4,
    N5,
    /// A form of the language that is not built yet. It goes when all forms are.
    X1,
    T1,
    T2,
    T3,
    T4,
    T5,
    T6,
    R1,
    R2,
    R3,
    R4,
    G1,
    G2,
    G3,
    C1,
    C2,
    C3,
    C4,
    Y1,
    Y2,
    Y3,
    Y4,
    Y5,
    I1,
    I2,
    I3,
    E1,
    E2,
}

impl Rule {
    /// Its name, as it is printed.
    pub fn name(self) -> &'static str
        ensures { result.now ≡ name_of self }
    {
        match self {
            Rule::Z1 => "Z1",
            Rule::L1 => "L1",
            Rule::L2 => "L2",
            Rule::L3 => "L3",
            Rule::L4 => "L4",
            Rule::P1 => "P1",
            Rule::P2 => "P2",
            Rule::N1 => "N1",
            Rule::N2 => "N2",
            Rule::N3 => "N3",
            Rule::N4 => "N4",
            Rule::N5 => "N5",
            Rule::X1 => "X1",
            Rule::T1 => "T1",
            Rule::T2 => "T2",
            Rule::T3 => "T3",
            Rule::T4 => "T4",
            Rule::T5 => "T5",
            Rule::T6 => "T6",
            Rule::R1 => "R1",
            Rule::R2 => "R2",
            Rule::R3 => "R3",
            Rule::R4 => "R4",
            Rule::G1 => "G1",
            Rule::G2 => "G2",
            Rule::G3 => "G3",
            Rule::C1 => "C1",
            Rule::C2 => "C2",
            Rule::C3 => "C3",
            Rule::C4 => "C4",
            Rule::Y1 => "Y1",
            Rule::Y2 => "Y2",
            Rule::Y3 => "Y3",
            Rule::Y4 => "Y4",
            Rule::Y5 => "Y5",
            Rule::I1 => "I1",
            Rule::I2 => "I2",
            Rule::I3 => "I3",
            Rule::E1 => "E1",
            Rule::E2 => "E2",
        }
    }

    /// What it says to the user, as `docs/REFUSALS.md` has it.
    pub fn text(self) -> &'static str
        ensures { result.now ≡ text_of self }
    {
        match self {
            Rule::Z1 => "source too long",
            Rule::L1 => "bad character",
            Rule::L2 => "open comment",
            Rule::L3 => "literal too large",
            Rule::L4 => "not UTF-8",
            Rule::P1 => "unexpected token",
            Rule::P2 => "nested too deep",
            Rule::N1 => "unknown name",
            Rule::N2 => "declared twice",
            Rule::N3 => "unknown type or trait",
            Rule::N4 => "unknown member",
            Rule::N5 => "there is no fun main()",
            Rule::X1 => "not built yet",
            Rule::T1 => "type differs",
            Rule::T2 => "no such member, labels or count",
            Rule::T3 => "type of endless size",
            Rule::T4 => "type argument not determined",
            Rule::T5 => "path without a result",
            Rule::T6 => "not copyable",
            Rule::R1 => "requirement missing",
            Rule::R2 => "signature differs",
            Rule::R3 => "bound not met",
            Rule::R4 => "conformance twice",
            Rule::G1 => "too many instances",
            Rule::G2 => "type too large",
            Rule::G3 => "program too large",
            Rule::C1 => "place is immutable",
            Rule::C2 => "mark missing or not wanted",
            Rule::C3 => "no such variant",
            Rule::C4 => "not a place",
            Rule::Y1 => "no yield on a path",
            Rule::Y2 => "two yields on a path",
            Rule::Y3 => "yield in a loop",
            Rule::Y4 => "yield outside a subscript",
            Rule::Y5 => "form of yield",
            Rule::I1 => "use of an unset place",
            Rule::I2 => "place unset at exit",
            Rule::I3 => "move not allowed",
            Rule::E1 => "overlaps a live projection",
            Rule::E2 => "accesses overlap",
        }
    }

    /// Its place in the table of `docs/REFUSALS.md`, from 0.
    pub fn place(self) -> u8
        ensures { result ≡ place_of self }
    {
        match self {
            Rule::Z1 => 0,
            Rule::L1 => 1,
            Rule::L2 => 2,
            Rule::L3 => 3,
            Rule::L4 => 4,
            Rule::P1 => 5,
            Rule::P2 => 6,
            Rule::N1 => 7,
            Rule::N2 => 8,
            Rule::N3 => 9,
            Rule::N4 => 10,
            Rule::N5 => 11,
            Rule::X1 => 12,
            Rule::T1 => 13,
            Rule::T2 => 14,
            Rule::T3 => 15,
            Rule::T4 => 16,
            Rule::T5 => 17,
            Rule::T6 => 18,
            Rule::R1 => 19,
            Rule::R2 => 20,
            Rule::R3 => 21,
            Rule::R4 => 22,
            Rule::G1 => 23,
            Rule::G2 => 24,
            Rule::G3 => 25,
            Rule::C1 => 26,
            Rule::C2 => 27,
            Rule::C3 => 28,
            Rule::C4 => 29,
            Rule::Y1 => 30,
            Rule::Y2 => 31,
            Rule::Y3 => 32,
            Rule::Y4 => 33,
            Rule::Y5 => 34,
            Rule::I1 => 35,
            Rule::I2 => 36,
            Rule::I3 => 37,
            Rule::E1 => 38,
            Rule::E2 => 39,
        }
    }
}

/// Why a pass gives no value: the first rule that the source breaks, with where, or want of memory.
#[derive(Clone, Copy, Debug, PartialEq, Eq, Error)]
pub enum Fault {
    #[error("the source breaks a rule")]
    Refused(Rule, Span),
    #[error("out of memory")]
    NoMemory,
}

impl From<AllocError> for Fault {
    ghost from_gives = { λ _ fault. fault ≡ NoMemory };

    fn from(_: AllocError) -> Self {
        Fault::NoMemory
    }
}

impl<T: Drop> From<AllocFailed<T>> for Fault {
    ghost from_gives = { λ _ fault. fault ≡ NoMemory };

    fn from(_: AllocFailed<T>) -> Self {
        Fault::NoMemory
    }
}

impl From<NoMemory> for Fault {
    ghost from_gives = { λ _ fault. fault ≡ NoMemory };

    fn from(_: NoMemory) -> Self {
        Fault::NoMemory
    }
}

// What a table knows of the words of its types.
ghost use Rattle.std.specs.Map.{lookup};
ghost use Rattle.std.specs.Prelude.{◌≡◌, ◌==◌, ◌<◌, ◌≤◌, ℕ, List, Some, length, slice_get, count_by, Contains, true, false};
ghost use Rattle.hy_types.specs.Types.{Table, AllBelow, row_at, mentioned};
ghost use Rattle.hy_types.specs.Sizes.{is_pending, plus, AreRight, IsRightTogether, IsRightFor, AreSettled};
ghost use Rattle.hy_types.specs.declared.kinds.TyId.{TyId};
ghost use Rattle.hy_types.specs.declared.kinds.Ty.{Ty};

use crate::kinds::{Ty, TyId};
use crate::list::TyList;
use indexmap::IndexMap;

/// The words that a type may take.
const MOST_WORDS: u32 = 4096;

/// What is known of the words of a type.
#[derive(Clone, Copy, PartialEq, Eq, Debug, Drop)]
pub enum Size {
    /// Nothing: a product that it holds is not declared, or it is endless.
    Pending,
    /// It holds a parameter outside arrays.
    Parameter,
    /// It takes more words than a type may.
    Large,
    /// The words that it takes, as many as a type may at most.
    Words(u32),
}

impl Size {
    fn is_pending(self) -> bool
        ensures { result ≡ is_pending self }
    {
        match self {
            Size::Pending => true,
            Size::Parameter | Size::Large | Size::Words(_) => false,
        }
    }

    // What is known of two types together.
    fn plus(self, other: Size) -> Size
        ensures { result ≡ plus self other }
    {
        match (self, other) {
            (Size::Parameter, _) | (_, Size::Parameter) => Size::Parameter,
            (Size::Pending, _) | (_, Size::Pending) => Size::Pending,
            (Size::Large, _) | (_, Size::Large) => Size::Large,
            (Size::Words(first), Size::Words(second)) => words_or_large(first, second),
        }
    }
}

// The words of two types together, or that they are more than a type may take.
fn words_or_large(first: u32, second: u32) -> Size
    ensures { result ≡ plus (Size.Words first) (Size.Words second) }
{
    if first <= MOST_WORDS && second <= MOST_WORDS - first {
        return Size::Words(first + second);
    }
    Size::Large
}

/// What is known of types together, from what is known of each.
pub fn total(sizes: &[Size], parts: &[TyId]) -> Size
    requires { AllBelow (length sizes.now) parts.now }
    ensures { (table : Table) → AreRight table sizes.now → IsRightTogether table sizes.now parts.now result }
{
    let mut sum = Size::Words(0);
    for part in parts {
        sum = sum.plus(sizes[part.at as usize]);
    }
    sum
}

/// What is known of a row, from what is known of the types that it speaks of and the products that are declared.
pub fn size_of(sizes: &[Size], products: &IndexMap<u32, TyList>, row: &Ty) -> Size
    requires mentioned { AllBelow (length sizes.now) (mentioned row.now) }
    requires parts { (product : ℕ) (ids : List TyId) → lookup (λ other. product == other) products.now.entries ≡ Some ids → AllBelow (length sizes.now) ids }
    ensures { (table : Table) (id : TyId) → table.products ≡ products.now.entries → AreRight table sizes.now → row_at table id ≡ Some row.now
        → IsRightFor table sizes.now id row.now result }
{
    match row {
        Ty::Int | Ty::Bool => Size::Words(1),
        Ty::Sized(_) => Size::Words(1),
        Ty::Array(_) => Size::Words(2),
        Ty::Param(_) => Size::Parameter,
        Ty::Tuple(parts) => total(sizes, parts.as_slice()),
        Ty::Product(declaration) => match products.get(declaration) {
            Some(parts) => total(sizes, parts.as_slice()),
            None => Size::Pending,
        },
    }
}

// Makes out what it can of the types of which nothing is known, in one pass, and says whether there was something.
fn settle_once(sizes: &mut [Size], products: &IndexMap<u32, TyList>, types: &[Ty]) -> bool
    requires long { length sizes.old ≡ length types.now }
    requires mentioned { (row : Ty) → Contains types.now row → AllBelow (length types.now) (mentioned row) }
    requires parts { (product : ℕ) (ids : List TyId) → lookup (λ other. product == other) products.now.entries ≡ Some ids → AllBelow (length types.now) ids }
    ensures right { (table : Table) → table.products ≡ products.now.entries → table.types ≡ types.now → AreRight table sizes.old → AreRight table sizes.new }
    ensures fewer { result ≡ true → count_by is_pending sizes.new < count_by is_pending sizes.old }
    ensures settled { result ≡ false → (table : Table) → table.products ≡ products.now.entries → table.types ≡ types.now → AreRight table sizes.old
        → AreSettled table sizes.new }
{
    let mut changed = false;
    for place in 0..types.len() {
        if sizes[place].is_pending() {
            let size = size_of(sizes, products, &types[place]);
            if !size.is_pending() {
                sizes[place] = size;
                changed = true;
            }
        }
    }
    changed
}

/// Makes out all that can be known of the types of which nothing is known.
pub fn settle(sizes: &mut [Size], products: &IndexMap<u32, TyList>, types: &[Ty])
    requires long { length sizes.old ≡ length types.now }
    requires mentioned { (row : Ty) → Contains types.now row → AllBelow (length types.now) (mentioned row) }
    requires parts { (product : ℕ) (ids : List TyId) → lookup (λ other. product == other) products.now.entries ≡ Some ids → AllBelow (length types.now) ids }
    ensures { (table : Table) → table.products ≡ products.now.entries → table.types ≡ types.now → AreRight table sizes.old → AreRight table sizes.new
        × AreSettled table sizes.new }
{
    loop {
        if !settle_once(sizes, products, types) {
            break;
        }
    }
}

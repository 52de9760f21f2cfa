// Matching of types: types for the parameters of one that make it another.
ghost use Rattle.std.specs.Prelude.{◌≡◌, ◌<◌, ◌↔◌, ℕ, Option, Some, None, true, false, IfOk, OnErr, length, slice_get, replicate};
ghost use Rattle.hy_types.specs.Types.{Table, HasId, HasIds, AllBelow, type_of, PlainType, plain_types};
ghost use Rattle.hy_types.specs.declared.kinds.TyId.{TyId};
ghost use Rattle.hy_types.specs.Matching.{ParametersBelow, AllParametersBelow, MatchesAll, Agrees, AreFound, StillFound, Makes, Matches, Fills};

use crate::kinds::{Ty, TyId};
use crate::table::TyTable;
use hy_base::NoMemory;
use std::alloc::Global;
use std::marker::Model;

/// What matching has found for each parameter, in order: its type, or nothing yet.
#[derive(Debug, Drop)]
pub struct Found {
    places: Vec<Option<TyId>>,
}

impl Model for Found {
    ghost use Rattle.std.specs.Prelude.{List, Option};
    ghost use Rattle.hy_types.specs.declared.kinds.TyId.{TyId};

    ghost Value = { List (Option TyId) };

    ghost view = { λ found. found.places.items };
}

impl Found {
    /// Nothing for each of `count` parameters.
    pub fn new(alloc: Global, count: u32) -> Result<Found, NoMemory>
        ensures { IfOk result (λ found. found ≡ replicate count None) }
    {
        let places = vec![in alloc; None; count as usize]?;
        Ok(Found { places })
    }

    /// The type that was found for the parameter `place`.
    pub fn at(&self, place: u32) -> Option<TyId>
        requires { place < length self.now }
        ensures { slice_get self.now place ≡ Some result }
    {
        self.places[place as usize]
    }

    fn copy(&self, alloc: Global) -> Result<Found, NoMemory>
        ensures { IfOk result (λ found. found ≡ self.now) }
    {
        let places = Vec::from_slice(alloc, self.places.as_slice())?;
        Ok(Found { places })
    }

    // Keeps a type for a parameter, where there is none yet, and says whether it is the one that is there then.
    fn fill(&mut self, place: u32, id: TyId) -> bool
        requires { place < length self.old }
        ensures filled { (before : Option TyId) → slice_get self.old place ≡ Some before → Fills place id before result self.old self.new }
        ensures places { length self.new ≡ length self.old }
    {
        match self.places[place as usize] {
            None => {
                self.places[place as usize] = Some(id);
                true
            }
            Some(other) => other == id,
        }
    }
}

impl TyTable {
    /// Whether there are types for the parameters of `wanted` that make it `given`, whose own parameters stay as they are.
    /// What was found before counts, and what is found is kept. On `false` and on a refusal `found` is as before.
    pub fn matches(&self, wanted: TyId, given: TyId, found: &mut Found) -> Result<bool, NoMemory>
        requires wanted { HasId self.now wanted }
        requires given { HasId self.now given }
        requires found { AreFound self.now found.old }
        requires places { ParametersBelow (length found.old) (type_of self.now wanted) }
        ensures exactly { IfOk result (λ matched. (matched ≡ true) ↔ ((types : ℕ → PlainType) × Makes self.now found.old wanted given types)) }
        ensures found { IfOk result (λ matched. Matches self.now wanted given found.old matched found.new) }
        ensures unmatched { IfOk result (λ matched. matched ≡ false → found.new ≡ found.old) }
        ensures refused { OnErr result (found.new ≡ found.old) }
        ensures kept { StillFound found.old found.new }
        ensures known { AreFound self.now found.new }
        ensures places { length found.new ≡ length found.old }
    {
        let mut trial = found.copy(self.allocator())?;
        if !self.extend(wanted, given, &mut trial) {
            return Ok(false);
        }
        *found = trial;
        Ok(true)
    }

    // Adds to what was found what makes one type the other, or says that nothing does.
    #[cycle(extending)]
    fn extend(&self, wanted: TyId, given: TyId, found: &mut Found) -> bool
        requires wanted { HasId self.now wanted }
        requires given { HasId self.now given }
        requires found { AreFound self.now found.old }
        requires places { ParametersBelow (length found.old) (type_of self.now wanted) }
        ensures found { Matches self.now wanted given found.old result found.new }
        ensures kept { StillFound found.old found.new }
        ensures known { AreFound self.now found.new }
        ensures places { length found.new ≡ length found.old }
    {
        let other = self.get(given);
        match self.get(wanted) {
            Ty::Int | Ty::Sized(_) | Ty::Bool | Ty::Product(_) => wanted == given,
            Ty::Param(place) => found.fill(*place, given),
            Ty::Array(element) => match other {
                Ty::Array(other) => self.extend(*element, *other, found),
                Ty::Int | Ty::Sized(_) | Ty::Bool | Ty::Tuple(_) | Ty::Product(_) | Ty::Param(_) =>
                    false,
            },
            Ty::Tuple(parts) => match other {
                Ty::Tuple(others) => self.extend_all(parts.as_slice(), others.as_slice(), found),
                Ty::Int | Ty::Sized(_) | Ty::Bool | Ty::Array(_) | Ty::Product(_) | Ty::Param(_) =>
                    false,
            },
        }
    }

    // The same for lists of types, place by place.
    #[cycle(extending)]
    fn extend_all(&self, wanted: &[TyId], given: &[TyId], found: &mut Found) -> bool
        requires wanted { HasIds self.now wanted.now }
        requires given { HasIds self.now given.now }
        requires found { AreFound self.now found.old }
        requires places { AllParametersBelow (length found.old) (plain_types (type_of self.now) wanted.now) }
        ensures found { MatchesAll self.now wanted.now given.now found.old result found.new }
        ensures kept { StillFound found.old found.new }
        ensures known { AreFound self.now found.new }
        ensures places { length found.new ≡ length found.old }
    {
        if wanted.len() != given.len() {
            return false;
        }
        for place in 0..wanted.len() {
            if !self.extend(wanted[place], given[place], found) {
                return false;
            }
        }
        true
    }
}

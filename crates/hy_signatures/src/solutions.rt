// Types for type parameters, from left to right.
ghost use Rattle.std.specs.Prelude.{◌≡◌, ◌==◌, ℕ, IfOk, OnOk, Some, None, cond, false, map};
ghost use Rattle.hy_types.specs.Types.{HasId, HasIds, plain_types, type_of};
ghost use Rattle.hy_signatures.specs.PlainTypes.{fill};
ghost use Rattle.hy_signatures.specs.Signatures.{solved};
ghost use Rattle.hy_signatures.specs.SignaturesShown.{AreWanted, parameter_shown};
ghost use Rattle.hy_signatures.specs.WantedShown.{wanted_shown, IsWanted};
ghost use Rattle.hy_signatures.specs.SolutionShown.{AreFound, Fits, Matches, MatchesAll, found_shown, number_found};

use crate::signatures::Parameter;
use crate::types::Types;
use crate::wanted::Wanted;
use hy_base::NoMemory;
use hy_types::{Ty, TyId};
use indexmap::IndexMap;
use std::alloc::Global;

/// The types that are found for type parameters, by their places.
#[derive(Drop)]
pub struct Solution {
    places: IndexMap<u32, TyId>,
}

impl Solution {
    /// Nothing is found.
    pub fn new(alloc: Global) -> Solution
        ensures { (place : ℕ) → number_found result place ≡ None }
    {
        Solution {
            places: IndexMap::new(alloc),
        }
    }

    /// The type that is found for a type parameter.
    pub fn at(&self, place: u32) -> Option<TyId>
        ensures { result ≡ number_found self.now place }
    {
        self.places.get(&place).copied()
    }

    /// The same types.
    fn copy(&self) -> Result<Solution, NoMemory>
        ensures { IfOk result (λ copy. copy.places.entries ≡ self.now.places.entries) }
    {
        let places = self.places.clone()?;
        Ok(Solution { places })
    }

    /// Keeps a type for a type parameter.
    fn put(&mut self, place: u32, id: TyId) -> Result<(), NoMemory>
        ensures { OnOk result ((other : ℕ) → number_found self.new other ≡ cond (place == other) (Some id) (number_found self.old other)) }
    {
        self.places.insert(place, id)?;
        Ok(())
    }
}

impl Types {
    /// Keeps a type for a type parameter, where none is found yet, and says whether it is the one that is found.
    fn fill(&self, place: u32, given: TyId, found: &mut Solution) -> Result<bool, NoMemory>
        requires given { HasId self.now given }
        requires found { AreFound self.now found.old }
        ensures found { IfOk result (λ answer. fill place (type_of self.now given) (found_shown self.now found.old place) (found_shown self.now found.old)
            ≡ cond answer (Some (found_shown self.now found.new)) None) }
        ensures known { OnOk result (AreFound self.now found.new) }
    {
        match found.at(place) {
            Some(id) => Ok(self.same(id, given)),
            None => {
                found.put(place, given)?;
                Ok(true)
            }
        }
    }

    /// Looks for types for the type parameters of `wanted` that make it `given`, whose own parameters are fixed types.
    #[cycle(matching)]
    pub fn matches(&self, wanted: TyId, given: TyId, found: &mut Solution) -> Result<bool, NoMemory>
        requires wanted { HasId self.now wanted }
        requires given { HasId self.now given }
        requires found { AreFound self.now found.old }
        ensures found { IfOk result (λ answer. Matches self.now (type_of self.now wanted) (type_of self.now given) found.old answer found.new) }
        ensures known { OnOk result (AreFound self.now found.new) }
    {
        let other = self.get(given);
        match self.get(wanted) {
            Ty::Int | Ty::Sized(_) | Ty::Bool | Ty::Product(_) => Ok(self.same(wanted, given)),
            Ty::Param(place) => self.fill(*place, given, found),
            Ty::Array(element) => match other {
                Ty::Array(other) => self.matches(*element, *other, found),
                Ty::Int | Ty::Sized(_) | Ty::Bool | Ty::Tuple(_) | Ty::Product(_) | Ty::Param(_) =>
                    Ok(false),
            },
            Ty::Tuple(parts) => match other {
                Ty::Tuple(others) => self.all_match(parts.as_slice(), others.as_slice(), found),
                Ty::Int | Ty::Sized(_) | Ty::Bool | Ty::Array(_) | Ty::Product(_) | Ty::Param(_) =>
                    Ok(false),
            },
        }
    }

    #[cycle(matching)]
    fn all_match(
        &self,
        wanted: &[TyId],
        given: &[TyId],
        found: &mut Solution,
    ) -> Result<bool, NoMemory>
        requires wanted { HasIds self.now wanted.now }
        requires given { HasIds self.now given.now }
        requires found { AreFound self.now found.old }
        ensures found { IfOk result (λ answer. MatchesAll self.now (plain_types (type_of self.now) wanted.now) (plain_types (type_of self.now) given.now)
            found.old answer found.new) }
        ensures known { OnOk result (AreFound self.now found.new) }
    {
        if wanted.len() != given.len() {
            return Ok(false);
        }
        for k in 0..wanted.len() {
            if !self.matches(wanted[k], given[k], found)? {
                return Ok(false);
            }
        }
        Ok(true)
    }

    /// Looks for types that make a given type a wanted one. `found` stays as it is where there are none.
    pub fn fit(&self, wanted: Wanted, given: TyId, found: &mut Solution) -> Result<bool, NoMemory>
        requires wanted { IsWanted self.now wanted }
        requires given { HasId self.now given }
        requires found { AreFound self.now found.old }
        ensures found { IfOk result (λ answer. Fits self.now (wanted_shown self.now wanted) (type_of self.now given) found.old answer found.new) }
        ensures unfit { IfOk result (λ answer. answer ≡ false → found.new ≡ found.old) }
        ensures known { OnOk result (AreFound self.now found.new) }
    {
        match wanted {
            Wanted::Exactly(id) => self.fit_exactly(id, given, found),
            Wanted::Integer => Ok(self.is_integer(given)),
            Wanted::Signed => Ok(self.is_signed(given)),
            Wanted::IntegerOrTruth => Ok(self.is_integer(given) || self.is_truth(given)),
        }
    }

    fn fit_exactly(&self, wanted: TyId, given: TyId, found: &mut Solution) -> Result<bool, NoMemory>
        requires wanted { HasId self.now wanted }
        requires given { HasId self.now given }
        requires found { AreFound self.now found.old }
        ensures found { IfOk result (λ answer. Matches self.now (type_of self.now wanted) (type_of self.now given) found.old answer found.new) }
        ensures unfit { IfOk result (λ answer. answer ≡ false → found.new ≡ found.old) }
        ensures known { OnOk result (AreFound self.now found.new) }
    {
        let mut trial = found.copy()?;
        if !self.matches(wanted, given, &mut trial)? {
            return Ok(false);
        }
        *found = trial;
        Ok(true)
    }

    /// Looks for types that make all given types wanted ones, from left to right.
    pub fn solve(
        &self,
        params: &[Parameter],
        given: &[TyId],
        found: &mut Solution,
    ) -> Result<bool, NoMemory>
        requires params { AreWanted self.now params.now }
        requires given { HasIds self.now given.now }
        requires found { AreFound self.now found.old }
        ensures found { IfOk result (λ answer. solved (map (parameter_shown self.now) params.now) (map (type_of self.now) given.now)
            (found_shown self.now found.old) ≡ cond answer (Some (found_shown self.now found.new)) None) }
        ensures known { OnOk result (AreFound self.now found.new) }
    {
        if params.len() != given.len() {
            return Ok(false);
        }
        for k in 0..params.len() {
            if !self.fit(params[k].wanted, given[k], found)? {
                return Ok(false);
            }
        }
        Ok(true)
    }
}

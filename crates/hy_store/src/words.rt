// Instructions on words: constants, arithmetic, comparisons, copies and moves.
ghost use Rattle.std.specs.Prelude.{◌≡◌, ◌∷◌, [], ℤ};
ghost use Rattle.hy_base.specs.declared.run.End.TheVariants as end;
ghost use Rattle.hy_object.specs.Checks.{span_of};
ghost use Rattle.hy_object.specs.States.{nth};
ghost use Rattle.hy_object.specs.Words.{const, calculate, compare, copy, demand, invert, move, negate};
ghost use Rattle.hy_store.specs.Cells.{Word};
ghost use Rattle.hy_store.specs.Memory.{live, HasCells};
ghost use Rattle.hy_store.specs.Executes.{InPlace, MayRunOut, StoreExecutes, calculated, compared};
ghost use Rattle.hy_store.specs.Represents.{RepresentsSome, Stores};
ghost use Rattle.hy_store.specs.declared.halt.Halt.TheVariants.{Ended};

use crate::cell::Cell;
use crate::halt::Halt;
use crate::numbers::{self, Comparison, Operation};
use crate::reach::{may_read, may_write};
use crate::store::{Store, check};
use hy_base::{End, Span, TrapKind};
use hy_object::{Fun, Kind, Object, Place};
use std::alloc::Global;

/// The trap at the span with that number.
#[tactic(auto, using(crate::proofs::Rows::nth_get))]
pub fn trap(object: &Object, why: TrapKind, span: u32) -> Halt
    ensures { result ≡ Ended (end.Trap why (span_of (nth object.now.spans span))) }
{
    let at = match object.spans.get(span as usize) {
        Some(at) => *at,
        None => Span { from: 0, to: 0 },
    };
    Halt::Ended(End::Trap(why, at))
}

impl Store {
    /// Stores a word.
    pub fn constant(&mut self, fun: &Fun, to: u32, value: i64) -> Result<(), Halt>
        requires { RepresentsSome self.old fun.now }
        ensures { StoreExecutes InPlace fun.now self.old self.new result (λ s. const s to value) }
    {
        let reach = self.to_word(fun, to)?;
        check(self.is_nameless(fun, reach), Kind::Lost)?;
        self.put(reach, &[Cell::Word(value)]);
        Ok(())
    }

    /// Computes a word of two, or traps.
    pub fn calculate(
        &mut self,
        object: &Object,
        fun: &Fun,
        operation: Operation,
        to: u32,
        a: u32,
        b: u32,
        span: u32,
    ) -> Result<(), Halt>
        requires { RepresentsSome self.old fun.now }
        ensures { StoreExecutes InPlace fun.now self.old self.new result (λ s. calculate object.now s to a b span (calculated operation)) }
    {
        let reach = self.to_word(fun, to)?;
        let m = self.read_word(fun, a)?;
        let n = self.read_word(fun, b)?;
        check(self.is_nameless(fun, reach), Kind::Lost)?;
        match numbers::calculate(operation, m, n) {
            Ok(value) => {
                self.put(reach, &[Cell::Word(value)]);
                Ok(())
            }
            Err(why) => Err(trap(object, why, span)),
        }
    }

    /// Turns the sign of a word, or traps.
    pub fn negate(
        &mut self,
        object: &Object,
        fun: &Fun,
        to: u32,
        a: u32,
        span: u32,
    ) -> Result<(), Halt>
        requires { RepresentsSome self.old fun.now }
        ensures { StoreExecutes InPlace fun.now self.old self.new result (λ s. negate object.now s to a span) }
    {
        let reach = self.to_word(fun, to)?;
        let n = self.read_word(fun, a)?;
        check(self.is_nameless(fun, reach), Kind::Lost)?;
        match numbers::negate(n) {
            Ok(value) => {
                self.put(reach, &[Cell::Word(value)]);
                Ok(())
            }
            Err(why) => Err(trap(object, why, span)),
        }
    }

    /// Stores whether it holds of two words.
    pub fn compare(
        &mut self,
        fun: &Fun,
        comparison: Comparison,
        to: u32,
        a: u32,
        b: u32,
    ) -> Result<(), Halt>
        requires { RepresentsSome self.old fun.now }
        ensures { StoreExecutes InPlace fun.now self.old self.new result (λ s. compare s to a b (compared comparison)) }
    {
        let reach = self.to_word(fun, to)?;
        let m = self.read_word(fun, a)?;
        let n = self.read_word(fun, b)?;
        check(self.is_nameless(fun, reach), Kind::Lost)?;
        let value = numbers::truth(numbers::compare(comparison, m, n));
        self.put(reach, &[Cell::Word(value)]);
        Ok(())
    }

    /// Stores whether a word is 0.
    pub fn invert(&mut self, fun: &Fun, to: u32, a: u32) -> Result<(), Halt>
        requires { RepresentsSome self.old fun.now }
        ensures { StoreExecutes InPlace fun.now self.old self.new result (λ s. invert s to a) }
    {
        let reach = self.to_word(fun, to)?;
        let n = self.read_word(fun, a)?;
        check(self.is_nameless(fun, reach), Kind::Lost)?;
        let value = numbers::truth(numbers::is_zero(n));
        self.put(reach, &[Cell::Word(value)]);
        Ok(())
    }

    /// Copies plain words; all are read before one is stored.
    pub fn copy(
        &mut self,
        alloc: Global,
        fun: &Fun,
        to: Place,
        from: Place,
        words: u32,
    ) -> Result<(), Halt>
        requires { RepresentsSome self.old fun.now }
        ensures { StoreExecutes MayRunOut fun.now self.old self.new result (λ s. copy s to from words) }
    {
        let x = self.reach(fun, to, words)?;
        check(may_write(&self.opened.accesses, x), Kind::Access)?;
        let y = self.reach(fun, from, words)?;
        check(may_read(&self.opened.accesses, y), Kind::Access)?;
        check(self.is_whole(fun, y), Kind::Unset)?;
        check(self.is_nameless(fun, y), Kind::Kind)?;
        check(self.is_nameless(fun, x), Kind::Lost)?;
        let row = self.copied(alloc, y)?;
        self.put(x, row.as_slice());
        Ok(())
    }

    /// Moves cells; where they were is unset.
    pub fn move_cells(
        &mut self,
        alloc: Global,
        fun: &Fun,
        to: Place,
        from: Place,
        words: u32,
    ) -> Result<(), Halt>
        requires { RepresentsSome self.old fun.now }
        ensures { StoreExecutes MayRunOut fun.now self.old self.new result (λ s. move s to from words) }
    {
        let x = self.reach(fun, to, words)?;
        check(may_write(&self.opened.accesses, x), Kind::Access)?;
        let y = self.reach(fun, from, words)?;
        check(!x.range.meets(&y.range), Kind::Range)?;
        check(may_write(&self.opened.accesses, y), Kind::Access)?;
        check(self.is_whole(fun, y), Kind::Unset)?;
        check(self.is_nameless(fun, x), Kind::Lost)?;
        self.transfer(alloc, y, x)?;
        Ok(())
    }

    /// Traps where a word is 0.
    pub fn demand(&self, object: &Object, fun: &Fun, word: u32, span: u32) -> Result<(), Halt>
        requires { RepresentsSome self.now fun.now }
        ensures { StoreExecutes InPlace fun.now self.now self.now result (λ s. demand object.now s word span) }
    {
        let n = self.read_word(fun, word)?;
        if numbers::is_zero(n) {
            return Err(trap(object, TrapKind::Precondition, span));
        }
        Ok(())
    }
}

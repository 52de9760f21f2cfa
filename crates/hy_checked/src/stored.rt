// Instructions that change the store, after which the next instruction of the same activation follows.
ghost use Rattle.std.specs.Prelude.{◌≡◌, length};
ghost use Rattle.hy_object.specs.Grammar.{IsInstr, bounds_of};
ghost use Rattle.hy_object.specs.Steps.{does};
ghost use Rattle.hy_store.specs.Executes.{StoreExecutes};
ghost use Rattle.hy_store.specs.Represents.{RepresentsSome};
ghost use Rattle.hy_checked.specs.Instructions.{Arrays, ComesTo, Words, memory_of, part_of};

use hy_object::{Fun, Instr, Object};
use hy_store::{Comparison, Exchange, Halt, Operation, Store};
use std::alloc::Global;

/// Does an instruction that changes the store alone: one on words, or one of those below.
pub fn on_store(
    store: &mut Store,
    alloc: Global,
    object: &Object,
    fun: &Fun,
    instr: Instr,
) -> Result<(), Halt>
    requires represented { RepresentsSome store.old fun.now }
    requires comes { ComesTo Words (part_of instr) }
    requires allowed { IsInstr (bounds_of (length object.now.spans) (length object.now.funs) fun.now) instr }
    ensures { StoreExecutes (memory_of instr) fun.now store.old store.new result (λ s. does object.now s instr) }
{
    match instr {
        Instr::Const { to, value } => store.constant(fun, to, value),
        Instr::Copy { to, from, words } => store.copy(alloc, fun, to, from, words),
        Instr::Move { to, from, words } => store.move_cells(alloc, fun, to, from, words),
        Instr::Neg { to, a, span } => store.negate(object, fun, to, a, span),
        Instr::Eq { to, a, b } => store.compare(fun, Comparison::Eq, to, a, b),
        Instr::Lt { to, a, b } => store.compare(fun, Comparison::Lt, to, a, b),
        Instr::Le { to, a, b } => store.compare(fun, Comparison::Le, to, a, b),
        Instr::Not { to, a } => store.invert(fun, to, a),
        Instr::Check { word, span } => store.demand(object, fun, word, span),
        Instr::Add { to, a, b, span } => store.calculate(
            object,
            fun,
            Operation::Add,
            to,
            a,
            b,
            span,
        ),
        Instr::Sub { to, a, b, span } => store.calculate(
            object,
            fun,
            Operation::Sub,
            to,
            a,
            b,
            span,
        ),
        Instr::Mul { to, a, b, span } => store.calculate(
            object,
            fun,
            Operation::Mul,
            to,
            a,
            b,
            span,
        ),
        Instr::Div { to, a, b, span } => store.calculate(
            object,
            fun,
            Operation::Div,
            to,
            a,
            b,
            span,
        ),
        Instr::Rem { to, a, b, span } => store.calculate(
            object,
            fun,
            Operation::Rem,
            to,
            a,
            b,
            span,
        ),
        other => on_arrays(store, alloc, object, fun, other),
    }
}

// Does an instruction on arrays and accesses.
fn on_arrays(
    store: &mut Store,
    alloc: Global,
    object: &Object,
    fun: &Fun,
    instr: Instr,
) -> Result<(), Halt>
    requires represented { RepresentsSome store.old fun.now }
    requires comes { ComesTo Arrays (part_of instr) }
    requires allowed { IsInstr (bounds_of (length object.now.spans) (length object.now.funs) fun.now) instr }
    ensures { StoreExecutes (memory_of instr) fun.now store.old store.new result (λ s. does object.now s instr) }
{
    match instr {
        Instr::NewArray { array } => store.new_array(alloc, fun, array),
        Instr::FreeArray { array } => store.free_array(fun, array),
        Instr::Count { to, array } => store.count(fun, to, array),
        Instr::Grow { array, width } => store.grow(alloc, fun, array, width),
        Instr::Push { array, word, width } => store.push(alloc, fun, array, word, width),
        Instr::Pop {
            array,
            word,
            width,
            span,
        } => store.pop(alloc, object, fun, array, word, width, span),
        Instr::Swap {
            array,
            i,
            j,
            width,
            span_i,
            span_j,
        } => {
            let exchange = Exchange {
                place: array,
                i,
                j,
                width,
                span_i,
                span_j,
            };
            store.swap(alloc, object, fun, exchange)
        }
        Instr::Lend {
            slot,
            place,
            words,
            way,
        } => store.lend(fun, slot, place, words, way),
        Instr::Elem {
            slot,
            array,
            index,
            width,
            way,
            span,
        } => store.lend_element(object, fun, slot, array, index, width, way, span),
        _ => unreachable!(),
    }
}

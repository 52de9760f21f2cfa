// What memory holds after a call, and one instruction from the start of a run.
ghost use Rattle.std.specs.Prelude.{◌≡◌};

use hy_base::{NoMemory, TrapKind};
use hy_object::{Fun, Place, Way};
use hy_store::{Blocks, Cell, Halt, Operation, Slot, Store, calculate};
use sqlite_items::Items;
use std::alloc::Global;
use std::test::Fail;

fn main_of(alloc: Global) -> Fun
    ensures words { result.words ≡ 2 }
    ensures slots { result.slots ≡ 1 }
{
    Fun {
        accesses: 0,
        owned: 0,
        result: 0,
        words: 2,
        slots: 1,
        code: Items::new(alloc),
    }
}

#[test]
fn a_block_is_kept_until_it_is_freed(rt: HostRuntime) -> Result<(), Fail> {
    let mut blocks = Blocks::new(rt.alloc());
    let live_at_first = blocks.is_live(3);
    let cells = vec![in rt.alloc(); Cell::Word(-5), Cell::Unset, Cell::Unset]?;
    blocks.take(3, cells).map_err(|_: NoMemory| "no memory")?;
    let kept = blocks.cells(3) == Some([Cell::Word(-5), Cell::Unset, Cell::Unset].as_slice());
    blocks.free(3);
    let gone = blocks.cells(3).is_none();
    assert_eq!(rt; (live_at_first, kept, gone), (false, true, true));
    Ok(())
}

#[test]
fn a_word_is_stored(rt: HostRuntime) -> Result<(), Fail> {
    let main = main_of(rt.alloc());
    let Ok(mut store) = Store::begin(rt.alloc(), &main) else {
        return Err(Fail::from("no memory"));
    };
    let answer = store.constant(&main, 1, 7);
    let stored = store.blocks.cells(0) == Some([Cell::Unset, Cell::Word(7)].as_slice());
    assert_eq!(rt; (answer, stored), (Ok(()), true));
    Ok(())
}

#[test]
fn a_word_is_lent(rt: HostRuntime) -> Result<(), Fail> {
    let main = main_of(rt.alloc());
    let Ok(mut store) = Store::begin(rt.alloc(), &main) else {
        return Err(Fail::from("no memory"));
    };
    let place = Place { base: 0, offset: 1 };
    let answer = store.lend(&main, 0, place, 1, Way::Write);
    let after = (store.frames.slot(0, 0), store.counts.opened);
    assert_eq!(rt; (answer, after), (Ok(()), (Slot::Filled(0), 1)));
    Ok(())
}

#[test]
fn an_access_is_closed(rt: HostRuntime) -> Result<(), Fail> {
    let main = main_of(rt.alloc());
    let Ok(mut store) = Store::begin(rt.alloc(), &main) else {
        return Err(Fail::from("no memory"));
    };
    let lent_at_first = store.was_lent(&main, 0, 1, 0);
    let place = Place { base: 0, offset: 1 };
    let Ok(()) = store.lend(&main, 0, place, 1, Way::Write) else {
        return Err(Fail::from("no memory"));
    };
    let answer = store.close(&main, 0, false);
    let gone = store.opened.find(0).is_none();
    let after = (store.frames.slot(0, 0), store.counts.closed, gone);
    assert_eq!(rt;
        (lent_at_first, answer, after),
        (false, Ok(()), (Slot::Empty, 1, true))
    );
    Ok(())
}

#[test]
fn words_outside_the_frame_are_stuck(rt: HostRuntime) -> Result<(), Fail> {
    let main = main_of(rt.alloc());
    let Ok(mut store) = Store::begin(rt.alloc(), &main) else {
        return Err(Fail::from("no memory"));
    };
    let place = Place { base: 0, offset: 1 };
    assert_eq!(rt;
        store.lend(&main, 0, place, 2, Way::Read),
        Err(Halt::Stuck(hy_object::Kind::Range))
    );
    Ok(())
}

#[test]
fn an_unset_word_is_stuck(rt: HostRuntime) -> Result<(), Fail> {
    let main = main_of(rt.alloc());
    let Ok(store) = Store::begin(rt.alloc(), &main) else {
        return Err(Fail::from("no memory"));
    };
    assert_eq!(rt; store.read_word(&main, 0), Err(hy_object::Kind::Unset));
    Ok(())
}

#[test]
fn numbers_trap_where_they_do_not_fit(rt: HostRuntime) -> Result<(), Fail> {
    let rows = [
        (Operation::Add, i64::MAX, 1, Err(TrapKind::Overflow)),
        (Operation::Rem, i64::MIN, -1, Err(TrapKind::Overflow)),
        (Operation::Div, 7, 0, Err(TrapKind::Divide)),
        (Operation::Div, -7, 2, Ok(-3)),
        (Operation::Rem, -7, 2, Ok(-1)),
    ];
    for (operation, a, b, want) in rows {
        assert_eq!(rt; calculate(operation, a, b), want);
    }
    Ok(())
}

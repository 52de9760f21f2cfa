// What live accesses forbid. Each row is worked out by hand from the accesses above it.
ghost use Rattle.hy_access.specs.Accesses.{IsLiveIfGiven};

use hy_access::{AccId, Accesses, Range, Way};
use std::test::Fail;

fn cells(block: u64, from: u32, len: u32) -> Range {
    Range { block, from, len }
}

// Whether a range may be read, and written.
fn allowed(accesses: &Accesses, range: Range, through: Option<AccId>) -> (bool, bool)
    requires { IsLiveIfGiven through accesses.now }
{
    (
        accesses.may_read(range, through),
        accesses.may_write(range, through),
    )
}

#[test]
fn ranges_that_meet(rt: HostRuntime) -> Result<(), Fail> {
    let rows = [
        (cells(0, 0, 4), cells(0, 3, 1), true),
        (cells(0, 0, 4), cells(0, 4, 1), false),
        (cells(0, 2, 2), cells(0, 0, 2), false),
        (cells(0, 2, 2), cells(0, 0, 3), true),
        (cells(0, 0, 4), cells(1, 0, 4), false),
        (cells(0, 1, 0), cells(0, 0, 4), false),
        (cells(0, 0, 4), cells(0, 4, 0), false),
        (cells(0, 2, 0), cells(0, 2, 0), false),
        (cells(7, u32::MAX, u32::MAX), cells(7, u32::MAX, 1), true),
    ];
    for (one, other, want) in rows {
        assert_eq!(rt; one.meets(&other), want);
        assert_eq!(rt; other.meets(&one), want);
    }
    Ok(())
}

#[test]
fn a_reading_child_of_a_writing_access(rt: HostRuntime) -> Result<(), Fail> {
    let mut accesses = Accesses::new(rt.alloc());
    let a = accesses.lend(cells(0, 0, 4), None, Way::Write, None)?;
    let b = accesses.lend(cells(0, 1, 1), None, Way::Read, Some(a))?;
    let rows = [
        (cells(0, 1, 1), None, (false, false)),
        (cells(0, 1, 1), Some(a), (true, false)),
        (cells(0, 0, 1), Some(a), (true, true)),
        (cells(0, 1, 1), Some(b), (true, false)),
        (cells(0, 4, 1), None, (true, true)),
        (cells(1, 1, 1), None, (true, true)),
        (cells(0, 1, 0), None, (true, true)),
    ];
    for (range, through, want) in rows {
        assert_eq!(rt; allowed(&accesses, range, through), want);
    }
    assert_eq!(rt; accesses.own(b), cells(0, 1, 1));
    assert_eq!(rt;
        [accesses.has_children(a), accesses.has_children(b)],
        [true, false]
    );
    if !accesses.has_children(b) {
        accesses.close(b);
        assert_eq!(rt; allowed(&accesses, cells(0, 1, 1), Some(a)), (true, true));
        assert_eq!(rt; accesses.has_children(a), false);
    }
    Ok(())
}

#[test]
fn an_element_and_what_is_made_from_it(rt: HostRuntime) -> Result<(), Fail> {
    let mut accesses = Accesses::new(rt.alloc());
    let element = accesses.lend(cells(5, 4, 2), Some(cells(0, 2, 2)), Way::Write, None)?;
    let part = accesses.lend(cells(5, 5, 1), None, Way::Write, Some(element))?;
    let rows = [
        (cells(0, 3, 1), None, (false, false)),
        (cells(0, 1, 1), None, (true, true)),
        (cells(5, 4, 1), None, (false, false)),
        (cells(5, 5, 1), Some(element), (false, false)),
        (cells(0, 3, 1), Some(part), (true, true)),
        (cells(5, 4, 2), Some(part), (true, true)),
    ];
    for (range, through, want) in rows {
        assert_eq!(rt; allowed(&accesses, range, through), want);
    }
    Ok(())
}

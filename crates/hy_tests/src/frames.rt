// The activations that are left, what each was started with, and how each stands. Each line of numbers is worked out by
// hand from the calls above it.
use hy_frames::Acts;
use std::test::Fail;

#[test]
fn an_end_wherever_it_stands(rt: HostRuntime) -> Result<(), Fail> {
    let mut acts = Acts::new(rt.alloc());
    let a = acts.start(0, 10, None)?;
    let b = acts.start(1, 11, Some(a))?;
    let c = acts.start(2, 12, None)?;
    let d = acts.start(3, 13, None)?;
    assert_eq!(rt; acts.end(b), 11);
    assert_eq!(rt; [acts.frame(a), acts.frame(c), acts.frame(d)], [10, 12, 13]);
    assert_eq!(rt; acts.end(a), 10);
    assert_eq!(rt; [acts.frame(c), acts.frame(d)], [12, 13]);
    assert_eq!(rt; acts.end(d), 13);
    assert_eq!(rt; acts.frame(c), 12);
    let e = acts.start(4, 14, None)?;
    assert_eq!(rt; [acts.frame(c), acts.frame(e)], [12, 14]);
    assert_eq!(rt; acts.end(c), 12);
    assert_eq!(rt; [acts.frame(e), u64::from(acts.function(e))], [14, 4]);
    assert_eq!(rt; acts.end(e), 14);
    Ok(())
}

#[test]
fn a_caller_while_it_runs(rt: HostRuntime) -> Result<(), Fail> {
    let mut acts = Acts::new(rt.alloc());
    let main = acts.start(0, 10, None)?;
    let part = acts.start(1, 11, Some(main))?;
    assert_eq!(rt; [acts.caller(main), acts.caller(part)], [None, Some(main)]);
    acts.go(part, 7);
    acts.suspend(part);
    assert_eq!(rt; [acts.caller(main), acts.caller(part)], [None, None]);
    acts.resume(part, main);
    assert_eq!(rt; [acts.caller(main), acts.caller(part)], [None, Some(main)]);
    assert_eq!(rt; [acts.code_place(main), acts.code_place(part)], [0, 7]);
    acts.suspend(main);
    acts.resume(main, part);
    assert_eq!(rt; acts.caller(main), Some(part));
    Ok(())
}

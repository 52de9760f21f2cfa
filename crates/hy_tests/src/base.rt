ghost use Rattle.std.specs.Prelude.{◌≤◌, ◌<◌, ◌+◌, ◌-◌, ◌^◌};

use hy_base::{
    FileFault, Files, MemFiles, MemSink, PlainFiles, PlainSink, PlainSource, Sink, Source,
};
use indexmap::IndexMap;
use std::alloc::{AllocFailed, Global};
use std::test::Fail;

#[test]
fn a_source_gives_its_bytes_in_order(rt: HostRuntime) -> Result<(), Fail> {
    let mut source = PlainSource::new([7u8, 9].to_vec(rt.alloc())?);
    for want in [Some(7), Some(9), None, None] {
        assert_eq!(rt; source.next(), Ok(want));
    }
    Ok(())
}

#[test]
fn a_sink_keeps_what_fits(rt: HostRuntime) -> Result<(), Fail> {
    let mut sink = PlainSink::new(rt.alloc(), 4)?;
    for (piece, want) in [("abc", "abc"), ("def", "abcd"), ("g", "abcd")] {
        assert_eq!(rt; sink.put(piece.as_bytes()), Ok(()));
        assert_eq!(rt; sink.bytes(), want.as_bytes());
    }
    Ok(())
}

#[test]
fn a_sink_fails_as_it_is_told(rt: HostRuntime) -> Result<(), Fail> {
    // The pieces are abc, de and f. Each row has one entry, the room, which writes are done, and what went out.
    let rows = [
        ((9u64, 0u32), 6, [true, true, true], "abcdef"),
        ((0, 0), 6, [false, true, true], "def"),
        ((1, 1), 6, [true, false, true], "abcdf"),
        ((1, 7), 6, [true, false, true], "abcdef"),
        ((1, 7), 4, [true, false, false], "abcd"),
        ((9, 0), 4, [true, false, false], "abcd"),
        ((0, 2), 0, [false, false, false], ""),
    ];
    let alloc = rt.alloc();
    for (entry, room, done, want) in rows {
        let mut sink = MemSink::new(alloc, [entry, (entry.0, 0)].to_vec(alloc)?, room)?;
        let results = [
            sink.put(b"abc").is_ok(),
            sink.put(b"de").is_ok(),
            sink.put(b"f").is_ok(),
        ];
        assert_eq!(rt; (results, sink.bytes()), (done, want.as_bytes()));
    }
    Ok(())
}

fn one_file(alloc: Global) -> Result<IndexMap<String, Vec<u8>>, Fail> {
    let name = String::from_str(alloc, "a")?;
    let bytes = b"xyz".to_vec(alloc)?;
    let mut contents = IndexMap::new(alloc);
    contents.insert(name, bytes)?;
    Ok(contents)
}

// Whether a load of at most `most` bytes, and one more, gives these.
fn gives<F: Files>(
    files: &mut F,
    alloc: Global,
    name: &str,
    most: u32,
    want: &[u8],
) -> Result<bool, FileFault>
    requires { F.faults files.old < 2 ^ 64 - 1 }
    ensures { F.faults files.new ≤ F.faults files.old + 1 }
{
    Ok(files.load(alloc, name, most)?.as_slice() == want)
}

#[test]
fn plain_files_hold_every_name(rt: HostRuntime) -> Result<(), Fail> {
    let alloc = rt.alloc();
    let mut files = PlainFiles::new(one_file(alloc)?);
    let before = [
        gives(&mut files, alloc, "a", 1, b"xy"),
        gives(&mut files, alloc, "b", 1, b""),
    ];
    let stored = files.store(alloc, "b", b"q");
    let after = [
        gives(&mut files, alloc, "b", 9, b"q"),
        gives(&mut files, alloc, "a", 9, b"xyz"),
    ];
    assert_eq!(rt;
        (before, stored, after),
        ([Ok(true); 2], Ok(()), [Ok(true); 2])
    );
    Ok(())
}

#[test]
fn files_fail_as_they_are_told(rt: HostRuntime) -> Result<(), Fail> {
    let alloc = rt.alloc();
    let mut files = MemFiles::new(alloc, one_file(alloc)?, [1u64, 3].to_vec(alloc)?);
    let before = [
        gives(&mut files, alloc, "a", 2, b"xyz"),
        gives(&mut files, alloc, "a", 2, b"xyz"),
        gives(&mut files, alloc, "b", 2, b""),
    ];
    let stored = files.store(alloc, "a", b"q");
    let between = gives(&mut files, alloc, "a", 2, b"xyz");
    let stored_again = files.store(alloc, "a", b"r");
    let after = gives(&mut files, alloc, "a", 2, b"r");
    let failed = Err(FileFault::Failed);
    assert_eq!(rt; before, [Ok(true), failed, failed]);
    assert_eq!(rt; (stored, between), (Err(FileFault::Failed), failed));
    assert_eq!(rt; (stored_again, after), (Ok(()), Ok(true)));
    Ok(())
}

// A region, with ample memory. The values are worked out by hand from the calls above them.
use crate::Region;
use std::test::Fail;

#[test]
fn blocks_keep_what_was_stored(rt: HostRuntime) -> Result<(), Fail> {
    let mut region = Region::new(rt.alloc());
    let frame = region.alloc(3)?;
    region.write(frame, 2, 7);
    assert_eq!(rt; region.read(frame, 2), 7);
    let longer = region.grow(frame, 8)?;
    assert_eq!(rt; region.words(longer), 8);
    assert_eq!(rt; region.read(longer, 2), 7);
    region.write(longer, 7, -8);
    region.move_words(longer, 0, longer, 7, 1);
    assert_eq!(rt; region.read(longer, 0), -8);
    region.free(longer);
    Ok(())
}

// The order of both keys at its edges, and the largest erase count.
use crate::sector::Sector;
use crate::wear::Wear;
use basis::refusal::Refusal;
use keys::key::Key;
use std::test::Fail;

#[test]
fn sectors_are_ordered_by_number(rt: HostRuntime) {
    let last = Sector {
        number: 4_294_967_295,
    };
    assert!(rt; Sector { number: 0 }.is_below(last));
    assert!(rt; !last.is_below(last));
    assert!(rt; !last.is_below(Sector { number: 7 }));
}

#[test]
fn counts_decide_before_blocks(rt: HostRuntime) -> Result<(), Fail> {
    let worn = Wear::new(2875, 0)?;
    assert!(rt; Wear::new(2874, 65535)?.is_below(worn));
    assert!(rt; !worn.is_below(Wear::new(2874, 65535)?));
    assert!(rt; worn.is_below(Wear::new(2875, 1)?));
    assert!(rt; !worn.is_below(worn));
    Ok(())
}

// The last count is taken, with any block; the next is refused.
#[test]
fn a_count_has_its_range(rt: HostRuntime) -> Result<(), Fail> {
    let last = Wear::new(2875, 65535)?;
    assert_eq!(rt; last.count(), 2875);
    assert_eq!(rt; last.block(), 65535);
    assert_eq!(rt; Wear::new(2876, 0), Err(Refusal::OutOfRange));
    assert_eq!(rt; Wear::new(65535, 65535), Err(Refusal::OutOfRange));
    Ok(())
}

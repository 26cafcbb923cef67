// Cells from elsewhere: a window that would use a bad mark or link is refused and alters nothing; what it does not use does no
// harm; and a cell that is linked to itself shows the order of the writes.
use crate::lent::{Lent, begin_of, cell, link_to};
use basis::answer::Answer;
use basis::bounded::{Place, Seat};
use basis::kind::Kind;
use basis::refusal::Refusal;
use list_window::turn::Request;
use marks::scheme::Scheme;
use std::process::Abort;
use std::test::Fail;

const KINDS: [Kind; 3] = [Kind::Lookup, Kind::Insert, Kind::Remove];

// The seat whose windows meet four cells from the head too.
const WIDE: u8 = 3;

// A window of that seat is refused with 8 and alters nothing.
fn check_bad(rt: &impl Abort, lent: &mut Lent, kind: Kind, target: u32) {
    assert_eq!(rt; lent.call(WIDE, begin_of(kind, target)), Answer::Ok);
    lent.check_refused(rt, WIDE, Request::Step, Refusal::BadLink);
}

fn wide_seat() -> Result<Seat, Fail> {
    Ok(Seat::try_from(u16::from(WIDE))?)
}

// The same for each kind of operation, on an index that was spoiled first.
fn check_each_bad<F: Fn(&mut Lent)>(rt: &impl Abort, target: u32, spoil: F)
    requires { F.IsAlwaysCallable spoil }
{
    for kind in KINDS {
        let mut lent = Lent::listed();
        spoil(&mut lent);
        check_bad(rt, &mut lent, kind, target);
    }
}

// With that head.
fn check_bad_head(rt: &impl Abort, head: u16, target: u32) {
    check_each_bad(rt, target, |lent| lent.anchor.head = link_to(head));
}

// With the seat's mark on that place.
fn check_bad_mark(rt: &impl Abort, mark: u16, target: u32) -> Result<(), Fail> {
    let seat = wide_seat()?;
    let place = Place::try_from(mark)?;
    check_each_bad(rt, target, |lent| lent.scheme.reserve(seat, place));
    Ok(())
}

// With another link in the first listed cell.
fn check_bad_link(rt: &impl Abort, link: u16, target: u32) {
    check_each_bad(rt, target, |lent| {
        lent.cells[0] = cell(10, Some(link), true);
    });
}

#[test]
fn a_bad_head_is_refused(rt: HostRuntime) {
    check_bad_head(&rt, 3, 10);
    check_bad_head(&rt, 1007, 10);
    check_bad_head(&rt, 2, 77);
}

// Whatever the target, also one that stands before the marked cell.
#[test]
fn a_bad_mark_is_refused(rt: HostRuntime) -> Result<(), Fail> {
    check_bad_mark(&rt, 3, 20)?;
    check_bad_mark(&rt, 1007, 5)?;
    check_bad_mark(&rt, 2, 20)?;
    check_bad_mark(&rt, 2, 5)
}

#[test]
fn a_bad_link_is_refused(rt: HostRuntime) {
    check_bad_link(&rt, 3, 15);
    check_bad_link(&rt, 1007, 20);
    check_bad_link(&rt, 2, 77);
}

// A bad link behind a good mark.
#[test]
fn a_bad_link_behind_the_mark_is_refused(rt: HostRuntime) -> Result<(), Fail> {
    let mut lent = Lent::listed();
    lent.scheme.reserve(wide_seat()?, Place::try_from(1)?);
    lent.cells[1] = cell(20, Some(2), true);
    check_bad(&rt, &mut lent, Kind::Lookup, 30);
    Ok(())
}

#[test]
fn a_bad_free_link_is_refused(rt: HostRuntime) {
    for free in [3, 1007, 0, 1] {
        let mut lent = Lent::listed();
        lent.anchor.free = link_to(free);
        check_bad(&rt, &mut lent, Kind::Insert, 15);
    }
}

// A free link is used only by an insert that knows its target is missing.
#[test]
fn a_bad_free_link_is_not_used_otherwise(rt: HostRuntime) {
    let mut lent = Lent::listed();
    lent.anchor.free = link_to(3);
    lent.check_steps(&rt, WIDE, Kind::Insert, 20, &[Answer::No]);
    lent.check_steps(&rt, WIDE, Kind::Lookup, 15, &[Answer::No]);
    lent.check_steps(&rt, WIDE, Kind::Remove, 15, &[Answer::No]);
    lent.check_steps(&rt, WIDE, Kind::Remove, 20, &[Answer::Yes]);
    let after = lent.picture();
    assert_eq!(rt; after.anchor.free, link_to(1));
    assert_eq!(rt;
        after.cells,
        [
            cell(10, None, true),
            cell(20, Some(3), false),
            cell(77, None, false)
        ]
    );
}

// A link is copied, and not used, by the removal of its cell; nor is the link of a free cell by the insert that takes it.
#[test]
fn a_link_that_is_copied_is_not_used(rt: HostRuntime) {
    let mut lent = Lent::listed();
    lent.cells[1] = cell(20, Some(900), true);
    lent.cells[2] = cell(77, Some(901), false);
    lent.check_steps(&rt, WIDE, Kind::Lookup, 15, &[Answer::No]);
    lent.check_steps(&rt, WIDE, Kind::Lookup, 20, &[Answer::Yes]);
    lent.check_steps(&rt, WIDE, Kind::Insert, 15, &[Answer::Yes]);
    assert_eq!(rt; lent.anchor.free, link_to(901));
    lent.check_steps(&rt, WIDE, Kind::Remove, 20, &[Answer::Yes]);
    let after = lent.picture();
    assert_eq!(rt; after.anchor.free, link_to(1));
    assert_eq!(rt;
        after.cells,
        [
            cell(10, Some(2), true),
            cell(20, Some(901), false),
            cell(15, Some(900), true),
        ]
    );
}

// The end is never used: no head, no free cell, no mark.
#[test]
fn the_end_is_never_used(rt: HostRuntime) {
    let mut lent = Lent::listed();
    lent.anchor.head = None;
    lent.anchor.free = None;
    let before = lent.picture();
    lent.check_steps(&rt, WIDE, Kind::Lookup, 10, &[Answer::No]);
    lent.check_steps(&rt, WIDE, Kind::Remove, 10, &[Answer::No]);
    lent.check_steps(&rt, WIDE, Kind::Insert, 10, &[Answer::Full]);
    assert_eq!(rt; lent.picture(), before);
}

// The cell at place 0 is linked to itself and led to from the head: its link is copied first, and then it becomes free.
#[test]
fn a_cell_linked_to_itself_is_removed_from_the_head(rt: HostRuntime) {
    let mut lent = Lent::listed();
    lent.cells[0] = cell(10, Some(0), true);
    lent.check_steps(&rt, WIDE, Kind::Remove, 10, &[Answer::Yes]);
    let after = lent.picture();
    assert_eq!(rt; after.anchor.head, link_to(0));
    assert_eq!(rt; after.anchor.free, link_to(0));
    assert_eq!(rt; after.cells[0], cell(10, Some(2), false));
}

// The same with a mark on it, so that the leading cell is the cell itself: the last write to its link stands.
#[test]
fn a_cell_linked_to_itself_is_removed_from_its_mark(rt: HostRuntime) -> Result<(), Fail> {
    let mut lent = Lent::listed();
    lent.cells[0] = cell(10, Some(0), true);
    lent.scheme.reserve(wide_seat()?, Place::try_from(0)?);
    lent.scheme.reserve(Seat::try_from(9)?, Place::try_from(0)?);
    lent.check_steps(&rt, WIDE, Kind::Remove, 10, &[Answer::Yes]);
    let after = lent.picture();
    assert_eq!(rt; after.anchor.head, link_to(0));
    assert_eq!(rt; after.anchor.free, link_to(0));
    assert_eq!(rt; after.cells[0], cell(10, Some(2), false));
    assert_eq!(rt; after.marks, [None; 16]);
    Ok(())
}

// A ring of links ends the window where it is used up: from the head after one cell for seat 0 and after four for seat 3, and from a mark after
// four for both, twice round the ring.
#[test]
fn a_ring_of_links_waits(rt: HostRuntime) {
    let mut lent = Lent::listed();
    lent.cells[1] = cell(20, Some(0), true);
    lent.check_steps(&rt, 0, Kind::Lookup, 30, &[Answer::Wait]);
    lent.check_steps(&rt, WIDE, Kind::Lookup, 30, &[Answer::Wait]);
    let marks = lent.picture().marks;
    assert_eq!(rt; (marks[0], marks[3]), (link_to(0), link_to(1)));
    assert_eq!(rt; lent.call(0, Request::Step), Answer::Wait);
    assert_eq!(rt; lent.call(WIDE, Request::Step), Answer::Wait);
    assert_eq!(rt; lent.picture().marks, marks);
}

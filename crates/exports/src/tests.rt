// What C gets: the text at the front of the room that it lends, or which of the two numbers.
use crate::{NO_ROOM, marked_list_cell_bytes, marked_list_replay};
use std::test::Fail;

// A setup (full, 3 cells, window 2), join 0, begin insert 10 by seat 0, and steps by seats 0, 0 and 16.
const WORKED: [u8; 32] = [
    1, 0, 5, 0, 1, 0, 3, 2, 0, 2, 1, 0, 0, 6, 4, 0, 0, 0, 0, 10, 0, 2, 6, 0, 0, 2, 6, 0, 0, 2, 6,
    16,
];

const ANSWERS: &str = "1 ok\n2 ok\n3 ok\n4 yes\n5 refused 7\n6 refused 1\n";

#[test]
fn the_text_stands_at_the_front_of_the_room(rt: HostRuntime) -> Result<(), Fail> {
    let mut room = [7; 50];
    let length = marked_list_replay(rt.alloc(), &WORKED, &mut room);
    assert_eq!(rt; length, 45);
    assert!(rt; room.starts_with(ANSWERS.as_bytes()));
    assert!(rt; room.ends_with([7; 5].as_slice()));
    Ok(())
}

#[test]
fn room_that_just_fits_is_enough(rt: HostRuntime) -> Result<(), Fail> {
    let mut room = [7; 45];
    assert_eq!(rt; marked_list_replay(rt.alloc(), &WORKED, &mut room), 45);
    assert_eq!(rt; room.as_slice(), ANSWERS.as_bytes());
    Ok(())
}

#[test]
fn room_that_is_too_short_is_left_as_it_was(rt: HostRuntime) -> Result<(), Fail> {
    let mut room = [7; 44];
    assert_eq!(rt; marked_list_replay(rt.alloc(), &WORKED, &mut room), NO_ROOM);
    assert_eq!(rt; room.as_slice(), [7; 44].as_slice());
    Ok(())
}

#[test]
fn a_cell_takes_eight_bytes(rt: HostRuntime) -> Result<(), Fail> {
    assert_eq!(rt; marked_list_cell_bytes(), 8);
    Ok(())
}

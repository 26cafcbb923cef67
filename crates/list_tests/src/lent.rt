// What the tests lend to an index, and how they look at it.
use basis::answer::Answer;
use basis::bounded::{Place, Seat};
use basis::kind::Kind;
use basis::mask::Mask;
use basis::refusal::Refusal;
use key_types::sector::Sector;
use list::calls::{abandon, begin, join, leave, step};
use list_cells::cell::{Anchor, Cell};
use list_making::making::make;
use list_window::index::Index;
use list_window::row::{Doing, Row};
use list_window::turn::Request;
use marks::scheme::Scheme;
use schemes::full::Full;
use std::array;
use std::process::Abort;
use std::test::Fail;

// Three cells, sixteen rows, an anchor, the full scheme and a mask.
#[derive(Drop)]
pub struct Lent {
    pub cells: [Cell<Sector>; 3],
    pub rows: [Row<Sector>; 16],
    pub anchor: Anchor,
    pub scheme: Full,
    pub mask: Mask,
}

// All that is lent, for comparison; of the scheme, the mark of each seat.
#[derive(Clone, Copy, PartialEq, Eq, Debug)]
pub struct Picture {
    pub cells: [Cell<Sector>; 3],
    pub rows: [Row<Sector>; 16],
    pub anchor: Anchor,
    pub marks: [Option<Place>; 16],
    pub mask: Mask,
}

// The link to the place of that number.
pub(crate) fn link_to(number: u16) -> Option<Place> {
    Place::try_from(number).ok()
}

// A cell with that key and flag, and a link to that place; none stands for the end.
pub(crate) fn cell(number: u32, link: Option<u16>, listed: bool) -> Cell<Sector> {
    Cell::new(Sector { number }, link.and_then(link_to), listed)
}

pub(crate) fn away() -> [Row<Sector>; 16] {
    [Row { doing: Doing::Away }; 16]
}

// The mark of each seat.
pub(crate) fn marks_of<S: Scheme>(scheme: &S) -> [Option<Place>; 16] {
    array::from_fn(|number| {
        let seat = Seat::try_from(number as u16).ok();
        seat.and_then(|seat| scheme.get(seat))
    })
}

pub(crate) fn begin_of(kind: Kind, number: u32) -> Request<Sector> {
    Request::Begin {
        kind,
        target: Sector { number },
    }
}

impl Lent {
    // 10 at place 0 and 20 at place 1 are listed, place 2 is free, and seats 0 and 3 are idle. Windows of 4 cells; from the head of 1 for seat 0,
    // and of all 4 for seat 3.
    pub(crate) fn listed() -> Lent {
        let mut rows = away();
        rows[0] = Row { doing: Doing::Idle };
        rows[3] = Row { doing: Doing::Idle };
        Lent {
            cells: [
                cell(10, Some(1), true),
                cell(20, None, true),
                cell(77, None, false),
            ],
            rows,
            anchor: Anchor {
                count: 3,
                window: 4,
                head: link_to(0),
                free: link_to(2),
            },
            scheme: Full::new(),
            mask: Mask { level: 5 },
        }
    }

    pub(crate) fn make(&mut self, window: u8) -> Answer {
        let mut index = Index::over(
            &mut self.cells,
            &mut self.rows,
            &mut self.anchor,
            &mut self.scheme,
        );
        Answer::from(make(&mut index, window))
    }

    // One of the five calls.
    pub(crate) fn call(&mut self, seat: u8, request: Request<Sector>) -> Answer {
        let mask = &mut self.mask;
        let mut index = Index::over(
            &mut self.cells,
            &mut self.rows,
            &mut self.anchor,
            &mut self.scheme,
        );
        match request {
            Request::Join => Answer::from(join(&mut index, mask, seat)),
            Request::Leave => Answer::from(leave(&mut index, mask, seat)),
            Request::Begin { kind, target } => {
                Answer::from(begin(&mut index, mask, seat, kind, target))
            }
            Request::Step => step(&mut index, mask, seat),
            Request::Abandon => Answer::from(abandon(&mut index, mask, seat)),
        }
    }

    pub(crate) fn picture(&self) -> Picture {
        Picture {
            cells: self.cells,
            rows: self.rows,
            anchor: self.anchor,
            marks: marks_of(&self.scheme),
            mask: self.mask,
        }
    }

    // An operation of a seat begins, and its steps give these answers.
    pub(crate) fn check_steps(
        &mut self,
        rt: &impl Abort,
        seat: u8,
        kind: Kind,
        target: u32,
        answers: &[Answer],
    ) {
        assert_eq!(rt; self.call(seat, begin_of(kind, target)), Answer::Ok);
        for answer in answers {
            assert_eq!(rt; self.call(seat, Request::Step), *answer);
        }
    }

    // A call that is refused and alters nothing, the mask level included.
    pub(crate) fn check_refused(
        &mut self,
        rt: &impl Abort,
        seat: u8,
        request: Request<Sector>,
        refusal: Refusal,
    ) {
        let before = self.picture();
        assert_eq!(rt; self.call(seat, request), Answer::Refused(refusal));
        assert_eq!(rt; self.picture(), before);
    }
}

// What the tests expect is made by `link_to` and `cell`: both give the numbers that they are asked for.
#[test]
fn expected_links_have_their_numbers(rt: HostRuntime) -> Result<(), Fail> {
    for number in [0, 1, 2, 3, 900, 901, 1007] {
        let place = link_to(number);
        assert_eq!(rt; place.map(|place| place.number()), Some(number));
        let made = cell(7, Some(number), true);
        assert_eq!(rt; made.key.number, 7);
        assert_eq!(rt; made.link.place().map(|place| place.number()), Some(number));
        assert!(rt; made.listed);
    }
    assert_eq!(rt;
        cell(7, None, false)
            .link
            .place()
            .map(|place| place.number()),
        None
    );
    Ok(())
}

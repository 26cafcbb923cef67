// One window: the walk, and what its end decides.
ghost use Rattle.std.specs.Prelude.{◌≡◌, ◌≤◌, pred, map, slice_get};
ghost use Rattle.marks.specs.Marks.{numbered};
ghost use Rattle.list_law.specs.Call.{reach, refused, ended, waiting, unlinked, on_present, taken_from, on_absent, decided, walked, window};
ghost use Rattle.list_cells.specs.Views.{cell_of, found_of, met_of};
ghost use Rattle.list_window.specs.Lent.{window_memory, AppliedTo};

use crate::index::Index;
use crate::row::Doing;
use crate::seats::put_row;
use basis::answer::Answer;
use basis::bounded::{Place, Seat};
use basis::kind::Kind;
use basis::refusal::Refusal;
use keys::key::Key;
use list_cells::cell::{Anchor, Cell};
use list_cells::memory::{link_in, unlink};
use list_cells::walk::{Met, cell_at, walk_from};
use marks::scheme::Scheme;

/// How many cells the next window of a seat may meet: from a mark as many as the anchor has it, from the head by the seat, so that tasks that
/// begin together do not all wait at one cell.
#[tactic(auto, unfolding(list_law::specs::Call::reach))]
#[inline(always)]
pub fn width(seat: Seat, window: u8, mark: Option<Place>) -> u8
    requires { 1 ≤ window }
    ensures width { result ≡ reach seat.number window (numbered mark) }
    ensures some { 1 ≤ result }
{
    match mark {
        Some(_) => window,
        None => 1 + (seat.number() % u16::from(window)) as u8,
    }
}

// Where the walk of a seat's next window ends, for a seat with that mark.
#[inline(always)]
fn walk_behind<K: Key>(
    cells: &[Cell<K>],
    anchor: &Anchor,
    seat: Seat,
    target: K,
    mark: Option<Place>,
) -> Option<Met>
    requires { 1 ≤ anchor.now.window }
    ensures { met_of result ≡ walked K.Key.below (map cell_of cells.now) (numbered anchor.now.head) target
        (pred (reach seat.number anchor.now.window (numbered mark))) (numbered mark) }
{
    let most = width(seat, anchor.window, mark);
    walk_from(cells, anchor.head, target, most, mark)
}

impl<K: Key, S: Scheme> Index<'_, K, S> {
    // The operation has its answer: the row becomes idle, and the mark is released.
    #[inline(always)]
    fn end_operation(&mut self, seat: Seat, answer: Answer) -> Answer
        ensures { AppliedTo S.Scheme.table S.Scheme.strict S.Scheme.acts seat.number
            (ended seat.number answer (window_memory self.old)) self.old result self.new }
    {
        self.scheme.release(seat);
        put_row(self.rows, seat, Doing::Idle);
        answer
    }

    // The window is used up at a place, which the seat marks.
    #[inline(always)]
    fn wait_at(&mut self, seat: Seat, place: Place) -> Answer
        ensures { AppliedTo S.Scheme.table S.Scheme.strict S.Scheme.acts seat.number
            (waiting seat.number place.number (window_memory self.old)) self.old result self.new }
    {
        self.scheme.release(seat);
        self.scheme.reserve(seat, place);
        Answer::Wait
    }

    // The cell at a place is removed: it is unlinked and freed, the marks on it are revoked, and the operation has its answer.
    fn remove_at(
        &mut self,
        seat: Seat,
        lead: Option<Place>,
        place: Place,
        link: Option<Place>,
    ) -> Answer
        ensures { AppliedTo S.Scheme.table S.Scheme.strict S.Scheme.acts seat.number
            (unlinked seat.number (numbered lead) place.number (numbered link) (window_memory self.old))
            self.old result self.new }
    {
        unlink(self.cells, self.anchor, lead, place, link);
        self.scheme.revoke(place);
        self.end_operation(seat, Answer::Yes)
    }

    // The cell at a place, if there is one.
    fn cell_at(&self, place: Place) -> Option<&Cell<K>>
        ensures { found_of result ≡ slice_get (map cell_of self.now.cells.now) place.number }
    {
        cell_at(self.cells, place)
    }

    // The front free cell takes the target, where there is one: its key, the link that led on, and a link to it from the place before.
    fn insert_at(
        &mut self,
        seat: Seat,
        target: K,
        lead: Option<Place>,
        link: Option<Place>,
    ) -> Answer
        ensures { AppliedTo S.Scheme.table S.Scheme.strict S.Scheme.acts seat.number
            (taken_from target seat.number (numbered lead) (numbered link) (window_memory self.old)
            (numbered self.old.anchor.now.free)) self.old result self.new }
    {
        let Some(place) = self.anchor.free else {
            return self.end_operation(seat, Answer::Full);
        };
        let Some(cell) = self.cell_at(place) else {
            return Answer::Refused(Refusal::BadLink);
        };
        if cell.listed {
            return Answer::Refused(Refusal::BadLink);
        }
        let rest = cell.link.place();
        link_in(self.cells, self.anchor, lead, link, target, place, rest);
        self.end_operation(seat, Answer::Yes)
    }

    // The target is there.
    fn on_present(
        &mut self,
        seat: Seat,
        kind: Kind,
        lead: Option<Place>,
        place: Place,
        link: Option<Place>,
    ) -> Answer
        ensures { AppliedTo S.Scheme.table S.Scheme.strict S.Scheme.acts seat.number
            (on_present kind seat.number (numbered lead) place.number (numbered link) (window_memory self.old))
            self.old result self.new }
    {
        match kind {
            Kind::Lookup => self.end_operation(seat, Answer::Yes),
            Kind::Insert => self.end_operation(seat, Answer::No),
            Kind::Remove => self.remove_at(seat, lead, place, link),
        }
    }

    // The target is missing.
    fn on_absent(
        &mut self,
        seat: Seat,
        kind: Kind,
        target: K,
        lead: Option<Place>,
        link: Option<Place>,
    ) -> Answer
        ensures { AppliedTo S.Scheme.table S.Scheme.strict S.Scheme.acts seat.number
            (on_absent kind target seat.number (numbered lead) (numbered link) (window_memory self.old))
            self.old result self.new }
    {
        match kind {
            Kind::Lookup => self.end_operation(seat, Answer::No),
            Kind::Insert => self.insert_at(seat, target, lead, link),
            Kind::Remove => self.end_operation(seat, Answer::No),
        }
    }

    // What a window does, by where its walk ended.
    #[inline(always)]
    fn decide(&mut self, seat: Seat, kind: Kind, target: K, met: Option<Met>) -> Answer
        ensures { AppliedTo S.Scheme.table S.Scheme.strict S.Scheme.acts seat.number
            (decided kind target seat.number (window_memory self.old) (met_of met)) self.old result self.new }
    {
        match met {
            None => Answer::Refused(Refusal::BadLink),
            Some(Met::Passed { place, link: _ }) => self.wait_at(seat, place),
            Some(Met::Present { lead, place, link }) => {
                self.on_present(seat, kind, lead, place, link)
            }
            Some(Met::Absent { lead, link }) => self.on_absent(seat, kind, target, lead, link),
        }
    }

    // Where the walk of a seat's next window ends, for the mark that the scheme answers.
    #[inline(always)]
    fn walk(&self, seat: Seat, target: K) -> Option<Met>
        requires { 1 ≤ self.now.anchor.now.window }
        ensures { met_of result ≡ walked K.Key.below (map cell_of self.now.cells.now)
            (numbered self.now.anchor.now.head) target
            (pred (reach seat.number self.now.anchor.now.window (S.Scheme.table self.now.scheme.now seat.number)))
            (S.Scheme.table self.now.scheme.now seat.number) }
    {
        walk_behind(self.cells, self.anchor, seat, target, self.scheme.get(seat))
    }

    // One window of a running seat.
    #[inline(always)]
    pub(crate) fn run_window(&mut self, seat: Seat, kind: Kind, target: K) -> Answer
        requires { 1 ≤ self.old.anchor.now.window }
        ensures { AppliedTo S.Scheme.table S.Scheme.strict S.Scheme.acts seat.number
            (window K.Key.below (window_memory self.old) seat.number self.old.anchor.now.window
            (S.Scheme.table self.old.scheme.now seat.number) kind target) self.old result self.new }
    {
        let met = self.walk(seat, target);
        self.decide(seat, kind, target, met)
    }
}

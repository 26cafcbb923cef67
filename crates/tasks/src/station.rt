// An index with two tasks at it, each with a slip in hand.
ghost use Rattle.std.specs.Prelude.{◌≡◌, ◌<◌, ◌≤◌};
ghost use Rattle.key_types.specs.Wear.{wear_below};
ghost use Rattle.list_law.specs.Call.{reach};
ghost use Rattle.list_window.specs.Applied.{state_of};
ghost use Rattle.list.specs.Calls.{CalledOn};
ghost use Rattle.tasks.specs.Turns.{what_asked, seat_by};
ghost use Rattle.tasks.specs.Manned.{Manned};
ghost use Rattle.marks.specs.Marks.{numbered};

use crate::turn::{Ask, Line, Marks, Seen, Task, Turn};
use basis::answer::Answer;
use basis::bounded::{Place, Seat};
use basis::mask::Mask;
use basis::refusal::Refusal;
use key_types::wear::Wear;
use list::slip::Slip;
use list_cells::cell::{Anchor, Cell};
use list_making::making::make;
use list_window::index::Index;
use list_window::row::{Doing, Row};
use list_window::window::width;
use marks::scheme::Scheme;

/// What an index keeps, the mask, and the slips of the two tasks, whose seats are held. It cannot be let go, since the slips cannot.
pub struct Station<S> {
    cells: [Cell<Wear>; 8],
    rows: [Row<Wear>; 16],
    anchor: Anchor,
    scheme: S,
    mask: Mask,
    host: Slip,
    cleaner: Slip,
    ghost manned: { Manned (state_of cells rows anchor scheme) host.seat cleaner.seat mask.level },
}

/// What an index keeps that both tasks have left.
#[derive(Drop)]
pub struct Closed<S> {
    cells: [Cell<Wear>; 8],
    rows: [Row<Wear>; 16],
    anchor: Anchor,
    scheme: S,
}

// The call that is asked, made by showing a slip.
fn show<S: Scheme>(slip: &Slip, index: &mut Index<'_, Wear, S>, mask: &mut Mask, ask: Ask) -> Answer
    ensures called { CalledOn wear_below S.Scheme.table S.Scheme.strict S.Scheme.acts index.old (what_asked ask)
        slip.now.seat mask.old.level result index.new }
    ensures level { mask.new.level ≡ mask.old.level }
{
    match ask {
        Ask::Begin { kind, target } => Answer::from(slip.begin(index, mask, kind, target)),
        Ask::Step => slip.step(index, mask),
        Ask::Abandon => Answer::from(slip.abandon(index, mask)),
    }
}

// The slip of a task, of the host's and the cleaner's. `Marks::of` chooses in the same way and is another
// function: it gives a mark by value, and a slip can only be lent.
fn slip_of<'a>(task: Task, host: &'a Slip, cleaner: &'a Slip) -> &'a Slip
    ensures { result.now.seat ≡ seat_by host.now.seat cleaner.now.seat task }
{
    match task {
        Task::Host => host,
        Task::Cleaner => cleaner,
    }
}

// The seat of a slip.
fn seat_of(slip: &Slip) -> Seat
    requires { slip.now.seat < 16 }
    ensures { result.number ≡ slip.now.seat }
{
    Seat::try_from(u16::from(slip.seat())).unwrap()
}

// The place that the seat of a slip has marked.
fn mark_of<S: Scheme>(slip: &Slip, scheme: &S) -> Option<Place>
    requires { slip.now.seat < 16 }
    ensures { numbered result ≡ S.Scheme.table scheme.now slip.now.seat }
{
    let seat = seat_of(slip);
    scheme.get(seat)
}

// How many cells the next window of the seat of a slip may meet.
fn width_of<S: Scheme>(slip: &Slip, anchor: &Anchor, scheme: &S) -> u8
    requires seat { slip.now.seat < 16 }
    requires wide { 1 ≤ anchor.now.window }
    ensures { result ≡ reach slip.now.seat anchor.now.window (S.Scheme.table scheme.now slip.now.seat) }
{
    width(seat_of(slip), anchor.window, mark_of(slip, scheme))
}

impl<S: Scheme + Drop> Station<S> {
    ghost use Rattle.std.specs.Prelude.{map, length, Some, IfOk, IfErr};
    ghost use Rattle.tasks.specs.Turns.{Called};
    ghost use Rattle.tasks.specs.Stations.{state, call, Marked, reach_in, SameStation, Watches, Plays, BothLeave, not_opened, Begun};

    // Makes an index over the cells, and the two tasks join. If the second is refused, the first leaves.
    pub(crate) fn open(
        mut cells: [Cell<Wear>; 8],
        mut scheme: S,
        window: u8,
        host: u8,
        cleaner: u8,
    ) -> Result<Station<S>, Refusal>
        ensures begun { IfOk result
            (λ d. Begun S.Scheme.table S.Scheme.strict S.Scheme.acts cells scheme window host cleaner d) }
        ensures seats { IfOk result (λ d. (d.host.seat ≡ host) × (d.cleaner.seat ≡ cleaner)) }
        ensures refused { IfErr result (λ e. not_opened (length cells) window host cleaner ≡ Some e) }
    {
        let mut rows = [Row { doing: Doing::Away }; 16];
        let mut anchor = Anchor {
            count: 8,
            window,
            head: None,
            free: None,
        };
        let mut mask = Mask { level: 0 };
        let mut index = Index::over(&mut cells, &mut rows, &mut anchor, &mut scheme);
        make(&mut index, window)?;
        let host = Slip::join(&mut index, &mut mask, host)?;
        match Slip::join(&mut index, &mut mask, cleaner) {
            Ok(cleaner) => Ok(Station {
                cells,
                rows,
                anchor,
                scheme,
                mask,
                host,
                cleaner,
            }),
            Err(refusal) => {
                host.leave(&mut index, &mut mask).unwrap();
                Err(refusal)
            }
        }
    }

    // A task makes a call, showing its slip.
    pub(crate) fn take(&mut self, turn: Turn) -> Answer
        ensures called { Called S.Scheme.table S.Scheme.strict S.Scheme.acts (state self.old) (call self.old turn)
            result (state self.new) }
        ensures same { SameStation self.old self.new }
    {
        let slip = slip_of(turn.task, &self.host, &self.cleaner);
        let mut index = Index::over(
            &mut self.cells,
            &mut self.rows,
            &mut self.anchor,
            &mut self.scheme,
        );
        show(slip, &mut index, &mut self.mask, turn.ask)
    }

    // What the two tasks have marked.
    fn marks(&self) -> Marks
        ensures { Marked S.Scheme.table self.now result }
    {
        Marks {
            host: mark_of(&self.host, &self.scheme),
            cleaner: mark_of(&self.cleaner, &self.scheme),
        }
    }

    // How many cells the next window of a task may meet.
    fn width_for(&self, task: Task) -> u8
        ensures { result ≡ reach_in S.Scheme.table self.now task }
    {
        let slip = slip_of(task, &self.host, &self.cleaner);
        width_of(slip, &self.anchor, &self.scheme)
    }

    // A task takes its turn, and what is seen of it.
    pub(crate) fn watch(&mut self, turn: Turn) -> Seen
        ensures called { Called S.Scheme.table S.Scheme.strict S.Scheme.acts (state self.old) (call self.old turn)
            result.answer (state self.new) }
        ensures before { Marked S.Scheme.table self.old result.before }
        ensures width { result.width ≡ reach_in S.Scheme.table self.old turn.task }
        ensures after { Marked S.Scheme.table self.new result.after }
        ensures cells { result.cells ≡ self.new.cells }
        ensures head { result.head ≡ self.new.anchor.head }
        ensures same { SameStation self.old self.new }
    {
        let before = self.marks();
        let width = self.width_for(turn.task);
        let answer = self.take(turn);
        let after = self.marks();
        let cells = self.cells;
        let head = self.anchor.head;
        Seen {
            before,
            width,
            answer,
            after,
            cells,
            head,
        }
    }

    // The tasks take their turns, one after another, and each line gets what is seen of its turn.
    pub(crate) fn play(&mut self, lines: &mut [Line])
        ensures turns { map (λ (l : Line). l.turn) lines.new ≡ map (λ (l : Line). l.turn) lines.old }
        ensures watched { Watches S.Scheme.table S.Scheme.strict S.Scheme.acts self.old lines.new self.new }
        ensures plays { Plays S.Scheme.table S.Scheme.strict S.Scheme.acts self.old lines.new self.new }
        ensures same { SameStation self.old self.new }
    {
        for line in lines.iter_mut() {
            line.seen = Some(self.watch(line.turn));
        }
    }

    // The cleaner and then the host leave, and give their slips back.
    pub(crate) fn close(self) -> Closed<S>
        ensures { BothLeave S.Scheme.table S.Scheme.strict S.Scheme.acts self result }
    {
        let Station {
            mut cells,
            mut rows,
            mut anchor,
            mut scheme,
            mut mask,
            host,
            cleaner,
        } = self;
        let mut index = Index::over(&mut cells, &mut rows, &mut anchor, &mut scheme);
        cleaner.leave(&mut index, &mut mask).unwrap();
        host.leave(&mut index, &mut mask).unwrap();
        Closed {
            cells,
            rows,
            anchor,
            scheme,
        }
    }
}

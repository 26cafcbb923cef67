// Who does what, in the order in which the tasks get the processor, and what was seen of it.
ghost use Rattle.std.specs.Prelude.{◌≡◌, Some};
ghost use Rattle.std.specs.Fmt.{padded};
ghost use Rattle.tasks.specs.Turns.{other_task, task_word, mark_by, untaken};

use basis::answer::Answer;
use basis::bounded::Place;
use basis::kind::Kind;
use key_types::wear::Wear;
use list_cells::cell::Cell;
use std::fmt;

/// The two tasks.
#[derive(Clone, Copy, PartialEq, Eq, Debug)]
pub enum Task {
    Host,
    Cleaner,
}

impl Task {
    pub(crate) fn other(self) -> Task
        ensures { result ≡ other_task self }
    {
        match self {
            Task::Host => Task::Cleaner,
            Task::Cleaner => Task::Host,
        }
    }
}

impl fmt::Display for Task {
    ghost output = { λ t. Some (task_word t) };

    ghost styled_output = { λ t spec. Some (padded spec (task_word t)) };

    fn fmt<W: fmt::Write>(&self, f: &mut fmt::Formatter<W>) -> fmt::Result {
        match self {
            Task::Host => f.pad("host"),
            Task::Cleaner => f.pad("cleaner"),
        }
    }
}

/// What a task that has a slip may ask, and go on with it.
#[derive(Clone, Copy, PartialEq, Eq, Debug)]
pub enum Ask {
    Begin { kind: Kind, target: Wear },
    Step,
    Abandon,
}

/// One turn of a task: one call.
#[derive(Clone, Copy, PartialEq, Eq, Debug)]
pub struct Turn {
    pub task: Task,
    pub ask: Ask,
}

/// The places that the two tasks have marked.
#[derive(Clone, Copy, PartialEq, Eq, Debug)]
pub struct Marks {
    pub host: Option<Place>,
    pub cleaner: Option<Place>,
}

impl Marks {
    // The place that this task has marked.
    pub(crate) fn of(self, task: Task) -> Option<Place>
        ensures { result ≡ mark_by self task }
    {
        match task {
            Task::Host => self.host,
            Task::Cleaner => self.cleaner,
        }
    }
}

/// What is seen of a turn: the marks before, how many cells the task's next window might meet then, the answer, and then the marks, the cells
/// and the first listed cell.
#[derive(Clone, Copy, PartialEq, Eq, Debug)]
pub struct Seen {
    pub before: Marks,
    pub width: u8,
    pub answer: Answer,
    pub after: Marks,
    pub cells: [Cell<Wear>; 8],
    pub head: Option<Place>,
}

/// A line of the account: a turn, and what was seen of it once it was taken.
#[derive(Clone, Copy, PartialEq, Eq, Debug)]
pub struct Line {
    pub turn: Turn,
    pub seen: Option<Seen>,
}

impl Line {
    // A line whose turn is not yet taken.
    pub(crate) fn untaken(task: Task, ask: Ask) -> Line
        ensures { result ≡ untaken task ask }
    {
        Line {
            turn: Turn { task, ask },
            seen: None,
        }
    }
}

// The turns of the two tasks, in order.
ghost use Rattle.std.specs.Prelude.{◌≡◌, ◌≤◌};
ghost use Rattle.key_types.specs.Wear.{wear};
ghost use Rattle.tasks.specs.Turns.{untaken};

use crate::turn::{Ask, Line, Task};
use basis::kind::Kind;
use key_types::wear::Wear;

// The lines of a task, by what it asks.
impl Task {
    fn begins(self, kind: Kind, count: u16, block: u16) -> Line
        requires { count ≤ 2875 }
        ensures { result ≡ untaken self (Ask.Begin kind (wear count block)) }
    {
        let target = Wear::new(count, block).unwrap();
        Line::untaken(self, Ask::Begin { kind, target })
    }

    fn steps(self) -> Line
        ensures { result ≡ untaken self Ask.Step }
    {
        Line::untaken(self, Ask::Step)
    }

    fn abandons(self) -> Line
        ensures { result ≡ untaken self Ask.Abandon }
    {
        Line::untaken(self, Ask::Abandon)
    }
}

// The host inserts four keys. Then host and cleaner begin together: the host looks the last key up, the cleaner removes the one before, and
// their first windows, which are not of one width, leave marks on two cells. The host goes on and waits at exactly the entry that the cleaner
// then removes; it starts again at the head and gets its answer, and an insert uses the freed cell. The cleaner begins another remove and
// drops it, and the host steps with nothing to do.
pub(crate) fn schedule() -> [Line; 23] {
    let host = Task::Host;
    let cleaner = Task::Cleaner;
    [
        host.begins(Kind::Insert, 40, 5),
        host.steps(),
        host.begins(Kind::Insert, 20, 4),
        host.steps(),
        host.begins(Kind::Insert, 30, 2),
        host.steps(),
        host.steps(),
        host.begins(Kind::Insert, 10, 9),
        host.steps(),
        host.begins(Kind::Lookup, 40, 5),
        cleaner.begins(Kind::Remove, 30, 2),
        host.steps(),
        cleaner.steps(),
        host.steps(),
        cleaner.steps(),
        host.steps(),
        host.steps(),
        host.begins(Kind::Insert, 35, 1),
        host.steps(),
        host.steps(),
        cleaner.begins(Kind::Remove, 10, 9),
        cleaner.abandons(),
        host.steps(),
    ]
}

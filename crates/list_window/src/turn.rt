// What a call makes of a row.
ghost use Rattle.std.specs.Prelude.{◌≡◌};
ghost use Rattle.list_law.specs.Call.{turn};
ghost use Rattle.list_window.specs.Rows.{doing_of};
ghost use Rattle.list_window.specs.Turns.{what_of, turned};

use crate::row::Doing;
use basis::bounded::Seat;
use basis::kind::Kind;
use basis::refusal::Refusal;
use keys::key::Key;

/// What a seat may ask of the index.
#[derive(Clone, Copy, PartialEq, Eq, Debug)]
pub enum Request<K> {
    Join,
    Leave,
    Begin { kind: Kind, target: K },
    Step,
    Abandon,
}

/// What a call that is not refused makes of a row: another row, with or without a release of the seat's mark, or a window.
#[derive(Clone, Copy, PartialEq, Eq, Debug)]
pub enum Turn<K> {
    Becomes { doing: Doing<K>, releases: bool },
    Runs { kind: Kind, target: K },
}

// Row and call together.
pub(crate) fn turn_at<K: Key>(
    seat: Seat,
    doing: Doing<K>,
    request: Request<K>,
) -> Result<Turn<K>, Refusal>
    ensures { turned seat.number result ≡ turn seat.number (doing_of doing) (what_of request) }
{
    match (doing, request) {
        (Doing::Away, Request::Join) => Ok(Turn::Becomes {
            doing: Doing::Idle,
            releases: false,
        }),
        (Doing::Away, _) => Err(Refusal::Away),
        (_, Request::Join) => Err(Refusal::NotAway),
        (_, Request::Leave) => Ok(Turn::Becomes {
            doing: Doing::Away,
            releases: true,
        }),
        (Doing::Idle, Request::Begin { kind, target }) => Ok(Turn::Becomes {
            doing: Doing::Running { kind, target },
            releases: false,
        }),
        (Doing::Running { .. }, Request::Begin { .. }) => Err(Refusal::AlreadyRunning),
        (Doing::Idle, _) => Err(Refusal::NotRunning),
        (Doing::Running { kind, target }, Request::Step) => Ok(Turn::Runs { kind, target }),
        (Doing::Running { .. }, Request::Abandon) => Ok(Turn::Becomes {
            doing: Doing::Idle,
            releases: true,
        }),
    }
}

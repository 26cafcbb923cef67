// The rows of the seats, read and written.
ghost use Rattle.std.specs.Prelude.{◌≡◌, ◌<◌, map, length, slice_set};
ghost use Rattle.list_law.specs.Call.{row_at};
ghost use Rattle.list_window.specs.Rows.{row_of, doing_of};

use crate::row::{Doing, Row};
use basis::bounded::Seat;
use keys::key::Key;

/// What a seat is about; a row that is not there is away.
pub fn row_at<K: Key>(rows: &[Row<K>], seat: Seat) -> Doing<K>
    ensures { doing_of result ≡ row_at (map row_of rows.now) seat.number }
{
    match rows.get(seat.index()) {
        Some(row) => row.doing,
        None => Doing::Away,
    }
}

/// The row of a seat is written whole.
pub fn put_row<K: Key>(rows: &mut [Row<K>], seat: Seat, doing: Doing<K>)
    ensures { map row_of rows.new ≡ slice_set (map row_of rows.old) seat.number (doing_of doing) }
{
    // by index: `get_mut` of a slice promises how long it is afterwards, and no element
    let at = seat.index();
    if at < rows.len() {
        rows[at] = Row { doing };
    }
}

// The sizes of what an index is lent.
ghost use Rattle.std.specs.Prelude.{◌≡◌};
ghost use Rattle.list_law.specs.Making.{makes};

/// The sizes that making takes: so many cells and rows, and cells that a window may meet.
pub fn sizes_fit(cells: usize, rows: usize, window: u8) -> bool
    ensures { result ≡ makes cells rows window }
{
    (1 <= cells) & (cells <= 1008) & (rows == 16) & (1 <= window) & (window <= 64)
}

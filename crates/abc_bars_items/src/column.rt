//! Columns of faults.

ghost use Rattle.std.specs.Prelude.{◌≡◌, ◌+◌};
ghost use Rattle.abc_bars_items.specs.Column.{column_of};

/// The column in which a field line begins, counted from 1.
pub const FIRST_COLUMN: u32 = 1;

/// The column, counted from 1, of the byte at a place of a line, counted from 0. A line has at most 65,535 bytes, so
/// no column is cut off at the greatest `u32`.
pub fn column_of(place: usize) -> u32
    ensures { result ≡ column_of place }
{
    u32::try_from(place).map_or(u32::MAX, |place| place.saturating_add(1))
}

/// The column of a byte by its place inside something and the place of that.
pub fn column_inside(from: usize, inside: usize) -> u32
    ensures { result ≡ column_of (from + inside) }
{
    column_of(from.saturating_add(inside))
}

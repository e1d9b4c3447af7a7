// The tests on rows, and the look-up in them.
ghost use Rattle.std.specs.Prelude.{◌≡◌};
ghost use Rattle.curves.specs.Rows.{in_range, climbs, points_at};

use crate::row::Row;
use costs::HIGHEST;
use time::LAST_TICK;

// Whether the tick and the points of every row are within their ranges.
pub(super) fn all_in_range(rows: &[Row]) -> bool
    ensures { result ≡ in_range rows.now }
{
    rows.iter().all(|row| row.tick <= u64::from(LAST_TICK) && row.points <= HIGHEST)
}

// Whether ticks strictly rise and points never fall from row to row.
pub(super) fn all_climb(rows: &[Row]) -> bool
    ensures { result ≡ climbs rows.now }
{
    let mut neighbours = rows.iter().zip(rows.iter().skip(1));
    neighbours.all(|(last, row)| last.tick < row.tick && last.points <= row.points)
}

// The points of the last row at or before that tick, 0 before the first.
pub(super) fn points_at(rows: &[Row], t: u64) -> u64
    ensures { result ≡ points_at rows.now t }
{
    // by going through the rows: of `.rev().find(..)` the check does not see which row it is, and `partition_point` asks that the rows climb, which
    // the look-up does not need, and still leaves the last of those before it to be taken. The rows are copied: of borrowed ones that it knows, the
    // compiler made a chain of jumps, and a reading took longer
    rows.iter().copied().fold(
        0,
        |points, row| if row.tick <= t { row.points } else { points },
    )
}

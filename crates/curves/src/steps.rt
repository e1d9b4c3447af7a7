// Steps: points that jump at given ticks. There are one to eight rows, whose ticks strictly rise and whose points never fall; the type
// carries that.
ghost use Rattle.std.specs.Prelude.{◌≡◌, true};
ghost use Rattle.curves.specs.Rows.{in_range, fit};
ghost use Rattle.tables.specs.Filled.{items_of};

use crate::row::Row;
use tables::Filled;

mod calls;
mod rows;

// How many rows there may be.
pub const MOST_ROWS: usize = 8;

#[derive(Clone, Copy)]
pub struct Steps {
    rows: Filled<Row, MOST_ROWS>,
    ghost ranged: { in_range (items_of rows) ≡ true },
    ghost climbing: { fit (items_of rows) ≡ true },
}

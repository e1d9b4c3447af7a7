// Curves: what it costs to end a move at a tick. The trait says what a curve promises, and three curves stand on no other. Nothing here
// refuses but the making of a curve whose numbers are out of range.
#![tactic(auto)]

mod curve;
mod graded_late;
mod late;
mod row;
mod steps;

pub use costs::Factor;
pub use curve::Curve;
pub use graded_late::GradedLate;
pub use late::Late;
pub use row::Row;
pub use steps::{MOST_ROWS, Steps};

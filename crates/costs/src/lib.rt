// Kinds of cost: what a late bar costs, and how two costs compare. Two kinds are here, points and graded costs; the code above is written
// over any kind. Nothing here refuses but the making of a value that is out of range.
#![tactic(auto)]

mod bounded;
mod choice;
mod graded;
mod kind;
mod points;
mod refusal;

pub use bounded::{Bounded, Factor, Grade, LAST_GRADE, LateGrade, Ticks};
pub use choice::{greater, lesser};
pub use graded::Graded;
pub use kind::CostKind;
pub use points::{HIGHEST, Points};
pub use refusal::PricingRefusal;

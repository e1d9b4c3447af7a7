// Moves by their numbers, and sets of them. A set is one word of bits that nobody outside this crate sees: every promise here speaks
// of which numbers a set holds, or of the rising list of them. Nothing here refuses, for the types leave nothing to refuse.
#![tactic(auto)]

mod number;
mod set;
mod walk;

pub use number::{MoveNumber, ROOM};
pub use set::MoveSet;
pub use walk::Members;

#[cfg(test)]
mod tests;

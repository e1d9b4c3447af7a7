// Tables of a fixed size that are filled from the front. Nothing here needs memory of its own: a table is a plain value and can be copied.
#![tactic(auto)]

mod filled;

pub use filled::Filled;

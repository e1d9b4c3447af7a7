// The planning rule over a sheet. So far it has the ready times of the moves, and the earliest tick at which one drive can be through
// with all of them. Nothing here changes a sheet or refuses one.
#![tactic(auto)]

mod over;
mod sweep;
mod table;
#[cfg(test)]
mod tests;
mod timed;

pub use over::earliest_over;
pub use sweep::ready_times;
pub use table::ReadyTable;

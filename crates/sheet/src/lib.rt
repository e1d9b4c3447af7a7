// The sheet: which moves there are, and which has to wait for which.
#![tactic(auto)]

mod call;
mod entry;
mod figures;
mod refusal;
mod runs;
mod sheet;
mod tie;

pub use call::Call;
pub use figures::Move;
pub use refusal::Refusal;
pub use runs::replay;
pub use sheet::Sheet;

#[cfg(test)]
mod tests;

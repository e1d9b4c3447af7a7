// Layers: curves that stand over other curves and change what they answer. Each holds the curve below by value and is again a curve. The
// numbers of a layer are checked when they are made, so making a layer refuses nothing.
#![tactic(auto)]

mod ceiling;
mod delay;
mod larger;
mod weight;

pub use ceiling::Ceiling;
pub use delay::Delay;
pub use larger::Larger;
pub use weight::Weight;

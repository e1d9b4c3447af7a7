// Tariffs: the curves of a sheet by their numbers, as the planner reads them. The trait says what a tariff promises; a single curve, two
// tariffs joined and the tariff of a cue text stand here.
#![tactic(auto)]

mod cue_curve;
mod cue_tariff;
mod joined;
mod price;
mod single;
mod tariff;

pub use cue_curve::{CueBase, CueCurve};
pub use cue_tariff::CueTariff;
pub use joined::Joined;
pub use price::price_list;
pub use single::Single;
pub use tariff::{MOST_CURVES, Tariff};

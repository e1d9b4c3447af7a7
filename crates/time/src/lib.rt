// Time, counted in ticks, ten to a second. Here is the last tick, and no code.
#![tactic(auto)]

// The last tick. No move of a sheet need run past it, and no curve tells later ticks apart.
pub const LAST_TICK: u32 = 1_000_000;

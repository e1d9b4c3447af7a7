// What a call answered, as a number.
use costs::PricingRefusal;

// The greatest number that can be given.
pub(crate) const MAX: u64 = u64::MAX;

// The last tick and the highest points.
pub(crate) const LAST: u64 = 1_000_000;

pub(crate) const HIGH: u64 = 1_000_000_000_000_000;

// The number of the refusal, or 0 where there is none. The tests of the sheet have the same of their own refusals: a trait over both enums,
// for two tests alone, would be no plainer.
pub(crate) fn answer<T: Drop>(r: Result<T, PricingRefusal>) -> u8 {
    r.err().map_or(0, |refusal| refusal.number())
}

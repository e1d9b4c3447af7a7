// A price list: what it costs by one curve of a tariff to end at each of some ticks.
ghost use Rattle.std.specs.Prelude.{◌≡◌, ℕ, ◌<◌, length, drop, slice_index, slice_index_or};
ghost use Rattle.curves.specs.Meaning.{reading};

use crate::tariff::Tariff;

// The ticks and the prices are two lists, because a caller lends the second; the tariff and k are apart, as in the tariff's own call.
// Writes what it costs by curve k to end at each of those ticks into the place of its number, as far as there are places.
pub fn price_list<T: Tariff>(tariff: &T, k: u8, ticks: &[u32], prices: &mut [T::Cost])
    ensures each { (i : ℕ) (d : T.Cost) → i < length ticks.now → i < length prices.new → slice_index_or prices.new i d ≡ reading (T.curve_at tariff.now k) (slice_index ticks.now i) }
    ensures later { drop (length ticks.now) prices.new ≡ drop (length ticks.now) prices.old }
{
    let count = ticks.len().min(prices.len());
    // by place, and not by `prices.iter_mut().zip(ticks)`: after an adapter over `iter_mut` nothing is known of what was written
    for (i, tick) in ticks[..count].iter().enumerate() {
        prices[i] = tariff.cost(k, *tick);
    }
}

// A table of N places that is filled from the front.
ghost use Rattle.std.specs.Prelude.{⊤, ◌≡◌, ◌≤◌, length};

use std::alloc::AllocError;

mod calls;

#[derive(Drop)]
pub struct Filled<T, const N: usize> {
    // the items, at the first places; the other places are not read
    items: [T; N],
    count: usize,
    ghost places: { length items ≡ N },
    ghost few: { count ≤ N },
}

// Written out, since neither can be derived for a generic struct with a ghost field.
impl<T: Copy, const N: usize> Copy for Filled<T, N> {}

impl<T: Copy, const N: usize> Clone for Filled<T, N> {
    ghost is_clone = { λ a b. b ≡ a };

    ghost is_infallible = { λ _. ⊤ };

    fn clone(&self) -> Result<Self, AllocError> {
        Ok(*self)
    }
}

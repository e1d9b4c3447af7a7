// Filling a table, and reading it.
ghost use Rattle.std.specs.Prelude.{◌≡◌, ◌<◌, ◌≤◌, [], ◌∷◌, ◌++◌, length, MatchOption};
ghost use Rattle.tables.specs.Filled.{items_of, next_place};

use super::Filled;

impl<T: Copy, const N: usize> Filled<T, N> {
    // A table with no item. The filler stands at the places that are not read.
    pub fn new(filler: T) -> Self
        ensures { items_of result ≡ [] }
    {
        Filled {
            items: [filler; N],
            count: 0,
        }
    }

    // A table with those items, or nothing where there are more than it has places.
    #[tactic(auto, using(std::proofs::lemmas::Slice::overwrites))]
    pub fn from_slice(filler: T, items: &[T]) -> Option<Self>
        ensures { MatchOption result (N < length items.now) (λ t. items_of t ≡ items.now) }
    {
        if items.len() > N {
            return None;
        }
        let mut table = [filler; N];
        table[..items.len()].copy_from_slice(items);
        Some(Filled {
            items: table,
            count: items.len(),
        })
    }

    // Puts the item at the next place and answers that place; where none is left it answers nothing and leaves the table as it was.
    pub fn push(&mut self, item: T) -> Option<usize>
        ensures place { result ≡ next_place N (items_of self.old) }
        ensures items { MatchOption result (self.new ≡ self.old) (λ _. items_of self.new ≡ items_of self.old ++ item ∷ []) }
    {
        let place = self.count;
        if place == N {
            return None;
        }
        self.items[place] = item;
        self.count += 1;
        Some(place)
    }

    // The items.
    pub fn as_slice(&self) -> &[T]
        ensures items { result.now ≡ items_of self.now }
        ensures few { length result.now ≤ N }
    {
        &self.items[..self.count]
    }

    // How many items there are.
    pub fn len(&self) -> usize
        ensures value { result ≡ length (items_of self.now) }
        ensures few { result ≤ N }
    {
        self.as_slice().len()
    }
}

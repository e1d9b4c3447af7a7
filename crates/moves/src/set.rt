// A set of moves: one word, with a bit for each number.
ghost use Rattle.std.specs.Prelude.{◌≡◌, ℕ, true, not, ◌&&◌, ◌||◌, length, Decides, MatchOption, ◌==◌, nat_lt};
ghost use Rattle.moves.specs.Room.{room};
ghost use Rattle.moves.specs.Number.{number};
ghost use Rattle.moves.specs.Members.{holds, members, Holds, HoldsNone, Listed, Lowest};
ghost use Rattle.moves.specs.Walk.{Step};

use crate::number::MoveNumber;

#[derive(Clone, Copy, PartialEq, Eq)]
pub struct MoveSet {
    word: u64,
}

impl MoveSet {
    // The set of no moves.
    #[tactic(auto, using(crate::proofs::Words::none_holds))]
    pub fn empty() -> MoveSet
        ensures { HoldsNone result }
    {
        MoveSet { word: 0 }
    }

    // The set of every move number.
    #[tactic(auto, using(crate::proofs::Words::all_holds))]
    pub fn all() -> MoveSet
        ensures { Holds result (λ k. nat_lt k room) }
    {
        MoveSet { word: u64::MAX }
    }

    // Whether the move is in the set.
    #[tactic(auto, using(crate::proofs::Words::bit_tested))]
    pub fn contains(self, m: MoveNumber) -> bool
        ensures { result ≡ holds self (number m) }
    {
        (self.word >> m.index()) & 1 == 1
    }

    // The set with that move in it, whether or not it was there.
    #[tactic(auto, using(crate::proofs::Words::with_holds))]
    pub fn with(self, m: MoveNumber) -> MoveSet
        ensures { Holds result (λ k. (k == number m) || holds self k) }
    {
        MoveSet {
            word: self.word | (1 << m.index()),
        }
    }

    // The set without that move, whether or not it was there.
    #[tactic(auto, using(crate::proofs::Words::without_holds))]
    pub fn without(self, m: MoveNumber) -> MoveSet
        ensures { Holds result (λ k. not (k == number m) && holds self k) }
    {
        MoveSet {
            word: self.word & !(1 << m.index()),
        }
    }

    // The moves that are in one of the two sets or in both.
    #[tactic(auto, using(crate::proofs::Words::or_holds))]
    pub fn union(self, other: MoveSet) -> MoveSet
        ensures { Holds result (λ k. holds self k || holds other k) }
    {
        MoveSet {
            word: self.word | other.word,
        }
    }

    // The moves that are in both sets.
    #[tactic(auto, using(crate::proofs::Words::and_holds))]
    pub fn intersection(self, other: MoveSet) -> MoveSet
        ensures { Holds result (λ k. holds self k && holds other k) }
    {
        MoveSet {
            word: self.word & other.word,
        }
    }

    // The moves of this set that are not in the other.
    #[tactic(auto, using(crate::proofs::Words::minus_holds))]
    pub fn difference(self, other: MoveSet) -> MoveSet
        ensures { Holds result (λ k. holds self k && not (holds other k)) }
    {
        MoveSet {
            word: self.word & !other.word,
        }
    }

    // Whether each move of this set is in the other.
    #[tactic(auto, using(crate::proofs::Sets::none_or_some))]
    pub fn is_subset(self, other: MoveSet) -> bool
        ensures { Decides result ((k : ℕ) → holds self k ≡ true → holds other k ≡ true) }
    {
        self.difference(other).is_empty()
    }

    // How many moves are in the set.
    #[tactic(auto, using(crate::proofs::Words::length_ones))]
    pub fn count(self) -> u32
        ensures many { result ≡ length (members self) }
        ensures list { Listed self }
    {
        self.word.count_ones()
    }

    // Whether no move is in the set.
    pub fn is_empty(self) -> bool
        ensures { result ≡ (length (members self) == 0) }
    {
        self.count() == 0
    }

    // The move with the lowest number in the set. A word with no bit has 64 zeros at its low end, and no move has that number.
    #[tactic(auto, using(crate::proofs::Words::none_lowest, crate::proofs::Words::some_lowest))]
    pub fn lowest(self) -> Option<MoveNumber>
        ensures { MatchOption result (HoldsNone self) (λ m. Lowest self (number m)) }
    {
        MoveNumber::new(u64::from(self.word.trailing_zeros()))
    }

    // Takes the move with the lowest number out of the set.
    pub fn take_lowest(&mut self) -> Option<MoveNumber>
        ensures { Step self.old result self.new }
    {
        let m = self.lowest()?;
        *self = self.without(m);
        Some(m)
    }
}

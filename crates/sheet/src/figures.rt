// The figures of a move; scheduling texts call a move a job. A move raises or lowers one bar.
ghost use Rattle.std.specs.Prelude.{◌≡◌, true, false, MatchOption};
ghost use Rattle.sheet.specs.Facts.{in_range};

// The greatest release, length and curve number.
const LAST_RELEASE: u64 = 999_999;

const LONGEST: u64 = 65_535;

const LAST_CURVE: u64 = 15;

#[derive(Clone, Copy, PartialEq, Eq)]
pub struct Move {
    // the tick before which it may not run: 0 to 999,999
    pub release: u32,
    // for how many ticks it runs in all: 1 to 65,535 (its processing time)
    pub length: u32,
    // which curve of the tariff says what it costs to end late: 0 to 15
    pub curve: u8,
}

impl Move {
    // The figures of a move that is not on the sheet.
    pub const NOTHING: Move = Move {
        release: 0,
        length: 0,
        curve: 0,
    };

    // Those figures, or nothing where one of them is outside its range.
    pub(crate) fn ranged(release: u64, length: u64, curve: u64) -> Option<Move>
        ensures { MatchOption result (in_range release length curve ≡ false) (λ m. (in_range release length curve ≡ true) × (m.release ≡ release) × (m.length ≡ length) × (m.curve ≡ curve)) }
    {
        if release > LAST_RELEASE || length == 0 || length > LONGEST || curve > LAST_CURVE {
            return None;
        }
        Some(Move {
            release: release as u32,
            length: length as u32,
            curve: curve as u8,
        })
    }
}

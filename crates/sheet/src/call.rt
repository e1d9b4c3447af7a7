// The calls that can be made on a sheet, with their arguments, as values: a list of them is a run. Each can be printed.
ghost use Rattle.std.specs.Prelude.{Some};
ghost use Rattle.sheet.specs.Shown.{shown};

use std::fmt;

#[derive(Clone, Copy, PartialEq, Eq)]
pub enum Call {
    // puts a move on the sheet
    Enter {
        number: u64,
        release: u64,
        length: u64,
        curve: u64,
    },
    // says that the second move may not run before the first is finished
    Tie {
        before: u64,
        after: u64,
    },
    // takes such a tie away
    Cut {
        before: u64,
        after: u64,
    },
    // takes a move away, with every tie at it
    Strike {
        number: u64,
    },
    // questions to the planner: they leave the sheet as it is
    Plan,
    Floor,
    Check,
}

impl fmt::Display for Call {
    ghost output = { λ c. Some (shown c) };

    fn fmt<W: fmt::Write>(&self, f: &mut fmt::Formatter<W>) -> fmt::Result {
        match self {
            Call::Enter {
                number,
                release,
                length,
                ..
            } => write!(f, "enter {number} from {release} for {length}"),
            Call::Tie { before, after } => write!(f, "tie {before} before {after}"),
            Call::Cut { before, after } => write!(f, "cut {before} before {after}"),
            Call::Strike { number } => write!(f, "strike {number}"),
            Call::Plan => f.write_str("plan"),
            Call::Floor => f.write_str("floor"),
            Call::Check => f.write_str("check"),
        }
    }
}

// The scene change that the program goes through: its bars, and the calls that put them on the sheet.
use sheet::Call;

// What hangs on the bar with that number. `scene_prices` has the same list: two programs that are read alone, and a crate between them
// for five names would be no plainer.
pub(crate) fn name_of(n: u64) -> &'static str {
    match n {
        0 => "forest cloth out",
        1 => "tree border out",
        2 => "palace cloth in",
        3 => "chandelier in",
        4 => "throne gauze in",
        _ => "no bar of this scene",
    }
}

// How many calls the scene has.
pub(crate) const CALLS: usize = 18;

// The calls of the scene; seven of them meet a refusal, one for each reason.
pub(crate) fn calls() -> [Call; CALLS] {
    [
        enter(0, 0, 80),
        enter(1, 0, 30),
        enter(2, 20, 75),
        enter(3, 60, 40),
        enter(64, 0, 10),
        enter(2, 0, 10),
        enter(4, 90, 0),
        enter(4, 90, 25),
        enter(5, 999_800, 1),
        tie(0, 2),
        tie(2, 3),
        tie(3, 0),
        tie(1, 9),
        tie(1, 3),
        cut(3, 1),
        cut(1, 3),
        Call::Strike { number: 4 },
        enter(4, 200, 25),
    ]
}

// The three calls in short, for this list alone.
fn enter(number: u64, release: u64, length: u64) -> Call {
    Call::Enter {
        number,
        release,
        length,
        curve: 0,
    }
}

fn tie(before: u64, after: u64) -> Call {
    Call::Tie { before, after }
}

fn cut(before: u64, after: u64) -> Call {
    Call::Cut { before, after }
}

// The bars of the scene that is priced, as they stand on the sheet at the end of the scene change.
use sheet::{Call, Sheet, replay};

// What hangs on the bar with that number. `scene` has the same list: two programs that are read alone, and a crate between them for five
// names would be no plainer.
pub(crate) fn name_of(n: u64) -> &'static str {
    match n {
        0 => "forest cloth out",
        1 => "tree border out",
        2 => "palace cloth in",
        3 => "chandelier in",
        4 => "throne gauze in",
        _ => "no bar of this scene",
    }
}

// The sheet with these bars.
pub(crate) fn on_a_sheet() -> Sheet {
    let calls = [
        enter(0, 0, 80),
        enter(1, 0, 30),
        enter(2, 20, 75),
        enter(3, 60, 40),
        enter(4, 200, 25),
    ];
    let mut answers = [Ok(()); 5];
    replay(&calls, &mut answers)
}

// Enters a bar, priced by the curve of its own number; in short, for this list alone.
fn enter(number: u64, release: u64, length: u64) -> Call {
    Call::Enter {
        number,
        release,
        length,
        curve: number % 16,
    }
}

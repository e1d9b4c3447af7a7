// A scene change from beginning to end: the sheet is filled call by call, each with its answer, and then the bars are listed with the
// tick at which each can run at the earliest.
#![tactic(auto)]

mod change;
mod listing;
mod steps;

use sheet::replay;
use std::io;

fn main(rt: HostRuntime) -> io::Result<()> {
    let calls = change::calls();
    let mut answers = [Ok(()); change::CALLS];
    let sheet = replay(&calls, &mut answers);
    println!(rt; "Forest to palace: one drive, ticks of a tenth of a second")?;
    println!(rt)?;
    steps::show(&rt, &calls, &answers)?;
    println!(rt)?;
    listing::show(&rt, &sheet)
}

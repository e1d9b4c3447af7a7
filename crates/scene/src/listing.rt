// The listing that a stage manager reads: every bar with its earliest tick, and when the change can be over.
use crate::change::name_of;
use moves::MoveNumber;
use rule::{ReadyTable, earliest_over, ready_times};
use sheet::{Move, Sheet};
use std::io;

// Prints a line for each bar on the sheet, and the earliest end of the whole change.
pub(crate) fn show(rt: &HostRuntime, sheet: &Sheet) -> io::Result<()> {
    let ready = ready_times(sheet);
    println!(rt; "bar  what               release  length  ready  waits for")?;
    for m in sheet.moves().iter() {
        show_bar(rt, sheet, &ready, m)?;
    }
    let over = earliest_over(sheet);
    let seconds = over / 10;
    let tenth = over % 10;
    println!(rt)?;
    println!(rt;
        "One drive can be through at tick {over} at the earliest, after {seconds}.{tenth} seconds."
    )
}

// Prints the line of one bar.
fn show_bar(rt: &HostRuntime, sheet: &Sheet, ready: &ReadyTable, m: MoveNumber) -> io::Result<()> {
    let n = m.get();
    let name = name_of(n);
    let Move {
        release,
        length,
        ..
    } = sheet.figures_of(m);
    let time = ready.at(m);
    print!(rt; "{n:>3}  {name:<17}  {release:>7}  {length:>6}  {time:>5}")?;
    show_waits(rt, sheet, m)
}

// Prints the bars that have to be at rest before that one moves, and ends the line.
fn show_waits(rt: &HostRuntime, sheet: &Sheet, m: MoveNumber) -> io::Result<()> {
    for other in sheet.moves().iter() {
        if sheet.waiting_for(other).contains(m) {
            let n = other.get();
            print!(rt; " {n:>2}")?;
        }
    }
    println!(rt)
}

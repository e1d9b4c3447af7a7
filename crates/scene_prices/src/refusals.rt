// Curves that nobody can make: each with the number of its refusal and the reason in words.
use costs::PricingRefusal;
use curves::{Late, Row, Steps};
use std::io;

// Prints a line for each.
pub(crate) fn show(rt: &HostRuntime) -> io::Result<()> {
    println!(rt; "Curves that cannot be made:")?;
    if let Err(refusal) = Late::new(80, 1_001) {
        show_one(rt, "due at tick 80, then 1001 points a tick", refusal)?;
    }
    let rows = [Row { tick: 4, points: 1 }, Row { tick: 4, points: 2 }];
    if let Err(refusal) = Steps::new().fill(&rows) {
        show_one(rt, "1 point from tick 4, 2 points from tick 4", refusal)?;
    }
    Ok(())
}

// Prints what was asked for, and why it was refused.
fn show_one(rt: &HostRuntime, asked: &str, refusal: PricingRefusal) -> io::Result<()> {
    let number = refusal.number();
    println!(rt; "{asked}: refused with {number}, {refusal}")
}

// The calls of the scene, each printed with its answer.
use sheet::{Call, Refusal};
use std::io;

// Prints a line for each call.
pub(crate) fn show(
    rt: &HostRuntime,
    calls: &[Call],
    answers: &[Result<(), Refusal>],
) -> io::Result<()> {
    for (call, answer) in calls.iter().zip(answers) {
        // by cases: each prints a line of its own
        match answer {
            Ok(()) => println!(rt; "{call}: done")?,
            Err(refusal) => {
                println!(rt; "{call}: refused with {}, {refusal}", refusal.number())?
            }
        }
    }
    Ok(())
}

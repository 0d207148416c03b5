//! Runs the bodies of a table, and prints what each of them comes to.
//!
//! An empty line, or one that begins with `#`, is for the reader. Every other line is a case: its head, `: ` and its body.
//! The head begins with the number of steps that the run may begin and the number of temporaries. Behind `dummies` stand the
//! lengths of what the dummies are associated with, and behind `<` the integers of the input. `reading` has the notation of
//! bodies, and `callees` what its sites call.
//!
//! Printed are the case, and below it the output and how the run ended.
#![tactic(auto)]

mod callees;
mod cases;
mod reading;

use cases::found_of;
use std::io;

fn main(rt: HostRuntime) -> io::Result<()> {
    for line in rt.lines(rt.alloc()) {
        let line = line?;
        if line.is_empty() || line.starts_with('#') {
            continue;
        }
        let found = found_of(rt.alloc(), line.as_str())?;
        println!(rt; "{line}")?;
        println!(rt; "    {found}")?;
    }
    Ok(())
}

//! Runs the programs of a table, and prints what each of them comes to.
//!
//! An empty line, or one that begins with `#`, is for the reader. Every other line is a case: its head, `: ` and its program,
//! as `table_notation` has source texts. The head begins with the number of steps that the run may begin, or with `*` for a run
//! that ends by itself. Behind `<` stand the integers of its input, behind `room` the number of bytes that its sink takes, and
//! behind `fails` the writes that fail there, counted from 1.
//!
//! Printed are the case, and below it the output, how the run ended and, where it may begin one step less, how it ends then.
#![tactic(auto)]

mod cases;
mod programs;
mod runs;

use cases::found_of;
use std::io;

fn main(rt: HostRuntime) -> io::Result<()> {
    for line in rt.lines(rt.alloc()) {
        let line = line?;
        if line.is_empty() || line.starts_with('#') {
            continue;
        }
        let found = found_of(rt.alloc(), line.as_str())?;
        println!(rt; "{line}")?;
        println!(rt; "    {found}")?;
    }
    Ok(())
}

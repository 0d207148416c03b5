//! Prints for each line of JSON in its standard input which object it stands for, and what that object's JSON is.
//!
//! An empty line, or one that begins with `#`, is for the reader. Every other line is printed again, and below it the code,
//! the relocations, the size and the initial runs of the object, and its JSON where that isn't the line itself.
#![tactic(auto)]

mod answers;
mod shown;

use answers::answer_of;
use std::io;

fn main(rt: HostRuntime) -> io::Result<()> {
    for line in rt.lines(rt.alloc()) {
        let line = line?;
        if line.is_empty() || line.starts_with('#') {
            continue;
        }
        let answer = answer_of(rt.alloc(), line.as_str())?;
        println!(rt; "{line}")?;
        println!(rt; "    {answer}")?;
    }
    Ok(())
}

//! Calls the top function for each case of a table, over ports in memory, and prints what the call comes to.
//!
//! An empty line, or one that begins with `#`, is for the reader. Every other line is a case: the words, then `: ` and the
//! standard input, as `table_notation` has source texts. Behind the words may stand ` | ` and what the ports are: behind `reads`,
//! `writes`, `loads` and `replaces` the turns that fail, counted from 1, and behind `store` what the store holds. In place of
//! the words `@file` asks for the file of the text.
//!
//! Printed are the case, and below it the number of the status, the text that was written, what the store holds and the notes.
#![tactic(auto)]

mod calls;
mod cases;
mod files;
mod notes;

use cases::found_of;
use std::io;

fn main(rt: HostRuntime) -> io::Result<()> {
    for line in rt.lines(rt.alloc()) {
        let line = line?;
        if line.is_empty() || line.starts_with('#') {
            continue;
        }
        let found = found_of(rt.alloc(), line.as_str())?;
        println!(rt; "{line}")?;
        println!(rt; "    {found}")?;
    }
    Ok(())
}

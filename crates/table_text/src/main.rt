//! Prints what is found in each row of a table of texts: names, lines and units, tokens, expressions and forms.
#![tactic(auto)]

mod expressions;
mod forms;
mod questions;
mod slowly;
mod texts;
mod trees;

use questions::answer;
use std::io;
use table_rows::{answered, is_comment};

fn main(rt: HostRuntime) -> io::Result<()> {
    let alloc = rt.alloc();
    let mut question = String::new(alloc);
    for line in rt.lines(alloc) {
        let line = line?;
        if is_comment(line.as_str()) {
            continue;
        }
        if line.starts_with('@') {
            println!(rt; "{line}")?;
            question = line;
        } else {
            let answer = answer(alloc, question.as_str(), line.as_bytes())?;
            let told = answered(alloc, line.as_bytes(), answer.as_slice())?;
            rt.stdout().write_all(told.as_slice())?;
        }
    }
    Ok(())
}

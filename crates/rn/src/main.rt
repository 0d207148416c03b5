//! The program. Its first argument is the path of the store, and each of the others is a word of the command.
#![tactic(auto)]

use fixed_form::List;
use rn_ports::{FreeGate, ListTally, MemKeeper, Reading, Writing};
use rn_session::{Status, rn_top};
use std::alloc::{AllocError, Global};
use std::process::ExitCode;
use std::{env, io};

// The status where no memory is found for the words and the ports.
const OUT_OF_MEMORY: u8 = 7;

// The words, or none where the system refuses the arguments; an error where memory runs out.
fn words(rt: HostRuntime) -> Result<Vec<List<u8>>, AllocError> {
    let alloc = rt.alloc();
    let mut words = Vec::new(alloc);
    match env::args(&rt) {
        Ok(arguments) => {
            // The program's name and the path come first.
            for argument in arguments.skip(2) {
                words.push(List::from_slice(alloc, argument.as_bytes())?)?;
            }
            Ok(words)
        }
        Err(error) => match error.kind() {
            io::ErrorKind::OutOfMemory => Err(AllocError),
            _ => Ok(words),
        },
    }
}

// No command asks the keeper, so it is one in memory without bytes.
fn run(rt: HostRuntime) -> Result<Status, AllocError> {
    let alloc = rt.alloc();
    let words = words(rt)?;
    let mut keep = MemKeeper::new(alloc, &[], 0, Vec::new(alloc), Vec::new(alloc))?;
    let mut input = Reading::new(rt.stdin());
    let mut out = Writing::new(rt.stdout());
    let mut tally = ListTally::new(alloc)?;
    let status = rn_top(
        alloc,
        words.as_slice(),
        &mut input,
        &mut out,
        &mut keep,
        &FreeGate,
        &mut tally,
    );
    Ok(status)
}

fn main(rt: HostRuntime) -> ExitCode {
    match run(rt) {
        Ok(status) => ExitCode::from(status.number()),
        Err(_) => ExitCode::from(OUT_OF_MEMORY),
    }
}

//! The file of a text.
use super::notes::notes_of;
use f77_tree::Refused;
use rn_ports::ListTally;
use rn_session::thin_file;
use std::alloc::{AllocError, Global};

// Whether there is a file, and whether it begins as an ELF file does; else the fault and its line.
fn told(alloc: Global, made: Result<Vec<u8>, Refused>) -> Result<String, AllocError> {
    match made {
        Ok(file) if file.as_slice().starts_with(b"\x7fELF") => String::from_str(alloc, "ELF"),
        Ok(_) => String::from_str(alloc, "no ELF"),
        Err(Refused::Fault(fault)) => {
            format!(in alloc; "fault {} line {}", fault.number, fault.place.line)
        }
        Err(Refused::OutOfMemory) => Err(AllocError),
    }
}

/// What the call that makes a file of this text comes to, and its notes.
pub(crate) fn file_of(alloc: Global, text: &[u8]) -> Result<String, AllocError> {
    let mut tally = ListTally::new(alloc)?;
    let made = thin_file(alloc, text, &mut tally);
    let told = told(alloc, made)?;
    let notes = notes_of(alloc, &tally)?;
    format!(in alloc; "{told}, {notes}")
}

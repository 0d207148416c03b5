//! Calls of the top function over ports in memory.
use super::notes::notes_of;
use fixed_form::List;
use rn_ports::{FreeGate, ListTally, MemKeeper, MemSink, MemSource};
use rn_session::rn_top;
use std::alloc::{AllocError, Global};
use table_notation::{push_text, shown, text_behind, turns_behind};

// The bytes that the sink takes.
const ROOM: usize = 2000;

fn words_of(alloc: Global, line: &str) -> Result<Vec<List<u8>>, AllocError> {
    let mut words = Vec::new(alloc);
    for word in line.split_whitespace() {
        words.push(List::from_slice(alloc, word.as_bytes())?)?;
    }
    Ok(words)
}

fn sink_of(alloc: Global, ports: &str) -> Result<MemSink, AllocError> {
    let fails = turns_behind(alloc, ports, "writes")?;
    MemSink::new(alloc, ROOM, fails)
}

// The store holds what is said, and has no room for more.
fn keeper_of(alloc: Global, ports: &str) -> Result<MemKeeper, AllocError> {
    let mut bytes = Vec::new(alloc);
    push_text(alloc, &mut bytes, text_behind(ports, "store"))?;
    let loads = turns_behind(alloc, ports, "loads")?;
    let replaces = turns_behind(alloc, ports, "replaces")?;
    let held = bytes.as_slice();
    MemKeeper::new(alloc, held, held.len(), loads, replaces)
}

// What the ports have got, in words.
fn seen(alloc: Global, status: u8, written: &[u8], held: &[u8]) -> Result<String, AllocError> {
    let text = shown(alloc, written)?;
    let store = shown(alloc, held)?;
    format!(in alloc; "status {status} {text} store {store}")
}

// A call with these words over these ports.
fn called(
    alloc: Global,
    words: &[List<u8>],
    input: &mut MemSource,
    out: &mut MemSink,
    keep: &mut MemKeeper,
) -> Result<String, AllocError> {
    let mut tally = ListTally::new(alloc)?;
    let status = rn_top(alloc, words, input, out, keep, &FreeGate, &mut tally);
    let seen = seen(alloc, status.number(), out.bytes(), keep.bytes())?;
    let notes = notes_of(alloc, &tally)?;
    format!(in alloc; "{seen} {notes}")
}

/// What the call with these words, ports and input comes to.
pub(crate) fn reply_of(
    alloc: Global,
    line: &str,
    ports: &str,
    text: Vec<u8>,
) -> Result<String, AllocError> {
    let mut input = MemSource::new(text, turns_behind(alloc, ports, "reads")?);
    let mut out = sink_of(alloc, ports)?;
    let mut keep = keeper_of(alloc, ports)?;
    let words = words_of(alloc, line)?;
    called(alloc, words.as_slice(), &mut input, &mut out, &mut keep)
}

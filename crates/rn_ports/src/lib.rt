//! The ports of the compiler: where input comes from, where output goes, what keeps the store, and what is told of the work.
#![tactic(auto)]

mod keeper;
mod ports;
mod sink;
mod source;
mod standard;
mod tally;
mod whole;

pub use keeper::MemKeeper;
pub use ports::{Failed, Gate, Keeper, Kind, LoadRefused, Sink, Source, Tally};
pub use sink::MemSink;
pub use source::MemSource;
pub use standard::{FreeGate, Reading, StdinSource, StdoutSink, Writing};
pub use tally::ListTally;
pub use whole::{ReadRefused, read_whole, write_whole};

#[cfg(test)]
mod tests;

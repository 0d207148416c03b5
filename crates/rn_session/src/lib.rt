//! The top call: words, the command that they ask for, its reply and its status.
#![tactic(auto)]

mod fault;
mod laws;
mod lines;
mod making;
mod running;
mod status;
mod top;
mod words;

pub use laws::answers_law;
pub use making::thin_file;
pub use status::Status;
pub use top::{LIMIT, rn_top};

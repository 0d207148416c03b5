//! Cases, and what they come to.
use super::calls::reply_of;
use super::files::file_of;
use std::alloc::{AllocError, Global};
use table_notation::source_of;

/// What a case comes to.
pub(crate) fn found_of(alloc: Global, case: &str) -> Result<String, AllocError> {
    let (head, written) = case.split_once(": ").unwrap_or((case, ""));
    let (words, ports) = head.split_once(" | ").unwrap_or((head, ""));
    let text = source_of(alloc, written)?;
    if words == "@file" {
        file_of(alloc, text.as_slice())
    } else {
        reply_of(alloc, words, ports, text)
    }
}

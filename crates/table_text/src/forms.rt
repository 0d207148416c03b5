//! Forms of statements.
use super::trees::put_form;
use f77_forms::{form_of, is_foreign};
use f77_tree::Refused;
use std::alloc::Global;
use table_rows::put;

/// The form of a text and its parts, or `-` where it has none.
pub fn forms(alloc: Global, out: &mut Vec<u8>, text: &[u8]) -> Result<(), Refused> {
    match form_of(alloc, text)? {
        Some(form) => put_form(alloc, out, &form)?,
        None => put(out, "-")?,
    }
    Ok(())
}

/// Whether a text without a form is a statement of the full language.
pub fn foreign(out: &mut Vec<u8>, text: &[u8]) -> Result<(), Refused> {
    put(out, if is_foreign(text) { "foreign" } else { "-" })?;
    Ok(())
}

//! What may be asked of a row.
use super::{expressions, forms, texts};
use f77_tree::Refused;
use std::alloc::{AllocError, Global};
use table_rows::{expanded, put, put_refusal};

/// Questions about texts.
fn of_text(alloc: Global, out: &mut Vec<u8>, question: &str, text: &[u8]) -> Result<(), Refused> {
    match question {
        "@forms" => forms::forms(alloc, out, text),
        "@foreign" => forms::foreign(out, text),
        "@names" => texts::names(alloc, out, text),
        "@unit names" => texts::unit_names(alloc, out, text),
        "@items" => texts::items(alloc, out, text),
        "@units" => texts::units(alloc, out, text),
        "@pairs of lines" => texts::pairs(alloc, out, text),
        "@same source" => texts::same(alloc, out, text),
        "@tokens" => expressions::all_tokens(alloc, out, text),
        "@counts of tokens" => expressions::counts(alloc, out, text),
        "@faults of tokens" => expressions::token_faults(alloc, out, text),
        "@expressions" => expressions::longest(alloc, out, text),
        "@expressions at each place" => expressions::places(alloc, out, text),
        "@whole expressions" => expressions::whole(alloc, out, text),
        "@ends of expressions" => expressions::ends(alloc, out, text),
        "@sums" => expressions::sums(alloc, out, text),
        "@powers" => expressions::powers(alloc, out, text),
        _ => Ok(put(out, "no such question")?),
    }
}

/// The answer to a question about a row.
pub fn answer(alloc: Global, question: &str, row: &[u8]) -> Result<Vec<u8>, AllocError> {
    let mut out = Vec::new(alloc);
    let text = expanded(alloc, row)?;
    if let Err(refused) = of_text(alloc, &mut out, question, text.as_slice()) {
        put_refusal(alloc, &mut out, &refused)?;
    }
    Ok(out)
}

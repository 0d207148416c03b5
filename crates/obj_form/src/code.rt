//! Code as hexadecimal digits.
ghost use Rattle.std.specs.Prelude.{ℕ, ◌^◌, ◌<◌, ◌≡◌, IfOk, List, Some, string_bytes};
ghost use Rattle.std.specs.List.{All};
ghost use Rattle.hex.specs.Hex.{encode_lower};
ghost use Rattle.hex.specs.declared.error.FromHexError.TheVariants.{OutOfMemory};
ghost use Rattle.serde_json.specs.View.{view};
ghost use Rattle.obj_form.specs.Grammar.{IsCode, Reads, Writes, code_bytes};

use byteorder::{ByteOrder, LittleEndian};
use f77_tree::List;
use hex::FromHexError;
use serde_json::Value as Json;
use std::alloc::{AllocError, Global};

fn bytes_of(alloc: Global, words: &[u32]) -> Result<Vec<u8>, AllocError>
    ensures { IfOk result (λ bytes. bytes.items ≡ code_bytes words.now) }
{
    let mut bytes = Vec::new(alloc);
    'word: for word in words {
        let mut cell = [0u8; 4];
        LittleEndian::write_u32(&mut cell, *word);
        bytes.extend_from_slice(&cell)?;
    }
    Ok(bytes)
}

fn text_of(alloc: Global, words: &[u32]) -> Result<String, AllocError>
    ensures text { IfOk result (λ text. string_bytes text ≡ encode_lower (code_bytes words.now)) }
    ensures small { All (λ w. w < 2 ^ 32) words.now }
{
    hex::encode(alloc, bytes_of(alloc, words)?)
}

/// The code as JSON.
pub fn code_value(alloc: Global, words: &[u32]) -> Result<Json, AllocError>
    ensures { IfOk result (λ v. Writes IsCode (view v) words.now) }
{
    Ok(Json::String(text_of(alloc, words)?))
}

// The words that whole groups of four bytes are.
fn words_of(alloc: Global, bytes: &[u8]) -> Result<List<u32>, AllocError>
    ensures { IfOk result (λ words. (code : List ℕ) → All (λ w. w < 2 ^ 32) code → bytes.now ≡ code_bytes code → words ≡ code) }
{
    let mut words = List::new(alloc);
    'word: for at in 0..bytes.len() / 4 {
        words.push(LittleEndian::read_u32(&bytes[4 * at..]))?;
    }
    Ok(words)
}

fn none_but_for_memory(fault: FromHexError) -> Result<Option<List<u32>>, AllocError>
    ensures { IfOk result (λ found. fault ≡ OutOfMemory → ⊥) }
{
    match fault {
        FromHexError::OutOfMemory => Err(AllocError),
        _ => Ok(None),
    }
}

// The words of digits of either case. Digits that are no whole words give words of which nothing is said.
fn words_in(alloc: Global, text: &str) -> Result<Option<List<u32>>, AllocError>
    ensures { IfOk result (λ found. (code : List ℕ) → All (λ w. w < 2 ^ 32) code → text.now ≡ encode_lower (code_bytes code) → found ≡ Some code) }
{
    match hex::decode(alloc, text) {
        Ok(bytes) => Ok(Some(words_of(alloc, bytes.as_slice())?)),
        Err(fault) => none_but_for_memory(fault),
    }
}

/// The code that stands there: words whose digits are this text.
pub fn code_of(alloc: Global, value: &Json) -> Result<Option<List<u32>>, AllocError>
    ensures { IfOk result (Reads IsCode (view value.now)) }
{
    let Some(text) = value.as_str() else {
        return Ok(None);
    };
    let Some(words) = words_in(alloc, text)? else {
        return Ok(None);
    };
    if text_of(alloc, words.as_slice())?.as_str() == text {
        Ok(Some(words))
    } else {
        drop(words);
        Ok(None)
    }
}

//! The forms that have no parts: numbers, values, names.
ghost use Rattle.std.specs.Prelude.{◌↔◌, ◌≡◌, IfOk, IsTrue};
ghost use Rattle.serde_json.specs.Data.{string};
ghost use Rattle.serde_json.specs.View.{view};
ghost use Rattle.obj_form.specs.Grammar.{IsBlock, IsNamed, IsValue, IsWord, Reads, Writes};

use f77_tree::{List, Name, Value, is_name};
use serde_json::Value as Json;
use std::alloc::{AllocError, Global};

/// The number of 32 bits without sign that stands there.
pub fn word_of(value: &Json) -> Option<u32>
    ensures { Reads IsWord (view value.now) result }
{
    u32::try_from(value.as_u64()?).ok()
}

/// The number as JSON.
pub fn word_value(number: u32) -> Json
    ensures { Writes IsWord (view result) number }
{
    Json::from(number)
}

/// The integer of 64 bits or the truth value that stands there.
pub fn constant_of(value: &Json) -> Option<Value>
    ensures { Reads IsValue (view value.now) result }
{
    match value.as_bool() {
        Some(truth) => Some(Value::Logical(truth)),
        None => Some(Value::Integer(value.as_i64()?)),
    }
}

/// The integer or truth value as JSON.
pub fn constant_value(value: Value) -> Json
    ensures { Writes IsValue (view result) value }
{
    match value {
        Value::Integer(number) => Json::from(number),
        Value::Logical(truth) => Json::from(truth),
    }
}

fn named(alloc: Global, text: &str) -> Result<Name, AllocError>
    ensures { IfOk result (λ name. name ≡ text.now) }
{
    Ok(Name::from_list(List::from_slice(alloc, text.as_bytes())?))
}

/// The name that stands there in capitals.
pub fn name_of(alloc: Global, value: &Json) -> Result<Option<Name>, AllocError>
    ensures { IfOk result (Reads IsNamed (view value.now)) }
{
    match value.as_str() {
        Some(text) if is_name(text.as_bytes()) => Ok(Some(named(alloc, text)?)),
        _ => Ok(None),
    }
}

/// The name of a block that stands there: one in capitals, or the empty name of blank COMMON.
pub fn block_of(alloc: Global, value: &Json) -> Result<Option<Name>, AllocError>
    ensures { IfOk result (Reads IsBlock (view value.now)) }
{
    match value.as_str() {
        Some(text) if text.is_empty() || is_name(text.as_bytes()) => Ok(Some(named(alloc, text)?)),
        _ => Ok(None),
    }
}

/// The name, or the name of a block, as JSON.
pub fn name_value(alloc: Global, name: &Name) -> Result<Json, AllocError>
    ensures named { IfOk result (λ v. Writes IsNamed (view v) name.now) }
    ensures block { IfOk result (λ v. Writes IsBlock (view v) name.now) }
{
    match str::from_utf8(name.as_bytes()) {
        Ok(text) => Json::try_from_str(alloc, text),
        Err(_) => Ok(Json::Null),
    }
}

/// Whether this text stands there.
pub fn is_text(value: &Json, text: &str) -> bool
    ensures { IsTrue result ↔ (view value.now ≡ string text.now) }
{
    value.as_str() == Some(text)
}

//! What is found in a line.
use super::shown::shown;
use obj_form::{Object, object_of, object_value};
use serde_json::Value as Json;
use std::alloc::{AllocError, Global};

fn push_json(
    alloc: Global,
    out: &mut String,
    object: &Object,
    line: &str,
) -> Result<(), AllocError> {
    let value = object_value(alloc, object)?;
    let again = value.to_string(alloc)?;
    if again.as_str() == line {
        return out.push_str("; the same JSON");
    }
    out.push_str("; as ")?;
    out.push_str(again.as_str())
}

fn found(alloc: Global, object: &Object, line: &str) -> Result<String, AllocError> {
    let mut out = shown(alloc, object)?;
    push_json(alloc, &mut out, object, line)?;
    Ok(out)
}

/// The object that a line of JSON stands for, and its JSON.
pub fn answer_of(alloc: Global, line: &str) -> Result<String, AllocError> {
    let Ok(value) = Json::from_str(alloc, line) else {
        return String::from_str(alloc, "no JSON");
    };
    match object_of(alloc, &value)? {
        Some(object) => found(alloc, &object, line),
        None => String::from_str(alloc, "no object"),
    }
}

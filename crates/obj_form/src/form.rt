//! Objects as JSON, and back.
ghost use Rattle.std.specs.Prelude.{◌≡◌, IfOk, MatchOption, Some};
ghost use Rattle.serde_json.specs.Data.{Data, Members, member};
ghost use Rattle.serde_json.specs.View.{members_view, view};
ghost use Rattle.obj_form.specs.declared.object.Object.{Object};
ghost use Rattle.obj_form.specs.Grammar.{IsObject, Reads, Writes, four};

use super::code::{code_of, code_value};
use super::leaves::{word_of, word_value};
use super::object::Object;
use super::part::array_value;
use super::relocs::relocs_of;
use super::runs::initial_of;
use serde_json::{Value as Json, json};
use std::alloc::{AllocError, Global};
use std::collections::btree_map::Iter;

// What stands at the four keys of an object.
#[derive(Clone, Copy, Drop)]
struct Fields<'v> {
    code: &'v Json,
    initial: &'v Json,
    relocs: &'v Json,
    size: &'v Json,
}

// What stands at this key, where it is the next.
fn next_field<'v>(members: &mut Iter<'v, String, Json>, key: &str) -> Option<&'v Json>
    ensures { MatchOption result ((d : Data) (ms : Members) → members_view members.old ≡ member key.now d ms → ⊥) (λ v. members_view members.old ≡ member key.now (view v.now) (members_view members.new)) }
{
    let (name, value) = members.next()?;
    if name.as_str() == key {
        Some(value)
    } else {
        None
    }
}

fn fields_of(value: &Json) -> Option<Fields<'_>>
    ensures { MatchOption result ((c i r s : Data) → view value.now ≡ four c i r s → ⊥) (λ f. view value.now ≡ four (view f.code.now) (view f.initial.now) (view f.relocs.now) (view f.size.now)) }
{
    let mut members = value.as_object()?.iter();
    let fields = Fields {
        code: next_field(&mut members, "code")?,
        initial: next_field(&mut members, "initial")?,
        relocs: next_field(&mut members, "relocs")?,
        size: next_field(&mut members, "size")?,
    };
    match members.next() {
        None => Some(fields),
        Some(_) => None,
    }
}

fn fields_value(
    alloc: Global,
    code: Json,
    initial: Json,
    relocs: Json,
    size: Json,
) -> Result<Json, AllocError>
    ensures { IfOk result (λ v. view v ≡ four (view code) (view initial) (view relocs) (view size)) }
{
    json!(in alloc; {"code": code, "initial": initial, "relocs": relocs, "size": size})
}

/// The object as JSON, where it has any.
pub fn object_value(alloc: Global, object: &Object) -> Result<Json, AllocError>
    ensures { IfOk result (λ v. Writes IsObject (view v) object.now) }
{
    let code = code_value(alloc, object.code.as_slice())?;
    let initial = array_value(alloc, object.initial.as_slice())?;
    let relocs = array_value(alloc, object.relocs.as_slice())?;
    fields_value(alloc, code, initial, relocs, word_value(object.size))
}

/// The object that stands there.
pub fn object_of(alloc: Global, value: &Json) -> Result<Option<Object>, AllocError>
    ensures { IfOk result (Reads IsObject (view value.now)) }
{
    let Some(fields) = fields_of(value) else {
        return Ok(None);
    };
    let Some(size) = word_of(fields.size) else {
        return Ok(None);
    };
    let Some(initial) = initial_of(alloc, fields.initial)? else {
        return Ok(None);
    };
    let Some(code) = code_of(alloc, fields.code)? else {
        return Ok(None);
    };
    let Some(relocs) = relocs_of(alloc, code.len(), fields.relocs)? else {
        return Ok(None);
    };
    Ok(Some(Object {
        code,
        relocs,
        size,
        initial,
    }))
}

/// JSON stands for at most one object.
pub fn one_object()
    ensures { (d : Data) (a b : Object) → IsObject d a → IsObject d b → a ≡ b }
{}

/// Writes an object and reads it again: what is read is the object, where it has any JSON.
pub fn read_back(alloc: Global, object: &Object) -> Result<Option<Object>, AllocError>
    ensures { IfOk result (λ found. (d : Data) → IsObject d object.now → found ≡ Some object.now) }
{
    let value = object_value(alloc, object)?;
    object_of(alloc, &value)
}

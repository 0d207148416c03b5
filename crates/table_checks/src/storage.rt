//! Storage of units, roles of names, and constants.
use f77_forms::form_of;
use f77_names::{Known, Role};
use f77_store::{Area, Layout, Slot, layout};
use f77_tree::{Form, Ty, Unit, Value};
use f77_values::{Table, evaluate};
use std::alloc::{AllocError, Global};
use table_rows::{put, put_integer, put_number};

fn put_area(alloc: Global, out: &mut Vec<u8>, area: &Area) -> Result<(), AllocError> {
    match area {
        Area::Dummy(position) => {
            put(out, "dummy ")?;
            put_number(alloc, out, *position as u64)
        }
        Area::Local => put(out, "local"),
        Area::Common(block) => {
            put(out, "/")?;
            out.extend_from_slice(block.as_bytes())?;
            put(out, "/")
        }
    }
}

fn put_slot(alloc: Global, out: &mut Vec<u8>, slot: &Slot) -> Result<(), AllocError> {
    out.extend_from_slice(slot.name.as_bytes())?;
    put(out, if slot.ty == Ty::Integer { " I " } else { " L " })?;
    put_area(alloc, out, &slot.area)?;
    put(out, "+")?;
    put_number(alloc, out, slot.from as u64)?;
    put(out, if slot.is_array { " array " } else { " " })?;
    put_number(alloc, out, slot.size as u64)?;
    put(out, "; ")
}

fn put_stored(alloc: Global, out: &mut Vec<u8>, found: &Layout) -> Result<(), AllocError> {
    for slot in found.slots.as_slice() {
        put_slot(alloc, out, slot)?;
    }
    put_number(alloc, out, found.local_size as u64)?;
    for block in found.blocks.as_slice() {
        put(out, " /")?;
        out.extend_from_slice(block.0.as_bytes())?;
        put(out, "/ ")?;
        put_number(alloc, out, block.1 as u64)?;
    }
    Ok(())
}

/// Slots, the size of the local area, and blocks with their sizes.
pub fn put_layout(alloc: Global, out: &mut Vec<u8>, unit: &Unit) -> Result<(), AllocError> {
    let found = layout(alloc, unit)?;
    put_stored(alloc, out, &found)
}

fn put_value(alloc: Global, out: &mut Vec<u8>, value: Value) -> Result<(), AllocError> {
    match value {
        Value::Integer(n) => put_integer(alloc, out, n),
        Value::Logical(b) => put(out, if b { "T" } else { "F" }),
    }
}

fn put_role(alloc: Global, out: &mut Vec<u8>, role: &Role) -> Result<(), AllocError> {
    match role {
        Role::Scalar => put(out, "scalar"),
        Role::Array(bounds) => {
            put(out, "array ")?;
            put_number(alloc, out, bounds.len() as u64)
        }
        Role::Constant(value) => {
            put(out, "=")?;
            put_value(alloc, out, *value)
        }
        Role::Intrinsic => put(out, "intrinsic"),
        Role::Function => put(out, "function"),
        Role::Subroutine => put(out, "subroutine"),
        Role::Procedure => put(out, "procedure"),
    }
}

fn put_known(alloc: Global, out: &mut Vec<u8>, k: &Known) -> Result<(), AllocError> {
    out.extend_from_slice(k.name.as_bytes())?;
    put(
        out,
        match k.ty {
            Some(Ty::Integer) => " I ",
            Some(Ty::Logical) => " L ",
            None => " - ",
        },
    )?;
    put_role(alloc, out, &k.role)
}

fn put_named(alloc: Global, out: &mut Vec<u8>, found: &Layout) -> Result<(), AllocError> {
    let mut before = "";
    for known in found.names.as_slice() {
        put(out, before)?;
        put_known(alloc, out, known)?;
        before = "; ";
    }
    for callee in found.callees.as_slice() {
        put(out, " >")?;
        out.extend_from_slice(callee.as_bytes())?;
    }
    Ok(())
}

/// Names with types and roles, and callees.
pub fn put_roles(alloc: Global, out: &mut Vec<u8>, unit: &Unit) -> Result<(), AllocError> {
    let found = layout(alloc, unit)?;
    put_named(alloc, out, &found)
}

fn constant_of(alloc: Global, form: &Form) -> Option<Value> {
    match form {
        Form::Assign(_, value) => evaluate(&Table::new(alloc), value),
        _ => None,
    }
}

fn told(alloc: Global, text: &[u8]) -> Result<Option<Value>, AllocError> {
    match form_of(alloc, text)? {
        Some(form) => Ok(constant_of(alloc, &form)),
        None => Ok(None),
    }
}

/// The value of a constant expression without names, or `-` where it has none.
pub fn put_constant(alloc: Global, out: &mut Vec<u8>, text: &[u8]) -> Result<(), AllocError> {
    let whole = [b"K=".as_slice(), text].concat(alloc)?;
    match told(alloc, whole.as_slice())? {
        Some(value) => put_value(alloc, out, value),
        None => put(out, "-"),
    }
}

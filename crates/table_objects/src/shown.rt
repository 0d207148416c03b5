//! Objects as a table prints them.
use f77_tree::{Name, Value};
use obj_form::{InitialRun, Object, Reloc, Target};
use std::alloc::{AllocError, Global};

fn push_name(out: &mut String, name: &Name) -> Result<(), AllocError> {
    out.push('/')?;
    for byte in name.as_bytes() {
        out.push(char::from(*byte))?;
    }
    out.push('/')
}

fn push_number(alloc: Global, out: &mut String, number: u32) -> Result<(), AllocError> {
    let digits = format!(in alloc; "{number}")?;
    out.push_str(digits.as_str())
}

fn push_word(alloc: Global, out: &mut String, word: u32) -> Result<(), AllocError> {
    let digits = format!(in alloc; " {word:08x}")?;
    out.push_str(digits.as_str())
}

fn push_target(alloc: Global, out: &mut String, target: &Target) -> Result<(), AllocError> {
    match target {
        Target::Call(name) => {
            out.push_str(" call ")?;
            push_name(out, name)
        }
        Target::Own(at) => {
            out.push_str(" own +")?;
            push_number(alloc, out, *at)
        }
        Target::Block(block, at) => {
            out.push_str(" block ")?;
            push_name(out, block)?;
            out.push('+')?;
            push_number(alloc, out, *at)
        }
    }
}

fn push_reloc(alloc: Global, out: &mut String, reloc: &Reloc) -> Result<(), AllocError> {
    out.push_str("; at ")?;
    push_number(alloc, out, reloc.word)?;
    push_target(alloc, out, &reloc.target)
}

fn push_value(alloc: Global, out: &mut String, value: Value) -> Result<(), AllocError> {
    match value {
        Value::Integer(number) => {
            let digits = format!(in alloc; "{number}")?;
            out.push_str(digits.as_str())
        }
        Value::Logical(true) => out.push('T'),
        Value::Logical(false) => out.push('F'),
    }
}

fn push_run(alloc: Global, out: &mut String, run: InitialRun) -> Result<(), AllocError> {
    out.push_str("; from ")?;
    push_number(alloc, out, run.from)?;
    out.push_str(" on ")?;
    push_number(alloc, out, run.count)?;
    out.push_str(" times ")?;
    push_value(alloc, out, run.value)
}

/// The parts of an object, in words.
pub fn shown(alloc: Global, object: &Object) -> Result<String, AllocError> {
    let mut out = String::from_str(alloc, "code")?;
    for word in object.code.as_slice() {
        push_word(alloc, &mut out, *word)?;
    }
    for reloc in object.relocs.as_slice() {
        push_reloc(alloc, &mut out, reloc)?;
    }
    out.push_str("; size ")?;
    push_number(alloc, &mut out, object.size)?;
    for run in object.initial.as_slice() {
        push_run(alloc, &mut out, *run)?;
    }
    Ok(out)
}

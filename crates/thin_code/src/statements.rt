//! The code of statements.
ghost use Rattle.std.specs.Prelude.{◌≡◌, ℕ, ◌<◌, ◌++◌, length, flat_map, IfOk, OnOk};
ghost use Rattle.rv_code.specs.Pieces.{byte_code, save_code, show_code};
ghost use Rattle.thin_code.specs.Code.{Emits, bytes_of, term_code, addend_code, addends_code, item_code, items_code, record_code, sum_code, statement_code, body_code, program_code};
ghost use Rattle.thin_code.specs.Seen.{frame_in, address_in};

use super::area::Area;
use super::names::address_of;
use super::pieces::{
    push_byte, push_constant, push_halt, push_jump, push_line, push_load, push_operation,
    push_save, push_show,
};
use f77_tree::Name;
use std::alloc::{AllocError, Global};
use thin_form::{Addend, Item, Statement, Term};

const MAIN: u64 = 65544;

/// The code of a program: a call pair to the main program, and the main program.
pub fn program_code(alloc: Global, area: &Area, body: &[Statement]) -> Result<Vec<u8>, AllocError>
    ensures { IfOk result (λ code. code.items ≡ bytes_of (program_code (frame_in area.now) body.now)) }
{
    let mut code = Vec::new(alloc);
    push_jump(&mut code, MAIN)?;
    push_body(&mut code, area, body)?;
    Ok(code)
}

fn push_body(code: &mut Vec<u8>, area: &Area, body: &[Statement]) -> Result<(), AllocError>
    ensures { OnOk result (Emits code.old.items code.new.items (λ from. body_code (frame_in area.now) from body.now)) }
{
    for statement in body {
        push_statement(code, area, statement)?;
    }
    Ok(())
}

fn push_statement(code: &mut Vec<u8>, area: &Area, statement: &Statement) -> Result<(), AllocError>
    ensures { OnOk result (Emits code.old.items code.new.items (λ from. statement_code (frame_in area.now) from statement.now)) }
{
    match statement {
        Statement::Assign(target, first, more) => {
            push_sum(code, area, first, more.as_slice())?;
            push_store(code, area, target)
        }
        Statement::Print(items) => {
            push_record(code, area, items.as_slice())?;
            push_line(code)
        }
        Statement::End => push_halt(code),
    }
}

// Register 5 into a variable.
fn push_store(code: &mut Vec<u8>, area: &Area, target: &Name) -> Result<(), AllocError>
    ensures { OnOk result (Emits code.old.items code.new.items (λ from. save_code from (address_in area.now target.now) 5)) }
{
    push_save(code, address_of(area, target))
}

// A sum into register 5.
fn push_sum(
    code: &mut Vec<u8>,
    area: &Area,
    first: &Term,
    more: &[Addend],
) -> Result<(), AllocError>
    ensures { OnOk result (Emits code.old.items code.new.items (λ from. sum_code (frame_in area.now) from first.now more.now)) }
{
    push_term(code, area, 5, first)?;
    push_addends(code, area, more)
}

fn push_addends(code: &mut Vec<u8>, area: &Area, more: &[Addend]) -> Result<(), AllocError>
    ensures { OnOk result (Emits code.old.items code.new.items (λ from. addends_code (frame_in area.now) from more.now)) }
{
    for addend in more {
        push_addend(code, area, addend)?;
    }
    Ok(())
}

fn push_addend(code: &mut Vec<u8>, area: &Area, addend: &Addend) -> Result<(), AllocError>
    ensures { OnOk result (Emits code.old.items code.new.items (λ from. addend_code (frame_in area.now) from addend.now)) }
{
    push_term(code, area, 7, &addend.term)?;
    push_operation(code, addend.sign)
}

fn push_term(code: &mut Vec<u8>, area: &Area, register: u8, term: &Term) -> Result<(), AllocError>
    requires { register < 32 }
    ensures { OnOk result (Emits code.old.items code.new.items (λ from. term_code (frame_in area.now) register from term.now)) }
{
    match term {
        Term::Variable(name) => push_load(code, address_of(area, name), register),
        Term::Integer(value) => push_constant(code, register, value.cast_unsigned()),
    }
}

// A record without items is one blank.
fn push_record(code: &mut Vec<u8>, area: &Area, items: &[Item]) -> Result<(), AllocError>
    ensures { OnOk result (Emits code.old.items code.new.items (λ from. record_code (frame_in area.now) from items.now)) }
{
    if items.is_empty() {
        push_byte(code, b' ')
    } else {
        push_items(code, area, items)
    }
}

fn push_items(code: &mut Vec<u8>, area: &Area, items: &[Item]) -> Result<(), AllocError>
    ensures { OnOk result (Emits code.old.items code.new.items (λ from. items_code (frame_in area.now) from items.now)) }
{
    for item in items {
        push_item(code, area, item)?;
    }
    Ok(())
}

// An item with a blank before it.
fn push_item(code: &mut Vec<u8>, area: &Area, item: &Item) -> Result<(), AllocError>
    ensures { OnOk result (Emits code.old.items code.new.items (λ from. item_code (frame_in area.now) from item.now)) }
{
    push_byte(code, b' ')?;
    match item {
        Item::Text(bytes) => push_bytes(code, bytes.as_slice()),
        Item::Value(term) => push_value(code, area, term),
    }
}

fn push_value(code: &mut Vec<u8>, area: &Area, term: &Term) -> Result<(), AllocError>
    ensures { OnOk result (Emits code.old.items code.new.items (λ from. term_code (frame_in area.now) 10 from term.now ++ show_code)) }
{
    push_term(code, area, 10, term)?;
    push_show(code)
}

fn push_bytes(code: &mut Vec<u8>, bytes: &[u8]) -> Result<(), AllocError>
    ensures { OnOk result (Emits code.old.items code.new.items (λ from. flat_map byte_code bytes.now)) }
{
    for byte in bytes {
        push_byte(code, *byte)?;
    }
    Ok(())
}

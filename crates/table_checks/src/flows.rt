//! Where control goes in a unit.
ghost use Rattle.std.specs.Prelude.{◌<◌, length};

use f77_flow::{Control, Flow, flow_of};
use f77_tree::{List, Stmt, Unit};
use std::alloc::{AllocError, Global};
use table_rows::{put, put_number};

fn put_nodes(alloc: Global, out: &mut Vec<u8>, list: &List<u32>) -> Result<(), AllocError> {
    let mut before = "";
    for number in list.as_slice() {
        put(out, before)?;
        put_number(alloc, out, *number as u64)?;
        before = " ";
    }
    put(out, ";")
}

fn put_graph(alloc: Global, out: &mut Vec<u8>, flow: &Flow) -> Result<(), AllocError> {
    for list in flow.next.as_slice() {
        put_nodes(alloc, out, list)?;
    }
    for l in flow.loops.as_slice() {
        put(out, " ")?;
        put_number(alloc, out, l.head as u64)?;
        put(out, "-")?;
        put_number(alloc, out, l.last as u64)?;
    }
    Ok(())
}

/// For each statement the statements that may follow it, and then the loops, each by its DO and its last statement. The
/// statements are numbered from 0.
pub fn put_flow(alloc: Global, out: &mut Vec<u8>, unit: &Unit) -> Result<(), AllocError> {
    if unit.statements.len() > 1000 {
        return put(out, "too long");
    }
    let flow = flow_of(alloc, unit)?;
    put_graph(alloc, out, &flow)
}

fn label_at(statements: &[Stmt], k: usize) -> u32 {
    match statements.get(k) {
        Some(statement) => statement.label,
        None => 0,
    }
}

fn put_at(alloc: Global, out: &mut Vec<u8>, control: &Control, k: usize) -> Result<(), AllocError>
    requires { k < length control.now.statements.now }
{
    let places = [
        control.target(label_at(control.statements, k)),
        control.below(k),
        control.otherwise(k),
        control.end_if(k),
        control.arm_end(k),
        control.last(k),
        control.innermost(k),
        control.outer(k),
    ];
    for place in places {
        put(out, " ")?;
        put_number(alloc, out, place as u64)?;
    }
    put(out, ";")
}

fn put_all(alloc: Global, out: &mut Vec<u8>, statements: &[Stmt]) -> Result<(), AllocError>
    requires { length statements.now < 4294967296 }
{
    let control = Control::new(alloc, statements)?;
    put_number(alloc, out, control.first() as u64)?;
    put(out, ";")?;
    for k in 0..control.statements.len() {
        put_at(alloc, out, &control, k)?;
    }
    Ok(())
}

/// Where control begins, and for each statement the target of its label, what begins below it, where a false condition goes, its END IF, the end of
/// its arm, its last statement, the innermost DO that ends at it, and the DO around it that has the same last statement. The
/// number of statements stands for none.
pub fn put_control(alloc: Global, out: &mut Vec<u8>, unit: &Unit) -> Result<(), AllocError> {
    let statements = unit.statements.as_slice();
    if statements.len() > 1000 {
        return put(out, "too long");
    }
    put_all(alloc, out, statements)
}

//! The thin program that the units of a text are.
ghost use Rattle.std.specs.Prelude.{◌≡◌, ◌∷◌, [], List as Lists, IfOk, IfSome};
ghost use Rattle.std.specs.List.{All, AllZip};
ghost use Rattle.fixed_form.specs.declared.reader.Line.{Line as AnyLine};
ghost use Rattle.f77_parse.specs.Shown.{IsLast};
ghost use Rattle.f77_parse.specs.Statements.{EndsUnit};
ghost use Rattle.thin_form.specs.Programs as p;
ghost use Rattle.thin_text.specs.Progress as g;
ghost use Rattle.thin_text.specs.Thin as t;

use f77_parse::{end_law, form_at};
use f77_tree::{List, Name, Place, SourceFault};
use fixed_form::{Line, UnitText};
use std::alloc::{AllocError, Global};
use thin_form::{Statement, thin_statement};

/// What the units of a text are: a thin program, none with the fault of the first statement that isn't thin, or no units.
#[derive(Drop)]
pub enum Thin {
    Program(List<Statement>),
    Broken(SourceFault),
    Nothing,
}

/// What one unit is.
#[derive(Drop)]
enum Part {
    Body(List<Statement>),
    Faulty(SourceFault),
}

/// The thin statement that a statement of a unit is. One with a label is none.
fn thin_line(alloc: Global, line: &Line, last: bool) -> Result<Option<Statement>, AllocError>
    ensures thin { IfOk result (λ found. (behind : Lists AnyLine) → IsLast last behind → g.KnowsLine (record { line = line.now; behind = behind }) found) }
    ensures plain { IfOk result (λ found. IfSome found (λ statement. p.IsPlainOrEnd statement)) }
{
    if line.label != 0 {
        return Ok(None);
    }
    let Some(form) = form_at(alloc, line.text.as_slice(), last)? else {
        return Ok(None);
    };
    thin_statement(alloc, &form)
}

/// Fault 7 at a statement.
fn fault_at(alloc: Global, unit: &Name, line: &Line) -> Result<SourceFault, AllocError>
    ensures { IfOk result (λ fault. fault ≡ t.fault_at unit.now line.now) }
{
    Ok(SourceFault {
        number: 7,
        place: Place {
            unit: Some(unit.copy(alloc)?),
            line: line.line,
        },
        limit: 0,
    })
}

/// The thin statements that those of a unit are, or fault 7 at the first that is none.
fn thin_unit(alloc: Global, unit: &UnitText) -> Result<Part, AllocError>
    ensures thin { IfOk result (λ part. g.TellsUnit part unit.now) }
    ensures plain { IfOk result (λ part. g.IsPlainPart part) }
{
    let lines = unit.statements.as_slice();
    let mut body = List::new(alloc);
    for (k, line) in lines.iter().enumerate() {
        let Some(statement) = thin_line(alloc, line, k + 1 == lines.len())? else {
            return Ok(Part::Faulty(fault_at(alloc, &unit.name, line)?));
        };
        body.push(statement)?;
    }
    Ok(Part::Body(body))
}

/// The fault of a second unit, whose first statement has no place in a thin program.
fn second(alloc: Global, unit: &UnitText) -> Result<SourceFault, AllocError>
    requires { EndsUnit unit.now }
    ensures { IfOk result (λ fault. g.IsFirstFault fault unit.now) }
{
    let Some((first, _)) = unit.statements.as_slice().split_first() else {
        unreachable!()
    };
    fault_at(alloc, &unit.name, first)
}

/// The thin program that some units are; or fault 7 at the first statement that has a label, isn't of a thin form or stands
/// in a second unit.
pub fn thin_of(alloc: Global, units: &[UnitText]) -> Result<Thin, AllocError>
    requires ended { All EndsUnit units.now }
    ensures told { IfOk result (λ thin. g.Tells thin units.now) }
{
    end_law();
    let Some((unit, others)) = units.split_first() else {
        return Ok(Thin::Nothing);
    };
    let body = match thin_unit(alloc, unit)? {
        Part::Body(body) => body,
        Part::Faulty(fault) => return Ok(Thin::Broken(fault)),
    };
    let Some((next, _)) = others.split_first() else {
        return Ok(Thin::Program(body));
    };
    Ok(Thin::Broken(second(alloc, next)?))
}

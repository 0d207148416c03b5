//! Statements written in a row, as lines in fixed form.
ghost use Rattle.std.specs.Prelude.{IfOk};
ghost use Rattle.std.specs.List.{All};
ghost use Rattle.f77_parse.specs.Statements.{EndsUnit};

use f77_forms::form_of;
use f77_parse::read_law;
use f77_tree::{Duplicate, Form, List, Name, Refused, Stmt, Unit, UnitKind};
use fixed_form::{Line, UnitText, read_units, unit_name};
use std::alloc::{AllocError, Global};
use table_rows::put;

/// A label in columns 1 to 5, and blanks to column 6.
fn put_label(out: &mut Vec<u8>, label: &[u8]) -> Result<(), AllocError> {
    out.extend_from_slice(label)?;
    for _ in label.len()..6 {
        put(out, " ")?;
    }
    Ok(())
}

/// Columns 7 to 72 of as many lines as the text needs.
fn put_columns(out: &mut Vec<u8>, text: &[u8]) -> Result<(), AllocError> {
    for (k, byte) in text.iter().enumerate() {
        if k > 0 && k % 66 == 0 {
            put(out, "\n     1")?;
        }
        out.push(*byte)?;
    }
    put(out, "\n")
}

fn without_blanks(text: &[u8]) -> &[u8] {
    match text.iter().position(|b| *b != b' ') {
        Some(place) if place <= text.len() => text.split_at(place).1,
        _ => text,
    }
}

fn put_statement(out: &mut Vec<u8>, statement: &[u8]) -> Result<(), AllocError> {
    let text = without_blanks(statement);
    let digits = match text.iter().position(|b| !b.is_ascii_digit()) {
        Some(place) => place.min(text.len()),
        None => 0,
    };
    let (label, behind) = text.split_at(digits);
    put_label(out, label)?;
    put_columns(out, without_blanks(behind))
}

/// The parts of a row with semicolons between.
pub fn parts_of(alloc: Global, row: &[u8]) -> Result<Vec<Vec<u8>>, AllocError> {
    let mut parts = Vec::new(alloc);
    let mut part = Vec::new(alloc);
    for byte in row {
        if *byte == b';' {
            parts.push(part)?;
            part = Vec::new(alloc);
        } else {
            part.push(*byte)?;
        }
    }
    parts.push(part)?;
    Ok(parts)
}

/// The lines of statements with semicolons between. Digits before a statement are its label. The END line may be left out at the end.
fn cards_of(alloc: Global, row: &[u8]) -> Result<Vec<u8>, AllocError> {
    let mut cards = Vec::new(alloc);
    for part in parts_of(alloc, row)?.as_slice() {
        put_statement(&mut cards, part.as_slice())?;
    }
    if !row.ends_with(b"END".as_slice()) {
        put_statement(&mut cards, b"END".as_slice())?;
    }
    Ok(cards)
}

/// The units of statements with semicolons between.
pub fn units_of(alloc: Global, row: &[u8]) -> Result<List<UnitText>, Refused>
    ensures ended { IfOk result (λ units. All EndsUnit units) }
{
    read_law();
    let cards = cards_of(alloc, row)?;
    read_units(alloc, cards.as_slice())
}

fn push_form(alloc: Global, all: &mut List<Stmt>, line: &Line) -> Result<bool, AllocError> {
    let Some(form) = form_of(alloc, line.text.as_slice())? else {
        return Ok(false);
    };
    all.push(Stmt {
        label: line.label,
        line: line.line,
        form,
    })?;
    Ok(true)
}

fn forms_of(alloc: Global, lines: &[Line]) -> Result<Option<List<Stmt>>, AllocError> {
    let mut all = List::new(alloc);
    for line in lines {
        if !push_form(alloc, &mut all, line)? {
            return Ok(None);
        }
    }
    Ok(Some(all))
}

fn kind_of(form: &Form) -> UnitKind {
    match form {
        Form::Head(kind, _, _, _) => *kind,
        _ => UnitKind::Main,
    }
}

fn dummies_of(alloc: Global, form: &Form) -> Result<List<Name>, AllocError> {
    match form {
        Form::Head(_, _, _, dummies) => dummies.duplicate(alloc),
        _ => Ok(List::new(alloc)),
    }
}

fn headed(alloc: Global, name: &Name, statements: List<Stmt>) -> Result<Unit, AllocError> {
    let (kind, dummies) = match statements.as_slice().first() {
        Some(first) => (kind_of(&first.form), dummies_of(alloc, &first.form)?),
        None => (UnitKind::Main, List::new(alloc)),
    };
    Ok(Unit {
        kind,
        name: name.copy(alloc)?,
        dummies,
        statements,
        tokens: 0,
    })
}

/// The tree of a unit by the forms of its statements alone, or none where one has no form. Their order isn't asked.
pub fn tree_of(alloc: Global, unit: &UnitText) -> Result<Option<Unit>, AllocError> {
    match forms_of(alloc, unit.statements.as_slice())? {
        Some(statements) => Ok(Some(headed(alloc, &unit.name, statements)?)),
        None => Ok(None),
    }
}

/// The number before a colon, and the text behind it.
fn line_of(alloc: Global, part: &[u8]) -> Result<Line, AllocError> {
    let mut line = 0;
    let mut text = List::new(alloc);
    let mut behind = false;
    for byte in part {
        if behind {
            text.push(*byte)?;
        } else if *byte == b':' {
            behind = true;
        } else if byte.is_ascii_digit() {
            line = line % 1000 * 10 + (*byte - b'0') as u32;
        }
    }
    Ok(Line {
        label: 0,
        line,
        text,
    })
}

/// A unit of statements without blanks, each with its line before it, as `9:I=;2:END`.
pub fn unit_by_lines(alloc: Global, row: &[u8]) -> Result<UnitText, AllocError> {
    let mut statements = List::new(alloc);
    for part in parts_of(alloc, row)?.as_slice() {
        statements.push(line_of(alloc, part.as_slice())?)?;
    }
    Ok(UnitText {
        name: unit_name(alloc, b"".as_slice())?,
        statements,
    })
}

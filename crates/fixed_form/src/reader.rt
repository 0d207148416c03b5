//! The units of a text.
ghost use Rattle.std.specs.Prelude.{◌≡◌, ◌∷◌, ◌++◌, [], List as Lists, ℕ, false, length, map, IfOk, IfErr, IsTrue, ◌↔◌, ◌+◌, ◌<◌};
ghost use Rattle.fixed_form.specs.Cards as c;
ghost use Rattle.fixed_form.specs.Lines.{lines_of};
ghost use Rattle.fixed_form.specs.Progress as s;
ghost use Rattle.fixed_form.specs.Reading as r;

use super::card::{
    LineKind, card_strange, columns, is_comment_line, push_text, statement_kind, value_of,
};
use super::lines::next_line;
use super::unit_names::unit_name;
use f77_tree::{List, Name, Place, Refused, SourceFault};
use std::alloc::{AllocError, Global};

/// A statement: its label (0 for none), the number of its first line in the unit, and its text. A line past the greatest
/// u32 is told as that one.
#[derive(Drop)]
pub struct Line {
    pub label: u32,
    pub line: u32,
    pub text: List<u8>,
}

/// A unit by its name and its statements, of which the last is its END line.
#[derive(Drop)]
pub struct UnitText {
    pub name: Name,
    pub statements: List<Line>,
}

/// A statement in progress, the number of its continuation lines, and whether the place behind it is inside a literal.
#[derive(Drop)]
struct Current {
    line: Line,
    more: u8,
    inside: bool,
}

/// What was read, and the number of the next line in its unit.
#[derive(Drop)]
struct Reader {
    units: List<UnitText>,
    done: List<Line>,
    current: Option<Current>,
    next: u32,
}

fn refusal(number: u8, line: u64) -> Refused
    ensures { s.RefusesAt result number line }
{
    let line = line.min(4294967295) as u32;
    Refused::Fault(SourceFault {
        number,
        place: Place { unit: None, line },
        limit: 0,
    })
}

/// A new statement, with its first line.
fn begin(alloc: Global, number: u32, card: &[u8]) -> Result<Current, AllocError>
    requires { length card.now ≡ 72 }
    ensures { IfOk result (λ current. current ≡ s.begun_at number card.now) }
{
    let (label, _) = card.split_at(5);
    let (_, field) = card.split_at(6);
    let mut text = List::new(alloc);
    let inside = push_text(&mut text, false, field)?;
    let line = Line {
        label: value_of(label),
        line: number,
        text,
    };
    Ok(Current {
        line,
        more: 0,
        inside,
    })
}

/// A statement with one more line.
fn go_on(current: Current, card: &[u8]) -> Result<Current, AllocError>
    requires columns { length card.now ≡ 72 }
    requires few { current.more < 19 }
    ensures { IfOk result (λ longer. longer ≡ s.longer current card.now) }
{
    let Current { line, more, inside } = current;
    let Line {
        label,
        line,
        mut text,
    } = line;
    let (_, field) = card.split_at(6);
    let inside = push_text(&mut text, inside, field)?;
    Ok(Current {
        line: Line { label, line, text },
        more: more + 1,
        inside,
    })
}

fn close(done: List<Line>, current: Option<Current>) -> Result<List<Line>, AllocError>
    ensures { IfOk result (λ all. all ≡ done ++ s.closed current) }
{
    let mut done = done;
    if let Some(Current { line, .. }) = current {
        done.push(line)?;
    }
    Ok(done)
}

fn initial(alloc: Global, reader: Reader, card: &[u8]) -> Result<Reader, AllocError>
    requires { length card.now ≡ 72 }
    ensures { IfOk result (λ next. next ≡ record { units = reader.units; done = reader.done ++ s.closed reader.current; current = Some (s.begun_at reader.next card.now); next = r.told (reader.next + 1) }) }
{
    let Reader {
        units,
        done,
        current,
        next,
    } = reader;
    let done = close(done, current)?;
    Ok(Reader {
        units,
        done,
        current: Some(begin(alloc, next, card)?),
        next: next.saturating_add(1),
    })
}

/// The text of the first statement.
fn first_text(statements: &[Line]) -> &[u8]
    ensures { result.now ≡ r.first_text statements.now }
{
    match statements.first() {
        Some(line) => line.text.as_slice(),
        None => b"".as_slice(),
    }
}

/// The unit of these statements.
fn named(alloc: Global, statements: List<Line>) -> Result<UnitText, AllocError>
    ensures statements { IfOk result (λ unit. unit.statements ≡ statements) }
    ensures name { IfOk result (λ unit. r.IsNamed unit) }
{
    let name = unit_name(alloc, first_text(statements.as_slice()))?;
    Ok(UnitText { name, statements })
}

/// The statements of a unit, with its END line as the last.
fn ended(
    alloc: Global,
    done: List<Line>,
    current: Option<Current>,
    next: u32,
    card: &[u8],
) -> Result<List<Line>, AllocError>
    requires { length card.now ≡ 72 }
    ensures { IfOk result (λ all. all ≡ (done ++ s.closed current) ++ (s.begun_at next card.now).line ∷ []) }
{
    let mut statements = close(done, current)?;
    let Current { line, .. } = begin(alloc, next, card)?;
    statements.push(line)?;
    Ok(statements)
}

fn end(alloc: Global, reader: Reader, card: &[u8]) -> Result<Reader, AllocError>
    requires { length card.now ≡ 72 }
    ensures { IfOk result (λ next. s.IsClosed reader card.now next) }
{
    let Reader {
        mut units,
        done,
        current,
        next,
    } = reader;
    let statements = ended(alloc, done, current, next, card)?;
    units.push(named(alloc, statements)?)?;
    Ok(Reader {
        units,
        done: List::new(alloc),
        current: None,
        next: 1,
    })
}

fn continued(
    units: List<UnitText>,
    done: List<Line>,
    current: Current,
    next: u32,
    card: &[u8],
) -> Result<Reader, AllocError>
    requires columns { length card.now ≡ 72 }
    requires few { current.more < 19 }
    ensures { IfOk result (λ after. after ≡ record { units = units; done = done; current = Some (s.longer current card.now); next = r.told (next + 1) }) }
{
    let current = go_on(current, card)?;
    Ok(Reader {
        units,
        done,
        current: Some(current),
        next: next.saturating_add(1),
    })
}

fn passed(reader: Reader) -> Reader
    ensures { result ≡ record { units = reader.units; done = reader.done; current = reader.current; next = r.told (reader.next + 1) } }
{
    let Reader {
        units,
        done,
        current,
        next,
    } = reader;
    Reader {
        units,
        done,
        current,
        next: next.saturating_add(1),
    }
}

/// Whether column 7 of a line of this kind is inside a literal.
fn inside_at(reader: &Reader, kind: LineKind) -> bool
    ensures { result ≡ s.inside_current reader.now.current kind }
{
    match (&reader.current, kind) {
        (Some(current), LineKind::Continuation | LineKind::LabelledContinuation) => current.inside,
        _ => false,
    }
}

/// One more line that is no comment line, by its columns.
fn take_card(alloc: Global, reader: Reader, number: u64, card: &[u8]) -> Result<Reader, Refused>
    requires { length card.now ≡ 72 }
    ensures ok { IfOk result (λ next. (seen : Lists (Lists ℕ)) (line : Lists ℕ) → s.IsNextCard seen line number card.now → s.StandsIn seen reader → s.StandsIn (seen ++ line ∷ []) next) }
    ensures err { IfErr result (λ e. (seen rest : Lists (Lists ℕ)) (line : Lists ℕ) → s.IsNextCard seen line number card.now → s.StandsIn seen reader → r.Explains e (seen ++ line ∷ rest)) }
{
    let kind = statement_kind(alloc, card)?;
    if card_strange(inside_at(&reader, kind), card) {
        return Err(refusal(1, number));
    }
    match kind {
        LineKind::Comment => Ok(passed(reader)),
        LineKind::Initial => Ok(initial(alloc, reader, card)?),
        LineKind::End => Ok(end(alloc, reader, card)?),
        LineKind::Continuation => {
            let Reader {
                units,
                done,
                current,
                next,
            } = reader;
            match current {
                None => Err(refusal(3, number)),
                Some(current) => {
                    if current.more >= 19 {
                        return Err(refusal(4, number));
                    }
                    Ok(continued(units, done, current, next, card)?)
                }
            }
        }
        LineKind::BadLabel | LineKind::LabelledContinuation => Err(refusal(2, number)),
    }
}

/// One more line, which has this number in the text.
fn take_line(alloc: Global, reader: Reader, number: u64, line: &[u8]) -> Result<Reader, Refused>
    ensures ok { IfOk result (λ next. (seen : Lists (Lists ℕ)) → number ≡ length seen + 1 → s.StandsIn seen reader → s.StandsIn (seen ++ line.now ∷ []) next) }
    ensures err { IfErr result (λ e. (seen rest : Lists (Lists ℕ)) → number ≡ length seen + 1 → s.StandsIn seen reader → r.Explains e (seen ++ line.now ∷ rest)) }
{
    if is_comment_line(line) {
        return Ok(passed(reader));
    }
    let card = columns(alloc, line)?;
    take_card(alloc, reader, number, card.as_slice())
}

/// The units of a text, or the first of the faults 1 to 5 by line and then number.
pub fn read_units(alloc: Global, text: &[u8]) -> Result<List<UnitText>, Refused>
    ensures units { IfOk result (λ units. r.Reads (lines_of text.now) units) }
    ensures fault { IfErr result (λ e. r.Explains e (lines_of text.now)) }
{
    let mut reader = Reader {
        units: List::new(alloc),
        done: List::new(alloc),
        current: None,
        next: 1,
    };
    let mut number: u64 = 0;
    let mut rest = text;
    'line: while let Some((line, after)) = next_line(rest) {
        number += 1;
        reader = take_line(alloc, reader, number, line)?;
        rest = after;
    }
    if reader.current.is_some() {
        return Err(refusal(5, number));
    }
    Ok(reader.units)
}

fn same_line(a: &Line, b: &Line) -> bool
    ensures { IsTrue result ↔ (r.label_and_text a.now ≡ r.label_and_text b.now) }
{
    a.label == b.label && a.text.as_slice() == b.text.as_slice()
}

/// Whether two units have the same labels and texts.
#[tactic(auto, unfolding(crate::specs::Reading::source_of))]
pub fn same_source(a: &UnitText, b: &UnitText) -> bool
    ensures { IsTrue result ↔ (r.source_of a.now ≡ r.source_of b.now) }
{
    let xs = a.statements.as_slice();
    let ys = b.statements.as_slice();
    if xs.len() != ys.len() {
        return false;
    }
    for i in 0..xs.len() {
        if !same_line(&xs[i], &ys[i]) {
            return false;
        }
    }
    true
}

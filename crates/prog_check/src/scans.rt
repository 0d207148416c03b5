//! The first fault of each kind, unit by unit.
ghost use Rattle.std.specs.Prelude.{◌≡◌, map, false, List as Lists};
ghost use Rattle.f77_tree.specs.declared.unit.Unit.{Unit as AnyUnit};
ghost use Rattle.prog_check.specs.Mains as a;
ghost use Rattle.call_cycles.specs.Marks as k;
ghost use Rattle.prog_texts.specs.Mentions as m;
ghost use Rattle.prog_check.specs.ProgramFaults as p;
ghost use Rattle.prog_check.specs.Scans as s;
ghost use Rattle.prog_texts.specs.Signatures as g;

use super::checks::{Check, line_of, number_of, shows};
use call_cycles::{ProgramMark, first_of, mark_at};
use f77_tree::{List, Unit, UnitKind};
use f77_values::Table;
use prog_texts::{Mention, Program, Signature};

fn sooner(best: Option<u32>, line: u32) -> Option<u32>
    ensures { result ≡ s.sooner best line }
{
    match best {
        Some(best) => Some(best.min(line)),
        None => Some(line),
    }
}

fn with_mention(
    check: Check,
    units: &Table<Signature>,
    best: Option<u32>,
    mention: &Mention,
) -> Option<u32>
    ensures { result ≡ s.with_mention check units.now best mention.now }
{
    if shows(check, units, mention) {
        return sooner(best, line_of(mention));
    }
    best
}

fn earliest_line(check: Check, units: &Table<Signature>, text: &List<Mention>) -> Option<u32>
    ensures { result ≡ s.earliest_line check units.now text.now }
{
    let mut best = None;
    for mention in text.as_slice() {
        best = with_mention(check, units, best, mention);
    }
    best
}

fn first_text(
    check: Check,
    units: &Table<Signature>,
    texts: &[List<Mention>],
) -> Option<ProgramMark>
    ensures { result ≡ s.first_text check units.now 0 texts.now }
{
    for (place, text) in texts.iter().enumerate() {
        let line = earliest_line(check, units, text);
        if let Some(line) = line {
            return Some(mark_at(number_of(check), 0, Some(place), line));
        }
    }
    None
}

fn any_text(units: &Table<Signature>, texts: &[List<Mention>]) -> Option<ProgramMark>
    ensures { result ≡ s.any_text units.now texts.now }
{
    let kinds = first_of(
        first_text(Check::Kind, units, texts),
        first_text(Check::Procedure, units, texts),
    );
    let actuals = first_of(first_text(Check::Actual, units, texts), kinds);
    let counts = first_of(first_text(Check::Count, units, texts), actuals);
    let callees = first_of(first_text(Check::Callee, units, texts), counts);
    first_of(first_text(Check::BlockName, units, texts), callees)
}

/// The first of the faults that the texts of a program's units show against each other: 29 to 33 and 35.
pub fn text_fault(program: &Program) -> Option<ProgramMark>
    ensures { (units : Lists AnyUnit) → program.now.signatures ≡ g.signatures units → program.now.texts ≡ map m.mentions units → k.Earliest (p.TextFaults units) result }
{
    any_text(&program.signatures, program.texts.as_slice())
}

fn is_main(unit: &Unit) -> bool
    ensures { result ≡ a.is_main unit.now }
{
    match unit.kind {
        UnitKind::Main => true,
        _ => false,
    }
}

fn has_main(units: &[Unit]) -> bool
    ensures { result ≡ a.has_main units.now }
{
    units.iter().any(|u| is_main(u))
}

fn lacking_main(units: &[Unit]) -> Option<ProgramMark>
    ensures { k.Earliest (a.LacksMain units.now) result }
{
    if has_main(units) {
        return None;
    }
    Some(mark_at(27, 0, None, 0))
}

fn later_main(units: &[Unit]) -> Option<ProgramMark>
    ensures { result ≡ s.later_main false 0 units.now }
{
    let mut seen = false;
    for (place, unit) in units.iter().enumerate() {
        if is_main(unit) {
            if seen {
                return Some(mark_at(28, 0, Some(place), 1));
            }
            seen = true;
        }
    }
    None
}

/// The first of the faults 27 and 28: no main program, or a second one.
pub fn main_fault(units: &[Unit]) -> Option<ProgramMark>
    ensures { k.Earliest (p.MainFaults units.now) result }
{
    first_of(lacking_main(units), later_main(units))
}

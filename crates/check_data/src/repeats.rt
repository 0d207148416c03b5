//! Statements of DATA that initialise a unit again.
ghost use Rattle.std.specs.Prelude.{◌≡◌, ◌++◌, List, IfOk, OnOk};
ghost use Rattle.fault_marks.specs.Earliest.{Earliest};
ghost use Rattle.fault_marks.specs.Places.{ShowsAt};
ghost use Rattle.check_data.specs.DataTwice as t;
ghost use Rattle.check_constants.specs.Defined as d;
ghost use Rattle.check_constants.specs.Passes as p;
ghost use Rattle.check_data.specs.Seen as s;
ghost use Rattle.check_data.specs.Faults as v;

use super::given::{Seen, gives_of, meet_all};
use check_constants::{Defined, define_in};
use f77_tree::{List as Items, Stmt, Unit};
use fault_marks::{Mark, earliest_flagged};
use std::alloc::{AllocError, Global};

fn meet_statement(
    alloc: Global,
    defined: &Defined,
    seen: &mut Seen,
    statement: &Stmt,
) -> Result<bool, AllocError>
    ensures twice { (before : List t.Item) → s.Tells seen.old before → IfOk result (λ twice. twice ≡ t.given_twice before (t.statement_gives defined.now statement.now)) }
    ensures tells { (before : List t.Item) → s.Tells seen.old before → OnOk result (s.Tells seen.new (before ++ t.statement_gives defined.now statement.now)) }
{
    let all = gives_of(alloc, &defined.values, &statement.form)?;
    meet_all(alloc, seen, &all)
}

fn repeating(alloc: Global, statements: &Items<Stmt>) -> Result<Items<bool>, AllocError>
    ensures { IfOk result (λ flags. flags ≡ p.flags_from t.past_with t.statement_repeats t.beginning statements.now) }
{
    let mut defined = Defined::new(alloc);
    let mut seen = Seen::new(alloc);
    let mut flags = Items::new(alloc);
    for statement in statements.as_slice() {
        let twice = meet_statement(alloc, &defined, &mut seen, statement)?;
        define_in(alloc, &mut defined, statement)?;
        flags.push(twice)?;
    }
    Ok(flags)
}

/// The first statement that initialises a unit which was initialised before it or in it.
pub fn repeat_fault(alloc: Global, unit: &Unit) -> Result<Option<Mark>, AllocError>
    ensures { IfOk result (λ mark. Earliest (ShowsAt unit.now.statements (v.InitialisesTwice unit.now) 23 0) mark) }
{
    let flags = repeating(alloc, &unit.statements)?;
    Ok(earliest_flagged(unit.statements.as_slice(), flags.as_slice(), 23, 0))
}

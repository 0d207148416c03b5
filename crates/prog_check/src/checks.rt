//! The faults that a unit's text shows against the other units.
ghost use Rattle.std.specs.Prelude.{◌≡◌, not, is_some, None, Some};
ghost use Rattle.std.specs.Option.{option_copied};
ghost use Rattle.prog_check.specs.Checks as c;
ghost use Rattle.prog_texts.specs.Signatures as s;

use f77_tree::{List, Name, Ty, UnitKind};
use f77_values::Table;
use prog_texts::{Actual, Dummy, Mention, Shape, Signature, Site, Wanted};

/// Which fault is looked for.
#[derive(Clone, Copy, Debug, Drop, PartialEq, Eq)]
pub enum Check {
    /// A COMMON block with the name of a unit.
    BlockName,
    /// A site whose callee is no unit.
    Callee,
    /// A site with another number of actuals than its callee has dummies.
    Count,
    /// An actual that doesn't fit its dummy.
    Actual,
    /// A callee of another kind or type than the site wants.
    Kind,
    /// A dummy that stands for a procedure, or an actual that is the name of one.
    Procedure,
}

type Units = Table<Signature>;

fn is_other(a: Ty, b: Ty) -> bool
    ensures { result ≡ c.is_other a b }
{
    match (a, b) {
        (Ty::Integer, Ty::Logical) | (Ty::Logical, Ty::Integer) => true,
        _ => false,
    }
}

fn differs(a: Option<Ty>, b: Option<Ty>) -> bool
    ensures { result ≡ c.differs a b }
{
    match (a, b) {
        (Some(a), Some(b)) => is_other(a, b),
        _ => false,
    }
}

fn is_misshapen(shape: Shape, a: &Actual) -> bool
    ensures { result ≡ c.is_misshapen shape a.now }
{
    match shape {
        Shape::Scalar => a.is_array,
        Shape::Array => !(a.is_array | a.is_element),
        Shape::Procedure => false,
    }
}

fn is_mistyped(d: &Dummy, a: &Actual) -> bool
    ensures { result ≡ c.is_mistyped d.now a.now }
{
    !a.is_procedure & differs(d.ty, a.ty)
}

fn is_misfit(d: &Dummy, a: &Actual) -> bool
    ensures { result ≡ c.is_misfit (d.now, a.now) }
{
    is_mistyped(d, a) | is_misshapen(d.shape, a)
}

fn has_misfit(dummies: &List<Dummy>, actuals: &List<Actual>) -> bool
    ensures { result ≡ c.has_misfit dummies.now actuals.now }
{
    let wanted = dummies.as_slice();
    let given = actuals.as_slice();
    for k in 0..wanted.len().min(given.len()) {
        if is_misfit(&wanted[k], &given[k]) {
            return true;
        }
    }
    false
}

fn is_subroutine(kind: UnitKind) -> bool
    ensures { result ≡ c.is_subroutine kind }
{
    match kind {
        UnitKind::Subroutine => true,
        _ => false,
    }
}

fn is_function(kind: UnitKind) -> bool
    ensures { result ≡ c.is_function kind }
{
    match kind {
        UnitKind::Function => true,
        _ => false,
    }
}

fn is_wrong_callee(wanted: Wanted, unit: &Signature) -> bool
    ensures { result ≡ c.is_wrong_callee wanted unit.now }
{
    match wanted {
        Wanted::Subroutine => !is_subroutine(unit.kind),
        Wanted::Function(ty) => !is_function(unit.kind) | differs(unit.result, ty),
    }
}

fn is_unit(units: &Units, name: &Name) -> bool
    ensures { result ≡ is_some (s.unit_of units.now name.now) }
{
    units.get(name).is_some()
}

fn miscounts(units: &Units, site: &Site) -> bool
    ensures { result ≡ c.miscounts site.now (s.unit_of units.now site.now.callee) }
{
    match units.get(&site.callee) {
        Some(unit) => site.actuals.len() != unit.dummies.len(),
        None => false,
    }
}

fn misfits(units: &Units, site: &Site) -> bool
    ensures { result ≡ c.misfits site.now (s.unit_of units.now site.now.callee) }
{
    match units.get(&site.callee) {
        Some(unit) => has_misfit(&unit.dummies, &site.actuals),
        None => false,
    }
}

fn misuses(units: &Units, site: &Site) -> bool
    ensures { result ≡ c.misuses site.now (s.unit_of units.now site.now.callee) }
{
    match units.get(&site.callee) {
        Some(unit) => is_wrong_callee(site.wanted, unit),
        None => false,
    }
}

fn passes_procedure(site: &Site) -> bool
    ensures { result ≡ c.passes_procedure site.now }
{
    site.actuals.as_slice().iter().any(|a| a.is_procedure)
}

fn site_shows(check: Check, units: &Units, site: &Site) -> bool
    ensures { result ≡ c.site_shows check units.now site.now }
{
    match check {
        Check::BlockName => false,
        Check::Callee => !is_unit(units, &site.callee),
        Check::Count => miscounts(units, site),
        Check::Actual => misfits(units, site),
        Check::Kind => misuses(units, site),
        Check::Procedure => passes_procedure(site),
    }
}

fn block_shows(check: Check, units: &Units, name: &Name) -> bool
    ensures { result ≡ c.block_shows check units.now name.now }
{
    match check {
        Check::BlockName => is_unit(units, name),
        _ => false,
    }
}

fn dummy_shows(check: Check) -> bool
    ensures { result ≡ c.dummy_shows check }
{
    match check {
        Check::Procedure => true,
        _ => false,
    }
}

/// Whether what a text says shows the fault.
pub fn shows(check: Check, units: &Units, mention: &Mention) -> bool
    ensures { result ≡ c.shows check units.now mention.now }
{
    match mention {
        Mention::Site(site) => site_shows(check, units, site),
        Mention::Block(name, _) => block_shows(check, units, name),
        Mention::DummyProcedure(_) => dummy_shows(check),
    }
}

/// The line of the statement that says it.
pub fn line_of(mention: &Mention) -> u32
    ensures { result ≡ c.line_of mention.now }
{
    match mention {
        Mention::Site(site) => site.line,
        Mention::Block(_, line) | Mention::DummyProcedure(line) => *line,
    }
}

/// The number of the fault.
pub fn number_of(check: Check) -> u8
    ensures { result ≡ c.number_of check }
{
    match check {
        Check::BlockName => 29,
        Check::Callee => 30,
        Check::Count => 31,
        Check::Actual => 32,
        Check::Kind => 33,
        Check::Procedure => 35,
    }
}

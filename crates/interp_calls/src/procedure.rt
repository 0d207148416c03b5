//! A unit for its runs: its statements and data, where control goes, which cells it keeps, and where its callees stand.
ghost use Rattle.std.specs.Prelude.{◌≡◌};
ghost use Rattle.interp_calls.specs.Procedures as p;

use f77_flow::Control;
use interp_lower::Routine;

/// A unit with all that its runs look up: where control goes, its text, which of its local cells SAVE and DATA keep, which of its dummies
/// are arrays, and the places of units among all procedures: of the unit with its own name, and of the callee of each site.
#[derive(Drop)]
pub struct Procedure<'u> {
    pub control: Control<'u>,
    pub routine: Routine,
    pub kept: Vec<bool>,
    pub arrays: Vec<bool>,
    pub own: usize,
    pub callees: Vec<usize>,
}

/// The place of the unit that is called at a site.
pub fn place(procedure: &Procedure, site: usize) -> usize
    ensures { result ≡ p.place procedure.now.own procedure.now.callees.items site }
{
    if site == 0 {
        return procedure.own;
    }
    match procedure.callees.as_slice().get(site - 1) {
        Some(found) => *found,
        None => procedure.own,
    }
}

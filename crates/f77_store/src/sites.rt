//! The sites of a unit: its CALL statements and its references to functions.
ghost use Rattle.std.specs.Prelude.{◌≡◌, ◌++◌, flat_map, IfOk, OnOk};
ghost use Rattle.f77_store.specs.Layouts as l;

use f77_names::{Attributes, Manner, Occurrence, is_function};
use f77_tree::{List, Name};
use std::alloc::{AllocError, Global};

fn is_site(a: &Attributes, o: &Occurrence) -> bool
    ensures { result ≡ l.is_site a.now o.now.manner o.now.name }
{
    match o.manner {
        Manner::Called => true,
        Manner::Listed => is_function(a, &o.name),
        _ => false,
    }
}

fn push_callee(
    alloc: Global,
    found: &mut List<Name>,
    a: &Attributes,
    o: &Occurrence,
) -> Result<(), AllocError>
    ensures { OnOk result (found.new ≡ found.old ++ l.callee a.now o.now) }
{
    if is_site(a, o) {
        return found.push(o.name.copy(alloc)?);
    }
    Ok(())
}

/// The callee of each site, in the order of the text.
#[tactic(auto, using(crate::proofs::Joined::joined))]
pub fn callees_of(
    alloc: Global,
    a: &Attributes,
    all: &List<Occurrence>,
) -> Result<List<Name>, AllocError>
    ensures { IfOk result (λ callees. callees ≡ flat_map (l.callee a.now) all.now) }
{
    let mut found = List::new(alloc);
    for occurrence in all.as_slice() {
        push_callee(alloc, &mut found, a, occurrence)?;
    }
    Ok(found)
}

//! The names of a unit by what makes their roles.
ghost use Rattle.std.specs.Prelude.{◌≡◌, IfOk, OnOk, fold, is_some};
ghost use Rattle.f77_names.specs.Intrinsics as i;
ghost use Rattle.f77_values.specs.Tables as n;
ghost use Rattle.f77_names.specs.Occurrences as o;
ghost use Rattle.f77_names.specs.Roles as r;

use super::intrinsics::intrinsic_of;
use super::occurrences::{Manner, Occurrence};
use f77_tree::{List, Name};
use f77_values::Names;
use std::alloc::{AllocError, Global};

/// The names by what makes their roles.
pub struct Attributes {
    /// In the list of the head.
    pub dummies: Names,
    /// Declared with bounds.
    pub arrays: Names,
    /// Defined by PARAMETER.
    pub constants: Names,
    /// In EXTERNAL.
    pub external: Names,
    /// In INTRINSIC.
    pub intrinsic: Names,
    /// Behind CALL.
    pub called: Names,
    /// With a list elsewhere.
    pub listed: Names,
}

// A call of its own, so that who drops it doesn't open its names.
impl Drop for Attributes {
    fn drop(self) {
        let Attributes {
            dummies,
            arrays,
            constants,
            external,
            intrinsic,
            called,
            listed,
        } = self;
    }
}

fn is_manner(a: Manner, b: Manner) -> bool
    ensures { result ≡ o.is_manner a b }
{
    a == b
}

fn add_if(
    alloc: Global,
    names: &mut Names,
    manner: Manner,
    occurrence: &Occurrence,
) -> Result<(), AllocError>
    ensures { OnOk result (names.new ≡ fold n.with_name names.old (o.named_if manner occurrence.now)) }
{
    if is_manner(manner, occurrence.manner) {
        return names.insert(occurrence.name.copy(alloc)?);
    }
    Ok(())
}

fn names_that(alloc: Global, all: &List<Occurrence>, manner: Manner) -> Result<Names, AllocError>
    ensures { IfOk result (λ names. names ≡ n.distinct (o.names_that manner all.now)) }
{
    let mut names = Names::new(alloc);
    for occurrence in all.as_slice() {
        add_if(alloc, &mut names, manner, occurrence)?;
    }
    Ok(names)
}

/// The names by what makes their roles.
pub fn attributes_of(alloc: Global, all: &List<Occurrence>) -> Result<Attributes, AllocError>
    ensures { IfOk result (λ a. a ≡ r.attributes all.now) }
{
    Ok(Attributes {
        dummies: names_that(alloc, all, Manner::Dummy)?,
        arrays: names_that(alloc, all, Manner::Dimensioned)?,
        constants: names_that(alloc, all, Manner::Defined)?,
        external: names_that(alloc, all, Manner::External)?,
        intrinsic: names_that(alloc, all, Manner::Intrinsic)?,
        called: names_that(alloc, all, Manner::Called)?,
        listed: names_that(alloc, all, Manner::Listed)?,
    })
}

fn is_intrinsic_name(name: &Name) -> bool
    ensures { result ≡ is_some (i.intrinsic_of name.now) }
{
    intrinsic_of(name).is_some()
}

fn is_applied(a: &Attributes, name: &Name) -> bool
    ensures { result ≡ r.is_applied a.now name.now }
{
    a.listed.contains(name) & !a.arrays.contains(name) & !a.dummies.contains(name)
}

fn is_in_table(a: &Attributes, name: &Name) -> bool
    ensures { result ≡ r.is_in_table a.now name.now }
{
    is_intrinsic_name(name) & !a.external.contains(name)
}

/// Whether the name is an intrinsic function.
pub fn is_intrinsic(a: &Attributes, name: &Name) -> bool
    ensures { result ≡ r.is_intrinsic a.now name.now }
{
    let named = a.intrinsic.contains(name) & is_intrinsic_name(name);
    named | (is_applied(a, name) & is_in_table(a, name))
}

/// Whether the name is a function: it has a list, and is no array, no dummy and no intrinsic.
pub fn is_function(a: &Attributes, name: &Name) -> bool
    ensures { result ≡ r.is_function a.now name.now }
{
    is_applied(a, name) & !is_in_table(a, name)
}

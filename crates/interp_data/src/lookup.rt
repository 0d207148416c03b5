//! What the names of a unit stand for.
ghost use Rattle.std.specs.Prelude.{◌≡◌, Some, None, IfOk, OnOk};
ghost use Rattle.f77_semantics.specs.Terms as t;
ghost use Rattle.f77_semantics.specs.Source as source;
ghost use Rattle.f77_names.specs.Intrinsics as i;
ghost use Rattle.f77_values.specs.Tables as n;
ghost use Rattle.f77_names.specs.Roles as r;
ghost use Rattle.interp_data.specs.Meanings as m;

use super::meaning::Meaning;
use super::standing::{array_of, base_of};
use f77_names::{Facts, Role, intrinsic_of, role_of};
use f77_store::Slot;
use f77_tree::{List, Name};
use f77_values::Table;
use std::alloc::{AllocError, Global};

/// The facts and the slots of a unit. What the names with a slot stand for is told once.
#[derive(Drop)]
pub struct Lookup {
    pub facts: Facts,
    pub slots: List<Slot>,
    told: Table<Meaning>,
    ghost right: { m.Tells facts slots told },
}

fn intrinsic_meaning(name: &Name) -> Meaning
    ensures { m.meant_of result ≡ t.intrinsic_meant (i.intrinsic_of name.now) }
{
    match intrinsic_of(name) {
        Some(intrinsic) => Meaning::Intrinsic(intrinsic),
        None => Meaning::Unknown,
    }
}

// What a name with this role and no slot stands for.
fn slotless(facts: &Facts, name: &Name, role: &Role) -> Meaning
    ensures { m.meant_of result ≡ t.meant_as facts.now.constants name.now role.now None }
{
    match role {
        Role::Constant(value) => Meaning::Constant(*value),
        Role::Intrinsic => intrinsic_meaning(name),
        Role::Function => Meaning::Function,
        Role::Scalar | Role::Array(_) | Role::Subroutine | Role::Procedure => Meaning::Unknown,
    }
}

fn with_slot(alloc: Global, facts: &Facts, role: &Role, slot: &Slot) -> Result<Meaning, AllocError>
    ensures { IfOk result (λ meaning. m.meant_of meaning ≡ t.meant_as facts.now.constants slot.now.name role.now (Some slot.now)) }
{
    match role {
        Role::Array(bounds) => Ok(Meaning::Array(
            slot.ty,
            array_of(alloc, &facts.constants, bounds, slot)?,
        )),
        Role::Scalar => Ok(Meaning::Variable(slot.ty, base_of(alloc, slot)?)),
        Role::Constant(value) => Ok(Meaning::Constant(*value)),
        Role::Intrinsic => Ok(intrinsic_meaning(&slot.name)),
        Role::Function => Ok(Meaning::Function),
        Role::Subroutine | Role::Procedure => Ok(Meaning::Unknown),
    }
}

fn slot_meaning(alloc: Global, facts: &Facts, slot: &Slot) -> Result<Meaning, AllocError>
    ensures { IfOk result (λ meaning. m.meant_of meaning ≡ t.meant_as facts.now.constants slot.now.name (r.role facts.now slot.now.name) (Some slot.now)) }
{
    let role = role_of(alloc, facts, &slot.name)?;
    with_slot(alloc, facts, &role, slot)
}

fn is_told(told: &Table<Meaning>, name: &Name) -> bool
    ensures { result ≡ m.is_told (n.what told.now name.now) }
{
    told.get(name).is_some()
}

// Tells what the name of a slot stands for, where no slot before it has the name.
fn tell(
    alloc: Global,
    facts: &Facts,
    told: &mut Table<Meaning>,
    slot: &Slot,
) -> Result<(), AllocError>
    ensures { OnOk result (m.TellsMore facts.now slot.now told.old told.new) }
{
    if is_told(told, &slot.name) {
        return Ok(());
    }
    let meaning = slot_meaning(alloc, facts, slot)?;
    told.insert(slot.name.copy(alloc)?, meaning)
}

fn tell_all(alloc: Global, facts: &Facts, slots: &List<Slot>) -> Result<Table<Meaning>, AllocError>
    ensures { IfOk result (λ told. m.Tells facts.now slots.now told) }
{
    let mut told = Table::new(alloc);
    for slot in slots.as_slice() {
        tell(alloc, facts, &mut told, slot)?;
    }
    Ok(told)
}

impl Lookup {
    /// The names of a unit with these facts and slots.
    pub fn new(alloc: Global, facts: Facts, slots: List<Slot>) -> Result<Lookup, AllocError>
        ensures facts { IfOk result (λ names. names.facts ≡ facts) }
        ensures slots { IfOk result (λ names. names.slots ≡ slots) }
    {
        let told = tell_all(alloc, &facts, &slots)?;
        Ok(Lookup { facts, slots, told })
    }

    /// What a name stands for.
    pub fn meaning(&self, alloc: Global, name: &Name) -> Result<Meaning, AllocError>
        ensures { IfOk result (λ meaning. m.meant_of meaning ≡ source.meant_in self.now.facts self.now.slots name.now) }
    {
        match self.told.get(name) {
            Some(meaning) => meaning.copy(alloc),
            None => {
                let role = role_of(alloc, &self.facts, name)?;
                Ok(slotless(&self.facts, name, &role))
            }
        }
    }
}

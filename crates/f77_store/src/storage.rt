//! Where the names of a unit are stored.
ghost use Rattle.std.specs.Prelude.{◌≡◌, ◌++◌, flat_map, is_some, unwrap_or, IfOk, OnOk};
ghost use Rattle.f77_tree.specs.declared.unit.Ty.TheVariants as t;
ghost use Rattle.f77_values.specs.Tables as n;
ghost use Rattle.f77_store.specs.Layouts as l;

use super::areas::{Member, Place, size_of};
use f77_names::{Facts, Known, Role};
use f77_tree::{List, Name, Ty, blank_name};
use f77_values::Table;
use std::alloc::{AllocError, Global};

/// A dummy by its position, the local area, or a COMMON block.
#[derive(Drop)]
pub enum Area {
    Dummy(u32),
    Local,
    Common(Name),
}

/// The storage of a variable, an array, a dummy or the result: `size` storage units from `from` on. For a dummy `from` is 0, and for a
/// dummy array `size` is 0.
#[derive(Drop)]
pub struct Slot {
    pub name: Name,
    pub ty: Ty,
    pub area: Area,
    pub from: u32,
    pub size: u32,
    pub is_array: bool,
}

/// The storage of a unit. Slots, blocks with their sizes, and names stand in the order of first appearance; callees in the order of the
/// text, one for each site. Places and sizes above 4,294,967,295 are given as that number.
#[derive(Drop)]
pub struct Layout {
    pub slots: List<Slot>,
    pub local_size: u32,
    pub blocks: List<(Name, u32)>,
    pub names: List<Known>,
    pub callees: List<Name>,
}

fn is_array(role: &Role) -> bool
    ensures { result ≡ l.is_array role.now }
{
    match role {
        Role::Array(_) => true,
        _ => false,
    }
}

fn is_variable(role: &Role) -> bool
    ensures { result ≡ l.is_variable role.now }
{
    match role {
        Role::Array(_) | Role::Scalar => true,
        _ => false,
    }
}

fn is_dummy(facts: &Facts, k: &Known) -> bool
    ensures { result ≡ l.is_dummy facts.now k.now }
{
    facts.attributes.dummies.contains(&k.name)
}

fn is_placed(places: &Table<Place>, name: &Name) -> bool
    ensures { result ≡ is_some (n.what places.now name.now) }
{
    places.get(name).is_some()
}

fn is_local(facts: &Facts, commons: &Table<Place>, k: &Known) -> bool
    ensures { result ≡ l.is_local facts.now commons.now k.now }
{
    is_variable(&k.role) & !is_dummy(facts, k) & !is_placed(commons, &k.name)
}

#[tactic(auto, using(crate::proofs::Joined::joined))]
fn push_local(
    alloc: Global,
    found: &mut List<Member>,
    facts: &Facts,
    commons: &Table<Place>,
    k: &Known,
) -> Result<(), AllocError>
    ensures { OnOk result (found.new ≡ found.old ++ l.local_member facts.now commons.now k.now) }
{
    if is_local(facts, commons, k) {
        let name = k.name.copy(alloc)?;
        let block = blank_name(alloc);
        return found.push(Member { block, name });
    }
    Ok(())
}

/// The members of the local area in the order of first appearance.
#[tactic(auto, using(crate::proofs::Joined::joined))]
pub fn locals_of(
    alloc: Global,
    facts: &Facts,
    commons: &Table<Place>,
    all: &List<Known>,
) -> Result<List<Member>, AllocError>
    ensures { IfOk result (λ members. members ≡ l.locals facts.now commons.now all.now) }
{
    let mut found = List::new(alloc);
    for name in all.as_slice() {
        push_local(alloc, &mut found, facts, commons, name)?;
    }
    Ok(found)
}

fn type_or_integer(ty: Option<Ty>) -> Ty
    ensures { result ≡ unwrap_or ty t.Integer }
{
    match ty {
        Some(ty) => ty,
        None => Ty::Integer,
    }
}

fn position(facts: &Facts, name: &Name) -> u32
    ensures { result ≡ l.position facts.now name.now }
{
    facts
        .attributes
        .dummies
        .position(name)
        .min(u32::MAX as usize) as u32
}

fn dummy_slot(alloc: Global, facts: &Facts, k: &Known) -> Result<Slot, AllocError>
    ensures { IfOk result (λ slot. slot ≡ l.dummy_slot facts.now k.now) }
{
    Ok(Slot {
        name: k.name.copy(alloc)?,
        ty: type_or_integer(k.ty),
        area: Area::Dummy(position(facts, &k.name)),
        from: 0,
        size: if is_array(&k.role) { 0 } else { 1 },
        is_array: is_array(&k.role),
    })
}

fn area_of(alloc: Global, commons: &Table<Place>, name: &Name) -> Result<Area, AllocError>
    ensures { IfOk result (λ area. area ≡ l.common_area (n.what commons.now name.now)) }
{
    match commons.get(name) {
        Some(place) => Ok(Area::Common(place.block.copy(alloc)?)),
        None => Ok(Area::Local),
    }
}

fn local_from(own: &Table<Place>, name: &Name) -> u32
    ensures { result ≡ l.from_of (n.what own.now name.now) }
{
    match own.get(name) {
        Some(place) => place.from,
        None => 0,
    }
}

fn from_of(commons: &Table<Place>, own: &Table<Place>, name: &Name) -> u32
    ensures { result ≡ l.from_of (l.either_place (n.what commons.now name.now) (n.what own.now name.now)) }
{
    match commons.get(name) {
        Some(place) => place.from,
        None => local_from(own, name),
    }
}

fn own_slot(
    alloc: Global,
    facts: &Facts,
    commons: &Table<Place>,
    own: &Table<Place>,
    k: &Known,
) -> Result<Slot, AllocError>
    ensures { IfOk result (λ slot. slot ≡ l.own_slot facts.now commons.now own.now k.now) }
{
    Ok(Slot {
        name: k.name.copy(alloc)?,
        ty: type_or_integer(k.ty),
        area: area_of(alloc, commons, &k.name)?,
        from: from_of(commons, own, &k.name),
        size: size_of(&facts.shapes, &k.name),
        is_array: is_array(&k.role),
    })
}

fn push_slot(
    alloc: Global,
    found: &mut List<Slot>,
    facts: &Facts,
    commons: &Table<Place>,
    own: &Table<Place>,
    k: &Known,
) -> Result<(), AllocError>
    ensures { OnOk result (found.new ≡ found.old ++ l.slot_of facts.now commons.now own.now k.now) }
{
    if is_dummy(facts, k) {
        return found.push(dummy_slot(alloc, facts, k)?);
    }
    if is_variable(&k.role) {
        return found.push(own_slot(alloc, facts, commons, own, k)?);
    }
    Ok(())
}

/// The slots of a unit in the order of first appearance.
#[tactic(auto, using(crate::proofs::Joined::joined))]
pub fn slots_of(
    alloc: Global,
    facts: &Facts,
    commons: &Table<Place>,
    own: &Table<Place>,
    all: &List<Known>,
) -> Result<List<Slot>, AllocError>
    ensures { IfOk result (λ slots. slots ≡ flat_map (l.slot_of facts.now commons.now own.now) all.now) }
{
    let mut found = List::new(alloc);
    for name in all.as_slice() {
        push_slot(alloc, &mut found, facts, commons, own, name)?;
    }
    Ok(found)
}

//! Areas of storage and the places in them.
ghost use Rattle.std.specs.Prelude.{◌≡◌, ◌++◌, ℕ, List, map, IfOk, OnOk, if◌then◌else◌};
ghost use Rattle.f77_values.specs.Tables as n;
ghost use Rattle.f77_store.specs.Areas as b;

use f77_names::{Declaration, Shape};
use f77_tree::{List as Items, Name};
use f77_values::{Names, Table};
use std::alloc::{AllocError, Global};

/// A member of a COMMON block, or of the local area, which has no name.
#[derive(Drop)]
pub struct Member {
    pub block: Name,
    pub name: Name,
}

/// Where a member begins in its block, at most 4,294,967,295.
#[derive(Drop)]
pub struct Place {
    pub block: Name,
    pub from: u32,
}

/// The places of members, and the number of storage units of each block.
#[derive(Drop)]
pub struct Areas {
    pub places: Table<Place>,
    pub totals: Table<u32>,
}

fn push_member(alloc: Global, found: &mut Items<Member>, d: &Declaration) -> Result<(), AllocError>
    ensures { OnOk result (found.new ≡ found.old ++ b.member d.now) }
{
    match &d.block {
        Some(block) => found.push(Member {
            block: block.copy(alloc)?,
            name: d.name.copy(alloc)?,
        }),
        None => Ok(()),
    }
}

/// The members of COMMON blocks in the order of the text.
#[tactic(auto, using(crate::proofs::Joined::joined))]
pub fn commons_of(
    alloc: Global,
    declarations: &Items<Declaration>,
) -> Result<Items<Member>, AllocError>
    ensures { IfOk result (λ all. all ≡ b.commons declarations.now) }
{
    let mut found = Items::new(alloc);
    for declaration in declarations.as_slice() {
        push_member(alloc, &mut found, declaration)?;
    }
    Ok(found)
}

/// The number of storage units of a name: 1 for a scalar, and for an array that of its elements, or 0 where its bounds aren't constant.
pub fn size_of(shapes: &Table<Shape>, name: &Name) -> u32
    ensures { result ≡ b.size_of shapes.now name.now }
{
    match shapes.get(name) {
        Some(shape) => match shape.size {
            Some(size) => size,
            None => 0,
        },
        None => 1,
    }
}

/// The number of storage units of a block.
pub fn so_far(totals: &Table<u32>, block: &Name) -> u32
    ensures { result ≡ b.so_far totals.now block.now }
{
    match totals.get(block) {
        Some(total) => *total,
        None => 0,
    }
}

fn put_place(
    alloc: Global,
    places: &mut Table<Place>,
    member: &Member,
    from: u32,
) -> Result<(), AllocError>
    ensures { OnOk result (places.new ≡ n.with_pair places.old (b.place_at member.now from)) }
{
    let block = member.block.copy(alloc)?;
    let name = member.name.copy(alloc)?;
    places.insert(name, Place { block, from })
}

fn put_total(
    alloc: Global,
    totals: &mut Table<u32>,
    block: &Name,
    total: u32,
) -> Result<(), AllocError>
    ensures { OnOk result ((q : List ℕ) → b.so_far totals.new q ≡ (if n.name_eq block.now q then total else b.so_far totals.old q)) }
{
    totals.insert(block.copy(alloc)?, total)
}

/// Puts each member behind those of its block that stand before it.
pub fn lay_out(
    alloc: Global,
    shapes: &Table<Shape>,
    members: &Items<Member>,
) -> Result<Areas, AllocError>
    ensures places { IfOk result (λ a. a.places ≡ b.places (b.size_of shapes.now) members.now) }
    ensures totals { IfOk result (λ a. b.AreTotals (b.size_of shapes.now) members.now a.totals) }
{
    let mut places = Table::new(alloc);
    let mut totals = Table::new(alloc);
    for member in members.as_slice() {
        let from = so_far(&totals, &member.block);
        put_place(alloc, &mut places, member, from)?;
        let total = from.saturating_add(size_of(shapes, &member.name));
        put_total(alloc, &mut totals, &member.block, total)?;
    }
    Ok(Areas { places, totals })
}

fn block_names(alloc: Global, members: &Items<Member>) -> Result<Names, AllocError>
    ensures { IfOk result (λ names. names ≡ n.distinct (map (λ m. m.block) members.now)) }
{
    let mut names = Names::new(alloc);
    for member in members.as_slice() {
        names.insert(member.block.copy(alloc)?)?;
    }
    Ok(names)
}

fn sized(alloc: Global, totals: &Table<u32>, name: &Name) -> Result<(Name, u32), AllocError>
    ensures { IfOk result (λ pair. pair ≡ b.counted totals.now name.now) }
{
    Ok((name.copy(alloc)?, so_far(totals, name)))
}

#[tactic(auto, using(crate::proofs::Joined::joined))]
fn all_sized(
    alloc: Global,
    totals: &Table<u32>,
    names: &Names,
) -> Result<Items<(Name, u32)>, AllocError>
    ensures { IfOk result (λ all. all ≡ map (b.counted totals.now) names.now) }
{
    let mut found = Items::new(alloc);
    for name in names.as_slice() {
        found.push(sized(alloc, totals, name)?)?;
    }
    Ok(found)
}

/// The blocks of members in the order of first appearance, with their sizes, given the totals of the members.
pub fn blocks_of(
    alloc: Global,
    members: &Items<Member>,
    totals: &Table<u32>,
) -> Result<Items<(Name, u32)>, AllocError>
    ensures { (size : List ℕ → ℕ) → b.AreTotals size members.now totals.now → IfOk result (λ all. all ≡ b.blocks size members.now) }
{
    let names = block_names(alloc, members)?;
    all_sized(alloc, totals, &names)
}

//! Where the members of COMMON blocks begin.
ghost use Rattle.std.specs.Prelude.{◌≡◌, ◌<◌, ◌≤◌, ◌+◌, ◌^◌, ℕ, List, IfOk, OnOk, if◌then◌else◌};
ghost use Rattle.f77_values.specs.Tables as n;
ghost use Rattle.f77_store.specs.Areas as b;
ghost use Rattle.check_common.specs.Places as p;

use f77_names::Shape;
use f77_store::{Member, size_of};
use f77_tree::{List as Items, Name};
use f77_values::Table;
use std::alloc::{AllocError, Global};
use std::marker::Model;

/// The place of a storage unit in its block, below 2^96: so many units no list of members reaches.
#[derive(Drop)]
pub struct Units {
    high: u64,
    low: u32,
}

impl Model for Units {
    ghost use Rattle.std.specs.Prelude.{ℕ, ◌+◌, ◌*◌};

    ghost Value = { ℕ };

    ghost view = { λ n. n.high * 4294967296 + n.low };
}

impl Units {
    /// This number.
    pub fn from_value(n: u128) -> Units
        requires { n < 2 ^ 96 }
        ensures { result ≡ n }
    {
        Units {
            high: (n / 4_294_967_296) as u64,
            low: (n % 4_294_967_296) as u32,
        }
    }

    /// The number.
    pub fn value(&self) -> u128
        ensures value { result ≡ self.now }
        ensures small { result < 2 ^ 96 }
    {
        self.high as u128 * 4_294_967_296 + self.low as u128
    }
}

/// Where a member begins in its block.
#[derive(Drop)]
pub struct Start {
    pub block: Name,
    pub from: Units,
}

fn so_far(totals: &Table<u128>, block: &Name) -> u128
    ensures { result ≡ b.so_far totals.now block.now }
{
    match totals.get(block) {
        Some(total) => *total,
        None => 0,
    }
}

fn put_start(
    alloc: Global,
    starts: &mut Table<Start>,
    member: &Member,
    from: u128,
) -> Result<(), AllocError>
    requires { from < 2 ^ 96 }
    ensures { OnOk result (starts.new ≡ n.with_pair starts.old (p.start_at member.now from)) }
{
    let block = member.block.copy(alloc)?;
    let name = member.name.copy(alloc)?;
    let from = Units::from_value(from);
    starts.insert(name, Start { block, from })
}

fn put_total(
    alloc: Global,
    totals: &mut Table<u128>,
    block: &Name,
    total: u128,
) -> Result<(), AllocError>
    ensures { OnOk result ((q : List ℕ) → b.so_far totals.new q ≡ (if n.name_eq block.now q then total else b.so_far totals.old q)) }
{
    totals.insert(block.copy(alloc)?, total)
}

fn behind(from: u128, size: u32) -> u128
    requires { from < 2 ^ 96 }
    ensures sum { result ≡ from + size }
    ensures most { result ≤ from + 4294967295 }
{
    from + size as u128
}

/// Puts each member behind those of its block that stand before it.
#[tactic(auto, using(crate::proofs::Totals::limits))]
pub fn starts_of(
    alloc: Global,
    shapes: &Table<Shape>,
    members: &Items<Member>,
) -> Result<Table<Start>, AllocError>
    ensures { IfOk result (λ starts. starts ≡ p.starts (b.size_of shapes.now) members.now) }
{
    let mut starts = Table::new(alloc);
    let mut totals = Table::new(alloc);
    for member in members.as_slice() {
        let from = so_far(&totals, &member.block);
        put_start(alloc, &mut starts, member, from)?;
        let total = behind(from, size_of(shapes, &member.name));
        put_total(alloc, &mut totals, &member.block, total)?;
    }
    Ok(starts)
}

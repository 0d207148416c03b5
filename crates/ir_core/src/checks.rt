//! What a list of blocks is looked at for before it is a body's.
ghost use Rattle.std.specs.Prelude.{◌≡◌, ℕ, IfOk, OnOk, length, not, ◌&&◌, nat_eq};
ghost use Rattle.std.specs.List.{list_all};
ghost use Rattle.indexmap.specs.IndexSet.{contains};
ghost use Rattle.ir_core.specs.Listings as l;
ghost use Rattle.ir_core.specs.Uses as u;

use super::block::{Block, End};
use super::instruction::{Base, Instr};
use indexmap::IndexSet;
use std::alloc::{AllocError, Global};

fn is_below(limit: u32, temporary: Option<u32>) -> bool
    ensures { result ≡ l.is_below limit temporary }
{
    match temporary {
        Some(temporary) => temporary < limit,
        None => true,
    }
}

fn all_below(limit: usize, numbers: &[u32]) -> bool
    ensures { result ≡ l.all_below limit numbers.now }
{
    numbers.iter().all(|number| (*number as usize) < limit)
}

fn index_within(limit: u32, index: Option<u32>) -> bool
    ensures { result ≡ l.all_below limit (u.index_read index) }
{
    match index {
        Some(index) => index < limit,
        None => true,
    }
}

// The temporaries of an instruction are in range.
fn within(limit: u32, instruction: &Instr) -> bool
    ensures { result ≡ l.within limit instruction.now }
{
    match instruction {
        Instr::Const(to, _) => *to < limit,
        Instr::Copy(to, from) => *from < limit && *to < limit,
        Instr::Load(to, spot) => index_within(limit, spot.index) && *to < limit,
        Instr::Store(spot, _, from) => *from < limit && index_within(limit, spot.index),
        Instr::Calc(to, _, left, right) => *left < limit && *right < limit && *to < limit,
        Instr::Address(to, spot) => index_within(limit, spot.index) && *to < limit,
        Instr::Fresh(to, _, _, from) => *from < limit && *to < limit,
        Instr::Argument(_, from) => *from < limit,
        Instr::Call(_, to) => is_below(limit, *to),
        Instr::PrintInt(from) => *from < limit,
        Instr::PrintTruth(from) => *from < limit,
        Instr::PrintByte(_) => true,
        Instr::EndLine => true,
        Instr::Read(to) => *to < limit,
    }
}

// The temporary of an end is in range.
fn end_within(limit: u32, end: &End) -> bool
    ensures { result ≡ l.all_below limit (u.end_reads end.now) }
{
    match end {
        End::Jump(_) => true,
        End::Branch(from, _, _) => *from < limit,
        End::Switch(from, _, _) => *from < limit,
        End::Return(Some((_, from))) => *from < limit,
        End::Return(None) => true,
        End::Exit(_) => true,
    }
}

// The blocks where an end goes are in range.
fn goes_within(limit: usize, end: &End) -> bool
    ensures { result ≡ l.all_below limit (u.goes_to end.now) }
{
    match end {
        End::Jump(to) => (*to as usize) < limit,
        End::Branch(_, to, other) => (*to as usize) < limit && (*other as usize) < limit,
        End::Switch(_, labels, other) => {
            (*other as usize) < limit && all_below(limit, labels.as_slice())
        }
        End::Return(_) => true,
        End::Exit(_) => true,
    }
}

fn code_within(limit: u32, code: &[Instr]) -> bool
    ensures { result ≡ list_all (l.within limit) code.now }
{
    code.iter().all(|instruction| within(limit, instruction))
}

fn block_within(temps: u32, count: usize, block: &Block) -> bool
    ensures { result ≡ l.block_within temps count block.now }
{
    code_within(temps, block.code.as_slice())
        && end_within(temps, &block.end)
        && goes_within(count, &block.end)
}

/// Whether temporaries and blocks are numbers in range.
pub fn all_within(temps: u32, blocks: &[Block]) -> bool
    ensures { result ≡ list_all (l.block_within temps (length blocks.now)) blocks.now }
{
    blocks
        .iter()
        .all(|block| block_within(temps, blocks.len(), block))
}

fn plain_in(base: &Base, index: Option<u32>) -> Option<u32>
    ensures { result ≡ l.plain_in base.now index }
{
    match (base, index) {
        (Base::Dummy(dummy), None) => Some(*dummy),
        _ => None,
    }
}

fn indexed_in(base: &Base, index: Option<u32>) -> Option<u32>
    ensures { result ≡ l.indexed_in base.now index }
{
    match (base, index) {
        (Base::Dummy(dummy), Some(_)) => Some(*dummy),
        _ => None,
    }
}

// The dummy that an instruction loads or stores without an index.
fn plain(instruction: &Instr) -> Option<u32>
    ensures { result ≡ l.plain instruction.now }
{
    match instruction {
        Instr::Load(_, spot) => plain_in(&spot.base, spot.index),
        Instr::Store(spot, _, _) => plain_in(&spot.base, spot.index),
        _ => None,
    }
}

// The dummy that an instruction loads or stores with an index.
fn indexed(instruction: &Instr) -> Option<u32>
    ensures { result ≡ l.indexed instruction.now }
{
    match instruction {
        Instr::Load(_, spot) => indexed_in(&spot.base, spot.index),
        Instr::Store(spot, _, _) => indexed_in(&spot.base, spot.index),
        _ => None,
    }
}

fn note(found: &mut IndexSet<u32>, instruction: &Instr) -> Result<(), AllocError>
    ensures { OnOk result ((k : ℕ) → not (contains nat_eq found.new k) ≡ (not (contains nat_eq found.old k) && l.is_other (l.plain instruction.now) k)) }
{
    if let Some(dummy) = plain(instruction) {
        found.insert(dummy)?;
    }
    Ok(())
}

fn note_all(found: &mut IndexSet<u32>, code: &[Instr]) -> Result<(), AllocError>
    ensures { OnOk result ((k : ℕ) → not (contains nat_eq found.new k) ≡ (not (contains nat_eq found.old k) && list_all (λ i. l.is_other (l.plain i) k) code.now)) }
{
    for instruction in code {
        note(found, instruction)?;
    }
    Ok(())
}

// The dummies that are loaded or stored without an index.
fn plain_dummies(alloc: Global, blocks: &[Block]) -> Result<IndexSet<u32>, AllocError>
    ensures { IfOk result (λ found. (k : ℕ) → not (contains nat_eq found k) ≡ l.never_plain blocks.now k) }
{
    let mut found = IndexSet::new(alloc);
    for block in blocks {
        note_all(&mut found, block.code.as_slice())?;
    }
    Ok(found)
}

fn is_new(found: &IndexSet<u32>, dummy: Option<u32>) -> bool
    ensures { result ≡ l.if_some (λ k. not (contains nat_eq found.now k)) dummy }
{
    match dummy {
        Some(dummy) => !found.contains(&dummy),
        None => true,
    }
}

fn code_is_new(found: &IndexSet<u32>, code: &[Instr]) -> bool
    ensures { result ≡ list_all (λ i. l.if_some (λ k. not (contains nat_eq found.now k)) (l.indexed i)) code.now }
{
    code.iter()
        .all(|instruction| is_new(found, indexed(instruction)))
}

// None of the dummies is loaded or stored with an index.
fn all_new(found: &IndexSet<u32>, blocks: &[Block]) -> bool
    ensures { result ≡ l.all_indexed (λ k. not (contains nat_eq found.now k)) blocks.now }
{
    blocks
        .iter()
        .all(|block| code_is_new(found, block.code.as_slice()))
}

/// Whether each dummy that has an index somewhere has one everywhere.
pub fn dummies_agree(alloc: Global, blocks: &[Block]) -> Result<bool, AllocError>
    ensures { IfOk result (λ agree. agree ≡ l.dummies_agree blocks.now) }
{
    let plain = plain_dummies(alloc, blocks)?;
    Ok(all_new(&plain, blocks))
}

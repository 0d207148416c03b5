//! What has to be patched in code.
ghost use Rattle.std.specs.Prelude.{ℕ, ◌↔◌, ◌≡◌, ◌+◌, IfOk, IsTrue, List, MatchOption, Some, false, slice_set, true};
ghost use Rattle.std.specs.List.{slice_get};
ghost use Rattle.serde_json.specs.View.{view};
ghost use Rattle.obj_form.specs.Grammar.{IsReloc, IsRelocs, IsTarget, Reads, Writes};
ghost use Rattle.obj_form.specs.Objects.{ArePairs};

use super::leaves::{block_of, is_text, name_of, name_value, word_of, word_value};
use super::object::{Reloc, Target};
use super::part::{Part, array_of, three_of, three_value, two_of, two_value};
use f77_tree::{List, Name};
use serde_json::Value as Json;
use std::alloc::{AllocError, Global};

// The target of three parts that stands there.
fn block_target_of(alloc: Global, value: &Json) -> Result<Option<Target>, AllocError>
    ensures { IfOk result (λ found. MatchOption found ((name : List ℕ) (k : ℕ) → IsTarget (view value.now) (Target.Block name k) → ⊥) (IsTarget (view value.now))) }
{
    let Some((word, block, at)) = three_of(value) else {
        return Ok(None);
    };
    if !is_text(word, "block") {
        return Ok(None);
    }
    let Some(at) = word_of(at) else {
        return Ok(None);
    };
    match block_of(alloc, block)? {
        Some(block) => Ok(Some(Target::Block(block, at))),
        None => Ok(None),
    }
}

fn target_of(alloc: Global, value: &Json) -> Result<Option<Target>, AllocError>
    ensures { IfOk result (Reads IsTarget (view value.now)) }
{
    let Some((word, what)) = two_of(value) else {
        return block_target_of(alloc, value);
    };
    if is_text(word, "call") {
        match name_of(alloc, what)? {
            Some(name) => Ok(Some(Target::Call(name))),
            None => Ok(None),
        }
    } else if is_text(word, "own") {
        match word_of(what) {
            Some(at) => Ok(Some(Target::Own(at))),
            None => Ok(None),
        }
    } else {
        Ok(None)
    }
}

fn call_value(alloc: Global, name: &Name) -> Result<Json, AllocError>
    ensures { IfOk result (λ v. Writes IsTarget (view v) (Target.Call name.now)) }
{
    let word = Json::try_from_str(alloc, "call")?;
    two_value(alloc, word, name_value(alloc, name)?)
}

fn own_value(alloc: Global, at: u32) -> Result<Json, AllocError>
    ensures { IfOk result (λ v. Writes IsTarget (view v) (Target.Own at)) }
{
    let word = Json::try_from_str(alloc, "own")?;
    two_value(alloc, word, word_value(at))
}

fn block_value(alloc: Global, block: &Name, at: u32) -> Result<Json, AllocError>
    ensures { IfOk result (λ v. Writes IsTarget (view v) (Target.Block block.now at)) }
{
    let word = Json::try_from_str(alloc, "block")?;
    three_value(alloc, word, name_value(alloc, block)?, word_value(at))
}

fn target_value(alloc: Global, target: &Target) -> Result<Json, AllocError>
    ensures { IfOk result (λ v. Writes IsTarget (view v) target.now) }
{
    match target {
        Target::Call(name) => call_value(alloc, name),
        Target::Own(at) => own_value(alloc, *at),
        Target::Block(block, at) => block_value(alloc, block, *at),
    }
}

fn reloc_value(alloc: Global, reloc: &Reloc) -> Result<Json, AllocError>
    ensures { IfOk result (λ v. Writes IsReloc (view v) reloc.now) }
{
    let target = target_value(alloc, &reloc.target)?;
    two_value(alloc, word_value(reloc.word), target)
}

fn reloc_of(alloc: Global, value: &Json) -> Result<Option<Reloc>, AllocError>
    ensures { IfOk result (Reads IsReloc (view value.now)) }
{
    let Some((word, target)) = two_of(value) else {
        return Ok(None);
    };
    let Some(word) = word_of(word) else {
        return Ok(None);
    };
    match target_of(alloc, target)? {
        Some(target) => Ok(Some(Reloc { word, target })),
        None => Ok(None),
    }
}

impl Part for Reloc {
    ghost form = { IsReloc };

    fn part_value(&self, alloc: Global) -> Result<Json, AllocError> {
        reloc_value(alloc, self)
    }

    fn part_of(alloc: Global, value: &Json) -> Result<Option<Reloc>, AllocError> {
        reloc_of(alloc, value)
    }
}

// Takes the two words from this one on, if both are there and free.
fn take_pair(taken: &mut [bool], word: usize) -> bool
    ensures free { IsTrue result ↔ ((slice_get taken.old word ≡ Some false) × (slice_get taken.old (word + 1) ≡ Some false)) }
    ensures marks { IsTrue result → taken.new ≡ slice_set (slice_set taken.old word true) (word + 1) true }
{
    if word >= taken.len() || word + 1 >= taken.len() || taken[word] || taken[word + 1] {
        return false;
    }
    taken[word] = true;
    taken[word + 1] = true;
    true
}

/// Whether the pairs of words lie in a code of so many words, and no two have a word in common.
pub fn are_pairs(alloc: Global, words: usize, relocs: &[Reloc]) -> Result<bool, AllocError>
    ensures { IfOk result (λ all. IsTrue all ↔ ArePairs words relocs.now) }
{
    let mut taken = vec![in alloc; false; words]?;
    'reloc: for reloc in relocs {
        if !take_pair(taken.as_mut_slice(), reloc.word as usize) {
            return Ok(false);
        }
    }
    Ok(true)
}

/// The relocations of a code of so many words that stand there.
pub fn relocs_of(
    alloc: Global,
    words: usize,
    value: &Json,
) -> Result<Option<List<Reloc>>, AllocError>
    ensures { IfOk result (Reads (IsRelocs words) (view value.now)) }
{
    let Some(relocs) = array_of::<Reloc>(alloc, value)? else {
        return Ok(None);
    };
    if are_pairs(alloc, words, relocs.as_slice())? {
        Ok(Some(relocs))
    } else {
        drop(relocs);
        Ok(None)
    }
}

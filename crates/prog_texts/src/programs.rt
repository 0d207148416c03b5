//! The units of a program: what each is to its callers, and what each text says.
ghost use Rattle.std.specs.Prelude.{◌≡◌, ◌++◌, ◌∷◌, [], map, IfOk, OnOk};
ghost use Rattle.f77_names.specs.Declarations as d;
ghost use Rattle.f77_values.specs.Tables as n;
ghost use Rattle.f77_names.specs.Occurrences as o;
ghost use Rattle.f77_names.specs.Roles as r;
ghost use Rattle.prog_texts.specs.Mentions as m;
ghost use Rattle.prog_texts.specs.Signatures as s;

use super::mentions::Mention;
use super::signatures::{Signature, signature_of};
use super::texts::mentions_with;
use f77_names::{Facts, declarations_of, facts_of, occurrences_of};
use f77_tree::{List, Unit};
use f77_values::Table;
use std::alloc::{AllocError, Global};

/// The units by their names, and what the text of each says.
#[derive(Drop)]
pub struct Program {
    pub signatures: Table<Signature>,
    pub texts: List<List<Mention>>,
}

fn unit_facts(alloc: Global, unit: &Unit) -> Result<Facts, AllocError>
    ensures { IfOk result (λ f. f ≡ r.facts unit.now) }
{
    let all = occurrences_of(alloc, unit)?;
    let declarations = declarations_of(alloc, &unit.statements)?;
    let facts = facts_of(alloc, unit, &all, &declarations)?;
    Ok(facts)
}

fn put_signature(
    alloc: Global,
    signatures: &mut Table<Signature>,
    facts: &Facts,
    unit: &Unit,
    place: usize,
) -> Result<(), AllocError>
    ensures { OnOk result (signatures.new ≡ n.with_told signatures.old unit.now.name (s.signature_with facts.now unit.now place)) }
{
    let name = unit.name.copy(alloc)?;
    let signature = signature_of(alloc, facts, unit, place)?;
    signatures.insert(name, signature)
}

fn push_text(
    alloc: Global,
    texts: &mut List<List<Mention>>,
    facts: &Facts,
    unit: &Unit,
) -> Result<(), AllocError>
    ensures { OnOk result (texts.new ≡ texts.old ++ m.mentions_with facts.now unit.now ∷ []) }
{
    let text = mentions_with(alloc, facts, unit)?;
    texts.push(text)
}

fn add_unit(
    alloc: Global,
    signatures: &mut Table<Signature>,
    texts: &mut List<List<Mention>>,
    unit: &Unit,
    place: usize,
) -> Result<(), AllocError>
    ensures signatures { OnOk result (signatures.new ≡ n.with_told signatures.old unit.now.name (s.signature unit.now place)) }
    ensures texts { OnOk result (texts.new ≡ texts.old ++ m.mentions unit.now ∷ []) }
{
    let facts = unit_facts(alloc, unit)?;
    put_signature(alloc, signatures, &facts, unit, place)?;
    push_text(alloc, texts, &facts, unit)
}

/// What the units of a program are to each other.
pub fn program_of(alloc: Global, units: &[Unit]) -> Result<Program, AllocError>
    ensures signatures { IfOk result (λ p. p.signatures ≡ s.signatures units.now) }
    ensures texts { IfOk result (λ p. p.texts ≡ map m.mentions units.now) }
{
    let mut signatures = Table::new(alloc);
    let mut texts = List::new(alloc);
    for (place, unit) in units.iter().enumerate() {
        add_unit(alloc, &mut signatures, &mut texts, unit, place)?;
    }
    Ok(Program { signatures, texts })
}

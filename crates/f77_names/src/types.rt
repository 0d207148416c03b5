//! The types of names: those that statements tell, and those of letters.
ghost use Rattle.std.specs.Prelude.{◌≡◌, ◌++◌, map, flat_map, slice_index, IfOk, OnOk};
ghost use Rattle.std.specs.List.{range_with_len};
ghost use Rattle.f77_names.specs.Types as t;

use f77_tree::{Form, List, Name, Stmt, Ty, TypeWord};
use f77_values::Table;
use std::alloc::{AllocError, Global};

/// Letters of IMPLICIT, from the first to the last, with their type.
#[derive(Clone, Copy, Drop)]
pub struct LetterRule {
    pub word: TypeWord,
    pub first: u8,
    pub last: u8,
}

fn range_rule(word: TypeWord, range: &(u8, u8)) -> LetterRule
    ensures { result ≡ t.range_rule word range.now }
{
    LetterRule {
        word,
        first: range.0,
        last: range.1,
    }
}

#[tactic(auto, using(crate::proofs::Joined::joined))]
fn push_group(
    found: &mut List<LetterRule>,
    group: &(TypeWord, List<(u8, u8)>),
) -> Result<(), AllocError>
    ensures { OnOk result (found.new ≡ found.old ++ t.group_rules group.now) }
{
    for range in group.1.as_slice() {
        found.push(range_rule(group.0, range))?;
    }
    Ok(())
}

#[tactic(auto, using(crate::proofs::Joined::joined))]
fn push_groups(
    found: &mut List<LetterRule>,
    groups: &List<(TypeWord, List<(u8, u8)>)>,
) -> Result<(), AllocError>
    ensures { OnOk result (found.new ≡ found.old ++ flat_map t.group_rules groups.now) }
{
    for group in groups.as_slice() {
        push_group(found, group)?;
    }
    Ok(())
}

fn push_statement(found: &mut List<LetterRule>, statement: &Stmt) -> Result<(), AllocError>
    ensures { OnOk result (found.new ≡ found.old ++ t.statement_rules statement.now) }
{
    match &statement.form {
        Form::Implicit(groups) => push_groups(found, groups),
        _ => Ok(()),
    }
}

#[tactic(auto, using(crate::proofs::Joined::joined))]
fn rules_of(alloc: Global, statements: &List<Stmt>) -> Result<List<LetterRule>, AllocError>
    ensures { IfOk result (λ rules. rules ≡ t.rules statements.now) }
{
    let mut found = List::new(alloc);
    for statement in statements.as_slice() {
        push_statement(&mut found, statement)?;
    }
    Ok(found)
}

fn is_none(statement: &Stmt) -> bool
    ensures { result ≡ t.is_implicit_none statement.now }
{
    match &statement.form {
        Form::ImplicitNone => true,
        _ => false,
    }
}

fn has_none(statements: &List<Stmt>) -> bool
    ensures { result ≡ t.has_none statements.now }
{
    statements.as_slice().iter().any(|s| is_none(s))
}

fn holds(rule: &LetterRule, letter: usize) -> bool
    ensures { result ≡ t.holds rule.now letter }
{
    rule.first as usize <= letter && letter <= rule.last as usize
}

fn default_word(none: bool, letter: usize) -> TypeWord
    ensures { result ≡ t.default_word none letter }
{
    if none {
        return TypeWord::Real;
    }
    if letter >= 73 && letter <= 78 {
        TypeWord::Integer
    } else {
        TypeWord::Real
    }
}

fn ruled(letter: usize, word: TypeWord, rule: &LetterRule) -> TypeWord
    ensures { result ≡ t.ruled letter word rule.now }
{
    if holds(rule, letter) { rule.word } else { word }
}

fn letter_word(rules: &List<LetterRule>, none: bool, letter: usize) -> TypeWord
    ensures { result ≡ t.letter_word rules.now none letter }
{
    let mut word = default_word(none, letter);
    for rule in rules.as_slice() {
        word = ruled(letter, word, rule);
    }
    word
}

fn words(alloc: Global, rules: &List<LetterRule>, none: bool) -> Result<Vec<TypeWord>, AllocError>
    ensures { IfOk result (λ words. words.items ≡ map (t.letter_word rules.now none) (range_with_len 0 256)) }
{
    (0..256usize)
        .map(|letter| letter_word(rules, none, letter))
        .collect(alloc)
}

/// The type of each letter, by its code, where no statement tells a name's type.
pub fn letter_words(alloc: Global, statements: &List<Stmt>) -> Result<List<TypeWord>, AllocError>
    ensures { IfOk result (λ words. words ≡ t.letter_words statements.now) }
{
    let rules = rules_of(alloc, statements)?;
    let words = words(alloc, &rules, has_none(statements))?;
    Ok(List::from_vec(words))
}

fn initial(name: &Name) -> usize
    ensures { result ≡ slice_index name.now 0 }
{
    match name.as_bytes().first() {
        Some(letter) => *letter as usize,
        None => 0,
    }
}

/// The type of a name by its first letter, under the types of letters, by their codes.
pub fn initial_word(letters: &List<TypeWord>, name: &Name) -> TypeWord
    ensures { result ≡ t.initial_word letters.now name.now }
{
    match letters.as_slice().get(initial(name)) {
        Some(word) => *word,
        None => TypeWord::Real,
    }
}

/// The type of a name, given those that statements tell and those of the letters.
pub fn name_word(words: &Table<TypeWord>, letters: &List<TypeWord>, name: &Name) -> TypeWord
    ensures { result ≡ t.name_word words.now letters.now name.now }
{
    match words.get(name) {
        Some(word) => *word,
        None => initial_word(letters, name),
    }
}

/// The type that programs compute with, if this is one.
pub fn storage_type(word: TypeWord) -> Option<Ty>
    ensures { result ≡ t.storage_type word }
{
    match word {
        TypeWord::Integer => Some(Ty::Integer),
        TypeWord::Logical => Some(Ty::Logical),
        _ => None,
    }
}

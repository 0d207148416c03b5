//! Names of units, variables and COMMON blocks.
ghost use Rattle.std.specs.Prelude.{◌≡◌, [], map, IfOk, nat_eq};
ghost use Rattle.std.specs.List.{list_all};
ghost use Rattle.std.specs.Cmp.Lexicographic.{pointwise};
ghost use Rattle.std.specs.Cmp.Rules.{comparing, hashing};
ghost use Rattle.std.specs.Hash as fed;
ghost use Rattle.std.proofs.Common.{rules};
ghost use Rattle.f77_tree.specs.Names as n;

use sqlite_items::Items as List;
use std::alloc::{AllocError, Global};
use std::hash::{Hash, Hasher};
use std::marker::Model;

/// A name, which contracts see as its bytes.
#[derive(Debug)]
pub struct Name {
    bytes: List<u8>,
}

impl Drop for Name {
    fn drop(self) {
        let Name { bytes } = self;
        drop(bytes)
    }
}

impl Model for Name {
    ghost use Rattle.std.specs.Prelude.{ℕ, List};

    ghost Value = { List ℕ };

    ghost view = { λ n. n.bytes };
}

impl Name {
    /// The name of these bytes.
    pub fn from_list(bytes: List<u8>) -> Name
        ensures { result ≡ bytes }
    {
        Name { bytes }
    }

    /// The bytes of the name.
    pub fn as_bytes(&self) -> &[u8]
        ensures { result.now ≡ self.now }
    {
        self.bytes.as_slice()
    }

    /// The same name again.
    pub fn copy(&self, alloc: Global) -> Result<Name, AllocError>
        ensures { IfOk result (λ name. name ≡ self.now) }
    {
        Ok(Name {
            bytes: List::from_slice(alloc, self.bytes.as_slice())?,
        })
    }
}

impl PartialEq for Name {
    ghost eq = { pointwise nat_eq };

    ghost laws = { Prim.search (comparing, rules) };

    fn eq(&self, other: &Name) -> bool {
        self.as_bytes() == other.as_bytes()
    }
}

impl Eq for Name {
    ghost laws = { Prim.search (comparing, rules) };
}

impl Hash for Name {
    ghost hash_input = { λ name. fed.slice fed.u8 name };

    ghost respects_eq = { Prim.search (hashing, rules) };

    fn hash<H: Hasher>(&self, state: &mut H) {
        self.as_bytes().hash(state);
    }
}

fn capital(b: u8) -> u8
    ensures { result ≡ n.capital b }
{
    if b >= b'a' && b <= b'z' { b - 32 } else { b }
}

fn is_letter(b: u8) -> bool
    ensures { result ≡ n.is_letter b }
{
    b >= b'A' && b <= b'Z'
}

fn is_word(b: u8) -> bool
    ensures { result ≡ n.is_word b }
{
    is_letter(b) || (b >= b'0' && b <= b'9') || b == b'_'
}

fn all_word(part: &[u8]) -> bool
    ensures { result ≡ list_all n.is_word part.now }
{
    part.iter().all(|b| is_word(*b))
}

/// Whether bytes are a letter and at most 30 letters, digits or `_` behind it, all in capitals.
pub fn is_name(word: &[u8]) -> bool
    ensures { result ≡ n.is_name word.now }
{
    let Some((first, others)) = word.split_first() else {
        return false;
    };
    is_letter(*first) && word.len() <= 31 && all_word(others)
}

fn in_capitals(alloc: Global, word: &[u8]) -> Result<Vec<u8>, AllocError>
    ensures { IfOk result (λ all. all.items ≡ map n.capital word.now) }
{
    word.iter().map(|b| capital(*b)).collect(alloc)
}

/// The name that a word is in capitals, if it is one.
pub fn name_of(alloc: Global, word: &[u8]) -> Result<Option<Name>, AllocError>
    ensures { IfOk result (λ found. found ≡ n.name_of word.now) }
{
    let capitals = in_capitals(alloc, word)?;
    if is_name(capitals.as_slice()) {
        Ok(Some(Name::from_list(List::from_vec(capitals))))
    } else {
        Ok(None)
    }
}

/// The empty name, which blank COMMON has. It takes no memory.
pub fn blank_name(alloc: Global) -> Name
    ensures { result ≡ [] }
{
    Name::from_list(List::new(alloc))
}

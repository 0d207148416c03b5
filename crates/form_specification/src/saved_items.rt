//! SAVE statements behind their word.
ghost use Rattle.std.specs.Prelude.{◌≡◌, ◌≤◌, true, List, ◌++◌, flat_map, IfOk, MatchOption};
ghost use Rattle.f77_expr.specs.Depth as d;
ghost use Rattle.form_parts.specs.Only as o;
ghost use Rattle.form_specification.specs.Specifications as q;

use super::common_blocks::named_block;
use super::saved::Saved;
use f77_expr::Token;
use f77_tree::{List, Name};
use form_parts::{Part, name, whole};
use std::alloc::{AllocError, Global};

/// What a SAVE statement names.
pub struct SavedPart;

impl Part for SavedPart {
    type Out = Saved;

    ghost reads = { q.IsSaved };

    ghost slash = { true };

    fn read(alloc: Global, tokens: &[Token]) -> Result<Option<(Saved, &[Token])>, AllocError> {
        if let Some((name, rest)) = name(alloc, tokens)? {
            return Ok(Some((Saved::Name(name), rest)));
        }
        let Some((block, rest)) = named_block(alloc, tokens)? else {
            return Ok(None);
        };
        Ok(Some((Saved::Block(block), rest)))
    }
}

/// The names and the blocks among what SAVE names, each in their order.
fn told_apart(alloc: Global, all: &List<Saved>) -> Result<(List<Name>, List<Name>), AllocError>
    ensures { IfOk result (λ x. x ≡ (flat_map q.name_in all.now, flat_map q.block_in all.now)) }
{
    let mut names = List::new(alloc);
    let mut blocks = List::new(alloc);
    for saved in all.as_slice() {
        match saved {
            Saved::Name(name) => names.push(name.copy(alloc)?)?,
            Saved::Block(name) => blocks.push(name.copy(alloc)?)?,
        }
    }
    Ok((names, blocks))
}

/// The names and the blocks of SAVE behind the word.
pub fn save(alloc: Global, tokens: &[Token]) -> Result<Option<(List<Name>, List<Name>)>, AllocError>
    requires { d.deepest tokens.now ≤ 100 }
    ensures { IfOk result (λ found. MatchOption found (o.Never q.IsSave tokens.now) (λ x. o.Sole q.IsSave tokens.now x)) }
{
    if tokens.is_empty() {
        return Ok(Some((List::new(alloc), List::new(alloc))));
    }
    let Some(all) = whole::<SavedPart>(alloc, tokens)? else {
        return Ok(None);
    };
    Ok(Some(told_apart(alloc, &all)?))
}

//! COMMON statements behind their word.
ghost use Rattle.std.specs.Prelude.{◌≤◌, IfOk, MatchOption};
ghost use Rattle.f77_expr.specs.Depth as d;
ghost use Rattle.form_parts.specs.Only as o;
ghost use Rattle.form_specification.specs.Specifications as q;

use super::dimensions::DeclaratorPart;
use f77_expr::{Kind, Token};
use f77_tree::{Declarator, List, Name, blank_name};
use form_parts::{Entry, chained, eat, listed, name};
use std::alloc::{AllocError, Global};

/// A block with its list.
pub struct BlockEntry;

/// The name between slashes at the front of the tokens, and the tokens behind it.
pub fn named_block(alloc: Global, tokens: &[Token]) -> Result<Option<(Name, &[Token])>, AllocError>
    requires { d.deepest tokens.now ≤ 100 }
    ensures shallow { IfOk result (λ found. MatchOption found (Unit {0}) (λ x. d.deepest x.1.now ≤ 100)) }
    ensures block { IfOk result (λ found. MatchOption found (o.NoFront q.IsNamedBlock tokens.now) (λ x. o.OnlyFront q.IsNamedBlock tokens.now x.0 x.1.now)) }
{
    let Some(inside) = eat(Kind::Slash, tokens) else {
        return Ok(None);
    };
    let Some((name, behind)) = name(alloc, inside)? else {
        return Ok(None);
    };
    let Some(rest) = eat(Kind::Slash, behind) else {
        return Ok(None);
    };
    Ok(Some((name, rest)))
}

/// The tokens behind two slashes, if they come next.
fn two_slashes(tokens: &[Token]) -> Option<&[Token]>
    requires { d.deepest tokens.now ≤ 100 }
    ensures shallow { MatchOption result (Unit {0}) (λ rest. d.deepest rest.now ≤ 100) }
    ensures slashes { MatchOption result (q.NoSlashes tokens.now) (λ rest. q.AreSlashes tokens.now rest.now) }
{
    let inside = eat(Kind::Slash, tokens)?;
    let rest = eat(Kind::Slash, inside)?;
    Some(rest)
}

/// The block at the front of the tokens, and the tokens behind it. Blank COMMON has the empty name.
fn block(alloc: Global, tokens: &[Token]) -> Result<Option<(Name, &[Token])>, AllocError>
    requires { d.deepest tokens.now ≤ 100 }
    ensures shallow { IfOk result (λ found. MatchOption found (Unit {0}) (λ x. d.deepest x.1.now ≤ 100)) }
    ensures block { IfOk result (λ found. MatchOption found (o.NoFront q.IsBlock tokens.now) (λ x. o.OnlyFront q.IsBlock tokens.now x.0 x.1.now)) }
{
    if let Some(rest) = two_slashes(tokens) {
        return Ok(Some((blank_name(alloc), rest)));
    }
    let Some((name, rest)) = named_block(alloc, tokens)? else {
        return Ok(None);
    };
    Ok(Some((name, rest)))
}

impl Entry for BlockEntry {
    type Out = (Name, List<Declarator>);

    ghost reads = { q.IsEntry };

    fn read(
        alloc: Global,
        tokens: &[Token],
    ) -> Result<Option<((Name, List<Declarator>), &[Token])>, AllocError> {
        let Some((name, behind)) = block(alloc, tokens)? else {
            return Ok(None);
        };
        let Some((all, rest)) = listed::<DeclaratorPart>(alloc, behind)? else {
            return Ok(None);
        };
        Ok(Some(((name, all), rest)))
    }
}

/// The first block with its list. Without slashes it is blank COMMON.
fn first_block(
    alloc: Global,
    tokens: &[Token],
) -> Result<Option<((Name, List<Declarator>), &[Token])>, AllocError>
    requires { d.deepest tokens.now ≤ 100 }
    ensures shallow { IfOk result (λ found. MatchOption found (Unit {0}) (λ x. d.deepest x.1.now ≤ 100)) }
    ensures entry { IfOk result (λ found. MatchOption found (o.NoEntry q.IsFirstEntry q.IsEntry tokens.now) (λ x. o.OnlyEntry q.IsFirstEntry q.IsEntry tokens.now x.0 x.1.now)) }
{
    if let Some((all, rest)) = listed::<DeclaratorPart>(alloc, tokens)? {
        return Ok(Some(((blank_name(alloc), all), rest)));
    }
    let Some((first, rest)) = BlockEntry::read(alloc, tokens)? else {
        return Ok(None);
    };
    Ok(Some((first, rest)))
}

/// The blocks of COMMON behind the word, one for each list as written.
pub fn common(
    alloc: Global,
    tokens: &[Token],
) -> Result<Option<List<(Name, List<Declarator>)>>, AllocError>
    requires { d.deepest tokens.now ≤ 100 }
    ensures { IfOk result (λ found. MatchOption found (o.Never q.IsCommon tokens.now) (λ all. o.Sole q.IsCommon tokens.now all)) }
{
    let Some((first, rest)) = first_block(alloc, tokens)? else {
        return Ok(None);
    };
    let Some(all) = chained::<BlockEntry>(alloc, first, rest)? else {
        return Ok(None);
    };
    Ok(Some(all))
}

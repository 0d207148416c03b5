//! Parts of a statement with commas between them.
ghost use Rattle.std.specs.Prelude.{◌≤◌, Bool, IfOk, MatchOption};
ghost use Rattle.f77_expr.specs.Depth as d;
ghost use Rattle.f77_expr.specs.Kinds.{Tokens};
ghost use Rattle.form_parts.specs.Listed as g;
ghost use Rattle.form_parts.specs.Only as o;

use super::reading::{behind_comma, eat};
use f77_expr::{Kind, Token};
use f77_tree::List;
use std::alloc::{AllocError, Global};

/// What stands between the commas of a list, as a symbol of the grammar.
pub trait Part {
    /// What it is read as.
    type Out: Drop;

    ghost reads: { Tokens → Self.Out → Tokens → Type 0 };

    ghost slash: { Bool };

    /// The part at the front of the tokens, and the tokens behind it.
    fn read(alloc: Global, tokens: &[Token]) -> Result<Option<(Self::Out, &[Token])>, AllocError>
        requires { d.deepest tokens.now ≤ 100 }
        ensures shallow { IfOk result (λ found. MatchOption found (Unit {0}) (λ x. d.deepest x.1.now ≤ 100)) }
        ensures part { IfOk result (λ found. MatchOption found (o.NoPart reads slash tokens.now) (λ x. o.OnlyPart reads slash tokens.now x.0 x.1.now)) };
}

/// What stands one after another up to the end, as a symbol of the grammar.
pub trait Entry {
    /// What it is read as.
    type Out: Drop;

    ghost reads: { Tokens → Self.Out → Tokens → Type 0 };

    /// The entry at the front of the tokens, and the tokens behind it.
    fn read(alloc: Global, tokens: &[Token]) -> Result<Option<(Self::Out, &[Token])>, AllocError>
        requires { d.deepest tokens.now ≤ 100 }
        ensures shallow { IfOk result (λ found. MatchOption found (Unit {0}) (λ x. d.deepest x.1.now ≤ 100)) }
        ensures entry { IfOk result (λ found. MatchOption found (o.NoEntry reads reads tokens.now) (λ x. o.OnlyEntry reads reads tokens.now x.0 x.1.now)) };
}

/// The longest list at the front of the tokens, and the tokens behind it.
pub fn listed<T: Part>(
    alloc: Global,
    tokens: &[Token],
) -> Result<Option<(List<T::Out>, &[Token])>, AllocError>
    requires { d.deepest tokens.now ≤ 100 }
    ensures shallow { IfOk result (λ found. MatchOption found (Unit {0}) (λ x. d.deepest x.1.now ≤ 100)) }
    ensures list { IfOk result (λ found. MatchOption found (o.NoList T.reads T.slash tokens.now) (λ x. o.OnlyListed T.reads T.slash tokens.now x.0 x.1.now)) }
{
    let Some((first, behind)) = T::read(alloc, tokens)? else {
        return Ok(None);
    };
    let mut all = List::new(alloc);
    all.push(first)?;
    let mut rest = behind;
    'part: while let Some(after) = eat(Kind::Comma, rest) {
        let Some((next, behind)) = T::read(alloc, after)? else {
            break 'part;
        };
        all.push(next)?;
        rest = behind;
    }
    Ok(Some((all, rest)))
}

/// The list between parentheses at the front of the tokens, and the tokens behind it.
pub fn parenthesized<T: Part>(
    alloc: Global,
    tokens: &[Token],
) -> Result<Option<(List<T::Out>, &[Token])>, AllocError>
    requires { d.deepest tokens.now ≤ 100 }
    ensures shallow { IfOk result (λ found. MatchOption found (Unit {0}) (λ x. d.deepest x.1.now ≤ 100)) }
    ensures list { IfOk result (λ found. MatchOption found (o.NoFront (g.Parenthesized T.reads) tokens.now) (λ x. o.OnlyFront (g.Parenthesized T.reads) tokens.now x.0 x.1.now)) }
{
    let Some(inside) = eat(Kind::Open, tokens) else {
        return Ok(None);
    };
    let Some((all, behind)) = listed::<T>(alloc, inside)? else {
        return Ok(None);
    };
    let Some(rest) = eat(Kind::Close, behind) else {
        return Ok(None);
    };
    Ok(Some((all, rest)))
}

/// The list that the tokens are, if they are one and nothing else.
pub fn whole<T: Part>(alloc: Global, tokens: &[Token]) -> Result<Option<List<T::Out>>, AllocError>
    requires { d.deepest tokens.now ≤ 100 }
    ensures { IfOk result (λ found. MatchOption found (o.Never (g.Whole T.reads) tokens.now) (λ all. o.Sole (g.Whole T.reads) tokens.now all)) }
{
    let Some((all, rest)) = listed::<T>(alloc, tokens)? else {
        return Ok(None);
    };
    if rest.is_empty() {
        Ok(Some(all))
    } else {
        Ok(None)
    }
}

/// A first entry and those that the tokens are, if they are entries and nothing else.
pub fn chained<T: Entry>(
    alloc: Global,
    first: T::Out,
    tokens: &[Token],
) -> Result<Option<List<T::Out>>, AllocError>
    requires { d.deepest tokens.now ≤ 100 }
    ensures { IfOk result (λ found. MatchOption found (o.Never (g.Chained T.reads) tokens.now) (λ all. o.OnlyChained T.reads first tokens.now all)) }
{
    let mut all = List::new(alloc);
    all.push(first)?;
    let mut rest = tokens;
    'entry: while !rest.is_empty() {
        let Some((next, behind)) = T::read(alloc, behind_comma(rest))? else {
            return Ok(None);
        };
        all.push(next)?;
        rest = behind;
    }
    Ok(Some(all))
}

//! DATA statements behind their word.
ghost use Rattle.std.specs.Prelude.{◌≡◌, ℤ, pos, neg_ℤ, ◌≤ℤ◌, ◌<ℤ◌, ◌≤◌, true, IfOk, MatchOption};
ghost use Rattle.f77_expr.specs.Depth as d;
ghost use Rattle.form_specification.specs.DataForms as a;
ghost use Rattle.form_parts.specs.Only as o;

use f77_expr::{Kind, Token};
use f77_tree::{DataConst, Expr, List};
use form_parts::{Entry, Part, VariablePart, chained, eat, listed, name};
use std::alloc::{AllocError, Global};

/// A constant with its repeat.
pub struct ConstPart;

/// Items with their constants.
pub struct GroupEntry;

/// The integer without a sign at the front of the tokens, and the tokens behind it.
fn integer(tokens: &[Token]) -> Option<(i64, &[Token])>
    requires { d.deepest tokens.now ≤ 100 }
    ensures shallow { MatchOption result (Unit {0}) (λ x. d.deepest x.1.now ≤ 100) }
    ensures integer { MatchOption result (o.NoFront a.IsInteger tokens.now) (λ x. o.OnlyFront a.IsInteger tokens.now x.0 x.1.now) }
{
    match tokens.split_first() {
        Some((Token::Int(n, _), rest)) if *n >= 0 => Some((*n, rest)),
        _ => None,
    }
}

fn negated(n: i64) -> i64
    requires { pos 0 ≤ℤ n }
    ensures { result ≡ neg_ℤ n }
{
    -n
}

/// The integer with its sign at the front of the tokens, and the tokens behind it.
fn signed(tokens: &[Token]) -> Option<(i64, &[Token])>
    requires { d.deepest tokens.now ≤ 100 }
    ensures shallow { MatchOption result (Unit {0}) (λ x. d.deepest x.1.now ≤ 100) }
    ensures signed { MatchOption result (o.NoFront a.IsSigned tokens.now) (λ x. o.OnlyFront a.IsSigned tokens.now x.0 x.1.now) }
{
    if let Some(rest) = eat(Kind::Minus, tokens) {
        let (n, rest) = integer(rest)?;
        return Some((negated(n), rest));
    }
    if let Some(rest) = eat(Kind::Plus, tokens) {
        let (n, rest) = integer(rest)?;
        return Some((n, rest));
    }
    let (n, rest) = integer(tokens)?;
    Some((n, rest))
}

/// The constant at the front of the tokens, and the tokens behind it.
fn value(alloc: Global, tokens: &[Token]) -> Result<Option<(Expr, &[Token])>, AllocError>
    requires { d.deepest tokens.now ≤ 100 }
    ensures shallow { IfOk result (λ found. MatchOption found (Unit {0}) (λ x. d.deepest x.1.now ≤ 100)) }
    ensures value { IfOk result (λ found. MatchOption found (o.NoFront a.IsValue tokens.now) (λ x. o.OnlyFront a.IsValue tokens.now x.0 x.1.now)) }
{
    if let Some((n, rest)) = signed(tokens) {
        return Ok(Some((Expr::Int(n), rest)));
    }
    if let Some(rest) = eat(Kind::True, tokens) {
        return Ok(Some((Expr::Truth(true), rest)));
    }
    if let Some(rest) = eat(Kind::False, tokens) {
        return Ok(Some((Expr::Truth(false), rest)));
    }
    let Some((name, rest)) = name(alloc, tokens)? else {
        return Ok(None);
    };
    Ok(Some((Expr::Scalar(name), rest)))
}

/// The repeat at the front of the tokens with its `*`, and the tokens behind it.
fn repeat(alloc: Global, tokens: &[Token]) -> Result<Option<(Expr, &[Token])>, AllocError>
    requires { d.deepest tokens.now ≤ 100 }
    ensures shallow { IfOk result (λ found. MatchOption found (Unit {0}) (λ x. d.deepest x.1.now ≤ 100)) }
    ensures repeat { IfOk result (λ found. MatchOption found (o.NoFront a.IsRepeat tokens.now) (λ x. o.OnlyFront a.IsRepeat tokens.now x.0 x.1.now)) }
{
    let Some((times, behind)) = times(alloc, tokens)? else {
        return Ok(None);
    };
    let Some(rest) = eat(Kind::Star, behind) else {
        return Ok(None);
    };
    Ok(Some((times, rest)))
}

/// A positive integer or a name at the front of the tokens, and the tokens behind it.
fn times(alloc: Global, tokens: &[Token]) -> Result<Option<(Expr, &[Token])>, AllocError>
    requires { d.deepest tokens.now ≤ 100 }
    ensures shallow { IfOk result (λ found. MatchOption found (Unit {0}) (λ x. d.deepest x.1.now ≤ 100)) }
    ensures times { IfOk result (λ found. MatchOption found (o.NoFront a.IsTimes tokens.now) (λ x. o.OnlyFront a.IsTimes tokens.now x.0 x.1.now)) }
{
    if let Some((n, rest)) = integer(tokens) {
        return if n > 0 {
            Ok(Some((Expr::Int(n), rest)))
        } else {
            Ok(None)
        };
    }
    let Some((name, rest)) = name(alloc, tokens)? else {
        return Ok(None);
    };
    Ok(Some((Expr::Scalar(name), rest)))
}

impl Part for ConstPart {
    type Out = DataConst;

    ghost reads = { a.IsConst };

    ghost slash = { true };

    fn read(alloc: Global, tokens: &[Token]) -> Result<Option<(DataConst, &[Token])>, AllocError> {
        if let Some((r, after)) = repeat(alloc, tokens)? {
            let Some((value, rest)) = value(alloc, after)? else {
                return Ok(None);
            };
            return Ok(Some((
                DataConst {
                    repeat: Some(r),
                    value,
                },
                rest,
            )));
        }
        let Some((value, rest)) = value(alloc, tokens)? else {
            return Ok(None);
        };
        Ok(Some((
            DataConst {
                repeat: None,
                value,
            },
            rest,
        )))
    }
}

/// The constants between slashes at the front of the tokens, and the tokens behind them.
fn consts(
    alloc: Global,
    tokens: &[Token],
) -> Result<Option<(List<DataConst>, &[Token])>, AllocError>
    requires { d.deepest tokens.now ≤ 100 }
    ensures shallow { IfOk result (λ found. MatchOption found (Unit {0}) (λ x. d.deepest x.1.now ≤ 100)) }
    ensures consts { IfOk result (λ found. MatchOption found (o.NoFront a.AreConsts tokens.now) (λ x. o.OnlyFront a.AreConsts tokens.now x.0 x.1.now)) }
{
    let Some(inside) = eat(Kind::Slash, tokens) else {
        return Ok(None);
    };
    let Some((all, behind)) = listed::<ConstPart>(alloc, inside)? else {
        return Ok(None);
    };
    let Some(rest) = eat(Kind::Slash, behind) else {
        return Ok(None);
    };
    Ok(Some((all, rest)))
}

impl Entry for GroupEntry {
    type Out = (List<Expr>, List<DataConst>);

    ghost reads = { a.IsGroup };

    fn read(
        alloc: Global,
        tokens: &[Token],
    ) -> Result<Option<((List<Expr>, List<DataConst>), &[Token])>, AllocError> {
        let Some((items, behind)) = listed::<VariablePart>(alloc, tokens)? else {
            return Ok(None);
        };
        let Some((consts, rest)) = consts(alloc, behind)? else {
            return Ok(None);
        };
        Ok(Some(((items, consts), rest)))
    }
}

/// The items and constants of DATA behind the word.
pub fn data(
    alloc: Global,
    tokens: &[Token],
) -> Result<Option<List<(List<Expr>, List<DataConst>)>>, AllocError>
    requires { d.deepest tokens.now ≤ 100 }
    ensures { IfOk result (λ found. MatchOption found (o.Never a.IsData tokens.now) (λ all. o.Sole a.IsData tokens.now all)) }
{
    let Some((first, rest)) = GroupEntry::read(alloc, tokens)? else {
        return Ok(None);
    };
    let Some(all) = chained::<GroupEntry>(alloc, first, rest)? else {
        return Ok(None);
    };
    Ok(Some(all))
}

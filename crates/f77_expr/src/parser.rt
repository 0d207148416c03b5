//! The longest expression at a place in a list of tokens.
//!
//! Recursive descent, a function for each kind of level. Operators of one level are read by a loop, so the functions
//! call each other deeper only where a parenthesis opens.
ghost use Rattle.std.specs.Prelude.{◌≡◌, ◌∷◌, [], ◌<◌, ◌≤◌, length, drop, IfOk, IfErr, MatchOption};
ghost use Rattle.f77_expr.specs.Best as b;
ghost use Rattle.f77_expr.specs.Depth as d;
ghost use Rattle.f77_expr.specs.Grammar as g;
ghost use Rattle.f77_expr.specs.Kinds as g_kinds;
ghost use Rattle.f77_expr.specs.Longest as s;

use super::depth::depth;
use super::fault::fault_at;
use super::token::{Kind, Rule, Token, next, operator};
use f77_tree::{Box, Expr, List, Name, Op, Place, Refused, is_name};
use std::alloc::{AllocError, Global};

/// The most parentheses that may stand in each other.
const DEEPEST: usize = 100;

/// The tokens behind one of this kind, if it comes next.
fn eat(kind: Kind, tokens: &[Token]) -> Option<&[Token]>
    ensures { MatchOption result (b.NotNext tokens.now kind) (λ rest. g_kinds.IsNext tokens.now kind rest.now) }
{
    let (found, rest) = next(tokens)?;
    if found == kind { Some(rest) } else { None }
}

fn binary(alloc: Global, op: Op, left: Expr, right: Expr) -> Result<Expr, AllocError>
    ensures { IfOk result (λ e. e ≡ Expr.Binary op left right) }
{
    Ok(Expr::Binary(op, Box::new(alloc, left)?, Box::new(alloc, right)?))
}

fn negative(alloc: Global, inner: Expr) -> Result<Expr, AllocError>
    ensures { IfOk result (λ e. e ≡ Expr.Neg inner) }
{
    Ok(Expr::Neg(Box::new(alloc, inner)?))
}

fn positive(alloc: Global, inner: Expr) -> Result<Expr, AllocError>
    ensures { IfOk result (λ e. e ≡ Expr.Plus inner) }
{
    Ok(Expr::Plus(Box::new(alloc, inner)?))
}

fn denial(alloc: Global, inner: Expr) -> Result<Expr, AllocError>
    ensures { IfOk result (λ e. e ≡ Expr.Not inner) }
{
    Ok(Expr::Not(Box::new(alloc, inner)?))
}

fn name_of(alloc: Global, word: &List<u8>) -> Result<Name, AllocError>
    ensures { IfOk result (λ name. name ≡ word.now) }
{
    Ok(Name::from_list(List::from_slice(alloc, word.as_slice())?))
}

/// Operands with `**` between, grouped from the right.
#[tactic(auto, using(crate::proofs::Sets::groups))]
fn grouped(alloc: Global, bases: List<Expr>, last: Expr) -> Result<Expr, AllocError>
    ensures { IfOk result (λ e. e ≡ b.powers bases last) }
{
    let mut bases = bases;
    let mut whole = last;
    'turn: while let Some(base) = bases.pop() {
        whole = binary(alloc, Op::Pow, base, whole)?;
    }
    Ok(whole)
}

/// What a level reads from the front of the tokens, and the tokens behind it.
#[tactic(auto, using(crate::proofs::Sets::lefts))]
#[cycle(parser)]
fn read(alloc: Global, rule: Rule, tokens: &[Token]) -> Result<Option<(Expr, &[Token])>, AllocError>
    ensures { IfOk result (λ found. MatchOption found (b.Fails rule tokens.now) (λ x. b.Best rule tokens.now x.0 x.1.now)) }
{
    match rule {
        Rule::Equivalence => chain(alloc, Rule::Equivalence, tokens),
        Rule::Disjunction => chain(alloc, Rule::Disjunction, tokens),
        Rule::Conjunction => chain(alloc, Rule::Conjunction, tokens),
        Rule::Negation => negation(alloc, tokens),
        Rule::Relation => relation(alloc, tokens),
        Rule::Sum => sum(alloc, tokens),
        Rule::Product => chain(alloc, Rule::Product, tokens),
        Rule::Factor => factor(alloc, tokens),
        Rule::Primary => primary(alloc, tokens),
    }
}

/// An operator of one level with an operand of another behind it.
#[cycle(parser)]
fn step(
    alloc: Global,
    rule: Rule,
    operand: Rule,
    tokens: &[Token],
) -> Result<Option<(Op, Expr, &[Token])>, AllocError>
    ensures { IfOk result (λ found. MatchOption found (b.NoStep rule operand tokens.now) (λ x. b.Step rule operand tokens.now x.0 x.1 x.2.now)) }
{
    let Some((kind, rest)) = next(tokens) else {
        return Ok(None);
    };
    let Some(op) = operator(rule, kind) else {
        return Ok(None);
    };
    let Some((right, after)) = read(alloc, operand, rest)? else {
        return Ok(None);
    };
    Ok(Some((op, right, after)))
}

/// The first operand with the operators and operands behind it, grouped from the left.
#[tactic(auto, using(crate::proofs::Sets::joins))]
#[cycle(parser)]
fn joined<'a>(
    alloc: Global,
    rule: Rule,
    first: Expr,
    tokens: &'a [Token],
) -> Result<(Expr, &'a [Token]), AllocError>
    requires { g.GroupsLeft rule }
    ensures { IfOk result (λ x. b.BestJoin rule first tokens.now x.0 x.1.now) }
{
    let mut whole = first;
    let mut rest = tokens;
    'turn: while let Some((op, right, after)) = step(alloc, rule, rule.below(), rest)? {
        whole = binary(alloc, op, whole, right)?;
        rest = after;
    }
    Ok((whole, rest))
}

#[tactic(auto, using(crate::proofs::Sets::chains))]
#[cycle(parser)]
fn chain(
    alloc: Global,
    rule: Rule,
    tokens: &[Token],
) -> Result<Option<(Expr, &[Token])>, AllocError>
    requires plain { b.IsPlain rule }
    requires left { g.GroupsLeft rule }
    ensures { IfOk result (λ found. MatchOption found (b.Fails rule tokens.now) (λ x. b.Best rule tokens.now x.0 x.1.now)) }
{
    let Some((first, rest)) = read(alloc, rule.below(), tokens)? else {
        return Ok(None);
    };
    Ok(Some(joined(alloc, rule, first, rest)?))
}

#[tactic(auto, using(crate::proofs::Sets::negations))]
#[cycle(parser)]
fn negation(alloc: Global, tokens: &[Token]) -> Result<Option<(Expr, &[Token])>, AllocError>
    ensures { IfOk result (λ found. MatchOption found (b.Fails Rule.Negation tokens.now) (λ x. b.Best Rule.Negation tokens.now x.0 x.1.now)) }
{
    let Some(rest) = eat(Kind::Not, tokens) else {
        return read(alloc, Rule::Relation, tokens);
    };
    let Some((inner, after)) = read(alloc, Rule::Relation, rest)? else {
        return Ok(None);
    };
    Ok(Some((denial(alloc, inner)?, after)))
}

#[tactic(auto, using(crate::proofs::Sets::relations))]
#[cycle(parser)]
fn relation(alloc: Global, tokens: &[Token]) -> Result<Option<(Expr, &[Token])>, AllocError>
    ensures { IfOk result (λ found. MatchOption found (b.Fails Rule.Relation tokens.now) (λ x. b.Best Rule.Relation tokens.now x.0 x.1.now)) }
{
    let Some((left, rest)) = read(alloc, Rule::Sum, tokens)? else {
        return Ok(None);
    };
    let Some((op, right, after)) = step(alloc, Rule::Relation, Rule::Sum, rest)? else {
        return Ok(Some((left, rest)));
    };
    Ok(Some((binary(alloc, op, left, right)?, after)))
}

#[tactic(auto, using(crate::proofs::Sets::sums))]
#[cycle(parser)]
fn sum(alloc: Global, tokens: &[Token]) -> Result<Option<(Expr, &[Token])>, AllocError>
    ensures { IfOk result (λ found. MatchOption found (b.Fails Rule.Sum tokens.now) (λ x. b.Best Rule.Sum tokens.now x.0 x.1.now)) }
{
    if let Some(inside) = eat(Kind::Minus, tokens) {
        let Some((term, rest)) = read(alloc, Rule::Product, inside)? else {
            return Ok(None);
        };
        let first = negative(alloc, term)?;
        return Ok(Some(joined(alloc, Rule::Sum, first, rest)?));
    }
    if let Some(inside) = eat(Kind::Plus, tokens) {
        let Some((term, rest)) = read(alloc, Rule::Product, inside)? else {
            return Ok(None);
        };
        let first = positive(alloc, term)?;
        return Ok(Some(joined(alloc, Rule::Sum, first, rest)?));
    }
    let Some((first, rest)) = read(alloc, Rule::Product, tokens)? else {
        return Ok(None);
    };
    Ok(Some(joined(alloc, Rule::Sum, first, rest)?))
}

/// Primaries with `**` between. The tree is built from the last of them.
#[tactic(auto, using(crate::proofs::Sets::factors))]
#[cycle(parser)]
fn factor(alloc: Global, tokens: &[Token]) -> Result<Option<(Expr, &[Token])>, AllocError>
    ensures { IfOk result (λ found. MatchOption found (b.Fails Rule.Factor tokens.now) (λ x. b.Best Rule.Factor tokens.now x.0 x.1.now)) }
{
    let Some((first, behind)) = read(alloc, Rule::Primary, tokens)? else {
        return Ok(None);
    };
    let mut bases = List::new(alloc);
    let mut last = first;
    let mut rest = behind;
    'turn: while let Some((_, right, after)) = step(alloc, Rule::Factor, Rule::Primary, rest)? {
        bases.push(last)?;
        last = right;
        rest = after;
    }
    Ok(Some((grouped(alloc, bases, last)?, rest)))
}

#[cycle(parser)]
fn primary(alloc: Global, tokens: &[Token]) -> Result<Option<(Expr, &[Token])>, AllocError>
    ensures { IfOk result (λ found. MatchOption found (b.Fails Rule.Primary tokens.now) (λ x. b.Best Rule.Primary tokens.now x.0 x.1.now)) }
{
    match tokens.split_first() {
        None => Ok(None),
        Some((Token::Int(n, _), rest)) => Ok(Some((Expr::Int(*n), rest))),
        Some((Token::Word(word), rest)) => named(alloc, tokens, word, rest),
        Some(_) => started(alloc, tokens),
    }
}

/// A name, and the list behind it if there is one.
#[tactic(auto, using(crate::proofs::Sets::names))]
#[cycle(parser)]
fn named<'a>(
    alloc: Global,
    tokens: &[Token],
    word: &List<u8>,
    rest: &'a [Token],
) -> Result<Option<(Expr, &'a [Token])>, AllocError>
    requires { tokens.now ≡ Token.Word word.now ∷ rest.now }
    ensures { IfOk result (λ found. MatchOption found (b.Fails Rule.Primary tokens.now) (λ x. b.Best Rule.Primary tokens.now x.0 x.1.now)) }
{
    let _whole = tokens;
    if !is_name(word.as_slice()) {
        return Ok(None);
    }
    let name = name_of(alloc, word)?;
    let Some(inside) = eat(Kind::Open, rest) else {
        return Ok(Some((Expr::Scalar(name), rest)));
    };
    let Some((all, after)) = list(alloc, inside)? else {
        return Ok(Some((Expr::Scalar(name), rest)));
    };
    Ok(Some((Expr::Apply(name, all), after)))
}

/// A truth value, or an expression in parentheses.
#[tactic(auto, using(crate::proofs::Sets::starts))]
#[cycle(parser)]
fn started(alloc: Global, tokens: &[Token]) -> Result<Option<(Expr, &[Token])>, AllocError>
    requires { b.BeginsNoName tokens.now }
    ensures { IfOk result (λ found. MatchOption found (b.Fails Rule.Primary tokens.now) (λ x. b.Best Rule.Primary tokens.now x.0 x.1.now)) }
{
    if let Some(rest) = eat(Kind::True, tokens) {
        return Ok(Some((Expr::Truth(true), rest)));
    }
    if let Some(rest) = eat(Kind::False, tokens) {
        return Ok(Some((Expr::Truth(false), rest)));
    }
    let Some(inside) = eat(Kind::Open, tokens) else {
        return Ok(None);
    };
    parenthesized(alloc, tokens, inside)
}

#[tactic(auto, using(crate::proofs::Sets::parens))]
#[cycle(parser)]
fn parenthesized<'a>(
    alloc: Global,
    tokens: &[Token],
    inside: &'a [Token],
) -> Result<Option<(Expr, &'a [Token])>, AllocError>
    requires { g_kinds.IsNext tokens.now Kind.Open inside.now }
    ensures { IfOk result (λ found. MatchOption found (b.Fails Rule.Primary tokens.now) (λ x. b.Best Rule.Primary tokens.now x.0 x.1.now)) }
{
    let _whole = tokens;
    let Some((inner, rest)) = read(alloc, Rule::Equivalence, inside)? else {
        return Ok(None);
    };
    let Some(after) = eat(Kind::Close, rest) else {
        return Ok(None);
    };
    Ok(Some((Expr::Paren(Box::new(alloc, inner)?), after)))
}

/// What stands behind an opening parenthesis of a list.
#[tactic(auto, using(crate::proofs::Sets::lists))]
#[cycle(parser)]
fn list(alloc: Global, tokens: &[Token]) -> Result<Option<(List<Expr>, &[Token])>, AllocError>
    ensures { IfOk result (λ found. MatchOption found (b.NoList tokens.now) (λ x. b.FirstList tokens.now x.0 x.1.now)) }
{
    if let Some(rest) = eat(Kind::Close, tokens) {
        return Ok(Some((List::new(alloc), rest)));
    }
    items(alloc, tokens)
}

#[tactic(auto, using(crate::proofs::Sets::many))]
#[cycle(parser)]
fn items(alloc: Global, tokens: &[Token]) -> Result<Option<(List<Expr>, &[Token])>, AllocError>
    ensures { IfOk result (λ found. MatchOption found (b.NoItems tokens.now) (λ x. b.FirstItems tokens.now x.0 x.1.now)) }
{
    let mut all = List::new(alloc);
    let mut rest = tokens;
    'turn: loop {
        let Some((item, after)) = read(alloc, Rule::Equivalence, rest)? else {
            return Ok(None);
        };
        all.push(item)?;
        if let Some(end) = eat(Kind::Close, after) {
            return Ok(Some((all, end)));
        }
        let Some(more) = eat(Kind::Comma, after) else {
            return Ok(None);
        };
        rest = more;
    }
}

/// The longest expression at the front of tokens in which at most 100 parentheses stand in each other, and the tokens
/// behind it. It looks no further than the token behind the expression, so lists are read in time by their length.
pub fn leading_expression(
    alloc: Global,
    tokens: &[Token],
) -> Result<Option<(Expr, &[Token])>, AllocError>
    requires { d.deepest tokens.now ≤ 100 }
    ensures shallow { IfOk result (λ found. MatchOption found (Unit {0}) (λ x. d.deepest x.1.now ≤ 100)) }
    ensures shorter { IfOk result (λ found. MatchOption found (Unit {0}) (λ x. length x.1.now < length tokens.now)) }
    ensures longest { IfOk result (λ found. MatchOption found (s.NoneBegins tokens.now) (λ x. s.IsLongest tokens.now x.0 x.1.now)) }
{
    let Some((found, rest)) = read(alloc, Rule::Equivalence, tokens)? else {
        return Ok(None);
    };
    Ok(Some((found, rest)))
}

/// The tokens from `from` on, which are none behind the end.
fn behind(tokens: &[Token], from: usize) -> &[Token]
    ensures { result.now ≡ drop from tokens.now }
{
    let (_, rest) = tokens.split_at(from.min(tokens.len()));
    rest
}

/// The longest expression that begins at `from`, and the index behind it; or fault 11 where more than 100 parentheses
/// stand in each other from there on, else 6 where no expression begins there, as behind the end of the tokens.
pub fn expression(
    alloc: Global,
    tokens: &[Token],
    from: usize,
    at: &Place,
) -> Result<(Expr, usize), Refused>
    ensures depth { IfOk result (λ x. d.deepest (drop from tokens.now) ≤ 100) }
    ensures longest { IfOk result (λ x. s.LongestAt tokens.now from x.0 x.1) }
    ensures fault { IfErr result (λ e. s.ExplainsNone e at.now (drop from tokens.now)) }
{
    let rest = behind(tokens, from);
    if depth(rest) > DEEPEST {
        return Err(Refused::Fault(fault_at(alloc, 11, at)?));
    }
    match read(alloc, Rule::Equivalence, rest)? {
        None => Err(Refused::Fault(fault_at(alloc, 6, at)?)),
        Some((found, after)) => Ok((found, tokens.len() - after.len())),
    }
}

/// The expression that all the tokens are, if they are one; or the faults of `expression`.
pub fn whole_expression(
    alloc: Global,
    tokens: &[Token],
    at: &Place,
) -> Result<Option<Expr>, Refused>
    ensures depth { IfOk result (λ found. d.deepest tokens.now ≤ 100) }
    ensures whole { IfOk result (λ found. MatchOption found (s.NotWhole tokens.now) (λ x. g.ReadsExpression tokens.now x [])) }
    ensures fault { IfErr result (λ e. s.ExplainsNone e at.now tokens.now) }
{
    let (found, to) = expression(alloc, tokens, 0, at)?;
    if to == tokens.len() {
        Ok(Some(found))
    } else {
        Ok(None)
    }
}

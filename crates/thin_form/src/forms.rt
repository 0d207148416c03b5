//! The forms of thin statements.
ghost use Rattle.std.specs.Prelude.{◌≡◌, ◌<◌, pos, IfOk, IfSome, MatchOption};
ghost use Rattle.std.specs.List.{All, AllZip};
ghost use Rattle.thin_form.specs.declared.statement.Term.TheVariants as t;
ghost use Rattle.thin_form.specs.Forms as f;
ghost use Rattle.thin_form.specs.Lacks.{Lacks};
ghost use Rattle.thin_form.specs.Programs as p;

use super::statement::{Addend, Item, Sign, Statement, Term};
use f77_tree::{Expr, Form, List, Name, Op};
use std::alloc::{AllocError, Global};

/// Whether a name is one of INTEGER variables.
fn is_integer_name(name: &Name) -> bool
    ensures { result ≡ f.is_integer_name name.now }
{
    let Some((first, _)) = name.as_bytes().split_first() else {
        return false;
    };
    *first >= b'I' && *first <= b'N'
}

fn sign_of(op: Op) -> Option<Sign>
    ensures { MatchOption result (Lacks (λ sign. op ≡ f.op_of sign)) (λ sign. op ≡ f.op_of sign) }
{
    match op {
        Op::Add => Some(Sign::Plus),
        Op::Sub => Some(Sign::Minus),
        _ => None,
    }
}

/// The term of an integer without a sign.
fn integer(value: &i64) -> Option<Term>
    ensures term { MatchOption result (Lacks (λ n. value.now ≡ pos n)) (λ term. f.IsNatural value.now × (term ≡ t.Integer value.now)) }
    ensures plain { IfSome result (λ term. p.IsTerm term) }
{
    if *value < 0 {
        return None;
    }
    Some(Term::Integer(*value))
}

/// The term that an expression is.
fn term(alloc: Global, tree: &Expr) -> Result<Option<Term>, AllocError>
    ensures term { IfOk result (λ found. MatchOption found (Lacks (f.IsTermOf tree.now)) (λ term. f.IsTermOf tree.now term)) }
    ensures plain { IfOk result (λ found. IfSome found (λ term. p.IsTerm term)) }
{
    match tree {
        Expr::Scalar(name) => {
            if !is_integer_name(name) {
                return Ok(None);
            }
            Ok(Some(Term::Variable(name.copy(alloc)?)))
        }
        Expr::Int(value) => Ok(integer(value)),
        _ => Ok(None),
    }
}

/// The first term of the sum that an expression is, and the terms behind it.
fn sum(alloc: Global, tree: &Expr) -> Result<Option<(Term, List<Addend>)>, AllocError>
    ensures sum { IfOk result (λ found. MatchOption found (Lacks (λ (x : Term × List Addend). f.IsSumOf tree.now x.0 x.1)) (λ x. f.IsSumOf tree.now x.0 x.1)) }
    ensures plain { IfOk result (λ found. IfSome found (λ x. p.IsTerm x.0 × All (λ a. p.IsTerm a.term) x.1)) }
{
    let Expr::Binary(op, before, last) = tree else {
        let Some(first) = term(alloc, tree)? else {
            return Ok(None);
        };
        return Ok(Some((first, List::new(alloc))));
    };
    let Some(sign) = sign_of(*op) else {
        return Ok(None);
    };
    let Some((first, mut more)) = sum(alloc, before.get())? else {
        return Ok(None);
    };
    let Some(term) = term(alloc, last.get())? else {
        return Ok(None);
    };
    more.push(Addend { sign, term })?;
    Ok(Some((first, more)))
}

fn literal(alloc: Global, bytes: &[u8]) -> Result<List<u8>, AllocError>
    ensures copy { IfOk result (λ copy. copy ≡ bytes.now) }
    ensures plain { IfOk result (λ copy. All (λ b. b < 256) copy) }
{
    List::from_slice(alloc, bytes)
}

/// The item that an expression is.
fn item(alloc: Global, tree: &Expr) -> Result<Option<Item>, AllocError>
    ensures item { IfOk result (λ found. MatchOption found (Lacks (f.IsItemOf tree.now)) (λ item. f.IsItemOf tree.now item)) }
    ensures plain { IfOk result (λ found. IfSome found (λ item. p.IsItem item)) }
{
    if let Expr::Text(bytes) = tree {
        return Ok(Some(Item::Text(literal(alloc, bytes.as_slice())?)));
    }
    let Some(term) = term(alloc, tree)? else {
        return Ok(None);
    };
    Ok(Some(Item::Value(term)))
}

/// The items that expressions are.
fn items(alloc: Global, trees: &[Expr]) -> Result<Option<List<Item>>, AllocError>
    ensures items { IfOk result (λ found. MatchOption found (Lacks (AllZip f.IsItemOf trees.now)) (λ all. AllZip f.IsItemOf trees.now all)) }
    ensures plain { IfOk result (λ found. IfSome found (λ all. All p.IsItem all)) }
{
    let mut all = List::new(alloc);
    for tree in trees {
        let Some(item) = item(alloc, tree)? else {
            return Ok(None);
        };
        all.push(item)?;
    }
    Ok(Some(all))
}

/// The assignment of an expression to a target.
fn assignment(alloc: Global, target: &Expr, value: &Expr) -> Result<Option<Statement>, AllocError>
    ensures assignment { IfOk result (λ found. MatchOption found (Lacks (f.IsAssignmentOf target.now value.now)) (λ statement. f.IsAssignmentOf target.now value.now statement)) }
    ensures plain { IfOk result (λ found. IfSome found p.IsPlain) }
{
    let Expr::Scalar(name) = target else {
        return Ok(None);
    };
    if !is_integer_name(name) {
        return Ok(None);
    }
    let Some((first, more)) = sum(alloc, value)? else {
        return Ok(None);
    };
    Ok(Some(Statement::Assign(name.copy(alloc)?, first, more)))
}

/// The thin statement that a tree is.
pub fn thin_statement(alloc: Global, tree: &Form) -> Result<Option<Statement>, AllocError>
    ensures statement { IfOk result (λ found. MatchOption found (Lacks (f.IsStatementOf tree.now)) (λ statement. f.IsStatementOf tree.now statement)) }
    ensures plain { IfOk result (λ found. IfSome found (λ statement. p.IsPlainOrEnd statement)) }
{
    match tree {
        Form::Assign(target, value) => assignment(alloc, target, value),
        Form::Print(trees) => {
            let Some(all) = items(alloc, trees.as_slice())? else {
                return Ok(None);
            };
            Ok(Some(Statement::Print(all)))
        }
        Form::End => Ok(Some(Statement::End)),
        _ => Ok(None),
    }
}

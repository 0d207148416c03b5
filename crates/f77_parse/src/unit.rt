//! The tree of a unit.
ghost use Rattle.std.specs.Prelude.{◌≡◌, ◌≤◌, ◌+◌, ◌∷◌, ◌++◌, [], ℕ, List as Lists, min, None, IfOk, IfErr};
ghost use Rattle.std.specs.Bool.{MatchBool};
ghost use Rattle.f77_tree.specs.Ends.{EndsOnce};
ghost use Rattle.f77_tree.specs.declared.unit.UnitKind.{UnitKind as AnyKind};
ghost use Rattle.fixed_form.specs.declared.reader.Line.{Line as AnyLine};
ghost use Rattle.f77_parse.specs.Limits as l;
ghost use Rattle.f77_parse.specs.Parsed as p;
ghost use Rattle.f77_parse.specs.Progress as g;
ghost use Rattle.f77_parse.specs.Shown as h;
ghost use Rattle.f77_parse.specs.Statements as s;
ghost use Rattle.f77_parse.specs.UnitFaults as f;

use super::context::{Context, behind};
use super::statement::{MOST_TOKENS, form_at, statement_mark};
use f77_expr::{lexes_law, token_count};
use f77_forms::form_of;
use f77_tree::{Duplicate, Form, List, Name, Refused, Stmt, Unit, UnitKind};
use fault_marks::{Mark, first_of, refusal};
use fixed_form::{Line, UnitText};
use std::alloc::{AllocError, Global};

/// The statements that were gone through, what they leave open, their tokens (20,001 where they are more than 20,000)
/// and their first fault.
#[derive(Drop)]
struct Progress {
    statements: List<Stmt>,
    context: Context,
    tokens: u32,
    fault: Option<Mark>,
}

/// The tokens with those of one more text.
fn add_tokens(total: u32, count: usize) -> u32
    requires { total ≤ 20001 }
    ensures { result ≡ min (total + count) 20001 }
{
    let more = count.min(20001) as u32;
    (total + more).min(MOST_TOKENS + 1)
}

/// Whether the tokens pass their limit between these two numbers.
fn passes_limit(before: u32, total: u32) -> bool
    ensures { MatchBool result ((before ≤ 20000) × (20001 ≤ total)) ((before ≤ 20000) × (20001 ≤ total) → ⊥) }
{
    before <= MOST_TOKENS && total > MOST_TOKENS
}

fn with_statement(
    statements: List<Stmt>,
    line: &Line,
    form: Option<Form>,
) -> Result<List<Stmt>, AllocError>
    ensures { IfOk result (λ all. all ≡ g.with_statement statements line.now form) }
{
    let mut statements = statements;
    let Some(form) = form else {
        return Ok(statements);
    };
    statements.push(Stmt {
        label: line.label,
        line: line.line,
        form,
    })?;
    Ok(statements)
}

/// One more statement.
fn take(alloc: Global, progress: Progress, line: &Line, last: bool) -> Result<Progress, AllocError>
    requires { progress.tokens ≤ 20001 }
    ensures small { IfOk result (λ next. next.tokens ≤ 20001) }
    ensures kind { IfOk result (λ next. next.context.kind ≡ progress.context.kind) }
    ensures stands { IfOk result (λ next. (before after : Lists AnyLine) → h.IsLast last after → g.Stands before (line.now ∷ after) progress → g.Stands (before ++ line.now ∷ []) after next) }
{
    lexes_law();
    let Progress {
        statements,
        context,
        tokens,
        fault,
    } = progress;
    let text = line.text.as_slice();
    let form = form_at(alloc, text, last)?;
    let total = add_tokens(tokens, token_count(text));
    let mark = statement_mark(alloc, context, line, &form, passes_limit(tokens, total))?;
    let context = behind(context, &form);
    let statements = with_statement(statements, line, form)?;
    Ok(Progress {
        statements,
        context,
        tokens: total,
        fault: first_of(fault, mark),
    })
}

/// The kind and the dummies of a unit whose first statement has this form.
fn head_of(alloc: Global, form: &Form) -> Result<(UnitKind, List<Name>), AllocError>
    ensures { IfOk result (λ x. g.TellsHead form.now x.0 x.1) }
{
    match form {
        Form::Head(kind, _, _, dummies) => Ok((*kind, dummies.duplicate(alloc)?)),
        _ => Ok((UnitKind::Main, List::new(alloc))),
    }
}

/// The kind and the dummies of a unit.
fn heading(alloc: Global, lines: &[Line]) -> Result<(UnitKind, List<Name>), AllocError>
    ensures head { IfOk result (λ x. s.HasHead lines.now x.0 x.1) }
    ensures only { IfOk result (λ x. (kind : AnyKind) (names : Lists (Lists ℕ)) → s.HasHead lines.now kind names → kind ≡ x.0) }
{
    let Some((first, _)) = lines.split_first() else {
        return Ok((UnitKind::Main, List::new(alloc)));
    };
    let Some(form) = form_of(alloc, first.text.as_slice())? else {
        return Ok((UnitKind::Main, List::new(alloc)));
    };
    head_of(alloc, &form)
}

/// Whether the last statement of a unit is END, which `parse_unit` asks for.
pub fn ends_by_end(unit: &UnitText) -> bool
    ensures ends { MatchBool result (s.EndsUnit unit.now) (s.EndsUnit unit.now → ⊥) }
{
    let Some((last, _)) = unit.statements.as_slice().split_last() else {
        return false;
    };
    last.text.as_slice() == b"END".as_slice()
}

/// The tree of a unit whose last statement is END, or the first of its faults 6 to 11 and 37 by line, then by number.
pub fn parse_unit(alloc: Global, unit: &UnitText) -> Result<Unit, Refused>
    requires ended { s.EndsUnit unit.now }
    ensures unit { IfOk result (λ tree. p.IsUnit unit.now tree) }
    ensures faultless { IfOk result (λ tree. p.IsFaultless unit.now) }
    ensures few { IfOk result (λ tree. tree.tokens ≤ l.most_tokens) }
    ensures ends { IfOk result (λ tree. EndsOnce tree) }
    ensures fault { IfErr result (λ e. f.Explains e unit.now) }
{
    let lines = unit.statements.as_slice();
    let (kind, dummies) = heading(alloc, lines)?;
    let Some((last, front)) = lines.split_last() else {
        unreachable!()
    };
    let mut progress = Progress {
        statements: List::new(alloc),
        context: Context {
            kind,
            first: true,
            declared: false,
            executed: false,
        },
        tokens: 0,
        fault: None,
    };
    for line in front {
        progress = take(alloc, progress, line, false)?;
    }
    let Progress {
        statements,
        tokens,
        fault,
        ..
    } = take(alloc, progress, last, true)?;
    if let Some(mark) = fault {
        return Err(refusal(alloc, &unit.name, mark));
    }
    Ok(Unit {
        kind,
        name: unit.name.copy(alloc)?,
        dummies,
        statements,
        tokens,
    })
}

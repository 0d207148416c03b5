//! Expressions and forms of statements as text.
use f77_tree::{DataConst, Declarator, Expr, Form, List, Name, Op, Ty, TypeWord};
use std::alloc::{AllocError, Global};
use table_rows::{put, put_head, put_integer, put_names, put_number, word_of};

fn sign_of(op: Op) -> &'static str {
    match op {
        Op::Pow => "**",
        Op::Mul => "*",
        Op::Div => "/",
        Op::Add => "+",
        Op::Sub => "-",
        Op::Eq => ".EQ.",
        Op::Ne => ".NE.",
        Op::Lt => ".LT.",
        Op::Le => ".LE.",
        Op::Gt => ".GT.",
        Op::Ge => ".GE.",
        Op::And => ".AND.",
        Op::Or => ".OR.",
        Op::Eqv => ".EQV.",
        Op::Neqv => ".NEQV.",
    }
}

/// A literal in angle brackets.
pub fn put_literal(out: &mut Vec<u8>, bytes: &[u8]) -> Result<(), AllocError> {
    put(out, "<")?;
    out.extend_from_slice(bytes)?;
    put(out, ">")
}

/// A tree, with square brackets around what an operator and its operands are.
#[cycle(put_tree)]
pub fn put_tree(alloc: Global, out: &mut Vec<u8>, e: &Expr) -> Result<(), AllocError> {
    match e {
        Expr::Int(n) => put_integer(alloc, out, *n),
        Expr::Truth(b) => put(out, if *b { "T" } else { "F" }),
        Expr::Text(bytes) => put_literal(out, bytes.as_slice()),
        Expr::Scalar(name) => out.extend_from_slice(name.as_bytes()),
        Expr::Apply(name, all) => {
            out.extend_from_slice(name.as_bytes())?;
            put(out, "(")?;
            put_list(alloc, out, all)?;
            put(out, ")")
        }
        Expr::Paren(inner) => put_between(alloc, out, "(", inner.get(), ")"),
        Expr::Neg(inner) => put_between(alloc, out, "[-", inner.get(), "]"),
        Expr::Plus(inner) => put_between(alloc, out, "[+", inner.get(), "]"),
        Expr::Not(inner) => put_between(alloc, out, "[.NOT.", inner.get(), "]"),
        Expr::Binary(op, a, b) => {
            put(out, "[")?;
            put_tree(alloc, out, a.get())?;
            put(out, sign_of(*op))?;
            put_between(alloc, out, "", b.get(), "]")
        }
    }
}

#[cycle(put_tree)]
fn put_between(
    alloc: Global,
    out: &mut Vec<u8>,
    before: &str,
    e: &Expr,
    behind: &str,
) -> Result<(), AllocError> {
    put(out, before)?;
    put_tree(alloc, out, e)?;
    put(out, behind)
}

/// Trees with commas between.
#[cycle(put_tree)]
pub fn put_list(alloc: Global, out: &mut Vec<u8>, all: &List<Expr>) -> Result<(), AllocError> {
    let mut first = true;
    for item in all.as_slice() {
        if !first {
            put(out, ",")?;
        }
        first = false;
        put_tree(alloc, out, item)?;
    }
    Ok(())
}

/// The bounds of one dimension, with `*` where the upper one isn't given.
fn put_bound(
    alloc: Global,
    out: &mut Vec<u8>,
    bound: &(Option<Expr>, Option<Expr>),
) -> Result<(), AllocError> {
    if let Some(low) = &bound.0 {
        put_tree(alloc, out, low)?;
        put(out, ":")?;
    }
    match &bound.1 {
        Some(high) => put_tree(alloc, out, high),
        None => put(out, "*"),
    }
}

fn put_declarator(alloc: Global, out: &mut Vec<u8>, d: &Declarator) -> Result<(), AllocError> {
    put(out, " ")?;
    out.extend_from_slice(d.name.as_bytes())?;
    let mut before = "(";
    for bound in d.bounds.as_slice() {
        put(out, before)?;
        before = ",";
        put_bound(alloc, out, bound)?;
    }
    put(out, if d.bounds.is_empty() { "" } else { ")" })
}

fn put_declarators(
    alloc: Global,
    out: &mut Vec<u8>,
    all: &List<Declarator>,
) -> Result<(), AllocError> {
    for d in all.as_slice() {
        put_declarator(alloc, out, d)?;
    }
    Ok(())
}

fn put_blocks(
    alloc: Global,
    out: &mut Vec<u8>,
    all: &List<(Name, List<Declarator>)>,
) -> Result<(), AllocError> {
    for block in all.as_slice() {
        put(out, " /")?;
        out.extend_from_slice(block.0.as_bytes())?;
        put(out, "/")?;
        put_declarators(alloc, out, &block.1)?;
    }
    Ok(())
}

fn put_constants(
    alloc: Global,
    out: &mut Vec<u8>,
    all: &List<(Name, Expr)>,
) -> Result<(), AllocError> {
    for constant in all.as_slice() {
        put(out, " ")?;
        out.extend_from_slice(constant.0.as_bytes())?;
        put_between(alloc, out, "=", &constant.1, "")?;
    }
    Ok(())
}

fn put_letters(out: &mut Vec<u8>, all: &List<(u8, u8)>) -> Result<(), AllocError> {
    for letters in all.as_slice() {
        out.extend_from_slice([b' ', letters.0, b'-', letters.1].as_slice())?;
    }
    Ok(())
}

fn put_rules(out: &mut Vec<u8>, all: &List<(TypeWord, List<(u8, u8)>)>) -> Result<(), AllocError> {
    for rule in all.as_slice() {
        put(out, word_of(rule.0))?;
        put_letters(out, &rule.1)?;
    }
    Ok(())
}

fn put_const(alloc: Global, out: &mut Vec<u8>, c: &DataConst) -> Result<(), AllocError> {
    put(out, " ")?;
    if let Some(r) = &c.repeat {
        put_between(alloc, out, "", r, "*")?;
    }
    put_tree(alloc, out, &c.value)
}

fn put_consts(alloc: Global, out: &mut Vec<u8>, all: &List<DataConst>) -> Result<(), AllocError> {
    put(out, " /")?;
    for c in all.as_slice() {
        put_const(alloc, out, c)?;
    }
    put(out, ";")
}

/// The items and constants of DATA, with `/` between and `;` behind.
fn put_groups(
    alloc: Global,
    out: &mut Vec<u8>,
    all: &List<(List<Expr>, List<DataConst>)>,
) -> Result<(), AllocError> {
    for group in all.as_slice() {
        put(out, " ")?;
        put_list(alloc, out, &group.0)?;
        put_consts(alloc, out, &group.1)?;
    }
    Ok(())
}

fn put_saved(out: &mut Vec<u8>, saved: &List<Name>, blocks: &List<Name>) -> Result<(), AllocError> {
    put_names(out, saved)?;
    put(out, " |")?;
    put_names(out, blocks)
}

fn put_labels(alloc: Global, out: &mut Vec<u8>, labels: &[u32]) -> Result<(), AllocError> {
    for label in labels {
        put(out, " ")?;
        put_number(alloc, out, *label as u64)?;
    }
    Ok(())
}

fn put_do(
    alloc: Global,
    out: &mut Vec<u8>,
    name: &Name,
    first: &Expr,
    last: &Expr,
    step: &Option<Expr>,
) -> Result<(), AllocError> {
    put(out, " ")?;
    out.extend_from_slice(name.as_bytes())?;
    put_between(alloc, out, "=", first, "")?;
    put_between(alloc, out, ",", last, "")?;
    match step {
        Some(step) => put_between(alloc, out, ",", step, ""),
        None => Ok(()),
    }
}

fn put_items(
    alloc: Global,
    out: &mut Vec<u8>,
    word: &str,
    all: &List<Expr>,
) -> Result<(), AllocError> {
    put(out, word)?;
    put(out, if all.is_empty() { "" } else { " " })?;
    put_list(alloc, out, all)
}

fn put_call(
    alloc: Global,
    out: &mut Vec<u8>,
    name: &Name,
    actuals: &List<Expr>,
) -> Result<(), AllocError> {
    put(out, "call ")?;
    out.extend_from_slice(name.as_bytes())?;
    put_items(alloc, out, "", actuals)
}

fn put_conditional(
    alloc: Global,
    out: &mut Vec<u8>,
    condition: &Expr,
    inner: &Form,
) -> Result<(), AllocError> {
    put_between(alloc, out, "logical if ", condition, ": ")?;
    put_action(alloc, out, inner)
}

/// Statements that send control elsewhere.
fn put_transfer(alloc: Global, out: &mut Vec<u8>, form: &Form) -> Result<(), AllocError> {
    match form {
        Form::ArithmeticIf(e, negative, null, positive) => {
            put_between(alloc, out, "arithmetic if ", e, "")?;
            put_labels(alloc, out, [*negative, *null, *positive].as_slice())
        }
        Form::GoTo(label) => {
            put(out, "go to")?;
            put_labels(alloc, out, [*label].as_slice())
        }
        Form::ComputedGoTo(labels, e) => {
            put(out, "computed go to")?;
            put_labels(alloc, out, labels.as_slice())?;
            put_between(alloc, out, " by ", e, "")
        }
        Form::Return => put(out, "return"),
        Form::End => put(out, "end"),
        Form::Stop => put(out, "stop"),
        _ => put(out, "another"),
    }
}

/// Statements that may stand in a logical IF.
fn put_action(alloc: Global, out: &mut Vec<u8>, form: &Form) -> Result<(), AllocError> {
    match form {
        Form::Assign(target, value) => {
            put_between(alloc, out, "assignment ", target, "=")?;
            put_tree(alloc, out, value)
        }
        Form::Continue => put(out, "continue"),
        Form::Call(name, actuals) => put_call(alloc, out, name, actuals),
        Form::Print(items) => put_items(alloc, out, "print", items),
        Form::Read(targets) => put_items(alloc, out, "read", targets),
        _ => put_transfer(alloc, out, form),
    }
}

fn put_block_part(alloc: Global, out: &mut Vec<u8>, form: &Form) -> Result<(), AllocError> {
    match form {
        Form::BlockIf(e) => put_between(alloc, out, "block if ", e, ""),
        Form::ElseIf(e) => put_between(alloc, out, "else if ", e, ""),
        Form::Else => put(out, "else"),
        Form::EndIf => put(out, "end if"),
        Form::LogicalIf(e, inner) => put_conditional(alloc, out, e, inner.get()),
        Form::Do(label, name, first, last, step) => {
            put(out, "do")?;
            put_labels(alloc, out, [*label].as_slice())?;
            put_do(alloc, out, name, first, last, step)
        }
        _ => put_action(alloc, out, form),
    }
}

fn put_typed(
    alloc: Global,
    out: &mut Vec<u8>,
    ty: Ty,
    all: &List<Declarator>,
) -> Result<(), AllocError> {
    put(
        out,
        match ty {
            Ty::Integer => "typed INTEGER",
            Ty::Logical => "typed LOGICAL",
        },
    )?;
    put_declarators(alloc, out, all)
}

/// Specification statements of names alone.
fn put_naming(alloc: Global, out: &mut Vec<u8>, form: &Form) -> Result<(), AllocError> {
    match form {
        Form::Head(kind, ty, name, dummies) => put_head(out, *kind, *ty, name, dummies),
        Form::Implicit(rules) => {
            put(out, "implicit")?;
            put_rules(out, rules)
        }
        Form::ImplicitNone => put(out, "implicit none"),
        Form::External(names) => {
            put(out, "external")?;
            put_names(out, names)
        }
        Form::Intrinsic(names) => {
            put(out, "intrinsic")?;
            put_names(out, names)
        }
        Form::Save(saved, blocks) => {
            put(out, "save")?;
            put_saved(out, saved, blocks)
        }
        _ => put_block_part(alloc, out, form),
    }
}

/// What a statement is, and its parts.
pub fn put_form(alloc: Global, out: &mut Vec<u8>, form: &Form) -> Result<(), AllocError> {
    match form {
        Form::Typed(ty, all) => put_typed(alloc, out, *ty, all),
        Form::Dimension(all) => {
            put(out, "dimension")?;
            put_declarators(alloc, out, all)
        }
        Form::Common(blocks) => {
            put(out, "common")?;
            put_blocks(alloc, out, blocks)
        }
        Form::Parameter(all) => {
            put(out, "parameter")?;
            put_constants(alloc, out, all)
        }
        Form::DataRuns(groups) => {
            put(out, "data")?;
            put_groups(alloc, out, groups)
        }
        _ => put_naming(alloc, out, form),
    }
}

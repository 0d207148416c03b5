//! Assignments.
ghost use Rattle.std.specs.Prelude.{◌≤◌, IfOk, MatchOption};
ghost use Rattle.f77_expr.specs.Depth as d;
ghost use Rattle.form_execution.specs.Assignment as s;
ghost use Rattle.form_parts.specs.Only as o;

use f77_expr::{Kind, Token};
use f77_tree::Form;
use form_parts::{Part, VariablePart, eat, whole_expression};
use std::alloc::{AllocError, Global};

/// The form of an assignment by its tokens.
pub fn assignment(alloc: Global, tokens: &[Token]) -> Result<Option<Form>, AllocError>
    requires { d.deepest tokens.now ≤ 100 }
    ensures { IfOk result (λ found. MatchOption found (o.Never s.IsAssignment tokens.now) (λ form. o.Sole s.IsAssignment tokens.now form)) }
{
    let Some((target, rest)) = VariablePart::read(alloc, tokens)? else {
        return Ok(None);
    };
    let Some(more) = eat(Kind::Equals, rest) else {
        return Ok(None);
    };
    let Some(value) = whole_expression(alloc, more)? else {
        return Ok(None);
    };
    Ok(Some(Form::Assign(target, value)))
}

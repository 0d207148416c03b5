//! What a statement is to the statements around it.
ghost use Rattle.std.specs.Prelude.{◌≡◌};
ghost use Rattle.f77_tree.specs.declared.form.Form.{out-Form};
ghost use Rattle.f77_flow.specs.Kinds as k;

use f77_tree::Form;

/// What a statement is to the statements around it. A `Do` has the label of its last statement.
#[derive(Clone, Copy, Debug, Drop, PartialEq, Eq)]
pub enum Kind {
    Declaration,
    BlockIf,
    ElseIf,
    Else,
    EndIf,
    Do(u32),
    Plain,
}

/// The kind of a statement of this form.
pub fn kind_of(form: &Form) -> Kind
    ensures { result ≡ k.kind_of (out-Form form.now) }
{
    match form {
        Form::Head(_, _, _, _) | Form::Implicit(_) | Form::ImplicitNone => Kind::Declaration,
        Form::Typed(_, _) | Form::Dimension(_) | Form::Common(_) => Kind::Declaration,
        Form::Parameter(_) | Form::External(_) | Form::Intrinsic(_) => Kind::Declaration,
        Form::Save(_, _) | Form::DataRuns(_) => Kind::Declaration,
        Form::BlockIf(_) => Kind::BlockIf,
        Form::ElseIf(_) => Kind::ElseIf,
        Form::Else => Kind::Else,
        Form::EndIf => Kind::EndIf,
        Form::Do(label, _, _, _, _) => Kind::Do(*label),
        _ => Kind::Plain,
    }
}

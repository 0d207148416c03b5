//! The classes of statements for their order in a unit.
ghost use Rattle.std.specs.Prelude.{◌≡◌};
ghost use Rattle.f77_parse.specs.Order as o;
ghost use Rattle.f77_parse.specs.Statements as s;

use f77_tree::Form;

/// What a statement is for the order of statements. A declaration is a type statement, DIMENSION, COMMON or SAVE;
/// procedures are named by EXTERNAL and INTRINSIC.
#[derive(Clone, Copy, Debug, Drop, PartialEq, Eq)]
pub enum Class {
    Head,
    Implicit,
    Parameter,
    Data,
    Procedures,
    Declaration,
    Executable,
    End,
}

/// The class of a form.
pub fn class_of(form: &Form) -> Class
    ensures { result ≡ s.class_of form.now }
{
    match form {
        Form::Head(_, _, _, _) => Class::Head,
        Form::Implicit(_) | Form::ImplicitNone => Class::Implicit,
        Form::Parameter(_) => Class::Parameter,
        Form::DataRuns(_) => Class::Data,
        Form::External(_) | Form::Intrinsic(_) => Class::Procedures,
        Form::Typed(_, _) | Form::Dimension(_) | Form::Common(_) | Form::Save(_, _) => {
            Class::Declaration
        }
        Form::End => Class::End,
        _ => Class::Executable,
    }
}

/// Whether a form is RETURN, or a logical IF with one in it.
pub fn has_return(form: &Form) -> bool
    ensures { result ≡ s.has_return form.now }
{
    match form {
        Form::Return => true,
        Form::LogicalIf(_, inner) => has_return(inner.get()),
        _ => false,
    }
}

pub fn is_specification(class: Class) -> bool
    ensures { result ≡ o.is_specification class }
{
    match class {
        Class::Implicit | Class::Parameter | Class::Procedures | Class::Declaration => true,
        _ => false,
    }
}

pub fn bars_implicit(class: Class) -> bool
    ensures { result ≡ o.bars_implicit class }
{
    match class {
        Class::Procedures | Class::Declaration => true,
        _ => false,
    }
}

pub fn is_executable(class: Class) -> bool
    ensures { result ≡ o.is_executable class }
{
    match class {
        Class::Executable => true,
        _ => false,
    }
}

pub fn bars_block_data(class: Class) -> bool
    ensures { result ≡ o.bars_block_data class }
{
    match class {
        Class::Executable | Class::Procedures => true,
        _ => false,
    }
}

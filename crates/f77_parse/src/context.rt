//! What the statements before one leave open for it.
ghost use Rattle.std.specs.Prelude.{◌≡◌, MatchOption};
ghost use Rattle.f77_parse.specs.Context as c;

use super::class::{
    Class, bars_block_data, bars_implicit, class_of, has_return, is_executable, is_specification,
};
use f77_tree::{Form, UnitKind};

/// The kind of the unit, whether no statement stands before, whether one stands there that no IMPLICIT may follow, and
/// whether an executable one does.
#[derive(Clone, Copy, Debug, Drop)]
pub struct Context {
    pub kind: UnitKind,
    pub first: bool,
    pub declared: bool,
    pub executed: bool,
}

fn is_head(class: Class) -> bool
    ensures { result ≡ c.is_head class }
{
    matches!(class, Class::Head)
}

fn is_implicit(class: Class) -> bool
    ensures { result ≡ c.is_implicit class }
{
    matches!(class, Class::Implicit)
}

fn is_block_data(kind: UnitKind) -> bool
    ensures { result ≡ c.is_block_data kind }
{
    matches!(kind, UnitKind::BlockData)
}

fn is_main(kind: UnitKind) -> bool
    ensures { result ≡ c.is_main kind }
{
    matches!(kind, UnitKind::Main)
}

/// Whether a statement of a form breaks the order of statements.
pub fn breaks_order(context: Context, form: &Form) -> bool
    ensures { result ≡ c.breaks_order context form.now }
{
    let class = class_of(form);
    (is_head(class) && !context.first)
        || (is_implicit(class) && context.declared)
        || (is_specification(class) && context.executed)
        || (is_block_data(context.kind) && bars_block_data(class))
        || (is_main(context.kind) && has_return(form))
}

/// The context behind a statement with this form, or with none.
pub fn behind(context: Context, form: &Option<Form>) -> Context
    ensures { result ≡ c.behind context form.now }
{
    let Some(form) = form else {
        return Context {
            kind: context.kind,
            first: false,
            declared: context.declared,
            executed: context.executed,
        };
    };
    let class = class_of(form);
    Context {
        kind: context.kind,
        first: false,
        declared: context.declared || bars_implicit(class),
        executed: context.executed || is_executable(class),
    }
}

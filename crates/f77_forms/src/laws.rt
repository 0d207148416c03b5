//! Laws of the definitions.
ghost use Rattle.f77_forms.specs.Laws as l;

use f77_expr::readings_law;

/// A text has at most one form, and at most one kind.
pub fn forms_law()
    ensures form { l.OneForm }
    ensures kind { l.OneKind }
{
    readings_law();
}

//! Laws of the grammar.
ghost use Rattle.f77_expr.specs.OneReading as o;

/// What is read is unique: one tree for one prefix of the tokens, one expression where two end at places at which
/// nothing goes on, and one list with one end. An expression takes tokens, and an end of the tokens is no deeper than
/// all of them.
pub fn readings_law()
    ensures tree { o.OneTree }
    ensures settled { o.OneSettled }
    ensures list { o.OneList }
    ensures items { o.OneItems }
    ensures taken { o.TakesTokens }
    ensures depth { o.EndsNoDeeper }
{}

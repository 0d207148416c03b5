//! Laws of the definitions.
ghost use Rattle.f77_expr.specs.Laws as l;

/// A text has one list of pieces, and at most one list of tokens.
pub fn lexes_law()
    ensures pieces { l.PiecesAreUnique }
    ensures unique { l.TokensAreUnique }
{}

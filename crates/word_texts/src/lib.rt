//! Programs of texts stay in 64 bits.
//!
//! `word_laws` asks of trees that their integers have 64 bits. Those of a text do, since digits of 2^63 and more are no
//! token: what a token is (`f77_expr`) is followed through the grammar of expressions and the forms of statements.
//!
//! - `texts_law` trees: the integers in the trees of accepted units have 64 bits.
//! - `texts_law` stays: so from an input of such integers each INTEGER cell of an accepted program's run stays in 64
//!   bits, at every number of steps.
#![tactic(auto)]

ghost use Rattle.word_texts.specs.Laws.{AcceptedHaveWord64, AcceptedStayInWord64};

/// The integers of an accepted text have 64 bits, and from an input of such integers its runs stay in 64 bits.
pub fn texts_law()
    ensures trees { AcceptedHaveWord64 }
    ensures stays { AcceptedStayInWord64 }
{}

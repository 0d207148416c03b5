//! How deep parentheses stand in each other.
ghost use Rattle.std.specs.Prelude.{◌≡◌};
ghost use Rattle.f77_expr.specs.Depth as d;

use super::token::{Kind, Token};

/// How many parentheses stand in each other at most. One that closes nothing is passed over, and behind one that isn't
/// closed everything is inside.
#[tactic(auto, unfolding(crate::specs::Depth::deepest))]
pub(crate) fn depth(tokens: &[Token]) -> usize
    ensures deepest { result ≡ d.deepest tokens.now }
{
    let mut now: usize = 0;
    let mut most: usize = 0;
    for token in tokens {
        match token.kind() {
            Kind::Open => now += 1,
            Kind::Close => now = now.saturating_sub(1),
            _ => {}
        }
        most = most.max(now);
    }
    most
}

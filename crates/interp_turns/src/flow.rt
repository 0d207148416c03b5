//! What follows statements and DOs.
ghost use Rattle.std.specs.Prelude.{◌≡◌, ◌<◌, length};
ghost use Rattle.f77_flow.specs.Graph as g;
ghost use Rattle.interp_turns.specs.Places.{point_of, IsWithin};

use super::here::Point;
use f77_flow::Control;

/// What follows statement k where it doesn't jump.
#[tactic(auto, using(crate::proofs::Advances::advances))]
pub fn after(control: &Control, k: usize) -> Point
    requires { k < length control.now.statements.now }
    ensures value { point_of result ≡ g.after control.now.statements.now k }
    ensures within { IsWithin (length control.now.statements.now) result }
{
    let d = control.innermost(k) as usize;
    if d < control.statements.len() {
        Point::Advance(d)
    } else {
        Point::At(control.below(k) as usize)
    }
}

/// What follows where the DO at d is left.
#[tactic(auto, using(crate::proofs::Advances::advances))]
pub fn leaving(control: &Control, d: usize) -> Point
    requires { d < length control.now.statements.now }
    ensures value { point_of result ≡ g.leaving control.now.statements.now d }
    ensures within { IsWithin (length control.now.statements.now) result }
{
    let count = control.statements.len();
    let last = control.last(d) as usize;
    let outer = control.outer(d) as usize;
    if outer < count {
        Point::Advance(outer)
    } else if last < count {
        Point::At(control.below(last) as usize)
    } else {
        // a DO without a last statement
        Point::At(last + 1)
    }
}

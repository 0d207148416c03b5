//! The pieces of a unit, by the numbers of their statements.
ghost use Rattle.std.specs.Prelude.{◌≡◌, ◌<◌, length, option_map, MatchOption, IfSome, OnOk};
ghost use Rattle.f77_semantics.specs.Program as program;
ghost use Rattle.f77_semantics.specs.Statements as s;
ghost use Rattle.interp_steps.specs.Frames.{frame_of};
ghost use Rattle.interp_turns.specs.Flows.{variable_of};
ghost use Rattle.interp_turns.specs.Places.{here_of, Stands};
ghost use Rattle.interp_turns.specs.Turns.{Turns};
ghost use Rattle.interp_lower.specs.Lines.{IsLine, IsPiece};
ghost use Rattle.interp_lower.specs.Units.{StandsFor};
ghost use Rattle.interp_calls.specs.Procedures as p;

use super::procedure::Procedure;
use f77_semantics::Base;
use f77_tree::Ty;
use interp_code::Ending;
use interp_lower::{Line, Piece, Routine};
use interp_steps::{Frame, State, Stop};
use interp_turns::{Here, Turn, advance};
use std::alloc::Global;

/// A statement to be performed: its number, and its piece.
#[derive(Clone, Copy)]
pub struct Numbered<'p> {
    pub number: usize,
    pub piece: &'p Piece,
}

fn line<'p, 'u>(procedure: &'p Procedure<'u>, k: usize) -> Option<&'p Line>
    ensures within { IfSome result (λ _. k < length procedure.now.control.statements.now) }
    ensures line { p.InEach procedure.now (λ u. MatchOption result (s.statement u k ≡ program.NoStatement) (λ l. IsLine l.now (s.statement u k))) }
{
    if k < procedure.control.statements.len() {
        let lines = procedure.routine.lines.as_slice();
        lines.get(k)
    } else {
        None
    }
}

/// The piece of statement k.
pub fn piece<'p, 'u>(procedure: &'p Procedure<'u>, k: usize) -> Option<&'p Piece>
    ensures within { IfSome result (λ _. k < length procedure.now.control.statements.now) }
    ensures piece { p.InEach procedure.now (λ u. MatchOption result (s.statement u k ≡ program.NoStatement) (λ x. IsPiece x.now (s.statement u k))) }
{
    match line(procedure, k) {
        Some(line) => Some(&line.piece),
        None => None,
    }
}

/// The piece inside the logical IF at k.
pub fn inner_piece<'p, 'u>(procedure: &'p Procedure<'u>, k: usize) -> Option<&'p Piece>
    ensures within { IfSome result (λ _. k < length procedure.now.control.statements.now) }
    ensures piece { p.InEach procedure.now (λ u. MatchOption result (s.inner (s.statement u k) ≡ program.NoStatement)
        (λ x. IsPiece x.now (s.inner (s.statement u k)))) }
{
    match line(procedure, k) {
        Some(line) => line.inner.as_ref(),
        None => None,
    }
}

/// Where the result of a function stands.
pub fn variable(routine: &Routine) -> Option<(Ty, &Base)>
    ensures { (u : program.Routine) → StandsFor routine.now u → u.result ≡ option_map variable_of result }
{
    match &routine.result {
        Some((ty, base)) => Some((*ty, base)),
        None => None,
    }
}

/// The advance of the DO at k, and its test.
pub fn advance_at<'p, 'u>(
    alloc: Global,
    procedure: &'p Procedure<'u>,
    frame: &Frame<'p>,
    k: usize,
    here: &mut Here,
    state: &mut State,
) -> Result<Turn, Stop>
    requires stands { Stands (length procedure.now.control.statements.now) here.old }
    ensures turn { p.InEach procedure.now (λ u. Turns result here.new state.old state.new
        (s.advance u (frame_of frame.now) (here_of here.old) k (s.statement u k))) }
    ensures stands { OnOk result (Stands (length procedure.now.control.statements.now) here.new) }
{
    match piece(procedure, k) {
        Some(piece) => match &piece.ending {
            Ending::Count(base) => {
                advance(alloc, &procedure.control, frame, base, k, here, state)
            }
            _ => Err(Stop::Stuck),
        },
        None => Err(Stop::Stuck),
    }
}

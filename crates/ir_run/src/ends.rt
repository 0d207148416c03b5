//! The ends of blocks.
ghost use Rattle.std.specs.Prelude.{◌≡◌};
ghost use Rattle.interp_steps.specs.Stops.{Gives};
ghost use Rattle.ir_core.specs.Runs as r;
ghost use Rattle.ir_run.specs.Images.{temporaries_of};
ghost use Rattle.ir_run.specs.Ends.{after_of};

use super::values::{Content, value, word};
use f77_tree::{Ty, Value};
use interp_steps::Stop;
use ir_core::End;

/// What a visit of a block leads to: another block, or the answer to the caller.
#[derive(Clone, Copy, Debug, Drop, PartialEq, Eq)]
pub enum Turn {
    Again(u32),
    Result(Option<Value>),
}

fn chosen(x: i64, to: u32, other: u32) -> u32
    ensures { result ≡ r.chosen x to other }
{
    if x == 0 { other } else { to }
}

fn label(labels: &[u32], x: i64) -> Option<u32>
    ensures { result ≡ r.label labels.now x }
{
    if x < 1 {
        return None;
    }
    labels.get((x - 1) as usize).copied()
}

fn labelled(labels: &[u32], x: i64, other: u32) -> u32
    ensures { result ≡ r.labelled labels.now x other }
{
    match label(labels, x) {
        Some(to) => to,
        None => other,
    }
}

fn answer(temporaries: &[Option<Content>], value_of: Option<(Ty, u32)>) -> Result<Turn, Stop>
    ensures { Gives result (λ t. after_of t (temporaries_of temporaries.now)) (r.returned value_of (temporaries_of temporaries.now)) }
{
    match value_of {
        None => Ok(Turn::Result(None)),
        Some((ty, from)) => {
            let value = value(temporaries, ty, from)?;
            Ok(Turn::Result(Some(value)))
        }
    }
}

fn branch(temporaries: &[Option<Content>], from: u32, to: u32, other: u32) -> Result<Turn, Stop>
    ensures { Gives result (λ t. after_of t (temporaries_of temporaries.now)) (r.branched from to other (temporaries_of temporaries.now)) }
{
    let x = word(temporaries, from)?;
    Ok(Turn::Again(chosen(x, to, other)))
}

fn switch(
    temporaries: &[Option<Content>],
    from: u32,
    labels: &[u32],
    other: u32,
) -> Result<Turn, Stop>
    ensures { Gives result (λ t. after_of t (temporaries_of temporaries.now)) (r.switched from labels.now other (temporaries_of temporaries.now)) }
{
    let x = word(temporaries, from)?;
    Ok(Turn::Again(labelled(labels, x, other)))
}

/// What the end of a block leads to.
pub fn end(temporaries: &[Option<Content>], end: &End) -> Result<Turn, Stop>
    ensures { Gives result (λ t. after_of t (temporaries_of temporaries.now)) (r.ending end.now (temporaries_of temporaries.now)) }
{
    match end {
        End::Jump(to) => Ok(Turn::Again(*to)),
        End::Branch(from, to, other) => branch(temporaries, *from, *to, *other),
        End::Switch(from, labels, other) => {
            switch(temporaries, *from, labels.as_slice(), *other)
        }
        End::Return(value) => answer(temporaries, *value),
        End::Exit(status) => Err(Stop::Ended(*status)),
    }
}

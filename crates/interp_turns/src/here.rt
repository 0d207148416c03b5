//! Where an activation is.
ghost use Rattle.std.specs.Prelude.{◌≡◌, ◌<◌, length, pos, slice_index_or, IfOk};
ghost use Rattle.f77_flow.specs.Graph as g;
ghost use Rattle.f77_semantics.specs.Statements as s;
ghost use Rattle.interp_turns.specs.Places.{here_of, loop_of, Stands};

use std::alloc::{AllocError, Global};

/// A place at which a step begins, by the number of a statement: the statement, the one inside the logical IF there, the first test of
/// the DO there, its advance with a test.
#[derive(Clone, Copy, Debug, Drop, PartialEq, Eq)]
pub enum Point {
    At(usize),
    Inside(usize),
    Test(usize),
    Advance(usize),
}

/// How often the range of a DO is still to be run, and its step.
#[derive(Clone, Copy, Debug, Drop, PartialEq, Eq)]
pub struct Loop {
    pub count: u64,
    pub step: i64,
}

/// Where an activation is, with a loop for each statement.
#[derive(Drop)]
pub struct Here {
    pub point: Point,
    pub loops: Vec<Loop>,
}

impl Here {
    /// The beginning of a unit of so many statements, which begins with the statement `first`.
    pub fn new(alloc: Global, first: usize, statements: usize) -> Result<Here, AllocError>
        ensures place { IfOk result (λ here. here_of here ≡ record { point = g.At first; loops = λ k. record { count = 0; step = pos 1 } }) }
        ensures stands { IfOk result (λ here. Stands statements here) }
    {
        let loops = vec![in alloc; Loop { count: 0, step: 1 }; statements]?;
        Ok(Here {
            point: Point::At(first),
            loops,
        })
    }

    /// What is left of the DO at k.
    pub fn get(&self, k: usize) -> Loop
        ensures { result ≡ slice_index_or self.now.loops.items k (record { count = 0; step = pos 1 }) }
    {
        match self.loops.get(k) {
            Some(found) => *found,
            None => Loop { count: 0, step: 1 },
        }
    }

    /// Sets what is left of the DO at k.
    pub fn set(&mut self, k: usize, left: Loop)
        requires { k < length self.old.loops.items }
        ensures place { here_of self.new ≡ record { point = (here_of self.old).point; loops = s.set_loop k (loop_of left) (here_of self.old).loops } }
        ensures loops { length self.new.loops.items ≡ length self.old.loops.items }
        ensures point { self.new.point ≡ self.old.point }
    {
        self.loops[k] = left;
    }
}

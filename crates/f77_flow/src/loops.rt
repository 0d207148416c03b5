//! The loops of a unit, and the DOs that end at each statement.
ghost use Rattle.std.specs.Prelude.{◌≡◌, ℕ, suc, ◌<◌, ◌^◌, List as Lists, length, IfOk, OnOk};
ghost use Rattle.f77_tree.specs.declared.unit.Stmt.{Stmt};
ghost use Rattle.f77_flow.specs.Labels as l;
ghost use Rattle.f77_flow.specs.Next as n;
ghost use Rattle.f77_flow.specs.Tables as t;

use crate::table::{filled, number_at};
use f77_tree::List;
use std::alloc::{AllocError, Global};

/// A DO statement and the last statement of its range.
#[derive(Clone, Copy, Debug, Drop, PartialEq, Eq)]
pub struct Loop {
    pub head: u32,
    pub last: u32,
}

/// For each statement the innermost DO that ends there, and for each DO the next around it that ends where it does.
#[derive(Drop)]
pub struct Ends {
    pub innermost: List<u32>,
    pub outer: List<u32>,
}

impl Ends {
    // Takes the DO at d behind those that were seen. What is no DO has `none` as its last statement.
    fn add(&mut self, last: u32, d: u32, none: u32) -> Result<(), AllocError>
        ensures { OnOk result ((u : Lists Stmt) → none ≡ length u → last ≡ l.last_of u d → t.AreEnds u d self.old → t.AreEnds u (suc d) self.new) }
    {
        let at = last as usize;
        self.outer.push(number_at(&self.innermost, at, none))?;
        if at < self.innermost.len() {
            self.innermost.set(at, d);
        }
        Ok(())
    }
}

/// The DOs that end at each statement, by the last statement of each.
pub fn ends_of(alloc: Global, lasts: &[u32]) -> Result<Ends, AllocError>
    requires { length lasts.now < 2 ^ 32 }
    ensures { IfOk result (λ ends. (u : Lists Stmt) → t.IsTable (l.last_of u) (length u) lasts.now → t.AreEnds u (length u) ends) }
{
    let none = lasts.len() as u32;
    let mut ends = Ends {
        innermost: filled(alloc, none, lasts.len())?,
        outer: List::new(alloc),
    };
    for d in 0..lasts.len() {
        ends.add(lasts[d], d as u32, none)?;
    }
    Ok(ends)
}

/// The loops in the order of their DO statements, by the last statement of each.
pub fn loops_of(alloc: Global, lasts: &[u32]) -> Result<List<Loop>, AllocError>
    requires { length lasts.now < 2 ^ 32 }
    ensures { IfOk result (λ loops. (u : Lists Stmt) → t.IsTable (l.last_of u) (length u) lasts.now → loops ≡ n.loops u) }
{
    let mut loops = List::new(alloc);
    for d in 0..lasts.len() {
        let last = lasts[d];
        if (last as usize) < lasts.len() {
            loops.push(Loop {
                head: d as u32,
                last,
            })?;
        }
    }
    Ok(loops)
}

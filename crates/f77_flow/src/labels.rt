//! The statements that labels mean, by passes from the last statement to the first.
ghost use Rattle.std.specs.Prelude.{◌≡◌, ℕ, suc, ◌<◌, ◌^◌, ◌&&◌, ◌==◌, List as Lists, [], ◌∷◌, length, nat_lt, drop, slice_get, Some, if◌then◌else◌, IfOk, OnOk};
ghost use Rattle.f77_tree.specs.declared.unit.Stmt.{Stmt};
ghost use Rattle.f77_flow.specs.Labels as l;
ghost use Rattle.f77_flow.specs.Tables as t;

use crate::kinds::{Kind, kind_of};
use crate::table::filled;
use f77_tree::{List, Stmt};
use std::alloc::{AllocError, Global};
use std::collections::BTreeMap;

/// Numbers of statements by their labels, and the number that stands for none.
#[derive(Drop)]
pub struct Labels {
    numbers: BTreeMap<u32, u32>,
    none: u32,
}

impl Labels {
    fn new(alloc: Global, none: u32) -> Labels
        ensures none { result.none ≡ none }
        ensures empty { (label : ℕ) → t.number_of result label ≡ none }
    {
        Labels {
            numbers: BTreeMap::new(alloc),
            none,
        }
    }

    /// The statement that the label means.
    pub fn number(&self, label: u32) -> u32
        ensures { result ≡ t.number_of self.now label }
    {
        match self.numbers.get(&label) {
            Some(number) => *number,
            None => self.none,
        }
    }

    // From now on the label means statement k. 0 is no label.
    fn put(&mut self, label: u32, k: u32) -> Result<(), AllocError>
        ensures none { self.new.none ≡ self.old.none }
        ensures number { OnOk result ((q : ℕ) → t.number_of self.new q ≡ (if nat_lt 0 q && q == label then k else t.number_of self.old q)) }
    {
        if label != 0 {
            self.numbers.insert(label, k)?;
        }
        Ok(())
    }
}

/// The statements that jumps go to, by their labels.
pub fn targets_of(alloc: Global, statements: &[Stmt]) -> Result<Labels, AllocError>
    requires { length statements.now < 2 ^ 32 }
    ensures { IfOk result (λ targets. t.Mean l.is_target targets 0 statements.now) }
{
    let mut targets = Labels::new(alloc, statements.len() as u32);
    let mut k = statements.len();
    'place: while k > 0 {
        k -= 1;
        put_target(&mut targets, &statements[k], k as u32)?;
    }
    Ok(targets)
}

// Takes statement k before those that were seen.
fn put_target(targets: &mut Labels, s: &Stmt, k: u32) -> Result<(), AllocError>
    ensures { OnOk result ((ss : Lists Stmt) → t.Mean l.is_target targets.old (suc k) ss → t.Mean l.is_target targets.new k (s.now ∷ ss)) }
{
    match kind_of(&s.form) {
        Kind::Declaration => Ok(()),
        _ => targets.put(s.label, k),
    }
}

/// The last statement of the DO at each statement.
pub fn lasts_of(alloc: Global, statements: &[Stmt]) -> Result<List<u32>, AllocError>
    requires { length statements.now < 2 ^ 32 }
    ensures { IfOk result (λ lasts. t.IsTable (l.last_of statements.now) (length statements.now) lasts) }
{
    let none = statements.len() as u32;
    let mut labels = Labels::new(alloc, none);
    let mut lasts = filled(alloc, none, statements.len())?;
    let mut k = statements.len();
    'place: while k > 0 {
        k -= 1;
        let s = &statements[k];
        lasts.set(k, last_of(&labels, s));
        put_label(&mut labels, s, k as u32)?;
    }
    Ok(lasts)
}

// Takes statement k before those that were seen.
fn put_label(labels: &mut Labels, s: &Stmt, k: u32) -> Result<(), AllocError>
    ensures none { labels.new.none ≡ labels.old.none }
    ensures mean { OnOk result ((ss : Lists Stmt) → t.Mean l.has_label labels.old (suc k) ss → t.Mean l.has_label labels.new k (s.now ∷ ss)) }
{
    labels.put(s.label, k)
}

// The last statement of the DO s, where the labels mean the first statements below it.
fn last_of(labels: &Labels, s: &Stmt) -> u32
    ensures { (u : Lists Stmt) (k : ℕ) → slice_get u k ≡ Some s.now → labels.now.none ≡ length u → t.Mean l.has_label labels.now (suc k) (drop (suc k) u) → result ≡ l.last_of u k }
{
    match kind_of(&s.form) {
        Kind::Do(label) => labels.number(label),
        _ => labels.none,
    }
}

//! Which intervals of places hold a place. They may overlap in any way. Each table is made by one pass, in which the entries that are
//! made already serve as the stack of the intervals that are open: each is left behind at most once.
ghost use Rattle.std.specs.Prelude.{◌≡◌, ℕ, suc, ◌+◌, ◌<◌, ◌≤◌, ◌^◌, List as Lists, length, slice_index, IfOk};
ghost use Rattle.check_jumps.specs.Telling.{Tells};
ghost use Rattle.check_jumps.specs.Intervals as i;

use f77_tree::List;
use std::alloc::{AllocError, Global};

// A table of `count` numbers, each of which is `number`.
fn filled(alloc: Global, number: u32, count: usize) -> Result<List<u32>, AllocError>
    ensures { IfOk result (λ table. i.IsFilled number count table) }
{
    Ok(List::from_vec(vec![in alloc; number; count]?))
}

/// For each number below that of the places the first place that has it in the table, or the number of places.
pub fn first_endings(alloc: Global, ends: &[u32]) -> Result<List<u32>, AllocError>
    requires { length ends.now < 2 ^ 32 }
    ensures { IfOk result (λ firsts. i.AreFirstEndings ends.now 0 firsts) }
{
    let mut firsts = filled(alloc, ends.len() as u32, ends.len())?;
    let mut h = ends.len();
    'place: while h > 0 {
        h -= 1;
        put_first(&mut firsts, ends[h], h as u32);
    }
    Ok(firsts)
}

// Takes place h before those behind it.
fn put_first(firsts: &mut List<u32>, end: u32, h: u32)
    ensures { (ends : Lists ℕ) → h < length ends → slice_index ends h ≡ end → i.AreFirstEndings ends (suc h) firsts.old → i.AreFirstEndings ends h firsts.new }
{
    let at = end as usize;
    if at < firsts.len() {
        firsts.set(at, h);
    }
}

// One more than the greatest place before j at which an interval begins that holds j, or 0.
fn greatest_begin(ends: &[u32], begins: &[u32], j: usize) -> u32
    requires within { j < length ends.now }
    requires small { length ends.now < 2 ^ 32 }
    requires before { i.AreGreatestBegins ends.now j begins.now }
    ensures { i.IsGreatestBegin ends.now j result }
{
    let mut m = j;
    'chain: while m > 0 {
        if ends[m - 1] as usize >= j {
            return m as u32;
        }
        m = begins[m - 1] as usize;
    }
    0
}

fn greatest_begins(alloc: Global, ends: &[u32]) -> Result<List<u32>, AllocError>
    requires { length ends.now < 2 ^ 32 }
    ensures { IfOk result (λ begins. i.AreGreatestBegins ends.now (length ends.now) begins) }
{
    let mut begins = List::new(alloc);
    for j in 0..ends.len() {
        let begin = greatest_begin(ends, begins.as_slice(), j);
        begins.push(begin)?;
    }
    Ok(begins)
}

// The least place from j on at which an interval ends that holds j, or the number of places.
fn least_end(ends: &[u32], firsts: &[u32], least: &[u32], j: usize) -> u32
    requires within { j < length ends.now }
    requires small { length ends.now < 2 ^ 32 }
    requires firsts { i.AreFirstEndings ends.now 0 firsts.now }
    requires behind { i.AreLeastEnds ends.now firsts.now (j + 1) least.now }
    ensures { i.IsLeastEnd ends.now firsts.now j result }
{
    let mut e = j;
    'chain: while e < ends.len() {
        if (firsts[e] as usize) < j {
            return e as u32;
        }
        e = least[e + 1] as usize;
    }
    ends.len() as u32
}

fn least_ends(alloc: Global, ends: &[u32], firsts: &[u32]) -> Result<List<u32>, AllocError>
    requires small { length ends.now < 2 ^ 32 }
    requires firsts { i.AreFirstEndings ends.now 0 firsts.now }
    ensures least { IfOk result (λ least. i.AreLeastEnds ends.now firsts.now 0 least) }
{
    let mut least = filled(alloc, ends.len() as u32, ends.len() + 1)?;
    let mut j = ends.len();
    'place: while j > 0 {
        j -= 1;
        let end = least_end(ends, firsts, least.as_slice(), j);
        least.set(j, end);
    }
    Ok(least)
}

/// Intervals of places, by where they begin.
pub struct Intervals {
    pub ends: List<u32>,
    firsts: List<u32>,
    begins: List<u32>,
    least: List<u32>,
    ghost right: { i.AreIntervals ends firsts begins least },
}

// A call of its own, so that who drops it doesn't open its tables.
impl Drop for Intervals {
    fn drop(self) {
        let Intervals {
            ends,
            firsts,
            begins,
            least,
        } = self;
    }
}

impl Intervals {
    /// The intervals with these ends.
    pub fn new(alloc: Global, ends: List<u32>) -> Result<Intervals, AllocError>
        requires { length ends < 2 ^ 32 }
        ensures { IfOk result (λ intervals. intervals.ends ≡ ends) }
    {
        let firsts = first_endings(alloc, ends.as_slice())?;
        Ok(Intervals {
            begins: greatest_begins(alloc, ends.as_slice())?,
            least: least_ends(alloc, ends.as_slice(), firsts.as_slice())?,
            ends,
            firsts,
        })
    }

    /// Whether an interval that holds j ends before x.
    pub fn ends_before(&self, j: usize, x: u32) -> bool
        requires place { j < length self.now.ends }
        requires within { x ≤ length self.now.ends }
        ensures { Tells result (i.EndsBefore self.now.ends j x) }
    {
        self.least.as_slice()[j] < x
    }

    /// Whether an interval holds t, and not k.
    pub fn enters(&self, k: usize, t: usize) -> bool
        requires from { k < length self.now.ends }
        requires to { t < length self.now.ends }
        ensures { Tells result (i.Enters self.now.ends k t) }
    {
        if k < t {
            return self.begins.as_slice()[t] as usize > k;
        }
        (self.least.as_slice()[t] as usize) < k
    }
}

//! Lists without repeats.
ghost use Rattle.std.specs.Prelude.{◌≡◌, ◌<◌, ◌≤◌, [], length, IfOk, OnOk};
ghost use Rattle.std.specs.List.{All};
ghost use Rattle.f77_flow.specs.Next as n;
ghost use Rattle.f77_flow.specs.Adding as a;

use f77_tree::List;
use std::alloc::{AllocError, Global};

// Adds the number where the list doesn't have it. The marks tell what it has.
fn add_once(
    list: &mut List<u32>,
    number: u32,
    marks: &mut List<u32>,
    stamp: u32,
) -> Result<(), AllocError>
    requires { number < length marks.old }
    ensures long { length marks.new ≡ length marks.old }
    ensures list { OnOk result (a.AreMarks marks.old stamp list.old → list.new ≡ n.add_once list.old number) }
    ensures marks { OnOk result (a.AreMarks marks.old stamp list.old → a.AreMarks marks.new stamp list.new) }
{
    let at = number as usize;
    if marks.as_slice()[at] != stamp {
        marks.set(at, stamp);
        list.push(number)?;
    }
    Ok(())
}

/// Each number where it stands first. Each mark is below the stamp, and then at most that.
pub fn once(
    alloc: Global,
    numbers: &[u32],
    marks: &mut List<u32>,
    stamp: u32,
) -> Result<List<u32>, AllocError>
    requires within { All (λ j. j < length marks.old) numbers.now }
    requires fresh { All (λ mark. mark < stamp) marks.old }
    ensures once { IfOk result (λ list. list ≡ n.once numbers.now) }
    ensures long { length marks.new ≡ length marks.old }
    ensures most { OnOk result (All (λ mark. mark ≤ stamp) marks.new) }
{
    let mut list = List::new(alloc);
    for number in numbers {
        add_once(&mut list, *number, marks, stamp)?;
    }
    Ok(list)
}

//! Faults of one unit, and which comes first.
ghost use Rattle.std.specs.Prelude.{◌≡◌};
ghost use Rattle.fault_marks.specs.Marks as m;
ghost use Rattle.fault_marks.specs.Earliest as e;

/// A fault of a unit: its line, its number, and the limit that it tells (0 in all but fault 37).
#[derive(Clone, Copy, Debug, Drop, PartialEq, Eq)]
pub struct Mark {
    pub line: u32,
    pub number: u8,
    pub limit: u64,
}

fn comes_first(a: Mark, b: Mark) -> bool
    ensures { result ≡ m.comes_first a b }
{
    if a.line != b.line {
        return a.line < b.line;
    }
    if a.number != b.number {
        return a.number < b.number;
    }
    b.limit <= a.limit
}

/// The first of two faults, as far as there are any: by line, then by number, then that of the greater limit.
pub fn first_of(a: Option<Mark>, b: Option<Mark>) -> Option<Mark>
    ensures first { result ≡ e.first_of a b }
{
    let Some(x) = a else {
        return b;
    };
    let Some(y) = b else {
        return a;
    };
    if comes_first(x, y) { a } else { b }
}

/// A fault, where it holds.
pub fn mark_if(holds: bool, line: u32, number: u8, limit: u64) -> Option<Mark>
    ensures mark { result ≡ e.mark_if holds line number limit }
{
    if !holds {
        return None;
    }
    Some(Mark {
        line,
        number,
        limit,
    })
}

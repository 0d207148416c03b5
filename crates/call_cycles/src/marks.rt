//! Faults of a program, and which comes first.
ghost use Rattle.std.specs.Prelude.{◌≡◌, ◌==◌, nat_lt, nat_le};
ghost use Rattle.call_cycles.specs.Marks as m;

/// A fault of a program: its number, the limit that it tells (0 in all but fault 37), the place of its unit in the list, if it has one, and its line there.
#[derive(Clone, Copy, Debug, Drop)]
pub struct ProgramMark {
    pub number: u8,
    pub limit: u64,
    pub unit: Option<usize>,
    pub line: u32,
}

/// A fault by its number, its limit, the place of its unit and its line.
pub fn mark_at(number: u8, limit: u64, unit: Option<usize>, line: u32) -> ProgramMark
    ensures { result ≡ m.mark_at number limit unit line }
{
    ProgramMark {
        number,
        limit,
        unit,
        line,
    }
}

fn is_same(a: Option<usize>, b: Option<usize>) -> bool
    ensures { result ≡ (m.unit_place a == m.unit_place b) }
{
    match (a, b) {
        (None, None) => true,
        (Some(x), Some(y)) => x == y,
        _ => false,
    }
}

fn is_before(a: Option<usize>, b: Option<usize>) -> bool
    ensures { result ≡ nat_lt (m.unit_place a) (m.unit_place b) }
{
    match (a, b) {
        (None, Some(_)) => true,
        (Some(x), Some(y)) => x < y,
        _ => false,
    }
}

fn place_first(a: ProgramMark, b: ProgramMark) -> bool
    ensures { result ≡ m.ordered (m.unit_place a.unit) (m.unit_place b.unit) (nat_le a.line b.line) }
{
    if is_same(a.unit, b.unit) {
        return a.line <= b.line;
    }
    is_before(a.unit, b.unit)
}

fn comes_first(a: ProgramMark, b: ProgramMark) -> bool
    ensures { result ≡ m.comes_first a b }
{
    if a.number != b.number {
        return a.number < b.number;
    }
    if a.limit != b.limit {
        return a.limit < b.limit;
    }
    place_first(a, b)
}

/// The first of two faults, as far as there are any.
pub fn first_of(a: Option<ProgramMark>, b: Option<ProgramMark>) -> Option<ProgramMark>
    ensures { result ≡ m.first_of a b }
{
    let Some(x) = a else {
        return b;
    };
    let Some(y) = b else {
        return a;
    };
    if comes_first(x, y) { a } else { b }
}

use super::{Mark, earliest_flagged, first_of};
use f77_tree::{Form, List, Stmt};
use std::alloc::{AllocError, Global};
use std::test::Fail;

/// Two faults, and whether the first of them is the one on the left.
static PAIRS: [((u32, u8, u64), (u32, u8, u64), bool); 5] = [
    ((2, 19, 0), (3, 12, 0), true),
    ((3, 12, 0), (2, 19, 0), false),
    ((3, 21, 0), (3, 19, 0), false),
    ((1, 37, 20000), (1, 37, 63), true),
    ((1, 37, 63), (1, 37, 20000), false),
];

fn mark(fault: (u32, u8, u64)) -> Mark {
    Mark {
        line: fault.0,
        number: fault.1,
        limit: fault.2,
    }
}

#[test]
fn goes_by_line_then_number_then_limit(rt: HostRuntime) -> Result<(), Fail> {
    for row in &PAIRS {
        let (a, b, left) = *row;
        let (a, b) = (mark(a), mark(b));
        let first = first_of(Some(a), Some(b));
        assert!(rt; first == Some(if left { a } else { b }));
    }
    Ok(())
}

fn statements(alloc: Global, lines: &[u32]) -> Result<List<Stmt>, AllocError> {
    let mut all = List::new(alloc);
    for line in lines {
        all.push(Stmt {
            label: 0,
            line: *line,
            form: Form::Continue,
        })?;
    }
    Ok(all)
}

/// The lines of a unit need not rise.
#[test]
fn takes_the_least_line_of_those_flagged(rt: HostRuntime) -> Result<(), Fail> {
    let all = statements(rt.alloc(), &[1, 9, 4, 7])?;
    let found = earliest_flagged(all.as_slice(), &[false, true, false, true], 14, 0);
    assert!(rt; found == Some(mark((7, 14, 0))));
    assert!(rt; earliest_flagged(all.as_slice(), &[false; 4], 14, 0) == None);
    Ok(())
}

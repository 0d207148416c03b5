//! The words of a command line.
ghost use Rattle.std.specs.Prelude.{◌≡◌, ℕ};
ghost use Rattle.rn_session.specs.Words.{number_of, steps_of};

use fixed_form::List;

// The greatest number of steps: 2^63 - 1.
const MOST: u64 = 9_223_372_036_854_775_807;

/// The number that decimal digits say, where it is below 2^63.
#[tactic(auto, using(crate::proofs::Numbers::number_by_digits))]
fn number(digits: &[u8]) -> Option<u64>
    ensures { result ≡ number_of digits.now }
{
    if digits.is_empty() {
        return None;
    }
    let mut value = 0u64;
    for &digit in digits {
        if digit < b'0' || digit > b'9' {
            return None;
        }
        let next = value.checked_mul(10)?.checked_add((digit - b'0') as u64)?;
        if next > MOST {
            return None;
        }
        value = next;
    }
    Some(value)
}

/// The steps that the words `one STEPS` ask for.
pub fn steps(words: &[List<u8>]) -> Option<u64>
    ensures { result ≡ steps_of words.now }
{
    match words {
        [word, digits] if word.as_slice() == b"one".as_slice() => number(digits.as_slice()),
        _ => None,
    }
}

//! Labels as they are written in a text.
ghost use Rattle.std.specs.Prelude.{◌≡◌, ◌≤◌, true, length};
ghost use Rattle.std.specs.List.{list_all};
ghost use Rattle.f77_expr.specs.Spelling as p;
ghost use Rattle.form_kinds.specs.StatementKinds as k;

/// Whether a byte is a digit.
pub fn is_digit(b: u8) -> bool
    ensures { result ≡ p.is_digit b }
{
    b >= b'0' && b <= b'9'
}

/// How many digits stand at the front.
pub fn digit_run(text: &[u8]) -> usize
    ensures { k.IsDigitRun text.now result }
{
    'byte: for i in 0..text.len() {
        if !is_digit(text[i]) {
            return i;
        }
    }
    text.len()
}

fn with_digit(value: u32, b: u8) -> u32
    requires small { value ≤ 10000 }
    requires digit { p.is_digit b ≡ true }
    ensures { result ≡ p.with_digit value b }
{
    10 * value + u32::from(b - b'0')
}

/// The label that these digits write.
pub fn label_of(digits: &[u8]) -> u32
    requires few { length digits.now ≤ 5 }
    requires digits { list_all p.is_digit digits.now ≡ true }
    ensures { result ≡ p.value_of digits.now }
{
    let mut value: u32 = 0;
    for b in digits {
        value = with_digit(value, *b);
    }
    value
}

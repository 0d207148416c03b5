//! Lines by their columns.
ghost use Rattle.std.specs.Prelude.{◌≡◌, ◌≤◌, ◌<◌, ◌+◌, ◌*◌, ◌||◌, ◌&&◌, ◌==◌, not, ◌++◌, length, map, option_to_list, slice_index_or, IfOk, OnOk};
ghost use Rattle.std.specs.List.{list_all, list_any, range_with_len};
ghost use Rattle.fixed_form.specs.Cards as c;

use f77_tree::List;
use std::alloc::{AllocError, Global};

#[tactic(auto, using(crate::proofs::Padding::by_columns))]
/// Columns 1 to 72 of a line, which is filled with blanks where it is shorter.
pub fn columns(alloc: Global, line: &[u8]) -> Result<Vec<u8>, AllocError>
    ensures card { IfOk result (λ card. card.items ≡ c.columns line.now) }
    ensures long { IfOk result (λ card. length card.items ≡ 72) }
{
    by_index(alloc, line)
}

fn by_index(alloc: Global, line: &[u8]) -> Result<Vec<u8>, AllocError>
    ensures { IfOk result (λ card. card.items ≡ map (λ k. slice_index_or line.now k 32) (range_with_len 0 72)) }
{
    (0..72usize).map(|k| byte_at(line, k)).collect(alloc)
}

fn byte_at(line: &[u8], k: usize) -> u8
    ensures { result ≡ slice_index_or line.now k 32 }
{
    if k < line.len() { line[k] } else { b' ' }
}

/// Whether these columns are blank.
#[tactic(auto, unfolding(crate::specs::Cards::is_blank))]
pub fn is_blank(part: &[u8]) -> bool
    ensures { result ≡ c.is_blank part.now }
{
    part.iter().all(|b| *b == b' ')
}

#[tactic(auto, using(crate::proofs::Padding::comment_in_place))]
/// Whether a line is a comment line. It is looked at in place.
pub fn is_comment_line(line: &[u8]) -> bool
    ensures { result ≡ c.is_comment (c.columns line.now) }
{
    let first = byte_at(line, 0);
    let (seen, _) = line.split_at(line.len().min(72));
    first == b'C' || first == b'c' || first == b'*' || is_blank(seen)
}

/// What a byte leaves: outside literals nothing of a blank and its capital of a small letter, else itself.
fn kept(inside: bool, b: u8) -> Option<u8>
    ensures { option_to_list result ≡ c.kept inside b }
{
    if inside {
        Some(b)
    } else if b == b' ' {
        None
    } else if b >= b'a' && b <= b'z' {
        Some(b - 32)
    } else {
        Some(b)
    }
}

fn inside_after(inside: bool, b: u8) -> bool
    ensures { result ≡ c.inside_after inside b }
{
    if b == b'\'' { !inside } else { inside }
}

fn push_kept(text: &mut List<u8>, inside: bool, b: u8) -> Result<(), AllocError>
    ensures { OnOk result (text.new ≡ text.old ++ c.kept inside b) }
{
    if let Some(byte) = kept(inside, b) {
        text.push(byte)?;
    }
    Ok(())
}

/// Adds to a statement text what these columns leave, the first of which is inside a literal or not. The answer tells
/// whether the place behind them is inside.
pub fn push_text(text: &mut List<u8>, inside: bool, part: &[u8]) -> Result<bool, AllocError>
    ensures text { IfOk result (λ behind. text.new ≡ text.old ++ c.text_from inside part.now) }
    ensures inside { IfOk result (λ behind. behind ≡ c.inside_from inside part.now) }
{
    let mut behind = inside;
    for b in part {
        push_kept(text, behind, *b)?;
        behind = inside_after(behind, *b);
    }
    Ok(behind)
}

/// What a line is by itself.
#[derive(Clone, Copy, Debug, Drop, PartialEq, Eq)]
pub enum LineKind {
    Comment,
    Initial,
    End,
    Continuation,
    /// An initial line whose columns 1 to 5 are no label.
    BadLabel,
    /// A continuation line whose columns 1 to 5 aren't blank. It goes on with literals as any other.
    LabelledContinuation,
}

fn is_strange(b: u8) -> bool
    ensures { result ≡ c.is_strange b }
{
    b < 32 || b >= 127
}

fn strange_at(inside: bool, b: u8) -> bool
    ensures { result ≡ (not inside && c.is_strange b) }
{
    !inside && is_strange(b)
}

fn has_strange(inside: bool, field: &[u8]) -> bool
    ensures { result ≡ c.has_strange inside field.now }
{
    let mut behind = inside;
    for b in field {
        if strange_at(behind, *b) {
            return true;
        }
        behind = inside_after(behind, *b);
    }
    false
}

fn any_strange(part: &[u8]) -> bool
    ensures { result ≡ list_any c.is_strange part.now }
{
    part.iter().any(|b| is_strange(*b))
}

/// Whether a byte stands outside literals that may stand inside alone.
pub fn card_strange(inside: bool, card: &[u8]) -> bool
    requires { length card.now ≡ 72 }
    ensures { result ≡ c.card_strange inside card.now }
{
    let (margin, field) = card.split_at(6);
    any_strange(margin) || has_strange(inside, field)
}

fn is_digit_or_blank(b: u8) -> bool
    ensures { result ≡ (c.is_digit b || b == 32) }
{
    (b >= b'0' && b <= b'9') || b == b' '
}

#[tactic(auto, unfolding(crate::specs::Cards::is_label))]
fn is_label(field: &[u8]) -> bool
    requires { length field.now ≡ 5 }
    ensures { result ≡ c.is_label field.now }
{
    all_digits_or_blanks(field) && (is_blank(field) || value_of(field) > 0)
}

fn all_digits_or_blanks(field: &[u8]) -> bool
    ensures { result ≡ list_all (λ b. c.is_digit b || b == 32) field.now }
{
    field.iter().all(|b| is_digit_or_blank(*b))
}

/// The value of the digits.
#[tactic(auto, using(crate::proofs::Labels::values))]
pub fn value_of(part: &[u8]) -> u32
    requires { length part.now ≤ 5 }
    ensures { result ≡ c.value_of part.now }
{
    let mut value: u32 = 0;
    for b in part {
        value = with_digit(value, *b);
    }
    value
}

fn with_digit(value: u32, b: u8) -> u32
    requires { value ≤ 10000 }
    ensures { result ≡ c.with_digit value b }
{
    if b >= b'0' && b <= b'9' {
        10 * value + u32::from(b - b'0')
    } else {
        value
    }
}

#[tactic(auto, unfolding(crate::specs::Cards::is_end))]
fn is_end(alloc: Global, field: &[u8]) -> Result<bool, AllocError>
    ensures { IfOk result (λ yes. yes ≡ c.is_end field.now) }
{
    let mut text = List::new(alloc);
    push_text(&mut text, false, field)?;
    Ok(text.as_slice() == b"END".as_slice())
}

/// What a line is that is no comment line.
#[tactic(auto, unfolding(crate::specs::Cards::statement_kind))]
pub fn statement_kind(alloc: Global, card: &[u8]) -> Result<LineKind, AllocError>
    requires { length card.now ≡ 72 }
    ensures { IfOk result (λ kind. kind ≡ c.statement_kind card.now) }
{
    let (label, _) = card.split_at(5);
    let (_, field) = card.split_at(6);
    if card[5] == b' ' || card[5] == b'0' {
        if !is_label(label) {
            return Ok(LineKind::BadLabel);
        }
        if is_end(alloc, field)? {
            return Ok(LineKind::End);
        }
        return Ok(LineKind::Initial);
    }
    if is_blank(label) {
        Ok(LineKind::Continuation)
    } else {
        Ok(LineKind::LabelledContinuation)
    }
}

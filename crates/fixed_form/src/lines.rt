//! The lines of a text.
ghost use Rattle.std.specs.Prelude.{◌≡◌, ◌∷◌, [], ◌<◌, length, MatchOption};
ghost use Rattle.fixed_form.specs.Lines.{lines_of, stripped, IsEndOf};

/// The first line of a text, and the text behind it.
pub fn next_line(text: &[u8]) -> Option<(&[u8], &[u8])>
    ensures lines { MatchOption result (lines_of text.now ≡ []) (λ x. lines_of text.now ≡ x.0.now ∷ lines_of x.1.now) }
    ensures shorter { MatchOption result (text.now ≡ []) (λ x. length x.1.now < length text.now) }
{
    if text.is_empty() {
        return None;
    }
    let n = end_of(text);
    let (line, rest) = text.split_at(n);
    if rest.is_empty() {
        return Some((line, rest));
    }
    let (_, rest) = rest.split_at(1);
    Some((without_return(line), rest))
}

/// How many bytes stand before the first byte 10.
#[tactic(auto, using(crate::proofs::Splits::no_end_more))]
fn end_of(text: &[u8]) -> usize
    ensures { IsEndOf text.now result }
{
    'byte: for i in 0..text.len() {
        if text[i] == b'\n' {
            return i;
        }
    }
    text.len()
}

fn without_return(line: &[u8]) -> &[u8]
    ensures { result.now ≡ stripped line.now }
{
    if let Some((last, front)) = line.split_last() {
        if *last == b'\r' {
            return front;
        }
    }
    line
}

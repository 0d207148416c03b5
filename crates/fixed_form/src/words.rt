//! Words.
ghost use Rattle.std.specs.Prelude.{◌≡◌, ◌++◌, MatchOption};
ghost use Rattle.std.specs.Bool.{MatchBool};
ghost use Rattle.f77_tree.specs.Names as n;
ghost use Rattle.fixed_form.specs.Heads as h;
ghost use Rattle.fixed_form.specs.Words as w;

fn is_word(b: u8) -> bool
    ensures { result ≡ n.is_word b }
{
    is_letter(b) || (b >= b'0' && b <= b'9') || b == b'_'
}

fn is_letter(b: u8) -> bool
    ensures { result ≡ n.is_letter b }
{
    b >= b'A' && b <= b'Z'
}

/// How many letters, digits and `_` stand at the front.
pub fn word_run(text: &[u8]) -> usize
    ensures { w.IsRun text.now result }
{
    'byte: for i in 0..text.len() {
        if !is_word(text[i]) {
            return i;
        }
    }
    text.len()
}

fn same(a: &[u8], b: &[u8]) -> bool
    ensures { MatchBool result (a.now ≡ b.now) (a.now ≡ b.now → ⊥) }
{
    a == b
}

/// The text behind a word that stands at the front.
pub fn behind_word<'a>(text: &'a [u8], word: &[u8]) -> Option<&'a [u8]>
    ensures { MatchOption result (h.Lacks text.now word.now) (λ rest. text.now ≡ word.now ++ rest.now) }
{
    if text.len() < word.len() {
        return None;
    }
    let (front, rest) = text.split_at(word.len());
    if same(front, word) { Some(rest) } else { None }
}

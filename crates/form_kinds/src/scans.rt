//! Places of a text outside literals and parentheses.
ghost use Rattle.std.specs.Prelude.{◌≡◌, ◌+◌, ◌<◌, ◌^◌, ◌&&◌, ◌==◌, not, MatchOption};
ghost use Rattle.form_kinds.specs.Scans as s;

/// Where a scan of a text stands: inside a literal or not, and inside how many parentheses.
#[derive(Clone, Copy, Debug, Drop)]
pub struct Scan {
    pub quoted: bool,
    pub depth: usize,
}

impl Scan {
    /// Where the scan stands behind one more byte.
    fn after(self, b: u8) -> Scan
        requires { self.depth + 1 < 2 ^ 64 }
        ensures { result ≡ s.scan_after self b }
    {
        if b == b'\'' {
            Scan {
                quoted: !self.quoted,
                depth: self.depth,
            }
        } else if self.quoted {
            self
        } else if b == b'(' {
            Scan {
                quoted: false,
                depth: self.depth + 1,
            }
        } else if b == b')' {
            Scan {
                quoted: false,
                depth: self.depth.saturating_sub(1),
            }
        } else {
            self
        }
    }

    /// Whether a byte is this one and stands outside.
    fn finds(self, mark: u8, b: u8) -> bool
        ensures { result ≡ ((b == mark) && (not self.quoted && (self.depth == 0))) }
    {
        b == mark && !self.quoted && self.depth == 0
    }
}

/// What stands before the first place outside literals and parentheses at which a byte stands, and behind it.
pub fn first_outside(mark: u8, text: &[u8]) -> Option<(&[u8], &[u8])>
    ensures { MatchOption result (s.NoneOutside mark text.now) (λ x. s.FirstOutside mark text.now x.0.now x.1.now) }
{
    let mut scan = Scan {
        quoted: false,
        depth: 0,
    };
    'byte: for i in 0..text.len() {
        if scan.finds(mark, text[i]) {
            let (before, rest) = text.split_at(i);
            let (_, behind) = rest.split_at(1);
            return Some((before, behind));
        }
        scan = scan.after(text[i]);
    }
    None
}

//! What a backslash stands for in a row, and the line that is printed of it.
ghost use Rattle.std.specs.Prelude.{◌<◌};

use super::print::put_byte;
use std::alloc::{AllocError, Global};

/// What the bytes before a byte ask of it.
#[derive(Clone, Copy, Drop, PartialEq, Eq)]
enum State {
    Plain,
    Escape,
    High,
    Low,
    Times,
    Body,
}

/// A row so far, with the number and the text that are to be repeated.
#[derive(Drop)]
struct Expansion {
    text: Vec<u8>,
    state: State,
    number: u32,
    body: Vec<u8>,
}

fn digit_of(byte: u8) -> u32
    ensures { result < 16 }
{
    match byte {
        b'0'..=b'9' => (byte - b'0') as u32,
        b'A'..=b'F' => (byte - b'A') as u32 + 10,
        _ => 0,
    }
}

/// The byte that stands behind a backslash by its letter; any other byte is itself.
fn meant(byte: u8) -> u8 {
    match byte {
        b'n' => 10,
        b'r' => 13,
        b't' => 9,
        _ => byte,
    }
}

/// The text to be repeated, with the number of the repetition at `\#`.
fn put_body(alloc: Global, text: &mut Vec<u8>, body: &[u8], number: u32) -> Result<(), AllocError> {
    let mut escaped = false;
    for byte in body {
        if escaped && *byte == b'#' {
            text.extend_from_slice(format!(in alloc; "{number}")?.as_bytes())?;
            escaped = false;
        } else if escaped {
            text.push(meant(*byte))?;
            escaped = false;
        } else if *byte == b'\\' {
            escaped = true;
        } else {
            text.push(*byte)?;
        }
    }
    Ok(())
}

impl Expansion {
    fn escape(&mut self, byte: u8) -> Result<(), AllocError> {
        self.state = State::Plain;
        match byte {
            b'e' => Ok(()),
            b'x' => {
                self.state = State::High;
                Ok(())
            }
            b'0'..=b'9' => {
                self.number = digit_of(byte);
                self.state = State::Times;
                Ok(())
            }
            _ => put_byte(&mut self.text, meant(byte)),
        }
    }

    fn repeat(&mut self, alloc: Global) -> Result<(), AllocError> {
        self.state = State::Plain;
        for number in 0..self.number {
            put_body(
                alloc,
                &mut self.text,
                self.body.as_slice(),
                number.saturating_add(1),
            )?;
        }
        self.body.clear();
        Ok(())
    }

    /// A digit of a number, or the brace behind it.
    fn count(&mut self, byte: u8) {
        if byte == b'{' {
            self.state = State::Body;
        } else {
            self.number = self.number % 10_000 * 10 + digit_of(byte);
        }
    }

    fn take_plain(&mut self, byte: u8) -> Result<(), AllocError> {
        if byte == b'\\' {
            self.state = State::Escape;
            return Ok(());
        }
        put_byte(&mut self.text, byte)
    }

    fn take_low(&mut self, byte: u8) -> Result<(), AllocError> {
        self.state = State::Plain;
        put_byte(
            &mut self.text,
            (self.number % 16 * 16 + digit_of(byte)) as u8,
        )
    }

    fn take(&mut self, alloc: Global, byte: u8) -> Result<(), AllocError> {
        match self.state {
            State::Plain => self.take_plain(byte),
            State::Escape => self.escape(byte),
            State::High => {
                self.number = digit_of(byte);
                self.state = State::Low;
                Ok(())
            }
            State::Low => self.take_low(byte),
            State::Times => {
                self.count(byte);
                Ok(())
            }
            State::Body if byte == b'}' => self.repeat(alloc),
            State::Body => put_byte(&mut self.body, byte),
        }
    }
}

/// The text that a row stands for: `\n`, `\r`, `\t` as usual, `\e` nothing, `\xC8` a byte, `\19{..}` a text nineteen
/// times, in which `\#` is the number of the repetition; any other byte behind a backslash is itself.
pub fn expanded(alloc: Global, row: &[u8]) -> Result<Vec<u8>, AllocError> {
    let mut expansion = Expansion {
        text: Vec::new(alloc),
        state: State::Plain,
        number: 0,
        body: Vec::new(alloc),
    };
    for byte in row {
        expansion.take(alloc, *byte)?;
    }
    Ok(expansion.text)
}

/// Whether a line of the table says nothing.
pub fn is_comment(line: &str) -> bool {
    line.is_empty() || line.starts_with('#')
}

/// A byte as it is printed: outside the printable ones by its number.
fn put_printable(alloc: Global, line: &mut Vec<u8>, byte: u8) -> Result<(), AllocError> {
    if byte < 32 || byte > 126 {
        line.extend_from_slice(format!(in alloc; "\\x{byte:02X}")?.as_bytes())
    } else {
        put_byte(line, byte)
    }
}

/// The line that is printed of a row: the row, and the answer with each byte that isn't printable as `\xC8`.
pub fn answered(alloc: Global, row: &[u8], answer: &[u8]) -> Result<Vec<u8>, AllocError> {
    let mut line = Vec::from_slice(alloc, row)?;
    line.extend_from_slice(b" =>".as_slice())?;
    if !answer.is_empty() {
        line.push(b' ')?;
    }
    for byte in answer {
        put_printable(alloc, &mut line, *byte)?;
    }
    line.push(10)?;
    Ok(line)
}

//! Lines that are written without memory.
ghost use Rattle.std.specs.Prelude.{◌≡◌, ℕ, ◌++◌, ◌≤◌, ◌<◌, ◌⊎◌, [], List, OnOk, IsErr, IsOk, codes, length};
ghost use Rattle.std.specs.Io.KnownBytes.{Appends};
ghost use Rattle.rn_ports.specs.Causes.{Rose, HasCause};
ghost use Rattle.rn_ports.specs.Sent.{AppendsPart};
ghost use Rattle.rn_session.specs.Statuses.{refusal_text};
ghost use Rattle.rn_session.specs.Replies.{begun};

use super::status::Status;
use rn_ports::{Failed, Sink, write_whole};

/// Writes the text of a refusal. The status stays, also where the sink fails.
pub fn refuse<O: Sink>(out: &mut O, status: Status, text: &[u8]) -> Status
    requires { text.now ≡ refusal_text status }
    ensures status { result ≡ status }
    ensures text { ¬ (Rose (O.faults out.old) (O.faults out.new)) → Appends (O.written out.old) (O.written out.new) (refusal_text status) }
    ensures front { AppendsPart (O.written out.old) (O.written out.new) (refusal_text status) }
    ensures later { O.faults out.old ≤ O.faults out.new }
{
    match write_whole(out, text) {
        Ok(()) => status,
        Err(_) => status,
    }
}

fn write_both<O: Sink>(out: &mut O, first: &[u8], second: &[u8]) -> Result<(), Failed>
    ensures all { OnOk result (Appends (O.written out.old) (O.written out.new) (first.now ++ second.now)) }
    ensures front { AppendsPart (O.written out.old) (O.written out.new) (first.now ++ second.now) }
    ensures cause { HasCause (O.faults out.old) (O.faults out.new) (IsErr result) }
{
    match write_whole(out, first) {
        Ok(()) => write_whole(out, second),
        Err(failed) => Err(failed),
    }
}

fn line_end_before(within: bool) -> &'static [u8]
    ensures { result.now ≡ begun within [] }
{
    if within { b"\n" } else { b"" }
}

/// Writes a line of two parts. `within` tells whether it follows a text that stands within a line, which is ended first.
pub fn write_line<O: Sink>(
    out: &mut O,
    within: bool,
    word: &[u8],
    rest: &[u8],
) -> Result<(), Failed>
    ensures all { OnOk result (Appends (O.written out.old) (O.written out.new) (begun within (word.now ++ rest.now ++ codes "\n"))) }
    ensures front { AppendsPart (O.written out.old) (O.written out.new) (begun within (word.now ++ rest.now ++ codes "\n")) }
    ensures cause { HasCause (O.faults out.old) (O.faults out.new) (IsErr result) }
{
    match write_both(out, line_end_before(within), word) {
        Ok(()) => write_both(out, rest, b"\n"),
        Err(failed) => Err(failed),
    }
}

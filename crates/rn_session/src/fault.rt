//! The line of a fault.
ghost use Rattle.std.specs.Prelude.{◌≡◌, ℕ, ◌++◌, ◌⊎◌, ◌≤◌, IfOk, OnOk};
ghost use Rattle.std.specs.Io.KnownBytes.{Appends};
ghost use Rattle.rn_ports.specs.Causes.{Rose};
ghost use Rattle.rn_ports.specs.Sent.{AppendsPart};
ghost use Rattle.rn_session.specs.Statuses.{unit_text, limit_text, fault_line, refusal_text};

use super::lines::refuse;
use super::status::Status;
use fixed_form::{Name, SourceFault};
use itoa::Buffer;
use rn_ports::Sink;
use std::alloc::{AllocError, Global};

fn unit_text(unit: &Option<Name>) -> &[u8]
    ensures { result.now ≡ unit_text unit.now }
{
    match unit {
        Some(name) => name.as_bytes(),
        None => b"-",
    }
}

fn push_limit(line: &mut Vec<u8>, fault: &SourceFault) -> Result<(), AllocError>
    ensures { OnOk result (line.new.items ≡ line.old.items ++ limit_text fault.now.number fault.now.limit) }
{
    if fault.number == 37 {
        let mut buffer = Buffer::new();
        line.extend_from_slice(b" limit ")?;
        line.extend_from_slice(buffer.format(fault.limit).as_bytes())?;
    }
    Ok(())
}

/// The line of a fault, as `fault N UNIT line L`.
fn fault_text(alloc: Global, fault: &SourceFault) -> Result<Vec<u8>, AllocError>
    ensures { IfOk result (λ line. line.items ≡ fault_line fault.now) }
{
    let mut number = Buffer::new();
    let mut place = Buffer::new();
    let mut line = Vec::from_slice(alloc, b"fault ")?;
    line.extend_from_slice(number.format(fault.number).as_bytes())?;
    line.extend_from_slice(b" ")?;
    line.extend_from_slice(unit_text(&fault.place.unit))?;
    line.extend_from_slice(b" line ")?;
    line.extend_from_slice(place.format(fault.place.line).as_bytes())?;
    push_limit(&mut line, fault)?;
    line.extend_from_slice(b"\n")?;
    Ok(line)
}

/// Refuses a source with its fault, or with want of memory for the line.
pub fn refuse_source<O: Sink>(alloc: Global, out: &mut O, fault: SourceFault) -> Status
    ensures status { (result ≡ Status.SourceFault fault) ⊎ (result ≡ Status.OutOfMemory) }
    ensures text { ¬ (Rose (O.faults out.old) (O.faults out.new)) → Appends (O.written out.old) (O.written out.new) (refusal_text result) }
    ensures front { AppendsPart (O.written out.old) (O.written out.new) (refusal_text result) }
    ensures later { O.faults out.old ≤ O.faults out.new }
{
    match fault_text(alloc, &fault) {
        Ok(line) => refuse(out, Status::SourceFault(fault), line.as_slice()),
        Err(_) => refuse(out, Status::OutOfMemory, b"out of memory\n"),
    }
}

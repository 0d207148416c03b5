//! The run of a machine, and the line that says how it stands.
ghost use Rattle.std.specs.Prelude.{◌≡◌, ◌<◌, ◌++◌, ◌⊎◌};
ghost use Rattle.std.specs.Io.KnownBytes.{Appends};
ghost use Rattle.rn_ports.specs.Causes.{Rose, HasCause};
ghost use Rattle.rn_ports.specs.Sent.{AppendsPart};
ghost use Rattle.rv_machine.specs.Kept.{state_of};
ghost use Rattle.rv_machine.specs.Machine.{output};
ghost use Rattle.rn_session.specs.Statuses.{number_of_cause, hex_digit, trap_text};
ghost use Rattle.rn_session.specs.Replies.{status_at, line_at, begun, run_reply, MayEnd};

use super::lines::write_line;
use super::status::Status;
use itoa::Buffer;
use rn_ports::Sink;
use rv_machine::{Machine, Outcome, TrapCause, WriteFault};

fn cause_number(cause: TrapCause) -> u8
    ensures { result ≡ number_of_cause cause }
{
    match cause {
        TrapCause::Misaligned => 1,
        TrapCause::Unmapped => 2,
        TrapCause::UnknownWord => 3,
        TrapCause::Breakpoint => 4,
        TrapCause::UnknownCall => 5,
    }
}

fn hex_digit(digit: u8) -> u8
    requires { digit < 16 }
    ensures { result ≡ hex_digit digit }
{
    if digit < 10 {
        b'0' + digit
    } else {
        b'a' + (digit - 10)
    }
}

// The address in 16 hexadecimal digits, a blank and the cause.
fn trap_text(pc: u64, cause: TrapCause) -> [u8; 18]
    ensures { result ≡ trap_text pc cause }
{
    let mut text = [b' '; 18];
    text[17] = b'0' + cause_number(cause);
    let mut rest = pc;
    for place in 0..16usize {
        text[15 - place] = hex_digit((rest % 16) as u8);
        rest /= 16;
    }
    text
}

// Writes the line that says how a run stands.
fn tell<O: Sink>(out: &mut O, outcome: Outcome, within: bool) -> Status
    ensures status { (result ≡ status_at outcome) ⊎ (result ≡ Status.WriteFault) × (status_at outcome ≡ Status.Ok) }
    ensures write { HasCause (O.faults out.old) (O.faults out.new) (result ≡ Status.WriteFault) }
    ensures text { ¬ (Rose (O.faults out.old) (O.faults out.new)) → Appends (O.written out.old) (O.written out.new) (begun within (line_at outcome)) }
    ensures front { AppendsPart (O.written out.old) (O.written out.new) (begun within (line_at outcome)) }
    ensures done { result ≡ Status.Ok → Appends (O.written out.old) (O.written out.new) (begun within (line_at outcome)) }
{
    match outcome {
        Outcome::Running => match write_line(out, within, b"steps spent", b"") {
            Ok(()) => Status::StepsSpent,
            Err(_) => Status::StepsSpent,
        },
        Outcome::Halted(status) => {
            let mut buffer = Buffer::new();
            match write_line(out, within, b"ended ", buffer.format(status).as_bytes()) {
                Ok(()) => Status::Ok,
                Err(_) => Status::WriteFault,
            }
        }
        Outcome::Trap(pc, cause) => {
            match write_line(out, within, b"trapped ", &trap_text(pc, cause)) {
                Ok(()) => Status::Trapped(pc, cause),
                Err(_) => Status::Trapped(pc, cause),
            }
        }
    }
}

/// Runs a machine for so many steps, and writes its output and how it stands.
pub fn run_machine<O: Sink>(machine: &mut Machine, steps: u64, out: &mut O) -> Status
    // Where the output itself failed that is told and nothing else; where only the line failed, steps spent and traps stay.
    ensures status { MayEnd (run_reply steps (state_of machine.old)) (O.written out.old) (O.written out.new) result }
    ensures write { HasCause (O.faults out.old) (O.faults out.new) (result ≡ Status.WriteFault) }
    ensures text { ¬ (Rose (O.faults out.old) (O.faults out.new)) → Appends (O.written out.old) (O.written out.new) ((run_reply steps (state_of machine.old)).output ++ (run_reply steps (state_of machine.old)).line) }
    ensures front { AppendsPart (O.written out.old) (O.written out.new) ((run_reply steps (state_of machine.old)).output ++ (run_reply steps (state_of machine.old)).line) }
    ensures done { result ≡ Status.Ok → Appends (O.written out.old) (O.written out.new) ((run_reply steps (state_of machine.old)).output ++ (run_reply steps (state_of machine.old)).line) }
{
    let mut within = false;
    match machine.run_by_line(steps, out, &mut within) {
        Ok(outcome) => tell(out, outcome, within),
        Err(WriteFault) => Status::WriteFault,
    }
}

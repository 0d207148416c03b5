//! Environment calls.

ghost use Rattle.std.specs.Prelude.{◌≡◌, ℕ, ◌<◌, OnOk, OnErr, IsErr, length};
ghost use Rattle.std.specs.Io.KnownBytes.{Appends};
ghost use Rattle.rn_ports.specs.Causes.{HasCause};
ghost use Rattle.rn_ports.specs.Sent.{AppendsPart};
ghost use Rattle.rv_machine.specs.Machine.{read_input, called, called_prints};
ghost use Rattle.rv_machine.specs.Lines.{within_line};
ghost use Rattle.rv_machine.specs.Kept.{state_of};

use crate::kept::Machine;
use crate::outcome::{Outcome, TrapCause, WriteFault};
use itoa::Buffer;
use rn_ports::{Sink, write_whole};

// `within` tells whether the output stands within a line.
#[tactic(auto, using(crate::proofs::Breaks::within_line_last))]
fn send<O: Sink>(out: &mut O, within: &mut bool, text: &[u8]) -> Result<(), WriteFault>
    ensures all { OnOk result (Appends (O.written out.old) (O.written out.new) text.now) }
    ensures front { OnErr result (AppendsPart (O.written out.old) (O.written out.new) text.now) }
    ensures line { OnOk result (within.new ≡ within_line within.old text.now) }
    ensures some { OnErr result (0 < length text.now) }
    ensures cause { HasCause (O.faults out.old) (O.faults out.new) (IsErr result) }
{
    match write_whole(out, text) {
        Ok(()) => {}
        Err(_) => return Err(WriteFault),
    }
    if let Some((last, _)) = text.split_last() {
        *within = *last != b'\n';
    }
    Ok(())
}

impl Machine {
    fn read_input(&mut self)
        ensures { state_of self.new ≡ read_input (state_of self.old).input (state_of self.old) }
    {
        if self.next < self.input.len() {
            let value = self.input[self.next];
            self.next += 1;
            self.set(10, value.cast_unsigned());
            self.set(11, 0);
        } else {
            self.set(10, 0);
            self.set(11, 1);
        }
        self.advance();
    }

    // ECALL.
    pub(crate) fn call<O: Sink>(&mut self, out: &mut O, within: &mut bool) -> Result<(), WriteFault>
        ensures stands { OnOk result (state_of self.new ≡ called ((state_of self.old).regs 17) (state_of self.old)) }
        ensures writes { OnOk result (Appends (O.written out.old) (O.written out.new) (called_prints ((state_of self.old).regs 17) (state_of self.old))) }
        ensures stays { OnErr result (state_of self.new ≡ state_of self.old) }
        ensures front { OnErr result (AppendsPart (O.written out.old) (O.written out.new) (called_prints ((state_of self.old).regs 17) (state_of self.old))) }
        ensures line { OnOk result (within.new ≡ within_line within.old (called_prints ((state_of self.old).regs 17) (state_of self.old))) }
        ensures some { OnErr result (0 < length (called_prints ((state_of self.old).regs 17) (state_of self.old))) }
        ensures cause { HasCause (O.faults out.old) (O.faults out.new) (IsErr result) }
    {
        match self.register(17) {
            1 => {
                let mut buffer = Buffer::new();
                send(
                    out,
                    within,
                    buffer.format(self.register(10).cast_signed()).as_bytes(),
                )?;
                self.advance();
            }
            2 => {
                let letter = if self.register(10) == 0 { b'F' } else { b'T' };
                send(out, within, &[letter])?;
                self.advance();
            }
            3 => {
                let byte = (self.register(10) % 256) as u8;
                send(out, within, &[byte])?;
                self.advance();
            }
            4 => {
                send(out, within, b"\n")?;
                self.advance();
            }
            5 => self.read_input(),
            93 => self.outcome = Outcome::Halted((self.register(10) % 256) as u8),
            _ => self.trap(TrapCause::UnknownCall),
        }
        Ok(())
    }
}

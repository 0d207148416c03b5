//! Instructions, steps and runs.

ghost use Rattle.std.specs.Prelude.{◌≡◌, ◌≢◌, ℕ, ◌<◌, ◌%◌, length, OnOk, OnErr, [], IfOk, IfSome, IsErr, IsTrue, false};
ghost use Rattle.std.specs.Io.KnownBytes.{Appends};
ghost use Rattle.rn_ports.specs.Causes.{HasCause};
ghost use Rattle.rn_ports.specs.Sent.{AppendsPart};
ghost use Rattle.rv_isa.specs.Table.{InRange, InImmediate, is_shift, imm_key};
ghost use Rattle.rv_machine.specs.Machine.{set, next, trap, imm_value, reg_value, imm_word_value, exec, prints, linked, IsQuiet, set_or_trap, fetched, is_fetchable, step, step_prints, run, output, bits_of};
ghost use Rattle.rv_machine.specs.Lines.{within_line};
ghost use Rattle.rv_machine.specs.Runs.{IsPart};
ghost use Rattle.rv_machine.specs.Kept.{state_of};

use crate::kept::Machine;
use crate::outcome::{Outcome, TrapCause, WriteFault};
use elf_file::read_le;
use rn_ports::Sink;
use rv_isa::{ImmOp, ImmWordOp, Inst, LoadOp, RegOp, StoreOp, decode};

fn bits(value: i32) -> u64
    ensures { result ≡ bits_of value }
{
    (value as i64).cast_unsigned()
}

fn imm_result(op: ImmOp, x: u64, value: i32) -> Option<u64>
    requires { InImmediate (is_shift (imm_key op % 8)) 64 value }
    ensures { result ≡ imm_value op x value }
{
    match op {
        ImmOp::Addi => Some(x.wrapping_add(bits(value))),
        ImmOp::Slli => Some(x << value as u32),
        _ => None,
    }
}

fn reg_result(op: RegOp, x: u64, y: u64) -> Option<u64>
    ensures { result ≡ reg_value op x y }
{
    match op {
        RegOp::Add => Some(x.wrapping_add(y)),
        RegOp::Sub => Some(x.wrapping_sub(y)),
        _ => None,
    }
}

fn imm_word_result(op: ImmWordOp, x: u64, value: i32) -> Option<u64>
    ensures { result ≡ imm_word_value op x value }
{
    match op {
        ImmWordOp::Addiw => {
            let low = (x.wrapping_add(bits(value)) % (1 << 32)) as u32;
            Some((low.cast_signed() as i64).cast_unsigned())
        }
        _ => None,
    }
}

impl Machine {
    pub(crate) fn register(&self, index: u8) -> u64
        requires { index < 32 }
        ensures { result ≡ (state_of self.now).regs index }
    {
        if index == 0 {
            0
        } else {
            self.registers[index as usize]
        }
    }

    pub(crate) fn set(&mut self, index: u8, value: u64)
        requires { index < 32 }
        ensures { state_of self.new ≡ set index value (state_of self.old) }
    {
        self.registers[index as usize] = value;
    }

    pub(crate) fn advance(&mut self)
        ensures { state_of self.new ≡ next (state_of self.old) }
    {
        self.pc = self.pc.wrapping_add(4);
    }

    pub(crate) fn trap(&mut self, cause: TrapCause)
        ensures { state_of self.new ≡ trap cause (state_of self.old) }
    {
        self.outcome = Outcome::Trap(self.pc, cause);
    }

    fn jump_and_link(&mut self, index: u8, to: u64, back: u64)
        requires { index < 32 }
        ensures { state_of self.new ≡ linked index to back (state_of self.old) }
    {
        if to % 4 == 0 {
            self.set(index, back);
            self.pc = to;
        } else {
            self.trap(TrapCause::Misaligned);
        }
    }

    fn set_or_trap(&mut self, index: u8, value: Option<u64>)
        requires { index < 32 }
        ensures { state_of self.new ≡ set_or_trap index value (state_of self.old) }
    {
        match value {
            Some(value) => {
                self.set(index, value);
                self.advance();
            }
            None => self.trap(TrapCause::UnknownWord),
        }
    }

    fn execute_load(&mut self, op: LoadOp, d: u8, a: u8, value: i32)
        requires d { d < 32 }
        requires a { a < 32 }
        ensures { state_of self.new ≡ exec (Inst.Load op d a value) (state_of self.old) }
    {
        let at = self.register(a).wrapping_add(bits(value));
        match op {
            LoadOp::Ld => self.load_into(d, 8, at),
            _ => self.trap(TrapCause::UnknownWord),
        }
    }

    fn execute_store(&mut self, op: StoreOp, a: u8, b: u8, value: i32)
        requires a { a < 32 }
        requires b { b < 32 }
        ensures { state_of self.new ≡ exec (Inst.Store op a b value) (state_of self.old) }
    {
        let at = self.register(a).wrapping_add(bits(value));
        let stored = self.register(b);
        match op {
            StoreOp::Sd => self.store_from(8, at, stored),
            _ => self.trap(TrapCause::UnknownWord),
        }
    }

    // An instruction that prints nothing.
    fn execute(&mut self, inst: Inst)
        requires range { InRange inst }
        requires quiet { IsQuiet inst }
        ensures stands { state_of self.new ≡ exec inst (state_of self.old) }
        ensures quiet { prints inst (state_of self.old) ≡ [] }
    {
        match inst {
            Inst::Lui(d, value) => {
                self.set(d, bits(value) << 12);
                self.advance();
            }
            Inst::Auipc(d, value) => {
                self.set(d, self.pc.wrapping_add(bits(value) << 12));
                self.advance();
            }
            Inst::Jalr(d, a, value) => {
                let to = self.register(a).wrapping_add(bits(value)) / 2 * 2;
                let back = self.pc.wrapping_add(4);
                self.jump_and_link(d, to, back);
            }
            Inst::Load(op, d, a, value) => self.execute_load(op, d, a, value),
            Inst::Store(op, a, b, value) => self.execute_store(op, a, b, value),
            Inst::Imm(op, d, a, value) => self.set_or_trap(
                d,
                imm_result(op, self.register(a), value),
            ),
            Inst::Reg(op, d, a, b) => self.set_or_trap(
                d,
                reg_result(op, self.register(a), self.register(b)),
            ),
            Inst::ImmWord(op, d, a, value) => self.set_or_trap(
                d,
                imm_word_result(op, self.register(a), value),
            ),
            Inst::Ebreak => self.trap(TrapCause::Breakpoint),
            _ => self.trap(TrapCause::UnknownWord),
        }
    }

    fn is_fetchable(&self) -> bool
        ensures { result ≡ is_fetchable (state_of self.now) }
    {
        let code_end = 65536 + self.code.len() as u64;
        65536 <= self.pc && self.pc <= code_end && 4 <= code_end - self.pc
    }

    fn fetch(&self) -> Option<Inst>
        requires { IsTrue (is_fetchable (state_of self.now)) }
        ensures value { result ≡ fetched (state_of self.now) }
        ensures range { IfSome result (λ i. InRange i) }
    {
        decode(read_le(&self.code, (self.pc - 65536) as usize, 4) as u32)
    }

    // One step of a machine that runs.
    fn step<O: Sink>(&mut self, out: &mut O, within: &mut bool) -> Result<(), WriteFault>
        requires { (state_of self.old).outcome ≡ Outcome.Running }
        ensures stands { OnOk result (state_of self.new ≡ step (state_of self.old)) }
        ensures writes { OnOk result (Appends (O.written out.old) (O.written out.new) (step_prints (state_of self.old))) }
        ensures stays { OnErr result (state_of self.new ≡ state_of self.old) }
        ensures front { OnErr result (AppendsPart (O.written out.old) (O.written out.new) (step_prints (state_of self.old))) }
        ensures line { OnOk result (within.new ≡ within_line within.old (step_prints (state_of self.old))) }
        ensures some { OnErr result (0 < length (step_prints (state_of self.old))) }
        ensures cause { HasCause (O.faults out.old) (O.faults out.new) (IsErr result) }
    {
        if !self.is_fetchable() {
            self.trap(TrapCause::Unmapped);
            return Ok(());
        }
        match self.fetch() {
            None => self.trap(TrapCause::UnknownWord),
            Some(Inst::Ecall) => return self.call(out, within),
            Some(inst) => self.execute(inst),
        }
        Ok(())
    }

    fn is_running(&self) -> bool
        ensures yes { IsTrue result → (state_of self.now).outcome ≡ Outcome.Running }
        ensures no { result ≡ false → (state_of self.now).outcome ≢ Outcome.Running }
    {
        match self.outcome {
            Outcome::Running => true,
            _ => false,
        }
    }

    /// Runs so many steps, or until the machine is over, and writes what they print. Where the sink fails the machine stands
    /// before the instruction whose output was not all written, and a later run does that instruction again.
    pub fn run<O: Sink>(&mut self, steps: u64, out: &mut O) -> Result<Outcome, WriteFault>
        ensures stands { OnOk result (state_of self.new ≡ run steps (state_of self.old)) }
        ensures outcome { IfOk result (λ o. o ≡ (state_of self.new).outcome) }
        ensures writes { OnOk result (Appends (O.written out.old) (O.written out.new) (output steps (state_of self.old))) }
        ensures stopped { OnErr result (IsPart (state_of self.old) steps (state_of self.new) (O.written out.old) (O.written out.new)) }
        ensures front { AppendsPart (O.written out.old) (O.written out.new) (output steps (state_of self.old)) }
        ensures some { OnErr result (0 < length (output steps (state_of self.old))) }
        ensures cause { HasCause (O.faults out.old) (O.faults out.new) (IsErr result) }
    {
        let mut within = false;
        self.run_by_line(steps, out, &mut within)
    }

    /// Runs in the same way. `within` tells whether the output stands within a line: before the call that before it,
    /// and after a call that didn't fail that of all.
    pub fn run_by_line<O: Sink>(
        &mut self,
        steps: u64,
        out: &mut O,
        within: &mut bool,
    ) -> Result<Outcome, WriteFault>
        ensures stands { OnOk result (state_of self.new ≡ run steps (state_of self.old)) }
        ensures outcome { IfOk result (λ o. o ≡ (state_of self.new).outcome) }
        ensures writes { OnOk result (Appends (O.written out.old) (O.written out.new) (output steps (state_of self.old))) }
        ensures line { OnOk result (within.new ≡ within_line within.old (output steps (state_of self.old))) }
        ensures stopped { OnErr result (IsPart (state_of self.old) steps (state_of self.new) (O.written out.old) (O.written out.new)) }
        ensures front { AppendsPart (O.written out.old) (O.written out.new) (output steps (state_of self.old)) }
        ensures some { OnErr result (0 < length (output steps (state_of self.old))) }
        ensures cause { HasCause (O.faults out.old) (O.faults out.new) (IsErr result) }
    {
        for _step in 0..steps {
            if !self.is_running() {
                return Ok(self.outcome);
            }
            self.step(out, within)?;
        }
        Ok(self.outcome)
    }
}

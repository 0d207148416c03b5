//! Loads and stores.

ghost use Rattle.std.specs.Prelude.{◌≡◌, ℕ, ◌<◌, ◌≤◌, ◌+◌, IsTrue};
ghost use Rattle.rv_machine.specs.Memory.{read};
ghost use Rattle.rv_machine.specs.Machine.{is_readable, is_writable, stored, loaded, kept};
ghost use Rattle.rv_machine.specs.Kept.{state_of};

use crate::bytes::write_le;
use crate::kept::Machine;
use crate::outcome::TrapCause;
use elf_file::read_le;

impl Machine {
    fn is_readable(&self, count: u64, at: u64) -> bool
        requires { count ≤ 8 }
        ensures { result ≡ is_readable count at (state_of self.now) }
    {
        let code_end = 65536 + self.code.len() as u64;
        let memory_end = self.data_at + self.memory.len() as u64;
        65536 <= at && at <= code_end && count <= code_end - at
            || self.data_at <= at && at <= memory_end && count <= memory_end - at
    }

    fn is_writable(&self, count: u64, at: u64) -> bool
        requires { count ≤ 8 }
        ensures { result ≡ is_writable count at (state_of self.now) }
    {
        let memory_end = self.data_at + self.memory.len() as u64;
        self.data_at <= at && at <= memory_end && count <= memory_end - at
    }

    fn read_value(&self, count: usize, at: u64) -> u64
        requires count { count ≤ 8 }
        requires mapped { IsTrue (is_readable count at (state_of self.now)) }
        ensures { result ≡ read count (state_of self.now).mem at }
    {
        if at < self.data_at {
            read_le(&self.code, (at - 65536) as usize, count)
        } else {
            read_le(&self.memory, (at - self.data_at) as usize, count)
        }
    }

    fn write_value(&mut self, count: usize, at: u64, value: u64)
        requires count { count ≤ 8 }
        requires mapped { IsTrue (is_writable count at (state_of self.old)) }
        ensures { state_of self.new ≡ stored count at value (state_of self.old) }
    {
        let index = (at - self.data_at) as usize;
        write_le(&mut self.memory, index, count, value);
    }

    // A load of so many bytes into a register.
    pub(crate) fn load_into(&mut self, index: u8, count: usize, at: u64)
        requires index { index < 32 }
        requires count { 0 < count }
        requires count_max { count ≤ 8 }
        ensures { state_of self.new ≡ loaded count index at (state_of self.old) }
    {
        if at % count as u64 != 0 {
            self.trap(TrapCause::Misaligned);
        } else if !self.is_readable(count as u64, at) {
            self.trap(TrapCause::Unmapped);
        } else {
            let value = self.read_value(count, at);
            self.set(index, value);
            self.advance();
        }
    }

    pub(crate) fn store_from(&mut self, count: usize, at: u64, value: u64)
        requires count { 0 < count }
        requires count_max { count ≤ 8 }
        ensures { state_of self.new ≡ kept count at value (state_of self.old) }
    {
        if at % count as u64 != 0 {
            self.trap(TrapCause::Misaligned);
        } else if !self.is_writable(count as u64, at) {
            self.trap(TrapCause::Unmapped);
        } else {
            self.write_value(count, at, value);
            self.advance();
        }
    }
}

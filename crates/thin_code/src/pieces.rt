//! Instructions and pieces of code, as bytes behind the code before them.
ghost use Rattle.std.specs.Prelude.{◌≡◌, ℕ, ◌+◌, ◌-◌, ◌*◌, ◌/◌, ◌%◌, ◌^◌, ◌<◌, ◌++◌, length, OnOk};
ghost use Rattle.rv_isa.specs.Layout.{InSigned};
ghost use Rattle.rv_isa.specs.declared.inst.RegOp.{RegOp};
ghost use Rattle.rv_code.specs.Line as line;
ghost use Rattle.rv_code.specs.Pieces as piece;
ghost use Rattle.thin_code.specs.Code.{InRanges, Emits, bytes_of, operation};

use elf_file::push_le;
use rv_isa::{ImmOp, ImmWordOp, Inst, LoadOp, RegOp, StoreOp, encode};
use std::alloc::AllocError;
use thin_form::Sign;

/// Where the code stands.
pub const ENTRY: u64 = 65536;

// Appends the words of these instructions.
fn push_code(code: &mut Vec<u8>, insts: &[Inst]) -> Result<(), AllocError>
    requires { InRanges insts.now }
    ensures { OnOk result (code.new.items ≡ code.old.items ++ bytes_of insts.now) }
{
    for inst in insts {
        push_le(code, 4, encode(inst) as u64)?;
    }
    Ok(())
}

// The rounded upper 20 bits of 32 as a signed number.
fn upper(value: u64) -> i32
    ensures { result ≡ line.upper value }
{
    let bits = ((value / 4096 + (value % 4096 + 2048) / 4096) % (1 << 20)) as i32;
    if bits < 1 << 19 {
        bits
    } else {
        bits - (1 << 20)
    }
}

// The low 12 bits as a signed number.
fn lower(value: u64) -> i32
    ensures { result ≡ line.lower value }
{
    let bits = (value % 4096) as i32;
    if bits < 2048 { bits } else { bits - 4096 }
}

// The low bits as a number without a sign.
fn digit(bits: u32, value: u64) -> i32
    requires { bits < 12 }
    ensures { result ≡ line.digit bits value }
{
    (value % (1 << bits)) as i32
}

fn distance(from: u64, to: u64) -> u64
    ensures { result ≡ line.distance from to }
{
    to.wrapping_sub(from)
}

/// Where the next word will stand.
pub fn here(code: &[u8]) -> u64
    requires { length code.now < 2 ^ 63 }
    ensures { result ≡ 65536 + length code.now }
{
    ENTRY + code.len() as u64
}

/// A number of 64 bits into a register, in eight words.
pub fn push_constant(code: &mut Vec<u8>, register: u8, value: u64) -> Result<(), AllocError>
    requires { register < 32 }
    ensures { OnOk result (Emits code.old.items code.new.items (λ from. line.constant register value)) }
{
    push_code(code, &constant(register, value))
}

// The upper 32 bits, and then 11, 11 and 10 bits.
fn constant(register: u8, value: u64) -> [Inst; 8]
    ensures { result ≡ line.constant register value }
{
    let d = register;
    let high = value >> 32;
    [
        Inst::Lui(d, upper(high)),
        Inst::ImmWord(ImmWordOp::Addiw, d, d, lower(high)),
        Inst::Imm(ImmOp::Slli, d, d, 11),
        Inst::Imm(ImmOp::Addi, d, d, digit(11, value >> 21)),
        Inst::Imm(ImmOp::Slli, d, d, 11),
        Inst::Imm(ImmOp::Addi, d, d, digit(11, value >> 10)),
        Inst::Imm(ImmOp::Slli, d, d, 10),
        Inst::Imm(ImmOp::Addi, d, d, digit(10, value)),
    ]
}

/// The storage unit at an address into a register.
pub fn push_load(code: &mut Vec<u8>, to: u64, register: u8) -> Result<(), AllocError>
    requires { register < 32 }
    ensures { OnOk result (Emits code.old.items code.new.items (λ from. piece.load_code from to register)) }
{
    let d = register;
    let reach = distance(here(code.as_slice()), to);
    push_code(
        code,
        &[
            Inst::Auipc(d, upper(reach)),
            Inst::Imm(ImmOp::Addi, d, d, lower(reach)),
            Inst::Load(LoadOp::Ld, d, d, 0),
        ],
    )
}

/// Register 5 into the storage unit at an address.
pub fn push_save(code: &mut Vec<u8>, to: u64) -> Result<(), AllocError>
    ensures { OnOk result (Emits code.old.items code.new.items (λ from. piece.save_code from to 5)) }
{
    let reach = distance(here(code.as_slice()), to);
    push_code(
        code,
        &[
            Inst::Auipc(6, upper(reach)),
            Inst::Imm(ImmOp::Addi, 6, 6, lower(reach)),
            Inst::Store(StoreOp::Sd, 6, 5, 0),
        ],
    )
}

/// The sum or the difference of registers 5 and 7 into register 5.
pub fn push_operation(code: &mut Vec<u8>, sign: Sign) -> Result<(), AllocError>
    ensures { OnOk result (Emits code.old.items code.new.items (λ from. piece.operation_code (operation sign) 5 5 7)) }
{
    let op = match sign {
        Sign::Plus => RegOp::Add,
        Sign::Minus => RegOp::Sub,
    };
    push_code(code, &[Inst::Reg(op, 5, 5, 7)])
}

/// Prints a byte.
pub fn push_byte(code: &mut Vec<u8>, byte: u8) -> Result<(), AllocError>
    ensures { OnOk result (Emits code.old.items code.new.items (λ from. piece.byte_code byte)) }
{
    push_code(
        code,
        &[
            Inst::Imm(ImmOp::Addi, 10, 0, byte as i32),
            Inst::Imm(ImmOp::Addi, 17, 0, 3),
            Inst::Ecall,
        ],
    )
}

/// Prints the number in register 10.
pub fn push_show(code: &mut Vec<u8>) -> Result<(), AllocError>
    ensures { OnOk result (Emits code.old.items code.new.items (λ from. piece.show_code)) }
{
    push_code(code, &[Inst::Imm(ImmOp::Addi, 17, 0, 1), Inst::Ecall])
}

/// Ends a line.
pub fn push_line(code: &mut Vec<u8>) -> Result<(), AllocError>
    ensures { OnOk result (Emits code.old.items code.new.items (λ from. piece.line_code)) }
{
    push_code(code, &[Inst::Imm(ImmOp::Addi, 17, 0, 4), Inst::Ecall])
}

/// Ends the run with status 0.
pub fn push_halt(code: &mut Vec<u8>) -> Result<(), AllocError>
    ensures { OnOk result (Emits code.old.items code.new.items (λ from. piece.halt_code)) }
{
    push_code(
        code,
        &[
            Inst::Imm(ImmOp::Addi, 10, 0, 0),
            Inst::Imm(ImmOp::Addi, 17, 0, 93),
            Inst::Ecall,
        ],
    )
}

/// Calls what stands at an address.
pub fn push_jump(code: &mut Vec<u8>, to: u64) -> Result<(), AllocError>
    ensures { OnOk result (Emits code.old.items code.new.items (λ from. piece.jump_code from to)) }
{
    let reach = distance(here(code.as_slice()), to);
    push_code(
        code,
        &[Inst::Auipc(1, upper(reach)), Inst::Jalr(1, 1, lower(reach))],
    )
}

//! The test for an instruction that has a word.

ghost use Rattle.std.specs.Prelude.{◌≡◌, ◌≤◌, ◌<◌, ◌^◌, ◌%◌, ◌↔◌, IsTrue};
ghost use Rattle.rv_isa.specs.Layout.{InSigned};
ghost use Rattle.rv_isa.specs.Table.{InRange, InImmediate, IsAmount, IsEven, imm_key, imm_word_key, is_shift};

use crate::inst::{ImmOp, ImmWordOp, Inst};

/// Whether the registers and the immediate of an instruction are in range, as `encode` wants them.
pub fn fits(inst: &Inst) -> bool
    ensures in_range { IsTrue result ↔ InRange inst.now }
{
    match *inst {
        Inst::Lui(rd, imm) => rd < 32 && is_signed(imm, 1 << 19),
        Inst::Auipc(rd, imm) => rd < 32 && is_signed(imm, 1 << 19),
        Inst::Jal(rd, imm) => rd < 32 && is_signed(imm, 1 << 20) && is_even(imm),
        Inst::Jalr(rd, rs1, imm) => rd < 32 && rs1 < 32 && is_signed(imm, 2048),
        Inst::Branch(_, rs1, rs2, imm) => {
            rs1 < 32 && rs2 < 32 && is_signed(imm, 4096) && is_even(imm)
        }
        Inst::Load(_, rd, rs1, imm) => rd < 32 && rs1 < 32 && is_signed(imm, 2048),
        Inst::Store(_, rs1, rs2, imm) => rs1 < 32 && rs2 < 32 && is_signed(imm, 2048),
        Inst::Imm(op, rd, rs1, imm) => rd < 32 && rs1 < 32 && is_imm(op, imm),
        Inst::Reg(_, rd, rs1, rs2) => rd < 32 && rs1 < 32 && rs2 < 32,
        Inst::ImmWord(op, rd, rs1, imm) => rd < 32 && rs1 < 32 && is_imm_word(op, imm),
        Inst::RegWord(_, rd, rs1, rs2) => rd < 32 && rs1 < 32 && rs2 < 32,
        Inst::Fence(rd, rs1, imm) => rd < 32 && rs1 < 32 && is_signed(imm, 2048),
        Inst::Ecall | Inst::Ebreak => true,
    }
}

fn is_imm(op: ImmOp, imm: i32) -> bool
    ensures { IsTrue result ↔ InImmediate (is_shift (imm_key op % 8)) 64 imm }
{
    match op {
        ImmOp::Slli | ImmOp::Srli | ImmOp::Srai => is_amount(imm, 64),
        _ => is_signed(imm, 2048),
    }
}

fn is_imm_word(op: ImmWordOp, imm: i32) -> bool
    ensures { IsTrue result ↔ InImmediate (is_shift (imm_word_key op % 8)) 32 imm }
{
    match op {
        ImmWordOp::Slliw | ImmWordOp::Srliw | ImmWordOp::Sraiw => is_amount(imm, 32),
        _ => is_signed(imm, 2048),
    }
}

// From 0 to amounts - 1.
fn is_amount(imm: i32, amounts: u32) -> bool
    ensures { IsTrue result ↔ IsAmount amounts imm }
{
    imm >= 0 && imm.unsigned_abs() < amounts
}

// From -half to half - 1.
fn is_signed(imm: i32, half: u32) -> bool
    ensures { IsTrue result ↔ InSigned half imm }
{
    if imm < 0 {
        imm.unsigned_abs() <= half
    } else {
        imm.unsigned_abs() < half
    }
}

fn is_even(imm: i32) -> bool
    ensures { IsTrue result ↔ IsEven imm }
{
    imm.unsigned_abs() % 2 == 0
}

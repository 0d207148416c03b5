//! Instructions of words.

ghost use Rattle.std.specs.Prelude.{◌≡◌, ◌≤◌, ◌<◌, ◌^◌, ◌+◌, ◌/◌, ◌%◌, ◌≢◌, IfSome, IfNone};
ghost use Rattle.rv_isa.specs.Layout.{fields, signed, IsInWidth, b_bits, j_back};
ghost use Rattle.rv_isa.specs.declared.inst.Inst.{Inst};
ghost use Rattle.rv_isa.specs.Table.{decode_word, decode_fields, encode_word, InRange, IsDecoded, find_key, key, branch_key, branch_ops, load_key, load_ops, store_key, store_ops, imm_key, imm_ops, reg_key, reg_ops, imm_word_key, imm_word_ops, reg_word_key, reg_word_ops, call_of, decode_group, Imms, ImmWords};

use crate::inst::{
    BranchOp, Fields, ImmOp, ImmWordOp, Inst, LoadOp, RegOp, RegWordOp, StoreOp, opcode,
};

/// The instruction of a word, or None where no row of the table has the word.
///
/// Words and fields are those of the RISC-V Instruction Set Manual, Volume I: Unprivileged ISA, RV64I and M.
pub fn decode(word: u32) -> Option<Inst>
    ensures value { result ≡ decode_word word }
    ensures some { IfSome result (λ i. IsDecoded word i) }
    ensures none { IfNone result ((i : Inst) → InRange i → encode_word i ≢ word) }
{
    instruction(fields_of(word))
}

fn instruction(f: Fields) -> Option<Inst>
    requires { IsInWidth f }
    ensures { result ≡ decode_fields f }
{
    let (rd, rs1, rs2) = (f.rd as u8, f.rs1 as u8, f.rs2 as u8);
    let upper = f.funct3 + 8 * f.rs1 + 256 * f.rs2 + 8192 * f.funct7;
    let low = f.rs2 + 32 * f.funct7;
    match f.opcode {
        opcode::LUI => Some(Inst::Lui(rd, signed_of(upper, 1 << 19))),
        opcode::AUIPC => Some(Inst::Auipc(rd, signed_of(upper, 1 << 19))),
        opcode::JAL => Some(Inst::Jal(rd, signed_of(j_back_of(upper), 1 << 20))),
        opcode::JALR if f.funct3 == 0 => Some(Inst::Jalr(rd, rs1, signed_of(low, 2048))),
        opcode::BRANCH => branch_op(f.funct3).map(|op| Inst::Branch(
            op,
            rs1,
            rs2,
            signed_of(b_bits_of(f), 4096),
        )),
        opcode::LOAD => load_op(f.funct3).map(|op| Inst::Load(op, rd, rs1, signed_of(low, 2048))),
        opcode::STORE => store_op(f.funct3).map(|op| Inst::Store(
            op,
            rs1,
            rs2,
            signed_of(f.rd + 32 * f.funct7, 2048),
        )),
        opcode::OP_IMM => imm_of(f),
        opcode::OP => reg_op(f.funct3, f.funct7).map(|op| Inst::Reg(op, rd, rs1, rs2)),
        opcode::OP_IMM_32 => imm_word_of(f),
        opcode::OP_32 => reg_word_op(f.funct3, f.funct7).map(|op| Inst::RegWord(op, rd, rs1, rs2)),
        opcode::MISC_MEM if f.funct3 == 0 => Some(Inst::Fence(rd, rs1, signed_of(low, 2048))),
        opcode::SYSTEM => call_of_word(f.rd + 32 * upper),
        _ => None,
    }
}

// ECALL and EBREAK by all the bits above the opcode.
fn call_of_word(upper: u32) -> Option<Inst>
    ensures { result ≡ call_of upper }
{
    match upper {
        0 => Some(Inst::Ecall),
        0x2000 => Some(Inst::Ebreak),
        _ => None,
    }
}

// A shift has its amount in the lower six bits of the immediate, and the upper six tell which shift it is.
fn imm_of(f: Fields) -> Option<Inst>
    requires { IsInWidth f }
    ensures { result ≡ decode_group f Imms }
{
    let bits = f.rs2 + 32 * f.funct7;
    let (rd, rs1) = (f.rd as u8, f.rs1 as u8);
    if f.funct3 == 1 || f.funct3 == 5 {
        imm_op(f.funct3, bits / 64).map(|op| Inst::Imm(op, rd, rs1, (bits % 64) as i32))
    } else {
        imm_op(f.funct3, 0).map(|op| Inst::Imm(op, rd, rs1, signed_of(bits, 2048)))
    }
}

// In word forms the amount has five bits, and the sixth belongs to the seven that tell which shift it is.
fn imm_word_of(f: Fields) -> Option<Inst>
    requires { IsInWidth f }
    ensures { result ≡ decode_group f ImmWords }
{
    let bits = f.rs2 + 32 * f.funct7;
    let (rd, rs1) = (f.rd as u8, f.rs1 as u8);
    if f.funct3 == 1 || f.funct3 == 5 {
        imm_word_op(f.funct3, bits / 32).map(|op| Inst::ImmWord(op, rd, rs1, (bits % 32) as i32))
    } else {
        imm_word_op(f.funct3, 0).map(|op| Inst::ImmWord(op, rd, rs1, signed_of(bits, 2048)))
    }
}

fn b_bits_of(f: Fields) -> u32
    requires { IsInWidth f }
    ensures { result ≡ b_bits f }
{
    f.rd & 0x1e | (f.funct7 & 0x3f) << 5 | (f.rd & 1) << 11 | f.funct7 >> 6 << 12
}

fn j_back_of(upper: u32) -> u32
    requires { upper < 2 ^ 20 }
    ensures { result ≡ j_back upper }
{
    (upper >> 9 & 0x3ff) << 1 | (upper >> 8 & 1) << 11 | (upper & 0xff) << 12 | upper >> 19 << 20
}

fn fields_of(word: u32) -> Fields
    ensures { result ≡ fields word }
{
    Fields {
        opcode: word & 0x7f,
        rd: word >> 7 & 0x1f,
        funct3: word >> 12 & 0x7,
        rs1: word >> 15 & 0x1f,
        rs2: word >> 20 & 0x1f,
        funct7: word >> 25,
    }
}

// The number from -half to half - 1 that has these bits in two's complement.
fn signed_of(bits: u32, half: u32) -> i32
    requires half { half ≤ 2 ^ 20 }
    requires range { bits < half + half }
    ensures { result ≡ signed half bits }
{
    if bits < half {
        bits as i32
    } else {
        bits as i32 - 2 * half as i32
    }
}

fn branch_op(funct3: u32) -> Option<BranchOp>
    ensures { result ≡ find_key branch_key branch_ops funct3 }
{
    match funct3 {
        0 => Some(BranchOp::Beq),
        1 => Some(BranchOp::Bne),
        4 => Some(BranchOp::Blt),
        5 => Some(BranchOp::Bge),
        6 => Some(BranchOp::Bltu),
        7 => Some(BranchOp::Bgeu),
        _ => None,
    }
}

fn reg_op(funct3: u32, funct7: u32) -> Option<RegOp>
    requires { funct3 < 8 }
    ensures { result ≡ find_key reg_key reg_ops (key funct3 funct7) }
{
    match (funct7, funct3) {
        (0x00, 0) => Some(RegOp::Add),
        (0x20, 0) => Some(RegOp::Sub),
        (0x00, 1) => Some(RegOp::Sll),
        (0x00, 2) => Some(RegOp::Slt),
        (0x00, 3) => Some(RegOp::Sltu),
        (0x00, 4) => Some(RegOp::Xor),
        (0x00, 5) => Some(RegOp::Srl),
        (0x20, 5) => Some(RegOp::Sra),
        (0x00, 6) => Some(RegOp::Or),
        (0x00, 7) => Some(RegOp::And),
        (0x01, 0) => Some(RegOp::Mul),
        (0x01, 1) => Some(RegOp::Mulh),
        (0x01, 2) => Some(RegOp::Mulhsu),
        (0x01, 3) => Some(RegOp::Mulhu),
        (0x01, 4) => Some(RegOp::Div),
        (0x01, 5) => Some(RegOp::Divu),
        (0x01, 6) => Some(RegOp::Rem),
        (0x01, 7) => Some(RegOp::Remu),
        _ => None,
    }
}

fn load_op(funct3: u32) -> Option<LoadOp>
    ensures { result ≡ find_key load_key load_ops funct3 }
{
    match funct3 {
        0 => Some(LoadOp::Lb),
        1 => Some(LoadOp::Lh),
        2 => Some(LoadOp::Lw),
        3 => Some(LoadOp::Ld),
        4 => Some(LoadOp::Lbu),
        5 => Some(LoadOp::Lhu),
        6 => Some(LoadOp::Lwu),
        _ => None,
    }
}

fn store_op(funct3: u32) -> Option<StoreOp>
    ensures { result ≡ find_key store_key store_ops funct3 }
{
    match funct3 {
        0 => Some(StoreOp::Sb),
        1 => Some(StoreOp::Sh),
        2 => Some(StoreOp::Sw),
        3 => Some(StoreOp::Sd),
        _ => None,
    }
}

fn imm_op(funct3: u32, upper: u32) -> Option<ImmOp>
    requires { funct3 < 8 }
    ensures { result ≡ find_key imm_key imm_ops (key funct3 upper) }
{
    match (funct3, upper) {
        (0, 0x00) => Some(ImmOp::Addi),
        (2, 0x00) => Some(ImmOp::Slti),
        (3, 0x00) => Some(ImmOp::Sltiu),
        (4, 0x00) => Some(ImmOp::Xori),
        (6, 0x00) => Some(ImmOp::Ori),
        (7, 0x00) => Some(ImmOp::Andi),
        (1, 0x00) => Some(ImmOp::Slli),
        (5, 0x00) => Some(ImmOp::Srli),
        (5, 0x10) => Some(ImmOp::Srai),
        _ => None,
    }
}

fn imm_word_op(funct3: u32, upper: u32) -> Option<ImmWordOp>
    requires { funct3 < 8 }
    ensures { result ≡ find_key imm_word_key imm_word_ops (key funct3 upper) }
{
    match (funct3, upper) {
        (0, 0x00) => Some(ImmWordOp::Addiw),
        (1, 0x00) => Some(ImmWordOp::Slliw),
        (5, 0x00) => Some(ImmWordOp::Srliw),
        (5, 0x20) => Some(ImmWordOp::Sraiw),
        _ => None,
    }
}

fn reg_word_op(funct3: u32, upper: u32) -> Option<RegWordOp>
    requires { funct3 < 8 }
    ensures { result ≡ find_key reg_word_key reg_word_ops (key funct3 upper) }
{
    match (funct3, upper) {
        (0, 0x00) => Some(RegWordOp::Addw),
        (0, 0x20) => Some(RegWordOp::Subw),
        (1, 0x00) => Some(RegWordOp::Sllw),
        (5, 0x00) => Some(RegWordOp::Srlw),
        (5, 0x20) => Some(RegWordOp::Sraw),
        (0, 0x01) => Some(RegWordOp::Mulw),
        (4, 0x01) => Some(RegWordOp::Divw),
        (5, 0x01) => Some(RegWordOp::Divuw),
        (6, 0x01) => Some(RegWordOp::Remw),
        (7, 0x01) => Some(RegWordOp::Remuw),
        _ => None,
    }
}

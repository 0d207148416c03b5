//! Words of instructions.

ghost use Rattle.std.specs.Prelude.{◌≡◌, ◌≤◌, ◌<◌, ◌^◌, ◌+◌, ◌/◌, ◌%◌, Some};
ghost use Rattle.rv_isa.specs.Layout.{word, IsInWidth, unsigned, InSigned, r_fields, i_fields, s_fields, b_fields, u_fields, j_order};
ghost use Rattle.rv_isa.specs.Table.{encode_word, encode_fields, decode_word, InRange, branch_key, load_key, store_key, imm_key, reg_key, imm_word_key, reg_word_key};

use crate::inst::{
    BranchOp, Fields, ImmOp, ImmWordOp, Inst, LoadOp, RegOp, RegWordOp, StoreOp, opcode,
};

/// The word of an instruction whose registers and immediate are in range (`fits` is the test).
///
/// Formats and rows are those of the RISC-V Instruction Set Manual, Volume I: Unprivileged ISA, RV64I and M.
pub fn encode(inst: &Inst) -> u32
    requires { InRange inst.now }
    ensures word { result ≡ encode_word inst.now }
    ensures decoded { decode_word result ≡ Some inst.now }
{
    word_of(fields_for(inst))
}

fn fields_for(inst: &Inst) -> Fields
    requires { InRange inst.now }
    ensures { result ≡ encode_fields inst.now }
{
    match *inst {
        Inst::Lui(rd, imm) => u_fields_of(opcode::LUI, rd, unsigned_of(imm, 1 << 19)),
        Inst::Auipc(rd, imm) => u_fields_of(opcode::AUIPC, rd, unsigned_of(imm, 1 << 19)),
        Inst::Jal(rd, imm) => u_fields_of(opcode::JAL, rd, j_order_of(unsigned_of(imm, 1 << 20))),
        Inst::Jalr(rd, rs1, imm) => i_fields_of(opcode::JALR, 0, rd, rs1, unsigned_of(imm, 2048)),
        Inst::Branch(op, rs1, rs2, imm) => b_fields_of(
            branch_funct(op),
            rs1,
            rs2,
            unsigned_of(imm, 4096),
        ),
        Inst::Load(op, rd, rs1, imm) => i_fields_of(
            opcode::LOAD,
            load_funct(op),
            rd,
            rs1,
            unsigned_of(imm, 2048),
        ),
        Inst::Store(op, rs1, rs2, imm) => s_fields_of(
            store_funct(op),
            rs1,
            rs2,
            unsigned_of(imm, 2048),
        ),
        Inst::Imm(op, rd, rs1, imm) => {
            let (funct3, upper) = imm_functs(op);
            i_fields_of(
                opcode::OP_IMM,
                funct3,
                rd,
                rs1,
                unsigned_of(imm, 2048) + 64 * upper,
            )
        }
        Inst::Reg(op, rd, rs1, rs2) => {
            let (funct3, funct7) = reg_functs(op);
            r_fields_of(opcode::OP, funct3, funct7, rd, rs1, rs2)
        }
        Inst::ImmWord(op, rd, rs1, imm) => {
            let (funct3, upper) = imm_word_functs(op);
            i_fields_of(
                opcode::OP_IMM_32,
                funct3,
                rd,
                rs1,
                unsigned_of(imm, 2048) + 32 * upper,
            )
        }
        Inst::RegWord(op, rd, rs1, rs2) => {
            let (funct3, funct7) = reg_word_functs(op);
            r_fields_of(opcode::OP_32, funct3, funct7, rd, rs1, rs2)
        }
        Inst::Fence(rd, rs1, imm) => i_fields_of(
            opcode::MISC_MEM,
            0,
            rd,
            rs1,
            unsigned_of(imm, 2048),
        ),
        Inst::Ecall => i_fields_of(opcode::SYSTEM, 0, 0, 0, 0),
        Inst::Ebreak => i_fields_of(opcode::SYSTEM, 0, 0, 0, 1),
    }
}

fn r_fields_of(opcode: u32, funct3: u32, funct7: u32, rd: u8, rs1: u8, rs2: u8) -> Fields
    ensures { result ≡ r_fields opcode funct3 funct7 rd rs1 rs2 }
{
    Fields {
        opcode,
        rd: rd as u32,
        funct3,
        rs1: rs1 as u32,
        rs2: rs2 as u32,
        funct7,
    }
}

fn i_fields_of(opcode: u32, funct3: u32, rd: u8, rs1: u8, bits: u32) -> Fields
    ensures { result ≡ i_fields opcode funct3 rd rs1 bits }
{
    Fields {
        opcode,
        rd: rd as u32,
        funct3,
        rs1: rs1 as u32,
        rs2: bits & 0x1f,
        funct7: bits >> 5,
    }
}

fn s_fields_of(funct3: u32, rs1: u8, rs2: u8, bits: u32) -> Fields
    ensures { result ≡ s_fields 0x23 funct3 rs1 rs2 bits }
{
    Fields {
        opcode: opcode::STORE,
        rd: bits & 0x1f,
        funct3,
        rs1: rs1 as u32,
        rs2: rs2 as u32,
        funct7: bits >> 5,
    }
}

fn b_fields_of(funct3: u32, rs1: u8, rs2: u8, bits: u32) -> Fields
    requires { bits < 2 ^ 13 }
    ensures { result ≡ b_fields 0x63 funct3 rs1 rs2 bits }
{
    Fields {
        opcode: opcode::BRANCH,
        rd: bits >> 11 & 1 | (bits >> 1 & 0xf) << 1,
        funct3,
        rs1: rs1 as u32,
        rs2: rs2 as u32,
        funct7: bits >> 5 & 0x3f | bits >> 12 << 6,
    }
}

fn u_fields_of(opcode: u32, rd: u8, bits: u32) -> Fields
    ensures { result ≡ u_fields opcode rd bits }
{
    Fields {
        opcode,
        rd: rd as u32,
        funct3: bits & 7,
        rs1: bits >> 3 & 0x1f,
        rs2: bits >> 8 & 0x1f,
        funct7: bits >> 13,
    }
}

// A jump's bits in the order in which the upper twenty bits of its word have them.
fn j_order_of(bits: u32) -> u32
    requires { bits < 2 ^ 21 }
    ensures { result ≡ j_order bits }
{
    bits >> 12 & 0xff | (bits >> 11 & 1) << 8 | (bits >> 1 & 0x3ff) << 9 | bits >> 20 << 19
}

fn word_of(fields: Fields) -> u32
    requires { IsInWidth fields }
    ensures { result ≡ word fields }
{
    fields.opcode
        | fields.rd << 7
        | fields.funct3 << 12
        | fields.rs1 << 15
        | fields.rs2 << 20
        | fields.funct7 << 25
}

// Two's complement of a number from -half to half - 1.
fn unsigned_of(value: i32, half: u32) -> u32
    requires half { half ≤ 2 ^ 20 }
    requires range { InSigned half value }
    ensures { result ≡ unsigned half value }
{
    if value < 0 {
        2 * half - value.unsigned_abs()
    } else {
        value as u32
    }
}

fn branch_funct(op: BranchOp) -> u32
    ensures { result ≡ branch_key op }
{
    match op {
        BranchOp::Beq => 0,
        BranchOp::Bne => 1,
        BranchOp::Blt => 4,
        BranchOp::Bge => 5,
        BranchOp::Bltu => 6,
        BranchOp::Bgeu => 7,
    }
}

fn reg_functs(op: RegOp) -> (u32, u32)
    ensures funct3 { result.0 ≡ reg_key op % 8 }
    ensures funct7 { result.1 ≡ reg_key op / 8 }
{
    match op {
        RegOp::Add => (0, 0x00),
        RegOp::Sub => (0, 0x20),
        RegOp::Sll => (1, 0x00),
        RegOp::Slt => (2, 0x00),
        RegOp::Sltu => (3, 0x00),
        RegOp::Xor => (4, 0x00),
        RegOp::Srl => (5, 0x00),
        RegOp::Sra => (5, 0x20),
        RegOp::Or => (6, 0x00),
        RegOp::And => (7, 0x00),
        RegOp::Mul => (0, 0x01),
        RegOp::Mulh => (1, 0x01),
        RegOp::Mulhsu => (2, 0x01),
        RegOp::Mulhu => (3, 0x01),
        RegOp::Div => (4, 0x01),
        RegOp::Divu => (5, 0x01),
        RegOp::Rem => (6, 0x01),
        RegOp::Remu => (7, 0x01),
    }
}

fn load_funct(op: LoadOp) -> u32
    ensures { result ≡ load_key op }
{
    match op {
        LoadOp::Lb => 0,
        LoadOp::Lh => 1,
        LoadOp::Lw => 2,
        LoadOp::Ld => 3,
        LoadOp::Lbu => 4,
        LoadOp::Lhu => 5,
        LoadOp::Lwu => 6,
    }
}

fn store_funct(op: StoreOp) -> u32
    ensures { result ≡ store_key op }
{
    match op {
        StoreOp::Sb => 0,
        StoreOp::Sh => 1,
        StoreOp::Sw => 2,
        StoreOp::Sd => 3,
    }
}

fn imm_functs(op: ImmOp) -> (u32, u32)
    ensures funct3 { result.0 ≡ imm_key op % 8 }
    ensures upper { result.1 ≡ imm_key op / 8 }
{
    match op {
        ImmOp::Addi => (0, 0x00),
        ImmOp::Slti => (2, 0x00),
        ImmOp::Sltiu => (3, 0x00),
        ImmOp::Xori => (4, 0x00),
        ImmOp::Ori => (6, 0x00),
        ImmOp::Andi => (7, 0x00),
        ImmOp::Slli => (1, 0x00),
        ImmOp::Srli => (5, 0x00),
        ImmOp::Srai => (5, 0x10),
    }
}

fn imm_word_functs(op: ImmWordOp) -> (u32, u32)
    ensures funct3 { result.0 ≡ imm_word_key op % 8 }
    ensures upper { result.1 ≡ imm_word_key op / 8 }
{
    match op {
        ImmWordOp::Addiw => (0, 0x00),
        ImmWordOp::Slliw => (1, 0x00),
        ImmWordOp::Srliw => (5, 0x00),
        ImmWordOp::Sraiw => (5, 0x20),
    }
}

fn reg_word_functs(op: RegWordOp) -> (u32, u32)
    ensures funct3 { result.0 ≡ reg_word_key op % 8 }
    ensures upper { result.1 ≡ reg_word_key op / 8 }
{
    match op {
        RegWordOp::Addw => (0, 0x00),
        RegWordOp::Subw => (0, 0x20),
        RegWordOp::Sllw => (1, 0x00),
        RegWordOp::Srlw => (5, 0x00),
        RegWordOp::Sraw => (5, 0x20),
        RegWordOp::Mulw => (0, 0x01),
        RegWordOp::Divw => (4, 0x01),
        RegWordOp::Divuw => (5, 0x01),
        RegWordOp::Remw => (6, 0x01),
        RegWordOp::Remuw => (7, 0x01),
    }
}

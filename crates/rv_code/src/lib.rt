//! Straight-line code: what pieces of words do where they stand in a machine's memory.
#![tactic(auto)]

ghost use Rattle.rv_code.specs.Line.{PairReaches, CodeStays, ReadSame, ReadOther};
ghost use Rattle.rv_code.specs.Pieces.{ConstantGoes, OperationGoes, LoadGoes, SaveGoes, StoreGoes, ShowGoes, PrintGoes, ByteGoes, LineGoes, HaltGoes, JumpGoes};

/// Code, constants and pairs of words: a pair reaches a near target, data that is written changes no code.
pub fn memory_law()
    ensures reaches { PairReaches }
    ensures code { CodeStays }
    ensures same { ReadSame }
    ensures other { ReadOther }
{}

/// Eight words put a constant into a register, one word an operation of two registers.
pub fn value_law()
    ensures constant { ConstantGoes }
    ensures operation { OperationGoes }
{}

/// A unit of the data is loaded into a register, and stored from a register or a constant.
pub fn unit_law()
    ensures load { LoadGoes }
    ensures save { SaveGoes }
    ensures store { StoreGoes }
{}

/// A number, a byte and the end of a line are printed, and the program ends.
pub fn call_law()
    ensures show { ShowGoes }
    ensures print { PrintGoes }
    ensures byte { ByteGoes }
    ensures line { LineGoes }
    ensures halt { HaltGoes }
{}

/// A pair of words goes to a near target and keeps where it came from.
pub fn jump_law()
    ensures { JumpGoes }
{}

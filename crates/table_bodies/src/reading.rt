//! The notation of bodies.
//!
//! Blocks stand with `|` between them, and the parts of a block with `;`. A part is a word, for an instruction or an end, with its
//! operands in the order of `ir_core`: `add 2 0 1`, `load 0 l3*5[1]`, `store l0 log 2`, `fresh 1 4 0 int 0`, `call 1 2` or `call 1`. A
//! spot is `d`, `l` or `c` with a number, for a dummy, the local area or a COMMON block, with `*` and its length where that isn't 1, and
//! its index between `[` and `]`.
use f77_tree::{List, Name, Ty};
use ir_core::{Base, Block, Calc, End, Instr, Seat, Spot};
use std::alloc::{AllocError, Global};

fn word<'a>(words: &[&'a str], at: usize) -> &'a str {
    match words.get(at) {
        Some(word) => word,
        None => "",
    }
}

fn number(words: &[&str], at: usize) -> u32 {
    word(words, at).parse::<u32>().unwrap_or(0)
}

fn integer(words: &[&str], at: usize) -> i64 {
    word(words, at).parse::<i64>().unwrap_or(0)
}

fn byte(words: &[&str], at: usize) -> u8 {
    word(words, at).parse::<u8>().unwrap_or(0)
}

fn type_at(words: &[&str], at: usize) -> Ty {
    if word(words, at) == "log" {
        Ty::Logical
    } else {
        Ty::Integer
    }
}

fn base_of(alloc: Global, text: &str) -> Result<Base, AllocError> {
    if let Some(position) = text.strip_prefix('d') {
        return Ok(Base::Dummy(position.parse::<u32>().unwrap_or(0)));
    }
    if let Some(from) = text.strip_prefix('l') {
        return Ok(Base::Local(from.parse::<u32>().unwrap_or(0)));
    }
    let from = text.strip_prefix('c').unwrap_or(text);
    let block = Name::from_list(List::from_slice(alloc, b"B")?);
    Ok(Base::Common(block, from.parse::<u32>().unwrap_or(0)))
}

// The index of a spot, and what stands before it.
fn indexed(text: &str) -> (&str, Option<u32>) {
    match text.split_once('[') {
        Some((before, index)) => {
            let index = index.strip_suffix(']').unwrap_or(index);
            (before, index.parse::<u32>().ok())
        }
        None => (text, None),
    }
}

// The length of a spot, and what stands before it.
fn measured(text: &str) -> (&str, u32) {
    match text.split_once('*') {
        Some((before, length)) => (before, length.parse::<u32>().unwrap_or(1)),
        None => (text, 1),
    }
}

fn spot_at(alloc: Global, words: &[&str], at: usize) -> Result<Spot, AllocError> {
    let (place, index) = indexed(word(words, at));
    let (base, length) = measured(place);
    let base = base_of(alloc, base)?;
    Ok(Spot {
        base,
        length,
        index,
    })
}

fn calc_of(name: &str) -> Option<Calc> {
    match name {
        "add" => Some(Calc::Add),
        "sub" => Some(Calc::Sub),
        "mul" => Some(Calc::Mul),
        "div" => Some(Calc::Div),
        "rem" => Some(Calc::Rem),
        "and" => Some(Calc::And),
        "or" => Some(Calc::Or),
        "xor" => Some(Calc::Xor),
        "eq" => Some(Calc::Eq),
        "ne" => Some(Calc::Ne),
        "lt" => Some(Calc::Lt),
        "le" => Some(Calc::Le),
        "gt" => Some(Calc::Gt),
        "ge" => Some(Calc::Ge),
        "shift63" => Some(Calc::Shift63),
        _ => None,
    }
}

// An instruction without a spot.
fn plain_of(words: &[&str]) -> Option<Instr> {
    let first = number(words, 1);
    let second = number(words, 2);
    match word(words, 0) {
        "const" => Some(Instr::Const(first, integer(words, 2))),
        "copy" => Some(Instr::Copy(first, second)),
        "argument" => Some(Instr::Argument(first, second)),
        "call" => Some(Instr::Call(first, word(words, 2).parse::<u32>().ok())),
        "print" => Some(Instr::PrintInt(first)),
        "truth" => Some(Instr::PrintTruth(first)),
        "byte" => Some(Instr::PrintByte(byte(words, 1))),
        "line" => Some(Instr::EndLine),
        "read" => Some(Instr::Read(first)),
        "fresh" => Some(fresh_of(words)),
        name => {
            let calc = calc_of(name)?;
            Some(Instr::Calc(first, calc, second, number(words, 3)))
        }
    }
}

fn fresh_of(words: &[&str]) -> Instr {
    let seat = Seat {
        site: number(words, 2),
        position: number(words, 3),
    };
    Instr::Fresh(number(words, 1), seat, type_at(words, 4), number(words, 5))
}

fn load_of(alloc: Global, words: &[&str]) -> Result<Instr, AllocError> {
    Ok(Instr::Load(number(words, 1), spot_at(alloc, words, 2)?))
}

fn store_of(alloc: Global, words: &[&str]) -> Result<Instr, AllocError> {
    let spot = spot_at(alloc, words, 1)?;
    Ok(Instr::Store(spot, type_at(words, 2), number(words, 3)))
}

fn address_of(alloc: Global, words: &[&str]) -> Result<Instr, AllocError> {
    Ok(Instr::Address(number(words, 1), spot_at(alloc, words, 2)?))
}

fn instruction_of(alloc: Global, words: &[&str]) -> Result<Option<Instr>, AllocError> {
    match word(words, 0) {
        "load" => Ok(Some(load_of(alloc, words)?)),
        "store" => Ok(Some(store_of(alloc, words)?)),
        "address" => Ok(Some(address_of(alloc, words)?)),
        _ => Ok(plain_of(words)),
    }
}

// The blocks of a switch behind its temporary, of which the last is for all other words.
fn switch_of(alloc: Global, words: &[&str]) -> Result<End, AllocError> {
    let mut labels = List::new(alloc);
    for at in 2..words.len().saturating_sub(1) {
        labels.push(number(words, at))?;
    }
    let other = number(words, words.len().saturating_sub(1));
    Ok(End::Switch(number(words, 1), labels, other))
}

fn return_of(words: &[&str]) -> End {
    if words.len() > 1 {
        End::Return(Some((type_at(words, 1), number(words, 2))))
    } else {
        End::Return(None)
    }
}

fn end_of(alloc: Global, words: &[&str]) -> Result<Option<End>, AllocError> {
    let first = number(words, 1);
    match word(words, 0) {
        "jump" => Ok(Some(End::Jump(first))),
        "branch" => Ok(Some(End::Branch(first, number(words, 2), number(words, 3)))),
        "switch" => Ok(Some(switch_of(alloc, words)?)),
        "return" => Ok(Some(return_of(words))),
        "exit" => Ok(Some(End::Exit(byte(words, 1)))),
        _ => Ok(None),
    }
}

fn words_of<'a>(alloc: Global, text: &'a str) -> Result<Vec<&'a str>, AllocError> {
    let mut words = Vec::new(alloc);
    for word in text.split_whitespace() {
        words.push(word)?;
    }
    Ok(words)
}

fn push_instruction(
    alloc: Global,
    code: &mut List<Instr>,
    words: &[&str],
) -> Result<(), AllocError> {
    match instruction_of(alloc, words)? {
        Some(instruction) => code.push(instruction),
        None => Ok(()),
    }
}

fn code_of(alloc: Global, text: &str) -> Result<List<Instr>, AllocError> {
    let mut code = List::new(alloc);
    for part in text.split(';') {
        let words = words_of(alloc, part)?;
        push_instruction(alloc, &mut code, words.as_slice())?;
    }
    Ok(code)
}

// The end among the parts of a block.
fn end_in(alloc: Global, text: &str) -> Result<End, AllocError> {
    for part in text.split(';') {
        let words = words_of(alloc, part)?;
        if let Some(end) = end_of(alloc, words.as_slice())? {
            return Ok(end);
        }
    }
    Ok(End::Exit(0))
}

fn block_of(alloc: Global, statement: u32, text: &str) -> Result<Block, AllocError> {
    let code = code_of(alloc, text)?;
    let end = end_in(alloc, text)?;
    Ok(Block {
        statement,
        code,
        end,
    })
}

/// The blocks that a text is.
pub(crate) fn blocks_of(alloc: Global, text: &str) -> Result<List<Block>, AllocError> {
    let mut blocks = List::new(alloc);
    let mut statement: u32 = 0;
    for part in text.split('|') {
        blocks.push(block_of(alloc, statement, part)?)?;
        statement = statement.saturating_add(1);
    }
    Ok(blocks)
}

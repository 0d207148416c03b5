//! Small programs, in words that `riscv64-linux-gnu-as` gives.

use crate::kept::Machine;
use crate::loading::ElfRefused;
use crate::outcome::{Outcome, TrapCause, WriteFault};
use elf_file::elf_bytes;
use rn_ports::MemSink;
use std::alloc::Global;
use std::process::Abort;
use std::test::Fail;

// A machine with this code and two units of data, which begin at 65536 + 4096.
fn machine(
    rt: &impl Abort,
    alloc: Global,
    words: &[u32],
    input: Vec<i64>,
) -> Result<Machine, Fail> {
    let mut code = Vec::new(alloc);
    for word in words {
        code.extend_from_slice(word.to_le_bytes().as_slice())?;
    }
    let fits = code.len() <= 4096;
    assert!(rt; fits);
    let memory = Vec::from_slice(alloc, &[0; 16])?;
    Ok(Machine {
        pc: 65536,
        registers: [0; 32],
        code,
        memory,
        data_at: 69632,
        input,
        next: 0,
        outcome: Outcome::Running,
    })
}

// Runs a program of fewer than a hundred steps.
fn expect(
    rt: &impl Abort,
    alloc: Global,
    words: &[u32],
    input: Vec<i64>,
    text: &[u8],
    outcome: Outcome,
) -> Result<(), Fail> {
    let mut machine = machine(rt, alloc, words, input)?;
    let mut out = MemSink::new(alloc, 100, Vec::new(alloc))?;
    assert_eq!(rt;
        machine.run(100, &mut out),
        Ok(outcome),
        "the outcome of {words:?}"
    );
    assert_eq!(rt; out.bytes(), text, "the output of {words:?}");
    Ok(())
}

// Puts behind the words those that print x10 as a number and halt with status 0.
fn expect_number(rt: &impl Abort, alloc: Global, words: &[u32], text: &[u8]) -> Result<(), Fail> {
    let mut whole = Vec::from_slice(alloc, words)?;
    whole.extend_from_slice([
        0x00100893, 0x00000073, 0x05D00893, 0x00000513, 0x00000073,
    ].as_slice())?;
    expect(
        rt,
        alloc,
        whole.as_slice(),
        Vec::new(alloc),
        text,
        Outcome::Halted(0),
    )
}

fn expect_trap(
    rt: &impl Abort,
    alloc: Global,
    words: &[u32],
    pc: u64,
    cause: TrapCause,
) -> Result<(), Fail> {
    expect(
        rt,
        alloc,
        words,
        Vec::new(alloc),
        b"",
        Outcome::Trap(pc, cause),
    )
}

#[test]
fn rows(rt: HostRuntime) -> Result<(), Fail> {
    let alloc = rt.alloc();
    // lui a0, 0xfffff
    expect_number(&rt, alloc, &[0xFFFFF537], b"-4096")?;
    // auipc a0, 1
    expect_number(&rt, alloc, &[0x00001517], b"69632")?;
    // auipc t0, 0; jalr ra, 13(t0); ebreak; addi a0, ra, 0: the lowest bit of the target is cleared
    expect_number(
        &rt,
        alloc,
        &[0x00000297, 0x00D280E7, 0x00100073, 0x00008513],
        b"65544",
    )?;
    // addi a0, zero, -2048
    expect_number(&rt, alloc, &[0x80000513], b"-2048")?;
    // addi a0, zero, -1; slli a0, a0, 63
    expect_number(
        &rt,
        alloc,
        &[0xFFF00513, 0x03F51513],
        b"-9223372036854775808",
    )?;
    // lui a0, 0x80000; addiw a0, a0, -1
    expect_number(&rt, alloc, &[0x80000537, 0xFFF5051B], b"2147483647")?;
    // addi a0, zero, -1; slli a1, a0, 63; add a0, a0, a1
    expect_number(
        &rt,
        alloc,
        &[0xFFF00513, 0x03F51593, 0x00B50533],
        b"9223372036854775807",
    )?;
    // addi a0, zero, 3; addi a1, zero, 5; sub a0, a0, a1
    expect_number(&rt, alloc, &[0x00300513, 0x00500593, 0x40B50533], b"-2")?;
    // auipc t0, 1; addi a0, zero, -7; sd a0, 8(t0); ld a1, 8(t0); addi a0, a1, 0
    let words = [0x00001297, 0xFF900513, 0x00A2B423, 0x0082B583, 0x00058513];
    expect_number(&rt, alloc, words.as_slice(), b"-7")?;
    // addi zero, zero, 5; addi a0, zero, 0
    expect_number(&rt, alloc, &[0x00500013, 0x00000513], b"0")?;
    // auipc t0, 0; ld a0, 0(t0): these two words themselves
    expect_number(&rt, alloc, &[0x00000297, 0x0002B503], b"761974442951319")
}

#[test]
fn traps(rt: HostRuntime) -> Result<(), Fail> {
    let alloc = rt.alloc();
    // auipc t0, 1; ld a0, 4(t0)
    expect_trap(
        &rt,
        alloc,
        &[0x00001297, 0x0042B503],
        65540,
        TrapCause::Misaligned,
    )?;
    // ld a0, 1(zero): misaligned and unmapped
    expect_trap(&rt, alloc, &[0x00103503], 65536, TrapCause::Misaligned)?;
    // auipc t0, 0; jalr ra, 2(t0)
    expect_trap(
        &rt,
        alloc,
        &[0x00000297, 0x002280E7],
        65540,
        TrapCause::Misaligned,
    )?;
    // ld a0, 0(zero)
    expect_trap(&rt, alloc, &[0x00003503], 65536, TrapCause::Unmapped)?;
    // auipc t0, 0; ld a0, 8(t0); ebreak: four bytes of the load are within the code
    expect_trap(
        &rt,
        alloc,
        &[0x00000297, 0x0082B503, 0x00100073],
        65540,
        TrapCause::Unmapped,
    )?;
    // auipc t0, 0; sd t0, 0(t0): a store to the code
    expect_trap(
        &rt,
        alloc,
        &[0x00000297, 0x0052B023],
        65540,
        TrapCause::Unmapped,
    )?;
    // auipc t0, 1; sd t0, 16(t0): just past the data
    expect_trap(
        &rt,
        alloc,
        &[0x00001297, 0x0052B823],
        65540,
        TrapCause::Unmapped,
    )?;
    // jalr ra, 0(zero): the jump is done, and the fetch traps
    expect_trap(&rt, alloc, &[0x000000E7], 0, TrapCause::Unmapped)?;
    // addi a0, zero, 1: the code ends
    expect_trap(&rt, alloc, &[0x00100513], 65540, TrapCause::Unmapped)?;
    expect_trap(&rt, alloc, &[0x00000000], 65536, TrapCause::UnknownWord)?;
    expect_trap(&rt, alloc, &[0xFFFFFFFF], 65536, TrapCause::UnknownWord)?;
    // ebreak
    expect_trap(&rt, alloc, &[0x00100073], 65536, TrapCause::Breakpoint)?;
    // li a7, 6; ecall
    expect_trap(
        &rt,
        alloc,
        &[0x00600893, 0x00000073],
        65540,
        TrapCause::UnknownCall,
    )?;
    // the number of the call is 2 ^ 32 + 1
    let words = [0x00100893, 0x02089893, 0x00188893, 0x00000073];
    expect_trap(&rt, alloc, words.as_slice(), 65548, TrapCause::UnknownCall)
}

#[test]
fn calls(rt: HostRuntime) -> Result<(), Fail> {
    let alloc = rt.alloc();
    // 0 and 256 as truth values, the low byte of 321, the end of a line, the status -1
    let words = [
        0x00000513, 0x00200893, 0x00000073, 0x10000513, 0x00000073, 0x14100513, 0x00300893,
        0x00000073, 0x00400893, 0x00000073, 0xFFF00513, 0x05D00893, 0x00000073,
    ];
    expect(
        &rt,
        alloc,
        words.as_slice(),
        Vec::new(alloc),
        b"FTA\n",
        Outcome::Halted(255),
    )?;
    // reads and prints, reads where nothing is left, prints x10 and x11, and halts with x10
    let words = [
        0x00500893, 0x00000073, 0x00100893, 0x00000073, 0x00500893, 0x00000073, 0x00100893,
        0x00000073, 0x00058513, 0x00000073, 0x05D00893, 0x00000073,
    ];
    let mut input = Vec::new(alloc);
    input.push(-9)?;
    expect(
        &rt,
        alloc,
        words.as_slice(),
        input,
        b"-901",
        Outcome::Halted(1),
    )
}

#[test]
fn steps_and_faults(rt: HostRuntime) -> Result<(), Fail> {
    let alloc = rt.alloc();
    // prints A, B, C and D, and halts with 68
    let words = [
        0x00300893, 0x04100513, 0x00000073, 0x04200513, 0x00000073, 0x04300513, 0x00000073,
        0x04400513, 0x00000073, 0x05D00893, 0x00000073,
    ];
    let mut whole = machine(&rt, alloc, words.as_slice(), Vec::new(alloc))?;
    let mut out = MemSink::new(alloc, 100, Vec::new(alloc))?;
    assert_eq!(rt;
        whole.run(10, &mut out),
        Ok(Outcome::Running),
        "one step too few"
    );
    assert_eq!(rt;
        whole.run(1, &mut out),
        Ok(Outcome::Halted(68)),
        "the last step"
    );
    assert_eq!(rt;
        whole.run(5, &mut out),
        Ok(Outcome::Halted(68)),
        "after the end"
    );
    assert_eq!(rt; out.bytes(), b"ABCD".as_slice());
    // the third write fails: the machine stands before it, and goes on there
    let mut fails = Vec::new(alloc);
    fails.push(3)?;
    let mut out = MemSink::new(alloc, 100, fails)?;
    let mut stopped = machine(&rt, alloc, words.as_slice(), Vec::new(alloc))?;
    assert_eq!(rt;
        stopped.run(100, &mut out),
        Err(WriteFault),
        "the sink fails"
    );
    assert_eq!(rt; out.bytes(), b"AB".as_slice());
    assert_eq!(rt;
        stopped.run(4, &mut out),
        Ok(Outcome::Running),
        "four steps more"
    );
    assert_eq!(rt;
        stopped.run(1, &mut out),
        Ok(Outcome::Halted(68)),
        "the last step"
    );
    assert_eq!(rt; out.bytes(), b"ABCD".as_slice());
    Ok(())
}

#[test]
fn loads(rt: HostRuntime) -> Result<(), Fail> {
    let alloc = rt.alloc();
    // auipc t0, 1; ld a0, 0(t0); li a7, 1; ecall; ld a0, 8(t0); ecall; li a7, 93; ecall
    let words: [u32; 8] = [
        0x00001297, 0x0002B503, 0x00100893, 0x00000073, 0x0082B503, 0x00000073, 0x05D00893,
        0x00000073,
    ];
    let mut code = Vec::new(alloc);
    for word in &words {
        code.extend_from_slice(word.to_le_bytes().as_slice())?;
    }
    assert_eq!(rt; code.len(), 32);
    // two units of data, of which the file has the first
    let mut elf = elf_bytes(alloc, code.as_slice(), &[7, 0, 0, 0, 0, 0, 0, 0], 16)?;
    let mut machine = Machine::load(alloc, elf.as_slice(), Vec::new(alloc)).map_err(
        |_| "the file is refused",
    )?;
    let mut out = MemSink::new(alloc, 100, Vec::new(alloc))?;
    assert_eq!(rt; machine.run(100, &mut out), Ok(Outcome::Halted(0)));
    assert_eq!(rt; out.bytes(), b"70".as_slice());
    elf.push(0)?;
    let longer = Machine::load(alloc, elf.as_slice(), Vec::new(alloc));
    assert!(rt;
        matches!(longer, Err(ElfRefused::Malformed)),
        "a byte behind the file"
    );
    Ok(())
}

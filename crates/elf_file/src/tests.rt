//! A file by hand, and bytes that are near its shape.

use crate::{Parts, elf_bytes, find_parts};
use std::test::Fail;

// Written from the tables of the ELF-64 format: 8 bytes of code, and 24 bytes of data of which the file has 16.
static HEADERS: [u8; 176] = [
    0x7f, 0x45, 0x4c, 0x46, 0x02, 0x01, 0x01, 0, 0, 0, 0, 0, 0, 0, 0, 0, // identification
    0x02, 0, 0xf3, 0, 0x01, 0, 0, 0, // type, machine, version
    0, 0, 0x01, 0, 0, 0, 0, 0, // entry 0x10000
    0x40, 0, 0, 0, 0, 0, 0, 0, // program headers at 64
    0, 0, 0, 0, 0, 0, 0, 0, // no section headers
    0, 0, 0, 0, 0x40, 0, 0x38, 0, // flags, header size, program header size
    0x02, 0, 0, 0, 0, 0, 0, 0, // two program headers, no section headers
    0x01, 0, 0, 0, 0x05, 0, 0, 0, // loaded, to be read and executed
    0, 0x10, 0, 0, 0, 0, 0, 0, // offset 0x1000
    0, 0, 0x01, 0, 0, 0, 0, 0, // address 0x10000
    0, 0, 0x01, 0, 0, 0, 0, 0, // the same
    0x08, 0, 0, 0, 0, 0, 0, 0, // 8 bytes in the file
    0x08, 0, 0, 0, 0, 0, 0, 0, // 8 bytes in memory
    0, 0x10, 0, 0, 0, 0, 0, 0, // alignment 0x1000
    0x01, 0, 0, 0, 0x06, 0, 0, 0, // loaded, to be read and written
    0, 0x20, 0, 0, 0, 0, 0, 0, // offset 0x2000
    0, 0x10, 0x01, 0, 0, 0, 0, 0, // address 0x11000
    0, 0x10, 0x01, 0, 0, 0, 0, 0, // the same
    0x10, 0, 0, 0, 0, 0, 0, 0, // 16 bytes in the file
    0x18, 0, 0, 0, 0, 0, 0, 0, // 24 bytes in memory
    0, 0x10, 0, 0, 0, 0, 0, 0, // alignment 0x1000
];

// Two calls of the environment, and two numbers.
static CODE: [u8; 8] = [0x73, 0, 0, 0, 0x73, 0, 0, 0];

static DATA: [u8; 16] = [
    7, 0, 0, 0, 0, 0, 0, 0, 0xff, 0xff, 0xff, 0xff, 0xff, 0xff, 0xff, 0xff,
];

// Places where the lowest bit may not be turned: one or more in each field, and in both gaps.
static FIXED: [usize; 37] = [
    0, 1, 4, 5, 6, 7, 15, 16, 18, 20, 24, 31, 32, 40, 48, 52, 54, 56, 58, 60, 62, 64, 68, 72, 80,
    88, 96, 104, 112, 124, 128, 136, 144, 152, 168, 4095, 8191,
];

#[test]
fn writes_and_finds_a_file(rt: HostRuntime) -> Result<(), Fail> {
    let alloc = rt.alloc();
    let bytes = elf_bytes(alloc, &CODE, &DATA, 24)?;
    assert_eq!(rt; bytes.len(), 8208);
    assert!(rt; bytes.as_slice().starts_with(&HEADERS));
    assert!(rt; bytes[4096..4104] == CODE[..]);
    assert!(rt; bytes[8192..] == DATA[..]);
    let parts = Parts {
        code: 8,
        file: 16,
        memory: 24,
    };
    assert_eq!(rt; find_parts(alloc, bytes.as_slice())?, Some(parts));
    Ok(())
}

#[test]
fn refuses_what_is_off_the_shape(rt: HostRuntime) -> Result<(), Fail> {
    let alloc = rt.alloc();
    let mut bytes = elf_bytes(alloc, &CODE, &DATA, 24)?;
    for at in &FIXED {
        assert!(rt; *at < bytes.len());
        bytes[*at] ^= 1;
        assert_eq!(rt; find_parts(alloc, bytes.as_slice())?, None, "byte {at}");
        bytes[*at] ^= 1;
    }
    let len = bytes.len();
    assert!(rt; 0 < len);
    assert_eq!(rt; find_parts(alloc, &bytes[..len - 1])?, None);
    bytes.push(0)?;
    assert_eq!(rt; find_parts(alloc, bytes.as_slice())?, None);
    Ok(())
}

// Code and data are free, and so is the size of the data in memory.
#[test]
fn finds_other_files_of_the_shape(rt: HostRuntime) -> Result<(), Fail> {
    let alloc = rt.alloc();
    let empty = elf_bytes(alloc, b"", b"", 0)?;
    assert_eq!(rt; empty.len(), 4096);
    let none = Parts {
        code: 0,
        file: 0,
        memory: 0,
    };
    assert_eq!(rt; find_parts(alloc, empty.as_slice())?, Some(none));
    let mut bytes = elf_bytes(alloc, &CODE, &DATA, 24)?;
    assert_eq!(rt; bytes.len(), 8208);
    bytes[4096] = 0;
    bytes[8207] = 0;
    bytes[161] = 1;
    let larger = Parts {
        code: 8,
        file: 16,
        memory: 280,
    };
    assert_eq!(rt; find_parts(alloc, bytes.as_slice())?, Some(larger));
    Ok(())
}

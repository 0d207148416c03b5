//! Programs of 500,000 tokens, which take a build without optimisation too long for a table. A program at the limit has fault 7
//! at the head of its second unit, which isn't thin.
use f77_tree::List;
use rn_ports::{FreeGate, ListTally, MemKeeper, MemSink, MemSource};
use rn_session::rn_top;
use std::alloc::{AllocError, Global};
use std::test::Fail;

// 30 items: 62 tokens.
const LONG: &[u8] = b"      PRINT*,I,I,I,I,I,I,I,I,I,I,I,I,I,I,I,I,I,I,I,I,I,I,I,I,I,I,I,I,I,I\n";

const END: &[u8] = b"      END\n";

fn push_times(text: &mut Vec<u8>, line: &[u8], times: usize) -> Result<(), AllocError> {
    for _ in 0..times {
        text.extend_from_slice(line)?;
    }
    Ok(())
}

// The head of the subroutine of this number, of three digits at least.
fn push_head(text: &mut Vec<u8>, number: u32) -> Result<(), AllocError> {
    text.extend_from_slice(b"      SUBROUTINE S")?;
    for digit in [
        number / 1000,
        number / 100 % 10,
        number / 10 % 10,
        number % 10,
    ] {
        text.push(b'0' + (digit % 10) as u8)?;
    }
    text.push(b'\n')?;
    Ok(())
}

// What `one 100` replies to a text.
fn reply(alloc: Global, text: Vec<u8>) -> Result<Vec<u8>, Fail> {
    let mut words = Vec::new(alloc);
    words.push(List::from_slice(alloc, b"one".as_slice())?)?;
    words.push(List::from_slice(alloc, b"100".as_slice())?)?;
    let mut input = MemSource::new(text, Vec::new(alloc));
    let mut sink = MemSink::new(alloc, 200, Vec::new(alloc))?;
    let mut keep = MemKeeper::new(alloc, &[], 0, Vec::new(alloc), Vec::new(alloc))?;
    let mut tally = ListTally::new(alloc)?;
    let _ = rn_top(
        alloc,
        words.as_slice(),
        &mut input,
        &mut sink,
        &mut keep,
        &FreeGate,
        &mut tally,
    );
    Ok(Vec::from_slice(alloc, sink.bytes())?)
}

// A main program whose statements but the last and END have 3 and 322 * 62 tokens, and 24 subroutines of 20,000.
fn many_tokens(alloc: Global, last: &[u8]) -> Result<Vec<u8>, AllocError> {
    let mut text = Vec::new(alloc);
    text.extend_from_slice(b"      I=1\n")?;
    push_times(&mut text, LONG, 322)?;
    text.extend_from_slice(last)?;
    text.extend_from_slice(END)?;
    for number in 1..25 {
        push_head(&mut text, number)?;
        text.extend_from_slice(b"      I=1\n")?;
        push_times(&mut text, LONG, 322)?;
        text.extend_from_slice(b"      I=I+I+I+I+I+I+I+I+I+I+I+I+I+I+I\n")?;
        text.extend_from_slice(END)?;
    }
    Ok(text)
}

// 500,000 tokens, and 499,999 with a last unit of two.
#[test]
fn limits_tokens_of_a_program(rt: HostRuntime) -> Result<(), Fail> {
    let alloc = rt.alloc();
    let text = many_tokens(alloc, b"      PRINT*,I,I,I,I,I,I,I,I,I,I,I,I,I,I,I\n")?;
    let found = reply(alloc, text)?;
    assert_eq!(rt; found.as_slice(), b"fault 7 S0001 line 1\n".as_slice());
    let mut text = many_tokens(alloc, b"      I=I+I+I+I+I+I+I+I+I+I+I+I+I+I+I\n")?;
    push_head(&mut text, 25)?;
    text.extend_from_slice(END)?;
    let found = reply(alloc, text)?;
    assert_eq!(rt;
        found.as_slice(),
        b"fault 37 S0025 line 1 limit 500000\n".as_slice()
    );
    Ok(())
}

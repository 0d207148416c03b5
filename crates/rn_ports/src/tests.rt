use super::*;
use std::test::Fail;

fn list(rt: HostRuntime, numbers: &[u64]) -> Result<Vec<u64>, Fail> {
    Ok(Vec::from_slice(rt.alloc(), numbers)?)
}

fn source(rt: HostRuntime, bytes: &[u8], fails: &[u64]) -> Result<MemSource, Fail> {
    Ok(MemSource::new(Vec::from_slice(rt.alloc(), bytes)?, list(rt, fails)?))
}

// A source with its failing reads and a limit: what reading it whole answers.
#[test]
fn reads_whole_inputs(rt: HostRuntime) -> Result<(), Fail> {
    let long = vec![in rt.alloc(); b'x'; 5000]?;
    let long = long.as_slice();
    let none: &[u64] = &[];
    let table: [(&[u8], &[u64], usize, Result<&[u8], ReadRefused>); 8] = [
        (b"", none, 0, Ok(b"")),
        (b"abc", none, 3, Ok(b"abc")),
        (b"abcd", none, 3, Err(ReadRefused::TooLong)),
        (long, none, 5000, Ok(long)),
        (long, none, 4999, Err(ReadRefused::TooLong)),
        (b"abc", &[1], 3, Err(ReadRefused::Failed)),
        // in mid-stream, and where the end would show
        (long, &[2], 5000, Err(ReadRefused::Failed)),
        (long, &[3], 5000, Err(ReadRefused::Failed)),
    ];
    for (bytes, fails, limit, want) in table {
        let mut input = source(rt, bytes, fails)?;
        match (read_whole(rt.alloc(), &mut input, limit), want) {
            (Ok(read), Ok(wanted)) => assert_eq!(rt; read.as_slice(), wanted),
            (Err(refused), Err(wanted)) => assert_eq!(rt; refused, wanted),
            _ => assert!(rt; false, "at {limit}"),
        }
    }
    Ok(())
}

// A sink's room and its failing writes: whether the text was written whole, and what was written.
#[test]
fn writes_whole_texts(rt: HostRuntime) -> Result<(), Fail> {
    let none: &[u64] = &[];
    let table: [(&[u8], usize, &[u64], bool, &[u8]); 6] = [
        (b"", 0, none, true, b""),
        (b"abc", 3, none, true, b"abc"),
        (b"abc", 9, &[2], true, b"abc"),
        (b"abc", 9, &[1], false, b""),
        // a short write, and no room for the rest
        (b"abc", 2, none, false, b"ab"),
        (b"abc", 2, &[2], false, b"ab"),
    ];
    for (text, room, fails, whole, wanted) in table {
        let mut out = MemSink::new(rt.alloc(), room, list(rt, fails)?)?;
        assert_eq!(rt; write_whole(&mut out, text).is_ok(), whole, "room {room}");
        assert_eq!(rt; out.bytes(), wanted, "room {room}");
    }
    Ok(())
}

#[test]
fn keeps(rt: HostRuntime) -> Result<(), Fail> {
    let alloc = rt.alloc();
    let mut keep = MemKeeper::new(alloc, b"old", 4, list(rt, &[2])?, list(rt, &[3])?)?;
    let held = keep.load(alloc).ok().ok_or("a load that isn't listed")?;
    assert_eq!(rt; held.as_slice(), b"old".as_slice());
    assert_eq!(rt; keep.load(alloc).err(), Some(LoadRefused::Failed));
    assert_eq!(rt; keep.replace(b"newer"), Err(Failed), "past its room");
    assert_eq!(rt; keep.bytes(), b"old".as_slice());
    assert_eq!(rt; keep.replace(b"new"), Ok(()));
    assert_eq!(rt; keep.replace(b"last"), Err(Failed), "a listed replace");
    assert_eq!(rt; keep.bytes(), b"new".as_slice());
    Ok(())
}

#[test]
fn notes(rt: HostRuntime) -> Result<(), Fail> {
    let alloc = rt.alloc();
    let mut tally = ListTally::new(alloc)?;
    tally.note(alloc, Kind::Compile, b"MAIN")?;
    tally.note(alloc, Kind::Evaluate(2), b"S")?;
    assert_eq!(rt; tally.count(), 2);
    assert_eq!(rt; tally.kind_at(0), Kind::Compile);
    assert_eq!(rt; tally.kind_at(1), Kind::Evaluate(2));
    assert_eq!(rt; tally.unit_at(0), b"MAIN".as_slice());
    assert_eq!(rt; tally.unit_at(1), b"S".as_slice());
    Ok(())
}

#[test]
fn ports_over_std(rt: HostRuntime) -> Result<(), Fail> {
    let text: &[u8] = b"abc";
    let mut input = Reading::new(text);
    let read = read_whole(rt.alloc(), &mut input, 3).map_err(|_| "a reader of std")?;
    assert_eq!(rt; read.as_slice(), text);
    let mut out = Writing::new(Vec::new(rt.alloc()));
    assert_eq!(rt; write_whole(&mut out, text), Ok(()));
    let _input: StdinSource = Reading::new(rt.stdin());
    let mut out: StdoutSink = Writing::new(rt.stdout());
    assert_eq!(rt; write_whole(&mut out, b""), Ok(()));
    FreeGate.pass(0);
    Ok(())
}

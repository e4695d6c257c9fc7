//! Files that are read whole, from the system and from memory.
use crate::equal::{same, same_items};
use outside_io::{Begin, Desk, FileDesk, Got, MemoryDesk, ReadWhole, SureDesk, read_whole};
use std::alloc::{AllocError, Global};
use std::fs;
use std::test::Fail;

// A desk with a file of three bytes, an empty one, and one longer than a piece.
fn desk(alloc: Global, failing: Vec<u64>) -> Result<MemoryDesk, AllocError> {
    let mut files = Vec::new(alloc);
    files.push((String::from_str(alloc, "three")?, vec![in alloc; 7, 8, 9]?))?;
    files.push((String::from_str(alloc, "empty")?, Vec::new(alloc)))?;
    files.push((String::from_str(alloc, "long")?, vec![in alloc; 5; 10_000]?))?;
    files.push((String::from_str(alloc, "three")?, vec![in alloc; 1]?))?;
    Ok(MemoryDesk::make(files, failing))
}

#[test]
fn a_file_is_read_whole_up_to_its_limit(rt: HostRuntime) -> Result<(), Fail> {
    let alloc = rt.alloc();
    let mut desk = desk(alloc, Vec::new(alloc))?;
    for (name, limit, want) in [
        ("three", 4, Ok(3)),
        ("three", 3, Ok(3)),
        ("three", 2, Err(ReadWhole::TooLong)),
        ("three", 0, Err(ReadWhole::TooLong)),
        ("empty", 0, Ok(0)),
        ("long", 10_000, Ok(10_000)),
        ("long", 9_999, Err(ReadWhole::TooLong)),
        ("none", 9, Err(ReadWhole::Fault)),
    ] {
        let got = read_whole(alloc, &mut desk, name, limit).map(|bytes| bytes.len());
        same(&rt, &got, &want, limit);
    }
    let bytes = read_whole(alloc, &mut desk, "three", 3)?;
    same_items(&rt, &bytes, &[7, 8, 9]);
    Ok(())
}

// A file within the limit takes a read of its end besides, and of a longer one a byte more than
// the limit is read.
#[test]
fn reads_and_their_bytes_are_counted(rt: HostRuntime) -> Result<(), Fail> {
    let alloc = rt.alloc();
    for (name, limit, reads, taken) in [
        ("three", 3, 2, 3),
        ("three", 1, 1, 2),
        ("empty", 0, 1, 0),
        ("long", 10_000, 2, 10_000),
        ("long", 9_000, 1, 9_001),
        ("none", 9, 0, 0),
    ] {
        let mut desk = desk(alloc, Vec::new(alloc))?;
        let _ = read_whole(alloc, &mut desk, name, limit);
        same(&rt, &desk.reads(), &reads, limit);
        same(&rt, &desk.taken(), &taken, limit);
    }
    Ok(())
}

// A file of three bytes takes a `begin`, a read of its bytes and a read of its end.
#[test]
fn a_call_that_is_listed_fails(rt: HostRuntime) -> Result<(), Fail> {
    let alloc = rt.alloc();
    for (call, want) in [
        (1, Err(ReadWhole::Fault)),
        (2, Err(ReadWhole::Fault)),
        (3, Err(ReadWhole::Fault)),
        (4, Ok(3)),
    ] {
        let mut desk = desk(alloc, vec![in alloc; call]?)?;
        let got = read_whole(alloc, &mut desk, "three", 3).map(|bytes| bytes.len());
        same(&rt, &got, &want, call as usize);
    }
    Ok(())
}

#[test]
fn nothing_is_begun_at_first_and_after_a_failed_begin(rt: HostRuntime) -> Result<(), Fail> {
    let alloc = rt.alloc();
    let mut desk = desk(alloc, vec![in alloc; 3]?)?;
    let mut buffer = [0; 2];
    same(&rt, &desk.read(&mut buffer), &Got::End, 0);
    same(&rt, &desk.begin("three"), &Begin::Ok, 1);
    same(&rt, &desk.begin("three"), &Begin::Failed, 2);
    same(&rt, &desk.read(&mut buffer), &Got::End, 3);
    same(&rt, &desk.begin("three"), &Begin::Ok, 4);
    same(&rt, &desk.read(&mut buffer), &Got::Bytes(2), 5);
    same_items(&rt, &buffer, &[7, 8]);
    Ok(())
}

#[test]
fn files_are_read_and_folders_and_missing_names_fail(rt: HostRuntime) -> Result<(), Fail> {
    let alloc = rt.alloc();
    let long = vec![in alloc; b'x'; 10_000]?;
    fs::write(&rt, "long", long.as_slice())?;
    fs::write(&rt, "short", b"abc")?;
    let mut desk = FileDesk::make(rt.clone()?);
    let bytes = read_whole(alloc, &mut desk, "long", 10_000)?;
    same_items(&rt, &bytes, &long);
    for (name, limit, want) in [
        ("short", 3, Ok(3)),
        ("short", 2, Err(ReadWhole::TooLong)),
        (".", 3, Err(ReadWhole::Fault)),
        ("missing", 3, Err(ReadWhole::Fault)),
    ] {
        let got = read_whole(alloc, &mut desk, name, limit).map(|bytes| bytes.len());
        same(&rt, &got, &want, limit);
    }
    same(&rt, &desk.begin("missing"), &Begin::Failed, 2);
    same(&rt, &desk.read(&mut [0]), &Got::End, 3);
    fs::remove_file(&rt, "long")?;
    fs::remove_file(&rt, "short")?;
    Ok(())
}

#[test]
fn a_name_that_is_not_held_is_an_empty_file(rt: HostRuntime) -> Result<(), Fail> {
    let alloc = rt.alloc();
    let mut files = Vec::new(alloc);
    files.push((String::from_str(alloc, "a")?, vec![in alloc; 1, 2]?))?;
    let mut desk = SureDesk::make(files);
    let held = read_whole(alloc, &mut desk, "a", 2)?;
    same_items(&rt, &held, &[1, 2]);
    let unknown = read_whole(alloc, &mut desk, "b", 2)?;
    assert!(rt; unknown.is_empty());
    Ok(())
}

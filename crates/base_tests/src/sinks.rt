//! Pieces that are written whole, to the system and to memory.
use crate::equal::{same, same_items};
use outside_io::{
    BufferedSink, MemorySink, Sink, StdSink, SureSink, Took, WriteFault, write_whole,
};
use std::fs;
use std::test::Fail;

#[test]
fn the_third_write_fails(rt: HostRuntime) -> Result<(), Fail> {
    let alloc = rt.alloc();
    let mut out = MemorySink::make(alloc, 64, vec![in alloc; 3]?)?;
    let pieces: [(&[u8], Result<(), WriteFault>); 5] = [
        (b"steer 1\n", Ok(())),
        (b"", Ok(())),
        (b"p 0\n", Ok(())),
        (b"p 1\n", Err(WriteFault)),
        (b"end\n", Ok(())),
    ];
    for (piece, want) in pieces {
        same(&rt, &write_whole(&mut out, piece), &want, 0);
    }
    same_items(&rt, out.bytes(), b"steer 1\np 0\nend\n");
    Ok(())
}

#[test]
fn a_piece_beyond_the_room_fails_whole(rt: HostRuntime) -> Result<(), Fail> {
    let alloc = rt.alloc();
    let mut out = MemorySink::make(alloc, 4, Vec::new(alloc))?;
    same(&rt, &write_whole(&mut out, b"ab"), &Ok(()), 0);
    same(&rt, &write_whole(&mut out, b"cde"), &Err(WriteFault), 1);
    same(&rt, &write_whole(&mut out, b"cd"), &Ok(()), 2);
    same_items(&rt, out.bytes(), b"abcd");
    Ok(())
}

#[test]
fn bytes_are_counted(rt: HostRuntime) {
    let mut out = SureSink::make();
    same(&rt, &write_whole(&mut out, b"steer"), &Ok(()), 0);
    same(&rt, &write_whole(&mut out, b" 1\n"), &Ok(()), 1);
    same(&rt, &out.count(), &8, 2);
}

#[test]
fn streams_take_whole_pieces(rt: HostRuntime) -> Result<(), Fail> {
    let mut file = StdSink::make(fs::create(&rt, "stream")?);
    same(&rt, &write_whole(&mut file, b"steer 1\n"), &Ok(()), 0);
    same(&rt, &write_whole(&mut file, b"p 0\n"), &Ok(()), 1);
    let written = fs::read(&rt, "stream")?;
    same_items(&rt, &written, b"steer 1\np 0\n");

    let mut out = StdSink::make(rt.stdout());
    same(
        &rt,
        &write_whole(&mut out, b"to standard output\n"),
        &Ok(()),
        3,
    );
    let mut err = StdSink::make(rt.stderr());
    same(
        &rt,
        &write_whole(&mut err, b"to standard error\n"),
        &Ok(()),
        4,
    );

    let mut read_only = StdSink::make(fs::open(&rt, "stream")?);
    same(&rt, &read_only.write(b"p 1\n"), &Took::Failed, 5);
    fs::remove_file(&rt, "stream")?;
    Ok(())
}

#[test]
fn bytes_that_are_held_back_go_out_at_the_flush(rt: HostRuntime) -> Result<(), Fail> {
    let alloc = rt.alloc();
    let file = StdSink::make(fs::create(&rt, "held")?);
    let mut out = BufferedSink::make(alloc, 64, file)?;
    same(&rt, &write_whole(&mut out, b"steer 1\n"), &Ok(()), 0);
    assert!(rt; fs::read(&rt, "held")?.is_empty());
    same(&rt, &out.flush(), &Ok(()), 1);
    let written = fs::read(&rt, "held")?;
    same_items(&rt, &written, b"steer 1\n");

    let file = StdSink::make(fs::open(&rt, "held")?);
    let mut read_only = BufferedSink::make(alloc, 64, file)?;
    same(&rt, &read_only.write(b"p 0\n"), &Took::Bytes(4), 3);
    same(&rt, &read_only.flush(), &Err(WriteFault), 4);
    fs::remove_file(&rt, "held")?;
    Ok(())
}

//! A line that goes out as one piece, and the digits of a number.
use crate::equal::{same, same_items};
use outside_io::{MemorySink, WriteFault};
use report::{LineBuf, hex8};
use std::process::Abort;
use std::test::Fail;

#[test]
fn a_line_goes_out_as_one_piece(rt: HostRuntime) -> Result<(), Fail> {
    let alloc = rt.alloc();
    // The second write fails, so a line in two pieces would not go out.
    let mut out = MemorySink::make(alloc, 64, vec![in alloc; 2]?)?;
    let mut line = LineBuf::make(alloc)?;
    line.push(b"hash ");
    line.push_hex(0x51cc_c178, 8);
    line.push(b" of ");
    line.push_hex(0xfe40_efab, 12);
    line.push(b" entry ");
    line.push_decimal(120);
    same(&rt, &line.write(&mut out), &Ok(()), 0);
    same_items(&rt, out.bytes(), b"hash 51ccc178 of 0000fe40efab entry 120");
    line.push(b"more");
    same(&rt, &line.write(&mut out), &Err(WriteFault), 1);
    same(&rt, &out.bytes().len(), &39, 2);
    Ok(())
}

fn has_digits(rt: &impl Abort, number: u32, digits: &[u8]) {
    same_items(rt, &hex8(number), digits);
}

#[test]
fn all_eight_digits_are_there(rt: HostRuntime) {
    has_digits(&rt, 0x0a0d_0d0a, b"0a0d0d0a");
    has_digits(&rt, 0, b"00000000");
    has_digits(&rt, u32::MAX, b"ffffffff");
}

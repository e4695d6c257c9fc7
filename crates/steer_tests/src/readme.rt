//! The example of the README: three packets of one flow, of which one is dropped and one moves.
use crate::calls::{Outcome, called_with, comes_to, desk_of};
use crate::files::{FRAME_A, file};
use outside_io::MemoryDesk;
use std::alloc::Global;
use std::test::Fail;
use taps::{Tap, standard_taps};

// The bytes of examples/three.json.
const PLAN: &[u8] =
    br#"{"cpus": 3, "queues": [{"home": 0, "mask": [1], "flows": 256}], "sock": 1024,
 "backlog": 1, "apps": [2], "tx": [{"cpus": [], "queues": []}],
 "steps": ["arrive", "poll 0", "record 0", "arrive", "poll 0",
           "drain 1", "arrive", "poll 0", "drain 2"]}
"#;

// The report, with the texts of the three taps that the program hands in.
const REPORT: &[u8] = b"steer 1
p 0 q 0 via reta class 120 want - head - tail 0 cpu 1 why unset at 1 app 0 in 1 place inbox
p 1 q 0 via reta class 120 want 2 head 0 tail 1 cpu 1 why kept at drop 1 1 0 app 0 in - place drop
p 2 q 0 via reta class 120 want 2 head 1 tail 1 cpu 2 why passed at 1 app 0 in 2 place inbox
queue 0 arrived 3 taken 3
cpu 0 accepted 0 pulled 0 delivered 0 retired 0 dropped 0
cpu 1 accepted 1 pulled 1 delivered 1 retired 1 dropped 1
cpu 2 accepted 1 pulled 1 delivered 1 retired 1 dropped 0
tx 0 accepted 0 pulled 0 delivered 0 retired 0
w app 0 entry 376 cpu 2
tap 0 bytes 32
cpu 1 packets 2
cpu 2 packets 1
tap 1 bytes 17
flow 0 packets 3
tap 2 bytes 34
depth cpu 1 at 1
depth cpu 2 at 1
end 3 of 3
";

// What the program's taps, in their order, and its report come to over the files of this desk.
fn observed(alloc: Global, desk: &mut MemoryDesk) -> Result<Outcome, Fail> {
    let mut taps = Vec::new(alloc);
    for tap in standard_taps(alloc)? {
        let tap: Box<dyn Tap> = Box::new(alloc, tap)?;
        taps.push(tap)?;
    }
    called_with(alloc, &["replay", "three.json", "three.pcap"], desk, taps)
}

#[test]
fn the_report_of_the_readme_is_written(rt: HostRuntime) -> Result<(), Fail> {
    let alloc = rt.alloc();
    let capture = file(alloc, &[&FRAME_A, &FRAME_A, &FRAME_A])?;
    let files = [("three.json", PLAN), ("three.pcap", capture.as_slice())];
    let mut desk = desk_of(alloc, &files, &[])?;
    let got = observed(alloc, &mut desk)?;
    comes_to(&rt, &got, 0, REPORT, b"", 0);
    Ok(())
}

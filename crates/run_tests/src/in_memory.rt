//! Each command over files in memory.
use crate::captures::of_one_flow;
use crate::holds::Holding;
use crate::runs::called_over;
use crate::texts::same_text;
use std::test::Fail;

const PLAN: &[u8] = br#"{"cpus":3,"queues":[{"home":0,"mask":[1],"flows":0}],"sock":0,"apps":[2],
        "tx":[{"cpus":[],"queues":[]}],"steps":["sweep"]}"#;

const RULES: &[u8] = br#"{"queues":4,"rules":[{"kind":"ip4","queue":1}]}"#;

// The report of the plan on one packet, by its steps and by threads.
const REPORT: &[u8] = b"steer 1
p 0 q 0 via reta class - want - head - tail - cpu 1 why plain at 1 app 0 in 1 place inbox
r 0 app 0 rxq 0 cpu 2 pick 0 head - tail 0 tx 0 why unset at 1 port 1
queue 0 arrived 1 taken 1
cpu 0 accepted 0 pulled 0 delivered 0 retired 0 dropped 0
cpu 1 accepted 1 pulled 1 delivered 1 retired 1 dropped 0
cpu 2 accepted 0 pulled 0 delivered 0 retired 0 dropped 0
tx 0 accepted 1 pulled 1 delivered 1 retired 1
end 1 of 1
";

const HASHED: &[u8] =
    b"packet 0 tcp4 420995bb a18e6450 2794 1766 hash 51ccc178 entry 120 queue 0\npackets 1\n";

const PLACED: &[u8] =
    b"packet 0 tcp4 420995bb a18e6450 2794 1766 hash 51ccc178 entry 120 queue 1 rule 0 depth 0\n\
packets 1\n";

const GENERATED: &[u8] = b"gen 7 packets 1 flows 1\ndelivered 1 dropped 0 moved 1 replies 1\n";

// Words, the status that they come to, the text, and the line.
type Call = (&'static [&'static str], u8, &'static [u8], &'static [u8]);

const CALLS: [Call; 9] = [
    (&["hash", "a.pcap"], 0, HASHED, b""),
    (&["replay", "p.json", "a.pcap"], 0, REPORT, b""),
    (&["run", "p.json", "a.pcap"], 0, REPORT, b""),
    (&["gen", "7", "1", "1"], 0, GENERATED, b""),
    (
        &["check", "p.json", "a.pcap", "report"],
        0,
        b"check good\n",
        b"",
    ),
    (&["place", "rules", "a.pcap"], 0, PLACED, b""),
    (
        &["replay", "rules", "a.pcap"],
        3,
        b"",
        b"plan: missing cpus\n",
    ),
    (
        &["hash", "report"],
        4,
        b"",
        b"capture: bad magic 65657473\n",
    ),
    (&["hash", "none"], 5, b"", b"read fault\n"),
];

#[test]
fn each_command_is_called_over_files_in_memory(rt: HostRuntime) -> Result<(), Fail> {
    let alloc = rt.alloc();
    let capture = of_one_flow(alloc, 1)?;
    let files: [(&str, &[u8]); 4] = [
        ("p.json", PLAN),
        ("rules", RULES),
        ("a.pcap", &capture),
        ("report", REPORT),
    ];
    for (case, (texts, status, text, line)) in CALLS.into_iter().enumerate() {
        let pace = Holding::make(&[], 1);
        let got = called_over(&rt, alloc, texts, &files, Vec::new(alloc), &pace)?;
        assert!(rt; got.status == status, "case {case}: {}", got.status);
        same_text(&rt, &got.out, text, case);
        same_text(&rt, &got.err, line, case);
    }
    Ok(())
}

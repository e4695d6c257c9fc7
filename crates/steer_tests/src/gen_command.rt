//! The command `gen`.
use crate::calls::{called_over, comes_to, get_the_usage, same, same_bytes};
use std::alloc::Global;
use std::process::Abort;
use std::test::Fail;

// The number behind this word and a space in a line.
fn number_after(line: &str, word: &str) -> Option<u64> {
    let mut words = line.split(' ');
    while let Some(found) = words.next() {
        if found == word {
            return words.next()?.parse().ok();
        }
    }
    None
}

/// Words, and the text that they come to.
const SMALL: [(&[&str], &[u8]); 3] = [
    (
        &["gen", "1", "0", "1"],
        b"gen 1 packets 0 flows 0\ndelivered 0 dropped 0 moved 0 replies 0\n",
    ),
    (
        &["gen", "7", "1", "1"],
        b"gen 7 packets 1 flows 1\ndelivered 1 dropped 0 moved 1 replies 1\n",
    ),
    (
        &["gen", "007", "01", "1"],
        b"gen 7 packets 1 flows 1\ndelivered 1 dropped 0 moved 1 replies 1\n",
    ),
];

#[test]
fn small_input_is_replayed(rt: HostRuntime) -> Result<(), Fail> {
    for (case, &(texts, text)) in SMALL.iter().enumerate() {
        let got = called_over(rt.alloc(), texts, &[], &[])?;
        comes_to(&rt, &got, 0, text, b"", case);
    }
    Ok(())
}

const OUT_OF_RANGE: [&[&str]; 7] = [
    &["gen"],
    &["gen", "1", "1"],
    &["gen", "18446744073709551616", "1", "1"],
    &["gen", "1", "262145", "1"],
    &["gen", "1", "1", "0"],
    &["gen", "1", "1", "65537"],
    &["gen", "1", "1", "1", "1"],
];

#[test]
fn numbers_out_of_range_get_the_usage(rt: HostRuntime) -> Result<(), Fail> {
    get_the_usage(&rt, rt.alloc(), &OUT_OF_RANGE)
}

// The two lines of `gen 7 131072 512`.
fn large(alloc: Global) -> Result<Vec<u8>, Fail> {
    let got = called_over(alloc, &["gen", "7", "131072", "512"], &[], &[])?;
    Ok(got.out)
}

// Each packet was delivered or dropped, and each one that was delivered was replied to.
fn is_swept(rt: &impl Abort, text: &str) {
    let (head, rest) = text.split_once('\n').unwrap_or(("", ""));
    assert!(rt; head.starts_with("gen 7 packets 131072 flows "), "{head}");
    let delivered = number_after(rest, "delivered").unwrap_or(0);
    let dropped = number_after(rest, "dropped").unwrap_or(0);
    same(rt, &delivered.saturating_add(dropped), &131_072, 0);
    same(
        rt,
        &number_after(rest.trim(), "replies"),
        &Some(delivered),
        1,
    );
}

#[test]
fn large_input_is_swept_and_gives_one_text(rt: HostRuntime) -> Result<(), Fail> {
    let alloc = rt.alloc();
    let text = String::from_utf8(large(alloc)?)?;
    same_bytes(&rt, &large(alloc)?, text.as_bytes(), 0);
    is_swept(&rt, &text);
    Ok(())
}

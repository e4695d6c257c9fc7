//! Calls of the program over files in memory.
use outside_io::{Desk, MemoryDesk, MemorySink, Sink};
use std::alloc::Global;
use std::fmt::Debug;
use std::process::Abort;
use std::test::Fail;
use steer_top::steer_still;
use taps::Tap;

/// The words of a call.
fn words(alloc: Global, texts: &[&str]) -> Result<Vec<String>, Fail> {
    let mut words = Vec::new(alloc);
    for text in texts {
        words.push(String::from_str(alloc, *text)?)?;
    }
    Ok(words)
}

/// A desk with these files, whose calls with these numbers fail.
pub fn desk_of(
    alloc: Global,
    files: &[(&str, &[u8])],
    failing: &[u64],
) -> Result<MemoryDesk, Fail> {
    let mut held = Vec::new(alloc);
    for (name, bytes) in files {
        held.push((String::from_str(alloc, *name)?, bytes.to_vec(alloc)?))?;
    }
    Ok(MemoryDesk::make(held, failing.to_vec(alloc)?))
}

/// A sink whose writes with these numbers fail.
pub fn sink(alloc: Global, failing: &[u64]) -> Result<MemorySink, Fail> {
    Ok(MemorySink::make(alloc, 65_536, failing.to_vec(alloc)?)?)
}

/// What a call came to.
#[derive(Drop)]
pub struct Outcome {
    /// Its status.
    pub status: u8,
    /// What went to standard output.
    pub out: Vec<u8>,
    /// What went to standard error.
    pub err: Vec<u8>,
    /// How many bytes of the one and of the other were not sent on.
    pub unsent: (usize, usize),
}

/// The status of a call of these words.
pub fn run<D: Desk, O: Sink, E: Sink>(
    alloc: Global,
    texts: &[&str],
    desk: &mut D,
    out: &mut O,
    err: &mut E,
    taps: Vec<Box<dyn Tap>>,
) -> Result<u8, Fail> {
    let words = words(alloc, texts)?;
    Ok(steer_still(alloc, &words, desk, out, err, taps))
}

/// What a call over this desk comes to, without taps.
pub fn called<D: Desk>(alloc: Global, texts: &[&str], desk: &mut D) -> Result<Outcome, Fail> {
    called_with(alloc, texts, desk, Vec::new(alloc))
}

/// What a call over this desk comes to, with these taps.
pub fn called_with<D: Desk>(
    alloc: Global,
    texts: &[&str],
    desk: &mut D,
    taps: Vec<Box<dyn Tap>>,
) -> Result<Outcome, Fail> {
    let mut out = sink(alloc, &[])?;
    let mut err = sink(alloc, &[])?;
    let status = run(alloc, texts, desk, &mut out, &mut err, taps)?;
    outcome_of(alloc, status, &out, &err)
}

/// What a call over these files comes to, without taps, where the desk's calls of these numbers
/// fail.
pub fn called_over(
    alloc: Global,
    texts: &[&str],
    files: &[(&str, &[u8])],
    failing: &[u64],
) -> Result<Outcome, Fail> {
    let mut desk = desk_of(alloc, files, failing)?;
    called(alloc, texts, &mut desk)
}

/// What a call over this desk comes to, without taps, where the writes of these numbers fail.
pub fn called_failing<D: Desk>(
    alloc: Global,
    texts: &[&str],
    desk: &mut D,
    out_failing: &[u64],
    err_failing: &[u64],
) -> Result<Outcome, Fail> {
    let mut out = sink(alloc, out_failing)?;
    let mut err = sink(alloc, err_failing)?;
    let status = run(alloc, texts, desk, &mut out, &mut err, Vec::new(alloc))?;
    outcome_of(alloc, status, &out, &err)
}

/// The outcome of a call of this status that wrote to these sinks.
pub fn outcome_of(
    alloc: Global,
    status: u8,
    out: &MemorySink,
    err: &MemorySink,
) -> Result<Outcome, Fail> {
    Ok(Outcome {
        status,
        out: out.bytes().to_vec(alloc)?,
        err: err.bytes().to_vec(alloc)?,
        unsent: (out.unsent().len(), err.unsent().len()),
    })
}

/// Asserts that what was got in a case is what is wanted there.
pub fn same<T: PartialEq + Debug>(rt: &impl Abort, got: &T, wanted: &T, case: usize) {
    assert!(rt; *got == *wanted, "case {case}: {got:?}, and not {wanted:?}");
}

/// Asserts that the bytes of a case are these.
pub fn same_bytes(rt: &impl Abort, got: &[u8], wanted: &[u8], case: usize) {
    assert!(rt; got == wanted, "case {case}: {got:?}, and not {wanted:?}");
}

/// Asserts that a call of a case came to this status and these texts, and that it sent on its line,
/// and its text if it was done.
pub fn comes_to(rt: &impl Abort, got: &Outcome, status: u8, out: &[u8], err: &[u8], case: usize) {
    same(rt, &got.status, &status, case);
    same_bytes(rt, &got.out, out, case);
    same_bytes(rt, &got.err, err, case);
    let text = if status == 0 { 0 } else { got.unsent.0 };
    same(rt, &got.unsent, &(text, 0), case);
}

/// Asserts that a call of each of these words, without files, has the status of no command, and
/// writes nothing to standard output.
pub fn get_the_usage(rt: &impl Abort, alloc: Global, calls: &[&[&str]]) -> Result<(), Fail> {
    for (case, &texts) in calls.iter().enumerate() {
        gets_the_usage(rt, alloc, texts, case)?;
    }
    Ok(())
}

fn gets_the_usage(rt: &impl Abort, alloc: Global, texts: &[&str], case: usize) -> Result<(), Fail> {
    let got = called_over(alloc, texts, &[], &[])?;
    same(rt, &got.status, &2, case);
    same_bytes(rt, &got.out, b"", case);
    Ok(())
}

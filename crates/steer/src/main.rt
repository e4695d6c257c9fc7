//! The program `steer`: it replays a capture through packet steering, as the kernel's scaling
//! chapter describes it, or runs it through with threads, and reports what happened to each packet.
#![tactic(auto)]

mod spread;

use outside_io::{BufferedSink, Desk, FileDesk, Sink, StdSink};
use spread::Spread;
use std::alloc::Global;
use std::process::ExitCode;
use std::sync::Wait;
use std::thread::Threads;
use std::{env, io};
use steer_base::OutOfMemory;
use steer_top::steer;
use taps::{Tap, standard_taps};

const OUT_OF_MEMORY: u8 = 7;

/// The bytes of text that are buffered before they go to standard output.
const GATHERED: usize = 65_536;

// The words after the program's name.
fn words_of(rt: &HostRuntime) -> io::Result<Vec<String>> {
    let mut words = Vec::new(rt.alloc());
    for word in env::args(rt)?.skip(1) {
        words.push(word)?;
    }
    Ok(words)
}

// Carries out the command of the words with the standard taps, and returns its status.
fn call<R: Threads + Wait + Sync, D: Desk, K: Sink, E: Sink>(
    rt: &R,
    alloc: Global,
    words: &[String],
    desk: &mut D,
    out: &mut K,
    err: &mut E,
) -> Result<u8, OutOfMemory> {
    let mut taps = Vec::new(alloc);
    for tap in standard_taps(alloc)? {
        let tap: Box<dyn Tap> = Box::new(alloc, tap)?;
        taps.push(tap)?;
    }
    Ok(steer(rt, alloc, words, desk, out, err, taps, &Spread::make(rt)))
}

fn main(rt: HostRuntime) -> ExitCode {
    let alloc = rt.alloc();
    let Ok(mut out) = BufferedSink::make(alloc, GATHERED, StdSink::make(rt.stdout())) else {
        return ExitCode::from(OUT_OF_MEMORY);
    };
    let mut err = StdSink::make(rt.stderr());
    let words = match words_of(&rt) {
        Ok(words) => words,
        Err(error) if error.kind() == io::ErrorKind::OutOfMemory => {
            return ExitCode::from(OUT_OF_MEMORY);
        }
        // A word that is no UTF-8 text: no words are a command.
        Err(_) => Vec::new(alloc),
    };
    let Ok(files) = rt.clone() else {
        return ExitCode::from(OUT_OF_MEMORY);
    };
    let mut desk = FileDesk::make(files);
    match call(&rt, alloc, &words, &mut desk, &mut out, &mut err) {
        Ok(status) => ExitCode::from(status),
        Err(OutOfMemory) => ExitCode::from(OUT_OF_MEMORY),
    }
}

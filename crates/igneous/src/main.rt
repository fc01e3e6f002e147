//! The command-line tool: what stands for the system under the traits of `ig_store`, and the entry.
#![tactic(auto)]

mod posix_changes;
mod posix_files;
mod posix_store;
mod std_sink;
mod system_clock;
mod temp_name;
#[cfg(test)]
mod tests;
mod whole;

use ig_cli::{igneous, rule_of};
use ig_store::Sink;
use posix_store::PosixStore;
use std::alloc::Global;
use std::env::Env;
use std::io::{ErrorKind, writer};
use std::process::ExitCode;
use std::random::RandomSource;
use std::rt::Files;
use std::thread::Threads;
use std::time::Clock;
use std::{env, io};
use std_sink::StdSink;
use system_clock::SystemClock;

/// The words after the program's name.
fn words_of<R: Env + AllocGlobal>(rt: &R) -> io::Result<Vec<String>> {
    let mut words = Vec::new(rt.alloc());
    for word in env::args(rt)?.skip(1) {
        words.push(word)?;
    }
    Ok(words)
}

/// So many bytes that were freed the C library's `malloc` is to keep for the next task.
const KEPT: usize = 64 << 20;

/// Frees a block of half as many. glibc then takes blocks up to that size from its heap, and gives back what is free at the heap's end
/// only where it is more than twice as much (`M_MMAP_THRESHOLD` in `mallopt`); else the memory of each task is mapped and cleared anew.
fn keep_freed(alloc: Global) {
    if let Ok(block) = Vec::<u8>::with_capacity(alloc, KEPT / 2 - (64 << 10)) {
        drop(block);
    }
}

/// Runs the command of these words over the files under the working directory.
fn run<R, E: Sink>(rt: &R, words: &Vec<String>, err: &mut E) -> io::Result<u8>
where
    R: Files + Clock + RandomSource + Print + Threads + AllocGlobal + Clone + Drop + Sync,
{
    keep_freed(rt.alloc());
    let rule = rule_of(rt.alloc(), words)?;
    let mut store = PosixStore::new(rt.clone()?, rule)?;
    let mut clock = SystemClock::new(rt.clone()?);
    let mut out = StdSink::new(writer(rt));
    Ok(igneous(rt, rt.alloc(), words, &mut store, &mut clock, &mut out, err))
}

/// The status and the line where the words, or the source of random names, can't be had.
fn failure(e: &io::Error) -> (u8, &'static [u8]) {
    match e.kind() {
        ErrorKind::InvalidData => (2, b"igneous: the words are not a command\n"),
        ErrorKind::OutOfMemory => (7, b"igneous: out of memory\n"),
        _ => (6, b"igneous: store fault\n"),
    }
}

fn main(rt: HostRuntime) -> ExitCode {
    let mut err = StdSink::new(rt.stderr());
    let done = match words_of(&rt) {
        Ok(words) => run(&rt, &words, &mut err),
        Err(e) => Err(e),
    };
    let status = match done {
        Ok(status) => status,
        Err(e) => {
            let (status, line) = failure(&e);
            let _ = err.write(line);
            status
        }
    };
    ExitCode::from(status)
}

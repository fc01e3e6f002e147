//! Plays the transcripts in the working directory, in order of their names: calls over memory, with what is expected of them
//! (`docs/TRANSCRIPTS.md`). Prints a line for each: its name and how many calls agree, or what was expected beside what came.
//! Ends with status 1 where one differs.
#![tactic(auto)]

mod acts;
mod bytes;
mod fault;
mod looks;
mod player;
mod settings;
mod tables;
mod transcript;

use fault::Fault;
use std::process::ExitCode;
use std::rt::Files;
use std::thread::Threads;
use std::{fs, io};
use transcript::play;

/// The names of the transcripts, in the order of their bytes.
fn transcripts<R: Files + AllocGlobal + Clone + Drop>(rt: &R) -> io::Result<Vec<String>> {
    let mut names = Vec::new(rt.alloc());
    for entry in fs::read_dir(rt, ".")? {
        let entry = entry?;
        if entry.file_name().ends_with(".txt") {
            names.push(String::from_str(rt.alloc(), entry.file_name())?)?;
        }
    }
    names.sort_unstable();
    Ok(names)
}

/// Plays one, and prints its line. Gives whether it agrees.
fn tell<R>(rt: &R, name: &str) -> io::Result<bool>
where
    R: Files + Print + Threads + AllocGlobal + Sync,
{
    let text = fs::read_to_string(rt, name)?;
    match play(rt, rt.alloc(), text.as_str()) {
        Ok(calls) => {
            println!(rt; "{name} {calls} calls agree")?;
            Ok(true)
        }
        Err(Fault::Differs(why)) => {
            println!(rt; "{name} {why}")?;
            Ok(false)
        }
        Err(Fault::Memory) => {
            println!(rt; "{name} out of memory")?;
            Ok(false)
        }
    }
}

/// Plays all. Gives whether there are some and all agree.
fn tell_all<R>(rt: &R) -> io::Result<bool>
where
    R: Files + Print + Threads + AllocGlobal + Clone + Drop + Sync,
{
    let names = transcripts(rt)?;
    let mut agree = !names.is_empty();
    for name in &names {
        if !tell(rt, name.as_str())? {
            agree = false;
        }
    }
    Ok(agree)
}

fn main(rt: HostRuntime) -> ExitCode {
    match tell_all(&rt) {
        Ok(true) => ExitCode::from(0),
        _ => ExitCode::from(1),
    }
}

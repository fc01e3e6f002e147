//! The program, called over memory.
ghost use Rattle.std.specs.Prelude.{◌≡◌};
ghost use Rattle.ig_cli.specs.Rules.{rule_of_words};
ghost use Rattle.ig_cli.specs.Words.{texts_of};

use ig_cli::{igneous, rule_of};
use ig_play::{Told, World, steps_text, text_of};
use ig_store::{MemClock, MemSink, MemStore};
use ig_task::Pipeline;
use std::alloc::{AllocError, Global};
use std::thread::Threads;

/// The program itself. Nothing is said here of what it does, so that its caller reads none of its contract.
fn run<R: Threads + Sync>(
    rt: &R,
    alloc: Global,
    words: &Vec<String>,
    store: &mut MemStore<Pipeline>,
    clock: &mut MemClock,
    out: &mut MemSink,
    err: &mut MemSink,
) -> u8
    requires { store.old.rule ≡ rule_of_words (texts_of words.now.items) }
{
    igneous(rt, alloc, words, store, clock, out, err)
}

/// Calls the program with these words. Its answer is the status.
pub fn call<R: Threads + Sync>(
    rt: &R,
    world: &mut World,
    words: &Vec<String>,
) -> Result<Told, AllocError> {
    let alloc = world.alloc;
    let (files, fails) = (world.take_files(), world.take_fails());
    let mut store = MemStore::new(alloc, rule_of(alloc, words)?, files, fails)?;
    let mut clock = MemClock::new(world.second);
    let mut out = MemSink::new(alloc, world.take_room())?;
    let mut err = MemSink::new(alloc, 1000)?;
    let status = run(rt, alloc, words, &mut store, &mut clock, &mut out, &mut err);
    let told = Told {
        answer: format!(in alloc; "{status}")?,
        out: text_of(alloc, out.bytes())?,
        err: text_of(alloc, err.bytes())?,
        steps: steps_text(alloc, store.steps())?,
    };
    world.files = store.into_files();
    Ok(told)
}

//! One call of the store in memory by itself.
use crate::told::{steps_text, text_of};
use crate::{Told, World};
use ig_space::{Path, TryClone};
use ig_store::{MemStore, Rule, Store, StoreError};
use std::alloc::{AllocError, Global};

/// The rule that allows all.
#[derive(Drop)]
pub(crate) struct Free;

impl Rule for Free {
    ghost allows = { λ free own files act. Unit {0} };
}

/// A store in memory.
pub(crate) type Memory = MemStore<Free>;

fn refusal(error: StoreError) -> &'static str {
    match error {
        StoreError::Failed => "failed",
        StoreError::Memory => "out of memory",
    }
}

/// What a call answers that tells whether a file was there.
pub(crate) fn whether(answer: Result<bool, StoreError>) -> &'static str {
    match answer {
        Ok(true) => "true",
        Ok(false) => "false",
        Err(e) => refusal(e),
    }
}

/// What a reading answers.
fn read(alloc: Global, store: &mut Memory, path: &Path) -> Result<Told, AllocError> {
    match store.read(path) {
        Ok(Some(bytes)) => {
            let mut told = Told::of(alloc, "read")?;
            let text = text_of(alloc, bytes.copy()?.as_bytes())?;
            told.say(text.as_str())?;
            Ok(told)
        }
        Ok(None) => Told::of(alloc, "none"),
        Err(e) => Told::of(alloc, refusal(e)),
    }
}

/// What a listing answers.
fn list(alloc: Global, store: &mut Memory, dir: &Path) -> Result<Told, AllocError> {
    match store.names(dir) {
        Ok(names) => {
            let mut told = Told::of(alloc, "listed")?;
            for name in names.copy()?.as_slice() {
                told.say(name.as_str())?;
            }
            Ok(told)
        }
        Err(e) => Told::of(alloc, refusal(e)),
    }
}

/// What a put answers.
fn put(alloc: Global, store: &mut Memory, path: &Path, text: &str) -> Result<Told, AllocError> {
    Told::of(
        alloc,
        match store.put(path, text.as_bytes()) {
            Ok(()) => "put",
            Err(e) => refusal(e),
        },
    )
}

/// A store in memory over the world's files, in which the next call has the world's faults.
pub(crate) fn opened(world: &mut World) -> Result<Memory, AllocError> {
    let (files, fails) = (world.take_files(), world.take_fails());
    MemStore::new(world.alloc, Free, files, fails)
}

/// What was told, with the steps of the call; the files are the world's again.
pub(crate) fn closed(
    world: &mut World,
    store: Memory,
    told: Option<Told>,
) -> Result<Option<Told>, AllocError> {
    let steps = steps_text(world.alloc, store.steps())?;
    world.files = store.into_files();
    let Some(mut told) = told else {
        return Ok(None);
    };
    told.steps = steps;
    Ok(Some(told))
}

/// The call on a path that the word names.
fn answer(
    alloc: Global,
    store: &mut Memory,
    word: &str,
    path: &Path,
) -> Result<Option<Told>, AllocError> {
    if word == "read" {
        return Ok(Some(read(alloc, store, path)?));
    }
    if word == "names" {
        return Ok(Some(list(alloc, store, path)?));
    }
    if word == "has" {
        return Ok(Some(Told::of(alloc, whether(store.has(path)))?));
    }
    if word == "remove" {
        return Ok(Some(Told::of(alloc, whether(store.remove(path)))?));
    }
    Ok(None)
}

/// `read PATH`, `names DIR`, `has PATH` or `remove PATH`.
pub(crate) fn ask_store(
    world: &mut World,
    word: &str,
    path: &str,
) -> Result<Option<Told>, AllocError> {
    let Some(path) = Path::new(world.alloc, path)? else {
        return Ok(None);
    };
    let mut store = opened(world)?;
    let told = answer(world.alloc, &mut store, word, &path)?;
    closed(world, store, told)
}

/// The call on a path, with a text or a second path, that the word names.
fn answer_two(
    alloc: Global,
    store: &mut Memory,
    word: &str,
    path: &Path,
    second: &str,
) -> Result<Option<Told>, AllocError> {
    if word == "put" {
        return Ok(Some(put(alloc, store, path, second)?));
    }
    match Path::new(alloc, second)? {
        Some(to) if word == "shift" => {
            Ok(Some(Told::of(alloc, whether(store.shift(path, &to)))?))
        }
        _ => Ok(None),
    }
}

/// `put PATH TEXT` or `shift FROM TO`.
pub(crate) fn ask_two(
    world: &mut World,
    word: &str,
    path: &str,
    second: &str,
) -> Result<Option<Told>, AllocError> {
    let Some(path) = Path::new(world.alloc, path)? else {
        return Ok(None);
    };
    let mut store = opened(world)?;
    let told = answer_two(world.alloc, &mut store, word, &path, second)?;
    closed(world, store, told)
}

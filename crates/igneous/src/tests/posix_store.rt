//! The store over real files, each test in a new directory of its own.
use crate::posix_files::place;
use crate::posix_store::PosixStore;
use crate::whole::read_whole;
use ig_store::{Path, Rule, Store, StoreError};
use std::fs;
use std::io::ErrorKind;
use std::rt::Files;
use std::test::Fail;
use uuid::Uuid;

/// A rule that allows all.
#[derive(Drop)]
struct Free;

impl Rule for Free {
    ghost allows = { λ _ _ _ _. Unit {0} };
}

type Tested = PosixStore<HostRuntime, Free>;

/// A store in a new directory of its own.
fn fresh(rt: &HostRuntime) -> Result<Tested, Fail> {
    let id = Uuid::try_new_v4(rt)?;
    let above = std::env::temp_dir(rt)?;
    let mut store = PosixStore::new(rt.clone()?, Free)?;
    store.root = format!(in rt.alloc();
        "{}/igneous-{}/",
        above.as_path().as_str(),
        id.hyphenated()
    )?;
    fs::create_dir(rt, store.root.as_str())?;
    Ok(store)
}

/// Takes the store's directory away.
fn clear(rt: &HostRuntime, store: &Tested) -> Result<(), Fail> {
    fs::remove_dir_all(rt, store.root.as_str())?;
    Ok(())
}

fn path(rt: &HostRuntime, text: &str) -> Result<Path, Fail> {
    Ok(Path::new(rt.alloc(), text)?.ok_or("not a path")?)
}

/// Makes a file under the root by itself, at any name.
fn make(rt: &HostRuntime, store: &Tested, name: &str) -> Result<(), Fail> {
    let place = place(rt.alloc(), store.root.as_str(), name)?;
    fs::write(rt, place.as_str(), "x")?;
    Ok(())
}

/// Makes a link under the root to this text, at any name.
fn link(rt: &HostRuntime, store: &Tested, to: &str, name: &str) -> Result<(), Fail> {
    let place = place(rt.alloc(), store.root.as_str(), name)?;
    rt.symlink(to, place.as_str())?;
    Ok(())
}

/// Whether anything stands at a name under the root.
fn stands(rt: &HostRuntime, store: &Tested, name: &str) -> Result<bool, Fail> {
    let place = place(rt.alloc(), store.root.as_str(), name)?;
    Ok(fs::symlink_metadata(rt, place.as_str()).is_ok())
}

/// The file's text, or `-` where it isn't there.
fn text_at(rt: &HostRuntime, store: &mut Tested, file: &str) -> Result<String, Fail> {
    let found = store.read(&path(rt, file)?)?;
    let text = match &found {
        None => "-",
        Some(bytes) => std::str::from_utf8(bytes.as_bytes())?,
    };
    Ok(String::from_str(rt.alloc(), text)?)
}

/// The names in a directory, each ended by a comma.
fn listing(rt: &HostRuntime, store: &mut Tested, dir: &str) -> Result<String, Fail> {
    let names = store.names(&path(rt, dir)?)?;
    let mut text = String::new(rt.alloc());
    for name in names.as_slice() {
        text.push_str(name.as_str())?;
        text.push_str(",")?;
    }
    Ok(text)
}

/// How many entries a directory under the root has.
fn entries(rt: &HostRuntime, store: &Tested, dir: &str) -> Result<usize, Fail> {
    let place = place(rt.alloc(), store.root.as_str(), dir)?;
    let mut count = 0usize;
    for entry in fs::read_dir(rt, place.as_str())? {
        let _entry = entry?;
        count = count.saturating_add(1);
    }
    Ok(count)
}

/// An answer in a word.
fn word_of<T: Drop>(answer: Result<T, StoreError>) -> &'static str {
    match answer {
        Ok(_) => "answered",
        Err(StoreError::Failed) => "failed",
        Err(StoreError::Memory) => "memory",
    }
}

/// The answer of a move or a removal in a word.
fn done(answer: Result<bool, StoreError>) -> &'static str {
    match answer {
        Ok(true) => "true",
        Ok(false) => "false",
        Err(_) => "failed",
    }
}

#[test]
fn keeps_files_whole(rt: HostRuntime) -> Result<(), Fail> {
    let mut store = fresh(&rt)?;
    let file = path(&rt, "a/b/c.txt")?;
    assert_eq!(rt; store.has(&file)?, false);
    assert_eq!(rt; text_at(&rt, &mut store, "a/b/c.txt")?.as_str(), "-");
    store.put(&file, b"the first text")?;
    assert_eq!(rt; store.has(&file)?, true);
    assert_eq!(rt;
        text_at(&rt, &mut store, "a/b/c.txt")?.as_str(),
        "the first text"
    );
    store.put(&file, b"next")?;
    assert_eq!(rt; text_at(&rt, &mut store, "a/b/c.txt")?.as_str(), "next");
    store.put(&file, b"")?;
    assert_eq!(rt; text_at(&rt, &mut store, "a/b/c.txt")?.as_str(), "");
    assert_eq!(rt; entries(&rt, &store, ".ig-tmp")?, 0);
    assert_eq!(rt; store.faults, 0);
    clear(&rt, &store)
}

#[test]
fn lists_files_that_paths_name(rt: HostRuntime) -> Result<(), Fail> {
    let mut store = fresh(&rt)?;
    assert_eq!(rt; listing(&rt, &mut store, "d")?.as_str(), "");
    store.put(&path(&rt, "d/e/low")?, b"1")?;
    store.put(&path(&rt, "d/ten")?, b"2")?;
    store.put(&path(&rt, "d/Nine")?, b"3")?;
    make(&rt, &store, "d/.hidden")?;
    make(&rt, &store, "d/-x")?;
    make(&rt, &store, "d/a b")?;
    link(&rt, &store, "ten", "d/link")?;
    link(&rt, &store, "e", "d/into")?;
    assert_eq!(rt; listing(&rt, &mut store, "d")?.as_str(), "Nine,link,ten,");
    assert_eq!(rt; listing(&rt, &mut store, "d/e")?.as_str(), "low,");
    assert_eq!(rt; store.faults, 0);
    clear(&rt, &store)
}

/// Names that lead nowhere, and one that leads to a device, do not stop a listing.
#[test]
fn bad_names_are_passed_over(rt: HostRuntime) -> Result<(), Fail> {
    let mut store = fresh(&rt)?;
    store.put(&path(&rt, "d/ten")?, b"2")?;
    let long = String::from_str(rt.alloc(), "x")?
        .as_str()
        .repeat(rt.alloc(), 300)?;
    for (to, name) in [
        ("nowhere", "d/dangles"),
        ("circles", "d/circles"),
        ("ten/below", "d/through"),
        (long.as_str(), "d/long"),
        ("/dev/zero", "d/device"),
    ] {
        link(&rt, &store, to, name)?;
    }
    assert_eq!(rt; listing(&rt, &mut store, "d")?.as_str(), "ten,");
    assert_eq!(rt; store.faults, 0);
    clear(&rt, &store)
}

/// What is there and no file is a fault at once.
#[test]
fn only_files_are_read(rt: HostRuntime) -> Result<(), Fail> {
    let mut store = fresh(&rt)?;
    link(&rt, &store, "/dev/zero", "device")?;
    link(&rt, &store, "circles", "circles")?;
    store.put(&path(&rt, "dir/file")?, b"1")?;
    for name in ["device", "circles", "dir", "dir/file/below"] {
        let file = path(&rt, name)?;
        let before = store.faults;
        assert_eq!(rt; word_of(store.read(&file)), "failed");
        assert_eq!(rt; word_of(store.has(&file)), "failed");
        assert_eq!(rt; store.faults, before.saturating_add(2));
    }
    link(&rt, &store, "nowhere", "dangles")?;
    assert_eq!(rt; text_at(&rt, &mut store, "dangles")?.as_str(), "-");
    clear(&rt, &store)
}

/// What a move of a file answers, and what then stands at its old and its new path.
fn moved(rt: &HostRuntime, store: &mut Tested, from: &str, to: &str) -> Result<String, Fail> {
    let answer = done(store.shift(&path(rt, from)?, &path(rt, to)?));
    let (left, made) = (text_at(rt, store, from)?, text_at(rt, store, to)?);
    Ok(format!(in rt.alloc(); "{answer} {left} {made}")?)
}

#[test]
fn moves_files(rt: HostRuntime) -> Result<(), Fail> {
    let mut store = fresh(&rt)?;
    store.put(&path(&rt, "a")?, b"first")?;
    store.put(&path(&rt, "b")?, b"next")?;
    for (from, to, want) in [
        ("a", "d/e/c", "true - first"),
        ("b", "d/e/c", "true - next"),
        ("d/e/c", "d/e/c", "true next next"),
        ("none/a", "d/e/c", "false - next"),
    ] {
        assert_eq!(rt; moved(&rt, &mut store, from, to)?.as_str(), want);
    }
    assert_eq!(rt; store.faults, 0);
    clear(&rt, &store)
}

/// A move of what is absent makes no directory.
#[test]
fn an_absent_file_makes_no_directory(rt: HostRuntime) -> Result<(), Fail> {
    let mut store = fresh(&rt)?;
    assert_eq!(rt;
        done(store.shift(&path(&rt, "none")?, &path(&rt, "d/e/c")?)),
        "false"
    );
    assert_eq!(rt; stands(&rt, &store, "d")?, false);
    assert_eq!(rt; store.faults, 0);
    clear(&rt, &store)
}

#[test]
fn removes_files(rt: HostRuntime) -> Result<(), Fail> {
    let mut store = fresh(&rt)?;
    store.put(&path(&rt, "d/a")?, b"1")?;
    store.put(&path(&rt, "d/b")?, b"2")?;
    for (file, want) in [("d/a", "true"), ("d/a", "false"), ("none/a", "false")] {
        assert_eq!(rt; done(store.remove(&path(&rt, file)?)), want);
    }
    assert_eq!(rt; listing(&rt, &mut store, "d")?.as_str(), "b,");
    assert_eq!(rt; store.faults, 0);
    clear(&rt, &store)
}

#[test]
fn a_directory_is_not_moved_over_or_removed(rt: HostRuntime) -> Result<(), Fail> {
    let mut store = fresh(&rt)?;
    store.put(&path(&rt, "a")?, b"1")?;
    store.put(&path(&rt, "d/b")?, b"2")?;
    let (file, dir) = (path(&rt, "a")?, path(&rt, "d")?);
    assert_eq!(rt; done(store.shift(&file, &dir)), "failed");
    assert_eq!(rt; done(store.remove(&dir)), "failed");
    assert_eq!(rt; store.faults, 2);
    clear(&rt, &store)
}

/// A put over a directory is a fault, leaves no temporary file, and a file is no directory.
#[test]
fn a_directory_is_not_put_over(rt: HostRuntime) -> Result<(), Fail> {
    let mut store = fresh(&rt)?;
    store.put(&path(&rt, "a/b/c")?, b"1")?;
    assert_eq!(rt; word_of(store.put(&path(&rt, "a/b")?, b"2")), "failed");
    assert_eq!(rt; word_of(store.put(&path(&rt, "a/b/c/d")?, b"2")), "failed");
    assert_eq!(rt; word_of(store.names(&path(&rt, "a/b/c")?)), "failed");
    assert_eq!(rt; store.faults, 3);
    assert_eq!(rt; entries(&rt, &store, ".ig-tmp")?, 0);
    assert_eq!(rt; text_at(&rt, &mut store, "a/b/c")?.as_str(), "1");
    clear(&rt, &store)
}

/// Directories that are taken away while the program runs are made again.
#[test]
fn directories_are_made_where_one_is_missing(rt: HostRuntime) -> Result<(), Fail> {
    let mut store = fresh(&rt)?;
    let file = path(&rt, "a/b")?;
    store.put(&file, b"1")?;
    for dir in [".ig-tmp", "a"] {
        let dir = place(rt.alloc(), store.root.as_str(), dir)?;
        fs::remove_dir_all(&rt, dir.as_str())?;
    }
    store.put(&file, b"2")?;
    assert_eq!(rt; text_at(&rt, &mut store, "a/b")?.as_str(), "2");
    assert_eq!(rt; store.faults, 0);
    clear(&rt, &store)
}

/// A reader of another length than was said: one that grew, and one that shrank.
#[test]
fn a_file_that_changes_is_refused(rt: HostRuntime) -> Result<(), Fail> {
    let text = b"four".as_slice();
    assert_eq!(rt; read_whole(rt.alloc(), text, 4)?.as_slice(), text);
    for length in [1, 3, 5, 9] {
        let given = read_whole(rt.alloc(), text, length);
        assert!(rt; matches!(given, Err(e) if e.kind() == ErrorKind::UnexpectedEof));
    }
    assert_eq!(rt; read_whole(rt.alloc(), text, 0)?.len(), 0);
    Ok(())
}

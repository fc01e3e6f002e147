ghost use Rattle.std.specs.Prelude.{◌≢◌, ◌∷◌, [], if◌then◌else◌, IfErr, ◌≡◌, ◌≤◌, ◌↔◌, ◌++◌, IsTrue, true, length, IfOk, All, string_bytes};
ghost use Rattle.std.specs.List.Sorted.{IsStrictlySortedBy};
ghost use Rattle.std.specs.String.{string_cmp};
ghost use Rattle.std.specs.Ordering.{nat_cmp};
ghost use Rattle.std.specs.Cmp.Lexicographic.{slice_cmp};
ghost use Rattle.std.specs.IoError.{error_kind};
ghost use Rattle.ig_space.specs.Path.{is_path};
ghost use Rattle.ig_defs.specs.Names.{IsNameIn};

use crate::whole::read_whole;
use ig_space::is_segment_text;
use ig_store::{Bytes, Names, Path, Text};
use std::alloc::{AllocError, Global};
use std::fs::{File, Metadata, OpenFile};
use std::io::ErrorKind;
use std::rt::Files;
use std::{fs, io};

/// Where the path lies, under this text before all paths.
pub fn place(alloc: Global, root: &str, path: &str) -> Result<String, AllocError>
    ensures { IfOk result (λ place. string_bytes place ≡ root.now ++ path.now) }
{
    format!(in alloc; "{root}{path}")
}

/// Whether this is a regular file: what is none is never opened, since a FIFO makes the opener wait, and a device may have no end.
fn check_regular(found: &Metadata) -> io::Result<()>
    ensures { IfErr result (λ e. error_kind e ≢ ErrorKind.NotFound) }
{
    if found.is_file() {
        Ok(())
    } else {
        Err(io::Error::from(ErrorKind::InvalidInput))
    }
}

/// The bytes of the regular file, which is looked at before it is opened, and again once it is open.
fn read_regular<F: Files + AllocGlobal>(rt: &F, place: &str) -> io::Result<Vec<u8>> {
    check_regular(&fs::metadata(rt, place)?)?;
    let file = File::open(rt, place)?;
    let found = file.metadata()?;
    check_regular(&found)?;
    read_whole(rt.alloc(), file, found.len())
}

/// The bytes of the file, or `None` exactly where there is no such file. What is there and no regular file, once links are followed,
/// is an error at once.
pub fn read_file<F: Files + AllocGlobal>(rt: &F, place: &str) -> io::Result<Option<Bytes>>
    ensures { IfErr result (λ e. error_kind e ≢ ErrorKind.NotFound) }
{
    match read_regular(rt, place) {
        Ok(bytes) => Ok(Some(Bytes::from_vec(bytes))),
        Err(e) if e.kind() == ErrorKind::NotFound => Ok(None),
        Err(e) => Err(e),
    }
}

/// Whether a regular file is there, or what a symbolic link there leads to. What is there and no regular file is an error.
pub fn has_file<F: Files>(rt: &F, place: &str) -> io::Result<bool>
    ensures { IfErr result (λ e. error_kind e ≢ ErrorKind.NotFound) }
{
    match fs::metadata(rt, place) {
        Ok(found) => {
            check_regular(&found)?;
            Ok(true)
        }
        Err(e) if e.kind() == ErrorKind::NotFound => Ok(false),
        Err(e) => Err(e),
    }
}

/// Whether a file of this name may lie directly in the directory.
fn is_name_in(dir: &str, name: &str) -> bool
    requires { is_path dir.now ≡ true }
    ensures { IsTrue result ↔ IsNameIn dir.now name.now }
{
    is_segment_text(name.as_bytes()) && dir.len() + name.len() < 400
}

/// The names in the order of their bytes, each once.
fn in_order(mut names: Vec<String>) -> Vec<String>
    ensures { IsStrictlySortedBy string_cmp result.items }
{
    names.sort_unstable();
    names.dedup();
    names
}

/// The names of all entries of the directory in the order of their bytes, each once; none where it isn't there.
/// A name that isn't UTF-8, which is no path's, is passed over.
fn entries_of<F: Files + AllocGlobal + Clone + Drop>(rt: &F, place: &str) -> io::Result<Vec<String>>
    ensures { IfOk result (λ names. IsStrictlySortedBy string_cmp names.items) }
{
    let mut names = Vec::new(rt.alloc());
    let entries = match fs::read_dir(rt, place) {
        Ok(entries) => entries,
        Err(e) if e.kind() == ErrorKind::NotFound => return Ok(names),
        Err(e) => return Err(e),
    };
    for entry in entries {
        match entry {
            Ok(entry) => names.push(String::from_str(rt.alloc(), entry.file_name())?)?,
            Err(e) if e.kind() == ErrorKind::InvalidFilename => {}
            Err(e) => return Err(e),
        }
    }
    Ok(in_order(names))
}

/// Whether a look that gave this error was at a name that leads to nothing: a link that dangles, runs in a circle, goes through what is no
/// directory, or has too long a name in it.
fn leads_nowhere(kind: ErrorKind) -> bool {
    matches!(
        kind,
        ErrorKind::NotFound
            | ErrorKind::FilesystemLoop
            | ErrorKind::NotADirectory
            | ErrorKind::InvalidFilename
    )
}

/// An error where names in the directory may not be looked at, whatever they lead to.
fn check_searchable<F: Files + AllocGlobal>(rt: &F, root: &str, dir: &str) -> io::Result<()> {
    let itself = format!(in rt.alloc(); "{root}{dir}/.")?;
    fs::metadata(rt, itself.as_str())?;
    Ok(())
}

/// Whether a regular file of this name, which makes a path in the directory, lies directly in it. A name that leads to nothing, or to
/// where this process may not look, is none.
fn is_file_in<F: Files + AllocGlobal>(rt: &F, root: &str, dir: &str, name: &str) -> io::Result<bool>
    requires { is_path dir.now ≡ true }
    ensures { IfOk result (λ there. IsTrue there → IsNameIn dir.now name.now) }
{
    if !is_name_in(dir, name) {
        return Ok(false);
    }
    let place = format!(in rt.alloc(); "{root}{dir}/{name}")?;
    match fs::metadata(rt, place.as_str()) {
        Ok(found) => Ok(found.is_file()),
        Err(e) if leads_nowhere(e.kind()) => Ok(false),
        Err(e) if e.kind() == ErrorKind::PermissionDenied => {
            check_searchable(rt, root, dir)?;
            Ok(false)
        }
        Err(e) => Err(e),
    }
}

/// Adds the name at the end where its file is there.
fn add_where(there: bool, names: &mut Names, name: Text) -> Result<(), AllocError>
    ensures { IfOk result (λ _. names.new ≡ (if there then names.old ++ name ∷ [] else names.old)) }
{
    if there {
        names.push(name)?;
    }
    Ok(())
}

/// The names of the files directly in the directory that make a path there, in the order of their bytes.
pub fn names_in<F: Files + AllocGlobal + Clone + Drop>(
    rt: &F,
    root: &str,
    dir: &Path,
) -> io::Result<Names>
    ensures named { IfOk result (All (IsNameIn dir.now)) }
    ensures sorted { IfOk result (IsStrictlySortedBy (slice_cmp nat_cmp)) }
{
    let alloc = rt.alloc();
    let dir = dir.as_str();
    let mut names = Names::new(alloc);
    for name in &entries_of(rt, place(alloc, root, dir)?.as_str())? {
        let name = name.as_str();
        let there = is_file_in(rt, root, dir, name)?;
        add_where(there, &mut names, Text::of(alloc, name)?)?;
    }
    Ok(names)
}

ghost use Rattle.std.specs.Prelude.{◌≢◌, IfErr};
ghost use Rattle.std.specs.IoError.{error_kind};

use crate::posix_files::place;
use crate::temp_name::temp_name;
use ig_store::Path;
use std::fs::{File, OpenFile};
use std::io::{ErrorKind, Write};
use std::rt::Files;
use std::{fs, io};
use uuid::Uuid;

/// Makes the directories above a place where they are missing.
fn make_parent<F: Files>(rt: &F, place: &str) -> io::Result<()> {
    match place.rsplit_once('/') {
        Some((dir, _)) => fs::create_dir_all(rt, dir),
        None => Ok(()),
    }
}

/// Makes a new file; the directories above it are made only where the system says that one is missing.
fn create_new<F: Files>(rt: &F, place: &str) -> io::Result<F::File> {
    match File::create_new(rt, place) {
        Err(e) if e.kind() == ErrorKind::NotFound => {
            make_parent(rt, place)?;
            File::create_new(rt, place)
        }
        made => made,
    }
}

/// Whether others act on the text of the file: the info of a layer, the record of a stage and its seal.
fn is_acted_on(place: &str) -> bool {
    place.ends_with("/info") || place.contains("/stages/") || place.contains("/seals/")
}

/// Writes the new file's bytes. A file on whose text others act is given to the disk: there are file systems that write, and find their
/// disk full, only later (NFS, SMB, FUSE).
fn fill<F: OpenFile + Write>(file: &mut F, place: &str, bytes: &[u8]) -> io::Result<()> {
    file.write_all(bytes)?;
    if is_acted_on(place) {
        file.sync_data()?;
    }
    Ok(())
}

/// Moves the file in one step, in place of the one at `to`; false where it, or a directory above `to`, is missing.
fn try_rename<F: Files>(rt: &F, from: &str, to: &str) -> io::Result<bool>
    ensures { IfErr result (λ e. error_kind e ≢ ErrorKind.NotFound) }
{
    match fs::rename(rt, from, to) {
        Ok(()) => Ok(true),
        Err(e) if e.kind() == ErrorKind::NotFound => Ok(false),
        Err(e) => Err(e),
    }
}

/// Whether anything is there, be it a link that leads to nothing.
fn is_there<F: Files>(rt: &F, place: &str) -> io::Result<bool>
    ensures { IfErr result (λ e. error_kind e ≢ ErrorKind.NotFound) }
{
    match fs::symlink_metadata(rt, place) {
        Ok(_) => Ok(true),
        Err(e) if e.kind() == ErrorKind::NotFound => Ok(false),
        Err(e) => Err(e),
    }
}

/// Moves the file in one step, in place of the one at `to`; false exactly where there is no such file. Directories above `to` are made only
/// where one is missing and the file is there.
pub fn move_file<F: Files>(rt: &F, from: &str, to: &str) -> io::Result<bool> {
    if try_rename(rt, from, to)? {
        return Ok(true);
    }
    if !is_there(rt, from)? {
        return Ok(false);
    }
    make_parent(rt, to)?;
    try_rename(rt, from, to)
}

/// Fills the new file, and makes it stand at the place in one step, once the system has taken every byte.
fn fill_and_move<F: Files>(
    rt: &F,
    mut file: F::File,
    from: &str,
    to: &str,
    bytes: &[u8],
) -> io::Result<()> {
    fill(&mut file, to, bytes)?;
    drop(file);
    if move_file(rt, from, to)? {
        Ok(())
    } else {
        Err(io::Error::from(ErrorKind::NotFound))
    }
}

/// Replaces the file whole, by way of the temporary file of this id. At an error no temporary file is left where it can
/// be removed.
pub fn replace_file<F: Files + AllocGlobal>(
    rt: &F,
    root: &str,
    id: &Uuid,
    path: &Path,
    bytes: &[u8],
) -> io::Result<()> {
    let alloc = rt.alloc();
    let temp = place(alloc, root, temp_name(alloc, id)?.as_str())?;
    let target = place(alloc, root, path.as_str())?;
    let file = create_new(rt, temp.as_str())?;
    let moved = fill_and_move(rt, file, temp.as_str(), target.as_str(), bytes);
    if moved.is_err() {
        let _ = fs::remove_file(rt, temp.as_str());
    }
    moved
}

/// Takes the file away; false exactly where there is no such file.
pub fn remove_file<F: Files>(rt: &F, place: &str) -> io::Result<bool>
    ensures { IfErr result (λ e. error_kind e ≢ ErrorKind.NotFound) }
{
    match fs::remove_file(rt, place) {
        Ok(()) => Ok(true),
        Err(e) if e.kind() == ErrorKind::NotFound => Ok(false),
        Err(e) => Err(e),
    }
}

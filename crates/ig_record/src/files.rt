//! The files of passes: directories in their scratch, and names by numbers.
ghost use Rattle.std.specs.Prelude.{◌≡◌, ◌≤◌, ◌<◌, ◌^◌, ◌++◌, IfOk, IfSome, OnOk, length, string_bytes, true};
ghost use Rattle.std.specs.List.{list_all};
ghost use Rattle.ig_space.specs.Chunks.{listed};
ghost use Rattle.ig_space.specs.Path.{is_segment, is_segment_byte, joined};
ghost use Rattle.ig_defs.specs.QueueNames.{digits};
ghost use Rattle.ig_record.specs.Columns.{named_one, numbered as numbered_file, numbered_all, numbered_one};
ghost use Rattle.ig_record.specs.SoundFacts.{IsScratch};

use ig_space::{Path, Paths};
use std::alloc::{AllocError, Global};

/// The path of a file or a directory in a directory.
pub(crate) fn path_in(alloc: Global, dir: &Path, name: &str) -> Result<Path, AllocError>
    requires name { is_segment name.now ≡ true }
    requires dir { length dir.now ≤ 300 }
    requires short { length name.now ≤ 20 }
    ensures { IfOk result (λ path. path ≡ joined dir.now name.now) }
{
    let name = Path::new(alloc, name)?.unwrap();
    Ok(dir.join(&name)?.unwrap())
}

/// The name of the file of a number: six digits, and an ending.
fn number_name(alloc: Global, number: u32, ending: &str) -> Result<String, AllocError>
    requires small { number < 10 ^ 6 }
    ensures { IfOk result (λ text. string_bytes text ≡ digits 6 number ++ ending.now) }
{
    format!(in alloc; "{number:06}{ending}")
}

/// The file of a number in a directory.
fn numbered(alloc: Global, dir: &Path, ending: &str, number: u32) -> Result<Path, AllocError>
    requires small { number < 10 ^ 6 }
    requires dir { length dir.now ≤ 300 }
    requires bytes { list_all is_segment_byte ending.now ≡ true }
    requires short { length ending.now ≤ 10 }
    ensures { IfOk result (λ path. path ≡ numbered_file dir.now ending.now number) }
{
    path_in(alloc, dir, number_name(alloc, number, ending)?.as_str())
}

/// Adds the file of this name in a directory of the scratch.
pub(crate) fn add_named(
    alloc: Global,
    paths: &mut Paths,
    scratch: &Option<Path>,
    name: &str,
    file: &str,
) -> Result<(), AllocError>
    requires scratch { IfSome scratch.now IsScratch }
    requires name { is_segment name.now ≡ true }
    requires name_short { length name.now ≤ 6 }
    requires file { is_segment file.now ≡ true }
    requires file_short { length file.now ≤ 20 }
    ensures { OnOk result (paths.new ≡ paths.old ++ named_one scratch.now name.now file.now) }
{
    let Some(scratch) = scratch else {
        return Ok(());
    };
    let dir = path_in(alloc, scratch, name)?;
    paths.push(path_in(alloc, &dir, file)?)
}

/// Adds the file of a number in a directory of the scratch.
pub(crate) fn add_numbered(
    alloc: Global,
    paths: &mut Paths,
    scratch: &Option<Path>,
    name: &str,
    ending: &str,
    number: u32,
) -> Result<(), AllocError>
    requires scratch { IfSome scratch.now IsScratch }
    requires name { is_segment name.now ≡ true }
    requires name_short { length name.now ≤ 6 }
    requires bytes { list_all is_segment_byte ending.now ≡ true }
    requires short { length ending.now ≤ 10 }
    requires small { number < 10 ^ 6 }
    ensures { OnOk result (paths.new ≡ paths.old ++ numbered_one scratch.now name.now ending.now number) }
{
    let Some(scratch) = scratch else {
        return Ok(());
    };
    let dir = path_in(alloc, scratch, name)?;
    paths.push(numbered(alloc, &dir, ending, number)?)
}

/// Adds the files of the numbers below n in a directory.
fn add_files(
    alloc: Global,
    paths: &mut Paths,
    dir: &Path,
    ending: &str,
    n: u32,
) -> Result<(), AllocError>
    requires dir { length dir.now ≤ 300 }
    requires bytes { list_all is_segment_byte ending.now ≡ true }
    requires short { length ending.now ≤ 10 }
    requires few { n ≤ 10 ^ 6 }
    ensures { OnOk result (paths.new ≡ paths.old ++ listed (numbered_file dir.now ending.now) n) }
{
    for number in 0..n {
        paths.push(numbered(alloc, dir, ending, number)?)?;
    }
    Ok(())
}

/// Adds the files of the numbers below n in a directory of the scratch.
pub(crate) fn add_numbered_all(
    alloc: Global,
    paths: &mut Paths,
    scratch: &Option<Path>,
    name: &str,
    ending: &str,
    n: u32,
) -> Result<(), AllocError>
    requires scratch { IfSome scratch.now IsScratch }
    requires name { is_segment name.now ≡ true }
    requires name_short { length name.now ≤ 6 }
    requires bytes { list_all is_segment_byte ending.now ≡ true }
    requires short { length ending.now ≤ 10 }
    requires few { n ≤ 10 ^ 6 }
    ensures { OnOk result (paths.new ≡ paths.old ++ numbered_all scratch.now name.now ending.now n) }
{
    let Some(scratch) = scratch else {
        return Ok(());
    };
    add_files(alloc, paths, &path_in(alloc, scratch, name)?, ending, n)
}

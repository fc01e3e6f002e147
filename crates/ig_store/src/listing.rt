ghost use Rattle.std.specs.Prelude.{◌≡◌, ◌≢◌, ◌++◌, ℕ, List as list, [], All, IfOk, IfSome, IfNone, OnOk, option_to_list};
ghost use Rattle.std.specs.Option.{option_copied};
ghost use Rattle.std.specs.FinMap as map;
ghost use Rattle.ig_space.specs.Path.{joined};
ghost use Rattle.ig_defs.specs.Calls.{ListsNames};
ghost use Rattle.ig_defs.specs.Names.{IsNameIn};
ghost use Rattle.ig_store.specs.Names.{name_in};

use ig_space::{Bytes, List, Names, Path, Text, is_segment_text};
use std::alloc::{AllocError, Global};
use std::collections::BTreeMap;

/// What comes after the directory and a `/`.
fn after_dir<'a>(dir: &str, path: &'a str) -> Option<&'a str>
    ensures some { IfSome result (λ name. path.now ≡ joined dir.now name.now) }
    ensures none { IfNone result ((name : list ℕ) → path.now ≢ joined dir.now name) }
{
    path.strip_prefix(dir)?.strip_prefix('/')
}

/// The last segment of a path that lies directly in the directory.
fn find_name<'a>(dir: &str, path: &'a str) -> Option<&'a str>
    ensures { option_copied result ≡ name_in dir.now path.now }
{
    let name = after_dir(dir, path)?;
    if !is_segment_text(name.as_bytes()) {
        return None;
    }
    Some(name)
}

/// Adds the name of a path that lies directly in the directory.
fn add_name(names: &mut Names, alloc: Global, dir: &Path, path: &Path) -> Result<(), AllocError>
    ensures added { OnOk result (names.new ≡ names.old ++ option_to_list (name_in dir.now path.now)) }
    ensures named { OnOk result (All (IsNameIn dir.now) names.old → All (IsNameIn dir.now) names.new) }
{
    if let Some(name) = find_name(dir.as_str(), path.as_str()) {
        names.push(Text::of(alloc, name)?)?;
    }
    Ok(())
}

/// The names of the files that lie directly in the directory, in the order of their bytes.
pub(crate) fn list_names(
    alloc: Global,
    files: &BTreeMap<Path, Bytes>,
    dir: &Path,
) -> Result<Names, AllocError>
    ensures named { IfOk result (All (IsNameIn dir.now)) }
    ensures lists { IfOk result (λ names. ListsNames dir.now names (map.from_entries files.now.entries) []) }
{
    let mut names = List::new(alloc);
    for path in files.keys() {
        add_name(&mut names, alloc, dir, path)?;
    }
    Ok(names)
}

//! What a transcript looks at after its calls.
use crate::bytes::{bytes_of, shown};
use crate::fault::{Fault, compare, unreadable};
use crate::player::Player;
use crate::settings::{holds, lay, split};
use std::alloc::{AllocError, Global};

/// `holds PATH FORM ..`.
fn look_at_file(player: &Player, rest: &str) -> Result<(), Fault> {
    let alloc = player.alloc;
    let (path, rest) = split(rest);
    let (form, rest) = split(rest);
    let expected = bytes_of(alloc, form, rest)?;
    let Some(found) = player.world.found(path)? else {
        return compare(alloc, path, "a file", "no file");
    };
    let expected = shown(alloc, expected.as_slice())?;
    let came = shown(alloc, found.as_bytes())?;
    compare(alloc, path, expected.as_str(), came.as_str())
}

/// `gone PATH`.
fn look_for_nothing(player: &Player, path: &str) -> Result<(), Fault> {
    match player.world.found(path)? {
        Some(_) => compare(player.alloc, path, "no file", "a file"),
        None => Ok(()),
    }
}

/// `finds PATH TEXT`: a file with this text, or none where the text is empty.
fn find(player: &Player, rest: &str) -> Result<(), Fault> {
    let (path, text) = split(rest);
    if text.is_empty() {
        return look_for_nothing(player, path);
    }
    let rest = format!(in player.alloc; "{path} text {text}")?;
    look_at_file(player, rest.as_str())
}

/// `only DIR NAME..`: these files lie directly in the directory, and no others.
fn look_into(player: &Player, rest: &str) -> Result<(), Fault> {
    let alloc = player.alloc;
    let (dir, names) = split(rest);
    let mut expected = String::new(alloc);
    for name in names.split_whitespace() {
        expected.push_str(name)?;
        expected.push('\n')?;
    }
    let came = player.world.names(dir)?;
    compare(alloc, dir, expected.as_str(), came.as_str())
}

/// Whether the files of this name in two directories are the same.
fn is_same(player: &Player, left: &str, right: &str, name: &str) -> Result<bool, Fault> {
    let left = format!(in player.alloc; "{left}/{name}")?;
    let right = format!(in player.alloc; "{right}/{name}")?;
    let left = player.world.found(left.as_str())?;
    let right = player.world.found(right.as_str())?;
    Ok(match (&left, &right) {
        (Some(left), Some(right)) => left.as_bytes() == right.as_bytes(),
        _ => false,
    })
}

/// `same DIR DIR`: the same files lie directly in both, with the same bytes.
fn look_beside(player: &Player, rest: &str) -> Result<(), Fault> {
    let (left, right) = split(rest);
    let names = player.world.names(left)?;
    let others = player.world.names(right)?;
    compare(player.alloc, "names", names.as_str(), others.as_str())?;
    for name in names.as_str().split_whitespace() {
        let same = is_same(player, left, right, name)?;
        holds(player.alloc, same, "a file differs")?;
    }
    Ok(())
}

/// The paths that the last call's own steps change, each step's in its turn.
fn changed(alloc: Global, steps: &str) -> Result<String, AllocError> {
    let mut paths = String::new(alloc);
    for step in steps.lines() {
        let (word, rest) = split(step);
        if word == "put" || word == "move" || word == "remove" {
            paths.push_str(rest)?;
            paths.push(' ')?;
        }
    }
    Ok(paths)
}

/// Whether the word is one of the text's.
fn has_word(text: &str, word: &str) -> bool {
    for other in text.split_whitespace() {
        if other == word {
            return true;
        }
    }
    false
}

/// Nothing where each of these paths is among the others.
fn are_among(alloc: Global, paths: &str, others: &str) -> Result<(), Fault> {
    for path in paths.split_whitespace() {
        if !has_word(others, path) {
            return compare(alloc, "changes", others, path);
        }
    }
    Ok(())
}

/// `changes PATH..`: the last call changed these files, and no others.
fn look_at_changes(player: &Player, rest: &str) -> Result<(), Fault> {
    let came = changed(player.alloc, player.told.steps.as_str())?;
    are_among(player.alloc, came.as_str(), rest)?;
    are_among(player.alloc, rest, came.as_str())
}

/// Looks whether it is as the line says.
pub fn look(player: &mut Player, word: &str, rest: &str) -> Result<(), Fault> {
    match word {
        "holds" => look_at_file(player, rest),
        "gone" => look_for_nothing(player, rest),
        "finds" => find(player, rest),
        "only" => look_into(player, rest),
        "same" => look_beside(player, rest),
        "changes" => look_at_changes(player, rest),
        _ => {
            if lay(player, rest, false)? {
                Ok(())
            } else {
                Err(unreadable(player.alloc, "the labels differ"))
            }
        }
    }
}

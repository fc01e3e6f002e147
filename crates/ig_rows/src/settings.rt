//! What stands before a call: files, layers, the clock, faults.
use crate::bytes::bytes_of;
use crate::fault::{Fault, unreadable};
use crate::player::Player;
use ig_play::{chunks_with, number, short_info};
use std::alloc::{AllocError, Global};

/// The first word of a text, and the rest.
pub fn split(text: &str) -> (&str, &str) {
    text.split_once(' ').unwrap_or((text, ""))
}

/// The words of a text.
pub fn words_of(alloc: Global, text: &str) -> Result<Vec<&str>, AllocError> {
    let mut words = Vec::new(alloc);
    for word in text.split_whitespace() {
        words.push(word)?;
    }
    Ok(words)
}

/// The numbers that a text's words write.
pub fn numbers_of(alloc: Global, text: &str) -> Result<Vec<u64>, Fault> {
    let mut numbers = Vec::new(alloc);
    for word in text.split_whitespace() {
        let Some(value) = number(word) else {
            return Err(unreadable(alloc, "no number"));
        };
        numbers.push(value)?;
    }
    Ok(numbers)
}

/// The number that a word writes.
pub fn number_of(alloc: Global, word: &str) -> Result<u64, Fault> {
    number(word).ok_or(unreadable(alloc, "no number"))
}

/// Nothing where it is so, and else that the transcript can't be read, for this reason.
pub fn holds(alloc: Global, is_so: bool, why: &str) -> Result<(), Fault> {
    if is_so {
        Ok(())
    } else {
        Err(unreadable(alloc, why))
    }
}

/// `file PATH FORM ..`.
fn put_file(player: &mut Player, rest: &str) -> Result<(), Fault> {
    let (path, rest) = split(rest);
    let (form, rest) = split(rest);
    let bytes = bytes_of(player.alloc, form, rest)?;
    let is_put = player.world.put(path, bytes.as_slice())?;
    holds(player.alloc, is_put, "no path")
}

/// `files A..B PATH FORM ..`: a file for each of these numbers, which stands for `{i}` as it is and for `{iiii}` in four digits.
fn put_files(player: &mut Player, rest: &str) -> Result<(), Fault> {
    let alloc = player.alloc;
    let (range, rest) = split(rest);
    let (from, to) = range.split_once("..").unwrap_or((range, range));
    for number in number_of(alloc, from)?..=number_of(alloc, to)? {
        let line = rest.replace(alloc, "{i}", format!(in alloc; "{number}")?.as_str())?;
        let digits = format!(in alloc; "{number:04}")?;
        let line = line.as_str().replace(alloc, "{iiii}", digits.as_str())?;
        put_file(player, line.as_str())?;
    }
    Ok(())
}

/// `copy FROM TO`.
fn copy_file(player: &mut Player, rest: &str) -> Result<(), Fault> {
    let (from, to) = split(rest);
    let Some(bytes) = player.world.found(from)? else {
        return Err(unreadable(player.alloc, "no such file"));
    };
    let is_put = player.world.put(to, bytes.as_bytes())?;
    holds(player.alloc, is_put, "no path")
}

/// `layer DIR size X,Y,Z ..`.
fn put_layer(player: &mut Player, rest: &str) -> Result<(), Fault> {
    let (dir, rest) = split(rest);
    let words = words_of(player.alloc, rest)?;
    let Some(text) = short_info(player.alloc, words.as_slice())? else {
        return Err(unreadable(player.alloc, "no size"));
    };
    let path = format!(in player.alloc; "{dir}/info")?;
    let is_put = player.world.put(path.as_str(), text.as_str().as_bytes())?;
    holds(player.alloc, is_put, "no path")
}

/// `labels DIR SCALE LABEL..` puts the chunks; `shows ..` looks whether they stand so.
pub fn lay(player: &mut Player, rest: &str, puts: bool) -> Result<bool, Fault> {
    let (dir, rest) = split(rest);
    let (mip, rest) = split(rest);
    let mip = number_of(player.alloc, mip)?;
    let labels = numbers_of(player.alloc, rest)?;
    let Ok(mip) = u32::try_from(mip) else {
        return Err(unreadable(player.alloc, "no scale"));
    };
    let done = chunks_with(&mut player.world, dir, mip, labels.as_slice(), puts)?;
    Ok(done)
}

/// `fault N HOW` or `fault A..B HOW`, where HOW is `made` or `not-made`.
fn set_fault(player: &mut Player, rest: &str) -> Result<(), Fault> {
    let (calls, how) = split(rest);
    let (from, to) = calls.split_once("..").unwrap_or((calls, calls));
    let from = number_of(player.alloc, from)?;
    let to = number_of(player.alloc, to)?;
    holds(
        player.alloc,
        how == "made" || how == "not-made",
        "made or not-made",
    )?;
    player.world.fail(from, to, how == "made")?;
    Ok(())
}

/// Sets what the line says.
pub fn set(player: &mut Player, word: &str, rest: &str) -> Result<(), Fault> {
    match word {
        "file" => put_file(player, rest),
        "files" => put_files(player, rest),
        "copy" => copy_file(player, rest),
        "absent" => {
            let was_there = player.world.remove(rest)?;
            holds(player.alloc, was_there, "no such file")
        }
        "layer" => put_layer(player, rest),
        "labels" => {
            let is_put = lay(player, rest, true)?;
            holds(player.alloc, is_put, "no such layer or labels")
        }
        "at" => {
            player.world.second = number_of(player.alloc, rest)?;
            Ok(())
        }
        "takes" => {
            player.world.takes = number_of(player.alloc, rest)?;
            Ok(())
        }
        _ => set_fault(player, rest),
    }
}

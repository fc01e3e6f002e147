//! A transcript: what stands before its first `part` begins each of its parts.
use crate::acts::{act, close, expect};
use crate::fault::{Fault, unreadable};
use crate::looks::look;
use crate::player::Player;
use crate::settings::{holds, set, split};
use crate::tables::{Table, count_of, filled, tables_of};
use std::alloc::{AllocError, Global};
use std::thread::Threads;

/// Plays a line.
fn play_line<R: Threads + Sync>(rt: &R, player: &mut Player, line: &str) -> Result<(), Fault> {
    let (word, rest) = split(line);
    match word {
        "" | "#" | "each" | "|" => Ok(()),
        "file" | "files" | "copy" | "absent" | "layer" | "labels" | "at" | "takes" | "fault" => {
            set(player, word, rest)
        }
        "$" | "?" | "start" | "drop" | "step" | "run" | "wait" => act(rt, player, word, rest),
        ">" | "!" | "~" | "cut" => expect(player, word, rest),
        "=" => close(player, rest),
        "holds" | "gone" | "finds" | "only" | "same" | "changes" | "shows" => look(
            player, word, rest,
        ),
        _ => Err(unreadable(player.alloc, "an unknown word")),
    }
}

/// Where a line differs, with the line as it was played.
fn placed(alloc: Global, fault: Fault, number: u64, line: &str) -> Fault {
    match fault {
        Fault::Memory => Fault::Memory,
        Fault::Differs(why) => {
            match format!(in alloc; "line {number}: {line}\n  {}", why.as_str()) {
                Ok(text) => Fault::Differs(text),
                Err(_) => Fault::Memory,
            }
        }
    }
}

/// Plays the lines for one combination. Gives how many calls agree.
fn play_once<R: Threads + Sync>(
    rt: &R,
    alloc: Global,
    lines: &[(u64, &str)],
    tables: &[Table],
    combination: u64,
) -> Result<u64, Fault> {
    let mut player = Player::new(alloc);
    for (number, line) in lines {
        let line = filled(alloc, line, tables, combination)?;
        if let Err(fault) = play_line(rt, &mut player, line.as_str()) {
            return Err(placed(alloc, fault, *number, line.as_str()));
        }
    }
    holds(alloc, !player.is_open, "the last call is not compared")?;
    Ok(player.calls)
}

/// Plays a part for each combination of its tables.
fn play_part<R: Threads + Sync>(
    rt: &R,
    alloc: Global,
    lines: &[(u64, &str)],
) -> Result<u64, Fault> {
    let tables = tables_of(alloc, lines)?;
    let mut calls = 0u64;
    for combination in 0..count_of(tables.as_slice()) {
        let more = play_once(rt, alloc, lines, tables.as_slice(), combination)?;
        calls = calls.saturating_add(more);
    }
    Ok(calls)
}

/// Whether the line begins a part.
fn is_part(line: &str) -> bool {
    split(line).0 == "part"
}

/// The lines before the first part.
fn head_of(alloc: Global, text: &str) -> Result<Vec<(u64, &str)>, AllocError> {
    let mut lines = Vec::new(alloc);
    let mut number = 0u64;
    for line in text.lines() {
        number = number.saturating_add(1);
        if is_part(line) {
            break;
        }
        lines.push((number, line))?;
    }
    Ok(lines)
}

/// Plays a transcript. Gives how many calls agree.
pub fn play<R: Threads + Sync>(rt: &R, alloc: Global, text: &str) -> Result<u64, Fault> {
    let head = head_of(alloc, text)?;
    let (mut calls, mut number, mut parts) = (0u64, 0u64, 0u64);
    let mut lines = Vec::from_slice(alloc, head.as_slice())?;
    for line in text.lines() {
        number = number.saturating_add(1);
        if is_part(line) {
            if parts > 0 {
                calls = calls.saturating_add(play_part(rt, alloc, lines.as_slice())?);
            }
            parts = parts.saturating_add(1);
            lines = Vec::from_slice(alloc, head.as_slice())?;
        } else if parts > 0 {
            lines.push((number, line))?;
        }
    }
    let more = play_part(rt, alloc, lines.as_slice())?;
    Ok(calls.saturating_add(more))
}

//! Calls, and what is expected of them.
use crate::fault::{Fault, compare, unreadable};
use crate::player::{Named, Player};
use crate::settings::{holds, number_of, split, words_of};
use ig_play::ask;
use ig_run::{Hand, call};
use std::alloc::{AllocError, Global};
use std::thread::Threads;

/// The words as the program gets them.
fn texts_of(alloc: Global, text: &str) -> Result<Vec<String>, AllocError> {
    let mut words = Vec::new(alloc);
    for word in text.split_whitespace() {
        words.push(String::from_str(alloc, word)?)?;
    }
    Ok(words)
}

/// `start NAME execute ..`.
fn start(player: &mut Player, rest: &str) -> Result<(), Fault> {
    let (name, rest) = split(rest);
    let words = texts_of(player.alloc, rest)?;
    let Some(hand) = Hand::start(&player.world, &words)? else {
        return Err(unreadable(player.alloc, "no words of a worker"));
    };
    let name = String::from_str(player.alloc, name)?;
    player.hands.push(Named { name, hand })?;
    Ok(())
}

/// The place of the worker with this name.
fn place_of(player: &Player, name: &str) -> Result<usize, Fault> {
    for (place, named) in player.hands.iter().enumerate() {
        if named.name.as_str() == name {
            return Ok(place);
        }
    }
    Err(unreadable(player.alloc, "no such worker"))
}

/// `drop NAME`.
fn let_go(player: &mut Player, name: &str) -> Result<(), Fault> {
    let place = place_of(player, name)?;
    if place < player.hands.len() {
        let _ = player.hands.remove(place);
    }
    Ok(())
}

/// More steps than a worker of a transcript takes.
const ALL: u64 = 10_000;

/// Lets a worker take so many steps, or till it says this line.
fn step<R: Threads + Sync>(
    rt: &R,
    player: &mut Player,
    name: &str,
    count: u64,
    till: &str,
) -> Result<(), Fault> {
    let place = place_of(player, name)?;
    let Some(named) = player.hands.get_mut(place) else {
        return Err(unreadable(player.alloc, "no such worker"));
    };
    let told = named.hand.steps(rt, &mut player.world, count, till)?;
    player.open(told);
    Ok(())
}

/// `step NAME N`, `run NAME` till its end, `wait NAME LINE` till it says the line.
fn work<R: Threads + Sync>(
    rt: &R,
    player: &mut Player,
    word: &str,
    rest: &str,
) -> Result<(), Fault> {
    let (name, rest) = split(rest);
    match word {
        "step" => {
            let count = number_of(player.alloc, rest)?;
            step(rt, player, name, count, "")
        }
        "wait" => {
            let till = format!(in player.alloc; "{rest}\n")?;
            step(rt, player, name, ALL, till.as_str())
        }
        _ => step(rt, player, name, ALL, ""),
    }
}

/// `? FUNCTION ..`.
fn inquire(player: &mut Player, rest: &str) -> Result<(), Fault> {
    let words = words_of(player.alloc, rest)?;
    let Some(told) = ask(&mut player.world, words.as_slice())? else {
        return Err(unreadable(player.alloc, "no such function, or a word out of form"));
    };
    player.open(told);
    Ok(())
}

/// Does what the line says, once the call before has been compared.
pub fn act<R: Threads + Sync>(
    rt: &R,
    player: &mut Player,
    word: &str,
    rest: &str,
) -> Result<(), Fault> {
    holds(
        player.alloc,
        !player.is_open,
        "the call before is not compared",
    )?;
    match word {
        "$" => {
            let words = texts_of(player.alloc, rest)?;
            let told = call(rt, &mut player.world, &words)?;
            player.open(told);
            Ok(())
        }
        "?" => inquire(player, rest),
        "start" => start(player, rest),
        "drop" => let_go(player, rest),
        _ => work(rt, player, word, rest),
    }
}

/// `cut N`: so many bytes of the output that is expected so far are to come.
fn cut(player: &mut Player, rest: &str) -> Result<(), Fault> {
    let count = number_of(player.alloc, rest)? as usize;
    let mut text = String::new(player.alloc);
    for c in player.wanted.out.as_str().chars().take(count) {
        text.push(c)?;
    }
    player.wanted.out = text;
    Ok(())
}

/// Adds a line to what is expected: `>` on the output, `!` on the other output, `~` of the own steps, where `~` alone means that
/// there is none.
pub fn expect(player: &mut Player, word: &str, rest: &str) -> Result<(), Fault> {
    holds(player.alloc, player.is_open, "no call to compare")?;
    if word == "cut" {
        return cut(player, rest);
    }
    let wanted = &mut player.wanted;
    if word == "~" {
        wanted.has_steps = true;
        if rest.is_empty() {
            return Ok(());
        }
    }
    let text = match word {
        ">" => &mut wanted.out,
        "!" => &mut wanted.err,
        _ => &mut wanted.steps,
    };
    text.push_str(rest)?;
    text.push('\n')?;
    Ok(())
}

/// `= ANSWER`: compares the call with what is expected of it.
pub fn close(player: &mut Player, answer: &str) -> Result<(), Fault> {
    let alloc = player.alloc;
    holds(alloc, player.is_open, "no call to compare")?;
    let (told, wanted) = (&player.told, &player.wanted);
    compare(alloc, "output", wanted.out.as_str(), told.out.as_str())?;
    compare(alloc, "errors", wanted.err.as_str(), told.err.as_str())?;
    compare(alloc, "answer", answer, told.answer.as_str())?;
    if wanted.has_steps {
        compare(alloc, "steps", wanted.steps.as_str(), told.steps.as_str())?;
    }
    player.is_open = false;
    player.calls = player.calls.saturating_add(1);
    Ok(())
}

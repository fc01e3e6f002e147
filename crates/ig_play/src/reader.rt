//! Calls of one function below by itself. Each group of functions has one here that knows their names, and gives nothing where the
//! name is another, or a word is out of form.
use crate::boxes::ask_boxes;
use crate::codecs::{ask_decode, ask_encode, labels_of, read_form};
use crate::files::{ask_count, ask_file};
use crate::globals::{ask_number, ask_parts as ask_whole, ask_total, ask_walk};
use crate::infos::{ask_dest, ask_longer, ask_read, ask_write};
use crate::mips::{ask_mips, ask_mode, ask_row};
use crate::moves::{ask_move, ask_revive};
use crate::names::{
    ask_candidates, ask_chunk_name, ask_join, ask_path, ask_progress, ask_queue_name,
    ask_stage_name, ask_task_name,
};
use crate::numbers::{point, small};
use crate::parts::{ask_label, ask_runs};
use crate::stages::{ask_read_task, ask_stage, ask_task, ask_write_task};
use crate::store::{ask_store, ask_two};
use crate::{Told, World, stages};
use std::alloc::{AllocError, Global};

type Answer = Result<Option<Told>, AllocError>;

/// The readers of names, of which each takes one word, or none.
fn ask_name(alloc: Global, word: &str, text: &str) -> Answer {
    if word == "parse_queue_name" {
        return Ok(Some(ask_queue_name(alloc, text)?));
    }
    if word == "parse_task_name" {
        return Ok(Some(ask_task_name(alloc, text)?));
    }
    if word == "parse_stage_name" {
        return Ok(Some(ask_stage_name(alloc, text)?));
    }
    if word == "parse_chunk_name" {
        return Ok(Some(ask_chunk_name(alloc, text)?));
    }
    if word == "path" {
        return Ok(Some(ask_path(alloc, text)?));
    }
    Ok(None)
}

/// What takes one word.
fn ask_one(world: &mut World, word: &str, path: &str) -> Answer {
    if word == "read_info" {
        return Ok(Some(ask_read(world, path)?));
    }
    ask_store(world, word, path)
}

/// What takes two words.
fn ask_pair(world: &mut World, word: &str, first: &str, second: &str) -> Answer {
    if word == "write_info" {
        return Ok(Some(ask_write(world, first, second)?));
    }
    if word == "join" {
        return ask_join(world.alloc, first, second);
    }
    if word == "lease" || word == "complete" || word == "bury" || word == "release" {
        return ask_move(world, word, first, second);
    }
    if word == "revive" {
        return ask_revive(world, first, second);
    }
    ask_two(world, word, first, second)
}

/// `dest_info FROM SCALE TO`.
fn ask_dest_of(world: &mut World, path: &str, mip: &str, to: &str) -> Answer {
    match small(mip) {
        Some(mip) => Ok(Some(ask_dest(world, path, mip, to)?)),
        None => Ok(None),
    }
}

/// The readers and writers of records and tasks, of stages with this number, that take two more words.
fn ask_record(world: &mut World, word: &str, stage: u32, first: &str, second: &str) -> Answer {
    if word == "write_stage" {
        return Ok(Some(stages::ask_write(world, stage, first, second)?));
    }
    if word == "read_task" {
        return Ok(Some(ask_read_task(world, stage, first, second)?));
    }
    match small(second) {
        Some(task) if word == "task" => Ok(Some(ask_task(world, stage, first, task)?)),
        _ => Ok(None),
    }
}

/// `write_task NUMBER RECORD TASK TO`.
fn ask_task_text(world: &mut World, stage: u32, record: &str, task: &str, to: &str) -> Answer {
    match small(task) {
        Some(task) => Ok(Some(ask_write_task(world, stage, record, task, to)?)),
        None => Ok(None),
    }
}

/// What takes the number of a stage and more words.
fn ask_of_stage(world: &mut World, word: &str, number: &str, rest: &[&str]) -> Answer {
    let Some(stage) = small(number) else {
        return Ok(None);
    };
    match rest {
        [path] if word == "read_stage" => Ok(Some(ask_stage(world, stage, path)?)),
        [first, second] => ask_record(world, word, stage, first, second),
        [record, task, to] if word == "write_task" => ask_task_text(world, stage, record, task, to),
        _ => Ok(None),
    }
}

/// The block that a word gives, where `-` is none.
fn block(word: &str) -> Option<&str> {
    if word == "-" { None } else { Some(word) }
}

/// `decode PATH SIZE BITS BLOCK`.
fn ask_decode_of(world: &World, path: &str, size: &str, bits: &str, own: &str) -> Answer {
    match read_form(size, bits, block(own)) {
        Some(form) => ask_decode(world, path, form),
        None => Ok(None),
    }
}

/// `encode PATH SIZE BITS BLOCK LABEL..`.
fn ask_encode_of(
    world: &mut World,
    path: &str,
    size: &str,
    bits: &str,
    own: &str,
    labels: &[&str],
) -> Answer {
    let labels = labels_of(world.alloc, labels)?;
    match (read_form(size, bits, block(own)), labels) {
        (Some(form), Some(labels)) => ask_encode(world, path, form, labels.as_slice()),
        _ => Ok(None),
    }
}

/// The codecs of chunks.
fn ask_codec(world: &mut World, word: &str, rest: &[&str]) -> Answer {
    match rest {
        [path, size, bits, own] if word == "decode" => {
            ask_decode_of(world, path, size, bits, own)
        }
        [path, size, bits, own, labels @ ..] if word == "encode" => {
            ask_encode_of(world, path, size, bits, own, labels)
        }
        _ => Ok(None),
    }
}

/// The runs and the parts of a box.
fn ask_parts(alloc: Global, word: &str, size: &str, labels: &[&str]) -> Answer {
    let (Some(size), Some(labels)) = (point(size), labels_of(alloc, labels)?) else {
        return Ok(None);
    };
    if word == "runs_of" {
        ask_runs(alloc, size, labels.as_slice())
    } else {
        ask_label(alloc, size, labels.as_slice())
    }
}

/// `label_by_boxes SIZE BOX LABEL..`.
fn ask_boxes_of(alloc: Global, size: &str, step: &str, labels: &[&str]) -> Answer {
    let (Some(size), Some(step)) = (point(size), point(step)) else {
        return Ok(None);
    };
    match labels_of(alloc, labels)? {
        Some(labels) => ask_boxes(alloc, size, step, labels.as_slice()),
        None => Ok(None),
    }
}

/// The mode of labels, and of two rows of them.
fn ask_modes(alloc: Global, word: &str, labels: &[&str]) -> Answer {
    let Some(labels) = labels_of(alloc, labels)? else {
        return Ok(None);
    };
    if word == "mode4" {
        ask_mode(alloc, labels.as_slice())
    } else {
        ask_row(alloc, labels.as_slice())
    }
}

/// `mips SIZE LEVELS LABEL..`.
fn ask_mips_of(alloc: Global, size: &str, levels: &str, labels: &[&str]) -> Answer {
    let (Some(size), Some(levels)) = (point(size), small(levels)) else {
        return Ok(None);
    };
    match labels_of(alloc, labels)? {
        Some(labels) => ask_mips(alloc, size, levels, labels.as_slice()),
        None => Ok(None),
    }
}

/// The parts of a whole volume.
fn ask_global(alloc: Global, word: &str, rest: &[&str]) -> Answer {
    if word == "total" {
        return ask_total(alloc, rest);
    }
    if word == "number" {
        return ask_number(alloc, rest);
    }
    if word == "number_parts" {
        return ask_whole(alloc, rest);
    }
    match rest {
        [nodes, links @ ..] if word == "walk" => ask_walk(alloc, nodes, links),
        _ => Ok(None),
    }
}

/// `count TO SIZE LABEL..`.
fn ask_count_of(world: &mut World, to: &str, size: &str, labels: &[&str]) -> Answer {
    match labels_of(world.alloc, labels)? {
        Some(labels) => ask_count(world, to, size, labels.as_slice()),
        None => Ok(None),
    }
}

/// The files between passes.
fn ask_passes(world: &mut World, word: &str, rest: &[&str]) -> Answer {
    match rest {
        [to, size, labels @ ..] if word == "count" => ask_count_of(world, to, size, labels),
        _ => ask_file(world, word, rest),
    }
}

/// What takes a list of words.
fn ask_list(world: &World, word: &str, rest: &[&str]) -> Answer {
    if word == "candidates" {
        return Ok(Some(ask_candidates(world.alloc, world.second, rest)?));
    }
    if word == "progress" {
        return Ok(Some(ask_progress(world.alloc, world.second, rest)?));
    }
    if word == "mode4" || word == "mode_row" {
        return ask_modes(world.alloc, word, rest);
    }
    match rest {
        [size, labels @ ..] if word == "runs_of" || word == "label" => {
            ask_parts(world.alloc, word, size, labels)
        }
        [size, step, labels @ ..] if word == "label_by_boxes" => {
            ask_boxes_of(world.alloc, size, step, labels)
        }
        [size, levels, labels @ ..] if word == "mips" => {
            ask_mips_of(world.alloc, size, levels, labels)
        }
        _ => Ok(None),
    }
}

/// What takes a fixed number of words, other than the readers of names.
fn ask_fixed(world: &mut World, word: &str, rest: &[&str]) -> Answer {
    match rest {
        [path] => ask_one(world, word, path),
        [first, second] => ask_pair(world, word, first, second),
        [path, mip, to] if word == "dest_info" => ask_dest_of(world, path, mip, to),
        [path, other, to] if word == "with_scale" => Ok(Some(ask_longer(world, path, other, to)?)),
        _ => Ok(None),
    }
}

/// The same, and what takes the number of a stage, or a list.
fn ask_other(world: &mut World, word: &str, rest: &[&str]) -> Answer {
    let told = ask_fixed(world, word, rest)?;
    if told.is_some() {
        return Ok(told);
    }
    let told = ask_codec(world, word, rest)?;
    if told.is_some() {
        return Ok(told);
    }
    let told = ask_global(world.alloc, word, rest)?;
    if told.is_some() {
        return Ok(told);
    }
    let told = ask_passes(world, word, rest)?;
    if told.is_some() {
        return Ok(told);
    }
    if let [number, more @ ..] = rest {
        let told = ask_of_stage(world, word, number, more)?;
        if told.is_some() {
            return Ok(told);
        }
    }
    ask_list(world, word, rest)
}

/// Calls the function that the first word names; none where it names none, or a word is out of form.
pub fn ask(world: &mut World, words: &[&str]) -> Answer {
    let [word, rest @ ..] = words else {
        return Ok(None);
    };
    let text = rest.first().copied().unwrap_or("");
    if rest.len() <= 1 {
        let told = ask_name(world.alloc, word, text)?;
        if told.is_some() {
            return Ok(told);
        }
    }
    ask_other(world, word, rest)
}

//! The files between passes, and counts of voxels, by themselves.
ghost use Rattle.std.specs.Prelude.{IsTrue};
ghost use Rattle.ig_faces.specs.PlanesFile.{IsBox};

use crate::codecs::{has_few, say_small, small_volume};
use crate::numbers::{point, small};
use crate::{Told, World};
use ig_count::{Counts, count, read_counts, write_counts};
use ig_faces::{FileError, Links, Parts, read_links, read_parts, read_planes, read_table};
use ig_space::{Bytes, Point, TryClone};
use std::alloc::{AllocError, Global};

type Answer = Result<Option<Told>, AllocError>;

/// Why a file is refused.
fn refused(alloc: Global, error: &FileError) -> Answer {
    match error {
        FileError::Bad(file) => {
            let answer = format!(in alloc; "bad file at {}", file.at)?;
            Ok(Some(Told::new(alloc, answer)))
        }
        FileError::Memory => Err(AllocError),
    }
}

/// The first voxel and the label of each part.
fn say_parts(alloc: Global, parts: &Parts) -> Answer {
    let mut told = Told::of(alloc, "read")?;
    for (first, value) in parts.firsts.as_slice().iter().zip(parts.values.as_slice()) {
        told.say(format!(in alloc; "{first} {value}")?.as_str())?;
    }
    Ok(Some(told))
}

/// `read_parts PATH VOXELS`.
fn ask_parts(alloc: Global, bytes: &Bytes, voxels: &str) -> Answer {
    let Some(voxels) = small(voxels) else {
        return Ok(None);
    };
    match read_parts(alloc, bytes.as_bytes(), voxels) {
        Ok(parts) => say_parts(alloc, &parts),
        Err(error) => refused(alloc, &error),
    }
}

/// `read_table PATH COUNT`.
fn ask_table(alloc: Global, bytes: &Bytes, parts: &str) -> Answer {
    let Some(parts) = small(parts) else {
        return Ok(None);
    };
    match read_table(alloc, bytes.as_bytes(), parts) {
        Ok(table) => {
            let mut told = Told::of(alloc, "read")?;
            say_small(alloc, &mut told, table.as_slice())?;
            Ok(Some(told))
        }
        Err(error) => refused(alloc, &error),
    }
}

/// Whether a box of this size has sides, and few voxels.
pub(crate) fn is_box(size: Point) -> bool
    ensures { IsTrue result → IsBox size }
{
    size.x >= 1 && size.y >= 1 && size.z >= 1 && has_few(size, 1 << 24)
}

/// `read_planes PATH SIZE TOP`: each plane in a line.
fn ask_planes(alloc: Global, bytes: &Bytes, size: &str, top: &str) -> Answer {
    let (Some(size), Some(top)) = (point(size), small(top)) else {
        return Ok(None);
    };
    if !is_box(size) {
        return Ok(None);
    }
    match read_planes(alloc, bytes.as_bytes(), size, top) {
        Ok(planes) => {
            let mut told = Told::of(alloc, "read")?;
            for plane in planes.as_slice() {
                say_small(alloc, &mut told, plane.as_slice())?;
            }
            Ok(Some(told))
        }
        Err(error) => refused(alloc, &error),
    }
}

/// The axis, the own part and the other part of each link.
fn say_links(alloc: Global, links: &Links) -> Answer {
    let mut told = Told::of(alloc, "read")?;
    for link in links.as_slice() {
        let (axis, own, other) = (link.axis, link.own, link.other);
        told.say(format!(in alloc; "{axis} {own} {other}")?.as_str())?;
    }
    Ok(Some(told))
}

/// `read_links PATH OWN X Y Z`: the parts of the upper neighbours, `-` where there is none.
fn ask_links(alloc: Global, bytes: &Bytes, own: &str, others: [&str; 3]) -> Answer {
    let Some(own) = small(own) else {
        return Ok(None);
    };
    let [x, y, z] = others;
    match read_links(alloc, bytes.as_bytes(), own, [small(x), small(y), small(z)]) {
        Ok(links) => say_links(alloc, &links),
        Err(error) => refused(alloc, &error),
    }
}

/// Each label and its voxels.
fn say_counts(alloc: Global, answer: &str, counts: &Counts) -> Answer {
    let mut told = Told::of(alloc, answer)?;
    for item in counts.as_slice() {
        let (label, voxels) = (item.label, item.voxels);
        told.say(format!(in alloc; "{label} {voxels}")?.as_str())?;
    }
    Ok(Some(told))
}

/// `read_counts PATH`.
fn ask_counts(alloc: Global, bytes: &Bytes) -> Answer {
    match read_counts(alloc, bytes.as_bytes()) {
        Ok(counts) => say_counts(alloc, "read", &counts.copy()?),
        Err(error) => refused(alloc, &error),
    }
}

/// The counts of a box of these labels; their text stands at the path.
fn put_counts(world: &mut World, to: &str, size: Point, labels: &[u64]) -> Answer {
    let alloc = world.alloc;
    let Some(volume) = small_volume(alloc, size, labels)? else {
        return Ok(None);
    };
    let counts = count(alloc, &volume)?;
    world.put(to, write_counts(alloc, &counts)?.as_bytes())?;
    say_counts(alloc, "counted", &counts)
}

/// `count TO SIZE LABEL..`.
pub(crate) fn ask_count(world: &mut World, to: &str, size: &str, labels: &[u64]) -> Answer {
    match point(size) {
        Some(size) => put_counts(world, to, size, labels),
        None => Ok(None),
    }
}

/// The reader of this name, on the bytes of a file.
fn ask_bytes(alloc: Global, word: &str, bytes: &Bytes, rest: &[&str]) -> Answer {
    match rest {
        [] if word == "read_counts" => ask_counts(alloc, bytes),
        [voxels] if word == "read_parts" => ask_parts(alloc, bytes, voxels),
        [parts] if word == "read_table" => ask_table(alloc, bytes, parts),
        [size, top] if word == "read_planes" => ask_planes(alloc, bytes, size, top),
        [own, x, y, z] if word == "read_links" => ask_links(alloc, bytes, own, [x, y, z]),
        _ => Ok(None),
    }
}

/// Whether the word names a reader of files between passes.
fn is_reader(word: &str) -> bool {
    word == "read_counts"
        || word == "read_parts"
        || word == "read_table"
        || word == "read_planes"
        || word == "read_links"
}

/// The readers of files between passes.
pub(crate) fn ask_file(world: &World, word: &str, rest: &[&str]) -> Answer {
    let [path, more @ ..] = rest else {
        return Ok(None);
    };
    if !is_reader(word) {
        return Ok(None);
    }
    match world.found(path)? {
        Some(bytes) => ask_bytes(world.alloc, word, &bytes, more),
        None => Ok(Some(Told::of(world.alloc, "no file")?)),
    }
}

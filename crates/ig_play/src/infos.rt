//! The readers and writers of infos.
use crate::numbers::point_text;
use crate::{Told, World};
use ig_info::{Info, InfoError, Scale, dest_info, read_info, with_scale, write_info};
use ig_space::{Encoding, Geometry, TryClone, Width};
use std::alloc::{AllocError, Global};

fn refusal(alloc: Global, error: &InfoError) -> Result<String, AllocError> {
    match error {
        InfoError::NotJson => String::from_str(alloc, "not JSON"),
        InfoError::Member { path } => format!(in alloc; "member {}", path.as_str()),
        InfoError::Unsupported { member } => format!(in alloc; "unsupported {}", member.as_str()),
        InfoError::Memory => String::from_str(alloc, "out of memory"),
    }
}

/// The number of bits of a label.
pub(crate) fn bits(width: Width) -> u64 {
    match width {
        Width::W8 => 8,
        Width::W16 => 16,
        Width::W32 => 32,
        Width::W64 => 64,
    }
}

fn encoding_text(alloc: Global, encoding: Encoding) -> Result<String, AllocError> {
    match encoding {
        Encoding::Raw => String::from_str(alloc, "raw"),
        Encoding::Cseg { block } => {
            let block = point_text(alloc, block)?;
            format!(in alloc; "compressed_segmentation block {block}")
        }
    }
}

/// What a scale says.
fn scale_text(alloc: Global, scale: &Scale) -> Result<String, AllocError> {
    let geometry = scale.geometry;
    let mut text = format!(in alloc; "{} bits {} ", scale.key.as_str(), bits(geometry.width))?;
    for (word, at) in [
        ("resolution ", scale.resolution),
        ("offset ", geometry.offset),
        ("size ", geometry.size),
        ("chunk ", geometry.chunk),
    ] {
        text.push_str(word)?;
        text.push_str(point_text(alloc, at)?.as_str())?;
        text.push(' ')?;
    }
    text.push_str(encoding_text(alloc, geometry.encoding)?.as_str())?;
    Ok(text)
}

/// The scales, each in a line.
fn read(alloc: Global, info: &Info) -> Result<Told, AllocError> {
    let mut told = Told::of(alloc, "read")?;
    for number in 0..info.count() {
        if let Some(scale) = info.scale(number) {
            let text = scale_text(alloc, scale)?;
            told.say(text.as_str())?;
        }
    }
    Ok(told)
}

/// Puts the info's text at this path.
fn write(world: &mut World, info: &Info, to: &str) -> Result<Told, AllocError> {
    let text = write_info(world.alloc, info)?;
    world.put(to, text.as_bytes())?;
    Told::of(world.alloc, "written")
}

/// The info that a path has, or why it is refused.
pub(crate) fn info_at(world: &World, path: &str) -> Result<Result<Info, Told>, AllocError> {
    let Some(bytes) = world.found(path)? else {
        return Ok(Err(Told::of(world.alloc, "no file")?));
    };
    match read_info(world.alloc, bytes.as_bytes()) {
        Ok(info) => Ok(Ok(info.copy()?)),
        Err(e) => Ok(Err(Told::new(world.alloc, refusal(world.alloc, &e)?))),
    }
}

/// `read_info PATH`.
pub(crate) fn ask_read(world: &World, path: &str) -> Result<Told, AllocError> {
    match info_at(world, path)? {
        Ok(info) => read(world.alloc, &info),
        Err(told) => Ok(told),
    }
}

/// `write_info FROM TO`: what is read is written again.
pub(crate) fn ask_write(world: &mut World, path: &str, to: &str) -> Result<Told, AllocError> {
    match info_at(world, path)? {
        Ok(info) => write(world, &info, to),
        Err(told) => Ok(told),
    }
}

/// `dest_info FROM SCALE TO`: the info of a layer that has that scale alone.
pub(crate) fn ask_dest(
    world: &mut World,
    path: &str,
    mip: u32,
    to: &str,
) -> Result<Told, AllocError> {
    let info = match info_at(world, path)? {
        Ok(info) => info,
        Err(told) => return Ok(told),
    };
    let Some(scale) = info.scale(mip) else {
        return Told::of(world.alloc, "no scale");
    };
    match dest_info(world.alloc, &scale.copy()?) {
        Ok(made) => write(world, &made, to),
        Err(e) => Ok(Told::new(world.alloc, refusal(world.alloc, &e)?)),
    }
}

/// The info with the first scale of another one added last, in its own width.
fn longer(world: &mut World, info: &Info, other: &Info, to: &str) -> Result<Told, AllocError> {
    let (Some(own), Some(scale)) = (info.scale(0), other.scale(0)) else {
        return Told::of(world.alloc, "no scale");
    };
    let more = Scale {
        key: scale.key.copy()?,
        resolution: scale.resolution,
        geometry: Geometry {
            width: own.geometry.width,
            ..scale.geometry
        },
    };
    match with_scale(world.alloc, info, &more) {
        Ok(made) => write(world, &made, to),
        Err(e) => Ok(Told::new(world.alloc, refusal(world.alloc, &e)?)),
    }
}

/// `with_scale FROM OTHER TO`: the info at FROM, with the first scale of the other one added last.
pub(crate) fn ask_longer(
    world: &mut World,
    path: &str,
    other: &str,
    to: &str,
) -> Result<Told, AllocError> {
    match (info_at(world, path)?, info_at(world, other)?) {
        (Ok(info), Ok(other)) => longer(world, &info, &other, to),
        (Err(told), _) | (_, Err(told)) => Ok(told),
    }
}

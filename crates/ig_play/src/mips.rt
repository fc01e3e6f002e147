//! The mips of one box by themselves.
ghost use Rattle.std.specs.Prelude.{◌≤◌};

use crate::Told;
use crate::codecs::{say_labels, small_volume};
use ig_mode::{mips, mode_row, mode4};
use ig_space::{Point, Volume};
use std::alloc::{AllocError, Global};

/// `mode4 A B C D`.
pub(crate) fn ask_mode(alloc: Global, labels: &[u64]) -> Result<Option<Told>, AllocError> {
    match labels {
        [a, b, c, d] => {
            let mode = mode4(*a, *b, *c, *d);
            Ok(Some(Told::new(alloc, format!(in alloc; "{mode}")?)))
        }
        _ => Ok(None),
    }
}

/// `mode_row LABEL..`: the first half of the labels are the upper row, the others the lower one.
pub(crate) fn ask_row(alloc: Global, labels: &[u64]) -> Result<Option<Told>, AllocError> {
    let long = labels.len() / 2;
    if labels.len() != 2 * long {
        return Ok(None);
    }
    let mut out = vec![in alloc; 0; long - long / 2]?;
    mode_row(&labels[..long], &labels[long..], &mut out);
    let mut told = Told::of(alloc, "halved")?;
    say_labels(alloc, &mut told, out.as_slice())?;
    Ok(Some(told))
}

/// The labels of each level in a line.
fn mips_told(alloc: Global, volume: &Volume, levels: u32) -> Result<Told, AllocError>
    requires some { 1 ≤ levels }
    requires few { levels ≤ 5 }
{
    let mut told = Told::of(alloc, "halved")?;
    for level in mips(alloc, volume, levels)?.as_slice() {
        say_labels(alloc, &mut told, level.labels())?;
    }
    Ok(told)
}

/// `mips SIZE LEVELS LABEL..`.
pub(crate) fn ask_mips(
    alloc: Global,
    size: Point,
    levels: u32,
    labels: &[u64],
) -> Result<Option<Told>, AllocError> {
    let Some(volume) = small_volume(alloc, size, labels)? else {
        return Ok(None);
    };
    if levels < 1 || levels > 5 {
        return Ok(None);
    }
    Ok(Some(mips_told(alloc, &volume, levels)?))
}

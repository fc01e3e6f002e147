//! Whether the members of a stage are as its kind says.
ghost use Rattle.std.specs.Prelude.{◌≡◌, ◌&&◌};
ghost use Rattle.ig_record.specs.Columns.{dirs_of_all};
ghost use Rattle.ig_record.specs.Sound.{are_apart, are_mips, has_come, has_layers, has_members, has_mips, has_split, is_copy as is_copy_of, is_info_of as is_info_of_dir, is_nothing, is_numbering as is_numbering_of, is_pass, is_scale};

use crate::geometries::{halved, is_relabelled, same_geometry, same_voxels};
use crate::layers::{has_key, has_scratch, is_in_layer, is_info_in, is_info_of, is_word};
use crate::lists::is_among;
use crate::{InfoFile, Kind, Stage};
use ig_space::{Geometry, Place};

/// The directory of the components of a layer.
const COMPONENTS: &[u8] = b"ccl";

/// The directory of the voxel counts of a layer.
const COUNTS: &[u8] = b"voxels";

/// The most mips that a stage makes.
const MOST_MIPS: usize = 5;

/// Whether the stage writes nothing that stays a layer, and puts no info.
fn is_nothing(stage: &Stage) -> bool
    ensures { result ≡ is_nothing stage.now.dests stage.now.info }
{
    stage.dests.is_empty() && stage.info.is_none()
}

/// Whether this is a scale with this key in a layer, with the info of the layer.
fn is_layer(key: &[u8], dest: &Place, info: &InfoFile) -> bool
    ensures { result ≡ (is_scale key.now dest.now && is_info_of_dir key.now dest.now.dir info.now) }
{
    let dir = dest.dir.as_bytes();
    has_key(key, dir) && dest.geometry.fits() && is_info_of(key, dir, info)
}

/// Whether the stage writes one scale with this key, of the voxels of its source, with its info.
fn is_copy(key: &[u8], stage: &Stage) -> bool
    ensures { result ≡ is_copy_of key.now stage.now.source stage.now.dests stage.now.info }
{
    let source = &stage.source.geometry;
    match (stage.dests.as_slice(), &stage.info) {
        ([dest], Some(info)) => is_layer(key, dest, info) && same_voxels(source, &dest.geometry),
        _ => false,
    }
}

/// Whether the stage writes one scale with this key, of numbers of 32 bits for the voxels of its source, with its info.
fn is_numbering(key: &[u8], stage: &Stage) -> bool
    ensures { result ≡ is_numbering_of key.now stage.now.source stage.now.dests stage.now.info }
{
    let source = &stage.source.geometry;
    match (stage.dests.as_slice(), &stage.info) {
        ([dest], Some(info)) => is_layer(key, dest, info) && is_relabelled(source, &dest.geometry),
        _ => false,
    }
}

/// Whether no two of these scales have one directory.
fn are_apart(places: &[Place]) -> bool
    ensures { result ≡ are_apart (dirs_of_all places.now) }
{
    for place in 0..places.len() {
        if is_among(places[place].dir.as_bytes(), &places[place + 1..]) {
            return false;
        }
    }
    true
}

/// Whether each scale is the one before, halved, in a directory of the layer.
fn are_mips(layer: &[u8], source: &Geometry, dests: &[Place]) -> bool
    ensures { result ≡ are_mips layer.now source.now dests.now }
{
    let mut before = *source;
    for dest in dests {
        let next = halved(&before);
        if !is_in_layer(layer, dest.dir.as_bytes()) || !same_geometry(&next, &dest.geometry) {
            return false;
        }
        before = next;
    }
    true
}

/// Whether the stage writes mips of its source, and the info of the layer.
fn has_mips(layer: &[u8], stage: &Stage) -> bool
    ensures { result ≡ has_mips layer.now stage.now.source stage.now.dests stage.now.info }
{
    let (source, dests) = (&stage.source, stage.dests.as_slice());
    match &stage.info {
        None => false,
        Some(info) => {
            dests.len() >= 1
                && dests.len() <= MOST_MIPS
                && !is_among(source.dir.as_bytes(), dests)
                && are_apart(dests)
                && are_mips(layer, &source.geometry, dests)
                && is_info_in(layer, info)
        }
    }
}

/// Whether the stage is a pass that writes no scale, with its files in this directory of the layer.
fn is_pass(layer: &[u8], name: &[u8], key: &[u8], stage: &Stage) -> bool
    ensures { result ≡ is_pass layer.now name.now key.now stage.now }
{
    has_scratch(layer, name, key, &stage.scratch) && is_nothing(stage)
}

/// Whether the other members are as the kind says, where the source is the scale with this key of this layer.
fn has_members(layer: &[u8], key: &[u8], stage: &Stage) -> bool
    ensures { result ≡ has_members stage.now.kind layer.now key.now stage.now }
{
    let no_scratch = stage.scratch.is_none();
    match stage.kind {
        Kind::Xfer => no_scratch && is_copy(key, stage),
        Kind::Downsample => no_scratch && has_mips(layer, stage),
        Kind::Faces => is_pass(layer, COMPONENTS, key, stage),
        Kind::Links => is_pass(layer, COMPONENTS, key, stage),
        Kind::Labels => is_pass(layer, COMPONENTS, key, stage),
        Kind::Relabel => {
            has_scratch(layer, COMPONENTS, key, &stage.scratch) && is_numbering(key, stage)
        }
        Kind::Count => is_pass(layer, COUNTS, key, stage),
        Kind::Sum => is_pass(layer, COUNTS, key, stage),
        Kind::Remove => no_scratch && is_nothing(stage),
    }
}

/// Whether the source is this scale of this layer, and the other members are as the kind says.
fn has_split(layer: &[u8], key: &[u8], stage: &Stage) -> bool
    ensures { result ≡ has_split stage.now layer.now key.now }
{
    is_word(layer) && is_word(key) && has_members(layer, key, stage)
}

/// Whether the source is a scale of a layer, and the other members are as the kind says.
pub(crate) fn has_layers(stage: &Stage) -> bool
    ensures { result ≡ has_layers stage.now }
{
    let dir = stage.source.dir.as_bytes();
    for place in 0..dir.len() {
        if dir[place] == b'/' && has_split(&dir[..place], &dir[place + 1..], stage) {
            return true;
        }
    }
    false
}

/// Whether stages of the kind can be made and run.
pub(crate) fn has_come(kind: Kind) -> bool
    ensures { result ≡ has_come kind }
{
    match kind {
        Kind::Xfer | Kind::Downsample | Kind::Count | Kind::Remove => true,
        Kind::Faces | Kind::Links | Kind::Labels | Kind::Relabel | Kind::Sum => false,
    }
}

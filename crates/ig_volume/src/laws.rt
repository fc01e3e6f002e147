//! The laws of layers. Each function has no code: its contract is a law, for every place, encoding and size of chunks.
ghost use Rattle.ig_volume.specs.Laws.{BoxFilesHoldVolumes, CopiesKeepVolumes, ChunksMakeVolumes, LayerFilesHoldVolumes, MapsHaveLayers, MapsHaveTexts, TextsHoldMaps};

/// Where the files have at each chunk's path the chunk's text of a map of voxels to labels, their volume is that map on the
/// scale's box. Each chunk of a map to labels in range has a text, so that there are such files. Of any volume of which each
/// chunk has a text, the files of its chunks hold its labels, and those of the chunks that meet a box the labels of the box.
pub fn written_layers_hold_their_volume()
    ensures volume { TextsHoldMaps }
    ensures texts { MapsHaveTexts }
    ensures layer { MapsHaveLayers }
    ensures files { LayerFilesHoldVolumes }
    ensures boxes { BoxFilesHoldVolumes }
{}

/// The volume is a map of voxels to labels exactly where what the files have of each chunk reads as the map's labels,
/// whatever bytes these are.
pub fn chunk_labels_make_the_volume()
    ensures { ChunksMakeVolumes }
{}

/// Written again in another place over the same box, in chunks of any size and in either encoding, a layer has the same volume.
pub fn copied_layers_keep_their_volume()
    ensures { CopiesKeepVolumes }
{}

//! The laws of labelling and of counting box by box. Each function has no code: its contract is a law, for every volume and every
//! grid.
ghost use Rattle.ig_grid.specs.Laws.{AboveIsFirstPlane, CellsKeepOrder, FirstsAreFirst, GridsAreTilings, JoinedByLinks, LabelledBoxHasParts, LabelsAdd, LeastFirstIsFirst, ListsTellCounts, ListsTellFirstNodes, ListsTellFirsts, ListsTellLabels, ListsTellLinks, ListsTellParts, NumberIsPart, NumbersOfParts, PartsAreCounted, PartsAreQuotient, PartsOfNumbers, PassingAdd, TilingsAreNumbered, WeightsAdd};

/// Voxels are joined in the whole exactly where links join the parts that they have in their cells, so the number of a class of
/// linked parts, in the order of their least first voxels, is the part in the whole.
pub fn links_show_parts()
    ensures joined { JoinedByLinks }
    ensures quotient { PartsAreQuotient }
    ensures firsts { FirstsAreFirst }
    ensures first { LeastFirstIsFirst }
    ensures number { NumberIsPart }
{}

/// The parts of all cells are numbered by cell, then by part, each once.
pub fn parts_are_numbered()
    ensures numbers { NumbersOfParts }
    ensures parts { PartsOfNumbers }
    ensures counted { PartsAreCounted }
{}

/// Voxels stand in the order of the whole in each cell, and the voxel above a cell's last plane is in the upper neighbour's first
/// plane.
pub fn cells_keep_order()
    ensures order { CellsKeepOrder }
    ensures above { AboveIsFirstPlane }
{}

/// The labels of a box, labelled by themselves, have the parts that the box has in its volume.
pub fn labelled_boxes_have_parts()
    ensures { LabelledBoxHasParts }
{}

/// The lists of a box's parts tell each voxel's part, each part's label and first voxel, and, with those of the next cell, the
/// links.
pub fn lists_tell_parts()
    ensures parts { ListsTellParts }
    ensures labels { ListsTellLabels }
    ensures firsts { ListsTellFirsts }
    ensures counts { ListsTellCounts }
    ensures nodes { ListsTellFirstNodes }
    ensures links { ListsTellLinks }
{}

/// A sum over all voxels is the sum over the cells of each cell's sum, whatever is summed.
pub fn cells_add_up()
    ensures weights { WeightsAdd }
    ensures passing { PassingAdd }
    ensures labels { LabelsAdd }
{}

/// A grid's cells cut its volume into a tiling, and the linked parts of any tiling's cells are a quotient of the whole.
pub fn grids_are_tilings()
    ensures grids { GridsAreTilings }
    ensures numbered { TilingsAreNumbered }
{}

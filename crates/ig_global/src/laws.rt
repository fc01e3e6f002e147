//! The law of the whole. The function has no code: its contract is the law, for every volume and every grid.
ghost use Rattle.ig_global.specs.Laws.{LinkEdgesAreWithin, NumbersAreParts, NumbersShowParts, SameNumberIsJoined, TableIsPart};

/// Where a list has the links of a grid's cells, and another one the first voxels of their parts, what `walk` and `number` make of
/// them are the parts of the whole.
pub fn numbers_are_parts()
    ensures within { LinkEdgesAreWithin }
    ensures parts { NumbersAreParts }
    ensures same { SameNumberIsJoined }
    ensures table { TableIsPart }
    ensures shown { NumbersShowParts }
{}

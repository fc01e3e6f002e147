//! The laws of mips. Each function has no code: its contract is a law.
ghost use Rattle.std.specs.Prelude.{◌≡◌, ◌<◌, ◌+◌, ℕ, Option, Bool, true};
ghost use Rattle.ig_space.specs.declared.geometry.Geometry.{Geometry};
ghost use Rattle.ig_space.specs.declared.geometry.Width.{Width};
ghost use Rattle.ig_space.specs.declared.point.Box3.{Box3};
ghost use Rattle.ig_space.specs.declared.point.Point.{Point};
ghost use Rattle.ig_space.specs.Geometry.{geometry_fits};
ghost use Rattle.ig_space.specs.Grid.{IsGrid, cell, cell_count, size_of, space_of};
ghost use Rattle.ig_space.specs.Raw.{AllFit};
ghost use Rattle.ig_space.specs.Volume.{IsInside, IsWhole, Voxels};
ghost use Rattle.ig_mode.specs.Aligned.{IsAligned};
ghost use Rattle.ig_mode.specs.HalvedGrids.{halved_box, halved_geometry, halved_grid, halved_low, halved_space, long_grid};
ghost use Rattle.ig_mode.specs.HasMips.{HasMip};
ghost use Rattle.ig_mode.specs.Known.{AgreeIn, AllPass, IsKnown, KnownPass, Lasts, Mode, scale_mips};
ghost use Rattle.ig_mode.specs.Mips.{Labels, mip_times_by, part, scale_mips_by, size_times};

/// A box that holds whole blocks, or ends where the space ends, is enough for its part of the mip of the whole, whatever the mode is:
/// the mip taken m times of its labels has that part's size and labels. So volumes that agree in the box have mips that agree there.
pub fn own_boxes_are_enough()
    ensures size { (m : ℕ) (space b : Box3) → IsAligned m space b → size_of (halved_box m space.lo b) ≡ size_times m (size_of b) }
    ensures numbers { (mode : Mode ℕ) (m : ℕ) (space b : Box3) (v : Labels ℕ) → IsAligned m space b → (x y z : ℕ) → IsInside (size_times m (size_of b)) x y z → mip_times_by mode m (size_of b) (part b.lo v) x y z ≡ scale_mips_by mode m space.lo (size_of space) v (halved_low m space.lo.x b.lo.x + x) (halved_low m space.lo.y b.lo.y + y) (b.lo.z + z) }
    ensures labels { (mode : Mode (Option ℕ)) (m : ℕ) (space b : Box3) (v : Labels (Option ℕ)) → IsAligned m space b → (x y z : ℕ) → IsInside (size_times m (size_of b)) x y z → mip_times_by mode m (size_of b) (part b.lo v) x y z ≡ scale_mips_by mode m space.lo (size_of space) v (halved_low m space.lo.x b.lo.x + x) (halved_low m space.lo.y b.lo.y + y) (b.lo.z + z) }
    ensures agree { (mode : Mode (Option ℕ)) (m : ℕ) (space b : Box3) (v w : Labels (Option ℕ)) → IsAligned m space b → AgreeIn b v w → AgreeIn (halved_box m space.lo b) (scale_mips_by mode m space.lo (size_of space) v) (scale_mips_by mode m space.lo (size_of space) w) }
{}

/// Where a volume is known in such a box, its mip is known in the halved box, and has the labels that the mip of the box's has. What
/// is known of a mip stays known where more becomes known of the volume.
pub fn known_boxes_have_known_mips()
    ensures known { (m : ℕ) (space b : Box3) (v : Labels (Option ℕ)) (from out : Voxels) → IsAligned m space b → IsKnown v b from → HasMip m from out → IsKnown (scale_mips m space v) (halved_box m space.lo b) out }
    ensures lasts { (m : ℕ) (space : Box3) (v w : Labels (Option ℕ)) → Lasts v w → Lasts (scale_mips m space v) (scale_mips m space w) }
{}

/// What all labels have, their mips have: that they pass a test, as that they fit a width.
pub fn mips_keep_what_labels_have()
    ensures known { (test : ℕ → Bool) (m : ℕ) (space : Box3) (v : Labels (Option ℕ)) → KnownPass test v → KnownPass test (scale_mips m space v) }
    ensures all { (test : ℕ → Bool) (m : ℕ) (from out : Voxels) → HasMip m from out → AllPass test from → AllPass test out }
    ensures fit { (width : Width) (m : ℕ) (from out : Voxels) → HasMip m from out → IsWhole from.size from.labels → IsWhole out.size out.labels → AllFit width from.labels → AllFit width out.labels }
{}

/// The cells of a grid whose steps are 2^m times as long in x and y hold whole blocks. Halved m times they are the cells of the
/// grid over the halved space, in the same order.
pub fn cells_are_halved()
    ensures grid { (m : ℕ) (space : Box3) (step : Point) → IsGrid (long_grid m space step) → IsGrid (halved_grid m space step) }
    ensures count { (m : ℕ) (space : Box3) (step : Point) → IsGrid (long_grid m space step) → cell_count (long_grid m space step) ≡ cell_count (halved_grid m space step) }
    ensures cell { (m : ℕ) (space : Box3) (step : Point) → IsGrid (long_grid m space step) → (k : ℕ) → halved_box m space.lo (cell (long_grid m space step) k) ≡ cell (halved_grid m space step) k }
    ensures aligned { (m : ℕ) (space : Box3) (step : Point) → IsGrid (long_grid m space step) → (k : ℕ) → k < cell_count (long_grid m space step) → IsAligned m space (cell (long_grid m space step) k) }
{}

/// The halved space of a geometry is that of the halved geometry, which fits where the geometry does, and is the one halved once
/// more of the level before.
pub fn geometries_are_halved()
    ensures space { (m : ℕ) (g : Geometry) → halved_space m (space_of g) ≡ space_of (halved_geometry m g) }
    ensures next { (m : ℕ) (g : Geometry) → halved_geometry 1 (halved_geometry m g) ≡ halved_geometry (m + 1) g }
    ensures fits { (m : ℕ) (g : Geometry) → geometry_fits g ≡ true → geometry_fits (halved_geometry m g) ≡ true }
{}

//! The laws of the kinds of stage. Each function has no code: its contract is a law.
ghost use Rattle.std.specs.Prelude.{◌≡◌, ◌<◌, ℕ, List, [], ◌∷◌, Some, slice_get, true};
ghost use Rattle.ig_space.specs.declared.place.Place.{Place};
ghost use Rattle.ig_defs.specs.Files.{Files, file_at};
ghost use Rattle.ig_layer.specs.Layer.{Reading};
ghost use Rattle.ig_record.specs.declared.stage.Kind.TheVariants.{Xfer, Downsample};
ghost use Rattle.ig_record.specs.declared.stage.Stage.{Stage};
ghost use Rattle.ig_record.specs.Sound.{is_sound};
ghost use Rattle.ig_record.specs.Stage.{task_count};
ghost use Rattle.ig_meaning.specs.Jobs.{jobs_of, sequential, with_info, with_outputs};
ghost use Rattle.ig_meaning.specs.Sequential.{IsElsewhere};
ghost use Rattle.ig_meaning.specs.Task.{task_outputs};
ghost use Rattle.ig_meaning.specs.Wants.{wanted_outputs};
ghost use Rattle.ig_cutout.specs.declared.types.Output.{Output};
ghost use Rattle.ig_rule.specs.Facts.{KindLaws};
ghost use Rattle.ig_task.specs.Facts.{given_to, stage_reader};
ghost use Rattle.ig_task.specs.MipTexts.{AreOfTheWhole};
ghost use Rattle.ig_task.specs.Wanted.{AreWanted};
ghost use Rattle.ig_task.specs.WholeCopies.{WritesChunks};
ghost use Rattle.ig_task.specs.WholeMips.{WritesScales};

/// Each kind of stage keeps what the laws of the rule rest on.
pub fn kinds_keep_their_laws()
    ensures { KindLaws stage_reader }
{}

/// What a task of a sound stage makes of its source in any files, and of what earlier passes want there, is what the stage wants
/// of the whole volume in these files, at each of the task's paths.
pub fn outputs_are_wanted()
    ensures { (s : Stage) → is_sound s ≡ true → (k : ℕ) → k < task_count s → (files : Reading) (outputs : List Output) → task_outputs s k (given_to s files) ≡ Some outputs → AreWanted s k files outputs }
{}

/// Where no task of a sound stage makes an input of another, its tasks, run one after the other once its info was put, leave
/// exactly what is wanted of the whole volume.
pub fn sequential_is_wanted()
    ensures { (s : Stage) → is_sound s ≡ true → IsElsewhere s → (files after : Files) → sequential (jobs_of s) (with_info s.info files) ≡ Some after → (outputs : List Output) × (wanted_outputs s (file_at files) ≡ Some outputs) × (with_outputs (with_info s.info files) outputs ≡ after) }
{}

/// The tasks of a copy write all chunks of the new scale, and no other files. So what is wanted at their paths is the whole new
/// layer, whatever the shape.
pub fn copies_write_all_chunks()
    ensures { (s : Stage) → is_sound s ≡ true → s.kind ≡ Xfer → (dest : Place) → s.dests ≡ dest ∷ [] → WritesChunks s dest }
{}

/// What is wanted of a chunk of a scale of mips is its text in the mip of the whole source, taken once for the first scale and
/// once more for each that follows.
pub fn mips_are_of_the_whole()
    ensures { (s : Stage) → is_sound s ≡ true → s.kind ≡ Downsample → (m : ℕ) (place : Place) → slice_get s.dests m ≡ Some place → AreOfTheWhole s m place }
{}

/// The tasks of a stage of mips write all chunks of each of its scales, and no other files. So what is wanted at their paths are
/// the whole mips, whatever the shape.
pub fn mips_write_all_chunks()
    ensures { (s : Stage) → is_sound s ≡ true → s.kind ≡ Downsample → WritesScales s }
{}

//! The laws of the rule. Each function has no code: its contract is a law.

ghost use Rattle.std.specs.Prelude.{◌≡◌, ◌≤◌, ◌<◌, ◌^◌, ◌++◌, ℕ, List, None, Some, IsSome, Contains, true, false};
ghost use Rattle.ig_space.specs.declared.task_id.TaskId.{TaskId};
ghost use Rattle.ig_defs.specs.declared.queue_name.QueueName.{QueueName};
ghost use Rattle.ig_defs.specs.declared.step.Act.{Act};
ghost use Rattle.ig_defs.specs.declared.step.Act.TheVariants as act;
ghost use Rattle.ig_defs.specs.declared.step.Step.{Step};
ghost use Rattle.ig_defs.specs.Files.{Files, file_at};
ghost use Rattle.ig_defs.specs.Own.{File};
ghost use Rattle.ig_defs.specs.Log.{Log, after, replay, files_of, own_all, ByOthers};
ghost use Rattle.ig_defs.specs.QueueNames.{queue_fits, task_fits, task_of};
ghost use Rattle.ig_rule.specs.QueueFiles.{QueueFile, Record, Seal, Queued, Done, path_of, IsApartFrom, queue_of};
ghost use Rattle.ig_rule.specs.Facts.{Facts, Reader, Reading, IsPath, LiesInOne, KindLaws};
ghost use Rattle.ig_rule.specs.Stages.{stages_in, task_id, Clear, Sealed, Named, Finished, Drained, IsStrange, HasMaker};
ghost use Rattle.ig_rule.specs.Rule.{Allowed};
ghost use Rattle.ig_rule.specs.Sound.{Sound, Legal, AreAllowedSteps};
ghost use Rattle.ig_rule.specs.Known.{Lease, Memory, IsScratch, IsKnownLease, IsOver, Known, RecordsRemoval};
ghost use Rattle.ig_rule.specs.Roles.{Allows};
ghost use Rattle.ig_rule.specs.declared.role.Role.{Role};

/// Each allowed act keeps the files sound.
pub fn sound_is_kept()
    ensures { (read : Reader) → KindLaws read → (q : List ℕ) (files : Files) (a : Act) → Sound read q files → Allowed read q files a → Sound read q (after files a) }
{}

/// Each prefix of a legal log is legal, and leaves sound files.
pub fn prefixes_are_legal()
    ensures legal { (read : Reader) (q : List ℕ) (log : Log) (xs ys : List Step) → Legal read q log → log.steps ≡ xs ++ ys → Legal read q (record { opening = log.opening; steps = xs }) }
    ensures sound { (read : Reader) → KindLaws read → (q : List ℕ) (log : Log) (xs ys : List Step) → Legal read q log → log.steps ≡ xs ++ ys → Sound read q (replay log.opening xs) }
{}

/// In sound files a drained stage is finished. Where it is not under removal and is no removal, the files in its output
/// directories are exactly the wanted ones, and each of its paths has a wanted text.
pub fn drained_is_finished()
    ensures finished { (read : Reader) (q : List ℕ) (files : Files) (n : ℕ) (s : Facts) → Sound read q files → stages_in read q files n ≡ Some s → Drained (queue_of q files) n → Finished (queue_of q files) n s }
    ensures exact { (read : Reader) → KindLaws read → (q : List ℕ) (files : Files) (n : ℕ) (s : Facts) → Sound read q files → stages_in read q files n ≡ Some s → Drained (queue_of q files) n → Clear (stages_in read q files) n s → s.removes ≡ false → (path : List ℕ) → LiesInOne s.outputs path → file_at files path ≡ s.wanted (file_at files) path }
    ensures defined { (read : Reader) (q : List ℕ) (files : Files) (n : ℕ) (s : Facts) → Sound read q files → stages_in read q files n ≡ Some s → Drained (queue_of q files) n → Clear (stages_in read q files) n s → s.removes ≡ false → (path : List ℕ) → IsPath s path → IsSome (s.wanted (file_at files) path) }
{}

/// No allowed act changes or takes away a file in an output directory of a stage that is not under removal.
pub fn outputs_stay()
    ensures { (read : Reader) → KindLaws read → (q : List ℕ) (files : Files) (a : Act) (n : ℕ) (s : Facts) → Sound read q files → Allowed read q files a → stages_in read q files n ≡ Some s → s.removes ≡ false → Clear (stages_in read q files) n s → (path bytes : List ℕ) → LiesInOne s.outputs path → file_at files path ≡ Some bytes → file_at (after files a) path ≡ Some bytes }
{}

/// An allowed act that records no removal keeps what a worker knows.
pub fn known_is_kept()
    ensures { (read : Reader) → KindLaws read → (q : List ℕ) (files : Files) (a : Act) (w : Memory) → Sound read q files → Allowed read q files a → (RecordsRemoval read q a → ⊥) → Known read q files w → Known read q (after files a) w }
{}

/// Files with no file of a queue in its directory are sound.
pub fn no_queue_is_sound()
    ensures { (read : Reader) (q : List ℕ) (files : Files) → ((x : QueueFile) → queue_of q files x ≡ None) → Sound read q files }
{}

/// What wrong rules would allow is refused. A task is done only once all that it makes stands, and stays done. A stage is
/// sealed only once all its tasks are named, and the next one recorded only after that. Paths of stages get wanted texts
/// alone. A lease is no copy of a name, and no file of a queue is removed.
pub fn wrong_acts_are_refused()
    ensures done_too_early { (read : Reader) (q : List ℕ) (files : Files) (name : QueueName) (s : Facts) (path : List ℕ) → queue_fits name ≡ true → stages_in read q files name.stage ≡ Some s → s.removes ≡ false → Contains (s.paths name.task) path → file_at files path ≡ None → Allowed read q files (act.Move (path_of q (Queued name)) (path_of q (Done (task_of name)))) → ⊥ }
    ensures done_again { (read : Reader) (q : List ℕ) (files : Files) (id : TaskId) (to : List ℕ) → task_fits id ≡ true → Allowed read q files (act.Move (path_of q (Done id)) to) → ⊥ }
    ensures sealed_too_early { (read : Reader) → KindLaws read → (q : List ℕ) (files : Files) (bytes : List ℕ) (n k : ℕ) (s : Facts) → Sound read q files → stages_in read q files n ≡ Some s → k < s.tasks → (Named (queue_of q files) (task_id n k) → ⊥) → Allowed read q files (act.Put (path_of q (Seal n)) bytes) → ⊥ }
    ensures recorded_too_early { (read : Reader) → KindLaws read → (q : List ℕ) (files : Files) (bytes : List ℕ) (n m : ℕ) → Sound read q files → n < m → m < 10 ^ 4 → queue_of q files (Seal n) ≡ None → Allowed read q files (act.Put (path_of q (Record m)) bytes) → ⊥ }
    ensures leased_by_copy { (read : Reader) → KindLaws read → (q : List ℕ) (files : Files) (bytes : List ℕ) (name : QueueName) → Sound read q files → queue_fits name ≡ true → 1 ≤ name.attempt → Allowed read q files (act.Put (path_of q (Queued name)) bytes) → ⊥ }
    ensures wrong_text { (read : Reader) → KindLaws read → (q : List ℕ) (files : Files) (path bytes : List ℕ) (n : ℕ) (s : Facts) → Sound read q files → stages_in read q files n ≡ Some s → s.removes ≡ false → IsPath s path → (s.wanted (file_at files) path ≡ Some bytes → ⊥) → Allowed read q files (act.Put path bytes) → ⊥ }
    ensures name_removed { (read : Reader) → KindLaws read → (q : List ℕ) (files : Files) (x : QueueFile) → Sound read q files → Allowed read q files (act.Remove (path_of q x)) → ⊥ }
{}

/// An allowed act changes no file but those of the queue, and paths and infos of recorded stages.
pub fn rest_is_untouched()
    ensures { (read : Reader) (q : List ℕ) (files : Files) (a : Act) → Allowed read q files a → (path : List ℕ) → IsApartFrom q path → IsStrange (stages_in read q files) path → file_at (after files a) path ≡ file_at files path }
{}

/// In sound files a recorded stage makes each input that an earlier pass of a stage makes, so it is no file of the queue.
/// Where the stage is not under removal and such a file stands, it has the text that is wanted there.
pub fn scratch_is_wanted()
    ensures maker { (read : Reader) → KindLaws read → (q : List ℕ) (files : Files) (n : ℕ) (s : Facts) → Sound read q files → stages_in read q files n ≡ Some s → (path : List ℕ) → s.is_scratch path ≡ true → HasMaker (stages_in read q files) s path }
    ensures apart { (read : Reader) → KindLaws read → (q : List ℕ) (files : Files) (n : ℕ) (s : Facts) → Sound read q files → stages_in read q files n ≡ Some s → (path : List ℕ) → s.is_scratch path ≡ true → IsApartFrom q path }
    ensures wanted { (read : Reader) → KindLaws read → (q : List ℕ) (files : Files) (n : ℕ) (s : Facts) → Sound read q files → stages_in read q files n ≡ Some s → s.removes ≡ false → Clear (stages_in read q files) n s → (path bytes : List ℕ) → s.is_scratch path ≡ true → file_at files path ≡ Some bytes → IsScratch files s (record { path = path; bytes = bytes }) }
{}

/// What a worker was given for a task serves it, also over files that have lost it since, as where a removal of the directory
/// was recorded once the stage was finished. Over the files with the kept inputs, what is wanted of the stage is wanted in the
/// files, and the kept scratch files are what earlier passes want; where the files are sound, so is all that is found at a
/// scratch path, and no other text than a kept one stands at its path.
pub fn kept_inputs_serve()
    ensures wanted { (read : Reader) → KindLaws read → (q : List ℕ) (files : Files) (l : Lease) (mixed : Reading) → IsKnownLease (stages_in read q files) files l → IsOver l (file_at files) mixed → (path bytes : List ℕ) → l.stage.wanted mixed path ≡ Some bytes → l.stage.wanted (file_at files) path ≡ Some bytes }
    ensures scratch { (read : Reader) → KindLaws read → (q : List ℕ) (files : Files) (l : Lease) (mixed : Reading) → IsKnownLease (stages_in read q files) files l → IsOver l (file_at files) mixed → (file : File) → Contains l.scratch file → l.stage.scratch mixed file.path ≡ Some file.bytes }
    ensures found { (read : Reader) → KindLaws read → (q : List ℕ) (files : Files) (l : Lease) (mixed : Reading) → Sound read q files → IsKnownLease (stages_in read q files) files l → IsOver l (file_at files) mixed → l.stage.removes ≡ false → (path bytes : List ℕ) → l.stage.is_scratch path ≡ true → mixed path ≡ Some bytes → l.stage.scratch mixed path ≡ Some bytes }
    ensures kept { (read : Reader) → KindLaws read → (q : List ℕ) (files : Files) (l : Lease) → Sound read q files → IsKnownLease (stages_in read q files) files l → (file : File) → Contains l.scratch file → (bytes : List ℕ) → file_at files file.path ≡ Some bytes → bytes ≡ file.bytes }
{}

/// An allowed act loses no stage and no task: stages stay recorded and sealed, each task that has a name keeps one, and a
/// done task stays done.
pub fn no_task_is_lost()
    ensures recorded { (read : Reader) → KindLaws read → (q : List ℕ) (files : Files) (a : Act) → Sound read q files → Allowed read q files a → (n : ℕ) (s : Facts) → stages_in read q files n ≡ Some s → stages_in read q (after files a) n ≡ Some s }
    ensures sealed { (read : Reader) → KindLaws read → (q : List ℕ) (files : Files) (a : Act) → Sound read q files → Allowed read q files a → (n : ℕ) → Sealed (queue_of q files) n → Sealed (queue_of q (after files a)) n }
    ensures named { (read : Reader) → KindLaws read → (q : List ℕ) (files : Files) (a : Act) → Sound read q files → Allowed read q files a → (id : TaskId) → Named (queue_of q files) id → Named (queue_of q (after files a)) id }
    ensures done { (read : Reader) → KindLaws read → (q : List ℕ) (files : Files) (a : Act) → Sound read q files → Allowed read q files a → (id : TaskId) → IsSome (queue_of q files (Done id)) → IsSome (queue_of q (after files a) (Done id)) }
{}

/// In each role steps of others keep the files sound and keep what a worker knows, and a legal log that grows by them and by
/// own acts that are allowed stays legal.
pub fn others_are_safe()
    ensures sound { (read : Reader) → KindLaws read → (role : Role) (q : List ℕ) (files : Files) (steps : List Step) → ByOthers (Allows read role (Some q)) files steps → Sound read q files → Sound read q (replay files steps) }
    ensures known { (read : Reader) → KindLaws read → (role : Role) (q : List ℕ) (files : Files) (steps : List Step) (w : Memory) → ByOthers (Allows read role (Some q)) files steps → Sound read q files → Known read q files w → Known read q (replay files steps) w }
    ensures legal { (read : Reader) (role : Role) (q : List ℕ) (old new : Log) (others : List Step) (acts : List Act) → ByOthers (Allows read role (Some q)) (files_of old) others → new.opening ≡ old.opening → new.steps ≡ old.steps ++ (others ++ own_all acts) → AreAllowedSteps read q (replay (files_of old) others) (own_all acts) → Legal read q old → Legal read q new }
{}

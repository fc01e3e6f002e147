ghost use Rattle.std.specs.Prelude.{Bool};
ghost use Rattle.ig_defs.specs.Files.{Files};
ghost use Rattle.ig_defs.specs.declared.step.Act.{Act as TheAct};

/// What processes may do with the files of a store.
pub trait Rule {
    /// Whether an act on these files is allowed, to this process (true) or to another (false).
    ghost allows: { Self → Bool → Files → TheAct → Type 0 };
}

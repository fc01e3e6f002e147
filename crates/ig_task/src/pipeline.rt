use ig_rule::Role;
use ig_space::Path;
use ig_store::Rule;

/// The rule of a store: the directory of the queue, if there is one, and the role of the process.
#[derive(Debug, Drop)]
pub struct Pipeline {
    pub queue: Option<Path>,
    pub role: Role,
}

impl Rule for Pipeline {
    ghost use Rattle.ig_task.specs.Pipeline.{is_allowed};

    ghost allows = { is_allowed };
}

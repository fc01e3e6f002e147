ghost use Rattle.std.specs.Prelude.{◌≡◌, IfOk};
ghost use Rattle.ig_meaning.specs.Words.{queue_of_words};
ghost use Rattle.ig_cli.specs.Rules.{rule_of_words, rule_with};
ghost use Rattle.ig_cli.specs.Words.{texts_of};

use crate::plan_words::read_plan;
use crate::words::{Command, read_words};
use ig_task::{Pipeline, Role};
use std::alloc::{AllocError, Global};

/// The rule of a maker of stages in the queue that the words name, and that of a process by itself where they name none.
fn rule_with(alloc: Global, words: &Vec<String>) -> Result<Pipeline, AllocError>
    ensures { IfOk result (λ rule. rule ≡ rule_with (queue_of_words (texts_of words.now.items))) }
{
    match read_words(alloc, words)? {
        Some(Command::Enqueue { queue, .. }) => Ok(Pipeline {
            queue: Some(queue),
            role: Role::Maker,
        }),
        _ => Ok(Pipeline {
            queue: None,
            role: Role::Local,
        }),
    }
}

/// The rule that the store of a command with these words has to keep: that of a worker on the queue of its plan, that of a
/// maker of stages in the queue that they name, and that of a process by itself where they name none.
pub fn rule_of(alloc: Global, words: &Vec<String>) -> Result<Pipeline, AllocError>
    ensures { IfOk result (λ rule. rule ≡ rule_of_words (texts_of words.now.items)) }
{
    match read_plan(alloc, words)? {
        Some(plan) => Ok(Pipeline {
            queue: Some(plan.queue),
            role: Role::Worker,
        }),
        None => rule_with(alloc, words),
    }
}

//! The words of a worker: `execute QUEUE [--lease-sec N] [--tries N] [--turns N]`.
ghost use Rattle.std.specs.Prelude.{◌≡◌, IfOk, IfSome, List, ℕ, map, option_map};
ghost use Rattle.std.specs.List.{list_all};
ghost use Rattle.ig_worker.specs.Plans.{HasLimits};
ghost use Rattle.ig_worker.specs.Words.{is_plan_option, plan_in, plan_of_words, plan_with};
ghost use Rattle.ig_cli.specs.Options.{both};
ghost use Rattle.ig_cli.specs.Parts.{shown};
ghost use Rattle.ig_cli.specs.Words.{HasNumbers, plan_from, texts_of};

use crate::options::{Parts, number_or, parts_of};
use crate::queue_words::queue_in;
use crate::words::path_of;
use ig_worker::Plan;
use std::alloc::{AllocError, Global};

/// What the options of a worker give.
#[derive(Clone, Copy)]
struct Numbers {
    lease: u64,
    tries: u32,
    turns: u64,
}

/// The longest lease, in seconds.
const LONGEST_LEASE: u64 = 1000000;

/// The most tries of a task.
const MOST_TRIES: u64 = 100;

/// The most names that a worker tries.
const MOST_TURNS: u64 = 1000000000;

/// Whether a worker has an option with this name.
fn is_plan_option(name: &str) -> bool
    ensures { result ≡ is_plan_option name.now }
{
    name == "--lease-sec" || name == "--tries" || name == "--turns"
}

/// Whether a worker has options with these names.
fn are_plan_options(options: &[(&str, &str)]) -> bool
    ensures { result ≡ list_all (λ option. is_plan_option option.0) (map both options.now) }
{
    options.iter().all(|option| is_plan_option(option.0))
}

/// What these options give; `None` exactly where one of them is given twice or has a faulty value.
#[tactic(auto, unfolding(ig_worker::specs::Words::plan_with))]
fn numbers_of(options: &[(&str, &str)]) -> Option<Numbers>
    ensures value { (queue : List ℕ) → option_map (plan_from queue) result ≡ plan_with (map both options.now) queue }
    ensures limits { IfSome result HasNumbers }
{
    Some(Numbers {
        lease: number_or(options, "--lease-sec", 600, 1, LONGEST_LEASE)?,
        tries: number_or(options, "--tries", 5, 1, MOST_TRIES)? as u32,
        turns: number_or(options, "--turns", 10000000, 1, MOST_TURNS)?,
    })
}

/// The plan that these parts of the words after `execute` ask for.
fn plan_in(alloc: Global, parts: &Parts) -> Result<Option<Plan>, AllocError>
    ensures value { IfOk result (λ plan. plan ≡ plan_in (shown parts.now)) }
    ensures limits { IfOk result (λ plan. IfSome plan HasLimits) }
{
    let [queue] = parts.rest.as_slice() else {
        return Ok(None);
    };
    if !are_plan_options(&parts.options) {
        return Ok(None);
    }
    let Some(queue) = queue_in(queue) else {
        return Ok(None);
    };
    let Some(numbers) = numbers_of(&parts.options) else {
        return Ok(None);
    };
    Ok(Some(Plan {
        queue: path_of(alloc, queue)?,
        lease: numbers.lease,
        tries: numbers.tries,
        turns: numbers.turns,
        parallel: 1,
    }))
}

/// The plan of a worker that the words ask for; `None` exactly where they ask for none.
pub fn read_plan(alloc: Global, words: &Vec<String>) -> Result<Option<Plan>, AllocError>
    ensures value { IfOk result (λ plan. plan ≡ plan_of_words (texts_of words.now.items)) }
    ensures limits { IfOk result (λ plan. IfSome plan HasLimits) }
{
    let [first, words @ ..] = words.as_slice() else {
        return Ok(None);
    };
    if first.as_str() != "execute" {
        return Ok(None);
    }
    let Some(parts) = parts_of(alloc, words)? else {
        return Ok(None);
    };
    plan_in(alloc, &parts)
}

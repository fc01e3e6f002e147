//! Which tasks of a queue may be leased.
ghost use Rattle.std.specs.Prelude.{◌≡◌, ◌≤◌, ◌↔◌, ℕ, true, All, Contains, IfOk, IfSome, IsNone};
ghost use Rattle.std.specs.Cmp.Lexicographic.{slice_cmp};
ghost use Rattle.std.specs.List.Sorted.{IsStrictlySortedBy};
ghost use Rattle.std.specs.Ordering.{nat_cmp};
ghost use Rattle.ig_defs.specs.QueueNames.{queue_file, queue_fits};
ghost use Rattle.ig_queue.specs.Candidates.{rank, IsCandidate, AreCandidates};

use crate::naming::parse_queue_name;
use crate::types::Candidates;
use ig_defs::QueueName;
use ig_space::{List, Names, Text};
use std::alloc::{AllocError, Global};

/// By what names come in order: the stage, the task, how often it was leased, and when it may be leased.
fn rank(name: &QueueName) -> [u64; 4]
    ensures { result ≡ rank name.now }
{
    [
        u64::from(name.stage),
        u64::from(name.task),
        u64::from(name.attempt),
        name.visible,
    ]
}

/// The task of the queue whose file has this name, if it may be leased now.
fn due_name(text: &Text, now: u64) -> Option<QueueName>
    ensures some { IfSome result (λ name. (queue_fits name ≡ true) × (text.now ≡ queue_file name) × (name.visible ≤ now)) }
    ensures back { (name : QueueName) → queue_fits name ≡ true → text.now ≡ queue_file name → name.visible ≤ now → IfSome result (λ found. found ≡ name) }
    ensures none { IsNone result → (name : QueueName) → queue_fits name ≡ true → text.now ≡ queue_file name → name.visible ≤ now → ⊥ }
{
    let name = parse_queue_name(text.as_str())?;
    if name.visible > now {
        return None;
    }
    Some(name)
}

/// The names that may be leased now, as they are listed.
fn due_names(alloc: Global, names: &Names, now: u64) -> Result<Vec<QueueName>, AllocError>
    ensures only { IfOk result (λ due. All (IsCandidate names.now now) due.items) }
    ensures each { IfOk result (λ due. (name : QueueName) → IsCandidate names.now now name → Contains due.items name) }
{
    let mut due = Vec::new(alloc);
    for text in names.as_slice() {
        if let Some(name) = due_name(text, now) {
            due.push(name)?;
        }
    }
    Ok(due)
}

/// Puts names in order, each once.
fn arrange(names: &mut Vec<QueueName>)
    ensures sorted { IsStrictlySortedBy (λ a b. slice_cmp nat_cmp (rank a) (rank b)) names.new.items }
    ensures same { (name : QueueName) → Contains names.new.items name ↔ Contains names.old.items name }
{
    names.sort_unstable_by_key(
        |name|
            ensures { result ≡ rank name.now }
        { rank(name) },
    );
    names.dedup();
}

/// The names that may be leased now, in order, each once. The listing may have other files, and repeat names.
pub fn candidates(alloc: Global, names: &Names, now: u64) -> Result<Candidates, AllocError>
    ensures { IfOk result (AreCandidates names.now now) }
{
    let mut due = due_names(alloc, names, now)?;
    arrange(&mut due);
    let mut list = List::new(alloc);
    for name in &due {
        list.push(*name)?;
    }
    Ok(list)
}

//! The top call.
ghost use Rattle.std.specs.Prelude.{◌≡◌, ◌≢◌, ◌⊎◌, ◌↔◌, ◌≤◌, ◌++◌, ◌∷◌, [], List as list, ℕ, false, None, Some, Contains, IsSome, IsErr, IfOk};
ghost use Rattle.ig_defs.specs.Causes.{Rose};
ghost use Rattle.ig_defs.specs.declared.step.Step.{Step};
ghost use Rattle.ig_defs.specs.Log.{files_of, replay};
ghost use Rattle.ig_store.specs.Sink.{TakesPrefix};
ghost use Rattle.ig_defs.specs.Own.{moments_since, put_all, puts_of, steps_since};
ghost use Rattle.ig_meaning.specs.Call.{IsCopied, IsReady, IsSequential, PutsAll, PutsInOrder};
ghost use Rattle.ig_meaning.specs.Ending.{NoMemory, Refuses, StoreFailed};
ghost use Rattle.ig_meaning.specs.Fault.{fault_of, making_of};
ghost use Rattle.ig_meaning.specs.Lines.{fault_line, made_line, memory_text, store_text, words_text};
ghost use Rattle.ig_meaning.specs.Exactly.{HoldsExactly};
ghost use Rattle.ig_meaning.specs.QueueActs.{HasMade};
ghost use Rattle.ig_meaning.specs.Refusal.{Refusal};
ghost use Rattle.ig_meaning.specs.Words as meaning;
ghost use Rattle.ig_meaning.specs.Words.{command_of, queue_of_words};
ghost use Rattle.ig_rule.specs.Facts.{Facts};
ghost use Rattle.ig_rule.specs.QueueFiles.{queue_of};
ghost use Rattle.ig_rule.specs.Sound.{Legal};
ghost use Rattle.ig_rule.specs.Stages.{stages_in, Clear, Drained};
ghost use Rattle.ig_stage.specs.CanMake.{AllOwn, CanMake};
ghost use Rattle.ig_stage.specs.declared.error.LocalError.TheVariants as local;
ghost use Rattle.ig_stage.specs.declared.error.MakeError.TheVariants as make;
ghost use Rattle.ig_stage.specs.Pipeline.{local_rule};
ghost use Rattle.ig_stage.specs.Open.{maker_rule};
ghost use Rattle.ig_stage.specs.Requests.{shown_request, HasLimits};
ghost use Rattle.ig_task.specs.Facts.{stage_reader};
ghost use Rattle.ig_task.specs.Pipeline.{is_allowed};
ghost use Rattle.ig_worker.specs.Finishing.CanFinish.{CanFinish};
ghost use Rattle.ig_worker.specs.Leasing.Leases.{FollowLeases};
ghost use Rattle.ig_worker.specs.Words.{plan_of_words};
ghost use Rattle.ig_worker.specs.declared.plan.Plan.{Plan};
ghost use Rattle.ig_cli.specs.Rules.{queue_in_use, rule_of_words};
ghost use Rattle.ig_cli.specs.Worked.{EndsSo, HasWorked};
ghost use Rattle.ig_cli.specs.Words.{texts_of, CanHold};
ghost use Rattle.ig_cli.specs.Report.{ended_of, Ends, NotWords};
ghost use Rattle.ig_cli.specs.Printed.{HasComplained, HasPrinted, HasPrintedPart};
ghost use Rattle.ig_cli.specs.Performed.{JudgesWords, Performed};
ghost use Rattle.ig_cli.specs.declared.report.CommandError.TheVariants as command;

use crate::done::Done;
use crate::plan_words::read_plan;
use crate::report::{CommandError, report};
use crate::words::{Command, read_words};
use crate::working::work;
use ig_space::Path;
use ig_stage::{LocalError, MakeError, Request, Requests, make, run_local};
use ig_store::{Clock, Sink, Store};
use ig_task::Pipeline;
use std::alloc::{AllocError, Global};
use std::thread::Threads;

impl From<AllocError> for CommandError {
    ghost from_gives = { λ _ made. made ≡ command.Local (local.Make make.Memory) };

    fn from(_e: AllocError) -> CommandError {
        CommandError::Local(LocalError::Make(MakeError::Memory))
    }
}

impl From<MakeError> for CommandError {
    ghost from_gives = { λ e made. made ≡ command.Local (local.Make e) };

    fn from(e: MakeError) -> CommandError {
        CommandError::Local(LocalError::Make(e))
    }
}

impl From<LocalError> for CommandError {
    ghost from_gives = { λ e made. made ≡ command.Local e };

    fn from(e: LocalError) -> CommandError {
        CommandError::Local(e)
    }
}

/// The requests of a command that has this one.
fn only(alloc: Global, request: Request) -> Result<Requests, AllocError>
    ensures { IfOk result (λ want. want ≡ request ∷ []) }
{
    let mut want = Requests::new(alloc);
    want.push(request)?;
    Ok(want)
}

/// Makes a copy and runs it.
fn copy<S: Store<Pipeline>>(
    alloc: Global,
    store: &mut S,
    request: Request,
) -> Result<Done, CommandError>
    requires rule { S.rule store.old ≡ local_rule }
    requires limits { HasLimits request }
    ensures later { S.faults store.old ≤ S.faults store.new }
    ensures cause { ended_of result ≡ Ends StoreFailed → Rose (S.faults store.old) (S.faults store.new) }
    ensures not_words { ended_of result ≡ NotWords → ⊥ }
    ensures performed { S.tells → (words : list (list ℕ)) → command_of words ≡ Some (meaning.Local (shown_request request)) → Performed words (S.log store.old) (S.log store.new) result }
{
    let want = only(alloc, request)?;
    Ok(Done::Ran(run_local(alloc, store, &want)?))
}

/// Makes the stage of a copy in a queue.
fn enqueue<S: Store<Pipeline>>(
    alloc: Global,
    store: &mut S,
    queue: &Path,
    request: &Request,
) -> Result<Done, CommandError>
    requires rule { S.rule store.old ≡ maker_rule queue.now }
    requires limits { HasLimits request.now }
    requires apart { CanHold queue.now request.now }
    ensures later { S.faults store.old ≤ S.faults store.new }
    ensures cause { ended_of result ≡ Ends StoreFailed → Rose (S.faults store.old) (S.faults store.new) }
    ensures not_words { ended_of result ≡ NotWords → ⊥ }
    ensures performed { S.tells → (words : list (list ℕ)) → command_of words ≡ Some (meaning.Enqueue queue.now (shown_request request.now)) → Performed words (S.log store.old) (S.log store.new) result }
    ensures legal { S.tells → Legal stage_reader queue.now (S.log store.old) → Legal stage_reader queue.now (S.log store.new) }
    ensures complete { S.tells → CanMake queue.now (shown_request request.now) (files_of (S.log store.old)) → AllOwn (steps_since (S.log store.old) (S.log store.new)) → (r : Refusal) → ended_of result ≡ Ends (Refuses r) → ⊥ }
{
    Ok(Done::Made(make(alloc, store, queue, request)?))
}

/// Does what the words ask for. Gives what was done.
fn perform<S: Store<Pipeline>>(
    alloc: Global,
    words: &Vec<String>,
    store: &mut S,
) -> Result<Done, CommandError>
    requires rule { S.rule store.old ≡ rule_of_words (texts_of words.now.items) }
    ensures later { S.faults store.old ≤ S.faults store.new }
    ensures cause { ended_of result ≡ Ends StoreFailed → Rose (S.faults store.old) (S.faults store.new) }
    ensures words { JudgesWords (texts_of words.now.items) (ended_of result) }
    ensures performed { S.tells → Performed (texts_of words.now.items) (S.log store.old) (S.log store.new) result }
    ensures legal { S.tells → (q : list ℕ) → queue_of_words (texts_of words.now.items) ≡ Some q → Legal stage_reader q (S.log store.old) → Legal stage_reader q (S.log store.new) }
    ensures complete { S.tells → (q : list ℕ) (request : meaning.Request) → command_of (texts_of words.now.items) ≡ Some (meaning.Enqueue q request) → CanMake q request (files_of (S.log store.old)) → AllOwn (steps_since (S.log store.old) (S.log store.new)) → (r : Refusal) → ended_of result ≡ Ends (Refuses r) → ⊥ }
{
    match read_words(alloc, words)? {
        Some(Command::Local(request)) => copy(alloc, store, request),
        Some(Command::Enqueue { queue, request }) => enqueue(alloc, store, &queue, &request),
        None => Err(CommandError::Words),
    }
}

/// The same, once the words were found to be no worker's. Where memory ran out before that was known, nothing is done.
fn perform_if_read<S: Store<Pipeline>>(
    alloc: Global,
    words: &Vec<String>,
    read: Result<(), AllocError>,
    store: &mut S,
) -> Result<Done, CommandError>
    requires rule { S.rule store.old ≡ rule_of_words (texts_of words.now.items) }
    ensures later { S.faults store.old ≤ S.faults store.new }
    ensures cause { ended_of result ≡ Ends StoreFailed → Rose (S.faults store.old) (S.faults store.new) }
    ensures words { JudgesWords (texts_of words.now.items) (ended_of result) }
    ensures performed { S.tells → Performed (texts_of words.now.items) (S.log store.old) (S.log store.new) result }
    ensures legal { S.tells → (q : list ℕ) → queue_of_words (texts_of words.now.items) ≡ Some q → Legal stage_reader q (S.log store.old) → Legal stage_reader q (S.log store.new) }
    ensures complete { S.tells → (q : list ℕ) (request : meaning.Request) → command_of (texts_of words.now.items) ≡ Some (meaning.Enqueue q request) → CanMake q request (files_of (S.log store.old)) → AllOwn (steps_since (S.log store.old) (S.log store.new)) → (r : Refusal) → ended_of result ≡ Ends (Refuses r) → ⊥ }
    ensures unread { IsErr read → store.new ≡ store.old }
    ensures unread_memory { IsErr read → ended_of result ≡ Ends NoMemory }
{
    read?;
    perform(alloc, words, store)
}

/// Does what the words ask for, prints what is to be said of it, and gives the exit status.
fn make_or_copy<S: Store<Pipeline>, O: Sink, E: Sink>(
    alloc: Global,
    words: &Vec<String>,
    read: Result<(), AllocError>,
    store: &mut S,
    out: &mut O,
    err: &mut E,
) -> u8
    requires rule { S.rule store.old ≡ rule_of_words (texts_of words.now.items) }

    // Each status has its cause. Want of memory alone is free.
    ensures statuses { Contains (0 ∷ 2 ∷ 5 ∷ 6 ∷ 7 ∷ 9 ∷ []) result }
    ensures words { (result ≡ 2) ↔ ((command_of (texts_of words.now.items) ≡ None) × (result ≢ 7)) }
    ensures refused { S.tells → (result ≡ 5) ↔ (IsSome (fault_of (texts_of words.now.items) (moments_since (S.log store.old) (S.log store.new))) × (result ≢ 7)) }
    ensures store_failed { result ≡ 6 → Rose (S.faults store.old) (S.faults store.new) }
    ensures out_failed { result ≡ 9 → Rose (O.faults out.old) (O.faults out.new) }
    ensures complete { S.tells → IsReady (texts_of words.now.items) (files_of (S.log store.old)) → ¬ Rose (S.faults store.old) (S.faults store.new) → ¬ Rose (O.faults out.old) (O.faults out.new) → (result ≡ 0) ⊎ (result ≡ 7) }
    ensures complete_made { S.tells → (q : list ℕ) (request : meaning.Request) → command_of (texts_of words.now.items) ≡ Some (meaning.Enqueue q request) → Legal stage_reader q (S.log store.old) → CanMake q request (files_of (S.log store.old)) → AllOwn (steps_since (S.log store.old) (S.log store.new)) → ¬ Rose (S.faults store.old) (S.faults store.new) → ¬ Rose (O.faults out.old) (O.faults out.new) → (result ≡ 0) ⊎ (result ≡ 7) }

    // Without a queue, at status 0 the new layer has its info and exactly the wanted files, and nothing else changed.
    ensures copied { S.tells → result ≡ 0 → queue_of_words (texts_of words.now.items) ≡ None → IsCopied (texts_of words.now.items) (S.log store.old) (S.log store.new) }
    ensures in_sequence { S.tells → result ≡ 0 → queue_of_words (texts_of words.now.items) ≡ None → IsSequential (texts_of words.now.items) (S.log store.old) (S.log store.new) }

    // At each status only own puts change files, without a queue, and these are first ones of the plan.
    ensures only_puts { S.tells → queue_of_words (texts_of words.now.items) ≡ None → files_of (S.log store.new) ≡ put_all (files_of (S.log store.old)) (puts_of (moments_since (S.log store.old) (S.log store.new))) }
    ensures in_order { S.tells → PutsInOrder (making_of (texts_of words.now.items) (moments_since (S.log store.old) (S.log store.new))) (files_of (S.log store.old)) (moments_since (S.log store.old) (S.log store.new)) }
    ensures to_the_refusal { S.tells → result ≡ 5 → PutsAll (making_of (texts_of words.now.items) (moments_since (S.log store.old) (S.log store.new))) (files_of (S.log store.old)) (moments_since (S.log store.old) (S.log store.new)) }
    ensures idle { S.tells → command_of (texts_of words.now.items) ≡ None → moments_since (S.log store.old) (S.log store.new) ≡ [] }

    // What `out` took.
    ensures printed { S.tells → O.tells → result ≡ 0 → queue_of_words (texts_of words.now.items) ≡ None → HasPrinted (texts_of words.now.items) (S.log store.old) (O.taken out.old) (O.taken out.new) }
    ensures printed_part { S.tells → O.tells → result ≡ 9 → queue_of_words (texts_of words.now.items) ≡ None → HasPrintedPart (texts_of words.now.items) (S.log store.old) (O.taken out.old) (O.taken out.new) }
    ensures printed_nothing { O.tells → ¬ (result ≡ 0) → ¬ (result ≡ 9) → O.taken out.new ≡ O.taken out.old }

    // With a queue, at status 0 the stage was made there, or what was left of the last one. The log stays legal; so wherever
    // it stands with a stage drained, the output directories of that stage hold exactly the wanted files.
    ensures made { S.tells → result ≡ 0 → (q : list ℕ) → queue_of_words (texts_of words.now.items) ≡ Some q → HasMade q (making_of (texts_of words.now.items) (moments_since (S.log store.old) (S.log store.new))) }
    ensures printed_made { S.tells → O.tells → result ≡ 0 → (q : list ℕ) → queue_of_words (texts_of words.now.items) ≡ Some q → O.taken out.new ≡ O.taken out.old ++ made_line (making_of (texts_of words.now.items) (moments_since (S.log store.old) (S.log store.new))) }
    ensures printed_made_part { S.tells → O.tells → result ≡ 9 → (q : list ℕ) → queue_of_words (texts_of words.now.items) ≡ Some q → TakesPrefix (O.taken out.old) (made_line (making_of (texts_of words.now.items) (moments_since (S.log store.old) (S.log store.new)))) (O.taken out.new) }
    ensures legal { S.tells → (q : list ℕ) → queue_of_words (texts_of words.now.items) ≡ Some q → Legal stage_reader q (S.log store.old) → Legal stage_reader q (S.log store.new) }
    ensures drained { S.tells → (q : list ℕ) → queue_of_words (texts_of words.now.items) ≡ Some q → Legal stage_reader q (S.log store.old) → (xs ys : list Step) → (S.log store.new).steps ≡ xs ++ ys → (n : ℕ) (s : Facts) → stages_in stage_reader q (replay (S.log store.new).opening xs) n ≡ Some s → Drained (queue_of q (replay (S.log store.new).opening xs)) n → Clear (stages_in stage_reader q (replay (S.log store.new).opening xs)) n s → s.removes ≡ false → HoldsExactly s (replay (S.log store.new).opening xs) }

    // What `err` took, where its count of faults did not rise.
    ensures told_words { E.tells → ¬ Rose (E.faults err.old) (E.faults err.new) → result ≡ 2 → E.taken err.new ≡ E.taken err.old ++ fault_line words_text }
    ensures told_refusal { S.tells → E.tells → ¬ Rose (E.faults err.old) (E.faults err.new) → result ≡ 5 → HasComplained (texts_of words.now.items) (S.log store.old) (S.log store.new) (E.taken err.old) (E.taken err.new) }
    ensures told_store { E.tells → ¬ Rose (E.faults err.old) (E.faults err.new) → result ≡ 6 → E.taken err.new ≡ E.taken err.old ++ fault_line store_text }
    ensures told_memory { E.tells → ¬ Rose (E.faults err.old) (E.faults err.new) → result ≡ 7 → E.taken err.new ≡ E.taken err.old ++ fault_line memory_text }
    ensures told_nothing { (result ≡ 0) ⊎ (result ≡ 9) → err.new ≡ err.old }
    ensures unread { IsErr read → store.new ≡ store.old }
    ensures unread_status { IsErr read → result ≡ 7 }
{
    let outcome = perform_if_read(alloc, words, read, store);
    report(alloc, &outcome, out, err)
}

/// Runs the command of these words, those after the program's name, over a store, and prints what it has to say on
/// `out` and `err`. Gives the exit status: 0 where all was done, 2 where the words are no command's, 5 where a file is
/// missing or malformed, the new layer isn't empty, a stage of the queue has it, or the scale or the shape isn't lawful, 6
/// at a fault of the store, 7 where memory ran out, 9 at a fault of the output; and of a worker 3 where tasks are not done and
/// none may be leased now, 4 where there are dead letters, 8 where it has tried as many names as it may.
pub fn igneous<R: Threads + Sync, S: Store<Pipeline>, C: Clock, O: Sink, E: Sink>(
    rt: &R,
    alloc: Global,
    words: &Vec<String>,
    store: &mut S,
    clock: &mut C,
    out: &mut O,
    err: &mut E,
) -> u8
    requires { S.rule store.old ≡ rule_of_words (texts_of words.now.items) }

    // Each status has its cause. Want of memory alone is free.
    ensures statuses { Contains (0 ∷ 2 ∷ 3 ∷ 4 ∷ 5 ∷ 6 ∷ 7 ∷ 8 ∷ 9 ∷ []) result }
    ensures worker_statuses { plan_of_words (texts_of words.now.items) ≡ None → Contains (0 ∷ 2 ∷ 5 ∷ 6 ∷ 7 ∷ 9 ∷ []) result }
    ensures words { (result ≡ 2) ↔ ((command_of (texts_of words.now.items) ≡ None) × (plan_of_words (texts_of words.now.items) ≡ None) × (result ≢ 7)) }
    ensures refused { S.tells → plan_of_words (texts_of words.now.items) ≡ None → (result ≡ 5) ↔ (IsSome (fault_of (texts_of words.now.items) (moments_since (S.log store.old) (S.log store.new))) × (result ≢ 7)) }
    ensures store_failed { result ≡ 6 → Rose (S.faults store.old) (S.faults store.new) }
    ensures out_failed { result ≡ 9 → Rose (O.faults out.old) (O.faults out.new) }
    ensures complete { S.tells → IsReady (texts_of words.now.items) (files_of (S.log store.old)) → ¬ Rose (S.faults store.old) (S.faults store.new) → ¬ Rose (O.faults out.old) (O.faults out.new) → (result ≡ 0) ⊎ (result ≡ 7) }
    ensures complete_made { S.tells → (q : list ℕ) (request : meaning.Request) → command_of (texts_of words.now.items) ≡ Some (meaning.Enqueue q request) → Legal stage_reader q (S.log store.old) → CanMake q request (files_of (S.log store.old)) → AllOwn (steps_since (S.log store.old) (S.log store.new)) → ¬ Rose (S.faults store.old) (S.faults store.new) → ¬ Rose (O.faults out.old) (O.faults out.new) → (result ≡ 0) ⊎ (result ≡ 7) }
    ensures complete_worked { S.tells → (plan : Plan) → plan_of_words (texts_of words.now.items) ≡ Some plan → Legal stage_reader plan.queue (S.log store.old) → CanFinish plan (C.last clock.old) (files_of (S.log store.old)) → AllOwn (steps_since (S.log store.old) (S.log store.new)) → ¬ Rose (S.faults store.old) (S.faults store.new) → ¬ Rose (O.faults out.old) (O.faults out.new) → (result ≡ 0) ⊎ (result ≡ 7) }

    // Without a queue, at status 0 the new layer has its info and exactly the wanted files, and nothing else changed.
    ensures copied { S.tells → result ≡ 0 → queue_in_use (texts_of words.now.items) ≡ None → IsCopied (texts_of words.now.items) (S.log store.old) (S.log store.new) }
    ensures in_sequence { S.tells → result ≡ 0 → queue_in_use (texts_of words.now.items) ≡ None → IsSequential (texts_of words.now.items) (S.log store.old) (S.log store.new) }

    // At each status only own puts change files, without a queue, and these are first ones of the plan.
    ensures only_puts { S.tells → queue_in_use (texts_of words.now.items) ≡ None → files_of (S.log store.new) ≡ put_all (files_of (S.log store.old)) (puts_of (moments_since (S.log store.old) (S.log store.new))) }
    ensures in_order { S.tells → plan_of_words (texts_of words.now.items) ≡ None → PutsInOrder (making_of (texts_of words.now.items) (moments_since (S.log store.old) (S.log store.new))) (files_of (S.log store.old)) (moments_since (S.log store.old) (S.log store.new)) }
    ensures to_the_refusal { S.tells → plan_of_words (texts_of words.now.items) ≡ None → result ≡ 5 → PutsAll (making_of (texts_of words.now.items) (moments_since (S.log store.old) (S.log store.new))) (files_of (S.log store.old)) (moments_since (S.log store.old) (S.log store.new)) }
    ensures idle { S.tells → command_of (texts_of words.now.items) ≡ None → plan_of_words (texts_of words.now.items) ≡ None → moments_since (S.log store.old) (S.log store.new) ≡ [] }

    // What `out` took.
    ensures printed { S.tells → O.tells → result ≡ 0 → queue_in_use (texts_of words.now.items) ≡ None → HasPrinted (texts_of words.now.items) (S.log store.old) (O.taken out.old) (O.taken out.new) }
    ensures printed_part { S.tells → O.tells → result ≡ 9 → queue_in_use (texts_of words.now.items) ≡ None → HasPrintedPart (texts_of words.now.items) (S.log store.old) (O.taken out.old) (O.taken out.new) }
    ensures printed_nothing { O.tells → plan_of_words (texts_of words.now.items) ≡ None → ¬ (result ≡ 0) → ¬ (result ≡ 9) → O.taken out.new ≡ O.taken out.old }

    // With a queue, at status 0 the stage was made there, or what was left of the last one. The log stays legal; so wherever
    // it stands with a stage drained, the output directories of that stage hold exactly the wanted files.
    ensures made { S.tells → result ≡ 0 → (q : list ℕ) → queue_of_words (texts_of words.now.items) ≡ Some q → HasMade q (making_of (texts_of words.now.items) (moments_since (S.log store.old) (S.log store.new))) }
    ensures printed_made { S.tells → O.tells → result ≡ 0 → (q : list ℕ) → queue_of_words (texts_of words.now.items) ≡ Some q → O.taken out.new ≡ O.taken out.old ++ made_line (making_of (texts_of words.now.items) (moments_since (S.log store.old) (S.log store.new))) }
    ensures printed_made_part { S.tells → O.tells → result ≡ 9 → (q : list ℕ) → queue_of_words (texts_of words.now.items) ≡ Some q → TakesPrefix (O.taken out.old) (made_line (making_of (texts_of words.now.items) (moments_since (S.log store.old) (S.log store.new)))) (O.taken out.new) }
    ensures legal { S.tells → (q : list ℕ) → queue_in_use (texts_of words.now.items) ≡ Some q → Legal stage_reader q (S.log store.old) → Legal stage_reader q (S.log store.new) }
    ensures drained { S.tells → (q : list ℕ) → queue_in_use (texts_of words.now.items) ≡ Some q → Legal stage_reader q (S.log store.old) → (xs ys : list Step) → (S.log store.new).steps ≡ xs ++ ys → (n : ℕ) (s : Facts) → stages_in stage_reader q (replay (S.log store.new).opening xs) n ≡ Some s → Drained (queue_of q (replay (S.log store.new).opening xs)) n → Clear (stages_in stage_reader q (replay (S.log store.new).opening xs)) n s → s.removes ≡ false → HoldsExactly s (replay (S.log store.new).opening xs) }

    // Of a worker: its own steps are a course of the worker of this plan, each line was printed as it was said, and the status is
    // that of the place where it stopped. In a legal log, at status 0 each stage that was recorded when the last listing of the
    // stages began is finished; at 3 so many tasks were not done, and none could be leased; at 4 there were dead letters; 5 never comes.
    ensures worked { S.tells → (plan : Plan) → plan_of_words (texts_of words.now.items) ≡ Some plan → HasWorked (is_allowed (S.rule store.old)) plan (C.last clock.old) (C.last clock.new) (S.log store.old) (S.log store.new) result O.tells (O.taken out.old) (O.taken out.new) E.tells (E.faults err.old) (E.faults err.new) (E.taken err.old) (E.taken err.new) }
    ensures ended { S.tells → (plan : Plan) → plan_of_words (texts_of words.now.items) ≡ Some plan → Legal stage_reader plan.queue (S.log store.old) → EndsSo plan (C.last clock.old) (C.last clock.new) (S.log store.old) (S.log store.new) result O.tells (O.taken out.old) (O.taken out.new) }

    // Whatever the log is, each file that a worker puts or takes away follows an own lease of its task, of a name that was due by the
    // clock: since then exactly the inputs of the task were read, and its paths before this one were put or taken away.
    ensures leases { S.tells → (plan : Plan) → plan_of_words (texts_of words.now.items) ≡ Some plan → FollowLeases plan (C.last clock.old) (C.last clock.new) (moments_since (S.log store.old) (S.log store.new)) }

    // What `err` took, where its count of faults did not rise.
    ensures told_words { E.tells → ¬ Rose (E.faults err.old) (E.faults err.new) → result ≡ 2 → E.taken err.new ≡ E.taken err.old ++ fault_line words_text }
    ensures told_refusal { S.tells → E.tells → plan_of_words (texts_of words.now.items) ≡ None → ¬ Rose (E.faults err.old) (E.faults err.new) → result ≡ 5 → HasComplained (texts_of words.now.items) (S.log store.old) (S.log store.new) (E.taken err.old) (E.taken err.new) }
    ensures told_store { E.tells → ¬ Rose (E.faults err.old) (E.faults err.new) → result ≡ 6 → E.taken err.new ≡ E.taken err.old ++ fault_line store_text }
    ensures told_memory { E.tells → ¬ Rose (E.faults err.old) (E.faults err.new) → result ≡ 7 → E.taken err.new ≡ E.taken err.old ++ fault_line memory_text }
    ensures told_nothing { ¬ (result ≡ 2) → ¬ (result ≡ 5) → ¬ (result ≡ 6) → ¬ (result ≡ 7) → err.new ≡ err.old }
{
    match read_plan(alloc, words) {
        Ok(Some(plan)) => work(rt, alloc, plan, store, clock, out, err),
        Ok(None) => make_or_copy(alloc, words, Ok(()), store, out, err),
        Err(e) => make_or_copy(alloc, words, Err(e), store, out, err),
    }
}

//! Prints what a command that ended has to say, and gives its status.
ghost use Rattle.std.specs.Prelude.{◌≡◌, ◌≤◌, ◌⊎◌};
ghost use Rattle.ig_defs.specs.Causes.{Rose};
ghost use Rattle.ig_meaning.specs.Ending.{Finished};
ghost use Rattle.ig_cli.specs.Report.{ended_of, done_text, ended_of_error, err_line, out_line, shown_line, status_of, Ends, HasTaken, HasTold, IsStatusOf, Tells};

use crate::done::{Done, lines_of};
use crate::lines::{FaultLine, line_of_local};
use ig_stage::LocalError;
use ig_store::Sink;
use std::alloc::Global;

/// Why a command ends without having done all.
#[derive(Debug, Drop)]
pub enum CommandError {
    /// The words are no command's.
    Words,
    Local(LocalError),
}

/// The line of a command that ended early; that of memory where none is left for it.
fn line_of(alloc: Global, e: &CommandError) -> FaultLine
    ensures { Tells (ended_of_error e.now) result }
{
    match e {
        CommandError::Words => FaultLine::Words,
        CommandError::Local(e) => line_of_local(alloc, e),
    }
}

/// Writes the line on standard error, and gives its status. A fault there changes no status.
pub fn complain<E: Sink>(line: &FaultLine, err: &mut E) -> u8
    ensures status { result ≡ status_of line.now }
    ensures later { E.faults err.old ≤ E.faults err.new }
    ensures err { E.tells → HasTold (shown_line line.now) (E.faults err.old) (E.faults err.new) (E.taken err.old) (E.taken err.new) }
{
    let _ = err.write(line.as_bytes());
    line.status()
}

/// Writes lines on standard output, and gives the status.
fn tell<O: Sink>(lines: &str, out: &mut O) -> u8
    ensures status { (result ≡ 0) ⊎ (result ≡ 9) }
    ensures nine { result ≡ 9 → Rose (O.faults out.old) (O.faults out.new) }
    ensures later { O.faults out.old ≤ O.faults out.new }
    ensures out { O.tells → HasTaken lines.now result (O.taken out.old) (O.taken out.new) }
{
    match out.write(lines.as_bytes()) {
        Ok(()) => 0,
        Err(_) => 9,
    }
}

/// Prints what was done, and gives the status.
fn report_done<O: Sink, E: Sink>(alloc: Global, done: &Done, out: &mut O, err: &mut E) -> u8
    ensures status { IsStatusOf (Ends Finished) result }
    ensures nine { result ≡ 9 → Rose (O.faults out.old) (O.faults out.new) }
    ensures out_later { O.faults out.old ≤ O.faults out.new }
    ensures err_later { E.faults err.old ≤ E.faults err.new }
    ensures out { O.tells → HasTaken (done_text done.now) result (O.taken out.old) (O.taken out.new) }
    ensures err { E.tells → HasTold (err_line (Ends Finished) result) (E.faults err.old) (E.faults err.new) (E.taken err.old) (E.taken err.new) }
    ensures silent { (result ≡ 0) ⊎ (result ≡ 9) → err.new ≡ err.old }
{
    match lines_of(alloc, done) {
        Ok(lines) => tell(lines.as_str(), out),
        Err(_) => complain(&FaultLine::Memory, err),
    }
}

/// Prints why a command ended early, and gives the status.
fn report_error<E: Sink>(alloc: Global, e: &CommandError, err: &mut E) -> u8
    ensures status { IsStatusOf (ended_of_error e.now) result }
    ensures low { 2 ≤ result }
    ensures high { result ≤ 7 }
    ensures later { E.faults err.old ≤ E.faults err.new }
    ensures err { E.tells → HasTold (err_line (ended_of_error e.now) result) (E.faults err.old) (E.faults err.new) (E.taken err.old) (E.taken err.new) }
{
    let line = line_of(alloc, e);
    complain(&line, err)
}

/// Prints what a command that ended so prints, and gives its status: 0 where all was done; 2 where the words are no
/// command's; 5 where it refused; 6 at a fault of the store; 7 where memory ran out; 9 at a fault of the output.
pub fn report<O: Sink, E: Sink>(
    alloc: Global,
    outcome: &Result<Done, CommandError>,
    out: &mut O,
    err: &mut E,
) -> u8
    ensures status { IsStatusOf (ended_of outcome.now) result }
    ensures nine { result ≡ 9 → Rose (O.faults out.old) (O.faults out.new) }
    ensures out_later { O.faults out.old ≤ O.faults out.new }
    ensures err_later { E.faults err.old ≤ E.faults err.new }
    ensures out { O.tells → HasTaken (out_line outcome.now) result (O.taken out.old) (O.taken out.new) }
    ensures err { E.tells → HasTold (err_line (ended_of outcome.now) result) (E.faults err.old) (E.faults err.new) (E.taken err.old) (E.taken err.new) }
    ensures silent { (result ≡ 0) ⊎ (result ≡ 9) → err.new ≡ err.old }
{
    match outcome {
        Ok(done) => report_done(alloc, done, out, err),
        Err(e) => report_error(alloc, e, err),
    }
}

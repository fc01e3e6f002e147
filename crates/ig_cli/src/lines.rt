//! The lines of commands that ended early, each with its line end.
ghost use Rattle.std.specs.Prelude.{◌≡◌, IfOk, codes, string_bytes};
ghost use Rattle.ig_meaning.specs.Refusal as refusal;
ghost use Rattle.ig_meaning.specs.Ending.{Refuses};
ghost use Rattle.ig_meaning.specs.Lines.{axis_text, fault_line, refusal_text, spaced};
ghost use Rattle.ig_cutout.specs.Inputs.{cause_of};
ghost use Rattle.ig_stage.specs.Errors.{ending_of_make};
ghost use Rattle.ig_stage.specs.Running.{ending_of_local, ending_of_run};
ghost use Rattle.ig_cli.specs.Report.{ending_of_worker, shown_line, status_of, Ends, Tells};

use crate::causes::cause_text;
use crate::done::four_digits;
use ig_cutout::Cause;
use ig_info::InfoError;
use ig_record::{Kind, kind_word};
use ig_stage::{LocalError, MakeError};
use ig_task::RunError;
use ig_worker::WorkerError;
use std::alloc::{AllocError, Global};

/// The line on standard error of a command that ended early.
#[derive(Debug, Drop)]
pub enum FaultLine {
    Refused(String),
    Words,
    Store,
    Memory,
}

impl FaultLine {
    /// The status that goes with it.
    pub fn status(&self) -> u8
        ensures { result ≡ status_of self.now }
    {
        match self {
            FaultLine::Refused(_) => 5,
            FaultLine::Words => 2,
            FaultLine::Store => 6,
            FaultLine::Memory => 7,
        }
    }

    pub fn as_bytes(&self) -> &[u8]
        ensures { result.now ≡ shown_line self.now }
    {
        match self {
            FaultLine::Refused(line) => line.as_str().as_bytes(),
            FaultLine::Words => b"igneous: the words are not a command\n",
            FaultLine::Store => b"igneous: store fault\n",
            FaultLine::Memory => b"igneous: out of memory\n",
        }
    }
}

fn missing(alloc: Global, path: &str) -> Result<String, AllocError>
    ensures { IfOk result (λ line. string_bytes line ≡ fault_line (refusal_text (refusal.Missing path.now))) }
{
    format!(in alloc; "igneous: missing {path}\n")
}

fn no_scale(alloc: Global, mip: u32, count: u32) -> Result<String, AllocError>
    ensures { IfOk result (λ line. string_bytes line ≡ fault_line (refusal_text (refusal.NoScale mip count))) }
{
    format!(in alloc; "igneous: no scale {mip} of {count}\n")
}

/// The name of an axis, counted from 0.
fn axis_name(axis: u32) -> &'static str
    ensures { result.now ≡ axis_text axis }
{
    match axis {
        0 => "x",
        1 => "y",
        _ => "z",
    }
}

fn shape_unfit(alloc: Global, axis: u32) -> Result<String, AllocError>
    ensures { IfOk result (λ line. string_bytes line ≡ fault_line (refusal_text (refusal.ShapeUnfit axis))) }
{
    let name = axis_name(axis);
    format!(in alloc; "igneous: shape does not fit axis {name}\n")
}

fn too_many_tasks(alloc: Global, count: u128) -> Result<String, AllocError>
    ensures { IfOk result (λ line. string_bytes line ≡ fault_line (refusal_text (refusal.TooManyTasks count))) }
{
    format!(in alloc; "igneous: too many tasks {count}\n")
}

fn task_too_large(alloc: Global, voxels: u128) -> Result<String, AllocError>
    ensures { IfOk result (λ line. string_bytes line ≡ fault_line (refusal_text (refusal.TaskTooLarge voxels))) }
{
    format!(in alloc; "igneous: task too large {voxels}\n")
}

fn too_many_parts(alloc: Global, count: u64) -> Result<String, AllocError>
    ensures { IfOk result (λ line. string_bytes line ≡ fault_line (refusal_text (refusal.TooManyParts count))) }
{
    format!(in alloc; "igneous: too many parts {count}\n")
}

fn no_stage(alloc: Global, kind: Kind) -> Result<String, AllocError>
    ensures { IfOk result (λ line. string_bytes line ≡ fault_line (refusal_text (refusal.NoStage kind))) }
{
    let word = kind_word(kind);
    format!(in alloc; "igneous: no stage {word}\n")
}

fn not_empty(alloc: Global, path: &str) -> Result<String, AllocError>
    ensures { IfOk result (λ line. string_bytes line ≡ fault_line (refusal_text (refusal.NotEmpty path.now))) }
{
    format!(in alloc; "igneous: not empty {path}\n")
}

fn too_many_stages(alloc: Global, count: u32) -> Result<String, AllocError>
    ensures { IfOk result (λ line. string_bytes line ≡ fault_line (refusal_text (refusal.TooManyStages count))) }
{
    format!(in alloc; "igneous: too many stages {count}\n")
}

fn taken(alloc: Global, stage: u32) -> Result<String, AllocError>
    ensures { IfOk result (λ line. string_bytes line ≡ fault_line (refusal_text (refusal.Taken stage))) }
{
    let number = four_digits(alloc, stage)?;
    format!(in alloc; "igneous: taken by stage {number}\n")
}

fn bad_record(alloc: Global, path: &str, member: &str) -> Result<String, AllocError>
    ensures { IfOk result (λ line. string_bytes line ≡ fault_line (refusal_text (refusal.BadRecord path.now member.now))) }
{
    malformed_at(alloc, path, "record member", member)
}

/// The line of a malformed file with this cause.
fn malformed(alloc: Global, path: &str, cause: &str) -> Result<String, AllocError>
    ensures { IfOk result (λ line. string_bytes line ≡ fault_line (spaced (codes "malformed") (spaced path.now cause.now))) }
{
    format!(in alloc; "igneous: malformed {path} {cause}\n")
}

/// The line of a malformed file where this member is the cause.
fn malformed_at(alloc: Global, path: &str, cause: &str, member: &str) -> Result<String, AllocError>
    ensures { IfOk result (λ line. string_bytes line ≡ fault_line (spaced (codes "malformed") (spaced path.now (spaced cause.now member.now)))) }
{
    format!(in alloc; "igneous: malformed {path} {cause} {member}\n")
}

fn bad_info(alloc: Global, path: &str, cause: &InfoError) -> Result<String, AllocError>
    ensures { IfOk result (λ line. string_bytes line ≡ fault_line (refusal_text (refusal.BadInfo path.now cause.now))) }
{
    match cause {
        InfoError::NotJson => malformed(alloc, path, "not JSON"),
        InfoError::Member { path: member } => malformed_at(alloc, path, "member", member.as_str()),
        InfoError::Unsupported { member } => {
            malformed_at(alloc, path, "unsupported", member.as_str())
        }
        InfoError::Memory => malformed(alloc, path, "out of memory"),
    }
}

fn bad_file(alloc: Global, path: &str, cause: &Cause) -> Result<String, AllocError>
    ensures { IfOk result (λ line. string_bytes line ≡ fault_line (refusal_text (refusal.Malformed path.now (cause_of cause.now)))) }
{
    let text = cause_text(alloc, cause)?;
    malformed(alloc, path, text.as_str())
}

/// The line of a refusal; that of memory where none was left for it.
fn refused(line: Result<String, AllocError>) -> FaultLine
    ensures { (r : refusal.Refusal) → IfOk line (λ line. string_bytes line ≡ fault_line (refusal_text r)) → Tells (Ends (Refuses r)) result }
{
    match line {
        Ok(line) => FaultLine::Refused(line),
        Err(_) => FaultLine::Memory,
    }
}

/// The line of a stage that was not made.
fn line_of_make(alloc: Global, e: &MakeError) -> FaultLine
    ensures { Tells (Ends (ending_of_make e.now)) result }
{
    match e {
        MakeError::Absent { path } => refused(missing(alloc, path.as_str())),
        MakeError::BadRecord { path, member } => {
            refused(bad_record(alloc, path.as_str(), member.as_str()))
        }
        MakeError::TooManyStages { count } => refused(too_many_stages(alloc, *count)),
        MakeError::Missing { path } => refused(missing(alloc, path.as_str())),
        MakeError::BadInfo { path, cause } => refused(bad_info(alloc, path.as_str(), cause)),
        MakeError::NoScale { mip, count } => refused(no_scale(alloc, *mip, *count)),
        MakeError::NoStage { kind } => refused(no_stage(alloc, *kind)),
        MakeError::DestNotEmpty { path } => refused(not_empty(alloc, path.as_str())),
        MakeError::Taken { stage } => refused(taken(alloc, *stage)),
        MakeError::ShapeUnfit { axis } => refused(shape_unfit(alloc, *axis)),
        MakeError::TooManyTasks { count } => refused(too_many_tasks(alloc, *count)),
        MakeError::TaskTooLarge { voxels } => refused(task_too_large(alloc, *voxels)),
        MakeError::Failed => FaultLine::Store,
        MakeError::Memory => FaultLine::Memory,
    }
}

/// The line of a task that refused.
fn line_of_run(alloc: Global, e: &RunError) -> FaultLine
    ensures { Tells (Ends (ending_of_run e.now)) result }
{
    match e {
        RunError::Missing { path } => refused(missing(alloc, path.as_str())),
        RunError::Malformed { path, cause } => refused(bad_file(alloc, path.as_str(), cause)),
        RunError::TooManyParts { count } => refused(too_many_parts(alloc, *count)),
        RunError::Memory => FaultLine::Memory,
    }
}

/// The line of a command that ended early.
pub fn line_of_local(alloc: Global, e: &LocalError) -> FaultLine
    ensures { Tells (Ends (ending_of_local e.now)) result }
{
    match e {
        LocalError::Make(e) => line_of_make(alloc, e),
        LocalError::Run(e) => line_of_run(alloc, e),
    }
}

/// The line of a worker that stopped.
pub fn line_of_worker(alloc: Global, e: &WorkerError) -> FaultLine
    ensures { Tells (Ends (ending_of_worker e.now)) result }
{
    match e {
        WorkerError::Absent { path } => refused(missing(alloc, path.as_str())),
        WorkerError::BadRecord { path, member } => {
            refused(bad_record(alloc, path.as_str(), member.as_str()))
        }
        WorkerError::Failed => FaultLine::Store,
        WorkerError::Memory => FaultLine::Memory,
    }
}

//! A worker that is stepped by hand.
ghost use Rattle.std.specs.Prelude.{◌≡◌, ◌≤◌, IfOk};
ghost use Rattle.ig_store.specs.Ticks.{capped};

use ig_cli::{end_line, line_of, read_plan};
use ig_play::{Told, World, steps_text};
use ig_space::{Path, TryClone};
use ig_store::{MemClock, MemStore};
use ig_task::{Pipeline, Role};
use ig_worker::{Turn, Worker, WorkerError};
use std::alloc::{AllocError, Global};
use std::marker::Model;
use std::thread::Threads;

/// A worker with its queue and its clock.
#[derive(Drop)]
pub struct Hand {
    queue: Path,
    worker: Worker,
    clock: MemClock,
    second: u64,
}

impl Model for Hand {
    ghost use Rattle.std.specs.Prelude.{◌≤◌, ℕ, List};
    ghost use Rattle.ig_store.specs.Ticks.{Ticks, capped};
    ghost use Rattle.ig_worker.specs.Places.{State};

    ghost Value = { State × Ticks };

    ghost view = { λ h. (h.worker, h.clock) };

    ghost invariant = { λ h. h.worker.notes.at ≤ capped h.clock.last };
}

/// What a worker's error prints.
fn error_line(alloc: Global, error: &WorkerError) -> Result<String, AllocError> {
    match error {
        WorkerError::Absent { path } => format!(in alloc; "igneous: missing {}\n", path.as_str()),
        WorkerError::BadRecord { path, member } => format!(in alloc;
            "igneous: malformed {} record member {}\n",
            path.as_str(),
            member.as_str()
        ),
        WorkerError::Failed => String::from_str(alloc, "igneous: store fault\n"),
        WorkerError::Memory => String::from_str(alloc, "igneous: out of memory\n"),
    }
}

/// Adds what a step gave.
fn add(alloc: Global, told: &mut Told, given: Result<Turn, WorkerError>) -> Result<(), AllocError> {
    match given {
        Ok(Turn::On) => Ok(()),
        Ok(Turn::Said(line)) => told.out.push_str(line_of(alloc, &line)?.as_str()),
        Ok(Turn::Ended(end)) => told.out.push_str(end_line(alloc, end)?.as_str()),
        Err(error) => told.err.push_str(error_line(alloc, &error)?.as_str()),
    }
}

impl Hand {
    /// A worker that the words ask for, at the world's second; none where they ask for none.
    pub fn start(world: &World, words: &Vec<String>) -> Result<Option<Hand>, AllocError> {
        let Some(plan) = read_plan(world.alloc, words)? else {
            return Ok(None);
        };
        Ok(Some(Hand {
            queue: plan.queue.copy()?,
            worker: Worker::start(world.alloc, plan)?,
            clock: MemClock::new(world.second),
            second: world.second,
        }))
    }

    /// The word for whether it has ended.
    fn answer(&self) -> &'static str {
        if self.worker.ended() { "over" } else { "on" }
    }

    /// Moves its clock on to the world's second.
    fn set(&mut self, second: u64) {
        if second > self.second {
            self.clock.add(second - self.second);
            self.second = second;
        }
    }

    /// Takes one step, and adds what it gave. Nothing is said here of what a step does, so that its caller reads none of its contract.
    fn step<R: Threads + Sync>(
        &mut self,
        rt: &R,
        alloc: Global,
        store: &mut MemStore<Pipeline>,
        told: &mut Told,
    ) -> Result<(), AllocError> {
        let given = self.worker.step(rt, store, &mut self.clock);
        add(alloc, told, given)
    }

    /// Takes so many steps, or fewer where it ends or says this line before. Once it has ended, one step gives its end again.
    pub fn steps<R: Threads + Sync>(
        &mut self,
        rt: &R,
        world: &mut World,
        count: u64,
        till: &str,
    ) -> Result<Told, AllocError> {
        let alloc = world.alloc;
        self.set(world.second);
        let rule = Pipeline {
            queue: Some(self.queue.copy()?),
            role: Role::Worker,
        };
        let (files, fails) = (world.take_files(), world.take_fails());
        let mut store = MemStore::new(alloc, rule, files, fails)?;
        let mut told = Told::of(alloc, "")?;
        for _ in 0..count {
            self.step(rt, alloc, &mut store, &mut told)?;
            if self.worker.ended() || (!till.is_empty() && told.out.as_str().ends_with(till)) {
                break;
            }
        }
        told.answer = String::from_str(alloc, self.answer())?;
        told.steps = steps_text(alloc, store.steps())?;
        world.files = store.into_files();
        Ok(told)
    }
}

//! A worker: what it has noted and where it stands, and its steps.
ghost use Rattle.std.specs.Prelude.{◌≡◌, ◌≤◌, ◌<◌, [], Some, true, false, IfOk, IfErr};
ghost use Rattle.ig_defs.specs.Causes.{Rose};
ghost use Rattle.ig_task.specs.Pipeline.{is_allowed};
ghost use Rattle.ig_worker.specs.declared.error.WorkerError.TheVariants as worker;
ghost use Rattle.ig_worker.specs.declared.phase.Phase.TheVariants.{Starting};
ghost use Rattle.ig_defs.specs.Log.{files_of};
ghost use Rattle.ig_rule.specs.Sound.{Legal};
ghost use Rattle.ig_task.specs.Facts.{stage_reader};
ghost use Rattle.ig_worker.specs.Knows.{Knows};
ghost use Rattle.ig_worker.specs.Left.{is_over, left_of};
ghost use Rattle.ig_worker.specs.Places.{stands};
ghost use Rattle.ig_worker.specs.Plans.{HasLimits};
ghost use Rattle.ig_worker.specs.Steps.{Stepped, is_last};

use crate::steps::{advance, is_over};
use crate::{Notes, Phase, Plan, Records, Turn, WorkerError};
use ig_store::{Clock, Store};
use ig_task::Pipeline;
use std::alloc::{AllocError, Global};
use std::marker::Model;
use std::mem;
use std::thread::Threads;

/// A worker on a queue, seen by contracts as what it has noted and where it stands.
#[derive(Drop)]
pub struct Worker {
    alloc: Global,
    notes: Notes,
    phase: Phase,
}

impl Model for Worker {
    ghost use Rattle.ig_worker.specs.Places.{State, stands};
    ghost use Rattle.ig_worker.specs.Fit.{IsFit};

    ghost Value = { State };

    ghost view = { λ w. stands w.notes w.phase };

    ghost invariant = { λ w. IsFit (stands w.notes w.phase) };
}

impl Worker {
    /// A worker that has done nothing yet.
    pub fn start(alloc: Global, plan: Plan) -> Result<Worker, AllocError>
        requires { HasLimits plan }
        ensures { IfOk result (λ worker. worker ≡ stands (record { plan = plan; known = []; at = 0; tried = 0 }) Starting) }
    {
        let notes = Notes {
            plan,
            known: Records::new(alloc),
            at: 0,
            tried: 0,
        };
        Ok(Worker {
            alloc,
            notes,
            phase: Phase::Starting,
        })
    }

    /// Whether an end or an error was given.
    pub fn ended(&self) -> bool
        ensures { result ≡ is_over self.now.phase }
    {
        is_over(&self.phase)
    }

    /// One step: at most one call on the store, and what is to be said of it.
    pub fn step<R: Threads + Sync, S: Store<Pipeline>, C: Clock>(
        &mut self,
        _rt: &R,
        store: &mut S,
        clock: &mut C,
    ) -> Result<Turn, WorkerError>
        requires time { self.old.notes.at ≤ C.last clock.old }
        ensures rule { S.rule store.new ≡ S.rule store.old }
        ensures later { S.faults store.old ≤ S.faults store.new }
        ensures failed { is_over self.old.phase ≡ false → IfErr result (λ e. e ≡ worker.Failed → Rose (S.faults store.old) (S.faults store.new)) }
        ensures plan { self.new.notes.plan ≡ self.old.notes.plan }
        ensures time { C.last clock.old ≤ C.last clock.new }
        ensures at { self.new.notes.at ≤ C.last clock.new }
        ensures steps { S.tells → Stepped (is_allowed (S.rule store.old)) (C.last clock.old) (C.last clock.new) self.old (S.log store.old) (S.log store.new) self.new result }
        ensures left { is_over self.old.phase ≡ false → left_of self.new < left_of self.old }
        ensures over { is_over self.new.phase ≡ is_last result }
        ensures legal { S.tells → (S.rule store.old).queue ≡ Some self.old.notes.plan.queue → Legal stage_reader self.old.notes.plan.queue (S.log store.old) → Knows self.old (files_of (S.log store.old)) → Legal stage_reader self.old.notes.plan.queue (S.log store.new) }
        ensures known { S.tells → (S.rule store.old).queue ≡ Some self.old.notes.plan.queue → Legal stage_reader self.old.notes.plan.queue (S.log store.old) → Knows self.old (files_of (S.log store.old)) → IfOk result (λ turn. Knows self.new (files_of (S.log store.new))) }
    {
        let phase = mem::replace(&mut self.phase, Phase::Closing);
        let (phase, result) = advance(self.alloc, store, clock, &mut self.notes, phase);
        self.phase = phase;
        result
    }
}

//! The laws of a worker. Each function has no code: its contract is a law.
ghost use Rattle.std.specs.Prelude.{◌<◌, ◌^◌, ℕ, List};
ghost use Rattle.ig_defs.specs.Log.{Log, files_of};
ghost use Rattle.ig_defs.specs.Own.{moments_since};
ghost use Rattle.ig_defs.specs.Turns.{Idled};
ghost use Rattle.ig_rule.specs.declared.role.Role.{Role};
ghost use Rattle.ig_rule.specs.Sound.{Legal};
ghost use Rattle.ig_task.specs.Facts.{stage_reader};
ghost use Rattle.ig_worker.specs.declared.plan.Plan.{Plan};
ghost use Rattle.ig_worker.specs.Finishing.CanFinish.{AreOwn, CanFinish, IsOnItsWay};
ghost use Rattle.ig_worker.specs.Course.{Course, fresh};
ghost use Rattle.ig_worker.specs.Leasing.Leases.{FollowLeases};
ghost use Rattle.ig_worker.specs.Moves.{Move};
ghost use Rattle.ig_worker.specs.Places.{State};
ghost use Rattle.ig_worker.specs.Plans.{HasLimits};
ghost use Rattle.ig_worker.specs.Ending.Standing.{AllowsFor};

/// A worker from its start on, beside which nobody takes a step, ends as `Finished` where nothing keeps it from finishing all
/// tasks of its queue: each of its ends is that one, and it meets no record that isn't there or is none. So it stops before only
/// where memory runs out, or the store fails.
pub fn worker_alone_finishes()
    ensures { (role : Role) (plan : Plan) (from : ℕ) (old : Log) (ms : List Move) (to : ℕ) (next : State) (last new : Log) → HasLimits plan → to < 10 ^ 10 → Legal stage_reader plan.queue old → CanFinish plan from (files_of old) → Course (AllowsFor role plan) from (fresh plan) old ms to next last → Idled (AllowsFor role plan) last new → AreOwn old new → IsOnItsWay next }
{}

/// Each file that a worker puts or takes away follows a lease of its task. The log may be any.
pub fn writes_follow_leases()
    ensures { (role : Role) (plan : Plan) (from : ℕ) (old : Log) (ms : List Move) (to : ℕ) (next : State) (last new : Log) → HasLimits plan → to < 10 ^ 10 → Course (AllowsFor role plan) from (fresh plan) old ms to next last → Idled (AllowsFor role plan) last new → FollowLeases plan from to (moments_since old new) }
{}

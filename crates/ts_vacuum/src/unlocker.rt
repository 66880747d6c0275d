//! The machine of an unlock.
ghost use Rattle.std.specs.Prelude.{◌≡◌};
ghost use Rattle.ts_model.specs.declared.commands.Command.TheVariants.{Unlock};
ghost use Rattle.ts_model.specs.Jobs.{IsFit};
ghost use Rattle.ts_model.specs.Driven.{EndsBy};
ghost use Rattle.ts_actor.specs.Traces.{start};
ghost use Rattle.ts_vacuum.specs.Listers.{Follows, calls_left};
ghost use Rattle.ts_vacuum.specs.Listing.{IsUnlock, list_job};

use crate::steps::Lists;
use std::alloc::Global;
use std::thread::Threads;
use ts_actor::{Actor, Machine, Pieces, Step};
use ts_base::Stop;
use ts_model::{Command, Job, Outcome};
use ts_store::Reply;

/// An unlock on its way: it lists the leases, and removes each whose identifier has another seed in its
/// upper 64 bits than that of its run, or has its own lane. These are the leases of runs that ended
/// without removing them, and of earlier commands of the lane that were stopped.
///
/// It does not look whether a holder is still at work: who asks for it has to know that no other run
/// is. It holds no lease itself. A call that fails ends it with `StoreFault`, and so may want of
/// memory. The leases that it removed before stay removed.
#[derive(Drop)]
pub struct Unlocker<P: Pieces> {
    machine: Machine<Lists<P>>,
}

impl<P: Pieces> Unlocker<P> {
    /// An unlocker for a run with the seed `seed`, in the lane `lane`. It has made no call yet, and
    /// takes no memory. Nothing that it does carries a stamp or an identifier.
    pub fn new(seed: u64, lane: u32) -> Unlocker<P>
        ensures new { Follows P.codec result.machine.job result.machine.phase start }
        ensures task { result.machine.job ≡ list_job (Unlock seed lane) }
    {
        Unlocker::of(Job {
            command: Command::Unlock { seed, lane },
            at: 0,
            id: 0,
            stop: Stop::Never,
        })
    }

    /// An unlocker of a job whose command is an unlock. It has made no call yet, and takes no memory.
    pub fn of(job: Job) -> Unlocker<P>
        requires fit { IsFit job }
        requires kind { IsUnlock job.command }
        ensures new { Follows P.codec result.machine.job result.machine.phase start }
        ensures task { result.machine.job ≡ job }
    {
        Unlocker {
            machine: Machine::of(job),
        }
    }
}

impl<P: Pieces> Actor for Unlocker<P> {
    type Out = Outcome;

    type Task = Job;

    ghost task = { λ unlocker. unlocker.machine.job };

    ghost follows = { λ unlocker t. Follows P.codec unlocker.machine.job unlocker.machine.phase t };

    ghost ends = { λ job past end. EndsBy P.codec job past end };

    ghost measure = { λ unlocker. calls_left unlocker.machine.job unlocker.machine.phase };

    fn next<R: Threads + Sync>(&mut self, rt: &R, alloc: Global, reply: Reply) -> Step<Outcome> {
        self.machine.next(rt, alloc, reply)
    }
}

//! The machine of a vacuum.
ghost use Rattle.std.specs.Prelude.{◌≡◌};
ghost use Rattle.ts_model.specs.Driven.{EndsBy};
ghost use Rattle.ts_model.specs.Jobs.{IsFit};
ghost use Rattle.ts_actor.specs.Traces.{start};
ghost use Rattle.ts_vacuum.specs.Sweeping.{IsVacuum, vacuum_job};
ghost use Rattle.ts_vacuum.specs.Vacuums.{Follows, calls_left};

use crate::sweeps::Sweeps;
use std::alloc::Global;
use std::thread::Threads;
use ts_actor::{Actor, Machine, Pieces, Step};
use ts_base::Stop;
use ts_model::{Command, Job, Outcome};
use ts_store::Reply;

/// A vacuum on its way: it removes the fragments that consolidations replaced.
///
/// It has the store for itself among all that have a lease: where another lease stands, shared or
/// exclusive, it is refused with `Leased`. Then it lists the commits, and the schemas. Where no schema
/// is stamped at its stamp or before, it is refused with `NoSchema`.
///
/// It gets each `.vac` whose fragment is committed, as its listing says. All fragments that these name
/// are to go, and it lists the parts of each, one fragment after the other. A `.vac` whose `.wrt` was
/// not listed says nothing: its consolidation may have been stopped, and its sources stay.
///
/// Then it removes, fragment by fragment in ascending order, the `.wrt`, the parts and the `.vac` of
/// the fragment, and last the `.vac` objects that it got of other fragments. So wherever it is stopped,
/// a fragment that is still committed has all its parts, and all that went into one that was to go is
/// in a committed fragment that stays. It ends with the number of fragments that were to go, those
/// that were gone before among them.
///
/// A call that fails ends it with `StoreFault`, a `.vac` that is not there any more with `Missing`, and
/// one that breaks its layout with `Damaged`. It takes all its memory before its first removal.
#[derive(Drop)]
pub struct Vacuum<P: Pieces> {
    machine: Machine<Sweeps<P>>,
}

impl<P: Pieces> Vacuum<P> {
    /// A vacuum with the stamp `at`, in milliseconds since 1970-01-01, and the identifier `id`, which
    /// its lease has. It has made no call yet, and takes no memory.
    pub fn new(at: u64, id: u128) -> Vacuum<P>
        ensures new { Follows P.codec result.machine.job result.machine.phase start }
        ensures task { result.machine.job ≡ vacuum_job at id }
    {
        Vacuum::of(Job {
            command: Command::Vacuum,
            at,
            id,
            stop: Stop::Never,
        })
    }

    /// A vacuum of a job whose command is one. It has made no call yet, and takes no memory.
    pub fn of(job: Job) -> Vacuum<P>
        requires fit { IsFit job }
        requires kind { IsVacuum job.command }
        ensures new { Follows P.codec result.machine.job result.machine.phase start }
        ensures task { result.machine.job ≡ job }
    {
        Vacuum {
            machine: Machine::of(job),
        }
    }
}

impl<P: Pieces> Actor for Vacuum<P> {
    type Out = Outcome;

    type Task = Job;

    ghost task = { λ vacuum. vacuum.machine.job };

    ghost follows = { λ vacuum t. Follows P.codec vacuum.machine.job vacuum.machine.phase t };

    ghost ends = { λ job past end. EndsBy P.codec job past end };

    ghost measure = { λ vacuum. calls_left vacuum.machine.job vacuum.machine.phase };

    fn next<R: Threads + Sync>(&mut self, rt: &R, alloc: Global, reply: Reply) -> Step<Outcome> {
        self.machine.next(rt, alloc, reply)
    }
}

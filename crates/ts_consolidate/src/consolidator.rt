//! The machine of a consolidation.
ghost use Rattle.std.specs.Prelude.{◌≡◌, IsTrue};
ghost use Rattle.ts_model.specs.declared.commands.Command.TheVariants.{Consolidate};
ghost use Rattle.ts_model.specs.Commands.{fits};
ghost use Rattle.ts_model.specs.Driven.{EndsBy};
ghost use Rattle.ts_model.specs.Jobs.{IsFit};
ghost use Rattle.ts_actor.specs.Traces.{start};
ghost use Rattle.ts_consolidate.specs.Consolidators.{Follows, calls_left};
ghost use Rattle.ts_consolidate.specs.Merges.{IsConsolidate, merge_job};

use crate::steps::Merges;
use std::alloc::Global;
use std::thread::Threads;
use ts_actor::{Actor, Machine, Pieces, Step};
use ts_base::Stop;
use ts_commit::Limits;
use ts_model::{Command, Job, Outcome};
use ts_store::Reply;

/// A consolidation on its way, whose pieces are written and read the way of `P`.
///
/// It shares the store with reads and other consolidations: where a lease stands that excludes its own
/// one, it is refused with `Leased`. Then it lists the commits and the schemas. Where no schema is
/// stamped at its stamp or before, it is refused with `NoSchema`.
///
/// It gets the frame, the `.vac` objects of committed fragments, the head of each committed fragment
/// in its interval, and the schemas that these heads name. By these it plans what to merge, as
/// [`ts_commit::plan`] says: fragments of one schema that no `.vac` names. Where the plan takes
/// nothing, it is refused with `NothingToDo`, which tells how many fragments it could choose from.
///
/// It fetches all versions of one source after the other, and merges them as
/// [`merge_pieces`](crate::merge_pieces) says. Then it puts the parts of the new fragment, the `.vac`
/// that names its sources and all that their own `.vac` objects name, and last the `.wrt`. From that
/// put on readers use the new fragment in place of its sources, which stay where they are.
///
/// A call that fails ends it with `StoreFault`, a put that finds its name taken with `Taken`, a get of
/// an object that is not there with `Missing`, and an object that breaks its layout with `Damaged`.
/// Versions of all sources are in memory at once: at most 2^24 values by the plan.
#[derive(Drop)]
pub struct Consolidator<P: Pieces> {
    machine: Machine<Merges<P>>,
}

impl<P: Pieces> Consolidator<P> {
    /// A consolidator of fragments whose timestamps lie in the interval from `from` to `to`, both ends
    /// included, with the stamp `at`, all in milliseconds since 1970-01-01, and the identifier `id`,
    /// which the new fragment has. It has made no call yet, and takes no memory.
    pub fn new(at: u64, id: u128, from: u64, to: u64, limits: Limits) -> Consolidator<P>
        requires { IsTrue (fits (Consolidate from to limits)) }
        ensures new { Follows P.codec result.machine.job result.machine.phase start }
        ensures task { result.machine.job ≡ merge_job at id from to limits }
    {
        Consolidator::of(Job {
            command: Command::Consolidate { from, to, limits },
            at,
            id,
            stop: Stop::Never,
        })
    }

    /// A consolidator of a job whose command is a consolidation. It has made no call yet, and takes no
    /// memory.
    pub fn of(job: Job) -> Consolidator<P>
        requires fit { IsFit job }
        requires kind { IsConsolidate job.command }
        ensures new { Follows P.codec result.machine.job result.machine.phase start }
        ensures task { result.machine.job ≡ job }
    {
        Consolidator {
            machine: Machine::of(job),
        }
    }
}

impl<P: Pieces> Actor for Consolidator<P> {
    type Out = Outcome;

    type Task = Job;

    ghost task = { λ consolidator. consolidator.machine.job };

    ghost follows = { λ consolidator t. Follows P.codec consolidator.machine.job consolidator.machine.phase t };

    ghost ends = { λ job past end. EndsBy P.codec job past end };

    ghost measure = { λ consolidator. calls_left P.left consolidator.machine.job consolidator.machine.phase };

    fn next<R: Threads + Sync>(&mut self, rt: &R, alloc: Global, reply: Reply) -> Step<Outcome> {
        self.machine.next(rt, alloc, reply)
    }
}

//! The machine that lists the commits.
ghost use Rattle.std.specs.Prelude.{◌≡◌};
ghost use Rattle.ts_model.specs.declared.commands.Command.TheVariants.{Fragments};
ghost use Rattle.ts_model.specs.Jobs.{IsFit};
ghost use Rattle.ts_model.specs.Driven.{EndsBy};
ghost use Rattle.ts_actor.specs.Traces.{start};
ghost use Rattle.ts_vacuum.specs.Listers.{Follows, calls_left};
ghost use Rattle.ts_vacuum.specs.Listing.{IsFragments, list_job};

use crate::steps::Lists;
use std::alloc::Global;
use std::thread::Threads;
use ts_actor::{Actor, Machine, Pieces, Step};
use ts_base::Stop;
use ts_model::{Command, Job, Outcome};
use ts_store::Reply;

/// A lister on its way: it lists the commits, and answers with their names, ascending. These are the
/// `.wrt` of each committed fragment, the `.del` of each delete, and the `.vac` of each consolidation,
/// also of one that was stopped before its `.wrt`.
///
/// It holds no lease. It is refused where its call fails, with `StoreFault`.
#[derive(Drop)]
pub struct Lister<P: Pieces> {
    machine: Machine<Lists<P>>,
}

impl<P: Pieces> Lister<P> {
    /// A lister. It has made no call yet, and takes no memory. Nothing that it does carries a stamp or
    /// an identifier.
    pub fn new() -> Lister<P>
        ensures new { Follows P.codec result.machine.job result.machine.phase start }
        ensures task { result.machine.job ≡ list_job Fragments }
    {
        Lister::of(Job {
            command: Command::Fragments,
            at: 0,
            id: 0,
            stop: Stop::Never,
        })
    }

    /// A lister of a job whose command is `fragments`. It has made no call yet, and takes no memory.
    pub fn of(job: Job) -> Lister<P>
        requires fit { IsFit job }
        requires kind { IsFragments job.command }
        ensures new { Follows P.codec result.machine.job result.machine.phase start }
        ensures task { result.machine.job ≡ job }
    {
        Lister {
            machine: Machine::of(job),
        }
    }
}

impl<P: Pieces> Actor for Lister<P> {
    type Out = Outcome;

    type Task = Job;

    ghost task = { λ lister. lister.machine.job };

    ghost follows = { λ lister t. Follows P.codec lister.machine.job lister.machine.phase t };

    ghost ends = { λ job past end. EndsBy P.codec job past end };

    ghost measure = { λ lister. calls_left lister.machine.job lister.machine.phase };

    fn next<R: Threads + Sync>(&mut self, rt: &R, alloc: Global, reply: Reply) -> Step<Outcome> {
        self.machine.next(rt, alloc, reply)
    }
}

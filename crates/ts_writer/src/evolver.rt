//! The machine of an evolve.
ghost use Rattle.std.specs.Prelude.{◌≡◌, IsTrue};
ghost use Rattle.ts_model.specs.declared.commands.Command.TheVariants.{Evolve};
ghost use Rattle.ts_model.specs.Commands.{fits};
ghost use Rattle.ts_model.specs.Jobs.{IsFit};
ghost use Rattle.ts_model.specs.Driven.{EndsBy};
ghost use Rattle.ts_actor.specs.Traces.{start};
ghost use Rattle.ts_writer.specs.Evolvers.{Follows, calls_left};
ghost use Rattle.ts_writer.specs.Writing.{IsEvolve, job_for};

use crate::evolving::Evolves;
use crate::making::Making;
use std::alloc::Global;
use std::thread::Threads;
use ts_actor::{Actor, Machine, Pieces, Step};
use ts_base::Stop;
use ts_model::{Command, Job, Outcome};
use ts_schema::Evolution;
use ts_store::Reply;

/// An evolve on its way: it finds the schema that holds at its stamp, gets it and the frame, and puts
/// the schema after its change.
///
/// Where no schema is stamped at its stamp or before, it is refused with `NoSchema`; where the change
/// does not go with that schema, with the fault.
#[derive(Drop)]
pub struct Evolver<P: Pieces> {
    machine: Machine<Making<Evolves<P>>>,
}

impl<P: Pieces> Evolver<P> {
    /// An evolver that makes the change `change`, with the stamp `at`, in milliseconds since
    /// 1970-01-01, and the identifier `id`. It has made no call yet, and takes no memory.
    pub fn new(at: u64, id: u128, change: Evolution) -> Evolver<P>
        requires { IsTrue (fits (Evolve change)) }
        ensures new { Follows P.codec result.machine.job result.machine.phase start }
        ensures task { result.machine.job ≡ job_for at id (Evolve change) }
    {
        Evolver::of(Job {
            command: Command::Evolve(change),
            at,
            id,
            stop: Stop::Never,
        })
    }

    /// An evolver of a job whose command is an evolve. It has made no call yet, and takes no memory.
    pub fn of(job: Job) -> Evolver<P>
        requires fit { IsFit job }
        requires kind { IsEvolve job.command }
        ensures new { Follows P.codec result.machine.job result.machine.phase start }
        ensures task { result.machine.job ≡ job }
    {
        Evolver {
            machine: Machine::of(job),
        }
    }
}

impl<P: Pieces> Actor for Evolver<P> {
    type Out = Outcome;

    type Task = Job;

    ghost task = { λ evolver. evolver.machine.job };

    ghost follows = { λ evolver t. Follows P.codec evolver.machine.job evolver.machine.phase t };

    ghost ends = { λ job past end. EndsBy P.codec job past end };

    ghost measure = { λ evolver. calls_left evolver.machine.job evolver.machine.phase };

    fn next<R: Threads + Sync>(&mut self, rt: &R, alloc: Global, reply: Reply) -> Step<Outcome> {
        self.machine.next(rt, alloc, reply)
    }
}

//! The machine of a delete.
ghost use Rattle.std.specs.Prelude.{◌≡◌, IsTrue};
ghost use Rattle.ts_model.specs.declared.commands.Command.TheVariants.{Delete};
ghost use Rattle.ts_model.specs.Commands.{fits};
ghost use Rattle.ts_model.specs.Jobs.{IsFit};
ghost use Rattle.ts_model.specs.Driven.{EndsBy};
ghost use Rattle.ts_actor.specs.Traces.{start};
ghost use Rattle.ts_writer.specs.Deleters.{Follows, calls_left};
ghost use Rattle.ts_writer.specs.Writing.{IsDelete, job_for};

use crate::deleting::Deletes;
use crate::making::Making;
use std::alloc::Global;
use std::thread::Threads;
use ts_actor::{Actor, Machine, Pieces, Step};
use ts_base::{ByteList, Stop};
use ts_model::{Command, Job, Outcome};
use ts_store::Reply;

/// A delete on its way: it finds the schema that holds at its stamp, gets it and the frame, and puts
/// the condition as its `.del` object.
///
/// Where no schema is stamped at its stamp or before, it is refused with `NoSchema`; where the array is
/// dense, with `DenseArray`; where the text is no condition over the fields of the array in that schema,
/// with the fault.
#[derive(Drop)]
pub struct Deleter<P: Pieces> {
    machine: Machine<Making<Deletes<P>>>,
}

impl<P: Pieces> Deleter<P> {
    /// A deleter of the cells that match the condition with the text `text`, with the stamp `at`, in
    /// milliseconds since 1970-01-01, and the identifier `id`. It has made no call yet, and takes no
    /// memory.
    pub fn new(at: u64, id: u128, text: ByteList) -> Deleter<P>
        requires { IsTrue (fits (Delete text)) }
        ensures new { Follows P.codec result.machine.job result.machine.phase start }
        ensures task { result.machine.job ≡ job_for at id (Delete text) }
    {
        Deleter::of(Job {
            command: Command::Delete(text),
            at,
            id,
            stop: Stop::Never,
        })
    }

    /// A deleter of a job whose command is a delete. It has made no call yet, and takes no memory.
    pub fn of(job: Job) -> Deleter<P>
        requires fit { IsFit job }
        requires kind { IsDelete job.command }
        ensures new { Follows P.codec result.machine.job result.machine.phase start }
        ensures task { result.machine.job ≡ job }
    {
        Deleter {
            machine: Machine::of(job),
        }
    }
}

impl<P: Pieces> Actor for Deleter<P> {
    type Out = Outcome;

    type Task = Job;

    ghost task = { λ deleter. deleter.machine.job };

    ghost follows = { λ deleter t. Follows P.codec deleter.machine.job deleter.machine.phase t };

    ghost ends = { λ job past end. EndsBy P.codec job past end };

    ghost measure = { λ deleter. calls_left deleter.machine.job deleter.machine.phase };

    fn next<R: Threads + Sync>(&mut self, rt: &R, alloc: Global, reply: Reply) -> Step<Outcome> {
        self.machine.next(rt, alloc, reply)
    }
}

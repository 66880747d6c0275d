//! The machine of a create.
ghost use Rattle.std.specs.Prelude.{◌≡◌, IsTrue};
ghost use Rattle.ts_model.specs.declared.commands.Command.TheVariants.{Create};
ghost use Rattle.ts_model.specs.Commands.{fits};
ghost use Rattle.ts_model.specs.Jobs.{IsFit};
ghost use Rattle.ts_model.specs.Driven.{EndsBy};
ghost use Rattle.ts_actor.specs.Traces.{start};
ghost use Rattle.ts_writer.specs.Creators.{Follows, calls_left};
ghost use Rattle.ts_writer.specs.Writing.{IsCreate, job_for};

use crate::creating::Creates;
use std::alloc::Global;
use std::thread::Threads;
use ts_actor::{Actor, Machine, Pieces, Step};
use ts_base::Stop;
use ts_model::{Command, FrameIn, Job, Outcome};
use ts_store::Reply;

/// A create on its way: it puts the frame and then, where that was made, its first schema.
///
/// Dimensions and attributes that no array has are refused before any call. Where the frame's name
/// is taken, the create gets what is there: another frame is refused with `ArrayExists`, and so is
/// its own where any schema is listed; its own frame alone is what a create that was cut off leaves,
/// and the first schema is put.
#[derive(Drop)]
pub struct Creator<P: Pieces> {
    machine: Machine<Creates<P>>,
}

impl<P: Pieces> Creator<P> {
    /// A creator of the array `frame`, with the stamp `at`, in milliseconds since 1970-01-01, and the
    /// identifier `id`. It has made no call yet, and takes no memory.
    pub fn new(at: u64, id: u128, frame: FrameIn) -> Creator<P>
        requires { IsTrue (fits (Create frame)) }
        ensures new { Follows P.codec result.machine.job result.machine.phase start }
        ensures task { result.machine.job ≡ job_for at id (Create frame) }
    {
        Creator::of(Job {
            command: Command::Create(frame),
            at,
            id,
            stop: Stop::Never,
        })
    }

    /// A creator of a job whose command is a create. It has made no call yet, and takes no memory.
    pub fn of(job: Job) -> Creator<P>
        requires fit { IsFit job }
        requires kind { IsCreate job.command }
        ensures new { Follows P.codec result.machine.job result.machine.phase start }
        ensures task { result.machine.job ≡ job }
    {
        Creator {
            machine: Machine::of(job),
        }
    }
}

impl<P: Pieces> Actor for Creator<P> {
    type Out = Outcome;

    type Task = Job;

    ghost task = { λ creator. creator.machine.job };

    ghost follows = { λ creator t. Follows P.codec creator.machine.job creator.machine.phase t };

    ghost ends = { λ job past end. EndsBy P.codec job past end };

    ghost measure = { λ creator. calls_left creator.machine.job creator.machine.phase };

    fn next<R: Threads + Sync>(&mut self, rt: &R, alloc: Global, reply: Reply) -> Step<Outcome> {
        self.machine.next(rt, alloc, reply)
    }
}

//! The actor of any command.
ghost use Rattle.std.specs.Prelude.{◌≡◌};
ghost use Rattle.ts_model.specs.Jobs.{IsFit};
ghost use Rattle.ts_model.specs.Driven.{EndsBy};
ghost use Rattle.ts_actor.specs.Traces.{start};
ghost use Rattle.ts_commands.specs.Actors.{job_of, Follows, calls_left};

use std::alloc::Global;
use std::thread::Threads;
use ts_actor::{Actor, Pieces, Step};
use ts_consolidate::Consolidator;
use ts_model::{Command, Job, Outcome};
use ts_reader::Reader;
use ts_store::Reply;
use ts_vacuum::{Lister, Unlocker, Vacuum};
use ts_writer::{Creator, Deleter, Evolver, Writer};

/// An actor that does the job of a command, whichever it is, over one way to write fragments.
#[derive(Drop)]
pub enum AnyActor<P: Pieces> {
    /// One that makes the array.
    Creator(Creator<P>),
    /// One that declares a schema.
    Evolver(Evolver<P>),
    /// One that writes.
    Writer(Writer<P>),
    /// One that deletes.
    Deleter(Deleter<P>),
    /// One that reads.
    Reader(Reader<P>),
    /// One that merges fragments.
    Consolidator(Consolidator<P>),
    /// One that removes the fragments that consolidations replaced.
    Vacuum(Vacuum<P>),
    /// One that removes leases.
    Unlocker(Unlocker<P>),
    /// One that lists the commits.
    Lister(Lister<P>),
}

impl<P: Pieces> AnyActor<P> {
    /// The actor of a job. It has made no call yet, and takes no memory.
    pub fn of(job: Job) -> AnyActor<P>
        requires { IsFit job }
        ensures task { job_of result ≡ job }
        ensures new { Follows P.codec result start }
    {
        match &job.command {
            Command::Create(_) => AnyActor::Creator(Creator::of(job)),
            Command::Evolve(_) => AnyActor::Evolver(Evolver::of(job)),
            Command::Write(_) => AnyActor::Writer(Writer::of(job)),
            Command::Delete(_) => AnyActor::Deleter(Deleter::of(job)),
            Command::Read { .. } => AnyActor::Reader(Reader::of(job)),
            Command::Consolidate { .. } => AnyActor::Consolidator(Consolidator::of(job)),
            Command::Vacuum => AnyActor::Vacuum(Vacuum::of(job)),
            Command::Unlock { .. } => AnyActor::Unlocker(Unlocker::of(job)),
            Command::Fragments => AnyActor::Lister(Lister::of(job)),
        }
    }
}

impl<P: Pieces> Actor for AnyActor<P> {
    type Out = Outcome;

    type Task = Job;

    ghost task = { job_of };

    ghost follows = { Follows P.codec };

    ghost ends = { λ job past end. EndsBy P.codec job past end };

    ghost measure = { calls_left P.left };

    fn next<R: Threads + Sync>(&mut self, rt: &R, alloc: Global, reply: Reply) -> Step<Outcome> {
        match self {
            AnyActor::Creator(creator) => creator.next(rt, alloc, reply),
            AnyActor::Evolver(evolver) => evolver.next(rt, alloc, reply),
            AnyActor::Writer(writer) => writer.next(rt, alloc, reply),
            AnyActor::Deleter(deleter) => deleter.next(rt, alloc, reply),
            AnyActor::Reader(reader) => reader.next(rt, alloc, reply),
            AnyActor::Consolidator(consolidator) => consolidator.next(rt, alloc, reply),
            AnyActor::Vacuum(vacuum) => vacuum.next(rt, alloc, reply),
            AnyActor::Unlocker(unlocker) => unlocker.next(rt, alloc, reply),
            AnyActor::Lister(lister) => lister.next(rt, alloc, reply),
        }
    }
}

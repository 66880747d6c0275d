//! The machine of a write.
ghost use Rattle.std.specs.Prelude.{◌≡◌, IsTrue};
ghost use Rattle.ts_model.specs.declared.commands.Command.TheVariants.{Write};
ghost use Rattle.ts_model.specs.Commands.{fits};
ghost use Rattle.ts_model.specs.Jobs.{IsFit};
ghost use Rattle.ts_model.specs.Driven.{EndsBy};
ghost use Rattle.ts_actor.specs.Traces.{start};
ghost use Rattle.ts_writer.specs.Writers.{Follows, calls_left};
ghost use Rattle.ts_writer.specs.Writing.{IsWrite, job_for};

use crate::making::Making;
use crate::writing::Writes;
use std::alloc::Global;
use std::thread::Threads;
use ts_actor::{Actor, Machine, Pieces, Step};
use ts_base::Stop;
use ts_model::{Command, Job, Outcome, WriteIn};
use ts_store::Reply;

/// A write on its way, whose pieces are written the way of `P`: it finds the schema that holds at its
/// stamp, gets it and the frame, puts the parts of its fragment and then, where those were made, the
/// `.wrt` by which the fragment is committed.
///
/// Where no schema is stamped at its stamp or before, it is refused with `NoSchema`. Columns and boxes
/// that no write to the array has, and cells outside the domain or at one place, are refused before any
/// put; `new` says with what. A call that fails, a put that finds its name taken, and an object that is
/// not there or breaks its layout end the write with the refusal that says so.
#[derive(Drop)]
pub struct Writer<P: Pieces> {
    machine: Machine<Making<Writes<P>>>,
}

impl<P: Pieces> Writer<P> {
    /// A writer of the cells of `cells`, with the stamp `at`, in milliseconds since 1970-01-01, and
    /// the identifier `id`. It has made no call yet, and takes no memory.
    ///
    /// A write to a sparse array has a column for each dimension and for each attribute, each as long
    /// as that of the first dimension. It is refused for the first of these: with `SchemaClash` for the
    /// first name of a box, if it has any; for the first dimension, and then the first attribute,
    /// without a column that fits it; and for the first column that is of neither; with `Domain` for
    /// the first coordinate outside the domain, cell by cell; with `DuplicateCell` for the first cell
    /// whose coordinates came earlier; and with `TooMany` for more than 2^20 cells.
    ///
    /// A write to a dense array has a column for each attribute alone, with a value for each cell of
    /// the box, in row or column order; a dimension that the box does not name has its whole domain.
    /// It is refused for the first of these: with `SchemaClash` for the first attribute without a
    /// column that fits it; for the first name of the box that is no dimension; and for the first
    /// column of no attribute; with `Domain` for the first bound of the box outside the domain; and
    /// with `TooMany` for a box of more than 2^20 cells.
    pub fn new(at: u64, id: u128, cells: WriteIn) -> Writer<P>
        requires { IsTrue (fits (Write cells)) }
        ensures new { Follows P.codec result.machine.job result.machine.phase start }
        ensures task { result.machine.job ≡ job_for at id (Write cells) }
    {
        Writer::of(Job {
            command: Command::Write(cells),
            at,
            id,
            stop: Stop::Never,
        })
    }

    /// A writer of a job whose command is a write. It has made no call yet, and takes no memory.
    pub fn of(job: Job) -> Writer<P>
        requires fit { IsFit job }
        requires kind { IsWrite job.command }
        ensures new { Follows P.codec result.machine.job result.machine.phase start }
        ensures task { result.machine.job ≡ job }
    {
        Writer {
            machine: Machine::of(job),
        }
    }
}

impl<P: Pieces> Actor for Writer<P> {
    type Out = Outcome;

    type Task = Job;

    ghost task = { λ w. w.machine.job };

    ghost follows = { λ w t. Follows P.codec w.machine.job w.machine.phase t };

    ghost ends = { λ job past end. EndsBy P.codec job past end };

    ghost measure = { λ w. calls_left w.machine.job w.machine.phase };

    fn next<R: Threads + Sync>(&mut self, rt: &R, alloc: Global, reply: Reply) -> Step<Outcome> {
        self.machine.next(rt, alloc, reply)
    }
}

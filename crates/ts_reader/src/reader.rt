//! The machine of a read.
ghost use Rattle.std.specs.Prelude.{◌≡◌, IsTrue};
ghost use Rattle.ts_model.specs.declared.commands.Command.TheVariants.{Read};
ghost use Rattle.ts_model.specs.Commands.{fits};
ghost use Rattle.ts_model.specs.Driven.{EndsBy};
ghost use Rattle.ts_actor.specs.Traces.{start};
ghost use Rattle.ts_reader.specs.Readers.{Follows, calls_left};
ghost use Rattle.ts_reader.specs.Reading.{IsReadJob, read_job};

use crate::steps::Reads;
use std::alloc::Global;
use std::thread::Threads;
use ts_actor::{Actor, Machine, Pieces, Step};
use ts_base::Stop;
use ts_cond::Query;
use ts_model::{Command, Job, Outcome};
use ts_store::Reply;

/// A read on its way: it lists the commits and then the schemas, gets the schema that holds at the
/// end of its interval, the frame, the head of each committed fragment whose span meets the
/// interval, the further schemas that the heads name, and the deletes that are stamped in the
/// interval. Then it fetches what lies in its box of one fragment after the other. What is left of
/// these is the newest version of each cell, unless a delete with a greater key matches that version
/// under its own schema; each row that is left is shown through the schema that holds. A sparse array
/// shows these cells alone. A dense one shows every cell of the box, and where nothing is left the
/// fill of each attribute of the schema that holds. The query selects among the cells that are shown,
/// so its filter sees the fills too.
///
/// A call that fails, an object that is not there and one that breaks its layout each end the read
/// with the refusal that says so; so does an interval at whose end no schema holds. Once the frame is
/// got a query may be refused: for a dimension or field that there is not, for a bound outside, with
/// `TooMany` where the array is dense and the box has more than 2^20 cells, and then for its filter.
#[derive(Drop)]
pub struct Reader<P: Pieces> {
    machine: Machine<Reads<P>>,
}

impl<P: Pieces> Reader<P> {
    /// A reader of what `query` asks for in the interval from `from` to `to`, both ends included, with
    /// the stamp `at`, all in milliseconds since 1970-01-01, and the identifier `id`. It has made no
    /// call yet, and takes no memory.
    pub fn new(at: u64, id: u128, from: u64, to: u64, query: Query) -> Reader<P>
        requires { IsTrue (fits (Read from to query)) }
        ensures new { Follows P.codec result.machine.job result.machine.phase start }
        ensures task { result.machine.job ≡ read_job at id from to query }
    {
        Reader::of(Job {
            command: Command::Read { from, to, query },
            at,
            id,
            stop: Stop::Never,
        })
    }

    /// A reader of a job whose command is a read. It has made no call yet, and takes no memory.
    pub fn of(job: Job) -> Reader<P>
        requires { IsReadJob job }
        ensures new { Follows P.codec result.machine.job result.machine.phase start }
        ensures task { result.machine.job ≡ job }
    {
        Reader {
            machine: Machine::of(job),
        }
    }
}

impl<P: Pieces> Actor for Reader<P> {
    type Out = Outcome;

    type Task = Job;

    ghost task = { λ reader. reader.machine.job };

    ghost follows = { λ reader t. Follows P.codec reader.machine.job reader.machine.phase t };

    ghost ends = { λ job past end. EndsBy P.codec job past end };

    ghost measure = { λ reader. calls_left P.left reader.machine.job reader.machine.phase };

    fn next<R: Threads + Sync>(&mut self, rt: &R, alloc: Global, reply: Reply) -> Step<Outcome> {
        self.machine.next(rt, alloc, reply)
    }
}

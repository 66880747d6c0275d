//! How a read goes: the call that it makes next, and where the reply leads it.
ghost use Rattle.std.specs.Prelude.{◌≡◌, ◌≢◌, ◌<◌, true, None, option_map, slice_get, length, All, IfOk, IfSome, OnErr};
ghost use Rattle.std.specs.Thread.{IsSync};
ghost use Rattle.ts_store.specs.Calls.{IsSpelledReply};
ghost use Rattle.ts_actor.specs.Fetches.{IsWorkCall};
ghost use Rattle.ts_actor.specs.Machines.{work_spares};
ghost use Rattle.ts_model.specs.States.{asks, collect_asks, collect_goes, get_delete, goes, takes_memory};
ghost use Rattle.ts_reader.specs.Reading.{AreListed, IsCollecting, IsReadJob, IsReadState, MayCollect, MayRead, collect_left, collects_left, reads_left};
ghost use Rattle.ts_actor.specs.Listings.{IsSpelledDelete};

use crate::fetching::{Gathered, OngoingFetch, after_fetched};
use crate::getting_deletes::after_delete_reply;
use crate::getting_vacs::after_vac_reply;
use crate::listing::look_into;
use crate::opening::{after_further, after_head_reply, begin_reading};
use std::alloc::Global;
use std::marker::PhantomData;
use std::thread::Threads;
use ts_actor::{
    Automaton, Pieces, Works, ask_seeking, get_all, go_seeking, head_asked, schema_asked, vac_asked,
};
use ts_base::{CommitKind, Duplicate, Name, OutOfMemory};
use ts_model::{Collecting, Command, Job, Listed, Reading, Seeking, State};
use ts_schema::{Frame, Schema};
use ts_store::{Call, Reply};

/// The automaton of reads, where pieces are read so.
#[derive(Drop)]
pub struct Reads<P> {
    pieces: PhantomData<P>,
}

impl<P: Pieces> Automaton for Reads<P> {
    type Fetch = P::Fetch;

    ghost codec = { P.codec };

    ghost serves = { IsReadJob };

    ghost may = { MayRead P.codec };

    ghost left = { reads_left P.left };

    ghost ends = { λ job end. tt };

    ghost calls = { λ job c. IsWorkCall c };

    ghost spares = { work_spares IsReadJob };

    fn begin(_alloc: Global, job: &Job) -> State<P::Fetch> {
        match &job.command {
            Command::Read {
                from: _,
                to: _,
                query: _,
            } => State::Seeks(Seeking::ListsCommits),
            _ => unreachable!(),
        }
    }

    fn ask(
        alloc: Global,
        _job: &Job,
        state: &State<P::Fetch>,
    ) -> Result<Option<Call>, OutOfMemory> {
        match state {
            State::Seeks(seeking) => Ok(Some(ask_seeking(seeking))),
            State::Collects(collecting) => ask_collecting::<P>(alloc, collecting.get()),
            State::Over(_) => Ok(None),
            _ => unreachable!(),
        }
    }

    fn go<R: Threads + Sync>(
        rt: &R,
        alloc: Global,
        job: &Job,
        state: State<P::Fetch>,
        reply: Reply,
    ) -> Result<State<P::Fetch>, OutOfMemory>
        requires job { IsReadJob job.now }
        requires state { IsReadState P.codec state }
        requires reply { IsSpelledReply reply }
        requires sync { IsSync R.row }
        ensures is { IfOk result (λ next. next ≡ goes P.codec job.now state reply) }
        ensures may { IfOk result (IsReadState P.codec) }
        ensures lacks { OnErr result (takes_memory state ≡ true) }
        ensures fewer { IfOk result (λ next. asks P.codec job.now state ≢ None → reads_left P.left next < reads_left P.left state) }
    {
        match state {
            State::Seeks(seeking) => go_seeking::<Reads<P>, R>(rt, alloc, job, seeking, reply),
            State::Collects(collecting) => {
                go_collecting::<P, R>(rt, alloc, collecting.into_inner(), reply)
            }
            State::Over(end) => Ok(State::Over(end)),
            _ => unreachable!(),
        }
    }
}

impl<P: Pieces> Works for Reads<P> {
    type Fetch = P::Fetch;

    ghost codec = { P.codec };

    ghost serves = { IsReadJob };

    ghost knows = { AreListed };

    ghost may = { MayCollect P.codec };

    ghost left = { collects_left P.left };

    fn look(alloc: Global, job: &Job, names: &[Name]) -> Result<Listed, OutOfMemory> {
        look_into(alloc, &job.command, names)
    }

    fn work<R: Threads + Sync>(
        rt: &R,
        alloc: Global,
        job: &Job,
        listed: Listed,
        frame: Frame,
        current: Schema,
    ) -> Result<State<P::Fetch>, OutOfMemory> {
        begin_reading::<P, R>(rt, alloc, job, listed, frame, current)
    }
}

// The next call of a read that collects.
fn ask_collecting<P: Pieces>(
    alloc: Global,
    collecting: &Collecting<P::Fetch>,
) -> Result<Option<Call>, OutOfMemory>
    requires { IsCollecting P.codec collecting.now }
    ensures is { IfOk result (λ call. call ≡ collect_asks P.codec collecting.now) }
    ensures spelled { IfOk result (λ call. IfSome call IsWorkCall) }
{
    match collecting {
        Collecting::GetsVacs { reading } => {
            let reading = reading.get();
            Ok(vac_asked(&reading.counting, reading.vacs.len()))
        },
        Collecting::GetsHeads { reading, opened } => {
            let reading = reading.get();
            let asked = head_asked::<P>(&reading.frame, &reading.fragments, opened.len());
            Ok(asked)
        }
        Collecting::GetsSchemas {
            reading: _,
            opened: _,
            keys,
            schemas,
        } => Ok(schema_asked(keys, schemas.len())),
        Collecting::GetsDeletes {
            reading,
            opened: _,
            schemas: _,
        } => Ok(delete_asked(reading.get())),
        Collecting::Fetches {
            reading: _,
            opened: _,
            schemas: _,
            next: _,
            frag: _,
            got: _,
            fetch: _,
            asked,
        } => Ok(Some(asked.copy(alloc)?)),
    }
}

// Where a reply leads a read that collects.
fn go_collecting<P: Pieces, R: Threads + Sync>(
    rt: &R,
    alloc: Global,
    collecting: Collecting<P::Fetch>,
    reply: Reply,
) -> Result<State<P::Fetch>, OutOfMemory>
    requires state { IsCollecting P.codec collecting }
    requires reply { IsSpelledReply reply }
    requires sync { IsSync R.row }
    ensures is { IfOk result (λ next. next ≡ collect_goes P.codec collecting reply) }
    ensures may { IfOk result (IsReadState P.codec) }
    ensures fewer { IfOk result (λ next. collect_asks P.codec collecting ≢ None → reads_left P.left next < collect_left P.left collecting) }
{
    match collecting {
        Collecting::GetsVacs { reading } => after_vac_reply::<P, R>(rt, alloc, reading, reply),
        Collecting::GetsHeads { reading, opened } => {
            after_head_reply::<P, R>(rt, alloc, reading, opened, reply)
        }
        Collecting::GetsSchemas {
            reading,
            opened,
            keys,
            schemas,
        } => {
            let gathered = Gathered {
                reading,
                opened,
                schemas,
            };
            after_further::<P, R>(rt, alloc, gathered, keys, reply)
        }
        Collecting::GetsDeletes {
            reading,
            opened,
            schemas,
        } => {
            let gathered = Gathered {
                reading,
                opened,
                schemas,
            };
            after_delete_reply::<P, R>(rt, alloc, gathered, reply)
        }
        Collecting::Fetches {
            reading,
            opened,
            schemas,
            next,
            frag,
            got,
            fetch,
            asked,
        } => {
            let gathered = Gathered {
                reading,
                opened,
                schemas,
            };
            let ongoing = OngoingFetch {
                next,
                frag,
                got,
                fetch,
            };
            after_fetched::<P, R>(rt, alloc, gathered, ongoing, asked, reply)
        }
    }
}

// The get of the next delete, if there is one.
fn delete_asked(reading: &Reading) -> Option<Call>
    requires { All IsSpelledDelete reading.now.delete_names }
    ensures is { result ≡ option_map get_delete (slice_get reading.now.delete_names (length reading.now.deletions)) }
    ensures spelled { IfSome result IsWorkCall }
{
    let place = reading.deletions.len();
    if place < reading.delete_names.len() {
        let name = Name::Commit(*reading.delete_names.at(place), CommitKind::Del);
        Some(get_all(name))
    } else {
        None
    }
}

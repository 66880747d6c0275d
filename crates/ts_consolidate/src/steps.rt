//! How a consolidation goes: the call that it makes next, and where the reply leads it.
ghost use Rattle.std.specs.Prelude.{◌≡◌, ◌≢◌, ◌<◌, true, None, IfOk, IfSome, OnErr};
ghost use Rattle.std.specs.Thread.{IsSync};
ghost use Rattle.ts_store.specs.Calls.{IsSpelledReply};
ghost use Rattle.ts_actor.specs.Fetches.{IsWorkCall};
ghost use Rattle.ts_actor.specs.Machines.{work_spares};
ghost use Rattle.ts_model.specs.Jobs.{looked_at};
ghost use Rattle.ts_model.specs.States.{asks, goes, merge_asks, merge_goes, takes_memory};
ghost use Rattle.ts_consolidate.specs.Merges.{IsMergeJob, IsMergeState, IsMerging, MayMerge, merge_left, merges_left};

use crate::fetching::{SourceFetch, Sources, after_source};
use crate::planning::Surveyed;
use crate::puts::{after_put, next_put};
use crate::surveying::{
    after_commits, after_frame, after_head_reply, after_schema_reply, after_schemas,
    after_vac_reply,
};
use std::alloc::Global;
use std::marker::PhantomData;
use std::thread::Threads;
use ts_actor::{Automaton, Pieces, get_all, head_asked, schema_asked, vac_asked};
use ts_base::{Duplicate, Name, OutOfMemory, Prefix};
use ts_model::{Command, Job, Merging, State};
use ts_store::{Call, Reply};

/// The automaton of consolidations, where pieces are written and read so.
#[derive(Drop)]
pub struct Merges<P> {
    pieces: PhantomData<P>,
}

impl<P: Pieces> Automaton for Merges<P> {
    type Fetch = P::Fetch;

    ghost codec = { P.codec };

    ghost serves = { IsMergeJob };

    ghost may = { MayMerge P.codec };

    ghost left = { merges_left P.left };

    ghost ends = { λ job end. tt };

    ghost calls = { λ job c. IsWorkCall c };

    ghost spares = { work_spares IsMergeJob };

    fn begin(_alloc: Global, job: &Job) -> State<P::Fetch> {
        match &job.command {
            Command::Consolidate {
                from: _,
                to: _,
                limits: _,
            } => State::Merges(Merging::ListsCommits),
            _ => unreachable!(),
        }
    }

    fn ask(
        alloc: Global,
        _job: &Job,
        state: &State<P::Fetch>,
    ) -> Result<Option<Call>, OutOfMemory> {
        match state {
            State::Merges(merging) => ask_merging::<P>(alloc, merging),
            State::Puts {
                objects,
                next,
                end: _,
            } => next_put(alloc, objects, *next),
            State::Over(_) => Ok(None),
            _ => unreachable!(),
        }
    }

    fn go<R: Threads + Sync>(
        rt: &R,
        alloc: Global,
        job: &Job,
        state: State<P::Fetch>,
        reply: Reply,
    ) -> Result<State<P::Fetch>, OutOfMemory>
        requires job { IsMergeJob job.now }
        requires state { IsMergeState P.codec state }
        requires reply { IsSpelledReply reply }
        requires sync { IsSync R.row }
        ensures is { IfOk result (λ next. next ≡ goes P.codec job.now state reply) }
        ensures may { IfOk result (IsMergeState P.codec) }
        ensures lacks { OnErr result (takes_memory state ≡ true) }
        ensures fewer { IfOk result (λ next. asks P.codec job.now state ≢ None → merges_left P.left next < merges_left P.left state) }
    {
        match state {
            State::Merges(merging) => go_merging::<P, R>(rt, alloc, job, merging, reply),
            State::Puts { objects, next, end } => Ok(after_put::<P>(objects, next, end, &reply)),
            State::Over(end) => Ok(State::Over(end)),
            _ => unreachable!(),
        }
    }
}

// The next call of a consolidation that has not come to its puts.
fn ask_merging<P: Pieces>(
    alloc: Global,
    merging: &Merging<P::Fetch>,
) -> Result<Option<Call>, OutOfMemory>
    requires { IsMerging P.codec merging.now }
    ensures is { IfOk result (λ call. call ≡ merge_asks P.codec merging.now) }
    ensures spelled { IfOk result (λ call. IfSome call IsWorkCall) }
{
    match merging {
        Merging::ListsCommits => Ok(Some(Call::List(Prefix::Commits))),
        Merging::ListsSchemas { candidates: _ } => Ok(Some(Call::List(Prefix::Schemas))),
        Merging::GetsFrame { candidates: _ } => Ok(Some(get_all(Name::Domain))),
        Merging::GetsVacs { survey } => Ok(vac_asked(&survey.counting, survey.vacs.len())),
        Merging::GetsHeads { survey, opened } => Ok(head_asked::<P>(
            survey.frame.get(),
            &survey.fragments,
            opened.len(),
        )),
        Merging::GetsSchemas {
            survey: _,
            opened: _,
            keys,
            schemas,
        } => Ok(schema_asked(keys, schemas.len())),
        Merging::Fetches {
            survey: _,
            sources: _,
            schema: _,
            next: _,
            frag: _,
            got: _,
            fetch: _,
            asked,
        } => Ok(Some(asked.copy(alloc)?)),
    }
}

// Where a reply leads a consolidation that has not come to its puts.
fn go_merging<P: Pieces, R: Threads + Sync>(
    rt: &R,
    alloc: Global,
    job: &Job,
    merging: Merging<P::Fetch>,
    reply: Reply,
) -> Result<State<P::Fetch>, OutOfMemory>
    requires job { IsMergeJob job.now }
    requires state { IsMerging P.codec merging }
    requires reply { IsSpelledReply reply }
    requires sync { IsSync R.row }
    ensures is { IfOk result (λ next. next ≡ merge_goes P.codec job.now merging reply) }
    ensures may { IfOk result (IsMergeState P.codec) }
    ensures fewer { IfOk result (λ next. merge_asks P.codec merging ≢ None → merges_left P.left next < merge_left P.left merging) }
{
    match merging {
        Merging::ListsCommits => after_commits::<P>(alloc, job, reply),
        Merging::ListsSchemas { candidates } => {
            after_schemas::<P>(alloc, candidates, looked_at(job), reply)
        }
        Merging::GetsFrame { candidates } => {
            after_frame::<P, R>(rt, alloc, job, candidates, reply)
        }
        Merging::GetsVacs { survey } => after_vac_reply::<P, R>(rt, alloc, job, survey, reply),
        Merging::GetsHeads { survey, opened } => {
            after_head_reply::<P, R>(rt, alloc, job, survey, opened, reply)
        }
        Merging::GetsSchemas {
            survey,
            opened,
            keys,
            schemas,
        } => {
            let surveyed = Surveyed {
                survey,
                opened,
                schemas,
            };
            after_schema_reply::<P, R>(rt, alloc, job, surveyed, keys, reply)
        }
        Merging::Fetches {
            survey,
            sources,
            schema,
            next,
            frag,
            got,
            fetch,
            asked,
        } => {
            let merged = Sources {
                survey,
                opened: sources,
                schema,
            };
            let ongoing = SourceFetch {
                next,
                frag,
                got,
                fetch,
            };
            after_source::<P, R>(rt, alloc, job, merged, ongoing, asked, reply)
        }
    }
}

// The timestamp at which a consolidation looks for a schema: its stamp.
fn looked_at(job: &Job) -> u64
    requires { IsMergeJob job.now }
    ensures { result ≡ looked_at job.now }
{
    match &job.command {
        Command::Consolidate { .. } => job.at,
        _ => unreachable!(),
    }
}

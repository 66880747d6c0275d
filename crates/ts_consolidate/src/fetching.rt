//! Fetching: all versions of one source after the other.
ghost use Rattle.std.specs.Prelude.{◌≡◌, ◌≤◌, ◌<◌, ◌-◌, ◌+◌, ◌^◌, ◌++◌, ◌∷◌, [], suc, drop, take, true, length, IfOk};
ghost use Rattle.ts_schema.specs.FrameTexts.{IsFrame};
ghost use Rattle.ts_schema.specs.SchemaTexts.{AreAttrs};
ghost use Rattle.ts_model.specs.States.{after_source, all_of, merging_from, source_leads};
ghost use Rattle.ts_wire.specs.Exact.{IsBytes};
ghost use Rattle.ts_actor.specs.PieceLaws.{MayReply};
ghost use Rattle.ts_consolidate.specs.Merges.{AreGot, HasSources, IsFetching, IsMergeState, IsSource, fetches_left, merges_left};
ghost use Rattle.ts_consolidate.specs.Fetching.{AsksSpelled, HasFewer, LeadsOn, step_by, step_of};

use crate::ends::ended;
use crate::putting::put_merged;
use std::alloc::Global;
use std::thread::Threads;
use ts_actor::{Fetched, Pieces, wanted};
use ts_base::{FragKey, Name, OutOfMemory};
use ts_batch::{Batches, BatchesList};
use ts_model::{Job, Merging, Opened, OpenedList, Outcome, Refusal, State, Survey, box_of};
use ts_schema::{AttrList, Frame, Schema, Want};
use ts_store::{Call, Reply};
use ts_wire::ReadFault;

/// What a consolidation merges.
#[derive(Drop)]
pub(crate) struct Sources {
    /// What it knows.
    pub survey: Survey,
    /// The fragments.
    pub opened: OpenedList,
    /// Their schema.
    pub schema: Schema,
}

/// How far the fetch of a source has come, as its state has it.
#[derive(Drop)]
pub(crate) struct SourceFetch<F> {
    /// The place of the fragment.
    pub next: u64,
    /// The fragment.
    pub frag: FragKey,
    /// The versions of each fragment before it.
    pub got: BatchesList,
    /// The fetch.
    pub fetch: F,
}

/// Where a step of a fetch leads.
#[derive(Drop)]
pub(crate) enum SourceStep<F> {
    /// It asks for this call, and waits for its reply.
    Asks(F, Call),
    /// These are all versions of the fragment.
    Takes(Batches),
    /// The consolidation ends.
    Ends(Outcome),
}

/// A consolidation fetches its sources from a place on, after those before. After the last it puts
/// what they are merged into.
pub(crate) fn merge_from<P: Pieces, R: Threads + Sync>(
    rt: &R,
    alloc: Global,
    job: &Job,
    merged: Sources,
    next: u64,
    got: BatchesList,
) -> Result<State<P::Fetch>, OutOfMemory>
    requires has { HasSources P.codec merged.survey merged.schema merged.opened }
    requires within { next ≤ length merged.opened }
    requires got { AreGot P.codec merged.survey.frame merged.schema.attrs (take next merged.opened) got }
    ensures is { IfOk result (λ state. state ≡ merging_from P.codec job.now merged.survey merged.opened merged.schema next (drop next merged.opened) got) }
    ensures may { IfOk result (IsMergeState P.codec) }
    ensures bound { length merged.opened < 2 ^ 64 }
    ensures fewer { IfOk result (λ state. merges_left P.left state ≤ fetches_left (length merged.opened - next)) }
{
    let mut got = got;
    let count = merged.opened.len();
    for place in next..count {
        let source = merged.opened.at(place);
        let frag = source.frag;
        match start::<P, R>(rt, alloc, merged.survey.frame.get(), &merged.schema, source)? {
            SourceStep::Asks(fetch, asked) => {
                let ongoing = SourceFetch {
                    next: place,
                    frag,
                    got,
                    fetch,
                };
                let state = fetches(merged, ongoing, asked);
                return Ok(State::Merges(state));
            }
            SourceStep::Takes(versions) => got.push(versions)?,
            SourceStep::Ends(end) => return Ok(State::Over(end)),
        }
    }
    put_merged::<P>(alloc, job, merged, got)
}

// A consolidation waits for the reply to a call of a fetch.
fn fetches<F: Drop>(merged: Sources, ongoing: SourceFetch<F>, asked: Call) -> Merging<F>
    ensures { result ≡ Merging.Fetches merged.survey merged.opened merged.schema ongoing.next ongoing.frag ongoing.got ongoing.fetch asked }
{
    let Sources {
        survey,
        opened: sources,
        schema,
    } = merged;
    let SourceFetch {
        next,
        frag,
        got,
        fetch,
    } = ongoing;
    Merging::Fetches {
        survey,
        sources,
        schema,
        next,
        frag,
        got,
        fetch,
        asked,
    }
}

// Begins to fetch a source.
fn start<P: Pieces, R: Threads + Sync>(
    rt: &R,
    alloc: Global,
    frame: &Frame,
    schema: &Schema,
    source: &Opened,
) -> Result<SourceStep<P::Fetch>, OutOfMemory>
    requires frame { IsFrame frame.now }
    requires attrs { AreAttrs schema.now.attrs }
    requires source { IsSource P.codec frame.now schema.now source.now }
    ensures is { IfOk result (λ step. step ≡ step_of P.codec frame.now schema.now source.now) }
    ensures leads { IfOk result (LeadsOn P.codec frame.now schema.now source.now) }
    ensures few_calls { IfOk result (HasFewer P.left (2 ^ 128)) }
    ensures spelled { IfOk result AsksSpelled }
{
    let want = all_of(alloc, frame, &schema.attrs)?;
    match P::fetch(rt, alloc, frame, schema, source.frag, &source.object, &want) {
        Ok(fetch) => go_on::<P, R>(rt, alloc, source.frag, fetch, Reply::Start),
        Err(ReadFault::Damaged(fault)) => {
            let name = Name::Part(source.frag, P::head_part(frame));
            Ok(SourceStep::Ends(Outcome::Refused(Refusal::Damaged { name, at: fault.at })))
        }
        Err(ReadFault::OutOfMemory) => Err(OutOfMemory),
    }
}

// What is wanted of a source: each cell of the domain, whenever it is stamped, with all its values.
fn all_of(alloc: Global, frame: &Frame, attrs: &AttrList) -> Result<Want, OutOfMemory>
    ensures { IfOk result (λ want. want ≡ all_of frame.now attrs.now) }
{
    let whole = box_of(&[], &frame.domain);
    wanted(alloc, whole, 0, u64::MAX, attrs)
}

// Goes on with the fetch of a source.
fn go_on<P: Pieces, R: Threads + Sync>(
    rt: &R,
    alloc: Global,
    frag: FragKey,
    fetch: P::Fetch,
    reply: Reply,
) -> Result<SourceStep<P::Fetch>, OutOfMemory>
    ensures is { IfOk result (λ step. step ≡ step_by frag (P.codec.steps fetch reply)) }
    ensures fewer { IfOk result (HasFewer P.left (P.left fetch)) }
    ensures spelled { IfOk result AsksSpelled }
{
    let mut fetch = fetch;
    match P::next(rt, alloc, &mut fetch, reply) {
        Fetched::Ask(call) => Ok(SourceStep::Asks(fetch, call)),
        Fetched::Got(versions) => Ok(SourceStep::Takes(versions)),
        Fetched::Damaged { part, at } => {
            let name = Name::Part(frag, part);
            Ok(SourceStep::Ends(Outcome::Refused(Refusal::Damaged { name, at })))
        }
        Fetched::OutOfMemory => Err(OutOfMemory),
    }
}

/// Where the reply to a fetch's call leads.
pub(crate) fn after_source<P: Pieces, R: Threads + Sync>(
    rt: &R,
    alloc: Global,
    job: &Job,
    merged: Sources,
    ongoing: SourceFetch<P::Fetch>,
    asked: Call,
    reply: Reply,
) -> Result<State<P::Fetch>, OutOfMemory>
    requires { IsFetching P.codec merged.survey merged.opened merged.schema ongoing.next ongoing.frag ongoing.got ongoing.fetch asked }
    ensures is { IfOk result (λ next. next ≡ after_source P.codec job.now merged.survey merged.opened merged.schema ongoing.next ongoing.frag ongoing.got ongoing.fetch asked reply) }
    ensures may { IfOk result (IsMergeState P.codec) }
    ensures fewer { IfOk result (λ next. merges_left P.left next < fetches_left (length merged.opened - suc ongoing.next) + suc (P.left ongoing.fetch)) }
{
    match reply {
        Reply::Bytes(bytes) => {
            let reply = Reply::Bytes(bytes);
            after_told::<P, R>(rt, alloc, job, merged, ongoing, &asked, reply)
        }
        Reply::Length(count) => {
            let reply = Reply::Length(count);
            after_told::<P, R>(rt, alloc, job, merged, ongoing, &asked, reply)
        }
        other => Ok(ended::<P>(&asked, &other)),
    }
}

// Whether bytes or a length can come to the call: a get has at most as many bytes as it asks for.
fn may_reply(call: &Call, reply: &Reply) -> bool
    ensures { result ≡ true → MayReply call.now reply.now }
{
    match (call, reply) {
        (Call::Get(_, _, most), Reply::Bytes(bytes)) => {
            are_bytes(bytes.as_slice());
            bytes.len() <= *most
        }
        (Call::Size(_), Reply::Length(_)) => true,
        _ => false,
    }
}

// Each number of a slice of bytes is a byte. The call itself does nothing.
fn are_bytes(bytes: &[u8])
    ensures { IsBytes bytes.now }
{}

// Where bytes or a length lead a fetch. Those that cannot come to its call lead nowhere.
fn after_told<P: Pieces, R: Threads + Sync>(
    rt: &R,
    alloc: Global,
    job: &Job,
    merged: Sources,
    ongoing: SourceFetch<P::Fetch>,
    asked: &Call,
    reply: Reply,
) -> Result<State<P::Fetch>, OutOfMemory>
    requires { IsFetching P.codec merged.survey merged.opened merged.schema ongoing.next ongoing.frag ongoing.got ongoing.fetch asked.now }
    ensures is { IfOk result (λ next. next ≡ source_leads merged.survey merged.opened merged.schema ongoing.next ongoing.frag ongoing.got (λ vs. merging_from P.codec job.now merged.survey merged.opened merged.schema (suc ongoing.next) (drop (suc ongoing.next) merged.opened) (ongoing.got ++ vs ∷ [])) (P.codec.steps ongoing.fetch reply)) }
    ensures may { IfOk result (IsMergeState P.codec) }
    ensures fewer { IfOk result (λ next. merges_left P.left next < fetches_left (length merged.opened - suc ongoing.next) + suc (P.left ongoing.fetch)) }
{
    if !may_reply(asked, &reply) {
        return Err(OutOfMemory);
    }
    let SourceFetch {
        next,
        frag,
        got,
        fetch,
    } = ongoing;
    let _count = merged.opened.len();
    match go_on::<P, R>(rt, alloc, frag, fetch, reply)? {
        SourceStep::Asks(fetch, asked) => {
            let ongoing = SourceFetch {
                next,
                frag,
                got,
                fetch,
            };
            let state = fetches(merged, ongoing, asked);
            Ok(State::Merges(state))
        }
        SourceStep::Takes(versions) => {
            let mut got = got;
            got.push(versions)?;
            merge_from::<P, R>(rt, alloc, job, merged, next + 1, got)
        }
        SourceStep::Ends(end) => Ok(State::Over(end)),
    }
}

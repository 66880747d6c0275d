//! Surveying: what a consolidation does from its listing of the commits up to its plan.
ghost use Rattle.std.specs.Prelude.{◌≡◌, ◌<◌, ◌≤◌, ◌+◌, ◌-◌, ◌^◌, ◌++◌, ◌∷◌, [], length, All, IfOk, slice_get};
ghost use Rattle.ts_base.specs.Names.{IsSpelledFrag};
ghost use Rattle.ts_base.specs.declared.names.Name.TheVariants as name;
ghost use Rattle.ts_store.specs.Calls.{IsSpelledReply};
ghost use Rattle.ts_schema.specs.Evolutions.{schema_at};
ghost use Rattle.ts_schema.specs.FrameTexts.{IsFrame, frame_of};
ghost use Rattle.ts_model.specs.declared.states.Merging.TheVariants as merging;
ghost use Rattle.ts_model.specs.declared.states.State.TheVariants.{Merges};
ghost use Rattle.ts_model.specs.States.{after_names, after_opened, after_surveyed, candidates_of, get_frame, get_head_in, get_schema, get_vac, getting_names, list_commits, list_schemas, on_bytes, on_names, on_read, opening_next, schemas_in, survey_with, surveying, surveys, where_schema, with_item};
ghost use Rattle.ts_actor.specs.Known.{AreFirst};
ghost use Rattle.ts_consolidate.specs.Merges.{AreCandidates, AreOpened, HaveAttrs, IsMergeJob, IsMergeState, IsSurvey, merges_left};

use crate::bytes::has_object;
use crate::candidates::candidates_of;
use crate::ends::{damaged, ended};
use crate::named::schemas_named;
use crate::planning::{Surveyed, merge_planned};
use std::alloc::Global;
use std::thread::Threads;
use ts_actor::{Pieces, get_all, schemas_in};
use ts_base::{Boxed, CommitKind, FragKey, FragList, KeyList, Name, OutOfMemory, Prefix};
use ts_commit::{VacList, VacOf, decode_vac};
use ts_model::{
    Candidates, Command, Job, Merging, Opened, OpenedList, Outcome, Refusal, State, Survey,
};
use ts_schema::{Frame, Schema, SchemaList, schema_at};
use ts_store::{Call, Reply, SharedBytes};
use ts_wire::ReadFault;

/// Where the reply to the listing of the commits leads.
pub(crate) fn after_commits<P: Pieces>(
    alloc: Global,
    job: &Job,
    reply: Reply,
) -> Result<State<P::Fetch>, OutOfMemory>
    requires job { IsMergeJob job.now }
    requires spelled { IsSpelledReply reply }
    ensures is { IfOk result (λ next. next ≡ on_names list_commits (λ names. Merges (merging.ListsSchemas (candidates_of job.now.command names))) reply) }
    ensures may { IfOk result (IsMergeState P.codec) }
    ensures fewer { IfOk result (λ next. merges_left P.left next < 2 ^ 195 + 3) }
{
    match reply {
        Reply::Names(names) => {
            let candidates = candidates_of(alloc, &job.command, names.as_slice())?;
            Ok(State::Merges(Merging::ListsSchemas { candidates }))
        }
        other => Ok(ended::<P>(&Call::List(Prefix::Commits), &other)),
    }
}

/// Where the reply to the listing of the schemas leads: on, if a schema holds at `at`.
pub(crate) fn after_schemas<P: Pieces>(
    alloc: Global,
    candidates: Candidates,
    at: u64,
    reply: Reply,
) -> Result<State<P::Fetch>, OutOfMemory>
    requires { AreCandidates candidates }
    ensures is { IfOk result (λ next. next ≡ on_names list_schemas (λ names. where_schema candidates at (schema_at (schemas_in names) at)) reply) }
    ensures may { IfOk result (IsMergeState P.codec) }
    ensures fewer { IfOk result (λ next. merges_left P.left next < 2 ^ 195 + 2) }
{
    match reply {
        Reply::Names(names) => {
            let keys = schemas_in(alloc, names.as_slice())?;
            match schema_at(&keys, at) {
                Some(_) => Ok(State::Merges(Merging::GetsFrame { candidates })),
                None => Ok(State::Over(Outcome::Refused(Refusal::NoSchema { at }))),
            }
        }
        other => Ok(ended::<P>(&Call::List(Prefix::Schemas), &other)),
    }
}

/// Where the reply to the get of the frame leads.
pub(crate) fn after_frame<P: Pieces, R: Threads + Sync>(
    rt: &R,
    alloc: Global,
    job: &Job,
    candidates: Candidates,
    reply: Reply,
) -> Result<State<P::Fetch>, OutOfMemory>
    requires job { IsMergeJob job.now }
    requires known { AreCandidates candidates }
    ensures is { IfOk result (λ next. next ≡ on_bytes get_frame (λ bytes. on_read name.Domain (surveys P.codec job.now job.now.command candidates) (frame_of bytes)) reply) }
    ensures may { IfOk result (IsMergeState P.codec) }
    ensures fewer { IfOk result (λ next. merges_left P.left next < 2 ^ 195 + 1) }
{
    match reply {
        Reply::Bytes(bytes) => match Frame::decode(bytes.as_slice()) {
            Ok(frame) => survey::<P, R>(rt, alloc, job, candidates, frame),
            Err(fault) => Ok(damaged::<P>(Name::Domain, fault.at)),
        },
        other => Ok(ended::<P>(&get_all(Name::Domain), &other)),
    }
}

// A consolidation that has the frame gets its first `.vac`.
fn survey<P: Pieces, R: Threads + Sync>(
    rt: &R,
    alloc: Global,
    job: &Job,
    candidates: Candidates,
    frame: Frame,
) -> Result<State<P::Fetch>, OutOfMemory>
    requires job { IsMergeJob job.now }
    requires known { AreCandidates candidates }
    requires frame { IsFrame frame }
    ensures is { IfOk result (λ next. next ≡ surveys P.codec job.now job.now.command candidates frame) }
    ensures may { IfOk result (IsMergeState P.codec) }
    ensures fewer { IfOk result (λ next. merges_left P.left next < 2 ^ 195 + 1) }
{
    match &job.command {
        Command::Consolidate { from, to, limits } => {
            let survey = Survey {
                from: *from,
                to: *to,
                limits: *limits,
                frame: Boxed::new(alloc, frame)?,
                fragments: candidates.fragments,
                counting: candidates.counting,
                vacs: VacList::new(alloc),
            };
            next_vac::<P, R>(rt, alloc, job, survey)
        }
        _ => unreachable!(),
    }
}

// A consolidation gets the next `.vac`, or opens its fragments.
fn next_vac<P: Pieces, R: Threads + Sync>(
    rt: &R,
    alloc: Global,
    job: &Job,
    survey: Survey,
) -> Result<State<P::Fetch>, OutOfMemory>
    requires { IsSurvey survey }
    ensures is { IfOk result (λ next. next ≡ getting_names P.codec job.now survey) }
    ensures may { IfOk result (IsMergeState P.codec) }
    ensures bound { length survey.counting < 2 ^ 64 }
    ensures fewer { IfOk result (λ next. merges_left P.left next ≤ 2 ^ 194 + 2 ^ 193 + (length survey.counting - length survey.vacs)) }
{
    let count = survey.counting.len();
    if survey.vacs.len() < count {
        return Ok(State::Merges(Merging::GetsVacs { survey }));
    }
    open_next::<P, R>(rt, alloc, job, survey, OpenedList::new(alloc))
}

/// Where the reply to the get of a `.vac` leads.
pub(crate) fn after_vac_reply<P: Pieces, R: Threads + Sync>(
    rt: &R,
    alloc: Global,
    job: &Job,
    survey: Survey,
    reply: Reply,
) -> Result<State<P::Fetch>, OutOfMemory>
    requires { IsSurvey survey }
    ensures is { IfOk result (λ next. next ≡ with_item (λ f. on_bytes (get_vac f) (after_names P.codec job.now survey f) reply) (slice_get survey.counting (length survey.vacs))) }
    ensures may { IfOk result (IsMergeState P.codec) }
    ensures fewer { IfOk result (λ next. length survey.vacs < length survey.counting → merges_left P.left next < 2 ^ 194 + 2 ^ 193 + (length survey.counting - length survey.vacs)) }
{
    let place = survey.vacs.len();
    if place >= survey.counting.len() {
        return Ok(State::Over(Outcome::OutOfMemory));
    }
    let frag = *survey.counting.at(place);
    match reply {
        Reply::Bytes(bytes) => after_names::<P, R>(rt, alloc, job, survey, frag, bytes),
        other => {
            let name = Name::Commit(frag, CommitKind::Vac);
            Ok(ended::<P>(&get_all(name), &other))
        }
    }
}

// Where the object of a `.vac` leads.
fn after_names<P: Pieces, R: Threads + Sync>(
    rt: &R,
    alloc: Global,
    job: &Job,
    survey: Survey,
    frag: FragKey,
    bytes: SharedBytes,
) -> Result<State<P::Fetch>, OutOfMemory>
    requires known { IsSurvey survey }
    requires within { length survey.vacs < length survey.counting }
    ensures is { IfOk result (λ next. next ≡ after_names P.codec job.now survey frag bytes) }
    ensures may { IfOk result (IsMergeState P.codec) }
    ensures fewer { IfOk result (λ next. merges_left P.left next < 2 ^ 194 + 2 ^ 193 + (length survey.counting - length survey.vacs)) }
{
    match decode_vac(alloc, bytes.as_slice()) {
        Ok(names) => next_vac::<P, R>(rt, alloc, job, survey_with(survey, frag, names)?),
        Err(ReadFault::Damaged(fault)) => {
            Ok(damaged::<P>(Name::Commit(frag, CommitKind::Vac), fault.at))
        }
        Err(ReadFault::OutOfMemory) => Err(OutOfMemory),
    }
}

// One `.vac` more was got.
fn survey_with(survey: Survey, frag: FragKey, names: FragList) -> Result<Survey, OutOfMemory>
    ensures { IfOk result (λ more. more ≡ survey_with survey frag names) }
{
    let mut survey = survey;
    survey.vacs.push(VacOf { frag, names })?;
    Ok(survey)
}

// A consolidation opens the next fragment, or goes on to the schemas that the heads name.
fn open_next<P: Pieces, R: Threads + Sync>(
    rt: &R,
    alloc: Global,
    job: &Job,
    survey: Survey,
    opened: OpenedList,
) -> Result<State<P::Fetch>, OutOfMemory>
    requires survey { IsSurvey survey }
    requires opened { AreOpened P.codec survey.frame opened }
    ensures is { IfOk result (λ next. next ≡ opening_next P.codec job.now survey opened) }
    ensures may { IfOk result (IsMergeState P.codec) }
    ensures bound { length survey.fragments < 2 ^ 64 }
    ensures fewer { IfOk result (λ next. merges_left P.left next ≤ 2 ^ 194 + (length survey.fragments - length opened)) }
{
    let count = survey.fragments.len();
    if opened.len() < count {
        return Ok(State::Merges(Merging::GetsHeads { survey, opened }));
    }
    let keys = schemas_named(alloc, opened.as_slice())?;
    let surveyed = Surveyed {
        survey,
        opened,
        schemas: SchemaList::new(alloc),
    };
    next_schema::<P, R>(rt, alloc, job, surveyed, keys)
}

/// Where the reply to the get of the part with the head leads.
pub(crate) fn after_head_reply<P: Pieces, R: Threads + Sync>(
    rt: &R,
    alloc: Global,
    job: &Job,
    survey: Survey,
    opened: OpenedList,
    reply: Reply,
) -> Result<State<P::Fetch>, OutOfMemory>
    requires survey { IsSurvey survey }
    requires opened { AreOpened P.codec survey.frame opened }
    ensures is { IfOk result (λ next. next ≡ with_item (λ f. on_bytes (get_head_in P.codec survey.frame f) (after_opened P.codec job.now survey opened f) reply) (slice_get survey.fragments (length opened))) }
    ensures may { IfOk result (IsMergeState P.codec) }
    ensures fewer { IfOk result (λ next. length opened < length survey.fragments → merges_left P.left next < 2 ^ 194 + (length survey.fragments - length opened)) }
{
    let place = opened.len();
    if place >= survey.fragments.len() {
        return Ok(State::Over(Outcome::OutOfMemory));
    }
    let frag = *survey.fragments.at(place);
    match reply {
        Reply::Bytes(bytes) => after_opened::<P, R>(rt, alloc, job, survey, opened, frag, bytes),
        other => {
            let part = P::head_part(survey.frame.get());
            Ok(ended::<P>(&get_all(Name::Part(frag, part)), &other))
        }
    }
}

// Where the object of the part with the head leads.
fn after_opened<P: Pieces, R: Threads + Sync>(
    rt: &R,
    alloc: Global,
    job: &Job,
    survey: Survey,
    opened: OpenedList,
    frag: FragKey,
    bytes: SharedBytes,
) -> Result<State<P::Fetch>, OutOfMemory>
    requires survey { IsSurvey survey }
    requires opened { AreOpened P.codec survey.frame opened }
    requires frag { IsSpelledFrag frag }
    requires within { length opened < length survey.fragments }
    ensures is { IfOk result (λ next. next ≡ after_opened P.codec job.now survey opened frag bytes) }
    ensures may { IfOk result (IsMergeState P.codec) }
    ensures fewer { IfOk result (λ next. merges_left P.left next < 2 ^ 194 + (length survey.fragments - length opened)) }
{
    has_object(&bytes);
    match P::head(alloc, survey.frame.get(), frag, bytes.as_slice()) {
        Ok(head) => {
            let mut opened = opened;
            opened.push(Opened {
                frag,
                head,
                object: bytes,
            })?;
            open_next::<P, R>(rt, alloc, job, survey, opened)
        }
        Err(ReadFault::Damaged(fault)) => {
            let part = P::head_part(survey.frame.get());
            Ok(damaged::<P>(Name::Part(frag, part), fault.at))
        }
        Err(ReadFault::OutOfMemory) => Err(OutOfMemory),
    }
}

// A consolidation gets the next schema, or plans.
fn next_schema<P: Pieces, R: Threads + Sync>(
    rt: &R,
    alloc: Global,
    job: &Job,
    surveyed: Surveyed,
    keys: KeyList,
) -> Result<State<P::Fetch>, OutOfMemory>
    requires survey { IsSurvey surveyed.survey }
    requires opened { AreOpened P.codec surveyed.survey.frame surveyed.opened }
    requires first { AreFirst keys surveyed.schemas }
    requires attrs { HaveAttrs surveyed.schemas }
    ensures is { IfOk result (λ next. next ≡ surveying P.codec job.now surveyed.survey surveyed.opened keys surveyed.schemas) }
    ensures may { IfOk result (IsMergeState P.codec) }
    ensures bound { length keys < 2 ^ 64 }
    ensures fewer { IfOk result (λ next. merges_left P.left next ≤ 2 ^ 193 + (length keys - length surveyed.schemas)) }
{
    let count = keys.len();
    if surveyed.schemas.len() < count {
        let Surveyed {
            survey,
            opened,
            schemas,
        } = surveyed;
        return Ok(State::Merges(Merging::GetsSchemas {
            survey,
            opened,
            keys,
            schemas,
        }));
    }
    merge_planned::<P, R>(rt, alloc, job, surveyed)
}

/// Where the reply to the get of a schema leads.
pub(crate) fn after_schema_reply<P: Pieces, R: Threads + Sync>(
    rt: &R,
    alloc: Global,
    job: &Job,
    surveyed: Surveyed,
    keys: KeyList,
    reply: Reply,
) -> Result<State<P::Fetch>, OutOfMemory>
    requires survey { IsSurvey surveyed.survey }
    requires opened { AreOpened P.codec surveyed.survey.frame surveyed.opened }
    requires first { AreFirst keys surveyed.schemas }
    requires attrs { HaveAttrs surveyed.schemas }
    ensures is { IfOk result (λ next. next ≡ with_item (λ k. on_bytes (get_schema k) (after_surveyed P.codec job.now surveyed.survey surveyed.opened keys surveyed.schemas k) reply) (slice_get keys (length surveyed.schemas))) }
    ensures may { IfOk result (IsMergeState P.codec) }
    ensures fewer { IfOk result (λ next. length surveyed.schemas < length keys → merges_left P.left next < 2 ^ 193 + (length keys - length surveyed.schemas)) }
{
    let place = surveyed.schemas.len();
    if place >= keys.len() {
        return Ok(State::Over(Outcome::OutOfMemory));
    }
    let key = *keys.at(place);
    match reply {
        Reply::Bytes(bytes) => match Schema::decode(alloc, key, bytes.as_slice()) {
            Ok(schema) => {
                next_schema::<P, R>(rt, alloc, job, with_schema(surveyed, schema)?, keys)
            }
            Err(ReadFault::Damaged(fault)) => Ok(damaged::<P>(Name::Schema(key), fault.at)),
            Err(ReadFault::OutOfMemory) => Err(OutOfMemory),
        },
        other => Ok(ended::<P>(&get_all(Name::Schema(key)), &other)),
    }
}

// One schema more is known.
fn with_schema(surveyed: Surveyed, schema: Schema) -> Result<Surveyed, OutOfMemory>
    ensures { IfOk result (λ more. more ≡ record { survey = surveyed.survey; opened = surveyed.opened; schemas = surveyed.schemas ++ schema ∷ [] }) }
{
    let mut surveyed = surveyed;
    surveyed.schemas.push(schema)?;
    Ok(surveyed)
}

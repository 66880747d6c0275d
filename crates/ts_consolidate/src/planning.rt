//! Planning: which of the fragments in its interval a consolidation merges.
ghost use Rattle.std.specs.Prelude.{◌≡◌, ◌≤◌, ◌^◌, true, All, IfOk, map as list_map};
ghost use Rattle.ts_model.specs.declared.states.Opened.{Opened as AnyOpened};
ghost use Rattle.ts_model.specs.States.{attributes_among, merges_all, on_plan, plan_for};
ghost use Rattle.ts_actor.specs.Known.{AreRising};
ghost use Rattle.ts_consolidate.specs.Merges.{AreOpened, HaveAttrs, IsMergeState, IsSurvey, merges_left};

use crate::fetching::{Sources, merge_from};
use std::alloc::Global;
use std::thread::Threads;
use ts_actor::{Pieces, heads_of, opened_among, schema_among};
use ts_base::{CountList, Duplicate, Head, Key, OutOfMemory};
use ts_batch::BatchesList;
use ts_commit::{Planned, plan};
use ts_model::{Job, Opened, OpenedList, Outcome, Refusal, State, Survey};
use ts_schema::{Schema, SchemaList};

/// What a consolidation has once it opened all fragments in its interval.
#[derive(Drop)]
pub(crate) struct Surveyed {
    /// What it knows.
    pub survey: Survey,
    /// The fragments.
    pub opened: OpenedList,
    /// The schemas that their heads name, as many as it got.
    pub schemas: SchemaList,
}

/// A consolidation that has all heads and their schemas merges what its plan takes, or is refused
/// where that is nothing.
pub(crate) fn merge_planned<P: Pieces, R: Threads + Sync>(
    rt: &R,
    alloc: Global,
    job: &Job,
    surveyed: Surveyed,
) -> Result<State<P::Fetch>, OutOfMemory>
    requires survey { IsSurvey surveyed.survey }
    requires opened { AreOpened P.codec surveyed.survey.frame surveyed.opened }
    requires rise { AreRising surveyed.schemas }
    requires attrs { HaveAttrs surveyed.schemas }
    ensures is { IfOk result (λ next. next ≡ on_plan P.codec job.now surveyed.survey surveyed.opened surveyed.schemas (plan_for surveyed.survey surveyed.opened surveyed.schemas)) }
    ensures may { IfOk result (IsMergeState P.codec) }
    ensures fewer { IfOk result (λ next. merges_left P.left next ≤ 2 ^ 193) }
{
    let Surveyed {
        survey,
        opened,
        schemas,
    } = surveyed;
    match plan_for(alloc, &survey, &opened, &schemas)? {
        Planned::Take(frags) => {
            let sources = opened_among(alloc, &frags, opened)?;
            merge_all::<P, R>(rt, alloc, job, survey, &schemas, sources)
        }
        Planned::Nothing { eligible } => {
            Ok(State::Over(Outcome::Refused(Refusal::NothingToDo { eligible })))
        }
    }
}

// The plan of a consolidation.
fn plan_for(
    alloc: Global,
    survey: &Survey,
    opened: &OpenedList,
    schemas: &SchemaList,
) -> Result<Planned, OutOfMemory>
    requires { AreRising schemas.now }
    ensures { IfOk result (λ planned. planned ≡ plan_for survey.now opened.now schemas.now) }
{
    let heads = heads_of(alloc, opened.as_slice())?;
    let attrs = attribute_counts(alloc, heads.as_slice(), schemas.as_slice())?;
    plan(
        alloc,
        &heads,
        &survey.vacs,
        &attrs,
        survey.from,
        survey.to,
        survey.limits,
    )
}

// How many attributes the schema of each head has.
fn attribute_counts(
    alloc: Global,
    heads: &[Head],
    schemas: &[Schema],
) -> Result<CountList, OutOfMemory>
    requires { AreRising schemas.now }
    ensures { IfOk result (λ counts. counts ≡ list_map (λ head. attributes_among schemas.now head.schema) heads.now) }
{
    let mut counts = CountList::new(alloc);
    for head in heads {
        counts.push(attributes_among(schemas, head.schema))?;
    }
    Ok(counts)
}

// How many attributes the schema of a key has.
fn attributes_among(schemas: &[Schema], key: Key) -> u64
    requires { AreRising schemas.now }
    ensures { result ≡ attributes_among schemas.now key }
{
    match schema_among(schemas, key) {
        Some(schema) => schema.attrs.len(),
        None => 0,
    }
}

// A consolidation has its sources, which are of one schema. Where a listing had a name twice they need
// not be, and are not merged.
fn merge_all<P: Pieces, R: Threads + Sync>(
    rt: &R,
    alloc: Global,
    job: &Job,
    survey: Survey,
    schemas: &SchemaList,
    sources: OpenedList,
) -> Result<State<P::Fetch>, OutOfMemory>
    requires survey { IsSurvey survey }
    requires opened { AreOpened P.codec survey.frame sources }
    requires rise { AreRising schemas.now }
    requires attrs { HaveAttrs schemas.now }
    ensures is { IfOk result (λ next. next ≡ merges_all P.codec job.now survey schemas.now sources) }
    ensures may { IfOk result (IsMergeState P.codec) }
    ensures fewer { IfOk result (λ next. merges_left P.left next ≤ 2 ^ 193) }
{
    let [first, ..] = sources.as_slice() else {
        return Ok(State::Over(Outcome::OutOfMemory));
    };
    let Some(schema) = schema_among(schemas.as_slice(), first.head.schema) else {
        return Ok(State::Over(Outcome::OutOfMemory));
    };
    if !are_of_schema(sources.as_slice(), schema.key) {
        return Err(OutOfMemory);
    }
    let schema = schema.copy(alloc)?;
    let merged = Sources {
        survey,
        schema,
        opened: sources,
    };
    merge_from::<P, R>(rt, alloc, job, merged, 0, BatchesList::new(alloc))
}

// Whether all of these are written in the schema.
fn are_of_schema(opened: &[Opened], schema: Key) -> bool
    ensures { result ≡ true → All (λ (o : AnyOpened). o.head.schema ≡ schema) opened.now }
{
    opened.iter().all(|one| one.head.schema == schema)
}

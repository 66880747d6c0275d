//! Opening: what a read does from the schema that holds and the frame up to the further schemas.
ghost use Rattle.std.specs.Prelude.{◌≡◌, ◌<◌, ◌≤◌, ◌+◌, ◌-◌, ◌^◌, ◌++◌, ◌∷◌, [], length, All, IfOk, slice_get};
ghost use Rattle.ts_base.specs.Names.{IsSpelledFrag};
ghost use Rattle.ts_schema.specs.FrameTexts.{IsFrame};
ghost use Rattle.ts_schema.specs.SchemaTexts.{AreAttrs};
ghost use Rattle.ts_model.specs.Queries.{ready_in};
ghost use Rattle.ts_model.specs.Selections.{IsNamedBox};
ghost use Rattle.ts_model.specs.States.{after_head, after_schema, asks_for, gathering, get_head, get_schema, heads_of, loaded_of, loads, on_bytes, opened_among, opening, with_clipped, with_item, works};
ghost use Rattle.ts_commit.specs.Selections.{clipped_names};
ghost use Rattle.ts_reader.specs.Reading.{AreListed, IsReadJob, IsReadState, IsReading, reads_left};
ghost use Rattle.ts_actor.specs.Listings.{AreSpelled};
ghost use Rattle.ts_actor.specs.Known.{AreFirst};

use crate::ends::{damaged, ended};
use crate::fetching::Gathered;
use crate::getting_deletes::next_delete;
use crate::getting_vacs::next_vac;
use crate::loading::{Loaded, choose};
use crate::named::keys_named;
use std::alloc::Global;
use std::thread::Threads;
use ts_actor::{Pieces, get_all};
use ts_base::{Boxed, FragKey, FragList, KeyList, Name, OutOfMemory};
use ts_commit::VacList;
use ts_cond::Query;
use ts_model::{
    Collecting, Command, DeletionList, Job, Listed, Opened, OpenedList, Outcome, QueryFault,
    Reading, State, check_query,
};
use ts_schema::{Frame, Schema, SchemaList};
use ts_store::{Reply, SharedBytes};
use ts_wire::ReadFault;

/// A read that has the schema that holds and the frame opens its first fragment, or is refused.
pub(crate) fn begin_reading<P: Pieces, R: Threads + Sync>(
    rt: &R,
    alloc: Global,
    job: &Job,
    listed: Listed,
    frame: Frame,
    current: Schema,
) -> Result<State<P::Fetch>, OutOfMemory>
    requires job { IsReadJob job.now }
    requires listed { AreListed listed }
    requires frame { IsFrame frame }
    requires attrs { AreAttrs current.attrs }
    ensures is { IfOk result (λ next. next ≡ works P.codec job.now job.now.command listed frame current) }
    ensures may { IfOk result (IsReadState P.codec) }
    ensures fewer { IfOk result (λ next. reads_left P.left next < 2 ^ 195) }
{
    match &job.command {
        Command::Read { from, to, query } => {
            ask_for::<P, R>(rt, alloc, *from, *to, query, listed, frame, current)
        }
        _ => unreachable!(),
    }
}

// A read opens its first fragment, or is refused for its query.
fn ask_for<P: Pieces, R: Threads + Sync>(
    rt: &R,
    alloc: Global,
    from: u64,
    to: u64,
    query: &Query,
    listed: Listed,
    frame: Frame,
    current: Schema,
) -> Result<State<P::Fetch>, OutOfMemory>
    requires bounds { All IsNamedBox query.now.sub }
    requires listed { AreListed listed }
    requires frame { IsFrame frame }
    requires attrs { AreAttrs current.attrs }
    ensures is { IfOk result (λ next. next ≡ asks_for P.codec from to listed frame current (ready_in frame current.attrs query.now)) }
    ensures may { IfOk result (IsReadState P.codec) }
    ensures fewer { IfOk result (λ next. reads_left P.left next < 2 ^ 195) }
{
    match check_query(alloc, &frame, &current, query) {
        Ok(ready) => {
            let reading = Reading {
                from,
                to,
                ready,
                frame,
                current,
                fragments: listed.fragments,
                counting: listed.counting,
                vacs: VacList::new(alloc),
                clipped: FragList::new(alloc),
                delete_names: listed.delete_names,
                deletions: DeletionList::new(alloc),
            };
            next_vac::<P, R>(rt, alloc, Boxed::new(alloc, reading)?)
        }
        Err(QueryFault::Refused(refusal)) => Ok(State::Over(Outcome::Refused(refusal))),
        Err(QueryFault::OutOfMemory) => Err(OutOfMemory),
    }
}

/// A read opens the next fragment, or goes on with those that it loads once all are open.
pub(crate) fn open_next<P: Pieces, R: Threads + Sync>(
    rt: &R,
    alloc: Global,
    reading: Boxed<Reading>,
    opened: OpenedList,
) -> Result<State<P::Fetch>, OutOfMemory>
    requires reading { IsReading reading }
    requires spelled { AreSpelled opened }
    ensures is { IfOk result (λ next. next ≡ opening P.codec reading opened) }
    ensures may { IfOk result (IsReadState P.codec) }
    ensures bound { length reading.fragments < 2 ^ 64 }
    ensures fewer { IfOk result (λ next. reads_left P.left next ≤ 2 ^ 194 + (length reading.fragments - length opened)) }
{
    let count = reading.get().fragments.len();
    if opened.len() < count {
        let heads = Boxed::new(alloc, Collecting::GetsHeads { reading, opened })?;
        return Ok(State::Collects(heads));
    }
    load::<P, R>(rt, alloc, reading, opened)
}

// A read that opened all fragments goes on with those that it loads.
fn load<P: Pieces, R: Threads + Sync>(
    rt: &R,
    alloc: Global,
    reading: Boxed<Reading>,
    opened: OpenedList,
) -> Result<State<P::Fetch>, OutOfMemory>
    requires reading { IsReading reading }
    requires spelled { AreSpelled opened }
    ensures is { IfOk result (λ next. next ≡ loads P.codec (with_clipped reading (clipped_names reading.from reading.to (heads_of opened))) (opened_among (loaded_of reading opened) opened)) }
    ensures may { IfOk result (IsReadState P.codec) }
    ensures fewer { IfOk result (λ next. reads_left P.left next ≤ 2 ^ 194) }
{
    let Loaded { reading, chosen } = choose(alloc, reading, opened)?;
    gather::<P, R>(rt, alloc, reading, chosen)
}

// A read gets the first of the further schemas that these heads name, or goes on.
fn gather<P: Pieces, R: Threads + Sync>(
    rt: &R,
    alloc: Global,
    reading: Boxed<Reading>,
    opened: OpenedList,
) -> Result<State<P::Fetch>, OutOfMemory>
    requires reading { IsReading reading }
    requires spelled { AreSpelled opened }
    ensures is { IfOk result (λ next. next ≡ loads P.codec reading opened) }
    ensures may { IfOk result (IsReadState P.codec) }
    ensures fewer { IfOk result (λ next. reads_left P.left next ≤ 2 ^ 194) }
{
    let keys = keys_named(alloc, reading.get().current.key, opened.as_slice())?;
    let schemas = SchemaList::new(alloc);
    gather_next::<P, R>(
        rt,
        alloc,
        Gathered {
            reading,
            opened,
            schemas,
        },
        keys,
    )
}

/// Where the reply to the get of the part with the head leads.
pub(crate) fn after_head_reply<P: Pieces, R: Threads + Sync>(
    rt: &R,
    alloc: Global,
    reading: Boxed<Reading>,
    opened: OpenedList,
    reply: Reply,
) -> Result<State<P::Fetch>, OutOfMemory>
    requires reading { IsReading reading }
    requires spelled { AreSpelled opened }
    ensures is { IfOk result (λ next. next ≡ with_item (λ f. on_bytes (get_head P.codec reading f) (after_head P.codec reading opened f) reply) (slice_get reading.fragments (length opened))) }
    ensures may { IfOk result (IsReadState P.codec) }
    ensures fewer { IfOk result (λ next. length opened < length reading.fragments → reads_left P.left next < 2 ^ 194 + (length reading.fragments - length opened)) }
{
    let place = opened.len();
    if place >= reading.get().fragments.len() {
        return Ok(State::Over(Outcome::OutOfMemory));
    }
    let frag = *reading.get().fragments.at(place);
    match reply {
        Reply::Bytes(bytes) => after_head::<P, R>(rt, alloc, reading, opened, frag, bytes),
        other => {
            let part = P::head_part(&reading.get().frame);
            Ok(ended::<P>(&get_all(Name::Part(frag, part)), &other))
        }
    }
}

// Where the object of the part with the head leads.
fn after_head<P: Pieces, R: Threads + Sync>(
    rt: &R,
    alloc: Global,
    reading: Boxed<Reading>,
    opened: OpenedList,
    frag: FragKey,
    bytes: SharedBytes,
) -> Result<State<P::Fetch>, OutOfMemory>
    requires reading { IsReading reading }
    requires spelled { AreSpelled opened }
    requires frag { IsSpelledFrag frag }
    requires within { length opened < length reading.fragments }
    ensures is { IfOk result (λ next. next ≡ after_head P.codec reading opened frag bytes) }
    ensures may { IfOk result (IsReadState P.codec) }
    ensures fewer { IfOk result (λ next. reads_left P.left next < 2 ^ 194 + (length reading.fragments - length opened)) }
{
    match P::head(alloc, &reading.get().frame, frag, bytes.as_slice()) {
        Ok(head) => {
            let mut opened = opened;
            opened.push(Opened {
                frag,
                head,
                object: bytes,
            })?;
            open_next::<P, R>(rt, alloc, reading, opened)
        }
        Err(ReadFault::Damaged(fault)) => {
            let part = P::head_part(&reading.get().frame);
            Ok(damaged::<P>(Name::Part(frag, part), fault.at))
        }
        Err(ReadFault::OutOfMemory) => Err(OutOfMemory),
    }
}

// A read gets the next further schema, or goes on to the deletes.
fn gather_next<P: Pieces, R: Threads + Sync>(
    rt: &R,
    alloc: Global,
    gathered: Gathered,
    keys: KeyList,
) -> Result<State<P::Fetch>, OutOfMemory>
    requires reading { IsReading gathered.reading }
    requires spelled { AreSpelled gathered.opened }
    requires first { AreFirst keys gathered.schemas }
    ensures is { IfOk result (λ next. next ≡ gathering P.codec gathered.reading gathered.opened keys gathered.schemas) }
    ensures may { IfOk result (IsReadState P.codec) }
    ensures bound { length keys < 2 ^ 64 }
    ensures fewer { IfOk result (λ next. reads_left P.left next ≤ 2 ^ 193 + (length keys - length gathered.schemas)) }
{
    let count = keys.len();
    if gathered.schemas.len() < count {
        let further = Boxed::new(alloc, gathered.gets_schemas(keys))?;
        return Ok(State::Collects(further));
    }
    next_delete::<P, R>(rt, alloc, gathered)
}

/// Where the reply to the get of a further schema leads.
pub(crate) fn after_further<P: Pieces, R: Threads + Sync>(
    rt: &R,
    alloc: Global,
    gathered: Gathered,
    keys: KeyList,
    reply: Reply,
) -> Result<State<P::Fetch>, OutOfMemory>
    requires reading { IsReading gathered.reading }
    requires spelled { AreSpelled gathered.opened }
    requires first { AreFirst keys gathered.schemas }
    ensures is { IfOk result (λ next. next ≡ with_item (λ k. on_bytes (get_schema k) (after_schema P.codec gathered.reading gathered.opened keys gathered.schemas k) reply) (slice_get keys (length gathered.schemas))) }
    ensures may { IfOk result (IsReadState P.codec) }
    ensures fewer { IfOk result (λ next. length gathered.schemas < length keys → reads_left P.left next < 2 ^ 193 + (length keys - length gathered.schemas)) }
{
    let place = gathered.schemas.len();
    if place >= keys.len() {
        return Ok(State::Over(Outcome::OutOfMemory));
    }
    let key = *keys.at(place);
    match reply {
        Reply::Bytes(bytes) => match Schema::decode(alloc, key, bytes.as_slice()) {
            Ok(schema) => gather_next::<P, R>(rt, alloc, with_schema(gathered, schema)?, keys),
            Err(ReadFault::Damaged(fault)) => Ok(damaged::<P>(Name::Schema(key), fault.at)),
            Err(ReadFault::OutOfMemory) => Err(OutOfMemory),
        },
        other => Ok(ended::<P>(&get_all(Name::Schema(key)), &other)),
    }
}

// One schema more is known.
fn with_schema(gathered: Gathered, schema: Schema) -> Result<Gathered, OutOfMemory>
    ensures { IfOk result (λ more. more ≡ record { reading = gathered.reading; opened = gathered.opened; schemas = gathered.schemas ++ schema ∷ [] }) }
{
    let mut gathered = gathered;
    gathered.schemas.push(schema)?;
    Ok(gathered)
}

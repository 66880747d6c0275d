//! How a job finds the schema that it works in, and the frame.
ghost use Rattle.std.specs.Prelude.{◌≡◌, ◌<◌, ◌+◌, ◌^◌, ◌++◌, ℕ, All, IfOk, OnOk, option_to_list};
ghost use Rattle.std.specs.Thread.{IsSync};
ghost use Rattle.ts_base.specs.Names.{IsSpelled};
ghost use Rattle.ts_store.specs.Calls.{IsSpelledReply};
ghost use Rattle.ts_actor.specs.Fetches.{IsWorkCall};
ghost use Rattle.ts_schema.specs.Evolutions.{schema_at};
ghost use Rattle.ts_schema.specs.FrameTexts.{IsFrame, frame_of};
ghost use Rattle.ts_schema.specs.SchemaTexts.{AreAttrs, schema_of};
ghost use Rattle.ts_model.specs.declared.commands.Job.{Job as AnyJob};
ghost use Rattle.ts_model.specs.declared.states.Listed.{Listed as AnyListed};
ghost use Rattle.ts_model.specs.declared.states.Seeking.TheVariants as seeking_state;
ghost use Rattle.ts_model.specs.declared.states.State.{State};
ghost use Rattle.ts_model.specs.declared.states.State.TheVariants.{Seeks};
ghost use Rattle.ts_base.specs.declared.names.Name.TheVariants as name;
ghost use Rattle.ts_model.specs.Codecs.{Codec};
ghost use Rattle.ts_model.specs.Jobs.{looked_at};
ghost use Rattle.ts_model.specs.States.{get_all, get_frame, get_schema, list_commits, list_schemas, looked_into, on_bytes, on_names, on_read, schema_key_in, schemas_in, seek_asks, seek_goes, seeks, works};
ghost use Rattle.ts_actor.specs.Seeks.{IsSeeking, MaySeek, seek_left, state_left};

use crate::ends::{end_by, end_damaged};
use std::alloc::Global;
use std::thread::Threads;
use ts_base::{Key, KeyList, Name, OutOfMemory, Prefix};
use ts_model::{Command, Job, Listed, Outcome, Refusal, Seeking, State};
use ts_schema::{Frame, Schema, schema_at};
use ts_store::{Call, Reply};
use ts_wire::ReadFault;

/// What a job does once it has the schema that it works in and the frame, and what it looks into
/// before, where it lists the commits.
///
/// Each function computes what the model says of any job. Only memory can be wanting.
pub trait Works {
    /// How far the fetch of a fragment has come.
    type Fetch: Drop;

    /// How fragments are written and read.
    ghost codec: { Codec Self.Fetch };

    /// The jobs that it is for.
    ghost serves: { AnyJob → Type 0 };

    /// What is known of what such a job looks into.
    ghost knows: { AnyListed → Type 0 };

    /// The states that the job can be in once it has worked.
    ghost may: { State Self.Fetch → Type 0 };

    /// The most calls that the job makes from such a state on.
    ghost left: { State Self.Fetch → ℕ };

    /// What a job looks into of a listing of the commits.
    fn look(alloc: Global, job: &Job, names: &[Name]) -> Result<Listed, OutOfMemory>
        requires job { serves job.now }
        requires names { All IsSpelled names.now }
        ensures is { IfOk result (λ listed. listed ≡ looked_into job.now.command names.now) }
        ensures knows { IfOk result knows };

    /// Where a job comes that has the schema that it works in and the frame.
    fn work<R: Threads + Sync>(
        rt: &R,
        alloc: Global,
        job: &Job,
        listed: Listed,
        frame: Frame,
        current: Schema,
    ) -> Result<State<Self::Fetch>, OutOfMemory>
        requires job { serves job.now }
        requires listed { knows listed }
        requires frame { IsFrame frame }
        requires attrs { AreAttrs current.attrs }
        requires sync { IsSync R.row }
        ensures is { IfOk result (λ next. next ≡ works codec job.now job.now.command listed frame current) }
        ensures may { IfOk result (MaySeek knows may) }
        ensures fewer { IfOk result (λ next. state_left left next < 2 ^ 195) };
}

/// The get of all of an object.
pub fn get_all(name: Name) -> Call
    ensures { result ≡ get_all name }
{
    Call::Get(name, 0, u64::MAX)
}

/// The call of a job that seeks its schema and the frame. It takes no memory.
pub fn ask_seeking(seeking: &Seeking) -> Call
    ensures is { result ≡ seek_asks seeking.now }
    ensures spelled { IsWorkCall result }
{
    match seeking {
        Seeking::ListsCommits => Call::List(Prefix::Commits),
        Seeking::ListsSchemas { listed: _ } => Call::List(Prefix::Schemas),
        Seeking::GetsSchema { listed: _, current } => Call::Get(
            Name::Schema(*current),
            0,
            u64::MAX,
        ),
        Seeking::GetsFrame {
            listed: _,
            current: _,
        } => Call::Get(Name::Domain, 0, u64::MAX),
    }
}

/// Where a reply leads a job that seeks its schema and the frame: once it has both, it works.
pub fn go_seeking<W: Works, R: Threads + Sync>(
    rt: &R,
    alloc: Global,
    job: &Job,
    seeking: Seeking,
    reply: Reply,
) -> Result<State<W::Fetch>, OutOfMemory>
    requires job { W.serves job.now }
    requires state { IsSeeking W.knows seeking }
    requires reply { IsSpelledReply reply }
    requires sync { IsSync R.row }
    ensures is { IfOk result (λ next. next ≡ seek_goes W.codec job.now seeking reply) }
    ensures may { IfOk result (MaySeek W.knows W.may) }
    ensures fewer { IfOk result (λ next. state_left W.left next < seek_left seeking) }
{
    match seeking {
        Seeking::ListsCommits => after_commits::<W>(alloc, job, reply),
        Seeking::ListsSchemas { listed } => {
            after_schemas::<W>(alloc, listed, looked_at(job), reply)
        }
        Seeking::GetsSchema { listed, current } => after_current::<W>(
            alloc, listed, current, reply,
        ),
        Seeking::GetsFrame { listed, current } => {
            after_frame::<W, R>(rt, alloc, job, listed, current, reply)
        }
    }
}

// The timestamp at which a job looks for its schema.
fn looked_at(job: &Job) -> u64
    ensures { result ≡ looked_at job.now }
{
    match &job.command {
        Command::Read { to, .. } => *to,
        _ => job.at,
    }
}

// Where the reply to the listing of the commits leads.
fn after_commits<W: Works>(
    alloc: Global,
    job: &Job,
    reply: Reply,
) -> Result<State<W::Fetch>, OutOfMemory>
    requires job { W.serves job.now }
    requires spelled { IsSpelledReply reply }
    ensures is { IfOk result (λ next. next ≡ on_names list_commits (λ names. Seeks (seeking_state.ListsSchemas (looked_into job.now.command names))) reply) }
    ensures may { IfOk result (MaySeek W.knows W.may) }
    ensures fewer { IfOk result (λ next. state_left W.left next < 2 ^ 195 + 3) }
{
    match reply {
        Reply::Names(names) => {
            let listed = W::look(alloc, job, names.as_slice())?;
            Ok(State::Seeks(Seeking::ListsSchemas { listed }))
        }
        other => Ok(State::Over(end_by(&Call::List(Prefix::Commits), &other))),
    }
}

// Where the reply to the listing of the schemas leads: to the schema that holds at `at`, if there is
// one.
fn after_schemas<W: Works>(
    alloc: Global,
    listed: Listed,
    at: u64,
    reply: Reply,
) -> Result<State<W::Fetch>, OutOfMemory>
    requires { W.knows listed }
    ensures is { IfOk result (λ next. next ≡ on_names list_schemas (λ names. seeks listed at (schema_at (schemas_in names) at)) reply) }
    ensures may { IfOk result (MaySeek W.knows W.may) }
    ensures fewer { IfOk result (λ next. state_left W.left next < 2 ^ 195 + 2) }
{
    match reply {
        Reply::Names(names) => {
            let keys = schemas_in(alloc, names.as_slice())?;
            match schema_at(&keys, at) {
                Some(current) => Ok(State::Seeks(Seeking::GetsSchema { listed, current })),
                None => Ok(State::Over(Outcome::Refused(Refusal::NoSchema { at }))),
            }
        }
        other => Ok(State::Over(end_by(&Call::List(Prefix::Schemas), &other))),
    }
}

/// The keys of the schemas of a listing, in its order.
pub fn schemas_in(alloc: Global, names: &[Name]) -> Result<KeyList, OutOfMemory>
    ensures { IfOk result (λ keys. keys ≡ schemas_in names.now) }
{
    let mut keys = KeyList::new(alloc);
    for name in names {
        add_schema(&mut keys, *name)?;
    }
    Ok(keys)
}

// Adds the key of a schema object.
fn add_schema(keys: &mut KeyList, name: Name) -> Result<(), OutOfMemory>
    ensures { OnOk result (keys.new ≡ keys.old ++ option_to_list (schema_key_in name)) }
{
    match name {
        Name::Schema(key) => keys.push(key),
        _ => Ok(()),
    }
}

// Where the reply to the get of the schema leads: to the get of the frame.
fn after_current<W: Works>(
    alloc: Global,
    listed: Listed,
    current: Key,
    reply: Reply,
) -> Result<State<W::Fetch>, OutOfMemory>
    requires { W.knows listed }
    ensures is { IfOk result (λ next. next ≡ on_bytes (get_schema current) (λ bytes. on_read (name.Schema current) (λ attrs. Seeks (seeking_state.GetsFrame listed (record { key = current; attrs = attrs }))) (schema_of bytes)) reply) }
    ensures may { IfOk result (MaySeek W.knows W.may) }
    ensures fewer { IfOk result (λ next. state_left W.left next < 2 ^ 195 + 1) }
{
    match reply {
        Reply::Bytes(bytes) => match Schema::decode(alloc, current, bytes.as_slice()) {
            Ok(current) => Ok(State::Seeks(Seeking::GetsFrame { listed, current })),
            Err(ReadFault::Damaged(fault)) => {
                Ok(State::Over(end_damaged(Name::Schema(current), fault.at)))
            }
            Err(ReadFault::OutOfMemory) => Err(OutOfMemory),
        },
        other => Ok(State::Over(end_by(&get_all(Name::Schema(current)), &other))),
    }
}

// Where the reply to the get of the frame leads: the job works.
fn after_frame<W: Works, R: Threads + Sync>(
    rt: &R,
    alloc: Global,
    job: &Job,
    listed: Listed,
    current: Schema,
    reply: Reply,
) -> Result<State<W::Fetch>, OutOfMemory>
    requires job { W.serves job.now }
    requires listed { W.knows listed }
    requires attrs { AreAttrs current.attrs }
    requires sync { IsSync R.row }
    ensures is { IfOk result (λ next. next ≡ on_bytes get_frame (λ bytes. on_read name.Domain (λ frame. works W.codec job.now job.now.command listed frame current) (frame_of bytes)) reply) }
    ensures may { IfOk result (MaySeek W.knows W.may) }
    ensures fewer { IfOk result (λ next. state_left W.left next < 2 ^ 195) }
{
    match reply {
        Reply::Bytes(bytes) => match Frame::decode(bytes.as_slice()) {
            Ok(frame) => W::work(rt, alloc, job, listed, frame, current),
            Err(fault) => Ok(State::Over(end_damaged(Name::Domain, fault.at))),
        },
        other => Ok(State::Over(end_by(&get_all(Name::Domain), &other))),
    }
}

//! What a write puts: the parts of its fragment, and the `.wrt` by which it is committed.
ghost use Rattle.std.specs.Prelude.{◌≡◌, ◌<◌, ◌^◌, ◌++◌, ◌∷◌, [], Ok, All, IfOk, IsTrue};
ghost use Rattle.ts_model.specs.declared.states.Listed.{Listed as AnyListed};
ghost use Rattle.ts_base.specs.Names.{IsSpelledFrag, IsSpelledPart, wrt_of};
ghost use Rattle.ts_schema.specs.FrameTexts.{IsFrame};
ghost use Rattle.ts_schema.specs.SchemaTexts.{AreAttrs};
ghost use Rattle.ts_model.specs.declared.commands.Command.TheVariants.{Write};
ghost use Rattle.ts_model.specs.Commands.{is_spelled_write, laid};
ghost use Rattle.ts_model.specs.Deeds.{IsKey};
ghost use Rattle.ts_model.specs.States.{part_objects, puts_cells, works};
ghost use Rattle.ts_model.specs.Jobs.{key_of};
ghost use Rattle.ts_writer.specs.Laying.{pieced};
ghost use Rattle.ts_writer.specs.Writing.{AreSpelled, IsWrite, IsWriteJob, IsLaterState, calls_left};

use crate::ends::refuse;
use crate::laying::{LayFault, lay};
use crate::making::{Makes, list_schemas, nothing_listed};
use crate::puts::{frag_of, key_of, key_with, put};
use std::alloc::Global;
use std::marker::PhantomData;
use ts_actor::Pieces;
use ts_base::{CommitKind, FragKey, Key, Name, OutOfMemory, PartBytes, PartList};
use ts_model::{Command, Job, Listed, NewObject, NewObjectList, Outcome, State, WriteIn};
use ts_piece::BatchPiece;
use ts_schema::{Frame, Schema};
use ts_store::SharedBytes;
use ts_table::Origin;

/// What writes put: the parts of their fragments, written the way of `P`, and the `.wrt` objects.
#[derive(Drop)]
pub struct Writes<P: Pieces> {
    of: PhantomData<P>,
}

impl<P: Pieces> Makes for Writes<P> {
    type Fetch = P::Fetch;

    ghost codec = { P.codec };

    ghost serves = { IsWriteJob };

    fn begin(alloc: Global, job: &Job) -> State<P::Fetch> {
        match &job.command {
            Command::Write(_) => list_schemas(alloc),
            _ => unreachable!(),
        }
    }

    fn look(alloc: Global, job: &Job) -> Listed {
        match &job.command {
            Command::Write(_) => nothing_listed(alloc),
            _ => unreachable!(),
        }
    }

    fn make(
        alloc: Global,
        job: &Job,
        frame: &Frame,
        current: &Schema,
    ) -> Result<State<P::Fetch>, OutOfMemory> {
        write::<P>(alloc, job, frame, current)
    }
}

// What a write writes.
fn write_in(job: &Job) -> &WriteIn
    requires { IsWriteJob job.now }
    ensures is { job.now.command ≡ Write result.now }
    ensures spelled { IsTrue (is_spelled_write result.now) }
{
    match &job.command {
        Command::Write(write) => write,
        _ => unreachable!(),
    }
}

// A write puts its cells, or is refused.
fn write<P: Pieces>(
    alloc: Global,
    job: &Job,
    frame: &Frame,
    current: &Schema,
) -> Result<State<P::Fetch>, OutOfMemory>
    requires job { IsWriteJob job.now }
    requires frame { IsFrame frame.now }
    requires attrs { AreAttrs current.now.attrs }
    ensures is { IfOk result (λ state. (listed : AnyListed) → state ≡ works P.codec job.now job.now.command listed frame.now current.now) }
    ensures may { IfOk result IsLaterState }
    ensures fewer { IfOk result (λ state. calls_left state < 2 ^ 195) }
{
    let write = write_in(job);
    let origin = Origin {
        key: key_of(job),
        schema: schema_key(current),
    };
    match lay(alloc, frame, origin, &current.attrs, write) {
        Ok(piece) => put_piece::<P>(alloc, job, frame, current, write, piece),
        Err(LayFault::Refused(refusal)) => Ok(refuse(refusal)),
        Err(LayFault::OutOfMemory) => Err(OutOfMemory),
    }
}

// A write puts the piece that its columns lay.
fn put_piece<P: Pieces>(
    alloc: Global,
    job: &Job,
    frame: &Frame,
    current: &Schema,
    write: &WriteIn,
    piece: BatchPiece,
) -> Result<State<P::Fetch>, OutOfMemory>
    requires frame { IsFrame frame.now }
    requires attrs { AreAttrs current.now.attrs }
    requires spelled { IsTrue (is_spelled_write write.now) }
    requires key { IsKey (key_of job.now) }
    requires schema { IsKey current.now.key }
    requires laid { pieced frame.now (record { key = key_of job.now; schema = current.now.key }) (laid frame.now current.now.attrs write.now) ≡ Ok piece }
    ensures is { IfOk result (λ state. state ≡ puts_cells P.codec job.now frame.now current.now (laid frame.now current.now.attrs write.now)) }
    ensures may { IfOk result IsLaterState }
    ensures fewer { IfOk result (λ state. calls_left state < 2 ^ 64) }
{
    let parts = P::parts(alloc, frame, current, &piece)?;
    let frag = frag_of(job);
    let objects = objects_of(alloc, frag, parts)?;
    Ok(put(objects, 0, Outcome::Written(frag)))
}

// The key of a schema.
fn schema_key(schema: &Schema) -> Key
    ensures is { result ≡ schema.now.key }
    ensures key { IsKey result }
{
    key_with(schema.key.t, schema.key.id)
}

// The objects that a write puts: the parts of its fragment, and then the empty `.wrt`.
fn objects_of(alloc: Global, frag: FragKey, parts: PartList) -> Result<NewObjectList, OutOfMemory>
    requires frag { IsSpelledFrag frag }
    requires parts { All (λ x. IsSpelledPart x.part) parts }
    ensures is { IfOk result (λ objects. objects ≡ part_objects frag parts ++ record { name = wrt_of frag; bytes = [] } ∷ []) }
    ensures spelled { IfOk result AreSpelled }
{
    let mut objects = part_objects(alloc, frag, parts)?;
    objects.push(NewObject {
        name: Name::Commit(frag, CommitKind::Wrt),
        bytes: SharedBytes::new(),
    })?;
    Ok(NewObjectList::from_vec(objects))
}

// An object for each part of a fragment.
fn part_objects(
    alloc: Global,
    frag: FragKey,
    parts: PartList,
) -> Result<Vec<NewObject>, OutOfMemory>
    ensures { IfOk result (λ objects. objects.items ≡ part_objects frag parts) }
{
    let parts = parts.into_vec();
    let mut objects = Vec::with_capacity(alloc, parts.len())?;
    for part in parts {
        objects.push(part_object(frag, part)?)?;
    }
    Ok(objects)
}

// The object of a part of a fragment.
fn part_object(frag: FragKey, part: PartBytes) -> Result<NewObject, OutOfMemory>
    ensures { IfOk result (λ object. object ≡ record { name = Name.Part frag part.part; bytes = part.bytes }) }
{
    let PartBytes { part, bytes } = part;
    Ok(NewObject {
        name: Name::Part(frag, part),
        bytes: SharedBytes::of_list(bytes)?,
    })
}

//! What a delete puts: the object of its condition.
ghost use Rattle.std.specs.Prelude.{◌≡◌, ◌<◌, ◌^◌, Ok, IfOk};
ghost use Rattle.ts_model.specs.declared.states.Listed.{Listed as AnyListed};
ghost use Rattle.ts_schema.specs.SchemaTexts.{AreAttrs};
ghost use Rattle.ts_model.specs.declared.commands.Command.TheVariants.{Delete};
ghost use Rattle.ts_model.specs.States.{puts_delete, works};
ghost use Rattle.ts_writer.specs.Writing.{IsDelete, IsDeleteJob, IsLaterState, calls_left};

use crate::ends::refuse;
use crate::making::{Makes, list_schemas, nothing_listed};
use crate::puts::{frag_of, put};
use std::alloc::Global;
use std::marker::PhantomData;
use ts_actor::Pieces;
use ts_base::{ByteList, CommitKind, Name, OutOfMemory};
use ts_cond::Cond;
use ts_model::{
    Command, Job, Listed, NewObject, NewObjectList, Outcome, QueryFault, State, check_delete,
};
use ts_schema::{Frame, Schema};
use ts_store::SharedBytes;

/// What deletes put: the object of their condition.
#[derive(Drop)]
pub struct Deletes<P> {
    pieces: PhantomData<P>,
}

impl<P: Pieces> Makes for Deletes<P> {
    type Fetch = P::Fetch;

    ghost codec = { P.codec };

    ghost serves = { IsDeleteJob };

    fn begin(alloc: Global, job: &Job) -> State<P::Fetch> {
        match &job.command {
            Command::Delete(_) => list_schemas(alloc),
            _ => unreachable!(),
        }
    }

    fn look(alloc: Global, job: &Job) -> Listed {
        match &job.command {
            Command::Delete(_) => nothing_listed(alloc),
            _ => unreachable!(),
        }
    }

    fn make(
        alloc: Global,
        job: &Job,
        frame: &Frame,
        current: &Schema,
    ) -> Result<State<P::Fetch>, OutOfMemory> {
        delete::<P>(alloc, job, frame, current)
    }
}

// The text of the condition of a delete.
fn text_in(job: &Job) -> &ByteList
    requires { IsDelete job.now.command }
    ensures { job.now.command ≡ Delete result.now }
{
    match &job.command {
        Command::Delete(text) => text,
        _ => unreachable!(),
    }
}

// A delete puts its condition, or is refused.
fn delete<P: Pieces>(
    alloc: Global,
    job: &Job,
    frame: &Frame,
    current: &Schema,
) -> Result<State<P::Fetch>, OutOfMemory>
    requires job { IsDeleteJob job.now }
    requires attrs { AreAttrs current.now.attrs }
    ensures is { IfOk result (λ state. (listed : AnyListed) → state ≡ works P.codec job.now job.now.command listed frame.now current.now) }
    ensures may { IfOk result IsLaterState }
    ensures fewer { IfOk result (λ state. calls_left state < 2 ^ 195) }
{
    match check_delete(alloc, frame, current, text_in(job)) {
        Ok(condition) => put_delete(alloc, job, &condition),
        Err(QueryFault::Refused(refusal)) => Ok(refuse(refusal)),
        Err(QueryFault::OutOfMemory) => Err(OutOfMemory),
    }
}

// A delete puts the object of its condition.
fn put_delete<F>(alloc: Global, job: &Job, condition: &Cond) -> Result<State<F>, OutOfMemory>
    ensures is { IfOk result (λ state. state ≡ puts_delete job.now (Ok condition.now)) }
    ensures may { IfOk result IsLaterState }
    ensures fewer { IfOk result (λ state. calls_left state < 2 ^ 195) }
{
    let mut objects = NewObjectList::new(alloc);
    objects.push(NewObject {
        name: Name::Commit(frag_of(job), CommitKind::Del),
        bytes: SharedBytes::of_list(condition.encode(alloc)?)?,
    })?;
    Ok(put(objects, 0, Outcome::Deleted(frag_of(job))))
}

//! What an evolve puts: the schema after its change.
ghost use Rattle.std.specs.Prelude.{◌≡◌, ◌<◌, ◌^◌, IfOk};
ghost use Rattle.ts_model.specs.declared.states.Listed.{Listed as AnyListed};
ghost use Rattle.ts_model.specs.declared.commands.Command.TheVariants.{Evolve};
ghost use Rattle.ts_model.specs.States.{works};
ghost use Rattle.ts_writer.specs.Writing.{IsEvolve, IsEvolveJob, IsLaterState, calls_left};

use crate::ends::refuse;
use crate::making::{Makes, list_schemas, nothing_listed};
use crate::puts::{key_of, put_schema};
use std::alloc::Global;
use std::marker::PhantomData;
use ts_actor::Pieces;
use ts_base::OutOfMemory;
use ts_model::{Command, Job, Listed, Outcome, Refusal, State};
use ts_schema::{Evolution, Frame, Schema, SchemaFault};

/// What evolves put: the schema after their change.
#[derive(Drop)]
pub struct Evolves<P> {
    pieces: PhantomData<P>,
}

impl<P: Pieces> Makes for Evolves<P> {
    type Fetch = P::Fetch;

    ghost codec = { P.codec };

    ghost serves = { IsEvolveJob };

    fn begin(alloc: Global, job: &Job) -> State<P::Fetch> {
        match &job.command {
            Command::Evolve(_) => list_schemas(alloc),
            _ => unreachable!(),
        }
    }

    fn look(alloc: Global, job: &Job) -> Listed {
        match &job.command {
            Command::Evolve(_) => nothing_listed(alloc),
            _ => unreachable!(),
        }
    }

    fn make(
        alloc: Global,
        job: &Job,
        frame: &Frame,
        current: &Schema,
    ) -> Result<State<P::Fetch>, OutOfMemory> {
        evolve::<P>(alloc, job, frame, current)
    }
}

// The change that an evolve makes.
fn change_in(job: &Job) -> &Evolution
    requires { IsEvolve job.now.command }
    ensures { job.now.command ≡ Evolve result.now }
{
    match &job.command {
        Command::Evolve(change) => change,
        _ => unreachable!(),
    }
}

// An evolve puts the schema after its change, or is refused.
fn evolve<P: Pieces>(
    alloc: Global,
    job: &Job,
    frame: &Frame,
    current: &Schema,
) -> Result<State<P::Fetch>, OutOfMemory>
    requires { IsEvolveJob job.now }
    ensures is { IfOk result (λ state. (listed : AnyListed) → state ≡ works P.codec job.now job.now.command listed frame.now current.now) }
    ensures may { IfOk result IsLaterState }
    ensures fewer { IfOk result (λ state. calls_left state < 2 ^ 195) }
{
    match current.evolved(alloc, frame, key_of(job), change_in(job)) {
        Ok(schema) => put_schema(alloc, job, &schema, Outcome::Evolved(key_of(job))),
        Err(SchemaFault::OutOfMemory) => Err(OutOfMemory),
        Err(fault) => Ok(refuse(Refusal::SchemaBad(fault))),
    }
}

//! The lease of a job: the put of it, the verdict on the leases of a listing, and its removal.
ghost use Rattle.std.specs.Prelude.{◌≡◌, ℕ, Some, None, IfSome};
ghost use Rattle.ts_store.specs.Calls.{IsSpelledCall};
ghost use Rattle.ts_model.specs.declared.states.State.{State};
ghost use Rattle.ts_model.specs.declared.states.Stage.TheVariants.{Works, Releases};
ghost use Rattle.ts_model.specs.Stages.{after_lease, after_leases, lease_of, put_lease, released, settled};

use crate::ends::end_by;
use ts_base::{Key, LeaseMode, Name, NameList, Place, Prefix};
use ts_lease::{Verdict, decide};
use ts_model::{Command, Job, Outcome, Refusal, Stage, State};
use ts_store::{Call, Reply, SharedBytes};

/// The lease of a job, if it has one: reads and consolidations share the store with one another, and a
/// vacuum with nobody who has one.
pub(crate) fn lease_of(job: &Job) -> Option<Name>
    ensures { result ≡ lease_of job.now }
{
    let key = Key {
        t: job.at,
        id: job.id,
    };
    match &job.command {
        Command::Read { .. } | Command::Consolidate { .. } => {
            Some(Name::Lease(key, LeaseMode::Shr))
        }
        Command::Vacuum => Some(Name::Lease(key, LeaseMode::Exc)),
        _ => None,
    }
}

/// The put of a lease. It takes no memory.
pub(crate) fn put_lease(lease: Name) -> Call
    ensures { result ≡ put_lease lease }
{
    Call::Put(lease, SharedBytes::new())
}

/// Where a state of the work leads: a job that has a lease removes it before it is over.
pub(crate) fn settled<F: Drop>(lease: Option<Name>, state: State<F>) -> Stage<F>
    ensures { result ≡ settled lease state }
{
    match (lease, state) {
        (Some(lease), State::Over(end)) => Stage::Releases { lease, end },
        (_, state) => Stage::Works(state),
    }
}

/// Where the reply to the put of a lease leads.
pub(crate) fn after_lease<F: Drop>(lease: Name, reply: &Reply) -> Stage<F>
    ensures { result ≡ after_lease lease reply.now }
{
    match reply {
        Reply::Made => Stage::ListsLeases(lease),
        Reply::Taken => Stage::Works(State::Over(Outcome::Refused(Refusal::Taken(lease)))),
        Reply::Failed => Stage::Releases {
            lease,
            end: Outcome::Refused(Refusal::StoreFault(Place::Name(lease))),
        },
        _ => Stage::Releases {
            lease,
            end: Outcome::OutOfMemory,
        },
    }
}

/// Where the reply to the listing of the leases leads, before the work in this state.
pub(crate) fn after_leases<F: Drop>(lease: Name, begins: State<F>, reply: &Reply) -> Stage<F>
    ensures { result ≡ after_leases lease begins reply.now }
{
    match held_up::<F>(lease, reply) {
        None => settled(Some(lease), begins),
        Some(end) => Stage::Releases { lease, end },
    }
}

// The end of a job that does not come to its work by the reply to the listing of the leases.
fn held_up<F: Drop>(lease: Name, reply: &Reply) -> Option<Outcome>
    ensures granted { result ≡ None → (s : State F) → after_leases lease s reply.now ≡ settled (Some lease) s }
    ensures held { IfSome result (λ end. (s : State F) → after_leases lease s reply.now ≡ Releases lease end) }
{
    match reply {
        Reply::Names(names) => match decide(names, lease) {
            Verdict::Granted => None,
            Verdict::Held(other) => Some(Outcome::Refused(Refusal::Leased(other))),
        },
        other => Some(end_by(&Call::List(Prefix::Leases), other)),
    }
}

/// How a job ends whose lease is removed, by the reply to that.
pub(crate) fn released(lease: Name, end: Outcome, reply: &Reply) -> Outcome
    ensures { result ≡ released lease end reply.now }
{
    match (end, reply) {
        (Outcome::Refused(refusal), _) => Outcome::Refused(refusal),
        (Outcome::OutOfMemory, _) => Outcome::OutOfMemory,
        (end, Reply::Removed) => end,
        (_, Reply::Failed) => Outcome::Refused(Refusal::StoreFault(Place::Name(lease))),
        _ => Outcome::OutOfMemory,
    }
}

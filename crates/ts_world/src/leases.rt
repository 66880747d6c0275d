//! Leases that running actors have, and calls that would take them away.
ghost use Rattle.std.specs.Prelude.{◌≡◌, slice_get};
ghost use Rattle.ts_law.specs.Fresh.{id_in};
ghost use Rattle.ts_world.specs.Breaks.{DoesSpare, lease_removed};
ghost use Rattle.ts_world.specs.Slots.{carries, is_live_at, is_live_from, is_other, is_up, standings};

use crate::events::WorldFault;
use crate::slots::Slot;
use ts_actor::Pieces;
use ts_base::Name;
use ts_model::Job;
use ts_store::Call;

/// The identifier that a name carries.
fn id_of(name: Name) -> Option<u128>
    ensures { result ≡ id_in name }
{
    match name {
        Name::Schema(key) => Some(key.id),
        Name::Commit(frag, _) => Some(frag.id),
        Name::Part(frag, _) => Some(frag.id),
        Name::Lease(key, _) => Some(key.id),
        Name::Domain => None,
    }
}

/// Whether a name carries the identifier.
pub(crate) fn carries(name: Name, id: u128) -> bool
    ensures { result ≡ carries id name }
{
    match id_of(name) {
        Some(own) => own == id,
        None => false,
    }
}

/// Refuses a call of an actor, or of nobody, that would take a lease from another actor which runs.
pub(crate) fn spare<P: Pieces>(
    jobs: &[Job],
    slots: &[Slot<P>],
    actor: Option<u32>,
    call: &Call,
) -> Result<(), WorldFault>
    ensures { DoesSpare jobs.now (standings slots.now) actor call.now result }
{
    let Some(lease) = lease_removed(call) else {
        return Ok(());
    };
    if is_live(jobs, slots, actor, lease) {
        return Err(WorldFault::LeaseLive(lease));
    }
    Ok(())
}

// The lease that a call removes, if it removes one.
fn lease_removed(call: &Call) -> Option<Name>
    ensures { result ≡ lease_removed call.now }
{
    match call {
        Call::Remove(Name::Lease(key, mode)) => Some(Name::Lease(*key, *mode)),
        _ => None,
    }
}

/// Whether an actor that runs, other than the one that makes a call, has the identifier of the lease.
pub(crate) fn is_live<P: Pieces>(
    jobs: &[Job],
    slots: &[Slot<P>],
    actor: Option<u32>,
    lease: Name,
) -> bool
    ensures { result ≡ is_live_from 0 jobs.now slots.now actor lease }
{
    for (place, job) in jobs.iter().enumerate() {
        if is_live_at(slots, actor, lease, place, job) {
            return true;
        }
    }
    false
}

// Whether the actor of a job runs, is not the one that makes the call, and has the identifier of the
// lease.
fn is_live_at<P: Pieces>(
    slots: &[Slot<P>],
    actor: Option<u32>,
    lease: Name,
    place: usize,
    job: &Job,
) -> bool
    ensures { result ≡ is_live_at slots.now actor lease place job.now }
{
    carries(lease, job.id) && (is_up(slots, place) && is_other(actor, place))
}

// Whether the actor with a number runs.
fn is_up<P: Pieces>(slots: &[Slot<P>], place: usize) -> bool
    ensures { result ≡ is_up (slice_get slots.now place) }
{
    if slots.len() <= place {
        return false;
    }
    matches!(&slots[place], Slot::Runs(_))
}

// Whether the number is not that of the actor which makes a call.
fn is_other(actor: Option<u32>, place: usize) -> bool
    ensures { result ≡ is_other actor place }
{
    match actor {
        Some(own) => own as usize != place,
        None => true,
    }
}

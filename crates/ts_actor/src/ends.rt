//! How jobs end by replies that do not let them go on.
ghost use Rattle.std.specs.Prelude.{◌≡◌};
ghost use Rattle.ts_model.specs.States.{end_by, place_of};

use ts_base::{Name, Place};
use ts_model::{Outcome, Refusal};
use ts_store::{Call, Reply};

/// The end of a job by a reply that does not let it go on: with the refusal that says so where the
/// call failed, found the name of a put taken or an object missing, and else for want of memory.
pub fn end_by(call: &Call, reply: &Reply) -> Outcome
    ensures { result ≡ end_by call.now reply.now }
{
    match (call, reply) {
        (_, Reply::Failed) => Outcome::Refused(Refusal::StoreFault(place_of(call))),
        (Call::Put(name, _), Reply::Taken) => Outcome::Refused(Refusal::Taken(*name)),
        (Call::Get(name, _, _) | Call::Size(name), Reply::Absent) => {
            Outcome::Refused(Refusal::Missing(*name))
        }
        _ => Outcome::OutOfMemory,
    }
}

// The object or the prefix that a call speaks of.
fn place_of(call: &Call) -> Place
    ensures { result ≡ place_of call.now }
{
    match call {
        Call::List(prefix) => Place::Prefix(*prefix),
        Call::Put(name, _) | Call::Remove(name) | Call::Get(name, _, _) | Call::Size(name) => {
            Place::Name(*name)
        }
    }
}

/// The end of a job that found an object damaged at an offset.
pub fn end_damaged(name: Name, at: u64) -> Outcome
    ensures { result ≡ Outcome.Refused (Refusal.Damaged name at) }
{
    Outcome::Refused(Refusal::Damaged { name, at })
}

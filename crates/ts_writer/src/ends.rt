//! How jobs end by replies that do not let them go on.
ghost use Rattle.std.specs.Prelude.{◌≡◌, ℕ, List};
ghost use Rattle.ts_model.specs.States.{ended, refuse};
ghost use Rattle.ts_writer.specs.Writing.{IsOver};

use ts_base::{Name, Place, Prefix};
use ts_model::{Outcome, Refusal, State};
use ts_store::{Call, Reply};

/// Over with a refusal.
pub(crate) fn refuse<F>(refusal: Refusal) -> State<F>
    ensures is { result ≡ refuse refusal }
    ensures over { IsOver result }
{
    State::Over(Outcome::Refused(refusal))
}

/// How a job ends by a reply to a put that did not make the object.
pub(crate) fn put_ended<F>(name: Name, reply: &Reply) -> State<F>
    ensures over { IsOver result }
    ensures is { (bytes : List ℕ) → result ≡ ended (Call.Put name bytes) reply.now }
{
    match reply {
        Reply::Failed => refuse(Refusal::StoreFault(Place::Name(name))),
        Reply::Taken => refuse(Refusal::Taken(name)),
        _ => State::Over(Outcome::OutOfMemory),
    }
}

/// How a job ends by a reply to a get that has no bytes.
pub(crate) fn get_ended<F>(name: Name, reply: &Reply) -> State<F>
    ensures over { IsOver result }
    ensures is { (from len : ℕ) → result ≡ ended (Call.Get name from len) reply.now }
{
    match reply {
        Reply::Failed => refuse(Refusal::StoreFault(Place::Name(name))),
        Reply::Absent => refuse(Refusal::Missing(name)),
        _ => State::Over(Outcome::OutOfMemory),
    }
}

/// How a job ends by a reply to a listing that has no names.
pub(crate) fn list_ended<F>(prefix: Prefix, reply: &Reply) -> State<F>
    ensures over { IsOver result }
    ensures is { result ≡ ended (Call.List prefix) reply.now }
{
    match reply {
        Reply::Failed => refuse(Refusal::StoreFault(Place::Prefix(prefix))),
        _ => State::Over(Outcome::OutOfMemory),
    }
}

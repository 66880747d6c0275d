//! What may happen in a world, and why an event cannot be.

use ts_base::{Name, OutOfMemory};
use ts_model::Command;
use ts_store::Fate;

/// What happens next in a world.
#[derive(Debug, Drop)]
pub enum Event {
    /// An actor comes, with the command, the stamp (in milliseconds since 1970-01-01) and the
    /// identifier of its job.
    Spawn(Command, u64, u128),
    /// The actor of this number makes its next call, with this fate, and takes the reply.
    Step(u32, Fate),
    /// The actor of this number makes its next call, with this fate, and is dropped before it takes
    /// the reply.
    Stop(u32, Fate),
    /// Somebody who is no actor removes the lease of this name, as that of an actor which is gone.
    Break(Name),
    /// Every running actor is dropped.
    Restart,
}

/// Why an event cannot be. The world is as it was.
#[derive(Clone, Copy, Debug, PartialEq, Eq)]
pub enum WorldFault {
    /// An earlier job or a held name carries this identifier.
    IdTaken(u128),
    /// No running actor has this number.
    NoActor(u32),
    /// A running actor has the identifier of this lease, which was to be taken from it.
    LeaseLive(Name),
    /// There was no memory for the event.
    OutOfMemory,
}

impl From<OutOfMemory> for WorldFault {
    ghost use Rattle.std.specs.Prelude.{◌≡◌};
    ghost use Rattle.ts_world.specs.declared.events.WorldFault.TheVariants as fault;

    ghost from_gives = { λ _ e. e ≡ fault.OutOfMemory };

    fn from(_error: OutOfMemory) -> WorldFault {
        WorldFault::OutOfMemory
    }
}

//! The verdict on a listing of leases.
ghost use Rattle.std.specs.Prelude.{◌≡◌};
ghost use Rattle.ts_lease.specs.Leases.{opposes, modes_oppose, verdict_in};

use ts_base::{LeaseMode, Name, NameList};

/// What a holder finds in a listing of the leases.
#[derive(Clone, Copy, Debug, PartialEq, Eq)]
pub enum Verdict {
    /// No other lease opposes its own one.
    Granted,
    /// This lease, the first that does.
    Held(Name),
}

/// Whether a holder of a lease may go on beside the leases of a listing.
///
/// Shared leases (`.shr`) stand beside one another. An exclusive one (`.exc`) and any other lease
/// oppose each other. The own lease, which is in the listing too, does not count. The first lease
/// that opposes the own one is named. The call takes no memory.
pub fn decide(leases: &NameList, own: Name) -> Verdict
    ensures { result ≡ verdict_in leases.now own }
{
    for other in leases.as_slice() {
        if opposes(own, *other) {
            return Verdict::Held(*other);
        }
    }
    Verdict::Granted
}

// Whether the other name is a lease that opposes the own one.
fn opposes(own: Name, other: Name) -> bool
    ensures { result ≡ opposes own other }
{
    match (own, other) {
        (Name::Lease(_, mode), Name::Lease(_, another)) => {
            do_oppose(mode, another) && own != other
        }
        _ => false,
    }
}

// Whether leases of two holders oppose one another, by their modes.
fn do_oppose(mode: LeaseMode, other: LeaseMode) -> bool
    ensures { result ≡ modes_oppose mode other }
{
    match (mode, other) {
        (LeaseMode::Shr, LeaseMode::Shr) => false,
        _ => true,
    }
}

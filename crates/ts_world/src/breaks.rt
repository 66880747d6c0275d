//! Leases that are removed as those of dead jobs.
ghost use Rattle.std.specs.Prelude.{◌≡◌, OnOk, OnErr};
ghost use Rattle.ts_world.specs.declared.events.Event.TheVariants as event;
ghost use Rattle.ts_world.specs.Slots.{view_of, ArePartsOk};
ghost use Rattle.ts_world.specs.Breaks.{IsLease, without_lease};
ghost use Rattle.ts_world.specs.Clauses.{HasCause};

use crate::events::WorldFault;
use crate::leases::is_live;
use crate::parts::{Parts, make};
use std::alloc::Global;
use ts_actor::Pieces;
use ts_base::Name;
use ts_store::{Call, Fate};

/// Removes a lease that is no running actor's, in the lane that no actor has.
pub(crate) fn break_lease<P: Pieces>(
    parts: &mut Parts<P>,
    alloc: Global,
    lease: Name,
) -> Result<(), WorldFault>
    requires kept { ArePartsOk P.codec P.spelled P.tracks parts.old }
    requires lease { IsLease lease }
    ensures kept { ArePartsOk P.codec P.spelled P.tracks parts.new }
    ensures broken { OnOk result (view_of parts.new ≡ without_lease lease (view_of parts.old)) }
    ensures same { OnErr result (view_of parts.new ≡ view_of parts.old) }
    ensures cause { HasCause P.codec (event.Break lease) (view_of parts.old) result }
{
    if is_live(parts.jobs.as_slice(), parts.slots.as_slice(), None, lease) {
        return Err(WorldFault::LeaseLive(lease));
    }
    let reply = make(parts, alloc, None, Call::Remove(lease), Fate::Done)?;
    drop(reply);
    Ok(())
}

//! The commands of all lanes together, over a store of one's own.
ghost use Rattle.std.specs.Prelude.{◌≡◌, ◌+◌, ℕ, [], IfOk, OnErr};
ghost use Rattle.ts_lanes.specs.Commands.{CameOut};
ghost use Rattle.ts_lanes.specs.Lanes.{AreQueues};
ghost use Rattle.ts_lanes.specs.Together.{DidTogether, Numbers};

use crate::crew::Crew;
use crate::gate::Gate;
use crate::lane::EndList;
use crate::lanes::{Lanes, run_lanes};
use std::alloc::Global;
use std::sync::Wait;
use std::thread::Threads;
use ts_base::OutOfMemory;
use ts_store::{Journal, Store};
use ts_turnstile::{Closed, Turnstile};

/// Does the commands of all lanes over a store, each lane in a thread of its own, and gives the store
/// with the journal of its calls, and how each command came out.
///
/// Each lane has a queue of its commands. It answers `OutOfMemory` where there is no memory for the turnstile or
/// for the results, or where there are more lanes than a `u32` counts. Then no call is made of the store, and
/// the queues are dropped.
pub fn run_together<R: Threads + Wait + Sync, S: Store, C: Crew, G: Gate>(
    rt: &R,
    alloc: Global,
    store: S,
    crew: &C,
    queues: Vec<C::Queue>,
    gate: &G,
) -> (Closed<S>, Result<Vec<EndList>, OutOfMemory>)
    requires queues { AreQueues (C.lane_count crew.now) (C.waits crew.now) queues.items }
    ensures did { IfOk result.1 (λ ends. (index : ℕ → ℕ → ℕ) (lane_of : ℕ → ℕ) → Numbers (C.lane_count crew.now) (C.command_count crew.now) index lane_of → DidTogether (CameOut (C.stop_of crew.now) (C.offers crew.now) C.task C.follows C.ends) (C.lane_count crew.now) (C.command_count crew.now) index lane_of S.held S.last S.faults S.asked S.notes store result.0.store result.0.journal ends.items) }
    ensures short { OnErr result.1 ((result.0.store ≡ store) × (result.0.journal ≡ [])) }
{
    match Turnstile::new(rt, alloc, store) {
        Ok((turnstile, pass)) => match run_lanes(rt, alloc, &turnstile, pass, crew, queues, gate) {
            Ok(Lanes { pass, ends }) => (turnstile.close(pass), Ok(ends)),
            Err(pass) => (turnstile.close(pass), Err(OutOfMemory)),
        },
        Err(store) => {
            let journal = Journal::new(alloc);
            (Closed { store, journal }, Err(OutOfMemory))
        }
    }
}

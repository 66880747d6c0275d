//! Doing the commands of one lane.
ghost use Rattle.std.specs.Prelude.{◌≡◌};
ghost use Rattle.ts_turnstile.specs.Belonging.{Belongs};
ghost use Rattle.ts_turnstile.specs.Passes.{pass_view};
ghost use Rattle.ts_turnstile.specs.Rule.{claim_of};
ghost use Rattle.ts_turnstile.specs.Turns.{turns_by};
ghost use Rattle.ts_lanes.specs.Commands.{CameOut};
ghost use Rattle.ts_lanes.specs.Lanes.{IsReadyLane, LaneDid};

use crate::command::do_command;
use crate::crew::Crew;
use crate::gate::Gate;
use std::alloc::Global;
use std::sync::Wait;
use std::thread::Threads;
use ts_actor::Driven;
use ts_model::Outcome;
use ts_store::Store;
use ts_turnstile::{Pass, Turnstile};

/// How the commands of a lane came out, in order.
pub type EndList = Vec<Driven<Outcome>>;

/// Does the commands of a lane's queue through its pass, one after the other, each once the gate lets it, and
/// gives how each came out. What is left of the queue is dropped.
pub(crate) fn run_lane<R: Threads + Wait + Sync, S: Store, C: Crew, G: Gate>(
    rt: &R,
    alloc: Global,
    turnstile: &Turnstile<S>,
    crew: &C,
    gate: &G,
    pass: Pass,
    room: EndList,
    lane: u32,
    queue: C::Queue,
) -> (Pass, EndList)
    requires own { Belongs turnstile.now pass }
    requires ready { IsReadyLane (C.lane_count crew.now) (C.command_count crew.now) (C.waits crew.now) lane (pass_view pass) room queue }
    ensures own { Belongs turnstile.now result.0 }
    ensures same { claim_of (pass_view result.0) ≡ claim_of (pass_view pass) }
    ensures did { LaneDid (CameOut (C.stop_of crew.now) (C.offers crew.now) C.task C.follows C.ends) (C.command_count crew.now lane) lane result.1.items (turns_by lane (pass_view result.0).seen) }
{
    let mut pass = pass;
    let mut ends = room;
    let mut queue = queue;
    for before in 0..crew.count(lane, &queue) {
        let number = before + 1;
        gate.at(lane, number);
        let end = do_command(
            rt, alloc, turnstile, crew, &mut pass, lane, number, &mut queue,
        );
        ends.push_reserved(end);
    }
    (pass, ends)
}

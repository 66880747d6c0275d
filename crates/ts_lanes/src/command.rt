//! Doing one command of a lane.
ghost use Rattle.std.specs.Prelude.{◌≡◌, ◌+◌};
ghost use Rattle.ts_turnstile.specs.Belonging.{Belongs};
ghost use Rattle.ts_turnstile.specs.Passes.{pass_view};
ghost use Rattle.ts_turnstile.specs.Rule.{claim_of};
ghost use Rattle.ts_turnstile.specs.Turns.{turns_by};
ghost use Rattle.ts_lanes.specs.Commands.{CameOut, DidCommand, IsCommand};

use crate::crew::{Begun, Crew};
use crate::driving::drive_in_turn;
use std::alloc::Global;
use std::sync::Wait;
use std::thread::Threads;
use ts_actor::Driven;
use ts_model::Outcome;
use ts_store::Store;
use ts_turnstile::{Pass, Turnstile};

/// Does the next command of a lane's queue through the pass of the lane, to its end or to its stop. Where there
/// is no memory for its machine it ends so, and makes no call.
pub(crate) fn do_command<R: Threads + Wait + Sync, S: Store, C: Crew>(
    rt: &R,
    alloc: Global,
    turnstile: &Turnstile<S>,
    crew: &C,
    pass: &mut Pass,
    lane: u32,
    number: u32,
    queue: &mut C::Queue,
) -> Driven<Outcome>
    requires own { Belongs turnstile.now pass.old }
    requires lane { (pass_view pass.old).lane ≡ lane }
    requires command { IsCommand (C.lane_count crew.now) (C.command_count crew.now) lane number }
    requires waits { C.waits crew.now lane number queue.old }
    ensures own { Belongs turnstile.now pass.new }
    ensures same { claim_of (pass_view pass.new) ≡ claim_of (pass_view pass.old) }
    ensures lane { (pass_view pass.new).lane ≡ lane }
    ensures waits { C.waits crew.now lane (number + 1) queue.new }
    ensures did { DidCommand (CameOut (C.stop_of crew.now) (C.offers crew.now) C.task C.follows C.ends) lane number (turns_by lane (pass_view pass.old).seen) (turns_by lane (pass_view pass.new).seen) result }
{
    pass.go_to(number);
    let Ok(begun) = crew.begin(alloc, lane, number, queue) else {
        return Driven::Done(Outcome::OutOfMemory);
    };
    let Begun { mut actor, stop } = begun;
    let end = drive_in_turn(rt, alloc, turnstile, crew, pass, &mut actor, &stop);
    crew.dismiss(actor);
    end
}

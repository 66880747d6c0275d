//! Driving a machine through a pass.
ghost use Rattle.std.specs.Prelude.{◌≡◌, ◌-◌, ◌^◌, ℕ, min};
ghost use Rattle.ts_model.specs.Stops.{is_point, cuts};
ghost use Rattle.ts_model.specs.Told.{IsShortCall};
ghost use Rattle.ts_turnstile.specs.Belonging.{Belongs};
ghost use Rattle.ts_turnstile.specs.Passes.{pass_view};
ghost use Rattle.ts_actor.specs.Traces.{start};
ghost use Rattle.ts_actor.specs.Drives.{Drove};
ghost use Rattle.ts_lanes.specs.Commands.{CalledShort};

use crate::crew::Crew;
use std::alloc::Global;
use std::sync::Wait;
use std::thread::Threads;
use ts_actor::{Driven, Step};
use ts_base::{CommitKind, Name, Point, Stop};
use ts_model::Outcome;
use ts_store::{Call, Reply, Store};
use ts_turnstile::{Pass, Turnstile};

/// Makes the calls that a machine of a crew asks for through a pass, one after the other, until it is
/// done or the stop cuts it off.
pub(crate) fn drive_in_turn<R: Threads + Wait + Sync, S: Store, C: Crew>(
    rt: &R,
    alloc: Global,
    turnstile: &Turnstile<S>,
    crew: &C,
    pass: &mut Pass,
    actor: &mut C::A,
    stop: &Stop,
) -> Driven<Outcome>
    requires own { Belongs turnstile.now pass.old }
    requires new { C.follows actor.old start }
    ensures own { Belongs turnstile.now pass.new }
    ensures drove { Drove C.task C.follows C.ends (CalledShort pass.old.number) actor.old actor.new (pass_view pass.old) (pass_view pass.new) stop.now result }
    ensures task { C.task actor.new ≡ C.task actor.old }
{
    let mut made: u64 = 0;
    let mut reply = Reply::Start;
    'asks: loop {
        match crew.next(rt, alloc, actor, reply) {
            Step::Done(out) => return Driven::Done(out),
            Step::Ask(call) => {
                if is_cut(stop, made, &call) {
                    return Driven::Stopped;
                }
                measure(&call);
                reply = turnstile.call_as(rt, alloc, pass, call);
                made = made.saturating_add(1);
            }
        }
    }
}

// An object that is put is short enough to be got at once. The call itself does nothing.
fn measure(call: &Call)
    ensures { IsShortCall call.now }
{
    if let Call::Put(_, bytes) = call {
        let _count = bytes.len();
    }
}

// Whether the stop cuts a machine off where it would make this call, after so many others: their
// count stays at its end.
fn is_cut(stop: &Stop, made: u64, call: &Call) -> bool
    ensures { (n : ℕ) → made ≡ min n (2 ^ 64 - 1) → result ≡ cuts stop.now n call.now }
{
    match stop {
        Stop::Never => false,
        Stop::Calls(most) => *most <= made,
        Stop::Before(point) => is_at(*point, call),
    }
}

// Whether a call is one of the kind that a stop names.
fn is_at(point: Point, call: &Call) -> bool
    ensures { result ≡ is_point point call.now }
{
    match (point, call) {
        (Point::Vac, Call::Put(Name::Commit(_, CommitKind::Vac), _)) => true,
        (Point::Wrt, Call::Put(Name::Commit(_, CommitKind::Wrt), _)) => true,
        (Point::PartGone, Call::Remove(Name::Part(_, _))) => true,
        _ => false,
    }
}

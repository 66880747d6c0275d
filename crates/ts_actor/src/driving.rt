//! Driving a machine over a store.
ghost use Rattle.std.specs.Prelude.{◌≡◌, ◌-◌, ◌^◌, ℕ, min};
ghost use Rattle.ts_store.specs.Recorders.{WasMade};
ghost use Rattle.ts_model.specs.Stops.{is_point, cuts};
ghost use Rattle.ts_model.specs.Told.{IsShortCall};
ghost use Rattle.ts_actor.specs.Traces.{start};
ghost use Rattle.ts_actor.specs.Drives.{Exchanged, Drove};

use crate::actor::{Actor, Step};
use std::alloc::Global;
use std::thread::Threads;
use ts_base::{CommitKind, Name, Point, Stop};
use ts_model::Driven;
use ts_store::{Call, Reply, Store, apply};

/// Makes the calls that a machine asks for, one after the other, until it is done or the stop cuts
/// it off.
///
/// The calls that were made are a trace: each was asked for by a machine of this task that followed
/// the calls before it, and the end is one that the task has by them. A machine that is cut off would
/// have made the call where the stop cuts, and did not.
pub fn drive<R: Threads + Sync, A: Actor, S: Store>(
    rt: &R,
    alloc: Global,
    actor: &mut A,
    store: &mut S,
    stop: &Stop,
) -> Driven<A::Out>
    requires { A.follows actor.old start }
    ensures drove { Drove A.task A.follows A.ends (Exchanged S.held S.last S.faults (WasMade S.asked S.notes)) actor.old actor.new store.old store.new stop.now result }
    ensures task { A.task actor.new ≡ A.task actor.old }
{
    let mut made: u64 = 0;
    let mut reply = Reply::Start;
    'asks: loop {
        match actor.next(rt, alloc, reply) {
            Step::Done(out) => return Driven::Done(out),
            Step::Ask(call) => {
                if is_cut(stop, made, &call) {
                    return Driven::Stopped;
                }
                measure(&call);
                reply = apply(alloc, store, &call);
                made = made.saturating_add(1);
            }
        }
    }
}

// An object that is put is short enough to be got at once. The call itself does nothing.
fn measure(call: &Call)
    ensures { IsShortCall call.now }
{
    if let Call::Put(_, bytes) = call {
        let _count = bytes.len();
    }
}

// Whether the stop cuts a machine off where it would make this call, after so many others: their
// count stays at its end.
fn is_cut(stop: &Stop, made: u64, call: &Call) -> bool
    ensures { (n : ℕ) → made ≡ min n (2 ^ 64 - 1) → result ≡ cuts stop.now n call.now }
{
    match stop {
        Stop::Never => false,
        Stop::Calls(most) => *most <= made,
        Stop::Before(point) => is_at(*point, call),
    }
}

// Whether a call is one of the kind that a stop names.
fn is_at(point: Point, call: &Call) -> bool
    ensures { result ≡ is_point point call.now }
{
    match (point, call) {
        (Point::Vac, Call::Put(Name::Commit(_, CommitKind::Vac), _)) => true,
        (Point::Wrt, Call::Put(Name::Commit(_, CommitKind::Wrt), _)) => true,
        (Point::PartGone, Call::Remove(Name::Part(_, _))) => true,
        _ => false,
    }
}

//! Running all lanes, each in a thread of its own.
ghost use Rattle.std.specs.Prelude.{◌≡◌, ◌-◌, ◌<◌, [], ◌∷◌, ◌++◌, length, vec_capacity, IfOk, IfErr};
ghost use Rattle.std.specs.Thread.{IsSync};
ghost use Rattle.ts_turnstile.specs.Belonging.{Belongs};
ghost use Rattle.ts_turnstile.specs.Passes.{pass_view};
ghost use Rattle.ts_turnstile.specs.Turns.{turns_by};
ghost use Rattle.ts_turnstile.specs.Rule.{claim_of};
ghost use Rattle.ts_lanes.specs.Commands.{CameOut};
ghost use Rattle.ts_lanes.specs.Lanes.{AreQueues, AreRooms, DidDown, IsNewLane, IsReady, IsReadyLane, LaneDid, LanesDid, MaySplit};

use crate::crew::Crew;
use crate::gate::Gate;
use crate::lane::{EndList, run_lane};
use std::alloc::Global;
use std::sync::Wait;
use std::thread::{Threads, join};
use ts_base::OutOfMemory;
use ts_store::Store;
use ts_turnstile::{Pass, Turnstile};

/// What is left once all lanes have done their commands.
pub struct Lanes {
    /// The first pass, into which those of all lanes were joined.
    pub pass: Pass,
    /// For each lane, in order, how its commands came out.
    pub ends: Vec<EndList>,
}

/// Does the commands of all lanes, each lane in a thread of its own and through a pass of its own, and
/// gives how each came out. Lane 0 has the first pass, off which the others are split.
///
/// Each lane has a queue of its commands. The memory for all results is taken first: for want of it, or where
/// there are more lanes than a `u32` counts, no call is made, the queues are dropped, and the pass comes back.
/// As many threads wait for one another as there are lanes.
pub fn run_lanes<R: Threads + Wait + Sync, S: Store, C: Crew, G: Gate>(
    rt: &R,
    alloc: Global,
    turnstile: &Turnstile<S>,
    pass: Pass,
    crew: &C,
    queues: Vec<C::Queue>,
    gate: &G,
) -> Result<Lanes, Pass>
    requires own { Belongs turnstile.now pass }
    requires first { MaySplit 0 0 (pass_view pass) }
    requires none { (pass_view pass).split_off ≡ [] }
    requires queues { AreQueues (C.lane_count crew.now) (C.waits crew.now) queues.items }
    ensures own { IfOk result (λ lanes. Belongs turnstile.now lanes.pass) }
    ensures did { IfOk result (λ lanes. LanesDid (CameOut (C.stop_of crew.now) (C.offers crew.now) C.task C.follows C.ends) (C.lane_count crew.now) (C.command_count crew.now) lanes.ends.items (pass_view lanes.pass)) }
    ensures short { IfErr result (λ back. back ≡ pass) }
{
    let Ok(lanes) = u32::try_from(queues.len()) else {
        return Err(pass);
    };
    let Ok(rooms) = rooms_of(alloc, crew, lanes, queues.as_slice()) else {
        return Err(pass);
    };
    let Some(top) = lanes.checked_sub(1) else {
        return Ok(Lanes { pass, ends: rooms });
    };
    let (pass, ends) = run_down(
        rt, alloc, turnstile, crew, gate, pass, rooms, queues, top, top,
    );
    Ok(Lanes { pass, ends })
}

// Room for the results of each lane.
fn rooms_of<C: Crew>(
    alloc: Global,
    crew: &C,
    lanes: u32,
    queues: &[C::Queue],
) -> Result<Vec<EndList>, OutOfMemory>
    requires lanes { lanes ≡ C.lane_count crew.now }
    requires queues { AreQueues lanes (C.waits crew.now) queues.now }
    ensures lanes { IfOk result (λ rooms. length rooms.items ≡ lanes) }
    ensures each { IfOk result (λ rooms. AreRooms (C.command_count crew.now) rooms.items) }
{
    let mut rooms = Vec::with_capacity(alloc, lanes as usize)?;
    for lane in 0..lanes {
        let count = count_of(crew, lane, lanes, queues);
        rooms.push(Vec::with_capacity(alloc, count as usize)?)?;
    }
    Ok(rooms)
}

// How many commands a lane has, by its queue.
#[tactic(auto, using(crate::proofs::Passing::queue_there))]
fn count_of<C: Crew>(crew: &C, lane: u32, lanes: u32, queues: &[C::Queue]) -> u32
    requires lane { lane < lanes }
    requires lanes { lanes ≡ C.lane_count crew.now }
    requires queues { AreQueues lanes (C.waits crew.now) queues.now }
    ensures { result ≡ C.command_count crew.now lane }
{
    crew.count(lane, &queues[lane as usize])
}

// Runs the lanes from 0 up to one, and joins their passes into the first.
fn run_down<R: Threads + Wait + Sync, S: Store, C: Crew, G: Gate>(
    rt: &R,
    alloc: Global,
    turnstile: &Turnstile<S>,
    crew: &C,
    gate: &G,
    pass: Pass,
    rooms: Vec<EndList>,
    queues: Vec<C::Queue>,
    lane: u32,
    top: u32,
) -> (Pass, Vec<EndList>)
    requires own { Belongs turnstile.now pass }
    requires ready { IsReady (C.lane_count crew.now) (C.command_count crew.now) (C.waits crew.now) top lane (pass_view pass) rooms.items queues.items }
    ensures own { Belongs turnstile.now result.0 }
    ensures did { DidDown (CameOut (C.stop_of crew.now) (C.offers crew.now) C.task C.follows C.ends) (C.command_count crew.now) top lane result.1.items (pass_view result.0) }
    ensures room { vec_capacity result.1 ≡ vec_capacity rooms }
{
    let mut pass = pass;
    let mut rooms = rooms;
    let mut queues = queues;
    if lane == 0 {
        return run_first(rt, alloc, turnstile, crew, gate, pass, rooms, queues, top);
    }
    let below = lane - 1;
    let (other, room, queue) = part(
        alloc,
        turnstile,
        crew,
        &mut pass,
        &mut rooms,
        &mut queues,
        lane,
        top,
    );
    let ((first, mut lists), (other, ends)) = join(
        rt,
        move || -> (Pass, Vec<EndList>)
            requires { IsSync R.row × Belongs turnstile.now pass × IsReady (C.lane_count crew.now) (C.command_count crew.now) (C.waits crew.now) top below (pass_view pass) rooms.items queues.items }
            ensures own { Belongs turnstile.entry.now result.0 }
            ensures did { DidDown (CameOut (C.stop_of crew.entry.now) (C.offers crew.entry.now) C.task C.follows C.ends) (C.command_count crew.entry.now) top below result.1.items (pass_view result.0) }
            ensures room { vec_capacity result.1 ≡ vec_capacity rooms }
        {
            run_down(
                rt, alloc, turnstile, crew, gate, pass, rooms, queues, below, top,
            )
        },
        move || -> (Pass, EndList)
            requires { IsSync R.row × Belongs turnstile.now other × IsReadyLane (C.lane_count crew.now) (C.command_count crew.now) (C.waits crew.now) lane (pass_view other) room queue }
            ensures own { Belongs turnstile.entry.now result.0 }
            ensures same { claim_of (pass_view result.0) ≡ claim_of (pass_view other) }
            ensures did { LaneDid (CameOut (C.stop_of crew.entry.now) (C.offers crew.entry.now) C.task C.follows C.ends) (C.command_count crew.entry.now lane) lane result.1.items (turns_by lane (pass_view result.0).seen) }
        { run_lane(rt, alloc, turnstile, crew, gate, other, room, lane, queue) },
    );
    lists.push_reserved(ends);
    let mut first = first;
    turnstile.join(&mut first, other);
    (first, lists)
}

// Runs lane 0 through the first pass.
fn run_first<R: Threads + Wait + Sync, S: Store, C: Crew, G: Gate>(
    rt: &R,
    alloc: Global,
    turnstile: &Turnstile<S>,
    crew: &C,
    gate: &G,
    pass: Pass,
    rooms: Vec<EndList>,
    queues: Vec<C::Queue>,
    top: u32,
) -> (Pass, Vec<EndList>)
    requires own { Belongs turnstile.now pass }
    requires ready { IsReady (C.lane_count crew.now) (C.command_count crew.now) (C.waits crew.now) top 0 (pass_view pass) rooms.items queues.items }
    ensures own { Belongs turnstile.now result.0 }
    ensures did { DidDown (CameOut (C.stop_of crew.now) (C.offers crew.now) C.task C.follows C.ends) (C.command_count crew.now) top 0 result.1.items (pass_view result.0) }
    ensures room { vec_capacity result.1 ≡ vec_capacity rooms }
{
    let mut rooms = rooms;
    let mut queues = queues;
    let room = take_last(&mut rooms);
    let queue = take_last(&mut queues);
    let (pass, ends) = run_lane(rt, alloc, turnstile, crew, gate, pass, room, 0, queue);
    rooms.push_reserved(ends);
    (pass, rooms)
}

// Splits the pass of a lane off the first pass, and takes the lane's room and its queue.
fn part<S: Store, C: Crew>(
    alloc: Global,
    turnstile: &Turnstile<S>,
    crew: &C,
    pass: &mut Pass,
    rooms: &mut Vec<EndList>,
    queues: &mut Vec<C::Queue>,
    lane: u32,
    top: u32,
) -> (Pass, EndList, C::Queue)
    requires own { Belongs turnstile.now pass.old }
    requires some { 0 < lane }
    requires ready { IsReady (C.lane_count crew.now) (C.command_count crew.now) (C.waits crew.now) top lane (pass_view pass.old) rooms.old.items queues.old.items }
    ensures own { Belongs turnstile.now pass.new × Belongs turnstile.now result.0 }
    ensures ready { IsReady (C.lane_count crew.now) (C.command_count crew.now) (C.waits crew.now) top (lane - 1) (pass_view pass.new) rooms.new.items queues.new.items }
    ensures lane { IsReadyLane (C.lane_count crew.now) (C.command_count crew.now) (C.waits crew.now) lane (pass_view result.0) result.1 result.2 }
    ensures room { vec_capacity rooms.new ≡ vec_capacity rooms.old }
{
    let other = split_off(alloc, turnstile, pass, lane, top);
    let room = take_last(rooms);
    let queue = take_last(queues);
    (other, room, queue)
}

// Takes what a list has for the highest lane that is left.
fn take_last<T>(list: &mut Vec<T>) -> T
    requires { 0 < length list.old.items }
    ensures parts { list.old.items ≡ list.new.items ++ result ∷ [] }
    ensures room { vec_capacity list.new ≡ vec_capacity list.old }
{
    let Some(last) = list.pop() else {
        unreachable!();
    };
    last
}

// Splits the pass of a lane off the first pass.
fn split_off<S: Store>(
    alloc: Global,
    turnstile: &Turnstile<S>,
    pass: &mut Pass,
    lane: u32,
    top: u32,
) -> Pass
    requires own { Belongs turnstile.now pass.old }
    requires some { 0 < lane }
    requires may { MaySplit top lane (pass_view pass.old) }
    ensures own { Belongs turnstile.now pass.new × Belongs turnstile.now result }
    ensures may { MaySplit top (lane - 1) (pass_view pass.new) }
    ensures new { IsNewLane lane (pass_view result) }
{
    let Ok(other) = turnstile.split(alloc, pass, lane) else {
        unreachable!();
    };
    other
}

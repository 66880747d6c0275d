//! The crew of a script: who does the commands of its lanes.
ghost use Rattle.std.specs.Prelude.{◌≡◌, ◌+◌, ◌≤◌, [], length, vec_capacity, IfOk, OnErr};
ghost use Rattle.ts_store.specs.Counts.{capped};
ghost use Rattle.ts_store.specs.Journals.{failures};
ghost use Rattle.ts_model.specs.Driven.{EndsBy};
ghost use Rattle.ts_law.specs.Fresh.{in_lane_order};
ghost use Rattle.ts_script.specs.Script.{AreLimited};
ghost use Rattle.ts_commands.specs.Actors.{Follows, calls_left, job_of};
ghost use Rattle.ts_top.specs.Crews.{IsTaskOf, count_of, stop_of};
ghost use Rattle.ts_top.specs.Items.{lanes_in};
ghost use Rattle.ts_top.specs.Queues.{AreLaid, Waits};
ghost use Rattle.ts_top.specs.Runners.{JustMade, RanLines, run_codec, run_left};

use crate::jobs::{job_of, stamp_of};
use crate::queues::{Queue, queues_of};
use crate::results::in_one;
use crate::tiled::Tiled;
use std::alloc::Global;
use std::sync::Wait;
use std::thread::Threads;
use ts_actor::{Actor, Step};
use ts_base::OutOfMemory;
use ts_commands::AnyActor;
use ts_lanes::{Begun, Crew, EndList, Gate, run_together};
use ts_model::{Job, LineList, Outcome};
use ts_store::{Clock, Journal, Reply, Store};
use ts_turnstile::{Closed, Told};

/// Who does the commands of a script. Each becomes a job as it starts.
#[derive(Drop)]
struct LineCrew<'c, C: Clock> {
    // What gives stamps to lines that have none.
    clock: &'c C,
    // The seed of the run.
    seed: u64,
    // The lines of the script, in its order. Clauses alone see them: the lines themselves are in the queues.
    lines: Told<LineList>,
}

impl<C: Clock> Crew for LineCrew<'_, C> {
    type A = AnyActor<Tiled>;

    type Task = Job;

    type Queue = Queue;

    ghost lane_count = { λ crew. lanes_in crew.lines.value };

    ghost command_count = { λ crew. count_of crew.lines.value };

    ghost stop_of = { λ crew. stop_of crew.lines.value };

    ghost waits = { λ crew. Waits crew.lines.value };

    ghost offers = { λ crew. IsTaskOf (C.gives crew.clock.now) crew.seed crew.lines.value };

    ghost task = { job_of };

    ghost follows = { Follows run_codec };

    ghost ends = { λ job past end. EndsBy run_codec job past end };

    ghost measure = { calls_left run_left };

    fn count(&self, _lane: u32, queue: &Queue) -> u32 {
        queue.len() as u32
    }

    fn begin(
        &self,
        _alloc: Global,
        _lane: u32,
        number: u32,
        queue: &mut Queue,
    ) -> Result<Begun<AnyActor<Tiled>>, OutOfMemory> {
        let Some(line) = queue.take() else {
            unreachable!();
        };
        let at = stamp_of(&line, self.clock.now());
        let stop = line.stop;
        let actor = AnyActor::of(job_of(self.seed, number, line, at));
        Ok(Begun { actor, stop })
    }

    fn next<R: Threads + Sync>(
        &self,
        rt: &R,
        alloc: Global,
        actor: &mut AnyActor<Tiled>,
        reply: Reply,
    ) -> Step<Outcome> {
        actor.next(rt, alloc, reply)
    }

    fn dismiss(&self, _actor: AnyActor<Tiled>) {}
}

/// Does the commands of these lines over a store, those of each lane in a thread of its own, and gives the
/// store with the journal of its calls, and how each command came out, in lane order.
///
/// The memory for all results and for the queues is taken first: for want of it nothing is done. A line is let
/// go as soon as its command is done.
pub(crate) fn run_lines<R: Threads + Wait + Sync, S: Store, C: Clock, G: Gate>(
    rt: &R,
    alloc: Global,
    seed: u64,
    store: S,
    lines: LineList,
    clock: &C,
    gate: &G,
) -> (Closed<S>, Result<EndList, OutOfMemory>)
    requires { AreLimited lines }
    ensures ran { IfOk result.1 (λ results. RanLines S.held (JustMade S.held S.last S.faults S.asked S.notes) (C.gives clock.now) seed (in_lane_order lines) store result.0.store result.0.journal results.items) }
    ensures counted { capped (S.faults store + failures result.0.journal) ≤ S.faults result.0.store }
    ensures short { OnErr result.1 ((result.0.store ≡ store) × (result.0.journal ≡ [])) }
{
    let crew = LineCrew {
        clock,
        seed,
        lines: Told::of(&lines),
    };
    let Ok((queues, room)) = prepare(alloc, lines) else {
        let journal = Journal::new(alloc);
        return (Closed { store, journal }, Err(OutOfMemory));
    };
    let (closed, ends) = run_together(rt, alloc, store, &crew, queues, gate);
    match ends {
        Ok(ends) => (closed, Ok(in_one(room, ends))),
        Err(OutOfMemory) => (closed, Err(OutOfMemory)),
    }
}

// The lines in queues, and room for how their commands come out.
fn prepare(alloc: Global, lines: LineList) -> Result<(Vec<Queue>, EndList), OutOfMemory>
    requires { AreLimited lines }
    ensures queues { IfOk result (λ both. AreLaid (lanes_in lines) lines both.0.items) }
    ensures empty { IfOk result (λ both. both.1.items ≡ []) }
    ensures room { IfOk result (λ both. vec_capacity both.1 ≡ length lines) }
{
    let room = Vec::with_capacity(alloc, lines.len() as usize)?;
    let queues = queues_of(alloc, lines)?;
    Ok((queues, room))
}

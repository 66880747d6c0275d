//! Fetches that make the calls of a plan, and then judge what they got.
ghost use Rattle.std.specs.Prelude.{◌≡◌, ◌<◌, ◌^◌, ℕ, List, [], All};
ghost use Rattle.ts_base.specs.Names.{IsSpelledFrag};
ghost use Rattle.ts_actor.specs.Fetches.{IsStep, FallsAtAsk, AsksSpelled};
ghost use Rattle.ts_fetch.specs.Plans.{IsSpelledPlanned, begun, asks_next, plan_steps, calls_left, MayLack, LacksFor};

use crate::judging::{Judge, Verdict};
use crate::planned::Planned;
use std::alloc::Global;
use std::collections::VecDeque;
use std::marker::Model;
use std::thread::Threads;
use ts_actor::Fetched;
use ts_base::FragKey;
use ts_store::{Reply, SharedBytes};

/// How far a fetch of a fragment in tiles has come: what it knows from the metadata, the call that it
/// waits for, the calls that are left, and the ranges that it got so far.
#[derive(Drop)]
pub struct TileFetch<J> {
    given: J,
    frag: FragKey,
    waits: Option<Planned>,
    left: VecDeque<Planned>,
    got: Vec<SharedBytes>,
}

impl<J> Model for TileFetch<J> {
    ghost use Rattle.std.specs.Prelude.{All};
    ghost use Rattle.ts_base.specs.Names.{IsSpelledFrag};
    ghost use Rattle.ts_fetch.specs.Plans.{Going, IsSpelledPlanned};

    ghost Value = { Going J };

    ghost view = { λ fetch. record { given = fetch.given; frag = fetch.frag; waits = fetch.waits; left = fetch.left.items; got = fetch.got.items } };

    ghost invariant = { λ fetch. IsSpelledFrag fetch.frag × All IsSpelledPlanned fetch.left.items };
}

impl<J: Judge> TileFetch<J> {
    /// A fetch that will make these calls on parts of the fragment, in their order, and then judge the
    /// ranges that it got by what is given. It takes no memory.
    pub fn new(alloc: Global, given: J, frag: FragKey, plan: VecDeque<Planned>) -> Self
        requires frag { IsSpelledFrag frag }
        requires plan { All IsSpelledPlanned plan.items }
        ensures is { result ≡ begun given frag plan.items }
        ensures few { calls_left result < 2 ^ 128 }
    {
        let _count = plan.len();
        TileFetch {
            given,
            frag,
            waits: None,
            left: plan,
            got: Vec::new(alloc),
        }
    }

    /// Goes on with the reply to the call that the fetch asked for. The first reply is `Start`, each later
    /// one is bytes or a length.
    ///
    /// The answer is the next call of the plan while one is left, and then what the judge says: all
    /// versions that are wanted, or the part that breaks its layout. A told size other than the stated
    /// one is damage at the lesser of the two, before any later call is made. Where there is no memory
    /// to keep a range or to judge, and where a reply of another kind comes, it is `OutOfMemory`.
    pub fn next<R: Threads + Sync>(&mut self, rt: &R, alloc: Global, reply: Reply) -> Fetched
        ensures is { IsStep (plan_steps J.judge self.old reply) self.new result }
        ensures falls { FallsAtAsk (calls_left self.old) (calls_left self.new) result }
        ensures spelled { AsksSpelled result }
        ensures lacks { LacksFor (MayLack self.old.waits self.old.left reply) result }
    {
        match self.waits {
            None => self.go_on(rt, alloc),
            Some(Planned::SizeOf(part, size)) => match reply {
                Reply::Length(count) => {
                    if count == size {
                        self.go_on(rt, alloc)
                    } else {
                        let at = count.min(size);
                        Fetched::Damaged { part, at }
                    }
                }
                _ => Fetched::OutOfMemory,
            },
            Some(Planned::Range(..)) => match reply {
                Reply::Bytes(bytes) => match self.got.push(bytes) {
                    Ok(()) => self.go_on(rt, alloc),
                    Err(_) => Fetched::OutOfMemory,
                },
                _ => Fetched::OutOfMemory,
            },
        }
    }

    // Asks for the next call, or judges what was got.
    fn go_on<R: Threads + Sync>(&mut self, rt: &R, alloc: Global) -> Fetched
        ensures is { IsStep (asks_next J.judge self.old.given self.old.frag self.old.left self.old.got) self.new result }
        ensures falls { FallsAtAsk (calls_left self.old) (calls_left self.new) result }
        ensures spelled { AsksSpelled result }
        ensures lacks { LacksFor (self.old.left ≡ []) result }
    {
        match self.left.pop_front() {
            Some(planned) => {
                self.waits = Some(planned);
                Fetched::Ask(planned.call(self.frag))
            }
            None => match self.given.judge(rt, alloc, self.got.as_slice()) {
                Ok(Verdict::Whole(versions)) => Fetched::Got(versions),
                Ok(Verdict::Broken(part, at)) => Fetched::Damaged { part, at },
                Err(_) => Fetched::OutOfMemory,
            },
        }
    }
}

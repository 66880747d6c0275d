//! Lanes on threads: the calls of two lanes in one journal, and how their commands came out.
ghost use Rattle.std.specs.Prelude.{◌≡◌, ◌+◌, ◌-◌};
ghost use Rattle.ts_base.specs.Names.{IsSpelled};
ghost use Rattle.ts_base.specs.declared.heads.Stop.TheVariants.{Calls};

use std::alloc::Global;
use std::test::Fail;
use std::thread::Threads;
use ts_actor::{Driven, Step};
use ts_base::{Key, Name, OutOfMemory, Stop};
use ts_lanes::{Begun, Crew, OpenGate, run_together};
use ts_model::Outcome;
use ts_store::{Call, Entry, FaultList, MemStore, Reply, SharedBytes};
use ts_turnstile::Closed;

// How many lanes there are, and how many commands each has.
const LANES: u32 = 2;

const COMMANDS: u32 = 3;

// Puts as many objects as its number says, and ends with how many it made. Each has a name of its own.
#[derive(Drop)]
struct Filing {
    lane: u32,
    number: u32,
    turn: u32,
    made: u64,
}

// The name of the object that a command of a lane puts in a turn.
fn name_of(lane: u32, number: u32, turn: u32) -> Name
    ensures { IsSpelled result }
{
    Name::Schema(Key {
        t: u64::from(number) * 10 + u64::from(turn),
        id: u128::from(lane),
    })
}

// Each command is stopped where it would make its third call. A lane's queue is how many commands it has left.
struct Clerks;

impl Crew for Clerks {
    type A = Filing;

    type Task = u8;

    type Queue = u32;

    ghost lane_count = { λ _. 2 };

    ghost command_count = { λ _ _. 3 };

    ghost stop_of = { λ _ _ _. Calls 2 };

    ghost waits = { λ _ _ number left. number + left ≡ 4 };

    ghost offers = { λ _ _ _ _. Unit {0} };

    ghost task = { λ _. 0 };

    ghost follows = { λ _ _. Unit {0} };

    ghost ends = { λ _ _ _. Unit {0} };

    ghost measure = { λ filing. filing.number - filing.turn };

    fn count(&self, _lane: u32, left: &u32) -> u32 {
        *left
    }

    fn begin(
        &self,
        _alloc: Global,
        lane: u32,
        number: u32,
        left: &mut u32,
    ) -> Result<Begun<Filing>, OutOfMemory> {
        *left -= 1;
        let actor = Filing {
            lane,
            number,
            turn: 0,
            made: 0,
        };
        let stop = Stop::Calls(2);
        Ok(Begun { actor, stop })
    }

    fn next<R: Threads + Sync>(
        &self,
        _rt: &R,
        alloc: Global,
        actor: &mut Filing,
        reply: Reply,
    ) -> Step<Outcome> {
        if reply == Reply::Made {
            actor.made = actor.made.saturating_add(1);
        }
        if actor.turn >= actor.number {
            return Step::Done(Outcome::Vacuumed(actor.made));
        }
        actor.turn += 1;
        let name = name_of(actor.lane, actor.number, actor.turn);
        Step::Ask(Call::Put(name, SharedBytes::new()))
    }

    fn dismiss(&self, _actor: Filing) {}
}

// The names of the objects that the entries of a lane put, as far as they are as wanted.
fn agree(entries: &[Entry], lane: u32) -> usize {
    let wanted = [(1, 1), (2, 1), (2, 2), (3, 1), (3, 2)];
    let mut count = 0;
    for entry in entries {
        if entry.lane == lane && count < wanted.len() {
            let (number, turn) = wanted[count];
            if matches!(&entry.call, Call::Put(name, _) if *name == name_of(lane, number, turn)) {
                count += 1;
            }
        }
    }
    count
}

#[test]
fn two_lanes_have_one_journal_and_their_own_ends(rt: HostRuntime) -> Result<(), Fail> {
    let alloc = rt.alloc();
    let store = MemStore::new(alloc, FaultList::new(alloc));
    let mut queues = Vec::new(alloc);
    queues.push(COMMANDS)?;
    queues.push(COMMANDS)?;
    let (closed, ends) = run_together(&rt, alloc, store, &Clerks, queues, &OpenGate);
    let Closed { store, journal } = closed;
    assert_eq!(rt; journal.len(), 10);
    assert_eq!(rt; store.names(alloc)?.len(), 10);
    for lane in 0..LANES {
        assert_eq!(rt; agree(journal.as_slice(), lane), 5, "of lane {lane}");
    }
    let Ok(ends) = ends else {
        return Err(Fail::from("no memory"));
    };
    assert_eq!(rt; ends.len(), 2);
    for own in ends.iter() {
        assert_eq!(rt;
            own.as_slice(),
            [
                Driven::Done(Outcome::Vacuumed(1)),
                Driven::Done(Outcome::Vacuumed(2)),
                Driven::Stopped,
            ]
            .as_slice()
        );
    }
    Ok(())
}

//! Worlds with vacuums, and leases that keep them apart from readers.

ghost use Rattle.ts_world.specs.Breaks.{IsLease};

use super::merging::{consolidate, written_twice};
use super::{create, finish, first_world, has_read, read, spawn, vacuum};
use std::alloc::Global;
use std::test::Fail;
use std::thread::Threads;
use ts_actor::PlainPieces;
use ts_base::{Key, LeaseMode, Name};
use ts_model::{Command, Outcome, Refusal};
use ts_store::{Call, Entry, Fate};
use ts_world::{Event, World, WorldFault};

// The lease of a job of these worlds.
fn lease(id: u128, mode: LeaseMode) -> Name
    ensures { IsLease result }
{
    Name::Lease(Key { t: 9, id }, mode)
}

// Whether the actor is a vacuum that ended.
fn has_vacuumed(world: &World<PlainPieces>, actor: u32) -> bool {
    matches!(world.answer_of(actor), Some(Outcome::Vacuumed(_)))
}

// A world whose two fragments are merged, with two vacuums, the actors 4 and 5, and two readers, the
// actors 6 and 7. The identifier of an actor is its number and 1.
fn merged_once<R: Threads + Sync>(rt: &R, alloc: Global) -> Result<World<PlainPieces>, Fail> {
    let mut world = written_twice(rt, alloc)?;
    consolidate(rt, alloc, &mut world, 4)?;
    vacuum(rt, alloc, &mut world, 5)?;
    vacuum(rt, alloc, &mut world, 6)?;
    read(rt, alloc, &mut world, 7)?;
    read(rt, alloc, &mut world, 8)?;
    for actor in 0..4 {
        finish(rt, alloc, &mut world, actor)?;
    }
    Ok(world)
}

// Drops the vacuum 4 after so many calls and one more. Says whether it came so far.
fn stop_after<R: Threads + Sync>(
    rt: &R,
    alloc: Global,
    world: &mut World<PlainPieces>,
    calls: u64,
) -> Result<bool, WorldFault> {
    for _ in 0..calls {
        world.step(rt, alloc, Event::Step(4, Fate::Done))?;
        if world.answer_of(4).is_some() {
            return Ok(false);
        }
    }
    world.step(rt, alloc, Event::Stop(4, Fate::Done))?;
    Ok(true)
}

#[test]
fn a_vacuum_may_stop_after_any_call(rt: HostRuntime) -> Result<(), Fail> {
    let alloc = rt.alloc();
    let cells = [[1, 1], [2, 2]];
    let mut stops = 0_u64;
    for calls in 0..99_u64 {
        let mut world = merged_once(&rt, alloc)?;
        if !stop_after(&rt, alloc, &mut world, calls)? {
            break;
        }
        stops = calls;
        world.step(&rt, alloc, Event::Break(lease(5, LeaseMode::Exc)))?;
        for actor in [6, 5, 7] {
            finish(&rt, alloc, &mut world, actor)?;
        }
        assert!(rt; has_read(alloc, &world, 6, &cells)?, "after {calls} calls");
        assert!(rt; has_vacuumed(&world, 5), "after {calls} calls");
        assert!(rt; has_read(alloc, &world, 7, &cells)?, "after {calls} calls");
    }
    // Of two fragments it removes the `.wrt` and the one part that each has, and a `.vac`.
    assert!(rt; stops > 9, "{stops} calls");
    Ok(())
}

// A world with a reader, the actor 1, two vacuums, the actors 2 and 3, and an unlock of another
// seed, the actor 4.
fn locked<R: Threads + Sync>(rt: &R, alloc: Global) -> Result<World<PlainPieces>, Fail> {
    let mut world = first_world(alloc);
    spawn(rt, alloc, &mut world, create(alloc)?, 1, 1)?;
    read(rt, alloc, &mut world, 7)?;
    vacuum(rt, alloc, &mut world, 8)?;
    vacuum(rt, alloc, &mut world, 9)?;
    let unlock = Command::Unlock { seed: 1, lane: 0 };
    spawn(rt, alloc, &mut world, unlock, 9, 10)?;
    finish(rt, alloc, &mut world, 0)?;
    Ok(world)
}

#[test]
fn a_lease_is_taken_once_its_reader_was_dropped(rt: HostRuntime) -> Result<(), Fail> {
    let alloc = rt.alloc();
    let mut world = locked(&rt, alloc)?;
    let own = lease(7, LeaseMode::Shr);
    for _ in 0..2 {
        world.step(&rt, alloc, Event::Step(1, Fate::Done))?;
    }
    finish(&rt, alloc, &mut world, 2)?;
    assert_eq!(rt;
        world.answer_of(2),
        Some(&Outcome::Refused(Refusal::Leased(own)))
    );
    let live = Err(WorldFault::LeaseLive(own));
    assert_eq!(rt; world.step(&rt, alloc, Event::Break(own)), live);
    assert_eq!(rt; finish(&rt, alloc, &mut world, 4), live);
    world.step(&rt, alloc, Event::Stop(1, Fate::Done))?;
    world.step(&rt, alloc, Event::Break(own))?;
    assert!(rt; !world.store().holds(own));
    let removal = Entry {
        lane: u32::MAX,
        call: Call::Remove(own),
        fate: Fate::Done,
    };
    assert_eq!(rt; world.journal().as_slice().last(), Some(&removal));
    finish(&rt, alloc, &mut world, 3)?;
    assert_eq!(rt; world.answer_of(3), Some(&Outcome::Vacuumed(0)));
    finish(&rt, alloc, &mut world, 4)?;
    assert_eq!(rt; world.answer_of(4), Some(&Outcome::Unlocked(1)));
    Ok(())
}

//! What an unlock removes of some leases, what is listed of some commits, and what a vacuum removes.
ghost use Rattle.std.specs.Prelude.{◌≡◌};
ghost use Rattle.std.specs.Thread.{IsSync};
ghost use Rattle.ts_base.specs.Names.{IsSpelled};

use std::alloc::Global;
use std::test::Fail;
use std::thread::Threads;
use ts_actor::{Driven, PlainPieces, drive};
use ts_base::{
    ByteList, CommitKind, FragKey, FragList, Key, LeaseMode, Name, NameList, Part, Place, Point,
    Prefix, Stop,
};
use ts_commit::encode_vac;
use ts_model::{Outcome, Refusal};
use ts_store::{Fault, FaultList, MemStore, SharedBytes, Store};
use ts_vacuum::{Lister, Unlocker, Vacuum};

// The shared lease of the command with a number, in a lane of a run with a seed.
fn lease(seed: u64, lane: u32, number: u32) -> Name
    ensures { IsSpelled result }
{
    let id = ((seed as u128) << 64) | ((lane as u128) << 32) | (number as u128);
    Name::Lease(Key { t: 9, id }, LeaseMode::Shr)
}

// The fragment of a write at 1 with this identifier.
fn frag(id: u128) -> FragKey
    ensures { result ≡ record { t1 = 1; t2 = 1; id = id; v = 1 } }
{
    FragKey {
        t1: 1,
        t2: 1,
        id,
        v: 1,
    }
}

// A commit of it.
fn commit(id: u128, kind: CommitKind) -> Name
    ensures { IsSpelled result }
{
    Name::Commit(frag(id), kind)
}

// Its part.
fn part(id: u128) -> Name
    ensures { IsSpelled result }
{
    Name::Part(frag(id), Part::Plain)
}

// What a vacuum finds at 9. The fragments 1 to 4 are merged into 9. Of these 1 is whole, 2 has lost its
// `.wrt` and 3 its part, and of 4 the `.vac` alone is left. The consolidation of 8 was stopped before
// its `.wrt`.
fn swept(alloc: Global, plan: FaultList) -> Result<MemStore, Fail> {
    let mut store = MemStore::new(alloc, plan);
    let names = [
        Name::Schema(Key { t: 5, id: 1 }),
        commit(1, CommitKind::Wrt),
        part(1),
        part(2),
        commit(3, CommitKind::Wrt),
        commit(4, CommitKind::Vac),
        part(8),
        commit(8, CommitKind::Vac),
        part(9),
        commit(9, CommitKind::Wrt),
    ];
    for name in names {
        store.plant(name, ByteList::new(alloc))?;
    }
    let mut merged = FragList::new(alloc);
    for id in [1, 2, 3, 4] {
        merged.push(frag(id))?;
    }
    store.plant(commit(9, CommitKind::Vac), encode_vac(alloc, &merged)?)?;
    Ok(store)
}

// How an unlock of a seed and a lane comes out.
fn unlock<R: Threads + Sync>(
    rt: &R,
    alloc: Global,
    seed: u64,
    lane: u32,
    store: &mut MemStore,
    stop: &Stop,
) -> Driven<Outcome>
    requires { IsSync R.row }
{
    let mut unlocker: Unlocker<PlainPieces> = Unlocker::new(seed, lane);
    drive(rt, alloc, &mut unlocker, store, stop)
}

// How a listing of the commits comes out.
fn list<R: Threads + Sync>(rt: &R, alloc: Global, store: &mut MemStore) -> Driven<Outcome>
    requires { IsSync R.row }
{
    let mut lister: Lister<PlainPieces> = Lister::new();
    drive(rt, alloc, &mut lister, store, &Stop::Never)
}

// How a vacuum with this stamp and identifier comes out.
fn vacuum<R: Threads + Sync>(
    rt: &R,
    alloc: Global,
    at: u64,
    id: u128,
    store: &mut MemStore,
    stop: &Stop,
) -> Driven<Outcome>
    requires { IsSync R.row }
{
    let mut vacuum: Vacuum<PlainPieces> = Vacuum::new(at, id);
    drive(rt, alloc, &mut vacuum, store, stop)
}

#[test]
fn leases_of_other_runs_and_of_the_own_lane_go(rt: HostRuntime) -> Result<(), Fail> {
    let alloc = rt.alloc();
    // a lease, and whether an unlock in lane 1 of a run with the seed 5 removes it
    let rows = [
        (lease(4, 0, 1), true),
        (lease(4, 1, 1), true),
        (lease(5, 0, 1), false),
        (lease(5, 1, 1), true),
        (lease(5, 2, 1), false),
        (lease(6, 2, 4096), true),
    ];
    let mut store = MemStore::new(alloc, FaultList::new(alloc));
    for (name, _) in rows {
        store.put(alloc, name, &SharedBytes::new())?;
    }
    let end = unlock(&rt, alloc, 5, 1, &mut store, &Stop::Never);
    assert!(rt; end == Driven::Done(Outcome::Unlocked(4)));
    for (name, goes) in rows {
        assert_eq!(rt; store.size(alloc, name)?.is_none(), goes, "for {name:?}");
    }
    Ok(())
}

#[test]
fn a_stopped_unlock_leaves_the_rest(rt: HostRuntime) -> Result<(), Fail> {
    let alloc = rt.alloc();
    let mut store = MemStore::new(alloc, FaultList::new(alloc));
    for number in 1..4 {
        store.put(alloc, lease(4, 0, number), &SharedBytes::new())?;
    }
    let end = unlock(&rt, alloc, 5, 0, &mut store, &Stop::Calls(2));
    assert!(rt; end == Driven::Stopped);
    assert_eq!(rt; store.list(alloc, Prefix::Leases)?.len(), 2);
    Ok(())
}

#[test]
fn every_commit_is_listed(rt: HostRuntime) -> Result<(), Fail> {
    let alloc = rt.alloc();
    let names = [
        commit(2, CommitKind::Wrt),
        commit(2, CommitKind::Vac),
        commit(3, CommitKind::Del),
        commit(4, CommitKind::Vac),
    ];
    let mut store = MemStore::new(alloc, FaultList::new(alloc));
    for name in names {
        store.put(alloc, name, &SharedBytes::new())?;
    }
    store.put(alloc, lease(4, 0, 1), &SharedBytes::new())?;
    let mut listed = NameList::new(alloc);
    for name in names {
        listed.push(name)?;
    }
    let end = list(&rt, alloc, &mut store);
    assert!(rt; end == Driven::Done(Outcome::Listed(listed)));
    Ok(())
}

#[test]
fn a_vacuum_removes_what_was_merged(rt: HostRuntime) -> Result<(), Fail> {
    let alloc = rt.alloc();
    // what is removed, in order
    let goes = [
        commit(1, CommitKind::Wrt),
        part(1),
        part(2),
        commit(3, CommitKind::Wrt),
        commit(4, CommitKind::Vac),
        commit(9, CommitKind::Vac),
    ];
    // the stop, how many of these are gone then, and how many objects are left with the lease
    let rows = [
        (Stop::Calls(9), 0, 12),
        (Stop::Before(Point::PartGone), 1, 11),
        (Stop::Calls(11), 2, 10),
        (Stop::Calls(12), 3, 9),
        (Stop::Calls(13), 4, 8),
        (Stop::Calls(14), 5, 7),
        (Stop::Never, 6, 5),
    ];
    for (stop, gone, left) in rows {
        let mut store = swept(alloc, FaultList::new(alloc))?;
        let end = vacuum(&rt, alloc, 9, 1, &mut store, &stop);
        assert_eq!(rt;
            end == Driven::Done(Outcome::Vacuumed(4)),
            gone == 6,
            "at {stop:?}"
        );
        for (place, name) in goes.iter().enumerate() {
            assert_eq!(rt; store.holds(*name), place >= gone, "{name:?} at {stop:?}");
        }
        assert_eq!(rt; store.names(alloc)?.len(), left, "at {stop:?}");
    }
    Ok(())
}

#[test]
fn a_vacuum_is_refused(rt: HostRuntime) -> Result<(), Fail> {
    let alloc = rt.alloc();
    let same = part(9);
    let shared = lease(4, 0, 1);
    let exclusive = Name::Lease(Key { t: 1, id: 1 }, LeaseMode::Exc);
    let parts = Place::Prefix(Prefix::Fragment(frag(1)));
    let broken = Refusal::Damaged {
        name: commit(8, CommitKind::Vac),
        at: 0,
    };
    // the stamp, an object that is there too, the call that fails, and why the vacuum is refused
    let rows = [
        (4, same, 99, Refusal::NoSchema { at: 4 }),
        (9, same, 5, Refusal::StoreFault(parts)),
        (9, same, 10, Refusal::StoreFault(Place::Name(part(1)))),
        (9, commit(8, CommitKind::Wrt), 99, broken),
        (9, shared, 99, Refusal::Leased(shared)),
        (9, exclusive, 99, Refusal::Leased(exclusive)),
    ];
    for (at, other, call, refusal) in rows {
        let mut plan = FaultList::new(alloc);
        plan.push(Fault { call, whole: false })?;
        let mut store = swept(alloc, plan)?;
        store.plant(other, ByteList::new(alloc))?;
        let end = vacuum(&rt, alloc, at, 2, &mut store, &Stop::Never);
        assert!(rt;
            end == Driven::Done(Outcome::Refused(refusal)),
            "for {refusal:?}"
        );
        assert!(rt; store.holds(part(1)), "for {refusal:?}");
    }
    Ok(())
}

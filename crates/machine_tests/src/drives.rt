//! Worked rows: a machine of three calls, done, hurt by a fault, and cut off by each kind of stop.
ghost use Rattle.std.specs.Prelude.{◌≡◌, ◌-◌};
ghost use Rattle.ts_base.specs.Names.{IsSpelled};

use std::alloc::Global;
use std::test::Fail;
use std::thread::Threads;
use ts_actor::{Actor, Driven, Step, drive};
use ts_base::{CommitKind, FragKey, Name, Part, Point, Stop};
use ts_store::{Call, Fault, FaultList, MemStore, Reply, SharedBytes, Store};

// Puts a part, puts the `.wrt` of its fragment, removes the part, and ends with the number of calls
// that did so.
#[derive(Drop)]
struct Passing {
    turn: u8,
    good: u8,
}

impl Actor for Passing {
    type Out = u8;

    type Task = u8;

    ghost task = { λ _. 0 };

    ghost follows = { λ _ _. Unit {0} };

    ghost ends = { λ _ _ _. Unit {0} };

    ghost measure = { λ machine. 3 - machine.turn };

    fn next<R: Threads + Sync>(&mut self, _rt: &R, alloc: Global, reply: Reply) -> Step<u8> {
        if matches!(reply, Reply::Made | Reply::Removed) {
            self.good = self.good.saturating_add(1);
        }
        let turn = self.turn;
        self.turn = turn.saturating_add(1);
        match turn {
            0 => Step::Ask(Call::Put(part(), SharedBytes::new())),
            1 => Step::Ask(Call::Put(wrt(), SharedBytes::new())),
            2 => Step::Ask(Call::Remove(part())),
            _ => Step::Done(self.good),
        }
    }
}

// The fragment with the timestamp 1 and the identifier 7.
fn frag() -> FragKey
    ensures { (result.t1 ≡ 1) × (result.t2 ≡ 1) × (result.v ≡ 1) }
{
    FragKey {
        t1: 1,
        t2: 1,
        id: 7,
        v: 1,
    }
}

fn part() -> Name
    ensures { IsSpelled result }
{
    Name::Part(frag(), Part::Plain)
}

fn wrt() -> Name
    ensures { IsSpelled result }
{
    Name::Commit(frag(), CommitKind::Wrt)
}

#[test]
fn a_machine_is_driven_to_its_end_or_to_the_stop(rt: HostRuntime) -> Result<(), Fail> {
    let alloc = rt.alloc();
    // the stop, the call that fails, the end, and whether the part and the `.wrt` are held then
    let rows = [
        (Stop::Never, 9, Driven::Done(3), false, true),
        (Stop::Never, 1, Driven::Done(2), false, false),
        (Stop::Calls(0), 9, Driven::Stopped, false, false),
        (Stop::Calls(1), 9, Driven::Stopped, true, false),
        (Stop::Calls(2), 9, Driven::Stopped, true, true),
        (Stop::Calls(3), 9, Driven::Done(3), false, true),
        (Stop::Before(Point::Wrt), 9, Driven::Stopped, true, false),
        (
            Stop::Before(Point::PartGone),
            9,
            Driven::Stopped,
            true,
            true,
        ),
        (Stop::Before(Point::Vac), 9, Driven::Done(3), false, true),
    ];
    for (stop, call, end, has_part, has_wrt) in rows {
        let mut plan = FaultList::new(alloc);
        plan.push(Fault { call, whole: false })?;
        let mut store = MemStore::new(alloc, plan);
        let mut machine = Passing { turn: 0, good: 0 };
        assert!(rt;
            drive(&rt, alloc, &mut machine, &mut store, &stop) == end,
            "at {stop:?}, {call}"
        );
        assert_eq!(rt;
            store.size(alloc, part())?.is_some(),
            has_part,
            "at {stop:?}, {call}"
        );
        assert_eq!(rt;
            store.size(alloc, wrt())?.is_some(),
            has_wrt,
            "at {stop:?}, {call}"
        );
    }
    Ok(())
}

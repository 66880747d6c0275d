//! Lanes that are at work beside one another.
use super::{said, with_array};
use std::sync::Wait;
use std::sync::atomic::{AtomicBool, Ordering};
use std::test::Fail;
use std::thread::Threads;
use ts_base::ByteList;
use ts_lanes::Gate;
use ts_store::{FaultList, FixedClock, MemSink, MemSource};
use ts_top::{Ran, run};

/// How often a lane looks for the other one.
const TURNS: u32 = 100_000_000;

/// A gate at which two lanes meet: each says before its second command that it came, and looks for the
/// other one.
#[derive(Drop)]
struct Meeting {
    first: AtomicBool,
    second: AtomicBool,
    missed: AtomicBool,
}

impl Meeting {
    // Comes to the meeting, and looks for the other lane.
    fn meet(&self, own: &AtomicBool, other: &AtomicBool) {
        own.store(true, Ordering::SeqCst);
        for _ in 0..TURNS {
            if other.load(Ordering::SeqCst) {
                return;
            }
        }
        self.missed.store(true, Ordering::SeqCst);
    }
}

impl Gate for Meeting {
    fn at(&self, lane: u32, number: u32) {
        match (lane, number) {
            (0, 2) => self.meet(&self.first, &self.second),
            (1, 2) => self.meet(&self.second, &self.first),
            _ => {}
        }
    }
}

/// Scripts of two lanes, and what is printed of them. In the first each lane writes a cell and reads it. In
/// the second a read of lane 0 is stopped, and its lease holds up the vacuums of lane 1, whose unlock keeps it.
const SCRIPTS: [(&str, &str); 2] = [
    (
        "{'cmd':'write','at':1,'cols':{'x':[5],'v':[10]}}\n\
        {'cmd':'write','at':1,'cols':{'x':[6],'v':[20]},'lane':1}\n\
        {'cmd':'read','at':9,'box':{'x':[5,5]}}\n\
        {'cmd':'read','at':9,'box':{'x':[6,6]},'lane':1}\n",
        "0.1|write|ok|__1_1_00000000000000010000000000000001_1\n0.2|read|ok|1|0\n5|10\n\
        1.1|write|ok|__1_1_00000000000000010000000100000001_1\n1.2|read|ok|1|0\n6|20\n",
    ),
    (
        "{'cmd':'read','at':9,'stop':2}\n\
        {'cmd':'fragments'}\n\
        {'cmd':'fragments','lane':1}\n\
        {'cmd':'vacuum','at':9,'lane':1}\n\
        {'cmd':'unlock','lane':1}\n\
        {'cmd':'vacuum','at':9,'lane':1}\n",
        "0.1|read|stopped\n0.2|fragments|ok|0\n1.1|fragments|ok|0\n\
        1.2|vacuum|refused|Leased|__leases/__9_9_00000000000000010000000000000001.shr\n\
        1.3|unlock|ok|0\n\
        1.4|vacuum|refused|Leased|__leases/__9_9_00000000000000010000000000000001.shr\n",
    ),
];

// What a script of two lanes prints that meet at a gate.
fn meet<R: Threads + Wait + Sync + AllocGlobal>(
    rt: &R,
    script: &str,
    meeting: &Meeting,
) -> Result<ByteList, Fail> {
    let alloc = rt.alloc();
    let mut input = MemSource::new(said(alloc, script)?, FaultList::new(alloc));
    let mut out = MemSink::new(alloc, FaultList::new(alloc));
    let store = with_array(rt)?;
    let clock = FixedClock::new(7);
    let Ran {
        status: _,
        store: _,
        journal: _,
    } = run(
        rt,
        alloc,
        &["play"],
        1,
        store,
        &mut input,
        &mut out,
        &clock,
        meeting,
    );
    Ok(ByteList::of_bytes(alloc, out.bytes())?)
}

#[test]
fn two_lanes_meet(rt: HostRuntime) -> Result<(), Fail> {
    for (script, text) in SCRIPTS {
        let meeting = Meeting {
            first: AtomicBool::new(false),
            second: AtomicBool::new(false),
            missed: AtomicBool::new(false),
        };
        assert_eq!(rt; meet(&rt, script, &meeting)?, said(rt.alloc(), text)?);
        let missed = meeting.missed.load(Ordering::SeqCst);
        assert!(rt; !missed, "each lane saw the other");
    }
    Ok(())
}

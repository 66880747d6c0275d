//! Vacuums: what one leaves, and calls of one that fail.

use super::{C1, READ, Shown, fails_at, play_over, play_well, said};
use std::sync::Wait;
use std::test::Fail;
use std::thread::Threads;
use ts_store::MemStore;

/// Two writes and a consolidation of them.
const MERGED: &str = "{'cmd':'write','at':1,'cols':{'x':[5],'v':[10]}}\n\
    {'cmd':'write','at':1,'cols':{'x':[6],'v':[11]}}\n\
    {'cmd':'consolidate','at':6}\n";

/// A vacuum of what was merged.
const VACUUM: &str = "{'cmd':'vacuum','at':8}\n";

const UNLOCK: &str = "{'cmd':'unlock'}\n";

/// What is printed of a create, of the writes and of the consolidation.
const DONE: &str = "0.1|create|ok\n0.2|write|ok|__1_1_<2>_1\n0.3|write|ok|__1_1_<3>_1\n\
    0.4|consolidate|ok|__1_1_<4>_1|2\n";

#[test]
fn a_vacuum_leaves_the_merged_fragment_alone(rt: HostRuntime) -> Result<(), Fail> {
    let alloc = rt.alloc();
    let script = format!(in alloc; "{C1}{MERGED}{VACUUM}{READ}")?;
    let Shown {
        status,
        printed,
        journal,
        store,
    } = play_well(&rt, script.as_str())?;
    let text = format!(in alloc; "{DONE}0.5|vacuum|ok|2\n0.6|read|ok|2|0\n5|10\n6|11\n")?;
    assert_eq!(rt; status, 0);
    assert_eq!(rt; printed, said(alloc, text.as_str())?);
    // The put of a lease and three listings, a get and two listings more, and nine removals before
    // that of the lease; the read behind makes fourteen calls.
    assert_eq!(rt; journal.len(), 70);
    // The frame, the schema, and four parts and the commit of the merged fragment.
    assert_eq!(rt; store.names(alloc)?.len(), 7);
    Ok(())
}

/// Calls of a vacuum, by their places among those of a script, with the object or prefix that each
/// speaks of.
const CALLS: [(u64, &str); 16] = [
    (39, "__leases/__8_8_<5>.exc"),
    (40, "__leases/"),
    (41, "__commits/"),
    (42, "__schema/"),
    (43, "__commits/__1_1_<4>_1.vac"),
    (44, "__fragments/__1_1_<2>_1/"),
    (45, "__fragments/__1_1_<3>_1/"),
    (46, "__commits/__1_1_<2>_1.wrt"),
    (47, "__fragments/__1_1_<2>_1/__fragment_metadata.tdb"),
    (48, "__fragments/__1_1_<2>_1/a0.tdb"),
    (49, "__fragments/__1_1_<2>_1/d0.tdb"),
    (50, "__commits/__1_1_<3>_1.wrt"),
    (51, "__fragments/__1_1_<3>_1/__fragment_metadata.tdb"),
    (53, "__fragments/__1_1_<3>_1/d0.tdb"),
    (54, "__commits/__1_1_<4>_1.vac"),
    (55, "__leases/__8_8_<5>.exc"),
];

// Whether a call of a vacuum that fails is told, and a read behind it shows what was written. An unlock
// before the read removes the lease that is left where its removal failed.
fn is_told<R: Threads + Wait + Sync + AllocGlobal>(
    rt: &R,
    call: u64,
    whole: bool,
    object: &str,
) -> Result<bool, Fail> {
    let alloc = rt.alloc();
    let script = format!(in alloc; "{C1}{MERGED}{VACUUM}{UNLOCK}{READ}")?;
    let store = MemStore::new(alloc, fails_at(alloc, call, whole)?);
    let shown = play_over(rt, 0, script.as_str(), store)?;
    let left = if call == 55 && !whole { "1" } else { "0" };
    let end = format!(in alloc; "0.5|vacuum|refused|StoreFault|{object}\n0.6|unlock|ok|{left}\n")?;
    let text = format!(in alloc; "{DONE}{end}0.7|read|ok|2|0\n5|10\n6|11\n")?;
    Ok(shown.status == 0 && shown.printed == said(alloc, text.as_str())?)
}

#[test]
fn a_failed_call_of_a_vacuum_is_told_and_hides_nothing(rt: HostRuntime) -> Result<(), Fail> {
    for (call, object) in CALLS {
        assert!(rt; is_told(&rt, call, false, object)?, "{call} was not done");
        assert!(rt; is_told(&rt, call, true, object)?, "{call} was done");
    }
    Ok(())
}

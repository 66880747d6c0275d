//! Consolidations: what one leaves, and calls of one that fail.

ghost use Rattle.ts_base.specs.Names.{IsSpelled};

use super::{C1, READ, Shown, WRITE, fails_at, frag, play_over, play_well, said};
use std::sync::Wait;
use std::test::Fail;
use std::thread::Threads;
use ts_base::{CommitKind, Name, Prefix};
use ts_store::{MemStore, Store};

/// A consolidation of what `WRITE` writes.
const CONSOLIDATE: &str = "{'cmd':'consolidate','at':6}\n";

/// What is printed of a create and of two writes.
const WRITTEN: &str = "0.1|create|ok\n0.2|write|ok|__1_1_<2>_1\n0.3|write|ok|__1_1_<3>_1\n";

// The name of the object that tells what went into a fragment.
fn vac(id: u128) -> Name
    ensures { IsSpelled result }
{
    Name::Commit(frag(id), CommitKind::Vac)
}

#[test]
fn a_consolidation_names_its_sources_and_leaves_no_lease(rt: HostRuntime) -> Result<(), Fail> {
    let alloc = rt.alloc();
    let script = format!(in alloc; "{C1}{WRITE}{WRITE}{CONSOLIDATE}")?;
    let Shown {
        status,
        printed,
        journal,
        mut store,
    } = play_well(&rt, script.as_str())?;
    let text = format!(in alloc; "{WRITTEN}0.4|consolidate|ok|__1_1_<4>_1|2\n")?;
    assert_eq!(rt; status, 0);
    assert_eq!(rt; printed, said(alloc, text.as_str())?);
    // The put of a lease and three listings, four gets, two sizes and two gets of each source, and six
    // puts; its removal behind.
    assert_eq!(rt; journal.len(), 39);
    match store.get(alloc, vac(4), 14, 100) {
        Ok(Some(bytes)) => {
            let names = said(alloc, "__1_1_<2>_1\n__1_1_<3>_1\n")?;
            assert_eq!(rt; bytes.as_slice(), names.as_slice());
        }
        _ => assert!(rt; false, "there is the object that names the sources"),
    }
    match store.list(alloc, Prefix::Leases) {
        Ok(names) => assert_eq!(rt; names.len(), 0),
        _ => assert!(rt; false, "the leases are listed"),
    }
    Ok(())
}

/// Calls of a consolidation, by their places among those of a script, with the object or prefix that
/// each speaks of.
const CALLS: [(u64, &str); 21] = [
    (16, "__leases/__6_6_<4>.shr"),
    (17, "__leases/"),
    (18, "__commits/"),
    (19, "__schema/"),
    (20, "__domain.tdb"),
    (21, "__fragments/__1_1_<2>_1/__fragment_metadata.tdb"),
    (22, "__fragments/__1_1_<3>_1/__fragment_metadata.tdb"),
    (23, "__schema/__0_0_<1>"),
    (24, "__fragments/__1_1_<2>_1/d0.tdb"),
    (25, "__fragments/__1_1_<2>_1/a0.tdb"),
    (26, "__fragments/__1_1_<2>_1/d0.tdb"),
    (27, "__fragments/__1_1_<2>_1/a0.tdb"),
    (28, "__fragments/__1_1_<3>_1/d0.tdb"),
    (31, "__fragments/__1_1_<3>_1/a0.tdb"),
    (32, "__fragments/__1_1_<4>_1/d0.tdb"),
    (33, "__fragments/__1_1_<4>_1/a0.tdb"),
    (34, "__fragments/__1_1_<4>_1/o.tdb"),
    (35, "__fragments/__1_1_<4>_1/__fragment_metadata.tdb"),
    (36, "__commits/__1_1_<4>_1.vac"),
    (37, "__commits/__1_1_<4>_1.wrt"),
    (38, "__leases/__6_6_<4>.shr"),
];

// Whether a call of a consolidation that fails is told, and a read behind it shows what was written.
fn is_told<R: Threads + Wait + Sync + AllocGlobal>(
    rt: &R,
    call: u64,
    whole: bool,
    object: &str,
) -> Result<bool, Fail> {
    let alloc = rt.alloc();
    let script = format!(in alloc; "{C1}{WRITE}{WRITE}{CONSOLIDATE}{READ}")?;
    let store = MemStore::new(alloc, fails_at(alloc, call, whole)?);
    let shown = play_over(rt, 0, script.as_str(), store)?;
    let end = format!(in alloc; "0.4|consolidate|refused|StoreFault|{object}\n")?;
    let text = format!(in alloc; "{WRITTEN}{end}0.5|read|ok|1|0\n5|10\n")?;
    Ok(shown.status == 0 && shown.printed == said(alloc, text.as_str())?)
}

#[test]
fn a_failed_call_of_a_consolidation_is_told_and_hides_nothing(rt: HostRuntime) -> Result<(), Fail> {
    for (call, object) in CALLS {
        assert!(rt; is_told(&rt, call, false, object)?, "{call} was not done");
        assert!(rt; is_told(&rt, call, true, object)?, "{call} was done");
    }
    Ok(())
}

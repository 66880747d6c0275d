//! Deletes: calls of one that fail.

use super::{C1, READ, WRITE, fails_at, play_over, said};
use std::test::Fail;
use ts_store::MemStore;

/// A delete of what `WRITE` writes.
const DELETE: &str = "{'cmd':'delete','at':2,'where':'v = 10'}\n";

/// Calls of a create, a write, a delete and a read that fail, each as a failed call that was done
/// and as one that was not: what is printed behind the write.
const FAILED: [(u64, bool, &str); 7] = [
    (
        9,
        true,
        "0.3|delete|refused|StoreFault|__schema/\n0.4|read|ok|1|0\n5|10\n",
    ),
    (
        10,
        true,
        "0.3|delete|refused|StoreFault|__schema/__0_0_<1>\n0.4|read|ok|1|0\n5|10\n",
    ),
    (
        11,
        false,
        "0.3|delete|refused|StoreFault|__domain.tdb\n0.4|read|ok|1|0\n5|10\n",
    ),
    (
        12,
        true,
        "0.3|delete|refused|StoreFault|__commits/__2_2_<3>_1.del\n0.4|read|ok|0|0\n",
    ),
    (
        12,
        false,
        "0.3|delete|refused|StoreFault|__commits/__2_2_<3>_1.del\n0.4|read|ok|1|0\n5|10\n",
    ),
    (
        19,
        false,
        "0.3|delete|ok|__2_2_<3>_1\n\
        0.4|read|refused|StoreFault|__fragments/__1_1_<2>_1/__fragment_metadata.tdb\n",
    ),
    (
        20,
        false,
        "0.3|delete|ok|__2_2_<3>_1\n\
        0.4|read|refused|StoreFault|__commits/__2_2_<3>_1.del\n",
    ),
];

#[test]
fn a_failed_call_of_a_delete_is_told(rt: HostRuntime) -> Result<(), Fail> {
    let alloc = rt.alloc();
    let script = format!(in alloc; "{C1}{WRITE}{DELETE}{READ}")?;
    for (call, whole, text) in FAILED {
        let store = MemStore::new(alloc, fails_at(alloc, call, whole)?);
        let shown = play_over(&rt, 0, script.as_str(), store)?;
        let text = format!(in alloc; "0.1|create|ok\n0.2|write|ok|__1_1_<2>_1\n{text}")?;
        assert_eq!(rt; shown.status, 0);
        assert_eq!(rt; shown.printed, said(alloc, text.as_str())?, "{call}");
    }
    Ok(())
}

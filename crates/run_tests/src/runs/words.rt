//! Single commands over stores that hold something, or that fail, and lines that take their stamps
//! from the clock. What an empty store shows stands in tests/cases/words.
use super::{C1, Shown, fails_at, play_well, said, with_array};
use std::sync::Wait;
use std::test::Fail;
use std::thread::Threads;
use ts_base::ByteList;
use ts_lanes::OpenGate;
use ts_store::{FaultList, FixedClock, MemSink, MemSource, MemStore};
use ts_top::{Ran, run};

/// What C1 has as the object of a single create.
const OBJECT: &str = "{'kind':'sparse',\
    'dims':[{'name':'x','type':'int64','domain':[0,9],'extent':10}],\
    'attrs':[{'name':'v','type':'int64'}]}\n";

// Does what the words ask for, with a seed over a store, at a clock that gives 7.
fn ask<R: Threads + Wait + Sync + AllocGlobal>(
    rt: &R,
    seed: u64,
    words: &[&str],
    input: &str,
    store: MemStore,
) -> Result<Shown, Fail> {
    let alloc = rt.alloc();
    let mut input = MemSource::new(said(alloc, input)?, FaultList::new(alloc));
    let mut out = MemSink::new(alloc, FaultList::new(alloc));
    let clock = FixedClock::new(7);
    let Ran {
        status,
        store,
        journal,
    } = run(
        rt, alloc, words, seed, store, &mut input, &mut out, &clock, &OpenGate,
    );
    Ok(Shown {
        status,
        printed: ByteList::of_bytes(alloc, out.bytes())?,
        journal,
        store,
    })
}

#[test]
fn a_single_create_that_failed_can_be_tried_again(rt: HostRuntime) -> Result<(), Fail> {
    let alloc = rt.alloc();
    let store = MemStore::new(alloc, fails_at(alloc, 0, false)?);
    let first = ask(&rt, 0, &["create", "--at", "0"], OBJECT, store)?;
    let refused = "0.1|create|refused|StoreFault|__domain.tdb\n";
    assert_eq!(rt; first.status, 6);
    assert_eq!(rt; first.printed, said(alloc, refused)?);
    let again = ask(&rt, 1, &["create", "--at", "0"], OBJECT, first.store)?;
    assert_eq!(rt; again.status, 0);
    assert_eq!(rt; again.printed, said(alloc, "0.1|create|ok\n")?);
    Ok(())
}

#[test]
fn a_command_without_a_stamp_takes_that_of_the_clock(rt: HostRuntime) -> Result<(), Fail> {
    let alloc = rt.alloc();
    let write = "{'cmd':'write','cols':{'x':[5],'v':[10]}}\n";
    let script = format!(in alloc; "{C1}{write}")?;
    let shown = play_well(&rt, script.as_str())?;
    let text = "0.1|create|ok\n0.2|write|ok|__7_7_<2>_1\n";
    assert_eq!(rt; shown.printed, said(alloc, text)?);
    let single = ask(
        &rt,
        0,
        &["delete", "--where", "v = 10"],
        "",
        with_array(&rt)?,
    )?;
    assert_eq!(rt; single.status, 0);
    let text = "0.1|delete|ok|__7_7_<1>_1\n";
    assert_eq!(rt; single.printed, said(alloc, text)?);
    Ok(())
}

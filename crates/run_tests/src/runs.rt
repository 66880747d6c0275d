//! Runs over stores and streams that fail, and over objects that no run left so. What a script shows
//! stands in tests/cases.
mod consolidations;
mod deletes;
mod meetings;
mod tiles;
mod vacuums;
mod words;

ghost use Rattle.std.specs.Prelude.{◌≡◌};
ghost use Rattle.ts_base.specs.Names.{IsSpelled};

use std::alloc::Global;
use std::sync::Wait;
use std::test::Fail;
use std::thread::Threads;
use ts_base::{ByteList, FragKey, Name, OutOfMemory, Part};
use ts_lanes::OpenGate;
use ts_store::{Call, Fault, FaultList, FixedClock, Journal, MemSink, MemSource, MemStore};
use ts_top::{Ran, run};

/// The create of the array of most scripts.
const C1: &str = "{'cmd':'create','at':0,'kind':'sparse',\
    'dims':[{'name':'x','type':'int64','domain':[0,9],'extent':10}],\
    'attrs':[{'name':'v','type':'int64'}]}\n";

/// The create of another one.
const OTHER: &str = "{'cmd':'create','at':0,'kind':'sparse',\
    'dims':[{'name':'y','type':'int8','domain':[0,9],'extent':1}],\
    'attrs':[{'name':'v','type':'int64'}]}\n";

/// A write: at 1, the value 10 at the coordinate 5.
const WRITE: &str = "{'cmd':'write','at':1,'cols':{'x':[5],'v':[10]}}\n";

const READ: &str = "{'cmd':'read','at':9}\n";

/// What a run of `play` left.
#[derive(Drop)]
struct Shown {
    status: u8,
    printed: ByteList,
    journal: Journal,
    store: MemStore,
}

// The bytes that a text of the tests means: an apostrophe stands for a quote, a bar for a tab, and
// `<n>` for the 32 digits of an identifier n below 16.
fn said(alloc: Global, text: &str) -> Result<ByteList, OutOfMemory> {
    let mut bytes = ByteList::new(alloc);
    for byte in text.as_bytes() {
        match *byte {
            b'\'' => bytes.push(b'"')?,
            b'|' => bytes.push(b'\t')?,
            b'<' => bytes.append(b"0000000000000000000000000000000")?,
            b'>' => {}
            byte => bytes.push(byte)?,
        }
    }
    Ok(bytes)
}

// Plays a script with a seed over a store.
fn play<R: Threads + Wait + Sync + AllocGlobal>(
    rt: &R,
    seed: u64,
    script: &str,
    store: MemStore,
    reads: FaultList,
    writes: FaultList,
) -> Result<Shown, Fail> {
    let alloc = rt.alloc();
    let mut input = MemSource::new(said(alloc, script)?, reads);
    let mut out = MemSink::new(alloc, writes);
    let Ran {
        status,
        store,
        journal,
    } = run(
        rt,
        alloc,
        &["play"],
        seed,
        store,
        &mut input,
        &mut out,
        &FixedClock::new(7),
        &OpenGate,
    );
    Ok(Shown {
        status,
        printed: ByteList::of_bytes(alloc, out.bytes())?,
        journal,
        store,
    })
}

// Plays a script over a store, and streams without faults.
fn play_over<R: Threads + Wait + Sync + AllocGlobal>(
    rt: &R,
    seed: u64,
    script: &str,
    store: MemStore,
) -> Result<Shown, Fail> {
    let alloc = rt.alloc();
    let (reads, writes) = (FaultList::new(alloc), FaultList::new(alloc));
    play(rt, seed, script, store, reads, writes)
}

// Plays a script over an empty store and streams without faults.
fn play_well<R: Threads + Wait + Sync + AllocGlobal>(rt: &R, script: &str) -> Result<Shown, Fail> {
    let alloc = rt.alloc();
    play_over(rt, 0, script, MemStore::new(alloc, FaultList::new(alloc)))
}

// A plan by which one call fails.
fn fails_at(alloc: Global, call: u64, whole: bool) -> Result<FaultList, Fail> {
    let mut plan = FaultList::new(alloc);
    plan.push(Fault { call, whole })?;
    Ok(plan)
}

// The fragment of one write with the timestamp 1.
fn frag(id: u128) -> FragKey
    ensures { (result.t1 ≡ 1) × (result.t2 ≡ 1) × (result.v ≡ 1) × (result.id ≡ id) }
{
    FragKey {
        t1: 1,
        t2: 1,
        id,
        v: 1,
    }
}

// The metadata of the fragment of a write, which is read first.
fn meta(id: u128) -> Name
    ensures { IsSpelled result }
{
    Name::Part(frag(id), Part::Meta)
}

/// The puts of the parts of a write, by their places among the calls: the bytes of the object, and how
/// many of these follow its length.
const PUTS: [(u64, u64, u8); 3] = [(5, 22, 8), (6, 22, 8), (7, 160, 146)];

#[test]
fn the_journal_has_each_call(rt: HostRuntime) -> Result<(), Fail> {
    let script = format!(in rt.alloc(); "{C1}{WRITE}{READ}")?;
    let shown = play_well(&rt, script.as_str())?;
    let text = "0.1|create|ok\n0.2|write|ok|__1_1_<2>_1\n0.3|read|ok|1|0\n5|10\n";
    assert_eq!(rt; shown.status, 0);
    assert_eq!(rt; shown.printed, said(rt.alloc(), text)?);
    // Two puts; two gets between a listing and four puts. Then the put of a lease and three listings;
    // the gets of the schema, of the frame and of the metadata; a size and a get of each column, and the
    // removal of the lease.
    assert_eq!(rt; shown.journal.len(), 21);
    for (place, size, follow) in PUTS {
        match &shown.journal.at(place).call {
            Call::Put(_, bytes) => {
                assert_eq!(rt; bytes.len(), size, "{place}");
                assert_eq!(rt; bytes.as_slice()[6], follow, "{place}");
            }
            _ => assert!(rt; false, "the call puts a part of the fragment"),
        }
    }
    Ok(())
}

#[test]
fn failing_streams_lose_nothing(rt: HostRuntime) -> Result<(), Fail> {
    let alloc = rt.alloc();
    let script = format!(in alloc; "{C1}{WRITE}{READ}")?;
    let unread = play(
        &rt,
        0,
        script.as_str(),
        MemStore::new(alloc, FaultList::new(alloc)),
        fails_at(alloc, 0, false)?,
        FaultList::new(alloc),
    )?;
    assert_eq!(rt; unread.status, 4);
    assert_eq!(rt; unread.printed.len(), 0);
    assert_eq!(rt; unread.journal.len(), 0);

    let unprinted = play(
        &rt,
        0,
        script.as_str(),
        MemStore::new(alloc, FaultList::new(alloc)),
        FaultList::new(alloc),
        fails_at(alloc, 0, false)?,
    )?;
    assert_eq!(rt; unprinted.status, 5);
    assert_eq!(rt; unprinted.printed.len(), 0);
    assert_eq!(rt; unprinted.journal.len(), 21);
    Ok(())
}

/// Calls of a create, a write and a read that fail, each as a failed call that was done and as one
/// that was not: what is printed behind the create.
const FAILED: [(u64, bool, &str); 20] = [
    (
        2,
        true,
        "0.2|write|refused|StoreFault|__schema/\n0.3|read|ok|0|0\n",
    ),
    (
        3,
        true,
        "0.2|write|refused|StoreFault|__schema/__0_0_<1>\n0.3|read|ok|0|0\n",
    ),
    (
        4,
        false,
        "0.2|write|refused|StoreFault|__domain.tdb\n0.3|read|ok|0|0\n",
    ),
    (
        5,
        true,
        "0.2|write|refused|StoreFault|__fragments/__1_1_<2>_1/d0.tdb\n\
        0.3|read|ok|0|0\n",
    ),
    (
        6,
        false,
        "0.2|write|refused|StoreFault|__fragments/__1_1_<2>_1/a0.tdb\n\
        0.3|read|ok|0|0\n",
    ),
    (
        7,
        true,
        "0.2|write|refused|StoreFault|__fragments/__1_1_<2>_1/__fragment_metadata.tdb\n\
        0.3|read|ok|0|0\n",
    ),
    (
        8,
        true,
        "0.2|write|refused|StoreFault|__commits/__1_1_<2>_1.wrt\n0.3|read|ok|1|0\n5|10\n",
    ),
    (
        8,
        false,
        "0.2|write|refused|StoreFault|__commits/__1_1_<2>_1.wrt\n0.3|read|ok|0|0\n",
    ),
    (
        9,
        true,
        "0.2|write|ok|__1_1_<2>_1\n0.3|read|refused|StoreFault|__leases/__9_9_<3>.shr\n",
    ),
    (
        10,
        false,
        "0.2|write|ok|__1_1_<2>_1\n0.3|read|refused|StoreFault|__leases/\n",
    ),
    (
        11,
        true,
        "0.2|write|ok|__1_1_<2>_1\n0.3|read|refused|StoreFault|__commits/\n",
    ),
    (
        12,
        false,
        "0.2|write|ok|__1_1_<2>_1\n0.3|read|refused|StoreFault|__schema/\n",
    ),
    (
        14,
        true,
        "0.2|write|ok|__1_1_<2>_1\n0.3|read|refused|StoreFault|__domain.tdb\n",
    ),
    (
        15,
        true,
        "0.2|write|ok|__1_1_<2>_1\n\
        0.3|read|refused|StoreFault|__fragments/__1_1_<2>_1/__fragment_metadata.tdb\n",
    ),
    (
        16,
        false,
        "0.2|write|ok|__1_1_<2>_1\n\
        0.3|read|refused|StoreFault|__fragments/__1_1_<2>_1/d0.tdb\n",
    ),
    (
        17,
        true,
        "0.2|write|ok|__1_1_<2>_1\n\
        0.3|read|refused|StoreFault|__fragments/__1_1_<2>_1/a0.tdb\n",
    ),
    (
        18,
        true,
        "0.2|write|ok|__1_1_<2>_1\n\
        0.3|read|refused|StoreFault|__fragments/__1_1_<2>_1/d0.tdb\n",
    ),
    (
        19,
        false,
        "0.2|write|ok|__1_1_<2>_1\n\
        0.3|read|refused|StoreFault|__fragments/__1_1_<2>_1/a0.tdb\n",
    ),
    (
        20,
        true,
        "0.2|write|ok|__1_1_<2>_1\n0.3|read|refused|StoreFault|__leases/__9_9_<3>.shr\n",
    ),
    (
        20,
        false,
        "0.2|write|ok|__1_1_<2>_1\n0.3|read|refused|StoreFault|__leases/__9_9_<3>.shr\n",
    ),
];

#[test]
fn a_failed_call_is_told_and_a_commit_may_show(rt: HostRuntime) -> Result<(), Fail> {
    let alloc = rt.alloc();
    let script = format!(in alloc; "{C1}{WRITE}{READ}")?;
    for (call, whole, text) in FAILED {
        let store = MemStore::new(alloc, fails_at(alloc, call, whole)?);
        let shown = play_over(&rt, 0, script.as_str(), store)?;
        let text = format!(in alloc; "0.1|create|ok\n{text}")?;
        assert_eq!(rt; shown.status, 0);
        assert_eq!(rt; shown.printed, said(alloc, text.as_str())?, "{call}");
    }
    Ok(())
}

/// The two calls of a create that fail, and what is printed of it, of a read, of the same create
/// and of another one.
const HALF_CREATED: [(u64, bool, &str); 4] = [
    (
        0,
        true,
        "0.1|create|refused|StoreFault|__domain.tdb\n0.2|read|refused|NoSchema|9\n\
        0.3|create|refused|ArrayExists\n0.4|create|ok\n0.5|read|ok|0|0\n",
    ),
    (
        0,
        false,
        "0.1|create|refused|StoreFault|__domain.tdb\n0.2|read|refused|NoSchema|9\n\
        0.3|create|ok\n0.4|create|refused|ArrayExists\n0.5|read|ok|0|0\n",
    ),
    (
        1,
        true,
        "0.1|create|refused|StoreFault|__schema/__0_0_<1>\n0.2|read|ok|0|0\n\
        0.3|create|refused|ArrayExists\n0.4|create|refused|ArrayExists\n0.5|read|ok|0|0\n",
    ),
    (
        1,
        false,
        "0.1|create|refused|StoreFault|__schema/__0_0_<1>\n0.2|read|refused|NoSchema|9\n\
        0.3|create|refused|ArrayExists\n0.4|create|ok\n0.5|read|ok|0|0\n",
    ),
];

#[test]
fn a_create_that_failed_can_be_tried_again(rt: HostRuntime) -> Result<(), Fail> {
    let alloc = rt.alloc();
    let script = format!(in alloc; "{C1}{READ}{OTHER}{C1}{READ}")?;
    for (call, whole, text) in HALF_CREATED {
        let store = MemStore::new(alloc, fails_at(alloc, call, whole)?);
        let shown = play_over(&rt, 0, script.as_str(), store)?;
        assert_eq!(rt; shown.status, 0);
        assert_eq!(rt; shown.printed, said(alloc, text)?, "{call} {whole}");
    }
    Ok(())
}

// A store with an array of no cell, made by a run with the seed 0.
fn with_array<R: Threads + Wait + Sync + AllocGlobal>(rt: &R) -> Result<MemStore, Fail> {
    let Shown {
        status: _,
        printed: _,
        journal: _,
        store,
    } = play_well(rt, C1)?;
    Ok(store)
}

/// The identifier of the first command of a run with the seed 1.
const FIRST: u128 = (1 << 64) + 1;

#[test]
fn a_part_that_is_there_is_not_put_again(rt: HostRuntime) -> Result<(), Fail> {
    let alloc = rt.alloc();
    let mut store = with_array(&rt)?;
    store.plant(meta(FIRST), ByteList::new(alloc))?;
    let shown = play_over(&rt, 1, WRITE, store)?;
    let text = "0.1|write|refused|Taken|\
        __fragments/__1_1_00000000000000010000000000000001_1/__fragment_metadata.tdb\n";
    assert_eq!(rt; shown.printed, said(alloc, text)?);
    Ok(())
}

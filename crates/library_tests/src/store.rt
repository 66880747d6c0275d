//! Worked rows: each call of the store in memory and of the streams once, and the calls that fail.
ghost use Rattle.std.specs.Prelude.{◌≡◌};
ghost use Rattle.ts_base.specs.Names.{IsSpelled};

use std::alloc::Global;
use std::test::Fail;
use ts_base::{
    ByteList, CommitKind, Duplicate, FragKey, Key, LeaseMode, Name, OutOfMemory, Part, Prefix,
};
use ts_store::{
    Call, Entry, Failed, Fate, Fault, FaultList, InputFault, Journal, Made, MemSink, MemSource,
    MemStore, Recorder, Reply, SharedBytes, Sink, Source, Store, StoreError, apply, enter_call,
    read_input, write_all,
};

// The fragment of one write, with a small number as its identifier.
fn frag(t: u64, id: u8) -> FragKey
    ensures { (result.t1 ≡ t) × (result.t2 ≡ t) × (result.v ≡ 1) }
{
    FragKey {
        t1: t,
        t2: t,
        id: u128::from(id),
        v: 1,
    }
}

fn wrt(t: u64) -> Name
    ensures { IsSpelled result }
{
    Name::Commit(frag(t, 7), CommitKind::Wrt)
}

fn plain(t: u64) -> Name
    ensures { IsSpelled result }
{
    Name::Part(frag(t, 7), Part::Plain)
}

fn plan_of(alloc: Global, faults: &[Fault]) -> Result<FaultList, OutOfMemory> {
    let mut plan = FaultList::new(alloc);
    for fault in faults {
        plan.push(*fault)?;
    }
    Ok(plan)
}

#[test]
fn a_store_answers_each_call(rt: HostRuntime) -> Result<(), Fail> {
    let alloc = rt.alloc();
    let mut store = MemStore::new(alloc, FaultList::new(alloc));
    let name = plain(3);
    assert_eq!(rt;
        store.put(alloc, name, &SharedBytes::of_bytes(alloc, b"abcde")?)?,
        Made::New
    );
    assert_eq!(rt;
        store.put(alloc, name, &SharedBytes::of_bytes(alloc, b"other")?)?,
        Made::Taken
    );
    assert_eq!(rt; store.size(alloc, name)?, Some(5));
    for (from, len, want) in [
        (0, 9, "abcde"),
        (1, 3, "bcd"),
        (4, 1, "e"),
        (5, 2, ""),
        (9, 9, ""),
    ] {
        let Some(bytes) = store.get(alloc, name, from, len)? else {
            return Err(Fail::from("held"));
        };
        assert_eq!(rt; bytes.as_slice(), want.as_bytes(), "from {from}");
    }
    assert_eq!(rt;
        store.list(alloc, Prefix::Fragment(frag(3, 7)))?.as_slice(),
        [name].as_slice()
    );
    store.remove(alloc, name)?;
    store.remove(alloc, name)?;
    assert!(rt; store.get(alloc, name, 0, 1)?.is_none());
    assert!(rt; store.size(alloc, name)?.is_none());
    assert_eq!(rt; (store.asked(), store.faults()), (6, 0));
    assert_eq!(rt; store.fate(), Fate::Done);
    Ok(())
}

#[test]
fn the_planned_calls_fail_and_no_others(rt: HostRuntime) -> Result<(), Fail> {
    let alloc = rt.alloc();
    let faults = [
        Fault {
            call: 1,
            whole: true,
        },
        Fault {
            call: 3,
            whole: false,
        },
    ];
    let mut store = MemStore::new(alloc, plan_of(alloc, &faults)?);
    assert_eq!(rt;
        store.put(alloc, plain(1), &SharedBytes::of_bytes(alloc, b"a")?)?,
        Made::New
    );
    assert!(rt; store.put(alloc, wrt(1), &SharedBytes::new()) == Err(StoreError::Failed));
    assert_eq!(rt; store.fate(), Fate::FailedDone);
    assert_eq!(rt; store.size(alloc, wrt(1))?, Some(0));
    assert_eq!(rt; store.fate(), Fate::Done);
    assert!(rt; store.remove(alloc, plain(1)) == Err(StoreError::Failed));
    assert_eq!(rt; store.fate(), Fate::FailedSkipped);
    assert_eq!(rt; store.size(alloc, plain(1))?, Some(1));
    assert_eq!(rt; store.faults(), 2);
    Ok(())
}

#[test]
fn a_forced_fate_is_that_of_the_next_call_alone(rt: HostRuntime) -> Result<(), Fail> {
    let alloc = rt.alloc();
    let planned = Fault {
        call: 0,
        whole: false,
    };
    let mut store = MemStore::new(alloc, plan_of(alloc, &[planned])?);
    store.force(Fate::Done);
    assert_eq!(rt;
        store.put(alloc, plain(1), &SharedBytes::of_bytes(alloc, b"a")?)?,
        Made::New
    );
    store.force(Fate::FailedDone);
    assert!(rt; store.remove(alloc, plain(1)).is_err());
    assert_eq!(rt; store.size(alloc, plain(1))?, None);
    store.force(Fate::FailedSkipped);
    assert!(rt;
        store
            .put(alloc, plain(1), &SharedBytes::of_bytes(alloc, b"a")?)
            .is_err()
    );
    assert_eq!(rt;
        store.put(alloc, plain(1), &SharedBytes::of_bytes(alloc, b"b")?)?,
        Made::New
    );
    Ok(())
}

#[test]
fn a_listing_has_the_names_under_its_prefix_in_order(rt: HostRuntime) -> Result<(), Fail> {
    let alloc = rt.alloc();
    let mut store = MemStore::new(alloc, FaultList::new(alloc));
    let schema = Name::Schema(Key { t: 9, id: 1 });
    let lease = Name::Lease(Key { t: 0, id: 0 }, LeaseMode::Shr);
    let meta = Name::Part(frag(2, 7), Part::Meta);
    for name in [
        lease,
        wrt(2),
        meta,
        Name::Domain,
        plain(3),
        wrt(1),
        plain(2),
        schema,
    ] {
        store.plant(name, ByteList::new(alloc))?;
    }
    let ascending = [schema, wrt(1), wrt(2), meta, plain(2), lease];
    let under = [
        (Prefix::Schemas, &ascending[..1]),
        (Prefix::Commits, &ascending[1..3]),
        (Prefix::Fragment(frag(2, 7)), &ascending[3..5]),
        (Prefix::Fragment(frag(4, 7)), &ascending[..0]),
        (Prefix::Leases, &ascending[5..]),
    ];
    for (prefix, names) in under {
        assert_eq!(rt; store.list(alloc, prefix)?.as_slice(), names, "{prefix:?}");
    }
    Ok(())
}

#[test]
fn a_call_is_entered_with_its_fate(rt: HostRuntime) -> Result<(), Fail> {
    let alloc = rt.alloc();
    let mut store = MemStore::new(alloc, FaultList::new(alloc));
    let mut journal = Journal::new(alloc);
    let put = Call::Put(plain(1), SharedBytes::of_bytes(alloc, b"ab")?);
    assert_eq!(rt;
        enter_call(alloc, &mut store, &mut journal, 4, put.copy(alloc)?),
        Reply::Made
    );
    assert_eq!(rt;
        enter_call(alloc, &mut store, &mut journal, 5, Call::Size(plain(1))),
        Reply::Length(2)
    );
    store.force(Fate::FailedSkipped);
    assert_eq!(rt;
        enter_call(alloc, &mut store, &mut journal, 4, Call::Remove(plain(1))),
        Reply::Failed
    );
    assert_eq!(rt; journal.len(), 3);
    assert_eq!(rt;
        journal.at(0),
        &Entry {
            lane: 4,
            call: put,
            fate: Fate::Done
        }
    );
    assert_eq!(rt;
        journal.at(1),
        &Entry {
            lane: 5,
            call: Call::Size(plain(1)),
            fate: Fate::Done
        }
    );
    assert_eq!(rt;
        journal.at(2),
        &Entry {
            lane: 4,
            call: Call::Remove(plain(1)),
            fate: Fate::FailedSkipped
        }
    );
    Ok(())
}

#[test]
fn bytes_are_read_in_pieces_to_their_end(rt: HostRuntime) -> Result<(), Fail> {
    let alloc = rt.alloc();
    let bytes = vec![in alloc; 7u8; 10_000]?;
    let mut source = MemSource::new(ByteList::of_bytes(alloc, &bytes)?, FaultList::new(alloc));
    assert_eq!(rt;
        read_input(alloc, &mut source)?.as_slice(),
        bytes.as_slice()
    );
    assert_eq!(rt; source.faults(), 0);
    let fault = Fault {
        call: 1,
        whole: false,
    };
    let mut source = MemSource::new(
        ByteList::of_bytes(alloc, &bytes)?,
        plan_of(alloc, &[fault])?,
    );
    assert!(rt; read_input(alloc, &mut source) == Err(InputFault::Failed));
    assert_eq!(rt; source.faults(), 1);
    Ok(())
}

#[test]
fn a_text_is_written_whole_or_up_to_a_fault(rt: HostRuntime) -> Result<(), Fail> {
    let alloc = rt.alloc();
    let fault = Fault {
        call: 1,
        whole: true,
    };
    let mut sink = MemSink::new(alloc, plan_of(alloc, &[fault])?);
    write_all(&mut sink, b"first")?;
    assert!(rt; write_all(&mut sink, b"lost") == Err(Failed));
    write_all(&mut sink, b" last")?;
    assert_eq!(rt; sink.bytes(), b"first last".as_slice());
    assert_eq!(rt; sink.faults(), 1);
    Ok(())
}

#[test]
fn a_reply_is_copied(rt: HostRuntime) -> Result<(), Fail> {
    let alloc = rt.alloc();
    let mut store = MemStore::new(alloc, FaultList::new(alloc));
    store.plant(wrt(1), ByteList::of_bytes(alloc, b"x")?)?;
    for call in [Call::List(Prefix::Commits), Call::Get(wrt(1), 0, 1)] {
        let reply = apply(alloc, &mut store, &call);
        assert_eq!(rt; reply.copy(alloc)?, reply);
        assert!(rt; !reply.is_no_memory());
    }
    Ok(())
}

#[test]
fn a_recorder_enters_each_call_with_its_lane_and_fate(rt: HostRuntime) -> Result<(), Fail> {
    let alloc = rt.alloc();
    let fault = Fault {
        call: 3,
        whole: true,
    };
    let store = MemStore::new(alloc, plan_of(alloc, &[fault])?);
    let mut recorder = Recorder::new(store, Journal::new(alloc), 4);
    assert_eq!(rt;
        recorder.put(alloc, plain(1), &SharedBytes::of_bytes(alloc, b"ab")?)?,
        Made::New
    );
    assert_eq!(rt;
        recorder.put(alloc, plain(1), &SharedBytes::of_bytes(alloc, b"cd")?)?,
        Made::Taken
    );
    assert_eq!(rt;
        recorder
            .list(alloc, Prefix::Fragment(frag(1, 7)))?
            .as_slice(),
        [plain(1)].as_slice()
    );
    assert!(rt; recorder.get(alloc, plain(1), 0, 1) == Err(StoreError::Failed));
    assert_eq!(rt; recorder.fate(), Fate::FailedDone);
    assert_eq!(rt; recorder.size(alloc, plain(1))?, Some(2));
    recorder.remove(alloc, plain(1))?;
    assert_eq!(rt; recorder.fate(), Fate::Done);
    let (store, journal) = recorder.into_parts();
    assert_eq!(rt; (store.asked(), store.faults()), (1, 1));
    let calls = [
        Call::Put(plain(1), SharedBytes::of_bytes(alloc, b"ab")?),
        Call::Put(plain(1), SharedBytes::of_bytes(alloc, b"cd")?),
        Call::List(Prefix::Fragment(frag(1, 7))),
        Call::Get(plain(1), 0, 1),
        Call::Size(plain(1)),
        Call::Remove(plain(1)),
    ];
    assert_eq!(rt; journal.len(), 6);
    for ((place, call), entry) in calls.iter().enumerate().zip(journal.as_slice()) {
        let fate = if place == 3 {
            Fate::FailedDone
        } else {
            Fate::Done
        };
        assert!(rt; entry.call == *call, "at {place}");
        assert_eq!(rt; (entry.lane, entry.fate), (4, fate), "at {place}");
    }
    Ok(())
}

//! Lanes against a store of one thread: the same replies in turn, the same journal, and two threads.
ghost use Rattle.std.specs.Prelude.{◌≡◌, true, [], ◌∷◌, IfSome};
ghost use Rattle.std.specs.Thread.{IsSync};
ghost use Rattle.ts_store.specs.Calls.{IsSpelledCall};
ghost use Rattle.ts_turnstile.specs.Belonging.{Belongs};
ghost use Rattle.ts_turnstile.specs.Passes.{pass_view};
ghost use Rattle.ts_turnstile.specs.Rule.{claim_of};

use std::alloc::Global;
use std::sync::Wait;
use std::test::Fail;
use std::thread::{Threads, join};
use ts_base::{Key, Name, NameList, Prefix};
use ts_store::{Call, Fault, FaultList, Journal, MemStore, Reply, SharedBytes, enter_call};
use ts_turnstile::{Closed, Pass, Turnstile};

// The lane that is split off.
const OTHER: u32 = 7;

// How many calls each thread makes.
const COUNT: u64 = 20;

// A store with the journal of its calls, as it was left or made in one thread.
#[derive(Drop)]
struct Alone {
    store: MemStore,
    journal: Journal,
}

// A turnstile over an empty store, with the passes of lane 0 and of the other lane.
fn opened<R: Threads + Sync>(rt: &R, alloc: Global) -> Option<(Turnstile<MemStore>, Pass, Pass)>
    ensures own { IfSome result (λ made. Belongs made.0 made.1 × Belongs made.0 made.2) }
    ensures first { IfSome result (λ made. claim_of (pass_view made.1) ≡ record { lanes = 0 ∷ []; first = true; split_off = OTHER ∷ [] }) }
    ensures other { IfSome result (λ made. (claim_of (pass_view made.2)).lanes ≡ OTHER ∷ []) }
{
    let store = MemStore::new(alloc, FaultList::new(alloc));
    let Ok((turnstile, mut first)) = Turnstile::new(rt, alloc, store) else {
        return None;
    };
    let Ok(other) = turnstile.split(alloc, &mut first, OTHER) else {
        unreachable!();
    };
    Some((turnstile, first, other))
}

// The store and the journal, once the other pass is joined into the first.
fn closed(turnstile: Turnstile<MemStore>, first: Pass, other: Pass) -> Alone
    requires own { Belongs turnstile first × Belongs turnstile other }
    requires first { claim_of (pass_view first) ≡ record { lanes = 0 ∷ []; first = true; split_off = OTHER ∷ [] } }
    requires other { (claim_of (pass_view other)).lanes ≡ OTHER ∷ [] }
{
    let mut first = first;
    turnstile.join(&mut first, other);
    let Closed { store, journal } = turnstile.close(first);
    Alone { store, journal }
}

// Whether a call of a pass is answered as wanted, and as by a store of one thread that it is made
// of too.
fn agrees<R: Wait>(
    rt: &R,
    alloc: Global,
    turnstile: &Turnstile<MemStore>,
    pass: &mut Pass,
    alone: &mut Alone,
    call: Call,
    want: &Reply,
) -> bool
    requires own { Belongs turnstile.now pass.old }
    requires spelled { IsSpelledCall call }
    ensures own { Belongs turnstile.now pass.new }
    ensures same { claim_of (pass_view pass.new) ≡ claim_of (pass_view pass.old) }
{
    let Ok(again) = call.clone() else {
        return false;
    };
    let reply = turnstile.call_as(rt, alloc, pass, call);
    let plain = enter_call(
        alloc,
        &mut alone.store,
        &mut alone.journal,
        pass.lane(),
        again,
    );
    reply == *want && plain == *want
}

fn object(alloc: Global, text: &str) -> Option<SharedBytes> {
    SharedBytes::of_bytes(alloc, text.as_bytes()).ok()
}

// Whether two passes in turn are answered so; each call is one of a lane, with the reply wanted.
fn plays_in_turn<R: Wait>(
    rt: &R,
    alloc: Global,
    turnstile: &Turnstile<MemStore>,
    first: &mut Pass,
    other: &mut Pass,
    alone: &mut Alone,
) -> Option<bool>
    requires own { Belongs turnstile.now first.old × Belongs turnstile.now other.old }
    ensures own { Belongs turnstile.now first.new × Belongs turnstile.now other.new }
    ensures first { claim_of (pass_view first.new) ≡ claim_of (pass_view first.old) }
    ensures other { claim_of (pass_view other.new) ≡ claim_of (pass_view other.old) }
{
    let abc = object(alloc, "abc")?;
    let put = Call::Put(Name::Domain, object(alloc, "abc")?);
    let again = Call::Put(Name::Domain, object(alloc, "other")?);
    let schema = Call::Put(Name::Schema(Key { t: 1, id: 2 }), SharedBytes::new());
    let get = Call::Get(Name::Domain, 0, 9);
    let bytes = Reply::Bytes(abc);
    let size = Call::Size(Name::Domain);
    let remove = Call::Remove(Name::Domain);
    let a = agrees(rt, alloc, turnstile, first, alone, put, &Reply::Made);
    let b = agrees(rt, alloc, turnstile, other, alone, get, &bytes);
    let c = agrees(rt, alloc, turnstile, other, alone, again, &Reply::Taken);
    let d = agrees(rt, alloc, turnstile, first, alone, size, &Reply::Length(3));
    let e = agrees(rt, alloc, turnstile, other, alone, remove, &Reply::Removed);
    let f = agrees(rt, alloc, turnstile, first, alone, schema, &Reply::Made);
    Some(a && b && c && d && e && f)
}

#[test]
fn two_passes_in_turn_are_answered_as_one_thread(rt: HostRuntime) -> Result<(), Fail> {
    let alloc = rt.alloc();
    let mut alone = Alone {
        store: MemStore::new(alloc, FaultList::new(alloc)),
        journal: Journal::new(alloc),
    };
    let Some((turnstile, mut first, mut other)) = opened(&rt, alloc) else {
        return Err(Fail::from("no memory"));
    };
    let agreed = plays_in_turn(&rt, alloc, &turnstile, &mut first, &mut other, &mut alone);
    let places = (first.place(), other.place());
    let shared = closed(turnstile, first, other);
    assert_eq!(rt; agreed, Some(true));
    assert_eq!(rt; places, (Some(5), Some(4)));
    let lanes = [0, OTHER, OTHER, 0, OTHER, 0];
    assert_eq!(rt; shared.journal.len(), 6);
    for (entry, lane) in shared.journal.as_slice().iter().zip(lanes) {
        assert_eq!(rt; entry.lane, lane);
    }
    assert_eq!(rt; shared.journal, alone.journal);
    let names = shared.store.names(alloc)?;
    assert_eq!(rt;
        names.as_slice(),
        [Name::Schema(Key { t: 1, id: 2 })].as_slice()
    );
    assert_eq!(rt; names, alone.store.names(alloc)?);
    Ok(())
}

// Whether a call of a pass is answered as wanted, and its entry has this place.
fn is_placed<R: Wait>(
    rt: &R,
    alloc: Global,
    turnstile: &Turnstile<MemStore>,
    pass: &mut Pass,
    call: Call,
    want: &Reply,
    place: u64,
) -> bool
    requires own { Belongs turnstile.now pass.old }
    requires spelled { IsSpelledCall call }
    ensures own { Belongs turnstile.now pass.new }
    ensures same { claim_of (pass_view pass.new) ≡ claim_of (pass_view pass.old) }
{
    let reply = turnstile.call_as(rt, alloc, pass, call);
    reply == *want && pass.place() == Some(place)
}

// Whether one pass is answered so: a put, the same put again, a listing and a get.
fn plays_alone<R: Wait>(
    rt: &R,
    alloc: Global,
    turnstile: &Turnstile<MemStore>,
    pass: &mut Pass,
) -> Option<bool>
    requires own { Belongs turnstile.now pass.old }
    ensures own { Belongs turnstile.now pass.new }
    ensures same { claim_of (pass_view pass.new) ≡ claim_of (pass_view pass.old) }
{
    let put = Call::Put(Name::Domain, object(alloc, "a")?);
    let again = Call::Put(Name::Domain, object(alloc, "a")?);
    let list = Call::List(Prefix::Schemas);
    let none = Reply::Names(NameList::new(alloc));
    let get = Call::Get(Name::Domain, 0, 9);
    let bytes = Reply::Bytes(object(alloc, "a")?);
    let new = pass.place().is_none();
    let a = is_placed(rt, alloc, turnstile, pass, put, &Reply::Made, 0);
    let b = is_placed(rt, alloc, turnstile, pass, again, &Reply::Taken, 1);
    let c = is_placed(rt, alloc, turnstile, pass, list, &none, 2);
    let d = is_placed(rt, alloc, turnstile, pass, get, &bytes, 3);
    Some(new && a && b && c && d)
}

// Whether one pass is answered so where the first call fails and is done: a put, and the same put again.
fn plays_after_a_fault<R: Wait>(
    rt: &R,
    alloc: Global,
    turnstile: &Turnstile<MemStore>,
    pass: &mut Pass,
) -> Option<bool>
    requires own { Belongs turnstile.now pass.old }
    ensures own { Belongs turnstile.now pass.new }
    ensures same { claim_of (pass_view pass.new) ≡ claim_of (pass_view pass.old) }
{
    let put = Call::Put(Name::Domain, object(alloc, "a")?);
    let again = Call::Put(Name::Domain, object(alloc, "a")?);
    let a = is_placed(rt, alloc, turnstile, pass, put, &Reply::Failed, 0);
    let b = is_placed(rt, alloc, turnstile, pass, again, &Reply::Taken, 1);
    Some(a && b)
}

// The journal, once the only pass is done.
fn closed_alone(turnstile: Turnstile<MemStore>, pass: Pass) -> Journal
    requires own { Belongs turnstile pass }
    requires claim { claim_of (pass_view pass) ≡ record { lanes = 0 ∷ []; first = true; split_off = [] } }
{
    let Closed { store: _, journal } = turnstile.close(pass);
    journal
}

#[test]
fn each_call_of_a_pass_has_its_place(rt: HostRuntime) -> Result<(), Fail> {
    let alloc = rt.alloc();
    let store = MemStore::new(alloc, FaultList::new(alloc));
    let Ok((turnstile, mut pass)) = Turnstile::new(&rt, alloc, store) else {
        return Err(Fail::from("no memory"));
    };
    let played = plays_alone(&rt, alloc, &turnstile, &mut pass);
    let journal = closed_alone(turnstile, pass);
    assert_eq!(rt; played, Some(true));
    assert_eq!(rt; journal.len(), 4);
    Ok(())
}

#[test]
fn a_call_that_failed_may_have_been_done(rt: HostRuntime) -> Result<(), Fail> {
    let alloc = rt.alloc();
    let mut plan = FaultList::new(alloc);
    plan.push(Fault {
        call: 0,
        whole: true,
    })?;
    let Ok((turnstile, mut pass)) = Turnstile::new(&rt, alloc, MemStore::new(alloc, plan)) else {
        return Err(Fail::from("no memory"));
    };
    let played = plays_after_a_fault(&rt, alloc, &turnstile, &mut pass);
    let journal = closed_alone(turnstile, pass);
    assert_eq!(rt; played, Some(true));
    assert_eq!(rt; journal.len(), 2);
    Ok(())
}

// Makes the calls of a thread: it puts objects that no other thread puts.
fn puts<R: Wait>(
    rt: &R,
    alloc: Global,
    turnstile: &Turnstile<MemStore>,
    pass: Pass,
    id: u128,
) -> (Pass, u64)
    requires { Belongs turnstile.now pass }
    ensures own { Belongs turnstile.now result.0 }
    ensures same { claim_of (pass_view result.0) ≡ claim_of (pass_view pass) }
{
    let mut pass = pass;
    let mut made = 0;
    for t in 0..COUNT {
        let call = Call::Put(Name::Schema(Key { t, id }), SharedBytes::new());
        let reply = turnstile.call_as(rt, alloc, &mut pass, call);
        if reply == Reply::Made && made < COUNT {
            made += 1;
        }
    }
    (pass, made)
}

// The same of two threads.
fn puts_by_two<R: Threads + Wait + Sync>(
    rt: &R,
    alloc: Global,
    turnstile: &Turnstile<MemStore>,
    first: Pass,
    other: Pass,
) -> ((Pass, u64), (Pass, u64))
    requires own { Belongs turnstile.now first × Belongs turnstile.now other }
    ensures own { Belongs turnstile.now result.0.0 × Belongs turnstile.now result.1.0 }
    ensures first { claim_of (pass_view result.0.0) ≡ claim_of (pass_view first) }
    ensures other { claim_of (pass_view result.1.0) ≡ claim_of (pass_view other) }
{
    join(
        rt,
        || -> (Pass, u64)
            requires { IsSync R.row × Belongs turnstile.now first }
            ensures own { Belongs turnstile.entry.now result.0 }
            ensures same { claim_of (pass_view result.0) ≡ claim_of (pass_view first) }
        { puts(rt, alloc, turnstile, first, 1) },
        || -> (Pass, u64)
            requires { IsSync R.row × Belongs turnstile.now other }
            ensures own { Belongs turnstile.entry.now result.0 }
            ensures same { claim_of (pass_view result.0) ≡ claim_of (pass_view other) }
        { puts(rt, alloc, turnstile, other, 2) },
    )
}

#[test]
fn two_threads_lose_no_call(rt: HostRuntime) -> Result<(), Fail> {
    let alloc = rt.alloc();
    let Some((turnstile, first, other)) = opened(&rt, alloc) else {
        return Err(Fail::from("no memory"));
    };
    let ((first, ours), (other, theirs)) = puts_by_two(&rt, alloc, &turnstile, first, other);
    let shared = closed(turnstile, first, other);
    assert_eq!(rt; (ours, theirs), (COUNT, COUNT));
    assert_eq!(rt; shared.journal.len(), 2 * COUNT);
    assert_eq!(rt; shared.store.names(alloc)?.len(), 2 * COUNT);
    for (lane, id) in [(0, 1), (OTHER, 2)] {
        let mut t = 0;
        for entry in shared.journal.as_slice() {
            if entry.lane == lane && t < COUNT {
                let want = Call::Put(Name::Schema(Key { t, id }), SharedBytes::new());
                assert_eq!(rt; entry.call, want, "of lane {lane}");
                t += 1;
            }
        }
        assert_eq!(rt; t, COUNT, "of lane {lane}");
    }
    Ok(())
}

//! A store in memory.
ghost use Rattle.std.specs.Prelude.{◌≡◌, ◌≢◌, ◌≤◌, [], OnOk, OnErr, IfOk, All, Some, None};
ghost use Rattle.std.specs.FinMap as map;
ghost use Rattle.ts_base.specs.Names.{IsSpelled};
ghost use Rattle.ts_store.specs.declared.fate.Fate.TheVariants.{Done, Unknown};
ghost use Rattle.ts_store.specs.declared.memory.Next.TheVariants.{AsPlanned};
ghost use Rattle.ts_store.specs.declared.call.StoreError.TheVariants as error;
ghost use Rattle.ts_store.specs.Counts.{one_more};
ghost use Rattle.ts_store.specs.Calls.{after, put_reply, remove_reply, list_reply, get_reply, size_reply};
ghost use Rattle.ts_store.specs.Stores.{Answers, HasCause};
ghost use Rattle.ts_store.specs.Streams.{StreamCause};
ghost use Rattle.ts_store.specs.Memory.{held_in, next_fate, IsFresh, GoesByPlan};

use crate::bytes::SharedBytes;
use crate::call::{Call, Made, StoreError};
use crate::fate::{Fate, FaultList, planned_fate};
use crate::objects::Objects;
use crate::store::Store;
use std::alloc::Global;
use ts_base::{ByteList, Name, NameList, OutOfMemory, Prefix};

/// How the next call ends.
#[derive(Clone, Copy, Debug)]
enum Next {
    /// As the plan says.
    AsPlanned,
    /// It is answered.
    Works,
    /// It fails, and does what it was asked where `whole`.
    Fails { whole: bool },
}

/// A store in memory that tells what it holds, and fails as planned.
///
/// A fault is looked for in the whole plan at each call, so plans should be short.
#[derive(Debug, Drop)]
pub struct MemStore {
    objects: Objects,
    plan: FaultList,
    next: Next,
    calls: u64,
    asked: u64,
    faults: u64,
    last: Fate,
}

impl MemStore {
    /// A store that holds nothing. The calls with the planned numbers fail; the calls to `put`,
    /// `remove`, `list`, `get` and `size` are counted together, from 0, up to 2^64 - 1.
    pub fn new(alloc: Global, plan: FaultList) -> MemStore
        ensures held { held_in result ≡ map.empty }
        ensures plan { (result.plan ≡ plan) × (result.next ≡ AsPlanned) }
        ensures counts { (result.calls ≡ 0) × (result.asked ≡ 0) × (result.faults ≡ 0) }
        ensures last { result.last ≡ Done }
        ensures fresh { plan ≡ [] → IsFresh result }
    {
        MemStore {
            objects: Objects::new(alloc),
            plan,
            next: Next::AsPlanned,
            calls: 0,
            asked: 0,
            faults: 0,
            last: Fate::Done,
        }
    }

    /// Sets the fate of the next call, in place of the planned one.
    pub fn force(&mut self, fate: Fate)
        requires { fate ≢ Unknown }
        ensures fate { next_fate self.new ≡ fate }
        ensures same { self.new ≡ record self.old { next = self.new.next } }
    {
        self.next = match fate {
            Fate::Done => Next::Works,
            Fate::FailedDone => Next::Fails { whole: true },
            Fate::FailedSkipped => Next::Fails { whole: false },
            Fate::Unknown => unreachable!(),
        };
    }

    /// Makes an object held with these bytes, in place of one of that name, for tests. It is no
    /// call: it has no number, no fate and no entry.
    pub fn plant(&mut self, name: Name, bytes: ByteList) -> Result<(), OutOfMemory>
        requires { IsSpelled name }
        ensures ok { OnOk result (self.new ≡ record self.old { objects = map.insert (held_in self.old) name bytes }) }
        ensures err { OnErr result (self.new ≡ self.old) }
    {
        self.objects.insert(name, SharedBytes::of_list(bytes)?)
    }

    /// Whether an object of this name is held. It is no call.
    pub fn holds(&self, name: Name) -> bool
        ensures { result ≡ map.contains_key (held_in self.now) name }
    {
        self.objects.contains(name)
    }

    /// The names that are held, ascending. It is no call.
    pub fn names(&self, alloc: Global) -> Result<NameList, OutOfMemory>
        ensures { IfOk result (λ names. names ≡ map.keys (held_in self.now)) }
    {
        self.objects.names(alloc)
    }

    /// How many gets it was asked for. The count stays at 2^64 - 1 once it is there.
    pub fn asked(&self) -> u64
        ensures { result ≡ self.now.asked }
    {
        self.asked
    }

    /// How many calls failed. The count stays at 2^64 - 1 once it is there.
    pub fn faults(&self) -> u64
        ensures { result ≡ self.now.faults }
    {
        self.faults
    }

    // Begins a call: gives its fate, and counts it.
    fn begin(&mut self) -> Fate
        ensures fate { result ≡ next_fate self.old }
        ensures known { result ≢ Unknown }
        ensures begun { self.new ≡ record self.old { next = AsPlanned; calls = one_more self.old.calls; last = Done } }
    {
        let fate = match self.next {
            Next::AsPlanned => planned_fate(&self.plan, self.calls),
            Next::Works => Fate::Done,
            Next::Fails { whole: true } => Fate::FailedDone,
            Next::Fails { whole: false } => Fate::FailedSkipped,
        };
        self.next = Next::AsPlanned;
        self.calls = self.calls.saturating_add(1);
        self.last = Fate::Done;
        fate
    }

    // Ends a call that fails, with its fate.
    fn fail(&mut self, fate: Fate) -> StoreError
        ensures failed { result ≡ error.Failed }
        ensures later { self.old.faults ≤ self.new.faults }
        ensures counted { self.new ≡ record self.old { faults = one_more self.old.faults; last = fate } }
    {
        self.faults = self.faults.saturating_add(1);
        self.last = fate;
        StoreError::Failed
    }

    // Ends a call that has its answer.
    fn end<T: Drop>(&mut self, fate: Fate, answer: T) -> Result<T, StoreError>
        ensures done { fate ≡ Done → (result ≡ Ok answer) × (self.new ≡ self.old) }
        ensures cause { StreamCause self.old.faults self.new.faults result }
        ensures counted { OnErr result (self.new.faults ≡ one_more self.old.faults) }
        ensures failed { fate ≢ Done → (result ≡ Err error.Failed) × (self.new ≡ record self.old { faults = one_more self.old.faults; last = fate }) }
    {
        if fate == Fate::Done {
            return Ok(answer);
        }
        Err(self.fail(fate))
    }
}

impl Store for MemStore {
    ghost held = { λ store. Some (held_in store) };

    ghost faults = { λ store. store.faults };

    ghost asked = { λ store. store.asked };

    ghost last = { λ store. store.last };

    ghost notes = { λ before _ said now. GoesByPlan before now said };

    fn put(&mut self, _alloc: Global, name: Name, bytes: &SharedBytes) -> Result<Made, StoreError> {
        let fate = self.begin();
        if !fate.took_effect() {
            return Err(self.fail(fate));
        }
        let made = self.objects.put(name, bytes)?;
        self.end(fate, made)
    }

    fn remove(&mut self, _alloc: Global, name: Name) -> Result<(), StoreError> {
        let fate = self.begin();
        if !fate.took_effect() {
            return Err(self.fail(fate));
        }
        self.objects.remove(name);
        self.end(fate, ())
    }

    fn list(&mut self, alloc: Global, prefix: Prefix) -> Result<NameList, StoreError> {
        let fate = self.begin();
        let names = self.objects.under(alloc, prefix)?;
        self.end(fate, names)
    }

    fn get(
        &mut self,
        _alloc: Global,
        name: Name,
        from: u64,
        len: u64,
    ) -> Result<Option<SharedBytes>, StoreError> {
        let fate = self.begin();
        self.asked = self.asked.saturating_add(1);
        let bytes = self.objects.part(name, from, len)?;
        self.end(fate, bytes)
    }

    fn size(&mut self, _alloc: Global, name: Name) -> Result<Option<u64>, StoreError> {
        let fate = self.begin();
        let len = self.objects.size(name);
        self.end(fate, len)
    }

    fn fate(&self) -> Fate {
        self.last
    }
}

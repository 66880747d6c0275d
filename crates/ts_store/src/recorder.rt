//! A store over another that enters each call in a journal.
ghost use Rattle.std.specs.Prelude.{◌≡◌, ◌<◌, ◌++◌, ◌∷◌, [], List, OnOk, OnErr, length, cond};
ghost use Rattle.ts_store.specs.declared.fate.Fate.TheVariants.{Done};
ghost use Rattle.ts_store.specs.declared.journal.Entry.{Entry as An_entry};
ghost use Rattle.ts_store.specs.Journals.{entry, EntersIf};
ghost use Rattle.ts_store.specs.Recorders.{Recorded, found_none, vacant};

use crate::bytes::SharedBytes;
use crate::call::{Call, Made, StoreError};
use crate::fate::Fate;
use crate::journal::{Entry, Journal};
use crate::store::Store;
use std::alloc::Global;
use ts_base::{Duplicate, Name, NameList, OutOfMemory, Prefix};

/// A store over another that enters each call in a journal, under one lane.
///
/// The memory for an entry is taken before the call, so that a call that was made is always
/// entered. For want of it the call answers `OutOfMemory`: nothing was done, and nothing is entered.
/// The entry of a put has its bytes together with whoever put them.
#[derive(Debug, Drop)]
pub struct Recorder<S: Store> {
    store: S,
    book: Book,
}

// A journal with the lane that it is kept for, what the last call did, and how many gets there were.
#[derive(Debug, Drop)]
struct Book {
    journal: Journal,
    lane: u32,
    last: Fate,
    asked: u64,
}

impl<S: Store> Recorder<S> {
    /// A store over this one that goes on with this journal, under this lane. It takes no memory.
    pub fn new(store: S, journal: Journal, lane: u32) -> Self
        ensures { result ≡ record { store = store; book = record { journal = journal; lane = lane; last = Done; asked = 0 } } }
    {
        let book = Book {
            journal,
            lane,
            last: Fate::Done,
            asked: 0,
        };
        Recorder { store, book }
    }

    /// Enters the calls from now on under this lane.
    pub fn go_to(&mut self, lane: u32)
        ensures { self.new ≡ record self.old { book = record self.old.book { lane = lane } } }
    {
        self.book.lane = lane;
    }

    /// The store below, and the journal.
    pub fn into_parts(self) -> (S, Journal)
        ensures { (result.0 ≡ self.store) × (result.1 ≡ self.book.journal) }
    {
        let Recorder { store, book } = self;
        (store, book.journal)
    }
}

impl Book {
    // Takes the place of the next entry. For want of memory there is none.
    fn open(&mut self) -> Result<(), OutOfMemory>
        ensures ok { OnOk result (self.new ≡ record self.old { journal = self.old.journal ++ vacant self.old.lane ∷ []; last = Done }) }
        ensures err { OnErr result (self.new ≡ record self.old { last = Done }) }
    {
        let vacant = Entry {
            lane: self.lane,
            call: Call::List(Prefix::Schemas),
            fate: Fate::Done,
        };
        self.last = Fate::Done;
        self.journal.push(vacant)
    }

    // Enters a call in the place that was taken last, or gives the place back where the call found
    // no memory.
    fn close(&mut self, call: Call, missed: bool, fate: Fate)
        requires { 0 < length self.old.journal }
        ensures enters { (front : List An_entry) (e : An_entry) → self.old.journal ≡ front ++ e ∷ [] → EntersIf missed front self.new.journal (entry self.old.lane call fate) }
        ensures last { self.new.last ≡ cond missed Done fate }
        ensures same { self.new ≡ record self.old { journal = self.new.journal; last = self.new.last } }
    {
        if missed {
            let _ = self.journal.pop();
            self.last = Fate::Done;
            return;
        }
        let lane = self.lane;
        self.journal
            .set(self.journal.len() - 1, Entry { lane, call, fate });
        self.last = fate;
    }
}

impl<S: Store> Store for Recorder<S> {
    ghost held = { λ recorder. S.held recorder.store };

    ghost faults = { λ recorder. S.faults recorder.store };

    ghost asked = { λ recorder. recorder.book.asked };

    ghost last = { λ recorder. recorder.book.last };

    ghost notes = { λ before call said now. Recorded S.faults S.asked S.last S.notes before now call said };

    fn put(&mut self, alloc: Global, name: Name, bytes: &SharedBytes) -> Result<Made, StoreError> {
        let Ok(copied) = bytes.copy(alloc) else {
            self.book.last = Fate::Done;
            return Err(StoreError::OutOfMemory);
        };
        self.book.open()?;
        let answer = self.store.put(alloc, name, bytes);
        let fate = self.store.fate();
        self.book
            .close(Call::Put(name, copied), found_none(&answer), fate);
        answer
    }

    fn remove(&mut self, alloc: Global, name: Name) -> Result<(), StoreError> {
        self.book.open()?;
        let answer = self.store.remove(alloc, name);
        let fate = self.store.fate();
        self.book
            .close(Call::Remove(name), found_none(&answer), fate);
        answer
    }

    fn list(&mut self, alloc: Global, prefix: Prefix) -> Result<NameList, StoreError> {
        self.book.open()?;
        let answer = self.store.list(alloc, prefix);
        let fate = self.store.fate();
        self.book
            .close(Call::List(prefix), found_none(&answer), fate);
        answer
    }

    fn get(
        &mut self,
        alloc: Global,
        name: Name,
        from: u64,
        len: u64,
    ) -> Result<Option<SharedBytes>, StoreError> {
        self.book.asked = self.book.asked.saturating_add(1);
        self.book.open()?;
        let answer = self.store.get(alloc, name, from, len);
        let fate = self.store.fate();
        self.book
            .close(Call::Get(name, from, len), found_none(&answer), fate);
        answer
    }

    fn size(&mut self, alloc: Global, name: Name) -> Result<Option<u64>, StoreError> {
        self.book.open()?;
        let answer = self.store.size(alloc, name);
        let fate = self.store.fate();
        self.book.close(Call::Size(name), found_none(&answer), fate);
        answer
    }

    fn fate(&self) -> Fate {
        self.book.last
    }
}

// Whether a call found no memory, so that it did nothing.
fn found_none<T>(answer: &Result<T, StoreError>) -> bool
    ensures { result ≡ found_none answer.now }
{
    matches!(answer, Err(StoreError::OutOfMemory))
}

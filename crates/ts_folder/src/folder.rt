//! A store in a folder.
ghost use Rattle.std.specs.Prelude.{◌≡◌, ◌≤◌, None};
ghost use Rattle.ts_store.specs.declared.fate.Fate.TheVariants.{Done};
ghost use Rattle.ts_folder.specs.Notes.{Told, Ended};

use crate::files;
use crate::listing::names_under;
use crate::paths::PathText;
use crate::trouble::Trouble;
use std::alloc::Global;
use std::rt::Files;
use std::time::Clock;
use ts_base::{Name, NameList, Prefix};
use ts_store::{Fate, Made, SharedBytes, Store, StoreError};

/// A store in a folder of the file system, which may be shared by processes and by machines.
///
/// The object of a name is the file of that name below the folder. The folder itself, and those of
/// the schemas, the commits, the fragments and the leases in it, are made when the first object is put
/// there. The file system has to have hard links, and to sync folders.
///
/// It tells nothing of what it holds. Each call that the file system answers with an error fails, and
/// what it did is not known then.
#[derive(Drop)]
pub struct FolderStore<R: Files + Clock + Send + Drop> {
    rt: R,
    root: PathText,
    tally: Tally,
}

// How many gets there were, how many calls failed, and what the last one did.
#[derive(Clone, Copy)]
struct Tally {
    asked: u64,
    faults: u64,
    last: Fate,
}

impl<R: Files + Clock + Send + Drop> FolderStore<R> {
    /// The store in the folder with this path. It touches nothing, and takes no memory. The files
    /// are those of the runtime, whose clock serves to name temporary files.
    pub fn at(rt: R, root: PathText) -> Self
        ensures root { result.root ≡ root }
        ensures counts { (result.tally.asked ≡ 0) × (result.tally.faults ≡ 0) }
        ensures last { result.tally.last ≡ Done }
    {
        let tally = Tally {
            asked: 0,
            faults: 0,
            last: Fate::Done,
        };
        FolderStore { rt, root, tally }
    }

    /// How many calls failed. The count stays at 2^64 - 1 once it is there.
    pub fn faults(&self) -> u64
        ensures { result ≡ self.now.tally.faults }
    {
        self.tally.faults
    }
}

impl Tally {
    // Ends a call as its work on files came out.
    fn end<T: Drop>(&mut self, outcome: Result<T, Trouble>) -> Result<T, StoreError>
        ensures ended { Ended self.old self.new outcome result }
        ensures later { self.old.faults ≤ self.new.faults }
    {
        match outcome {
            Ok(answer) => {
                self.last = Fate::Done;
                Ok(answer)
            }
            Err(Trouble::Memory) => {
                self.last = Fate::Done;
                Err(StoreError::OutOfMemory)
            }
            Err(Trouble::Device) => {
                self.faults = self.faults.saturating_add(1);
                self.last = Fate::Unknown;
                Err(StoreError::Failed)
            }
        }
    }
}

impl<R: Files + Clock + Send + Drop> Store for FolderStore<R> {
    ghost held = { λ _. None };

    ghost faults = { λ store. store.tally.faults };

    ghost asked = { λ store. store.tally.asked };

    ghost last = { λ store. store.tally.last };

    ghost notes = { λ before call said now. Told before.tally now.tally call said };

    fn put(&mut self, alloc: Global, name: Name, bytes: &SharedBytes) -> Result<Made, StoreError> {
        let made = files::put(alloc, &self.rt, &self.root, name, bytes.as_slice());
        self.tally.end(made)
    }

    fn remove(&mut self, alloc: Global, name: Name) -> Result<(), StoreError> {
        let removed = files::remove(alloc, &self.rt, &self.root, name);
        self.tally.end(removed)
    }

    fn list(&mut self, alloc: Global, prefix: Prefix) -> Result<NameList, StoreError> {
        let names = names_under(alloc, &self.rt, &self.root, prefix);
        self.tally.end(names)
    }

    fn get(
        &mut self,
        alloc: Global,
        name: Name,
        from: u64,
        len: u64,
    ) -> Result<Option<SharedBytes>, StoreError> {
        self.tally.asked = self.tally.asked.saturating_add(1);
        let bytes = files::get(alloc, &self.rt, &self.root, name, from, len);
        self.tally.end(bytes)
    }

    fn size(&mut self, alloc: Global, name: Name) -> Result<Option<u64>, StoreError> {
        let len = files::size(alloc, &self.rt, &self.root, name);
        self.tally.end(len)
    }

    fn fate(&self) -> Fate {
        self.tally.last
    }
}

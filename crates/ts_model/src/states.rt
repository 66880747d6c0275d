//! How far a job has come.

use crate::answers::Outcome;
use crate::deeds::DeletionList;
use crate::queries::Ready;
use std::alloc::Global;
use ts_base::{
    Boxed, Duplicate, FragKey, FragList, Head, Key, KeyList, Name, NameList, OutOfMemory, Sequence,
};
use ts_batch::{Batches, BatchesList};
use ts_commit::{Limits, VacList};
use ts_schema::{Frame, Schema, SchemaList};
use ts_store::{Call, SharedBytes};

/// An object that a job is to put.
#[derive(Clone, Debug, Drop, PartialEq, Eq)]
pub struct NewObject {
    /// Its name.
    pub name: Name,
    /// Its bytes.
    pub bytes: SharedBytes,
}

/// Objects in the order in which a job puts them.
pub type NewObjectList = Sequence<NewObject>;

impl Duplicate for NewObject {
    fn copy(&self, _alloc: Global) -> Result<NewObject, OutOfMemory> {
        Ok(self.clone()?)
    }
}

/// A fragment whose head was read.
#[derive(Clone, Debug, Drop, PartialEq, Eq)]
pub struct Opened {
    /// The fragment, as the listing has it.
    pub frag: FragKey,
    /// The head.
    pub head: Head,
    /// The object of the part that has the head.
    pub object: SharedBytes,
}

/// Fragments whose heads were read.
pub type OpenedList = Sequence<Opened>;

impl Duplicate for Opened {
    fn copy(&self, _alloc: Global) -> Result<Opened, OutOfMemory> {
        Ok(self.clone()?)
    }
}

/// What a read looks into, of those that it found in its listing of the commits.
#[derive(Debug, Drop, PartialEq, Eq)]
pub struct Listed {
    /// The committed fragments whose span meets the interval, ascending.
    pub fragments: FragList,
    /// The committed fragments that have a `.vac`, ascending.
    pub counting: FragList,
    /// The names of the deletes that are stamped in the interval, ascending: a delete is named as the
    /// fragment of a write with its key would be.
    pub delete_names: FragList,
}

/// What a read knows of the array, and what it asks of it.
#[derive(Debug)]
pub struct Reading {
    /// The least timestamp of the interval, in milliseconds since 1970-01-01.
    pub from: u64,
    /// The greatest timestamp of the interval, in milliseconds since 1970-01-01.
    pub to: u64,
    /// What is asked for.
    pub ready: Ready,
    /// The frame of the array.
    pub frame: Frame,
    /// The schema that holds at `to`.
    pub current: Schema,
    /// The committed fragments whose span meets the interval, ascending.
    pub fragments: FragList,
    /// The committed fragments that have a `.vac`, ascending.
    pub counting: FragList,
    /// The `.vac` objects of the first of them, as many as it got.
    pub vacs: VacList,
    /// The fragments that are clipped, ascending; none before it got all heads.
    pub clipped: FragList,
    /// The names of the deletes that are stamped in the interval, ascending: a delete is named as the
    /// fragment of a write with its key would be.
    pub delete_names: FragList,
    /// The deletes under the first of these names, as many as it got.
    pub deletions: DeletionList,
}

// By hand and not derived, so that each drop is one call and its proof stays small.
impl Drop for Reading {
    fn drop(self) {
        let Reading {
            from: _,
            to: _,
            ready: _,
            frame: _,
            current: _,
            fragments: _,
            counting: _,
            vacs: _,
            clipped: _,
            delete_names: _,
            deletions: _,
        } = self;
    }
}

/// What a consolidation chooses from, of those fragments that it found in its listing of the commits.
#[derive(Debug, Drop, PartialEq, Eq)]
pub struct Candidates {
    /// The committed fragments in the interval, ascending.
    pub fragments: FragList,
    /// The committed fragments that have a `.vac`, ascending.
    pub counting: FragList,
}

/// What a consolidation knows of the array, and what it may merge.
#[derive(Debug)]
pub struct Survey {
    /// The least timestamp of the interval, in milliseconds since 1970-01-01.
    pub from: u64,
    /// The greatest timestamp of the interval, in milliseconds since 1970-01-01.
    pub to: u64,
    /// How many fragments it takes.
    pub limits: Limits,
    /// The frame of the array. This is large, so it lies in a place of its own.
    pub frame: Boxed<Frame>,
    /// The committed fragments in the interval, ascending.
    pub fragments: FragList,
    /// The committed fragments that have a `.vac`, ascending.
    pub counting: FragList,
    /// The `.vac` objects of the first of them, as many as it got.
    pub vacs: VacList,
}

// By hand and not derived, so that each drop is one call and its proof stays small.
impl Drop for Survey {
    fn drop(self) {
        let Survey {
            from: _,
            to: _,
            limits: _,
            frame: _,
            fragments: _,
            counting: _,
            vacs: _,
        } = self;
    }
}

/// What a vacuum found in its listing of the commits, and the `.vac` objects that it got.
#[derive(Debug)]
pub struct Sweep {
    /// The committed fragments, ascending.
    pub committed: FragList,
    /// The fragments that have a `.vac`, committed or not, ascending.
    pub with_vac: FragList,
    /// The committed ones of these, ascending.
    pub counting: FragList,
    /// The `.vac` objects of the first of them, as many as it got.
    pub vacs: VacList,
}

// By hand and not derived, so that each drop is one call and its proof stays small.
impl Drop for Sweep {
    fn drop(self) {
        let Sweep {
            committed: _,
            with_vac: _,
            counting: _,
            vacs: _,
        } = self;
    }
}

/// The names of several listings.
pub type NameLists = Sequence<NameList>;

/// How far a create has come that does not know yet whether it puts its schema: which call it makes
/// next.
#[derive(Debug, Drop)]
pub enum Creating {
    /// It puts the frame.
    PutsFrame,
    /// It gets the frame that was there already.
    ComparesFrame,
    /// It lists the schemas, since its own frame was there already.
    ListsDeclared,
}

/// How far a job has come that looks for the schema that it works in, and for the frame: which call
/// it makes next, with what it found so far.
#[derive(Debug, Drop)]
pub enum Seeking {
    /// A read lists the commits.
    ListsCommits,
    /// An evolve, a write, a delete or a read lists the schemas.
    ListsSchemas {
        /// What a read looks into; another job looks into nothing.
        listed: Listed,
    },
    /// The same job gets the schema that holds at its stamp, or at the end of the interval.
    GetsSchema {
        /// The same.
        listed: Listed,
        /// The key of the schema.
        current: Key,
    },
    /// The same job gets the frame.
    GetsFrame {
        /// The same.
        listed: Listed,
        /// The schema.
        current: Schema,
    },
}

/// How far a read has come that knows its schema and the frame: which call it makes next, with what
/// it collected so far.
///
/// `F` is how far the fetch of a fragment has come, which differs with the way in which fragments
/// are written.
#[derive(Debug, Drop)]
pub enum Collecting<F> {
    /// It gets the `.vac` objects of committed fragments, one after the other.
    GetsVacs {
        /// What it reads, with the `.vac` objects before the next one.
        reading: Boxed<Reading>,
    },
    /// It gets the part that has the head, of one fragment after the other.
    GetsHeads {
        /// What it reads.
        reading: Boxed<Reading>,
        /// The fragments before the next one.
        opened: OpenedList,
    },
    /// It gets the further schemas that the heads name, one after the other.
    GetsSchemas {
        /// What it reads.
        reading: Boxed<Reading>,
        /// The fragments that it loads.
        opened: OpenedList,
        /// The keys of the schemas, ascending.
        keys: KeyList,
        /// The schemas of the keys before the next one.
        schemas: SchemaList,
    },
    /// It gets the deletes, one after the other.
    GetsDeletes {
        /// What it reads, with the deletes before the next one.
        reading: Boxed<Reading>,
        /// The fragments that it loads.
        opened: OpenedList,
        /// The schemas that the heads name.
        schemas: SchemaList,
    },
    /// It fetches one fragment after the other.
    Fetches {
        /// What it reads.
        reading: Boxed<Reading>,
        /// The fragments that it loads.
        opened: OpenedList,
        /// The schemas that the heads name.
        schemas: SchemaList,
        /// The place of the fragment that is fetched.
        next: u64,
        /// The fragment.
        frag: FragKey,
        /// The versions in the fragments before it, in order.
        got: Batches,
        /// How far the fetch has come.
        fetch: F,
        /// The call that it asks for.
        asked: Call,
    },
}

/// How far a consolidation has come that has not come to its puts: which call it makes next, with
/// what it found so far.
///
/// `F` is how far the fetch of a fragment has come.
#[derive(Debug, Drop)]
pub enum Merging<F> {
    /// It lists the commits.
    ListsCommits,
    /// It lists the schemas: where none holds at its stamp, it is refused.
    ListsSchemas {
        /// What it chooses from.
        candidates: Candidates,
    },
    /// It gets the frame.
    GetsFrame {
        /// What it chooses from.
        candidates: Candidates,
    },
    /// It gets the `.vac` objects of committed fragments, one after the other.
    GetsVacs {
        /// What it knows, with the `.vac` objects before the next one.
        survey: Survey,
    },
    /// It gets the part that has the head, of one fragment after the other.
    GetsHeads {
        /// What it knows.
        survey: Survey,
        /// The fragments before the next one.
        opened: OpenedList,
    },
    /// It gets the schemas that the heads name, one after the other.
    GetsSchemas {
        /// What it knows.
        survey: Survey,
        /// All fragments in the interval.
        opened: OpenedList,
        /// The keys of the schemas, ascending.
        keys: KeyList,
        /// The schemas of the keys before the next one.
        schemas: SchemaList,
    },
    /// It fetches one of its sources after the other.
    Fetches {
        /// What it knows.
        survey: Survey,
        /// The fragments that it merges.
        sources: OpenedList,
        /// Their schema.
        schema: Schema,
        /// The place of the fragment that is fetched.
        next: u64,
        /// The fragment.
        frag: FragKey,
        /// The versions of each fragment before it.
        got: BatchesList,
        /// How far the fetch has come.
        fetch: F,
        /// The call that it asks for.
        asked: Call,
    },
}

/// How far a vacuum has come that has not come to its removals: which call it makes next, with what it
/// found so far.
#[derive(Debug, Drop)]
pub enum Sweeping {
    /// It lists the commits.
    ListsCommits,
    /// It lists the schemas: where none holds at its stamp, it is refused.
    ListsSchemas {
        /// What it found.
        sweep: Sweep,
    },
    /// It gets the `.vac` objects of committed fragments, one after the other.
    GetsVacs {
        /// What it found, with the `.vac` objects before the next one.
        sweep: Sweep,
    },
    /// It lists the parts of one fragment after the other that it is to remove.
    ListsParts {
        /// What it found.
        sweep: Sweep,
        /// The fragments that it is to remove, ascending.
        set: FragList,
        /// The parts of the fragments before the next one.
        listed: NameLists,
    },
}

/// How far a job has come: which call it makes next, with what it found so far.
///
/// `F` is how far the fetch of a fragment has come.
#[derive(Debug, Drop)]
pub enum State<F> {
    /// A create comes to its frame.
    Creates(Creating),
    /// An evolve, a write, a delete or a read seeks the schema that it works in, and the frame.
    Seeks(Seeking),
    /// A job puts objects, of which `next` are put already, and ends so after the last.
    Puts {
        /// The objects, in order.
        objects: NewObjectList,
        /// The place of the next one.
        next: u64,
        /// The end after the last.
        end: Outcome,
    },
    /// A read collects what it answers from. This is large, so it lies in a place of its own.
    Collects(Boxed<Collecting<F>>),
    /// A consolidation seeks what it merges. Such a job begins without memory, so it lies in no other
    /// place.
    Merges(Merging<F>),
    /// An unlock lists the leases, and `fragments` the commits.
    Lists,
    /// A vacuum seeks what it is to remove.
    Sweeps(Sweeping),
    /// A vacuum or an unlock removes objects, of which `next` are removed already, and ends so after the
    /// last.
    Removes {
        /// The objects, in order.
        names: NameList,
        /// The place of the next one.
        next: u64,
        /// The end after the last.
        end: Outcome,
    },
    /// The job has ended.
    Over(Outcome),
}

/// How far a job has come with its lease, and under it with its work.
///
/// A job without a lease works from its first call to its last.
#[derive(Debug, Drop)]
pub enum Stage<F> {
    /// It puts its lease.
    PutsLease(Name),
    /// It holds its lease, and lists the leases.
    ListsLeases(Name),
    /// It works, under its lease where it has one.
    Works(State<F>),
    /// It removes its lease, and then ends so.
    Releases {
        /// The lease.
        lease: Name,
        /// The end, unless the removal fails.
        end: Outcome,
    },
}

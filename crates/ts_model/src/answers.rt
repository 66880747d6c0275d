//! How a command ends: its answer, or why it was refused.

use ts_base::{FragKey, FragList, Key, Label, Name, NameList, Place, Sequence, ValType};
use ts_batch::RowBatch;
use ts_cond::CondFault;
use ts_domain::DomainFault;
use ts_schema::SchemaFault;

/// A list of types.
pub type TypeList = Sequence<ValType>;

/// What a read found.
#[derive(Debug, Drop, PartialEq, Eq)]
pub struct Answer {
    /// The types of the fields that are shown.
    pub types: TypeList,
    /// A row for each cell of the box that shows something and passes the filter, in the layout that
    /// was asked for: the value of each field that is shown. In a dense array each cell shows
    /// something, a fill where no write is left.
    pub rows: RowBatch,
    /// The fragments that are clipped, ascending: each is committed, but the read could not use it,
    /// and it holds a write that the answer leaves out. That can be where a vacuum removed what was
    /// merged into it.
    pub clipped: FragList,
}

/// How a command ended.
#[derive(Debug, Drop, PartialEq, Eq)]
pub enum Outcome {
    /// The array has its frame, and a schema of this job.
    Created,
    /// The schema of this key is declared.
    Evolved(Key),
    /// A write is committed in the fragment of this key.
    Written(FragKey),
    /// A read was answered.
    Read(Answer),
    /// A delete is committed by the `.del` object of this key.
    Deleted(FragKey),
    /// So many fragments were merged into the one of this key, which is committed.
    Consolidated(FragKey, u32),
    /// So many fragments were to be removed, and none of them is left.
    Vacuumed(u64),
    /// So many leases were removed.
    Unlocked(u64),
    /// The names of the commits, ascending.
    Listed(NameList),
    /// The command was refused, and no deed has its key. But where the call that failed was the put
    /// of its own schema or of its own commit, that may have been done all the same.
    Refused(Refusal),
    /// There was no memory to go on.
    OutOfMemory,
}

/// Why a command was refused.
#[derive(Clone, Copy, Debug, PartialEq, Eq)]
pub enum Refusal {
    /// There is an array already: it has another frame, or a schema.
    ArrayExists,
    /// There is no domain of these dimensions.
    DomainBad(DomainFault),
    /// There is no schema of these attributes.
    SchemaBad(SchemaFault),
    /// No schema is stamped at `at`, in milliseconds since 1970-01-01, or before.
    NoSchema { at: u64 },
    /// The columns of a write are not those of the schema, or its box names what is no dimension or is
    /// given to a sparse array; this is the first name that clashes.
    SchemaClash { attr: Label },
    /// The coordinate `value` of a cell, or the bound `value` of a box, lies outside dimension `dim`,
    /// counted from 0.
    Domain { dim: u8, value: i128 },
    /// The cell with this index, counted from 0, has coordinates that came earlier.
    DuplicateCell { index: u64 },
    /// A write, or the box of a read of a dense array, has this many cells, more than 2^20;
    /// 2^64 - 1 stands for more.
    TooMany { cells: u64 },
    /// Nothing is deleted from a dense array.
    DenseArray,
    /// The array has no dimension of this name, which a box names, or no field, which is to be shown.
    UnknownField { field: Label },
    /// The text of a condition has this fault. The fault is never want of memory.
    Condition(CondFault),
    /// There are no fragments to merge: too few of those that may be merged share a schema, or too few
    /// of these can be merged together. So many may be merged: they lie in the interval, and no
    /// consolidation has merged them yet.
    NothingToDo { eligible: u64 },
    /// When the command listed the leases, this was the first that opposes its own one.
    Leased(Name),
    /// An object of this name was there already when the command put it.
    Taken(Name),
    /// The call on this object, or on what is below this prefix, failed.
    StoreFault(Place),
    /// The object breaks its layout first at the offset `at`, in bytes from its start.
    Damaged { name: Name, at: u64 },
    /// An object that must be there is not.
    Missing(Name),
}

/// How a job that was driven came out.
#[derive(Debug, Drop, PartialEq, Eq)]
pub enum Driven<O> {
    /// It came to its end, which was this.
    Done(O),
    /// It was stopped before its end: it asks for nothing more, and nobody learns how it went.
    Stopped,
}

//! Deeds and histories: what was done to the array, in the order of its commits.

use ts_base::{CellList, Key, Sequence};
use ts_cond::Cond;
use ts_schema::{Frame, Schema};

/// What a write did.
#[derive(Debug, Drop, PartialEq, Eq)]
pub struct Written {
    /// The key of the write: its stamp, and the identifier of its job.
    pub key: Key,
    /// The key of the schema that the rows of the cells follow.
    pub schema: Key,
    /// The cells that it laid, no two at one place.
    pub cells: CellList,
}

/// What a delete did.
#[derive(Debug, Drop)]
pub struct Deletion {
    /// The key of the delete: its stamp, and the identifier of its job.
    pub key: Key,
    /// It erases each cell whose last write has a lesser key and matches this condition.
    pub cond: Cond,
}

/// A list of deletes.
pub type DeletionList = Sequence<Deletion>;

/// A deed: a step that a reader of the array can tell from what came before.
#[derive(Debug, Drop)]
pub enum Deed {
    /// The array got its frame.
    Framed(Frame),
    /// A schema was declared.
    Declared(Schema),
    /// A write was committed.
    Wrote(Written),
    /// A delete was committed.
    Erased(Deletion),
}

/// A history: deeds in the order of their commits.
pub type History = Sequence<Deed>;

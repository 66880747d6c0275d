//! What a lane is asked to do.

use std::alloc::Global;
use ts_base::{ByteList, Duplicate, Label, OutOfMemory, Sequence, Stop};
use ts_commit::Limits;
use ts_cond::{NamedBoxList, Query};
use ts_domain::{DimList, Order};
use ts_schema::{AttrList, Evolution};
use ts_table::Column;

/// An array that is to be made: its frame, and the attributes of its first schema.
#[derive(Clone, Debug, Drop, PartialEq, Eq)]
pub struct FrameIn {
    /// Whether the array is dense: it has a value at each cell of its domain.
    pub dense: bool,
    /// The dimensions.
    pub dims: DimList,
    /// The order of the cells in a space tile.
    pub cell: Order,
    /// The order of the space tiles.
    pub tile: Order,
    /// The number of cells in a data tile.
    pub capacity: u32,
    /// The attributes.
    pub attrs: AttrList,
}

impl Duplicate for FrameIn {
    fn copy(&self, _alloc: Global) -> Result<FrameIn, OutOfMemory> {
        Ok(self.clone()?)
    }
}

/// A column of a write: a value for each of its cells.
#[derive(Debug, Drop)]
pub struct ColIn {
    /// The name of the dimension or of the attribute.
    pub name: Label,
    /// The values. Those of a blob are texts of hexadecimal digits.
    pub values: Column,
}

/// The columns of a write.
pub type ColInList = Sequence<ColIn>;

impl Duplicate for ColIn {
    fn copy(&self, alloc: Global) -> Result<ColIn, OutOfMemory> {
        Ok(ColIn {
            name: self.name,
            values: self.values.copy(alloc)?,
        })
    }
}

/// What is to be written.
#[derive(Clone, Debug, Drop)]
pub struct WriteIn {
    /// A column for each attribute, and in a sparse array for each dimension too, in any order.
    pub cols: ColInList,
    /// The bounds of the box of a write to a dense array. A dimension that they do not name has its
    /// whole domain.
    pub sub: NamedBoxList,
    /// The order in which the columns have the cells of the box.
    pub layout: Order,
}

impl Duplicate for WriteIn {
    fn copy(&self, _alloc: Global) -> Result<WriteIn, OutOfMemory> {
        Ok(self.clone()?)
    }
}

/// A command on the array.
#[derive(Clone, Debug, Drop)]
pub enum Command {
    /// Makes the array.
    Create(FrameIn),
    /// Declares a schema: the one that holds at the stamp, after a change.
    Evolve(Evolution),
    /// Writes cells, in the schema that holds at the stamp.
    Write(WriteIn),
    /// Reads in the interval from `from` to `to`, in milliseconds since 1970-01-01, both ends
    /// included, through the schema that holds at `to`.
    Read {
        /// The least timestamp.
        from: u64,
        /// The greatest timestamp.
        to: u64,
        /// What is asked for.
        query: Query,
    },
    /// Deletes, at the stamp, each cell whose last write is older and matches the condition with this
    /// text, over the fields of the schema that holds at the stamp. Older writes do not come to light.
    Delete(ByteList),
    /// Merges fragments whose timestamps lie in the interval from `from` to `to`, in milliseconds
    /// since 1970-01-01, both ends included, into one new fragment. Readers then load that one alone.
    Consolidate {
        /// The least timestamp.
        from: u64,
        /// The greatest timestamp.
        to: u64,
        /// How many fragments it takes.
        limits: Limits,
    },
    /// Removes the fragments that consolidations merged into others, with all that belongs to them. No
    /// reader and no consolidation may be at work meanwhile.
    Vacuum,
    /// Removes the leases whose holders are gone: those of other runs, whose identifiers have another
    /// seed in their upper 64 bits, and those of earlier commands of its own lane. Whoever asks for it
    /// has to know that no other run is at work.
    Unlock {
        /// The seed of the run.
        seed: u64,
        /// The lane of the command.
        lane: u32,
    },
    /// Lists the objects by which fragments and deletes are committed, and those that say what was
    /// merged.
    Fragments,
}

impl Duplicate for Command {
    fn copy(&self, _alloc: Global) -> Result<Command, OutOfMemory> {
        Ok(self.clone()?)
    }
}

/// A command with its stamp, the identifier that everything which it makes will carry, and where it
/// is stopped.
#[derive(Clone, Debug, Drop)]
pub struct Job {
    /// The command.
    pub command: Command,
    /// The stamp, in milliseconds since 1970-01-01.
    pub at: u64,
    /// The identifier: no other job of the array has it.
    pub id: u128,
    /// Where it is stopped before its end, as by a crash of its process.
    pub stop: Stop,
}

/// Jobs in the order in which a lane does them.
pub type JobList = Sequence<Job>;

impl Duplicate for Job {
    fn copy(&self, _alloc: Global) -> Result<Job, OutOfMemory> {
        Ok(self.clone()?)
    }
}

/// A line of a script: a command in its lane.
#[derive(Debug, Drop)]
pub struct Line {
    /// The lane, 0 to 7.
    pub lane: u32,
    /// The command. Where `to_stamp` is set its interval ends at 0 here; an unlock has the seed 0.
    pub command: Command,
    /// The stamp, in milliseconds since 1970-01-01, or None: then it is the clock's number as the
    /// command starts.
    pub at: Option<u64>,
    /// Whether the interval of a read or of a consolidation ends at the command's own stamp.
    pub to_stamp: bool,
    /// Where the command is stopped before its end.
    pub stop: Stop,
}

/// The lines of a script, in order.
pub type LineList = Sequence<Line>;

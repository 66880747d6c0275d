//! Batches of versions, one behind another.
ghost use Rattle.std.specs.Prelude.{◌≡◌, [], ◌++◌, IfOk, OnOk, OnErr};
ghost use Rattle.ts_batch.specs.Batches.{versions_of};

use crate::batch::Batch;
use crate::cell::{BatchCell, BatchCellList};
use std::alloc::Global;
use std::marker::Model;
use ts_base::{OutOfMemory, Sequence};

/// The versions of some batches. Contracts see the list of all versions, those of one batch behind
/// those of another.
#[derive(Debug, Drop)]
pub struct Batches {
    batches: Vec<Batch>,
}

/// A list of such lists: the versions of one source after the other.
pub type BatchesList = Sequence<Batches>;

impl Model for Batches {
    ghost use Rattle.std.specs.Prelude.{List};
    ghost use Rattle.ts_base.specs.declared.heads.Version.{Version};

    ghost Value = { List Version };

    ghost use Rattle.ts_batch.specs.Batches.{versions_of};

    ghost view = { λ batches. versions_of batches.batches.items };
}

impl Batches {
    /// No versions. It takes no memory.
    pub fn new(alloc: Global) -> Batches
        ensures { result ≡ [] }
    {
        Batches {
            batches: Vec::new(alloc),
        }
    }

    /// The versions of one batch.
    pub fn of(alloc: Global, batch: Batch) -> Result<Batches, OutOfMemory>
        ensures { IfOk result (λ batches. batches ≡ batch) }
    {
        let mut batches = Batches::new(alloc);
        batches.push(batch)?;
        Ok(batches)
    }

    /// The batches of these versions, in their order.
    pub fn as_slice(&self) -> &[Batch]
        ensures { versions_of result.now ≡ self.now }
    {
        self.batches.as_slice()
    }

    /// Puts the versions of a batch behind the others. Want of memory leaves these as they were, and the
    /// batch is lost.
    pub fn push(&mut self, batch: Batch) -> Result<(), OutOfMemory>
        ensures ok { OnOk result (self.new ≡ self.old ++ batch) }
        ensures err { OnErr result (self.new ≡ self.old) }
    {
        self.batches.push(batch)?;
        Ok(())
    }

    /// Puts the versions of other batches behind these. Want of memory leaves these as they were, and
    /// the others are lost.
    pub fn append(&mut self, more: Batches) -> Result<(), OutOfMemory>
        ensures ok { OnOk result (self.new ≡ self.old ++ more) }
        ensures err { OnErr result (self.new ≡ self.old) }
    {
        let Batches { mut batches } = more;
        self.batches.append(&mut batches)?;
        Ok(())
    }

    /// The batches of these versions, in their order, which are moved.
    pub fn into_vec(self) -> Vec<Batch>
        ensures { versions_of result.items ≡ self }
    {
        let Batches { batches } = self;
        batches
    }

    /// The versions in their places. None is copied.
    pub fn cells(&self, alloc: Global) -> Result<BatchCellList<'_>, OutOfMemory>
        ensures { IfOk result (λ list. list ≡ self.now) }
    {
        cells_of(alloc, self.batches.as_slice())
    }
}

// The versions of batches, in their places.
fn cells_of(alloc: Global, batches: &[Batch]) -> Result<BatchCellList<'_>, OutOfMemory>
    ensures { IfOk result (λ list. list ≡ versions_of batches.now) }
{
    let mut list = BatchCellList::new(alloc);
    for batch in batches {
        add_cells(&mut list, batch)?;
    }
    Ok(list)
}

// The versions of one batch more.
#[tactic(auto, using(ts_table::proofs::Tables::steps))]
fn add_cells<'a>(list: &mut BatchCellList<'a>, batch: &'a Batch) -> Result<(), OutOfMemory>
    ensures { OnOk result (list.new ≡ list.old ++ batch.now) }
{
    for place in 0..batch.len() {
        list.push(BatchCell::of(batch, place))?;
    }
    Ok(())
}

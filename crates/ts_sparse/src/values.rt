//! The values of an attribute at spots, by the columns of batches.
ghost use Rattle.std.specs.Prelude.{◌≡◌, length, get_or, IfOk};
ghost use Rattle.ts_base.specs.declared.values.Val.TheVariants as val;
ghost use Rattle.ts_piece.specs.Spots.{version_in, IsSpot};
ghost use Rattle.ts_table.specs.Columns.{val_seen};
ghost use Rattle.ts_sparse.specs.Seen.{IsSource, AreSources};

use crate::coords::number_in;
use std::alloc::Global;
use ts_base::OutOfMemory;
use ts_batch::{Batch, BatchCell};
use ts_piece::{Spot, cell_at};
use ts_table::{Column, Integers, Seen};

/// Where the values of an attribute of the versions of a batch are seen.
#[derive(Clone, Copy)]
pub(crate) enum Source<'a> {
    /// In a slice, as integers.
    Integers(Integers<'a>),
    /// In a column.
    Column(&'a Column),
    /// In the versions themselves.
    Versions,
}

/// Where the values of an attribute are seen, batch by batch.
#[tactic(auto, using(crate::proofs::SeenLaws::eaches))]
pub(crate) fn sources_of(
    alloc: Global,
    batches: &[Batch],
    attr: u8,
) -> Result<Vec<Source<'_>>, OutOfMemory>
    ensures { IfOk result (λ sources. AreSources attr batches.now sources.items) }
{
    let mut sources = Vec::with_capacity(alloc, batches.len())?;
    for batch in batches {
        sources.push(source_of(batch, attr))?;
    }
    Ok(sources)
}

// Where the values of an attribute of the versions of a batch are seen.
fn source_of(batch: &Batch, attr: u8) -> Source<'_>
    ensures { IsSource attr batch.now result }
{
    match batch.vals(attr as u64) {
        Some(column) => match column.as_integers() {
            Some(all) => Source::Integers(all),
            None => Source::Column(column),
        },
        None => Source::Versions,
    }
}

/// The value of an attribute at a spot, null where there is none.
#[tactic(auto, using(crate::proofs::SeenLaws::batch_there, crate::proofs::SeenLaws::sources_many))]
pub(crate) fn value_at<'a>(
    batches: &'a [Batch],
    sources: &[Source<'a>],
    attr: u8,
    spot: Spot,
) -> Seen<'a>
    requires there { IsSpot batches.now spot }
    requires sources { AreSources attr batches.now sources.now }
    ensures { val_seen result ≡ get_or (version_in batches.now spot).row attr val.Null }
{
    match sources[spot.batch as usize] {
        Source::Integers(all) => Seen::Int(number_in(all, spot.place)),
        Source::Column(column) => column.at(spot.place as u64),
        Source::Versions => value_of(&cell_at(batches, spot), attr),
    }
}

/// The value of an attribute of a cell, null where there is none.
pub(crate) fn value_of<'a>(version: &BatchCell<'a>, attr: u8) -> Seen<'a>
    ensures { val_seen result ≡ get_or version.now.row attr val.Null }
{
    match version.val(attr as u64) {
        Some(value) => value,
        None => Seen::Null,
    }
}

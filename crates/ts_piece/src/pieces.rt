//! Pieces whose versions stand in batches.
ghost use Rattle.std.specs.Prelude.{◌≡◌, ◌<◌, length, All, IfOk};
ghost use Rattle.ts_table.specs.Picks.{picked};
ghost use Rattle.ts_piece.specs.Spots.{spotted, IsSpot};

use crate::spots::{Spot, cells_at, first_spots};
use std::alloc::Global;
use std::marker::Model;
use ts_base::{Duplicate, Head, IndexList, OutOfMemory, Piece, VersionList};
use ts_batch::{Batch, BatchCellList};
use ts_table::Table;

/// A fragment as its readers see it, whose versions stand in batches. Contracts see the piece.
#[derive(Debug, Drop)]
pub struct BatchPiece {
    head: Head,
    batches: Vec<Batch>,
    spots: Vec<Spot>,
}

/// Where the versions of a piece stand.
#[derive(Drop)]
pub struct PieceParts<'a> {
    /// The batches.
    pub batches: &'a [Batch],
    /// The spots of the versions, in their order.
    pub spots: &'a [Spot],
}

/// The head of a piece, and its versions in their places. Contracts see the piece.
#[derive(Drop)]
pub struct PieceCells<'a> {
    head: &'a Head,
    versions: BatchCellList<'a>,
}

impl Model for BatchPiece {
    ghost use Rattle.std.specs.Prelude.{All};
    ghost use Rattle.ts_base.specs.declared.heads.Piece.{Piece};

    ghost Value = { Piece };

    ghost use Rattle.ts_piece.specs.Spots.{spotted, IsSpot};

    ghost view = { λ piece. record { head = piece.head; versions = spotted piece.batches.items piece.spots.items } };

    ghost invariant = { λ piece. All (IsSpot piece.batches.items) piece.spots.items };
}

impl<'a> Model for PieceCells<'a> {
    ghost use Rattle.ts_base.specs.declared.heads.Piece.{Piece};

    ghost Value = { Piece };

    ghost view = { λ piece. record { head = piece.head.now; versions = piece.versions } };
}

impl BatchPiece {
    /// The piece with this head, whose versions are those at these spots of batches. It takes no memory.
    pub fn of(head: Head, batches: Vec<Batch>, spots: Vec<Spot>) -> BatchPiece
        requires { All (IsSpot batches.items) spots.items }
        ensures { result ≡ record { head = head; versions = spotted batches.items spots.items } }
    {
        BatchPiece {
            head,
            batches,
            spots,
        }
    }

    /// The piece with this head, whose versions are those at these places of a table.
    #[tactic(auto, using(crate::proofs::SpotLaws::tables))]
    pub fn of_table(
        alloc: Global,
        head: Head,
        table: Table,
        places: IndexList,
    ) -> Result<BatchPiece, OutOfMemory>
        requires { All (λ place. place < length table) places }
        ensures { IfOk result (λ piece. piece ≡ record { head = head; versions = picked table places }) }
    {
        let spots = first_spots(alloc, places.as_slice())?;
        let batches = vec![in alloc; Batch::of_table(table)]?;
        Ok(BatchPiece::of(head, batches, spots))
    }

    /// The head and the versions, of which none is copied.
    pub fn cells(&self, alloc: Global) -> Result<PieceCells<'_>, OutOfMemory>
        ensures { IfOk result (λ piece. piece ≡ self.now) }
    {
        let versions = cells_at(alloc, self.batches.as_slice(), self.spots.as_slice())?;
        Ok(PieceCells {
            head: &self.head,
            versions,
        })
    }

    /// The head.
    pub fn head(&self) -> &Head
        ensures { result.now ≡ self.now.head }
    {
        &self.head
    }

    /// Where the versions stand. It takes no memory.
    pub fn parts(&self) -> PieceParts<'_>
        ensures versions { spotted result.batches.now result.spots.now ≡ self.now.versions }
        ensures there { All (IsSpot result.batches.now) result.spots.now }
    {
        PieceParts {
            batches: self.batches.as_slice(),
            spots: self.spots.as_slice(),
        }
    }

    /// The number of versions.
    #[tactic(auto, using(crate::proofs::SpotLaws::counts))]
    pub fn len(&self) -> u64
        ensures { result ≡ length self.now.versions }
    {
        self.spots.len() as u64
    }
}

impl PieceCells<'_> {
    /// The same piece, each of whose versions has a row of its own.
    pub fn to_rows(&self, alloc: Global) -> Result<Piece, OutOfMemory>
        ensures { IfOk result (λ piece. piece ≡ self.now) }
    {
        let mut versions = VersionList::new(alloc);
        for version in self.versions.as_slice() {
            versions.push(version.to_version(alloc)?)?;
        }
        let head: &Head = self.head;
        Ok(Piece {
            head: head.copy(alloc)?,
            versions,
        })
    }
}

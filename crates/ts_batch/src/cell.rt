//! Versions in their places.
ghost use Rattle.std.specs.Prelude.{◌≡◌, ◌<◌, length, slice_get, option_map, IfOk};
ghost use Rattle.ts_table.specs.Columns.{val_seen};
ghost use Rattle.ts_table.specs.Tables.{version_or};

use crate::batch::Batch;
use std::alloc::Global;
use std::marker::Model;
use ts_base::{Coords, Key, OutOfMemory, Sequence, Version};
use ts_table::Seen;

/// A version in its place in a batch. Contracts see the version.
#[derive(Drop)]
pub struct BatchCell<'a> {
    batch: &'a Batch,
    place: u64,
}

/// A list of versions, each in its place in some batch. Contracts see the list of the versions.
pub type BatchCellList<'a> = Sequence<BatchCell<'a>>;

impl<'a> Model for BatchCell<'a> {
    ghost use Rattle.std.specs.Prelude.{◌<◌, length};
    ghost use Rattle.ts_base.specs.declared.heads.Version.{Version};

    ghost Value = { Version };

    ghost use Rattle.ts_table.specs.Tables.{version_or};

    ghost view = { λ cell. version_or cell.batch.now cell.place };

    ghost invariant = { λ cell. cell.place < length cell.batch.now };
}

impl<'a> BatchCell<'a> {
    /// The version at a place of a batch, counted from 0.
    pub fn of(batch: &'a Batch, place: u64) -> BatchCell<'a>
        requires { place < length batch.now }
        ensures { result ≡ version_or batch.now place }
    {
        BatchCell { batch, place }
    }

    /// The key of the write.
    pub fn key(&self) -> Key
        ensures { result ≡ self.now.key }
    {
        let batch: &Batch = self.batch;
        batch.key(self.place)
    }

    /// The key of the schema that the row is written in.
    pub fn schema(&self) -> Key
        ensures { result ≡ self.now.schema }
    {
        let batch: &Batch = self.batch;
        batch.schema(self.place)
    }

    /// The coordinates. It takes no memory.
    pub fn coords(&self) -> Coords
        ensures { result ≡ self.now.coords }
    {
        let batch: &Batch = self.batch;
        batch.coords(self.place)
    }

    /// The coordinate along a dimension, if there is one.
    pub fn coord(&self, dim: u8) -> Option<i128>
        ensures { result ≡ slice_get self.now.coords dim }
    {
        let batch: &Batch = self.batch;
        batch.coord(self.place, dim)
    }

    /// The value of an attribute, if there is one.
    pub fn val(&self, attr: u64) -> Option<Seen<'a>>
        ensures { option_map val_seen result ≡ slice_get self.now.row attr }
    {
        let batch: &Batch = self.batch;
        batch.val(self.place, attr)
    }

    /// The version with a row of its own.
    pub fn to_version(&self, alloc: Global) -> Result<Version, OutOfMemory>
        ensures { IfOk result (λ version. version ≡ self.now) }
    {
        let batch: &Batch = self.batch;
        batch.version(alloc, self.place)
    }

    /// The same version once more. It takes no memory.
    pub fn again(&self) -> BatchCell<'a>
        ensures { result ≡ self.now }
    {
        BatchCell {
            batch: self.batch,
            place: self.place,
        }
    }
}

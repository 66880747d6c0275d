//! Batches of versions.
ghost use Rattle.std.specs.Prelude.{◌≡◌, ◌<◌, length, slice_get, option_map, IfErr, IfOk, IfSome};
ghost use Rattle.ts_table.specs.Columns.{val_seen};
ghost use Rattle.ts_table.specs.Tables.{column_of, HaveRows, HasVals, version_or};

use crate::seen::seen_in;
use std::alloc::Global;
use std::marker::Model;
use ts_base::{Coords, Duplicate, Key, OutOfMemory, Version, VersionList};
use ts_table::{BoxTable, Column, Numbers, Seen, Table};

/// How the versions of a batch lie in memory.
#[derive(Debug, Drop)]
pub(crate) enum Held {
    /// Each with a row of its own.
    Rows(VersionList),
    /// Field by field.
    Columns(Table),
    /// Field by field, those of all cells of a box.
    Box(BoxTable),
}

/// Some versions, as rows, as columns or as the columns of a box. Contracts see the list of the versions.
#[derive(Debug, Drop)]
pub struct Batch {
    held: Held,
}

impl Model for Batch {
    ghost use Rattle.std.specs.Prelude.{List};
    ghost use Rattle.ts_base.specs.declared.heads.Version.{Version};

    ghost Value = { List Version };

    ghost use Rattle.ts_batch.specs.Batches.{versions_held};

    ghost view = { λ batch. versions_held batch.held };
}

impl Batch {
    /// The versions of these rows. It takes no memory.
    pub fn of_rows(versions: VersionList) -> Batch
        ensures { result ≡ versions }
    {
        Batch {
            held: Held::Rows(versions),
        }
    }

    /// The versions of a table. It takes no memory.
    pub fn of_table(versions: Table) -> Batch
        ensures { result ≡ versions }
    {
        Batch {
            held: Held::Columns(versions),
        }
    }

    /// The versions of all cells of a box. It takes no memory.
    pub fn of_box(versions: BoxTable) -> Batch
        ensures { result ≡ versions }
    {
        Batch {
            held: Held::Box(versions),
        }
    }

    /// The table of a box that the batch is made of, if it is. No clause says when.
    pub fn as_box(&self) -> Option<&BoxTable>
        ensures { IfSome result (λ versions. versions.now ≡ self.now) }
    {
        match &self.held {
            Held::Box(table) => Some(table),
            _ => None,
        }
    }

    /// The values of an attribute of all versions, if there is a column of them. No clause says when.
    pub fn vals(&self, attr: u64) -> Option<&Column>
        ensures { IfSome result (λ column. HasVals self.now attr column.now) }
    {
        match &self.held {
            Held::Rows(_) => None,
            Held::Columns(table) => table.vals(attr),
            Held::Box(table) => table.vals(attr),
        }
    }

    /// The coordinates of all versions along a dimension, if there is a column of them. No clause says when.
    pub fn column(&self, dim: u8) -> Option<&Numbers>
        ensures { IfSome result (λ column. column.now ≡ column_of self.now dim) }
    {
        match &self.held {
            Held::Columns(table) => table.column(dim),
            _ => None,
        }
    }

    /// The values of the versions, one column for each attribute, which are moved. Of versions that are
    /// rows there are none, and these come back.
    pub fn into_attrs(self) -> Result<Vec<Column>, Batch>
        ensures ok { IfOk result (λ columns. HaveRows self columns.items) }
        ensures err { IfErr result (λ batch. batch ≡ self) }
    {
        let Batch { held } = self;
        match held {
            Held::Rows(versions) => Err(Batch::of_rows(versions)),
            Held::Columns(table) => Ok(table.into_attrs()),
            Held::Box(table) => Ok(table.into_attrs()),
        }
    }

    /// The number of versions.
    pub fn len(&self) -> u64
        ensures { result ≡ length self.now }
    {
        match &self.held {
            Held::Rows(versions) => versions.len(),
            Held::Columns(table) => table.len(),
            Held::Box(table) => table.len(),
        }
    }

    /// The key of the write that laid the version at a place.
    pub fn key(&self, place: u64) -> Key
        requires { place < length self.now }
        ensures { result ≡ (version_or self.now place).key }
    {
        match &self.held {
            Held::Rows(versions) => versions.at(place).key,
            Held::Columns(table) => table.origin(place).key,
            Held::Box(table) => table.key(place),
        }
    }

    /// The key of the schema that the row of the version at a place is written in.
    pub fn schema(&self, place: u64) -> Key
        requires { place < length self.now }
        ensures { result ≡ (version_or self.now place).schema }
    {
        match &self.held {
            Held::Rows(versions) => versions.at(place).schema,
            Held::Columns(table) => table.origin(place).schema,
            Held::Box(table) => table.schema(place),
        }
    }

    /// The coordinates of the version at a place. It takes no memory.
    pub fn coords(&self, place: u64) -> Coords
        requires { place < length self.now }
        ensures { result ≡ (version_or self.now place).coords }
    {
        match &self.held {
            Held::Rows(versions) => versions.at(place).coords,
            Held::Columns(table) => table.coords(place),
            Held::Box(table) => table.coords(place),
        }
    }

    /// The coordinate along a dimension of the version at a place, if it has one there.
    #[inline(always)]
    pub fn coord(&self, place: u64, dim: u8) -> Option<i128>
        requires { place < length self.now }
        ensures { result ≡ slice_get (version_or self.now place).coords dim }
    {
        match &self.held {
            Held::Rows(versions) => coord_of(&versions.at(place).coords, dim),
            Held::Columns(table) => table.coord(place, dim),
            Held::Box(table) => table.coord(place, dim),
        }
    }

    /// The value of an attribute of the version at a place, if it has one there.
    pub fn val(&self, place: u64, attr: u64) -> Option<Seen<'_>>
        requires { place < length self.now }
        ensures { option_map val_seen result ≡ slice_get (version_or self.now place).row attr }
    {
        match &self.held {
            Held::Rows(versions) => seen_in(versions.at(place).row.as_slice(), attr),
            Held::Columns(table) => table.val(place, attr),
            Held::Box(table) => table.val(place, attr),
        }
    }

    /// The version at a place, with a row of its own.
    pub fn version(&self, alloc: Global, place: u64) -> Result<Version, OutOfMemory>
        requires { place < length self.now }
        ensures { IfOk result (λ version. version ≡ version_or self.now place) }
    {
        match &self.held {
            Held::Rows(versions) => versions.at(place).copy(alloc),
            Held::Columns(table) => table.version(alloc, place),
            Held::Box(table) => table.version(alloc, place),
        }
    }
}

// The coordinate along a dimension, if there is one.
fn coord_of(coords: &Coords, dim: u8) -> Option<i128>
    ensures { result ≡ slice_get coords.now dim }
{
    match coords.as_slice().get(dim as usize) {
        Some(coordinate) => Some(*coordinate),
        None => None,
    }
}

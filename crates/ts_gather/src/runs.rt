//! Which write laid what stands in each row.
ghost use Rattle.std.specs.Prelude.{◌≡◌, ◌-◌, ◌<◌, ◌≤◌, ℕ, length, get_or, IfOk, IfSome, OnOk};
ghost use Rattle.ts_table.specs.Tables.{no_origin};
ghost use Rattle.std.specs.List.{All};
ghost use Rattle.ts_table.specs.Tables.{no_origin};
ghost use Rattle.ts_gather.specs.Rows.{no_key};
ghost use Rattle.ts_gather.specs.Runs.{AreRuns, EndsWith};

use std::alloc::Global;
use ts_base::{Key, OutOfMemory};
use ts_table::Origin;

/// The writes of some rows: one for each run of rows of the same write, and which of them each row has.
#[derive(Debug, Drop)]
pub(crate) struct Runs {
    /// The writes.
    pub(crate) origins: Vec<Origin>,
    /// The place of its write among them, for each row.
    pub(crate) cells: Vec<u32>,
}

// What stands for the key of a write that is not there.
const NO_KEY: Key = Key { t: 0, id: 0 };

/// The writes of these rows, of which `origins` has the places among keys.
pub(crate) fn runs_of(
    alloc: Global,
    keys: &[Key],
    schema: Key,
    origins: &[u32],
    rows: &[u32],
) -> Result<Runs, OutOfMemory>
    requires { All (λ k. k < length origins.now) rows.now }
    ensures { IfOk result (AreRuns keys.now schema origins.now rows.now) }
{
    let mut writes = Vec::new(alloc);
    let mut cells = Vec::new(alloc);
    let mut last = None;
    for row in rows {
        let origin = origins[*row as usize];
        let cell = write_of(&mut writes, keys, schema, last, origin)?;
        cells.push(cell)?;
        last = Some(origin);
    }
    Ok(Runs {
        origins: writes,
        cells,
    })
}

// The place of the write at a place among keys: of the last one, where it is that, or else behind it.
fn write_of(
    writes: &mut Vec<Origin>,
    keys: &[Key],
    schema: Key,
    last: Option<u32>,
    origin: u32,
) -> Result<u32, OutOfMemory>
    requires { IfSome last (EndsWith keys.now schema writes.old.items) }
    ensures cell { IfOk result (λ cell. cell ≡ length writes.new.items - 1) }
    ensures ends { OnOk result (EndsWith keys.now schema writes.new.items origin) }
    ensures longer { length writes.old.items ≤ length writes.new.items }
    ensures kept { (c : ℕ) → c < length writes.old.items → get_or writes.new.items c no_origin ≡ get_or writes.old.items c no_origin }
{
    if last != Some(origin) {
        let key = key_at(keys, origin);
        writes.push(Origin { key, schema })?;
    }
    match u32::try_from(writes.len() - 1) {
        Ok(cell) => Ok(cell),
        Err(_many) => Err(OutOfMemory),
    }
}

// The key at a place, or that of no write where there is none.
fn key_at(keys: &[Key], place: u32) -> Key
    ensures { result ≡ get_or keys.now place no_key }
{
    match keys.get(place as usize) {
        Some(key) => *key,
        None => NO_KEY,
    }
}

//! What a read answers: the rows that its query selects of the cells that it shows.
ghost use Rattle.std.specs.Prelude.{◌≡◌, IfOk};
ghost use Rattle.ts_actor.specs.PieceLaws.{AreInBox};
ghost use Rattle.ts_model.specs.States.{answer_of};
ghost use Rattle.ts_reader.specs.Reading.{IsReading};
ghost use Rattle.ts_actor.specs.Known.{AreRising};

use crate::shown::cells_shown;
use std::alloc::Global;
use ts_base::{Duplicate, OutOfMemory};
use ts_batch::Batches;
use ts_model::{Answer, Reading, types_shown};
use ts_schema::SchemaList;
use ts_select::rows_of;

/// The answer of a read that got these versions.
pub(crate) fn answer_of(
    alloc: Global,
    reading: &Reading,
    schemas: &SchemaList,
    got: Batches,
) -> Result<Answer, OutOfMemory>
    requires reading { IsReading reading.now }
    requires rise { AreRising schemas.now }
    requires inside { AreInBox reading.now.ready.sub got }
    ensures { IfOk result (λ answer. answer ≡ answer_of reading.now schemas.now got) }
{
    let cells = cells_shown(alloc, reading, schemas, got)?;
    let Reading {
        ready,
        frame,
        current,
        ..
    } = reading;
    Ok(Answer {
        types: types_shown(alloc, frame, current, ready)?,
        rows: rows_of(alloc, frame, current, ready, cells)?,
        clipped: reading.clipped.copy(alloc)?,
    })
}

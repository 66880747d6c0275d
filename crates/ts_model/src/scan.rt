//! Reading a history by looking through all its deeds: slow and plain, for other ways to read to be
//! compared with.
ghost use Rattle.std.specs.Prelude.{◌≡◌, ◌≤◌, ◌++◌, List, true, map, All, IfOk, OnOk};
ghost use Rattle.std.specs.Ordering.{int_cmp};
ghost use Rattle.std.specs.Cmp.Lexicographic.{slice_cmp};
ghost use Rattle.std.specs.BTreeMap.{IsOrdered};
ghost use Rattle.ts_base.specs.declared.heads.Cell.{Cell as AnyCell};
ghost use Rattle.ts_domain.specs.Boxes.{IsBox, cells_of};
ghost use Rattle.ts_domain.specs.Domains.{LiesInDomain};
ghost use Rattle.ts_schema.specs.Attrs.{shown_row};
ghost use Rattle.ts_schema.specs.FrameTexts.{IsFrame};
ghost use Rattle.ts_schema.specs.SchemaTexts.{AreAttrs};
ghost use Rattle.ts_model.specs.Answers.{IsWhole, shown_at};
ghost use Rattle.ts_model.specs.Deeds.{IsHistory, attrs_with};
ghost use Rattle.ts_model.specs.Queries.{most_cells, types_shown};
ghost use Rattle.ts_model.specs.Scans.{cells_in, cells_of_deed, with_shown, Shows, AreShown, AreRows, IsAsked, IsReferred, left_by, shown_by, shown_of};
ghost use Rattle.ts_model.specs.Selections.{IsNamedBox};

use crate::answers::{Answer, Outcome, Refusal};
use crate::checking::check_query;
use crate::deeds::{Deed, History};
use crate::deletions::is_erased;
use crate::finding::{current_schema, find_row, frame_in, latest, schema_with};
use crate::queries::{QueryFault, Ready, Shown, ShownList};
use crate::selection::{fills_of, rows_of, types_shown};
use std::alloc::Global;
use std::collections::BTreeMap;
use ts_base::{Cell, Coords, Duplicate, FragList, Key, OutOfMemory, Row};
use ts_batch::RowBatch;
use ts_cond::Query;
use ts_domain::Order;
use ts_order::coords_at;
use ts_schema::{AttrList, Frame, Schema, show_row};

/// How a read ends whose listing of the commits saw the history `seen`, and whose later listing of
/// the schemas saw the history `later`.
///
/// Of each cell of the box it has the last write among those stamped from `from` to `to`, in
/// milliseconds since 1970-01-01, both included, unless a delete with a greater key that is stamped
/// there matches it, shown through the schema that holds at `to`. A cell of a dense array that has no
/// such write shows the fill of each attribute. It is refused with `NoSchema` where
/// no schema of `later` is stamped at `to` or before, and else for what its query is refused for. For
/// want of memory for the answer there is an error.
pub fn reference(
    alloc: Global,
    seen: &History,
    later: &History,
    from: u64,
    to: u64,
    query: &Query,
) -> Result<Outcome, OutOfMemory>
    requires history { IsHistory later.now }
    requires bounds { All IsNamedBox query.now.sub }
    ensures { IfOk result (λ end. IsReferred seen.now later.now from to query.now end) }
{
    match current_schema(later.as_slice(), to) {
        None => Ok(Outcome::Refused(Refusal::NoSchema { at: to })),
        Some(current) => match frame_in(later.as_slice()) {
            None => unreachable!(),
            Some(frame) => ask(alloc, seen.as_slice(), frame, current, from, to, query),
        },
    }
}

// How a read ends of an array with a frame through a schema.
fn ask(
    alloc: Global,
    deeds: &[Deed],
    frame: &Frame,
    current: &Schema,
    from: u64,
    to: u64,
    query: &Query,
) -> Result<Outcome, OutOfMemory>
    requires frame { IsFrame frame.now }
    requires attrs { AreAttrs current.now.attrs }
    requires bounds { All IsNamedBox query.now.sub }
    ensures { IfOk result (λ end. IsAsked deeds.now frame.now current.now from to query.now end) }
{
    match check_query(alloc, frame, current, query) {
        Err(QueryFault::OutOfMemory) => Err(OutOfMemory),
        Err(QueryFault::Refused(refusal)) => Ok(Outcome::Refused(refusal)),
        Ok(ready) => {
            let scan = Scan {
                deeds,
                frame,
                current,
                ready: &ready,
                from,
                to,
            };
            Ok(Outcome::Read(answer(alloc, &scan)?))
        }
    }
}

// What is looked for, and where.
#[derive(Clone, Copy, Drop)]
struct Scan<'a> {
    // The deeds of the history.
    deeds: &'a [Deed],
    // The frame of the array.
    frame: &'a Frame,
    // The schema through which rows show.
    current: &'a Schema,
    // What is asked for.
    ready: &'a Ready,
    // The least timestamp.
    from: u64,
    // The greatest timestamp.
    to: u64,
}

// The answer of an array.
fn answer(alloc: Global, scan: &Scan) -> Result<Answer, OutOfMemory>
    requires frame { IsFrame scan.now.frame.now }
    requires attrs { AreAttrs scan.now.current.now.attrs }
    requires inside { LiesInDomain scan.now.frame.now.domain scan.now.ready.now.sub }
    requires valid { IsBox scan.now.ready.now.sub }
    requires few { scan.now.frame.now.dense ≡ true → cells_of scan.now.ready.now.sub ≤ most_cells }
    ensures types { IfOk result (λ answer. answer.types ≡ types_shown scan.now.frame.now scan.now.current.now.attrs scan.now.ready.now) }
    ensures rows { IfOk result (λ answer. AreRows scan.now.deeds.now scan.now.frame.now scan.now.current.now scan.now.ready.now scan.now.from scan.now.to answer.rows) }
    ensures whole { IfOk result (λ answer. IsWhole answer) }
{
    let cells = shown_cells(alloc, scan)?;
    let listed = listed(alloc, &cells)?;
    Ok(Answer {
        types: types_shown(alloc, scan.frame, scan.current, scan.ready)?,
        rows: RowBatch::of_rows(rows_of(alloc, scan.frame, scan.current, scan.ready, listed)?),
        clipped: FragList::new(alloc),
    })
}

// The cells in row order.
fn listed(alloc: Global, cells: &BTreeMap<Coords, Row>) -> Result<ShownList, OutOfMemory>
    ensures cells { IfOk result (λ list. list ≡ map shown_of cells.now.entries) }
    ensures ordered { IsOrdered (slice_cmp int_cmp) cells.now }
{
    let mut list = ShownList::new(alloc);
    for (coords, row) in cells.iter() {
        list.push(Shown {
            coords: *coords,
            row: row.copy(alloc)?,
        })?;
    }
    Ok(list)
}

// What the array shows at each coordinate.
fn shown_cells(alloc: Global, scan: &Scan) -> Result<BTreeMap<Coords, Row>, OutOfMemory>
    requires valid { IsBox scan.now.ready.now.sub }
    requires few { scan.now.frame.now.dense ≡ true → cells_of scan.now.ready.now.sub ≤ most_cells }
    ensures { IfOk result (λ cells. AreShown (shown_by scan.now) (cells_in cells)) }
{
    let mut cells = left_cells(alloc, scan)?;
    if scan.frame.dense {
        fill(alloc, &mut cells, scan)?;
    }
    Ok(cells)
}

// The fill at each coordinate of the box where no write is left.
fn fill(alloc: Global, cells: &mut BTreeMap<Coords, Row>, scan: &Scan) -> Result<(), OutOfMemory>
    requires dense { scan.now.frame.now.dense ≡ true }
    requires valid { IsBox scan.now.ready.now.sub }
    requires few { cells_of scan.now.ready.now.sub ≤ most_cells }
    ensures { OnOk result (AreShown (left_by scan.now) (cells_in cells.old) → AreShown (shown_by scan.now) (cells_in cells.new)) }
{
    let sub = &scan.ready.sub;
    for place in 0..sub.cells() {
        let at = coords_at(sub, Order::Row, place);
        if !cells.contains_key(&at) {
            cells.insert(at, fills_of(alloc, scan.current)?)?;
        }
    }
    Ok(())
}

// What is left of the writes of the deeds at each coordinate.
fn left_cells(alloc: Global, scan: &Scan) -> Result<BTreeMap<Coords, Row>, OutOfMemory>
    ensures { IfOk result (λ cells. AreShown (left_by scan.now) (cells_in cells)) }
{
    let mut cells = BTreeMap::new(alloc);
    for deed in scan.deeds {
        add_deed(alloc, &mut cells, deed, scan)?;
    }
    Ok(cells)
}

// What is left of the writes of the deeds at the coordinates of one of them.
fn add_deed(
    alloc: Global,
    cells: &mut BTreeMap<Coords, Row>,
    deed: &Deed,
    scan: &Scan,
) -> Result<(), OutOfMemory>
    ensures { OnOk result ((before : List AnyCell) → Shows (left_by scan.now) (cells_in cells.old) before → Shows (left_by scan.now) (cells_in cells.new) (before ++ cells_of_deed deed.now)) }
{
    match deed {
        Deed::Wrote(write) => add_cells(alloc, cells, write.cells.as_slice(), scan),
        _ => Ok(()),
    }
}

// What is left of the writes of the deeds at the coordinates of these cells.
fn add_cells(
    alloc: Global,
    cells: &mut BTreeMap<Coords, Row>,
    some: &[Cell],
    scan: &Scan,
) -> Result<(), OutOfMemory>
    ensures { OnOk result ((before : List AnyCell) → Shows (left_by scan.now) (cells_in cells.old) before → Shows (left_by scan.now) (cells_in cells.new) (before ++ some.now)) }
{
    for cell in some {
        let shown = left_inside(alloc, scan, &cell.coords)?;
        add(cells, cell.coords, shown)?;
    }
    Ok(())
}

// The row that is shown at a coordinate, if there is one.
fn add(cells: &mut BTreeMap<Coords, Row>, at: Coords, shown: Option<Row>) -> Result<(), OutOfMemory>
    ensures { OnOk result (cells_in cells.new ≡ with_shown (cells_in cells.old) at shown) }
{
    if let Some(row) = shown {
        cells.insert(at, row)?;
    }
    Ok(())
}

// What is left of the writes of a coordinate of the box, and nothing elsewhere.
fn left_inside(alloc: Global, scan: &Scan, at: &Coords) -> Result<Option<Row>, OutOfMemory>
    ensures { IfOk result (λ shown. shown ≡ left_by scan.now at.now) }
{
    if scan.ready.sub.contains(at) {
        shown_at(alloc, at, scan.deeds, scan.current, scan.from, scan.to)
    } else {
        Ok(None)
    }
}

// What a read shows at a coordinate: the cell of its last write, if it has one that is not erased.
fn shown_at(
    alloc: Global,
    at: &Coords,
    deeds: &[Deed],
    current: &Schema,
    from: u64,
    to: u64,
) -> Result<Option<Row>, OutOfMemory>
    ensures { IfOk result (λ shown. shown ≡ shown_at deeds.now current.now from to at.now) }
{
    match latest(at, deeds, from, to) {
        None => Ok(None),
        Some(write) => match find_row(at, write.cells.as_slice()) {
            None => Ok(None),
            Some(row) => {
                if is_erased(alloc, at, write, row, deeds, from, to)? {
                    Ok(None)
                } else {
                    Ok(Some(shown(alloc, deeds, write.schema, row, current)?))
                }
            }
        },
    }
}

// A row that was written in a schema of the deeds, as it shows through another.
fn shown(
    alloc: Global,
    deeds: &[Deed],
    schema: Key,
    row: &Row,
    current: &Schema,
) -> Result<Row, OutOfMemory>
    ensures { IfOk result (λ shown. shown ≡ shown_row (attrs_with deeds.now schema) row.now (current.now).attrs) }
{
    match schema_with(deeds, schema) {
        Some(written) => show_row(alloc, &written.attrs, row, &current.attrs),
        None => show_row(alloc, &AttrList::new(alloc), row, &current.attrs),
    }
}

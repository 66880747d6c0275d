//! The rows that a query selects.
ghost use Rattle.std.specs.Prelude.{◌≡◌, ◌↔◌, [], ◌∷◌, filter, length, map, slice_get, IfOk, OnOk, IsTrue, All};
ghost use Rattle.std.specs.List.Sorted.{IsStrictlySortedBy};
ghost use Rattle.ts_domain.specs.Domains.{is_in_domain};
ghost use Rattle.ts_schema.specs.FrameTexts.{IsFrame};
ghost use Rattle.ts_schema.specs.SchemaTexts.{AreAttrs};
ghost use Rattle.ts_model.specs.declared.queries.Shown.{Shown as AnyShown};
ghost use Rattle.ts_model.specs.Answers.{fills_of};
ghost use Rattle.ts_model.specs.Queries.{fields_of, items_at, layout_cmp, places_from, selected, types_of, types_shown};
ghost use Rattle.ts_model.specs.Selections.{placed, picks_in, passes_by, placed_behind};

use crate::answers::TypeList;
use crate::fields::attr_fields;
use crate::places::{GlobalPlace, place_in};
use crate::queries::{PlaceList, Ready, Shown, ShownList};
use std::alloc::Global;
use std::cmp::Ordering;
use std::collections::BTreeMap;
use ts_base::{Coords, Duplicate, OutOfMemory, Row, RowList, Val, ValType};
use ts_cond::{Cond, PickList};
use ts_domain::{Dim, Layout, Order};
use ts_order::{cmp_global, cmp_plain};
use ts_schema::{Attr, Frame, Schema};

/// The rows that a query selects of these cells: those that its filter matches, in its layout, each
/// cut to the fields that are shown. The rows of the cells follow the attributes of the schema.
pub fn rows_of(
    alloc: Global,
    frame: &Frame,
    schema: &Schema,
    ready: &Ready,
    cells: ShownList,
) -> Result<RowList, OutOfMemory>
    requires frame { IsFrame frame.now }
    requires attrs { AreAttrs schema.now.attrs }
    requires inside { All (λ (cell : AnyShown). IsTrue (is_in_domain frame.now.domain cell.coords)) cells }
    ensures { IfOk result (λ rows. rows ≡ selected frame.now schema.now.attrs ready.now (map placed cells)) }
{
    let picks = picks_in(alloc, schema, &ready.filter)?;
    if is_in_layout(frame, ready.layout, cells.as_slice()) {
        return cut_passing(alloc, ready, &picks, cells);
    }
    let placed = placed(alloc, frame, ready, &picks, cells)?;
    cut_all(alloc, &placed, &ready.fields)
}

// Where a filter finds its values in rows of the schema's attributes.
fn picks_in(alloc: Global, schema: &Schema, filter: &Option<Cond>) -> Result<PickList, OutOfMemory>
    requires attrs { AreAttrs schema.now.attrs }
    ensures { IfOk result (λ picks. picks ≡ picks_in schema.now.attrs filter.now) }
{
    match filter {
        None => Ok(PickList::new(alloc)),
        Some(condition) => condition.bind(alloc, &attr_fields(alloc, &schema.attrs)?),
    }
}

// Whether the cells ascend in a layout as they stand.
fn is_in_layout(frame: &Frame, layout: Layout, cells: &[Shown]) -> bool
    requires { All (λ (cell : AnyShown). IsTrue (is_in_domain frame.now.domain cell.coords)) cells.now }
    ensures { IsTrue result ↔ IsStrictlySortedBy (λ (a b : AnyShown). layout_cmp frame.now layout a.coords b.coords) cells.now }
{
    for place in 1..cells.len() {
        let (cell, next) = (&cells[place - 1], &cells[place]);
        if cmp_in(frame, layout, &cell.coords, &next.coords) != Ordering::Less {
            return false;
        }
    }
    true
}

// How two cells stand in a layout.
fn cmp_in(frame: &Frame, layout: Layout, a: &Coords, b: &Coords) -> Ordering
    requires first { IsTrue (is_in_domain frame.now.domain a.now) }
    requires second { IsTrue (is_in_domain frame.now.domain b.now) }
    ensures { result ≡ layout_cmp frame.now layout a.now b.now }
{
    match layout {
        Layout::Row => cmp_plain(Order::Row, a, b),
        Layout::Col => cmp_plain(Order::Col, a, b),
        Layout::Global => cmp_global(&frame.domain, frame.tile, frame.cell, a, b),
    }
}

// The rows of the cells that pass the filter, in the order of the cells, each cut to the fields that
// are shown.
fn cut_passing(
    alloc: Global,
    ready: &Ready,
    picks: &PickList,
    cells: ShownList,
) -> Result<RowList, OutOfMemory>
    ensures { IfOk result (λ rows. rows ≡ map (λ e. items_at ready.now.fields (fields_of e)) (filter (λ e. passes_by picks.now ready.now.filter e.0 e.1) (map placed cells))) }
{
    let fields = ready.fields.as_slice();
    let in_turn = are_in_turn(fields);
    let mut rows = RowList::from_vec(Vec::with_capacity(alloc, cells.len() as usize)?);
    for cell in cells.into_vec() {
        if passes_by(picks, &ready.filter, &cell) {
            rows.push(row_of(alloc, cell, fields, in_turn)?)?;
        }
    }
    Ok(rows)
}

// Whether the places of fields are 0, 1, 2 and so on.
fn are_in_turn(fields: &[u32]) -> bool
    ensures { IsTrue result → fields.now ≡ places_from 0 (length fields.now) }
{
    for place in 0..fields.len() {
        if fields[place] as usize != place {
            return false;
        }
    }
    true
}

// The fields of a cell that are shown. Where these are all fields in turn its values are moved.
fn row_of(alloc: Global, cell: Shown, fields: &[u32], in_turn: bool) -> Result<Row, OutOfMemory>
    requires turn { IsTrue in_turn → fields.now ≡ places_from 0 (length fields.now) }
    ensures { IfOk result (λ row. row ≡ items_at fields.now (fields_of (placed cell))) }
{
    if in_turn && cell.coords.as_slice().len() + cell.row.as_slice().len() == fields.len() {
        return whole_row(alloc, cell);
    }
    cut(alloc, &cell, fields)
}

// All fields of a cell: its coordinates, and behind them its values, which are moved.
fn whole_row(alloc: Global, cell: Shown) -> Result<Row, OutOfMemory>
    ensures { IfOk result (λ row. row ≡ fields_of (placed cell)) }
{
    let Shown { coords, row } = cell;
    let (coords, mut values) = (coords.as_slice(), row.into_vec());
    let mut fields = Vec::with_capacity(alloc, coords.len() + values.len())?;
    for number in coords {
        fields.push(Val::Int(*number))?;
    }
    fields.append(&mut values)?;
    Ok(Row::from_vec(fields))
}

// The cells that pass the filter, by their places in the layout. Where two have one place the first
// is kept.
fn placed(
    alloc: Global,
    frame: &Frame,
    ready: &Ready,
    picks: &PickList,
    cells: ShownList,
) -> Result<BTreeMap<GlobalPlace, Shown>, OutOfMemory>
    requires { All (λ (cell : AnyShown). IsTrue (is_in_domain frame.now.domain cell.coords)) cells }
    ensures { IfOk result (λ placed. placed.entries ≡ placed_behind frame.now ready.now picks.now cells []) }
{
    let mut cells = cells;
    let mut placed = BTreeMap::new(alloc);
    while let Some(cell) = cells.pop() {
        place(&mut placed, frame, ready, picks, cell)?;
    }
    Ok(placed)
}

// One cell takes its place, where it passes the filter.
fn place(
    placed: &mut BTreeMap<GlobalPlace, Shown>,
    frame: &Frame,
    ready: &Ready,
    picks: &PickList,
    cell: Shown,
) -> Result<(), OutOfMemory>
    requires { IsTrue (is_in_domain frame.now.domain cell.coords) }
    ensures { OnOk result (placed.new.entries ≡ placed_behind frame.now ready.now picks.now (cell ∷ []) placed.old.entries) }
{
    if passes_by(picks, &ready.filter, &cell) {
        placed.insert(place_in(frame, ready.layout, &cell.coords), cell)?;
    }
    Ok(())
}

// Whether a cell passes the filter, whose values are found so.
fn passes_by(picks: &PickList, filter: &Option<Cond>, cell: &Shown) -> bool
    ensures { result ≡ passes_by picks.now filter.now cell.now.coords cell.now.row }
{
    match filter {
        None => true,
        Some(condition) => condition.matches(picks, &cell.coords, &cell.row),
    }
}

// The rows of the cells, in the order of their places, each cut to the fields that are shown.
fn cut_all(
    alloc: Global,
    cells: &BTreeMap<GlobalPlace, Shown>,
    fields: &PlaceList,
) -> Result<RowList, OutOfMemory>
    ensures { IfOk result (λ rows. rows ≡ map (λ e. items_at fields.now (fields_of (placed e.1))) cells.now.entries) }
{
    let mut rows = RowList::new(alloc);
    for (_place, cell) in cells.iter() {
        rows.push(cut(alloc, cell, fields.as_slice())?)?;
    }
    Ok(rows)
}

// The fields of a cell that are shown.
fn cut(alloc: Global, cell: &Shown, fields: &[u32]) -> Result<Row, OutOfMemory>
    ensures { IfOk result (λ row. row ≡ items_at fields.now (fields_of (placed cell.now))) }
{
    let mut row = Row::new(alloc);
    for place in fields {
        if let Some(val) = field_at(alloc, cell, *place as usize)? {
            row.push(val)?;
        }
    }
    Ok(row)
}

// The value of a field: the coordinates count first, and then the values of the row.
fn field_at(alloc: Global, cell: &Shown, place: usize) -> Result<Option<Val>, OutOfMemory>
    ensures { IfOk result (λ val. val ≡ slice_get (fields_of (placed cell.now)) place) }
{
    let coords = cell.coords.as_slice();
    if place < coords.len() {
        return Ok(Some(Val::Int(coords[place])));
    }
    match cell.row.as_slice().get(place - coords.len()) {
        None => Ok(None),
        Some(val) => Ok(Some(val.copy(alloc)?)),
    }
}

/// The fill of each attribute of a schema.
pub fn fills_of(alloc: Global, schema: &Schema) -> Result<Row, OutOfMemory>
    ensures { IfOk result (λ row. row ≡ fills_of schema.now.attrs) }
{
    let mut row = Row::new(alloc);
    for attr in schema.attrs.as_slice() {
        row.push(attr.fill.copy(alloc)?)?;
    }
    Ok(row)
}

/// The types of the fields that a query shows.
pub fn types_shown(
    alloc: Global,
    frame: &Frame,
    schema: &Schema,
    ready: &Ready,
) -> Result<TypeList, OutOfMemory>
    ensures { IfOk result (λ types. types ≡ types_shown frame.now schema.now.attrs ready.now) }
{
    let (dims, attrs) = (frame.domain.as_slice(), schema.attrs.as_slice());
    let mut types = TypeList::new(alloc);
    for place in ready.fields.as_slice() {
        if let Some(ty) = type_at(dims, attrs, *place as usize) {
            types.push(ty)?;
        }
    }
    Ok(types)
}

// The type of a field: the dimensions count first, and then the attributes.
fn type_at(dims: &[Dim], attrs: &[Attr], place: usize) -> Option<ValType>
    ensures { result ≡ slice_get (types_of dims.now attrs.now) place }
{
    if place < dims.len() {
        return Some(dims[place].ty);
    }
    match attrs.get(place - dims.len()) {
        None => None,
        Some(attr) => Some(attr.ty),
    }
}

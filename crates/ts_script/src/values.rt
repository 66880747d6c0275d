//! Names, types, values, dimensions, attributes and stops as JSON values.
ghost use Rattle.std.specs.Prelude.{◌≡◌, ◌^◌, ◌&&◌, [], true, length, nat_lt, IfOk, IsTrue, option_map};
ghost use Rattle.std.specs.List.{list_all};
ghost use Rattle.std.specs.Option.{option_map_or};
ghost use Rattle.ts_base.specs.Labels.{is_label};
ghost use Rattle.ts_model.specs.Commands.{is_spelled_attr, is_spelled_val, is_text};
ghost use Rattle.ts_script.specs.Trees.{view, items_view, members_view};
ghost use Rattle.ts_table.specs.Columns.{val_seen};
ghost use Rattle.ts_script.specs.Shapes.{items_onto, list_of, Gives};
ghost use Rattle.ts_script.specs.Typed.{is_typed_col};
ghost use Rattle.ts_script.specs.Values.{label, type_named, val_type, order, layout, layout_named, value, fill_said, fill, dim, attr, columns_onto, columns, bounds_onto, box, filter, point_named, stop};

use crate::cells::Cells;
use crate::fitting::as_text;
use crate::forms::{FormFault, FromItem, FromJson, both_items, has_only, optional, required};
use crate::tree::Json;
use std::alloc::Global;
use std::collections::BTreeMap;
use ts_base::{ByteList, Label, OutOfMemory, Point, Sequence, Stop, Val, ValType};
use ts_cond::{NamedBox, NamedBoxList};
use ts_domain::{Dim, Layout, Order};
use ts_model::{ColIn, ColInList, blob_bytes};
use ts_schema::Attr;
use ts_table::{Column, Seen};
use ts_value::default_fill;

/// A label.
impl FromJson for Label {
    ghost form = { label };

    ghost typed = { is_label };

    #[tactic(auto, using(crate::proofs::Typed::label_typed))]
    fn from_json(_alloc: Global, value: &Json) -> Result<Label, FormFault> {
        match value.as_str().and_then(Label::new) {
            Some(label) => Ok(label),
            None => Err(FormFault::Form),
        }
    }
}

impl FromItem for Label {
    #[tactic(auto, using(crate::proofs::Typed::label_typed))]
    fn from_item(_alloc: Global, seen: Seen<'_>) -> Result<Label, FormFault> {
        match seen {
            Seen::Bytes(bytes) => match Label::from_bytes(bytes) {
                Some(label) => Ok(label),
                None => Err(FormFault::Form),
            },
            _ => Err(FormFault::Form),
        }
    }
}

/// A type by its name.
impl FromJson for ValType {
    ghost form = { val_type };

    ghost typed = { λ _. true };

    fn from_json(_alloc: Global, value: &Json) -> Result<ValType, FormFault> {
        match value.as_str().and_then(type_named) {
            Some(ty) => Ok(ty),
            None => Err(FormFault::Form),
        }
    }
}

/// The type of a name.
fn type_named(name: &str) -> Option<ValType>
    ensures { result ≡ type_named name.now }
{
    match name {
        "int8" => Some(ValType::I8),
        "int16" => Some(ValType::I16),
        "int32" => Some(ValType::I32),
        "int64" => Some(ValType::I64),
        "uint8" => Some(ValType::U8),
        "uint16" => Some(ValType::U16),
        "uint32" => Some(ValType::U32),
        "uint64" => Some(ValType::U64),
        "text" => Some(ValType::Text),
        "blob" => Some(ValType::Blob),
        _ => None,
    }
}

/// An order: `row` or `col`.
impl FromJson for Order {
    ghost form = { order };

    ghost typed = { λ _. true };

    #[tactic(auto, unfolding(crate::specs::Values::order))]
    fn from_json(_alloc: Global, value: &Json) -> Result<Order, FormFault> {
        match value.as_str() {
            Some("row") => Ok(Order::Row),
            Some("col") => Ok(Order::Col),
            _ => Err(FormFault::Form),
        }
    }
}

/// A layout: `row`, `col` or `global`.
impl FromJson for Layout {
    ghost form = { layout };

    ghost typed = { λ _. true };

    #[tactic(auto, unfolding(crate::specs::Values::layout))]
    fn from_json(_alloc: Global, value: &Json) -> Result<Layout, FormFault> {
        match value.as_str().and_then(layout_named) {
            Some(layout) => Ok(layout),
            None => Err(FormFault::Form),
        }
    }
}

/// The layout of a name.
pub(crate) fn layout_named(name: &str) -> Option<Layout>
    ensures { result ≡ layout_named name.now }
{
    match name {
        "row" => Some(Layout::Row),
        "col" => Some(Layout::Col),
        "global" => Some(Layout::Global),
        _ => None,
    }
}

/// A value of a cell: null, a whole number from -2^63 to 2^64 - 1, or a string.
impl FromJson for Val {
    ghost form = { value };

    ghost typed = { is_spelled_val };

    fn from_json(alloc: Global, value: &Json) -> Result<Val, FormFault> {
        match value {
            Json::Null => Ok(Val::Null),
            Json::Number(number) => match number.as_i128() {
                Some(integer) => Ok(Val::Int(integer)),
                None => Err(FormFault::Form),
            },
            Json::Text(text) => {
                let bytes = ByteList::of_bytes(alloc, text.as_bytes())?;
                Ok(Val::Bytes(as_text(bytes)))
            }
            _ => Err(FormFault::Form),
        }
    }
}

/// The fill of an attribute: the one that is given, or else the default one of its type.
#[tactic(auto, using(crate::proofs::Typed::fill_typed))]
fn read_fill(
    alloc: Global,
    ty: ValType,
    nullable: bool,
    given: Option<&Json>,
) -> Result<Val, FormFault>
    ensures gives { Gives result (fill ty nullable (option_map (λ d. view d.now) given.entry)) }
    ensures typed { IfOk result (λ val. IsTrue (is_spelled_val val)) }
{
    match given {
        Some(found) => Ok(fill_said(alloc, ty, Val::from_json(alloc, found)?)?),
        None => Ok(default_fill(alloc, ty, nullable)),
    }
}

/// What a fill says of an attribute of a type: for a blob it has the digits of the bytes.
fn fill_said(alloc: Global, ty: ValType, val: Val) -> Result<Val, OutOfMemory>
    requires { IsTrue (is_spelled_val val) }
    ensures said { IfOk result (λ said. said ≡ fill_said ty val) }
    ensures typed { IfOk result (λ said. IsTrue (is_spelled_val said)) }
{
    match (ty, val) {
        (ValType::Blob, Val::Bytes(text)) => match blob_bytes(alloc, text.as_slice())? {
            Some(bytes) => Ok(Val::Bytes(as_text(bytes))),
            None => Ok(Val::Int(0)),
        },
        (_, val) => Ok(val),
    }
}

/// A dimension.
impl FromJson for Dim {
    ghost form = { dim };

    ghost typed = { λ _. true };

    #[tactic(auto, unfolding(crate::specs::Values::dim))]
    fn from_json(alloc: Global, value: &Json) -> Result<Dim, FormFault> {
        let name = required(alloc, value, "name")?;
        let ty = required(alloc, value, "type")?;
        let bounds: Sequence<i128> = required(alloc, value, "domain")?;
        let extent = required(alloc, value, "extent")?;
        let Some((low, high)) = both_items(&bounds) else {
            return Err(FormFault::Form);
        };
        if !has_only(value, &[], &["name", "type", "domain", "extent"]) {
            return Err(FormFault::Form);
        }
        Ok(Dim {
            name,
            ty,
            low,
            high,
            extent,
        })
    }
}

impl FromItem for Dim {
    #[tactic(auto, unfolding(crate::specs::Values::dim))]
    fn from_item(_alloc: Global, _seen: Seen<'_>) -> Result<Dim, FormFault> {
        Err(FormFault::Form)
    }
}

/// An attribute.
impl FromJson for Attr {
    ghost form = { attr };

    ghost typed = { is_spelled_attr };

    #[tactic(auto, unfolding(crate::specs::Values::attr))]
    fn from_json(alloc: Global, value: &Json) -> Result<Attr, FormFault> {
        let name = required(alloc, value, "name")?;
        let ty = required(alloc, value, "type")?;
        let nullable = optional(alloc, value, "nullable", false)?;
        let fill = read_fill(alloc, ty, nullable, value.get("fill"))?;
        if !has_only(value, &[], &["name", "type", "nullable", "fill"]) {
            return Err(FormFault::Form);
        }
        Ok(Attr {
            name,
            ty,
            nullable,
            fill,
        })
    }
}

impl FromItem for Attr {
    #[tactic(auto, unfolding(crate::specs::Values::attr))]
    fn from_item(_alloc: Global, _seen: Seen<'_>) -> Result<Attr, FormFault> {
        Err(FormFault::Form)
    }
}

/// The list of values that a JSON value is. Its plain values stay in their column.
fn column_of(given: Json) -> Result<Column, FormFault>
    ensures gives { Gives result (list_of value (view given)) }
    ensures typed { IfOk result (λ vals. IsTrue (nat_lt (length vals) (2 ^ 64) && list_all is_spelled_val vals)) }
{
    match given {
        Json::Values(cells, rest) => with_values(Box::into_inner(cells), rest.as_slice()),
        Json::List(items) => with_values(Cells::new(*items.allocator()), items.as_slice()),
        _ => Err(FormFault::Form),
    }
}

/// Reads a value from each of some items, behind those that are there.
fn with_values(mut cells: Cells, items: &[Json]) -> Result<Column, FormFault>
    ensures gives { Gives result (items_onto value cells.column (items_view items.now)) }
    ensures few { IfOk result (λ vals. IsTrue (nat_lt (length vals) (2 ^ 64))) }
    ensures typed { IfOk result (λ vals. IsTrue (list_all is_spelled_val vals)) }
{
    for item in items {
        let Some(seen) = value_in(item) else {
            return Err(FormFault::Form);
        };
        cells.push(seen)?;
    }
    let _count = cells.len();
    Ok(cells.into_column())
}

/// The value of a cell, seen in its place.
fn value_in(item: &Json) -> Option<Seen<'_>>
    ensures { option_map val_seen result ≡ value (view item.now) }
{
    match item {
        Json::Null => Some(Seen::Null),
        Json::Number(number) => match number.as_i128() {
            Some(integer) => Some(Seen::Int(integer)),
            None => None,
        },
        Json::Text(text) => Some(Seen::Bytes(text.as_bytes())),
        _ => None,
    }
}

/// The columns of a write: an object from names to lists of values.
pub(crate) fn read_columns(alloc: Global, given: Json) -> Result<ColInList, FormFault>
    ensures gives { Gives result (columns (view given)) }
    ensures typed { IfOk result (λ cols. IsTrue (list_all is_typed_col cols)) }
{
    match given {
        Json::Object(members) => read_members(alloc, members),
        _ => Err(FormFault::Form),
    }
}

/// Reads a column from each member of an object.
#[tactic(auto, using(crate::proofs::Typed::one_more))]
fn read_members(alloc: Global, members: BTreeMap<String, Json>) -> Result<ColInList, FormFault>
    ensures gives { Gives result (columns_onto [] (members_view members.entries)) }
    ensures typed { IfOk result (λ cols. IsTrue (list_all is_typed_col cols)) }
{
    let mut done = ColInList::new(alloc);
    for (key, found) in members {
        let Some(name) = Label::new(key.as_str()) else {
            return Err(FormFault::Form);
        };
        let values = column_of(found)?;
        done.push(ColIn { name, values })?;
    }
    Ok(done)
}

/// The box of a read or of a write, if one is given: an object from names to bounds.
pub(crate) fn read_box(alloc: Global, given: Option<&Json>) -> Result<NamedBoxList, FormFault>
    ensures { Gives result (box (option_map (λ d. view d.now) given.entry)) }
{
    let Some(found) = given else {
        return Ok(NamedBoxList::new(alloc));
    };
    match found.as_object() {
        Some(members) => read_bounds(alloc, members),
        None => Err(FormFault::Form),
    }
}

/// Reads the bounds of a dimension from each member of an object.
fn read_bounds(alloc: Global, members: &BTreeMap<String, Json>) -> Result<NamedBoxList, FormFault>
    ensures { Gives result (bounds_onto [] (members_view members.now.entries)) }
{
    let mut done = NamedBoxList::new(alloc);
    for (key, value) in members.iter() {
        let Some(name) = Label::new(key.as_str()) else {
            return Err(FormFault::Form);
        };
        let bounds: Sequence<i128> = Sequence::from_json(alloc, value)?;
        let Some((low, high)) = both_items(&bounds) else {
            return Err(FormFault::Form);
        };
        done.push(NamedBox { name, low, high })?;
    }
    Ok(done)
}

/// The text of a read's filter, if one is given.
pub(crate) fn read_filter(
    alloc: Global,
    given: Option<&Json>,
) -> Result<Option<ByteList>, FormFault>
    ensures gives { Gives result (filter (option_map (λ d. view d.now) given.entry)) }
    ensures typed { IfOk result (λ text. IsTrue (option_map_or is_text text true)) }
{
    let Some(found) = given else {
        return Ok(None);
    };
    match found.as_str() {
        Some(text) => {
            let bytes = ByteList::of_bytes(alloc, text.as_bytes())?;
            Ok(Some(as_text(bytes)))
        }
        None => Err(FormFault::Form),
    }
}

/// A stop: a whole number of calls from 0 to 2^64 - 1, or the name of a point.
impl FromJson for Stop {
    ghost form = { stop };

    ghost typed = { λ _. true };

    fn from_json(_alloc: Global, value: &Json) -> Result<Stop, FormFault> {
        match value {
            Json::Number(number) => match number.as_u64() {
                Some(calls) => Ok(Stop::Calls(calls)),
                None => Err(FormFault::Form),
            },
            Json::Text(name) => match point_named(name.as_str()) {
                Some(point) => Ok(Stop::Before(point)),
                None => Err(FormFault::Form),
            },
            _ => Err(FormFault::Form),
        }
    }
}

/// The point of a name.
fn point_named(name: &str) -> Option<Point>
    ensures { result ≡ point_named name.now }
{
    match name {
        "vac" => Some(Point::Vac),
        "wrt" => Some(Point::Wrt),
        "part" => Some(Point::PartGone),
        _ => None,
    }
}

//! Whether a query, or a delete, can be asked of an array.
ghost use Rattle.std.specs.Prelude.{◌≡◌, ◌≤◌, ◌<◌, ◌^◌, ◌+◌, ◌||◌, not, map, filter_map, length, find, All, IfOk};
ghost use Rattle.std.specs.Option.{option_copied};
ghost use Rattle.ts_cond.specs.declared.query.NamedBox.{NamedBox as AnyBox};
ghost use Rattle.ts_domain.specs.Boxes.{IsBox};
ghost use Rattle.ts_domain.specs.Dims.{has_name};
ghost use Rattle.ts_schema.specs.Attrs.{same_name, has_attr};
ghost use Rattle.ts_schema.specs.FrameTexts.{IsFrame};
ghost use Rattle.ts_schema.specs.SchemaTexts.{AreAttrs};
ghost use Rattle.ts_model.specs.Queries.{low_of, high_of, box_of, stray_bound, bound_outside, over_most, unknown_in, query_refusal, condition_in, filter_in, ready_in, delete_condition, field_place, field_places, places_from, dim_place, attr_place, too_many};
ghost use Rattle.ts_model.specs.Selections.{IsChecked, IsNamedBox};

use crate::answers::Refusal;
use crate::fields::fields_in;
use crate::queries::{PlaceList, QueryFault, Ready};
use std::alloc::Global;
use ts_base::{ByteList, Coords, Label, LabelList, OutOfMemory};
use ts_cond::{Cond, CondFault, NamedBox, Query};
use ts_domain::{Dim, Domain, SubBox, has_name};
use ts_schema::{Attr, Frame, Schema, has_attr};

// The most cells of a write, and of a read of a dense array.
const MOST_CELLS: u64 = 1 << 20;

/// What a query asks of an array with this frame through this schema.
///
/// It is refused with `UnknownField` for the first name that is no dimension, in its box, or no
/// field, in its list of fields; else with `Domain` for the first bound of its box that lies outside;
/// else, where the array is dense, with `TooMany` for a box of more than 2^20 cells; else with
/// `Condition` where the text of its filter has a fault.
pub fn check_query(
    alloc: Global,
    frame: &Frame,
    schema: &Schema,
    query: &Query,
) -> Result<Ready, QueryFault>
    requires frame { IsFrame frame.now }
    requires attrs { AreAttrs schema.now.attrs }
    requires bounds { All IsNamedBox query.now.sub }
    ensures { IsChecked result (ready_in frame.now schema.now.attrs query.now) }
{
    if let Some(refusal) = query_refusal(frame, schema, query) {
        return Err(QueryFault::Refused(refusal));
    }
    let filter = read_filter(alloc, frame, schema, &query.filter)?;
    Ok(Ready {
        sub: box_of(query.sub.as_slice(), &frame.domain),
        fields: field_places(alloc, frame, schema, &query.fields)?,
        filter,
        layout: query.layout,
    })
}

/// The condition of a delete, of its text over the fields of an array with this frame through this
/// schema.
///
/// It is refused with `DenseArray` where the array is dense, and else with `Condition` where the text
/// has a fault.
pub fn check_delete(
    alloc: Global,
    frame: &Frame,
    schema: &Schema,
    text: &ByteList,
) -> Result<Cond, QueryFault>
    requires attrs { AreAttrs schema.now.attrs }
    ensures { IsChecked result (delete_condition frame.now schema.now.attrs text.now) }
{
    if frame.dense {
        return Err(QueryFault::Refused(Refusal::DenseArray));
    }
    read_condition(alloc, frame, schema, text)
}

// The condition that a text spells over the fields of an array.
fn read_condition(
    alloc: Global,
    frame: &Frame,
    schema: &Schema,
    text: &ByteList,
) -> Result<Cond, QueryFault>
    requires attrs { AreAttrs schema.now.attrs }
    ensures { IsChecked result (condition_in frame.now.domain schema.now.attrs text.now) }
{
    let fields = fields_in(alloc, frame, schema)?;
    match Cond::parse(alloc, text.as_slice(), &fields) {
        Ok(condition) => Ok(condition),
        Err(CondFault::OutOfMemory) => Err(QueryFault::OutOfMemory),
        Err(fault) => Err(QueryFault::Refused(Refusal::Condition(fault))),
    }
}

// The condition of a filter, if there is one.
fn read_filter(
    alloc: Global,
    frame: &Frame,
    schema: &Schema,
    filter: &Option<ByteList>,
) -> Result<Option<Cond>, QueryFault>
    requires attrs { AreAttrs schema.now.attrs }
    ensures { IsChecked result (filter_in frame.now.domain schema.now.attrs filter.now) }
{
    match filter {
        None => Ok(None),
        Some(text) => match read_condition(alloc, frame, schema, text) {
            Ok(condition) => Ok(Some(condition)),
            Err(fault) => Err(fault),
        },
    }
}

// The first refusal that does not concern the filter.
fn query_refusal(frame: &Frame, schema: &Schema, query: &Query) -> Option<Refusal>
    requires bounds { All IsNamedBox query.now.sub }
    ensures { result ≡ query_refusal frame.now schema.now.attrs query.now }
{
    if let Some(field) = unknown_in(frame.domain.as_slice(), schema.attrs.as_slice(), query) {
        return Some(Refusal::UnknownField { field });
    }
    let sub = box_of(query.sub.as_slice(), &frame.domain);
    match bound_outside(&frame.domain, &sub) {
        Some(refusal) => Some(refusal),
        None => too_many(frame, &sub),
    }
}

/// The first bound of a box that lies outside the domain, as a refusal.
pub fn bound_outside(domain: &Domain, sub: &SubBox) -> Option<Refusal>
    requires valid { IsBox sub.now }
    requires as_many { length sub.now.low ≡ length domain.now }
    ensures { result ≡ bound_outside domain.now sub.now }
{
    match domain.check_box(sub) {
        Err(outside) => Some(Refusal::Domain {
            dim: outside.dim,
            value: outside.value,
        }),
        Ok(()) => None,
    }
}

/// Whether there are too many cells for a write, or for a read of a dense array: more than 2^20.
pub fn over_most(cells: u64) -> Option<Refusal>
    ensures { result ≡ over_most cells }
{
    if MOST_CELLS < cells {
        Some(Refusal::TooMany { cells })
    } else {
        None
    }
}

// Whether a box has too many cells for a read of a dense array.
fn too_many(frame: &Frame, sub: &SubBox) -> Option<Refusal>
    requires { IsBox sub.now }
    ensures { result ≡ too_many frame.now sub.now }
{
    let cells = sub.cells();
    if frame.dense && MOST_CELLS < cells {
        Some(Refusal::TooMany { cells })
    } else {
        None
    }
}

// The first name that the array does not have: of the box, and then of the fields.
fn unknown_in(dims: &[Dim], attrs: &[Attr], query: &Query) -> Option<Label>
    ensures { result ≡ unknown_in dims.now attrs.now query.now }
{
    match unknown_dim(dims, query.sub.as_slice()) {
        Some(name) => Some(name),
        None => unknown_field(dims, attrs, query.fields.as_slice()),
    }
}

/// The first name of a box that is no dimension.
pub fn unknown_dim(dims: &[Dim], named: &[NamedBox]) -> Option<Label>
    ensures { result ≡ stray_bound dims.now named.now }
{
    for bounds in named {
        if !has_name(dims, &bounds.name) {
            return Some(bounds.name);
        }
    }
    None
}

fn unknown_field(dims: &[Dim], attrs: &[Attr], names: &[Label]) -> Option<Label>
    ensures { result ≡ find (λ name. not (has_name dims.now name || has_attr attrs.now name)) names.now }
{
    for name in names {
        if !(has_name(dims, name) || has_attr(attrs, name)) {
            return Some(*name);
        }
    }
    None
}

/// The box of named bounds: a dimension that they do not name has its whole domain.
pub fn box_of(named: &[NamedBox], domain: &Domain) -> SubBox
    ensures value { result ≡ box_of named.now domain.now }
    ensures ordered { All IsNamedBox named.now → IsBox result }
{
    SubBox {
        low: low_corner(named, domain.as_slice()),
        high: high_corner(named, domain.as_slice()),
    }
}

fn low_corner(named: &[NamedBox], dims: &[Dim]) -> Coords
    requires some { 1 ≤ length dims.now }
    requires room { length dims.now ≤ 8 }
    ensures { result ≡ map (low_of named.now) dims.now }
{
    let mut numbers = [0; 8];
    for dim in 0..dims.len() {
        numbers[dim] = low_of(named, &dims[dim]);
    }
    Coords::new(&numbers[..dims.len()])
}

fn high_corner(named: &[NamedBox], dims: &[Dim]) -> Coords
    requires some { 1 ≤ length dims.now }
    requires room { length dims.now ≤ 8 }
    ensures { result ≡ map (high_of named.now) dims.now }
{
    let mut numbers = [0; 8];
    for dim in 0..dims.len() {
        numbers[dim] = high_of(named, &dims[dim]);
    }
    Coords::new(&numbers[..dims.len()])
}

fn low_of(named: &[NamedBox], dim: &Dim) -> i128
    ensures { result ≡ low_of named.now dim.now }
{
    match bounds_of(named, &dim.name) {
        Some(bounds) => bounds.low,
        None => dim.low,
    }
}

fn high_of(named: &[NamedBox], dim: &Dim) -> i128
    ensures { result ≡ high_of named.now dim.now }
{
    match bounds_of(named, &dim.name) {
        Some(bounds) => bounds.high,
        None => dim.high,
    }
}

// The bounds under a name.
fn bounds_of<'a>(named: &'a [NamedBox], name: &Label) -> Option<&'a NamedBox>
    ensures { option_copied result ≡ find (λ (b : AnyBox). same_name b.name name.now) named.now }
{
    for bounds in named {
        if bounds.name == *name {
            return Some(bounds);
        }
    }
    None
}

// The places of the fields that are shown.
fn field_places(
    alloc: Global,
    frame: &Frame,
    schema: &Schema,
    names: &LabelList,
) -> Result<PlaceList, OutOfMemory>
    requires attrs { AreAttrs schema.now.attrs }
    ensures { IfOk result (λ places. places ≡ field_places frame.now.domain schema.now.attrs names.now) }
{
    let (dims, attrs) = (frame.domain.as_slice(), schema.attrs.as_slice());
    if names.is_empty() {
        all_places(alloc, dims.len() + attrs.len())
    } else {
        places_of(alloc, dims, attrs, names.as_slice())
    }
}

fn all_places(alloc: Global, count: usize) -> Result<PlaceList, OutOfMemory>
    requires { count < 2 ^ 32 }
    ensures { IfOk result (λ places. places ≡ places_from 0 count) }
{
    let mut places = PlaceList::new(alloc);
    for place in 0..count {
        places.push(place as u32)?;
    }
    Ok(places)
}

fn places_of(
    alloc: Global,
    dims: &[Dim],
    attrs: &[Attr],
    names: &[Label],
) -> Result<PlaceList, OutOfMemory>
    requires few { length dims.now + length attrs.now < 2 ^ 32 }
    ensures { IfOk result (λ places. places ≡ filter_map (field_place dims.now attrs.now) names.now) }
{
    let mut places = PlaceList::new(alloc);
    for name in names {
        if let Some(place) = field_place(dims, attrs, name) {
            places.push(place)?;
        }
    }
    Ok(places)
}

// The place of the field with a name: the dimensions count first, and then the attributes.
fn field_place(dims: &[Dim], attrs: &[Attr], name: &Label) -> Option<u32>
    requires few { length dims.now + length attrs.now < 2 ^ 32 }
    ensures { result ≡ field_place dims.now attrs.now name.now }
{
    match dim_place(dims, name) {
        Some(place) => Some(place),
        None => attr_place(attrs, dims.len(), name),
    }
}

fn dim_place(dims: &[Dim], name: &Label) -> Option<u32>
    requires few { length dims.now < 2 ^ 32 }
    ensures { result ≡ dim_place 0 name.now dims.now }
{
    for place in 0..dims.len() {
        if dims[place].name == *name {
            return Some(place as u32);
        }
    }
    None
}

fn attr_place(attrs: &[Attr], first: usize, name: &Label) -> Option<u32>
    requires few { first + length attrs.now < 2 ^ 32 }
    ensures { result ≡ attr_place first name.now attrs.now }
{
    for place in 0..attrs.len() {
        if attrs[place].name == *name {
            return Some((first + place) as u32);
        }
    }
    None
}

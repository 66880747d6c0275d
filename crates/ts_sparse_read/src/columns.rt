//! Reading the columns of a tile.
ghost use Rattle.std.specs.Prelude.{◌≡◌, ◌≤◌, List, pos, length, get_or, replicate, IfOk, IfSome, IsTrue};
ghost use Rattle.std.specs.List.{All};
ghost use Rattle.ts_base.specs.declared.names.Part.TheVariants as part;
ghost use Rattle.ts_base.specs.declared.values.Val.{Val as AnyVal};
ghost use Rattle.ts_base.specs.Values.{is_integer};
ghost use Rattle.ts_domain.specs.Domains.{LiesInDomain};
ghost use Rattle.ts_domain.specs.declared.dims.Dim.{Dim as AnyDim};
ghost use Rattle.ts_wire.specs.Reading.{DecodesOr};
ghost use Rattle.ts_column.specs.Coords.{coords_in};
ghost use Rattle.ts_sparse_read.specs.Faults.{bytes_of, in_part};
ghost use Rattle.ts_sparse_read.specs.TileReads.{coords_of_tile, tile_in, vals_if, vals_of_tile, origins_if};
ghost use Rattle.ts_sparse_read.specs.Reads.{DecodesFault, TellsTile};
ghost use Rattle.ts_sparse_read.specs.ReadRows.{IsSide, AreSides};
ghost use Rattle.ts_sparse_read.specs.Sifts.{columns_of_tile, AreSound};
ghost use Rattle.ts_sparse_read.specs.Picks.{LieInLeaf};

use crate::faults::CellFault;
use crate::opened::Opened;
use crate::ranges::Ranges;
use crate::used::is_among;
use std::alloc::Global;
use ts_base::{Coords, IndexList, OutOfMemory, Part, Sequence, ValType};
use ts_column::{ColumnList, TileFault, TileView, decode_column, decode_coords, decode_origins};
use ts_domain::{Dim, Domain, SubBox};
use ts_schema::Attr;
use ts_table::{Column, Numbers};
use ts_wire::ReadFault;

/// A list of lists of numbers.
pub(crate) type NumberLists = Sequence<Numbers>;

/// The columns of a tile, of as many values each as it has cells.
#[derive(Debug, Drop)]
pub(crate) struct Columns {
    /// The number of cells.
    pub(crate) count: u64,
    /// The coordinates, one column for each dimension.
    pub(crate) coords: NumberLists,
    /// Which write each cell is of, by its place among the origins.
    pub(crate) origins: IndexList,
    /// The values, one column for each attribute.
    pub(crate) vals: ColumnList,
}

/// The columns of a tile of so many cells, from the bytes that were got of each part. Its values may be
/// decoded already.
///
/// What is broken first among its coordinates, its values and its origins is told.
#[tactic(auto, using(crate::proofs::TileSteps::lies_long))]
pub(crate) fn read_columns(
    alloc: Global,
    opened: &Opened,
    entries: u32,
    leaf: &SubBox,
    count: u64,
    ranges: &Ranges,
    decoded: Option<ColumnList>,
) -> Result<Columns, CellFault>
    requires few { length opened.now.attrs ≤ 64 }
    requires entries { entries ≡ length opened.now.head.origins }
    requires leaf { LiesInDomain opened.now.frame.domain leaf.now }
    requires decoded { IfSome decoded (λ vals. vals_of_tile opened.now.want.attrs count ranges.now 0 opened.now.attrs ≡ Ok vals) }
    ensures decodes { DecodesFault (λ columns. columns) (columns_of_tile opened.now leaf.now count ranges.now) result }
    ensures sound { IfOk result (AreSound opened.now.frame) }
    ensures within { IfOk result (LieInLeaf leaf.now) }
{
    let places = opened.want.attrs.as_slice();
    let consolidated = opened.head.consolidated;
    let coords = read_coords(alloc, &opened.frame.domain, leaf, count, ranges)?;
    let attrs = opened.attrs.as_slice();
    let vals = vals_or_read(alloc, decoded, places, attrs, count, ranges)?;
    let origins = read_origins(alloc, consolidated, entries, count, ranges)?;
    Ok(Columns {
        count,
        coords,
        origins,
        vals,
    })
}

// The coordinates of so many cells along each dimension, which span the sides of the tile's leaf.
#[tactic(auto, using(crate::proofs::TileSteps::ints_of))]
fn read_coords(
    alloc: Global,
    domain: &Domain,
    leaf: &SubBox,
    count: u64,
    ranges: &Ranges,
) -> Result<NumberLists, CellFault>
    requires lows { length leaf.now.low ≡ length domain.now }
    requires highs { length leaf.now.high ≡ length domain.now }
    ensures decodes { DecodesFault (λ columns. columns) (coords_of_tile leaf.now count ranges.now 0 domain.now) result }
    ensures sides { IfOk result (AreSides count leaf.now.low leaf.now.high) }
    ensures some { 1 ≤ length domain.now }
    ensures few { length domain.now ≤ 8 }
{
    // A domain has 8 dimensions at most.
    let _count = domain.count();
    read_dims(alloc, domain.as_slice(), leaf, count, ranges)
}

// The coordinates of so many cells along these dimensions.
#[tactic(auto, using(crate::proofs::ColumnSteps::coords_steps))]
fn read_dims(
    alloc: Global,
    dims: &[Dim],
    leaf: &SubBox,
    count: u64,
    ranges: &Ranges,
) -> Result<NumberLists, CellFault>
    requires few { length dims.now ≤ 8 }
    requires integers { All (λ (d : AnyDim). IsTrue (is_integer d.ty)) dims.now }
    requires lows { length leaf.now.low ≡ length dims.now }
    requires highs { length leaf.now.high ≡ length dims.now }
    ensures decodes { DecodesFault (λ columns. columns) (coords_of_tile leaf.now count ranges.now 0 dims.now) result }
    ensures sides { IfOk result (AreSides count leaf.now.low leaf.now.high) }
{
    let mut columns = NumberLists::new(alloc);
    for dim in 0..dims.len() {
        let column = coords_along(alloc, &dims[dim], dim as u8, leaf, count, ranges)?;
        columns.push(column)?;
    }
    Ok(columns)
}

// The coordinates of so many cells along the dimension at a place.
fn coords_along(
    alloc: Global,
    dim: &Dim,
    place: u8,
    leaf: &SubBox,
    count: u64,
    ranges: &Ranges,
) -> Result<Numbers, CellFault>
    requires { IsTrue (is_integer dim.now.ty) }
    ensures decodes { DecodesFault (λ xs. xs) (in_part ranges.now (part.Dim place) (coords_in dim.now.ty (get_or leaf.now.low place (pos 0)) (get_or leaf.now.high place (pos 0)) count (bytes_of ranges.now (part.Dim place)))) result }
    ensures side { IfOk result (IsSide (get_or leaf.now.low place (pos 0)) (get_or leaf.now.high place (pos 0)) count) }
{
    let part = Part::Dim(place);
    let low = coord_at(&leaf.low, place);
    let high = coord_at(&leaf.high, place);
    match decode_side(alloc, dim.ty, &low, &high, count, ranges.bytes_of(part)) {
        Ok(coords) => Ok(coords),
        Err(ReadFault::Damaged(damaged)) => Err(ranges.fault_in(part, damaged.at)),
        Err(ReadFault::OutOfMemory) => Err(CellFault::OutOfMemory),
    }
}

// The coordinates of so many cells, which span this side.
#[tactic(auto, using(crate::proofs::ColumnSteps::coords_side))]
fn decode_side(
    alloc: Global,
    ty: ValType,
    low: &i128,
    high: &i128,
    count: u64,
    bytes: &[u8],
) -> Result<Numbers, ReadFault>
    requires { IsTrue (is_integer ty) }
    ensures decodes { DecodesOr (λ xs. xs) (coords_in ty low.now high.now count bytes.now) result }
    ensures side { IfOk result (IsSide low.now high.now count) }
{
    decode_coords(alloc, ty, low, high, count, bytes)
}

// The coordinate along a dimension, or 0 where there is none.
fn coord_at(coords: &Coords, dim: u8) -> i128
    ensures { result ≡ get_or coords.now dim (pos 0) }
{
    match coords.as_slice().get(dim as usize) {
        Some(x) => *x,
        None => 0,
    }
}

/// The values of so many cells of each attribute, as they were decoded or else as they are read; those of
/// attributes at other places than these are null. What is broken first among them is told.
#[tactic(auto, using(crate::proofs::TileCounts::vals_many))]
pub fn vals_or_read(
    alloc: Global,
    decoded: Option<ColumnList>,
    places: &[u32],
    attrs: &[Attr],
    count: u64,
    ranges: &Ranges,
) -> Result<ColumnList, CellFault>
    requires few { length attrs.now ≤ 64 }
    requires decoded { IfSome decoded (λ vals. vals_of_tile places.now count ranges.now 0 attrs.now ≡ Ok vals) }
    ensures decodes { DecodesFault (λ columns. columns) (vals_of_tile places.now count ranges.now 0 attrs.now) result }
    ensures many { IfOk result (All (λ (column : List AnyVal). length column ≡ count)) }
{
    match decoded {
        Some(vals) => Ok(vals),
        None => read_vals(alloc, places, attrs, count, ranges),
    }
}

// The values of so many cells of each attribute, read one after another.
#[tactic(auto, using(crate::proofs::ColumnSteps::vals_steps))]
fn read_vals(
    alloc: Global,
    places: &[u32],
    attrs: &[Attr],
    count: u64,
    ranges: &Ranges,
) -> Result<ColumnList, CellFault>
    requires few { length attrs.now ≤ 64 }
    ensures decodes { DecodesFault (λ columns. columns) (vals_of_tile places.now count ranges.now 0 attrs.now) result }
    ensures many { IfOk result (All (λ (column : List AnyVal). length column ≡ count)) }
{
    let mut columns = ColumnList::new(alloc);
    for place in 0..attrs.len() {
        let attr = place as u8;
        let read = is_among(places, attr);
        let column = vals_of(alloc, read, &attrs[place], attr, count, ranges)?;
        columns.push(column)?;
    }
    Ok(columns)
}

// The values of so many cells of the attribute at a place; where it is not read, they are null.
fn vals_of(
    alloc: Global,
    read: bool,
    attr: &Attr,
    place: u8,
    count: u64,
    ranges: &Ranges,
) -> Result<Column, CellFault>
    ensures decodes { DecodesFault (λ column. column) (vals_if read count ranges.now place attr.now) result }
    ensures many { IfOk result (λ column. length column ≡ count) }
{
    if !read {
        return Ok(Column::nulls(alloc, count)?);
    }
    let tile = tile_in(ranges, place);
    match decode_column(alloc, attr.ty, attr.nullable, count, &tile) {
        Ok(column) => Ok(column),
        Err(fault) => Err(fault_of(ranges, place, fault)),
    }
}

/// The tile of the attribute at a place, whose bytes stay where they were got.
pub(crate) fn tile_in<'a>(ranges: &Ranges<'a>, place: u8) -> TileView<'a>
    ensures { result ≡ tile_in ranges.now place }
{
    TileView {
        fixed: ranges.bytes_of(Part::Attr(place)),
        var: ranges.bytes_of(Part::Var(place)),
        validity: ranges.bytes_of(Part::Validity(place)),
    }
}

// What is broken in the tile of the attribute at a place.
fn fault_of(ranges: &Ranges, place: u8, fault: TileFault) -> CellFault
    ensures { TellsTile ranges.now place fault result }
{
    match fault {
        TileFault::Fixed(damaged) => ranges.fault_in(Part::Attr(place), damaged.at),
        TileFault::Var(damaged) => ranges.fault_in(Part::Var(place), damaged.at),
        TileFault::Validity(damaged) => ranges.fault_in(Part::Validity(place), damaged.at),
        TileFault::OutOfMemory => CellFault::OutOfMemory,
    }
}

// Which write each of so many cells is of, by its place among the origins: of an ordinary fragment
// the first, and the only one.
fn read_origins(
    alloc: Global,
    consolidated: bool,
    entries: u32,
    count: u64,
    ranges: &Ranges,
) -> Result<IndexList, CellFault>
    ensures decodes { DecodesFault (λ origins. origins) (origins_if consolidated entries count ranges.now) result }
    ensures many { IfOk result (λ origins. length origins ≡ count) }
{
    if !consolidated {
        return Ok(zeros(alloc, count)?);
    }
    match decode_origins(alloc, entries, count, ranges.bytes_of(Part::Origin)) {
        Ok(origins) => Ok(origins),
        Err(ReadFault::Damaged(damaged)) => Err(ranges.fault_in(Part::Origin, damaged.at)),
        Err(ReadFault::OutOfMemory) => Err(CellFault::OutOfMemory),
    }
}

// So many zeros.
fn zeros(alloc: Global, count: u64) -> Result<IndexList, OutOfMemory>
    ensures { IfOk result (λ origins. origins ≡ replicate count 0) }
{
    Ok(IndexList::from_vec(vec![in alloc; 0; count as usize]?))
}

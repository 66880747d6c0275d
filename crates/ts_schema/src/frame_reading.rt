//! Reading the object of a frame.
ghost use Rattle.std.specs.Prelude.{◌≡◌, ◌≤◌, ◌<◌, ◌+◌, ◌∷◌, ◌++◌, [], length, take, IfOk, OnOk, IsTrue, None};
ghost use Rattle.std.specs.List.{All};
ghost use Rattle.ts_wire.specs.Reading.{Reads, Decodes};
ghost use Rattle.ts_wire.specs.Place.{items_at};
ghost use Rattle.std.specs.Result.{result_err};
ghost use Rattle.ts_domain.specs.Dims.{IsBound, IsDim, dim_fault, fault_behind};
ghost use Rattle.ts_schema.specs.FrameTexts.{order_at, capacity_at, dim_count_at, integer_type_at, bound_at, dim_fields_at, place_of_fault, dim_broken, dim_at, next_dim_at, dims_at, frame_at, frame_of};
ghost use Rattle.ts_base.specs.Values.{is_integer};

use crate::frames::Frame;
use crate::types::read_type;
use ts_base::ValType;
use ts_domain::{Dim, Domain, DomainFault, Order};
use ts_wire::{Cursor, Damaged, Kind, kept, unwrap_body};

// No bound and no extent is above 2^64, or below its negative.
const LIMIT: i128 = 18_446_744_073_709_551_616;

#[tactic(auto, unfolding(crate::specs::FrameTexts::order_at))]
fn read_order(cursor: &mut Cursor) -> Result<Order, Damaged>
    ensures { Reads (λ order. order) order_at cursor.old cursor.new result }
{
    let at = cursor.at();
    match cursor.u8()? {
        0 => Ok(Order::Row),
        1 => Ok(Order::Col),
        _ => Err(Damaged { at }),
    }
}

#[tactic(auto, unfolding(crate::specs::FrameTexts::capacity_at))]
fn read_capacity(cursor: &mut Cursor) -> Result<u32, Damaged>
    ensures { Reads (λ capacity. capacity) capacity_at cursor.old cursor.new result }
{
    let at = cursor.at();
    let capacity = cursor.u32()?;
    kept(at, capacity, 1 <= capacity && capacity <= 1_000_000)
}

#[tactic(auto, unfolding(crate::specs::FrameTexts::dim_count_at))]
fn read_dim_count(cursor: &mut Cursor) -> Result<u8, Damaged>
    ensures reads { Reads (λ count. count) dim_count_at cursor.old cursor.new result }
    ensures range { IfOk result (λ count. (1 ≤ count) × (count ≤ 8)) }
{
    let at = cursor.at();
    let count = cursor.u8()?;
    kept(at, count, 1 <= count && count <= 8)
}

#[tactic(auto, unfolding(crate::specs::FrameTexts::integer_type_at))]
fn read_integer_type(cursor: &mut Cursor) -> Result<ValType, Damaged>
    ensures reads { Reads (λ ty. ty) integer_type_at cursor.old cursor.new result }
    ensures moves { OnOk result (cursor.new.at ≡ cursor.old.at + 1) }
    ensures integer { IfOk result (λ ty. IsTrue (is_integer ty)) }
{
    let at = cursor.at();
    let ty = read_type(cursor)?;
    kept(at, ty, ty.is_integer())
}

#[tactic(auto, unfolding(crate::specs::FrameTexts::bound_at))]
fn read_bound(cursor: &mut Cursor) -> Result<i128, Damaged>
    ensures reads { Reads (λ z. z) bound_at cursor.old cursor.new result }
    ensures moves { OnOk result (cursor.new.at ≡ cursor.old.at + 16) }
    ensures range { IfOk result IsBound }
{
    let at = cursor.at();
    let bound = cursor.int(16, true)?;
    kept(at, bound, -LIMIT <= bound && bound <= LIMIT)
}

// The five fields of a dimension.
#[tactic(auto, unfolding(crate::specs::FrameTexts::dim_fields_at))]
fn read_dim_fields(cursor: &mut Cursor) -> Result<Dim, Damaged>
    ensures reads { Reads (λ dim. dim) dim_fields_at cursor.old cursor.new result }
    ensures moves { IfOk result (λ dim. cursor.new.at ≡ cursor.old.at + (length dim.name + 50)) }
    ensures valid { IfOk result IsDim }
{
    let name = cursor.label()?;
    let ty = read_integer_type(cursor)?;
    let low = read_bound(cursor)?;
    let high = read_bound(cursor)?;
    let extent = read_bound(cursor)?;
    Ok(Dim {
        name,
        ty,
        low,
        high,
        extent,
    })
}

// The domain of the dimensions so far and one more, or the fault of that one.
#[tactic(auto, using(crate::proofs::DimLemmas::next_fault, crate::proofs::DimLemmas::next_valid))]
fn domain_with(front: &[Dim], dim: Dim) -> Result<Domain, DomainFault>
    requires few { length front.now < 8 }
    requires valid { All IsDim front.now }
    requires sound { fault_behind [] front.now ≡ None }
    requires next { IsDim dim }
    ensures ok { IfOk result (λ domain. domain ≡ front.now ++ dim ∷ []) }
    ensures fault { result_err result ≡ dim_fault front.now dim }
{
    let dims = buffer_with(front, dim);
    Domain::new(&dims[..front.len() + 1])
}

// A buffer that begins with the dimensions so far and one more.
#[tactic(auto, using(crate::proofs::DimLemmas::written_next))]
fn buffer_with(front: &[Dim], dim: Dim) -> [Dim; 8]
    requires { length front.now < 8 }
    ensures size { length result ≡ 8 }
    ensures begins { take (length front.now + 1) result ≡ front.now ++ dim ∷ [] }
{
    let mut dims = [dim; 8];
    dims[..front.len()].copy_from_slice(front);
    dims
}

// How many bytes behind the dimension's start the field begins that the fault concerns.
fn place_of_fault(dim: &Dim, fault: DomainFault) -> u64
    requires { IsTrue (is_integer dim.now.ty) }
    ensures place { result ≡ place_of_fault dim.now fault }
    ensures near { result ≤ length dim.now.name + 34 }
{
    let label = dim.name.as_bytes().len() as u64;
    let (low, high, extent) = (label + 2, label + 18, label + 34);
    match fault {
        DomainFault::EmptyDim { .. } => high,
        DomainFault::BadExtent { .. } => extent,
        DomainFault::PastType { .. } if dim.low < dim.ty.least() => low,
        DomainFault::PastType { .. } => extent,
        DomainFault::DuplicateName { .. } | DomainFault::TooManyDims { .. } => 0,
    }
}

// A dimension behind others, which have no fault: the domain that they make.
#[tactic(auto, unfolding(crate::specs::FrameTexts::next_dim_at, crate::specs::FrameTexts::dim_at, crate::specs::FrameTexts::dim_broken))]
fn read_dim(front: &[Dim], cursor: &mut Cursor) -> Result<Domain, Damaged>
    requires few { length front.now < 8 }
    requires valid { All IsDim front.now }
    requires sound { fault_behind [] front.now ≡ None }
    ensures { Reads (λ domain. domain) (next_dim_at front.now) cursor.old cursor.new result }
{
    let at = cursor.at();
    let dim = read_dim_fields(cursor)?;
    let _end = cursor.at();
    match domain_with(front, dim) {
        Ok(domain) => Ok(domain),
        Err(fault) => Err(Damaged {
            at: at + place_of_fault(&dim, fault),
        }),
    }
}

#[tactic(auto, using(crate::proofs::DimLoop::dims_loop))]
fn read_counted_dims(count: u8, cursor: &mut Cursor) -> Result<Domain, Damaged>
    requires some { 1 ≤ count }
    requires few { count ≤ 8 }
    ensures { Reads (λ domain. domain) (items_at dim_at count []) cursor.old cursor.new result }
{
    let mut domain = read_dim(&[], cursor)?;
    for place in 1..count {
        domain = read_dim(domain.as_slice(), cursor)?;
    }
    Ok(domain)
}

#[tactic(auto, unfolding(crate::specs::FrameTexts::dims_at))]
fn read_dims(cursor: &mut Cursor) -> Result<Domain, Damaged>
    ensures { Reads (λ domain. domain) dims_at cursor.old cursor.new result }
{
    let count = read_dim_count(cursor)?;
    read_counted_dims(count, cursor)
}

#[tactic(auto, unfolding(crate::specs::FrameTexts::frame_at))]
fn read_fields(cursor: &mut Cursor) -> Result<Frame, Damaged>
    ensures { Reads (λ frame. frame) frame_at cursor.old cursor.new result }
{
    let dense = cursor.bool()?;
    let cell = read_order(cursor)?;
    let tile = read_order(cursor)?;
    let capacity = read_capacity(cursor)?;
    let domain = read_dims(cursor)?;
    Ok(Frame {
        dense,
        domain,
        cell,
        tile,
        capacity,
    })
}

/// The frame that an object spells.
#[tactic(auto, unfolding(crate::specs::FrameTexts::frame_of, ts_wire::specs::Envelope::object_at))]
pub fn read_frame(object: &[u8]) -> Result<Frame, Damaged>
    ensures { Decodes (λ frame. frame) (frame_of object.now) result }
{
    let body = unwrap_body(Kind::Domain, object)?;
    let mut cursor = Cursor::new(body, 14);
    let frame = read_fields(&mut cursor)?;
    cursor.end()?;
    Ok(frame)
}

//! Writing the object of a frame.
ghost use Rattle.std.specs.Prelude.{◌≡◌, ◌++◌, IfOk, OnOk};
ghost use Rattle.ts_schema.specs.FrameTexts.{order_code, order_bytes, dim_bytes, dims_bytes, frame_bytes, frame_object};

use crate::frames::Frame;
use crate::types::write_type;
use std::alloc::Global;
use ts_base::{ByteList, OutOfMemory};
use ts_domain::{Dim, Domain, Order};
use ts_wire::{Kind, Scribe};

fn code_of(order: Order) -> u8
    ensures { result ≡ order_code order }
{
    match order {
        Order::Row => 0,
        Order::Col => 1,
    }
}

#[tactic(auto, unfolding(crate::specs::FrameTexts::order_bytes))]
fn write_order(scribe: &mut Scribe, order: Order) -> Result<(), OutOfMemory>
    ensures { OnOk result (scribe.new ≡ scribe.old ++ order_bytes order) }
{
    scribe.u8(code_of(order))
}

#[tactic(auto, unfolding(crate::specs::FrameTexts::dim_bytes))]
fn write_dim(scribe: &mut Scribe, dim: &Dim) -> Result<(), OutOfMemory>
    ensures { OnOk result (scribe.new ≡ scribe.old ++ dim_bytes dim.now) }
{
    scribe.label(&dim.name)?;
    write_type(scribe, dim.ty)?;
    scribe.int(16, true, dim.low)?;
    scribe.int(16, true, dim.high)?;
    scribe.int(16, true, dim.extent)
}

#[tactic(auto, unfolding(crate::specs::FrameTexts::dims_bytes))]
fn write_dims(scribe: &mut Scribe, domain: &Domain) -> Result<(), OutOfMemory>
    ensures { OnOk result (scribe.new ≡ scribe.old ++ dims_bytes domain.now) }
{
    scribe.u8(domain.count())?;
    for dim in domain.as_slice() {
        write_dim(scribe, dim)?;
    }
    Ok(())
}

#[tactic(auto, unfolding(crate::specs::FrameTexts::frame_bytes))]
fn write_fields(scribe: &mut Scribe, frame: &Frame) -> Result<(), OutOfMemory>
    ensures { OnOk result (scribe.new ≡ scribe.old ++ frame_bytes frame.now) }
{
    scribe.bool(frame.dense)?;
    write_order(scribe, frame.cell)?;
    write_order(scribe, frame.tile)?;
    scribe.u32(frame.capacity)?;
    write_dims(scribe, &frame.domain)
}

/// The object that spells the frame.
#[tactic(auto, unfolding(crate::specs::FrameTexts::frame_object))]
pub fn write_frame(alloc: Global, frame: &Frame) -> Result<ByteList, OutOfMemory>
    ensures { IfOk result (λ object. object ≡ frame_object frame.now) }
{
    let mut scribe = Scribe::new(alloc);
    write_fields(&mut scribe, frame)?;
    scribe.into_object(Kind::Domain)
}

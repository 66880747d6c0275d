//! Frames: what stays of an array from its creation on.
ghost use Rattle.std.specs.Prelude.{◌≡◌, ◌<◌, ◌^◌, IfOk, IsOkAnd, IsErrAnd, length};
ghost use Rattle.ts_wire.specs.Envelope.{IsCut};
ghost use Rattle.ts_wire.specs.Reading.{Decodes};
ghost use Rattle.ts_schema.specs.declared.frames.Frame.{Frame as AnyFrame};
ghost use Rattle.ts_schema.specs.FrameTexts.{frame_bytes, frame_object, frame_of, IsFrame};

use crate::frame_reading::read_frame;
use crate::frame_writing::write_frame;
use std::alloc::Global;
use ts_base::{ByteList, OutOfMemory};
use ts_domain::{Domain, Order};
use ts_wire::Damaged;

/// The frame of an array: its kind, its dimensions, its orders and its capacity, which no evolution
/// changes. See the TileDB format specification, "Array Schema".
#[derive(Clone, Copy, Debug, PartialEq, Eq)]
pub struct Frame {
    /// Whether the array is dense: it has a value at each cell of its domain.
    pub dense: bool,
    /// The dimensions.
    pub domain: Domain,
    /// The order of the cells in a space tile.
    pub cell: Order,
    /// The order of the space tiles.
    pub tile: Order,
    /// The number of cells in a data tile of a sparse array, from 1 to 1,000,000.
    pub capacity: u32,
}

impl Frame {
    /// The object that spells the frame.
    pub fn encode(&self, alloc: Global) -> Result<ByteList, OutOfMemory>
        ensures spelled { IfOk result (λ object. object ≡ frame_object self.now) }
    {
        write_frame(alloc, self)
    }

    /// The frame that an object spells. It takes no memory.
    ///
    /// The layout is that of the file FORMATS.md, "The frame". The answer is a frame exactly where
    /// the object is one that spells it. Else the offset is that of the first broken field; a
    /// dimension whose fields are each whole is broken at the field that its fault concerns.
    pub fn decode(object: &[u8]) -> Result<Frame, Damaged>
        ensures exact { Decodes (λ frame. frame) (frame_of object.now) result }
        ensures found { IfOk result (λ frame. IsFrame frame × (object.now ≡ frame_object frame)) }
        ensures only { (frame : AnyFrame) → IsFrame frame → object.now ≡ frame_object frame → IsOkAnd result (λ found. found ≡ frame) }
        ensures cut { (frame : AnyFrame) → length (frame_bytes frame) < 2 ^ 64 → IsCut 14 (frame_object frame) object.now → IsErrAnd result (λ damaged. damaged.at ≡ 6) }
    {
        read_frame(object)
    }
}

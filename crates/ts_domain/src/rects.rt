//! A table of boxes, which counts how often it is looked into.
ghost use Rattle.std.specs.Prelude.{◌≡◌, ◌<◌, ◌++◌, length, slice_index_or, pos, All, IfOk, OnOk};
ghost use Rattle.std.specs.List.{flat_map};
ghost use Rattle.ts_domain.specs.Boxes.{IsBox, do_boxes_meet};
ghost use Rattle.ts_domain.specs.Rects.{looked, IsLike, wide_bytes, sides_bytes, rect_bytes};

use crate::boxes::{BoxList, SubBox};
use byteorder::{ByteOrder, LittleEndian};
use std::alloc::Global;
use std::marker::Model;
use ts_base::{ByteList, OutOfMemory};

/// A table of boxes. It tells whether one of them meets a given box, counts how often it was asked,
/// and spells its boxes; no call hands one out.
#[derive(Debug, Drop)]
pub struct RectTable {
    boxes: BoxList,
    looks: u64,
}

impl Model for RectTable {
    ghost use Rattle.ts_domain.specs.Rects.{Rects};

    ghost Value = { Rects };

    ghost view = { λ table. record { boxes = table.boxes; looks = table.looks } };
}

impl RectTable {
    /// The table of these boxes, which was not looked into yet. It takes no memory.
    pub fn new(boxes: BoxList) -> RectTable
        ensures { result ≡ record { boxes = boxes; looks = 0 } }
    {
        RectTable { boxes, looks: 0 }
    }

    /// The number of boxes.
    #[allow(clippy::len_without_is_empty)]
    pub fn len(&self) -> u64
        ensures { result ≡ length self.now.boxes }
    {
        self.boxes.len()
    }

    /// How often a box was looked at, or 2^64 - 1 where it was more often.
    pub fn looks(&self) -> u64
        ensures { result ≡ self.now.looks }
    {
        self.looks
    }

    /// Whether the box at a place, counted from 0, has a cell in common with `sub`. It is one look
    /// more.
    #[tactic(auto, using(crate::proofs::RectLemmas::like_at))]
    pub fn meets_at(&mut self, at: u64, sub: &SubBox) -> bool
        requires within { at < length self.old.boxes }
        requires sub { IsBox sub.now }
        requires like { All (IsLike sub.now) self.old.boxes }
        ensures tested { result ≡ do_boxes_meet (slice_index_or self.old.boxes at sub.now) sub.now }
        ensures stays { self.new.boxes ≡ self.old.boxes }
        ensures counted { self.new.looks ≡ looked self.old.looks }
    {
        self.looks = self.looks.saturating_add(1);
        self.boxes.at(at).meets(sub)
    }

    /// The spelling of the boxes: box by box and dimension by dimension the low bound and the high
    /// bound, each in 16 bytes.
    pub fn bytes(&self, alloc: Global) -> Result<ByteList, OutOfMemory>
        requires { All IsBox self.now.boxes }
        ensures { IfOk result (λ bytes. bytes ≡ flat_map rect_bytes self.now.boxes) }
    {
        let mut bytes = ByteList::new(alloc);
        for rect in self.boxes.as_slice() {
            append_rect(&mut bytes, rect)?;
        }
        Ok(bytes)
    }
}

// Tables are the same by their boxes alone, however often they were looked into.
impl PartialEq for RectTable {
    ghost use Rattle.std.specs.Cmp.{on_per};
    ghost use Rattle.std.specs.Cmp.Lexicographic.{pointwise, lists_per};
    ghost use Rattle.ts_domain.specs.contracts.boxes.SubBoxPartialEq.TheImpl as rect;
    ghost use Rattle.ts_domain.specs.contracts.boxes.SubBoxPartialEq.TheImpl.Laws.{laws-law};

    ghost eq = { λ a b. pointwise (rect.ghosts).eq a.boxes b.boxes };

    ghost laws = { on_per (λ table. table.boxes) (lists_per laws-law) };

    fn eq(&self, other: &Self) -> bool {
        self.boxes == other.boxes
    }
}

impl Eq for RectTable {
    ghost use Rattle.std.specs.Cmp.{on_equiv};
    ghost use Rattle.std.specs.Cmp.Lexicographic.{lists_equiv};
    ghost use Rattle.ts_domain.specs.contracts.boxes.SubBoxEq.TheImpl.Laws.{laws-law};

    ghost laws = { on_equiv (λ table. table.boxes) (lists_equiv laws-law) };
}

// Appends the bounds of a box: dimension by dimension the low one and the high one.
#[tactic(auto, using(crate::proofs::RectLemmas::as_many, crate::proofs::RectLemmas::sides_more, crate::proofs::RectLemmas::sides_all), unfolding(crate::specs::Rects::rect_bytes))]
fn append_rect(bytes: &mut ByteList, rect: &SubBox) -> Result<(), OutOfMemory>
    requires { IsBox rect.now }
    ensures { OnOk result (bytes.new ≡ bytes.old ++ rect_bytes rect.now) }
{
    for dim in 0..rect.low.len() as usize {
        bytes.append(&side_bytes(rect, dim))?;
    }
    Ok(())
}

// The low bound and the high bound of a box along a dimension.
#[tactic(auto, using(crate::proofs::RectLemmas::as_many))]
fn side_bytes(rect: &SubBox, dim: usize) -> [u8; 32]
    requires valid { IsBox rect.now }
    requires within { dim < length rect.now.low }
    ensures { result ≡ wide_bytes (slice_index_or rect.now.low dim (pos 0)) ++ wide_bytes (slice_index_or rect.now.high dim (pos 0)) }
{
    let (low, high) = (rect.low.as_slice(), rect.high.as_slice());
    let mut field = [0; 32];
    field[..16].copy_from_slice(&wide_bytes(low[dim]));
    field[16..].copy_from_slice(&wide_bytes(high[dim]));
    field
}

// A number in 16 bytes, the lowest first, a negative one by two's complement.
fn wide_bytes(n: i128) -> [u8; 16]
    ensures { result ≡ wide_bytes n }
{
    let mut field = [0; 16];
    LittleEndian::write_int128(&mut field, n, 16);
    field
}

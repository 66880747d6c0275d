//! The two objects of a column of byte lists, written in one pass over the cells.
ghost use Rattle.std.specs.Prelude.{◌≡◌, ◌≤◌, ℕ, List, [], ◌∷◌, ◌++◌, map, IfOk, OnOk};
ghost use Rattle.std.specs.List.{flat_map};
ghost use Rattle.ts_table.specs.Texts.{joined};
ghost use Rattle.ts_wire.specs.declared.kinds.Kind.TheVariants as kind;
ghost use Rattle.ts_wire.specs.Envelope.{wrapped};
ghost use Rattle.ts_wire.specs.Numbers.{number_bytes};
ghost use Rattle.ts_column.specs.Spelled.{text_of};
ghost use Rattle.ts_sparse.specs.Laying.{values_along};
ghost use Rattle.ts_sparse.specs.Tilings.{tiles_of, tile_starts, starts_in};
ghost use Rattle.ts_sparse.specs.TextObjects.{tile_begun, with_text, HasWritten};

use crate::columns::{room_for, text_at};
use crate::values::sources_of;
use std::alloc::Global;
use ts_base::{ByteList, LengthList, OutOfMemory};
use ts_piece::{BatchPiece, PieceParts};
use ts_wire::{Kind, Scribe};

/// The two objects of a column of byte lists.
#[derive(Debug, Drop)]
pub(crate) struct TextObjects {
    /// Where each byte list starts in the bytes of its tile, in eight bytes each.
    pub starts: ByteList,
    /// The bytes of all, one list after another.
    pub bytes: ByteList,
    /// Where the bytes of each tile start in the object that has them all, behind the 14 bytes of its
    /// envelope.
    pub tiles: LengthList,
}

/// The two objects of the values of an attribute that are byte lists, a null as the empty one. A tile
/// has `tile` byte lists, the last one the rest.
pub(crate) fn text_objects(
    alloc: Global,
    tile: u32,
    attr: u8,
    piece: &BatchPiece,
) -> Result<TextObjects, OutOfMemory>
    requires tile { 1 ≤ tile }
    ensures starts { IfOk result (λ objects. objects.starts ≡ wrapped kind.Column (flat_map (number_bytes 8) (starts_in (tiles_of tile (map text_of (values_along attr piece.now.versions)))))) }
    ensures bytes { IfOk result (λ objects. objects.bytes ≡ wrapped kind.Column (joined (map text_of (values_along attr piece.now.versions)))) }
    ensures tiles { IfOk result (λ objects. objects.tiles ≡ tile_starts 14 (tiles_of tile (map text_of (values_along attr piece.now.versions)))) }
{
    let mut scribe = TextScribe::new(alloc, tile, room_for(alloc, piece, 8)?);
    let PieceParts { batches, spots } = piece.parts();
    let sources = sources_of(alloc, batches, attr)?;
    for spot in spots {
        scribe.push(text_at(batches, sources.as_slice(), attr, *spot))?;
    }
    scribe.into_objects()
}

/// The two objects of a column of byte lists that are being written, one byte list after another.
#[derive(Debug, Drop)]
pub(crate) struct TextScribe {
    /// How many byte lists a tile has.
    tile: u32,
    /// Where each byte list starts in its tile.
    starts: Scribe,
    /// The bytes of all.
    bytes: Scribe,
    /// Where each tile starts in the object of the bytes.
    tiles: LengthList,
    /// How many more byte lists go into the last tile.
    left: u32,
    /// Where the last tile starts in that object.
    begun: u64,
    /// Where the next byte list starts in that object.
    end: u64,
}

impl TextScribe {
    /// A scribe that has written no byte list. The scribe that is passed has written nothing, and has
    /// room for where the byte lists start.
    fn new(alloc: Global, tile: u32, starts: Scribe) -> TextScribe
        requires { starts ≡ [] }
        ensures { HasWritten tile [] result }
    {
        // The envelope stands in front.
        let end = 14u64;
        TextScribe {
            tile,
            starts,
            bytes: Scribe::new(alloc),
            tiles: LengthList::new(alloc),
            left: 0,
            begun: end,
            end,
        }
    }

    /// Writes one byte list more.
    fn push(&mut self, text: &[u8]) -> Result<(), OutOfMemory>
        requires some { 1 ≤ self.old.tile }
        requires begun { self.old.begun ≤ self.old.end }
        ensures { OnOk result ((n : ℕ) → (texts : List (List ℕ)) → HasWritten n texts self.old → HasWritten n (texts ++ text.now ∷ []) self.new) }
    {
        if self.left == 0 {
            self.begin_tile()?;
        }
        self.write(text)
    }

    // Begins a tile with no byte list yet.
    fn begin_tile(&mut self) -> Result<(), OutOfMemory>
        ensures { OnOk result (self.new ≡ tile_begun self.old) }
    {
        self.tiles.push(self.end)?;
        self.begun = self.end;
        self.left = self.tile;
        Ok(())
    }

    // Writes one byte list more into the last tile. There is no memory for an object of 2^64 bytes.
    fn write(&mut self, text: &[u8]) -> Result<(), OutOfMemory>
        requires some { 1 ≤ self.old.left }
        requires begun { self.old.begun ≤ self.old.end }
        ensures { OnOk result (self.new ≡ with_text self.old text.now) }
    {
        let Some(end) = self.end.checked_add(text.len() as u64) else {
            return Err(OutOfMemory);
        };
        self.starts.u64(self.end - self.begun)?;
        self.bytes.bytes(text)?;
        self.left -= 1;
        self.end = end;
        Ok(())
    }

    /// The two objects.
    fn into_objects(self) -> Result<TextObjects, OutOfMemory>
        ensures starts { IfOk result (λ objects. objects.starts ≡ wrapped kind.Column self.starts) }
        ensures bytes { IfOk result (λ objects. objects.bytes ≡ wrapped kind.Column self.bytes) }
        ensures tiles { IfOk result (λ objects. objects.tiles ≡ self.tiles) }
    {
        let TextScribe {
            starts,
            bytes,
            tiles,
            ..
        } = self;
        Ok(TextObjects {
            starts: starts.into_object(Kind::Column)?,
            bytes: bytes.into_object(Kind::Column)?,
            tiles,
        })
    }
}

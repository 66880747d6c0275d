//! What is known of the parts of a tile in memory.
ghost use Rattle.std.specs.Prelude.{◌<◌, ◌^◌, length};
ghost use Rattle.ts_wire.specs.Exact.{IsBytes};

use crate::tiles::TileView;

/// Each part of a tile is made of bytes, fewer than 2^64. The call itself does nothing.
pub(crate) fn has_bytes(tile: &TileView<'_>)
    ensures fixed { IsBytes tile.now.fixed }
    ensures var { IsBytes tile.now.var }
    ensures validity { IsBytes tile.now.validity }
    ensures short { length tile.now.var < 2 ^ 64 }
{
    are_bytes(tile.fixed);
    are_bytes(tile.var);
    are_bytes(tile.validity);
    let _count = tile.var.len();
}

/// Each number of a slice of bytes is a byte. The call itself does nothing.
pub(crate) fn are_bytes(bytes: &[u8])
    ensures { IsBytes bytes.now }
{}

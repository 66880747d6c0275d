//! The object of a column: its tiles one after another.
ghost use Rattle.std.specs.Prelude.{◌≡◌, IfOk};
ghost use Rattle.ts_wire.specs.declared.kinds.Kind.TheVariants as kind;
ghost use Rattle.ts_wire.specs.Broken.{joined};
ghost use Rattle.ts_wire.specs.Envelope.{wrapped};

use std::alloc::Global;
use ts_base::{ByteList, OutOfMemory};
use ts_wire::{Kind, wrap};

/// The object that holds these tiles, one after another.
pub fn column_object(alloc: Global, tiles: &[ByteList]) -> Result<ByteList, OutOfMemory>
    ensures { IfOk result (λ object. object ≡ wrapped kind.Column (joined tiles.now)) }
{
    let mut body = ByteList::new(alloc);
    for tile in tiles {
        body.append(tile.as_slice())?;
    }
    wrap(alloc, Kind::Column, body.as_slice())
}

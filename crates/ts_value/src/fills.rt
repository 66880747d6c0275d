//! The values that stand where nothing was written.
ghost use Rattle.std.specs.Prelude.{◌≡◌};
ghost use Rattle.ts_value.specs.Fill.{fill_of};
ghost use Rattle.ts_value.specs.Fits.{Fits};

use std::alloc::Global;
use ts_base::{ByteList, Val, ValType};

/// The default fill: null where the type is nullable; else the least integer of a signed type, the
/// greatest of an unsigned type, and no bytes for a text or a blob. It takes no memory.
///
/// These are the fill values of the TileDB format.
pub fn default_fill(alloc: Global, ty: ValType, nullable: bool) -> Val
    ensures value { result ≡ fill_of ty nullable }
    ensures fits { Fits ty nullable result }
{
    if nullable {
        return Val::Null;
    }
    match ty {
        ValType::Text | ValType::Blob => Val::Bytes(ByteList::new(alloc)),
        ValType::U8 | ValType::U16 | ValType::U32 | ValType::U64 => Val::Int(ty.greatest()),
        ValType::I8 | ValType::I16 | ValType::I32 | ValType::I64 => Val::Int(ty.least()),
    }
}

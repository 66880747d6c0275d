//! What is known of bytes in memory.
ghost use Rattle.std.specs.Prelude.{◌<◌, ◌^◌, length};
ghost use Rattle.ts_wire.specs.Exact.{IsBytes};

use ts_base::ByteList;

/// The items of a slice of bytes are bytes. The call itself does nothing.
pub fn has_bytes(bytes: &[u8])
    ensures { IsBytes bytes.now }
{}

/// A list of bytes has fewer than 2^64 of them. The call itself changes nothing.
pub fn has_length(bytes: &ByteList)
    ensures { length bytes.now < 2 ^ 64 }
{
    let _count = bytes.len();
}

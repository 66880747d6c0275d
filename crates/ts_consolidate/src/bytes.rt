//! What is known of bytes in memory.
ghost use Rattle.ts_schema.specs.Parts.{IsShort};
ghost use Rattle.ts_wire.specs.Exact.{IsBytes};

use ts_store::SharedBytes;

/// The items of a list of bytes are bytes, of which there are fewer than 2^64. The call itself changes
/// nothing.
pub(crate) fn has_object(object: &SharedBytes)
    ensures bytes { IsBytes object.now }
    ensures short { IsShort object.now }
{
    has_bytes(object.as_slice());
    let _count = object.len();
}

// The items of a slice of bytes are bytes.
fn has_bytes(bytes: &[u8])
    ensures { IsBytes bytes.now }
{}

//! Worked objects: what each byte of them says, and which offset each broken field gives.
mod fixed;
mod mixed;

use std::alloc::Global;
use ts_base::{ByteList, FragKey, OutOfMemory};
use ts_plain::read_plain;
use ts_schema::{Frame, Schema};
use ts_wire::ReadFault;

// A byte of an object, what it is changed to, and the offset that then is broken.
#[derive(Clone, Copy)]
struct Change(u64, u8, u64);

// The offset of the first broken field, where the object is damaged.
fn read_at(
    alloc: Global,
    frame: &Frame,
    schema: &Schema,
    frag: FragKey,
    object: &[u8],
) -> Option<u64> {
    match read_plain(alloc, frame, schema, frag, object) {
        Err(ReadFault::Damaged(damaged)) => Some(damaged.at),
        _ => None,
    }
}

// The offset that is broken once the change is made.
fn broken_at(
    alloc: Global,
    frame: &Frame,
    schema: &Schema,
    frag: FragKey,
    object: &[u8],
    change: &Change,
) -> Result<Option<u64>, OutOfMemory> {
    let Change(at, byte, _) = change;
    let mut bytes = ByteList::of_bytes(alloc, object)?;
    if *at < bytes.len() {
        bytes.set(*at, *byte);
    }
    Ok(read_at(alloc, frame, schema, frag, bytes.as_slice()))
}

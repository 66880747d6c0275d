//! Laying the objects of a fragment one after another.
ghost use Rattle.std.specs.Prelude.{◌≡◌, ◌++◌, OnOk};
ghost use Rattle.ts_sparse.specs.Laying.{with_part};

use ts_base::{LengthList, OutOfMemory, PartBytes, PartList};

/// The objects of columns so far.
#[derive(Debug, Drop)]
pub struct Laid {
    /// The parts, in the order of their puts.
    pub parts: PartList,
    /// What the metadata says of them: the length of each object in bytes, and behind it where its
    /// tiles start, where these are byte lists.
    pub sizes: LengthList,
}

impl Laid {
    /// A part more, whose tiles start at these bytes of the object. `starts` is empty but for byte lists.
    pub fn lay(&mut self, part: PartBytes, starts: &[u64]) -> Result<(), OutOfMemory>
        ensures { OnOk result (self.new ≡ with_part self.old part starts.now) }
    {
        self.sizes.push(part.bytes.len())?;
        append(&mut self.sizes, starts)?;
        self.parts.push(part)
    }
}

// Appends lengths.
fn append(sizes: &mut LengthList, more: &[u64]) -> Result<(), OutOfMemory>
    ensures { OnOk result (sizes.new ≡ sizes.old ++ more.now) }
{
    for size in more {
        sizes.push(*size)?;
    }
    Ok(())
}

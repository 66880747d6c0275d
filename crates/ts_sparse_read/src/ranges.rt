//! The bytes that were got of the spans of a tile.
ghost use Rattle.std.specs.Prelude.{◌≡◌, [], get_or};
ghost use Rattle.ts_sparse_read.specs.Faults.{bytes_of, from_of, fault_in};
ghost use Rattle.ts_sparse_read.specs.Judges.{ranged};
ghost use Rattle.ts_sparse_read.specs.Reads.{IsCellFault};

use crate::faults::CellFault;
use crate::opened::Span;
use std::marker::Model;
use ts_base::Part;
use ts_store::SharedBytes;

/// The bytes that were got of spans, one list for each span in their order. Of spans behind the last
/// list there are none.
///
/// Contracts see for each span its part, its offset and its bytes.
#[derive(Drop)]
pub struct Ranges<'a> {
    spans: &'a [Span],
    got: &'a [SharedBytes],
}

impl<'a> Model for Ranges<'a> {
    ghost use Rattle.std.specs.Prelude.{List};
    ghost use Rattle.ts_sparse_read.specs.Faults.{Ranged};
    ghost use Rattle.ts_sparse_read.specs.Judges.{ranged};

    ghost Value = { List Ranged };

    ghost view = { λ ranges. ranged ranges.spans.now ranges.got.now };
}

impl<'a> Ranges<'a> {
    /// The bytes that were got of these spans.
    pub fn new(spans: &'a [Span], got: &'a [SharedBytes]) -> Ranges<'a>
        ensures { result ≡ ranged spans.now got.now }
    {
        Ranges { spans, got }
    }

    /// The bytes of a part, none where there are none.
    #[tactic(auto, using(crate::proofs::RangeLaws::bytes_here, crate::proofs::RangeLaws::bytes_on, crate::proofs::RangeLaws::bytes_none))]
    pub fn bytes_of(&self, part: Part) -> &'a [u8]
        ensures { result.now ≡ bytes_of self.now part }
    {
        let (spans, got) = (self.spans, self.got);
        for place in 0..spans.len() {
            if spans[place].part == part {
                return bytes_at(got, place);
            }
        }
        &[]
    }

    /// The offset of the first byte of a part, or 0 where there are none.
    #[tactic(auto, using(crate::proofs::RangeLaws::from_any, crate::proofs::RangeLaws::from_here, crate::proofs::RangeLaws::from_on, crate::proofs::RangeLaws::from_none))]
    pub fn from_of(&self, part: Part) -> u64
        ensures { result ≡ from_of self.now part }
    {
        let spans = self.spans;
        for place in 0..spans.len() {
            if spans[place].part == part {
                return spans[place].from;
            }
        }
        0
    }

    /// What is broken in the bytes of a part is broken so far behind their offset.
    pub fn fault_in(&self, part: Part, at: u64) -> CellFault
        ensures { IsCellFault (fault_in self.now part at) result }
    {
        match self.from_of(part).checked_add(at) {
            Some(at) => CellFault::Broken(part, at),
            // No object has so many bytes.
            None => CellFault::OutOfMemory,
        }
    }
}

// The bytes at a place, none behind the last.
fn bytes_at(got: &[SharedBytes], place: usize) -> &[u8]
    ensures { result.now ≡ get_or got.now place [] }
{
    match got.get(place) {
        Some(bytes) => bytes.as_slice(),
        None => &[],
    }
}

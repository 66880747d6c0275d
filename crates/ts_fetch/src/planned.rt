//! The calls that a fetch will make.
ghost use Rattle.std.specs.Prelude.{◌≡◌};
ghost use Rattle.ts_base.specs.Names.{IsSpelledFrag};
ghost use Rattle.ts_actor.specs.Fetches.{IsWorkCall};
ghost use Rattle.ts_fetch.specs.Plans.{call_of, IsSpelledPlanned};

use ts_base::{FragKey, Name, Part};
use ts_store::Call;

/// A call that a fetch of a fragment will make, on one of the fragment's parts.
#[derive(Clone, Copy, Debug, PartialEq, Eq)]
pub enum Planned {
    /// Asks for the size of a part, which the metadata states: so many bytes.
    SizeOf(Part, u64),
    /// Gets a range of a part: the offset of its first byte, and how many bytes it has.
    Range(Part, u64, u64),
}

impl Planned {
    /// The call itself, on the part of this fragment.
    pub fn call(self, frag: FragKey) -> Call
        ensures is { result ≡ call_of frag self }
        ensures spelled { IsSpelledFrag frag → IsSpelledPlanned self → IsWorkCall result }
    {
        match self {
            Planned::SizeOf(part, _) => Call::Size(Name::Part(frag, part)),
            Planned::Range(part, from, count) => Call::Get(Name::Part(frag, part), from, count),
        }
    }
}

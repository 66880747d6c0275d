//! How a consolidation ends before its puts.
ghost use Rattle.std.specs.Prelude.{◌≡◌};
ghost use Rattle.ts_model.specs.States.{damaged, ended};
ghost use Rattle.ts_consolidate.specs.Merges.{IsMergeState, merges_left};

use ts_actor::{Pieces, end_by, end_damaged};
use ts_base::Name;
use ts_model::State;
use ts_store::{Call, Reply};

/// How a job ends by a reply that does not let it go on.
pub(crate) fn ended<P: Pieces>(call: &Call, reply: &Reply) -> State<P::Fetch>
    ensures is { result ≡ ended call.now reply.now }
    ensures may { IsMergeState P.codec result }
    ensures none { merges_left P.left result ≡ 0 }
{
    State::Over(end_by(call, reply))
}

/// An object is damaged at an offset.
pub(crate) fn damaged<P: Pieces>(name: Name, at: u64) -> State<P::Fetch>
    ensures is { result ≡ damaged name at }
    ensures may { IsMergeState P.codec result }
    ensures none { merges_left P.left result ≡ 0 }
{
    State::Over(end_damaged(name, at))
}

//! The next of several gets that a job makes one after the other.
ghost use Rattle.std.specs.Prelude.{◌≡◌, option_map, slice_get, All, IfSome};
ghost use Rattle.ts_base.specs.Names.{IsSpelledFrag};
ghost use Rattle.ts_model.specs.States.{get_head_in, get_schema, get_vac};
ghost use Rattle.ts_actor.specs.Fetches.{IsWorkCall};
ghost use Rattle.ts_actor.specs.Listings.{IsSpelledVac};

use crate::pieces::Pieces;
use crate::seeking::get_all;
use ts_base::{CommitKind, FragList, KeyList, Name};
use ts_schema::Frame;
use ts_store::Call;

/// The get of the `.vac` of the fragment at a place, if there is one.
pub fn vac_asked(counting: &FragList, place: u64) -> Option<Call>
    requires { All IsSpelledVac counting.now }
    ensures is { result ≡ option_map get_vac (slice_get counting.now place) }
    ensures spelled { IfSome result IsWorkCall }
{
    if place < counting.len() {
        Some(get_all(Name::Commit(*counting.at(place), CommitKind::Vac)))
    } else {
        None
    }
}

/// The get of the part that has the head of the fragment at a place, if there is one.
pub fn head_asked<P: Pieces>(frame: &Frame, fragments: &FragList, place: u64) -> Option<Call>
    requires { All IsSpelledFrag fragments.now }
    ensures is { result ≡ option_map (get_head_in P.codec frame.now) (slice_get fragments.now place) }
    ensures spelled { IfSome result IsWorkCall }
{
    if place < fragments.len() {
        let part = P::head_part(frame);
        Some(get_all(Name::Part(*fragments.at(place), part)))
    } else {
        None
    }
}

/// The get of the schema of the key at a place, if there is one.
pub fn schema_asked(keys: &KeyList, place: u64) -> Option<Call>
    ensures is { result ≡ option_map get_schema (slice_get keys.now place) }
    ensures spelled { IfSome result IsWorkCall }
{
    if place < keys.len() {
        Some(get_all(Name::Schema(*keys.at(place))))
    } else {
        None
    }
}

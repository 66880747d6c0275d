//! Fetches of fragments in tiles: all calls are known once the metadata of the fragment is read.
#![tactic(auto)]

mod fetching;
mod judging;
mod laws;
mod planned;

pub use fetching::TileFetch;
pub use judging::{Judge, Verdict};
pub use laws::{
    fetches_find_what_is_held, fetches_keep_to_their_plan, fetches_tell_what_the_judge_says,
    other_sizes_are_broken,
};
pub use planned::Planned;

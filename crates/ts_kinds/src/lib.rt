//! Two ways to write fragments as one: each array is written in the way of its kind. Here are the fetches
//! of both, and in `specs` what holds of the two together where it holds of each.
#![tactic(auto)]

mod either_fetch;

pub use either_fetch::EitherFetch;

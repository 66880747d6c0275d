//! The laws of spelling and reading, on which every object stands.

// The laws by which the crates above put fields together: what is put together of exact parts is
// exact, and is broken where its first broken part is.
#[tactic(auto, using(crate::proofs::Laws::numbered_exact, crate::proofs::Objects::plain_cut, crate::proofs::Loop::items_done, crate::proofs::First::whole_broken))]
fn compositions_hold() {}

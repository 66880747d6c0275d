//! The laws of the model: what every call of every job keeps, and what the ends of jobs tell of the history.
//!
//! There is no function here. The definitions stand in `specs/`, the lemmas in `proofs/`. The contracts
//! that promise them are those of `World` in `ts_world` and of `run` in `ts_top`, whose proofs cite these
//! lemmas. So a change of a law proves those two crates again, and none of the machines.
#![tactic(auto)]

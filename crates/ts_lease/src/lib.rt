//! Leases: whether a holder may go on beside the leases of a listing.
//!
//! A job that reads, consolidates or vacuums puts a lease of its own, then lists the leases, and goes
//! on only where no other one opposes its own.
#![tactic(auto)]

mod verdicts;

pub use verdicts::{Verdict, decide};

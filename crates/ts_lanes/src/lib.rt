//! Commands in lanes: each lane does its commands one after the other, in a thread of its own, over one
//! store that all share.
#![tactic(auto)]

mod command;
mod crew;
mod driving;
mod gate;
mod lane;
mod lanes;
mod together;

pub use crew::{Begun, Crew};
pub use gate::{Gate, OpenGate};
pub use lane::EndList;
pub use lanes::{Lanes, run_lanes};
pub use together::run_together;

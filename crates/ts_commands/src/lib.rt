//! The actors of all commands behind one type.
#![tactic(auto)]

mod actors;

pub use actors::AnyActor;

//! Conditions on cells: what they say, how they are written and read, and which rows match.
#![tactic(auto)]

mod binding;
mod bytes;
mod codec;
mod cond;
mod cond_reading;
mod cond_writing;
mod faults;
mod field_reading;
mod fields;
mod literals;
mod machine;
mod matching;
mod naming;
mod node_reading;
mod nodes;
mod parse;
mod query;
mod tags;
mod tokens;
mod tree_reading;

pub use cond::Cond;
pub use faults::CondFault;
pub use fields::{CondField, CondFieldList, Pick, PickList};
pub use nodes::{CondNode, CondOp, NodeList};
pub use query::{NamedBox, NamedBoxList, Query};

//! Fields and envelopes: how the objects of an array spell numbers, labels, keys and values as
//! bytes, and how they are read back with the place of the first broken field.
#![tactic(auto)]

mod cursor;
mod envelopes;
mod faults;
mod kinds;
mod rules;
mod scribe;
mod spelling;

pub use cursor::Cursor;
pub use envelopes::{unwrap_body, wrap};
pub use faults::{Damaged, ReadFault, kept};
pub use kinds::Kind;
pub use scribe::Scribe;

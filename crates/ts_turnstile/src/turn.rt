//! What was done in a turn.
use ts_store::{Call, Fate, Reply};

/// A call that a lane made in its turn, and what came of it.
///
/// A call for which there was no memory has its turn too, and no entry in the journal.
#[derive(Drop)]
pub struct Turn {
    /// The lane that made it.
    pub lane: u32,
    /// The number that the pass had then: that of the command whose call it is.
    pub number: u32,
    /// The call.
    pub call: Call,
    /// What it did.
    pub fate: Fate,
    /// What it was answered.
    pub reply: Reply,
}

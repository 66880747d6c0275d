//! Gates, to which lanes come before their commands.

/// Where a lane comes before each of its commands. A gate may hold it up; nothing is claimed of that.
pub trait Gate: Sync {
    /// The lane comes to its command with this number, counted from 1.
    fn at(&self, lane: u32, number: u32);
}

/// A gate that stands open.
pub struct OpenGate;

impl Gate for OpenGate {
    fn at(&self, _lane: u32, _number: u32) {}
}

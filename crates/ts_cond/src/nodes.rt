//! The trees of conditions.

use std::alloc::Global;
use ts_base::{Boxed, Duplicate, OutOfMemory, Row, Sequence, Val};

/// How a field's value is compared with the value of a test.
#[derive(Clone, Copy, Debug, PartialEq, Eq)]
pub enum CondOp {
    /// The field's value is less.
    Less,
    /// It is less or equal.
    AtMost,
    /// It is greater.
    Greater,
    /// It is greater or equal.
    AtLeast,
    /// It is equal.
    Equal,
    /// It is another one.
    Unequal,
}

/// A node of a condition's tree. A field is named by its place in the condition's list of fields.
///
/// A tree that was read from a text or an object is at most 67 nodes high. What goes over a tree by
/// calling itself on the nodes in a node nests no deeper.
#[derive(Debug, Drop, PartialEq, Eq)]
pub enum CondNode {
    /// Each of these holds.
    All(NodeList),
    /// One of these holds, or more.
    Any(NodeList),
    /// This does not hold.
    Not(Boxed<CondNode>),
    /// The field's value is not null, and compares so with this value.
    Compare {
        /// How it compares.
        op: CondOp,
        /// The field's place.
        field: u8,
        /// The value that it is compared with.
        val: Val,
    },
    /// The field's value is not null, and is one of these values.
    Member {
        /// Whether it is to be none of them instead.
        negated: bool,
        /// The field's place.
        field: u8,
        /// The values.
        vals: Row,
    },
    /// The field's value is null.
    IsNull {
        /// The field's place.
        field: u8,
    },
}

/// A list of nodes.
pub type NodeList = Sequence<CondNode>;

//! What is wrong with a condition's text.
use ts_base::Label;

/// Why a text is no condition over the fields of an array.
///
/// Syntax, TooDeep and TooLarge come first, whichever the reading meets first; at one token in this
/// order. Only a text without them has the faults of its tests, in the order of the tests.
#[derive(Clone, Copy, Debug, PartialEq, Eq)]
pub enum CondFault {
    /// The text is not in the grammar.
    Syntax {
        /// The offset, in bytes, of the first token that cannot stand there, of the first byte that
        /// begins no token, of the opening quote of a text that does not end or is not in UTF-8, or
        /// of the text's end.
        at: u64,
    },
    /// No field has this name.
    UnknownField(Label),
    /// A value is of another kind than the field with this name.
    TypeClash(Label),
    /// More than 32 parentheses and `not` of facts are open at one place. The parentheses of a list of
    /// values, and the `not` of `not in`, do not count.
    TooDeep,
    /// There are more than 1,024 nodes.
    TooLarge,
    /// There was no memory for the condition.
    OutOfMemory,
}

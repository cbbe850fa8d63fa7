//! Why a rule of the text fails at a place.

/// What stands at the place where a rule of the text fails.
#[derive(Clone, Copy, Debug)]
pub enum TextCause {
    /// A byte that is not allowed.
    Byte(u8),
    /// A number that is allowed nowhere.
    NumberTooLarge,
    /// The number after the largest one, not directly after a unary minus.
    NumberNotNegative,
    /// An opening bracket, where as many brackets are open as may be.
    BracketTooMany,
    /// An operator, where the statement has as many as it may have.
    OperatorTooMany,
    /// A comment without an end.
    CommentUnclosed,
}

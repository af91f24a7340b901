//! The faults of a text that is no resource's text.

use thiserror::Error;

/// The fault of a text that is no resource's text.
///
/// An empty text is `Empty`. A text with `LEVELS` or more `/` is `TooDeep`. Any other text is split at the `/`, and its
/// leftmost faulty piece gives the fault, by the first of the tests below that it fails. A fault prints as its name.
/// The rule is this project's own choice.
#[derive(Clone, Copy, Debug, PartialEq, Eq, Error)]
pub enum PathFault {
    /// The text, or a piece of it, is empty.
    #[error("Empty")]
    Empty = 1,
    /// The text has `LEVELS` or more `/`, whatever is between them.
    #[error("TooDeep")]
    TooDeep = 2,
    /// A piece has a byte other than `0` to `9`: a sign, a space, a letter.
    #[error("NotANumber")]
    NotANumber = 3,
    /// A piece is a number above 4294967295, with or without leading zeros.
    #[error("TooLarge")]
    TooLarge = 4,
    /// A piece has two or more digits, and the first is `0`.
    #[error("LeadingZero")]
    LeadingZero = 5,
}

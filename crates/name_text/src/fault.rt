//! Why a text is no name.

use thiserror::Error;

/// Why a text is no name.
#[derive(Clone, Copy, Debug, Drop, Error, PartialEq, Eq)]
pub enum NameFault {
    /// A label has no octet.
    #[error("empty label")]
    EmptyLabel,
    /// A label has an octet other than a letter, a digit, `-` or `_`.
    #[error("bad octet in a label")]
    BadByte,
    /// A label has more than 63 octets.
    #[error("label of more than 63 octets")]
    LongLabel,
    /// The name has more than 255 octets on the wire.
    #[error("name of more than 255 octets")]
    LongName,
}

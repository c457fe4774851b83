//! How a reply goes out.

/// How a reply goes out.
#[derive(Clone, Copy, Debug, PartialEq, Eq)]
pub enum Way {
    /// In one datagram (RFC 1035 section 4.2.1).
    Datagram,
    /// Over a stream (RFC 1035 section 4.2.2).
    Stream,
}

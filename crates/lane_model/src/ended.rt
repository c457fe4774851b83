//! How a call of a lane ended.

/// How a lane ended.
#[derive(Clone, Copy, Debug, PartialEq, Eq)]
pub enum Ended {
    /// The gate answered Stop.
    Stopped,
    /// The port answered End.
    PortEnd,
    /// Eight calls of the port failed in this call.
    PortFault,
    /// A look for the map that was to answer a datagram was refused, and the datagram has no try; or the closing look was.
    CellFault,
    /// The closing look, behind all others, was at a map past the newest one.
    Above {
        /// The greatest serial that the worker knows.
        known: u64,
        /// The newest serial that was published.
        newest: u64,
    },
    /// As many recv answers came as there were turns, and none of the others happened.
    Spent,
}

//! Calls of the C library about sockets for which std has no name: sockets that come beside another one (`shared_ports`),
//! and ones that were handed in by who started the process (`handed_sockets`).
//!
//! Proved is that these calls are made as the C library wants them. That the system does what they ask for has to be trusted.
#![tactic(auto)]

mod handed_sockets;
mod shared_ports;

pub use handed_sockets::{MOST_HANDED, Unfit, handed_in, take_tcp, take_udp};
pub use shared_ports::{bind_beside, grow_receive_buffer, send_at_once};

//! What a drive is lent beside its lane for conversations.

use crate::lane::Lane;
use map_cell::Door;
use outside::{Gate, Port};

/// What a drive is lent: its feed, the further feeds that are read beside it, both outputs, its lanes for datagrams, and the
/// pace that is told of commits. Each feed and each lane take at most so many turns.
#[derive(Drop)]
pub struct Lent<'f, 'n, 'o, 'm, 'l, 'p, S, N, K, P: Port, G: Gate, D: Door, M> {
    pub feed: &'f mut S,
    pub more: &'n mut [N],
    pub out: &'o mut K,
    pub maps: &'m mut K,
    pub lanes: &'l mut [Lane<P, G, D>],
    pub pace: &'p mut M,
    pub turns: u64,
}

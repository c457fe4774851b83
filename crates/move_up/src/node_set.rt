//! Sets of nodes.

use map_model::{MOST_NODES, NodeId};

/// How many words hold a bit for each node.
const WORDS: usize = MOST_NODES / 64;

/// A set of nodes, with a bit for each.
#[derive(Clone, Copy, Debug)]
pub struct NodeSet {
    words: [u64; WORDS],
}

impl NodeSet {
    /// No node.
    pub fn new() -> NodeSet {
        NodeSet { words: [0; WORDS] }
    }

    /// Adds a node.
    pub fn insert(&mut self, node: NodeId) {
        if let Some(word) = self.words.get_mut(node.0 as usize / 64) {
            *word |= 1 << (node.0 % 64);
        }
    }

    /// Takes a node out.
    pub fn remove(&mut self, node: NodeId) {
        if let Some(word) = self.words.get_mut(node.0 as usize / 64) {
            *word &= !(1 << (node.0 % 64));
        }
    }

    /// Whether a node is one of them.
    pub fn contains(&self, node: NodeId) -> bool {
        match self.words.get(node.0 as usize / 64) {
            Some(word) => (*word >> (node.0 % 64)) & 1 == 1,
            None => false,
        }
    }

    /// The node of the lowest number.
    pub fn first(&self) -> Option<NodeId> {
        for (at, word) in self.words.iter().enumerate() {
            if *word != 0 {
                return Some(NodeId(at as u32 * 64 + word.trailing_zeros()));
            }
        }
        None
    }
}

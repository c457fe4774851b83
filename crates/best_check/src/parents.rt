//! Tables by node that are filled in the order of numbers, in which parents come first.

ghost use Rattle.std.specs.Prelude.{◌≡◌, ◌<◌, None, length, MatchOption, slice_index_or};
ghost use Rattle.map_model.specs.Market.{parent_of};

use map_model::{Instance, NodeId};

/// What a table says of the node above a node; nothing, if there is none.
pub fn entry_above<T: Copy>(instance: &Instance, entries: &[Option<T>], node: NodeId) -> Option<T>
    requires node { node.0 < length instance.now.nodes }
    requires above { length entries.now ≡ node.0 }
    ensures { MatchOption (parent_of instance.now node.0) (result ≡ None) (λ p. (p.0 < node.0)
        × (result ≡ slice_index_or entries.now p.0 None)) }
{
    // Tells the prover that parents have lower numbers.
    let _count = instance.nodes();
    let parent = instance.parent(node)?;
    entries[parent.0 as usize]
}

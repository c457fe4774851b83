//! Trees that are marked at their roots, and those of them that are still to be looked at.

ghost use Rattle.std.specs.Prelude.{◌≡◌, ◌<◌, ◌++◌, true, false, [], ◌∷◌, length, replicate, slice_set, IfOk, MatchOption, OnOk};
ghost use Rattle.map_repair.specs.Marks.{IsMarking, is_on};

use map_model::NodeId;
use no_memory::NoMemory;
use std::alloc::Global;
use std::marker::Model;

/// A mark for each node, and the marked roots that are still to be looked at.
#[derive(Debug, Drop)]
pub struct Marks {
    on: Vec<bool>,
    pending: Vec<NodeId>,
}

impl Model for Marks {
    ghost use Rattle.std.specs.Prelude.{◌≡◌, ◌<◌, true, All, length};
    ghost use Rattle.map_repair.specs.Marks.{Marking, is_on};

    ghost Value = { Marking };

    ghost view = { λ m. record { on = m.on.items; pending = m.pending.items } };

    ghost invariant = { λ m. All (λ n. (n.0 < length m.on.items) × (is_on m.on.items n.0 ≡ true))
        m.pending.items };
}

impl Marks {
    /// No node of so many is marked.
    pub fn none(alloc: Global, count: u32) -> Result<Marks, NoMemory>
        ensures { IfOk result (λ made. made ≡ record { on = replicate count false; pending = [] }) }
    {
        Ok(Marks {
            on: vec![in alloc; false; count as usize]?,
            pending: Vec::new(alloc),
        })
    }

    /// Marks a root, which is then still to be looked at, unless it is marked.
    pub fn mark(&mut self, root: NodeId) -> Result<(), NoMemory>
        requires { root.0 < length self.old.on }
        ensures on { OnOk result (self.new.on ≡ slice_set self.old.on root.0 true) }
        ensures marking { OnOk result (IsMarking self.old self.new) }
    {
        let at = root.0 as usize;
        if self.on[at] {
            return Ok(());
        }
        self.pending.push(root)?;
        self.on[at] = true;
        Ok(())
    }

    /// Whether a node is marked.
    pub fn is_on(&self, node: NodeId) -> bool
        requires { node.0 < length self.now.on }
        ensures { result ≡ is_on self.now.on node.0 }
    {
        self.on[node.0 as usize]
    }

    /// A marked root that is still to be looked at, and is so no longer; none exactly where there is none.
    pub fn next(&mut self) -> Option<NodeId>
        ensures on { self.new.on ≡ self.old.on }
        ensures pending { MatchOption result (self.old.pending
            ≡ []) (λ root. (root.0 < length self.old.on) × (is_on self.old.on root.0 ≡ true)
            × (self.old.pending ≡ self.new.pending ++ root ∷ [])) }
    {
        self.pending.pop()
    }

    /// The marks, by node.
    pub fn into_marks(self) -> Vec<bool>
        ensures { result.items ≡ self.on }
    {
        self.on
    }
}

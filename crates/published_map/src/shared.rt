//! What all versions of one topology share.
ghost use Rattle.std.specs.Prelude.{◌≡◌, IfOk};
ghost use Rattle.std.specs.Arc.{arc_value};
ghost use Rattle.published_map.specs.Shared.{LooksUp, plan_of};

use no_memory::NoMemory;
use prefix_lookup::Lookup;
use std::alloc::Global;
use std::sync::Arc;
use topology_text::Topology;

/// What all versions of one topology share.
#[derive(Drop)]
pub struct Shared {
    /// The topology.
    pub topology: Arc<Topology>,
    /// The lookup; in a version it is that of the topology's prefixes.
    pub lookup: Lookup,
}

impl Shared {
    /// A topology with the lookup of its prefixes.
    ///
    /// # Errors
    ///
    /// `NoMemory`.
    pub fn build(alloc: Global, topology: Topology) -> Result<Arc<Shared>, NoMemory>
        ensures plan { IfOk result (λ s. plan_of (arc_value s) ≡ topology) }
        ensures lookup { IfOk result (λ s. LooksUp (arc_value s)) }
    {
        let lookup = Lookup::build(alloc, topology.prefixes())?;
        let topology = Arc::new(alloc, topology)?;
        Ok(Arc::new(alloc, Shared { topology, lookup })?)
    }
}

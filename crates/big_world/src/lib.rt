//! Worlds of any size up to 16,384 groups, with a feed of changes: a topology and a feed as texts, drawn from numbers that follow from the size alone.
#![tactic(auto)]

ghost use Rattle.std.specs.Prelude.{◌≡◌, ◌≤◌, IfOk};
ghost use Rattle.big_world.specs.Feed.{feed_of};
ghost use Rattle.big_world.specs.Topology.{topology_of};
ghost use Rattle.big_world.specs.declared.TheConstants.{LARGEST_WORLD};

mod draws;
mod feed;
mod groups;
mod nodes;

use draws::Pen;
use feed::push_feed;
use groups::push_groups;
use no_memory::NoMemory;
use nodes::push_nodes;
use std::alloc::Global;

/// The most groups of a world.
pub const LARGEST_WORLD: u32 = 16384;

/// The zone of every world.
pub const ZONE: &[u8] = b"[zone]
apex = \"cdn.example\"
expire = 86400
minimum = 60
mname = \"ns1.ops.example\"
ns = [\"ns1.ops.example\", \"ns2.ops.example\"]
refresh = 3600
retry = 600
rname = \"admin.ops.example\"
serial = 1
services = [\"www\"]
ttl = 20
";

/// The topology of a world of so many groups, and a feed of sixteen batches that changes it.
///
/// # Errors
///
/// `NoMemory`.
pub fn make(alloc: Global, groups: u32) -> Result<(Vec<u8>, Vec<u8>), NoMemory>
    requires some { 1 ≤ groups }
    requires most { groups ≤ LARGEST_WORLD }
    ensures topology { IfOk result (λ texts. texts.0.items ≡ topology_of groups) }
    ensures feed { IfOk result (λ texts. texts.1.items ≡ feed_of groups) }
{
    let mut nodes = Pen::new(alloc, u64::from(groups));
    push_nodes(alloc, &mut nodes, groups)?;
    let mut topology = Pen::new(alloc, nodes.draws.last);
    push_groups(alloc, &mut topology, groups)?;
    topology.text.extend_from_slice(nodes.text.as_slice())?;
    topology.text.extend_from_slice(ZONE)?;
    let mut feed = Pen::new(alloc, topology.draws.last);
    push_feed(alloc, &mut feed, groups)?;
    Ok((topology.text, feed.text))
}

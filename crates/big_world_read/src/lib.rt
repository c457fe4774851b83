//! What the topology and the feed of a big world say: that the topology is read without fault, and that the feed is
//! sixteen batches of good lines. Nothing runs here.
#![tactic(auto)]

ghost use Rattle.std.specs.Prelude.{◌≤◌};
ghost use Rattle.big_world.specs.declared.TheConstants.{LARGEST_WORLD};
ghost use Rattle.big_world_read.specs.Read.{IsWorld};

/// The two texts of a world of so many groups say what `specs/Read` tells.
pub fn world_is_read(groups: u32)
    requires some { 1 ≤ groups }
    requires most { groups ≤ LARGEST_WORLD }
    ensures { IsWorld groups }
{
    let _ = groups;
}

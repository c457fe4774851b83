//! What is to be added to the history of a cell.
ghost use Rattle.std.specs.Prelude.{◌≡◌};
ghost use Rattle.map_cell.specs.Additions.{added};
ghost use Rattle.published_map.specs.Changes.{after};

use published_map::{Delta, MapVersion};
use std::snapshot::Snapshot;

/// What is to be added to the history: a version, or the one that follows it by a delta. It has no bytes but a flag.
#[derive(Drop)]
pub(crate) struct Addition {
    version: Snapshot<MapVersion>,
    delta: Snapshot<Delta>,
    follows: bool,
}

impl Addition {
    pub fn first(version: &MapVersion, delta: &Delta) -> Addition
        ensures { added result ≡ version.now }
    {
        Addition {
            version: Snapshot::of(version),
            delta: Snapshot::of(delta),
            follows: false,
        }
    }

    pub fn next(version: &MapVersion, delta: &Delta) -> Addition
        ensures { added result ≡ after version.now delta.now }
    {
        Addition {
            version: Snapshot::of(version),
            delta: Snapshot::of(delta),
            follows: true,
        }
    }
}

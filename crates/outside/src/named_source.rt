//! Sources that are opened by a name.
ghost use Rattle.std.specs.Prelude.{◌≡◌, ◌≢◌, ◌≤◌};
ghost use Rattle.outside.specs.Faults.{BothTell, Rose};
ghost use Rattle.outside.specs.NamedSource.{IsNamed};

use crate::{Opening, Source};

/// A source that is opened by a name. What it tells as a source has the names under which it was opened, in order.
pub trait NamedSource: Source {
    /// Opens it under that name.
    fn open(&mut self, name: &str) -> Opening
        ensures open { BothTell
            (Self.told self.old).past (Self.told self.new).past (IsNamed name.now result) }
        ensures later { (Self.told self.old).faults ≤ (Self.told self.new).faults }
        ensures cause { result ≡ Opening.Failed
            → Rose (Self.told self.old).faults (Self.told self.new).faults }
        ensures stays { result ≢ Opening.Failed
            → (Self.told self.new).faults ≡ (Self.told self.old).faults };
}

//! What offers give up in a put.

ghost use Rattle.std.specs.Prelude.{◌≡◌, ◌++◌, [], ◌∷◌, OnOk};

use map_model::{Offer, Units};
use no_memory::NoMemory;
use std::alloc::Global;
use std::marker::Model;

/// Units that an offer gave up.
#[derive(Clone, Copy, Debug, PartialEq, Eq)]
pub struct Eviction {
    pub offer: Offer,
    pub units: Units,
}

/// What the offers gave up in one put, in the order in which they did.
#[derive(Debug, Drop)]
pub struct Freed {
    evictions: Vec<Eviction>,
}

impl Model for Freed {
    ghost use Rattle.std.specs.Prelude.{List};
    ghost use Rattle.evict.specs.declared.freed.Eviction.{Eviction};

    ghost Value = { List Eviction };

    ghost view = { λ f. f.evictions.items };
}

impl Freed {
    /// Nothing was given up.
    pub fn new(alloc: Global) -> Freed
        ensures { result ≡ [] }
    {
        Freed {
            evictions: Vec::new(alloc),
        }
    }

    /// What was given up.
    pub fn evictions(&self) -> &[Eviction]
        ensures { result.now ≡ self.now }
    {
        self.evictions.as_slice()
    }

    /// Forgets what was given up.
    pub fn clear(&mut self)
        ensures { self.new ≡ [] }
    {
        self.evictions.clear();
    }

    pub(crate) fn push(&mut self, offer: Offer, units: Units) -> Result<(), NoMemory>
        ensures { OnOk result (self.new ≡ self.old ++ record { offer = offer; units = units }
            ∷ []) }
    {
        self.evictions.push(Eviction { offer, units })?;
        Ok(())
    }
}

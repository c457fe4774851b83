//! The order of offers, and the next place of a list.

ghost use Rattle.std.specs.Prelude.{◌≡◌, ◌+◌, IfOk, IsTrue, IsFalse, Some, None, length, nat_lt, if◌then◌else◌};
ghost use Rattle.map_model.specs.Market.{Market, choices_of};
ghost use Rattle.map_model.specs.Allocation.{IsOffer};
ghost use Rattle.map_model.specs.declared.instance.Offer.{Offer};
ghost use Rattle.rank_orders.specs.Ranks.{is_better};

use map_model::{Instance, Offer};
use no_memory::NoMemory;
use std::alloc::Global;
use std::marker::Model;

/// The order of the offers of an instance. It rests on the groups' lists, so it is also that of
/// each instance that differs in demands and capacities alone.
#[derive(Debug, Drop)]
pub struct Orders {
    instance: Instance,
}

impl Model for Orders {
    ghost use Rattle.map_model.specs.Market.{Market};

    ghost Value = { Market };

    ghost view = { λ o. o.instance };
}

impl Orders {
    /// The order of an instance's offers. The copy that it keeps is in the instance's own memory.
    ///
    /// # Errors
    ///
    /// `NoMemory`.
    pub fn build(_alloc: Global, instance: &Instance) -> Result<Orders, NoMemory>
        ensures { IfOk result (λ orders. orders ≡ instance.now) }
    {
        Ok(Orders {
            instance: instance.try_clone()?,
        })
    }

    /// Whether offer a is ranked higher than offer b: its key is less. Of two offers one is better.
    pub fn better(&self, a: Offer, b: Offer) -> bool
        requires a { IsOffer self.now a.group.0 a.place }
        requires b { IsOffer self.now b.group.0 b.place }
        ensures value { result ≡ is_better self.now a b }
        ensures strict { IsTrue result → IsFalse (is_better self.now b a) }
        ensures total { ¬ (a ≡ b) → IsFalse result → IsTrue (is_better self.now b a) }
        ensures transitive { (c : Offer) → IsTrue result → IsTrue (is_better self.now b c)
            → IsTrue (is_better self.now a c) }
    {
        // tells the prover what the type keeps
        let _groups = self.instance.groups();
        self.instance.key(a) < self.instance.key(b)
    }

    /// The offer of the same group at the following place, unless the list ends.
    pub fn next_place(&self, offer: Offer) -> Option<Offer>
        requires { IsOffer self.now offer.group.0 offer.place }
        ensures { result ≡ (if nat_lt (offer.place + 1) (length (choices_of self.now offer.group.0))
            then Some (record offer { place = offer.place + 1 }) else None) }
    {
        let places = self.instance.list_len(offer.group);
        if offer.place + 1 < places {
            Some(Offer {
                place: offer.place + 1,
                ..offer
            })
        } else {
            None
        }
    }
}

//! Offers with their keys.

ghost use Rattle.std.specs.Prelude.{◌≡◌, ◌⊎◌, true, Some, IfSome};
ghost use Rattle.map_model.specs.Allocation.{key_le};

use map_model::{Key, Offer};

/// An offer with its key, so that ranks are compared without looking up what the offer is.
#[derive(Clone, Copy)]
pub struct Ranked {
    pub offer: Offer,
    pub key: Key,
}

/// The better ranked of an offer and another one, if there is another.
pub fn better(other: Option<Ranked>, ranked: Ranked) -> Ranked
    ensures either { (result ≡ ranked) ⊎ (other ≡ Some result) }
    ensures best { key_le result.key ranked.key ≡ true }
    ensures of_both { IfSome other (λ o. key_le result.key o.key ≡ true) }
{
    match other {
        Some(other) if other.key < ranked.key => other,
        _ => ranked,
    }
}

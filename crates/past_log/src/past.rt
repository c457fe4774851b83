//! What a real thing was asked, and what it answered. It exists only in proofs: it has no bytes, and its methods do
//! nothing.
ghost use Rattle.std.specs.Prelude.{◌≡◌};
ghost use Rattle.std.specs.Borrow.{ftrue};

use std::marker::{Model, PhantomData};

/// What things of a kind tell. Clauses alone read it, and no value of it is made.
pub trait Telling {
    /// What one tells that was asked nothing.
    ghost first: { Self };
}

/// A call of things that tell that, with its answer.
pub trait EventOf<T> {
    /// What one tells behind the call.
    ghost noted: { Self → T → T };
}

/// All calls so far of a thing that tells that. Only clauses read it.
#[derive(Drop)]
pub struct Past<T> {
    marker: PhantomData<T>,
    pub ghost told: { T },
}

impl<T> Model for Past<T> {
    ghost also_owns = { λ _. ftrue };
}

// It owns nothing.
unsafe impl<T> Send for Past<T> {}

impl<T: Telling> Past<T> {
    /// No call so far.
    pub fn new() -> Past<T>
        ensures { result.told ≡ T.first }
    {
        Past {
            marker: PhantomData,
        }
    }
}

impl<T> Past<T> {
    /// One call more.
    #[inline(always)]
    pub fn note<E: EventOf<T>>(&mut self, _event: &E)
        ensures { self.new.told ≡ E.noted _event.now self.old.told }
    {}
}

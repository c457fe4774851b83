//! Who is told how far a feed has come.
ghost use Rattle.std.specs.Prelude.{◌≤◌, List, [], ◌∷◌};
ghost use Rattle.outside.specs.Faults.{DeviceState};
ghost use Rattle.outside.specs.Pace.{IsPaced};

/// A call of a pace, with the newest serial at that time.
#[derive(Clone, Copy, Debug, PartialEq, Eq)]
pub enum PaceCall {
    /// A commit line comes next.
    Before(u64),
    /// The feed has ended.
    Done(u64),
}

/// Who is told how far the feed has come, and may hold it.
pub trait Pace {
    ghost use Rattle.outside.specs.declared.pace.PaceCall.{PaceCall};

    /// The calls so far, where it tells them, and how often it could not note a call.
    ghost told: { Self → DeviceState (List PaceCall) };

    /// A commit line comes next.
    fn before(&mut self, newest: u64)
        ensures paced { IsPaced (PaceCall.Before newest
            ∷ []) (told self.old).past (told self.new).past }
        ensures later { (told self.old).faults ≤ (told self.new).faults };

    /// The feed has ended.
    fn done(&mut self, newest: u64)
        ensures paced { IsPaced (PaceCall.Done newest
            ∷ []) (told self.old).past (told self.new).past }
        ensures later { (told self.old).faults ≤ (told self.new).faults };
}

//! Who says whether a lane goes on.
ghost use Rattle.std.specs.Prelude.{◌≡◌, ◌≤◌};
ghost use Rattle.outside.specs.Faults.{BothTell, DeviceState};
ghost use Rattle.outside.specs.Gate.{GateTold, IsTurning};

/// Whether a lane goes on.
#[derive(Clone, Copy, Debug, PartialEq, Eq)]
pub enum Turning {
    /// It takes one datagram more.
    Go,
    /// It ends.
    Stop,
}

/// What a lane asks before each datagram.
pub trait Gate {
    /// Its turns so far, where it tells them, and how often it could not note a turn.
    ghost told: { Self → DeviceState GateTold };

    /// Whether the lane goes on. `known` is the greatest serial that it knows.
    fn turn(&mut self, known: u64) -> Turning
        ensures turn { BothTell (told self.old).past (told self.new).past (IsTurning known result) }
        ensures later { (told self.old).faults ≤ (told self.new).faults }
        ensures stays { result ≡ Turning.Go → (told self.new).faults ≡ (told self.old).faults };
}

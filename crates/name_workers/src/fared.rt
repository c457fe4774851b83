//! What becomes of a message, and how the lane goes on.
ghost use Rattle.std.specs.Prelude.{◌≡◌};
ghost use Rattle.name_workers.specs.Messages.{step_of_fared};

use crate::ending::Step;

/// What became of a message.
#[derive(Clone, Copy)]
pub enum Fared {
    /// It has no reply.
    Silent,
    /// The look for it was refused.
    Refused,
    /// Its reply went.
    Sent,
    /// Its reply did not go.
    Failed,
}

/// How a lane goes on behind a message.
pub fn step_after(fared: Fared) -> Step
    ensures { result ≡ step_of_fared fared }
{
    match fared {
        Fared::Silent => Step::On,
        Fared::Sent => Step::On,
        Fared::Failed => Step::PortFailed,
        Fared::Refused => Step::Refused,
    }
}

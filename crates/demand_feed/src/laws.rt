//! Laws of runs over feeds.
ghost use Rattle.demand_feed.specs.Octets.{TasksAreOfOctets, RunsAgree};

/// Runs over feeds of the same octets that ended, at a `stop` or at the feed's end, came to the same tasks, however the octets
/// were cut into pieces. What such a run came to is what all octets of its feed come to.
pub fn runs_agree()
    ensures octets { TasksAreOfOctets }
    ensures agree { RunsAgree }
{}

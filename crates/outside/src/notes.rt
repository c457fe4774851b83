//! Notes that name maps, for those who look at them.
ghost use Rattle.std.specs.Prelude.{◌≡◌, ◌<◌, ◌≤◌, ℕ, Option, IfSome, IfNone, option_map};
ghost use Rattle.outside.specs.Faults.{BothTell};
ghost use Rattle.outside.specs.Notes.{NotesTold, IsNextNote};
ghost use Rattle.outside.specs.declared.limits.TheConstants.{MOST_NOTES};

/// What has a number: a note has the serial of the map that it names.
pub trait Numbered {
    /// Its number.
    ghost number: { Self → ℕ };

    fn as_number(&self) -> u64
        ensures { result ≡ number self.now };
}

/// Notes of one kind that a worker is given, one after another; each names a map. They end, so that it can read all that
/// are there.
pub trait Notes<T: Numbered> {
    /// Those that were given, each behind so many answers that were `None`, and how many were, where they tell that.
    ghost told: { Self → Option NotesTold };

    /// How many may still come.
    ghost left: { Self → ℕ };

    /// The next note, if one is there now.
    fn next(&mut self) -> Option<T>
        ensures next { BothTell
            (told self.old) (told self.new) (IsNextNote (option_map T.number result)) }
        ensures few { left self.old ≤ MOST_NOTES }
        ensures some { IfSome result (λ _. left self.new < left self.old) }
        ensures none { IfNone result (left self.new ≡ left self.old) };
}

//! How a run of the program ends, as a number.
ghost use Rattle.std.specs.Prelude.{◌≡◌};
ghost use Rattle.glb.specs.Outcome.{code_of};

/// How a run of the program ended.
#[derive(Clone, Copy, Debug, PartialEq, Eq)]
pub enum Status {
    /// All was read and done.
    Ok = 0,
    /// The words are not taken. The output got the usage line.
    Usage = 1,
    /// A file is too long or at fault. The output got its text.
    Refused = 2,
    /// A file could not be loaded, or a feed not be opened or read.
    SourceFault = 3,
    /// An output failed, and holds a beginning of what was due.
    SinkFault = 4,
    /// A port did not open, or eight calls of one failed.
    PortFault = 5,
    /// A lane or a feed took all its turns.
    Spent = 6,
    /// The map is not good. The output got the verdict.
    NotGood = 7,
    /// There was no memory.
    NoMemory = 8,
    /// A way into the map cell was refused, or showed a map that was not published.
    CellFault = 9,
}

impl Status {
    /// The number that the process ends with.
    pub fn code(self) -> u8
        ensures { result ≡ code_of self }
    {
        self as u8
    }
}

//! Why a line of a feed is refused.
ghost use Rattle.std.specs.Prelude.{◌≡◌, ◌≤◌, Some, length};
ghost use Rattle.demand_feed.specs.Texts.{batch_words, line_words, refusal_words};

use std::error::Error;
use std::fmt;

/// The first fault of a feed's line, in this order.
#[derive(Clone, Copy, Debug, PartialEq, Eq)]
pub enum LineFault {
    /// It has more than 8,300 octets.
    TooLong,
    /// An octet is no visible one of ASCII, nor a space.
    BadByte,
    /// There is no word, or the first one is none of a feed.
    UnknownWord,
    /// There are too many words, or too few.
    WrongCount,
    /// A number does not have 1 to 19 decimal digits alone.
    BadNumber,
    /// An address is none.
    BadAddress,
    /// The digits are of an odd number, or one is no hexadecimal digit.
    BadHex,
}

impl LineFault {
    /// The words that say it, at most 12 octets.
    pub fn words(self) -> &'static str
        ensures words { result.now ≡ line_words self }
        ensures short { length result.now ≤ 12 }
    {
        match self {
            LineFault::TooLong => "too long",
            LineFault::BadByte => "bad byte",
            LineFault::UnknownWord => "unknown word",
            LineFault::WrongCount => "wrong count",
            LineFault::BadNumber => "bad number",
            LineFault::BadAddress => "bad address",
            LineFault::BadHex => "bad hex",
        }
    }
}

impl fmt::Display for LineFault {
    ghost use Rattle.demand_feed.specs.Texts.{line_words};

    ghost output = { λ fault. Some (line_words fault) };

    fn fmt<W: fmt::Write>(&self, f: &mut fmt::Formatter<W>) -> fmt::Result {
        f.write_str(self.words())
    }
}

impl Error for LineFault {}

/// Why a batch does not take a change, in this order. The batch is as before.
#[derive(Clone, Copy, Debug, PartialEq, Eq)]
pub enum BatchFault {
    /// There is no group or node of that name.
    UnknownName,
    /// The number is not in its range.
    Range,
    /// The batch has 4,096 changes.
    Full,
}

impl BatchFault {
    /// The words that say it, at most 12 octets.
    pub fn words(self) -> &'static str
        ensures words { result.now ≡ batch_words self }
        ensures short { length result.now ≤ 12 }
    {
        match self {
            BatchFault::UnknownName => "unknown name",
            BatchFault::Range => "out of range",
            BatchFault::Full => "batch full",
        }
    }
}

impl fmt::Display for BatchFault {
    ghost use Rattle.demand_feed.specs.Texts.{batch_words};

    ghost output = { λ fault. Some (batch_words fault) };

    fn fmt<W: fmt::Write>(&self, f: &mut fmt::Formatter<W>) -> fmt::Result {
        f.write_str(self.words())
    }
}

impl Error for BatchFault {}

/// Why a line is refused.
#[derive(Clone, Copy, Debug, PartialEq, Eq)]
pub enum Refusal {
    /// It is no line of a feed.
    Line(LineFault),
    /// The batch does not take its change.
    Batch(BatchFault),
}

impl Refusal {
    /// The words that say it, at most 12 octets.
    pub fn words(self) -> &'static str
        ensures words { result.now ≡ refusal_words self }
        ensures short { length result.now ≤ 12 }
    {
        match self {
            Refusal::Line(fault) => fault.words(),
            Refusal::Batch(fault) => fault.words(),
        }
    }
}

impl fmt::Display for Refusal {
    ghost use Rattle.demand_feed.specs.Texts.{refusal_words};

    ghost output = { λ why. Some (refusal_words why) };

    fn fmt<W: fmt::Write>(&self, f: &mut fmt::Formatter<W>) -> fmt::Result {
        f.write_str(self.words())
    }
}

impl Error for Refusal {}

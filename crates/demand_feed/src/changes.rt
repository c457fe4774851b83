//! The changes of a file, one a line.
ghost use Rattle.std.specs.Prelude.{◌≡◌, ◌≤◌, ◌<◌, ◌^◌, Ok, Err, [], length, IfOk, MatchResult};
ghost use Rattle.map_model.specs.Batch.{IsBatch};
ghost use Rattle.text_parts.specs.Parts.{parts};
ghost use Rattle.demand_feed.specs.Changes.{change_by, change_line_of, changes_behind, changes_of, with_said};
ghost use Rattle.demand_feed.specs.Line.{words_of};
ghost use Rattle.demand_feed.specs.SaidBy.{said_by};
ghost use Rattle.demand_feed.specs.Changing.{IsChangeLine};
ghost use Rattle.demand_feed.specs.Saying.{FileSays};

use crate::limits::LONGEST_LINE;
use crate::line::{are_visible, capacity_line, demand_line};
use crate::words::next_word;
use crate::{Batch, Line, LineFault, Refusal};
use no_memory::NoMemory;
use std::alloc::Global;
use std::error::Error;
use std::fmt;
use text_parts::cut;
use topology_text::Topology;

/// The first fault of a changes file, or want of memory.
#[derive(Clone, Copy, Debug, PartialEq, Eq)]
pub enum ChangesFault {
    /// The line of that number, from 1, is refused.
    Refused(u64, Refusal),
    /// There was no memory for the changes. This says nothing of the file.
    NoMemory,
}

impl From<NoMemory> for ChangesFault {
    ghost use Rattle.std.specs.Prelude.{◌≡◌};
    ghost use Rattle.demand_feed.specs.declared.changes.ChangesFault.TheVariants as fault;

    ghost from_gives = { λ _ f. f ≡ fault.NoMemory };

    fn from(_: NoMemory) -> ChangesFault {
        ChangesFault::NoMemory
    }
}

impl fmt::Display for ChangesFault {
    ghost use Rattle.std.specs.Prelude.{Some};
    ghost use Rattle.demand_feed.specs.ChangesTexts.{changes_words};

    ghost output = { λ fault. Some (changes_words fault) };

    fn fmt<W: fmt::Write>(&self, f: &mut fmt::Formatter<W>) -> fmt::Result {
        match self {
            ChangesFault::Refused(line, why) => write!(f, "{why} at line {line}"),
            ChangesFault::NoMemory => f.write_str("out of memory"),
        }
    }
}

impl Error for ChangesFault {}

/// A change by the first word of its line and what follows that.
fn change_by<'a>(word: &[u8], rest: &'a [u8]) -> Result<Line<'a>, LineFault>
    ensures change { IfOk result IsChangeLine }
    ensures said { MatchResult result (λ l. change_by word.now (words_of rest.entry.now)
        ≡ Ok (said_by l)) (λ e. change_by word.now (words_of rest.entry.now) ≡ Err e) }
{
    if word == b"demand".as_slice() {
        demand_line(rest)
    } else if word == b"capacity".as_slice() {
        capacity_line(rest)
    } else {
        Err(LineFault::UnknownWord)
    }
}

/// What a line of a changes file says, or its first fault.
#[tactic(auto, unfolding(crate::specs::Changes::change_line_of))]
fn read_change_line(line: &[u8]) -> Result<Line<'_>, LineFault>
    ensures change { IfOk result IsChangeLine }
    ensures said { MatchResult result (λ l.
        change_line_of line.now ≡ Ok (said_by l)) (λ e. change_line_of line.now ≡ Err e) }
{
    if line.len() > LONGEST_LINE {
        return Err(LineFault::TooLong);
    }
    if !are_visible(line) {
        return Err(LineFault::BadByte);
    }
    match next_word(line) {
        Some((word, rest)) => change_by(word, rest),
        None => Err(LineFault::UnknownWord),
    }
}

/// Takes the change of a line. After a refusal the batch is as before.
fn take_line(topology: &Topology, batch: &mut Batch, line: &[u8]) -> Result<(), Refusal>
    ensures taken { MatchResult result (λ _.
        with_said topology.now batch.old (change_line_of line.now) ≡ Ok batch.new) (λ why.
        with_said topology.now batch.old (change_line_of line.now) ≡ Err why) }
    ensures kept { IsBatch topology.now.market batch.old → IsBatch topology.now.market batch.new }
{
    let line = match read_change_line(line) {
        Ok(line) => line,
        Err(fault) => return Err(Refusal::Line(fault)),
    };
    match batch.add(topology, &line) {
        Ok(()) => Ok(()),
        Err(fault) => Err(Refusal::Batch(fault)),
    }
}

/// The changes that a file says over a topology, or its first line that is refused.
///
/// Only lines `demand GROUP N` and `capacity NODE N` are known. There are at most 4,096 changes: one more is refused as
/// a full batch.
///
/// # Errors
///
/// `Refused` with the number of the first line that is refused, and why; `NoMemory`.
pub fn read_changes(alloc: Global, topology: &Topology, text: &[u8]) -> Result<Batch, ChangesFault>
    ensures read { MatchResult result (λ batch. changes_of topology.now text.now ≡ Ok batch) (λ e.
        ¬ (e ≡ ChangesFault.NoMemory) → changes_of topology.now text.now ≡ Err e) }
    ensures plain { MatchResult result (λ batch. FileSays topology.now text.now (Ok batch)) (λ e.
        ¬ (e ≡ ChangesFault.NoMemory) → FileSays topology.now text.now (Err e)) }
    ensures batch { IfOk result (IsBatch topology.now.market) }
{
    let mut batch = Batch::new(alloc)?;
    let mut number: u64 = 0;
    let mut rest = text;
    'lines: while let Some((line, behind)) = cut(rest, b'\n') {
        number += 1;
        match take_line(topology, &mut batch, line) {
            Ok(()) => {}
            Err(why) => return Err(ChangesFault::Refused(number, why)),
        }
        rest = behind;
    }
    if rest.is_empty() {
        return Ok(batch);
    }
    match take_line(topology, &mut batch, rest) {
        Ok(()) => Ok(batch),
        Err(why) => Err(ChangesFault::Refused(number + 1, why)),
    }
}

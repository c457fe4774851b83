//! Notes in memory, each of which comes after a stated number of answers.
ghost use Rattle.std.specs.LinkedList.{linked_list_len};
ghost use Rattle.std.specs.Prelude.{◌≡◌, ◌≤◌, ◌<◌, Some, [], drop, map, option_map, IfOk, IfSome, IfNone, MatchOption};
ghost use Rattle.outside.specs.Faults.{BothTell};
ghost use Rattle.outside.specs.Notes.{IsNextNote};
ghost use Rattle.outside.specs.MemNotes.{IsDue, given_of};
ghost use Rattle.outside.specs.declared.limits.TheConstants.{MOST_NOTES};

use crate::{Notes, Numbered};
use no_memory::NoMemory;
use std::alloc::Global;
use std::collections::LinkedList;
use std::marker::Model;

/// A note that comes once so many answers were `None`.
#[derive(Drop)]
pub struct Due<T> {
    pub nones: u64,
    pub note: T,
}

/// A note that was given: its number, and how many answers were `None` before it.
#[derive(Clone, Copy, Debug, PartialEq, Eq)]
pub struct MemGiven {
    pub number: u64,
    pub place: u64,
}

/// Notes in memory, in their order. Each waits until so many answers in all were `None`.
#[derive(Drop)]
pub struct MemNotes<T> {
    coming: LinkedList<Due<T>>,
    given: Vec<MemGiven>,
    nones: u64,
}

impl<T> Model for MemNotes<T> {
    ghost use Rattle.std.specs.LinkedList.{linked_list_len};
    ghost use Rattle.std.specs.Prelude.{◌≤◌, ◌+◌, map, vec_len, vec_capacity};
    ghost use Rattle.outside.specs.Limits.{most_notes};
    ghost use Rattle.outside.specs.MemNotes.{NotesInMemory, given_of};

    ghost Value = { NotesInMemory T };

    ghost view = { λ s. record {
      coming = s.coming;
      told = record { given = map given_of s.given.items; nones = s.nones };
    } };

    ghost invariant = { λ s. (linked_list_len s.coming ≤ most_notes)
        × (vec_len s.given + linked_list_len s.coming ≤ vec_capacity s.given) };
}

impl<T: Drop> MemNotes<T> {
    /// These notes.
    ///
    /// # Errors
    ///
    /// `NoMemory`.
    pub fn new(alloc: Global, coming: LinkedList<Due<T>>) -> Result<MemNotes<T>, NoMemory>
        requires { linked_list_len coming ≤ MOST_NOTES }
        ensures { IfOk result (λ s. s ≡ record {
          coming = coming;
          told = record { given = []; nones = 0 };
        }) }
    {
        Ok(MemNotes {
            given: Vec::with_capacity(alloc, coming.len())?,
            coming,
            nones: 0,
        })
    }

    /// The notes that were given, in order.
    pub fn given(&self) -> &[MemGiven]
        ensures { map given_of result.now ≡ self.now.told.given }
    {
        self.given.as_slice()
    }
}

impl<T: Drop + Numbered> Notes<T> for MemNotes<T> {
    ghost use Rattle.std.specs.Prelude.{length};

    ghost told = { λ s. Some s.told };

    ghost left = { λ s. length s.coming };

    fn next(&mut self) -> Option<T>
        ensures next { BothTell (Some self.old.told)
            (Some self.new.told) (IsNextNote (option_map T.number result)) }
        ensures few { length self.old.coming ≤ MOST_NOTES }
        ensures some { IfSome result (λ _. length self.new.coming < length self.old.coming) }
        ensures none { IfNone result (length self.new.coming ≡ length self.old.coming) }
        // A note is given exactly where it is due.
        ensures due { MatchOption result (¬ IsDue self.old) (λ _. IsDue self.old) }
        ensures coming { MatchOption result (self.new.coming ≡ self.old.coming) (λ _.
            self.new.coming ≡ drop 1 self.old.coming) }
    {
        match self.coming.front() {
            Some(due) if due.nones <= self.nones => {}
            _ => {
                self.nones = self.nones.saturating_add(1);
                return None;
            }
        }
        let due = self.coming.pop_front()?;
        self.given.push_reserved(MemGiven {
            number: due.note.as_number(),
            place: self.nones,
        });
        Some(due.note)
    }
}

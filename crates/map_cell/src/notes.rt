//! Rows of notes, by which one thread tells others of published versions, and what reads them.
ghost use Rattle.std.specs.Prelude.{◌≡◌, ◌+◌, ◌<◌, ◌^◌, ◌≤◌, ℕ, length, vec_len, IfSome, IfNone, IfOk, IfErr, MatchBool, MatchOption, None, Some, ◌-◌, option_map, slice_get};
ghost use Rattle.outside.specs.Faults.{BothTell};
ghost use Rattle.outside.specs.Limits.{most_notes};
ghost use Rattle.outside.specs.Notes.{IsNextNote, noting};
ghost use Rattle.past_log.specs.Notes.{no_notes};
ghost use Rattle.map_cell.specs.Rows.{AreFirst, Gives};

use crate::front::Naming;
use crate::viewer::Note;
use no_memory::NoMemory;
use outside::{MOST_NOTES, Notes};
use past_log::{NoteEvent, NotesPast};
use std::alloc::Global;
use std::marker::Model;
use std::sync::{OnceLock, OnceToken, Wait};

/// What shows that a cell of a row holds a note, and always will. It takes no bytes.
#[derive(Drop)]
pub struct KeptNote<'a, J: Naming> {
    token: OnceToken<'a, Note<J>>,
}

impl<'a, J: Naming> Model for KeptNote<'a, J> {
    ghost use Rattle.map_cell.specs.Rows.{KeptState};

    ghost Value = { KeptState };

    ghost view = { λ k. record { cell = k.token.of; history = k.token.value.front } };
}

impl<'a, J: Naming> KeptNote<'a, J> {
    /// The same once more.
    pub fn again(&self) -> KeptNote<'a, J>
        ensures { result ≡ self.now }
    {
        KeptNote {
            token: self.token.again(),
        }
    }

    /// A cell holds one note, whoever put it and whoever read it.
    pub fn agrees(&self, other: &KeptNote<'a, J>)
        requires { self.now.cell ≡ other.now.cell }
        ensures { self.now.history ≡ other.now.history }
    {
        self.token.agrees(&other.token);
    }
}

/// Cells that are set once, to notes of one cell, as many as a run tells of; of later maps nobody is told. Contracts see
/// the names of the cells, in order.
#[derive(Drop)]
pub struct NoteRow<J: Naming> {
    cells: Vec<OnceLock<Note<J>>>,
}

impl<J: Naming> Model for NoteRow<J> {
    ghost use Rattle.std.specs.Prelude.{◌≡◌, ℕ, List, map, vec_len};
    ghost use Rattle.outside.specs.Limits.{most_notes};

    ghost Value = { List ℕ };

    ghost view = { λ r. map (λ c. c.id) r.cells.items };

    ghost invariant = { λ r. vec_len r.cells ≡ most_notes };
}

impl<J: Naming> NoteRow<J> {
    /// A row of unset cells.
    ///
    /// # Errors
    ///
    /// `NoMemory` where there was none for its cells.
    pub fn new(alloc: Global) -> Result<NoteRow<J>, NoMemory>
        ensures { IfOk result (λ row. length row ≡ most_notes) }
    {
        let mut cells = Vec::with_capacity(alloc, MOST_NOTES)?;
        for _ in 0..MOST_NOTES {
            cells.push_reserved(OnceLock::new());
        }
        Ok(NoteRow { cells })
    }

    /// Puts the note into the first free cell, not looking at those before `at`, and moves `at` past that cell. False means that no cell was free.
    pub fn put<R: Wait>(&self, rt: &R, at: &mut u32, note: Note<J>) -> bool
        ensures { MatchBool result ((at.old < at.new)
            × (at.new ≤ most_notes)) (at.new ≡ most_notes) }
    {
        self.put_shown(rt, at, note).is_some()
    }

    /// As `put`, and shows that the cell just before the new `at` holds the note.
    pub fn put_shown<R: Wait>(&self, rt: &R, at: &mut u32, note: Note<J>) -> Option<KeptNote<'_, J>>
        ensures place { MatchOption result (at.new ≡ most_notes) (λ _. (at.old < at.new)
            × (at.new ≤ most_notes)) }
        ensures cell { IfSome result (λ kept. slice_get self.now (at.new - 1) ≡ Some kept.cell) }
        ensures note { IfSome result (λ kept. kept.history ≡ note.front) }
    {
        let mut rest = note;
        for k in *at..MOST_NOTES as u32 {
            match self.put_at(rt, k as usize, rest) {
                Ok(kept) => {
                    *at = k + 1;
                    return Some(kept);
                }
                Err((_held, back)) => rest = back,
            }
        }
        *at = MOST_NOTES as u32;
        None
    }

    /// Sets a cell to the note, or hands it back with what shows the note that the cell holds.
    pub fn put_at<R: Wait>(
        &self,
        rt: &R,
        place: usize,
        note: Note<J>,
    ) -> Result<KeptNote<'_, J>, (KeptNote<'_, J>, Note<J>)>
        requires { place < most_notes }
        ensures ok { IfOk result (λ kept. (slice_get self.now place ≡ Some kept.cell)
            × (kept.history ≡ note.front)) }
        ensures err { IfErr result (λ e. (slice_get self.now place ≡ Some e.0.cell)
            × (e.1.front ≡ note.front)) }
    {
        match self.cells[place].try_insert(rt, note) {
            Ok(token) => Ok(KeptNote { token }),
            Err((token, back)) => Err((KeptNote { token }, back)),
        }
    }
}

/// The row, read in order.
#[derive(Drop)]
pub struct RowNotes<'a, J: Naming> {
    row: &'a NoteRow<J>,
    next: usize,
    /// All that it answered.
    past: NotesPast,
    /// What shows the note that was given last.
    last: Option<KeptNote<'a, J>>,
}

impl<'a, J: Naming> Model for RowNotes<'a, J> {
    ghost use Rattle.std.specs.Prelude.{◌≡◌, ◌≤◌, length};
    ghost use Rattle.outside.specs.Limits.{most_notes};
    ghost use Rattle.map_cell.specs.Rows.{AreFirst, ReaderState};

    ghost Value = { ReaderState };

    ghost view = { λ s. record {
      row = s.row.now;
      given = s.next;
      told = s.past.told;
      last = s.last;
    } };

    ghost invariant = { λ s. (s.next ≤ most_notes)
        × (length s.past.told.given ≡ s.next) × AreFirst s.past.told };
}

impl<'a, J: Naming> RowNotes<'a, J> {
    /// The notes of a row, from the first on.
    pub fn over(row: &'a NoteRow<J>) -> RowNotes<'a, J>
        ensures { result ≡ record { row = row.now; given = 0; told = no_notes; last = None } }
    {
        RowNotes {
            row,
            next: 0,
            past: NotesPast::new(),
            last: None,
        }
    }

    /// How many notes were given.
    pub fn given(&self) -> usize
        ensures { result ≡ self.now.given }
    {
        self.next
    }

    /// All that it answered. The notes that it gave are those of the first versions, one after another.
    pub fn into_past(self) -> NotesPast
        ensures told { result.told ≡ self.entry.told }
        ensures first { AreFirst result.told }
        ensures few { length result.told.given ≤ most_notes }
    {
        self.past
    }

    /// What shows the note that was given last.
    pub fn last(&self) -> Option<KeptNote<'a, J>>
        ensures { result ≡ self.now.last }
    {
        match &self.last {
            None => None,
            Some(kept) => Some(kept.again()),
        }
    }
}

impl<'a, J: Naming> RowNotes<'a, J> {
    /// The note of the next cell, where that cell shows the note of the serial that is due.
    fn due(&self) -> Option<(Note<J>, KeptNote<'a, J>)>
        ensures cell { IfSome result (λ r. slice_get self.now.row self.now.given ≡ Some r.1.cell) }
        ensures note { IfSome result (λ r. (r.1.history ≡ r.0.front)
            × (length r.0.front ≡ self.now.given + 1)) }
        ensures within { IfSome result (λ _. self.now.given < most_notes) }
    {
        if self.next >= MOST_NOTES {
            return None;
        }
        let row = self.row;
        let cell = &row.cells[self.next];
        let token = cell.witness()?;
        let note = cell.value(&token).again();
        if note.serial() != self.next as u64 {
            return None;
        }
        Some((note, KeptNote { token }))
    }
}

impl<J: Naming> Notes<Note<J>> for RowNotes<'_, J> {
    ghost use Rattle.std.specs.Prelude.{◌-◌, Some};
    ghost use Rattle.outside.specs.Limits.{most_notes};

    ghost told = { λ s. Some s.told };

    ghost left = { λ s. most_notes - s.given };

    fn next(&mut self) -> Option<Note<J>>
        ensures next { BothTell (Some self.old.told) (Some self.new.told)
            (IsNextNote (option_map (λ n. length n.front - 1) result)) }
        ensures few { most_notes - self.old.given ≤ most_notes }
        ensures some { IfSome result (λ _.
            most_notes - self.new.given < most_notes - self.old.given) }
        ensures none { IfNone result (most_notes - self.new.given ≡ most_notes - self.old.given) }
        // Each note that it gives is that of the next cell, and it counts it. Else it counts the answer, and nothing else changes.
        ensures gives { MatchOption result (self.new ≡ record self.old {
          told = noting None self.old.told;
        }) (λ note. Gives self.old note.front self.new) }
        // The first one names the first version, and each later one the version behind: they are given in the order of serials, each once.
        ensures number { IfSome result (λ note. length note.front ≡ self.old.given + 1) }
    {
        let Some((note, kept)) = self.due() else {
            self.past.note(&NoteEvent { number: None });
            return None;
        };
        self.past.note(&NoteEvent {
            number: Some(self.next as u64),
        });
        self.next += 1;
        self.last = Some(kept);
        Some(note)
    }
}

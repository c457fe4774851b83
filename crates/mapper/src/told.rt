//! How many cells of the row hold a note.
ghost use Rattle.std.specs.Prelude.{◌≡◌, ◌+◌, ◌<◌, ◌≤◌, List, Some, length, slice_get};
ghost use Rattle.outside.specs.Limits.{most_notes};
ghost use Rattle.published_map.specs.Version.{Version};
ghost use Rattle.mapper.specs.Notes.{AreTold};

use map_cell::{KeptNote, Naming, Note, NoteRow};
use outside::MOST_NOTES;
use std::marker::Model;
use std::sync::Wait;

/// How many cells of a row, from the first one on, hold a note. It rises by one, and only where the next cell is shown to hold
/// one. Of which map a note tells is in no clause.
#[derive(Clone, Copy, Debug, PartialEq, Eq)]
pub struct Told {
    count: u64,
}

impl Model for Told {
    ghost use Rattle.std.specs.Prelude.{ℕ};

    ghost Value = { ℕ };

    ghost view = { λ t. t.count };

    ghost inverse = { λ n. record { count = n } };
}

/// Puts a note into a cell, if it holds none, and shows what it holds then.
fn put<'n, J: Naming, R: Wait>(
    rt: &R,
    row: &'n NoteRow<J>,
    place: usize,
    note: Note<J>,
) -> KeptNote<'n, J>
    requires { place < most_notes }
    ensures { slice_get row.now place ≡ Some result.cell }
{
    match row.put_at(rt, place, note) {
        Ok(kept) => kept,
        Err((held, _note)) => held,
    }
}

impl Told {
    /// None.
    pub fn of_none() -> Told
        ensures { result ≡ 0 }
    {
        Told { count: 0 }
    }

    /// How many.
    pub fn count(self) -> u64
        ensures { result ≡ self }
    {
        self.count
    }

    /// One more, whose cell is shown to hold a note.
    fn raise<J: Naming>(&mut self, row: &NoteRow<J>, kept: &KeptNote<'_, J>)
        requires shown { slice_get row.now self.old ≡ Some kept.now.cell }
        requires cell { self.old < most_notes }
        ensures { self.new ≡ self.old + 1 }
    {
        self.count += 1;
    }

    /// Puts a note into the cell of its serial, if there is one, unless that holds one. The cell is counted where all
    /// before it were.
    pub fn tell<J: Naming, R: Wait>(&mut self, rt: &R, row: &NoteRow<J>, note: Note<J>)
        ensures told { (earlier : List Version) → length note.front ≡ length earlier + 1
            → AreTold earlier self.old → AreTold note.front self.new }
        ensures later { self.old ≤ self.new }
    {
        let serial = note.serial();
        if serial < MOST_NOTES as u64 {
            let kept = put(rt, row, serial as usize, note);
            if serial == self.count {
                self.raise(row, &kept);
            }
        }
    }
}

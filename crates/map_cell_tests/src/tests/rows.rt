//! Rows of notes: what is put is what is read, in its order, up to a row that is full.
ghost use Rattle.std.specs.Prelude.{◌≡◌, ◌<◌, ◌^◌, IfSome, Some, slice_get};
ghost use Rattle.map_cell_tests.specs.Examples.{AreGood, IsOf};

use super::{Worlds, first_version, publish_to};
use map_cell::{
    EmptyHistory, KeptNote, Naming, Note, NoteRow, PlainDoor, Publisher, RowNotes, open,
};
use outside::Notes;
use std::alloc::Global;
use std::marker::Brand;
use std::sync::Wait;
use std::test::Fail;

/// The serial of the next note, if one is there.
fn next_serial<J: Naming>(notes: &mut RowNotes<'_, J>) -> Option<u64> {
    match notes.next() {
        None => None,
        Some(note) => Some(note.serial()),
    }
}

/// The next note of a reader that stands at the cell of a note that was put: if there is one, it is that note.
fn next_as_put<'a, J: Naming>(
    notes: &mut RowNotes<'a, J>,
    kept: &KeptNote<'a, J>,
) -> Option<Note<J>>
    requires { slice_get notes.old.row notes.old.given ≡ Some kept.now.cell }
    ensures { IfSome result (λ note. note.front ≡ kept.now.history) }
{
    let note = notes.next()?;
    match notes.last() {
        None => unreachable!(),
        Some(last) => last.agrees(kept),
    }
    Some(note)
}

/// What a new reader gives at the place of a note that was put, behind one note for each cell ahead of it: if it gives
/// one, it is that note.
fn read_at<'a, J: Naming>(
    row: &'a NoteRow<J>,
    place: u32,
    kept: &KeptNote<'a, J>,
) -> Option<Note<J>>
    requires { slice_get row.now place ≡ Some kept.now.cell }
    ensures { IfSome result (λ note. note.front ≡ kept.now.history) }
{
    let mut notes = RowNotes::over(row);
    for _ in 0..place {
        notes.next()?;
    }
    next_as_put(&mut notes, kept)
}

/// Puts a note and reads it where it was put: what is read there is what was put.
fn put_and_read<J: Naming, R: Wait>(
    rt: &R,
    row: &NoteRow<J>,
    at: &mut u32,
    note: Note<J>,
) -> Option<Note<J>>
    ensures { IfSome result (λ read. read.front ≡ note.front) }
{
    let kept = row.put_shown(rt, at, note)?;
    read_at(row, *at - 1, &kept)
}

/// What was read of a row ahead of all puts, behind the first, where the second was put, behind it twice, and by a reader
/// that began then; and where the puts left off.
#[derive(Clone, Copy, PartialEq, Eq)]
struct Turns {
    unset: Option<u64>,
    first: Option<u64>,
    there: Option<u64>,
    second: Option<u64>,
    behind: Option<u64>,
    again: Option<u64>,
    at: [u32; 2],
}

/// Two notes, of the first map and of the second, put and read in turns.
fn turns_of<J: Naming, R: Wait>(
    rt: &R,
    alloc: Global,
    row: &NoteRow<J>,
    publisher: &mut Publisher<J>,
    worlds: &Worlds,
) -> Option<Turns>
    requires newest { IsOf worlds.now.old publisher.old.newest × (publisher.old.newest.serial ≡ 0) }
    requires good { AreGood worlds.now.old worlds.now.new }
{
    let mut notes = RowNotes::over(row);
    let unset = next_serial(&mut notes);
    let mut at = 0;
    let took = row.put(rt, &mut at, publisher.note());
    let first_at = at;
    let first = next_serial(&mut notes);
    if !took || publish_to(rt, alloc, publisher, &worlds.old, &worlds.new).is_none() {
        return None;
    }
    let there = match put_and_read(rt, row, &mut at, publisher.note()) {
        None => None,
        Some(note) => Some(note.serial()),
    };
    let second = next_serial(&mut notes);
    let behind = next_serial(&mut notes);
    let again = next_serial(&mut RowNotes::over(row));
    Some(Turns {
        unset,
        first,
        there,
        second,
        behind,
        again,
        at: [first_at, at],
    })
}

/// How many notes a row takes from a place on, and where that ends. More are tried than it has cells.
fn fill_row<J: Naming, R: Wait>(
    rt: &R,
    row: &NoteRow<J>,
    publisher: &Publisher<J>,
    from: u32,
) -> (u32, u32) {
    let mut at = from;
    let mut taken = 0u32;
    for _ in 0..65_537u32 {
        if row.put(rt, &mut at, publisher.note()) {
            taken = taken.saturating_add(1);
        }
    }
    (taken, at)
}

/// How many notes of a row are of each of the first two maps.
fn count_row<J: Naming>(row: &NoteRow<J>) -> (u32, u32) {
    let mut notes = RowNotes::over(row);
    let mut first = 0u32;
    let mut second = 0u32;
    for _ in 0..65_537u32 {
        match next_serial(&mut notes) {
            Some(0) => first = first.saturating_add(1),
            Some(1) => second = second.saturating_add(1),
            _ => {}
        }
    }
    (first, second)
}

/// What comes of a row that is then filled from its first cell on: the turns, how many notes more it took and where
/// that ended, and how many of each map it holds.
#[derive(Clone, Copy, PartialEq, Eq)]
struct Filled {
    turns: Turns,
    more: (u32, u32),
    held: (u32, u32),
}

/// The turns over a row, which is then filled and counted.
fn fill<J: Naming, R: Wait>(
    rt: &R,
    alloc: Global,
    row: &NoteRow<J>,
    publisher: &mut Publisher<J>,
    worlds: &Worlds,
) -> Option<Filled>
    requires newest { IsOf worlds.now.old publisher.old.newest × (publisher.old.newest.serial ≡ 0) }
    requires good { AreGood worlds.now.old worlds.now.new }
{
    match turns_of(rt, alloc, row, publisher, worlds) {
        None => None,
        Some(turns) => Some(Filled {
            turns,
            more: fill_row(rt, row, publisher, 0),
            held: count_row(row),
        }),
    }
}

/// The same over a cell of the example, which is closed.
fn opened_row<J: Naming, R: Wait>(rt: &R, alloc: Global, history: EmptyHistory) -> Option<Filled>
    requires { history ≡ J.book }
{
    match (first_version(alloc), NoteRow::new(alloc)) {
        (Some((version, worlds)), Ok(row)) => {
            let mut door = PlainDoor::new();
            match open::<J, PlainDoor, R>(rt, alloc, history, version, 0, &mut door) {
                Err(_) => None,
                Ok((publisher, _viewers)) => {
                    let mut publisher = publisher;
                    let filled = fill(rt, alloc, &row, &mut publisher, &worlds);
                    publisher.close(rt);
                    filled
                }
            }
        }
        _ => None,
    }
}

/// The same, of a history of its own.
fn filled_row<R: Wait>(rt: &R, alloc: Global) -> Option<Filled> {
    opened_row::<Brand, R>(rt, alloc, EmptyHistory::new())
}

/// Two notes in turns, and then 65,534 more of the second map, after which the row is full. Of these none is given: the
/// note that is due is that of a third map.
#[test]
fn rows_are_read_in_order(rt: HostRuntime) -> Result<(), Fail> {
    let turns = Turns {
        unset: None,
        first: Some(0),
        there: Some(1),
        second: Some(1),
        behind: None,
        again: Some(0),
        at: [1, 2],
    };
    let filled = Filled {
        turns,
        more: (65_534, 65_536),
        held: (1, 1),
    };
    assert!(rt; filled_row(&rt, rt.alloc()) == Some(filled));
    Ok(())
}

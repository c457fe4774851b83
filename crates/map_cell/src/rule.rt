//! The rule that every copy of a cell keeps, and what looks and publishes learn by it.
ghost use Rattle.std.specs.Prelude.{◌≡◌, true};
ghost use Rattle.map_cell.specs.Histories.{IsSealed};
ghost use Rattle.map_cell.specs.Tags.{tag_of, unknown, OneBook};
ghost use Rattle.map_cell.specs.Cell.{Holds};

use crate::sealed::Sealed;
use crate::tag::Tag;
use atomic_table::{Join, Split};
use crossbeam_utils::rule::{Outcome, Protocol};

/// Each seat that knows a book knows that of the copy, and the copy's version is the last of its history.
pub struct OneCell;

impl Protocol<Sealed, Tag> for OneCell {
    ghost holds = { Holds };

    ghost first = { unknown };
}

/// A look.
pub struct Knows;

impl Outcome<Sealed, Tag> for Knows {
    ghost then = { λ v x y w. (v.known ≡ true → v ≡ tag_of y.book)
        × IsSealed y.history y.version × (w ≡ v) };
}

/// A publish.
pub struct Published;

impl Outcome<Sealed, Tag> for Published {
    ghost then = { λ v x y w. w ≡ tag_of y.book };
}

/// Both know the book.
pub struct Same;

impl Split<Tag> for Same {
    ghost left = { λ v. v };

    ghost right = { λ v. v };
}

impl Join<Tag> for Same {
    ghost both = { λ v w. w };

    ghost spent = { unknown };
}

//! The history of published versions, of which each holder has seen a beginning.
ghost use Rattle.std.specs.Prelude.{◌≡◌, ◌+◌, ◌==◌, ◌<◌, ◌≤◌, ◌^◌, ◌-◌, ◌++◌, ◌∷◌, ◌⊎◌, [], length, MatchBool, if◌then◌else◌, false};
ghost use mathlib.Core.List.{IsPrefix};
ghost use Rattle.published_map.specs.Changes.{after};
ghost use Rattle.map_cell.specs.Histories.{IsHistory, MayFollow};
ghost use Rattle.map_cell.specs.Rules.{head_of};
ghost use Rattle.map_cell.specs.Additions.{added};

use crate::addition::Addition;
use logbook::{Gain, Offer, Plain, Play, Rule, Seen, Start, Word};
use published_map::MapVersion;
use std::marker::{Brand, Model, PhantomData};

/// The rule of the history: its words count its versions, and it is a history.
pub struct Law;

impl Rule<MapVersion, u64> for Law {
    ghost use Rattle.std.specs.Prelude.{[]};
    ghost use base.Fml.{ftrue};
    ghost use Rattle.map_cell.specs.Rules.{IsCounted};

    ghost holds = { λ cells log. IsCounted cells log };

    ghost first = { [] };

    ghost hinted = { λ n log. Unit {0} };

    ghost shows = { λ log. [] };

    ghost keeps = { λ names log. ftrue };

    ghost moves = { λ ask before after answer. Unit {0} };
}

/// Callers trade nothing.
pub struct Nothing;

impl Gain<MapVersion, u64> for Nothing {
    ghost use base.Fml.{ftrue};

    ghost after = { λ names about answer. ftrue };
}

/// A step that adds a version.
pub struct Add;

impl Play<MapVersion, u64> for Add {
    ghost use Rattle.map_cell.specs.Rules.{Adds};

    ghost then = { Adds };
}

impl Plain<Addition, MapVersion, u64> for Add {
    ghost use Rattle.std.specs.Prelude.{None};
    ghost use Rattle.map_cell.specs.Additions.{added};

    ghost ask = { added };

    ghost state = { λ v. None };
}

/// Which history it is. Each call of a program picks it: what carries the same name is of one cell.
pub trait Naming {
    ghost use Rattle.logbook.specs.Pages.{Book};

    ghost book: { Book };
}

impl Naming for Brand {
    ghost book = { record { number = 0; log_name = 0; cells_name = 0 } };
}

/// A history without a version, with which a cell is opened. Each call of a program that opens one picks the name
/// under which it is known.
#[derive(Drop)]
pub struct EmptyHistory {
    head: Word<MapVersion, u64, Law>,
    seen: Seen<MapVersion, u64, Law>,
}

impl Model for EmptyHistory {
    ghost use Rattle.std.specs.Prelude.{◌≡◌, []};
    ghost use Rattle.logbook.specs.Pages.{Book};
    ghost use Rattle.map_cell.specs.Rules.{head_of};

    ghost Value = { Book };

    ghost view = { λ o. o.seen.book };

    ghost invariant = { λ o. (o.seen.log ≡ []) × (o.head ≡ head_of o.seen.book) };
}

impl EmptyHistory {
    /// A new one.
    pub fn new() -> EmptyHistory {
        let (seen, mut first, _second) = Seen::open(Start::alone(), 0, 0);
        EmptyHistory {
            head: Word::tracked(0, &mut first),
            seen,
        }
    }

    /// The word that counts its versions, under a name, and the front that has seen nothing.
    pub(crate) fn named<J: Naming>(self) -> (Book<J>, Front<J>)
        requires { self ≡ J.book }
        ensures { result.1 ≡ [] }
    {
        let EmptyHistory { head, seen } = self;
        (
            Book {
                head,
                of: PhantomData,
            },
            Front {
                count: 0,
                seen,
                of: PhantomData,
            },
        )
    }
}

/// The word that counts the versions.
#[derive(Drop)]
pub(crate) struct Book<J: Naming> {
    head: Word<MapVersion, u64, Law>,
    of: PhantomData<J>,
    ghost head_is: { head ≡ head_of J.book },
}

/// A beginning of the history. Contracts see it as its versions.
#[derive(Drop)]
pub struct Front<J: Naming> {
    count: u64,
    seen: Seen<MapVersion, u64, Law>,
    of: PhantomData<J>,
}

impl<J: Naming> Model for Front<J> {
    ghost use Rattle.std.specs.Prelude.{◌≡◌, List, length};
    ghost use Rattle.published_map.specs.Version.{Version};
    ghost use Rattle.map_cell.specs.Histories.{IsHistory};

    ghost Value = { List Version };

    ghost view = { λ f. f.seen.log };

    ghost invariant = { λ f. (f.count ≡ length f.seen.log)
        × (f.seen.book ≡ J.book) × IsHistory f.seen.log };
}

impl<J: Naming> Front<J> {
    /// How many versions it has.
    pub fn len(&self) -> u64
        ensures length { result ≡ length self.now }
        ensures history { IsHistory self.now }
    {
        self.count
    }

    /// What shows the history.
    pub(crate) fn token(&self) -> Seen<MapVersion, u64, Law>
        ensures is { (result.log ≡ self.now) × (result.book ≡ J.book) }
        ensures history { IsHistory self.now }
    {
        self.seen.again()
    }

    pub(crate) fn of_token(count: u64, seen: &Seen<MapVersion, u64, Law>) -> Front<J>
        requires { (seen.now.book ≡ J.book)
            × (count ≡ length seen.now.log) × IsHistory seen.now.log }
        ensures { result ≡ seen.now.log }
    {
        Front {
            count,
            seen: seen.again(),
            of: PhantomData,
        }
    }

    /// A copy, which takes no memory.
    pub fn again(&self) -> Front<J>
        ensures { result ≡ self.now }
    {
        Front {
            count: self.count,
            seen: self.seen.again(),
            of: PhantomData,
        }
    }

    /// The longer of two fronts, which the other begins.
    pub fn longer(&self, other: &Front<J>) -> Front<J>
        ensures one { (result ≡ self.now) ⊎ (result ≡ other.now) }
        ensures this { IsPrefix self.now result }
        ensures that { IsPrefix other.now result }
    {
        let mut both = self.seen.again();
        both.learn(&other.seen);
        if self.count < other.count {
            other.again()
        } else {
            self.again()
        }
    }

    /// Whether this front begins with the other. It doesn't where it is shorter.
    pub fn covers(&self, other: &Front<J>) -> bool
        ensures begins { MatchBool result (IsPrefix other.now self.now) (length self.now
            < length other.now) }
        ensures begun { result ≡ false → IsPrefix self.now other.now }
        ensures history { IsHistory self.now }
        ensures other { IsHistory other.now }
    {
        let mut both = self.seen.again();
        both.learn(&other.seen);
        if self.count < other.count {
            return false;
        }
        true
    }

    /// Adds a version to all that was seen, and says whether it did.
    pub(crate) fn add(&mut self, book: &Book<J>, about: &Addition) -> bool
        requires room { length self.old < 2 ^ 64 - 1 }
        requires next { MayFollow self.old (added about.now) }
        ensures { MatchBool result (self.new
            ≡ self.old ++ added about.now ∷ []) (IsPrefix self.old self.new) }
    {
        let mut offer: Offer<MapVersion, u64, Law, Nothing> = self
            .seen
            .plain::<Nothing, Addition, Add>(about);
        let mut pen = self.seen.no_pen();
        let count = self.count;
        let found = book
            .head
            .compare_exchange::<Add, Nothing>(
                count,
                count + 1,
                &mut self.seen,
                &mut offer,
                &mut pen,
            );
        self.count = if found == count { count + 1 } else { found };
        found == count
    }
}

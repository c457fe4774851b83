//! Words with room behind them, and a row that is put together of them: each word is copied whole, whatever its length.

ghost use Rattle.std.specs.Prelude.{◌≡◌, ◌+◌, ◌≤◌, ◌<◌, ◌++◌, ◌∷◌, [], length};

use std::marker::Model;

/// How many octets a word may have.
const LONGEST: usize = 32;

/// How many octets a row has room for: four words, each with what stands behind it.
const ROOM: usize = 132;

/// A word, with room behind it.
#[derive(Drop)]
pub struct Word {
    octets: [u8; LONGEST],
    len: usize,
}

impl Model for Word {
    ghost use Rattle.std.specs.Prelude.{ℕ, List, ◌≤◌, take};

    ghost Value = { List ℕ };

    ghost view = { λ w. take w.len w.octets };

    ghost invariant = { λ w. w.len ≤ 32 };
}

impl Word {
    /// No octets.
    pub fn new() -> Word
        ensures { result ≡ [] }
    {
        Word {
            octets: [0; LONGEST],
            len: 0,
        }
    }

    /// Adds octets.
    fn append(&mut self, more: &[u8])
        requires { length self.old + length more.now ≤ 32 }
        ensures { self.new ≡ self.old ++ more.now }
    {
        let len = self.len;
        self.octets[len..len + more.len()].copy_from_slice(more);
        self.len = len + more.len();
    }

    /// The word of some octets.
    pub fn of(octets: &[u8]) -> Word
        requires { length octets.now ≤ 32 }
        ensures { result ≡ octets.now }
    {
        let mut word = Word::new();
        word.append(octets);
        word
    }

    /// How many octets it has.
    #[inline(always)]
    fn len(&self) -> usize
        ensures value { result ≡ length self.now }
        ensures bound { result ≤ 32 }
    {
        self.len
    }
}

/// Octets of a row.
#[derive(Drop)]
pub struct Row {
    octets: [u8; ROOM],
    len: usize,
}

impl Model for Row {
    ghost use Rattle.std.specs.Prelude.{ℕ, List, ◌≤◌, take};

    ghost Value = { List ℕ };

    ghost view = { λ r. take r.len r.octets };

    ghost invariant = { λ r. r.len ≤ 132 };
}

impl Row {
    /// A row of no octets.
    pub fn new() -> Row
        ensures { result ≡ [] }
    {
        Row {
            octets: [0; ROOM],
            len: 0,
        }
    }

    /// Its octets.
    #[inline(always)]
    pub fn as_slice(&self) -> &[u8]
        ensures { result.now ≡ self.now }
    {
        &self.octets[..self.len]
    }

    /// Begins anew.
    #[inline(always)]
    pub fn clear(&mut self)
        ensures { self.new ≡ [] }
    {
        self.len = 0;
    }

    /// Adds a word, by a copy of all its room.
    #[inline(always)]
    fn word(&mut self, word: &Word)
        requires { length self.old + 32 ≤ 132 }
        ensures { self.new ≡ self.old ++ word.now }
    {
        let len = self.len;
        self.octets[len..len + LONGEST].copy_from_slice(&word.octets);
        self.len = len + word.len;
    }

    /// Adds an octet.
    #[inline(always)]
    fn push(&mut self, octet: u8)
        requires { length self.old < 132 }
        ensures { self.new ≡ self.old ++ octet ∷ [] }
    {
        let len = self.len;
        self.octets[len] = octet;
        self.len = len + 1;
    }

    /// Adds a word and what stands behind it.
    #[inline(always)]
    pub fn add(&mut self, word: &Word, behind: u8)
        requires { length self.old + 33 ≤ 132 }
        ensures text { self.new ≡ self.old ++ word.now ++ behind ∷ [] }
        ensures short { length self.new ≤ length self.old + 33 }
    {
        // Tells the prover that the word is short.
        let _size = word.len();
        self.word(word);
        self.push(behind);
    }
}

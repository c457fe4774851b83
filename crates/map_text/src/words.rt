//! A line in words.
ghost use Rattle.std.specs.Prelude.{◌≡◌, None, Some, MatchOption};
ghost use Rattle.text_parts.specs.Parts.{parts};
ghost use Rattle.map_text.specs.Words.{four_of, three_of};

use text_parts::cut;

/// The words of a line of four.
#[derive(Clone, Copy)]
pub struct Words<'a> {
    pub keyword: &'a [u8],
    pub group: &'a [u8],
    pub pool: &'a [u8],
    pub last: &'a [u8],
}

/// The words of a line of three.
#[derive(Clone, Copy)]
pub struct Three<'a> {
    pub keyword: &'a [u8],
    pub group: &'a [u8],
    pub pool: &'a [u8],
}

/// The words of a line, where they are three. One space stands between two words.
pub fn three_words(line: &[u8]) -> Option<Three<'_>>
    ensures { MatchOption result (three_of (parts 32 line.now)
        ≡ None) (λ w. three_of (parts 32 line.now)
        ≡ Some (record { keyword = w.keyword.now; group = w.group.now; pool = w.pool.now })) }
{
    let (keyword, rest) = cut(line, b' ')?;
    let (group, pool) = cut(rest, b' ')?;
    match cut(pool, b' ') {
        None => Some(Three {
            keyword,
            group,
            pool,
        }),
        Some(_) => None,
    }
}

/// The words of a line, where they are four. One space stands between two words.
pub fn four_words(line: &[u8]) -> Option<Words<'_>>
    ensures { MatchOption result (four_of (parts 32 line.now)
        ≡ None) (λ w. four_of (parts 32 line.now)
        ≡ Some (record {
          keyword = w.keyword.now;
          group = w.group.now;
          pool = w.pool.now;
          last =
              w.last.now;
        })) }
{
    let (keyword, rest) = cut(line, b' ')?;
    let (group, rest) = cut(rest, b' ')?;
    let (pool, last) = cut(rest, b' ')?;
    match cut(last, b' ') {
        None => Some(Words {
            keyword,
            group,
            pool,
            last,
        }),
        Some(_) => None,
    }
}

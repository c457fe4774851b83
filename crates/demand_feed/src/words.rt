//! The words of a line.
ghost use Rattle.std.specs.Prelude.{◌≡◌, ◌<◌, ◌≤◌, [], ◌∷◌, length, IfSome, MatchOption};
ghost use Rattle.demand_feed.specs.Line.{words_of};

use text_parts::cut;

/// The first word and what follows it, where there is a word.
pub fn next_word(text: &[u8]) -> Option<(&[u8], &[u8])>
    ensures words { MatchOption result (words_of text.now ≡ []) (λ r.
        words_of text.now ≡ r.0.now ∷ words_of r.1.now) }
    ensures short { IfSome result (λ r. (length r.0.now ≤ length text.now)
        × (length r.1.now ≤ length text.now)) }
{
    let mut rest = text;
    'words: while let Some((word, behind)) = cut(rest, b' ') {
        rest = behind;
        if !word.is_empty() {
            return Some((word, rest));
        }
    }
    if rest.is_empty() {
        None
    } else {
        Some((rest, &[]))
    }
}

//! Rows of a text that are cut into pieces, so that a piece can be copied whole.
ghost use Rattle.std.specs.Prelude.{ℕ, List, []};
ghost use Rattle.map_text.specs.Cutting.{IsTextOf};

/// A piece: so many rows in so many octets.
#[derive(Clone, Copy)]
pub struct Cut {
    pub rows: usize,
    pub octets: usize,
}

/// How the text of a map is cut: the rows of what is placed, those of names, and where in the text these begin.
#[derive(Drop)]
pub struct Cuts {
    pub places: Vec<Cut>,
    pub names: Vec<Cut>,
    pub middle: usize,
}

/// Items with the text of their rows, and the cuts of it.
#[derive(Clone, Copy)]
pub struct Rows<'a, X> {
    pub text: &'a [u8],
    pub of: &'a [X],
    pub cuts: &'a [Cut],
}

/// The first piece, as its text and its items, and all behind it. Without a cut all is one piece.
pub fn cut_off<'a, X>(rows: Rows<'a, X>) -> (&'a [u8], &'a [X], Rows<'a, X>)
    ensures { (row : X → List ℕ) → IsTextOf row rows.entry.text.now rows.entry.of.now
        rows.entry.cuts.now → IsTextOf row result.0.now result.1.now []
        × IsTextOf row result.2.text.now result.2.of.now result.2.cuts.now }
{
    let Rows { text, of, cuts } = rows;
    let Some((cut, cuts)) = cuts.split_first() else {
        let none = Rows {
            text: &[],
            of: &[],
            cuts,
        };
        return (text, of, none);
    };
    let (own_text, text) = text.split_at(cut.octets.min(text.len()));
    let (own, of) = of.split_at(cut.rows.min(of.len()));
    (own_text, own, Rows { text, of, cuts })
}

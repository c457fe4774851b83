//! A map file written.
ghost use Rattle.std.specs.Prelude.{◌≡◌, ◌++◌, ◌<◌, ◌^◌, length, All, Ok, IfOk, IsTrue};
ghost use Rattle.std.specs.List.{flat_map};
ghost use Rattle.map_model.specs.Allocation.{IsMapForm, IsOffer, is_by};
ghost use Rattle.map_model.specs.Market.{pool_of};
ghost use Rattle.map_text.specs.Reading.{map_of};
ghost use Rattle.map_text.specs.Named.{AreNamed, AreOffers, HasWords, IsOwnWord};
ghost use Rattle.map_text.specs.Writing.{ended, four, mapped, name_at, name_row, place_row, text_of_map, three};

use crate::lexicon::{GroupWord, Lexicon, node_word, pool_word};
use crate::word::{Row, Word};
use itoa::Buffer;
use map_model::{By, MapLine, MapLines, NameLine, Offer};
use no_memory::NoMemory;
use std::alloc::Global;
use topology_text::Topology;

/// The name of the pool of an offer.
pub fn pool_name(topology: &Topology, offer: Offer) -> &[u8]
    requires { IsOffer topology.now.market offer.group.0 offer.place }
    ensures { result.now ≡ name_at topology.now.node_names
        (pool_of topology.now.market offer.group.0 offer.place) }
{
    let pool = topology.instance().pool_at(offer);
    topology.node_name(pool)
}

/// Four words with a space between two of them, and the end of their line.
fn push_row(
    text: &mut Vec<u8>,
    row: &mut Row,
    keyword: &Word,
    group: &Word,
    pool: &Word,
    last: &Word,
) -> Result<(), NoMemory>
    ensures { IfOk result (λ _. text.new.items ≡ text.old.items
        ++ ended (four keyword.now group.now pool.now last.now)) }
{
    row.clear();
    row.add(keyword, b' ');
    row.add(group, b' ');
    row.add(pool, b' ');
    row.add(last, b'\n');
    text.extend_from_slice(row.as_slice())?;
    Ok(())
}

/// Three words with a space between two of them, and the end of their line.
fn push_three(
    text: &mut Vec<u8>,
    row: &mut Row,
    keyword: &Word,
    group: &Word,
    pool: &Word,
) -> Result<(), NoMemory>
    ensures { IfOk result (λ _. text.new.items ≡ text.old.items
        ++ ended (three keyword.now group.now pool.now)) }
{
    row.clear();
    row.add(keyword, b' ');
    row.add(group, b' ');
    row.add(pool, b'\n');
    text.extend_from_slice(row.as_slice())?;
    Ok(())
}

fn push_place(
    text: &mut Vec<u8>,
    row: &mut Row,
    own: &mut GroupWord,
    topology: &Topology,
    lexicon: &Lexicon,
    line: MapLine,
) -> Result<(), NoMemory>
    requires words { HasWords topology.now lexicon.now }
    requires own { IsOwnWord topology.now own.old }
    requires offer { IsOffer topology.now.market line.group.0 line.place }
    ensures text { IfOk result (λ _. text.new.items ≡ text.old.items
        ++ ended (place_row topology.now line)) }
    ensures fits { line.amount < 2 ^ 32 }
    ensures own { IsOwnWord topology.now own.new }
{
    let MapLine {
        group,
        place,
        amount,
    } = line;
    let pool = pool_word(topology, lexicon, Offer { group, place });
    own.turn_to(topology, group);
    let mut digits = Buffer::new();
    let amount = Word::of(digits.format(amount).as_bytes());
    push_row(text, row, &Word::of(b"place"), &own.word, pool, &amount)
}

fn push_name(
    text: &mut Vec<u8>,
    row: &mut Row,
    own: &mut GroupWord,
    topology: &Topology,
    lexicon: &Lexicon,
    name: NameLine,
) -> Result<(), NoMemory>
    requires words { HasWords topology.now lexicon.now }
    requires own { IsOwnWord topology.now own.old }
    requires offer { IsOffer topology.now.market name.group.0 name.place }
    requires by { IsTrue (is_by topology.now.market name.by) }
    ensures text { IfOk result (λ _. text.new.items ≡ text.old.items
        ++ ended (name_row topology.now name)) }
    ensures own { IsOwnWord topology.now own.new }
{
    let NameLine { group, place, by } = name;
    let pool = pool_word(topology, lexicon, Offer { group, place });
    own.turn_to(topology, group);
    match by {
        By::Limit => push_three(text, row, &Word::of(b"limit"), &own.word, pool),
        By::Node(node) => {
            let node = node_word(topology, lexicon, node);
            push_row(text, row, &Word::of(b"full"), &own.word, pool, node)
        }
    }
}

/// The rows of lines.
pub fn push_places(
    text: &mut Vec<u8>,
    topology: &Topology,
    lexicon: &Lexicon,
    lines: &[MapLine],
) -> Result<(), NoMemory>
    requires words { HasWords topology.now lexicon.now }
    requires offers { AreOffers topology.now.market lines.now }
    ensures text { IfOk result (λ _. text.new.items ≡ text.old.items
        ++ flat_map (λ x. ended (place_row topology.now x)) lines.now) }
    ensures fits { IfOk result (λ _. All (λ x. x.amount < 2 ^ 32) lines.now) }
{
    let mut row = Row::new();
    let mut own = GroupWord::new();
    for line in lines {
        push_place(text, &mut row, &mut own, topology, lexicon, *line)?;
    }
    Ok(())
}

/// The rows of names.
pub fn push_names(
    text: &mut Vec<u8>,
    topology: &Topology,
    lexicon: &Lexicon,
    names: &[NameLine],
) -> Result<(), NoMemory>
    requires words { HasWords topology.now lexicon.now }
    requires named { AreNamed topology.now.market names.now }
    ensures { IfOk result (λ _. text.new.items ≡ text.old.items
        ++ flat_map (λ x. ended (name_row topology.now x)) names.now) }
{
    let mut row = Row::new();
    let mut own = GroupWord::new();
    for name in names {
        push_name(text, &mut row, &mut own, topology, lexicon, *name)?;
    }
    Ok(())
}

/// The text of a map over a topology, in the second version. There is one such text for each map, and reading it gives the map back.
///
/// # Errors
///
/// `NoMemory`.
pub fn write_map(alloc: Global, topology: &Topology, map: &MapLines) -> Result<Vec<u8>, NoMemory>
    requires { IsMapForm topology.now.market map.now.lines.items map.now.names.items }
    ensures text { IfOk result (λ text. text.items ≡ text_of_map topology.now (mapped map.now)) }

    // What is written is read as the same map.
    ensures again { IfOk result (λ text. map_of topology.now text.items ≡ Ok (mapped map.now)) }
{
    // What each topology keeps: its names are distinct words. The proof of `again` takes it from here.
    let _instance = topology.instance();
    let lexicon = Lexicon::build(alloc, topology)?;
    let mut text = Vec::from_slice(alloc, b"glb map 2\n")?;
    push_places(&mut text, topology, &lexicon, map.lines.as_slice())?;
    push_names(&mut text, topology, &lexicon, map.names.as_slice())?;
    text.extend_from_slice(b"end\n")?;
    Ok(text)
}

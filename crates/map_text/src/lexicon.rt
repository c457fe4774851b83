//! The names of a topology as words: those of all nodes, and that of the group whose rows are written.
ghost use Rattle.std.specs.Prelude.{◌≡◌, ◌<◌, [], length, IfOk, slice_index_or};
ghost use Rattle.map_model.specs.Allocation.{IsOffer};
ghost use Rattle.map_model.specs.Market.{pool_of};
ghost use Rattle.topology_text.specs.Plan.{Plan};
ghost use Rattle.map_text.specs.Named.{HasWords, IsOwnWord};
ghost use Rattle.map_text.specs.Writing.{name_at};

use crate::word::Word;
use map_model::{GroupId, NodeId, Offer};
use no_memory::NoMemory;
use std::alloc::Global;
use topology_text::Topology;

/// The names of nodes.
#[derive(Drop)]
pub struct Lexicon {
    pub nodes: Vec<Word>,
}

/// The name of a group or class that was asked for last, if one was.
#[derive(Drop)]
pub struct GroupWord {
    pub group: Option<GroupId>,
    pub word: Word,
}

fn node_words(alloc: Global, topology: &Topology) -> Result<Vec<Word>, NoMemory>
    ensures { IfOk result (λ words. words.items ≡ topology.now.node_names) }
{
    let instance = topology.instance();
    let mut words = Vec::new(alloc);
    for n in 0..instance.nodes() {
        words.push(Word::of(topology.node_name(NodeId(n))))?;
    }
    Ok(words)
}

/// The word of that number.
#[inline(always)]
fn word_at(words: &[Word], at: u32) -> &Word
    requires { at < length words.now }
    ensures { result.now ≡ slice_index_or words.now at [] }
{
    &words[at as usize]
}

impl Lexicon {
    /// The names of a topology.
    pub fn build(alloc: Global, topology: &Topology) -> Result<Lexicon, NoMemory>
        ensures { IfOk result (λ lexicon. HasWords topology.now lexicon) }
    {
        Ok(Lexicon {
            nodes: node_words(alloc, topology)?,
        })
    }
}

impl GroupWord {
    /// That of no group.
    pub fn new() -> GroupWord
        ensures { (t : Plan) → IsOwnWord t result }
    {
        GroupWord {
            group: None,
            word: Word::new(),
        }
    }

    /// Becomes that of a group or class. Where it is of that one, it stays.
    #[inline(always)]
    pub fn turn_to(&mut self, topology: &Topology, group: GroupId)
        requires own { IsOwnWord topology.now self.old }
        requires group { group.0 < length topology.now.market.groups }
        ensures own { IsOwnWord topology.now self.new }
        ensures word { self.new.word ≡ name_at topology.now.group_names group.0 }
    {
        if self.group == Some(group) {
            return;
        }
        *self = group_word(topology, group);
    }
}

/// The name of a group or class.
fn group_word(topology: &Topology, group: GroupId) -> GroupWord
    requires { group.0 < length topology.now.market.groups }
    ensures own { IsOwnWord topology.now result }
    ensures word { result.word ≡ name_at topology.now.group_names group.0 }
{
    // Tells the prover that there are as many names, each of which is short.
    let _instance = topology.instance();
    GroupWord {
        group: Some(group),
        word: Word::of(topology.group_name(group)),
    }
}

/// The name of a node.
#[inline(always)]
pub fn node_word<'a>(topology: &Topology, lexicon: &'a Lexicon, node: NodeId) -> &'a Word
    requires words { HasWords topology.now lexicon.now }
    requires node { node.0 < length topology.now.market.nodes }
    ensures { result.now ≡ name_at topology.now.node_names node.0 }
{
    // Tells the prover that there are as many names.
    let _instance = topology.instance();
    word_at(lexicon.nodes.as_slice(), node.0)
}

/// The name of the pool of an offer.
#[inline(always)]
pub fn pool_word<'a>(topology: &Topology, lexicon: &'a Lexicon, offer: Offer) -> &'a Word
    requires words { HasWords topology.now lexicon.now }
    requires offer { IsOffer topology.now.market offer.group.0 offer.place }
    ensures { result.now ≡ name_at topology.now.node_names
        (pool_of topology.now.market offer.group.0 offer.place) }
{
    let pool = topology.instance().pool_at(offer);
    node_word(topology, lexicon, pool)
}

//! What a run is lent beside its lanes and its pace: words, files, feeds and outputs.
ghost use Rattle.std.specs.Prelude.{◌≡◌, IfOk, vec_len};

use crate::fails::Fails;
use crate::feeds::{FeedScript, feeds_of, source_of};
use crate::texts::words_of;
use no_memory::NoMemory;
use outside::{MemNamedSource, MemShelf, MemSink, MemSource};
use std::alloc::Global;

/// The program's own feed, and three further ones.
#[derive(Drop)]
pub struct Feeds {
    pub first: MemSource,
    pub more: Vec<MemNamedSource>,
}

/// The control text's output, and that of the maps.
#[derive(Drop)]
pub struct Sinks {
    pub out: MemSink,
    pub maps: MemSink,
}

/// Words, files, feeds and outputs.
#[derive(Drop)]
pub struct Devices {
    pub words: Vec<String>,
    pub files: MemShelf,
    pub feeds: Feeds,
    pub outputs: Sinks,
}

/// A feed of these octets, in pieces of these sizes, of which these reads fail, and further ones by these scripts.
pub(crate) fn feeds_by(
    alloc: Global,
    text: &[u8],
    sizes: &[usize],
    reads: Fails,
    scripts: &[FeedScript],
) -> Result<Feeds, NoMemory>
    ensures { IfOk result (λ f. vec_len f.more ≡ 3) }
{
    let first = source_of(alloc, text, sizes, reads)?;
    let more = feeds_of(alloc, scripts)?;
    Ok(Feeds { first, more })
}

/// An output that takes so many octets, of which these puts fail.
pub(crate) fn sink_of(alloc: Global, room: usize, puts: Fails) -> Result<MemSink, NoMemory> {
    MemSink::new(alloc, room, puts.numbers(alloc)?)
}

/// These words, files, feeds and outputs.
pub(crate) fn devices_by(
    alloc: Global,
    words: &[&str],
    files: MemShelf,
    feeds: Feeds,
    outputs: Sinks,
) -> Result<Devices, NoMemory>
    ensures { IfOk result (λ d. vec_len d.feeds.more ≡ vec_len feeds.more) }
{
    let words = words_of(alloc, words)?;
    Ok(Devices {
        words,
        files,
        feeds,
        outputs,
    })
}

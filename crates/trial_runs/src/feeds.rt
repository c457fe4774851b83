//! Feeds in memory.
ghost use Rattle.std.specs.Prelude.{◌≡◌, IfOk, vec_len};

use crate::fails::{Fails, NEVER};
use no_memory::NoMemory;
use outside::{MemNamedSource, MemSource};
use std::alloc::Global;

/// What a further feed holds, in pieces of these sizes, and which reads and openings of it fail.
#[derive(Clone, Copy)]
pub struct FeedScript {
    pub text: &'static [u8],
    pub sizes: &'static [usize],
    pub reads: Fails,
    pub opens: Fails,
}

/// A feed on which there is nothing.
pub const EMPTY: FeedScript = FeedScript {
    text: b"",
    sizes: &[],
    reads: NEVER,
    opens: NEVER,
};

/// A feed of these octets, in pieces of these sizes, of which these reads fail.
pub(crate) fn source_of(
    alloc: Global,
    text: &[u8],
    sizes: &[usize],
    reads: Fails,
) -> Result<MemSource, NoMemory> {
    let bytes = Vec::from_slice(alloc, text)?;
    let sizes = Vec::from_slice(alloc, sizes)?;
    MemSource::new(alloc, bytes, sizes, reads.numbers(alloc)?)
}

/// A further feed by the script of that number, or an empty one where there is none.
fn named_of(
    alloc: Global,
    scripts: &[FeedScript],
    number: usize,
) -> Result<MemNamedSource, NoMemory> {
    let script = scripts.get(number).copied().unwrap_or(EMPTY);
    let source = source_of(alloc, script.text, script.sizes, script.reads)?;
    MemNamedSource::new(alloc, source, script.opens.numbers(alloc)?)
}

/// Three further feeds, the first of them by these scripts, and the others empty.
pub(crate) fn feeds_of(
    alloc: Global,
    scripts: &[FeedScript],
) -> Result<Vec<MemNamedSource>, NoMemory>
    ensures { IfOk result (λ v. vec_len v ≡ 3) }
{
    let mut feeds = Vec::with_capacity(alloc, 3)?;
    for number in 0..3usize {
        feeds.push(named_of(alloc, scripts, number)?)?;
    }
    Ok(feeds)
}

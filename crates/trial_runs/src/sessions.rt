//! Sessions of `serve` over the region.
ghost use Rattle.std.specs.Prelude.{◌≡◌, IfOk, vec_len};

use crate::came::{Came, came_by};
use crate::devices::{Devices, Sinks, devices_by, feeds_by, sink_of};
use crate::fails::{Fails, NEVER};
use crate::feeds::FeedScript;
use crate::files::{Held, shelf_of};
use crate::lanes::Script;
use crate::streams::{NO_TALKS, StreamScript};
use crate::texts::REGION;
use no_memory::NoMemory;
use std::alloc::Global;
use std::sync::Wait;
use std::thread::Threads;

/// The words of a session whose workers are not named, and of one of two.
pub const SERVE: &[&str] = &["glb", "serve", "t", "--listen", "127.0.0.1:53"];

pub const SERVE_TWO: &[&str] = &[
    "glb",
    "serve",
    "t",
    "--listen",
    "127.0.0.1:53",
    "--workers",
    "2",
];

/// The words of a session, the sizes of its feed's pieces, its further feeds, which loads, reads and puts fail, its lane for
/// conversations, and the turns.
#[derive(Clone, Copy)]
pub struct Setting {
    pub words: &'static [&'static str],
    pub sizes: &'static [usize],
    pub more: &'static [FeedScript],
    pub loads: Fails,
    pub reads: Fails,
    /// Of puts of the control text.
    pub lines: Fails,
    /// Of puts of a map's text.
    pub maps: Fails,
    pub stream: StreamScript,
    pub turns: u64,
    /// How many octets each output takes.
    pub room: usize,
}

/// One worker, and nothing fails.
pub const PLAIN: Setting = Setting {
    words: SERVE,
    sizes: &[],
    more: &[],
    loads: NEVER,
    reads: NEVER,
    lines: NEVER,
    maps: NEVER,
    stream: NO_TALKS,
    turns: 100,
    room: 4096,
};

/// The outputs of a session.
fn outputs_of(alloc: Global, setting: Setting) -> Result<Sinks, NoMemory> {
    let out = sink_of(alloc, setting.room, setting.lines)?;
    let maps = sink_of(alloc, setting.room, setting.maps)?;
    Ok(Sinks { out, maps })
}

/// What a session over the region is lent, with this feed.
pub fn devices_of(alloc: Global, setting: Setting, feed: &[u8]) -> Result<Devices, NoMemory>
    ensures { IfOk result (λ d. vec_len d.feeds.more ≡ 3) }
{
    let files = shelf_of(alloc, &[("t", Held::Topology(REGION))], setting.loads)?;
    let feeds = feeds_by(alloc, feed, setting.sizes, setting.reads, setting.more)?;
    let outputs = outputs_of(alloc, setting)?;
    devices_by(alloc, setting.words, files, feeds, outputs)
}

/// A session over the region, with this feed and lanes by these scripts.
pub fn session_of<R: Threads + Wait + Sync + AllocGlobal>(
    rt: &R,
    setting: Setting,
    feed: &[u8],
    scripts: &[Script],
) -> Result<Came, NoMemory> {
    let devices = devices_of(rt.alloc(), setting, feed)?;
    came_by(rt, devices, scripts, setting.stream, setting.turns)
}

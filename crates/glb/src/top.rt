//! The top call: words and all outside to a status.
ghost use Rattle.std.specs.Prelude.{◌≡◌, ◌≤◌, ◌^◌, length, option_map};
ghost use Rattle.demand_feed.specs.declared.limits.TheConstants.{MOST_TURNS};
ghost use Rattle.command_line.specs.Asked.{texts};
ghost use Rattle.glb.specs.Program.{IsPromised};
ghost use Rattle.glb.specs.Commands.{IsManned, task_of};
ghost use Rattle.drive.specs.Told.{IsSameLent};
ghost use Rattle.glb.specs.Told.{all_told, told_over};
ghost use Rattle.glb.specs.Words.{asked};

use crate::large::large;
use crate::saying::run_files;
use crate::serve::serve;
use crate::status::Status;
use crate::words::{Order, read_words};
use drive::{Lane, Lent, StreamLane};
use map_cell::Door;
use no_memory::NoMemory;
use outside::{Gate, NamedSource, Pace, Port, Shelf, Sink, Source, Streams};
use std::alloc::Global;
use std::sync::Wait;
use std::thread::Threads;

/// Does what is ordered, or says that the words are not taken.
fn run_order<
    R: Threads + Wait + Sync,
    F: Shelf,
    S: Source + Send,
    N: NamedSource + Send,
    K: Sink,
    P: Port + Send,
    Q: Streams + Send,
    G: Gate + Send,
    D: Door + Send,
    M: Pace,
>(
    rt: &R,
    alloc: Global,
    order: Option<Order<'_>>,
    files: &mut F,
    lent: &mut Lent<'_, '_, '_, '_, '_, '_, S, N, K, P, G, D, M>,
    stream: &mut StreamLane<Q, G, D>,
) -> Status
    requires manned { IsManned order }
    requires lanes { length lent.old.lanes.now ≡ 16 }
    requires turns { (1 ≤ lent.old.turns) × (lent.old.turns ≤ 2 ^ 48) }
    requires feeds { length lent.old.more.now ≡ 3 }
    ensures keeps { IsSameLent lent.old lent.new }
    ensures promised { IsPromised lent.old.turns (option_map task_of order.entry)
        (told_over F.told S.told N.told K.told M.told
        files.old lent.old stream.old)
        (told_over F.told S.told N.told K.told M.told
        files.new lent.new stream.new)
        result }
{
    match order {
        Some(Order::Say(command)) => run_files(alloc, Some(command), files, lent.out),
        Some(Order::Serve(service)) => serve(rt, alloc, &service, files, lent, stream),
        Some(Order::Large { groups }) => large(rt, alloc, groups, lent.out),
        None => run_files(alloc, None, files, lent.out),
    }
}

/// The whole program: does what the words ask for, over these files, this feed, these three sources of further feeds, these
/// outputs, these 16 lanes and this lane for conversations, and answers the status.
///
/// The first word is the program's name. Each lane and each feed take at most so many turns, 1 to 2^48.
pub fn glb<
    R: Threads + Wait + Sync,
    F: Shelf,
    S: Source + Send,
    N: NamedSource + Send,
    K: Sink,
    P: Port + Send,
    Q: Streams + Send,
    G: Gate + Send,
    D: Door + Send,
    M: Pace,
>(
    rt: &R,
    alloc: Global,
    words: &[String],
    files: &mut F,
    feed: &mut S,
    more: &mut [N],
    out: &mut K,
    maps: &mut K,
    lanes: &mut [Lane<P, G, D>],
    stream: &mut StreamLane<Q, G, D>,
    pace: &mut M,
    turns: u64,
) -> Status
    requires feeds { length more.old ≡ 3 }
    requires lanes { length lanes.old ≡ 16 }
    requires turns { (1 ≤ turns) × (turns ≤ 2 ^ 48) }
    ensures { IsPromised turns (asked (texts words.now))
        (all_told F.told S.told N.told K.told M.told
        files.old feed.old more.old out.old maps.old lanes.old stream.old pace.old)
        (all_told F.told S.told N.told K.told M.told
        files.new feed.new more.new out.new maps.new lanes.new stream.new pace.new)
        result }
{
    match read_words(alloc, words) {
        Ok(order) => {
            let (all, _behind) = lanes.split_at_mut(16);
            let mut lent = Lent {
                feed,
                more,
                out,
                maps,
                lanes: all,
                pace,
                turns,
            };
            run_order(rt, alloc, order, files, &mut lent, stream)
        }
        Err(NoMemory) => Status::NoMemory,
    }
}

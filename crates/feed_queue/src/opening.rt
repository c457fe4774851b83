//! The opening of a queue.
ghost use Rattle.std.specs.Prelude.{◌≡◌, ◌≤◌, ◌<◌, ◌+◌, [], IfOk, OnOk, map};
ghost use Rattle.std.specs.List.{range_with_len};
ghost use Rattle.feed_queue.specs.Ends.{fresh_feeder};

use crate::feeder::Feeder;
use crate::ring::Ring;
use crate::rule::{ItemQueue, Joins, Numbers};
use crate::taker::Taker;
use no_memory::NoMemory;
use std::alloc::Global;
use std::sync::Arc;
use std::thread::Parker;

/// How many items a queue holds at most.
pub const PLACES: usize = 64;

/// How many feeders a queue has at most.
pub const MOST_FEEDERS: u8 = 4;

/// A queue without feeders, by who takes from it.
fn start<N: Numbers>(alloc: Global) -> Result<Taker<N>, NoMemory>
    ensures { IfOk result (λ t. (t.feeders ≡ 0) × (t.taken ≡ [])) }
{
    let (items, pass) = ItemQueue::<N>::ruled(alloc, PLACES)?;
    let ring = Ring {
        items,
        taker: Parker::new(),
        feeders: [Parker::new(), Parker::new(), Parker::new(), Parker::new()],
    };
    let queue = Arc::new(alloc, ring)?;
    Ok(Taker {
        queue,
        pass,
        feeders: 0,
        tries: 0,
    })
}

/// One feeder more.
fn admit<N: Numbers>(alloc: Global, taker: &mut Taker<N>) -> Result<Feeder<N>, NoMemory>
    requires few { taker.old.feeders < 4 }
    requires taken { taker.old.taken ≡ [] }
    ensures feeder { IfOk result (λ f. f ≡ fresh_feeder taker.old.queue taker.old.feeders) }
    ensures taker { OnOk result (taker.new ≡ record taker.old { feeders = taker.old.feeders + 1 }) }
{
    let queue = Arc::try_clone(&taker.queue)?;
    let pass = queue.items.another::<Joins>(&mut taker.pass);
    let number = taker.feeders;
    taker.feeders += 1;
    Ok(Feeder {
        queue,
        pass,
        number,
        count: 0,
        batch_count: 0,
        alloc,
    })
}

/// A queue with so many feeders, 1 to 4, numbered from 0, and who takes from it.
///
/// # Errors
///
/// `NoMemory`.
#[tactic(auto, using(crate::proofs::Lists::fresh_more))]
pub fn open<N: Numbers>(alloc: Global, feeders: u8) -> Result<(Vec<Feeder<N>>, Taker<N>), NoMemory>
    requires feeders { (1 ≤ feeders) × (feeders ≤ 4) }
    ensures feeders { IfOk result (λ r.
        r.0.items ≡ map (fresh_feeder r.1.queue) (range_with_len 0 feeders)) }
    ensures taker { IfOk result (λ r. (r.1.feeders ≡ feeders) × (r.1.taken ≡ [])) }
{
    let mut made = Vec::with_capacity(alloc, usize::from(feeders))?;
    let mut taker = start(alloc)?;
    for _ in 0..feeders {
        made.push_reserved(admit(alloc, &mut taker)?);
    }
    Ok((made, taker))
}

//! What is sent of a feed, item by item.
use crate::limits::LONGEST_QUERY;
use crate::{Batch, FeedEnd, Refusal};
use addr_text::Addr;
use arrayvec::ArrayVec;

/// What comes of a feed's line, or the feed's end.
#[derive(Debug, Drop)]
pub enum What {
    /// A batch has ended.
    Commit(Batch),
    /// An empty one has ended.
    Empty,
    /// A batch has ended of which so many lines were refused. It was dropped.
    Lines(u64),
    /// A batch has ended, and there was no memory to send it.
    Memory,
    /// The reply to octets from an address is due.
    Ask {
        addr: Addr,
        octets: ArrayVec<u8, LONGEST_QUERY>,
    },
    /// The totals of the newest map are due.
    Show,
    /// The line of that number, from 1, is refused.
    Refused(u64, Refusal),
    /// The feed has ended.
    End(FeedEnd),
}

/// An item of one of several feeds: the feed's number, from 0, and the item's number among those of its feed, from 0.
#[derive(Debug, Drop)]
pub struct Item {
    pub feeder: u8,
    pub number: u64,
    pub what: What,
}

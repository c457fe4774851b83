//! Which ends of feeds were taken.
ghost use Rattle.std.specs.Prelude.{◌≡◌, ◌+◌, ◌<◌, ◌||◌, List, cond, false};
ghost use Rattle.demand_feed.specs.declared.sent.Item.{Item};
ghost use Rattle.feed_queue.specs.Whole.{is_end};
ghost use Rattle.mapper.specs.Feeds.{first_end, is_no_memory, is_source_fault, is_spent_end};
ghost use Rattle.mapper.specs.Noting.{AreNoted};

use demand_feed::{FeedEnd, What};

/// How many feeds have ended, and whether one has by this.
#[derive(Clone, Copy)]
pub(crate) struct Ends {
    pub count: u64,
    pub source_fault: bool,
    pub no_memory: bool,
    pub spent: bool,
}

fn is_end(what: &What) -> bool
    ensures { result ≡ is_end what.now }
{
    matches!(what, What::End(_))
}

fn is_source_fault(what: &What) -> bool
    ensures { result ≡ is_source_fault what.now }
{
    matches!(what, What::End(FeedEnd::SourceFault))
}

fn is_no_memory(what: &What) -> bool
    ensures { result ≡ is_no_memory what.now }
{
    matches!(what, What::End(FeedEnd::NoMemory))
}

fn is_spent_end(what: &What) -> bool
    ensures { result ≡ is_spent_end what.now }
{
    matches!(what, What::End(FeedEnd::Spent))
}

fn either(a: bool, b: bool) -> bool
    ensures { result ≡ (a || b) }
{
    a || b
}

impl Ends {
    /// None has ended.
    pub fn new() -> Ends
        ensures count { result.count ≡ 0 }
        ensures none { (result.source_fault ≡ false)
            × (result.no_memory ≡ false) × (result.spent ≡ false) }
    {
        Ends {
            count: 0,
            source_fault: false,
            no_memory: false,
            spent: false,
        }
    }

    /// Notes an item, if it is an end.
    pub fn note(&mut self, what: &What)
        requires { self.old.count < 4 }
        ensures count { self.new.count ≡ self.old.count + cond (is_end what.now) 1 0 }
        ensures source { self.new.source_fault
            ≡ (self.old.source_fault || is_source_fault what.now) }
        ensures memory { self.new.no_memory ≡ (self.old.no_memory || is_no_memory what.now) }
        ensures spent { self.new.spent ≡ (self.old.spent || is_spent_end what.now) }
    {
        self.count += u64::from(is_end(what));
        self.source_fault = either(self.source_fault, is_source_fault(what));
        self.no_memory = either(self.no_memory, is_no_memory(what));
        self.spent = either(self.spent, is_spent_end(what));
    }

    /// The first end, of those that are faults, by which a feed has ended.
    pub fn first(self) -> FeedEnd
        ensures { (items : List Item) → AreNoted items self → result ≡ first_end items }
    {
        if self.source_fault {
            FeedEnd::SourceFault
        } else if self.spent {
            FeedEnd::Spent
        } else if self.no_memory {
            FeedEnd::NoMemory
        } else {
            FeedEnd::Ended
        }
    }
}

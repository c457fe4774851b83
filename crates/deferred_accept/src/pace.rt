//! When a run follows units from group to group, and when it looks for a circle.

ghost use Rattle.std.specs.Prelude.{ℕ, ◌<◌, ◌≤◌, ◌^◌, All, IfSome};

use evict::Eviction;
use map_model::{GroupId, Instance};

fn places(instance: &Instance) -> u64
    ensures { result ≤ 2 ^ 24 }
{
    let mut places = 0;
    for g in 0..instance.groups() {
        places += u64::from(instance.list_len(GroupId(g)));
    }
    places
}

/// A run takes offers from its list of work for a while, and then follows units from group to group
/// until they have come round, and so on by turns.
///
/// Where they come round and nothing else happens, each group of the circle has offered all its free
/// units, so that the circle may be turned. After a turn they are followed once more, since the next
/// round takes the last units of an offer, or fills a node. The list is taken in between, as units that
/// wait there come together.
#[derive(Debug, Drop)]
pub(crate) struct Pace {
    // How many offers are still taken from the list.
    listed: u64,
    // How many groups were met since units are followed.
    followed: u64,
    // One of them, and how many are met before another one is taken in its place.
    mark: Option<GroupId>,
    next_mark: u64,
    has_looked: bool,
}

impl Pace {
    /// The list alone is taken for twice the places of all lists and a few more. Most runs end before.
    pub(crate) fn new(instance: &Instance) -> Pace {
        Pace {
            listed: 2 * places(instance) + 16,
            followed: 0,
            mark: None,
            next_mark: 1,
            has_looked: false,
        }
    }

    /// The list is taken for four times as long as units were followed.
    fn rest(&mut self) {
        self.listed = self.followed.saturating_mul(4).saturating_add(16);
        self.followed = 0;
        self.mark = None;
        self.next_mark = 1;
        self.has_looked = false;
    }

    /// A group is about to offer. Answers whether units have come round to it.
    pub(crate) fn meets(&mut self, group: GroupId) -> bool {
        if self.listed > 0 {
            self.listed -= 1;
            return false;
        }
        let is_back = self.mark == Some(group);
        if is_back && self.has_looked {
            self.rest();
            return false;
        }
        self.has_looked = self.has_looked || is_back;
        self.followed = self.followed.saturating_add(1);
        if self.followed >= self.next_mark {
            self.mark = Some(group);
            self.next_mark = self.followed.saturating_mul(2);
        }
        is_back
    }

    /// The group that offers next, if units are followed to it: the last one that gave up any.
    pub(crate) fn next_group(&mut self, freed: &[Eviction]) -> Option<GroupId>
        ensures { (bound : ℕ) → All (λ e. e.offer.group.0 < bound) freed.now
            → IfSome result (λ g. g.0 < bound) }
    {
        if self.listed > 0 {
            return None;
        }
        if freed.is_empty() {
            self.rest();
            return None;
        }
        Some(freed[freed.len() - 1].offer.group)
    }
}

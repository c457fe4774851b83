//! Looking for the best offer of a pool that is not refused there. What is found is asked again before a step, so nothing is
//! said of it here.

ghost use Rattle.std.specs.Prelude.{◌<◌, length};
ghost use Rattle.map_model.specs.Market.{IsMarket};
ghost use Rattle.evict.specs.Standing.{IsOpen};

use crate::asked::{Asked, Offers, Run};
use crate::offers::{is_offer, room_of};
use evict::State;
use map_model::{By, Instance, NodeId, Offer};

/// An offer, and its score.
#[derive(Clone, Copy, Debug)]
pub(crate) struct Scored {
    score: u32,
    pub offer: Offer,
}

impl Scored {
    /// Whether an offer ranks higher than one that may not be there.
    pub fn is_better(self, other: Option<Scored>) -> bool {
        match other {
            Some(other) => (self.score, self.offer.group) < (other.score, other.offer.group),
            None => true,
        }
    }
}

/// What a look at an offer says.
pub(crate) enum Look {
    /// It is loose: it stands before its group's pointer, and nobody refuses it.
    Loose,
    /// That node refuses it, and so each that ranks lower under it.
    Refused(NodeId),
    /// Neither.
    Other,
}

pub(crate) fn look_at(instance: &Instance, state: &State, offer: Offer) -> Look
    requires { IsOpen instance.now state.now }
{
    // most offers stand past their pointers, and to ask that is quick
    if offer.group.0 >= instance.groups() || offer.place >= state.pointer(offer.group) {
        return Look::Other;
    }
    if !is_offer(instance, offer) {
        return Look::Other;
    }
    match state.refuser(instance, offer) {
        None => Look::Loose,
        Some(By::Node(node)) => Look::Refused(node),
        Some(By::Limit) => Look::Other,
    }
}

/// The worst offer that a node holds, where it holds one.
fn worst_of(instance: &Instance, state: &State, node: NodeId) -> Option<Scored>
    requires { IsOpen instance.now state.now }
{
    if node.0 >= instance.nodes() {
        return None;
    }
    let (offer, _units) = state.worst_under(node)?;
    if !is_offer(instance, offer) {
        return None;
    }
    Some(Scored {
        score: instance.key(offer).score,
        offer,
    })
}

/// Whether a node is full and holds better offers alone than this one.
pub(crate) fn is_refused_by(instance: &Instance, state: &State, node: NodeId, found: Scored) -> bool
    requires { IsOpen instance.now state.now }
{
    if room_of(instance, state, node) > 0 {
        return false;
    }
    match worst_of(instance, state, node) {
        Some(worst) => !found.is_better(Some(worst)),
        None => true,
    }
}

/// The first place of a run at which an offer scores at least as much as the worst that its pool holds: those before it
/// are refused, if at all, by a node above the pool that holds better ones alone.
fn first_from(instance: &Instance, state: &State, scores: &[u32], run: Run) -> usize
    requires { IsOpen instance.now state.now }
{
    let worst = match worst_of(instance, state, run.pool) {
        Some(worst) => worst.score,
        None => 0,
    };
    match scores.get(run.from..run.until) {
        Some(scores) => run
            .from
            .saturating_add(scores.partition_point(|score| *score < worst)),
        None => run.until,
    }
}

/// The offer of a place, with its score.
fn offer_at(offers: &Offers, at: usize) -> Option<Scored> {
    let offer = *offers.as_slice().get(at)?;
    let score = *offers.scores().get(at)?;
    Some(Scored { score, offer })
}

/// What was found for a pool: the best offer that stands before its group's pointer and that neither its limit nor the pool
/// refuses, and at how many offers was looked.
pub(crate) struct Found {
    pub best: Option<Scored>,
    pub looks: u64,
}

/// Nothing is found.
const NOTHING: Found = Found {
    best: None,
    looks: 0,
};

fn best_in_run(instance: &Instance, state: &State, offers: &Offers, run: Run) -> Found
    requires { IsOpen instance.now state.now }
{
    let mut looks = 0u64;
    for at in first_from(instance, state, offers.scores(), run)..run.until {
        let Some(found) = offer_at(offers, at) else {
            return NOTHING;
        };
        looks = looks.saturating_add(1);
        match look_at(instance, state, found.offer) {
            Look::Refused(node) if node == run.pool => return Found { best: None, looks },
            Look::Loose | Look::Refused(_) => {
                return Found {
                    best: Some(found),
                    looks,
                };
            }
            Look::Other => (),
        }
    }
    Found { best: None, looks }
}

/// Where the offers to a pool stand.
fn run_to(offers: &Offers, pool: NodeId) -> Option<Run> {
    let runs = offers.runs();
    let run = *runs.get(runs.partition_point(|run| run.pool < pool))?;
    if run.pool == pool { Some(run) } else { None }
}

pub(crate) fn best_at(instance: &Instance, state: &State, asked: &Asked, pool: NodeId) -> Found
    requires { IsOpen instance.now state.now }
{
    if pool.0 >= instance.nodes() {
        return NOTHING;
    }
    let Some(offers) = asked.ranked(state.root(pool)) else {
        return NOTHING;
    };
    match run_to(offers, pool) {
        Some(run) => best_in_run(instance, state, offers, run),
        None => NOTHING,
    }
}

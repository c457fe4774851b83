//! The lists and the trees of an instance, each in one table.

ghost use Rattle.std.specs.Prelude.{◌≡◌, ◌<◌, length, map, IfOk};
ghost use Rattle.map_model.specs.declared.instance.Node.{Node};
ghost use Rattle.map_model.specs.Market.{Group, IsMarket, choice_at, group_at, key_of, parent_of, path};
ghost use Rattle.map_model.specs.Allocation.{IsOffer};

use arrayvec::ArrayVec;
use map_model::{Choice, GroupId, Instance, Key, LEVELS, Node, NodeId, Offer, PLACES};
use no_memory::NoMemory;
use std::alloc::Global;
use std::marker::Model;

/// A group's list, in place. Its demand tells of which instance the table is, and is not looked at.
#[derive(Debug, Drop)]
struct Row {
    demand: u32,
    choices: ArrayVec<Choice, PLACES>,
}

impl Model for Row {
    ghost use Rattle.map_model.specs.Market.{Group};

    ghost Value = { Group };

    ghost view = { λ r. record { demand = r.demand; choices = r.choices.items } };
}

/// The lists of groups and the trees of nodes. Contracts see the instance of which they are.
#[derive(Debug, Drop)]
pub struct Lists {
    rows: Vec<Row>,
    nodes: Vec<Node>,
}

impl Model for Lists {
    ghost use Rattle.map_model.specs.Market.{Market, IsMarket};

    ghost Value = { Market };

    ghost view = { λ l. record { groups = l.rows.items; nodes = l.nodes.items } };

    ghost invariant = { λ l. IsMarket (record { groups = l.rows.items; nodes = l.nodes.items }) };
}

fn row_of(instance: &Instance, group: GroupId) -> Row
    requires { group.0 < length instance.now.groups }
    ensures { result ≡ group_at instance.now group.0 }
{
    // Tells the prover that this is an instance.
    let _count = instance.groups();
    let mut choices = ArrayVec::new();
    for place in 0..instance.list_len(group) {
        let offer = Offer { group, place };
        let key = instance.key(offer);
        choices.push(Choice {
            pool: key.pool,
            score: key.score,
            limit: instance.limit(offer.group, offer.place),
        });
    }
    Row {
        demand: instance.demand(group),
        choices,
    }
}

fn rows_of(alloc: Global, instance: &Instance) -> Result<Vec<Row>, NoMemory>
    ensures { IfOk result (λ rows. rows.items ≡ instance.now.groups) }
{
    let mut rows = Vec::new(alloc);
    for g in 0..instance.groups() {
        rows.push(row_of(instance, GroupId(g)))?;
    }
    Ok(rows)
}

fn nodes_of(alloc: Global, instance: &Instance) -> Result<Vec<Node>, NoMemory>
    ensures { IfOk result (λ nodes. nodes.items ≡ instance.now.nodes) }
{
    let mut nodes = Vec::new(alloc);
    for n in 0..instance.nodes() {
        nodes.push(instance.node(NodeId(n)))?;
    }
    Ok(nodes)
}

impl Lists {
    /// The lists and the trees of an instance.
    pub fn build(alloc: Global, instance: &Instance) -> Result<Lists, NoMemory>
        ensures { IfOk result (λ lists. lists ≡ instance.now) }
    {
        // Tells the prover that this is an instance.
        let _count = instance.groups();
        Ok(Lists {
            rows: rows_of(alloc, instance)?,
            nodes: nodes_of(alloc, instance)?,
        })
    }

    /// The pool of an offer.
    pub fn pool_at(&self, offer: Offer) -> NodeId
        requires { IsOffer self.now offer.group.0 offer.place }
        ensures { result ≡ (choice_at self.now offer.group.0 offer.place).pool }
    {
        let row = &self.rows[offer.group.0 as usize];
        row.choices[offer.place as usize].pool
    }

    /// The key of an offer.
    pub fn key(&self, offer: Offer) -> Key
        requires { IsOffer self.now offer.group.0 offer.place }
        ensures { result ≡ key_of self.now offer.group.0 offer.place }
    {
        let row = &self.rows[offer.group.0 as usize];
        let choice = row.choices[offer.place as usize];
        Key {
            score: choice.score,
            group: offer.group,
            pool: choice.pool,
        }
    }

    /// The node right above a node; a root has none.
    fn parent(&self, node: NodeId) -> Option<NodeId>
        requires { node.0 < length self.now.nodes }
        ensures parent { result ≡ parent_of self.now node.0 }
        ensures market { IsMarket self.now }
    {
        self.nodes[node.0 as usize].parent
    }

    /// The nodes from this one up to its root.
    pub fn path(&self, node: NodeId) -> ArrayVec<NodeId, LEVELS>
        requires { node.0 < length self.now.nodes }
        ensures { map (λ n. n.0) result.items ≡ path self.now node.0 }
    {
        let mut path = ArrayVec::new();
        let mut at = Some(node);
        for _step in 0..LEVELS {
            if let Some(node) = at {
                path.push(node);
                at = self.parent(node);
            }
        }
        path
    }
}

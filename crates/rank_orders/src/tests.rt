//! Offers by hand.

ghost use Rattle.std.specs.Prelude.{◌≡◌};

use crate::Orders;
use map_model::{Choice, ClientGroup, GroupId, Instance, NO_LIMIT, Node, NodeId, Offer};
use std::alloc::Global;
use std::test::Fail;

fn group(alloc: Global, list: &[(u32, u32)]) -> Result<ClientGroup, Fail> {
    let mut choices = Vec::new(alloc);
    for &(pool, score) in list {
        choices.push(Choice {
            pool: NodeId(pool),
            score,
            limit: NO_LIMIT,
        })?;
    }
    Ok(ClientGroup::new(1, choices))
}

// a [1,0] 5,5; b [0,1] 5,4.
fn instance(alloc: Global) -> Result<Instance, Fail> {
    let pool = Node {
        capacity: 9,
        parent: None,
        is_pool: true,
    };
    let groups = vec![in alloc;
        group(alloc, &[(1, 5), (0, 5)])?,
        group(alloc, &[(0, 5), (1, 4)])?,
    ]?;
    Ok(Instance::try_from_rows(groups, vec![in alloc; pool, pool]?).ok_or("no instance")?)
}

fn offer(group: u32, place: u8) -> Offer
    ensures { (result.group.0 ≡ group) × (result.place ≡ place) }
{
    Offer {
        group: GroupId(group),
        place,
    }
}

#[test]
fn orders_offers(rt: HostRuntime) -> Result<(), Fail> {
    let instance = instance(rt.alloc())?;
    assert_eq!(rt; instance.groups(), 2);
    assert_eq!(rt; instance.list_len(GroupId(0)), 2);
    assert_eq!(rt; instance.list_len(GroupId(1)), 2);
    let orders = Orders::build(rt.alloc(), &instance)?;
    // By score, then by group, then by pool.
    assert!(rt; orders.better(offer(1, 1), offer(0, 1)), "by score");
    assert!(rt;
        orders.better(offer(0, 0), offer(1, 0)),
        "by group before pool"
    );
    assert!(rt; orders.better(offer(0, 1), offer(0, 0)), "by pool");
    assert!(rt; !orders.better(offer(0, 0), offer(0, 0)), "strict");
    assert!(rt; !orders.better(offer(1, 0), offer(0, 0)));
    assert_eq!(rt; orders.next_place(offer(0, 0)), Some(offer(0, 1)));
    assert_eq!(rt; orders.next_place(offer(1, 1)), None);
    Ok(())
}

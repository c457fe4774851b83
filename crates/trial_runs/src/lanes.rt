//! Lanes by scripts: what waits at them, and which of their calls fail.
ghost use Rattle.std.specs.Prelude.{◌≡◌, IfOk, vec_len};
ghost use Rattle.map_cell.specs.declared.opening.TheConstants.{MOST_VIEWERS};

use crate::fails::{Fails, NEVER};
use addr_text::{Addr, Peer};
use glb::Lane;
use map_cell::{MOST_VIEWERS, MemDoor};
use no_memory::NoMemory;
use outside::{MemGate, MemPacket, MemPort};
use std::alloc::Global;
use std::collections::LinkedList;

/// A client of the second group.
pub(crate) const CLIENT: Peer = Peer {
    addr: Addr::V4(0xc633_6407),
    port: 5353,
};

/// A query of type A for www.cdn.example.
pub const QUERY: &[u8] = &[
    0x12, 0x34, 1, 0, 0, 1, 0, 0, 0, 0, 0, 0, 3, b'w', b'w', b'w', 3, b'c', b'd', b'n', 7, b'e',
    b'x', b'a', b'm', b'p', b'l', b'e', 0, 0, 1, 0, 1,
];

/// How many queries wait at a lane, how often its gate lets it go on, which of its openings, receives and sends fail, and which places and looks its door refuses.
#[derive(Clone, Copy)]
pub struct Script {
    pub queries: u8,
    pub goes: usize,
    pub opens: Fails,
    pub receives: Fails,
    pub sends: Fails,
    pub places: Fails,
    pub looks: Fails,
}

/// A lane at which nothing waits, and which ends at its first turn.
pub const QUIET: Script = Script {
    queries: 0,
    goes: 1,
    opens: NEVER,
    receives: NEVER,
    sends: NEVER,
    places: NEVER,
    looks: NEVER,
};

/// One query, which the gate lets through.
pub const ONE: Script = Script {
    queries: 1,
    goes: 100,
    ..QUIET
};

/// So many queries of the client.
pub fn queries(alloc: Global, count: u8) -> Result<LinkedList<MemPacket>, NoMemory> {
    let mut waiting = LinkedList::new(alloc);
    for _ in 0..count {
        let octets = Vec::from_slice(alloc, QUERY)?;
        waiting.push_back(MemPacket {
            octets,
            from: CLIENT,
        })?;
    }
    Ok(waiting)
}

/// A lane in memory.
pub type MemLane = Lane<MemPort, MemGate, MemDoor>;

/// A port at which this waits, and of which these openings fail.
fn port_over(
    alloc: Global,
    waiting: LinkedList<MemPacket>,
    opens: Vec<u64>,
    script: Script,
) -> Result<MemPort, NoMemory> {
    let receives = script.receives.numbers(alloc)?;
    let sends = script.sends.numbers(alloc)?;
    MemPort::new(alloc, waiting, opens, receives, sends)
}

fn port_of(alloc: Global, script: Script) -> Result<MemPort, NoMemory> {
    let waiting = queries(alloc, script.queries)?;
    let opens = script.opens.numbers(alloc)?;
    port_over(alloc, waiting, opens, script)
}

fn door_of(alloc: Global, script: Script) -> Result<MemDoor, NoMemory> {
    let places = script.places.numbers(alloc)?;
    let looks = script.looks.numbers(alloc)?;
    Ok(MemDoor::new(places, looks))
}

fn lane_of(alloc: Global, script: Script) -> Result<MemLane, NoMemory> {
    let port = port_of(alloc, script)?;
    let door = door_of(alloc, script)?;
    let gate = MemGate::new(alloc, script.goes)?;
    Ok(Lane::new(port, gate, door))
}

/// 16 lanes: the first ones as the scripts say, and quiet ones.
pub(crate) fn lanes_of(alloc: Global, scripts: &[Script]) -> Result<Vec<MemLane>, NoMemory>
    ensures { IfOk result (λ v. vec_len v ≡ MOST_VIEWERS) }
{
    let mut lanes = Vec::with_capacity(alloc, MOST_VIEWERS)?;
    for i in 0..MOST_VIEWERS {
        let script = scripts.get(i).copied().unwrap_or(QUIET);
        lanes.push(lane_of(alloc, script)?)?;
    }
    Ok(lanes)
}

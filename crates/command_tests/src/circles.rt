//! Groups that would push each other round by single units, billions of times.

use glb::Status;
use std::test::Fail;
use trial_runs::Held::{self, Bytes, Topology};
use trial_runs::comes_so;

/// Two groups that like each other's last pool best, and a third one with one unit for the first pool.
pub const PAIR: &str = "node = [
{name = \"a\", capacity = 4294967295, pool = true},
{name = \"b\", capacity = 4294967295, pool = true},
]
group = [
{name = \"g\", demand = 4294967295, pools = [\"a\", \"b\"], scores = [2, 1], prefixes = [\"0.0.0.0/0\", \"::/0\"]},
{name = \"h\", demand = 4294967295, pools = [\"b\", \"a\"], scores = [2, 1], prefixes = []},
{name = \"t\", demand = 1, pools = [\"a\"], scores = [0], prefixes = []},
]
";

/// Each of the two stands whole at its last place, but for the unit that the third group has there.
pub const PAIR_MAP: &str = "glb map 2
place g b 4294967295
place h a 4294967294
place t a 1
full g a a
full h b b
full h a a
end
";

/// The same with paths of eight nodes, of which a root is full at one and the pool at the other.
pub const DEEP_PAIR: &str = "node = [
{name = \"a0\", capacity = 4294967295},
{name = \"a1\", parent = \"a0\", capacity = 281474976710656},
{name = \"a2\", parent = \"a1\", capacity = 281474976710656},
{name = \"a3\", parent = \"a2\", capacity = 281474976710656},
{name = \"a4\", parent = \"a3\", capacity = 281474976710656},
{name = \"a5\", parent = \"a4\", capacity = 281474976710656},
{name = \"a6\", parent = \"a5\", capacity = 281474976710656},
{name = \"a7\", parent = \"a6\", capacity = 281474976710656, pool = true},
{name = \"b0\", capacity = 281474976710656},
{name = \"b1\", parent = \"b0\", capacity = 281474976710656},
{name = \"b2\", parent = \"b1\", capacity = 281474976710656},
{name = \"b3\", parent = \"b2\", capacity = 281474976710656},
{name = \"b4\", parent = \"b3\", capacity = 281474976710656},
{name = \"b5\", parent = \"b4\", capacity = 281474976710656},
{name = \"b6\", parent = \"b5\", capacity = 281474976710656},
{name = \"b7\", parent = \"b6\", capacity = 4294967295, pool = true},
]
group = [
{name = \"g\", demand = 4294967295, pools = [\"a7\", \"b7\"], scores = [2, 1], prefixes = [\"0.0.0.0/0\", \"::/0\"]},
{name = \"h\", demand = 4294967295, pools = [\"b7\", \"a7\"], scores = [2, 1], prefixes = []},
{name = \"t\", demand = 1, pools = [\"a7\"], scores = [0], prefixes = []},
]
";

/// And its map.
pub const DEEP_PAIR_MAP: &str = "glb map 2
place g b7 4294967295
place h a7 4294967294
place t a7 1
full g a7 a0
full h b7 b7
full h a7 a0
end
";

/// Ten groups round a ring of ten pools, each of which likes best whose list it ends, and an eleventh
/// group with one unit for the first pool.
pub const RING: &str = "node = [
{name = \"p0\", capacity = 4294967295, pool = true},
{name = \"p1\", capacity = 4294967295, pool = true},
{name = \"p2\", capacity = 4294967295, pool = true},
{name = \"p3\", capacity = 4294967295, pool = true},
{name = \"p4\", capacity = 4294967295, pool = true},
{name = \"p5\", capacity = 4294967295, pool = true},
{name = \"p6\", capacity = 4294967295, pool = true},
{name = \"p7\", capacity = 4294967295, pool = true},
{name = \"p8\", capacity = 4294967295, pool = true},
{name = \"p9\", capacity = 4294967295, pool = true},
]
group = [
{name = \"g0\", demand = 4294967295, pools = [\"p0\", \"p1\", \"p2\", \"p3\", \"p4\", \"p5\", \"p6\", \"p7\", \"p8\", \"p9\"], scores = [10, 9, 8, 7, 6, 5, 4, 3, 2, 1], prefixes = [\"0.0.0.0/0\", \"::/0\"]},
{name = \"g1\", demand = 4294967295, pools = [\"p1\", \"p2\", \"p3\", \"p4\", \"p5\", \"p6\", \"p7\", \"p8\", \"p9\", \"p0\"], scores = [10, 9, 8, 7, 6, 5, 4, 3, 2, 1], prefixes = []},
{name = \"g2\", demand = 4294967295, pools = [\"p2\", \"p3\", \"p4\", \"p5\", \"p6\", \"p7\", \"p8\", \"p9\", \"p0\", \"p1\"], scores = [10, 9, 8, 7, 6, 5, 4, 3, 2, 1], prefixes = []},
{name = \"g3\", demand = 4294967295, pools = [\"p3\", \"p4\", \"p5\", \"p6\", \"p7\", \"p8\", \"p9\", \"p0\", \"p1\", \"p2\"], scores = [10, 9, 8, 7, 6, 5, 4, 3, 2, 1], prefixes = []},
{name = \"g4\", demand = 4294967295, pools = [\"p4\", \"p5\", \"p6\", \"p7\", \"p8\", \"p9\", \"p0\", \"p1\", \"p2\", \"p3\"], scores = [10, 9, 8, 7, 6, 5, 4, 3, 2, 1], prefixes = []},
{name = \"g5\", demand = 4294967295, pools = [\"p5\", \"p6\", \"p7\", \"p8\", \"p9\", \"p0\", \"p1\", \"p2\", \"p3\", \"p4\"], scores = [10, 9, 8, 7, 6, 5, 4, 3, 2, 1], prefixes = []},
{name = \"g6\", demand = 4294967295, pools = [\"p6\", \"p7\", \"p8\", \"p9\", \"p0\", \"p1\", \"p2\", \"p3\", \"p4\", \"p5\"], scores = [10, 9, 8, 7, 6, 5, 4, 3, 2, 1], prefixes = []},
{name = \"g7\", demand = 4294967295, pools = [\"p7\", \"p8\", \"p9\", \"p0\", \"p1\", \"p2\", \"p3\", \"p4\", \"p5\", \"p6\"], scores = [10, 9, 8, 7, 6, 5, 4, 3, 2, 1], prefixes = []},
{name = \"g8\", demand = 4294967295, pools = [\"p8\", \"p9\", \"p0\", \"p1\", \"p2\", \"p3\", \"p4\", \"p5\", \"p6\", \"p7\"], scores = [10, 9, 8, 7, 6, 5, 4, 3, 2, 1], prefixes = []},
{name = \"g9\", demand = 4294967295, pools = [\"p9\", \"p0\", \"p1\", \"p2\", \"p3\", \"p4\", \"p5\", \"p6\", \"p7\", \"p8\"], scores = [10, 9, 8, 7, 6, 5, 4, 3, 2, 1], prefixes = []},
{name = \"t\", demand = 1, pools = [\"p0\"], scores = [0], prefixes = []},
]
";

/// Each of the ten stands whole at its last place, but for the unit of the eleventh group.
pub const RING_MAP: &str = "glb map 2
place g0 p9 4294967295
place g1 p0 4294967294
place g2 p1 4294967295
place g3 p2 4294967295
place g4 p3 4294967295
place g5 p4 4294967295
place g6 p5 4294967295
place g7 p6 4294967295
place g8 p7 4294967295
place g9 p8 4294967295
place t p0 1
full g0 p0 p0
full g0 p1 p1
full g0 p2 p2
full g0 p3 p3
full g0 p4 p4
full g0 p5 p5
full g0 p6 p6
full g0 p7 p7
full g0 p8 p8
full g1 p1 p1
full g1 p2 p2
full g1 p3 p3
full g1 p4 p4
full g1 p5 p5
full g1 p6 p6
full g1 p7 p7
full g1 p8 p8
full g1 p9 p9
full g1 p0 p0
full g2 p2 p2
full g2 p3 p3
full g2 p4 p4
full g2 p5 p5
full g2 p6 p6
full g2 p7 p7
full g2 p8 p8
full g2 p9 p9
full g2 p0 p0
full g3 p3 p3
full g3 p4 p4
full g3 p5 p5
full g3 p6 p6
full g3 p7 p7
full g3 p8 p8
full g3 p9 p9
full g3 p0 p0
full g3 p1 p1
full g4 p4 p4
full g4 p5 p5
full g4 p6 p6
full g4 p7 p7
full g4 p8 p8
full g4 p9 p9
full g4 p0 p0
full g4 p1 p1
full g4 p2 p2
full g5 p5 p5
full g5 p6 p6
full g5 p7 p7
full g5 p8 p8
full g5 p9 p9
full g5 p0 p0
full g5 p1 p1
full g5 p2 p2
full g5 p3 p3
full g6 p6 p6
full g6 p7 p7
full g6 p8 p8
full g6 p9 p9
full g6 p0 p0
full g6 p1 p1
full g6 p2 p2
full g6 p3 p3
full g6 p4 p4
full g7 p7 p7
full g7 p8 p8
full g7 p9 p9
full g7 p0 p0
full g7 p1 p1
full g7 p2 p2
full g7 p3 p3
full g7 p4 p4
full g7 p5 p5
full g8 p8 p8
full g8 p9 p9
full g8 p0 p0
full g8 p1 p1
full g8 p2 p2
full g8 p3 p3
full g8 p4 p4
full g8 p5 p5
full g8 p6 p6
full g9 p9 p9
full g9 p0 p0
full g9 p1 p1
full g9 p2 p2
full g9 p3 p3
full g9 p4 p4
full g9 p5 p5
full g9 p6 p6
full g9 p7 p7
end
";

/// The pair, where the first group asks for one unit less: all are at their first places.
const NEAR_PAIR: &str = "node = [
{name = \"a\", capacity = 4294967295, pool = true},
{name = \"b\", capacity = 4294967295, pool = true},
]
group = [
{name = \"g\", demand = 4294967294, pools = [\"a\", \"b\"], scores = [2, 1], prefixes = [\"0.0.0.0/0\", \"::/0\"]},
{name = \"h\", demand = 4294967295, pools = [\"b\", \"a\"], scores = [2, 1], prefixes = []},
{name = \"t\", demand = 1, pools = [\"a\"], scores = [0], prefixes = []},
]
";

/// And its map.
const NEAR_PAIR_MAP: &[u8] = b"glb map 1
place g a 4294967294
place h b 4294967295
place t a 1
end
";

/// The pair, where the first group asks for one unit less, its map, and one unit more.
const ONE_MORE: &[(&str, Held)] = &[
    ("t", Topology(NEAR_PAIR)),
    ("m", Bytes(NEAR_PAIR_MAP)),
    ("c", Bytes(b"demand g 4294967295\n")),
];

/// One unit more makes the pair of the world beside it.
#[test]
fn a_demand_makes_the_pair(rt: HostRuntime) -> Result<(), Fail> {
    let words = &["glb", "repair", "t", "m", "c"];
    assert!(rt; comes_so(&rt, words, ONE_MORE, Status::Ok, PAIR_MAP.as_bytes(), 3)?);
    Ok(())
}

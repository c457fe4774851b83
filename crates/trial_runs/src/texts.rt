//! Topologies and maps, as texts, and words.
use no_memory::NoMemory;
use std::alloc::Global;

/// The zone of each topology.
pub const ZONE: &str = "[zone]
apex = \"cdn.example\"
mname = \"ns1.ops.example\"
rname = \"admin.ops.example\"
serial = 1
refresh = 3600
retry = 600
expire = 86400
minimum = 60
ttl = 20
ns = [\"ns1.ops.example\", \"ns2.ops.example\"]
services = [\"www\"]
";

/// One pool of 10 units, and one group that asks for 4.
pub const FLAT: &str = "[[node]]
name = \"A\"
capacity = 10
pool = true
a = [\"192.0.2.1\"]
[[group]]
name = \"g\"
demand = 4
pools = [\"A\"]
scores = [1]
prefixes = [\"0.0.0.0/0\", \"::/0\"]
";

/// One pool of no units, and one group that asks for 1.
pub const EMPTY_POOL: &str = "[[node]]
name = \"A\"
capacity = 0
pool = true
[[group]]
name = \"g\"
demand = 1
pools = [\"A\"]
scores = [1]
prefixes = [\"0.0.0.0/0\", \"::/0\"]
";

/// Two groups that each like the other's pool better than that likes them.
pub const TWO_GOOD: &str = "[[node]]
name = \"P\"
capacity = 1
pool = true
[[node]]
name = \"Q\"
capacity = 1
pool = true
[[node]]
name = \"Z\"
capacity = 5
pool = true
[[group]]
name = \"a\"
demand = 1
pools = [\"P\", \"Q\"]
scores = [2, 1]
prefixes = [\"0.0.0.0/0\", \"::/0\"]
[[group]]
name = \"b\"
demand = 1
pools = [\"Q\", \"P\"]
scores = [2, 1]
prefixes = []
[[group]]
name = \"c\"
demand = 1
pools = [\"Z\"]
scores = [1]
prefixes = []
";

/// Two pools in one region of 15 units.
pub const REGION: &str = "[[node]]
name = \"R\"
capacity = 15
[[node]]
name = \"A\"
parent = \"R\"
capacity = 10
pool = true
a = [\"192.0.2.1\"]
aaaa = [\"2001:db8::1\"]
[[node]]
name = \"B\"
parent = \"R\"
capacity = 10
pool = true
a = [\"192.0.2.2\"]
[[group]]
name = \"g1\"
demand = 8
pools = [\"A\", \"B\"]
scores = [1, 2]
prefixes = [\"0.0.0.0/0\", \"::/0\"]
[[group]]
name = \"g2\"
demand = 8
pools = [\"A\", \"B\"]
scores = [3, 4]
prefixes = [\"198.51.100.0/24\"]
";

/// A region whose pool A was full and is not any more.
pub const NO_LONGER_FULL: &str = "[[node]]
name = \"R\"
capacity = 10
[[node]]
name = \"A\"
parent = \"R\"
capacity = 6
pool = true
[[node]]
name = \"B\"
parent = \"R\"
capacity = 10
pool = true
[[group]]
name = \"a\"
demand = 6
pools = [\"A\"]
scores = [5]
prefixes = [\"0.0.0.0/0\", \"::/0\"]
[[group]]
name = \"b\"
demand = 4
pools = [\"A\"]
scores = [6]
prefixes = []
[[group]]
name = \"c\"
demand = 8
pools = [\"B\"]
scores = [1]
prefixes = []
";

/// Eight nodes on one path, of which the root is full.
pub const EIGHT_LEVELS: &str = "node = [
{name = \"n0\", capacity = 3},
{name = \"n1\", parent = \"n0\", capacity = 9},
{name = \"n2\", parent = \"n1\", capacity = 9},
{name = \"n3\", parent = \"n2\", capacity = 9},
{name = \"n4\", parent = \"n3\", capacity = 9},
{name = \"n5\", parent = \"n4\", capacity = 9},
{name = \"n6\", parent = \"n5\", capacity = 9},
{name = \"n7\", parent = \"n6\", capacity = 9, pool = true},
]
group = [{name = \"g\", demand = 4, pools = [\"n7\"], scores = [0], prefixes = [\"0.0.0.0/0\", \"::/0\"]}]
";

/// No group has the prefix of all IPv6 addresses.
pub const NO_DEFAULT: &str = "node = [{name = \"A\", capacity = 10, pool = true}]
group = [{name = \"g\", demand = 4, pools = [\"A\"], scores = [0], prefixes = [\"0.0.0.0/0\"]}]
";

/// The good map of FLAT.
pub const GOOD_FLAT: &[u8] = b"glb map 1\nplace g A 4\nend\n";

/// The good map of REGION, as octets and as a text.
pub const GOOD_REGION: &[u8] =
    b"glb map 1\nplace g1 A 8\nplace g2 A 2\nplace g2 B 5\nfull g2 A A\nfull g2 B R\nend\n";

pub const REGION_MAP: &str =
    "glb map 2\nplace g1 A 8\nplace g2 A 2\nplace g2 B 5\nfull g2 A A\nfull g2 B R\nend\n";

/// Words of a command line.
pub(crate) fn words_of(alloc: Global, words: &[&str]) -> Result<Vec<String>, NoMemory> {
    let mut texts = Vec::new(alloc);
    for word in words {
        texts.push(String::from_str(alloc, word)?)?;
    }
    Ok(texts)
}

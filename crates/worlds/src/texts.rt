//! The example as files say it.

/// The zone of the example.
pub const ZONE: &str = r#"[zone]
apex = "cdn.example"
mname = "ns1.ops.example"
rname = "admin.ops.example"
serial = 1
refresh = 3600
retry = 600
expire = 86400
minimum = 60
ttl = 20
ns = ["ns1.ops.example", "ns2.ops.example"]
services = ["www"]
"#;

/// The example: two pools in one region that holds less than both, and two groups.
pub const EXAMPLE_TREE: &str = r#"[zone]
apex = "cdn.example"
mname = "ns1.ops.example"
rname = "admin.ops.example"
serial = 1
refresh = 3600
retry = 600
expire = 86400
minimum = 60
ttl = 20
ns = ["ns1.ops.example", "ns2.ops.example"]
services = ["www"]
[[node]]
name = "R"
capacity = 15
[[node]]
name = "A"
parent = "R"
capacity = 10
pool = true
a = ["192.0.2.1"]
aaaa = ["2001:db8::1"]
[[node]]
name = "B"
parent = "R"
capacity = 10
pool = true
a = ["192.0.2.2"]
[[group]]
name = "g1"
demand = 8
pools = ["A", "B"]
scores = [1, 2]
prefixes = ["0.0.0.0/0", "::/0"]
[[group]]
name = "g2"
demand = 8
pools = ["A", "B"]
scores = [3, 4]
prefixes = ["198.51.100.0/24"]
"#;

/// A feed over the example: lines of each kind, some that are refused, and no line's end behind the last.
pub const EXAMPLE_FEED: &[u8] = b"demand g2 4
commit

demand nobody 3
demand g1 0
capacity A 281474976710657
commit
commit
ask 198.51.100.7 1234
show\xff
commit now
show
capacity B 7
commit
demand g1 3
capacity A 281474976710656
commit
show";

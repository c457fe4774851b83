//! The texts, against a second generator (bench/large_world.py) that was written apart from this one.
use big_world::{LARGEST_WORLD, make};
use std::alloc::Global;
use std::test::Fail;

/// The number of groups, and length and checksum of the topology and of the feed.
type Row = (u32, usize, u64, usize, u64);

const ROWS: &[Row] = &[
    (1, 704, 0x804b9611cd7b87b6, 1049, 0x7030542125539b70),
    (2, 814, 0x01e8c1721b8a9f36, 1041, 0xfc68b2be6e7c5837),
    (63, 7857, 0x0582b8cd432a891a, 1066, 0x904bdc3198f2c560),
    (64, 9953, 0x464fc4593cf2574b, 1089, 0x44c7cbd325a47f4e),
    (65, 9873, 0xa153181216b73aca, 1077, 0xbfd10611e6f25c08),
    (1000, 152995, 0xdbb2e425ffb57fe3, 1130, 0x5ae94696a2c9d55a),
    (
        LARGEST_WORLD,
        2603327,
        0x63af5d9e34c810c0,
        1213,
        0x29526ccc6fddbc6f,
    ),
];

/// The FNV-1a checksum of 64 bits.
fn checksum(octets: &[u8]) -> u64 {
    let mut sum: u64 = 0xcbf29ce484222325;
    for octet in octets {
        sum = (sum ^ u64::from(*octet)).wrapping_mul(0x100000001b3);
    }
    sum
}

/// Whether the texts of a row are those of the second generator.
fn is_equal(alloc: Global, row: &Row) -> Result<bool, Fail> {
    let (groups, long, sum, feed_long, feed_sum) = *row;
    if groups < 1 || groups > LARGEST_WORLD {
        return Ok(false);
    }
    let (topology, feed) = make(alloc, groups)?;
    let same = topology.len() == long && checksum(topology.as_slice()) == sum;
    Ok(same && feed.len() == feed_long && checksum(feed.as_slice()) == feed_sum)
}

#[test]
fn equal_to_a_second_generator(rt: HostRuntime) -> Result<(), Fail> {
    let alloc = rt.alloc();
    for row in ROWS {
        assert!(rt; is_equal(alloc, row)?, "{}", row.0);
    }
    Ok(())
}

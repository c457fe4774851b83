//! Client subnet options, read and written.
use crate::{ClientSubnet, SubnetOpt, option_size, read_options, write_subnet};
use addr_text::Addr;
use arrayvec::ArrayVec;

const fn v4(source: u8, number: u32) -> ClientSubnet {
    ClientSubnet::Given(SubnetOpt {
        source,
        addr: Addr::V4(number),
    })
}

const fn v6(source: u8, number: u128) -> ClientSubnet {
    ClientSubnet::Given(SubnetOpt {
        source,
        addr: Addr::V6(number),
    })
}

#[test]
fn reads_options(rt: HostRuntime) {
    let rows = [
        // 198.51.100.0/24, alone and among others, of which a second one is ignored.
        (
            b"\0\x08\0\x07\0\x01\x18\0\xc6\x33\x64".as_slice(),
            v4(24, 0xc633_6400),
        ),
        (
            b"\0\x0a\0\x02ab\0\x08\0\x07\0\x01\x18\0\xc6\x33\x64\0\x08\0\0\0\x03\0\0",
            v4(24, 0xc633_6400),
        ),
        // 20 bits; 0 bits; 32 bits.
        (b"\0\x08\0\x07\0\x01\x14\0\xc6\x33\x60", v4(20, 0xc633_6000)),
        (b"\0\x08\0\x04\0\x01\0\0", v4(0, 0)),
        (
            b"\0\x08\0\x08\0\x01\x20\0\xff\xff\xff\xff",
            v4(32, 0xffff_ffff),
        ),
        // 2001:db8::/33; all of an IPv6 address.
        (
            b"\0\x08\0\x09\0\x02\x21\0\x20\x01\x0d\xb8\x80",
            v6(33, 0x2001_0db8_8000_0000_0000_0000_0000_0000),
        ),
        (
            b"\0\x08\0\x14\0\x02\x80\0\0\x01\x02\x03\x04\x05\x06\x07\x08\x09\x0a\x0b\x0c\x0d\x0e\x0f",
            v6(128, 0x0001_0203_0405_0607_0809_0a0b_0c0d_0e0f),
        ),
        (b"", ClientSubnet::None),
        (b"\0\x0a\0\0", ClientSubnet::None),
        (b"\0\x08\0\x04\0\0\0\0", ClientSubnet::Ignored),
        // Fewer than four octets; family 0 with more than zeros; family 3.
        (b"\0\x08\0\x03\0\x01\0", ClientSubnet::Bad),
        (b"\0\x08\0\x05\0\0\0\0\0", ClientSubnet::Bad),
        (b"\0\x08\0\x05\0\0\x08\0\0", ClientSubnet::Bad),
        (b"\0\x08\0\x04\0\x03\0\0", ClientSubnet::Bad),
        // A bit beyond 20; an octet too few, and one too many; a scope; over 32, over 128 bits.
        (b"\0\x08\0\x07\0\x01\x14\0\xc6\x33\x64", ClientSubnet::Bad),
        (b"\0\x08\0\x06\0\x01\x18\0\xc6\x33", ClientSubnet::Bad),
        (b"\0\x08\0\x08\0\x01\x18\0\xc6\x33\x64\0", ClientSubnet::Bad),
        (b"\0\x08\0\x07\0\x01\x18\x18\xc6\x33\x64", ClientSubnet::Bad),
        (
            b"\0\x08\0\x09\0\x01\x21\0\xc6\x33\x64\0\0",
            ClientSubnet::Bad,
        ),
        (
            b"\0\x08\0\x15\0\x02\x81\0\0\0\0\0\0\0\0\0\0\0\0\0\0\0\0\0\0",
            ClientSubnet::Bad,
        ),
        // The options do not fill the octets.
        (b"\0\x08\0\x07\0\x01\x18\0\xc6\x33\x64\0", ClientSubnet::Bad),
        (b"\0\x0a\0\x03ab", ClientSubnet::Bad),
        (b"\0\x08\0", ClientSubnet::Bad),
    ];
    for (options, subnet) in rows {
        assert_eq!(rt; read_options(options), subnet);
    }
}

/// The option of a reply, of either family.
#[test]
fn writes_subnets(rt: HostRuntime) {
    let mut out = ArrayVec::new();
    let subnet = SubnetOpt {
        source: 20,
        addr: Addr::V4(0xc633_6000),
    };
    write_subnet(&mut out, &subnet, 25);
    assert_eq!(rt;
        out.as_slice(),
        b"\0\x08\0\x07\0\x01\x14\x19\xc6\x33\x60".as_slice()
    );
    assert_eq!(rt; option_size(&subnet), 11);
    let mut wide = ArrayVec::new();
    let subnet = SubnetOpt {
        source: 33,
        addr: Addr::V6(0x2001_0db8_8000_0000_0000_0000_0000_0000),
    };
    write_subnet(&mut wide, &subnet, 0);
    let option = b"\0\x08\0\x09\0\x02\x21\0\x20\x01\x0d\xb8\x80".as_slice();
    assert_eq!(rt; wide.as_slice(), option);
}

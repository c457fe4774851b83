//! Addresses, prefixes and addresses to listen at, read and written.
use addr_text::{Addr, Listen, Peer, Prefix, read_addr, read_listen, read_prefix, write_addr};
use arrayvec::ArrayVec;
use std::process::Abort;

/// Texts of RFC 4291 section 2.2, of RFC 5952 sections 1, 2 and 4, and the first and the last of each kind.
const ADDRESSES: &[(&str, Addr)] = &[
    ("0.0.0.0", Addr::V4(0)),
    ("255.255.255.255", Addr::V4(0xffff_ffff)),
    ("192.0.2.1", Addr::V4(0xc000_0201)),
    ("198.51.100.10", Addr::V4(0xc633_640a)),
    ("::", Addr::V6(0)),
    ("::1", Addr::V6(1)),
    ("1::", Addr::V6(0x0001_0000_0000_0000_0000_0000_0000_0000)),
    (
        "2001:DB8::1",
        Addr::V6(0x2001_0db8_0000_0000_0000_0000_0000_0001),
    ),
    (
        "2001:db8::1",
        Addr::V6(0x2001_0db8_0000_0000_0000_0000_0000_0001),
    ),
    (
        "2001:0db8:0:0:0:0:0:0001",
        Addr::V6(0x2001_0db8_0000_0000_0000_0000_0000_0001),
    ),
    (
        "ABCD:EF01:2345:6789:ABCD:EF01:2345:6789",
        Addr::V6(0xabcd_ef01_2345_6789_abcd_ef01_2345_6789),
    ),
    (
        "2001:DB8:0:0:8:800:200C:417A",
        Addr::V6(0x2001_0db8_0000_0000_0008_0800_200c_417a),
    ),
    (
        "2001:DB8::8:800:200C:417A",
        Addr::V6(0x2001_0db8_0000_0000_0008_0800_200c_417a),
    ),
    (
        "FF01:0:0:0:0:0:0:101",
        Addr::V6(0xff01_0000_0000_0000_0000_0000_0000_0101),
    ),
    (
        "FF01::101",
        Addr::V6(0xff01_0000_0000_0000_0000_0000_0000_0101),
    ),
    ("0:0:0:0:0:0:0:1", Addr::V6(1)),
    (
        "2001:db8:aaaa:bbbb:cccc:dddd:eeee:AaAa",
        Addr::V6(0x2001_0db8_aaaa_bbbb_cccc_dddd_eeee_aaaa),
    ),
    (
        "1:2:3:4:5:6:7::",
        Addr::V6(0x0001_0002_0003_0004_0005_0006_0007_0000),
    ),
    (
        "::2:3:4:5:6:7:8",
        Addr::V6(0x0000_0002_0003_0004_0005_0006_0007_0008),
    ),
    (
        "1:2:3::5:6:7:8",
        Addr::V6(0x0001_0002_0003_0000_0005_0006_0007_0008),
    ),
];

fn assert_read(rt: &impl Abort, rows: &[(&str, Addr)]) {
    for (text, addr) in rows {
        assert_eq!(rt; read_addr(text.as_bytes()), Some(*addr), "{text}");
    }
}

#[test]
fn reads_addresses(rt: HostRuntime) {
    assert_read(&rt, ADDRESSES);
}

/// Texts that are no addresses.
const NO_ADDRESSES: &[&str] = &[
    "",
    " ",
    ".",
    ":",
    "/",
    "1",
    "1.2.3",
    "1.2.3.4.5",
    "1.2.3.",
    ".1.2.3",
    "1..2.3",
    "01.2.3.4",
    "1.2.3.04",
    "00.0.0.0",
    "256.0.0.1",
    "1.2.3.256",
    "1.2.3.4294967296",
    "1.2.3.-4",
    "1.2.3.+4",
    "1.2.3.a",
    "1.2.3.4 ",
    " 1.2.3.4",
    "1.2.3.4/32",
    "0x1.2.3.4",
    ":::",
    "::1::",
    "1::2::3",
    ":1",
    "1:",
    ":1::",
    "::1:",
    "1:2:3:4:5:6:7",
    "1:2:3:4:5:6:7:8:9",
    "1:2:3:4:5:6:7:8::",
    "::1:2:3:4:5:6:7:8",
    "1:2:3:4::5:6:7:8",
    "12345::",
    "::g",
    "2001:db8::1%eth0",
    "fe80::1%1",
    "::ffff:192.0.2.1",
    "::192.0.2.1",
    "1:2:3:4:5:6:192.0.2.1",
    "[::1]",
    "::1/128",
];

fn assert_refused(rt: &impl Abort, rows: &[&str]) {
    for text in rows {
        assert_eq!(rt; read_addr(text.as_bytes()), None, "{text}");
    }
}

#[test]
fn refuses_addresses(rt: HostRuntime) {
    assert_refused(&rt, NO_ADDRESSES);
}

/// The texts of RFC 5952 section 4, and of runs at the front and at the end, each beside what is written of its address.
const WRITTEN: &[(&str, &str)] = &[
    ("0.0.0.0", "0.0.0.0"),
    ("203.0.113.255", "203.0.113.255"),
    ("10.9.99.100", "10.9.99.100"),
    ("2001:DB8::1", "2001:db8::1"),
    ("2001:0db8::0001", "2001:db8::1"),
    ("2001:db8:0:0:0:0:2:1", "2001:db8::2:1"),
    ("2001:db8::1:1:1:1:1", "2001:db8:0:1:1:1:1:1"),
    ("2001:0:0:1:0:0:0:1", "2001:0:0:1::1"),
    ("2001:db8:0:0:1:0:0:1", "2001:db8::1:0:0:1"),
    ("2001:db8::aaaa:0:0:1", "2001:db8::aaaa:0:0:1"),
    (
        "2001:DB8:AAAA::BBBB:CCCC:DDDD:EEEE",
        "2001:db8:aaaa:0:bbbb:cccc:dddd:eeee",
    ),
    ("0:0:0:0:0:0:0:0", "::"),
    ("0:0:0:0:0:0:0:1", "::1"),
    ("1:0:0:0:0:0:0:0", "1::"),
    ("0:0:1:0:0:1:0:0", "::1:0:0:1:0:0"),
    ("0:1:0:1:0:1:0:1", "0:1:0:1:0:1:0:1"),
    ("1:0:0:2:0:0:0:0", "1:0:0:2::"),
    ("ff:fff:f0:f00:f000:a:b:c0", "ff:fff:f0:f00:f000:a:b:c0"),
    (
        "ffff:ffff:ffff:ffff:ffff:ffff:ffff:ffff",
        "ffff:ffff:ffff:ffff:ffff:ffff:ffff:ffff",
    ),
];

fn assert_written(rt: &impl Abort, rows: &[(&str, &str)]) {
    let mut out = ArrayVec::new();
    for (text, written) in rows {
        let addr = read_addr(text.as_bytes());
        assert!(rt; addr.is_some(), "{text}");
        if let Some(addr) = addr {
            write_addr(addr, &mut out);
        }
        assert_eq!(rt; out.as_slice(), written.as_bytes(), "{text}");
    }
}

#[test]
fn writes_addresses(rt: HostRuntime) {
    assert_written(&rt, WRITTEN);
}

#[test]
fn reads_prefixes(rt: HostRuntime) {
    let low = 0x2001_0db8_0000_0000_0000_0000_0000_0000;
    let rows = [
        ("0.0.0.0/0", Some((Addr::V4(0), 0))),
        ("::/0", Some((Addr::V6(0), 0))),
        ("198.51.100.0/24", Some((Addr::V4(0xc633_6400), 24))),
        ("198.51.100.1/32", Some((Addr::V4(0xc633_6401), 32))),
        ("128.0.0.0/1", Some((Addr::V4(0x8000_0000), 1))),
        ("2001:db8::/32", Some((Addr::V6(low), 32))),
        ("2001:db8::1/128", Some((Addr::V6(low + 1), 128))),
        (
            "8000::/1",
            Some((Addr::V6(0x8000_0000_0000_0000_0000_0000_0000_0000), 1)),
        ),
        ("198.51.100.1/24", None),
        ("198.51.100.0/21", None),
        ("128.0.0.0/0", None),
        ("0.0.0.1/31", None),
        ("::1/0", None),
        ("2001:db8::1/127", None),
        ("0.0.0.0/33", None),
        ("::/129", None),
        ("0.0.0.0/00", None),
        ("0.0.0.0/08", None),
        ("0.0.0.0/", None),
        ("0.0.0.0", None),
        ("/0", None),
        ("", None),
        ("0.0.0.0//0", None),
        ("0.0.0.0/0/0", None),
        ("0.0.0.0/0 ", None),
        ("0.0.0.0/+0", None),
        ("10.0.0/8", None),
    ];
    for (text, want) in rows {
        let got = read_prefix(text.as_bytes()).map(|p| (p.addr, p.len));
        assert_eq!(rt; got, want, "{text}");
    }
}

#[test]
fn reads_listen_texts(rt: HostRuntime) {
    let rows = [
        ("127.0.0.1:5300", Some((Addr::V4(0x7f00_0001), 5300))),
        ("0.0.0.0:0", Some((Addr::V4(0), 0))),
        ("127.0.0.1:65535", Some((Addr::V4(0x7f00_0001), 65535))),
        ("[::1]:53", Some((Addr::V6(1), 53))),
        ("[::]:0", Some((Addr::V6(0), 0))),
        ("127.0.0.1:65536", None),
        ("127.0.0.1:053", None),
        ("127.0.0.1:00", None),
        ("127.0.0.1:", None),
        ("127.0.0.1", None),
        (":53", None),
        ("", None),
        (":", None),
        ("53", None),
        ("::1:53", None),
        ("[::1]", None),
        ("[::1]53", None),
        ("[::1:53", None),
        ("::1]:53", None),
        ("[]:53", None),
        ("[:53", None),
        ("[127.0.0.1]:53", None),
        ("[[::1]]:53", None),
        ("[::1%lo]:53", None),
        ("localhost:53", None),
        ("127.0.0.1:53 ", None),
        ("127.0.0.1:+53", None),
        ("127.0.0.1::53", None),
        ("127.0.0.1:99999999999999999999", None),
    ];
    for (text, want) in rows {
        let got = read_listen(text.as_bytes()).map(|l| (l.addr, l.port));
        assert_eq!(rt; got, want, "{text}");
    }
}

#[test]
fn kinds_differ(rt: HostRuntime) {
    assert!(rt; Addr::V4(0) != Addr::V6(0));
    assert_eq!(rt; Addr::V4(7).bits(), 32);
    assert_eq!(rt; Addr::V6(7).bits(), 128);
    let listen = Listen {
        addr: Addr::V4(1),
        port: 53,
    };
    let peer = Peer {
        addr: listen.addr,
        port: listen.port,
    };
    assert!(rt;
        peer == Peer {
            addr: Addr::V4(1),
            port: 53
        }
    );
    assert!(rt;
        Prefix {
            addr: Addr::V4(0),
            len: 0
        } != Prefix {
            addr: Addr::V6(0),
            len: 0
        }
    );
}

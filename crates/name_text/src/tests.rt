//! Names read from texts, and names that are the same or one under the other.
use crate::{Name, NameFault, read_label, read_name, same_name, under};
use arrayvec::ArrayVec;
use std::test::Fail;

#[test]
fn reads_names(rt: HostRuntime) {
    let rows = [
        ("a", "\x01a\0"),
        ("a.", "\x01a\0"),
        ("cdn.example", "\x03cdn\x07example\0"),
        ("ns1.ops.example", "\x03ns1\x03ops\x07example\0"),
        ("WWW.Example.COM.", "\x03WWW\x07Example\x03COM\0"),
        ("_dns-1.0", "\x06_dns-1\x010\0"),
        ("-.-", "\x01-\x01-\0"),
        ("azAZ09-_", "\x08azAZ09-_\0"),
    ];
    for (text, wire) in rows {
        let name = read_name(text.as_bytes());
        assert!(rt; name.is_ok(), "{text}");
        if let Ok(name) = name {
            assert_eq!(rt; name.wire(), wire.as_bytes(), "{text}");
        }
    }
}

#[test]
fn refuses_names(rt: HostRuntime) {
    let rows = [
        ("", NameFault::EmptyLabel),
        (".", NameFault::EmptyLabel),
        ("..", NameFault::EmptyLabel),
        (".a", NameFault::EmptyLabel),
        ("a..", NameFault::EmptyLabel),
        ("a..b", NameFault::EmptyLabel),
        ("a..b c", NameFault::EmptyLabel),
        ("a b..c", NameFault::BadByte),
        ("a b", NameFault::BadByte),
        ("a\\.b", NameFault::BadByte),
        ("\\097", NameFault::BadByte),
        ("*.a", NameFault::BadByte),
        ("a.b/", NameFault::BadByte),
        ("a.b:", NameFault::BadByte),
        ("a.@", NameFault::BadByte),
        ("a.[", NameFault::BadByte),
        ("a.`", NameFault::BadByte),
        ("a.{", NameFault::BadByte),
        ("é", NameFault::BadByte),
    ];
    for (text, fault) in rows {
        assert!(rt; read_name(text.as_bytes()).err() == Some(fault), "{text}");
    }
}

/// Labels of so many `a`, joined by dots, and an end.
fn labels(sizes: &[usize], end: &[u8]) -> ArrayVec<u8, 300> {
    let mut text = ArrayVec::new();
    for (i, size) in sizes.iter().enumerate() {
        if i > 0 {
            let _ = text.try_push(b'.');
        }
        for _octet in 0..*size {
            let _ = text.try_push(b'a');
        }
    }
    let _ = text.try_extend_from_slice(end);
    text
}

/// Names of 255 and 256 octets on the wire, and labels of 63 and 64.
#[test]
fn bounds_sizes(rt: HostRuntime) {
    let rows = [
        (labels(&[63], b""), None),
        (labels(&[64], b""), Some(NameFault::LongLabel)),
        (labels(&[64], b"."), Some(NameFault::LongLabel)),
        (labels(&[64], b" "), Some(NameFault::BadByte)),
        (labels(&[64], b"..b"), Some(NameFault::LongLabel)),
        (labels(&[63, 63, 63, 61], b""), None),
        (labels(&[63, 63, 63, 61], b"."), None),
        (labels(&[63, 63, 63, 62], b""), Some(NameFault::LongName)),
        (labels(&[63, 63, 63, 62], b"."), Some(NameFault::LongName)),
        (
            labels(&[63, 63, 63, 63], b"..a"),
            Some(NameFault::EmptyLabel),
        ),
        (labels(&[63, 63, 63, 63], b".!"), Some(NameFault::BadByte)),
        (
            labels(&[63, 63, 63, 63, 1, 30], b""),
            Some(NameFault::LongName),
        ),
    ];
    for (text, fault) in rows {
        let name = read_name(text.as_slice());
        if fault.is_none() {
            assert!(rt; name.is_ok());
        }
        assert!(rt; name.err() == fault);
    }
    let text = labels(&[63, 63, 63, 61], b"");
    let size = read_name(text.as_slice()).map(|name| name.wire().len());
    assert!(rt; size == Ok(255));
}

#[test]
fn reads_labels(rt: HostRuntime) {
    let long = labels(&[64], b"");
    let rows = [
        (b"www".as_slice(), None),
        (b"www.".as_slice(), Some(NameFault::BadByte)),
        (b"a.b".as_slice(), Some(NameFault::BadByte)),
        (b"".as_slice(), Some(NameFault::EmptyLabel)),
        (b".".as_slice(), Some(NameFault::BadByte)),
        (long.as_slice(), Some(NameFault::LongLabel)),
    ];
    for (text, fault) in rows {
        assert!(rt; read_label(text).err() == fault);
    }
    let wire = read_label(b"www");
    assert!(rt; wire.is_ok());
    if let Ok(name) = wire {
        assert_eq!(rt; name.wire(), b"\x03www\0".as_slice());
    }
}

/// The wire of a text that is a name.
fn name(text: &str) -> Result<Name, NameFault> {
    read_name(text.as_bytes())
}

/// Whole labels, in either case (RFC 4343).
#[test]
fn compares_names(rt: HostRuntime) -> Result<(), Fail> {
    let rows = [
        ("cdn.example", "cdn.example", true, true),
        ("CDN.Example.", "cdn.eXAMPLE", true, true),
        ("www.cdn.example", "cdn.example", false, true),
        ("a.b.CDN.example", "cdn.EXAMPLE", false, true),
        ("xcdn.example", "cdn.example", false, false),
        ("cdn.example", "www.cdn.example", false, false),
        ("example", "cdn.example", false, false),
        ("cdn.example.org", "cdn.example", false, false),
        ("www.cdn-example", "cdn.example", false, false),
        ("cdn_example", "cdn-example", false, false),
        ("a1", "aq", false, false),
    ];
    for (text, apex, same, below) in rows {
        let left = name(text)?;
        let right = name(apex)?;
        assert_eq!(rt; same_name(left.wire(), right.wire()), same, "{text} {apex}");
        assert_eq!(rt; under(left.wire(), right.wire()), below, "{text} {apex}");
    }
    let root = b"\0".as_slice();
    assert!(rt; under(root, root));
    assert!(rt; under(b"\x01a\0", root));
    assert!(rt; !under(root, b"\x01a\0"));
    assert!(rt; !under(b"\x0bxxx\x03cdn\x03xyz\0", b"\x03cdn\x03xyz\0"));
    Ok(())
}

//! Texts cut, and digits read.
use crate::{
    after, are_digits, before, cut, decimal_value, position_of, read_count, split_first, split_last,
};

#[test]
fn finds_the_first(rt: HostRuntime) {
    let rows: [(&[u8], Option<usize>); 5] = [
        (b"a.b.c", Some(1)),
        (b".", Some(0)),
        (b"ab.", Some(2)),
        (b"abc", None),
        (b"", None),
    ];
    for (text, place) in rows {
        assert_eq!(rt; position_of(text, b'.'), place);
    }
}

#[test]
fn cuts_at_a_place(rt: HostRuntime) {
    let rows: [(&[u8], &[u8], usize); 3] = [(b"", b"abc", 0), (b"ab", b"c", 2), (b"abc", b"", 3)];
    for (front, back, place) in rows {
        assert_eq!(rt; before(b"abc", place), front);
        assert_eq!(rt; after(b"abc", place), back);
    }
}

/// Each text, its parts round the first colon, and those round the last.
#[test]
fn splits_at_the_first_and_the_last(rt: HostRuntime) {
    let rows: [(&[u8], (&[u8], &[u8]), (&[u8], &[u8])); 6] = [
        (b"a:b:c", (b"a", b"b:c"), (b"a:b", b"c")),
        (b":b", (b"", b"b"), (b"", b"b")),
        (b"a:", (b"a", b""), (b"a", b"")),
        (b"::", (b"", b":"), (b":", b"")),
        (b"abc", (b"abc", b""), (b"", b"abc")),
        (b"", (b"", b""), (b"", b"")),
    ];
    for (text, first, last) in rows {
        assert_eq!(rt; split_first(text, b':'), first);
        assert_eq!(rt; split_last(text, b':'), last);
    }
}

#[test]
fn cuts(rt: HostRuntime) {
    let rows: [(&[u8], Option<(&[u8], &[u8])>); 4] = [
        (b"a\nb\n", Some((b"a", b"b\n"))),
        (b"\n", Some((b"", b""))),
        (b"", None),
        (b"ab", None),
    ];
    for (text, want) in rows {
        assert_eq!(rt; cut(text, b'\n'), want);
    }
}

#[test]
fn reads_digits(rt: HostRuntime) {
    let rows: [(&[u8], Option<u64>); 4] = [
        (b"", Some(0)),
        (b"0042", Some(42)),
        (b"18446744073709551615", Some(u64::MAX)),
        (b"18446744073709551616", None),
    ];
    for (digits, want) in rows {
        assert!(rt; are_digits(digits));
        assert_eq!(rt; decimal_value(digits), want);
    }
}

#[test]
fn reads_counts(rt: HostRuntime) {
    let rows: [(&[u8], u64, Option<u64>); 8] = [
        (b"", 16, None),
        (b"0", 16, None),
        (b"01", 16, None),
        (b"1", 16, Some(1)),
        (b"16", 16, Some(16)),
        (b"17", 16, None),
        (b"+1", 16, None),
        (b"18446744073709551616", u64::MAX, None),
    ];
    for (text, limit, want) in rows {
        assert_eq!(rt; read_count(text, limit), want);
    }
}

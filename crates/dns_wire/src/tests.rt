//! Datagrams and names on the wire, worked out by hand.
ghost use Rattle.std.specs.Prelude.{◌<◌};

use crate::{
    Head, Message, Opt, Query, read_query, write_head, write_opt, write_question, write_record,
};
use arrayvec::ArrayVec;

const HEAD: Head = Head {
    id: 0x1234,
    opcode: 0,
    rd: true,
};

/// A query for the addresses of www.cdn.example, with the client subnet 198.51.100.0/24.
const SUBNET_QUERY: [u8; 55] =
    *b"\x12\x34\x01\0\0\x01\0\0\0\0\0\x01\x03www\x03cdn\x07example\0\0\x01\0\x01\
    \0\0\x29\x04\xd0\0\0\0\0\0\x0b\0\x08\0\x07\0\x01\x18\0\xc6\x33\x64";

/// That query with another OPT.
fn www(opt: Option<Opt<'static>>) -> Message<'static> {
    Message::Query(Query {
        head: HEAD,
        name: b"\x03www\x03cdn\x07example\0",
        kind: 1,
        class: 1,
        opt,
    })
}

#[test]
fn reads_queries(rt: HostRuntime) {
    let subnet = Opt {
        payload: 1232,
        version: 0,
        dnssec_ok: false,
        options: b"\0\x08\0\x07\0\x01\x18\0\xc6\x33\x64",
    };
    let other = Opt {
        payload: 0xffff,
        version: 1,
        dnssec_ok: true,
        options: b"",
    };
    let rows = [
        (
            b"\x12\x34\x01\0\0\x01\0\0\0\0\0\0\x03www\x03cdn\x07example\0\0\x01\0\x01".as_slice(),
            www(None),
        ),
        (SUBNET_QUERY.as_slice(), www(Some(subnet))),
        // All other flags of the header, an unknown record whose name is a pointer, an OPT with flags of its own, and octets behind it.
        (
            b"\x12\x34\x07\xff\0\x01\0\0\0\0\0\x02\x03www\x03cdn\x07example\0\0\x01\0\x01\
            \xc0\x0c\0\x10\0\x01\0\0\0\0\0\x01!\0\0\x29\xff\xff\x05\x01\xff\xff\0\0rest"
                .as_slice(),
            www(Some(other)),
        ),
        // The root's name, and all bits of type and class.
        (
            b"\0\0\0\0\0\x01\0\0\0\0\0\0\0\xff\xfe\xfd\xfc".as_slice(),
            Message::Query(Query {
                head: Head {
                    id: 0,
                    opcode: 0,
                    rd: false,
                },
                name: b"\0",
                kind: 0xfffe,
                class: 0xfdfc,
                opt: None,
            }),
        ),
    ];
    for (octets, message) in rows {
        assert_eq!(rt; read_query(octets), message);
    }
}

const FORM: Message<'static> = Message::Form(HEAD);

/// Octets that are no query, and what they are.
const NO_QUERIES: &[(&[u8], Message<'static>)] = &[
    (b"\x12\x34\x01\0\0\x01\0\0\0\0\0", Message::Silent),
    (
        &[0; 12],
        Message::Form(Head {
            id: 0,
            opcode: 0,
            rd: false,
        }),
    ),
    (
        b"\x12\x34\x81\0\0\x01\0\0\0\0\0\0\0\0\x01\0\x01",
        Message::Silent,
    ),
    (
        b"\x12\x34\x11\0\0\x02\0\0\0\0\0\0",
        Message::NotImp(Head {
            id: 0x1234,
            opcode: 2,
            rd: true,
        }),
    ),
    (
        b"\x12\x34\x78\0\0\x01\0\0\0\0\0\0",
        Message::NotImp(Head {
            id: 0x1234,
            opcode: 15,
            rd: false,
        }),
    ),
    // Two questions, an answer, an authority record.
    (
        b"\x12\x34\x01\0\0\x02\0\0\0\0\0\0\0\0\x01\0\x01\0\0\x01\0\x01",
        FORM,
    ),
    (b"\x12\x34\x01\0\0\x01\0\x01\0\0\0\0\0\0\x01\0\x01", FORM),
    (b"\x12\x34\x01\0\0\x01\0\0\x01\0\0\0\0\0\x01\0\x01", FORM),
    // A pointer, and length octets of either reserved kind.
    (
        b"\x12\x34\x01\0\0\x01\0\0\0\0\0\0\x01a\xc0\x0c\0\x01\0\x01",
        FORM,
    ),
    (b"\x12\x34\x01\0\0\x01\0\0\0\0\0\0\x40\0\0\x01\0\x01", FORM),
    (
        b"\x12\x34\x01\0\0\x01\0\0\0\0\0\x01\0\0\x01\0\x01\x80\0\0\x01\0\x01\0\0\0\0\0\0",
        FORM,
    ),
    // More records than there are octets.
    (b"\x12\x34\x01\0\0\x01\0\0\0\0\xff\xff\0\0\x01\0\x01", FORM),
    (
        b"\x12\x34\x01\0\0\x01\0\0\0\0\0\x01\0\0\x01\0\x01\0\0\x10\0\x01\0\0\0\0\0\x01",
        FORM,
    ),
    // Two OPT records, and one whose name is a pointer.
    (
        b"\x12\x34\x01\0\0\x01\0\0\0\0\0\x02\0\0\x01\0\x01\0\0\x29\x04\xd0\0\0\0\0\0\0\0\0\x29\x04\xd0\0\0\0\0\0\0",
        FORM,
    ),
    (
        b"\x12\x34\x01\0\0\x01\0\0\0\0\0\x01\0\0\x01\0\x01\xc0\x0c\0\x29\x04\xd0\0\0\0\0\0\0",
        FORM,
    ),
];

/// The first row that is read as something else.
fn first_misread(rows: &[(&[u8], Message<'_>)]) -> Option<usize> {
    for (i, (octets, message)) in rows.iter().enumerate() {
        if read_query(octets) != *message {
            return Some(i);
        }
    }
    None
}

#[test]
fn refuses_what_is_no_query(rt: HostRuntime) {
    assert_eq!(rt; first_misread(NO_QUERIES), None);
}

/// Names of 255 and 256 octets, and datagrams of 4,096 and 4,097.
#[test]
fn bounds_sizes(rt: HostRuntime) {
    let mut datagram = [0; 4097];
    datagram[5] = 1;
    // Labels of 63, 63 and 63 octets and a last one.
    datagram[12] = 63;
    datagram[76] = 63;
    datagram[140] = 63;
    let rows = [(61, 4096, 255), (61, 4097, 0), (62, 4096, 0)];
    for (last, size, length) in rows {
        datagram[204] = last;
        let found = match read_query(&datagram[..size]) {
            Message::Query(query) => query.name.len(),
            _ => 0,
        };
        assert_eq!(rt; found, length);
    }
}

/// The place of a message's case in the order of its table.
fn case_of(message: &Message) -> usize
    ensures { result < 4 }
{
    match message {
        Message::Silent => 0,
        Message::NotImp(_) => 1,
        Message::Form(_) => 2,
        Message::Query(_) => 3,
    }
}

/// A datagram that was cut off is no query.
#[test]
fn wants_all_octets(rt: HostRuntime) {
    for size in 0..55usize {
        let case = case_of(&read_query(&SUBNET_QUERY[..size]));
        assert_eq!(rt; case, if size < 12 { 0 } else { 2 });
    }
}

/// Each octet set to each value: how often each case comes was counted by another reader.
#[test]
fn judges_each_change(rt: HostRuntime) {
    let mut counts = [0u32; 4];
    for at in 0..55usize {
        for value in 0..=255u8 {
            let mut changed = SUBNET_QUERY;
            changed[at] = value;
            let case = case_of(&read_query(&changed));
            counts[case] = counts[case].wrapping_add(1);
        }
    }
    assert_eq!(rt; counts, [128, 120, 3797, 10035]);
}

/// The fields of a reply.
#[test]
fn writes_fields(rt: HostRuntime) {
    let mut head = ArrayVec::new();
    write_head(&mut head, &HEAD, true, false, 3, [1, 0, 0x102, 1]);
    assert_eq!(rt;
        head.as_slice(),
        b"\x12\x34\x85\x03\0\x01\0\0\x01\x02\0\x01".as_slice()
    );
    let mut cut = ArrayVec::new();
    let other = Head {
        id: 0,
        opcode: 2,
        rd: false,
    };
    write_head(&mut cut, &other, false, true, 4, [0; 4]);
    assert_eq!(rt; cut.as_slice(), b"\0\0\x92\x04\0\0\0\0\0\0\0\0".as_slice());
    let mut question = ArrayVec::new();
    write_question(&mut question, b"\x01a\0", 28, 0x102);
    assert_eq!(rt; question.as_slice(), b"\x01a\0\0\x1c\x01\x02".as_slice());
    let mut record = ArrayVec::new();
    write_record(&mut record, 0xc00c, 1, 20, b"\xc0\0\x02\x01");
    let a = b"\xc0\x0c\0\x01\0\x01\0\0\0\x14\0\x04\xc0\0\x02\x01".as_slice();
    assert_eq!(rt; record.as_slice(), a);
    let mut opt = ArrayVec::new();
    write_opt(&mut opt, 1, true, b"\0\x03\0\0");
    let extended = b"\0\0\x29\x04\xd0\x01\0\x80\0\0\x04\0\x03\0\0".as_slice();
    assert_eq!(rt; opt.as_slice(), extended);
}

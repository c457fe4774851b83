//! The numbers of DNS messages: sizes, types, the class, and the codes of replies and options.

/// How many octets a header has (RFC 1035 section 4.1.1).
pub const HEADER_SIZE: usize = 12;

/// How many octets a datagram may have that is replied to.
pub const LARGEST_DATAGRAM: usize = 4_096;

/// How many octets a reply has at most.
pub const LARGEST_REPLY: usize = 1_300;

/// How many octets a datagram may have that is sent to whoever says nothing of its size (RFC 1035 section 4.2.1).
pub const SMALLEST_LIMIT: usize = 512;

/// How many octets a message over a stream may have (RFC 1035 section 4.2.2).
pub const STREAM_LIMIT: usize = 65_535;

/// The size of a datagram that this server takes, as its OPT records tell it. It is a choice of this server.
pub const PAYLOAD_SIZE: u16 = 1_232;

/// The type of an IPv4 address (RFC 1035 section 3.2.2).
pub const A: u16 = 1;

/// The type of a name server (RFC 1035 section 3.2.2).
pub const NS: u16 = 2;

/// The type of a start of authority (RFC 1035 section 3.2.2).
pub const SOA: u16 = 6;

/// The type of an IPv6 address (RFC 3596 section 2.1).
pub const AAAA: u16 = 28;

/// The type of an OPT record (RFC 6891 section 6.1.1).
pub const OPT: u16 = 41;

/// All types, in a question alone (RFC 1035 section 3.2.3).
pub const ANY: u16 = 255;

/// The class of the Internet (RFC 1035 section 3.2.4).
pub const IN: u16 = 1;

/// The code where there is no error (RFC 1035 section 4.1.1).
pub const NOERROR: u8 = 0;

/// The code of a format error (RFC 1035 section 4.1.1).
pub const FORMERR: u8 = 1;

/// The code of a server failure (RFC 1035 section 4.1.1).
pub const SERVFAIL: u8 = 2;

/// The code of a name that does not exist (RFC 1035 section 4.1.1).
pub const NXDOMAIN: u8 = 3;

/// The code of an operation that is not implemented (RFC 1035 section 4.1.1).
pub const NOTIMP: u8 = 4;

/// The code of a query that is refused (RFC 1035 section 4.1.1).
pub const REFUSED: u8 = 5;

/// The upper part of the code of an EDNS version that is not spoken, BADVERS, which is 16 (RFC 6891 section 9).
pub const BADVERS_UPPER: u8 = 1;

/// The flag of an OPT record by which DNSSEC records are wanted (RFC 3225 section 3).
pub const DNSSEC_OK: u16 = 0x8000;

/// The option of a client subnet (RFC 7871 section 6).
pub const CLIENT_SUBNET: u16 = 8;

/// The pointer to the name right behind a header (RFC 1035 section 4.1.4).
pub const QUESTION_NAME: u16 = 0xc00c;

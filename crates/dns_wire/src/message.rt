//! What a datagram is.

/// What a reply repeats of a query's header (RFC 1035 section 4.1.1): ID, OPCODE and RD.
#[derive(Clone, Copy, Debug, PartialEq, Eq)]
pub struct Head {
    pub id: u16,
    /// 0 to 15; 0 is a standard query.
    pub opcode: u8,
    /// Recursion desired.
    pub rd: bool,
}

/// The OPT record of a query (RFC 6891 section 6.1), as its octets say.
#[derive(Clone, Copy, Debug, PartialEq, Eq)]
pub struct Opt<'a> {
    /// The requestor's UDP payload size: how many octets of a reply the asker takes.
    pub payload: u16,
    pub version: u8,
    /// The asker takes DNSSEC records (RFC 3225).
    pub dnssec_ok: bool,
    /// The octets of all options.
    pub options: &'a [u8],
}

/// A query of one question.
#[derive(Clone, Copy, Debug, PartialEq, Eq)]
pub struct Query<'a> {
    pub head: Head,
    /// The name that is asked for: labels with their lengths, and the 0 at the end; at most 255 octets, no pointer.
    pub name: &'a [u8],
    /// QTYPE (RFC 1035 section 3.2.3).
    pub kind: u16,
    /// QCLASS (RFC 1035 section 3.2.5).
    pub class: u16,
    pub opt: Option<Opt<'a>>,
}

/// What a datagram is.
#[derive(Clone, Copy, Debug, PartialEq, Eq)]
pub enum Message<'a> {
    /// Nothing that is replied to: under 12 octets, over 4,096, or a response.
    Silent,
    /// Another operation than a query: not implemented.
    NotImp(Head),
    /// No query that can be read: a format error.
    Form(Head),
    Query(Query<'a>),
}

//! The fields of a reply, each appended to what was written so far.
ghost use Rattle.std.specs.Prelude.{◌≡◌, ◌≤◌, ◌+◌, ◌*◌, ◌++◌, ◌∷◌, length};
ghost use Rattle.std.specs.List.{flat_map};
ghost use Rattle.arrayvec.specs.ArrayVec.{array_vec_len};
ghost use Rattle.dns_wire.specs.Room.{HasRoom};
ghost use Rattle.dns_wire.specs.Spelling as spelling;

use crate::Head;
use crate::numbers::{DNSSEC_OK, IN, OPT, PAYLOAD_SIZE};
use crate::octets::{ReplyBuffer, put, u16_octets, u32_octets};

/// A bit that counts for so much in the header's flags.
fn flag(set: bool, worth: u8) -> u8
    ensures { result ≡ spelling.bit set worth }
{
    if set { worth } else { 0 }
}

/// Appends the header of a reply, with these two octets of flags, at once.
fn put_head(out: &mut ReplyBuffer, id: u16, flags: u8, rcode: u8, counts: &[u16])
    requires room { HasRoom (array_vec_len out.old) 12 }
    requires four { length counts.now ≡ 4 }
    ensures { out.new.items ≡ out.old.items
        ++ (spelling.u16 id ++ flags ∷ rcode ∷ flat_map spelling.u16 counts.now) }
{
    let id = u16_octets(id);
    let questions = u16_octets(counts[0]);
    let answers = u16_octets(counts[1]);
    let authority = u16_octets(counts[2]);
    let additional = u16_octets(counts[3]);
    put(
        out,
        &[
            id[0],
            id[1],
            flags,
            rcode,
            questions[0],
            questions[1],
            answers[0],
            answers[1],
            authority[0],
            authority[1],
            additional[0],
            additional[1],
        ],
    );
}

/// Writes the header of a reply (RFC 1035 section 4.1.1): QR 1, RA and Z 0, and the four counts of its sections. Of `opcode` and `rcode` the low four bits count.
pub fn write_head(
    out: &mut ReplyBuffer,
    head: &Head,
    aa: bool,
    tc: bool,
    rcode: u8,
    counts: [u16; 4],
)
    requires { HasRoom (array_vec_len out.old) 12 }
    ensures { out.new.items ≡ out.old.items ++ spelling.header head.now aa tc rcode counts }
{
    let flags = 0x80 + 8 * (head.opcode % 16) + flag(aa, 4) + flag(tc, 2) + flag(head.rd, 1);
    put_head(out, head.id, flags, rcode % 16, &counts);
}

/// Writes a question (RFC 1035 section 4.1.2). The name is its octets on the wire.
pub fn write_question(out: &mut ReplyBuffer, name: &[u8], kind: u16, class: u16)
    requires { HasRoom (array_vec_len out.old) (length name.now + 4) }
    ensures { out.new.items ≡ out.old.items ++ spelling.question name.now kind class }
{
    let kind = u16_octets(kind);
    let class = u16_octets(class);
    put(out, name);
    put(out, &[kind[0], kind[1], class[0], class[1]]);
}

/// Writes a record of class IN (RFC 1035 section 4.1.3). `owner` is the two octets of a pointer to its name, `ttl` counts seconds, `octets` are its data.
pub fn write_record(out: &mut ReplyBuffer, owner: u16, kind: u16, ttl: u32, octets: &[u8])
    requires { HasRoom (array_vec_len out.old) (12 + length octets.now) }
    ensures { out.new.items ≡ out.old.items ++ spelling.record_of owner kind ttl octets.now }
{
    let owner = u16_octets(owner);
    let kind = u16_octets(kind);
    let class = u16_octets(IN);
    let ttl = u32_octets(ttl);
    let size = u16_octets(octets.len() as u16);
    put(
        out,
        &[
            owner[0], owner[1], kind[0], kind[1], class[0], class[1], ttl[0], ttl[1], ttl[2],
            ttl[3], size[0], size[1],
        ],
    );
    put(out, octets);
}

/// The flags of an OPT record.
fn opt_flags(dnssec_ok: bool) -> u16
    ensures { result ≡ spelling.bit dnssec_ok 32768 }
{
    if dnssec_ok { DNSSEC_OK } else { 0 }
}

/// Writes the OPT record of a reply up to its options, which are to follow and have so many octets (RFC 6891 section 6.1.2): the root's name, payload size 1232, version 0 and DO as given. `extended` is the upper part of the reply's code.
pub fn write_opt_head(out: &mut ReplyBuffer, extended: u8, dnssec_ok: bool, size: u16)
    requires { HasRoom (array_vec_len out.old) 11 }
    ensures items { out.new.items ≡ out.old.items ++ spelling.opt_head extended dnssec_ok size }
    ensures len { array_vec_len out.new ≡ array_vec_len out.old + 11 }
{
    let kind = u16_octets(OPT);
    let payload = u16_octets(PAYLOAD_SIZE);
    let flags = u16_octets(opt_flags(dnssec_ok));
    let size = u16_octets(size);
    put(
        out,
        &[
            0, kind[0], kind[1], payload[0], payload[1], extended, 0, flags[0], flags[1], size[0],
            size[1],
        ],
    );
}

/// Writes the OPT record of a reply, as `write_opt_head` begins it, and the octets of its options.
pub fn write_opt(out: &mut ReplyBuffer, extended: u8, dnssec_ok: bool, options: &[u8])
    requires { HasRoom (array_vec_len out.old) (11 + length options.now) }
    ensures { out.new.items ≡ out.old.items ++ spelling.opt extended dnssec_ok options.now }
{
    write_opt_head(out, extended, dnssec_ok, options.len() as u16);
    put(out, options);
}

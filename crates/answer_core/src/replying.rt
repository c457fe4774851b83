//! The reply to a datagram.
ghost use Rattle.std.specs.Prelude.{◌≡◌, ◌≤◌, ◌↔◌, ℕ, IsTrue, IfSome, None, [], length};
ghost use Rattle.addr_text.specs.declared.address.Addr.{Addr};
ghost use Rattle.name_text.specs.Wire.{IsName};
ghost use Rattle.dns_wire.specs.View.{asked};
ghost use Rattle.prefix_lookup.specs.Longest.{IsAddress};
ghost use Rattle.published_map.specs.Version.{IsVersion, Version};
ghost use Rattle.answer_core.specs.declared.way.Way.{Way};
ghost use Rattle.answer_core.specs.Grammar.{datagram_of, request_of};
ghost use Rattle.answer_core.specs.Limit.{limit_for, limit_of, longest_reply};
ghost use Rattle.answer_core.specs.Outcome.{IsLookedUp};
ghost use Rattle.answer_core.specs.Reply.{Replies, reply_of, reply_to_query};
ghost use Rattle.answer_core.specs.Silence.{is_silent};

use crate::limit::limit_of;
use crate::outcome::{cut_short, decide};
use crate::request::read_request;
use crate::way::Way;
use crate::writing::{write_alone, write_full};
use addr_text::Addr;
use dns_wire::numbers::{FORMERR, NOTIMP};
use dns_wire::{Message, Query, ReplyBuffer, is_silent, read_query};
use published_map::MapVersion;

/// Whether there is a reply.
#[derive(Clone, Copy, Debug, PartialEq, Eq)]
pub enum Answer {
    /// There is one, which stands in the buffer.
    Sent,
    /// There is none, and the buffer is empty.
    Silent,
}

/// Writes the reply to a query: whole, or again without its records, where that is longer than it may be.
fn write_reply(
    version: &MapVersion,
    from: Addr,
    query: Query,
    draw: u64,
    way: Way,
    out: &mut ReplyBuffer,
)
    requires version { IsVersion version.now }
    requires empty { out.old.items ≡ [] }
    requires name { IsName query.name.now }
    ensures exact { out.new.items ≡ reply_to_query version.now from (request_of (asked query.entry))
        draw way }
    ensures short { length out.new.items ≤ limit_of way (asked query.entry).opt }
    ensures room { length out.new.items ≤ longest_reply }
{
    let request = read_request(&query);
    let outcome = decide(version, &request, from, draw);
    write_full(out, version.zone(), &request, &outcome);
    if out.len() > limit_of(way, request.query.opt) {
        out.clear();
        write_full(out, version.zone(), &request, &cut_short(outcome));
    }
}

/// Tells the prover what is always so of a version's prefixes. Nothing is done.
fn recall_prefixes(version: &MapVersion)
    requires { IsVersion version.now }
    ensures { (a : Addr) → IsAddress a → IsLookedUp version.now a }
{
    let _ = version.serial();
}

/// Writes the stated reply of a version to a datagram from an address: all replies are by one table of the version, the sender, the octets, the draw and the way.
///
/// None is longer than its limit: for a datagram 512 octets, or with an OPT record what that says, but at least 512 and at most 1,232 (RFC 1035 section 4.2.1, RFC 6891 sections 6.2.3 to 6.2.5); for a stream 65,535 (RFC 1035 section 4.2.2), which no reply comes near. An answer that would be longer is left out, and the flag TC says so (RFC 2181 section 9).
///
/// The buffer is cleared first. At `Sent` it holds the reply, at `Silent` there is none and it is empty. What the reply takes from the version's prefixes, the group of an address and its scope, is what the longest prefix says.
pub fn reply(
    version: &MapVersion,
    from: Addr,
    octets: &[u8],
    draw: u64,
    way: Way,
    out: &mut ReplyBuffer,
) -> Answer
    requires { IsVersion version.now }
    ensures reply { Replies result out.new.items (reply_of version.now from octets.now draw way) }
    ensures short { IfSome (reply_of version.now from octets.now draw way) (λ r. length r
        ≤ limit_for way (datagram_of octets.now)) }
    ensures room { length out.new.items ≤ longest_reply }
    ensures lookup { (a : Addr) → IsAddress a → IsLookedUp version.now a }
{
    recall_prefixes(version);
    out.clear();
    match read_query(octets) {
        Message::Silent => return Answer::Silent,
        Message::NotImp(head) => write_alone(out, &head, NOTIMP),
        Message::Form(head) => write_alone(out, &head, FORMERR),
        Message::Query(query) => write_reply(version, from, query, draw, way, out),
    }
    Answer::Sent
}

/// Whether a datagram has no reply, whatever the version, the sender and the draw: it is shorter than a header or too long, or a response. Its length and its third octet are looked at alone.
pub fn silent(octets: &[u8]) -> bool
    ensures exact { result ≡ is_silent octets.now }
    ensures always { (v : Version) (from : Addr) (draw : ℕ) (way : Way) → IsTrue result
        ↔ (reply_of v from octets.now draw way ≡ None) }
{
    is_silent(octets)
}

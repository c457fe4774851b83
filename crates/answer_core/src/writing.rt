//! Whole replies.
ghost use Rattle.std.specs.Prelude.{◌≡◌, ◌≤◌, [], IfSome, length};
ghost use Rattle.name_text.specs.Wire.{IsName};
ghost use Rattle.client_subnet.specs.View.{IsSubnet};
ghost use Rattle.dns_wire.specs.Room.{reply_size};
ghost use Rattle.topology_text.specs.Plan.{IsZone};
ghost use Rattle.answer_core.specs.Reply.{alone, full};
ghost use Rattle.answer_core.specs.View.{IsShort, outcome_view, request_view};

use crate::columns::{is_authoritative, is_truncated, rcode};
use crate::outcome::Outcome;
use crate::request::Request;
use crate::sections::{
    count_of_answers, count_of_authority, write_additional, write_answers, write_authority,
};
use addr_text::Addr;
use dns_wire::{Head, ReplyBuffer, write_head, write_question};
use topology_text::Zone;

/// Writes a reply of the header alone.
pub(crate) fn write_alone(out: &mut ReplyBuffer, head: &Head, rcode: u8)
    requires { out.old.items ≡ [] }
    ensures { out.new.items ≡ alone head.now rcode }
{
    write_head(out, head, false, false, rcode, [0, 0, 0, 0]);
}

/// Writes a reply that repeats the question.
pub(crate) fn write_full(
    out: &mut ReplyBuffer,
    zone: &Zone,
    request: &Request,
    outcome: &Outcome<&[Addr]>,
)
    requires empty { out.old.items ≡ [] }
    requires zone { IsZone zone.now }
    requires name { IsName request.now.query.now.name.now }
    requires form { IfSome request.now.subnet IsSubnet }
    requires few { IsShort 0 (outcome_view outcome.now) }
    requires room { length (full zone.now (request_view request.now) (outcome_view outcome.now))
        ≤ reply_size }
    ensures { out.new.items ≡ full zone.now (request_view request.now) (outcome_view outcome.now) }
{
    let query = request.query;
    let counts = [
        1,
        count_of_answers(zone, outcome),
        count_of_authority(zone, query.name, outcome),
        u16::from(query.opt.is_some()),
    ];
    write_head(
        out,
        &query.head,
        is_authoritative(outcome),
        is_truncated(outcome),
        rcode(outcome),
        counts,
    );
    write_question(out, query.name, query.kind, query.class);
    write_answers(out, zone, outcome);
    write_authority(out, zone, query.name, outcome);
    write_additional(out, request, outcome);
}

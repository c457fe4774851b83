//! One query for each group of a large world, and how many replies have a response code.
ghost use Rattle.std.specs.Prelude.{◌≡◌, ◌≤◌, ◌<◌, ◌+◌, length, if◌then◌else◌};
ghost use Rattle.big_world.specs.declared.TheConstants.{LARGEST_WORLD};
ghost use Rattle.big_run.specs.Replies.{client_of as client, count_of, has_code, is_code_of};

use addr_text::Addr;
use answer_core::Answer;
use arrayvec::ArrayVec;
use map_cell::Naming;
use mapper::Mapper;
use outside::LARGEST_REPLY;

/// The query that is asked for each group: A of www.cdn.example, with the identifier 0x1234 and RD set (RFC 1035 section 4.1).
pub const QUERY: [u8; 33] = [
    0x12, 0x34, 1, 0, 0, 1, 0, 0, 0, 0, 0, 0, 3, b'w', b'w', b'w', 3, b'c', b'd', b'n', 7, b'e',
    b'x', b'a', b'm', b'p', b'l', b'e', 0, 0, 1, 0, 1,
];

/// The address that asks for a group: one that no prefix but the default holds for the first, and the first host of the group's own prefix for the others.
#[tactic(auto, unfolding(crate::specs::Replies::client_of))]
pub fn client_of(group: u32) -> Addr
    requires { group < LARGEST_WORLD }
    ensures { result ≡ client group }
{
    if group == 0 {
        Addr::V4(0xc000_0209)
    } else {
        Addr::V4(0x6440_0001 + 256 * group)
    }
}

/// Whether a reply has this response code.
fn is_code(reply: &[u8], code: u8) -> bool
    ensures { result ≡ is_code_of code reply.now }
{
    match reply.get(3) {
        Some(octet) => *octet % 16 == code,
        None => false,
    }
}

/// Whether the newest map's reply to the query of a group has this response code.
#[tactic(auto, unfolding(crate::specs::Replies::has_code))]
fn replies_by<J: Naming>(mapper: &Mapper<J>, group: u32, code: u8) -> bool
    requires { group < LARGEST_WORLD }
    ensures { result ≡ has_code mapper.now.newest code group }
{
    let mut reply = ArrayVec::<u8, LARGEST_REPLY>::new();
    match mapper.ask(client_of(group), &QUERY, &mut reply) {
        Answer::Sent => is_code(reply.as_slice(), code),
        Answer::Silent => false,
    }
}

/// 1 where the newest map's reply to the query of a group has this response code, and else 0.
fn count_at<J: Naming>(mapper: &Mapper<J>, group: u32, code: u8) -> u64
    requires { group < LARGEST_WORLD }
    ensures { result ≡ (if has_code mapper.now.newest code group then 1 else 0) }
{
    if replies_by(mapper, group, code) {
        1
    } else {
        0
    }
}

/// How many of the first groups get a reply with this response code by the newest map.
#[tactic(auto, unfolding(crate::specs::Replies::count_of))]
pub(crate) fn count_replies<J: Naming>(mapper: &Mapper<J>, groups: u32, code: u8) -> u64
    requires { groups ≤ LARGEST_WORLD }
    ensures { result ≡ count_of mapper.now.newest code groups }
{
    let mut count = 0u64;
    for group in 0..groups {
        count += count_at(mapper, group, code);
    }
    count
}

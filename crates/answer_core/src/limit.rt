//! How long a reply may be.
ghost use Rattle.std.specs.Prelude.{◌≡◌};
ghost use Rattle.std.specs.Option.{option_map};
ghost use Rattle.answer_core.specs.Limit.{limit_of};
ghost use Rattle.dns_wire.specs.View.{extension};

use crate::way::Way;
use dns_wire::Opt;
use dns_wire::numbers::{PAYLOAD_SIZE, SMALLEST_LIMIT, STREAM_LIMIT};

/// How many octets a reply may have, by its way and the query's OPT record.
pub(crate) fn limit_of(way: Way, opt: Option<Opt>) -> usize
    ensures { result ≡ limit_of way (option_map extension opt.entry) }
{
    match way {
        Way::Stream => STREAM_LIMIT,
        Way::Datagram => match opt {
            Some(opt) => (opt.payload as usize)
                .max(SMALLEST_LIMIT)
                .min(PAYLOAD_SIZE as usize),
            None => SMALLEST_LIMIT,
        },
    }
}

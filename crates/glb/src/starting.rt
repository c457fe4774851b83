//! The start of a session: the ports and the further feeds are opened, and the first map's text is put.
ghost use Rattle.std.specs.Prelude.{◌≡◌, ◌≤◌, ◌∷◌, [], length, map, option_map};
ghost use Rattle.glb.specs.Commands.{service_asked};
ghost use Rattle.glb.specs.Starting.{HasNamed, HasOpened, IsStart, IsStreamStart};
ghost use Rattle.glb.specs.Words.{given};

use crate::words::Service;
use addr_text::Listen;
use drive::{Lane, StreamLane};
use map_cell::Door;
use outside::{Gate, NamedSource, Opening, Port, Put, Sink, Streams};

/// What came of a start.
#[derive(Clone, Copy, Debug, PartialEq, Eq)]
pub enum Start {
    /// All that was to be opened is open, and the text was put.
    Ready,
    /// A port or the streams failed to open. Nothing behind that was opened, and no text put.
    NoPort,
    /// All ports and the streams are open, but a further feed failed to open. None behind it was opened, and no text put.
    NoFeed,
    /// All that was to be opened is open, but the put of the text failed.
    NoSink,
}

fn open_port<P: Port, G: Gate, D: Door>(lanes: &mut [Lane<P, G, D>], listen: &Listen) -> Opening
    requires { length lanes.old ≡ 1 }
    ensures same { length lanes.new ≡ length lanes.old }
    ensures opened { HasOpened listen.now 1 result lanes.old lanes.new }
{
    let lane = &mut lanes[0];
    lane.port.open(listen)
}

/// Opens the ports of the first lanes in order, up to the first that fails.
fn open_ports<P: Port, G: Gate, D: Door>(
    lanes: &mut [Lane<P, G, D>],
    count: u8,
    listen: &Listen,
) -> Opening
    requires { count ≤ length lanes.old }
    ensures same { length lanes.new ≡ length lanes.old }
    ensures opened { HasOpened listen.now count result lanes.old lanes.new }
{
    if count == 0 {
        return Opening::Ready;
    }
    let (first, rest) = lanes.split_at_mut(1);
    match open_port(first, listen) {
        Opening::Ready => open_ports(rest, count - 1, listen),
        Opening::Failed => Opening::Failed,
    }
}

/// Opens the streams of a lane, where that is asked for.
fn open_streams<Q: Streams, G: Gate, D: Door>(
    stream: &mut StreamLane<Q, G, D>,
    tcp: &Option<Listen>,
) -> Opening
    ensures { IsStreamStart tcp.now result stream.old stream.new }
{
    match tcp {
        Some(listen) => stream.streams.open(listen),
        None => Opening::Ready,
    }
}

/// Opens one further feed.
fn open_feed<N: NamedSource>(feeds: &mut [N], name: &str) -> Opening
    requires { length feeds.old ≡ 1 }
    ensures same { length feeds.new ≡ length feeds.old }
    ensures named { HasNamed (name.now ∷ []) result
        (map N.told feeds.old)
        (map N.told feeds.new) }
{
    feeds[0].open(name)
}

/// Opens the first further feeds by the names that are given, in order, up to the first that fails.
pub fn open_feeds<N: NamedSource>(feeds: &mut [N], names: &[Option<&str>]) -> Opening
    requires { length names.now ≤ length feeds.old }
    ensures same { length feeds.new ≡ length feeds.old }
    ensures named { HasNamed (given (map (option_map (λ n. n.now)) names.now)) result
        (map N.told feeds.old)
        (map N.told feeds.new) }
{
    let Some((first, rest)) = names.split_first() else {
        return Opening::Ready;
    };
    let Some(name) = first else {
        return open_feeds(feeds, rest);
    };
    let (one, others) = feeds.split_at_mut(1);
    match open_feed(one, name) {
        Opening::Ready => open_feeds(others, rest),
        Opening::Failed => Opening::Failed,
    }
}

/// Opens the ports of the first lanes, then the streams where that is asked for, then the further feeds, and puts the first
/// map's text.
pub fn start_lanes<N: NamedSource, K: Sink, P: Port, Q: Streams, G: Gate, D: Door>(
    text: &[u8],
    service: &Service<'_>,
    feeds: &mut [N],
    maps: &mut K,
    lanes: &mut [Lane<P, G, D>],
    stream: &mut StreamLane<Q, G, D>,
) -> Start
    requires workers { service.now.workers ≤ length lanes.old }
    requires feeds { length feeds.old ≡ 3 }
    ensures same { length lanes.new ≡ length lanes.old }
    ensures feeds { length feeds.new ≡ length feeds.old }
    ensures start { IsStart (service_asked service.now) text.now result
        (record {
          more = map N.told feeds.old;
          maps = K.told maps.old;
          lanes = lanes.old;
          stream = stream.old;
        })
        (record {
          more = map N.told feeds.new;
          maps = K.told maps.new;
          lanes = lanes.new;
          stream = stream.new;
        }) }
{
    if let Opening::Failed = open_ports(lanes, service.workers, &service.listen) {
        return Start::NoPort;
    }
    if let Opening::Failed = open_streams(stream, &service.tcp) {
        return Start::NoPort;
    }
    if let Opening::Failed = open_feeds(feeds, &service.more) {
        return Start::NoFeed;
    }
    match maps.put(text) {
        Put::Done => Start::Ready,
        Put::Failed => Start::NoSink,
    }
}

//! The words of the command line, as a command.
ghost use Rattle.std.specs.Prelude.{◌≡◌, ◌%◌, ◌≤◌, IfOk, IfSome, IsErr, IsSome, length, map, option_and_then};
ghost use Rattle.std.specs.Option.{option_map};
ghost use Rattle.addr_text.specs.Addresses.{addr_of};
ghost use Rattle.command_line.specs.Asked.{texts};
ghost use Rattle.command_line.specs.Commands.{each};
ghost use Rattle.text_parts.specs.Counts.{count_of};
ghost use Rattle.big_world.specs.declared.TheConstants.{LARGEST_WORLD};
ghost use Rattle.glb.specs.Words.{answer, asked, asked_by, given, large, most_workers, say, serve, service_of, tcp_of, workers_of};
ghost use Rattle.glb.specs.Commands.{IsManned, ask_of, task_of};
ghost use Rattle.glb.specs.Datagram.{datagram_of};

use addr_text::{Addr, Listen, read_addr, read_listen};
use big_world::LARGEST_WORLD;
use command_line::Command as Line;
use hex::FromHexError;
use map_cell::MOST_VIEWERS;
use no_memory::NoMemory;
use std::alloc::Global;
use text_parts::read_count;

/// How many feeds there may be beside the first.
pub const MOST_MORE: usize = 3;

/// A command that says one text on what files say.
#[derive(Drop)]
pub enum Command<'a> {
    Check {
        topology: &'a str,
        map: &'a str,
    },
    Map {
        topology: &'a str,
    },
    Places {
        topology: &'a str,
    },
    Answer {
        topology: &'a str,
        map: &'a str,
        from: Addr,
        octets: Vec<u8>,
    },
    Repair {
        topology: &'a str,
        map: &'a str,
        changes: &'a str,
    },
}

/// A service: the file of its topology, where it listens, how many workers it has, where it takes conversations, and the
/// names of its further feeds.
#[derive(Clone, Copy)]
pub struct Service<'a> {
    pub topology: &'a str,
    pub listen: Listen,
    pub workers: u8,
    pub tcp: Option<Listen>,
    pub more: [Option<&'a str>; MOST_MORE],
}

/// A command line that is taken.
#[derive(Drop)]
pub enum Order<'a> {
    Say(Command<'a>),
    Serve(Service<'a>),
    Large { groups: u32 },
}

/// Where conversations are taken, if there is a word for that. There is no answer where it is no address.
fn read_tcp(text: Option<&str>) -> Option<Option<Listen>>
    ensures { result ≡ tcp_of (option_map (λ t. t.now) text.entry) }
{
    match text {
        Some(text) => Some(Some(read_listen(text.as_bytes())?)),
        None => Some(None),
    }
}

/// How many workers there may be: one less than lanes where one lane takes conversations.
fn most_workers(tcp: &Option<Listen>) -> usize
    ensures { result ≡ most_workers tcp.now }
{
    match tcp {
        Some(_) => MOST_VIEWERS - 1,
        None => MOST_VIEWERS,
    }
}

fn read_workers(text: Option<&str>, most: usize) -> Option<u8>
    requires most { (1 ≤ most) × (most ≤ 16) }
    ensures workers { result ≡ workers_of most (option_map (λ t. t.now) text.entry) }
    ensures within { IfSome result (λ n. (1 ≤ n) × (n ≤ most)) }
{
    match text {
        Some(text) => match read_count(text.as_bytes(), most as u64) {
            Some(count) => Some(count as u8),
            None => None,
        },
        None => Some(1),
    }
}

/// What `serve` with these words asks for.
fn read_serve<'a>(
    topology: &'a str,
    listen: &str,
    workers: Option<&str>,
    tcp: Option<&str>,
    more: [Option<&'a str>; MOST_MORE],
) -> Option<Order<'a>>
    ensures asked { option_map task_of result ≡ option_map serve
        (service_of topology.entry.now (given (map (option_map (λ t. t.now)) more.entry)) listen.now
        (option_map (λ t. t.now) workers.entry) (option_map (λ t. t.now) tcp.entry)) }
    ensures manned { IsManned result }
{
    let listen = read_listen(listen.as_bytes())?;
    let tcp = read_tcp(tcp)?;
    let workers = read_workers(workers, most_workers(&tcp))?;
    Some(Order::Serve(Service {
        topology,
        listen,
        workers,
        tcp,
        more,
    }))
}

/// What `large` with this word asks for.
fn read_large<'a>(groups: &str) -> Option<Order<'a>>
    ensures asked { option_map task_of result ≡ option_map large
        (count_of LARGEST_WORLD groups.now) }
    ensures manned { IsManned result }
{
    match read_count(groups.as_bytes(), u64::from(LARGEST_WORLD)) {
        Some(groups) => Some(Order::Large {
            groups: groups as u32,
        }),
        None => None,
    }
}

/// What `answer` with these words asks for. Memory is asked for only where the address is one and the digits are of an even number.
fn read_answer<'a>(
    alloc: Global,
    topology: &'a str,
    map: &'a str,
    addr: &str,
    digits: &str,
) -> Result<Option<Command<'a>>, NoMemory>
    ensures asked { IfOk result
        (λ c. option_map ask_of c ≡ option_map (answer topology.entry.now map.entry.now)
        (datagram_of addr.now digits.now)) }
    ensures memory { IsErr result → IsSome (addr_of addr.now) × (length digits.now % 2 ≡ 0) }
{
    let Some(from) = read_addr(addr.as_bytes()) else {
        return Ok(None);
    };
    match hex::decode(alloc, digits) {
        Ok(octets) => Ok(Some(Command::Answer {
            topology,
            map,
            from,
            octets,
        })),
        Err(FromHexError::OutOfMemory) => Err(NoMemory),
        Err(_) => Ok(None),
    }
}

fn order_of(command: Option<Command<'_>>) -> Option<Order<'_>>
    ensures asked { option_map task_of result ≡ option_map say (option_map ask_of command.entry) }
    ensures manned { IsManned result }
{
    match command {
        Some(command) => Some(Order::Say(command)),
        None => None,
    }
}

/// A command line, as an order: none where a word is not in its grammar.
fn read_command<'a>(alloc: Global, line: Line<&'a str>) -> Result<Option<Order<'a>>, NoMemory>
    ensures asked { IfOk result (λ c. option_map task_of c
        ≡ asked_by (each (λ word. word.now) line.entry)) }
    ensures manned { IfOk result IsManned }
{
    match line {
        Line::Check { topology, map } => Ok(Some(Order::Say(Command::Check { topology, map }))),
        Line::Map { topology } => Ok(Some(Order::Say(Command::Map { topology }))),
        Line::Places { topology } => Ok(Some(Order::Say(Command::Places { topology }))),
        Line::Answer {
            topology,
            map,
            addr,
            hex,
        } => match read_answer(alloc, topology, map, addr, hex) {
            Ok(command) => Ok(order_of(command)),
            Err(NoMemory) => Err(NoMemory),
        },
        Line::Repair {
            topology,
            map,
            changes,
        } => Ok(Some(Order::Say(Command::Repair {
            topology,
            map,
            changes,
        }))),
        Line::Serve {
            topology,
            listen,
            workers,
            tcp,
            feed2,
            feed3,
            feed4,
        } => Ok(read_serve(topology, listen, workers, tcp, [feed2, feed3, feed4])),
        Line::Large { groups } => Ok(read_large(groups)),
    }
}

/// What the words ask for, or none where they are not taken.
#[tactic(auto, unfolding(crate::specs::Words::asked))]
pub fn read_words(alloc: Global, words: &[String]) -> Result<Option<Order<'_>>, NoMemory>
    ensures asked { IfOk result (λ c. option_map task_of c ≡ asked (texts words.entry.now)) }
    ensures manned { IfOk result IsManned }
{
    match command_line::read_words(alloc, words)? {
        Some(line) => read_command(alloc, line),
        None => Ok(None),
    }
}

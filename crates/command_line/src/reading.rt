//! What the words ask for.
ghost use Rattle.std.specs.Prelude.{◌≡◌, IfOk, option_map, option_and_then};
ghost use Rattle.clap.specs.Words.{first_of, found_of, rows_of, subcommand_rows_of};
ghost use Rattle.command_line.specs.Asked.{answer_of, asked, asked_by, check_of, large_of, map_command_of, places_of, repair_of, serve_of, texts};
ghost use Rattle.command_line.specs.Commands.{each};

use crate::command::Command;
use crate::declared::declared;
use clap::ArgMatches;
use clap::error::ErrorKind;
use no_memory::NoMemory;
use std::alloc::Global;

fn value<'a>(found: &ArgMatches<'a>, id: &str) -> Option<&'a str>
    ensures { option_map (λ s. s.now) result ≡ first_of id.now (rows_of (found_of found.now)) }
{
    found.get_str(id)
}

fn check<'a>(found: &ArgMatches<'a>) -> Option<Command<&'a str>>
    ensures { option_map (each (λ word. word.now)) result
        ≡ check_of (rows_of (found_of found.now)) }
{
    let topology = value(found, "TOPOLOGY")?;
    let map = value(found, "MAP")?;
    Some(Command::Check { topology, map })
}

fn answer<'a>(found: &ArgMatches<'a>) -> Option<Command<&'a str>>
    ensures { option_map (each (λ word. word.now)) result
        ≡ answer_of (rows_of (found_of found.now)) }
{
    let topology = value(found, "TOPOLOGY")?;
    let map = value(found, "MAP")?;
    let addr = value(found, "ADDR")?;
    let hex = value(found, "HEX")?;
    Some(Command::Answer {
        topology,
        map,
        addr,
        hex,
    })
}

fn map<'a>(found: &ArgMatches<'a>) -> Option<Command<&'a str>>
    ensures { option_map (each (λ word. word.now)) result
        ≡ map_command_of (rows_of (found_of found.now)) }
{
    let topology = value(found, "TOPOLOGY")?;
    Some(Command::Map { topology })
}

fn repair<'a>(found: &ArgMatches<'a>) -> Option<Command<&'a str>>
    ensures { option_map (each (λ word. word.now)) result
        ≡ repair_of (rows_of (found_of found.now)) }
{
    let topology = value(found, "TOPOLOGY")?;
    let map = value(found, "MAP")?;
    let changes = value(found, "CHANGES")?;
    Some(Command::Repair {
        topology,
        map,
        changes,
    })
}

fn serve<'a>(found: &ArgMatches<'a>) -> Option<Command<&'a str>>
    ensures { option_map (each (λ word. word.now)) result
        ≡ serve_of (rows_of (found_of found.now)) }
{
    let topology = value(found, "TOPOLOGY")?;
    let listen = value(found, "listen")?;
    let workers = value(found, "workers");
    let tcp = value(found, "tcp");
    let feed2 = value(found, "feed2");
    let feed3 = value(found, "feed3");
    let feed4 = value(found, "feed4");
    Some(Command::Serve {
        topology,
        listen,
        workers,
        tcp,
        feed2,
        feed3,
        feed4,
    })
}

fn large<'a>(found: &ArgMatches<'a>) -> Option<Command<&'a str>>
    ensures { option_map (each (λ word. word.now)) result
        ≡ large_of (rows_of (found_of found.now)) }
{
    let groups = value(found, "N")?;
    Some(Command::Large { groups })
}

fn places<'a>(found: &ArgMatches<'a>) -> Option<Command<&'a str>>
    ensures { option_map (each (λ word. word.now)) result
        ≡ places_of (rows_of (found_of found.now)) }
{
    let topology = value(found, "TOPOLOGY")?;
    Some(Command::Places { topology })
}

fn named<'a>(name: &str, found: &ArgMatches<'a>) -> Option<Command<&'a str>>
    ensures { option_map (each (λ word. word.now)) result
        ≡ asked_by name.now (rows_of (found_of found.now)) }
{
    match name {
        "check" => check(found),
        "answer" => answer(found),
        "map" => map(found),
        "repair" => repair(found),
        "serve" => serve(found),
        "large" => large(found),
        "places" => places(found),
        _ => None,
    }
}

fn command_of<'a>(matches: &ArgMatches<'a>) -> Option<Command<&'a str>>
    ensures { option_map (each (λ word. word.now)) result
        ≡ option_and_then (λ s. asked_by s.0 s.1) (subcommand_rows_of matches.now) }
{
    let (name, found) = matches.subcommand()?;
    named(name, found)
}

/// What the words ask for, or none exactly where the declaration does not take them. The first word is the
/// program's name.
///
/// # Errors
///
/// `NoMemory`.
pub fn read_words<'a>(
    alloc: Global,
    words: &'a [String],
) -> Result<Option<Command<&'a str>>, NoMemory>
    ensures { IfOk result (λ c. option_map (each (λ word. word.now)) c
        ≡ asked (texts words.entry.now)) }
{
    match declared(alloc)?.try_get_matches_from(words) {
        Ok(matches) => Ok(command_of(&matches)),
        Err(error) if error.kind() == ErrorKind::OutOfMemory => Err(NoMemory),
        Err(_) => Ok(None),
    }
}

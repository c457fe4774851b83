//! The declaration of the command line.
ghost use Rattle.std.specs.Prelude.{◌≡◌, ◌∷◌, [], false, IfOk, map};
ghost use Rattle.clap.specs.Words.{app_of, rule_of};
ghost use Rattle.clap.specs.declared.builder.command.Command.TheViews.{out-Command as fields_of};
ghost use Rattle.command_line.specs.Declaration.{command, declared, option_named, positional, serve_command, serve_one_command};

use clap::{Arg, Command};
use std::alloc::{AllocError, Global};

fn positional<'a>(alloc: Global, id: &'a str) -> Arg<'a>
    ensures rule { rule_of result ≡ positional id.entry.now }
    ensures local { result.global ≡ false }
{
    Arg::new(alloc, id).required(true)
}

fn command<'a>(alloc: Global, name: &'a str, ids: &[&'a str]) -> Result<Command<'a>, AllocError>
    ensures app { IfOk result (λ c. app_of c
        ≡ record { top = command name.entry.now (map (λ id. id.now) ids.now); subs = [] }) }
    ensures local { IfOk result (λ c. (fields_of c).has_globals ≡ false) }
{
    let mut command = Command::new(alloc, name);
    for id in ids {
        command = command.arg(positional(alloc, id))?;
    }
    Ok(command)
}

fn option<'a>(alloc: Global, name: &'a str, required: bool) -> Arg<'a>
    ensures rule { rule_of result ≡ option_named name.entry.now required }
    ensures local { result.global ≡ false }
{
    Arg::new(alloc, name).long(name).required(required)
}

/// The command of a server with one feed.
fn serve_one<'a>(alloc: Global) -> Result<Command<'a>, AllocError>
    ensures app { IfOk result (λ c. app_of c ≡ record { top = serve_one_command; subs = [] }) }
    ensures local { IfOk result (λ c. (fields_of c).has_globals ≡ false) }
{
    Command::new(alloc, "serve")
        .arg(positional(alloc, "TOPOLOGY"))?
        .arg(option(alloc, "listen", true))?
        .arg(option(alloc, "workers", false))?
        .arg(option(alloc, "tcp", false))
}

fn serve<'a>(alloc: Global) -> Result<Command<'a>, AllocError>
    ensures app { IfOk result (λ c. app_of c ≡ record { top = serve_command; subs = [] }) }
    ensures local { IfOk result (λ c. (fields_of c).has_globals ≡ false) }
{
    serve_one(alloc)?
        .arg(option(alloc, "feed2", false))?
        .arg(option(alloc, "feed3", false))?
        .arg(option(alloc, "feed4", false))
}

/// The command line, as it is declared.
pub fn declared<'a>(alloc: Global) -> Result<Command<'a>, AllocError>
    ensures app { IfOk result (λ c. app_of c ≡ declared) }
{
    Command::new(alloc, "glb")
        .subcommand_required(true)
        .disable_help_flag(true)
        .disable_help_subcommand(true)
        .subcommand(command(alloc, "check", &["TOPOLOGY", "MAP"])?)?
        .subcommand(command(alloc, "answer", &["TOPOLOGY", "MAP", "ADDR", "HEX"])?)?
        .subcommand(command(alloc, "map", &["TOPOLOGY"])?)?
        .subcommand(command(alloc, "repair", &["TOPOLOGY", "MAP", "CHANGES"])?)?
        .subcommand(serve(alloc)?)?
        .subcommand(command(alloc, "large", &["N"])?)?
        .subcommand(command(alloc, "places", &["TOPOLOGY"])?)
}

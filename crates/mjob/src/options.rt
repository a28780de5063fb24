// SPDX-License-Identifier: Apache-2.0
// The program's command and its options, as `clap` wants them.
ghost use Rattle.std.specs.Prelude.{◌≡◌, false, true, IfOk, Some, codes};
ghost use Rattle.clap.specs.Words.{app_of, rule_of};
ghost use Rattle.clap.specs.declared.builder.Command.TheViews.{out-Command as fields_of};
ghost use Rattle.mjob.specs.CommandLine.{mserve_app, run_app, serve_app, free_option, required_option, number_option};

use clap::{Arg, ArgAction, Command, value_parser};
use std::alloc::{AllocError, Global};

// An option that may be left out, `--name VALUE`.
fn free_option<'a>(alloc: Global, name: &'a str, value: &'a str, help: &'a str) -> Arg<'a>
    ensures rule { rule_of result ≡ free_option name.now }
    ensures local { result.global ≡ false }
{
    Arg::new(alloc, name)
        .long(name)
        .action(ArgAction::Set)
        .value_name(value)
        .help(help)
}

// An option that must be there.
fn required_option<'a>(alloc: Global, name: &'a str, value: &'a str, help: &'a str) -> Arg<'a>
    ensures rule { rule_of result ≡ required_option name.now }
    ensures local { result.global ≡ false }
{
    free_option(alloc, name, value, help).required(true)
}

// `--settings FILE`.
fn settings_option<'a>(alloc: Global) -> Arg<'a>
    ensures rule { rule_of result ≡ required_option (codes "settings") }
    ensures local { result.global ≡ false }
{
    required_option(
        alloc,
        "settings",
        "FILE",
        "The accounts, their terminals and steps, and their grants",
    )
}

// `--store memory|FILE`.
fn store_option<'a>(alloc: Global) -> Arg<'a>
    ensures rule { rule_of result ≡ required_option (codes "store") }
    ensures local { result.global ≡ false }
{
    required_option(alloc, "store", "memory|FILE", "Where the globals are kept")
}

// `--port PORT`.
fn port_option<'a>(alloc: Global) -> Arg<'a>
    ensures rule { rule_of result ≡ number_option (codes "port") 65535 }
    ensures local { result.global ≡ false }
{
    let ports = value_parser!(u16).range(1..);
    required_option(alloc, "port", "PORT", "The port of 127.0.0.1 to listen at").value_parser(ports)
}

// `--connections COUNT`.
fn connections_option<'a>(alloc: Global) -> Arg<'a>
    ensures rule { rule_of result ≡ number_option (codes "connections") 1000000 }
    ensures local { result.global ≡ false }
{
    let counts = value_parser!(u32).range(1..=1_000_000);
    required_option(
        alloc,
        "connections",
        "COUNT",
        "How many connections to serve, one after the other",
    )
    .value_parser(counts)
}

// `mserve run`.
fn run_command<'a>(alloc: Global) -> Result<Command<'a>, AllocError>
    ensures { IfOk result (λ c. (app_of c ≡ run_app) × ((fields_of c).has_globals ≡ false)) }
{
    let only = free_option(
        alloc,
        "only",
        "ACCOUNT",
        "Write the replies at this account's terminals alone",
    );
    Command::new(alloc, "run")
        .about("Answers the lines of the standard input on the standard output")
        .arg(settings_option(alloc))?
        .arg(store_option(alloc))?
        .arg(only)
}

// `mserve serve`.
fn serve_command<'a>(alloc: Global) -> Result<Command<'a>, AllocError>
    ensures { IfOk result (λ c. (app_of c ≡ serve_app) × ((fields_of c).has_globals ≡ false)) }
{
    Command::new(alloc, "serve")
        .about(
            "Answers the lines of connections at a port of 127.0.0.1, one connection after the other",
        )
        .arg(settings_option(alloc))?
        .arg(store_option(alloc))?
        .arg(port_option(alloc))?
        .arg(connections_option(alloc))
}

// The program's command.
pub fn mserve_command<'a>(alloc: Global) -> Result<Command<'a>, AllocError>
    ensures { IfOk result (λ c. app_of c ≡ mserve_app) }
{
    Command::new(alloc, "mserve")
        .about("A shared M server with isolated accounts")
        .no_binary_name(true)
        .subcommand_required(true)
        .subcommand(run_command(alloc)?)?
        .subcommand(serve_command(alloc)?)
}

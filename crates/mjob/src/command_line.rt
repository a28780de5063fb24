// SPDX-License-Identifier: Apache-2.0
// The words of a command line, and what they ask for.
ghost use Rattle.std.specs.Prelude.{◌≡◌, ◌≢◌, ◌⊎◌, IfOk, IfErr, Some, [], map, string_bytes, option_map, codes};
ghost use Rattle.clap.specs.Words.{fault_of, first_value, found_of, kind_of, one_text, rows_of, subcommand_rows_of};
ghost use Rattle.mjob.specs.CommandLine.{mserve_app};
ghost use Rattle.mjob.specs.Asked.{GivesNumber, HasRun, HasServe, HasText, IsJob, IsJobAt, IsRefusal, IsStore};

use crate::jobs::{Job, JobFault, Store};
use crate::options::mserve_command;
use clap::ArgMatches;
use clap::error::ErrorKind;
use std::alloc::Global;
use std::str::FromStr;

/// What the words of a command line ask for: the words that come after the program's name.
///
/// `Ok` comes only for words in which `clap`'s definition of the command finds no fault, and then with what it finds in them.
/// `Line` comes for all others, and for words that ask for help: its kind is one that the definition gives for the words. `Memory`
/// may come for any words: there was none, or `clap` took them and its matches lack what the command must have. No words are known
/// to lead to that.
pub fn job(alloc: Global, words: &[String]) -> Result<Job, JobFault>
    ensures taken { IfOk result (λ _. fault_of mserve_app (map string_bytes words.now) ≡ []) }
    ensures ok { IfOk result (IsJob (map string_bytes words.now)) }
    ensures refused { IfErr result (IsRefusal (map string_bytes words.now)) }
{
    let command = match mserve_command(alloc) {
        Ok(command) => command,
        Err(_) => return Err(JobFault::Memory),
    };
    let matches = match command.try_get_matches_from(words) {
        Ok(matches) => matches,
        Err(error) => return Err(fault_of_error(error)),
    };
    job_of(alloc, &matches)
}

// Why a line was refused.
fn fault_of_error(error: clap::Error) -> JobFault
    ensures memory { kind_of error ≡ ErrorKind.OutOfMemory → result ≡ JobFault.Memory }
    ensures which { (result ≡ JobFault.Memory) ⊎ (result ≡ JobFault.Line error) }
{
    if error.kind() == ErrorKind::OutOfMemory {
        JobFault::Memory
    } else {
        JobFault::Line(error)
    }
}

// What the matches of a line that was taken ask for. No line is known that is taken and has neither of the two subcommands.
fn job_of(alloc: Global, matches: &ArgMatches<'_>) -> Result<Job, JobFault>
    ensures ok { IfOk result (IsJobAt (subcommand_rows_of matches.now)) }
    ensures err { IfErr result (λ e. e ≡ JobFault.Memory) }
{
    match matches.subcommand() {
        Some(("run", options)) => job_of_run(alloc, options),
        Some(("serve", options)) => job_of_serve(alloc, options),
        _ => Err(JobFault::Memory),
    }
}

fn job_of_run(alloc: Global, options: &ArgMatches<'_>) -> Result<Job, JobFault>
    ensures ok { IfOk result (HasRun (rows_of (found_of options.now))) }
    ensures err { IfErr result (λ e. e ≡ JobFault.Memory) }
{
    let (settings, store) = settings_and_store(alloc, options)?;
    let only = match options.get_str("only") {
        Some(name) => Some(owned(alloc, name)?),
        None => None,
    };
    Ok(Job::Run {
        settings,
        store,
        only,
    })
}

fn job_of_serve(alloc: Global, options: &ArgMatches<'_>) -> Result<Job, JobFault>
    ensures ok { IfOk result (HasServe (rows_of (found_of options.now))) }
    ensures err { IfErr result (λ e. e ≡ JobFault.Memory) }
{
    let (settings, store) = settings_and_store(alloc, options)?;
    let Some(port) = options.get_one::<u16>("port") else {
        return Err(JobFault::Memory);
    };
    let Some(connections) = options.get_one::<u32>("connections") else {
        return Err(JobFault::Memory);
    };
    Ok(Job::Serve {
        settings,
        store,
        port,
        connections,
    })
}

// The settings and the store, which each job names.
fn settings_and_store(alloc: Global, options: &ArgMatches<'_>) -> Result<(String, Store), JobFault>
    ensures ok { IfOk result (λ named. HasText (codes "settings") (rows_of (found_of options.now)) (string_bytes named.0)
        × IsStore (rows_of (found_of options.now)) named.1) }
    ensures err { IfErr result (λ e. e ≡ JobFault.Memory) }
{
    let settings = text_of(alloc, options, "settings")?;
    let store = store_of(alloc, options)?;
    Ok((settings, store))
}

// The store that is named.
fn store_of(alloc: Global, options: &ArgMatches<'_>) -> Result<Store, JobFault>
    ensures ok { IfOk result (IsStore (rows_of (found_of options.now))) }
    ensures err { IfErr result (λ e. e ≡ JobFault.Memory) }
{
    match options.get_str("store") {
        Some("memory") => Ok(Store::Memory),
        Some(path) => Ok(Store::File(owned(alloc, path)?)),
        None => Err(JobFault::Memory),
    }
}

// The text of an option of a line that was taken.
fn text_of(alloc: Global, options: &ArgMatches<'_>, name: &str) -> Result<String, JobFault>
    ensures ok { IfOk result (λ s. first_value (found_of options.now) name.now ≡ Some (string_bytes s)) }
    ensures err { IfErr result (λ e. e ≡ JobFault.Memory) }
{
    match options.get_str(name) {
        Some(text) => owned(alloc, text),
        None => Err(JobFault::Memory),
    }
}

fn owned(alloc: Global, text: &str) -> Result<String, JobFault>
    ensures ok { IfOk result (λ s. string_bytes s ≡ text.now) }
    ensures err { IfErr result (λ e. e ≡ JobFault.Memory) }
{
    match String::from_str(alloc, text) {
        Ok(text) => Ok(text),
        Err(_) => Err(JobFault::Memory),
    }
}

// SPDX-License-Identifier: Apache-2.0
//! mserve, a shared M server.
//!
//! `mserve run` answers the lines of its standard input on its standard output, `mserve serve` those of connections at a port of 127.0.0.1.
//!
//! `main` is one call of `program`, and nothing else. No contract says so, and this has to be read: the words are those of the command line
//! after the program's name, in their order; the streams are the standard ones; and the status is the process's. `program` is proved of a store
//! in a file for anything that its files hold as they are opened, and `Unknown` stands for that here.
#![tactic(auto)]

use mhost::host_of;
use mhost::program::program;
use mjob::refusal::no_words;
use mwire::Watched;
use sqlite_disk::Unknown;
use std::process::ExitCode;
use std::{env, io};

// The words after the program's name. A word that is not UTF-8 is an error, and so is running out of memory.
fn words(rt: &HostRuntime) -> io::Result<Vec<String>> {
    Ok(env::args(rt)?.skip(1).collect(rt.alloc())?)
}

fn main(rt: HostRuntime) -> ExitCode {
    let mut input = Watched::new(rt.stdin());
    let mut output = Watched::new(rt.stdout());
    let status = match words(&rt) {
        Ok(words) => program(
            rt.alloc(),
            &mut host_of(&rt, Unknown),
            words.as_slice(),
            &mut input,
            &mut output,
            &mut rt.stderr(),
        ),
        Err(error) => no_words(&error, &mut rt.stderr()),
    };
    ExitCode::from(status)
}

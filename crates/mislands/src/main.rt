// SPDX-License-Identifier: Apache-2.0
//! mislands, the islands of a settings file.
//!
//! `mislands <SETTINGS` prints each island once, one per line: the names of its accounts in the order of the settings, separated by a space.
//! Islands come in the order of their first accounts.
#![tactic(auto)]

mod fault;
mod listing;
mod names;
mod program;

use program::{program, refused};
use std::process::ExitCode;
use std::{env, io};

// The words after the program's name. A word that is not UTF-8 is an error, and so is running out of memory.
fn words(rt: &HostRuntime) -> io::Result<Vec<String>> {
    Ok(env::args(rt)?.skip(1).collect(rt.alloc())?)
}

fn main(rt: HostRuntime) -> ExitCode {
    let status = match words(&rt) {
        Ok(words) => program(
            rt.alloc(),
            words.as_slice(),
            rt.stdin(),
            &mut rt.stdout(),
            &mut rt.stderr(),
        ),
        Err(_) => refused(&mut rt.stderr()),
    };
    ExitCode::from(status)
}

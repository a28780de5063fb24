// SPDX-License-Identifier: Apache-2.0
//! Plays the program over surroundings in memory: a document of settings, the file of a store, a port with peers, and the streams.
//!
//! A block of the standard input is a scene, and begins with `== scene: NAME`. A case says what is there, or runs the program, and what
//! came is printed below it: the status, the output, what was reported, and what each peer was answered.
//!
//! - `settings TEXT`: what the document `settings.toml` holds at its next reading;
//! - `input TEXT`: what the standard input of the next run holds;
//! - `waits TEXT`: a peer, who waits at the port 9000 and sends this;
//! - any other case: the words of a command line.
//!
//! The one file of a store is `lab.db`. It keeps what it holds from one run of a scene to the next, as peers do who still wait.
#![tactic(auto)]

mod scene;

use mtranscript::{blocks_of, print, print_case};
use scene::Scene;
use std::alloc::Global;
use std::io;
use std::io::Write;

fn main(rt: HostRuntime) -> anyhow::Result<()> {
    let text = io::read_to_string(rt.alloc(), rt.stdin())?;
    let mut out = Vec::new(rt.alloc());
    for (i, block) in blocks_of(rt.alloc(), text.as_str())?.iter().enumerate() {
        if i > 0 {
            out.push(b'\n')?;
        }
        print(&mut out, block.header.as_bytes())?;
        play(rt.alloc(), block.cases.as_slice(), &mut out)?;
    }
    rt.stdout().write_all(&out)?;
    Ok(())
}

// Plays the cases of a scene, one after another.
fn play(alloc: Global, cases: &[&str], out: &mut Vec<u8>) -> anyhow::Result<()> {
    let mut scene = Scene::new(alloc)?;
    for case in cases {
        if print_case(out, case)? {
            scene.play(alloc, case, out)?;
        }
    }
    Ok(())
}

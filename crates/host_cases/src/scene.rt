// SPDX-License-Identifier: Apache-2.0
// What is around the program, in memory.
use mhost::Host;
use mhost::in_memory::{MemoryDocument, MemoryFile, MemoryPort};
use mhost::program::program_over;
use mtranscript::{bytes_of, print_result, print_results};
use mwire::{Peers, Watched};
use std::alloc::Global;
use std::collections::VecDeque;
use std::io::Cursor;
use std::str::FromStr;

// The path of the document, that of the store's file, and the port.
const DOCUMENT: &str = "settings.toml";

const FILE: &str = "lab.db";

const PORT: u16 = 9000;

/// What is around the program.
#[derive(Drop)]
pub struct Scene {
    host: Host<MemoryDocument, MemoryFile, MemoryPort>,
    waiting: VecDeque<Vec<u8>>,
    input: Vec<u8>,
}

impl Scene {
    /// One in which there is no document, no store and nobody who waits.
    pub fn new(alloc: Global) -> anyhow::Result<Scene> {
        let documents = MemoryDocument {
            path: String::from_str(alloc, DOCUMENT)?,
            texts: VecDeque::new(alloc),
        };
        let stores = MemoryFile {
            path: String::from_str(alloc, FILE)?,
            store: None,
        };
        let ports = MemoryPort {
            number: PORT,
            peers: None,
        };
        Ok(Scene {
            host: Host {
                documents,
                stores,
                ports,
            },
            waiting: VecDeque::new(alloc),
            input: Vec::new(alloc),
        })
    }

    /// Plays a case, and adds what came.
    pub fn play(&mut self, alloc: Global, case: &str, out: &mut Vec<u8>) -> anyhow::Result<()> {
        if let Some(text) = case.strip_prefix("settings ") {
            self.host.documents.texts.push_back(bytes_of(alloc, text)?)?;
        } else if let Some(text) = case.strip_prefix("input ") {
            self.input = bytes_of(alloc, text)?;
        } else if let Some(text) = case.strip_prefix("waits ") {
            self.waiting.push_back(bytes_of(alloc, text)?)?;
        } else {
            self.run(alloc, case, out)?;
        }
        Ok(())
    }

    // Runs the program with these words.
    fn run(&mut self, alloc: Global, case: &str, out: &mut Vec<u8>) -> anyhow::Result<()> {
        let mut words = Vec::new(alloc);
        for word in case.split(' ') {
            words.push(String::from_str(alloc, word)?)?;
        }
        let waiting = std::mem::replace(&mut self.waiting, VecDeque::new(alloc));
        self.host.ports.peers = Some(Peers::new(alloc, waiting)?);
        let input = std::mem::replace(&mut self.input, Vec::new(alloc));
        let mut input = Watched::new(Cursor::new(input));
        let mut output = Watched::new(Vec::new(alloc));
        let mut errors = Watched::new(Vec::new(alloc));
        let status = program_over(
            alloc,
            &mut self.host,
            words.as_slice(),
            &mut input,
            &mut output,
            &mut errors,
        );
        print_result(out, format!(in alloc; "status {status}")?.as_bytes())?;
        print_results(alloc, out, &output.into_inner())?;
        print_results(alloc, out, &errors.into_inner())?;
        self.print_answers(alloc, out)
    }

    // Adds what each peer was answered.
    fn print_answers(&self, alloc: Global, out: &mut Vec<u8>) -> anyhow::Result<()> {
        if let Some(peers) = &self.host.ports.peers {
            for answer in peers.answers() {
                print_result(out, b"peer")?;
                print_results(alloc, out, answer)?;
            }
        }
        Ok(())
    }
}

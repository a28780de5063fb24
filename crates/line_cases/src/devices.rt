// SPDX-License-Identifier: Apache-2.0
// Devices that fail, and what is known of it afterwards.
use crate::failing::ample_world;
use crate::lines::{Lines, line_bytes};
use anyhow::Context;
use mtranscript::{play, print_result, print_results};
use mwire::{Watched, WireFault, serve};
use std::alloc::Global;
use std::io;
use std::io::{Cursor, ErrorKind, Read, Write};

// A reader that has these bytes, and then fails if it breaks.
#[derive(Drop)]
struct Source {
    bytes: Cursor<Vec<u8>>,
    breaks: bool,
}

impl Read for Source {
    fn read(&mut self, buf: &mut [u8]) -> io::Result<usize> {
        let count = self.bytes.read(buf)?;
        if count == 0 && self.breaks {
            return Err(io::Error::from(ErrorKind::Other));
        }
        Ok(count)
    }
}

// What a writer does with the bytes that it is given.
#[derive(Clone, Copy)]
enum Taking {
    All,
    Nothing,
    Failing,
}

// A writer, with the bytes that it took.
#[derive(Drop)]
struct Sink {
    bytes: Vec<u8>,
    taking: Taking,
}

impl Write for Sink {
    fn write(&mut self, buf: &[u8]) -> io::Result<usize> {
        match self.taking {
            Taking::All => {
                self.bytes.extend_from_slice(buf)?;
                Ok(buf.len())
            }
            Taking::Nothing => Ok(0),
            Taking::Failing => Err(io::Error::from(ErrorKind::Other)),
        }
    }

    fn flush(&mut self) -> io::Result<()> {
        Ok(())
    }
}

fn taking_of(word: &str) -> anyhow::Result<Taking> {
    match word {
        "all" => Ok(Taking::All),
        "nothing" => Ok(Taking::Nothing),
        "fails" => Ok(Taking::Failing),
        _ => anyhow::bail!("no such writer"),
    }
}

fn breaks(word: &str) -> anyhow::Result<bool> {
    match word {
        "ends" => Ok(false),
        "breaks" => Ok(true),
        _ => anyhow::bail!("no such reader"),
    }
}

/// Serves each line in the world that the lines before it left, by the settings of the document, over a reader and a writer that the words
/// before it name: a reader that `ends` or `breaks` after the line, a writer that takes `all`, or `nothing`, or `fails`. Prints below it what
/// was written, the fault, and which of the two had a call that failed.
///
/// # Errors
///
/// If the document gives no settings, if a case names no reader or writer, or if memory runs out.
pub fn play_devices(alloc: Global, block: &Lines, out: &mut Vec<u8>) -> anyhow::Result<()> {
    let mut world = ample_world(alloc, block.document)?;
    play(block.cases, out, |case, out| {
        let (reading, rest) = case.split_once(' ').context("no reader")?;
        let (writing, line) = rest.split_once(' ').context("no writer")?;
        let mut reader = Watched::new(Source {
            bytes: Cursor::new(line_bytes(alloc, line)?),
            breaks: breaks(reading)?,
        });
        let mut writer = Watched::new(Sink {
            bytes: Vec::new(alloc),
            taking: taking_of(writing)?,
        });
        let outcome = serve(alloc, &mut world, &mut reader, &mut writer);
        let (read_failed, write_failed) = (reader.failed(), writer.failed());
        print_results(alloc, out, &writer.into_inner().bytes)?;
        print_fault(alloc, out, outcome)?;
        print_failed(out, read_failed, b"a read failed")?;
        print_failed(out, write_failed, b"a write failed")
    })
}

fn print_fault(
    alloc: Global,
    out: &mut Vec<u8>,
    outcome: Result<(), WireFault>,
) -> anyhow::Result<()> {
    match outcome {
        Ok(()) => Ok(()),
        Err(fault) => print_result(out, format!(in alloc; "{fault}")?.as_bytes()),
    }
}

fn print_failed(out: &mut Vec<u8>, failed: bool, line: &[u8]) -> anyhow::Result<()> {
    if failed {
        print_result(out, line)?;
    }
    Ok(())
}

// SPDX-License-Identifier: Apache-2.0
// The program, over any reader and two writers.
ghost use Rattle.std.specs.Prelude.{◌≡◌, ◌≤◌, IfOk, IfErr, IfSome, vec_len};
ghost use Rattle.mislands.specs.Programs.{Ends, Lists, IsInput, NoDocument, status_of};

use crate::fault::ListFault;
use crate::listing::listing;
use mgrant::SettingsFault;
use std::alloc::Global;
use std::io;
use std::io::{ErrorKind, Read, Write};

// The most bytes that a document may have.
const MAX_DOCUMENT: u64 = 1_000_000;

// The bytes of a reader, up to one more than there may be.
fn first_bytes<I: Read + Drop>(alloc: Global, input: I) -> io::Result<Vec<u8>>
    ensures { IfOk result (λ bytes. IfSome (I.remaining input) (λ all. vec_len bytes ≤ 1000000 → bytes.items ≡ all)) }
{
    let mut bytes = Vec::new(alloc);
    input.take(MAX_DOCUMENT + 1).read_to_end(&mut bytes)?;
    Ok(bytes)
}

// Why nothing was read, by what the reader said.
fn unread(error: &io::Error) -> ListFault
    ensures { NoDocument result }
{
    if error.kind() == ErrorKind::OutOfMemory {
        return ListFault::Settings(SettingsFault::Memory);
    }
    ListFault::Unread
}

// All bytes of a reader, of which there are at most 1,000,000.
fn document<I: Read + Drop>(alloc: Global, input: I) -> Result<Vec<u8>, ListFault>
    ensures bytes { IfOk result (λ bytes. vec_len bytes ≤ 1000000) }
    ensures all { IfOk result (λ bytes. IsInput (I.remaining input) bytes.items) }
    ensures early { IfErr result NoDocument }
{
    let bytes = match first_bytes(alloc, input) {
        Ok(bytes) => bytes,
        Err(error) => return Err(unread(&error)),
    };
    if bytes.len() as u64 > MAX_DOCUMENT {
        return Err(ListFault::Unread);
    }
    Ok(bytes)
}

// Writes the lines of the islands of the settings that the input gives.
fn list<I: Read + Drop, O: Write>(alloc: Global, input: I, output: &mut O) -> Result<(), ListFault>
    ensures { Lists (I.remaining input) (O.contents output.old) (O.contents output.new) output.old output.new result }
{
    let document = match document(alloc, input) {
        Ok(document) => document,
        Err(fault) => return Err(fault),
    };
    let text = match listing(alloc, &document) {
        Ok(text) => text,
        Err(fault) => return Err(ListFault::Settings(fault)),
    };
    match output.write_all(&text) {
        Ok(()) => Ok(()),
        Err(_) => Err(ListFault::Write),
    }
}

// The exit status for what it came to.
fn status_of(outcome: &Result<(), ListFault>) -> u8
    ensures { result ≡ status_of outcome.now }
{
    match outcome {
        Ok(()) => 0,
        Err(ListFault::Unread | ListFault::Settings(_)) => 3,
        Err(ListFault::Write) => 5,
    }
}

// Writes to `errors` that the program takes no words, and gives the exit status.
pub(crate) fn refused<E: Write>(errors: &mut E) -> u8
    ensures { result ≡ 2 }
{
    let _ = writeln!(errors, "mislands: usage: mislands <SETTINGS");
    2
}

/// Runs the program with these words, which come after its name on the command line, and gives the exit status.
///
/// 0: the islands of the settings that the input gives are written, one per line. 2: there are words, and it takes none; 3: there are no
/// settings; 5: the output was not written to its end. `errors` gets a line for each but 0; a fault in writing to it is passed over.
pub fn program<I: Read + Drop, O: Write, E: Write>(
    alloc: Global,
    words: &[String],
    input: I,
    output: &mut O,
    errors: &mut E,
) -> u8
    ensures { Ends words.now (I.remaining input) (O.contents output.old) (O.contents output.new) output.old output.new result }
{
    if !words.is_empty() {
        return refused(errors);
    }
    let outcome = list(alloc, input, output);
    if let Err(fault) = &outcome {
        let _ = writeln!(errors, "mislands: {fault}");
    }
    status_of(&outcome)
}

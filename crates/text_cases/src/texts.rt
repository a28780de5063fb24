// SPDX-License-Identifier: Apache-2.0
// Texts of M by themselves: parsed and written back.
use mnum::{Bytes7, Name};
use mparse::{ParseFault, dots_of, formals_of, label_of, parse_line, parse_routine_line};
use mtranscript::{bytes_of, play, play_each, print_result};
use mtree::{since_routine_line, write_line, write_routine_line};
use std::alloc::Global;

/// For each text: `same` if its tree is written as the text, `refused` if it has no tree.
///
/// # Errors
///
/// If an escape is invalid, or if memory runs out.
pub fn play_texts(alloc: Global, cases: &[&str], out: &mut Vec<u8>) -> anyhow::Result<()> {
    play(cases, out, |case, out| {
        let text = bytes_of(alloc, case)?;
        print_result(out, compared(&text, &line_again(alloc, &text)))
    })
}

/// For each text, as a line of a routine in a language: its label, `-` if it has none, its formal list if it has one, how many dots it
/// has, and `same` or `refused` as for texts.
///
/// # Errors
///
/// If an escape is invalid, or if memory runs out.
pub fn play_routine_lines(
    alloc: Global,
    language: u32,
    cases: &[&str],
    out: &mut Vec<u8>,
) -> anyhow::Result<()> {
    play_each(
        cases,
        out,
        |case| routine_line(alloc, language, &bytes_of(alloc, case)?),
    )
}

fn routine_line(alloc: Global, language: u32, text: &[u8]) -> anyhow::Result<Vec<u8>> {
    let dots = format!(in alloc; " {} ", dots_of(language, text))?;
    let mut told = Vec::new(alloc);
    told.extend_from_slice(label_of(language, text).unwrap_or(b"-"))?;
    if let Some(names) = formals_of(alloc, language, text)? {
        tell_formals(&mut told, &names)?;
    }
    told.extend_from_slice(dots.as_bytes())?;
    told.extend_from_slice(compared(text, &routine_line_again(alloc, language, text)))?;
    Ok(told)
}

// The names of a formal list in brackets.
fn tell_formals(told: &mut Vec<u8>, names: &[Name]) -> anyhow::Result<()> {
    told.push(b'(')?;
    for (i, name) in names.iter().enumerate() {
        if i > 0 {
            told.push(b',')?;
        }
        told.extend_from_slice(name.as_bytes())?;
    }
    told.push(b')')?;
    Ok(())
}

// The text of the tree of a text.
fn line_again(alloc: Global, text: &[u8]) -> Result<Bytes7, ParseFault> {
    let line = parse_line(alloc, text)?;
    Ok(write_line(alloc, &line)?)
}

fn routine_line_again(alloc: Global, language: u32, text: &[u8]) -> Result<Bytes7, ParseFault> {
    let line = parse_routine_line(alloc, text)?;
    if since_routine_line(&line) > language {
        return Err(ParseFault::Syntax);
    }
    Ok(write_routine_line(alloc, &line)?)
}

// How a text that was parsed and written back compares with the text itself.
fn compared(text: &[u8], again: &Result<Bytes7, ParseFault>) -> &'static [u8] {
    match again {
        Err(ParseFault::Syntax) => b"refused",
        Err(ParseFault::Memory) => b"no memory",
        Ok(written) if written.as_bytes() == text => b"same",
        Ok(_) => b"another text",
    }
}

// SPDX-License-Identifier: Apache-2.0
// Trees that are kept for the next time.
use anyhow::Context;
use mcache::{ParseFault, Trees};
use mtranscript::{bytes_of, play, print_result};
use mtree::{Line, RoutineLine};
use std::alloc::Global;
use std::rc::Rc;

// The trees that were answered. While they are held, a tree that is answered again has one holder more.
#[derive(Drop)]
struct Answered {
    lines: Vec<Rc<Line>>,
    routine_lines: Vec<Rc<RoutineLine>>,
}

/// Asks for trees, one after another, in as many entries as the first case says. For each it prints how many hold the tree that was
/// answered, those that keep it and all that had it as their answer, and how many trees are kept then.
///
/// # Errors
///
/// If a case is not such a call, or if memory runs out.
pub fn play_trees(alloc: Global, cases: &[&str], out: &mut Vec<u8>) -> anyhow::Result<()> {
    let entries = entries_of(cases)?;
    if entries == 0 {
        anyhow::bail!("no room for a tree");
    }
    let mut trees = Trees::new(alloc, entries)?;
    let mut answered = Answered {
        lines: Vec::new(alloc),
        routine_lines: Vec::new(alloc),
    };
    play(cases, out, |case, out| {
        if case.starts_with("entries ") {
            return Ok(());
        }
        let told = match asked(alloc, &mut trees, &mut answered, case)? {
            Some(holders) => format!(in alloc; "{holders} hold it, {} kept", trees.len())?,
            None => format!(in alloc; "refused, {} kept", trees.len())?,
        };
        print_result(out, told.as_bytes())
    })
}

fn entries_of(cases: &[&str]) -> anyhow::Result<usize> {
    let first = cases.first().context("a block without a case")?;
    let count = first
        .strip_prefix("entries ")
        .context("no count of entries")?;
    Ok(count.parse::<usize>()?)
}

// The language that the texts are read in.
const PROFILE: u32 = 0;

// How many hold the tree of a text; None if it has none.
fn asked(
    alloc: Global,
    trees: &mut Trees,
    answered: &mut Answered,
    case: &str,
) -> anyhow::Result<Option<usize>> {
    let (kind, text) = case.split_once(' ').context("a case of one word")?;
    let text = bytes_of(alloc, text)?;
    let holders = match kind {
        "line" => match trees.line(alloc, PROFILE, &text) {
            Ok(tree) => holders(&mut answered.lines, tree)?,
            Err(fault) => return refused(fault),
        },
        "routine_line" => match trees.routine_line(alloc, PROFILE, &text) {
            Ok(tree) => holders(&mut answered.routine_lines, tree)?,
            Err(fault) => return refused(fault),
        },
        _ => anyhow::bail!("no such call"),
    };
    Ok(Some(holders))
}

// How many hold a tree that was answered, which is held from now on.
fn holders<T: Drop>(held: &mut Vec<Rc<T>>, tree: Rc<T>) -> anyhow::Result<usize> {
    let count = Rc::strong_count(&tree);
    held.push(tree)?;
    Ok(count)
}

fn refused(fault: ParseFault) -> anyhow::Result<Option<usize>> {
    match fault {
        ParseFault::Syntax => Ok(None),
        ParseFault::Memory => anyhow::bail!("no memory"),
    }
}

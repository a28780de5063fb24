// SPDX-License-Identifier: Apache-2.0
// Lines of two accounts, of which each call of the store fails in turn.
use crate::failing::{ENTRIES, FailingWorld, failing_world, served};
use crate::lines::{Lines, Stream, lines_of};
use mnodes::StoreCall;
use mtranscript::print_result;
use std::alloc::Global;

const CALLS: [(&str, StoreCall); 5] = [
    ("get", StoreCall::Get),
    ("put", StoreCall::Put),
    ("kill", StoreCall::Kill),
    ("next", StoreCall::Next),
    ("prev", StoreCall::Prev),
];

// The lines make fewer calls of each kind.
const MOST: u32 = 1000;

// What came of the lines.
#[derive(Drop)]
struct Run {
    // what terminal 1 was answered
    replies: Vec<u8>,
    // whether a call failed in a line of terminal 1, and in one of another
    own: bool,
    other: bool,
    // whether a line in which no call failed ended by ZSTORE, or a line in which one failed did not
    misplaced: bool,
}

// In how many runs a call of this kind failed, and in how many of them in a line of a terminal other than 1; how many of the latter changed a
// reply at terminal 1, and how many runs had ZSTORE elsewhere.
#[derive(Drop)]
struct Counts {
    runs: u32,
    others: u32,
    changed: u32,
    misplaced: u32,
}

/// Serves the lines by the settings of the document, and again for each call of the store that they make, which then fails. For each kind of
/// call it prints how many failed, and how many of them in a line of a terminal other than 1; in how many of the latter a reply at terminal 1
/// was not the one without the failure; and in how many runs ZSTORE was elsewhere than in the line in which the call failed.
///
/// # Errors
///
/// If the document gives no settings, or if memory runs out.
pub fn play_outsiders(alloc: Global, block: &Lines, out: &mut Vec<u8>) -> anyhow::Result<()> {
    let lines = lines_of(alloc, block.cases, out)?;
    let stream = Stream {
        document: block.document,
        lines: lines.as_slice(),
    };
    let wanted = run_failing(alloc, &stream, StoreCall::Get, u32::MAX)?;
    for (word, call) in CALLS {
        let Counts {
            runs,
            others,
            changed,
            misplaced,
        } = count(alloc, &stream, &wanted.replies, call)?;
        let told = format!(in alloc;
            "{word}: {runs} failed, {others} at another terminal; {changed} changed a reply at terminal 1, {misplaced} not in the line that ends by ZSTORE"
        )?;
        print_result(out, told.as_bytes())?;
    }
    Ok(())
}

fn run_failing(alloc: Global, stream: &Stream, call: StoreCall, n: u32) -> anyhow::Result<Run> {
    let mut world = failing_world(alloc, stream.document, ENTRIES, call, n)?;
    run_over(alloc, &mut world, stream.lines)
}

// Serves the lines in a world that is lent, so that it is dropped in one place.
fn run_over(alloc: Global, world: &mut FailingWorld, lines: &[Vec<u8>]) -> anyhow::Result<Run> {
    let mut run = Run {
        replies: Vec::new(alloc),
        own: false,
        other: false,
        misplaced: false,
    };
    for line in lines {
        let (answer, failed) = served(alloc, world, line)?;
        let own = line.starts_with(b"1 ");
        run.own |= failed && own;
        run.other |= failed && !own;
        run.misplaced |= failed != answer.ends_with(b"!ZSTORE\n");
        if own {
            run.replies.extend_from_slice(&answer)?;
        }
    }
    Ok(run)
}

fn count(alloc: Global, stream: &Stream, wanted: &[u8], call: StoreCall) -> anyhow::Result<Counts> {
    let mut counts = Counts {
        runs: 0,
        others: 0,
        changed: 0,
        misplaced: 0,
    };
    for n in 1..MOST {
        let run = run_failing(alloc, stream, call, n)?;
        counts.misplaced = counts.misplaced.saturating_add(run.misplaced as u32);
        if !run.own && !run.other {
            return Ok(counts);
        }
        counts.runs = counts.runs.saturating_add(1);
        if run.other {
            counts.others = counts.others.saturating_add(1);
            let changed = run.replies.as_slice() != wanted;
            counts.changed = counts.changed.saturating_add(changed as u32);
        }
    }
    anyhow::bail!("calls without end")
}

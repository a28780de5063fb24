// SPDX-License-Identifier: Apache-2.0
// Lines: commands with spaces between, and a comment.
ghost use Rattle.std.specs.Prelude.{◌≡◌, length, map, IfOk, Err, option_map};
ghost use Rattle.mgrammar.specs.Grammar.{LineTree, spell};
ghost use Rattle.mgrammar.specs.WellFormed.{least_gap, well};
ghost use Rattle.mgrammar.specs.ReadingWords.{many};
ghost use Rattle.mgrammar.specs.Reading.{at_end, spaced_at, comment_at, line_at};
ghost use Rattle.mtree.specs.Tree.{arg_tree, spaced_tree, line_tree, IsCounted};
ghost use Rattle.mscan.specs.Gives.{Gives};

use crate::command::command;
use mnum::Bytes7;
use mscan::{Class, ParseFault, run};
use mtree::{Arg, Line, Spaced, since_commands};
use std::alloc::Global;

fn is_at_end(bytes: &[u8]) -> bool
    ensures { result ≡ at_end bytes.now }
{
    match bytes.first() {
        None => true,
        Some(byte) => *byte == b';',
    }
}

#[tactic(auto, unfolding(mgrammar::specs::Reading::comment_at))]
pub fn comment(alloc: Global, bytes: &[u8]) -> Result<Option<Bytes7>, ParseFault>
    ensures { Gives (λ o. o) result (comment_at bytes.now) }
{
    let Some((first, rest)) = bytes.split_first() else {
        return Ok(None);
    };
    let (text, after) = run(Class::Any, rest);
    if *first != b';' || !after.is_empty() {
        return Err(ParseFault::Syntax);
    }
    Ok(Some(Bytes7::from_slice(alloc, text)?))
}

// The least number of spaces between a command with these arguments and another one.
fn least_gap(args: &[Arg]) -> usize
    ensures { result ≡ least_gap (map arg_tree args.now) }
{
    match args {
        [] => 2,
        _ => 1,
    }
}

#[tactic(auto, unfolding(mgrammar::specs::Reading::spaced_at))]
fn next_command(alloc: Global, bytes: &[u8]) -> Result<Option<(Spaced, &[u8])>, ParseFault>
    ensures { Gives (λ o. option_map (λ x. (spaced_tree x.0, x.1.now)) o) result (spaced_at bytes.now) }
{
    if is_at_end(bytes) {
        return Ok(None);
    }
    let (command, rest) = command(alloc, bytes)?;
    let (spaces, rest) = run(Class::Space, rest);
    let spaces = spaces.len();
    if !is_at_end(rest) && spaces < least_gap(&command.args) {
        return Err(ParseFault::Syntax);
    }
    Ok(Some((Spaced { command, spaces }, rest)))
}

fn commands(alloc: Global, bytes: &[u8]) -> Result<(Vec<Spaced>, &[u8]), ParseFault>
    ensures { Gives (λ x. (map spaced_tree x.0.items, x.1.now)) result (many spaced_at (length bytes.now) bytes.now) }
{
    let mut all = Vec::new(alloc);
    let mut rest = bytes;
    for _ in 0..bytes.len() {
        let Some((item, after)) = next_command(alloc, rest)? else {
            break;
        };
        all.push(item)?;
        rest = after;
    }
    Ok((all, rest))
}

#[tactic(auto, unfolding(mgrammar::specs::Reading::line_at))]
pub fn line(alloc: Global, text: &[u8]) -> Result<Line, ParseFault>
    ensures read { Gives (λ l. line_tree l) result (line_at text.now) }
    ensures counted { IfOk result (λ l. IsCounted l) }
{
    let (spaces, rest) = run(Class::Space, text);
    let (commands, rest) = commands(alloc, rest)?;
    let comment = comment(alloc, rest)?;
    let lead = spaces.len();
    let since = since_commands(&commands);
    Ok(Line {
        lead,
        commands,
        comment,
        since,
    })
}

/// The tree of a line of any bytes: the one tree of the grammar that has this text, whatever language it needs.
///
/// # Errors
///
/// `Syntax` only if no tree of the grammar has the text, as when a byte is over 127; `Memory` if it runs out of memory.
#[tactic(auto, using(mgrammar::proofs::ReadingLines::reads_its_tree, crate::proofs::WholeTexts::is_syntax))]
pub fn parse_line(alloc: Global, text: &[u8]) -> Result<Line, ParseFault>
    ensures tree { IfOk result (λ l. well (line_tree l) × (spell (line_tree l) ≡ text.now)) }
    ensures counted { IfOk result (λ l. IsCounted l) }
    ensures syntax { result ≡ Err ParseFault.Syntax → (t : LineTree) → well t → spell t ≡ text.now → ⊥ }
{
    line(alloc, text)
}

// SPDX-License-Identifier: Apache-2.0
// Lines of routines: a label or none, a formal list or none, and after these a comment, or dots and what a line of a terminal has too.
ghost use Rattle.std.specs.Prelude.{◌≡◌, IfOk, Err, Some, option_map};
ghost use Rattle.mgrammar.specs.RoutineLine.{formals_at, RoutineLineTree, spell_routine_line, well_routine_line, dot_at, dots_at, body_at, routine_line_at};
ghost use Rattle.mtree.specs.Tree.{formals_tree, body_tree, routine_line_tree, IsBodyCounted};
ghost use Rattle.mscan.specs.Gives.{Gives};

use crate::line::{comment, line};
use mnum::Name;
use mscan::{Class, ParseFault, formals, label, past, run};
use mtree::{Body, RoutineLine};
use std::alloc::{AllocError, Global};
use std::rc::Rc;

// The next dot, if one comes, given by the number of spaces before it.
#[tactic(auto, unfolding(mgrammar::specs::RoutineLine::dot_at))]
fn dot(bytes: &[u8]) -> Option<(usize, &[u8])>
    ensures { Some (option_map (λ x. (x.0, x.1.now)) result) ≡ dot_at bytes.now }
{
    let (spaces, rest) = run(Class::Space, bytes);
    let behind = past(b'.', rest)?;
    Some((spaces.len(), behind))
}

#[tactic(auto, unfolding(mgrammar::specs::RoutineLine::dots_at))]
fn dots(alloc: Global, bytes: &[u8]) -> Result<(Vec<usize>, &[u8]), ParseFault>
    ensures { Gives (λ x. (x.0.items, x.1.now)) result (dots_at bytes.now) }
{
    let mut all = Vec::new(alloc);
    let mut rest = bytes;
    for _ in 0..bytes.len() {
        let Some((spaces, after)) = dot(rest) else {
            break;
        };
        all.push(spaces)?;
        rest = after;
    }
    Ok((all, rest))
}

// The names of the formal list after a label, or none, and what comes after these.
#[tactic(auto, unfolding(mgrammar::specs::RoutineLine::formals_at))]
fn listed<'t>(
    alloc: Global,
    label: Option<&[u8]>,
    bytes: &'t [u8],
) -> Result<(Option<Vec<Name>>, &'t [u8]), AllocError>
    ensures { IfOk result (λ x. (formals_tree x.0, x.1.now) ≡ formals_at (option_map (λ n. n.now) label.entry) bytes.now) }
{
    match label {
        None => Ok((None, bytes)),
        Some(_) => formals(alloc, bytes),
    }
}

// What comes after the label and its formal list.
#[tactic(auto, unfolding(mgrammar::specs::RoutineLine::body_at))]
fn body(alloc: Global, bytes: &[u8]) -> Result<Body, ParseFault>
    ensures read { Gives (λ b. body_tree b) result (body_at bytes.now) }
    ensures counted { IfOk result (λ b. IsBodyCounted b) }
{
    let Some(behind) = past(b' ', bytes) else {
        return Ok(Body::Short(comment(alloc, bytes)?));
    };
    let (dots, rest) = dots(alloc, behind)?;
    let line = line(alloc, rest)?;
    Ok(Body::Spaced(dots, Rc::new(alloc, line)?))
}

#[tactic(auto, unfolding(mgrammar::specs::RoutineLine::routine_line_at))]
fn routine_line(alloc: Global, text: &[u8]) -> Result<RoutineLine, ParseFault>
    ensures read { Gives (λ l. routine_line_tree l) result (routine_line_at text.now) }
    ensures counted { IfOk result (λ l. IsBodyCounted l.body) }
{
    let (name, rest) = label(true, text);
    let (formals, rest) = listed(alloc, name, rest)?;
    let body = body(alloc, rest)?;
    let label = match name {
        None => None,
        Some(name) => Some(Name::from_slice(alloc, name)?),
    };
    Ok(RoutineLine {
        label,
        formals,
        body,
    })
}

/// The tree of a routine's line of any bytes: the one tree of the grammar that has this text. It is the tree that the meaning of a
/// routine reads.
///
/// # Errors
///
/// `Syntax` only if no tree of the grammar has the text as a routine's line, as when a byte is over 127; `Memory` if it runs out of memory.
#[tactic(auto, using(mgrammar::proofs::ReadingRoutines::reads_its_routine_tree, crate::proofs::WholeTexts::is_syntax))]
pub fn parse_routine_line(alloc: Global, text: &[u8]) -> Result<RoutineLine, ParseFault>
    ensures read { Gives (λ l. routine_line_tree l) result (routine_line_at text.now) }
    ensures counted { IfOk result (λ l. IsBodyCounted l.body) }
    ensures tree { IfOk result (λ l. well_routine_line (routine_line_tree l) × (spell_routine_line (routine_line_tree l) ≡ text.now)) }
    ensures syntax { result ≡ Err ParseFault.Syntax → (t : RoutineLineTree) → well_routine_line t → spell_routine_line t ≡ text.now → ⊥ }
{
    routine_line(alloc, text)
}

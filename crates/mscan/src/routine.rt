// SPDX-License-Identifier: Apache-2.0
// What a line of a routine begins with, its label, its formal list and its dots, found without reading what comes after them.
ghost use Rattle.std.specs.Prelude.{◌≡◌, ◌≤◌, None, true, false, length, option_map, is_some, IfOk, IfSome};
ghost use Rattle.std.specs.List.{filter};
ghost use Rattle.mspec.specs.Names.{IsName};
ghost use Rattle.mgrammar.specs.ReadingWords.{run_of, past};
ghost use Rattle.mgrammar.specs.RoutineLine.{has_formals, label_ends, label_at, label_of, formals_by, formals_behind, formals_of, listed_by, is_dot};
ghost use Rattle.mgrammar.specs.RoutineLine.{is_space_or_dot, dots_of};
ghost use Rattle.mtree.specs.Tree.{formals_tree};

use crate::formal_lists::{formal_list, formals, list_within};
use crate::runs::{name_bytes, past};
use mnum::Name;
use std::alloc::{AllocError, Global};

// Whether a language has formal lists.
fn has_formals(language: u32) -> bool
    ensures { result ≡ has_formals language }
{
    language >= 1
}

// Whether a label ends before this text, of which a bracket may begin a formal list.
fn label_ends(lists: bool, bytes: &[u8]) -> bool
    ensures { result ≡ label_ends lists bytes.now }
{
    match bytes.first() {
        None => true,
        Some(byte) => match *byte {
            b' ' | b';' => true,
            b'(' => lists,
            _ => false,
        },
    }
}

/// The label of a routine's line of any bytes, or none, and the text after it, of which a bracket may begin a formal list. Takes no
/// memory.
#[tactic(auto, unfolding(mgrammar::specs::RoutineLine::label_at))]
pub fn label(lists: bool, line: &[u8]) -> (Option<&[u8]>, &[u8])
    ensures label { (option_map (λ x. x.now) result.0, result.1.now) ≡ label_at lists line.now }
    ensures is_name { IfSome result.0 (λ x. IsName x.now) }
{
    let Some((name, rest)) = name_bytes(line) else {
        return (None, line);
    };
    if label_ends(lists, rest) {
        (Some(name), rest)
    } else {
        (None, line)
    }
}

/// The label of a routine's line of any bytes, in a language: the name that it begins with, if the line's end, a space, a comment or,
/// where there are formal lists, a bracket comes after it. Takes no memory.
pub fn label_of(language: u32, line: &[u8]) -> Option<&[u8]>
    ensures label { option_map (λ x. x.now) result ≡ label_of language line.now }
    ensures is_name { IfSome result (λ x. IsName x.now) }
{
    label(has_formals(language), line).0
}

// Whether a routine's line of any bytes has a formal list after its label, where there are formal lists.
#[tactic(auto, unfolding(mgrammar::specs::RoutineLine::formals_at))]
fn has_list(line: &[u8]) -> bool
    ensures { result ≡ is_some (formals_behind (label_at true line.now)).0 }
{
    match label(true, line) {
        (None, _) => false,
        (Some(_), rest) => formal_list(rest).is_some(),
    }
}

// Whether a bracket comes after the label of a routine's line of any bytes.
fn has_bracket(line: &[u8]) -> bool
    ensures { result ≡ false → (formals_behind (label_at true line.now)).0 ≡ None }
{
    match label(true, line) {
        (None, _) => false,
        (Some(_), rest) => past(b'(', rest).is_some(),
    }
}

/// Whether a routine's line of any bytes may have a formal list, in a language. It looks only at what the list would begin with, and takes
/// no memory.
#[tactic(auto, using(crate::proofs::WithoutFormals::no_formals))]
pub fn may_have_formal_list(language: u32, line: &[u8]) -> bool
    ensures lacks { result ≡ false → formals_of language line.now ≡ None }
    ensures lists { result ≡ true → 1 ≤ language }
{
    has_formals(language) && has_bracket(line)
}

/// Whether a routine's line of any bytes has a formal list after its label, in a language. Takes no memory.
#[tactic(auto, using(crate::proofs::WithoutFormals::no_formals))]
pub fn has_formal_list(language: u32, line: &[u8]) -> bool
    ensures { result ≡ is_some (formals_of language line.now) }
{
    // a line is not read for what its language does not have
    has_formals(language) && has_list(line)
}

// The names of the formal list of a routine's line of any bytes, where there are formal lists, or none.
#[tactic(auto, unfolding(mgrammar::specs::RoutineLine::formals_at))]
fn names_of_list(alloc: Global, line: &[u8]) -> Result<Option<Vec<Name>>, AllocError>
    ensures { IfOk result (λ names. formals_tree names ≡ (formals_behind (label_at true line.now)).0) }
{
    let (Some(_), rest) = label(true, line) else {
        return Ok(None);
    };
    let (names, _) = formals(alloc, rest)?;
    Ok(names)
}

/// The names of the formal list of a routine's line of any bytes, in a language, or none.
///
/// # Errors
///
/// `AllocError` if it runs out of memory.
#[tactic(auto, using(crate::proofs::WithoutFormals::no_formals))]
pub fn formals_of(
    alloc: Global,
    language: u32,
    line: &[u8],
) -> Result<Option<Vec<Name>>, AllocError>
    ensures { IfOk result (λ names. formals_tree names ≡ formals_of language line.now) }
{
    if has_formals(language) {
        names_of_list(alloc, line)
    } else {
        Ok(None)
    }
}

// What follows the formal list whose first bracket comes before a text, or this text, if no list comes after the bracket. Kept out of
// line, since it is rare.
#[inline(never)]
fn behind_list<'t>(whole: &'t [u8], inside: &'t [u8]) -> &'t [u8]
    ensures { result.now ≡ (listed_by whole.now (formals_by inside.now (past 41 inside.now))).1 }
{
    match list_within(inside) {
        None => whole,
        Some((_, behind)) => behind,
    }
}

// What follows the label of a routine's line of any bytes and its formal list, in a language.
#[tactic(auto, unfolding(mgrammar::specs::RoutineLine::formals_at))]
fn behind_formals(language: u32, line: &[u8]) -> &[u8]
    ensures { result.now ≡ (formals_behind (label_at (has_formals language) line.now)).1 }
{
    let (label, rest) = label(has_formals(language), line);
    let Some(_) = label else {
        return rest;
    };
    match past(b'(', rest) {
        None => rest,
        Some(inside) => behind_list(rest, inside),
    }
}

// The dots in the run of spaces and dots that the text begins with.
fn dots_in_run(bytes: &[u8]) -> usize
    ensures { result ≡ length (filter is_dot (run_of is_space_or_dot bytes.now)) }
{
    let mut dots = 0;
    for byte in bytes {
        if *byte == b'.' {
            dots += 1;
        } else if *byte != b' ' {
            break;
        }
    }
    dots
}

/// How many dots a routine's line of any bytes has after its label, its formal list and a space, with spaces between or none, in a
/// language. Takes no memory.
pub fn dots_of(language: u32, line: &[u8]) -> usize
    ensures { result ≡ dots_of language line.now }
{
    match behind_formals(language, line) {
        [b' ', rest @ ..] => dots_in_run(rest),
        _ => 0,
    }
}

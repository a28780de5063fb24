// SPDX-License-Identifier: Apache-2.0
// Formal lists, found without reading what comes after them.
ghost use Rattle.std.specs.Prelude.{◌≡◌, ◌∷◌, length, option_map, IfOk, IfSome};
ghost use Rattle.std.specs.List.{list_any};
ghost use Rattle.mspec.specs.Names.{IsName};
ghost use Rattle.mspec.specs.Trees.{text_eq};
ghost use Rattle.mgrammar.specs.ReadingWords.{name_at, past, many, after_comma};
ghost use Rattle.mgrammar.specs.RoutineLine.{are_distinct, formals_by, listed_by};
ghost use Rattle.mtree.specs.Tree.{formals_tree};
ghost use Rattle.mscan.specs.Formals.{next_name, names_after, names_in, list_of_formals};

use crate::runs::{name_bytes, past};
use mnum::Name;
use std::alloc::{AllocError, Global};

// The name after a comma, and what follows it.
fn next_name(bytes: &[u8]) -> Option<(&[u8], &[u8])>
    ensures name { option_map (λ x. (x.0.now, x.1.now)) result ≡ next_name bytes.now }
    ensures is_name { IfSome result (λ x. IsName x.0.now) }
{
    name_bytes(past(b',', bytes)?)
}

// Whether one of the names that come after commas is this one.
fn is_among(name: &[u8], bytes: &[u8]) -> bool
    ensures { result ≡ list_any (text_eq name.now) (names_after (length bytes.now) bytes.now) }
{
    let mut rest = bytes;
    for _ in 0..bytes.len() {
        let Some((next, after)) = next_name(rest) else {
            break;
        };
        if name == next {
            return true;
        }
        rest = after;
    }
    false
}

// Whether no two are equal of a name and those that come after commas.
fn are_distinct(first: &[u8], bytes: &[u8]) -> bool
    ensures { result ≡ are_distinct (first.now ∷ names_after (length bytes.now) bytes.now) }
{
    let mut name = first;
    let mut rest = bytes;
    for _ in 0..bytes.len() {
        if is_among(name, rest) {
            return false;
        }
        let Some((next, after)) = next_name(rest) else {
            break;
        };
        name = next;
        rest = after;
    }
    true
}

// What follows the names that come after commas, if after each comma a name comes.
fn behind_names(bytes: &[u8]) -> Option<&[u8]>
    ensures { option_map (λ x. x.now) result ≡ option_map (λ x. x.1) (many (after_comma name_at) (length bytes.now) bytes.now) }
{
    let mut rest = bytes;
    for _ in 0..bytes.len() {
        let Some(behind) = past(b',', rest) else {
            break;
        };
        let Some((_, after)) = name_bytes(behind) else {
            return None;
        };
        rest = after;
    }
    Some(rest)
}

// The formal list whose first bracket comes before a text: the text, and what follows the list. Kept out of line, since it is rare.
#[inline(never)]
pub(crate) fn list_within(inside: &[u8]) -> Option<(&[u8], &[u8])>
    ensures { option_map (λ x. (names_in x.0.now, x.1.now)) result ≡ formals_by inside.now (past 41 inside.now) }
{
    if let Some(rest) = past(b')', inside) {
        return Some((inside, rest));
    }
    let Some((first, more)) = name_bytes(inside) else {
        return None;
    };
    let Some(behind) = behind_names(more) else {
        return None;
    };
    let Some(rest) = past(b')', behind) else {
        return None;
    };
    if are_distinct(first, more) {
        Some((inside, rest))
    } else {
        None
    }
}

/// The formal list that a text begins with: what is within its brackets or begins there, and what follows the list. Takes no memory.
pub fn formal_list(bytes: &[u8]) -> Option<(&[u8], &[u8])>
    ensures { option_map (λ x. (names_in x.0.now, x.1.now)) result ≡ list_of_formals bytes.now }
{
    list_within(past(b'(', bytes)?)
}

// A name, and those that come after commas.
fn names_from(alloc: Global, first: &[u8], bytes: &[u8]) -> Result<Vec<Name>, AllocError>
    requires { IsName first.now }
    ensures { IfOk result (λ names. names.items ≡ first.now ∷ names_after (length bytes.now) bytes.now) }
{
    let mut all = Vec::new(alloc);
    all.push(Name::from_slice(alloc, first)?)?;
    let mut rest = bytes;
    for _ in 0..bytes.len() {
        let Some((next, after)) = next_name(rest) else {
            break;
        };
        all.push(Name::from_slice(alloc, next)?)?;
        rest = after;
    }
    Ok(all)
}

// The names that a text begins with, with commas between, of which there may be none.
fn names_in(alloc: Global, bytes: &[u8]) -> Result<Vec<Name>, AllocError>
    ensures { IfOk result (λ names. names.items ≡ names_in bytes.now) }
{
    match name_bytes(bytes) {
        None => Ok(Vec::new(alloc)),
        Some((first, more)) => names_from(alloc, first, more),
    }
}

/// The names of the formal list that a text begins with, or none, and what follows the list, or the text.
///
/// # Errors
///
/// `AllocError` if it runs out of memory.
pub fn formals(alloc: Global, bytes: &[u8]) -> Result<(Option<Vec<Name>>, &[u8]), AllocError>
    ensures { IfOk result (λ x. (formals_tree x.0, x.1.now) ≡ listed_by bytes.now (list_of_formals bytes.now)) }
{
    let Some((inside, rest)) = formal_list(bytes) else {
        return Ok((None, bytes));
    };
    Ok((Some(names_in(alloc, inside)?), rest))
}

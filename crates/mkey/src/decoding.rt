// SPDX-License-Identifier: Apache-2.0
// Keys read back. How many digits the numbers of a key keep is a parameter, since old stores kept fewer.
ghost use Rattle.std.specs.Prelude.{◌≡◌, ◌↔◌, ℕ, ℤ, ◌+◌, ◌^◌, ◌<◌, ◌≤◌, List, [], ◌∷◌, ◌++◌, All, IsTrue, length, take, drop, Some, IfOk, MatchOption};
ghost use Rattle.mkey.specs.Front.{IsFront, BeginsWithNo, BeginsWithNumber, IsSub, AreSubs};
ghost use Rattle.mkey.specs.Key.{IsKeyOf, IsKeyBy, old_digits};
ghost use Rattle.mnum.specs.Num.{units};
ghost use Rattle.mspec.specs.Act.{Node};
ghost use Rattle.mspec.specs.Names.{IsName};
ghost use Rattle.mspec.specs.KeyBytes.{big_endian, text_bytes, raised, subscript_by, subscript_bytes, subscripts_bytes, key_bytes, IsAccountName, IsAscii};
ghost use Rattle.mspec.specs.KeyBytes.{AreSubscripts, IsStored};
ghost use Rattle.mspec.specs.NodeOrder.{canonical_value};
ghost use Rattle.mspec.specs.Number.{significant_digits, IsNumber};
ghost use Rattle.mspec.specs.NumberText.{IsCanonical};

use crate::encoding::RAISE;
use crate::key::NodeKey;
use crate::names::is_account_name;
use crate::order::first_word;
use crate::subs::{Subs, is_subscript};
use mnum::{Bytes7, Num, is_canonical_by, is_name};
use mspec::limits::MAX_SUBSCRIPTS;
use std::alloc::{AllocError, Global};

// Enough space for most texts of keys.
const SHORT_TEXT: usize = 32;

// The digits that a number of the language keeps, and those that it kept in stores of version 1.
pub const DIGITS: u32 = 18;

const OLD_DIGITS: u32 = 15;

// Enough space for every text of a number: eighteen digits, a sign and a point.
const NUMBER_TEXT: usize = 20;

// How many numbers eight bytes can be.
const WORD: u128 = 1 << 64;

// What follows the first `count` bytes.
pub fn behind(bytes: &[u8], count: usize) -> &[u8]
    requires { count ≤ length bytes.now }
    ensures { result.now ≡ drop count bytes.now }
{
    &bytes[count..]
}

// The text of these bytes, with a count; None if one of them is over 127.
fn counted(bytes: Vec<u8>, count: usize) -> Option<(Bytes7, usize)>
    ensures { MatchOption result
        (All (λ c. c < 128) bytes.items → ⊥)
        (λ part. (part.0 ≡ bytes.items) × (part.1 ≡ count) × All (λ c. c < 128) bytes.items) }
{
    match Bytes7::new(bytes) {
        Ok(text) => Some((text, count)),
        Err(_) => None,
    }
}

// The text that the bytes begin with, and how many of them are its own; None if they begin with no text.
fn read_text(alloc: Global, bytes: &[u8]) -> Result<Option<(Bytes7, usize)>, AllocError>
    ensures { IfOk result (λ found. MatchOption found
        (BeginsWithNo IsAscii text_bytes bytes.now)
        (λ part. IsFront bytes.now (text_bytes part.0) part.1 × IsAscii part.0)) }
{
    let mut text = Vec::with_capacity(alloc, bytes.len().min(SHORT_TEXT))?;
    for (i, byte) in bytes.iter().enumerate() {
        if *byte == 0 {
            return Ok(counted(text, i + 1));
        }
        text.push(*byte - 1)?;
    }
    Ok(None)
}

// The number that the first sixteen bytes are, high byte first.
fn read_bytes(bytes: &[u8]) -> u128
    requires { 16 ≤ length bytes.now }
    ensures { big_endian 16 result ≡ take 16 bytes.now }
{
    let high = first_word(bytes);
    let low = first_word(behind(bytes, 8));
    high as u128 * WORD + low as u128
}

// The number of the language that was raised to this one.
#[inline]
fn lowered(number: u128) -> Option<Num>
    ensures { MatchOption result ((u : ℤ) → IsNumber significant_digits u → raised u ≡ number → ⊥) (λ n. raised (units n) ≡ number) }
{
    if number >= RAISE {
        Num::from_units((number - RAISE) as i128)
    } else if number > 0 {
        Num::from_units(-((RAISE - number) as i128))
    } else {
        None
    }
}

// The text of these bytes as a subscript, with a count; None if it is none.
fn sub_of(bytes: Vec<u8>, count: usize) -> Option<(Bytes7, usize)>
    ensures { MatchOption result
        (IsSub bytes.items → ⊥)
        (λ part. (part.0 ≡ bytes.items) × (part.1 ≡ count) × IsSub part.0) }
{
    match Bytes7::new(bytes) {
        Ok(text) => {
            if is_subscript(&text) {
                Some((text, count))
            } else {
                None
            }
        }
        Err(_) => None,
    }
}

// Whether a text that is canonical is still so when only this many digits are kept.
fn is_kept(text: &[u8], kept: u32) -> bool
    requires canonical { IsCanonical significant_digits text.now }
    requires some_kept { 0 < kept }
    requires kept_at_most { kept ≤ 18 }
    ensures { IsTrue result ↔ IsCanonical kept text.now }
{
    kept == DIGITS || is_canonical_by(text, kept)
}

// The subscript that is this number, with a count; None if fewer digits are kept than the number has.
fn numeric_sub(
    alloc: Global,
    number: Num,
    kept: u32,
    count: usize,
) -> Result<Option<(Bytes7, usize)>, AllocError>
    requires some_kept { 0 < kept }
    requires kept_at_most { kept ≤ 18 }
    ensures { IfOk result (λ found. MatchOption found
        ((s : List ℕ) → IsSub s → canonical_value kept s ≡ Some (units number) → ⊥)
        (λ part. (canonical_value kept part.0 ≡ Some (units number)) × (part.1 ≡ count) × IsSub part.0)) }
{
    let mut text = Vec::with_capacity(alloc, NUMBER_TEXT)?;
    number.write(&mut text)?;
    if !is_kept(text.as_slice(), kept) {
        return Ok(None);
    }
    Ok(sub_of(text, count))
}

// The number of the language that bytes with the tag 1 in front begin with.
#[inline]
pub fn front_number(bytes: &[u8]) -> Option<Num>
    ensures { MatchOption result
        (BeginsWithNo IsSub (subscript_bytes significant_digits) (1 ∷ bytes.now))
        (λ n. BeginsWithNumber (units n) bytes.now) }
{
    if bytes.len() < 16 {
        return None;
    }
    lowered(read_bytes(bytes))
}

// The subscript that bytes with the tag 1 in front begin with, and how many of them are its own.
fn read_number(
    alloc: Global,
    bytes: &[u8],
    kept: u32,
) -> Result<Option<(Bytes7, usize)>, AllocError>
    requires some_kept { 0 < kept }
    requires kept_at_most { kept ≤ 18 }
    ensures { IfOk result (λ found. MatchOption found
        (BeginsWithNo IsSub (subscript_bytes kept) (1 ∷ bytes.now))
        (λ part. IsFront (1 ∷ bytes.now) (subscript_bytes kept part.0) part.1 × IsSub part.0)) }
{
    match front_number(bytes) {
        None => Ok(None),
        Some(number) => {
            let found = numeric_sub(alloc, number, kept, 17)?;
            Ok(found)
        }
    }
}

// The same with the tag 2 in front.
pub fn read_letters(
    alloc: Global,
    bytes: &[u8],
    kept: u32,
) -> Result<Option<(Bytes7, usize)>, AllocError>
    requires some_kept { 0 < kept }
    requires kept_at_most { kept ≤ 18 }
    ensures { IfOk result (λ found. MatchOption found
        (BeginsWithNo IsSub (subscript_bytes kept) (2 ∷ bytes.now))
        (λ part. IsFront (2 ∷ bytes.now) (subscript_bytes kept part.0) part.1 × IsSub part.0)) }
{
    match read_text(alloc, bytes)? {
        None => Ok(None),
        Some((text, count)) => {
            if !is_subscript(&text) {
                return Ok(None);
            }
            if is_canonical_by(text.as_bytes(), kept) {
                return Ok(None);
            }
            Ok(Some((text, count + 1)))
        }
    }
}

// The subscript that the bytes begin with, and how many of them are its own.
fn read_subscript(
    alloc: Global,
    bytes: &[u8],
    kept: u32,
) -> Result<Option<(Bytes7, usize)>, AllocError>
    requires some_kept { 0 < kept }
    requires kept_at_most { kept ≤ 18 }
    ensures { IfOk result (λ found. MatchOption found
        (BeginsWithNo IsSub (subscript_bytes kept) bytes.now)
        (λ part. IsFront bytes.now (subscript_bytes kept part.0) part.1 × IsSub part.0)) }
{
    match bytes {
        [1, rest @ ..] => read_number(alloc, rest, kept),
        [2, rest @ ..] => read_letters(alloc, rest, kept),
        _ => Ok(None),
    }
}

// The subscripts that the bytes are.
pub(crate) fn read_subs(alloc: Global, bytes: &[u8], kept: u32) -> Result<Option<Subs>, AllocError>
    requires some_kept { 0 < kept }
    requires kept_at_most { kept ≤ 18 }
    ensures { IfOk result (λ found. MatchOption found
        ((ys : List (List ℕ)) → AreSubs ys → bytes.now ≡ subscripts_bytes kept ys → ⊥)
        (λ subs. AreSubs subs × (bytes.now ≡ subscripts_bytes kept subs))) }
{
    let mut texts = Vec::new(alloc);
    let mut rest = bytes;
    while !rest.is_empty() {
        if texts.len() == MAX_SUBSCRIPTS {
            return Ok(None);
        }
        let Some((text, count)) = read_subscript(alloc, rest, kept)? else {
            return Ok(None);
        };
        texts.push(text)?;
        rest = behind(rest, count);
    }
    Ok(Some(Subs { texts }))
}

// The account's name that the bytes begin with, and how many of them are its own.
fn read_account(alloc: Global, bytes: &[u8]) -> Result<Option<(Bytes7, usize)>, AllocError>
    ensures { IfOk result (λ found. MatchOption found
        (BeginsWithNo IsAccountName text_bytes bytes.now)
        (λ part. IsFront bytes.now (text_bytes part.0) part.1 × IsAccountName part.0)) }
{
    match read_text(alloc, bytes)? {
        Some((text, count)) => {
            if is_account_name(&text) {
                Ok(Some((text, count)))
            } else {
                Ok(None)
            }
        }
        None => Ok(None),
    }
}

// The global's name that the bytes begin with, and how many of them are its own.
fn read_name(alloc: Global, bytes: &[u8]) -> Result<Option<(Bytes7, usize)>, AllocError>
    ensures { IfOk result (λ found. MatchOption found
        (BeginsWithNo IsName text_bytes bytes.now)
        (λ part. IsFront bytes.now (text_bytes part.0) part.1 × IsName part.0)) }
{
    match read_text(alloc, bytes)? {
        Some((text, count)) => {
            if is_name(&text) {
                Ok(Some((text, count)))
            } else {
                Ok(None)
            }
        }
        None => Ok(None),
    }
}

// The parts of the node whose key these bytes are when numbers keep `kept` digits.
#[tactic(auto, using(crate::proofs::SubscriptLists::node_found))]
fn read_by(
    alloc: Global,
    bytes: &[u8],
    kept: u32,
) -> Result<Option<(Bytes7, Bytes7, Subs)>, AllocError>
    requires some_kept { 0 < kept }
    requires kept_at_most { kept ≤ 18 }
    ensures { IfOk result (λ found. MatchOption found
        ((n : Node) → IsStored n → key_bytes kept n ≡ bytes.now → ⊥)
        (λ parts. IsKeyBy kept (record { account = parts.0; name = parts.1; subscripts = parts.2 }) bytes.now)) }
{
    let Some((account, count)) = read_account(alloc, bytes)? else {
        return Ok(None);
    };
    let local = behind(bytes, count);
    let Some((name, count)) = read_name(alloc, local)? else {
        return Ok(None);
    };
    let Some(subs) = read_subs(alloc, behind(local, count), kept)? else {
        return Ok(None);
    };
    Ok(Some((account, name, subs)))
}

/// The account, the global's name and the subscripts of the node whose key these bytes are, or None if they are the key of no
/// node of a store: of no account name of 1 to 16 letters or digits, global name of 1 to 31 characters and list of subscripts
/// that `subs_ok` accepts.
///
/// # Errors
///
/// `AllocError` if it runs out of memory.
pub fn read(alloc: Global, bytes: &[u8]) -> Result<Option<(Bytes7, Bytes7, Subs)>, AllocError>
    ensures { IfOk result (λ found. MatchOption found
        ((n : Node) → IsStored n → key_bytes significant_digits n ≡ bytes.now → ⊥)
        (λ parts. IsKeyOf (record { account = parts.0; name = parts.1; subscripts = parts.2 }) bytes.now)) }
{
    read_by(alloc, bytes, DIGITS)
}

impl NodeKey {
    /// The parts of the node whose key these bytes are in a store of version 1, where numbers keep fifteen digits, or None if they
    /// are the key of no node there. Like `read`, with fewer digits: a text of sixteen to eighteen digits is no number there.
    ///
    /// # Errors
    ///
    /// `AllocError` if it runs out of memory.
    pub fn read_v1(
        alloc: Global,
        bytes: &[u8],
    ) -> Result<Option<(Bytes7, Bytes7, Subs)>, AllocError>
        ensures { IfOk result (λ found. MatchOption found
            ((n : Node) → IsStored n → key_bytes old_digits n ≡ bytes.now → ⊥)
            (λ parts. IsKeyBy old_digits (record { account = parts.0; name = parts.1; subscripts = parts.2 }) bytes.now)) }
    {
        read_by(alloc, bytes, OLD_DIGITS)
    }
}

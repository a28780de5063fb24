// SPDX-License-Identifier: Apache-2.0
// The bytes of texts, numbers and subscripts. A subscript that is a number is written as it is, and no text of it is made.
ghost use Rattle.std.specs.Prelude.{◌≡◌, ℤ, ◌+◌, ◌*◌, ◌^◌, ◌<◌, ◌≤◌, ◌∷◌, ◌++◌, All, OnOk, length, unsigned_abs, vec_len, vec_capacity};
ghost use Rattle.mspec.specs.KeyBytes.{text_bytes, raised, number_bytes, subscript_bytes, subscripts_bytes, IsSubscript, AreSubscripts, IsAscii};
ghost use Rattle.mspec.specs.Number.{significant_digits};

use crate::place::canonical;
use mnum::Bytes7;
use mvalue::{Kind, Value};
use std::alloc::AllocError;

// Numbers are raised by this, so that none is below zero.
pub const RAISE: u128 = 1 << 127;

// A number takes this many bytes, and a text no more than that besides its own.
pub const NUMBER_ROOM: usize = 17;

// The bytes of a text, each plus 1, and a 0 after them.
pub fn push_text(out: &mut Vec<u8>, text: &[u8])
    requires ascii { IsAscii text.now }
    requires room { vec_len out.old + length text.now + 1 ≤ vec_capacity out.old }
    ensures items { out.new.items ≡ out.old.items ++ text_bytes text.now }
    ensures len { vec_len out.new ≡ vec_len out.old + length text.now + 1 }
    ensures capacity { vec_capacity out.new ≡ vec_capacity out.old }
{
    for c in text {
        out.push_reserved(*c + 1);
    }
    out.push_reserved(0);
}

// A number from -2^127 on, raised to be 0 or more.
fn raise(units: i128) -> u128
    ensures { result ≡ raised units }
{
    if units < 0 {
        RAISE - units.unsigned_abs()
    } else {
        RAISE + units as u128
    }
}

// The bytes of a number, with the tag of one in front.
fn push_number(out: &mut Vec<u8>, units: i128)
    requires room { vec_len out.old + 17 ≤ vec_capacity out.old }
    requires range { unsigned_abs units < 10 ^ 36 }
    ensures { out.new.items ≡ out.old.items ++ 1 ∷ number_bytes units }
{
    out.push_reserved(1);
    let bytes = raise(units).to_be_bytes();
    // the space is there
    let _put = out.extend_from_slice(&bytes);
}

// Appends the bytes of a subscript that is a text.
fn push_subscript(out: &mut Vec<u8>, text: &Bytes7) -> Result<(), AllocError>
    ensures { OnOk result (out.new.items ≡ out.old.items ++ subscript_bytes significant_digits text.now) }
{
    out.reserve(text.as_bytes().len() + NUMBER_ROOM)?;
    match canonical(text.as_bytes()) {
        Some(units) => push_number(out, units),
        None => {
            out.push_reserved(2);
            push_text(out, text.as_bytes());
        }
    }
    Ok(())
}

// Appends the bytes of a subscript.
fn push_value(out: &mut Vec<u8>, value: &Value) -> Result<(), AllocError>
    ensures { OnOk result (out.new.items ≡ out.old.items ++ subscript_bytes significant_digits value.now) }
{
    match value.kind() {
        Kind::Number(number) => {
            out.reserve(NUMBER_ROOM)?;
            push_number(out, number.to_units());
            Ok(())
        }
        Kind::Text(text) => push_subscript(out, text),
    }
}

// Appends the bytes of subscripts.
pub fn push_values(out: &mut Vec<u8>, subs: &[Value]) -> Result<(), AllocError>
    ensures { OnOk result (out.new.items ≡ out.old.items ++ subscripts_bytes significant_digits subs.now) }
{
    for value in subs {
        push_value(out, value)?;
    }
    Ok(())
}

// The same for texts.
pub fn push_texts(out: &mut Vec<u8>, subs: &[Bytes7]) -> Result<(), AllocError>
    ensures { OnOk result (out.new.items ≡ out.old.items ++ subscripts_bytes significant_digits subs.now) }
{
    for text in subs {
        push_subscript(out, text)?;
    }
    Ok(())
}

// How much space a subscript may take.
#[tactic(auto, using(mvalue::proofs::AsciiNumbers::text_ascii))]
fn value_room(value: &Value) -> usize
    requires { IsSubscript value.now }
    ensures at_most { result ≤ 272 }
    ensures ascii { IsAscii value.now }
{
    match value.kind() {
        Kind::Number(_) => NUMBER_ROOM,
        Kind::Text(text) => text.as_bytes().len() + NUMBER_ROOM,
    }
}

// How much space subscripts may take.
pub fn values_room(subs: &[Value]) -> usize
    requires { AreSubscripts subs.now }
    ensures at_most { result ≤ 15 * 272 }
    ensures ascii { All IsAscii subs.now }
{
    let mut total = 0;
    for value in subs {
        total += value_room(value);
    }
    total
}

// The same for texts.
pub fn texts_room(subs: &[Bytes7]) -> usize
    requires { AreSubscripts subs.now }
    ensures at_most { result ≤ 15 * 272 }
    ensures ascii { All IsAscii subs.now }
{
    let mut total = 0;
    for text in subs {
        total += text.as_bytes().len() + NUMBER_ROOM;
    }
    total
}

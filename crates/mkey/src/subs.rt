// SPDX-License-Identifier: Apache-2.0
// Lists of subscripts.
ghost use Rattle.std.specs.Prelude.{◌≡◌, ◌↔◌, ◌<◌, ◌≤◌, [], IfOk, IsTrue, length};
ghost use Rattle.mspec.specs.Limits.{max_subscript};
ghost use Rattle.mspec.specs.KeyBytes.{IsSubscript, AreSubscripts};
ghost use Rattle.mspec.specs.Trees.{AreOrderSubscripts};

use crate::walk::{front, last};
use mnum::Bytes7;
use mspec::limits::{MAX_SUBSCRIPT, MAX_SUBSCRIPTS};
use mvalue::{Kind, Value};
use std::alloc::{AllocError, Global};
use std::marker::Model;

/// The subscripts of a node. Contracts see them as a list of texts.
#[derive(Drop)]
pub struct Subs {
    pub(crate) texts: Vec<Bytes7>,
}

impl Model for Subs {
    ghost use Rattle.std.specs.Prelude.{List, ℕ};
    ghost use Rattle.mkey.specs.Front.{AreSubs};

    ghost Value = { List (List ℕ) };

    ghost view = { λ subs. subs.texts.items };

    ghost invariant = { λ subs. AreSubs subs.texts.items };
}

impl Subs {
    /// No subscripts, as a variable itself has them. Takes no memory.
    pub fn none(alloc: Global) -> Subs
        ensures { result ≡ [] }
    {
        Subs {
            texts: Vec::new(alloc),
        }
    }

    /// The subscripts as values, first to last.
    ///
    /// # Errors
    ///
    /// `AllocError` if it runs out of memory.
    pub fn values(&self, alloc: Global) -> Result<Vec<Value>, AllocError>
        ensures values { IfOk result (λ values. values.items ≡ self.now) }
        ensures subs { AreSubscripts self.now }
    {
        let texts = self.texts.as_slice();
        let mut values = Vec::with_capacity(alloc, texts.len())?;
        for text in texts {
            values.push(Value::of_text(text.copy()?))?;
        }
        Ok(values)
    }

    /// The subscripts, first to last. Takes no memory.
    pub fn as_slice(&self) -> &[Bytes7]
        ensures { result.now ≡ self.now }
    {
        self.texts.as_slice()
    }
}

// Whether the text has at most 255 characters.
fn is_short(text: &Bytes7) -> bool
    ensures { IsTrue result ↔ length text.now ≤ max_subscript }
{
    let length = text.as_bytes().len();
    length <= MAX_SUBSCRIPT
}

// Whether the text has 1 to 255 characters.
pub fn is_subscript(text: &Bytes7) -> bool
    ensures { IsTrue result ↔ IsSubscript text.now }
{
    !text.as_bytes().is_empty() && is_short(text)
}

// The same for a value. Each number has that many.
#[tactic(auto, using(crate::proofs::NumericValues::number_is_sub))]
fn is_value_subscript(value: &Value) -> bool
    ensures { IsTrue result ↔ IsSubscript value.now }
{
    match value.kind() {
        Kind::Number(_) => true,
        Kind::Text(text) => is_subscript(text),
    }
}

// Whether the value can be the last subscript of a walk: one of a node, or empty.
#[tactic(auto, using(crate::proofs::NumericValues::number_is_sub))]
fn is_value_short(value: &Value) -> bool
    ensures { IsTrue result ↔ length value.now ≤ max_subscript }
{
    match value.kind() {
        Kind::Number(_) => true,
        Kind::Text(text) => is_short(text),
    }
}

/// Whether these can be the subscripts of a node: at most 15, of 1 to 255 characters each. Takes no memory.
pub fn subs_ok(subs: &[Bytes7]) -> bool
    ensures { IsTrue result ↔ AreSubscripts subs.now }
{
    subs.len() <= MAX_SUBSCRIPTS && subs.iter().all(|text| is_subscript(text))
}

/// The same for values, as the language has them. Takes no memory.
pub fn values_ok(subs: &[Value]) -> bool
    ensures { IsTrue result ↔ AreSubscripts subs.now }
{
    subs.len() <= MAX_SUBSCRIPTS && subs.iter().all(|value| is_value_subscript(value))
}

/// Whether these can be the subscripts of a walk: like those of a node, but at least one, and the last may be empty. Takes no memory.
pub fn order_values_ok(subs: &[Value]) -> bool
    ensures { IsTrue result ↔ AreOrderSubscripts subs.now }
{
    let count = subs.len();
    0 < count && count <= MAX_SUBSCRIPTS && is_value_short(last(subs)) && values_ok(front(subs))
}

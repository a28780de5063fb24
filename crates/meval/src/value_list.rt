// SPDX-License-Identifier: Apache-2.0
// Values in their order.
ghost use Rattle.std.specs.Prelude.{◌≡◌, ◌++◌, [], ◌∷◌, IfOk, slice_get};
ghost use Rattle.meval.specs.Held.{held_texts};

use mvalue::Value;
use std::alloc::{AllocError, Global};
use std::marker::Model;
use std::slice::from_ref;

/// Values in their order, such as those of the subscripts of a reference. Contracts see them as the list of their texts.
pub struct Values {
    held: Held,
}

// Written out, so that dropping it is one call, which is proved once.
impl Drop for Values {
    fn drop(self) {
        let Values { held: _ } = self;
    }
}

// A single value, which most lists are, takes no memory besides its own.
#[derive(Drop)]
pub(crate) enum Held {
    One(Value),
    Several(Vec<Value>),
}

impl Model for Values {
    ghost use Rattle.std.specs.Prelude.{List, ℕ};
    ghost use Rattle.meval.specs.Held.{held_texts};

    ghost Value = { List (List ℕ) };

    ghost view = { λ values. held_texts values.held };
}

// Copies of the values.
fn copied(alloc: Global, values: &[Value]) -> Result<Vec<Value>, AllocError>
    ensures { IfOk result (λ copies. copies.items ≡ values.now) }
{
    let mut copies = Vec::with_capacity(alloc, values.len())?;
    for value in values {
        copies.push(value.copy()?)?;
    }
    Ok(copies)
}

impl Values {
    // No value. Takes no memory.
    pub(crate) fn none(alloc: Global) -> Values
        ensures { result ≡ [] }
    {
        Values::of_vec(Vec::new(alloc))
    }

    // One value. Takes no memory.
    pub(crate) fn one(value: Value) -> Values
        ensures { result ≡ value ∷ [] }
    {
        Values {
            held: Held::One(value),
        }
    }

    /// These values. Takes no memory.
    pub fn of_vec(values: Vec<Value>) -> Values
        ensures { result ≡ values.items }
    {
        Values {
            held: Held::Several(values),
        }
    }

    // Copies of these values.
    pub(crate) fn copies(alloc: Global, values: &[Value]) -> Result<Values, AllocError>
        ensures { IfOk result (λ copies. copies ≡ values.now) }
    {
        Ok(Values::of_vec(copied(alloc, values)?))
    }

    /// The values. Takes no memory.
    pub fn as_slice(&self) -> &[Value]
        ensures { result.now ≡ self.now }
    {
        match &self.held {
            Held::One(value) => from_ref(value),
            Held::Several(values) => values.as_slice(),
        }
    }

    // The same values, which can then be taken one by one.
    pub(crate) fn into_vec(self, alloc: Global) -> Result<Vec<Value>, AllocError>
        ensures { IfOk result (λ values. values.items ≡ self) }
    {
        let Values { held } = self;
        match held {
            Held::One(value) => {
                let mut values = Vec::with_capacity(alloc, 1)?;
                values.push(value)?;
                Ok(values)
            }
            Held::Several(values) => Ok(values),
        }
    }

    // The first of them, if there is one. Takes no memory.
    pub(crate) fn into_first(self) -> Option<Value>
        ensures { result ≡ slice_get self 0 }
    {
        let Values { held } = self;
        match held {
            Held::One(value) => Some(value),
            Held::Several(values) => values.into_iter().next(),
        }
    }

    // A copy of the values. One number takes no memory.
    pub(crate) fn copy(&self, alloc: Global) -> Result<Values, AllocError>
        ensures { IfOk result (λ values. values ≡ self.now) }
    {
        match &self.held {
            Held::One(value) => Ok(Values::one(value.copy()?)),
            Held::Several(values) => Ok(Values::of_vec(copied(alloc, values)?)),
        }
    }

    // These values after copies of others. Takes no memory if there are no others.
    pub(crate) fn behind(self, alloc: Global, others: &[Value]) -> Result<Values, AllocError>
        ensures { IfOk result (λ all. all ≡ others.now ++ self) }
    {
        if others.is_empty() {
            return Ok(self);
        }
        let front = copied(alloc, others)?;
        Values::of_vec(front).joined(alloc, self)
    }

    // These values, and others after them.
    pub(crate) fn joined(self, alloc: Global, behind: Values) -> Result<Values, AllocError>
        ensures { IfOk result (λ all. all ≡ self ++ behind) }
    {
        let mut all = self.into_vec(alloc)?;
        let mut behind = behind.into_vec(alloc)?;
        all.append(&mut behind)?;
        Ok(Values::of_vec(all))
    }
}

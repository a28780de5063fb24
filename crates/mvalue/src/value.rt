// SPDX-License-Identifier: Apache-2.0
// Values: a number stays a number until its text is wanted.
ghost use Rattle.std.specs.Prelude.{◌≡◌, ◌==◌, ◌^◌, ◌<◌, ◌*ℤ◌, ◌++◌, length, All, None, Some, pos, unsigned_abs, IsOk, IfOk, OnOk, OnErr, MatchResult, nat_eq};
ghost use Rattle.std.specs.Cmp.Lexicographic.{pointwise};
ghost use Rattle.mspec.specs.Interpretations.{truth_text};
ghost use Rattle.mspec.specs.Number.{significant_digits};
ghost use Rattle.mspec.specs.NumberText.{numeric_value, number_text};
ghost use Rattle.mnum.specs.Num.{units};
ghost use Rattle.mvalue.specs.Texts.{kind_text};

use crate::shown::Shown;
use mnum::{Bytes7, Num, Over};
use std::alloc::{AllocError, Global};
use std::marker::Model;

/// A value: a number or a text. Contracts see it as its text, that of a number being the canonical one.
pub struct Value {
    kind: Kind,
}

// Written out, so that dropping it is one call, which is proved once.
impl Drop for Value {
    fn drop(self) {
        let Value { kind: _ } = self;
    }
}

/// What a value is held as. Contracts see it by `kind_text`, as its text.
#[derive(Drop)]
pub enum Kind {
    /// A number, which stands for its canonical text.
    Number(Num),
    /// A text, which may be that of a number too.
    Text(Bytes7),
}

impl Model for Value {
    ghost use Rattle.mspec.specs.Node.{Text};

    ghost Value = { Text };

    ghost use Rattle.mvalue.specs.Texts.{kind_text};

    ghost view = { λ value. kind_text value.kind };
}

// The canonical text of a number.
fn printed(alloc: Global, number: Num) -> Result<Bytes7, AllocError>
    ensures { IfOk result (λ text. text ≡ number_text (units number)) }
{
    let mut bytes = Vec::new(alloc);
    number.write(&mut bytes)?;
    match Bytes7::new(bytes) {
        Ok(text) => Ok(text),
        Err(_) => unreachable!(),
    }
}

impl Value {
    /// The value of a number. Takes no memory.
    pub fn of_number(number: Num) -> Value
        ensures { result ≡ number_text (units number) }
    {
        Value {
            kind: Kind::Number(number),
        }
    }

    /// The value of a text. Takes no memory.
    pub fn of_text(text: Bytes7) -> Value
        ensures { result ≡ text }
    {
        Value {
            kind: Kind::Text(text),
        }
    }

    /// The value of a truth, 1 or 0. Takes no memory.
    pub fn of_truth(is_true: bool) -> Value
        ensures { result ≡ truth_text is_true }
    {
        if is_true {
            Value::of_whole(1)
        } else {
            Value::of_whole(0)
        }
    }

    /// The value of a whole number below 10^18 in size. Takes no memory.
    pub fn of_whole(whole: i64) -> Value
        requires { unsigned_abs whole < 10 ^ 18 }
        ensures { result ≡ number_text (whole *ℤ pos (10 ^ 18)) }
    {
        Value::of_number(Num::from_whole(whole))
    }

    /// The value of a count. One of 10^18 or more is no number, but has its text.
    ///
    /// # Errors
    ///
    /// `AllocError` if it runs out of memory, of which a count below 10^18 needs none.
    pub fn of_count(alloc: Global, count: u64) -> Result<Value, AllocError>
        ensures value { IfOk result (λ value. value ≡ number_text (pos count *ℤ pos (10 ^ 18))) }
        ensures always { count < 10 ^ 18 → IsOk result }
    {
        if count < 1_000_000_000_000_000_000 {
            return Ok(Value::of_whole(count as i64));
        }
        let digits = count.to_string(alloc)?;
        Value::of_bytes(alloc, digits.as_bytes())
    }

    /// The value of these bytes, each of which is under 128, as a text.
    ///
    /// # Errors
    ///
    /// `AllocError` if it runs out of memory.
    pub fn of_bytes(alloc: Global, bytes: &[u8]) -> Result<Value, AllocError>
        requires { All (λ c. c < 128) bytes.now }
        ensures { IfOk result (λ value. value ≡ bytes.now) }
    {
        let text = Bytes7::from_slice(alloc, bytes)?;
        Ok(Value::of_text(text))
    }

    /// What the value is held as. Takes no memory.
    pub fn kind(&self) -> &Kind
        ensures { kind_text result.now ≡ self.now }
    {
        &self.kind
    }

    /// Whether the value is the empty text. Takes no memory.
    pub fn is_empty(&self) -> bool
        ensures { result ≡ (length self.now == 0) }
    {
        match &self.kind {
            Kind::Number(_) => false,
            Kind::Text(text) => text.as_bytes().is_empty(),
        }
    }

    /// How many characters the text of the value has. Takes no memory.
    pub fn text_length(&self) -> usize
        ensures { result ≡ length self.now }
    {
        match &self.kind {
            Kind::Number(number) => number.text().len(),
            Kind::Text(text) => text.as_bytes().len(),
        }
    }

    /// The text of the value.
    ///
    /// # Errors
    ///
    /// `AllocError` if it runs out of memory, which only a number needs.
    pub fn into_text(self, alloc: Global) -> Result<Bytes7, AllocError>
        ensures { IfOk result (λ text. text ≡ self) }
    {
        let Value { kind } = self;
        match kind {
            Kind::Number(number) => printed(alloc, number),
            Kind::Text(text) => Ok(text),
        }
    }

    /// The text of the value, printed if it is a number.
    ///
    /// # Errors
    ///
    /// `AllocError` if it runs out of memory, which only a number needs.
    pub fn shown(&self, alloc: Global) -> Result<Shown<'_>, AllocError>
        ensures { IfOk result (λ shown. shown ≡ self.now) }
    {
        match &self.kind {
            Kind::Number(number) => Ok(Shown::printed(printed(alloc, *number)?)),
            Kind::Text(text) => Ok(Shown::lent(text)),
        }
    }

    /// Appends the text of the value. A number is printed in place.
    ///
    /// # Errors
    ///
    /// `AllocError` if it runs out of memory.
    pub fn write(&self, out: &mut Vec<u8>) -> Result<(), AllocError>
        ensures { OnOk result (out.new.items ≡ out.old.items ++ self.now) }
    {
        match &self.kind {
            Kind::Number(number) => number.write(out),
            Kind::Text(text) => out.extend_from_slice(text.as_bytes()),
        }
    }

    /// Appends the text of the value to another text. A number is printed on the stack.
    ///
    /// # Errors
    ///
    /// `AllocError` if it runs out of memory; the text is then as it was.
    pub fn append_to(&self, text: &mut Bytes7) -> Result<(), AllocError>
        ensures ok { OnOk result (text.new ≡ text.old ++ self.now) }
        ensures err { OnErr result (text.new ≡ text.old) }
    {
        match &self.kind {
            Kind::Number(number) => text.append(number.text().as_slice()),
            Kind::Text(own) => text.append(own.as_bytes()),
        }
    }

    /// A second value with the same text. A number is copied without memory.
    ///
    /// # Errors
    ///
    /// `AllocError` if it runs out of memory, which only a text needs.
    #[inline]
    pub fn copy(&self) -> Result<Value, AllocError>
        ensures { IfOk result (λ value. value ≡ self.now) }
    {
        match &self.kind {
            Kind::Number(number) => Ok(Value::of_number(*number)),
            Kind::Text(text) => Ok(Value::of_text(text.copy()?)),
        }
    }

    /// The number that the value stands for. Takes no memory.
    ///
    /// # Errors
    ///
    /// `Over` exactly if the number would be 10^18 or more in size, which that of a number never is.
    #[inline]
    pub fn number(&self) -> Result<Num, Over>
        ensures { MatchResult result (λ n. numeric_value significant_digits self.now ≡ Some (units n)) (λ _. numeric_value significant_digits self.now ≡ None) }
    {
        match &self.kind {
            Kind::Number(number) => Ok(*number),
            Kind::Text(text) => Num::from_text(text.as_bytes()),
        }
    }

    /// Whether two values are the same text. Takes no memory.
    pub fn equals(&self, other: &Value) -> bool
        ensures { result ≡ pointwise nat_eq self.now other.now }
    {
        match (&self.kind, &other.kind) {
            (Kind::Number(a), Kind::Number(b)) => a.cmp(*b).is_eq(),
            (Kind::Number(a), Kind::Text(b)) => a.is_text(b.as_bytes()),
            (Kind::Text(a), Kind::Number(b)) => b.is_text(a.as_bytes()),
            (Kind::Text(a), Kind::Text(b)) => a == b,
        }
    }
}

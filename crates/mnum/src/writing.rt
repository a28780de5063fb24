// SPDX-License-Identifier: Apache-2.0
// Numbers written as texts.
ghost use Rattle.std.specs.Prelude.{◌≡◌, ℕ, ◌+◌, ◌-◌, ◌*◌, ◌/◌, ◌%◌, ◌^◌, ◌<◌, ◌≤◌, [], ◌∷◌, ◌++◌, ◌↔◌, true, IsTrue, OnOk, OnErr, length, All, cond, decimal};
ghost use Rattle.std.specs.Prelude.{nat_eq};
ghost use Rattle.std.specs.Cmp.Lexicographic.{pointwise};
ghost use Rattle.arrayvec.specs.ArrayVec.{array_vec_len};
ghost use Rattle.mspec.specs.NumberText.{fraction_text, whole_text, number_text, IsCanonical};
ghost use Rattle.mnum.specs.Num.{units};
ghost use Rattle.mnum.specs.Start.{starts_number};
ghost use Rattle.mspec.specs.Literal.{is_digit};
ghost use Rattle.mspec.specs.Number.{significant_digits};

use crate::num::Num;
use crate::powers::power;
use crate::reading::value_of;
use arrayvec::ArrayVec;
use itoa::Buffer;
use std::alloc::AllocError;

// Appends the digits of a fraction, up to the last that is not 0.
#[tactic(auto, using(std::proofs::lemmas::Nat::mod_below, crate::proofs::Prints::fraction_more))]
pub(crate) fn push_fraction(out: &mut ArrayVec<u8, 40>, places: u32, fraction: u64)
    requires below { fraction < 10 ^ places }
    requires few { places ≤ 18 }
    requires room { array_vec_len out.old + places ≤ 40 }
    ensures items { out.new.items ≡ out.old.items ++ fraction_text places fraction }
    ensures len { array_vec_len out.new ≤ array_vec_len out.old + places }
{
    let mut left = fraction;
    let mut k = places;
    while left > 0 {
        k -= 1;
        let unit = power(k) as u64;
        out.push(b'0' + (left / unit) as u8);
        left %= unit;
    }
}

// Appends the digits of a whole number.
#[tactic(auto, using(crate::proofs::Prints::decimal_short))]
pub(crate) fn push_decimal(out: &mut ArrayVec<u8, 40>, whole: u64)
    requires below { whole < 10 ^ 18 }
    requires room { array_vec_len out.old + 18 ≤ 40 }
    ensures items { out.new.items ≡ out.old.items ++ decimal whole }
    ensures len { array_vec_len out.new ≤ array_vec_len out.old + 18 }
{
    let mut buffer = Buffer::new();
    for b in buffer.format(whole).as_bytes() {
        out.push(*b);
    }
}

// The same, none for 0.
fn push_whole(out: &mut ArrayVec<u8, 40>, whole: u64)
    requires below { whole < 10 ^ 18 }
    requires room { array_vec_len out.old + 18 ≤ 40 }
    ensures items { out.new.items ≡ out.old.items ++ whole_text whole }
    ensures len { array_vec_len out.new ≤ array_vec_len out.old + 18 }
{
    if whole > 0 {
        push_decimal(out, whole);
    }
}

// Appends the sign of a number below 0.
pub(crate) fn push_sign(out: &mut ArrayVec<u8, 40>, negative: bool)
    requires room { array_vec_len out.old < 40 }
    ensures items { out.new.items ≡ out.old.items ++ cond negative (45 ∷ []) [] }
    ensures len { array_vec_len out.new ≤ array_vec_len out.old + 1 }
{
    if negative {
        out.push(b'-');
    }
}

impl Num {
    /// The canonical text of the number, as `write` has it, on the stack. Takes no memory.
    #[tactic(auto, using(crate::proofs::Prints::text_zero, crate::proofs::Prints::text_some, crate::proofs::Prints::text_whole))]
    pub fn text(self) -> ArrayVec<u8, 40>
        ensures { result.items ≡ number_text (units self) }
    {
        let mut out = ArrayVec::new();
        if self.digits == 0 {
            out.push(b'0');
            return out;
        }
        push_sign(&mut out, self.negative);
        let (whole, fraction) = self.parts();
        push_whole(&mut out, whole);
        if fraction > 0 {
            out.push(b'.');
            push_fraction(&mut out, self.places, fraction);
        }
        out
    }

    /// Appends the canonical text of the number: no zero in front, none at the end of a fraction, no point without a digit
    /// after it, no `+`, and no sign at 0.
    ///
    /// # Errors
    ///
    /// `AllocError` if it runs out of memory; `out` is then as it was.
    #[tactic(auto, using(crate::proofs::Prints::text_of_digits))]
    pub fn write(self, out: &mut Vec<u8>) -> Result<(), AllocError>
        ensures ok { OnOk result (out.new.items ≡ out.old.items ++ number_text (units self)) }
        ensures err { OnErr result (out.new.items ≡ out.old.items) }
    {
        if self.places == 0 && self.digits > 0 && !self.negative {
            let mut buffer = Buffer::new();
            return out.extend_from_slice(buffer.format(self.digits).as_bytes());
        }
        out.extend_from_slice(self.text().as_slice())
    }

    /// Whether a text is the canonical text of the number. Takes no memory.
    #[tactic(auto, using(crate::proofs::Starts::other_text))]
    pub fn is_text(self, text: &[u8]) -> bool
        ensures { result ≡ pointwise nat_eq (number_text (units self)) text.now }
    {
        // most texts that are no number are recognized by their first byte
        if !starts_canonical(text) {
            return false;
        }
        self.text().as_slice() == text
    }
}

// Whether a canonical text can begin as this one does.
fn starts_canonical(text: &[u8]) -> bool
    ensures { result ≡ starts_number text.now }
{
    match text {
        [first, ..] => first.is_ascii_digit() || *first == b'-' || *first == b'.',
        [] => false,
    }
}

/// Whether the text is the canonical text of a number of at most `kept` significant digits, which are 1 to 18. Takes no
/// memory.
pub fn is_canonical_by(text: &[u8], kept: u32) -> bool
    requires some_kept { 0 < kept }
    requires kept_at_most { kept ≤ 18 }
    ensures { IsTrue result ↔ IsCanonical kept text.now }
{
    // most subscripts that are no numbers are recognized by their first byte
    if !starts_canonical(text) {
        return false;
    }
    match value_of(text, kept) {
        Ok(number) => number.text().as_slice() == text,
        Err(_) => false,
    }
}

// Whether the text is one to eighteen digits and nothing else: the short way for small whole numbers.
fn is_short_digits(text: &[u8]) -> bool
    ensures some { IsTrue result → 0 < length text.now }
    ensures short { IsTrue result → length text.now ≤ 18 }
    ensures digits { IsTrue result → All (λ c. is_digit c ≡ true) text.now }
{
    !text.is_empty() && text.len() <= 18 && text.iter().all(|c| c.is_ascii_digit())
}

/// Whether the text is the canonical text of a number of the language. Takes no memory.
pub fn is_canonical(text: &[u8]) -> bool
    ensures { IsTrue result ↔ IsCanonical significant_digits text.now }
{
    if is_short_digits(text) {
        text[0] != b'0' || text.len() == 1
    } else {
        is_canonical_by(text, 18)
    }
}

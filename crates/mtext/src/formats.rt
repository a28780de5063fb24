// SPDX-License-Identifier: Apache-2.0
// Formats of numbers: their letters, and what they put before the digits and after them.
ghost use Rattle.std.specs.Prelude.{◌≡◌, ◌<◌, ◌≤◌, All, cond, length};
ghost use Rattle.std.specs.List.{list_all};
ghost use Rattle.mspec.specs.NumberFormats.{has_letter, is_format_letter, is_conflict, has_commas, sign_of, bracket_of, or_space, before_digits, behind_digits};
ghost use Rattle.mnum.specs.Num.{units};

use mnum::Num;

/// Whether a format has one of two letters.
fn has(format: &[u8], one: u8, other: u8) -> bool
    ensures { result ≡ has_letter one other format.now }
{
    for c in format {
        if *c == one || *c == other {
            return true;
        }
    }
    false
}

fn is_letter(c: u8) -> bool
    ensures { result ≡ is_format_letter c }
{
    c == b',' || c == b'+' || c == b'-' || c == b'T' || c == b't' || c == b'P' || c == b'p'
}

/// Whether all characters of a format are letters of formats.
pub(crate) fn is_format(format: &[u8]) -> bool
    ensures { result ≡ list_all is_format_letter format.now }
{
    for c in format {
        if !is_letter(*c) {
            return false;
        }
    }
    true
}

/// Whether a format has brackets, and something of a sign.
pub(crate) fn is_conflict(format: &[u8]) -> bool
    ensures { result ≡ is_conflict format.now }
{
    has(format, b'P', b'p')
        && (has(format, b'+', b'+') || has(format, b'-', b'-') || has(format, b'T', b't'))
}

/// Whether a format has commas.
pub(crate) fn has_commas(format: &[u8]) -> bool
    ensures { result ≡ has_commas format.now }
{
    has(format, b',', b',')
}

#[tactic(auto, using(crate::proofs::FormatMarks::sign_below, crate::proofs::FormatMarks::sign_above))]
fn sign(format: &[u8], number: Num) -> &'static [u8]
    ensures text { result.now ≡ sign_of format.now (units number) }
    ensures few { length result.now ≤ 1 }
    ensures ascii { All (λ c. c < 128) result.now }
{
    if number.is_below_zero() {
        if has(format, b'-', b'-') { b"" } else { b"-" }
    } else if number.is_true() {
        if has(format, b'+', b'+') { b"+" } else { b"" }
    } else {
        b""
    }
}

#[tactic(auto, using(crate::proofs::FormatMarks::bracket_below, crate::proofs::FormatMarks::bracket_else))]
fn bracket(number: Num, front: bool) -> &'static [u8]
    ensures text { result.now ≡ bracket_of (cond front 40 41) (units number) }
    ensures few { length result.now ≤ 1 }
    ensures ascii { All (λ c. c < 128) result.now }
{
    if !number.is_below_zero() {
        b" "
    } else if front {
        b"("
    } else {
        b")"
    }
}

/// What stands before the digits of a number.
pub(crate) fn before_digits(format: &[u8], number: Num) -> &'static [u8]
    ensures text { result.now ≡ before_digits format.now (units number) }
    ensures few { length result.now ≤ 1 }
    ensures ascii { All (λ c. c < 128) result.now }
{
    if has(format, b'P', b'p') {
        bracket(number, true)
    } else if has(format, b'T', b't') {
        b""
    } else {
        sign(format, number)
    }
}

/// What stands after them.
pub(crate) fn behind_digits(format: &[u8], number: Num) -> &'static [u8]
    ensures text { result.now ≡ behind_digits format.now (units number) }
    ensures few { length result.now ≤ 1 }
    ensures ascii { All (λ c. c < 128) result.now }
{
    if has(format, b'P', b'p') {
        bracket(number, false)
    } else if has(format, b'T', b't') {
        or_space(sign(format, number))
    } else {
        b""
    }
}

fn or_space(sign: &'static [u8]) -> &'static [u8]
    requires few { length sign.now ≤ 1 }
    requires ascii { All (λ c. c < 128) sign.now }
    ensures text { result.now ≡ or_space sign.now }
    ensures few { length result.now ≤ 1 }
    ensures ascii { All (λ c. c < 128) result.now }
{
    match sign {
        [] => b" ",
        [_, ..] => sign,
    }
}

// SPDX-License-Identifier: Apache-2.0
// Where the last subscript of a key begins.
ghost use Rattle.std.specs.Prelude.{◌≡◌, ◌==◌, ℕ, ◌<◌, ◌≤◌, List, [], ◌∷◌, ◌++◌, ◌+◌, length, position, IfSome, MatchOption};
ghost use Rattle.mkey.specs.Parent.{IsLastAt};
ghost use Rattle.mspec.specs.Act.{Node};
ghost use Rattle.mspec.specs.KeyBytes.{text_bytes, subscript_bytes, subscripts_bytes, key_bytes};
ghost use Rattle.mspec.specs.Number.{significant_digits};

use crate::decoding::behind;

// How many bytes a number has after its tag.
const NUMBER_BYTES: usize = 16;

// Where the first 0 is.
fn first_zero(bytes: &[u8]) -> Option<usize>
    ensures value { result ≡ position (λ b. b == 0) bytes.now }
    ensures inside { IfSome result (λ end. end < length bytes.now) }
{
    bytes.iter().position(|byte| *byte == 0)
}

// How many bytes there are in the text that the bytes begin with, including the 0 after it.
fn text_len(bytes: &[u8]) -> usize
    ensures text { (s rest : List ℕ) → bytes.now ≡ text_bytes s ++ rest → result ≡ length (text_bytes s) }
    ensures fits { result ≤ length bytes.now }
{
    match first_zero(bytes) {
        Some(end) => end + 1,
        None => bytes.len(),
    }
}

// How many bytes there are in the subscript that the bytes begin with once the tag of a number is put in front of them.
fn number_len(bytes: &[u8]) -> usize
    ensures subscript { (s rest : List ℕ) → 1 ∷ bytes.now ≡ subscript_bytes significant_digits s ++ rest → result ≡ length
        (subscript_bytes significant_digits s) }
    ensures fits { result ≤ 1 + length bytes.now }
    ensures some { 0 < result }
{
    1 + bytes.len().min(NUMBER_BYTES)
}

// How many bytes there are in the subscript that the bytes begin with.
fn subscript_len(bytes: &[u8]) -> usize
    ensures subscript { (s rest : List ℕ) → bytes.now ≡ subscript_bytes significant_digits s ++ rest → result ≡ length (subscript_bytes significant_digits s) }
    ensures fits { result ≤ length bytes.now }
    ensures some { 0 < length bytes.now → 0 < result }
{
    match bytes {
        [] => 0,
        [1, number @ ..] => number_len(number),
        [_, text @ ..] => 1 + text_len(text),
    }
}

// The bytes of a key after those of its account and its name.
fn behind_names(bytes: &[u8]) -> &[u8]
    ensures subscripts { (n : Node) → key_bytes significant_digits n ≡ bytes.now → result.now ≡ subscripts_bytes significant_digits n.subscripts }
    ensures fits { length result.now ≤ length bytes.now }
{
    let local = behind(bytes, text_len(bytes));
    behind(local, text_len(local))
}

// Where the last subscript of a key begins, or None if the key has none.
pub fn last_subscript(bytes: &[u8]) -> Option<usize>
    ensures { (n : Node) → key_bytes significant_digits n ≡ bytes.now → MatchOption result (n.subscripts ≡ []) (IsLastAt n bytes.now) }
{
    let mut last = None;
    let mut rest = behind_names(bytes);
    while !rest.is_empty() {
        last = Some(bytes.len() - rest.len());
        rest = behind(rest, subscript_len(rest));
    }
    last
}

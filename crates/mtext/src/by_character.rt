// SPDX-License-Identifier: Apache-2.0
// Delimiters of one character: the short way for `cutting`. Their number in a whole block of a text is counted at once.
ghost use Rattle.std.specs.Prelude.{◌≡◌, ◌+◌, ◌<◌, ◌≤◌, [], ◌∷◌, count_by, length, take, IfOk, IfErr};
ghost use Rattle.memchr.specs.Find.{is_byte};
ghost use Rattle.mspec.specs.Pieces.{pieces_of};
ghost use Rattle.mtext.specs.Cuts.{IsBehind};

// How many characters are counted at once: few enough that their number fits a byte, so that many are compared together.
const COUNTED: usize = 224;

// How many a block that is passed over has.
const BLOCK: usize = 64;

/// How many characters of a block are this one.
#[inline]
fn occurrences(character: u8, block: &[u8]) -> usize
    requires { length block.now ≤ 255 }
    ensures { result ≡ count_by (is_byte character) block.now }
{
    let mut found: u8 = 0;
    for other in block {
        found += u8::from(*other == character);
    }
    found as usize
}

/// How many delimiters separate the pieces of a text.
#[tactic(auto, using(crate::proofs::CharacterPieces::counted_to))]
pub(crate) fn delimiters(character: u8, text: &[u8]) -> usize
    ensures count { length (pieces_of (character ∷ []) text.now) ≡ result + 1 }
    ensures few { result ≤ length text.now }
{
    let mut at = 0;
    let mut passed = 0;
    while at < text.len() {
        let end = text.len().min(at + COUNTED);
        passed += occurrences(character, &text[at..end]);
        at = end;
    }
    passed
}

/// The place after whole blocks that have fewer delimiters than are sought, and how many are left to be sought.
#[tactic(auto, using(crate::proofs::CharacterPieces::counted_to))]
fn pass_blocks(character: u8, text: &[u8], count: usize) -> (usize, usize)
    requires { 0 < count }
    ensures within { result.0 ≤ length text.now }
    ensures left { count_by (is_byte character) (take result.0 text.now) + result.1 ≡ count }
    ensures some { 0 < result.1 }
{
    let mut at = 0;
    let mut left = count;
    while text.len() - at >= BLOCK {
        let found = occurrences(character, &text[at..at + BLOCK]);
        if found >= left {
            return (at, left);
        }
        at += BLOCK;
        left -= found;
    }
    (at, left)
}

/// The place after the first `count` pieces of a text and their delimiters.
///
/// # Errors
///
/// How many delimiters the text lacks.
pub(crate) fn skip(character: u8, text: &[u8], count: usize) -> Result<usize, usize>
    ensures behind { IfOk result (λ at. IsBehind (character ∷ []) text.now count at) }
    ensures missing { IfErr result (λ n. length (pieces_of (character ∷ []) text.now) + n ≡ count + 1) }
    ensures some { IfErr result (λ n. 0 < n) }
{
    if count == 0 {
        return Ok(0);
    }
    let (start, mut left) = pass_blocks(character, text, count);
    for at in start..text.len() {
        if text[at] == character {
            if left == 1 {
                return Ok(at + 1);
            }
            left -= 1;
        }
    }
    Err(left)
}

// SPDX-License-Identifier: Apache-2.0
// Signs and operators.
ghost use Rattle.std.specs.Prelude.{◌≡◌, map, option_map};
ghost use Rattle.mgrammar.specs.ReadingWords.{signs_at, found, truths, follows_at, truth_at, arithmetic, negated_at, times_at, plain_at, operator_at};
ghost use Rattle.mtree.specs.Tree.{sign_tree, truth_tree, binary_tree};
ghost use Rattle.mscan.specs.Gives.{Gives};
ghost use Rattle.mscan.specs.Operators.{operator_tree};

use crate::fault::ParseFault;
use mtree::{Binary, Sign, Truth};
use std::alloc::Global;

/// The signs that a text begins with, and what follows them. `Memory` if it runs out of memory; it never answers `Syntax`.
pub fn signs(alloc: Global, bytes: &[u8]) -> Result<(Vec<Sign>, &[u8]), ParseFault>
    ensures { Gives (λ x. (map sign_tree x.0.items, x.1.now)) result (signs_at bytes.now) }
{
    let mut signs = Vec::new(alloc);
    for (i, byte) in bytes.iter().enumerate() {
        let sign = match *byte {
            b'+' => Sign::Plus,
            b'-' => Sign::Minus,
            b'\'' => Sign::Not,
            _ => return Ok((signs, &bytes[i..])),
        };
        signs.push(sign)?;
    }
    Ok((signs, &[]))
}

/// What comes between an operand and what it is combined with.
#[derive(Clone, Copy)]
pub enum Operator {
    Between(Binary),
    Match,
    MatchNot,
    Raise,
}

// The operator that a `]` before this text begins: the longest.
fn follows(bytes: &[u8]) -> (Truth, &[u8])
    ensures { (truth_tree result.0, result.1.now) ≡ follows_at bytes.now }
{
    match bytes.split_first() {
        Some((b']', rest)) => (Truth::SortsAfter, rest),
        _ => (Truth::Follows, bytes),
    }
}

// The operators of one character, except `]`.
fn one_truth(byte: u8) -> Option<Truth>
    ensures { option_map truth_tree result ≡ found truths byte }
{
    match byte {
        b'=' => Some(Truth::Equals),
        b'<' => Some(Truth::Less),
        b'>' => Some(Truth::Greater),
        b'[' => Some(Truth::Contains),
        b'&' => Some(Truth::Both),
        b'!' => Some(Truth::Either),
        _ => None,
    }
}

#[tactic(auto, unfolding(mgrammar::specs::ReadingWords::truth_at))]
fn truth(bytes: &[u8]) -> Option<(Truth, &[u8])>
    ensures { option_map (λ x. (truth_tree x.0, x.1.now)) result ≡ truth_at bytes.now }
{
    let (first, rest) = bytes.split_first()?;
    if *first == b']' {
        return Some(follows(rest));
    }
    let truth = one_truth(*first)?;
    Some((truth, rest))
}

// The operators of arithmetic of one character, except `*`.
fn arithmetic(byte: u8) -> Option<Binary>
    ensures { option_map binary_tree result ≡ found arithmetic byte }
{
    match byte {
        b'+' => Some(Binary::Add),
        b'-' => Some(Binary::Subtract),
        b'/' => Some(Binary::Divide),
        b'\\' => Some(Binary::DivideWhole),
        b'#' => Some(Binary::Remainder),
        b'_' => Some(Binary::Join),
        _ => None,
    }
}

// The operator that goes on after a `'`.
fn negated(bytes: &[u8]) -> Option<(Operator, &[u8])>
    ensures { option_map (λ x. (operator_tree x.0, x.1.now)) result ≡ negated_at bytes.now }
{
    let (first, rest) = bytes.split_first()?;
    if *first == b'?' {
        return Some((Operator::MatchNot, rest));
    }
    let (truth, rest) = truth(bytes)?;
    Some((Operator::Between(Binary::IsNot(truth)), rest))
}

// The operator that a `*` before this text begins: the longest.
fn times(bytes: &[u8]) -> (Operator, &[u8])
    ensures { (operator_tree result.0, result.1.now) ≡ times_at bytes.now }
{
    match bytes.split_first() {
        Some((b'*', rest)) => (Operator::Raise, rest),
        _ => (Operator::Between(Binary::Multiply), bytes),
    }
}

// The operator that begins with none of `'`, `?` and `*`.
fn plain(bytes: &[u8]) -> Option<(Operator, &[u8])>
    ensures { option_map (λ x. (operator_tree x.0, x.1.now)) result ≡ plain_at bytes.now }
{
    let (first, rest) = bytes.split_first()?;
    if let Some(binary) = arithmetic(*first) {
        return Some((Operator::Between(binary), rest));
    }
    let (truth, rest) = truth(bytes)?;
    Some((Operator::Between(Binary::Is(truth)), rest))
}

/// The operator that the text begins with, if there is one, and what follows it.
#[tactic(auto, unfolding(mgrammar::specs::ReadingWords::operator_at))]
pub fn next_operator(bytes: &[u8]) -> Option<(Operator, &[u8])>
    ensures { option_map (λ x. (operator_tree x.0, x.1.now)) result ≡ operator_at bytes.now }
{
    let (first, rest) = bytes.split_first()?;
    match *first {
        b'\'' => negated(rest),
        b'?' => Some((Operator::Match, rest)),
        b'*' => Some(times(rest)),
        _ => plain(bytes),
    }
}

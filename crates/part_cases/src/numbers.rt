// SPDX-License-Identifier: Apache-2.0
// Calls on numbers.
use mnum::{ArithFault, Num, is_canonical, is_canonical_by};
use mtranscript::{play_each, words_of};
use std::alloc::Global;
use std::cmp::Ordering;

/// For each case, a call with its arguments, prints what it gives.
///
/// # Errors
///
/// If a case is not such a call, or if memory runs out.
pub fn play_numbers(alloc: Global, cases: &[&str], out: &mut Vec<u8>) -> anyhow::Result<()> {
    play_each(cases, out, |case| given(alloc, &words_of(alloc, case)?))
}

fn given(alloc: Global, words: &[&str]) -> anyhow::Result<Vec<u8>> {
    match words {
        ["number", text] => shown(alloc, number(text)),
        ["canonical", text] => Ok(canonical(text).to_vec(alloc)?),
        ["units", text] => units(alloc, text),
        ["from_units", count] => from_units(alloc, count),
        ["whole", text] => whole(alloc, text),
        [operator, left, right] => shown(alloc, outcome(operator, left, right)),
        _ => anyhow::bail!("no call on numbers"),
    }
}

// The canonical text of a result, or the word for its refusal.
fn shown(alloc: Global, outcome: Result<Num, ArithFault>) -> anyhow::Result<Vec<u8>> {
    let mut out = Vec::new(alloc);
    match outcome {
        Ok(number) => number.write(&mut out)?,
        Err(ArithFault::Over) => out.extend_from_slice(b"over")?,
        Err(ArithFault::Zero) => out.extend_from_slice(b"zero")?,
    }
    Ok(out)
}

fn number(text: &str) -> Result<Num, ArithFault> {
    Num::from_text(text.as_bytes()).map_err(|_| ArithFault::Over)
}

fn outcome(operator: &str, left: &str, right: &str) -> Result<Num, ArithFault> {
    let left = number(left)?;
    let right = number(right)?;
    match operator {
        "add" => left.add(right).map_err(|_| ArithFault::Over),
        "sub" => left.sub(right).map_err(|_| ArithFault::Over),
        "mul" => left.mul(right).map_err(|_| ArithFault::Over),
        "div" => left.div(right),
        "quot" => left.quot(right),
        "rem" => left.rem(right),
        _ => ordered(left, right),
    }
}

fn ordered(left: Num, right: Num) -> Result<Num, ArithFault> {
    match left.cmp(right) {
        Ordering::Less => number("-1"),
        Ordering::Equal => number("0"),
        Ordering::Greater => number("1"),
    }
}

// By which counts of digits a text is canonical.
fn canonical(text: &str) -> &'static [u8] {
    let by_eighteen = is_canonical(text.as_bytes());
    let by_fifteen = is_canonical_by(text.as_bytes(), 15);
    match (by_eighteen, by_fifteen) {
        (true, true) => b"by eighteen and by fifteen",
        (true, false) => b"by eighteen",
        (false, true) => b"by fifteen",
        (false, false) => b"no",
    }
}

// The units of a number, those of its negation, and how it compares with that.
fn units(alloc: Global, text: &str) -> anyhow::Result<Vec<u8>> {
    let Ok(number) = number(text) else {
        return Ok(b"over".to_vec(alloc)?);
    };
    let negated = number.neg();
    let sign = match number.cmp(negated) {
        Ordering::Less => "below",
        Ordering::Equal => "equal",
        Ordering::Greater => "above",
    };
    let (own, other) = (number.to_units(), negated.to_units());
    let told = format!(in alloc; "{own} {other} {sign}")?;
    Ok(told.as_bytes().to_vec(alloc)?)
}

fn from_units(alloc: Global, count: &str) -> anyhow::Result<Vec<u8>> {
    match Num::from_units(count.parse::<i128>()?) {
        None => Ok(b"no number".to_vec(alloc)?),
        Some(number) => shown(alloc, Ok(number)),
    }
}

// The number without its fraction, the text of that as a number again, and whether the number is true.
fn whole(alloc: Global, text: &str) -> anyhow::Result<Vec<u8>> {
    let Ok(number) = number(text) else {
        return Ok(b"over".to_vec(alloc)?);
    };
    let whole = number.to_whole();
    let mut told = shown(alloc, Ok(Num::from_whole(whole)))?;
    told.extend_from_slice(if number.is_true() {
        b" true"
    } else {
        b" false"
    })?;
    Ok(told)
}

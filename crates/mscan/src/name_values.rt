// SPDX-License-Identifier: Apache-2.0
// Names of nodes as texts, taken apart.
ghost use Rattle.std.specs.Prelude.{◌≡◌, [], ◌∷◌, All, ◌<◌, get_or};
ghost use Rattle.mgrammar.specs.NameValues.{canonical_by, name_subscript_at, name_subscripts_at, environment_at, value_after, name_value_of};
ghost use Rattle.mgrammar.specs.ReadingWords.{list_at};
ghost use Rattle.mscan.specs.Gives.{Gives};
ghost use Rattle.mscan.specs.NameParts.{name_view};

use crate::fault::ParseFault;
use crate::runs::{Class, expect, name_bytes, past, run, text_after};
use mnum::{Bytes7, is_canonical};
use std::alloc::Global;

/// The parts of a node's name.
#[derive(Drop)]
pub struct NameValue {
    /// The account that the name has between bars, or the empty text.
    pub environment: Bytes7,
    /// The name, with a `^` if it is a global's.
    pub name: Bytes7,
    pub subscripts: Vec<Bytes7>,
}

impl NameValue {
    /// The environment at 0, the name at 1, and then the subscripts; the empty text if there are fewer.
    pub fn part(&self, place: usize) -> &[u8]
        ensures part { result.now ≡ get_or (self.now.environment ∷ self.now.name ∷ self.now.subscripts.items) place [] }
        ensures seven_bits { All (λ c. c < 128) result.now }
    {
        let part = match place {
            0 => Some(&self.environment),
            1 => Some(&self.name),
            _ => self.subscripts.get(place - 2),
        };
        match part {
            None => &[],
            Some(text) => text.as_bytes(),
        }
    }
}

// A canonical text of a number, and what follows it.
fn canonical<'a>(
    alloc: Global,
    number: &[u8],
    rest: &'a [u8],
) -> Result<(Bytes7, &'a [u8]), ParseFault>
    requires { All (λ c. c < 128) number.now }
    ensures { Gives (λ x. (x.0, x.1.now)) result (canonical_by number.now rest.now) }
{
    if !is_canonical(number) {
        return Err(ParseFault::Syntax);
    }
    Ok((Bytes7::from_slice(alloc, number)?, rest))
}

// A subscript, and what follows it.
#[tactic(auto, unfolding(mgrammar::specs::NameValues::name_subscript_at))]
fn subscript(alloc: Global, bytes: &[u8]) -> Result<(Bytes7, &[u8]), ParseFault>
    ensures { Gives (λ x. (x.0, x.1.now)) result (name_subscript_at bytes.now) }
{
    if let Some(quoted) = past(b'"', bytes) {
        return text_after(alloc, quoted);
    }
    let (number, rest) = run(Class::NumberPart, bytes);
    canonical(alloc, number, rest)
}

// Subscripts with commas between.
fn listed(alloc: Global, bytes: &[u8]) -> Result<(Vec<Bytes7>, &[u8]), ParseFault>
    ensures { Gives (λ x. (x.0.items, x.1.now)) result (list_at name_subscript_at bytes.now) }
{
    let (first, start) = subscript(alloc, bytes)?;
    let mut all = Vec::new(alloc);
    all.push(first)?;
    let mut rest = start;
    for _ in 0..start.len() {
        let Some(behind) = past(b',', rest) else {
            break;
        };
        let (item, after) = subscript(alloc, behind)?;
        all.push(item)?;
        rest = after;
    }
    Ok((all, rest))
}

// The subscripts in brackets that the text begins with, of which there may be none, and what follows them.
#[tactic(auto, unfolding(mgrammar::specs::NameValues::name_subscripts_at))]
fn subscripts(alloc: Global, bytes: &[u8]) -> Result<(Vec<Bytes7>, &[u8]), ParseFault>
    ensures { Gives (λ x. (x.0.items, x.1.now)) result (name_subscripts_at bytes.now) }
{
    let Some(inside) = past(b'(', bytes) else {
        return Ok((Vec::new(alloc), bytes));
    };
    let (all, rest) = listed(alloc, inside)?;
    let rest = expect(b')', rest)?;
    Ok((all, rest))
}

// The environment between bars that the text begins with, or the empty text, and what follows it.
#[tactic(auto, unfolding(mgrammar::specs::NameValues::environment_at))]
fn environment(alloc: Global, bytes: &[u8]) -> Result<(Bytes7, &[u8]), ParseFault>
    ensures { Gives (λ x. (x.0, x.1.now)) result (environment_at bytes.now) }
{
    let Some(inside) = past(b'|', bytes) else {
        return Ok((Bytes7::empty(alloc), bytes));
    };
    let quoted = expect(b'"', inside)?;
    let (environment, rest) = text_after(alloc, quoted)?;
    let rest = expect(b'|', rest)?;
    Ok((environment, rest))
}

// The parts of a name, given its environment and what comes before the name itself.
#[tactic(auto, unfolding(mgrammar::specs::NameValues::value_after))]
fn parts(
    alloc: Global,
    environment: Bytes7,
    front: Bytes7,
    bytes: &[u8],
) -> Result<NameValue, ParseFault>
    ensures { Gives name_view result (value_after environment front bytes.now) }
{
    let Some((name, rest)) = name_bytes(bytes) else {
        return Err(ParseFault::Syntax);
    };
    let mut whole = front;
    whole.append(name)?;
    let (subscripts, rest) = subscripts(alloc, rest)?;
    if !rest.is_empty() {
        return Err(ParseFault::Syntax);
    }
    Ok(NameValue {
        environment,
        name: whole,
        subscripts,
    })
}

/// The parts of the name that a text is. `Syntax` if it is none, `Memory` if it runs out of memory.
#[tactic(auto, unfolding(mgrammar::specs::NameValues::name_value_of))]
pub fn name_value(alloc: Global, bytes: &[u8]) -> Result<NameValue, ParseFault>
    ensures { Gives name_view result (name_value_of bytes.now) }
{
    let Some(global) = past(b'^', bytes) else {
        return parts(alloc, Bytes7::empty(alloc), Bytes7::empty(alloc), bytes);
    };
    let (environment, rest) = environment(alloc, global)?;
    let front = Bytes7::from_slice(alloc, b"^")?;
    parts(alloc, environment, front, rest)
}

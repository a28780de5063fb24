// SPDX-License-Identifier: Apache-2.0
// Calls on the scopes of local variables.
use anyhow::Context;
use mkey::{order_values_ok, values_ok};
use mlocal::{Binding, Direction, Locals};
use mnum::{Bytes7, Name, Num};
use mtranscript::{data_word, name_of, names_of, play, print_result, text_of, words_of};
use mvalue::Value;
use std::alloc::Global;

/// Plays calls one after another over the same locals; what get, data, next and back give is printed below them.
///
/// # Errors
///
/// If a case is not such a call, or if memory runs out.
pub fn play_locals(alloc: Global, cases: &[&str], out: &mut Vec<u8>) -> anyhow::Result<()> {
    let mut locals = Locals::new(alloc);
    play(cases, out, |case, out| {
        let words = words_of(alloc, case)?;
        match call(&mut locals, alloc, &words)? {
            None => Ok(()),
            Some(given) => print_result(out, given.as_bytes()),
        }
    })
}

// Carries out a call, and gives what it answers.
fn call(locals: &mut Locals, alloc: Global, words: &[&str]) -> anyhow::Result<Option<Bytes7>> {
    match words {
        ["enter"] => locals.enter()?,
        ["enter-bound", words @ ..] => locals.enter_bound(bindings_of(alloc, words)?)?,
        ["leave"] => locals.leave(),
        ["new", names @ ..] => locals.new_vars(names_of(alloc, names)?.as_slice())?,
        ["new-all-but", names @ ..] => locals.new_except(names_of(alloc, names)?)?,
        ["kill-all-but", names @ ..] => locals.kill_except(names_of(alloc, names)?.as_slice()),
        ["kill", name, subs @ ..] => kill(locals, alloc, name, subs)?,
        ["set", name, subs @ .., "=", text] => {
            let value = Value::of_text(text_of(alloc, text)?);
            set(locals, alloc, name, subs, value)?;
        }
        ["set-number", name, subs @ .., "=", text] => {
            let value = Value::of_number(number_of(alloc, text)?);
            set(locals, alloc, name, subs, value)?;
        }
        [what, name, subs @ ..] => {
            return Ok(Some(asked(locals, alloc, what, name, subs)?));
        }
        _ => anyhow::bail!("no call on locals"),
    }
    Ok(None)
}

// The formal parameters that words are.
fn bindings_of(alloc: Global, words: &[&str]) -> anyhow::Result<Vec<(Name, Binding)>> {
    let mut bindings = Vec::new(alloc);
    for word in words {
        bindings.push(bound(alloc, word)?)?;
    }
    Ok(bindings)
}

// The formal parameter that a word is: `B=text` has a value, `B.A` is another name of the caller's A, and `B` has no value.
fn bound(alloc: Global, word: &str) -> anyhow::Result<(Name, Binding)> {
    if let Some((name, text)) = word.split_once('=') {
        let value = Value::of_text(text_of(alloc, text)?);
        return Ok((name_of(alloc, name)?, Binding::Valued(value)));
    }
    if let Some((name, other)) = word.split_once('.') {
        let other = name_of(alloc, other)?;
        return Ok((name_of(alloc, name)?, Binding::Linked(other)));
    }
    Ok((name_of(alloc, word)?, Binding::Unset))
}

fn kill(locals: &mut Locals, alloc: Global, name: &str, subs: &[&str]) -> anyhow::Result<()> {
    let subs = subs_of(alloc, subs)?;
    if !values_ok(&subs) {
        anyhow::bail!("no subscripts");
    }
    locals.kill(&name_of(alloc, name)?, &subs)?;
    Ok(())
}

fn set(
    locals: &mut Locals,
    alloc: Global,
    name: &str,
    subs: &[&str],
    value: Value,
) -> anyhow::Result<()> {
    let subs = subs_of(alloc, subs)?;
    if !values_ok(&subs) {
        anyhow::bail!("no subscripts");
    }
    locals.set(&name_of(alloc, name)?, &subs, value)?;
    Ok(())
}

fn number_of(alloc: Global, text: &str) -> anyhow::Result<Num> {
    Num::from_text(text_of(alloc, text)?.as_bytes())
        .ok()
        .context("too large a number")
}

// The subscripts that words are, those after a `#` as numbers.
fn subs_of(alloc: Global, words: &[&str]) -> anyhow::Result<Vec<Value>> {
    let mut subs = Vec::new(alloc);
    for word in words {
        let sub = match word.strip_prefix('#') {
            Some(number) => Value::of_number(number_of(alloc, number)?),
            None => Value::of_text(text_of(alloc, word)?),
        };
        subs.push(sub)?;
    }
    Ok(subs)
}

// What is asked of a node, or `none` if it has none.
fn asked(
    locals: &Locals,
    alloc: Global,
    what: &str,
    name: &str,
    subs: &[&str],
) -> anyhow::Result<Bytes7> {
    let name = name_of(alloc, name)?;
    let subs = subs_of(alloc, subs)?;
    let found = match what {
        "get" => text(locals, alloc, &name, &subs)?,
        "data" => return text_of(alloc, data(locals, &name, &subs)?),
        "next" => next(locals, alloc, &name, &subs, Direction::Forward)?,
        "back" => next(locals, alloc, &name, &subs, Direction::Backward)?,
        _ => anyhow::bail!("no call on locals"),
    };
    match found {
        None => text_of(alloc, "none"),
        Some(text) => Ok(text),
    }
}

fn text(
    locals: &Locals,
    alloc: Global,
    name: &Name,
    subs: &[Value],
) -> anyhow::Result<Option<Bytes7>> {
    if !values_ok(subs) {
        anyhow::bail!("no subscripts");
    }
    match locals.get(name, subs)? {
        None => Ok(None),
        Some(value) => Ok(Some(value.copy()?.into_text(alloc)?)),
    }
}

// What $DATA gives.
fn data(locals: &Locals, name: &Name, subs: &[Value]) -> anyhow::Result<&'static str> {
    if !values_ok(subs) {
        anyhow::bail!("no subscripts");
    }
    let found = locals.data(name, subs)?;
    Ok(data_word(found.descendants, found.value))
}

fn next(
    locals: &Locals,
    alloc: Global,
    name: &Name,
    subs: &[Value],
    direction: Direction,
) -> anyhow::Result<Option<Bytes7>> {
    if !order_values_ok(subs) {
        anyhow::bail!("no subscripts");
    }
    match locals.order(name, subs, direction)? {
        None => Ok(None),
        Some(next) => Ok(Some(next.into_text(alloc)?)),
    }
}

// SPDX-License-Identifier: Apache-2.0
// Calls on the locks of the terminals.
use anyhow::Context;
use mlock::{LockName, Locks};
use mtranscript::{key_of, play, print_result, text_of, texts_of, words_of};
use std::alloc::Global;

/// Plays calls one after another over the same locks; what take, held and fill give is printed below them.
///
/// A name is written with colons: `^ALICE:J:1` is J(1) of ALICE with `^`, and `ALICE:J` is J without it.
///
/// # Errors
///
/// If a case is not such a call, or if memory runs out.
pub fn play_locks(alloc: Global, cases: &[&str], out: &mut Vec<u8>) -> anyhow::Result<()> {
    let mut locks = Locks::new(alloc);
    play(cases, out, |case, out| {
        let words = words_of(alloc, case)?;
        call(&mut locks, alloc, &words, out)
    })
}

// Carries out a call, and adds what it answers.
fn call(locks: &mut Locks, alloc: Global, words: &[&str], out: &mut Vec<u8>) -> anyhow::Result<()> {
    match words {
        ["take", terminal, names @ ..] => {
            let taken = locks.take(terminal.parse()?, &names_of(alloc, names)?)?;
            print_result(out, told(taken))?;
        }
        ["held", terminal, name] => {
            let count = locks.held(terminal.parse()?, &name_of(alloc, name)?);
            let told = format!(in alloc; "{count}")?;
            print_result(out, told.as_bytes())?;
        }
        ["fill", terminal, name, times] => {
            let filled = fill(
                locks,
                terminal.parse()?,
                &names_of(alloc, &[*name])?,
                times.parse()?,
            )?;
            let told = format!(in alloc; "{filled} times")?;
            print_result(out, told.as_bytes())?;
        }
        ["back", terminal, name] => locks.give_back(terminal.parse()?, &name_of(alloc, name)?),
        ["release", terminal] => locks.release_all(terminal.parse()?),
        _ => anyhow::bail!("no call on locks"),
    }
    Ok(())
}

fn told(taken: bool) -> &'static [u8] {
    if taken { b"taken" } else { b"refused" }
}

// How many of `times` takes answer true.
fn fill(locks: &mut Locks, terminal: u32, names: &[LockName], times: u32) -> anyhow::Result<u32> {
    let mut filled: u32 = 0;
    for _ in 0..times {
        if locks.take(terminal, names)? {
            filled = filled.saturating_add(1);
        }
    }
    Ok(filled)
}

fn names_of(alloc: Global, words: &[&str]) -> anyhow::Result<Vec<LockName>> {
    let mut out = Vec::new(alloc);
    for word in words {
        out.push(name_of(alloc, word)?)?;
    }
    Ok(out)
}

// The name of a lock.
fn name_of(alloc: Global, word: &str) -> anyhow::Result<LockName> {
    let (global, word) = match word.strip_prefix('^') {
        Some(rest) => (true, rest),
        None => (false, word),
    };
    let parts: Vec<&str> = word.split(':').collect(alloc)?;
    match parts.as_slice() {
        [account, name, subs @ ..] => {
            let account = text_of(alloc, account)?;
            let name = text_of(alloc, name)?;
            let subs = texts_of(alloc, subs)?;
            let key = key_of(alloc, &account, &name, subs.as_slice())?;
            Ok(LockName { key, global })
        }
        _ => anyhow::bail!("no name of a lock"),
    }
}

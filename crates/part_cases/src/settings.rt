// SPDX-License-Identifier: Apache-2.0
// Settings: what a document gives, and who may do what by it.
use anyhow::Context;
use mgrant::{AccountId, Mode, Settings, SettingsFault};
use mtranscript::{bytes_of, play, print_result, push_numbered, words_of};
use std::alloc::Global;

/// Plays the calls of a block; what they give is printed below them.
///
/// `line TEXT` adds a line to the block's document. `read` says what it gives: `taken`, or the fault. `with OLD => NEW && OLD => NEW`
/// says that for the document with other texts, and `of BYTES` for these bytes alone. `many 3 2` says it for a document of
/// three accounts and two grants. The other calls ask the settings of the document.
///
/// # Errors
///
/// If a case is not such a call, or if memory runs out.
pub fn play_settings(alloc: Global, cases: &[&str], out: &mut Vec<u8>) -> anyhow::Result<()> {
    let mut document = Vec::new(alloc);
    play(
        cases,
        out,
        |case, out| call(alloc, &mut document, case, out),
    )
}

// Carries out a call, and adds what it answers.
fn call(
    alloc: Global,
    document: &mut Vec<u8>,
    case: &str,
    out: &mut Vec<u8>,
) -> anyhow::Result<()> {
    if let Some(text) = case.strip_prefix("line ") {
        document.extend_from_slice(&bytes_of(alloc, text)?)?;
        document.push(b'\n')?;
        return Ok(());
    }
    let told = if let Some(bytes) = case.strip_prefix("of ") {
        verdict(alloc, &bytes_of(alloc, bytes)?)?
    } else if let Some(changes) = case.strip_prefix("with ") {
        verdict(alloc, &changed(alloc, document, changes)?)?
    } else {
        let words = words_of(alloc, case)?;
        answer(alloc, document, words.as_slice())?
    };
    print_result(out, &told)
}

// The word of what a document gives.
fn verdict(alloc: Global, document: &[u8]) -> anyhow::Result<Vec<u8>> {
    match Settings::read(alloc, document) {
        Ok(_) => Ok(b"taken".to_vec(alloc)?),
        Err(fault) => Ok(fault.to_string(alloc)?.into_bytes()),
    }
}

// The document with other texts.
fn changed(alloc: Global, document: &[u8], changes: &str) -> anyhow::Result<Vec<u8>> {
    let mut text = document.to_vec(alloc)?;
    for change in changes.split(" && ") {
        let (old, new) = change.split_once(" => ").context("no change")?;
        text = replaced(alloc, &text, &bytes_of(alloc, old)?, &bytes_of(alloc, new)?)?;
    }
    Ok(text)
}

// A text with a new part for each old one, of which there must be at least one.
fn replaced(alloc: Global, text: &[u8], old: &[u8], new: &[u8]) -> anyhow::Result<Vec<u8>> {
    let mut out = Vec::new(alloc);
    let mut left_out: usize = 0;
    let mut found = false;
    for place in 0..text.len() {
        if left_out > 0 {
            left_out -= 1;
        } else if text[place..].starts_with(old) {
            out.extend_from_slice(new)?;
            left_out = old.len().saturating_sub(1);
            found = true;
        } else {
            out.push(text[place])?;
        }
    }
    anyhow::ensure!(found, "nothing to change");
    Ok(out)
}

// What the settings of the document, or a document of this many entries, answer.
fn answer(alloc: Global, document: &[u8], words: &[&str]) -> anyhow::Result<Vec<u8>> {
    match words {
        ["read"] => verdict(alloc, document),
        ["many", accounts, grants] => {
            verdict(alloc, &many(alloc, accounts.parse()?, grants.parse()?)?)
        }
        ["faults"] => faults(alloc),
        _ => {
            let settings = Settings::read(alloc, document).ok().context("no settings")?;
            asked(alloc, &settings, words)
        }
    }
}

// What settings answer. An account is printed by its name, and asked for by it; `-` stands for the empty name.
fn asked(alloc: Global, settings: &Settings, words: &[&str]) -> anyhow::Result<Vec<u8>> {
    let told = match words {
        ["account_of", terminal] => return name(
            alloc,
            settings,
            settings.account_of(terminal.parse()?),
        ),
        ["account_named", word] => return name(
            alloc,
            settings,
            settings.account_named(word.as_bytes()),
        ),
        ["island_of", account] => return island(alloc, settings, id(settings, account)?),
        ["steps_of", account] => {
            let steps = settings.steps_of(id(settings, account)?);
            return Ok(steps.to_string(alloc)?.into_bytes());
        }
        ["language_of", account] => {
            let language = settings.language_of(id(settings, account)?);
            return Ok(language.to_string(alloc)?.into_bytes());
        }
        ["may", me, owner, global, mode] => {
            let owner = if *owner == "-" { "" } else { *owner };
            let mode = match *mode {
                "read" => Mode::Read,
                "write" => Mode::Write,
                _ => anyhow::bail!("no mode"),
            };
            settings.may(id(settings, me)?, owner.as_bytes(), global.as_bytes(), mode)
        }
        ["reaches", from, to] => settings.reaches(alloc, id(settings, from)?, id(settings, to)?)?,
        _ => anyhow::bail!("no call on settings"),
    };
    let told: &[u8] = if told { b"yes" } else { b"no" };
    Ok(told.to_vec(alloc)?)
}

fn id(settings: &Settings, account: &str) -> anyhow::Result<AccountId> {
    settings
        .account_named(account.as_bytes())
        .context("no such account")
}

// The name of an account, or `none`.
fn name(alloc: Global, settings: &Settings, id: Option<AccountId>) -> anyhow::Result<Vec<u8>> {
    match id {
        None => Ok(b"none".to_vec(alloc)?),
        Some(id) => Ok(settings.name_of(id).to_vec(alloc)?),
    }
}

// The names of the accounts of an island, in their order.
fn island(alloc: Global, settings: &Settings, id: AccountId) -> anyhow::Result<Vec<u8>> {
    let mut text = Vec::new(alloc);
    for member in settings.island_of(alloc, id)? {
        if !text.is_empty() {
            text.push(b' ')?;
        }
        text.extend_from_slice(settings.name_of(member))?;
    }
    Ok(text)
}

const ACCOUNT: &[u8] = b"[[account]]\nname = \"A#\"\nterminals = []\nsteps = 1\n";

const GRANT: &[u8] = b"[[grant]]\nfrom = \"A0\"\nto = \"A1\"\nglobal = \"G#\"\nmode = \"read\"\n";

// A document of this many accounts, and this many grants from the first account to the second.
fn many(alloc: Global, accounts: usize, grants: usize) -> anyhow::Result<Vec<u8>> {
    let mut text = Vec::new(alloc);
    for i in 0..accounts {
        push_numbered(alloc, &mut text, ACCOUNT, &[i])?;
    }
    for i in 0..grants {
        push_numbered(alloc, &mut text, GRANT, &[i])?;
    }
    Ok(text)
}

// The words of all faults.
fn faults(alloc: Global) -> anyhow::Result<Vec<u8>> {
    let mut text = Vec::new(alloc);
    for fault in [
        SettingsFault::Toml,
        SettingsFault::Shape,
        SettingsFault::Name,
        SettingsFault::Terminal,
        SettingsFault::Steps,
        SettingsFault::Grant,
        SettingsFault::Memory,
    ] {
        if !text.is_empty() {
            text.push(b' ')?;
        }
        text.extend_from_slice(fault.to_string(alloc)?.as_bytes())?;
    }
    Ok(text)
}

// SPDX-License-Identifier: Apache-2.0
// References, and the places that they name.
use crate::lines::Lines;
use anyhow::Context;
use meval::{Depth, Eval, Place, Session};
use mexec::Ended;
use mgrant::{AccountId, Mode, Settings};
use mkey::read;
use mnodes::Plain;
use mnum::Bytes7;
use moperator::Code;
use mparse::parse_ref;
use mtranscript::{bytes_of, play, print_result};
use mtree::Reference;
use mwire::push_reply;
use mworld::Reply;
use std::alloc::{AllocError, Global};

// How many steps a reference has.
const STEPS: u32 = 1000;

// What references are resolved over: a session of terminal 1, and a store.
#[derive(Drop)]
struct Resolving<'a> {
    settings: &'a Settings,
    account: AccountId,
    session: Session,
    store: Plain,
}

/// Resolves each reference as one that is to be changed, in the session of terminal 1 of the account, and prints the place below it: the name
/// and the subscripts of a local variable; the account, the name and the subscripts of a node; or the code that comes instead of a place.
///
/// # Errors
///
/// If the document gives no settings or has no such account, if a case is not a reference, or if memory runs out.
pub fn play_references(alloc: Global, block: &Lines, out: &mut Vec<u8>) -> anyhow::Result<()> {
    let settings = Settings::read(alloc, block.document)?;
    let account = settings.account_named(block.account);
    let mut there = Resolving {
        settings: &settings,
        account: account.context("no such account")?,
        session: Session::new(alloc),
        store: Plain::new(alloc),
    };
    play(block.cases, out, |case, out| {
        let told = resolved(alloc, &mut there, case)?;
        print_result(out, &told)
    })
}

// The place that a reference names.
fn resolved(alloc: Global, there: &mut Resolving<'_>, case: &str) -> anyhow::Result<Vec<u8>> {
    let reference = parse_ref(alloc, &bytes_of(alloc, case)?)
        .ok()
        .context("a case that is no reference")?;
    let mut eval = Eval {
        session: &mut there.session,
        store: &mut there.store,
        settings: there.settings,
        terminal: 1,
        account: there.account,
        steps: STEPS,
        depth: Depth {
            levels: 1,
            indirections: 0,
            wants_value: false,
        },
    };
    match place_of(alloc, &mut eval, &reference) {
        Ok(place) => shown(alloc, &place),
        Err(code) => Ok(name_of(alloc, code)?),
    }
}

// The name of a code, as a reply shows it after `1!`.
fn name_of(alloc: Global, code: Code) -> Result<Vec<u8>, AllocError> {
    let reply = Reply {
        out: Vec::new(alloc),
        ending: Ended::Fault(code),
    };
    let mut shown = Vec::new(alloc);
    push_reply(&mut shown, 1, &reply)?;
    let name = shown.iter().skip(2).filter(|byte| **byte != b'\n');
    let mut told = Vec::new(alloc);
    for byte in name {
        told.push(*byte)?;
    }
    Ok(told)
}

// The place of a reference that is to be changed.
fn place_of<'t>(
    alloc: Global,
    eval: &mut Eval<'_, Plain>,
    reference: &'t Reference,
) -> Result<Place<'t>, Code> {
    let pending = eval.evaluated(alloc, reference)?;
    eval.resolved(alloc, Mode::Write, pending)
}

fn shown(alloc: Global, place: &Place<'_>) -> anyhow::Result<Vec<u8>> {
    let mut told = Vec::new(alloc);
    match place {
        Place::Local(name, subscripts) => {
            told.extend_from_slice(name.as_name().as_bytes())?;
            for value in subscripts.as_slice() {
                push_word(&mut told, value.shown(alloc)?.as_text())?;
            }
        }
        Place::Node(key) => {
            let (account, name, subs) = read(alloc, key.as_bytes())?.context(
                "a key that is not read",
            )?;
            told.extend_from_slice(account.as_bytes())?;
            push_word(&mut told, &name)?;
            for text in subs.as_slice() {
                push_word(&mut told, text)?;
            }
        }
    }
    Ok(told)
}

// Adds a word, `-` for the empty text.
fn push_word(told: &mut Vec<u8>, text: &Bytes7) -> anyhow::Result<()> {
    told.push(b' ')?;
    told.extend_from_slice(if text.as_bytes().is_empty() {
        b"-"
    } else {
        text.as_bytes()
    })?;
    Ok(())
}

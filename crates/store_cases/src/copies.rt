// SPDX-License-Identifier: Apache-2.0
// Copies of routines that a store keeps.
use crate::stores::{ACCOUNT, call};
use anyhow::Context;
use mglobal::{RoutineCache, shared_routine};
use mkey::{is_account_name, is_name};
use mnodes::Plain;
use mnum::Bytes7;
use mtranscript::{play, print_result, text_of};
use std::alloc::Global;
use std::rc::Rc;

// The lines of a routine, as they are shared.
type Copy = Rc<Vec<Bytes7>>;

/// Plays calls on stores one after another over a store that keeps copies. For each copy that is asked for it prints how many
/// lines it has, and how many hold it: the store, and all that had it as their answer, which is held to the end.
///
/// # Errors
///
/// If a case is not such a call, if a store fails, or if memory runs out.
pub fn play_copies(alloc: Global, cases: &[&str], out: &mut Vec<u8>) -> anyhow::Result<()> {
    let mut store = RoutineCache::new(alloc, Plain::new(alloc));
    let mut answered = Vec::new(alloc);
    play(cases, out, |case, out| {
        match case.strip_prefix("copy ") {
            Some(name) => tell(alloc, &mut store, name, &mut answered, out)?,
            None => {
                call(&mut store, alloc, case)?;
            }
        }
        Ok(())
    })
}

fn tell(
    alloc: Global,
    store: &mut RoutineCache<Plain>,
    name: &str,
    answered: &mut Vec<Copy>,
    out: &mut Vec<u8>,
) -> anyhow::Result<()> {
    let (account, name) = (text_of(alloc, ACCOUNT)?, text_of(alloc, name)?);
    if !is_account_name(&account) || !is_name(&name) {
        anyhow::bail!("no routine");
    }
    let copy = shared_routine(store, alloc, &account, &name)
        .ok()
        .context("not read")?;
    let (lines, holders) = (copy.len(), Rc::strong_count(&copy));
    answered.push(copy)?;
    let told = format!(in alloc; "{lines} lines, {holders} hold it")?;
    print_result(out, told.as_bytes())
}

// SPDX-License-Identifier: Apache-2.0
// The parts of settings, from the entries of a document: each is good, or has the fault that the format gives it.
ghost use Rattle.std.specs.Prelude.{◌≡◌, ◌≤◌, ◌<◌, ℕ, List, [], IfOk, OnOk, All, map, false, length, vec_len, MatchBool, MatchOption, option_map};
ghost use Rattle.mgrant.specs.Document.{account_of, names_of, terminals_of, are_names, are_terminals, are_steps, are_grants, is_grant, is_within, mode_named};
ghost use Rattle.mgrant.specs.Placed.{mode_of};
ghost use Rattle.mgrant.specs.Reading.{entries_seen, grants_seen, grant_view, Judges, Claim, claims, claims_at, numbers, HasTerminals, IsPlacing, AreGranted};
ghost use Rattle.mgrant.specs.Reading.{IsNumberWithin};
ghost use Rattle.mgrant.specs.View.{names_in};
ghost use Rattle.mgrant.specs.Words.{IsIndex};
ghost use Rattle.mgrant.specs.declared.fault.SettingsFault.TheVariants as fault;

use crate::accounts::{Account, Accounts};
use crate::document::{AccountEntry, GrantEntry};
use crate::fault::SettingsFault;
use crate::grants::Grants;
use crate::mode::Mode;
use crate::names::{is_account_name, is_name};
use crate::words::{Places, place_in};
use mspec::limits::MAX_TERMINAL;
use std::alloc::{AllocError, Global};
use std::collections::HashMap;

// Terminals are below this number.
const TERMINALS: usize = 10_000;

// The places of the accounts' names.
pub(crate) fn names_of(alloc: Global, entries: &[AccountEntry]) -> Result<Places, SettingsFault>
    ensures { Judges (are_names (names_of (entries_seen entries.now))) fault.Name (IsIndex (names_of (entries_seen entries.now))) result }
{
    let mut places = HashMap::new(alloc);
    for (place, entry) in entries.iter().enumerate() {
        let name = entry.name.as_slice();
        if !is_account_name(name) {
            return Err(SettingsFault::Name);
        }
        if place_in(&places, name).is_some() {
            return Err(SettingsFault::Name);
        }
        let key = Vec::from_slice(alloc, name)?;
        places.insert(key, place)?;
    }
    Ok(places)
}

// A whole number, if it is at least 1 and no more than the bound.
pub(crate) fn number_within(n: i64, most: u32) -> Option<u32>
    ensures { MatchOption result (is_within 1 most n ≡ false) (IsNumberWithin most n) }
{
    if n < 1 || n > most as i64 {
        return None;
    }
    Some(n as u32)
}

// Gives terminals to the account at a place, unless one of them is not a terminal or has an account.
fn claim(terminals: &mut Vec<Option<usize>>, listed: &[i64], place: usize) -> bool
    requires { vec_len terminals.old ≡ 10000 }
    ensures claimed { (seen : List Claim) → HasTerminals seen terminals.old.items → MatchBool result (HasTerminals
        (claims_at place listed.now seen) terminals.new.items) (are_terminals (numbers (claims_at place listed.now seen)) ≡ false) }
    ensures len { vec_len terminals.new ≡ vec_len terminals.old }
{
    for terminal in listed {
        let Some(number) = number_within(*terminal, MAX_TERMINAL) else {
            return false;
        };
        if terminals[number as usize].is_some() {
            return false;
        }
        terminals[number as usize] = Some(place);
    }
    true
}

// `count` terminals, all without accounts.
#[tactic(auto, using(crate::proofs::Parts::no_terminals, crate::proofs::Parts::none_more))]
fn unclaimed(alloc: Global, count: usize) -> Result<Vec<Option<usize>>, AllocError>
    ensures none { IfOk result (λ terminals. HasTerminals [] terminals.items) }
    ensures len { IfOk result (λ terminals. vec_len terminals ≡ count) }
{
    let mut terminals = Vec::with_capacity(alloc, count)?;
    for _ in 0..count {
        terminals.push(None)?;
    }
    Ok(terminals)
}

// The places of the terminals' accounts.
pub(crate) fn terminals_of(
    alloc: Global,
    accounts: &[AccountEntry],
) -> Result<Vec<Option<usize>>, SettingsFault>
    ensures { Judges (are_terminals (terminals_of (entries_seen accounts.now))) fault.Terminal (λ terminals. HasTerminals (claims 0
        (entries_seen accounts.now)) terminals.items) result }
{
    let mut terminals = unclaimed(alloc, TERMINALS)?;
    for (place, entry) in accounts.iter().enumerate() {
        if !claim(&mut terminals, &entry.terminals, place) {
            return Err(SettingsFault::Terminal);
        }
    }
    Ok(terminals)
}

// The accounts of the entries.
#[tactic(auto, using(crate::proofs::Parts::all_fails))]
pub(crate) fn accounts_of(
    alloc: Global,
    entries: &[AccountEntry],
) -> Result<Vec<Account>, SettingsFault>
    ensures { Judges (are_steps (entries_seen entries.now)) fault.Steps (λ accounts. accounts.items ≡ map account_of (entries_seen entries.now)) result }
{
    let mut accounts = Vec::new(alloc);
    for entry in entries {
        match Account::read(alloc, entry)? {
            Some(account) => accounts.push(account)?,
            None => return Err(SettingsFault::Steps),
        }
    }
    Ok(accounts)
}

// The mode that a text names.
fn mode_named(text: &[u8]) -> Option<Mode>
    ensures { option_map mode_of result ≡ mode_named text.now }
{
    match text {
        b"read" => Some(Mode::Read),
        b"write" => Some(Mode::Write),
        _ => None,
    }
}

// The places that a grant is between, and its mode.
#[derive(Clone, Copy)]
pub(crate) struct Placing {
    from: usize,
    to: usize,
    mode: Mode,
}

// The places of a grant's accounts, and its mode, if it is good.
#[tactic(auto, using(crate::proofs::Places::place_any, crate::proofs::Parts::granted))]
fn places_of(accounts: &Accounts, entry: &GrantEntry) -> Option<Placing>
    ensures { MatchOption result (is_grant (names_in accounts.now) (grant_view entry.now) ≡ false) (IsPlacing (names_in accounts.now) (grant_view entry.now)) }
{
    if entry.from == entry.to || !is_name(&entry.global) {
        return None;
    }
    let from = accounts.find(&entry.from)?;
    let to = accounts.find(&entry.to)?;
    let mode = mode_named(&entry.mode)?;
    Some(Placing { from, to, mode })
}

// The grants.
#[tactic(auto, using(crate::proofs::Parts::all_fails))]
pub(crate) fn grants_of(
    alloc: Global,
    accounts: &Accounts,
    entries: &[GrantEntry],
) -> Result<Grants, SettingsFault>
    ensures { Judges (are_grants (names_in accounts.now) (grants_seen entries.now)) fault.Grant (λ grants. AreGranted (names_in accounts.now)
        (grants_seen entries.now) grants) result }
{
    let mut grants = Grants::new(alloc);
    for entry in entries {
        let Some(Placing { from, to, mode }) = places_of(accounts, entry) else {
            return Err(SettingsFault::Grant);
        };
        let global = Vec::from_slice(alloc, &entry.global)?;
        grants = grants.with(from, to, global, mode)?;
    }
    Ok(grants)
}

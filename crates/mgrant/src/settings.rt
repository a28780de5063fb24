// SPDX-License-Identifier: Apache-2.0
// Settings: who has which terminals, and who may do what.
ghost use Rattle.std.specs.Prelude.{◌≡◌, ◌<◌, ◌≤◌, ◌↔◌, ◌⊎◌, Some, None, IfOk, IfErr, IfSome, IsTrue, All, false, length, slice_index_or, option_and_then};
ghost use Rattle.std.specs.List.{filter, range_with_len};
ghost use Rattle.toml.specs.View.{table_view};
ghost use Rattle.mspec.specs.KeyBytes.{IsAccountName};
ghost use Rattle.mspec.specs.Access as access;
ghost use Rattle.mspec.specs.Flow.{Reaches};
ghost use Rattle.mgrant.specs.Document.{Reads, fault_of, settings_of};
ghost use Rattle.mgrant.specs.Islands.{IsIslandAt};
ghost use Rattle.mgrant.specs.Placed.{mode_of};
ghost use Rattle.mgrant.specs.Reading.{entries_view, IsRead, IsRefused};
ghost use Rattle.mgrant.specs.declared.fault.SettingsFault.TheVariants.{Memory};

use crate::account_id::AccountId;
use crate::accounts::Accounts;
use crate::checks::{accounts_of, grants_of, names_of, terminals_of};
use crate::document::{Entries, read_entries};
use crate::fault::SettingsFault;
use crate::flow::{leads, reached};
use crate::grants::Grants;
use crate::mode::Mode;
use std::alloc::{AllocError, Global};
use std::marker::Model;
use toml::Table;

/// The accounts with their steps, the account of each terminal, and the grants between accounts. Contracts see them as the
/// settings of the definitions. An `AccountId` belongs to the settings that gave it: in others it names another account or none.
pub struct Settings {
    accounts: Accounts,
    terminals: Vec<Option<usize>>,
    grants: Grants,
}

// Written out, so that dropping it is one call, which is proved once.
impl Drop for Settings {
    fn drop(self) {
        let Settings {
            accounts: _,
            terminals: _,
            grants: _,
        } = self;
    }
}

impl Model for Settings {
    ghost use Rattle.mspec.specs.Access as access;
    ghost use Rattle.mgrant.specs.View.{settings_view, settings_code, AreSettings};

    ghost Value = { access.Settings };

    ghost coded = { settings_code };

    ghost view = { λ s. settings_view s.accounts s.terminals.items s.grants };

    ghost invariant = { λ s. AreSettings s.accounts s.terminals.items s.grants };
}

// The bytes as a table.
fn document(alloc: Global, bytes: &[u8]) -> Result<Table, SettingsFault>
    ensures ok { IfOk result (λ t. Reads bytes.now (table_view t)) }
    ensures err { IfErr result (λ e. (e ≡ Memory) ⊎ IsRefused bytes.now e) }
{
    match toml::table_from_slice(alloc, bytes) {
        Ok(table) => Ok(table),
        Err(error) => {
            if error.is_memory() {
                Err(SettingsFault::Memory)
            } else {
                Err(SettingsFault::Toml)
            }
        }
    }
}

// The settings of the entries of a document.
fn assembled(alloc: Global, entries: &Entries) -> Result<Settings, SettingsFault>
    ensures good { IfOk result (λ _. fault_of (entries_view entries.now) ≡ None) }
    ensures ok { IfOk result (λ settings. settings ≡ settings_of (entries_view entries.now)) }
    ensures err { IfErr result (λ e. (e ≡ Memory) ⊎ (fault_of (entries_view entries.now) ≡ Some e)) }
{
    let written = entries.accounts.as_slice();
    let places = names_of(alloc, written)?;
    let terminals = terminals_of(alloc, written)?;
    let accounts = Accounts::new(accounts_of(alloc, written)?, places);
    let grants = grants_of(alloc, &accounts, &entries.grants)?;
    Ok(Settings {
        accounts,
        terminals,
        grants,
    })
}

// The place that a terminal has.
fn terminal_at(terminals: &[Option<usize>], terminal: usize) -> Option<usize>
    ensures { result ≡ slice_index_or terminals.now terminal None }
{
    match terminals.get(terminal) {
        Some(place) => *place,
        None => None,
    }
}

// The accounts at the marked places, in their order.
fn marked(alloc: Global, marks: &[bool]) -> Result<Vec<AccountId>, AllocError>
    ensures { IfOk result (λ ids. ids.items ≡ filter (λ p. slice_index_or marks.now p false) (range_with_len 0 (length marks.now))) }
{
    let mut ids = Vec::new(alloc);
    for place in 0..marks.len() {
        if marks[place] {
            ids.push(AccountId::new(place))?;
        }
    }
    Ok(ids)
}

impl Settings {
    /// The settings of a TOML document: a list `account` of tables with the keys `name` (1 to 16 letters or digits), `terminals`
    /// (numbers from 1 to 9,999) and `steps` (1 to 1,000,000), and a list `grant` of tables with the keys `from`, `to` (names of
    /// accounts), `global` (a name) and `mode` (`read` or `write`). Each list may be absent, and has at most 9,999 entries. Otherwise
    /// the first fault of the document, in the order of `SettingsFault`; or `Memory`, which may come at any place.
    pub fn read(alloc: Global, bytes: &[u8]) -> Result<Settings, SettingsFault>
        ensures ok { IfOk result (IsRead bytes.now) }
        ensures err { IfErr result (λ e. (e ≡ Memory) ⊎ IsRefused bytes.now e) }
    {
        let table = document(alloc, bytes)?;
        match read_entries(alloc, &table)? {
            Some(entries) => assembled(alloc, &entries),
            None => Err(SettingsFault::Shape),
        }
    }

    /// The account of a terminal. Takes no memory.
    #[tactic(auto, using(crate::proofs::Seen::terminal_seen, crate::proofs::Seen::there))]
    pub fn account_of(&self, terminal: u32) -> Option<AccountId>
        ensures account { option_and_then (access.account_at self.now) result ≡ access.account_of self.now terminal }
        ensures known { IfSome result (λ id. id < length self.now.accounts) }
    {
        match terminal_at(&self.terminals, terminal as usize) {
            Some(place) => Some(AccountId::new(place)),
            None => None,
        }
    }

    /// The account with this name. Takes no memory.
    #[tactic(auto, using(std::proofs::lemmas::Option::slice_get_within, crate::proofs::Seen::named_seen, crate::proofs::Seen::unnamed_seen, crate::proofs::Seen::length_seen))]
    pub fn account_named(&self, name: &[u8]) -> Option<AccountId>
        ensures account { option_and_then (access.account_at self.now) result ≡ access.account_named self.now name.now }
        ensures known { IfSome result (λ id. id < length self.now.accounts) }
    {
        match self.accounts.find(name) {
            Some(place) => Some(AccountId::new(place)),
            None => None,
        }
    }

    /// The name of an account, 1 to 16 letters or digits; empty for an id from other settings that names none here. Takes no memory.
    pub fn name_of(&self, id: AccountId) -> &[u8]
        ensures name { result.now ≡ access.name_at self.now id }
        ensures ascii { All (λ c. c < 128) result.now }
        ensures good { id < length self.now.accounts → IsAccountName result.now }
        ensures named { 0 < length result.now → IsAccountName result.now }
    {
        self.accounts.name_at(id.place())
    }

    /// The steps that each line of an account may use, 1 to 1,000,000; 0 for an id that names none here. Takes no memory.
    pub fn steps_of(&self, id: AccountId) -> u32
        ensures { result ≡ access.steps_at self.now id }
    {
        match self.accounts.at(id.place()) {
            Some(account) => account.steps(),
            None => 0,
        }
    }

    /// The language of an account's lines, 0 or 1; 0 for an id that names none here. Takes no memory.
    pub fn language_of(&self, id: AccountId) -> u32
        ensures language { result ≡ access.language_at self.now id }
        ensures known { result ≤ 1 }
    {
        match self.accounts.at(id.place()) {
            Some(account) => account.language(),
            None => 0,
        }
    }

    /// Whether an account may use a global of the owner in this mode: the owner is the account itself, or has granted it. A name
    /// that no account has is treated as an account that grants nothing. Takes no memory.
    pub fn may(&self, me: AccountId, owner_name: &[u8], global: &[u8], mode: Mode) -> bool
        ensures { result ≡ access.may self.now (access.name_at self.now me) owner_name.now global.now (mode_of mode) }
    {
        let place = me.place();
        if owner_name == self.accounts.name_at(place) {
            return true;
        }
        match self.accounts.find(owner_name) {
            Some(owner) => self.grants.allow(place, owner, global, mode),
            None => false,
        }
    }

    /// Whether what one account does can show at another: they are the same, or a chain of grants leads from the one to the
    /// other, in which a grant to write leads both ways. An id that names none here is reached by no account. Fails only if memory
    /// runs out.
    pub fn reaches(&self, alloc: Global, from: AccountId, to: AccountId) -> Result<bool, AllocError>
        ensures { IfOk result (λ b. IsTrue b ↔ Reaches self.now (access.name_at self.now from) (access.name_at self.now to)) }
    {
        let start = from.place();
        let end = to.place();
        if self.accounts.name_at(start) == self.accounts.name_at(end) {
            return Ok(true);
        }
        let count = self.accounts.len();
        if start >= count || end >= count {
            return Ok(false);
        }
        let edges = self.grants.edges(alloc)?;
        Ok(leads(alloc, edges, count, start, end)?)
    }

    /// The island of an account, in the order of the settings: the least set of accounts that contains it and that no grant ties to
    /// others, so that they may be kept on a machine of their own. No accounts for an id that names none here. Fails only if memory
    /// runs out.
    pub fn island_of(&self, alloc: Global, account: AccountId) -> Result<Vec<AccountId>, AllocError>
        ensures { IfOk result (λ ids. IsIslandAt self.now (access.name_at self.now account) ids.items) }
    {
        let start = account.place();
        let count = self.accounts.len();
        if start >= count {
            return Ok(Vec::new(alloc));
        }
        let ties = self.grants.ties(alloc)?;
        let marks = reached(alloc, ties, count, start)?;
        Ok(marked(alloc, &marks)?)
    }
}

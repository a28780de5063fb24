// SPDX-License-Identifier: Apache-2.0
// Accounts, one record each, found by their places or by their names.
ghost use Rattle.std.specs.Prelude.{◌≡◌, ◌≤◌, IfOk, IfSome, IfNone, MatchOption, false, length, option_map, slice_get};
ghost use Rattle.std.specs.List.{list_any};
ghost use Rattle.mspec.specs.Trees.{text_eq};
ghost use Rattle.mgrant.specs.Document.{has_steps};
ghost use Rattle.mgrant.specs.Reading.{IsAccountOf};
ghost use Rattle.mgrant.specs.View.{account_view, names_in};
ghost use Rattle.mgrant.specs.Words.{text_in, IsIndex, IsPlaceOf};

use crate::checks::number_within;
use crate::document::AccountEntry;
use crate::language::Language;
use crate::words::{Places, place_in};
use mspec::limits::MAX_STEPS;
use std::alloc::{AllocError, Global};
use std::marker::Model;

// An account, the steps that each of its lines may use, and their language.
#[derive(Drop)]
pub(crate) struct Account {
    name: Vec<u8>,
    steps: u32,
    language: Language,
}

impl Model for Account {
    ghost use Rattle.mspec.specs.Access as access;

    ghost Value = { access.Account };

    ghost view = { λ account. record { name = account.name.items; steps = account.steps; language = account.language.number } };
}

impl Account {
    // The account of an entry, if its numbers are good.
    pub fn read(alloc: Global, entry: &AccountEntry) -> Result<Option<Account>, AllocError>
        ensures { IfOk result (λ o. MatchOption o (has_steps (account_view entry.now) ≡ false) (IsAccountOf (account_view entry.now))) }
    {
        let Some(steps) = number_within(entry.steps, MAX_STEPS) else {
            return Ok(None);
        };
        let name = Vec::from_slice(alloc, &entry.name)?;
        Ok(Some(Account {
            name,
            steps,
            language: entry.language,
        }))
    }

    pub fn name(&self) -> &[u8]
        ensures { result.now ≡ self.now.name }
    {
        self.name.as_slice()
    }

    pub fn steps(&self) -> u32
        ensures { result ≡ self.now.steps }
    {
        self.steps
    }

    pub fn language(&self) -> u32
        ensures language { result ≡ self.now.language }
        ensures known { result ≤ 1 }
    {
        self.language.number
    }
}

// Accounts in the order of the settings, no two of one name. An account's place is found by hashing its name.
#[derive(Drop)]
pub(crate) struct Accounts {
    list: Vec<Account>,
    places: Places,
}

impl Model for Accounts {
    ghost use Rattle.std.specs.Prelude.{List};
    ghost use Rattle.mspec.specs.Access as access;
    ghost use Rattle.mgrant.specs.View.{names_in};
    ghost use Rattle.mgrant.specs.Words.{IsIndex};

    ghost Value = { List access.Account };

    ghost view = { λ accounts. accounts.list.items };

    ghost invariant = { λ accounts. IsIndex (names_in accounts.list.items) accounts.places };
}

impl Accounts {
    // These accounts, of whose names these are the places.
    pub fn new(list: Vec<Account>, places: Places) -> Accounts
        requires { IsIndex (names_in list.items) places }
        ensures { result ≡ list.items }
    {
        Accounts { list, places }
    }

    // How many there are.
    pub fn len(&self) -> usize
        ensures { result ≡ length self.now }
    {
        self.list.len()
    }

    // The account at a place, if there is one.
    pub fn at(&self, place: usize) -> Option<&Account>
        ensures { option_map (λ account. account.now) result ≡ slice_get self.now place }
    {
        self.list.get(place)
    }

    // The name of the account at a place, or an empty one if there is none.
    pub fn name_at(&self, place: usize) -> &[u8]
        ensures { result.now ≡ text_in (names_in self.now) place }
    {
        match self.at(place) {
            Some(account) => account.name(),
            None => &[],
        }
    }

    // The place of the account with a name.
    #[tactic(auto, using(crate::proofs::Places::place_told, crate::proofs::Places::absence_told))]
    pub fn find(&self, name: &[u8]) -> Option<usize>
        ensures found { IfSome result (IsPlaceOf (names_in self.now) name.now) }
        ensures absent { IfNone result (list_any (text_eq name.now) (names_in self.now) ≡ false) }
    {
        place_in(&self.places, name)
    }
}

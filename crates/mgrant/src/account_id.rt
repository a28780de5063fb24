// SPDX-License-Identifier: Apache-2.0
// Accounts by their places in the settings.
ghost use Rattle.std.specs.Prelude.{◌≡◌};

use std::marker::Model;

/// An account of some settings: its place among their accounts.
#[derive(Clone, Copy, PartialEq, Eq, Hash)]
pub struct AccountId {
    place: usize,
}

impl Model for AccountId {
    ghost use Rattle.std.specs.Prelude.{ℕ};

    ghost Value = { ℕ };

    ghost view = { λ id. id.place };

    ghost inverse = { λ place. record { place = place } };
}

impl AccountId {
    pub(crate) fn new(place: usize) -> AccountId
        ensures { result ≡ place }
    {
        AccountId { place }
    }

    pub(crate) fn place(self) -> usize
        ensures { result ≡ self }
    {
        self.place
    }
}

// SPDX-License-Identifier: Apache-2.0
// Names of accounts.
ghost use Rattle.std.specs.Prelude.{◌≡◌, ◌↔◌, IsTrue, MatchOption};
ghost use Rattle.mspec.specs.KeyBytes.{IsAccountName};

use arrayvec::ArrayVec;
use mnum::{Bytes7, continue_name};
use mspec::limits::MAX_ACCOUNT_NAME;
use std::marker::Model;

// Whether these bytes are an account's name.
fn names_account(characters: &[u8]) -> bool
    ensures { IsTrue result ↔ IsAccountName characters.now }
{
    !characters.is_empty() && characters.len() <= MAX_ACCOUNT_NAME && continue_name(characters)
}

/// Whether this is an account's name: 1 to 16 letters or digits. Takes no memory.
pub fn is_account_name(text: &Bytes7) -> bool
    ensures { IsTrue result ↔ IsAccountName text.now }
{
    names_account(text.as_bytes())
}

/// An account's name, held in place: it takes no memory. Contracts see it as its list of bytes, and what gives its bytes says that
/// they are such a name.
#[derive(Drop)]
pub struct AccountName {
    bytes: ArrayVec<u8, 16>,
}

impl Model for AccountName {
    ghost use Rattle.std.specs.Prelude.{List, ℕ};
    ghost use Rattle.mspec.specs.KeyBytes.{IsAccountName};

    ghost Value = { List ℕ };

    ghost view = { λ name. name.bytes.items };

    ghost invariant = { λ name. IsAccountName name.bytes.items };
}

impl AccountName {
    /// The account's name that these bytes are, if they are one. Takes no memory.
    pub fn new(text: &[u8]) -> Option<AccountName>
        ensures { MatchOption result (IsAccountName text.now → ⊥) (λ name. name ≡ text.now) }
    {
        if !names_account(text) {
            return None;
        }
        Some(AccountName::of_name(text))
    }

    /// The account's name that these bytes are; they must be one. Takes no memory.
    pub fn of_name(text: &[u8]) -> AccountName
        requires { IsAccountName text.now }
        ensures { result ≡ text.now }
    {
        match ArrayVec::try_from(text) {
            Ok(bytes) => AccountName { bytes },
            Err(_) => unreachable!(),
        }
    }

    /// The bytes of the name. Takes no memory.
    pub fn as_bytes(&self) -> &[u8]
        ensures bytes { result.now ≡ self.now }
        ensures is_name { IsAccountName result.now }
    {
        self.bytes.as_slice()
    }

    /// A second copy of the same name. Takes no memory.
    pub fn copy(&self) -> AccountName
        ensures { result ≡ self.now }
    {
        AccountName::of_name(self.as_bytes())
    }
}

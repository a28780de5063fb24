// SPDX-License-Identifier: Apache-2.0
// Whose global a reference names.
ghost use Rattle.std.specs.Prelude.{◌≡◌, ◌↔◌, ◌<◌, IfOk, IsTrue, length};
ghost use Rattle.mspec.specs.KeyBytes.{IsAccountName};
ghost use Rattle.meval.specs.Held.{owner_text};

use mkey::{AccountName, is_account_name};
use mnum::Bytes7;
use mvalue::Value;
use std::alloc::{AllocError, Global};

// What stands in place of an account: a name that an account can have, which takes no memory, or any other text that an environment gave.
// Contracts see it by `owner_text`, as the text.
pub(crate) enum Owner {
    Account(AccountName),
    Other(Bytes7),
}

// Written out, so that dropping it is one call, which is proved once.
impl Drop for Owner {
    fn drop(self) {
        match self {
            Owner::Account(_) => {}
            Owner::Other(_) => {}
        }
    }
}

impl Owner {
    // The owner that settings name: an account's name, or no byte. The name is not tested again. Takes no memory.
    pub(crate) fn of_settings(alloc: Global, name: &[u8]) -> Owner
        requires { 0 < length name.now → IsAccountName name.now }
        ensures { owner_text result ≡ name.now }
    {
        if name.is_empty() {
            return Owner::Other(Bytes7::empty(alloc));
        }
        Owner::Account(AccountName::of_name(name))
    }

    // The owner that a value names.
    pub(crate) fn of_value(alloc: Global, value: Value) -> Result<Owner, AllocError>
        ensures { IfOk result (λ owner. owner_text owner ≡ value) }
    {
        let text = value.into_text(alloc)?;
        match AccountName::new(text.as_bytes()) {
            Some(name) => Ok(Owner::Account(name)),
            None => Ok(Owner::Other(text)),
        }
    }

    // Its bytes.
    pub(crate) fn as_bytes(&self) -> &[u8]
        ensures { result.now ≡ owner_text self.now }
    {
        match self {
            Owner::Account(name) => name.as_bytes(),
            Owner::Other(text) => text.as_bytes(),
        }
    }

    // Its text.
    pub(crate) fn text(&self, alloc: Global) -> Result<Bytes7, AllocError>
        ensures { IfOk result (λ text. text ≡ owner_text self.now) }
    {
        match self {
            Owner::Account(name) => Bytes7::from_slice(alloc, name.as_bytes()),
            Owner::Other(text) => text.copy(),
        }
    }

    // Whether it is a name that an account can have.
    pub(crate) fn is_account(&self) -> bool
        ensures { IsTrue result ↔ IsAccountName (owner_text self.now) }
    {
        match self {
            // no such name is empty
            Owner::Account(name) => !name.as_bytes().is_empty(),
            Owner::Other(text) => is_account_name(text),
        }
    }

    // A copy of it.
    pub(crate) fn copy(&self) -> Result<Owner, AllocError>
        ensures { IfOk result (λ owner. owner_text owner ≡ owner_text self.now) }
    {
        match self {
            Owner::Account(name) => Ok(Owner::Account(name.copy())),
            Owner::Other(text) => Ok(Owner::Other(text.copy()?)),
        }
    }
}

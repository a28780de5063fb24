// SPDX-License-Identifier: Apache-2.0
// Names of locks.
ghost use Rattle.std.specs.Prelude.{◌≡◌, [], ◌∷◌, IfOk, Some, MatchOption, refl};
ghost use Rattle.std.specs.Hash as fed;
ghost use Rattle.std.specs.Cmp.{partial_equiv_from_equiv, partial_order_from_total, eq_by_cmp_equiv};
ghost use Rattle.std.specs.Ordering.{eq_by_cmp};
ghost use Rattle.mlock.specs.Above.{IsAbove};
ghost use Rattle.mlock.specs.Words.{IsStored, key_bytes, lock_name_cmp, significant_digits};
ghost use Rattle.mspec.proofs.LockOrders.{lock_name_cmp_total};
ghost use Rattle.mlock.specs.Hashes.{alike};

use mkey::NodeKey;
use std::alloc::AllocError;
use std::cmp::Ordering;
use std::hash::{Hash, Hasher};
use std::marker::Model;

/// The name of a lock: a node's account, name and subscripts, with or without `^`. Contracts see it as the name of the
/// definitions.
#[derive(Drop)]
pub struct LockName {
    /// The node that has the lock's account, name and subscripts.
    pub key: NodeKey,
    /// Whether it is written with `^`.
    pub global: bool,
}

impl Model for LockName {
    ghost use Rattle.mspec.specs.LockConflict.{LockName as Name};

    ghost Value = { Name };

    ghost view = { λ name. record { global = name.global; node = name.key } };
}

impl LockName {
    // A second name like it.
    pub(crate) fn copy(&self) -> Result<LockName, AllocError>
        ensures name { IfOk result (λ name. name ≡ self.now) }
        ensures stored { IsStored self.now.node }
    {
        let key = self.key.copy()?;
        Ok(LockName {
            key,
            global: self.global,
        })
    }

    // The name with one subscript fewer, in this one's memory, or None if it has no subscript.
    pub(crate) fn into_parent(self) -> Option<LockName>
        ensures { MatchOption result (self.node.subscripts ≡ []) (λ above. IsAbove above self) }
    {
        let key = self.key.into_parent()?;
        Some(LockName {
            key,
            global: self.global,
        })
    }
}

// Names without `^` come before those with it, and then in the order of their nodes.

impl PartialEq for LockName {
    ghost eq = { eq_by_cmp lock_name_cmp };

    ghost laws = { partial_equiv_from_equiv (eq_by_cmp_equiv lock_name_cmp_total) };

    fn eq(&self, other: &LockName) -> bool {
        self.cmp(other).is_eq()
    }
}

impl Eq for LockName {
    ghost laws = { eq_by_cmp_equiv lock_name_cmp_total };
}

impl PartialOrd for LockName {
    ghost partial_cmp = { λ a b. Some (lock_name_cmp a b) };

    ghost laws = { partial_order_from_total lock_name_cmp_total };

    fn partial_cmp(&self, other: &LockName) -> Option<Ordering> {
        Some(self.cmp(other))
    }
}

impl Ord for LockName {
    ghost cmp = { lock_name_cmp };

    ghost total = { lock_name_cmp_total };

    ghost matches_partial_cmp = { λ a b. refl };

    ghost matches_eq = { λ a b. refl };

    fn cmp(&self, other: &LockName) -> Ordering {
        self.global
            .cmp(&other.global)
            .then(self.key.cmp(&other.key))
    }
}

// A name is hashed by the bytes of its key.
impl Hash for LockName {
    ghost hash_input = { λ name. key_bytes significant_digits name.node ∷ fed.bool name.global };

    ghost respects_eq = { alike };

    fn hash<H: Hasher>(&self, state: &mut H) {
        state.write(self.key.as_bytes());
        self.global.hash(state);
    }
}

// SPDX-License-Identifier: Apache-2.0
// The locks of the terminals.
ghost use Rattle.std.specs.Prelude.{◌≡◌, ◌≤◌, true, false, not, nat_eq, nat_lt, All, IfOk, OnErr, Some, None, if◌then◌else◌};
ghost use Rattle.std.specs.FinMap.{empty};
ghost use Rattle.mlock.specs.Holdings.{AreCounts, IsFree};
ghost use Rattle.mspec.specs.LockConflict.{held as lock, count, max_count, one_more, has_conflict, taken, counted, given_back, released};

use crate::conflict::conflicts;
use crate::holdings::{find, hold, let_go, release, set_count};
use crate::name::LockName;
use crate::tally::Tally;
use indexmap::IndexMap;
use mspec::limits::MAX_COUNT;
use std::alloc::{AllocError, Global};
use std::marker::Model;

// Who holds a name, and how often.
#[derive(Clone, Copy)]
pub(crate) struct Holding {
    pub terminal: u32,
    pub count: u32,
}

/// The locks of the terminals: how often each holds a name. Contracts see it as the locks of the definitions.
pub struct Locks {
    // a name has one holder, since it conflicts with itself
    holdings: IndexMap<LockName, Holding>,
    // each name above one that is held, with what is held below it
    below: IndexMap<LockName, Tally>,
}

// Written out, so that dropping it is one call, which is proved once.
impl Drop for Locks {
    fn drop(self) {
        let Locks {
            holdings: _,
            below: _,
        } = self;
    }
}

impl Model for Locks {
    ghost use Rattle.std.specs.Coded.{coded_ℕ};
    ghost use Rattle.std.specs.FinMap.{code};
    ghost use Rattle.mspec.specs.LockConflict.{Locks as HeldLocks};
    ghost use Rattle.mlock.specs.Holdings.{locks_of, coded_held, AreCounts};
    ghost use Rattle.mlock.specs.Tallies.{Kept};

    ghost Value = { HeldLocks };

    ghost coded = { code coded_held coded_ℕ };

    ghost view = { λ locks. locks_of locks.holdings };

    ghost invariant = { λ locks. Kept locks.holdings locks.below × AreCounts (locks_of locks.holdings) };
}

impl Locks {
    /// Locks of which none is held. Takes no memory.
    pub fn new(alloc: Global) -> Locks
        ensures { result ≡ empty }
    {
        Locks {
            holdings: IndexMap::new(alloc),
            below: IndexMap::new(alloc),
        }
    }

    /// How often the terminal holds the name: 0 to 1,000,000 times. Takes no memory.
    pub fn held(&self, terminal: u32, name: &LockName) -> u32
        ensures count { result ≡ count self.now (lock terminal name.now) }
        ensures few { result ≤ max_count }
    {
        match self.holdings.get(name) {
            Some(holding) => {
                if holding.terminal == terminal {
                    holding.count
                } else {
                    0
                }
            }
            None => 0,
        }
    }

    /// Takes all the names for the terminal, or none: each counts as often as it occurs there. False if one conflicts with a
    /// name that another terminal holds, or if a count would pass 1,000,000; then nothing changes.
    ///
    /// # Errors
    ///
    /// `AllocError` if it runs out of memory; the locks are then as they were.
    pub fn take(&mut self, terminal: u32, names: &[LockName]) -> Result<bool, AllocError>
        ensures taken { IfOk result (λ all. taken self.old terminal names.now ≡ (if all then Some self.new else None)) }
        ensures refused { IfOk result (λ all. all ≡ false → self.new ≡ self.old) }
        ensures err { OnErr result (self.new ≡ self.old) }
    {
        for name in names {
            if self.has_conflict(terminal, name)? {
                return Ok(false);
            }
        }
        self.count_all(terminal, names)
    }

    // Whether another terminal holds a name that conflicts with this one.
    fn has_conflict(&self, terminal: u32, name: &LockName) -> Result<bool, AllocError>
        ensures { IfOk result (λ conflict. conflict ≡ has_conflict self.now (lock terminal name.now)) }
    {
        conflicts(&self.holdings, &self.below, terminal, name)
    }

    // One more count of each name, none of which another terminal holds; false if a count would pass the maximum.
    fn count_all(&mut self, terminal: u32, names: &[LockName]) -> Result<bool, AllocError>
        requires { All (IsFree self.old terminal) names.now }
        ensures counted { IfOk result (λ all. counted self.old terminal names.now ≡ (if all then Some self.new else None)) }
        ensures refused { IfOk result (λ all. all ≡ false → self.new ≡ self.old) }
        ensures err { OnErr result (self.new ≡ self.old) }
    {
        let Some((first, rest)) = names.split_first() else {
            return Ok(true);
        };
        if !self.count_one(terminal, first)? {
            return Ok(false);
        }
        match self.count_all(terminal, rest) {
            Ok(true) => Ok(true),
            Ok(false) => {
                self.give_back(terminal, first);
                Ok(false)
            }
            Err(error) => {
                self.give_back(terminal, first);
                Err(error)
            }
        }
    }

    // One more count of a name that no other terminal holds; false if it has the maximum.
    fn count_one(&mut self, terminal: u32, name: &LockName) -> Result<bool, AllocError>
        requires { IsFree self.old terminal name.now }
        ensures room { IfOk result (λ more. more ≡ nat_lt (count self.old (lock terminal name.now)) max_count) }
        ensures counted { IfOk result (λ more. self.new ≡ (if more then one_more self.old (lock terminal name.now) else self.old)) }
        ensures err { OnErr result (self.new ≡ self.old) }
        ensures counts { AreCounts self.old }
    {
        let Some((index, holding)) = find(&self.holdings, name) else {
            hold(&mut self.holdings, &mut self.below, terminal, name)?;
            return Ok(true);
        };
        if holding.count >= MAX_COUNT {
            return Ok(false);
        }
        let count = holding.count + 1;
        set_count(&mut self.holdings, index, Holding { terminal, count });
        Ok(true)
    }

    /// Gives one count of the name back; if the terminal does not hold it, nothing changes. Takes no memory.
    pub fn give_back(&mut self, terminal: u32, name: &LockName)
        ensures { self.new ≡ given_back self.old terminal name.now }
    {
        let Some((index, holding)) = find(&self.holdings, name) else {
            return;
        };
        if holding.terminal != terminal {
            return;
        }
        if holding.count > 1 {
            let count = holding.count - 1;
            set_count(&mut self.holdings, index, Holding { terminal, count });
        } else {
            let_go(&mut self.holdings, &mut self.below, index);
        }
    }

    /// Gives back all that the terminal holds. Takes no memory.
    pub fn release_all(&mut self, terminal: u32)
        ensures { self.new ≡ released self.old terminal }
    {
        release(&mut self.holdings, &mut self.below, terminal);
    }
}

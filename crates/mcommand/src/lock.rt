// SPDX-License-Identifier: Apache-2.0
// LOCK: its names and its timeout are evaluated first, and then the names are taken or given back.
ghost use Rattle.std.specs.Prelude.{◌≡◌, [], false, map, Ok, IfOk};
ghost use Rattle.std.specs.List.{list_all};
ghost use Rattle.mmeaning.specs.Shared.{may_lock};
ghost use Rattle.mmeaning.specs.Programs.{lock_done};
ghost use Rattle.mspec.specs.Act.{ask};
ghost use Rattle.mspec.specs.Plan.{Release, Take};
ghost use Rattle.mmeaning.specs.Expression.{optional_value};
ghost use Rattle.mgrammar.specs.Grammar.{lock_one};
ghost use Rattle.mmeaning.specs.Locking as meaning;
ghost use Rattle.mtree.specs.Tree.{reference_tree, condition_tree, kind_tree, locked_tree};
ghost use Rattle.meval.specs.Evaluates.{standing_of};
ghost use Rattle.mcommand.specs.Does.{Does};
ghost use Rattle.mcommand.specs.LockNames.{MayTake, locking_names};

use crate::parts::Parts;
use meval::{Lockable, locks_of};
use mlock::LockName;
use mnodes::NodeStore;
use moperator::Code;
use mtree::{Expr, LockKind, Locked, Reference};
use mvalue::Value;
use std::alloc::Global;
use std::slice::from_ref;

impl<'a, S: NodeStore> Parts<'a, S> {
    // The locks that references name: each is evaluated and checked before the next.
    fn lock_names(&mut self, alloc: Global, references: &[Reference]) -> Result<Vec<LockName>, Code>
        ensures may_take { IfOk result (λ names. MayTake (standing_of self.new.eval) names.items) }
        ensures does { Does S.NodeStore (λ i. meaning.lock_names i [] (map reference_tree references.now)) (λ names. names.items) self.old result self.new }
    {
        let mut names = Vec::with_capacity(alloc, references.len())?;
        for reference in references {
            let name = self.eval.lock_name(alloc, reference)?;
            names.push(name)?;
        }
        Ok(names)
    }

    // The value of a timeout, if there is one.
    fn timeout_value(
        &mut self,
        alloc: Global,
        timeout: &Option<Box<Expr>>,
    ) -> Result<Option<Value>, Code>
        ensures { Does S.NodeStore (λ i. optional_value i (condition_tree timeout.now)) (λ value. value) self.old result self.new }
    {
        match timeout {
            None => Ok(None),
            Some(e) => {
                let value = self.eval.eval(alloc, e)?;
                Ok(Some(value))
            }
        }
    }

    /// Gives back all that the terminal holds.
    pub fn release(&mut self)
        ensures eval { self.new.eval ≡ self.old.eval }
        ensures does { Does S.NodeStore (λ i. ask Release) (λ u. u) self.old (Ok tt) self.new }
    {
        self.locks.release_all(self.eval.terminal);
    }

    // Whether the names could be taken: all of them are, or none.
    fn take(&mut self, names: &[LockName]) -> Result<bool, Code>
        requires { MayTake (standing_of self.old.eval) names.now }
        ensures eval { self.new.eval ≡ self.old.eval }
        ensures does { Does S.NodeStore (λ i. ask (Take names.now)) (λ all. all) self.old result self.new }
    {
        let all = self.locks.take(self.eval.terminal, names)?;
        Ok(all)
    }

    // Gives each name back once.
    fn give_back_all(&mut self, names: &[LockName])
        ensures eval { self.new.eval ≡ self.old.eval }
        ensures does { Does S.NodeStore (λ i. meaning.given_back_all names.now) (λ u. u) self.old (Ok tt) self.new }
    {
        for name in names {
            self.locks.give_back(self.eval.terminal, name);
        }
    }

    // Whether what an argument of this kind does could be done with the names.
    fn carry(&mut self, kind: LockKind, names: &[LockName]) -> Result<bool, Code>
        requires { MayTake (standing_of self.old.eval) names.now }
        ensures eval { self.new.eval ≡ self.old.eval }
        ensures does { Does S.NodeStore (λ i. meaning.carried (kind_tree kind) names.now) (λ carried. carried) self.old result self.new }
    {
        match kind {
            LockKind::Anew => {
                self.release();
                self.take(names)
            }
            LockKind::Adding => self.take(names),
            LockKind::GivingBack => {
                self.give_back_all(names);
                Ok(true)
            }
        }
    }

    // Whether that could be done with names that the account may not lock, as it may those of each program: none is taken.
    fn carry_none(&mut self, kind: LockKind, names: &[LockName]) -> bool
        requires { list_all (may_lock (standing_of self.old.eval).settings (standing_of self.old.eval).account) names.now ≡ false }
        ensures eval { self.new.eval ≡ self.old.eval }
        ensures does { Does S.NodeStore (λ i. meaning.carried (kind_tree kind) names.now) (λ carried. carried) self.old (Ok result) self.new }
    {
        match kind {
            LockKind::Anew => {
                self.release();
                false
            }
            LockKind::Adding => false,
            LockKind::GivingBack => {
                self.give_back_all(names);
                true
            }
        }
    }

    // Whether what an argument of this kind does could be done with names that were checked before functions were called.
    fn carry_kept(&mut self, alloc: Global, kind: LockKind, all: &[Lockable]) -> Result<bool, Code>
        ensures { Does S.NodeStore (λ i. meaning.carried (kind_tree kind) all.now) (λ carried. carried) self.old result self.new }
    {
        let names = locks_of(alloc, all)?;
        if self.eval.may_lock_all(all) {
            self.carry(kind, &names)
        } else {
            Ok(self.carry_none(kind, &names))
        }
    }

    /// What an argument of LOCK does with names and a timeout that are evaluated.
    ///
    /// # Errors
    ///
    /// `Zlocked` if names could not be taken and there is no timeout; `Zmem` if memory runs out.
    pub fn lock_done(
        &mut self,
        alloc: Global,
        kind: LockKind,
        all: &[Lockable],
        timeout: &Option<Value>,
    ) -> Result<(), Code>
        ensures { Does S.NodeStore (λ i. lock_done (kind_tree kind) all.now timeout.now) (λ u. u) self.old result self.new }
    {
        let carried = self.carry_kept(alloc, kind, all)?;
        self.tell(timeout, carried)
    }

    // Reports whether it could be done: with a timeout by `$TEST`, and without one it is an error if it could not.
    fn tell(&mut self, timeout: &Option<Value>, carried: bool) -> Result<(), Code>
        ensures { Does S.NodeStore (λ i. meaning.told timeout.now carried) (λ u. u) self.old result self.new }
    {
        match timeout {
            Some(_) => {
                self.eval.set_test(carried);
                Ok(())
            }
            None => { if carried { Ok(()) } else { Err(Code::Zlocked) } }
        }
    }

    /// What an argument of LOCK does: without a sign it gives back all that the terminal holds and takes its names, with a `+` it
    /// takes them in addition, and with a `-` it gives each back once. Names are taken all or none, at once: with a timeout, whose
    /// value plays no part, `$TEST` says whether they were.
    ///
    /// # Errors
    ///
    /// Those of the names and of the timeout, each of which is evaluated and checked before any lock is given back or taken:
    /// `Zsyntax` for a naked reference, `Zgrant` if the account may not write a global, `Zsub` if no node can have the subscripts.
    /// `Zlocked` if names could not be taken and there is no timeout; what was given back before stays so. `Zmem` if memory runs
    /// out, and `Zstore` if the store refuses.
    pub fn locking(
        &mut self,
        alloc: Global,
        kind: LockKind,
        names: &Locked,
        timeout: &Option<Box<Expr>>,
    ) -> Result<(), Code>
        ensures { Does S.NodeStore (λ i. meaning.locking i (kind_tree kind) (locked_tree names.now) (condition_tree timeout.now))
            (λ u. u) self.old result self.new }
    {
        match names {
            Locked::One(reference) => self.locking_one(alloc, kind, reference, timeout),
            Locked::Several(references) => {
                let names = self.lock_names(alloc, references)?;
                self.locking_names(alloc, kind, &names, timeout)
            }
        }
    }

    // The same for one name, of which no list is built.
    fn locking_one(
        &mut self,
        alloc: Global,
        kind: LockKind,
        reference: &Reference,
        timeout: &Option<Box<Expr>>,
    ) -> Result<(), Code>
        ensures { Does S.NodeStore (λ i. meaning.locking i (kind_tree kind) (lock_one (reference_tree reference.now)) (condition_tree timeout.now))
            (λ u. u) self.old result self.new }
    {
        let name = self.eval.lock_name(alloc, reference)?;
        self.locking_names(alloc, kind, from_ref(&name), timeout)
    }

    // The same for names that are evaluated and checked: the timeout, and then what is done with them.
    fn locking_names(
        &mut self,
        alloc: Global,
        kind: LockKind,
        names: &[LockName],
        timeout: &Option<Box<Expr>>,
    ) -> Result<(), Code>
        requires { MayTake (standing_of self.old.eval) names.now }
        ensures { Does S.NodeStore (λ i. locking_names i (kind_tree kind) (condition_tree timeout.now) names.now) (λ u. u) self.old result self.new }
    {
        let timeout = self.timeout_value(alloc, timeout)?;
        let carried = self.carry(kind, names)?;
        self.tell(&timeout, carried)
    }
}

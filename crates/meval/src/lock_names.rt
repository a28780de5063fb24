// SPDX-License-Identifier: Apache-2.0
// The locks that references name.
ghost use Rattle.std.specs.Prelude.{◌≡◌, true, IfOk};
ghost use Rattle.std.specs.List.{list_all};
ghost use Rattle.meval.specs.Words.{IsAccountName, Yields, fault_of};
ghost use Rattle.mmeaning.specs.Variables as variables;
ghost use Rattle.mmeaning.specs.Shared.{may_lock};
ghost use Rattle.mtree.specs.Tree.{reference_tree};
ghost use Rattle.meval.specs.Acts as acts;
ghost use Rattle.meval.specs.Evaluates.{Evaluates, KeepsEval, standing_of};
ghost use Rattle.meval.specs.Held.{name_view};
ghost use Rattle.meval.specs.Places.{pending_view};

use crate::eval::Eval;
use crate::global_reference::GlobalReference;
use crate::kept::Lockable;
use crate::place::{Pending, Subscripts};
use crate::value_list::Values;
use crate::variable_name::VariableName;
use mgrant::Mode;
use mkey::AccountName;
use mlock::LockName;
use mnodes::NodeStore;
use moperator::Code;
use mtree::Reference;
use std::alloc::Global;

// The name of the lock of a node, which is kept.
fn lockable_at(alloc: Global, global: bool, node: &GlobalReference) -> Result<Lockable, Code>
    requires { IsAccountName node.now.account }
    ensures { Yields fault_of (acts.lock_of global node.now) (λ name. name) result }
{
    let values = node.copied_subscripts(alloc)?;
    let Some(subscripts) = Subscripts::new(values) else {
        return Err(Code::Zsub);
    };
    let name = node.name().copy()?;
    let account = AccountName::of_name(node.account());
    Ok(Lockable {
        global,
        account,
        name,
        subscripts,
    })
}

impl<'a, S: NodeStore> Eval<'a, S> {
    /// The lock that a reference names. It refers to no node: the naked indicator stays, except for what the reference has to evaluate.
    ///
    /// # Errors
    ///
    /// Those of the values that the reference has to evaluate, and then `Zgrant` for a global that the account may not write, `Zsub` if
    /// there are more than 15 subscripts, or one is empty or has more than 255 characters, and `Zsyntax` for a naked reference, which a
    /// text may give; `Zmem` if memory is refused, or if the account is not one of the settings', which no world hands in.
    pub fn lock_name(&mut self, alloc: Global, reference: &Reference) -> Result<LockName, Code>
        ensures open { IfOk result (λ name. may_lock (standing_of self.new).settings (standing_of self.new).account name ≡ true) }
        ensures does { Evaluates S.NodeStore (λ i. acts.lock_name_act i (reference_tree reference.now)) (λ name. name) self.old result self.new }
    {
        let pending = self.evaluated(alloc, reference)?;
        self.named_lock(alloc, pending)
    }

    // The lock that a fully evaluated reference names.
    fn named_lock(&self, alloc: Global, pending: Pending) -> Result<LockName, Code>
        ensures open { IfOk result (λ name. may_lock (standing_of self.now).settings (standing_of self.now).account name ≡ true) }
        ensures does { Evaluates S.NodeStore (λ i. variables.named_lock i.account (pending_view pending.entry)) (λ name. name) self.now result self.now }
    {
        match pending {
            Pending::Local(name, values) => self.local_lock(alloc, name, values),
            Pending::Global(node) => self.global_lock(alloc, &node),
            Pending::Naked(_) => Err(Code::Zsyntax),
        }
    }

    // The lock of a name without `^`, which is the account's own.
    fn local_lock(
        &self,
        alloc: Global,
        name: VariableName,
        values: Values,
    ) -> Result<LockName, Code>
        ensures open { IfOk result (λ name. may_lock (standing_of self.now).settings (standing_of self.now).account name ≡ true) }
        ensures does { Evaluates S.NodeStore (λ i. variables.named_lock i.account (variables.of_local (name_view name.entry) values))
            (λ name. name) self.now result self.now }
    {
        let node = self.own_node(alloc, name, values);
        if !node.is_of_account() {
            // the id is from other settings, which a world never hands in
            return Err(Code::Zmem);
        }
        let key = node.key(alloc)?;
        Ok(LockName { key, global: false })
    }

    // The lock of a global. Who may write the global may take its lock.
    fn global_lock(&self, alloc: Global, node: &GlobalReference) -> Result<LockName, Code>
        ensures open { IfOk result (λ name. may_lock (standing_of self.now).settings (standing_of self.now).account name ≡ true) }
        ensures does { Evaluates S.NodeStore (λ i. variables.named_lock i.account (variables.of_global node.now)) (λ name. name) self.now result self.now }
    {
        self.check(Mode::Write, node)?;
        let key = node.key(alloc)?;
        Ok(LockName { key, global: true })
    }

    // The name of the lock of a name without `^`, which is kept.
    fn own_lockable(
        &self,
        alloc: Global,
        name: VariableName,
        values: Values,
    ) -> Result<Lockable, Code>
        ensures { Evaluates S.NodeStore (λ i. variables.named_lock i.account (variables.of_local (name_view name.entry) values))
            (λ name. name) self.now result self.now }
    {
        let node = self.own_node(alloc, name, values);
        if !node.is_of_account() {
            // the id is from other settings, which a world never hands in
            return Err(Code::Zmem);
        }
        lockable_at(alloc, false, &node)
    }

    // The name of the lock of a global, which is kept.
    fn global_lockable(&self, alloc: Global, named: &GlobalReference) -> Result<Lockable, Code>
        ensures { Evaluates S.NodeStore (λ i. variables.named_lock i.account (variables.of_global named.now)) (λ name. name) self.now result self.now }
    {
        self.check(Mode::Write, named)?;
        lockable_at(alloc, true, named)
    }

    /// The name of the lock of a reference that LOCK takes or gives back later, once all of it is evaluated.
    ///
    /// # Errors
    ///
    /// Those of `lock_name` that come after the values that the reference has to evaluate.
    pub fn lockable(&self, alloc: Global, pending: Pending) -> Result<Lockable, Code>
        ensures { Evaluates S.NodeStore (λ i. variables.named_lock i.account (pending_view pending.entry)) (λ name. name) self.now result self.now }
    {
        match pending {
            Pending::Local(name, values) => self.own_lockable(alloc, name, values),
            Pending::Global(node) => self.global_lockable(alloc, &node),
            Pending::Naked(_) => Err(Code::Zsyntax),
        }
    }

    // Whether the line's account may lock a name.
    fn may_lock(&self, lockable: &Lockable) -> bool
        ensures { result ≡ may_lock (standing_of self.now).settings (standing_of self.now).account lockable.now }
    {
        let account = lockable.account.as_bytes();
        if lockable.global {
            return self.settings.may(self.account, account, lockable.name.as_bytes(), Mode::Write);
        }
        account == self.settings.name_of(self.account)
    }

    /// Whether the line's account may lock each of these names. Functions were called since they were checked, so that is asked once more.
    pub fn may_lock_all(&self, all: &[Lockable]) -> bool
        ensures { result ≡ list_all (may_lock (standing_of self.now).settings (standing_of self.now).account) all.now }
    {
        for lockable in all {
            if !self.may_lock(lockable) {
                return false;
            }
        }
        true
    }
}

// SPDX-License-Identifier: Apache-2.0
// The variables of a scope by their names.
ghost use Rattle.std.specs.Prelude.{◌≡◌, ◌<◌, [], not, nat_eq, None, MatchOption, OnOk, OnErr, option_map};
ghost use Rattle.std.specs.Cmp.Lexicographic.{pointwise};
ghost use Rattle.std.specs.FinMap.{get, insert, retain_keys, empty};
ghost use Rattle.indexmap.specs.IndexMap.{get as find, IsUnique};
ghost use Rattle.mkey.specs.Front.{AreSubs};
ghost use Rattle.mkey.specs.SubsKey.{behind_below};
ghost use Rattle.mlocal.specs.Table.{tree_at, kill_at, StandsAt};
ghost use Rattle.mspec.specs.Scopes.{is_among, stays};

use crate::level::{Level, stays};
use crate::places::{SLOTS, slot_of};
use crate::scope::is_among;
use crate::variable::Variable;
use indexmap::IndexMap;
use mkey::SubsKey;
use mnum::Name;
use mvalue::Value;
use std::alloc::{AllocError, Global};
use std::marker::Model;

// The variables of a scope by their names. Contracts see it as the finite map from names to trees.
pub(crate) struct Table {
    variables: IndexMap<Name, Variable>,
    // by the slot of a name: the index in the map of the name with that slot that was set last, or moved by a KILL. It is looked at
    // first, and passed over if another name is there, or none
    hints: [u16; SLOTS],
}

// Written out, so that dropping it is one call, which is proved once.
impl Drop for Table {
    fn drop(self) {
        let Table {
            variables: _,
            hints: _,
        } = self;
    }
}

impl Model for Table {
    ghost use Rattle.mlocal.specs.ScopeCode.{tree_code};
    ghost use Rattle.std.specs.Cmp.Lexicographic.{slice_cmp};
    ghost use Rattle.std.specs.Coded.{coded_ℕ, coded_list};
    ghost use Rattle.std.specs.FinMap.{FinMap, code};
    ghost use Rattle.std.specs.Ordering.{nat_cmp};
    ghost use Rattle.mspec.specs.Maps.{hash_map_of};
    ghost use Rattle.mspec.specs.Trees.{Tree};

    ghost Value = { FinMap (slice_cmp nat_cmp) Tree };

    ghost coded = { code (coded_list coded_ℕ) tree_code };

    ghost view = { λ t. hash_map_of (λ tree. tree) t.variables };
}

impl Table {
    // No variables. Takes no memory.
    pub(crate) fn new(alloc: Global) -> Table
        ensures { result ≡ empty }
    {
        Table {
            variables: IndexMap::new(alloc),
            hints: [0; SLOTS],
        }
    }

    // The variable of a name. The slot is a name's, by which the hint is found; another one's finds the same variable.
    #[inline(always)]
    #[tactic(auto, using(crate::proofs::Tables::read))]
    pub(crate) fn get(&self, name: &Name, slot: usize) -> Option<&Variable>
        requires { slot < SLOTS }
        ensures { option_map (λ variable. variable.now) result ≡ get self.now name.now }
    {
        match index_of(&self.variables, self.hints[slot], name) {
            None => None,
            Some(index) => Some(&self.variables[index]),
        }
    }

    // Gives a node a value. If memory runs out, the variables are as they were.
    pub(crate) fn set(
        &mut self,
        alloc: Global,
        name: &Name,
        key: SubsKey,
        value: Value,
    ) -> Result<(), AllocError>
        requires { AreSubs key }
        ensures ok { OnOk result (self.new ≡ insert self.old name.now (insert (tree_at self.old name.now) key value)) }
        ensures err { OnErr result (self.new ≡ self.old) }
    {
        let slot = slot_of(name);
        match index_of(&self.variables, self.hints[slot], name) {
            Some(index) => {
                self.hints[slot] = hint_of(index);
                self.variables[index].set(key, value)
            }
            None => {
                let mut variable = Variable::new(alloc);
                variable.set(key, value)?;
                self.add(name, variable)
            }
        }
    }

    // Gives a variable without subscripts a value. If memory runs out, the variables are as they were.
    #[inline(always)]
    pub(crate) fn set_own(
        &mut self,
        alloc: Global,
        name: &Name,
        slot: usize,
        value: Value,
    ) -> Result<(), AllocError>
        requires { slot < SLOTS }
        ensures ok { OnOk result (self.new ≡ insert self.old name.now (insert (tree_at self.old name.now) [] value)) }
        ensures err { OnErr result (self.new ≡ self.old) }
    {
        match index_of(&self.variables, self.hints[slot], name) {
            Some(index) => {
                self.hints[slot] = hint_of(index);
                self.variables[index].set_own(value);
                Ok(())
            }
            None => {
                let mut variable = Variable::new(alloc);
                variable.set_own(value);
                self.add(name, variable)
            }
        }
    }

    // Adds the variable of a name that has none. If memory runs out, the variables are as they were.
    #[tactic(auto, using(crate::proofs::Tables::added))]
    fn add(&mut self, name: &Name, variable: Variable) -> Result<(), AllocError>
        ensures ok { OnOk result (self.new ≡ insert self.old name.now variable) }
        ensures err { OnErr result (self.new ≡ self.old) }
    {
        let (index, _) = self.variables.insert_full(name.copy()?, variable)?;
        self.hints[slot_of(name)] = hint_of(index);
        Ok(())
    }

    // Takes away the texts of a node and of the nodes below it, where `end` is the bound after them, and drops the name if no text
    // is left; the last name then moves to its index. If memory runs out, the variables are as they were.
    pub(crate) fn kill(
        &mut self,
        alloc: Global,
        name: &Name,
        key: &SubsKey,
        end: &SubsKey,
    ) -> Result<(), AllocError>
        requires { end.now ≡ behind_below key.now }
        ensures ok { OnOk result (self.new ≡ kill_at name.now key.now (get self.old name.now) self.old) }
        ensures err { OnErr result (self.new ≡ self.old) }
    {
        let Some(index) = index_of(&self.variables, self.hints[slot_of(name)], name) else {
            return Ok(());
        };
        let variable = &mut self.variables[index];
        variable.kill(alloc, key, end)?;
        if variable.is_bare() {
            drop(self.variables.swap_remove_index(index));
            self.hint_at(index);
        }
        Ok(())
    }

    // Sets the hint of the name at this index to the index.
    fn hint_at(&mut self, index: usize)
        ensures { self.new ≡ self.old }
    {
        if let Some((name, _)) = self.variables.get_index(index) {
            let slot = slot_of(name);
            self.hints[slot] = hint_of(index);
        }
    }

    // Takes away the variables to which none of these names leads through the levels above, but some name. Takes no memory.
    pub(crate) fn keep_spared(&mut self, names: &[Name], above: &[Level])
        ensures { self.new ≡ retain_keys self.old (stays names.now above.now) }
    {
        self.variables.retain(
            |name: &Name, tree: &mut Variable| -> bool
                ensures { (result ≡ stays names.entry.now above.entry.now name.now) × (tree.new ≡ tree.old) }
            { stays(names, above, name) },
        );
    }

    // Takes away the variables of these names. Takes no memory.
    pub(crate) fn drop_names(&mut self, names: &[Name])
        ensures { self.new ≡ retain_keys self.old (λ n. not (is_among names.now n)) }
    {
        self.variables.retain(
            |name: &Name, tree: &mut Variable| -> bool
                ensures { (result ≡ not (is_among names.entry.now name.now)) × (tree.new ≡ tree.old) }
            { !is_among(name, names) },
        );
    }

    // Takes away the variables of all names but these. Takes no memory.
    pub(crate) fn keep_names(&mut self, names: &[Name])
        ensures { self.new ≡ retain_keys self.old (is_among names.now) }
    {
        self.variables.retain(
            |name: &Name, tree: &mut Variable| -> bool
                ensures { (result ≡ is_among names.entry.now name.now) × (tree.new ≡ tree.old) }
            { is_among(name, names) },
        );
    }
}

// The hint that a name is at this index. If there is no hint for the index, any other will do.
fn hint_of(index: usize) -> u16 {
    (index % 65536) as u16
}

// Where in the map a name stands: at the hint, or else where the map finds it.
#[inline(always)]
fn index_of(variables: &IndexMap<Name, Variable>, hint: u16, name: &Name) -> Option<usize>
    ensures index { MatchOption result (find (pointwise nat_eq) variables.now name.now ≡ None) (StandsAt variables.now name.now) }
    ensures unique { IsUnique (pointwise nat_eq) variables.now }
{
    let hinted = usize::from(hint);
    // the length is what says that each name occurs once
    let _count = variables.len();
    if let Some((key, _)) = variables.get_index(hinted) {
        if key == name {
            return Some(hinted);
        }
    }
    index_by_hash(variables, name)
}

// Where the map finds a name. Not inlined, so that a lookup by a hint stays short.
#[inline(never)]
#[tactic(auto, using(crate::proofs::Tables::found_there))]
fn index_by_hash(variables: &IndexMap<Name, Variable>, name: &Name) -> Option<usize>
    ensures { MatchOption result (find (pointwise nat_eq) variables.now name.now ≡ None) (StandsAt variables.now name.now) }
{
    variables.get_index_of(name)
}

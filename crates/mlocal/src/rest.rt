// SPDX-License-Identifier: Apache-2.0
// The variables of a scope whose names it has as all but some.
ghost use Rattle.std.specs.Prelude.{◌≡◌, [], not, IfOk, OnOk, OnErr, option_map};
ghost use Rattle.std.specs.FinMap.{get, insert, retain_keys, empty};
ghost use Rattle.mkey.specs.Front.{AreSubs};
ghost use Rattle.mkey.specs.SubsKey.{behind_below};
ghost use Rattle.mlocal.specs.Table.{tree_at, kill_at};
ghost use Rattle.mspec.specs.Scopes.{is_among, stays};

use crate::level::Level;
use crate::places::slot_of;
use crate::table::Table;
use crate::variable::Variable;
use mkey::SubsKey;
use mnum::Name;
use mvalue::Value;
use std::alloc::{AllocError, Global};
use std::marker::Model;

// A table that takes memory from its first variable on: the scope of a level has none of these, but after a NEW of all but some.
// Contracts see it as the table.
pub(crate) struct Rest {
    table: Option<Box<Table>>,
}

// Written out, so that dropping it is one call, which is proved once.
impl Drop for Rest {
    fn drop(self) {
        let Rest { table: _ } = self;
    }
}

impl Model for Rest {
    ghost use Rattle.std.specs.Prelude.{option_map, unwrap_or};
    ghost use Rattle.std.specs.Coded.{coded_ℕ, coded_list};
    ghost use Rattle.std.specs.FinMap.{code, empty};
    ghost use Rattle.mlocal.specs.ScopeCode.{tree_code};
    ghost use Rattle.mlocal.specs.Table.{NamedTrees};

    ghost Value = { NamedTrees };

    ghost coded = { code (coded_list coded_ℕ) tree_code };

    ghost view = { λ r. unwrap_or (option_map {U = NamedTrees} (λ table. table.value) r.table) empty };
}

impl Rest {
    // No variables. Takes no memory.
    pub(crate) fn new() -> Rest
        ensures { result ≡ empty }
    {
        Rest { table: None }
    }

    // The variable of a name.
    pub(crate) fn get(&self, name: &Name) -> Option<&Variable>
        ensures { option_map (λ variable. variable.now) result ≡ get self.now name.now }
    {
        match &self.table {
            None => None,
            Some(table) => table.get(name, slot_of(name)),
        }
    }

    // Gives a node a value. If memory runs out, the variables are as they were.
    pub(crate) fn set(
        &mut self,
        alloc: Global,
        name: &Name,
        key: SubsKey,
        value: Value,
    ) -> Result<(), AllocError>
        requires { AreSubs key }
        ensures ok { OnOk result (self.new ≡ insert self.old name.now (insert (tree_at self.old name.now) key value)) }
        ensures err { OnErr result (self.new ≡ self.old) }
    {
        match &mut self.table {
            None => {
                let mut table = made(alloc)?;
                table.set(alloc, name, key, value)?;
                self.table = Some(table);
                Ok(())
            }
            Some(table) => table.set(alloc, name, key, value),
        }
    }

    // Gives a variable without subscripts a value. If memory runs out, the variables are as they were.
    pub(crate) fn set_own(
        &mut self,
        alloc: Global,
        name: &Name,
        value: Value,
    ) -> Result<(), AllocError>
        ensures ok { OnOk result (self.new ≡ insert self.old name.now (insert (tree_at self.old name.now) [] value)) }
        ensures err { OnErr result (self.new ≡ self.old) }
    {
        match &mut self.table {
            None => {
                let mut table = made(alloc)?;
                table.set_own(alloc, name, slot_of(name), value)?;
                self.table = Some(table);
                Ok(())
            }
            Some(table) => table.set_own(alloc, name, slot_of(name), value),
        }
    }

    // Takes away the texts of a node and of the nodes below it, where `end` is the bound after them, and drops the name if no text
    // is left. If memory runs out, the variables are as they were.
    pub(crate) fn kill(
        &mut self,
        alloc: Global,
        name: &Name,
        key: &SubsKey,
        end: &SubsKey,
    ) -> Result<(), AllocError>
        requires { end.now ≡ behind_below key.now }
        ensures ok { OnOk result (self.new ≡ kill_at name.now key.now (get self.old name.now) self.old) }
        ensures err { OnErr result (self.new ≡ self.old) }
    {
        let Some(table) = &mut self.table else {
            return Ok(());
        };
        table.kill(alloc, name, key, end)
    }

    // Takes away the variables to which none of these names leads through the levels above, but some name. Takes no memory.
    pub(crate) fn keep_spared(&mut self, names: &[Name], above: &[Level])
        ensures { self.new ≡ retain_keys self.old (stays names.now above.now) }
    {
        let Some(table) = &mut self.table else {
            return;
        };
        table.keep_spared(names, above);
    }

    // Takes away the variables of these names. Takes no memory.
    pub(crate) fn drop_names(&mut self, names: &[Name])
        ensures { self.new ≡ retain_keys self.old (λ n. not (is_among names.now n)) }
    {
        let Some(table) = &mut self.table else {
            return;
        };
        table.drop_names(names);
    }

    // Takes away the variables of all names but these. Takes no memory.
    pub(crate) fn keep_names(&mut self, names: &[Name])
        ensures { self.new ≡ retain_keys self.old (is_among names.now) }
    {
        let Some(table) = &mut self.table else {
            return;
        };
        table.keep_names(names);
    }
}

// A table without variables, in memory of its own. Rare and large, so it is not inlined.
#[cold]
#[inline(never)]
fn made(alloc: Global) -> Result<Box<Table>, AllocError>
    ensures { IfOk result (λ table. table.value ≡ empty) }
{
    Ok(Box::new(alloc, Table::new(alloc))?)
}

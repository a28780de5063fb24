// SPDX-License-Identifier: Apache-2.0
// One scope.
ghost use Rattle.std.specs.Prelude.{◌≡◌, [], IfOk, OnOk, OnErr, Some, ◌==◌, length, option_map, not, unwrap_or};
ghost use Rattle.std.specs.FinMap.{get, insert, empty};
ghost use Rattle.std.specs.List.{filter, list_any};
ghost use Rattle.std.specs.Map.{lookup};
ghost use Rattle.mkey.specs.Front.{AreSubs};
ghost use Rattle.mkey.specs.SubsKey.{behind_below};
ghost use Rattle.mspec.specs.Scopes.{entered, has, tree_in, with_tree, is_among, is_other, hide, hide_others, kill_in, emptied, leads_to, passed, stays};
ghost use Rattle.mspec.specs.Scopes.{common as common_of, formals};
ghost use Rattle.mspec.specs.Trees.{text_eq};
ghost use Rattle.mlocal.specs.Bindings.{bindings_of};
ghost use Rattle.mlocal.specs.Home.{IsRaised};
ghost use Rattle.mlocal.specs.Named.{IsFound, index_in, without_texts};

use crate::binding::Binding;
use crate::level::{Level, leads_to};
use crate::named::{add_names, bind_all, index_of, keep_names, keep_spared};
use crate::places::{Places, raise_all, raise_links, raise_named};
use crate::rest::Rest;
use crate::variable::Variable;
use mkey::SubsKey;
use mnum::Name;
use mvalue::Value;
use std::alloc::{AllocError, Global};
use std::marker::Model;

// The names that NEW or a formal list gave a scope, with their variables; the names that it lacks if it has all but some, and the
// variables of the rest; and its links: a name with the one that the scopes below have in its place. Contracts see it as the scope
// of the definitions.
pub(crate) struct Scope {
    // the first entry of a name counts, and a variable without a text counts as none
    named: Vec<(Name, Variable)>,
    others: Option<Vec<Name>>,
    rest: Rest,
    links: Vec<(Name, Name)>,
}

// Written out, so that dropping it is one call, which is proved once.
impl Drop for Scope {
    fn drop(self) {
        let Scope {
            named: _,
            others: _,
            rest: _,
            links: _,
        } = self;
    }
}

impl Model for Scope {
    ghost use Rattle.std.specs.Prelude.{option_map};
    ghost use Rattle.std.specs.Map.{keys_of};
    ghost use Rattle.mlocal.specs.Named.{trees_of};
    ghost use Rattle.mlocal.specs.ScopeCode.{scope_code};
    ghost use Rattle.mspec.specs.Scopes.{Scope};

    ghost Value = { Scope };

    ghost coded = { scope_code };

    ghost view = { λ s. record {
      names = keys_of s.named.items;
      others = option_map (λ names. names.items) s.others;
      trees = trees_of
          s.named.items s.rest;
      links = s.links.items;
    } };
}

// Whether a name is one of these.
pub(crate) fn is_among(name: &Name, names: &[Name]) -> bool
    ensures { result ≡ is_among names.now name.now }
{
    names.iter().any(|n| name == n)
}

impl Scope {
    // A scope that has no name. Takes no memory.
    pub(crate) fn new(alloc: Global) -> Scope
        ensures { result ≡ entered }
    {
        Scope {
            named: Vec::new(alloc),
            others: None,
            rest: Rest::new(),
            links: Vec::new(alloc),
        }
    }

    // The scope of a level with these formal parameters.
    pub(crate) fn bound(alloc: Global, bindings: Vec<(Name, Binding)>) -> Result<Scope, AllocError>
        ensures { IfOk result (λ scope. scope ≡ formals (bindings_of bindings.items) entered) }
    {
        let mut named = Vec::new(alloc);
        let mut links = Vec::new(alloc);
        bind_all(alloc, &mut named, &mut links, bindings)?;
        Ok(Scope {
            named,
            others: None,
            rest: Rest::new(),
            links,
        })
    }

    // Whether it has the name by itself.
    pub(crate) fn has(&self, name: &Name) -> bool
        ensures { result ≡ has self.now name.now }
    {
        self.find(name).is_some()
    }

    // The index of a name that it has by itself: of its first entry, or how many entries there are if it has none. Not inlined, so
    // that the walk over levels, most of which have no name, stays short.
    #[inline(never)]
    pub(crate) fn find(&self, name: &Name) -> Option<usize>
        ensures { IsFound self.now name.now result }
    {
        let index = self.index(name);
        if index < self.named.len() {
            return Some(index);
        }
        if self.is_other(name) {
            Some(index)
        } else {
            None
        }
    }

    // The index of a name's first entry, or how many entries there are if it has none.
    #[inline(always)]
    fn index(&self, name: &Name) -> usize
        ensures { result ≡ index_in self.now name.now }
    {
        index_of(self.named.as_slice(), name)
    }

    // Whether it has the name as one of all but some.
    fn is_other(&self, name: &Name) -> bool
        ensures { result ≡ is_other self.now.others name.now }
    {
        match &self.others {
            None => false,
            Some(names) => !is_among(name, names.as_slice()),
        }
    }

    // The name that the scopes below have in place of one, if that is another one. Not inlined, for the same reason.
    #[inline(never)]
    pub(crate) fn link(&self, name: &Name) -> Option<&Name>
        ensures { option_map (λ other. other.now) result ≡ lookup (text_eq name.now) self.now.links }
    {
        for link in self.links.as_slice() {
            if name == &link.0 {
                return Some(&link.1);
            }
        }
        None
    }

    // Whether it has no links.
    #[inline(always)]
    pub(crate) fn is_unlinked(&self) -> bool
        ensures { result ≡ (length self.now.links == 0) }
    {
        self.links.is_empty()
    }

    // Raises the places of its names, and of those of its links, to this one.
    pub(crate) fn raise(&self, places: &mut Places, place: usize)
        ensures { IsRaised (λ n. passed self.now n ≡ Some n) place places.old places.new }
    {
        if self.others.is_some() {
            raise_all(places, place);
            return;
        }
        raise_named(places, place, self.named.as_slice());
        raise_links(places, place, self.links.as_slice());
    }

    // Whether the name of a link leads to the variable of this name below these levels.
    pub(crate) fn links_to(&self, above: &[Level], name: &Name) -> bool
        ensures { result ≡ list_any (λ link. leads_to name.now above.now link.0) self.now.links }
    {
        self.links.iter().any(|link| leads_to(above, name, &link.0))
    }

    // The variable of a name.
    pub(crate) fn variable(&self, name: &Name) -> Option<&Variable>
        ensures { unwrap_or (option_map (λ variable. variable.now) result) empty ≡ tree_in self.now name.now }
    {
        self.variable_at(name, self.index(name))
    }

    // The variable of a name whose index this is.
    #[inline(always)]
    pub(crate) fn variable_at(&self, name: &Name, index: usize) -> Option<&Variable>
        requires { index ≡ index_in self.now name.now }
        ensures { unwrap_or (option_map (λ variable. variable.now) result) empty ≡ tree_in self.now name.now }
    {
        if index < self.named.len() {
            return Some(&self.named[index].1);
        }
        self.rest.get(name)
    }

    // Gives a node a value. If memory runs out, the scope is as it was.
    #[inline(always)]
    pub(crate) fn set(
        &mut self,
        alloc: Global,
        name: &Name,
        key: SubsKey,
        value: Value,
    ) -> Result<(), AllocError>
        requires { AreSubs key }
        ensures ok { OnOk result (self.new ≡ with_tree name.now (insert (tree_in self.old name.now) key value) self.old) }
        ensures err { OnErr result (self.new ≡ self.old) }
        ensures others { self.new.others ≡ self.old.others }
    {
        let index = self.index(name);
        self.set_at(alloc, name, index, key, value)
    }

    // The same, of a name whose index this is.
    #[inline(always)]
    pub(crate) fn set_at(
        &mut self,
        alloc: Global,
        name: &Name,
        index: usize,
        key: SubsKey,
        value: Value,
    ) -> Result<(), AllocError>
        requires subs { AreSubs key }
        requires index { index ≡ index_in self.old name.now }
        ensures ok { OnOk result (self.new ≡ with_tree name.now (insert (tree_in self.old name.now) key value) self.old) }
        ensures err { OnErr result (self.new ≡ self.old) }
        ensures others { self.new.others ≡ self.old.others }
    {
        if index < self.named.len() {
            return self.named[index].1.set(key, value);
        }
        self.rest.set(alloc, name, key, value)
    }

    // Gives a variable without subscripts a value. If memory runs out, the scope is as it was.
    #[inline(always)]
    pub(crate) fn set_own(
        &mut self,
        alloc: Global,
        name: &Name,
        value: Value,
    ) -> Result<(), AllocError>
        ensures ok { OnOk result (self.new ≡ with_tree name.now (insert (tree_in self.old name.now) [] value) self.old) }
        ensures err { OnErr result (self.new ≡ self.old) }
        ensures others { self.new.others ≡ self.old.others }
    {
        let index = self.index(name);
        self.set_own_at(alloc, name, index, value)
    }

    // The same, of a name whose index this is.
    #[inline(always)]
    pub(crate) fn set_own_at(
        &mut self,
        alloc: Global,
        name: &Name,
        index: usize,
        value: Value,
    ) -> Result<(), AllocError>
        requires { index ≡ index_in self.old name.now }
        ensures ok { OnOk result (self.new ≡ with_tree name.now (insert (tree_in self.old name.now) [] value) self.old) }
        ensures err { OnErr result (self.new ≡ self.old) }
        ensures others { self.new.others ≡ self.old.others }
    {
        if index < self.named.len() {
            self.named[index].1.set_own(value);
            return Ok(());
        }
        self.rest.set_own(alloc, name, value)
    }

    // Takes away the texts of a node and of the nodes below it, where `end` is the bound after them, and drops the variable if no
    // text is left. If memory runs out, the scope is as it was.
    pub(crate) fn kill(
        &mut self,
        alloc: Global,
        name: &Name,
        key: &SubsKey,
        end: &SubsKey,
    ) -> Result<(), AllocError>
        requires { end.now ≡ behind_below key.now }
        ensures ok { OnOk result (self.new ≡ kill_in name.now key.now (get self.old.trees name.now) self.old) }
        ensures err { OnErr result (self.new ≡ self.old) }
    {
        let index = self.index(name);
        if index < self.named.len() {
            return self.named[index].1.kill(alloc, key, end);
        }
        self.rest.kill(alloc, name, key, end)
    }

    // Takes away the texts of the variables to which none of these names leads through the levels above, but some name. Takes no
    // memory.
    pub(crate) fn keep_spared(&mut self, names: &[Name], above: &[Level])
        ensures { self.new ≡ emptied (stays names.now above.now) self.old }
    {
        keep_spared(&mut self.named, names, above);
        self.rest.keep_spared(names, above);
    }

    // Those of the names that it does not have yet, without texts.
    fn new_names(&self, alloc: Global, names: &[Name]) -> Result<Vec<(Name, Variable)>, AllocError>
        ensures { IfOk result (λ fresh. fresh.items ≡ without_texts (filter (λ n. not (has self.now n)) names.now)) }
    {
        let mut fresh = Vec::new(alloc);
        for name in names {
            if !self.has(name) {
                fresh.push((name.copy()?, Variable::new(alloc)))?;
            }
        }
        Ok(fresh)
    }

    // Gives the scope these names too, with empty trees. If memory runs out, the scope is as it was.
    pub(crate) fn hide(&mut self, alloc: Global, names: &[Name]) -> Result<(), AllocError>
        ensures ok { OnOk result (self.new ≡ hide names.now self.old) }
        ensures err { OnErr result (self.new ≡ self.old) }
        ensures others { self.new.others ≡ self.old.others }
    {
        let fresh = self.new_names(alloc, names)?;
        add_names(&mut self.named, fresh, names)?;
        self.rest.drop_names(names);
        Ok(())
    }

    // Gives the scope all names but these, and those of these that it had. The trees of the others are empty.
    pub(crate) fn hide_others(&mut self, names: Vec<Name>)
        ensures { self.new ≡ hide_others names.items self.old }
    {
        keep_names(&mut self.named, names.as_slice());
        self.rest.keep_names(names.as_slice());
        let others = left_out(names, &self.others);
        self.others = Some(others);
    }
}

// The names that are among the old ones too, if there are old ones.
fn left_out(names: Vec<Name>, old: &Option<Vec<Name>>) -> Vec<Name>
    ensures { result.items ≡ common_of names.items (option_map (λ old. old.items) old.now) }
{
    match old {
        None => names,
        Some(old) => common(names, old.as_slice()),
    }
}

// The names that are among the old ones too.
fn common(mut names: Vec<Name>, old: &[Name]) -> Vec<Name>
    ensures { result.items ≡ filter (is_among old.now) names.items }
{
    names.retain(
        |name: &Name| -> bool
            ensures { result ≡ is_among old.entry.now name.now }
        { is_among(name, old) },
    );
    names
}

// SPDX-License-Identifier: Apache-2.0
// The scope of a level.
ghost use Rattle.std.specs.Prelude.{◌≡◌, ◌≢◌, ◌-◌, ◌<◌, ◌≤◌, [], IfOk, IfSome, OnOk, OnErr, Some, ◌==◌, length, option_map, unwrap_or};
ghost use Rattle.std.specs.FinMap.{get, insert, empty};
ghost use Rattle.std.specs.List.{list_any};
ghost use Rattle.std.specs.Map.{lookup};
ghost use Rattle.mkey.specs.Front.{AreSubs};
ghost use Rattle.mkey.specs.SubsKey.{behind_below};
ghost use Rattle.mspec.specs.Scopes.{entered, has, tree_in, with_tree, hide, hide_others, kill_in, emptied, leads_to, passed, ways, stays, formals};
ghost use Rattle.mspec.specs.Trees.{text_eq};
ghost use Rattle.mlocal.specs.Bindings.{bindings_of};
ghost use Rattle.mlocal.specs.Named.{IsFound, index_in};
ghost use Rattle.mlocal.specs.Home.{AreFree, IsFree, IsHome, IsRaised, IsUnlinkedHome, slot as slot_in};

use crate::binding::Binding;
use crate::places::{Places, SLOTS, slot_of};
use crate::scope::Scope;
use crate::variable::Variable;
use mkey::SubsKey;
use mnum::Name;
use mvalue::Value;
use std::alloc::{AllocError, Global};
use std::marker::Model;

// The scope of a level. It takes memory from the level's first NEW on: most levels have none, and opening and closing one costs
// next to nothing. Contracts see it as the scope.
pub(crate) struct Level {
    scope: Option<Box<Scope>>,
}

// Written out, so that dropping it is one call, which is proved once.
impl Drop for Level {
    fn drop(self) {
        let Level { scope: _ } = self;
    }
}

impl Model for Level {
    ghost use Rattle.std.specs.Prelude.{option_map, unwrap_or};
    ghost use Rattle.mlocal.specs.ScopeCode.{scope_code};
    ghost use Rattle.mspec.specs.Scopes.{Scope, entered};

    ghost Value = { Scope };

    ghost coded = { scope_code };

    ghost view = { λ l. unwrap_or (option_map (λ scope. scope.value) l.scope) entered };
}

impl Level {
    // A scope that has no name. Takes no memory.
    pub(crate) fn new() -> Level
        ensures { result ≡ entered }
    {
        Level { scope: None }
    }

    // The scope of a level with formal parameters.
    pub(crate) fn bound(alloc: Global, bindings: Vec<(Name, Binding)>) -> Result<Level, AllocError>
        ensures { IfOk result (λ level. level ≡ formals (bindings_of bindings.items) entered) }
    {
        let scope = Scope::bound(alloc, bindings)?;
        Ok(Level {
            scope: Some(Box::new(alloc, scope)?),
        })
    }

    // Whether it has the name by itself.
    pub(crate) fn has(&self, name: &Name) -> bool
        ensures { result ≡ has self.now name.now }
    {
        match &self.scope {
            None => false,
            Some(scope) => scope.has(name),
        }
    }

    // The index of a name that it has by itself: of its first entry, or how many entries there are if it has none.
    fn find(&self, name: &Name) -> Option<usize>
        ensures { IsFound self.now name.now result }
    {
        match &self.scope {
            None => None,
            Some(scope) => scope.find(name),
        }
    }

    // The name that the scopes below have in place of one, if that is another one.
    pub(crate) fn link(&self, name: &Name) -> Option<&Name>
        ensures { option_map (λ other. other.now) result ≡ lookup (text_eq name.now) self.now.links }
    {
        match &self.scope {
            None => None,
            Some(scope) => scope.link(name),
        }
    }

    // Whether it has no links.
    #[inline(always)]
    fn is_unlinked(&self) -> bool
        ensures { result ≡ (length self.now.links == 0) }
    {
        match &self.scope {
            None => true,
            Some(scope) => scope.is_unlinked(),
        }
    }

    // Raises the places of its names, and of those of its links, to this one.
    pub(crate) fn raise(&self, places: &mut Places, place: usize)
        ensures { IsRaised (λ n. passed self.now n ≡ Some n) place places.old places.new }
    {
        if let Some(scope) = &self.scope {
            scope.raise(places, place);
        }
    }

    // Whether the name of a link leads to the variable of this name below these levels.
    fn links_to(&self, above: &[Level], name: &Name) -> bool
        ensures { result ≡ list_any (λ link. leads_to name.now above.now link.0) self.now.links }
    {
        match &self.scope {
            None => false,
            Some(scope) => scope.links_to(above, name),
        }
    }

    // The variable of a name.
    pub(crate) fn variable(&self, name: &Name) -> Option<&Variable>
        ensures { unwrap_or (option_map (λ variable. variable.now) result) empty ≡ tree_in self.now name.now }
    {
        match &self.scope {
            None => None,
            Some(scope) => scope.variable(name),
        }
    }

    // The variable of a name whose index this is.
    #[inline(always)]
    pub(crate) fn variable_at(&self, name: &Name, index: usize) -> Option<&Variable>
        requires { index ≡ index_in self.now name.now }
        ensures { unwrap_or (option_map (λ variable. variable.now) result) empty ≡ tree_in self.now name.now }
    {
        match &self.scope {
            None => None,
            Some(scope) => scope.variable_at(name, index),
        }
    }

    // Gives a node a value. If memory runs out, the scope is as it was.
    pub(crate) fn set(
        &mut self,
        alloc: Global,
        name: &Name,
        key: SubsKey,
        value: Value,
    ) -> Result<(), AllocError>
        requires entered { self.old ≢ entered }
        requires subs { AreSubs key }
        ensures ok { OnOk result (self.new ≡ with_tree name.now (insert (tree_in self.old name.now) key value) self.old) }
        ensures err { OnErr result (self.new ≡ self.old) }
    {
        match &mut self.scope {
            None => unreachable!(),
            Some(scope) => scope.set(alloc, name, key, value),
        }
    }

    // The same, of a name whose index this is.
    #[inline(always)]
    pub(crate) fn set_at(
        &mut self,
        alloc: Global,
        name: &Name,
        index: usize,
        key: SubsKey,
        value: Value,
    ) -> Result<(), AllocError>
        requires entered { self.old ≢ entered }
        requires subs { AreSubs key }
        requires index { index ≡ index_in self.old name.now }
        ensures ok { OnOk result (self.new ≡ with_tree name.now (insert (tree_in self.old name.now) key value) self.old) }
        ensures err { OnErr result (self.new ≡ self.old) }
    {
        match &mut self.scope {
            None => unreachable!(),
            Some(scope) => scope.set_at(alloc, name, index, key, value),
        }
    }

    // Gives a variable without subscripts a value. If memory runs out, the scope is as it was.
    pub(crate) fn set_own(
        &mut self,
        alloc: Global,
        name: &Name,
        value: Value,
    ) -> Result<(), AllocError>
        requires { self.old ≢ entered }
        ensures ok { OnOk result (self.new ≡ with_tree name.now (insert (tree_in self.old name.now) [] value) self.old) }
        ensures err { OnErr result (self.new ≡ self.old) }
    {
        match &mut self.scope {
            None => unreachable!(),
            Some(scope) => scope.set_own(alloc, name, value),
        }
    }

    // The same, of a name whose index this is.
    #[inline(always)]
    pub(crate) fn set_own_at(
        &mut self,
        alloc: Global,
        name: &Name,
        index: usize,
        value: Value,
    ) -> Result<(), AllocError>
        requires entered { self.old ≢ entered }
        requires index { index ≡ index_in self.old name.now }
        ensures ok { OnOk result (self.new ≡ with_tree name.now (insert (tree_in self.old name.now) [] value) self.old) }
        ensures err { OnErr result (self.new ≡ self.old) }
    {
        match &mut self.scope {
            None => unreachable!(),
            Some(scope) => scope.set_own_at(alloc, name, index, value),
        }
    }

    // Takes away the texts of a node and of the nodes below it, where `end` is the bound after them. If memory runs out, the scope
    // is as it was.
    pub(crate) fn kill(
        &mut self,
        alloc: Global,
        name: &Name,
        key: &SubsKey,
        end: &SubsKey,
    ) -> Result<(), AllocError>
        requires entered { self.old ≢ entered }
        requires end { end.now ≡ behind_below key.now }
        ensures ok { OnOk result (self.new ≡ kill_in name.now key.now (get self.old.trees name.now) self.old) }
        ensures err { OnErr result (self.new ≡ self.old) }
    {
        match &mut self.scope {
            None => unreachable!(),
            Some(scope) => scope.kill(alloc, name, key, end),
        }
    }

    // Takes away the texts of the variables to which none of these names leads through the levels above, but some name. Takes no
    // memory.
    #[tactic(auto, using(crate::proofs::Levels::none_emptied))]
    pub(crate) fn keep_spared(&mut self, names: &[Name], above: &[Level])
        ensures { self.new ≡ emptied (stays names.now above.now) self.old }
    {
        if let Some(scope) = &mut self.scope {
            scope.keep_spared(names, above);
        }
    }

    // Gives the scope these names too, with empty trees. If memory runs out, the scope is as it was.
    pub(crate) fn hide(&mut self, alloc: Global, names: &[Name]) -> Result<(), AllocError>
        ensures ok { OnOk result (self.new ≡ hide names.now self.old) }
        ensures err { OnErr result (self.new ≡ self.old) }
    {
        if let Some(scope) = &mut self.scope {
            return scope.hide(alloc, names);
        }
        let mut scope = boxed(alloc)?;
        scope.hide(alloc, names)?;
        self.scope = Some(scope);
        Ok(())
    }

    // Gives the scope all names but these, and those of these that it had. The trees of the others are empty. If memory runs out,
    // the scope is as it was.
    pub(crate) fn hide_others(&mut self, alloc: Global, names: Vec<Name>) -> Result<(), AllocError>
        ensures ok { OnOk result (self.new ≡ hide_others names.items self.old) }
        ensures err { OnErr result (self.new ≡ self.old) }
    {
        if let Some(scope) = &mut self.scope {
            scope.hide_others(names);
            return Ok(());
        }
        let mut scope = boxed(alloc)?;
        scope.hide_others(names);
        self.scope = Some(scope);
        Ok(())
    }
}

// A scope that has no name, in memory of its own, as the first NEW of a level needs it. Rare and large, so it is not inlined.
#[cold]
#[inline(never)]
fn boxed(alloc: Global) -> Result<Box<Scope>, AllocError>
    ensures { IfOk result (λ scope. scope.value ≡ entered) }
{
    Ok(Box::new(alloc, Scope::new(alloc))?)
}

// Raises the places of the names of the level on top, and of those of its links, to the end.
pub(crate) fn raise_top(levels: &[Level], places: &mut Places)
    ensures { IsRaised (IsFree (length levels.now - 1) levels.now) (length levels.now) places.old places.new }
{
    match levels.last() {
        None => {}
        Some(top) => top.raise(places, levels.len()),
    }
}

// From which place on no level has this name; from the end on, if nothing is known of them.
#[inline(always)]
fn start_of(levels: &[Level], places: Option<&Places>, name: &Name) -> usize
    requires { IfSome places (λ p. AreFree p.now levels.now) }
    ensures within { result ≤ length levels.now }
    ensures free { IsFree result levels.now name.now }
{
    match places {
        None => levels.len(),
        Some(known) => start_at(levels, known, name, slot_of(name)),
    }
}

// The same by the name's slot.
#[inline(always)]
fn start_at(levels: &[Level], places: &Places, _name: &Name, slot: usize) -> usize
    requires free { AreFree places.now levels.now }
    requires slot { slot ≡ slot_in _name.now }
    requires within { slot < SLOTS }
    ensures within { result ≤ length levels.now }
    ensures free { IsFree result levels.now _name.now }
{
    places[slot].min(levels.len())
}

// Where a name's variable is, as far as that shows without links.
pub(crate) enum UnlinkedHome {
    // below all of the levels
    Below,
    // at the level of this place, and where it is there: the index of the name's first entry, or how many entries there are if the
    // name has none
    At(usize, usize),
    // a level above it that may have the name has links: only `home` knows
    ByLink,
}

// Where a name's variable is if no level above it that may have the name has links, as nearly all have none: levels that have no name with
// the same slot cost nothing.
#[inline(always)]
pub(crate) fn unlinked_home(
    levels: &[Level],
    places: &Places,
    name: &Name,
    slot: usize,
) -> UnlinkedHome
    requires free { AreFree places.now levels.now }
    requires slot { slot ≡ slot_in name.now }
    requires within { slot < SLOTS }
    ensures { IsUnlinkedHome name.now levels.now result }
{
    let mut place = start_at(levels, places, name, slot);
    while place > 0 {
        place -= 1;
        if let Some(index) = levels[place].find(name) {
            return UnlinkedHome::At(place, index);
        }
        if !levels[place].is_unlinked() {
            return UnlinkedHome::ByLink;
        }
    }
    UnlinkedHome::Below
}

// Where a name's variable is: the place of its level, or none below all of these, and the name that it has there, if that is another
// one. A link goes on where levels may have its name.
pub(crate) fn home<'a>(
    levels: &'a [Level],
    places: Option<&Places>,
    name: &Name,
) -> (Option<usize>, Option<&'a Name>)
    requires { IfSome places (λ p. AreFree p.now levels.now) }
    ensures { IsHome name.now levels.now result.0 (unwrap_or (option_map (λ other. other.now) result.1) name.now) }
{
    let mut other = None;
    let mut place = start_of(levels, places, name);
    while place > 0 {
        place -= 1;
        let known = known_as(name, other);
        if levels[place].has(known) {
            return (Some(place), other);
        }
        if let Some(below) = levels[place].link(known) {
            other = Some(below);
            place = place.min(start_of(levels, places, below));
        }
    }
    (None, other)
}

// The other name, if there is one.
#[inline(always)]
pub(crate) fn known_as<'a>(name: &'a Name, other: Option<&'a Name>) -> &'a Name
    ensures { result.now ≡ unwrap_or (option_map (λ other. other.now) other.entry) name.now }
{
    match other {
        None => name,
        Some(other) => other,
    }
}

// Whether a name leads to the variable of another name below these levels.
#[tactic(auto, using(crate::proofs::Stacks::leads_by))]
pub(crate) fn leads_to(above: &[Level], target: &Name, name: &Name) -> bool
    ensures { result ≡ leads_to target.now above.now name.now }
{
    let found = home(above, None, name);
    found.0.is_none() && target == known_as(name, found.1)
}

// Whether some name leads to the variable of this name below these levels.
#[tactic(auto, using(crate::proofs::Killed::ways_any))]
fn can_be_seen(above: &[Level], name: &Name) -> bool
    ensures { result ≡ list_any (leads_to name.now above.now) (ways above.now name.now) }
{
    leads_to(above, name, name) || above.iter().any(|level| level.links_to(above, name))
}

// Whether the variable of this name below these levels stays: one of the names leads to it, or no name at all.
pub(crate) fn stays(names: &[Name], above: &[Level], name: &Name) -> bool
    ensures { result ≡ stays names.now above.now name.now }
{
    names.iter().any(|spared| leads_to(above, name, spared)) || !can_be_seen(above, name)
}

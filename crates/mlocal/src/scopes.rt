// SPDX-License-Identifier: Apache-2.0
//! The local variables of a session as a stack of scopes.
ghost use Rattle.std.specs.FinMap.{empty};
ghost use Rattle.std.specs.Prelude.{◌≡◌, ◌==◌, IfOk, OnOk, OnErr, [], ◌∷◌, ◌<◌, ◌+◌, length, drop, option_map, unwrap_or};
ghost use Rattle.mlocal.specs.Home.{AreFree, IsHome, killed_up, scopes_below};
ghost use Rattle.mkey.specs.Way.{way};
ghost use Rattle.mkey.specs.Front.{AreSubs};
ghost use Rattle.mkey.specs.SubsKey.{behind_below};
ghost use Rattle.mspec.specs.KeyBytes.{AreSubscripts};
ghost use Rattle.mlocal.specs.Bindings.{bindings_of};
ghost use Rattle.mspec.specs.Scopes.{bottom, value_at, is_value, is_above, next_subscript, tree_of, assigned, killed, killed_except, newed};
ghost use Rattle.mspec.specs.Scopes.{newed_except, with_level, bound, without_level, outermost};
ghost use Rattle.mspec.specs.Scopes.{are_one, next_node};
ghost use Rattle.mspec.specs.Trees.{AreOrderSubscripts, AreQuerySubscripts};

use crate::binding::Binding;
use crate::level::{Level, UnlinkedHome, home, known_as, raise_top, unlinked_home};
use crate::places::{Places, SLOTS, slot_of};
use crate::table::Table;
use crate::variable::Variable;
use mkey::{Data, Direction, Subs, SubsKey};
use mnum::Name;
use mvalue::Value;
use std::alloc::{AllocError, Global};
use std::marker::Model;
use std::mem;

/// The local variables of a session. Contracts see them as the stack of scopes, the innermost on top, and their values as texts.
pub struct Locals {
    alloc: Global,
    // the variables of the scope at the bottom, which has every name
    bottom: Table,
    // the scopes of the levels, the outermost first
    levels: Vec<Level>,
    // from this place on no level has a name or a link: where it is 0, lookups ask the bottom at once
    scoped: usize,
    // where other lookups begin: from the place of a name's slot on no level has a name with that slot, or a link of one
    places: Places,
}

// Written out, so that dropping it is one call, which is proved once.
impl Drop for Locals {
    fn drop(self) {
        let Locals {
            alloc: _,
            bottom: _,
            levels: _,
            scoped: _,
            places: _,
        } = self;
    }
}

impl Model for Locals {
    ghost use Rattle.std.specs.Coded.{coded_list};
    ghost use Rattle.std.specs.Prelude.{reverse, ◌++◌, ◌∷◌, []};
    ghost use Rattle.mlocal.specs.Home.{AreBare, AreFree, bottom_of};
    ghost use Rattle.mlocal.specs.ScopeCode.{scope_code};
    ghost use Rattle.mspec.specs.Scopes.{Scopes};

    ghost Value = { Scopes };

    ghost coded = { coded_list scope_code };

    ghost view = { λ l. reverse l.levels.items ++ bottom_of l.bottom ∷ [] };

    ghost invariant = { λ l. AreFree l.places l.levels.items × AreBare l.scoped l.levels.items };
}

impl Locals {
    /// The locals of a new session: one scope, which has every name, and no text. Takes no memory.
    pub fn new(alloc: Global) -> Locals
        ensures { result ≡ bottom ∷ [] }
    {
        Locals {
            alloc,
            bottom: Table::new(alloc),
            levels: Vec::new(alloc),
            scoped: 0,
            places: [0; SLOTS],
        }
    }

    /// Opens a level: a scope on top that has no name.
    ///
    /// # Errors
    ///
    /// `AllocError` if it runs out of memory; the locals are then as they were.
    pub fn enter(&mut self) -> Result<(), AllocError>
        ensures ok { OnOk result (self.new ≡ with_level self.old) }
        ensures err { OnErr result (self.new ≡ self.old) }
    {
        self.levels.push(Level::new())?;
        Ok(())
    }

    /// Opens a level with formal parameters, whose names are all different: on top a scope in which each is what its binding says.
    ///
    /// # Errors
    ///
    /// `AllocError` if it runs out of memory; the locals are then as they were.
    pub fn enter_bound(&mut self, bindings: Vec<(Name, Binding)>) -> Result<(), AllocError>
        ensures ok { OnOk result (self.new ≡ bound (bindings_of bindings.items) self.old) }
        ensures err { OnErr result (self.new ≡ self.old) }
    {
        let level = Level::bound(self.alloc, bindings)?;
        self.levels.push(level)?;
        self.scoped = self.levels.len();
        raise_top(self.levels.as_slice(), &mut self.places);
        Ok(())
    }

    /// Closes the level opened last, with what its scope has; does nothing if none is open. Takes no memory.
    pub fn leave(&mut self)
        ensures { self.new ≡ without_level self.old }
    {
        let _closed = self.levels.pop();
        self.scoped = self.scoped.min(self.levels.len());
    }

    /// Closes all levels, so that the scope at the bottom is left. Takes no memory.
    #[tactic(auto, using(crate::proofs::Levels::all_go))]
    pub fn leave_all(&mut self)
        ensures { self.new ≡ outermost self.old }
    {
        self.levels.clear();
        self.scoped = 0;
    }

    /// The value of a variable without subscripts, if it has one. A number that was assigned is still a number. Takes no memory.
    pub fn own(&self, name: &Name) -> Option<&Value>
        ensures { option_map (λ value. value.now) result ≡ value_at self.now name.now [] }
    {
        match self.variable_of(name) {
            None => None,
            Some(variable) => variable.own(),
        }
    }

    /// The value at a node, if the name's variable has one there. A number that was assigned is still a number.
    ///
    /// # Errors
    ///
    /// `AllocError` if it runs out of memory.
    pub fn get(&self, name: &Name, subs: &[Value]) -> Result<Option<&Value>, AllocError>
        requires { AreSubscripts subs.now }
        ensures { IfOk result (λ found. option_map (λ value. value.now) found ≡ value_at self.now name.now subs.now) }
    {
        if let [] = subs {
            return Ok(self.own(name));
        }
        let key = SubsKey::build(self.alloc, subs)?;
        match self.variable_of(name) {
            None => Ok(None),
            Some(variable) => Ok(variable.get(&key)),
        }
    }

    /// Whether the name's variable has a text at a node, and whether it has one below it.
    ///
    /// # Errors
    ///
    /// `AllocError` if it runs out of memory.
    pub fn data(&self, name: &Name, subs: &[Value]) -> Result<Data, AllocError>
        requires { AreSubscripts subs.now }
        ensures value { IfOk result (λ found. found.value ≡ is_value self.now name.now subs.now) }
        ensures descendants { IfOk result (λ found. found.descendants ≡ is_above self.now name.now subs.now) }
    {
        match self.variable_of(name) {
            None => Ok(Data {
                value: false,
                descendants: false,
            }),
            Some(variable) => variable.data(self.alloc, subs),
        }
    }

    /// The subscript next to the last of these, among those in its place below which the name's variable has a text. An empty last
    /// subscript begins the walk, at the first or from the last, and `None` ends it. A subscript that is a number comes as a number.
    ///
    /// # Errors
    ///
    /// `AllocError` if it runs out of memory.
    pub fn order(
        &self,
        name: &Name,
        subs: &[Value],
        direction: Direction,
    ) -> Result<Option<Value>, AllocError>
        requires { AreOrderSubscripts subs.now }
        ensures { IfOk result (λ next. next ≡ next_subscript self.now (way direction) name.now subs.now) }
    {
        match self.variable_of(name) {
            None => Ok(None),
            Some(variable) => variable.order(self.alloc, subs, direction),
        }
    }

    /// The subscripts of the first node after these of the name's variable that has a text, or of the last before them. An empty last
    /// subscript is before all that it may stand for, and backward after all at or below the node above it.
    ///
    /// # Errors
    ///
    /// `AllocError` if it runs out of memory.
    pub fn following(
        &self,
        name: &Name,
        subs: &[Value],
        direction: Direction,
    ) -> Result<Option<Subs>, AllocError>
        requires { AreQuerySubscripts subs.now }
        ensures { IfOk result (λ found. found ≡ next_node self.now (way direction) name.now subs.now) }
    {
        match self.variable_of(name) {
            None => Ok(None),
            Some(variable) => variable.following(self.alloc, subs, direction),
        }
    }

    /// Whether two names lead to one variable. Takes no memory.
    pub fn are_one(&self, one: &Name, other: &Name) -> bool
        ensures { result ≡ are_one self.now one.now other.now }
    {
        let levels = self.levels.as_slice();
        let first = home(levels, Some(&self.places), one);
        let second = home(levels, Some(&self.places), other);
        let mine = known_as(one, first.1);
        let theirs = known_as(other, second.1);
        is_one_place(first.0, second.0) && mine == theirs
    }

    /// Gives a node a value, in place of the one that it has.
    ///
    /// # Errors
    ///
    /// `AllocError` if it runs out of memory; the locals are then as they were.
    pub fn set(&mut self, name: &Name, subs: &[Value], value: Value) -> Result<(), AllocError>
        requires { AreSubscripts subs.now }
        ensures ok { OnOk result (self.new ≡ assigned self.old name.now subs.now value) }
        ensures err { OnErr result (self.new ≡ self.old) }
    {
        if let [] = subs {
            return self.set_own(name, value);
        }
        let key = SubsKey::build(self.alloc, subs)?;
        if self.scoped == 0 {
            return self.bottom.set(self.alloc, name, key, value);
        }
        self.set_in_levels(name, key, value)
    }

    // The same where a level may have the name.
    #[inline(never)]
    fn set_in_levels(&mut self, name: &Name, key: SubsKey, value: Value) -> Result<(), AllocError>
        requires { AreSubs key }
        ensures ok { OnOk result (self.new ≡ assigned self.old name.now key value) }
        ensures err { OnErr result (self.new ≡ self.old) }
    {
        let slot = slot_of(name);
        match unlinked_home(self.levels.as_slice(), &self.places, name, slot) {
            UnlinkedHome::Below => self.bottom.set(self.alloc, name, key, value),
            UnlinkedHome::At(place, index) => {
                self.levels[place].set_at(self.alloc, name, index, key, value)
            }
            UnlinkedHome::ByLink => self.set_by_link(name, key, value),
        }
    }

    // The same where a link may lead to the variable. Kept out of line, since it is rare.
    #[inline(never)]
    fn set_by_link(&mut self, name: &Name, key: SubsKey, value: Value) -> Result<(), AllocError>
        requires { AreSubs key }
        ensures ok { OnOk result (self.new ≡ assigned self.old name.now key value) }
        ensures err { OnErr result (self.new ≡ self.old) }
    {
        let found = home_to_change(self.levels.as_slice(), &self.places, name)?;
        let known = known_name(name, &found.1);
        match found.0 {
            None => self.bottom.set(self.alloc, known, key, value),
            Some(place) => self.levels[place].set(self.alloc, known, key, value),
        }
    }

    /// Gives a variable without subscripts a value.
    ///
    /// # Errors
    ///
    /// `AllocError` if it runs out of memory; the locals are then as they were.
    // Out of line, with the table's own function within it: so the value goes by one call, and is moved once.
    #[inline(never)]
    pub fn set_own(&mut self, name: &Name, value: Value) -> Result<(), AllocError>
        ensures ok { OnOk result (self.new ≡ assigned self.old name.now [] value) }
        ensures err { OnErr result (self.new ≡ self.old) }
    {
        if self.scoped == 0 {
            return self.bottom.set_own(self.alloc, name, slot_of(name), value);
        }
        self.set_own_in_levels(name, value)
    }

    // The same where a level may have the name.
    #[inline(never)]
    fn set_own_in_levels(&mut self, name: &Name, value: Value) -> Result<(), AllocError>
        ensures ok { OnOk result (self.new ≡ assigned self.old name.now [] value) }
        ensures err { OnErr result (self.new ≡ self.old) }
    {
        let slot = slot_of(name);
        match unlinked_home(self.levels.as_slice(), &self.places, name, slot) {
            UnlinkedHome::Below => self.bottom.set_own(self.alloc, name, slot, value),
            UnlinkedHome::At(place, index) => {
                self.levels[place].set_own_at(self.alloc, name, index, value)
            }
            UnlinkedHome::ByLink => self.set_own_by_link(name, value),
        }
    }

    // The same where a link may lead to the variable. Kept out of line, since it is rare.
    #[inline(never)]
    fn set_own_by_link(&mut self, name: &Name, value: Value) -> Result<(), AllocError>
        ensures ok { OnOk result (self.new ≡ assigned self.old name.now [] value) }
        ensures err { OnErr result (self.new ≡ self.old) }
    {
        let found = home_to_change(self.levels.as_slice(), &self.places, name)?;
        let known = known_name(name, &found.1);
        match found.0 {
            None => self
                .bottom
                .set_own(self.alloc, known, slot_of(known), value),
            Some(place) => self.levels[place].set_own(self.alloc, known, value),
        }
    }

    /// Takes away the texts of a node and of the nodes below it.
    ///
    /// # Errors
    ///
    /// `AllocError` if it runs out of memory; the locals are then as they were.
    pub fn kill(&mut self, name: &Name, subs: &[Value]) -> Result<(), AllocError>
        requires { AreSubscripts subs.now }
        ensures ok { OnOk result (self.new ≡ killed self.old name.now subs.now) }
        ensures err { OnErr result (self.new ≡ self.old) }
    {
        let key = SubsKey::build(self.alloc, subs)?;
        let end = SubsKey::behind_below(self.alloc, subs)?;
        if self.scoped == 0 {
            return self.bottom.kill(self.alloc, name, &key, &end);
        }
        self.kill_in_levels(name, &key, &end)
    }

    // The same where a level may have the name.
    #[inline(never)]
    fn kill_in_levels(
        &mut self,
        name: &Name,
        key: &SubsKey,
        end: &SubsKey,
    ) -> Result<(), AllocError>
        requires { end.now ≡ behind_below key.now }
        ensures ok { OnOk result (self.new ≡ killed self.old name.now key.now) }
        ensures err { OnErr result (self.new ≡ self.old) }
    {
        let found = home_to_change(self.levels.as_slice(), &self.places, name)?;
        let known = known_name(name, &found.1);
        match found.0 {
            None => self.bottom.kill(self.alloc, known, key, end),
            Some(place) => self.levels[place].kill(self.alloc, known, key, end),
        }
    }

    /// Takes away the texts of all variables that can be seen, except those to which these names lead. Takes no memory.
    pub fn kill_except(&mut self, names: &[Name])
        ensures { self.new ≡ killed_except names.now self.old }
    {
        self.bottom.keep_spared(names, self.levels.as_slice());
        spare(&mut self.levels, names);
    }

    /// Gives the top scope these names, as variables without a text, until its level ends.
    ///
    /// # Errors
    ///
    /// `AllocError` if it runs out of memory; the locals are then as they were.
    pub fn new_vars(&mut self, names: &[Name]) -> Result<(), AllocError>
        ensures ok { OnOk result (self.new ≡ newed names.now self.old) }
        ensures err { OnErr result (self.new ≡ self.old) }
    {
        let count = self.levels.len();
        if count == 0 {
            self.bottom.drop_names(names);
            return Ok(());
        }
        self.scoped = count;
        let changed = self.levels[count - 1].hide(self.alloc, names);
        raise_top(self.levels.as_slice(), &mut self.places);
        changed
    }

    /// Gives the top scope all names but these, and those of these that it had, until its level ends. The variables of the
    /// others have no text.
    ///
    /// # Errors
    ///
    /// `AllocError` if it runs out of memory; the locals are then as they were.
    pub fn new_except(&mut self, names: Vec<Name>) -> Result<(), AllocError>
        ensures ok { OnOk result (self.new ≡ newed_except names.items self.old) }
        ensures err { OnErr result (self.new ≡ self.old) }
    {
        let count = self.levels.len();
        if count == 0 {
            self.bottom.keep_names(names.as_slice());
            return Ok(());
        }
        self.scoped = count;
        let changed = self.levels[count - 1].hide_others(self.alloc, names);
        raise_top(self.levels.as_slice(), &mut self.places);
        changed
    }

    // The variable of a name. Inlined, so that a lookup where no level has a name costs no call.
    #[inline(always)]
    fn variable_of(&self, name: &Name) -> Option<&Variable>
        ensures { unwrap_or (option_map (λ variable. variable.now) result) empty ≡ tree_of self.now name.now }
    {
        if self.scoped == 0 {
            return self.bottom.get(name, slot_of(name));
        }
        self.variable_in_levels(name)
    }

    // The same where a level may have the name.
    #[inline(never)]
    fn variable_in_levels(&self, name: &Name) -> Option<&Variable>
        ensures { unwrap_or (option_map (λ variable. variable.now) result) empty ≡ tree_of self.now name.now }
    {
        let slot = slot_of(name);
        match unlinked_home(self.levels.as_slice(), &self.places, name, slot) {
            UnlinkedHome::Below => self.bottom.get(name, slot),
            UnlinkedHome::At(place, index) => self.levels[place].variable_at(name, index),
            UnlinkedHome::ByLink => self.variable_by_link(name),
        }
    }

    // The same where a link may lead to the variable. Kept out of line, since it is rare.
    #[inline(never)]
    fn variable_by_link(&self, name: &Name) -> Option<&Variable>
        ensures { unwrap_or (option_map (λ variable. variable.now) result) empty ≡ tree_of self.now name.now }
    {
        let found = home(self.levels.as_slice(), Some(&self.places), name);
        let known = known_as(name, found.1);
        match found.0 {
            None => self.bottom.get(known, slot_of(known)),
            Some(place) => self.levels[place].variable(known),
        }
    }
}

// Whether both places are the same, or both below all levels.
fn is_one_place(one: Option<usize>, other: Option<usize>) -> bool
    ensures { result ≡ (scopes_below one == scopes_below other) }
{
    match (one, other) {
        (None, None) => true,
        (Some(place), Some(second)) => place == second,
        _ => false,
    }
}

// Takes away the texts of the variables of these levels to which none of these names leads, but some name.
fn spare(levels: &mut Vec<Level>, names: &[Name])
    ensures { levels.new.items ≡ killed_up names.now levels.old.items }
{
    for place in 0..levels.len() {
        let mut level = mem::replace(&mut levels[place], Level::new());
        level.keep_spared(names, levels_above(levels, place));
        levels[place] = level;
    }
}

// The levels above a place.
fn levels_above(levels: &Vec<Level>, place: usize) -> &[Level]
    requires { place < length levels.now.items }
    ensures { result.now ≡ drop (place + 1) levels.now.items }
{
    &levels.as_slice()[place + 1..]
}

// Where a name's variable is, to change it: as `home` says, with a copy of the other name.
fn home_to_change(
    levels: &[Level],
    places: &Places,
    name: &Name,
) -> Result<(Option<usize>, Option<Name>), AllocError>
    requires { AreFree places.now levels.now }
    ensures { IfOk result (λ found. IsHome name.now levels.now found.0 (unwrap_or found.1 name.now)) }
{
    let found = home(levels, Some(places), name);
    match found.1 {
        None => Ok((found.0, None)),
        Some(other) => Ok((found.0, Some(other.copy()?))),
    }
}

// The other name, if there is one.
#[inline(always)]
fn known_name<'a>(name: &'a Name, other: &'a Option<Name>) -> &'a Name
    ensures { result.now ≡ unwrap_or other.now name.now }
{
    match other {
        None => name,
        Some(other) => other,
    }
}

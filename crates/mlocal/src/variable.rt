// SPDX-License-Identifier: Apache-2.0
// One variable: the values at its nodes.
ghost use Rattle.std.specs.Prelude.{◌≡◌, [], IfOk, OnOk, OnErr, option_and_then, option_map, IfSome, not, ◌||◌, reverse};
ghost use Rattle.std.specs.BTreeMap.{IsOrdered, keys};
ghost use Rattle.std.specs.BTreeMap.Range.{IsLtBy};
ghost use Rattle.std.specs.Coded.{coded_ℕ, coded_list};
ghost use Rattle.std.specs.FinMap.{get, insert, empty, code, keys as nodes_of};
ghost use Rattle.std.specs.List.{All, find};
ghost use Rattle.mkey.specs.Front.{AreSubs};
ghost use Rattle.mkey.specs.SubsKey.{behind_below};
ghost use Rattle.mlocal.specs.Own.{with_own, AreSomeSubs};
ghost use Rattle.mkey.specs.Way.{way};
ghost use Rattle.mlocal.specs.Way.{is_behind, is_between, has_child, passed_end};
ghost use Rattle.mspec.specs.KeyBytes.{AreSubscripts};
ghost use Rattle.mspec.specs.Maps.{map_of};
ghost use Rattle.mspec.specs.NodeOrder.{subscripts_cmp};
ghost use Rattle.mspec.specs.Number.{significant_digits};
ghost use Rattle.mspec.specs.Scopes.{is_bare};
ghost use Rattle.mspec.specs.Trees.{Tree, without, is_within, child_of, has_value, has_descendants, Forward, order_of, is_before, is_empty, front, last};
ghost use Rattle.mspec.specs.Trees.{AreOrderSubscripts, AreQuerySubscripts, Backward, following};

use crate::subtree::{keys_from, remove_all};
use mkey::{Data, Direction, Subs, SubsKey, ends_empty, front, last, without_empty};
use mvalue::Value;
use std::alloc::{AllocError, Global};
use std::collections::BTreeMap;
use std::marker::Model;
use std::ops::Bound;

// The values at the nodes of a variable. Contracts see it as the tree of their texts.
pub(crate) struct Variable {
    // its own value; most variables have no other
    own: Option<Value>,
    // the values at nodes with subscripts, by their subscripts
    values: BTreeMap<SubsKey, Value>,
}

// Written out, so that dropping it is one call, which is proved once.
impl Drop for Variable {
    fn drop(self) {
        let Variable { own: _, values: _ } = self;
    }
}

impl Model for Variable {
    ghost Value = { Tree };

    ghost coded = { code (coded_list (coded_list coded_ℕ)) (coded_list coded_ℕ) };

    ghost view = { λ v. with_own v.own (map_of (λ value. value) v.values) };

    ghost invariant = { λ v. All AreSomeSubs (keys v.values) };
}

impl Variable {
    // A variable without a text, which takes no memory.
    pub(crate) fn new(alloc: Global) -> Variable
        ensures { result ≡ empty }
    {
        Variable {
            own: None,
            values: BTreeMap::new(alloc),
        }
    }

    // Its own value.
    #[tactic(auto, using(crate::proofs::Own::own_there, crate::proofs::Views::shown))]
    pub(crate) fn own(&self) -> Option<&Value>
        ensures { option_map (λ value. value.now) result ≡ get self.now [] }
    {
        self.own.as_ref()
    }

    // The value at a node.
    pub(crate) fn get(&self, key: &SubsKey) -> Option<&Value>
        ensures { option_map (λ value. value.now) result ≡ get self.now key.now }
    {
        if key.is_empty() {
            return self.own();
        }
        self.values.get(key)
    }

    // Whether it has no text.
    pub(crate) fn is_bare(&self) -> bool
        ensures { result ≡ is_bare self.now }
    {
        self.own.is_none() && self.values.is_empty()
    }

    // Gives it a value of its own.
    #[tactic(auto, using(crate::proofs::Own::own_set))]
    pub(crate) fn set_own(&mut self, value: Value)
        ensures { self.new ≡ insert self.old [] value }
    {
        self.own = Some(value);
    }

    // Takes away all of its texts. Takes no memory.
    pub(crate) fn clear(&mut self)
        ensures { self.new ≡ empty }
    {
        self.own = None;
        self.values.clear();
    }

    // Gives a node a value. If memory runs out, the variable is as it was.
    pub(crate) fn set(&mut self, key: SubsKey, value: Value) -> Result<(), AllocError>
        requires { AreSubs key }
        ensures ok { OnOk result (self.new ≡ insert self.old key value) }
        ensures err { OnErr result (self.new ≡ self.old) }
    {
        if key.is_empty() {
            self.set_own(value);
            return Ok(());
        }
        self.values.insert(key, value)?;
        Ok(())
    }

    // Takes away the texts of a node and of the nodes below it, where `end` is the bound after them. It looks at no other node.
    // If memory runs out, the variable is as it was.
    pub(crate) fn kill(
        &mut self,
        alloc: Global,
        key: &SubsKey,
        end: &SubsKey,
    ) -> Result<(), AllocError>
        requires { end.now ≡ behind_below key.now }
        ensures ok { OnOk result (self.new ≡ without self.old key.now) }
        ensures err { OnErr result (self.new ≡ self.old) }
    {
        if key.is_empty() {
            self.own = None;
            self.values.clear();
            return Ok(());
        }
        let found = keys_from(alloc, &self.values, key, end)?;
        remove_all(&mut self.values, &found);
        Ok(())
    }

    // Whether a node has a text, and whether a node below it has one.
    pub(crate) fn data(&self, alloc: Global, subs: &[Value]) -> Result<Data, AllocError>
        requires { AreSubscripts subs.now }
        ensures value { IfOk result (λ found. found.value ≡ has_value self.now subs.now) }
        ensures descendants { IfOk result (λ found. found.descendants ≡ has_descendants self.now subs.now) }
    {
        let key = SubsKey::build(alloc, subs)?;
        let end = SubsKey::behind_below(alloc, subs)?;
        Ok(Data {
            value: self.get(&key).is_some(),
            descendants: last_between(&self.values, &key, &end).is_some(),
        })
    }

    // The subscript next to the last of these, among those below which there is a text.
    pub(crate) fn order(
        &self,
        alloc: Global,
        subs: &[Value],
        direction: Direction,
    ) -> Result<Option<Value>, AllocError>
        requires { AreOrderSubscripts subs.now }
        ensures { IfOk result (λ next. next ≡ order_of self.now (way direction) (front subs.now) (last subs.now)) }
    {
        let above = SubsKey::build(alloc, front(subs))?;
        match direction {
            Direction::Forward => child(alloc, &above, self.behind(alloc, &above, subs)?),
            Direction::Backward => child(alloc, &above, self.before(alloc, &above, subs)?),
        }
    }

    // The first key after those whose subscript there is the last of these, or comes before it. It may lie past the node: then
    // it has no subscript there.
    fn behind(
        &self,
        alloc: Global,
        above: &SubsKey,
        subs: &[Value],
    ) -> Result<Option<&SubsKey>, AllocError>
        requires subs { AreOrderSubscripts subs.now }
        requires above { above.now ≡ front subs.now }
        ensures next { IfOk result (λ key. option_and_then (child_of (front subs.now)) (option_map (λ k. k.now) key) ≡ order_of self.now Forward
            (front subs.now) (last subs.now)) }
        ensures subs { IfOk result (λ key. IfSome key (λ k. AreSubs k.now)) }
    {
        if last(subs).is_empty() {
            return Ok(first_behind(&self.values, above));
        }
        let start = SubsKey::behind_below(alloc, subs)?;
        Ok(first_behind(&self.values, &start))
    }

    // The last key of those whose subscript there comes before the last of these, or of all if that is empty.
    fn before(
        &self,
        alloc: Global,
        above: &SubsKey,
        subs: &[Value],
    ) -> Result<Option<&SubsKey>, AllocError>
        requires subs { AreOrderSubscripts subs.now }
        requires above { above.now ≡ front subs.now }
        ensures key { IfOk result (λ key. option_map (λ k. k.now) key ≡ find (has_child (λ c. is_empty (last subs.now) || is_before c (last subs.now))
            (front subs.now)) (reverse (nodes_of self.now))) }
        ensures subs { IfOk result (λ key. IfSome key (λ k. AreSubs k.now)) }
    {
        if last(subs).is_empty() {
            let end = SubsKey::behind_below(alloc, front(subs))?;
            return Ok(last_between(&self.values, above, &end));
        }
        let end = SubsKey::build(alloc, subs)?;
        Ok(last_between(&self.values, above, &end))
    }

    // The subscripts of the first node after these that has a text, or of the last before them.
    pub(crate) fn following(
        &self,
        alloc: Global,
        subs: &[Value],
        direction: Direction,
    ) -> Result<Option<Subs>, AllocError>
        requires { AreQuerySubscripts subs.now }
        ensures { IfOk result (λ found. found ≡ following (way direction) subs.now (nodes_of self.now)) }
    {
        match direction {
            Direction::Forward => self.first_after(alloc, subs),
            Direction::Backward => self.last_before(alloc, subs),
        }
    }

    // Those of the first node after these.
    fn first_after(&self, alloc: Global, subs: &[Value]) -> Result<Option<Subs>, AllocError>
        requires { AreQuerySubscripts subs.now }
        ensures { IfOk result (λ found. found ≡ following Forward subs.now (nodes_of self.now)) }
    {
        let low = SubsKey::build(alloc, without_empty(subs))?;
        let Some(key) = first_behind(&self.values, &low) else {
            return Ok(None);
        };
        let found = key.subs(alloc)?;
        Ok(Some(found))
    }

    // Those of the variable itself, if it has a text of its own: none.
    fn own_subs(&self, alloc: Global) -> Option<Subs>
        ensures { result ≡ option_map (λ _. []) (get self.now []) }
    {
        match self.own() {
            None => None,
            Some(_) => Some(Subs::none(alloc)),
        }
    }

    // Those of the last node before these, or of the last of all at and below the node above if the last of these is empty.
    fn last_before(&self, alloc: Global, subs: &[Value]) -> Result<Option<Subs>, AllocError>
        requires { AreQuerySubscripts subs.now }
        ensures { IfOk result (λ found. found ≡ following Backward subs.now (nodes_of self.now)) }
    {
        if subs.is_empty() {
            return Ok(None);
        }
        let low = SubsKey::build(alloc, &[])?;
        let high = passed_end(alloc, subs)?;
        let Some(key) = last_between(&self.values, &low, &high) else {
            return Ok(self.own_subs(alloc));
        };
        let found = key.subs(alloc)?;
        Ok(Some(found))
    }
}

// The bound before which the keys are to which a walk backward from these subscripts comes.
fn passed_end(alloc: Global, subs: &[Value]) -> Result<SubsKey, AllocError>
    requires subs { AreOrderSubscripts subs.now }
    ensures { IfOk result (λ high. high ≡ passed_end subs.now) }
{
    if ends_empty(subs) {
        SubsKey::behind_below(alloc, front(subs))
    } else {
        SubsKey::build(alloc, subs)
    }
}

// The subscript that follows a list in the key that was found.
fn child(
    alloc: Global,
    above: &SubsKey,
    found: Option<&SubsKey>,
) -> Result<Option<Value>, AllocError>
    requires { IfSome found (λ k. AreSubs k.now) }
    ensures { IfOk result (λ child. child ≡ option_and_then (child_of above.now) (option_map (λ k. k.now) found.entry)) }
{
    match found {
        None => Ok(None),
        Some(key) => key.child_of(alloc, above),
    }
}

// The first key after `low`.
#[tactic(auto, using(crate::proofs::Walks::none_is))]
fn first_behind<'a>(values: &'a BTreeMap<SubsKey, Value>, low: &SubsKey) -> Option<&'a SubsKey>
    requires subs { All AreSomeSubs (keys values.now) }
    ensures ordered { IsOrdered (subscripts_cmp significant_digits) values.now }
    ensures subs { IfSome result (λ k. AreSubs k.now) }
    ensures key { option_map (λ k. k.now) result ≡ find (is_behind low.now) (keys values.now) }
{
    match values
        .range((Bound::Excluded(low), Bound::Unbounded))
        .next()
    {
        Some((key, _)) => Some(key),
        None => None,
    }
}

// The last key after `low` and before `high`.
#[tactic(auto, using(crate::proofs::Walks::none_last))]
fn last_between<'a>(
    values: &'a BTreeMap<SubsKey, Value>,
    low: &SubsKey,
    high: &SubsKey,
) -> Option<&'a SubsKey>
    requires forward { IsLtBy (subscripts_cmp significant_digits) low.now high.now }
    requires subs { All AreSomeSubs (keys values.now) }
    ensures ordered { IsOrdered (subscripts_cmp significant_digits) values.now }
    ensures subs { IfSome result (λ k. AreSubs k.now) }
    ensures key { option_map (λ k. k.now) result ≡ find (is_between low.now high.now) (reverse (keys values.now)) }
{
    match values
        .range((Bound::Excluded(low), Bound::Excluded(high)))
        .next_back()
    {
        Some((key, _)) => Some(key),
        None => None,
    }
}

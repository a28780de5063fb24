// SPDX-License-Identifier: Apache-2.0
// What is asked of places that the checks let through.
ghost use Rattle.std.specs.Prelude.{[], slice_get, unwrap_or};
ghost use Rattle.mkey.specs.Way.{way};
ghost use Rattle.mmeaning.specs.Variables as variables;
ghost use Rattle.mspec.specs.Access.{Read, Write};
ghost use Rattle.meval.specs.Evaluates.{Evaluates, standing_of};
ghost use Rattle.meval.specs.Places.{place_view, walk_view, status_view, IsOpen, IsWalk};

use crate::eval::Eval;
use crate::place::{Place, Walk, undefined};
use crate::value_list::Values;
use crate::walk::{first_or_empty, next_value};
use mkey::{Data, Direction};
use mnodes::NodeStore;
use mnum::Bytes7;
use moperator::Code;
use mvalue::Value;
use std::alloc::Global;

impl<'a, S: NodeStore> Eval<'a, S> {
    // The value of a place, if it has one.
    #[tactic(auto, unfolding(mspec::specs::Act::value_of))]
    pub(crate) fn found(&mut self, place: &Place) -> Result<Option<Value>, Code>
        requires { IsOpen (standing_of self.old) Read (place_view place.now) }
        ensures { Evaluates S.NodeStore (λ i. variables.found_at (place_view place.now)) (λ found. found) self.old result self.new }
    {
        match place {
            Place::Local(name, subscripts) => {
                let name = name.as_name();
                match self.session.locals.get(name, subscripts.as_slice())? {
                    Some(value) => Ok(Some(value.copy()?)),
                    None => Ok(None),
                }
            }
            Place::Node(key) => match self.node_text(key)? {
                Some(text) => Ok(Some(Value::of_text(text))),
                None => Ok(None),
            },
        }
    }

    // The value of a place.
    pub(crate) fn read(&mut self, place: &Place) -> Result<Value, Code>
        requires { IsOpen (standing_of self.old) Read (place_view place.now) }
        ensures { Evaluates S.NodeStore (λ i. variables.read_at (place_view place.now)) (λ v. v) self.old result self.new }
    {
        match self.found(place)? {
            Some(value) => Ok(value),
            None => Err(undefined(place)),
        }
    }

    /// The text of a place that may be changed, or the empty text if it has none.
    ///
    /// # Errors
    ///
    /// `Zmem` if memory runs out, and `Zstore` if the store refuses.
    pub fn text_or_empty(&mut self, alloc: Global, place: &Place) -> Result<Bytes7, Code>
        requires { IsOpen (standing_of self.old) Write (place_view place.now) }
        ensures { Evaluates S.NodeStore (λ i. variables.read_or [] (place_view place.now)) (λ text. text) self.old result self.new }
    {
        match self.found(place)? {
            Some(value) => Ok(value.into_text(alloc)?),
            None => Ok(Bytes7::empty(alloc)),
        }
    }

    // The value of a place, or the first of these if it has none; the empty text if there is neither.
    pub(crate) fn read_or(
        &mut self,
        alloc: Global,
        place: &Place,
        others: Values,
    ) -> Result<Value, Code>
        requires { IsOpen (standing_of self.old) Read (place_view place.now) }
        ensures { Evaluates S.NodeStore (λ i. variables.read_or (unwrap_or (slice_get others 0) []) (place_view place.now)) (λ v. v) self.old result self.new }
    {
        match self.found(place)? {
            Some(value) => Ok(value),
            None => Ok(first_or_empty(alloc, others)),
        }
    }

    // Whether a place has a text, and whether one below it has one.
    pub(crate) fn status(&mut self, alloc: Global, place: &Place) -> Result<Data, Code>
        requires { IsOpen (standing_of self.old) Read (place_view place.now) }
        ensures { Evaluates S.NodeStore (λ i. variables.status_at (place_view place.now)) status_view self.old result self.new }
    {
        match place {
            Place::Local(name, subscripts) => {
                let name = name.as_name();
                let data = self.session.locals.data(name, subscripts.as_slice())?;
                Ok(data)
            }
            Place::Node(key) => self.node_status(alloc, key),
        }
    }

    // The subscript next to the last one of a walk, or the empty text if there is none.
    pub(crate) fn next(
        &mut self,
        alloc: Global,
        walk: &Walk,
        direction: Direction,
    ) -> Result<Value, Code>
        requires walk { IsWalk walk.now }
        requires allowed { IsOpen (standing_of self.old) Read (walk_view walk.now) }
        ensures { Evaluates S.NodeStore (λ i. variables.next_at (way direction) (walk_view walk.now)) (λ v. v) self.old result self.new }
    {
        match walk {
            Walk::Local(name, values) => {
                let next = self
                    .session
                    .locals
                    .order(name.as_name(), values.as_slice(), direction)?;
                Ok(next_value(alloc, next))
            }
            Walk::Node(node) => {
                let (account, name, subscripts) = (
                    node.account(),
                    node.name().as_bytes7(),
                    node.subscripts(),
                );
                let next = self.node_neighbour(alloc, account, name, subscripts, direction)?;
                Ok(next_value(alloc, next))
            }
        }
    }
}

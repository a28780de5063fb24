// SPDX-License-Identifier: Apache-2.0
// The steps of a program that make references of the values on its stack, and ask of the variables that these lead to.
ghost use Rattle.std.specs.Prelude.{◌≡◌, map};
ghost use Rattle.mgrammar.specs.Grammar.{exprs_of};
ghost use Rattle.mmeaning.specs.Programs as programs;
ghost use Rattle.mmeaning.specs.Yields.{Yields};
ghost use Rattle.moperator.specs.Codes.{fault_of};
ghost use Rattle.meval.specs.Evaluates.{depth_of};
ghost use Rattle.mtree.specs.Tree.{expr_tree};
ghost use Rattle.mcommand.specs.Does.{Does, DoesWithin};
ghost use Rattle.mcommand.specs.Steps.{items_view, step_in, goes_with, local_step, naked_step, extended_step, named_step};
ghost use Rattle.mcommand.specs.Steps.{attach_step, deeper_step, deeper_within};

use crate::items::{
    Item, put, take_found, take_outside, take_placed, take_sought, take_value, take_values,
    take_walked,
};
use crate::parts::Parts;
use meval::{Depth, Pending, Values, VariableName, extended_found};
use mnodes::NodeStore;
use mnum::Name;
use moperator::Code;
use mtree::Expr;
use mvalue::Value;
use std::alloc::Global;

// A reference to a local variable of this name, by the values on top.
pub(crate) fn local_step(name: &Name, items: &mut Vec<Item>) -> Result<bool, Code>
    ensures { Yields fault_of (local_step name.now (items_view items.old.items)) (λ goes. goes_with goes (items_view items.new.items)) result }
{
    let values = take_values(items)?;
    let subscripts = Values::of_vec(values);
    let pending = Pending::Local(VariableName::Lent(name), subscripts);
    let own = pending.into_own()?;
    put(items, Item::Found(own))
}

// One to a node beside the one that was referred to last.
pub(crate) fn naked_step(items: &mut Vec<Item>) -> Result<bool, Code>
    ensures { Yields fault_of (naked_step (items_view items.old.items)) (λ goes. goes_with goes (items_view items.new.items)) result }
{
    let values = take_values(items)?;
    let subscripts = Values::of_vec(values);
    put(items, Item::Found(Pending::Naked(subscripts)))
}

// One to a global variable of this name, of the account that the value below names.
pub(crate) fn extended_step(alloc: Global, name: &Name, items: &mut Vec<Item>) -> Result<bool, Code>
    ensures { Yields fault_of (extended_step name.now (items_view items.old.items)) (λ goes. goes_with goes (items_view items.new.items)) result }
{
    let values = take_values(items)?;
    let owner = take_value(items)?;
    let pending = extended_found(alloc, owner, name, values)?;
    put(items, Item::Found(pending))
}

/// Adds the values on top, which are subscripts after an indirection, to what its text names. Returns how deep the indirection stands.
///
/// # Errors
///
/// `Zsyntax` if the stack lacks these, as it does in no program; `Zmem` if memory runs out.
pub fn attach_step(alloc: Global, items: &mut Vec<Item>) -> Result<Depth, Code>
    ensures { Yields fault_of (attach_step (items_view items.old.items)) (λ depth. (depth_of depth, items_view items.new.items)) result }
{
    let values = take_values(items)?;
    let (depth, pending) = take_outside(items)?;
    let found = pending.extended(alloc, Values::of_vec(values))?;
    items.push(Item::Found(found))?;
    Ok(depth)
}

impl<'a, S: NodeStore> Parts<'a, S> {
    // Whether the value below the one on top matches the pattern that this is the text of.
    pub(crate) fn match_step(&mut self, alloc: Global, items: &mut Vec<Item>) -> Result<bool, Code>
        ensures { Does S.NodeStore (λ i. step_in i programs.Match (items_view items.old.items))
            (λ goes. goes_with goes (items_view items.new.items)) self.old result self.new }
    {
        let given = take_value(items)?;
        let value = take_value(items)?;
        let matches = self.eval.matches_text(alloc, &value, given)?;
        put(items, Item::Value(Value::of_truth(matches)))
    }

    // Whether it does not.
    pub(crate) fn match_not_step(
        &mut self,
        alloc: Global,
        items: &mut Vec<Item>,
    ) -> Result<bool, Code>
        ensures { Does S.NodeStore (λ i. step_in i programs.Match_not (items_view items.old.items))
            (λ goes. goes_with goes (items_view items.new.items)) self.old result self.new }
    {
        let given = take_value(items)?;
        let value = take_value(items)?;
        let matches = self.eval.matches_text(alloc, &value, given)?;
        put(items, Item::Value(Value::of_truth(!matches)))
    }

    // A reference to a global variable of the account, by the values on top.
    pub(crate) fn global_step(
        &mut self,
        alloc: Global,
        name: &Name,
        items: &mut Vec<Item>,
    ) -> Result<bool, Code>
        ensures { Does S.NodeStore (λ i. step_in i (programs.Global name.now) (items_view items.old.items))
            (λ goes. goes_with goes (items_view items.new.items)) self.old result self.new }
    {
        let values = take_values(items)?;
        let pending = self.eval.own_found(alloc, name, values)?;
        put(items, Item::Found(pending))
    }

    // What the variable that the text on top names has to evaluate, and the subscripts after it. One text more may be entered than steps are
    // left.
    pub(crate) fn named_step(
        &mut self,
        alloc: Global,
        subscripts: &[Expr],
        items: &mut Vec<Item>,
    ) -> Result<bool, Code>
        ensures { Does S.NodeStore (λ i. named_step i (exprs_of (map expr_tree subscripts.now)) (items_view items.old.items))
            (λ goes. goes_with goes (items_view items.new.items)) self.old result self.new }
    {
        let given = take_value(items)?;
        let pending = self.eval.named_by(alloc, given, subscripts)?;
        put(items, Item::Found(pending))
    }

    // Finds what the text on top names, to whose subscripts the program goes an indirection deeper.
    fn named_outside(&mut self, alloc: Global, items: &mut Vec<Item>) -> Result<Depth, Code>
        ensures { Does S.NodeStore (λ i. deeper_within i (items_view items.old.items))
            (λ depth. (depth_of depth, items_view items.new.items)) self.old result self.new }
    {
        let given = take_value(items)?;
        let depth = self.eval.depth;
        let Some(deeper) = depth.indirected() else {
            return Err(Code::Zdepth);
        };
        let pending = self.eval.named_by(alloc, given, &[])?;
        items.push(Item::Outside(depth, pending))?;
        Ok(deeper)
    }

    /// Finds what the text on top names, within a command, whose own step is spent. The subscripts after it are evaluated an indirection
    /// deeper: returns how deep that is.
    ///
    /// # Errors
    ///
    /// `Zdepth` if no indirection is free, and those of what the text names; `Zsyntax` if there is no text, as there is in each program.
    /// `Zmem` if memory runs out.
    pub fn deeper_step(&mut self, alloc: Global, items: &mut Vec<Item>) -> Result<Depth, Code>
        ensures { DoesWithin S.NodeStore (λ i. deeper_step i (items_view items.old.items))
            (λ depth. (depth_of depth, items_view items.new.items)) self.old result self.new }
    {
        self.named_outside(alloc, items)
    }

    // The value of the variable of the reference on top.
    pub(crate) fn read_step(&mut self, alloc: Global, items: &mut Vec<Item>) -> Result<bool, Code>
        ensures { Does S.NodeStore (λ i. step_in i programs.Read (items_view items.old.items))
            (λ goes. goes_with goes (items_view items.new.items)) self.old result self.new }
    {
        let pending = take_found(items)?;
        let value = self.eval.read_found(alloc, pending)?;
        put(items, Item::Value(value))
    }

    // What $DATA gives of it.
    pub(crate) fn data_step(&mut self, alloc: Global, items: &mut Vec<Item>) -> Result<bool, Code>
        ensures { Does S.NodeStore (λ i. step_in i programs.Data (items_view items.old.items))
            (λ goes. goes_with goes (items_view items.new.items)) self.old result self.new }
    {
        let pending = take_found(items)?;
        let value = self.eval.data_found(alloc, pending)?;
        put(items, Item::Value(value))
    }

    // The place that $GET asks of, by the checks of a read.
    pub(crate) fn resolve_step(
        &mut self,
        alloc: Global,
        items: &mut Vec<Item>,
    ) -> Result<bool, Code>
        ensures { Does S.NodeStore (λ i. step_in i programs.Resolve (items_view items.old.items))
            (λ goes. goes_with goes (items_view items.new.items)) self.old result self.new }
    {
        let pending = take_found(items)?;
        let place = self.eval.readable(alloc, pending)?;
        put(items, Item::Placed(place))
    }

    // What $GET gives of the place below the values on top.
    pub(crate) fn get_step(&mut self, alloc: Global, items: &mut Vec<Item>) -> Result<bool, Code>
        ensures { Does S.NodeStore (λ i. step_in i programs.Get (items_view items.old.items))
            (λ goes. goes_with goes (items_view items.new.items)) self.old result self.new }
    {
        let values = take_values(items)?;
        let place = take_placed(items)?;
        let value = self.eval.get_at(alloc, place, values)?;
        put(items, Item::Value(value))
    }

    // The place that $ORDER asks of, by its checks.
    pub(crate) fn walk_step(&mut self, alloc: Global, items: &mut Vec<Item>) -> Result<bool, Code>
        ensures { Does S.NodeStore (λ i. step_in i programs.Walk (items_view items.old.items))
            (λ goes. goes_with goes (items_view items.new.items)) self.old result self.new }
    {
        let pending = take_found(items)?;
        let walk = self.eval.walkable(alloc, pending)?;
        put(items, Item::Walked(walk))
    }

    // What $ORDER gives of the place below the values on top.
    pub(crate) fn order_step(&mut self, alloc: Global, items: &mut Vec<Item>) -> Result<bool, Code>
        ensures { Does S.NodeStore (λ i. step_in i programs.Order (items_view items.old.items))
            (λ goes. goes_with goes (items_view items.new.items)) self.old result self.new }
    {
        let values = take_values(items)?;
        let walk = take_walked(items)?;
        let value = self.eval.next_at(alloc, &walk, &values)?;
        put(items, Item::Value(value))
    }

    // What $NAME gives of the reference below the values on top.
    pub(crate) fn tell_name_step(
        &mut self,
        alloc: Global,
        items: &mut Vec<Item>,
    ) -> Result<bool, Code>
        ensures { Does S.NodeStore (λ i. step_in i programs.Tell_name (items_view items.old.items))
            (λ goes. goes_with goes (items_view items.new.items)) self.old result self.new }
    {
        let values = take_values(items)?;
        let pending = take_found(items)?;
        let value = self.eval.name_found(alloc, pending, &values)?;
        put(items, Item::Value(value))
    }

    // What $INCREMENT gives of the reference below the values on top.
    pub(crate) fn increment_step(
        &mut self,
        alloc: Global,
        items: &mut Vec<Item>,
    ) -> Result<bool, Code>
        ensures { Does S.NodeStore (λ i. step_in i programs.Increment (items_view items.old.items))
            (λ goes. goes_with goes (items_view items.new.items)) self.old result self.new }
    {
        let values = take_values(items)?;
        let pending = take_found(items)?;
        let value = self.eval.increment_found(alloc, pending, &values)?;
        put(items, Item::Value(value))
    }

    // The place that $QUERY asks of, by its checks.
    pub(crate) fn seek_step(&mut self, alloc: Global, items: &mut Vec<Item>) -> Result<bool, Code>
        ensures { Does S.NodeStore (λ i. step_in i programs.Seek (items_view items.old.items))
            (λ goes. goes_with goes (items_view items.new.items)) self.old result self.new }
    {
        let pending = take_found(items)?;
        let place = self.eval.seekable(alloc, pending)?;
        put(items, Item::Sought(place))
    }

    // What $QUERY gives of the place below the values on top.
    pub(crate) fn query_step(&mut self, alloc: Global, items: &mut Vec<Item>) -> Result<bool, Code>
        ensures { Does S.NodeStore (λ i. step_in i programs.Query (items_view items.old.items))
            (λ goes. goes_with goes (items_view items.new.items)) self.old result self.new }
    {
        let values = take_values(items)?;
        let place = take_sought(items)?;
        let value = self.eval.query_at(alloc, &place, &values)?;
        put(items, Item::Value(value))
    }
}

// SPDX-License-Identifier: Apache-2.0
// The steps of a program that bring together the targets of SET, the names of LOCK, and the numbers of a parameter of FOR.
ghost use Rattle.mmeaning.specs.Programs as programs;
ghost use Rattle.mmeaning.specs.Yields.{Yields};
ghost use Rattle.moperator.specs.Codes.{fault_of};
ghost use Rattle.mcommand.specs.Does.{Does};
ghost use Rattle.mcommand.specs.Steps.{items_view, step_in, goes_with, target_step, part_step, number_step};

use crate::items::{
    Item, put, take_found, take_names, take_numbers, take_targets, take_value, take_values,
};
use crate::parts::Parts;
use crate::set::Prepared;
use meval::Values;
use mnodes::NodeStore;
use moperator::{Code, number_of};
use mtree::ValueWord;
use std::alloc::Global;

// The variable of the reference on top, as one target more.
pub(crate) fn target_step(items: &mut Vec<Item>) -> Result<bool, Code>
    ensures { Yields fault_of (target_step (items_view items.old.items)) (λ goes. goes_with goes (items_view items.new.items)) result }
{
    let pending = take_found(items)?;
    let mut all = take_targets(items)?;
    all.push(Prepared::Whole(pending))?;
    put(items, Item::Made(all))
}

// A part of it, by the values on top of it.
pub(crate) fn part_step(word: &ValueWord, items: &mut Vec<Item>) -> Result<bool, Code>
    ensures { Yields fault_of (part_step word.now (items_view items.old.items)) (λ goes. goes_with goes (items_view items.new.items)) result }
{
    let values = take_values(items)?;
    let pending = take_found(items)?;
    let mut all = take_targets(items)?;
    let values = Values::of_vec(values);
    all.push(Prepared::Part(word.function(), pending, values))?;
    put(items, Item::Made(all))
}

// The number of the value on top, as one more of a parameter of FOR.
pub(crate) fn number_step(items: &mut Vec<Item>) -> Result<bool, Code>
    ensures { Yields fault_of (number_step (items_view items.old.items)) (λ goes. goes_with goes (items_view items.new.items)) result }
{
    let value = take_value(items)?;
    let mut numbers = take_numbers(items)?;
    let number = number_of(&value)?;
    numbers.push(number)?;
    put(items, Item::Numbers(numbers))
}

impl<'a, S: NodeStore> Parts<'a, S> {
    // The lock of the reference on top, as one name more.
    pub(crate) fn name_step(&mut self, alloc: Global, items: &mut Vec<Item>) -> Result<bool, Code>
        ensures { Does S.NodeStore (λ i. step_in i programs.Name (items_view items.old.items))
            (λ goes. goes_with goes (items_view items.new.items)) self.old result self.new }
    {
        let pending = take_found(items)?;
        let mut names = take_names(items)?;
        let name = self.eval.lockable(alloc, pending)?;
        names.push(name)?;
        put(items, Item::Names(names))
    }
}

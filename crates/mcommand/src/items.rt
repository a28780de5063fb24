// SPDX-License-Identifier: Apache-2.0
// The stack of a program: what its steps leave for those after them.
ghost use Rattle.std.specs.Prelude.{◌≡◌, map};
ghost use Rattle.mmeaning.specs.Programs.{on_top};
ghost use Rattle.mmeaning.specs.Yields.{Yields};
ghost use Rattle.moperator.specs.Codes.{fault_of};
ghost use Rattle.mlocal.specs.Bindings.{binding_of};
ghost use Rattle.meval.specs.Evaluates.{depth_of};
ghost use Rattle.meval.specs.Places.{pending_view};
ghost use Rattle.meval.specs.Kept.{readable_view};
ghost use Rattle.mnum.specs.Num.{units};
ghost use Rattle.mcommand.specs.Prepared.{prepared_view};
ghost use Rattle.mcommand.specs.Steps.{item_view, items_view, value_on_top, values_on_top, found_on_top, placed_on_top, walked_on_top, targets_on_top};
ghost use Rattle.mcommand.specs.Steps.{sought_on_top, outside_on_top};
ghost use Rattle.mcommand.specs.Steps.{handing_on_top, numbers_on_top, names_on_top, item_on_top, goes_with};

use crate::set::Prepared;
use meval::{Depth, Lockable, Pending, Readable, Seekable, Walkable};
use mlocal::Binding;
use mnum::Num;
use moperator::Code;
use mvalue::Value;

/// An item of a program's stack. Contracts see it by `item_view`, as one of the definitions.
#[derive(Drop)]
pub enum Item {
    /// A value.
    Value(Value),
    /// The values of a function's arguments, or of subscripts, so far.
    Values(Vec<Value>),
    /// A reference, once all that it has to evaluate is evaluated.
    Found(Pending<'static>),
    /// The place of a reference, which is checked for a read.
    Placed(Readable),
    /// The place of a reference, which is checked for $ORDER.
    Walked(Walkable),
    /// The place of a reference, which is checked for $QUERY.
    Sought(Seekable),
    /// The targets of SET so far.
    Made(Vec<Prepared<'static>>),
    /// What `$TEST` was before the actuals, and what these hand over so far.
    Handing(bool, Vec<Binding>),
    /// The numbers of a parameter of FOR so far.
    Numbers(Vec<Num>),
    /// The names of LOCK so far.
    Names(Vec<Lockable>),
    /// What a text names, with how deep its indirection stands, below the subscripts after it.
    Outside(Depth, Pending<'static>),
}

/// Takes the value on top. Takes no memory.
///
/// # Errors
///
/// `Zsyntax` if there is none, as there is in no program.
pub fn take_value(items: &mut Vec<Item>) -> Result<Value, Code>
    ensures { Yields fault_of (value_on_top (items_view items.old.items)) (λ value. (value, items_view items.new.items)) result }
{
    let Some(item) = items.pop() else {
        return Err(Code::Zsyntax);
    };
    match item {
        Item::Value(value) => Ok(value),
        Item::Values(_) => Err(Code::Zsyntax),
        Item::Found(_) => Err(Code::Zsyntax),
        Item::Placed(_) => Err(Code::Zsyntax),
        Item::Walked(_) => Err(Code::Zsyntax),
        Item::Sought(_) => Err(Code::Zsyntax),
        Item::Made(_) => Err(Code::Zsyntax),
        Item::Handing(_, _) => Err(Code::Zsyntax),
        Item::Numbers(_) => Err(Code::Zsyntax),
        Item::Outside(_, _) => Err(Code::Zsyntax),
        Item::Names(_) => Err(Code::Zsyntax),
    }
}

/// Takes the values of arguments or of subscripts, which are on top. Takes no memory.
///
/// # Errors
///
/// `Zsyntax` if they are not, as they are in each program.
pub fn take_values(items: &mut Vec<Item>) -> Result<Vec<Value>, Code>
    ensures { Yields fault_of (values_on_top (items_view items.old.items)) (λ values. (values.items, items_view items.new.items)) result }
{
    let Some(item) = items.pop() else {
        return Err(Code::Zsyntax);
    };
    match item {
        Item::Value(_) => Err(Code::Zsyntax),
        Item::Values(values) => Ok(values),
        Item::Found(_) => Err(Code::Zsyntax),
        Item::Placed(_) => Err(Code::Zsyntax),
        Item::Walked(_) => Err(Code::Zsyntax),
        Item::Sought(_) => Err(Code::Zsyntax),
        Item::Made(_) => Err(Code::Zsyntax),
        Item::Handing(_, _) => Err(Code::Zsyntax),
        Item::Numbers(_) => Err(Code::Zsyntax),
        Item::Outside(_, _) => Err(Code::Zsyntax),
        Item::Names(_) => Err(Code::Zsyntax),
    }
}

/// Takes the reference on top. Takes no memory.
///
/// # Errors
///
/// `Zsyntax` if there is none, as there is in no program.
pub fn take_found(items: &mut Vec<Item>) -> Result<Pending<'static>, Code>
    ensures { Yields fault_of (found_on_top (items_view items.old.items)) (λ pending. (pending_view pending, items_view items.new.items)) result }
{
    let Some(item) = items.pop() else {
        return Err(Code::Zsyntax);
    };
    match item {
        Item::Value(_) => Err(Code::Zsyntax),
        Item::Values(_) => Err(Code::Zsyntax),
        Item::Found(pending) => Ok(pending),
        Item::Placed(_) => Err(Code::Zsyntax),
        Item::Walked(_) => Err(Code::Zsyntax),
        Item::Sought(_) => Err(Code::Zsyntax),
        Item::Made(_) => Err(Code::Zsyntax),
        Item::Handing(_, _) => Err(Code::Zsyntax),
        Item::Numbers(_) => Err(Code::Zsyntax),
        Item::Outside(_, _) => Err(Code::Zsyntax),
        Item::Names(_) => Err(Code::Zsyntax),
    }
}

// Takes the place on top that is checked for a read; `Zsyntax` if there is none. Takes no memory.
pub(crate) fn take_placed(items: &mut Vec<Item>) -> Result<Readable, Code>
    ensures { Yields fault_of (placed_on_top (items_view items.old.items)) (λ place. (readable_view place, items_view items.new.items)) result }
{
    let Some(item) = items.pop() else {
        return Err(Code::Zsyntax);
    };
    match item {
        Item::Value(_) => Err(Code::Zsyntax),
        Item::Values(_) => Err(Code::Zsyntax),
        Item::Found(_) => Err(Code::Zsyntax),
        Item::Placed(place) => Ok(place),
        Item::Walked(_) => Err(Code::Zsyntax),
        Item::Sought(_) => Err(Code::Zsyntax),
        Item::Made(_) => Err(Code::Zsyntax),
        Item::Handing(_, _) => Err(Code::Zsyntax),
        Item::Numbers(_) => Err(Code::Zsyntax),
        Item::Outside(_, _) => Err(Code::Zsyntax),
        Item::Names(_) => Err(Code::Zsyntax),
    }
}

// Takes the place on top that is checked for $ORDER; `Zsyntax` if there is none. Takes no memory.
pub(crate) fn take_walked(items: &mut Vec<Item>) -> Result<Walkable, Code>
    ensures { Yields fault_of (walked_on_top (items_view items.old.items)) (λ walk. (walk, items_view items.new.items)) result }
{
    let Some(item) = items.pop() else {
        return Err(Code::Zsyntax);
    };
    match item {
        Item::Value(_) => Err(Code::Zsyntax),
        Item::Values(_) => Err(Code::Zsyntax),
        Item::Found(_) => Err(Code::Zsyntax),
        Item::Placed(_) => Err(Code::Zsyntax),
        Item::Walked(walk) => Ok(walk),
        Item::Sought(_) => Err(Code::Zsyntax),
        Item::Made(_) => Err(Code::Zsyntax),
        Item::Handing(_, _) => Err(Code::Zsyntax),
        Item::Numbers(_) => Err(Code::Zsyntax),
        Item::Outside(_, _) => Err(Code::Zsyntax),
        Item::Names(_) => Err(Code::Zsyntax),
    }
}

// Takes the place on top that is checked for $QUERY; `Zsyntax` if there is none. Takes no memory.
pub(crate) fn take_sought(items: &mut Vec<Item>) -> Result<Seekable, Code>
    ensures { Yields fault_of (sought_on_top (items_view items.old.items)) (λ place. (place, items_view items.new.items)) result }
{
    let Some(item) = items.pop() else {
        return Err(Code::Zsyntax);
    };
    match item {
        Item::Value(_) => Err(Code::Zsyntax),
        Item::Values(_) => Err(Code::Zsyntax),
        Item::Found(_) => Err(Code::Zsyntax),
        Item::Placed(_) => Err(Code::Zsyntax),
        Item::Walked(_) => Err(Code::Zsyntax),
        Item::Sought(place) => Ok(place),
        Item::Made(_) => Err(Code::Zsyntax),
        Item::Handing(_, _) => Err(Code::Zsyntax),
        Item::Numbers(_) => Err(Code::Zsyntax),
        Item::Outside(_, _) => Err(Code::Zsyntax),
        Item::Names(_) => Err(Code::Zsyntax),
    }
}

/// Takes the targets of SET, which are on top. Takes no memory.
///
/// # Errors
///
/// `Zsyntax` if they are not, as they are in each program.
pub fn take_targets(items: &mut Vec<Item>) -> Result<Vec<Prepared<'static>>, Code>
    ensures { Yields fault_of (targets_on_top (items_view items.old.items)) (λ all. (map prepared_view all.items, items_view items.new.items)) result }
{
    let Some(item) = items.pop() else {
        return Err(Code::Zsyntax);
    };
    match item {
        Item::Value(_) => Err(Code::Zsyntax),
        Item::Values(_) => Err(Code::Zsyntax),
        Item::Found(_) => Err(Code::Zsyntax),
        Item::Placed(_) => Err(Code::Zsyntax),
        Item::Walked(_) => Err(Code::Zsyntax),
        Item::Sought(_) => Err(Code::Zsyntax),
        Item::Made(all) => Ok(all),
        Item::Handing(_, _) => Err(Code::Zsyntax),
        Item::Numbers(_) => Err(Code::Zsyntax),
        Item::Outside(_, _) => Err(Code::Zsyntax),
        Item::Names(_) => Err(Code::Zsyntax),
    }
}

/// Takes what the actuals so far hand over, which is on top, and what `$TEST` was before them. Takes no memory.
///
/// # Errors
///
/// `Zsyntax` if it is not, as it is in each program.
pub fn take_handing(items: &mut Vec<Item>) -> Result<(bool, Vec<Binding>), Code>
    ensures { Yields fault_of (handing_on_top (items_view items.old.items))
        (λ taken. ((taken.0, map binding_of taken.1.items), items_view items.new.items)) result }
{
    let Some(item) = items.pop() else {
        return Err(Code::Zsyntax);
    };
    match item {
        Item::Value(_) => Err(Code::Zsyntax),
        Item::Values(_) => Err(Code::Zsyntax),
        Item::Found(_) => Err(Code::Zsyntax),
        Item::Placed(_) => Err(Code::Zsyntax),
        Item::Walked(_) => Err(Code::Zsyntax),
        Item::Sought(_) => Err(Code::Zsyntax),
        Item::Made(_) => Err(Code::Zsyntax),
        Item::Handing(test, bindings) => Ok((test, bindings)),
        Item::Numbers(_) => Err(Code::Zsyntax),
        Item::Outside(_, _) => Err(Code::Zsyntax),
        Item::Names(_) => Err(Code::Zsyntax),
    }
}

// Takes the numbers of a parameter of FOR, which are on top.
pub(crate) fn take_numbers(items: &mut Vec<Item>) -> Result<Vec<Num>, Code>
    ensures { Yields fault_of (numbers_on_top (items_view items.old.items)) (λ numbers. (map units numbers.items, items_view items.new.items)) result }
{
    let Some(item) = items.pop() else {
        return Err(Code::Zsyntax);
    };
    match item {
        Item::Value(_) => Err(Code::Zsyntax),
        Item::Values(_) => Err(Code::Zsyntax),
        Item::Found(_) => Err(Code::Zsyntax),
        Item::Placed(_) => Err(Code::Zsyntax),
        Item::Walked(_) => Err(Code::Zsyntax),
        Item::Sought(_) => Err(Code::Zsyntax),
        Item::Made(_) => Err(Code::Zsyntax),
        Item::Handing(_, _) => Err(Code::Zsyntax),
        Item::Numbers(numbers) => Ok(numbers),
        Item::Outside(_, _) => Err(Code::Zsyntax),
        Item::Names(_) => Err(Code::Zsyntax),
    }
}

/// Takes the names of LOCK, which are on top. Takes no memory.
///
/// # Errors
///
/// `Zsyntax` if they are not, as they are in each program.
pub fn take_names(items: &mut Vec<Item>) -> Result<Vec<Lockable>, Code>
    ensures { Yields fault_of (names_on_top (items_view items.old.items)) (λ names. (names.items, items_view items.new.items)) result }
{
    let Some(item) = items.pop() else {
        return Err(Code::Zsyntax);
    };
    match item {
        Item::Value(_) => Err(Code::Zsyntax),
        Item::Values(_) => Err(Code::Zsyntax),
        Item::Found(_) => Err(Code::Zsyntax),
        Item::Placed(_) => Err(Code::Zsyntax),
        Item::Walked(_) => Err(Code::Zsyntax),
        Item::Sought(_) => Err(Code::Zsyntax),
        Item::Made(_) => Err(Code::Zsyntax),
        Item::Handing(_, _) => Err(Code::Zsyntax),
        Item::Numbers(_) => Err(Code::Zsyntax),
        Item::Outside(_, _) => Err(Code::Zsyntax),
        Item::Names(names) => Ok(names),
    }
}

// Takes what a text names, which is on top, and how deep its indirection stands; `Zsyntax` if there is none. Takes no memory.
pub(crate) fn take_outside(items: &mut Vec<Item>) -> Result<(Depth, Pending<'static>), Code>
    ensures { Yields fault_of (outside_on_top (items_view items.old.items))
        (λ taken. ((depth_of taken.0, pending_view taken.1), items_view items.new.items)) result }
{
    let Some(item) = items.pop() else {
        return Err(Code::Zsyntax);
    };
    match item {
        Item::Value(_) => Err(Code::Zsyntax),
        Item::Values(_) => Err(Code::Zsyntax),
        Item::Found(_) => Err(Code::Zsyntax),
        Item::Placed(_) => Err(Code::Zsyntax),
        Item::Walked(_) => Err(Code::Zsyntax),
        Item::Sought(_) => Err(Code::Zsyntax),
        Item::Made(_) => Err(Code::Zsyntax),
        Item::Handing(_, _) => Err(Code::Zsyntax),
        Item::Numbers(_) => Err(Code::Zsyntax),
        Item::Outside(depth, pending) => Ok((depth, pending)),
        Item::Names(_) => Err(Code::Zsyntax),
    }
}

/// Takes whatever is on top. Takes no memory.
///
/// # Errors
///
/// `Zsyntax` if there is nothing, as there is in no program.
pub fn take_item(items: &mut Vec<Item>) -> Result<Item, Code>
    ensures { Yields fault_of (item_on_top (items_view items.old.items)) (λ item. (item_view item, items_view items.new.items)) result }
{
    match items.pop() {
        Some(item) => Ok(item),
        None => Err(Code::Zsyntax),
    }
}

// Puts an item on top, with which the program goes on.
pub(crate) fn put(items: &mut Vec<Item>, item: Item) -> Result<bool, Code>
    ensures { Yields fault_of (on_top (items_view items.old.items) (item_view item)) (λ goes. goes_with goes (items_view items.new.items)) result }
{
    items.push(item)?;
    Ok(true)
}

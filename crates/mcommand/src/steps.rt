// SPDX-License-Identifier: Apache-2.0
// The steps of a program, each over what is there for the tree.
ghost use Rattle.std.specs.Prelude.{◌≡◌, [], map};
ghost use Rattle.mmeaning.specs.Programs as programs;
ghost use Rattle.mtree.specs.Tree.{sign_tree, binary_tree, operand_tree, primary_tree, tail_tree, actual_tree, destination_tree};
ghost use Rattle.mgrammar.specs.Grammar as grammar;
ghost use Rattle.mprogram.specs.Views.{op_view};
ghost use Rattle.mcommand.specs.Does.{Does, DoesWithin};
ghost use Rattle.mmeaning.specs.Yields.{Yields};
ghost use Rattle.moperator.specs.Codes.{fault_of};
ghost use Rattle.mlocal.specs.Bindings.{binding_of};
ghost use Rattle.mcommand.specs.Steps.{items_view, step_in, goes_with, sign_step, join_step, add_step, function_step, handed_on_top, hand_step, where_step};

use crate::items::{Item, put, take_handing, take_value, take_values};
use crate::parts::Parts;
use crate::reference_steps::{extended_step, local_step, naked_step};
use crate::target_steps::{number_step, part_step, target_step};
use mlocal::Binding;
use mnodes::NodeStore;
use mnum::Bytes7;
use moperator::{Code, binary, call, truth_of, unaries};
use mprogram::Op;
use mtree::{Actual, Binary, Destination, Operand, Primary, Sign, Tail, ValueWord};
use std::alloc::Global;

// What signs make of the value on top.
fn sign_step(signs: &[Sign], items: &mut Vec<Item>) -> Result<bool, Code>
    ensures { Yields fault_of (sign_step (map sign_tree signs.now) (items_view items.old.items)) (λ goes. goes_with goes (items_view items.new.items)) result }
{
    let value = take_value(items)?;
    let signed = unaries(signs, value)?;
    put(items, Item::Value(signed))
}

// The two values on top, joined by an operator.
fn join_step(alloc: Global, operator: Binary, items: &mut Vec<Item>) -> Result<bool, Code>
    ensures { Yields fault_of (join_step (binary_tree operator) (items_view items.old.items)) (λ goes. goes_with goes (items_view items.new.items)) result }
{
    let right = take_value(items)?;
    let mut left = take_value(items)?;
    binary(alloc, operator, &mut left, &right)?;
    put(items, Item::Value(left))
}

// The value on top, as one more of a function's arguments.
fn add_step(items: &mut Vec<Item>) -> Result<bool, Code>
    ensures { Yields fault_of (add_step (items_view items.old.items)) (λ goes. goes_with goes (items_view items.new.items)) result }
{
    let value = take_value(items)?;
    let mut values = take_values(items)?;
    values.push(value)?;
    put(items, Item::Values(values))
}

// What a function gives for the values on top.
fn function_step(alloc: Global, word: &ValueWord, items: &mut Vec<Item>) -> Result<bool, Code>
    ensures { Yields fault_of (function_step word.now (items_view items.old.items)) (λ goes. goes_with goes (items_view items.new.items)) result }
{
    let values = take_values(items)?;
    let value = call(alloc, word, &values)?;
    put(items, Item::Value(value))
}

// Puts what actuals hand over on top, with one thing more.
fn put_handing(
    items: &mut Vec<Item>,
    test: bool,
    bindings: Vec<Binding>,
    binding: Binding,
) -> Result<bool, Code>
    ensures { Yields fault_of (handed_on_top ((test, map binding_of bindings.items), items_view items.old.items) (binding_of binding))
        (λ goes. goes_with goes (items_view items.new.items)) result }
{
    let mut bindings = bindings;
    bindings.push(binding)?;
    put(items, Item::Handing(test, bindings))
}

// The value on top, as what one more actual hands over.
fn hand_step(items: &mut Vec<Item>) -> Result<bool, Code>
    ensures { Yields fault_of (hand_step (items_view items.old.items)) (λ goes. goes_with goes (items_view items.new.items)) result }
{
    let value = take_value(items)?;
    let (test, bindings) = take_handing(items)?;
    put_handing(items, test, bindings, Binding::Valued(value))
}

// Whether the value on top is true, without which the argument ends.
fn where_step(items: &mut Vec<Item>) -> Result<bool, Code>
    ensures { Yields fault_of (where_step (items_view items.old.items)) (λ goes. goes_with goes (items_view items.new.items)) result }
{
    let value = take_value(items)?;
    let is_true = truth_of(&value)?;
    Ok(is_true)
}

impl<'a, S: NodeStore> Parts<'a, S> {
    // The value of an operand.
    fn operand_step(
        &mut self,
        alloc: Global,
        operand: &Operand,
        items: &mut Vec<Item>,
    ) -> Result<bool, Code>
        ensures { Does S.NodeStore (λ i. step_in i (programs.Operand (operand_tree operand.now)) (items_view items.old.items))
            (λ goes. goes_with goes (items_view items.new.items)) self.old result self.new }
    {
        let value = self.eval.operand(alloc, operand)?;
        put(items, Item::Value(value))
    }

    // The value of a primary.
    fn primary_step(
        &mut self,
        alloc: Global,
        primary: &Primary,
        items: &mut Vec<Item>,
    ) -> Result<bool, Code>
        ensures { Does S.NodeStore (λ i. step_in i (programs.Operand (grammar.operand [] (primary_tree primary.now))) (items_view items.old.items))
            (λ goes. goes_with goes (items_view items.new.items)) self.old result self.new }
    {
        let value = self.eval.primary(alloc, primary)?;
        put(items, Item::Value(value))
    }

    // What is done with the value on top.
    fn tail_step(&mut self, alloc: Global, tail: &Tail, items: &mut Vec<Item>) -> Result<bool, Code>
        ensures { Does S.NodeStore (λ i. step_in i (programs.Tail (tail_tree tail.now)) (items_view items.old.items))
            (λ goes. goes_with goes (items_view items.new.items)) self.old result self.new }
    {
        let mut value = take_value(items)?;
        self.eval.tail(alloc, &mut value, tail)?;
        put(items, Item::Value(value))
    }

    // The step that a primary costs.
    fn spend_step(&mut self, items: &mut Vec<Item>) -> Result<bool, Code>
        ensures { Does S.NodeStore (λ i. step_in i programs.Spend (items_view items.old.items))
            (λ goes. goes_with goes (items_view items.new.items)) self.old result self.new }
    {
        self.eval.charge()?;
        Ok(true)
    }

    // The power of the two values on top.
    fn raise_step(&mut self, items: &mut Vec<Item>) -> Result<bool, Code>
        ensures { Does S.NodeStore (λ i. step_in i programs.Raise (items_view items.old.items))
            (λ goes. goes_with goes (items_view items.new.items)) self.old result self.new }
    {
        let right = take_value(items)?;
        let mut left = take_value(items)?;
        self.eval.raise(&mut left, &right)?;
        put(items, Item::Value(left))
    }

    // No actual so far, and what `$TEST` is.
    fn begin_step(&mut self, alloc: Global, items: &mut Vec<Item>) -> Result<bool, Code>
        ensures { Does S.NodeStore (λ i. step_in i programs.Begin (items_view items.old.items))
            (λ goes. goes_with goes (items_view items.new.items)) self.old result self.new }
    {
        let test = self.eval.test();
        put(items, Item::Handing(test, Vec::new(alloc)))
    }

    // What one more actual hands over.
    fn actual_step(
        &mut self,
        alloc: Global,
        actual: &Actual,
        items: &mut Vec<Item>,
    ) -> Result<bool, Code>
        ensures { Does S.NodeStore (λ i. step_in i (programs.Actual (actual_tree actual.now)) (items_view items.old.items))
            (λ goes. goes_with goes (items_view items.new.items)) self.old result self.new }
    {
        let (test, bindings) = take_handing(items)?;
        let binding = self.handed(alloc, actual)?;
        put_handing(items, test, bindings, binding)
    }

    // The variable that the value on top names, as what one more actual hands over.
    fn hand_name_step(&mut self, alloc: Global, items: &mut Vec<Item>) -> Result<bool, Code>
        ensures { Does S.NodeStore (λ i. step_in i programs.Hand_name (items_view items.old.items))
            (λ goes. goes_with goes (items_view items.new.items)) self.old result self.new }
    {
        let given = take_value(items)?;
        let (test, bindings) = take_handing(items)?;
        let binding = self.linked_by(alloc, given)?;
        put_handing(items, test, bindings, binding)
    }

    // Formats of WRITE.
    fn formats_step(&mut self, formats: &Bytes7, items: &mut Vec<Item>) -> Result<bool, Code>
        ensures { Does S.NodeStore (λ i. step_in i (programs.Formats formats.now) (items_view items.old.items))
            (λ goes. goes_with goes (items_view items.new.items)) self.old result self.new }
    {
        self.write_formats(formats.as_bytes())?;
        Ok(true)
    }

    // The targets of SET.
    fn prepare_step(
        &mut self,
        alloc: Global,
        destination: &Destination,
        items: &mut Vec<Item>,
    ) -> Result<bool, Code>
        ensures { Does S.NodeStore (λ i. step_in i (programs.Prepare (destination_tree destination.now)) (items_view items.old.items))
            (λ goes. goes_with goes (items_view items.new.items)) self.old result self.new }
    {
        let all = self.prepared_targets(alloc, destination)?;
        put(items, Item::Made(all))
    }

    /// Does a step of a program on its stack, within a command, whose own step is spent. Returns whether the argument goes on: it ends where
    /// its condition is false.
    ///
    /// # Errors
    ///
    /// Those of what the step evaluates, and `Zsyntax` for the call of a function, for what passes steps by and for what changes how deep the
    /// steps are, which are for the caller to carry out, and where the stack lacks what the step takes, as it does in no program. `M4` after
    /// the last choice of $SELECT. `Zmem` if memory runs out. The stack is then any.
    pub fn step(&mut self, alloc: Global, op: Op, items: &mut Vec<Item>) -> Result<bool, Code>
        ensures { DoesWithin S.NodeStore (λ i. step_in i (op_view op.entry) (items_view items.old.items))
            (λ goes. goes_with goes (items_view items.new.items)) self.old result self.new }
    {
        match op {
            Op::Operand(operand) => self.operand_step(alloc, operand, items),
            Op::Primary(primary) => self.primary_step(alloc, primary, items),
            Op::Tail(tail) => self.tail_step(alloc, tail, items),
            Op::Spend => self.spend_step(items),
            Op::Sign(signs) => sign_step(signs, items),
            Op::Join(operator) => join_step(alloc, operator, items),
            Op::Raise => self.raise_step(items),
            Op::Values => put(items, Item::Values(Vec::new(alloc))),
            Op::Add => add_step(items),
            Op::Function(word) => function_step(alloc, word, items),
            Op::Begin => self.begin_step(alloc, items),
            Op::Actual(actual) => self.actual_step(alloc, actual, items),
            Op::Hand => hand_step(items),
            Op::HandName => self.hand_name_step(alloc, items),
            Op::Call(_) => Err(Code::Zsyntax),
            Op::Where => where_step(items),
            Op::Formats(formats) => self.formats_step(formats, items),
            Op::Prepare(destination) => self.prepare_step(alloc, destination, items),
            Op::Unless(_) => Err(Code::Zsyntax),
            Op::Pass(_) => Err(Code::Zsyntax),
            Op::Deeper => Err(Code::Zsyntax),
            Op::Attach => Err(Code::Zsyntax),
            Op::NoChoice => Err(Code::M4),
            Op::Match => self.match_step(alloc, items),
            Op::MatchNot => self.match_not_step(alloc, items),
            Op::Local(name) => local_step(name, items),
            Op::Global(name) => self.global_step(alloc, name, items),
            Op::Naked => naked_step(items),
            Op::Extended(name) => extended_step(alloc, name, items),
            Op::Named(subscripts) => self.named_step(alloc, subscripts, items),
            Op::Read => self.read_step(alloc, items),
            Op::Data => self.data_step(alloc, items),
            Op::Resolve => self.resolve_step(alloc, items),
            Op::Get => self.get_step(alloc, items),
            Op::Walk => self.walk_step(alloc, items),
            Op::Order => self.order_step(alloc, items),
            Op::TellName => self.tell_name_step(alloc, items),
            Op::Increment => self.increment_step(alloc, items),
            Op::Seek => self.seek_step(alloc, items),
            Op::Query => self.query_step(alloc, items),
            Op::Targets => put(items, Item::Made(Vec::new(alloc))),
            Op::Target => target_step(items),
            Op::Part(word) => part_step(word, items),
            Op::Names => put(items, Item::Names(Vec::new(alloc))),
            Op::Name => self.name_step(alloc, items),
            Op::Numbers => put(items, Item::Numbers(Vec::new(alloc))),
            Op::Number => number_step(items),
        }
    }
}

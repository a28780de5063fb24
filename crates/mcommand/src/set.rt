// SPDX-License-Identifier: Apache-2.0
// SET: the parts of its targets are evaluated first, then the right side, and then each target is assigned.
ghost use Rattle.std.specs.Prelude.{◌≡◌, [], length, map, option_map, IfOk};
ghost use Rattle.mgrammar.specs.Grammar.{one, variable, local, exprs, no_exprs};
ghost use Rattle.mmeaning.specs.LineMeaning as meaning;
ghost use Rattle.mtree.specs.Tree.{expr_tree, part_tree, target_tree, value_function_tree, destination_tree};
ghost use Rattle.meval.specs.Places.{pending_view};
ghost use Rattle.mcommand.specs.Does.{Does};
ghost use Rattle.mcommand.specs.Prepared.{prepared_view};

use crate::parts::Parts;
use meval::{Pending, Values};
use mgrant::Mode;
use mnodes::NodeStore;
use mnum::{Bytes7, Name};
use moperator::{Code, text_at, whole_at};
use mtext::{has_places, set_piece, set_range};
use mtree::{Destination, Expr, PartTarget, Reference, Target, ValueFunction};
use mvalue::Value;
use std::alloc::{AllocError, Global};
use std::slice::from_ref;

/// A target, once everything that it has to evaluate is evaluated. Contracts see it by `prepared_view`, as one of the definitions.
#[derive(Drop)]
pub enum Prepared<'t> {
    /// A variable.
    Whole(Pending<'t>),
    /// A part of a variable, with its function and the values after the variable.
    Part(ValueFunction, Pending<'t>, Values),
}

impl<'t> Prepared<'t> {
    // The same, which no tree need hold: a name that is lent is copied.
    fn into_own<'u>(self) -> Result<Prepared<'u>, AllocError>
        ensures { IfOk result (λ prepared. prepared_view prepared ≡ prepared_view self.entry) }
    {
        match self {
            Prepared::Whole(pending) => {
                let pending = pending.into_own()?;
                Ok(Prepared::Whole(pending))
            }
            Prepared::Part(function, pending, values) => {
                let pending = pending.into_own()?;
                Ok(Prepared::Part(function, pending, values))
            }
        }
    }
}

// Targets that no tree need hold.
fn all_own<'u>(alloc: Global, all: Vec<Prepared>) -> Result<Vec<Prepared<'u>>, AllocError>
    ensures { IfOk result (λ own. map prepared_view own.items ≡ map prepared_view all.entry.items) }
{
    let mut own = Vec::with_capacity(alloc, all.len())?;
    for prepared in all {
        let one = prepared.into_own()?;
        own.push(one)?;
    }
    Ok(own)
}

// What is to the left of `=`, as a list.
fn targets_of(destination: &Destination) -> &[Target]
    ensures { map target_tree result.now ≡ meaning.targets (destination_tree destination.now) }
{
    match destination {
        Destination::One(target) => from_ref(target),
        Destination::Several(targets) => targets,
    }
}

impl<'a, S: NodeStore> Parts<'a, S> {
    // What a part of a variable evaluates. Kept out of line, since it is rare.
    #[inline(never)]
    fn prepared_part<'t>(
        &mut self,
        alloc: Global,
        part: &'t PartTarget,
    ) -> Result<Prepared<'t>, Code>
        ensures { Does S.NodeStore (λ i. meaning.prepared i (part_tree part.now)) prepared_view self.old result self.new }
    {
        let pending = self.eval.evaluated(alloc, &part.reference)?;
        let values = self.eval.values(alloc, &part.more)?;
        Ok(Prepared::Part(part.word.function(), pending, values))
    }

    // What a target evaluates.
    fn prepared<'t>(&mut self, alloc: Global, target: &'t Target) -> Result<Prepared<'t>, Code>
        ensures { Does S.NodeStore (λ i. meaning.prepared i (target_tree target.now)) prepared_view self.old result self.new }
    {
        match target {
            Target::Variable(reference) => {
                let pending = self.eval.evaluated(alloc, reference)?;
                Ok(Prepared::Whole(pending))
            }
            Target::Part(part) => self.prepared_part(alloc, part),
        }
    }

    // What targets evaluate, one after another.
    fn all_prepared<'t>(
        &mut self,
        alloc: Global,
        targets: &'t [Target],
    ) -> Result<Vec<Prepared<'t>>, Code>
        ensures { Does S.NodeStore (λ i. meaning.all_prepared i [] (map target_tree targets.now))
            (λ all. map prepared_view all.items) self.old result self.new }
    {
        let mut all = Vec::with_capacity(alloc, targets.len())?;
        for target in targets {
            let prepared = self.prepared(alloc, target)?;
            all.push(prepared)?;
        }
        Ok(all)
    }

    // Gives a piece of a variable a value.
    fn assign_piece(
        &mut self,
        alloc: Global,
        pending: Pending,
        values: &[Value],
        value: &Value,
    ) -> Result<(), Code>
        ensures { Does S.NodeStore (λ i. meaning.piece_assigned value.now (pending_view pending.entry) values.now) (λ u. u) self.old result self.new }
    {
        let left = self.eval.resolved(alloc, Mode::Write, pending)?;
        let place = whole_at(values, 1)?;
        let old = self.eval.text_or_empty(alloc, &left)?;
        let delimiter = text_at(alloc, values, 0)?;
        let shown = value.shown(alloc)?;
        let new = set_piece(alloc, &old, delimiter.as_text(), place, shown.as_text())?;
        self.eval.put(alloc, &left, Value::of_text(new))
    }

    // Gives characters of a variable, or pieces by a delimiter, a value. It stays alone if they are none.
    fn assign_range(
        &mut self,
        alloc: Global,
        pending: Pending,
        delimiter: Option<&Bytes7>,
        from: Option<i64>,
        to: Option<i64>,
        value: &Value,
    ) -> Result<(), Code>
        ensures { Does S.NodeStore (λ i. meaning.range_assigned value.now (pending_view pending.entry) (option_map (λ d. d.now) delimiter.entry) from to)
            (λ u. u) self.old result self.new }
    {
        if !has_places(from, to) {
            return Ok(());
        }
        let left = self.eval.resolved(alloc, Mode::Write, pending)?;
        let old = self.eval.text_or_empty(alloc, &left)?;
        let shown = value.shown(alloc)?;
        let new = set_range(alloc, &old, delimiter, from, to, shown.as_text())?;
        self.eval.put(alloc, &left, Value::of_text(new))
    }

    // Gives several pieces of a variable a value.
    fn assign_pieces(
        &mut self,
        alloc: Global,
        pending: Pending,
        values: &[Value],
        value: &Value,
    ) -> Result<(), Code>
        ensures { Does S.NodeStore (λ i. meaning.pieces_assigned value.now (pending_view pending.entry) values.now) (λ u. u) self.old result self.new }
    {
        let from = whole_at(values, 1)?;
        let to = whole_at(values, 2)?;
        let delimiter = text_at(alloc, values, 0)?;
        self.assign_range(alloc, pending, Some(delimiter.as_text()), from, to, value)
    }

    // Gives characters of a variable a value.
    fn assign_characters(
        &mut self,
        alloc: Global,
        pending: Pending,
        values: &[Value],
        value: &Value,
    ) -> Result<(), Code>
        ensures { Does S.NodeStore (λ i. meaning.characters_assigned value.now (pending_view pending.entry) values.now) (λ u. u) self.old result self.new }
    {
        let from = whole_at(values, 0)?;
        let to = whole_at(values, 1)?;
        self.assign_range(alloc, pending, None, from, to, value)
    }

    // Gives a part of a variable a value.
    fn assign_part(
        &mut self,
        alloc: Global,
        function: ValueFunction,
        pending: Pending,
        values: &[Value],
        value: &Value,
    ) -> Result<(), Code>
        ensures { Does S.NodeStore (λ i. meaning.part_assigned value.now (value_function_tree function) (pending_view pending.entry) values.now)
            (λ u. u) self.old result self.new }
    {
        match function {
            ValueFunction::Piece => {
                if values.len() > 2 {
                    return self.assign_pieces(alloc, pending, values, value);
                }
                self.assign_piece(alloc, pending, values, value)
            }
            ValueFunction::Extract => self.assign_characters(alloc, pending, values, value),
            _ => Err(Code::Zsyntax),
        }
    }

    // Gives a target a value.
    fn assign(&mut self, alloc: Global, value: Value, prepared: Prepared) -> Result<(), Code>
        ensures { Does S.NodeStore (λ i. meaning.assigned value (prepared_view prepared.entry)) (λ u. u) self.old result self.new }
    {
        match prepared {
            Prepared::Whole(pending) => {
                let place = self.eval.resolved(alloc, Mode::Write, pending)?;
                self.eval.put(alloc, &place, value)
            }
            Prepared::Part(function, pending, values) => {
                self.assign_part(alloc, function, pending, values.as_slice(), &value)
            }
        }
    }

    /// What the targets to the left of `=` evaluate, one after another. The tree need not hold them afterwards.
    ///
    /// # Errors
    ///
    /// Those of what they evaluate; `Zmem` if memory runs out.
    pub fn prepared_targets<'u>(
        &mut self,
        alloc: Global,
        destination: &Destination,
    ) -> Result<Vec<Prepared<'u>>, Code>
        ensures { Does S.NodeStore (λ i. meaning.all_prepared i [] (meaning.targets (destination_tree destination.now))) (λ all. map prepared_view all.items) self.old result self.new }
    {
        let all = self.all_prepared(alloc, targets_of(destination))?;
        let own = all_own(alloc, all)?;
        Ok(own)
    }

    /// Gives each target a value, one after another.
    ///
    /// # Errors
    ///
    /// The code of the first that has one: those of the checks of the variable, and of the value that a part of it would get. What was
    /// assigned before remains. `Zmem` if memory runs out, and `Zstore` if the store refuses.
    pub fn assign_all(
        &mut self,
        alloc: Global,
        value: &Value,
        all: Vec<Prepared>,
    ) -> Result<(), Code>
        ensures { Does S.NodeStore (λ i. meaning.all_assigned value.now (map prepared_view all.entry.items)) (λ u. u) self.old result self.new }
    {
        for prepared in all {
            self.assign(alloc, value.copy()?, prepared)?;
        }
        Ok(())
    }

    // Gives a node of a local variable with one subscript the value of the expression after it.
    fn setting_node(
        &mut self,
        alloc: Global,
        name: &Name,
        subscript: &Expr,
        e: &Expr,
    ) -> Result<(), Code>
        ensures { Does S.NodeStore (λ i. meaning.setting i (one (variable (local name.now (exprs (expr_tree subscript.now) no_exprs)))) (expr_tree e.now))
            (λ u. u) self.old result self.new }
    {
        let subscript = self.eval.eval(alloc, subscript)?;
        let value = self.eval.eval(alloc, e)?;
        self.eval.fast_put(name, &subscript, value)
    }

    // Gives one target the value of the expression after it, whatever the target evaluates and checks.
    #[inline(never)]
    fn setting_target(&mut self, alloc: Global, target: &Target, e: &Expr) -> Result<(), Code>
        ensures { Does S.NodeStore (λ i. meaning.setting i (one (target_tree target.now)) (expr_tree e.now)) (λ u. u) self.old result self.new }
    {
        let prepared = self.prepared(alloc, target)?;
        let value = self.eval.eval(alloc, e)?;
        self.assign(alloc, value, prepared)
    }

    // The same for a part of a variable after which two values come, as they mostly do: they take no memory besides their own.
    #[inline(never)]
    fn setting_by_two(&mut self, alloc: Global, part: &PartTarget, e: &Expr) -> Result<(), Code>
        requires { length part.now.more.items ≡ 2 }
        ensures { Does S.NodeStore (λ i. meaning.setting i (one (part_tree part.now)) (expr_tree e.now)) (λ u. u) self.old result self.new }
    {
        let pending = self.eval.evaluated(alloc, &part.reference)?;
        let values = self.eval.fast_two(alloc, &part.more)?;
        let value = self.eval.eval(alloc, e)?;
        self.assign_part(alloc, part.word.function(), pending, &values, &value)
    }

    // The same, by how many values come after the variable.
    fn setting_part(&mut self, alloc: Global, target: &Target, e: &Expr) -> Result<(), Code>
        ensures { Does S.NodeStore (λ i. meaning.setting i (one (target_tree target.now)) (expr_tree e.now)) (λ u. u) self.old result self.new }
    {
        if let Target::Part(part) = target
            && part.more.len() == 2
        {
            return self.setting_by_two(alloc, part, e);
        }
        self.setting_target(alloc, target, e)
    }

    // The same, by the shape of a variable. One without subscripts has nothing to evaluate, and no check refuses it.
    fn setting_one(&mut self, alloc: Global, target: &Target, e: &Expr) -> Result<(), Code>
        ensures { Does S.NodeStore (λ i. meaning.setting i (one (target_tree target.now)) (expr_tree e.now)) (λ u. u) self.old result self.new }
    {
        let Target::Variable(reference) = target else {
            return self.setting_part(alloc, target, e);
        };
        match reference {
            Reference::Variable(name) => {
                let value = self.eval.eval(alloc, e)?;
                self.eval.set_variable(name, value)
            }
            Reference::Node(name, subscript) => self.setting_node(alloc, name, subscript, e),
            _ => self.setting_target(alloc, target, e),
        }
    }

    /// Gives what is to the left of `=` the value of the expression after it.
    ///
    /// # Errors
    ///
    /// The code of the first that has one: the parts of the targets from left to right, the expression, each assignment. What
    /// was assigned before remains. `Zmem` if memory runs out, and `Zstore` if the store refuses.
    pub fn setting(
        &mut self,
        alloc: Global,
        destination: &Destination,
        e: &Expr,
    ) -> Result<(), Code>
        ensures { Does S.NodeStore (λ i. meaning.setting i (destination_tree destination.now) (expr_tree e.now)) (λ u. u) self.old result self.new }
    {
        match destination {
            Destination::One(target) => self.setting_one(alloc, target, e),
            Destination::Several(targets) => {
                let all = self.all_prepared(alloc, targets)?;
                let value = self.eval.eval(alloc, e)?;
                self.assign_all(alloc, &value, all)
            }
        }
    }
}

// SPDX-License-Identifier: Apache-2.0
// $INCREMENT: a number is added to a variable, which is read and set with nothing in between.
ghost use Rattle.std.specs.Prelude.{◌≡◌, [], ◌∷◌, map, slice_get};
ghost use Rattle.mgrammar.specs.Grammar.{exprs_of};
ghost use Rattle.mmeaning.specs.Variables as variables;
ghost use Rattle.mmeaning.specs.Yields.{Yields};
ghost use Rattle.mnum.specs.Num.{units};
ghost use Rattle.mspec.specs.Access.{Write};
ghost use Rattle.mtree.specs.Tree.{expr_tree, reference_tree};
ghost use Rattle.moperator.specs.Codes.{fault_of};
ghost use Rattle.meval.specs.Counters as counters;
ghost use Rattle.meval.specs.Evaluates.{Evaluates, standing_of};
ghost use Rattle.meval.specs.Places.{pending_view, place_view, IsOpen};

use crate::eval::Eval;
use crate::place::{Pending, Place};
use crate::value_list::Values;
use crate::variable_name::VariableName;
use mgrant::Mode;
use mnodes::NodeStore;
use mnum::{Bytes7, Name, Num};
use moperator::{Code, increased, number_of};
use mtree::{Expr, Reference};
use mvalue::Value;
use std::alloc::Global;

// What is added, by the first of the values after the variable, if there is one.
fn added(more: &[Value]) -> Result<Num, Code>
    ensures { Yields fault_of (variables.added_of (slice_get more.now 0)) units result }
{
    match more.get(0) {
        None => Ok(Num::from_whole(1)),
        Some(value) => number_of(value),
    }
}

impl<'a, S: NodeStore> Eval<'a, S> {
    // The value of a place that may be changed, or the empty text if it has none.
    fn value_or_empty(&mut self, alloc: Global, place: &Place) -> Result<Value, Code>
        requires { IsOpen (standing_of self.old) Write (place_view place.now) }
        ensures { Evaluates S.NodeStore (λ i. variables.read_or [] (place_view place.now)) (λ v. v) self.old result self.new }
    {
        match self.found(place)? {
            Some(value) => Ok(value),
            None => Ok(Value::of_text(Bytes7::empty(alloc))),
        }
    }

    // What a place that may be changed has once a number is added.
    fn increment_at(&mut self, alloc: Global, place: &Place, by: Num) -> Result<Value, Code>
        requires { IsOpen (standing_of self.old) Write (place_view place.now) }
        ensures { Evaluates S.NodeStore (λ i. variables.increment_at (units by) (place_view place.now)) (λ v. v) self.old result self.new }
    {
        let old = self.value_or_empty(alloc, place)?;
        let new = increased(&old, by)?;
        let kept = new.copy()?;
        self.put(alloc, place, kept)?;
        Ok(new)
    }

    /// What $INCREMENT gives of a variable, once all that its reference has to evaluate is evaluated: the first of these is added, or 1 if
    /// there is none.
    ///
    /// # Errors
    ///
    /// `Zover` if the number of the first of them is too large; those of `resolved`; `Zover` if the number of the variable is too large, or
    /// the sum, and the variable is then as it was; `Zmem` if memory runs out, and `Zstore` if the store refuses.
    pub fn increment_found(
        &mut self,
        alloc: Global,
        pending: Pending,
        more: &[Value],
    ) -> Result<Value, Code>
        ensures { Evaluates S.NodeStore (λ i. counters.increment_by more.now (pending_view pending.entry)) (λ v. v) self.old result self.new }
    {
        let by = added(more)?;
        let place = self.resolved(alloc, Mode::Write, pending)?;
        self.increment_at(alloc, &place, by)
    }

    // What $INCREMENT gives of a variable, by the values after it.
    #[cycle(eval)]
    #[inline(never)]
    pub(crate) fn increment_of(
        &mut self,
        alloc: Global,
        reference: &Reference,
        more: &[Expr],
    ) -> Result<Value, Code>
        ensures { Evaluates S.NodeStore (λ i. counters.increment_of i (reference_tree reference.now) (exprs_of (map expr_tree more.now)))
            (λ v. v) self.old result self.new }
    {
        let pending = self.evaluated(alloc, reference)?;
        let values = self.values(alloc, more)?;
        self.increment_found(alloc, pending, values.as_slice())
    }

    // `increment_of`, for a local variable with this subscript.
    #[cycle(eval)]
    #[inline(never)]
    pub(crate) fn fast_increment(
        &mut self,
        alloc: Global,
        name: &Name,
        subscript: &Value,
        more: &[Expr],
    ) -> Result<Value, Code>
        ensures { Evaluates S.NodeStore
            (λ i. counters.increment_behind (exprs_of (map expr_tree more.now)) i (variables.of_local name.now (subscript.now ∷ [])))
            (λ v. v) self.old result self.new }
    {
        let values = self.values(alloc, more)?;
        let subscripts = Values::one(subscript.copy()?);
        let pending = Pending::Local(VariableName::Lent(name), subscripts);
        self.increment_found(alloc, pending, values.as_slice())
    }
}

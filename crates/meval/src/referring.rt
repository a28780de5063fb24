// SPDX-License-Identifier: Apache-2.0
// $DATA, $GET, $INCREMENT, $NAME, $ORDER and $QUERY of a variable. Each has a function of its own: a function clears the stack space of all
// its cases at each call.
ghost use Rattle.std.specs.Prelude.{[], map};
ghost use Rattle.mgrammar.specs.Grammar.{exprs_of};
ghost use Rattle.mgrammar.specs.Functions.{function_of};
ghost use Rattle.mkey.specs.Way.{way};
ghost use Rattle.mmeaning.specs.Expression as meaning;
ghost use Rattle.mmeaning.specs.Variables as variables;
ghost use Rattle.mtree.specs.Tree.{expr_tree, reference_tree};
ghost use Rattle.mtree.specs.declared.tree.Referring.{out-Referring};
ghost use Rattle.meval.specs.Evaluates.{Evaluates};
ghost use Rattle.meval.specs.Acts as acts;

use crate::eval::Eval;
use crate::walk::{data_value, direction};
use mkey::Direction;
use mnodes::NodeStore;
use moperator::{Code, whole_at};
use mtree::{Expr, Reference, Referring, VariableFunction};
use mvalue::Value;
use std::alloc::Global;

impl<'a, S: NodeStore> Eval<'a, S> {
    // The value of a function of a variable.
    #[cycle(eval)]
    pub(crate) fn referring(&mut self, alloc: Global, referring: &Referring) -> Result<Value, Code>
        ensures { Evaluates S.NodeStore (λ i. variables.referring i.account (function_of (out-Referring referring.now).word) (meaning.evaluated i
            (reference_tree (out-Referring referring.now).reference)) (meaning.values i [] (exprs_of (map expr_tree (out-Referring referring.now).more.items))))
            (λ v. v) self.old result self.new }
    {
        let function = referring.word.function();
        if let Reference::Node(name, subscript) = &referring.reference {
            return self.fast_referring(alloc, function, name, subscript, &referring.more);
        }
        match function {
            VariableFunction::Data => self.data_of(alloc, &referring.reference),
            VariableFunction::Get => self.get_of(alloc, &referring.reference, &referring.more),
            VariableFunction::Increment => self.increment_of(
                alloc,
                &referring.reference,
                &referring.more,
            ),
            VariableFunction::Name => self.name_of(alloc, &referring.reference, &referring.more),
            VariableFunction::Order => self.order_of(alloc, &referring.reference, &referring.more),
            VariableFunction::Query => self.query_of(alloc, &referring.reference, &referring.more),
        }
    }

    // What $DATA gives of a variable.
    #[cycle(eval)]
    #[inline(never)]
    fn data_of(&mut self, alloc: Global, reference: &Reference) -> Result<Value, Code>
        ensures { Evaluates S.NodeStore (λ i. acts.data_of i (reference_tree reference.now)) (λ v. v) self.old result self.new }
    {
        let place = self.place_to_read(alloc, reference)?;
        let data = self.status(alloc, &place)?;
        Ok(data_value(data))
    }

    // What $GET gives of a variable, or of the first of these if it has no value.
    #[cycle(eval)]
    #[inline(never)]
    fn get_of(&mut self, alloc: Global, reference: &Reference, more: &[Expr]) -> Result<Value, Code>
        ensures { Evaluates S.NodeStore (λ i. acts.get_of i (reference_tree reference.now) (exprs_of (map expr_tree more.now)))
            (λ v. v) self.old result self.new }
    {
        let place = self.place_to_read(alloc, reference)?;
        let more = self.values(alloc, more)?;
        self.read_or(alloc, &place, more)
    }

    // What $NAME gives of a variable, with as many subscripts as the first of these says.
    #[cycle(eval)]
    #[inline(never)]
    fn name_of(
        &mut self,
        alloc: Global,
        reference: &Reference,
        more: &[Expr],
    ) -> Result<Value, Code>
        ensures { Evaluates S.NodeStore (λ i. acts.name_of i (reference_tree reference.now) (exprs_of (map expr_tree more.now)))
            (λ v. v) self.old result self.new }
    {
        let pending = self.evaluated(alloc, reference)?;
        let most = self.most(alloc, more)?;
        self.named_pending(alloc, pending, most)
    }

    // How many subscripts $NAME is to give, by the first of the arguments after the variable.
    #[cycle(eval)]
    pub(crate) fn most(&mut self, alloc: Global, more: &[Expr]) -> Result<Option<i64>, Code>
        ensures { Evaluates S.NodeStore (λ i. acts.most_act i (exprs_of (map expr_tree more.now))) (λ most. most) self.old result self.new }
    {
        if more.is_empty() {
            return Ok(None);
        }
        let values = self.values(alloc, more)?;
        whole_at(values.as_slice(), 0)
    }

    // What $ORDER gives of a variable, in the direction that the first of these says.
    #[cycle(eval)]
    #[inline(never)]
    fn order_of(
        &mut self,
        alloc: Global,
        reference: &Reference,
        more: &[Expr],
    ) -> Result<Value, Code>
        ensures { Evaluates S.NodeStore (λ i. acts.order_of i (reference_tree reference.now) (exprs_of (map expr_tree more.now)))
            (λ v. v) self.old result self.new }
    {
        let pending = self.evaluated(alloc, reference)?;
        let walk = self.walked(alloc, pending)?;
        let direction = self.direction(alloc, more)?;
        self.next(alloc, &walk, direction)
    }

    // The direction of $ORDER or $QUERY, by the first of the arguments after the variable.
    #[cycle(eval)]
    pub(crate) fn direction(&mut self, alloc: Global, more: &[Expr]) -> Result<Direction, Code>
        ensures { Evaluates S.NodeStore (λ i. acts.direction_act i (exprs_of (map expr_tree more.now))) way self.old result self.new }
    {
        if more.is_empty() {
            return Ok(Direction::Forward);
        }
        let values = self.values(alloc, more)?;
        direction(values.as_slice())
    }
}

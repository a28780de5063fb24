// SPDX-License-Identifier: Apache-2.0
// Shortcuts. Each function here does what the one that is named beside it does, but faster: delete any of them, and nothing changes but the
// time. They are for what most lines refer to: a literal, a local variable without subscripts, and one with one subscript, whose shape the
// tree has already; and for what most functions are called with. A value is lent where it stands, or put in a place of the caller's.
ghost use Rattle.std.specs.Prelude.{◌≡◌, ◌<◌, [], ◌∷◌, length, map, slice_get, unwrap_or, IfOk, IfSome};
ghost use Rattle.mgrammar.specs.Grammar as grammar;
ghost use Rattle.mgrammar.specs.Grammar.{local, no_exprs, exprs, exprs_of};
ghost use Rattle.mmeaning.specs.Expression as meaning;
ghost use Rattle.mmeaning.specs.Variables as variables;
ghost use Rattle.mnum.specs.Num.{units};
ghost use Rattle.mspec.specs.Access.{Read};
ghost use Rattle.mspec.specs.Act.{get_local};
ghost use Rattle.mspec.specs.KeyBytes.{AreSubscripts};
ghost use Rattle.mspec.specs.Trees.{AreOrderSubscripts};
ghost use Rattle.mkey.specs.Way.{way};
ghost use Rattle.mtree.specs.Tree.{expr_tree, operand_tree};
ghost use Rattle.mtree.specs.Functions.{variable_function_tree};
ghost use Rattle.meval.specs.Evaluates.{Evaluates, standing_of};
ghost use Rattle.meval.specs.Acts as acts;
ghost use Rattle.meval.specs.Places.{IsOpen, pending_view, place_view};
ghost use Rattle.meval.specs.AtHand.{at_hand_tree};

use crate::eval::Eval;
use crate::place::{Pending, Place, check_walk};
use crate::value_list::Values;
use crate::variable_name::VariableName;
use crate::walk::{data_value, first_or_empty, next_value};
use mkey::{Direction, values_ok};
use mnodes::NodeStore;
use mnum::{Name, Num};
use moperator::{Code, computed, name_text, number_of};
use mtree::{Expr, Literal, Operand, Primary, Reference, VariableFunction};
use mvalue::Value;
use std::alloc::Global;
use std::slice::from_ref;

// What has its value at hand. Contracts see it by `at_hand_tree`, as a primary of the grammar.
#[derive(Clone, Copy)]
pub(crate) enum AtHand<'t> {
    // A number, as it is written.
    Number(&'t Literal),
    // A local variable without subscripts.
    Variable(&'t Name),
}

// What an operand is, if it has its value at hand and no sign.
pub(crate) fn at_hand(operand: &Operand) -> Option<AtHand<'_>>
    ensures { IfSome result (λ at_hand. operand_tree operand.now ≡ grammar.operand [] (at_hand_tree at_hand)) }
{
    if !operand.signs.is_empty() {
        return None;
    }
    match &operand.primary {
        Primary::Number(literal) => Some(AtHand::Number(literal)),
        Primary::Reference(Reference::Variable(name)) => Some(AtHand::Variable(name)),
        _ => None,
    }
}

impl<'a, S: NodeStore> Eval<'a, S> {
    // `place_value`, for a local variable without subscripts.
    pub(crate) fn fast_lent(&self, name: &Name) -> Result<&Value, Code>
        ensures { Evaluates S.NodeStore (λ i. get_local name.now []) (λ value. value.now) self.now result self.now }
    {
        match self.session.locals.own(name) {
            Some(value) => Ok(value),
            None => Err(Code::M6),
        }
    }

    // `primary`, for what has its value at hand.
    pub(crate) fn fast_value(&mut self, at_hand: AtHand, place: &mut Value) -> Result<(), Code>
        ensures spent { IfOk result (λ _. self.new.steps < self.old.steps) }
        ensures does { Evaluates S.NodeStore (λ i. meaning.primary_value i (at_hand_tree at_hand.entry)) (λ _. place.new) self.old result self.new }
    {
        self.charge()?;
        match at_hand {
            AtHand::Number(literal) => {
                *place = computed(literal.number())?;
                Ok(())
            }
            AtHand::Variable(name) => {
                let value = self.fast_lent(name)?;
                *place = value.copy()?;
                Ok(())
            }
        }
    }

    // `other_number`, for what has its value at hand.
    pub(crate) fn fast_number(&mut self, at_hand: AtHand, place: &mut Num) -> Result<(), Code>
        ensures spent { IfOk result (λ _. self.new.steps < self.old.steps) }
        ensures does { Evaluates S.NodeStore (λ i. acts.primary_number i (at_hand_tree at_hand.entry)) (λ _. units place.new) self.old result self.new }
    {
        self.charge()?;
        match at_hand {
            AtHand::Number(literal) => match literal.as_number() {
                Some(number) => {
                    *place = *number;
                    Ok(())
                }
                None => Err(Code::Zover),
            },
            AtHand::Variable(name) => {
                let value = self.fast_lent(name)?;
                *place = number_of(value)?;
                Ok(())
            }
        }
    }

    // `through`, for a local variable without subscripts, whose name is kept and not copied.
    #[cycle(eval)]
    pub(crate) fn fast_through<'u>(
        &mut self,
        alloc: Global,
        name: Name,
        subscripts: &[Expr],
    ) -> Result<Pending<'u>, Code>
        ensures { Evaluates S.NodeStore (λ i. acts.through i (local name no_exprs) (exprs_of (map expr_tree subscripts.now)))
            pending_view self.old result self.new }
    {
        let values = self.values(alloc, subscripts)?;
        Ok(Pending::Local(VariableName::Own(name), values))
    }

    // `place_to_read`, for a global of the account's own, to which no reference is built.
    #[cycle(eval)]
    pub(crate) fn fast_own<'t>(
        &mut self,
        alloc: Global,
        name: &'t Name,
        subscripts: &[Expr],
    ) -> Result<Place<'t>, Code>
        ensures allowed { IfOk result (λ place. IsOpen (standing_of self.new) Read (place_view place)) }
        ensures does { Evaluates S.NodeStore (λ i. acts.place_to_read i (grammar.global name.now (exprs_of
            (map expr_tree subscripts.now)))) place_view self.old result self.new }
    {
        let values = self.values(alloc, subscripts)?;
        self.own_place(alloc, VariableName::Lent(name), values)
    }

    /// `values`, for two expressions: the values take no memory besides their own.
    ///
    /// # Errors
    ///
    /// The code of the first that has one.
    #[cycle(eval)]
    pub fn fast_two(&mut self, alloc: Global, exprs: &[Expr]) -> Result<[Value; 2], Code>
        requires { length exprs.now ≡ 2 }
        ensures { Evaluates S.NodeStore (λ i. meaning.values i [] (exprs_of (map expr_tree exprs.now))) (λ values. values) self.old result self.new }
    {
        let first = self.eval(alloc, &exprs[0])?;
        let second = self.eval(alloc, &exprs[1])?;
        Ok([first, second])
    }

    // `values`, for three expressions.
    #[cycle(eval)]
    pub(crate) fn fast_three(&mut self, alloc: Global, exprs: &[Expr]) -> Result<[Value; 3], Code>
        requires { length exprs.now ≡ 3 }
        ensures { Evaluates S.NodeStore (λ i. meaning.values i [] (exprs_of (map expr_tree exprs.now))) (λ values. values) self.old result self.new }
    {
        let first = self.eval(alloc, &exprs[0])?;
        let second = self.eval(alloc, &exprs[1])?;
        let third = self.eval(alloc, &exprs[2])?;
        Ok([first, second, third])
    }

    // `place_value`, for a local variable with one subscript.
    #[cycle(eval)]
    #[inline(never)]
    pub(crate) fn fast_node(
        &mut self,
        alloc: Global,
        name: &Name,
        subscript: &Expr,
    ) -> Result<Value, Code>
        ensures { Evaluates S.NodeStore (λ i. acts.variable_value i (local name.now (exprs (expr_tree subscript.now) no_exprs)))
            (λ v. v) self.old result self.new }
    {
        let mut value = Value::of_whole(0);
        self.eval_into(alloc, subscript, &mut value)?;
        self.fast_read(name, &value)
    }

    // `resolved` and `read`, for a local variable with this subscript.
    fn fast_read(&mut self, name: &Name, subscript: &Value) -> Result<Value, Code>
        ensures { Evaluates S.NodeStore (λ i. acts.read_act (variables.of_local name.now (subscript.now ∷ []))) (λ v. v) self.old result self.new }
    {
        let subscripts = from_ref(subscript);
        if !values_ok(subscripts) {
            return Err(Code::Zsub);
        }
        match self.session.locals.get(name, subscripts)? {
            Some(value) => Ok(value.copy()?),
            None => Err(Code::M6),
        }
    }

    // `referring`, for a local variable with one subscript.
    #[cycle(eval)]
    #[inline(never)]
    pub(crate) fn fast_referring(
        &mut self,
        alloc: Global,
        function: VariableFunction,
        name: &Name,
        subscript: &Expr,
        more: &[Expr],
    ) -> Result<Value, Code>
        ensures { Evaluates S.NodeStore (λ i. variables.variable_function_value i.account (variable_function_tree function) (meaning.evaluated i
            (local name.now (exprs (expr_tree subscript.now) no_exprs))) (meaning.values i [] (exprs_of (map expr_tree more.now))))
            (λ v. v) self.old result self.new }
    {
        let mut value = Value::of_whole(0);
        self.eval_into(alloc, subscript, &mut value)?;
        match function {
            VariableFunction::Data => self.fast_data(name, &value),
            VariableFunction::Get => self.fast_get(alloc, name, &value, more),
            VariableFunction::Increment => self.fast_increment(alloc, name, &value, more),
            VariableFunction::Name => self.fast_name(alloc, name, &value, more),
            VariableFunction::Order => self.fast_order(alloc, name, &value, more),
            VariableFunction::Query => self.fast_query(alloc, name, &value, more),
        }
    }

    // `data_of`, for a local variable with this subscript.
    #[inline(never)]
    fn fast_data(&mut self, name: &Name, subscript: &Value) -> Result<Value, Code>
        ensures { Evaluates S.NodeStore (λ i. acts.data_act (variables.of_local name.now (subscript.now ∷ []))) (λ v. v) self.old result self.new }
    {
        let subscripts = from_ref(subscript);
        if !values_ok(subscripts) {
            return Err(Code::Zsub);
        }
        let data = self.session.locals.data(name, subscripts)?;
        Ok(data_value(data))
    }

    // `get_of`, for a local variable with this subscript.
    #[cycle(eval)]
    #[inline(never)]
    fn fast_get(
        &mut self,
        alloc: Global,
        name: &Name,
        subscript: &Value,
        more: &[Expr],
    ) -> Result<Value, Code>
        ensures { Evaluates S.NodeStore (λ i. acts.get_act (exprs_of (map expr_tree more.now)) i (variables.of_local name.now (subscript.now ∷ [])))
            (λ v. v) self.old result self.new }
    {
        let subscripts = from_ref(subscript);
        if !values_ok(subscripts) {
            return Err(Code::Zsub);
        }
        let more = self.values(alloc, more)?;
        self.fast_read_or(alloc, name, subscripts, more)
    }

    // `read_or`, for a local variable with subscripts that are let through.
    fn fast_read_or(
        &mut self,
        alloc: Global,
        name: &Name,
        subscripts: &[Value],
        others: Values,
    ) -> Result<Value, Code>
        requires { AreSubscripts subscripts.now }
        ensures { Evaluates S.NodeStore (λ i. variables.read_or (unwrap_or (slice_get others 0) []) (variables.at_local name.now subscripts.now))
            (λ v. v) self.old result self.new }
    {
        match self.session.locals.get(name, subscripts)? {
            Some(value) => Ok(value.copy()?),
            None => Ok(first_or_empty(alloc, others)),
        }
    }

    // `name_of`, for a local variable with this subscript.
    #[cycle(eval)]
    #[inline(never)]
    fn fast_name(
        &mut self,
        alloc: Global,
        name: &Name,
        subscript: &Value,
        more: &[Expr],
    ) -> Result<Value, Code>
        ensures { Evaluates S.NodeStore (λ i. acts.name_behind (exprs_of (map expr_tree more.now)) i (variables.of_local name.now (subscript.now ∷ [])))
            (λ v. v) self.old result self.new }
    {
        let most = self.most(alloc, more)?;
        let front = name.as_bytes7().copy()?;
        name_text(alloc, front, from_ref(subscript), most)
    }

    // `order_of`, for a local variable with this subscript.
    #[cycle(eval)]
    #[inline(never)]
    fn fast_order(
        &mut self,
        alloc: Global,
        name: &Name,
        subscript: &Value,
        more: &[Expr],
    ) -> Result<Value, Code>
        ensures { Evaluates S.NodeStore (λ i. acts.order_behind (exprs_of (map expr_tree more.now)) i (variables.of_local name.now (subscript.now ∷ [])))
            (λ v. v) self.old result self.new }
    {
        let subscripts = from_ref(subscript);
        check_walk(subscripts)?;
        let direction = self.direction(alloc, more)?;
        self.fast_next(alloc, name, subscripts, direction)
    }

    // `next`, for a local variable with subscripts that are let through.
    fn fast_next(
        &mut self,
        alloc: Global,
        name: &Name,
        subscripts: &[Value],
        direction: Direction,
    ) -> Result<Value, Code>
        requires { AreOrderSubscripts subscripts.now }
        ensures { Evaluates S.NodeStore (λ i. variables.next_at (way direction) (variables.at_local name.now subscripts.now))
            (λ v. v) self.old result self.new }
    {
        let next = self.session.locals.order(name, subscripts, direction)?;
        Ok(next_value(alloc, next))
    }

    /// `resolved` and `put`, for a local variable with this subscript: gives it a value.
    ///
    /// # Errors
    ///
    /// `Zsub` if the subscript is empty or has more than 255 characters; `Zmem` if memory runs out. The variable is then as it was.
    pub fn fast_put(&mut self, name: &Name, subscript: &Value, value: Value) -> Result<(), Code>
        ensures { Evaluates S.NodeStore (λ i. acts.put_act (variables.of_local name.now (subscript.now ∷ [])) value) (λ u. u) self.old result self.new }
    {
        let subscripts = from_ref(subscript);
        if !values_ok(subscripts) {
            return Err(Code::Zsub);
        }
        self.set_local(name, subscripts, value)
    }
}

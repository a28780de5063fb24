// SPDX-License-Identifier: Apache-2.0
// The evaluation of expressions.
ghost use Rattle.std.specs.Prelude.{◌≡◌, ◌≢◌, ◌≤◌, ◌<◌, [], drop, length, map, Some, Err, IfOk, IfErr, IsErr, IsTrue};
ghost use Rattle.mgrammar.specs.Grammar.{global, indirect, extended, raise, tails_of, exprs_of, choices_of};
ghost use Rattle.mmeaning.specs.Expression as meaning;
ghost use Rattle.mmeaning.specs.LineMeaning as line;
ghost use Rattle.mnum.specs.Num.{units};
ghost use Rattle.mspec.specs.Act.{Text, charge};
ghost use Rattle.mspec.specs.NumberText.{number_text};
ghost use Rattle.mtree.specs.Tree.{expr_tree, tail_tree, operand_tree, primary_tree, reference_tree, choice_tree};
ghost use Rattle.moperator.specs.declared.code.Code.TheVariants.{Zsteps, Zstore};
ghost use Rattle.meval.specs.Evaluates.{Evaluates, KeepsEval, Leads, standing_of};
ghost use Rattle.meval.specs.Acts as acts;
ghost use Rattle.meval.specs.Places.{pending_view};

use crate::depth::Depth;
use crate::global_reference::GlobalReference;
use crate::owner::Owner;
use crate::place::{Pending, bracketed};
use crate::session::Session;
use crate::shortcuts::at_hand;
use crate::value_list::Values;
use crate::variable_name::VariableName;
use mgrant::{AccountId, Settings};
use mnodes::NodeStore;
use mnum::{Name, Num};
use moperator::{
    Code, arithmetic_of, binary, calculate, call, computed, number_of, truth_of, unaries,
};
use mtree::{Choice, Expr, Operand, Primary, Reference, Tail, ValueWord};
use mvalue::{Kind, Value};
use std::alloc::Global;

/// What the evaluation of an expression is lent, and where it stands.
#[derive(Drop)]
pub struct Eval<'a, S> {
    pub session: &'a mut Session,
    pub store: &'a mut S,
    pub settings: &'a Settings,
    pub terminal: u32,
    /// The account of the terminal, in these settings.
    pub account: AccountId,
    /// How many steps are left. Each primary costs one, before it is evaluated.
    pub steps: u32,
    pub depth: Depth,
}

// The tails after the first `count`.
fn tails_behind(tails: &[Tail], count: usize) -> &[Tail]
    requires { count ≤ length tails.now }
    ensures { result.now ≡ drop count tails.now }
{
    &tails[count..]
}

impl<'a, S: NodeStore> Eval<'a, S> {
    /// Spends one step.
    ///
    /// # Errors
    ///
    /// `Zsteps` if none is left.
    pub fn charge(&mut self) -> Result<(), Code>
        ensures spent { IfOk result (λ _. self.new.steps < self.old.steps) }
        ensures session { self.new.session ≡ self.old.session }
        ensures refused { IsErr result → self.new ≡ self.old }
        ensures used_up { IfErr result (λ code. code ≡ Zsteps) }
        ensures does { Evaluates S.NodeStore (λ i. charge) (λ u. u) self.old result self.new }
    {
        if self.steps == 0 {
            return Err(Code::Zsteps);
        }
        self.steps -= 1;
        Ok(())
    }

    /// The language that the texts of its line are read in. Takes no memory.
    pub fn language(&self) -> u32
        ensures language { result ≡ (standing_of self.now).given.language }
        ensures known { result ≤ 1 }
    {
        self.settings.language_of(self.account)
    }

    /// The value of a primary. It costs a step, even if it then fails.
    ///
    /// # Errors
    ///
    /// Those of `eval`.
    #[cycle(eval)]
    pub fn primary(&mut self, alloc: Global, primary: &Primary) -> Result<Value, Code>
        ensures spent { IfOk result (λ _. self.new.steps < self.old.steps) }
        ensures does { Evaluates S.NodeStore (λ i. meaning.primary_value i (primary_tree primary.now)) (λ v. v) self.old result self.new }
    {
        self.charge()?;
        match primary {
            Primary::Number(literal) => computed(literal.number()),
            Primary::Text(text) => Ok(Value::of_text(text.copy()?)),
            Primary::Special(word) => self.special(word),
            Primary::Reference(reference) => self.variable(alloc, reference),
            Primary::Bracket(inner) => self.eval(alloc, inner),
            Primary::Call(word, arguments) => self.called(alloc, word, arguments),
            Primary::Select(_, choices) => self.chosen(alloc, choices),
            Primary::Refer(referring) => self.referring(alloc, referring),
            Primary::Extrinsic(_) => Err(Code::Zsyntax),
        }
    }

    // The value of a variable.
    #[cycle(eval)]
    fn variable(&mut self, alloc: Global, reference: &Reference) -> Result<Value, Code>
        ensures { Evaluates S.NodeStore (λ i. acts.variable_value i (reference_tree reference.now)) (λ v. v) self.old result self.new }
    {
        match reference {
            Reference::Variable(name) => {
                let value = self.fast_lent(name)?;
                Ok(value.copy()?)
            }
            Reference::Node(name, subscript) => self.fast_node(alloc, name, subscript),
            _ => self.place_value(alloc, reference),
        }
    }

    // The value of any variable, at its place. It is kept out of line, as are the others of its kind below: a function clears the stack
    // space of all its cases, and most references are to a local variable with one subscript.
    #[cycle(eval)]
    #[inline(never)]
    fn place_value(&mut self, alloc: Global, reference: &Reference) -> Result<Value, Code>
        ensures { Evaluates S.NodeStore (λ i. acts.variable_value i (reference_tree reference.now)) (λ v. v) self.old result self.new }
    {
        let place = self.place_to_read(alloc, reference)?;
        self.read(&place)
    }

    // The value of a function of values.
    #[cycle(eval)]
    #[inline(never)]
    fn called(&mut self, alloc: Global, word: &ValueWord, arguments: &[Expr]) -> Result<Value, Code>
        ensures { Evaluates S.NodeStore (λ i. acts.call_act i word.now (exprs_of (map expr_tree arguments.now))) (λ v. v) self.old result self.new }
    {
        match arguments.len() {
            2 => {
                let values = self.fast_two(alloc, arguments)?;
                call(alloc, word, &values)
            }
            3 => {
                let values = self.fast_three(alloc, arguments)?;
                call(alloc, word, &values)
            }
            _ => {
                let values = self.values(alloc, arguments)?;
                call(alloc, word, values.as_slice())
            }
        }
    }

    /// What a reference evaluates, before any check.
    ///
    /// # Errors
    ///
    /// Those of the values of its subscripts, of its environment and of its operand.
    #[cycle(eval)]
    pub fn evaluated<'t>(
        &mut self,
        alloc: Global,
        reference: &'t Reference,
    ) -> Result<Pending<'t>, Code>
        ensures { Evaluates S.NodeStore (λ i. meaning.evaluated i (reference_tree reference.now)) pending_view self.old result self.new }
    {
        match reference {
            Reference::Variable(name) => {
                Ok(Pending::Local(VariableName::Lent(name), Values::none(alloc)))
            }
            Reference::Node(name, subscript) => {
                let value = self.eval(alloc, subscript)?;
                Ok(Pending::Local(VariableName::Lent(name), Values::one(value)))
            }
            Reference::Local(name, subscripts) => {
                let values = self.values(alloc, subscripts)?;
                Ok(Pending::Local(VariableName::Lent(name), values))
            }
            Reference::Global(name, subscripts) => self.global(alloc, name, subscripts),
            Reference::Naked(subscripts) => {
                let values = self.values(alloc, subscripts)?;
                Ok(Pending::Naked(values))
            }
            Reference::Indirect(operand, subscripts) => self.named(alloc, operand, subscripts),
            Reference::Extended(environment, name, subscripts) => {
                self.extended(alloc, environment, name, subscripts)
            }
        }
    }

    // What a global of the account's own has to evaluate.
    #[cycle(eval)]
    fn global<'t>(
        &mut self,
        alloc: Global,
        name: &'t Name,
        subscripts: &[Expr],
    ) -> Result<Pending<'t>, Code>
        ensures { Evaluates S.NodeStore (λ i. meaning.evaluated i (global name.now (exprs_of
            (map expr_tree subscripts.now)))) pending_view self.old result self.new }
    {
        let values = self.values(alloc, subscripts)?;
        let node = self.own_node(alloc, VariableName::Lent(name), values);
        Ok(Pending::Global(node))
    }

    // What a global of an environment has to evaluate: the account, and then its subscripts.
    #[cycle(eval)]
    fn extended<'t>(
        &mut self,
        alloc: Global,
        environment: &Expr,
        name: &'t Name,
        subscripts: &[Expr],
    ) -> Result<Pending<'t>, Code>
        ensures { Evaluates S.NodeStore (λ i. meaning.evaluated i (extended (expr_tree environment.now) name.now (exprs_of
            (map expr_tree subscripts.now)))) pending_view self.old result self.new }
    {
        let owner = self.eval(alloc, environment)?;
        let account = Owner::of_value(alloc, owner)?;
        let subscripts = self.values(alloc, subscripts)?;
        let node = GlobalReference::new(account, VariableName::Lent(name), subscripts);
        Ok(Pending::Global(node))
    }

    // What the variable that an operand's text names has to evaluate, and the subscripts after it.
    #[cycle(eval)]
    fn named<'u>(
        &mut self,
        alloc: Global,
        operand: &Primary,
        subscripts: &[Expr],
    ) -> Result<Pending<'u>, Code>
        ensures { Evaluates S.NodeStore (λ i. meaning.evaluated i (indirect (primary_tree operand.now) (exprs_of
            (map expr_tree subscripts.now)))) pending_view self.old result self.new }
    {
        let value = self.primary(alloc, operand)?;
        self.named_by(alloc, value, subscripts)
    }

    // What a reference that a text gave has to evaluate, and then the subscripts after it.
    #[cycle(eval)]
    pub(crate) fn through_given<'u>(
        &mut self,
        alloc: Global,
        reference: Reference,
        subscripts: &[Expr],
    ) -> Result<Pending<'u>, Code>
        ensures { Evaluates S.NodeStore (λ i. acts.through i (reference_tree reference) (exprs_of (map expr_tree subscripts.now)))
            pending_view self.old result self.new }
    {
        match reference.into_name() {
            Ok(name) => self.fast_through(alloc, name, subscripts),
            Err(reference) => self.through(alloc, &reference, subscripts),
        }
    }

    // What a reference has to evaluate, and then the subscripts after it.
    #[cycle(eval)]
    fn through<'u>(
        &mut self,
        alloc: Global,
        reference: &Reference,
        subscripts: &[Expr],
    ) -> Result<Pending<'u>, Code>
        ensures { Evaluates S.NodeStore (λ i. acts.through i (reference_tree reference.now) (exprs_of (map expr_tree subscripts.now)))
            pending_view self.old result self.new }
    {
        let front = self.evaluated(alloc, reference)?;
        let values = self.values(alloc, subscripts)?;
        Ok(front.extended(alloc, values)?)
    }

    /// The values of expressions, one after another.
    ///
    /// # Errors
    ///
    /// The code of the first that has one.
    #[cycle(eval)]
    pub fn values(&mut self, alloc: Global, exprs: &[Expr]) -> Result<Values, Code>
        ensures { Evaluates S.NodeStore (λ i. meaning.values i [] (exprs_of (map expr_tree exprs.now))) (λ values. values) self.old result self.new }
    {
        if let [e] = exprs {
            let value = self.eval(alloc, e)?;
            return Ok(Values::one(value));
        }
        let mut values = Vec::with_capacity(alloc, exprs.len())?;
        for e in exprs {
            let value = self.eval(alloc, e)?;
            values.push(value)?;
        }
        Ok(Values::of_vec(values))
    }

    // The value of the first choice whose condition is true.
    #[cycle(eval)]
    #[inline(never)]
    fn chosen(&mut self, alloc: Global, choices: &[Choice]) -> Result<Value, Code>
        ensures { Evaluates S.NodeStore (λ i. meaning.chosen i (choices_of (map choice_tree choices.now))) (λ v. v) self.old result self.new }
    {
        for choice in choices {
            let condition = self.eval(alloc, &choice.condition)?;
            if truth_of(&condition)? {
                return self.eval(alloc, &choice.value);
            }
        }
        Err(Code::M4)
    }

    /// The value of a primary, and then of the signs in front of it.
    ///
    /// # Errors
    ///
    /// Those of `eval`.
    #[cycle(eval)]
    pub fn operand(&mut self, alloc: Global, operand: &Operand) -> Result<Value, Code>
        ensures spent { IfOk result (λ _. self.new.steps < self.old.steps) }
        ensures does { Evaluates S.NodeStore (λ i. meaning.operand_value i (operand_tree operand.now)) (λ v. v) self.old result self.new }
    {
        if operand.signs.is_empty() {
            return self.primary(alloc, &operand.primary);
        }
        let value = self.primary(alloc, &operand.primary)?;
        unaries(&operand.signs, value)
    }

    // The same, put in a place that the caller lends.
    #[cycle(eval)]
    fn operand_into(
        &mut self,
        alloc: Global,
        operand: &Operand,
        place: &mut Value,
    ) -> Result<(), Code>
        ensures spent { IfOk result (λ _. self.new.steps < self.old.steps) }
        ensures does { Evaluates S.NodeStore (λ i. meaning.operand_value i (operand_tree operand.now)) (λ _. place.new) self.old result self.new }
    {
        if let Some(at_hand) = at_hand(operand) {
            return self.fast_value(at_hand, place);
        }
        *place = self.operand(alloc, operand)?;
        Ok(())
    }

    // Whether a value matches the pattern that an operand's text is.
    #[cycle(eval)]
    #[inline(never)]
    fn matches_indirect(
        &mut self,
        alloc: Global,
        operand: &Primary,
        value: &Value,
    ) -> Result<bool, Code>
        ensures { Evaluates S.NodeStore (λ i. acts.matches_act i (primary_tree operand.now) value.now) (λ b. b) self.old result self.new }
    {
        let given = self.primary(alloc, operand)?;
        self.matches_text(alloc, value, given)
    }

    /// What is done with the value to the left, which becomes the result. It is changed in place: a value that is moved right after it is
    /// written has to end first.
    ///
    /// # Errors
    ///
    /// Those of `eval`, and of the operator. The value to the left is then any.
    #[cycle(eval)]
    pub fn tail(&mut self, alloc: Global, left: &mut Value, tail: &Tail) -> Result<(), Code>
        ensures { Evaluates S.NodeStore (λ i. meaning.tail_value i left.old (tail_tree tail.now)) (λ _. left.new) self.old result self.new }
    {
        match tail {
            Tail::Apply(operator, operand) => {
                let mut right = Value::of_whole(0);
                self.operand_into(alloc, operand, &mut right)?;
                binary(alloc, *operator, left, &right)
            }
            Tail::Matches(atoms) => {
                let matches = self.matching(alloc, atoms, left)?;
                *left = Value::of_truth(matches);
                Ok(())
            }
            Tail::MatchesNot(atoms) => {
                let matches = self.matching(alloc, atoms, left)?;
                *left = Value::of_truth(!matches);
                Ok(())
            }
            Tail::Raise(operand) => self.raised(alloc, left, operand),
            Tail::MatchesIndirect(operand) => {
                let matches = self.matches_indirect(alloc, operand, left)?;
                *left = Value::of_truth(matches);
                Ok(())
            }
            Tail::MatchesNotIndirect(operand) => {
                let matches = self.matches_indirect(alloc, operand, left)?;
                *left = Value::of_truth(!matches);
                Ok(())
            }
        }
    }

    // What `**` does with the value to the left. It is kept out of line, so that the other operators need not clear its stack space.
    #[cycle(eval)]
    #[inline(never)]
    fn raised(&mut self, alloc: Global, left: &mut Value, operand: &Operand) -> Result<(), Code>
        ensures { Evaluates S.NodeStore (λ i. meaning.tail_value i left.old (raise (operand_tree operand.now))) (λ _. left.new) self.old result self.new }
    {
        let right = self.operand(alloc, operand)?;
        self.raise(left, &right)
    }

    // What is done with the value to the left, one step after another.
    #[cycle(eval)]
    fn with_tails(&mut self, alloc: Global, value: &mut Value, tails: &[Tail]) -> Result<(), Code>
        ensures { Evaluates S.NodeStore (λ i. meaning.tails_value i value.old (tails_of (map tail_tree tails.now))) (λ _. value.new) self.old result self.new }
    {
        for tail in tails {
            self.tail(alloc, value, tail)?;
        }
        Ok(())
    }

    // The number of an operand's value, put in a place.
    #[cycle(eval)]
    fn operand_number(
        &mut self,
        alloc: Global,
        operand: &Operand,
        place: &mut Num,
    ) -> Result<(), Code>
        ensures spent { IfOk result (λ _. self.new.steps < self.old.steps) }
        ensures does { Evaluates S.NodeStore (λ i. acts.operand_number i (operand_tree operand.now)) (λ _. units place.new) self.old result self.new }
    {
        if let Some(at_hand) = at_hand(operand) {
            return self.fast_number(at_hand, place);
        }
        self.other_number(alloc, operand, place)
    }

    // The same for any operand. In brackets, a number need not become a value.
    #[cycle(eval)]
    #[inline(never)]
    fn other_number(
        &mut self,
        alloc: Global,
        operand: &Operand,
        place: &mut Num,
    ) -> Result<(), Code>
        ensures spent { IfOk result (λ _. self.new.steps < self.old.steps) }
        ensures does { Evaluates S.NodeStore (λ i. acts.operand_number i (operand_tree operand.now)) (λ _. units place.new) self.old result self.new }
    {
        if let Some(inner) = bracketed(operand) {
            self.charge()?;
            return self.expression_number(alloc, inner, place);
        }
        let value = self.operand(alloc, operand)?;
        *place = number_of(&value)?;
        Ok(())
    }

    // What arithmetic operators do with the number to the left, up to the first operator of another kind, and how many there are. The
    // number stays in its place.
    #[cycle(eval)]
    fn chain(&mut self, alloc: Global, left: &mut Num, tails: &[Tail]) -> Result<usize, Code>
        ensures keeps { KeepsEval self.old self.new }
        ensures within { IfOk result (λ count. count ≤ length tails.now) }
        ensures leads { IfOk result (λ count. Leads S.NodeStore (λ i. meaning.tails_value i (number_text (units left.old)) (tails_of
            (map tail_tree tails.now))) self.old (λ i. meaning.tails_value i (number_text (units left.new)) (tails_of (map tail_tree
            (drop count tails.now)))) self.new) }
        ensures stops { IfErr result (λ code. Evaluates S.NodeStore (λ i. meaning.tails_value i (number_text (units left.old)) (tails_of
            (map tail_tree tails.now))) (λ (v : Text). v) self.old (Err code) self.new) }
    {
        for (i, tail) in tails.iter().enumerate() {
            let Tail::Apply(operator, operand) = tail else {
                return Ok(i);
            };
            let Some(operator) = arithmetic_of(*operator) else {
                return Ok(i);
            };
            let mut right = Num::from_whole(0);
            self.operand_number(alloc, operand, &mut right)?;
            calculate(operator, left, &right)?;
        }
        Ok(tails.len())
    }

    // What is done with the value to the left, which stays a number as long as arithmetic operators come.
    #[cycle(eval)]
    fn with_rest(&mut self, alloc: Global, value: &mut Value, tails: &[Tail]) -> Result<(), Code>
        ensures { Evaluates S.NodeStore (λ i. meaning.tails_value i value.old (tails_of (map tail_tree tails.now))) (λ _. value.new) self.old result self.new }
    {
        let Kind::Number(number) = value.kind() else {
            return self.with_tails(alloc, value, tails);
        };
        let mut number = *number;
        let count = self.chain(alloc, &mut number, tails)?;
        *value = Value::of_number(number);
        self.with_tails(alloc, value, tails_behind(tails, count))
    }

    // The value of an expression, put in a place that the caller lends.
    #[cycle(eval)]
    pub(crate) fn eval_into(
        &mut self,
        alloc: Global,
        e: &Expr,
        place: &mut Value,
    ) -> Result<(), Code>
        ensures spent { IfOk result (λ _. self.new.steps < self.old.steps) }
        ensures does { Evaluates S.NodeStore (λ i. meaning.value i (expr_tree e.now)) (λ _. place.new) self.old result self.new }
    {
        self.operand_into(alloc, &e.first, place)?;
        if e.rest.is_empty() {
            return Ok(());
        }
        self.with_rest(alloc, place, &e.rest)
    }

    /// The value of an expression. It costs at least one step.
    ///
    /// # Errors
    ///
    /// The code that the value has in place of a text; also `Zmem` if memory runs out, and `Zstore` if the store refuses. The
    /// steps are then those that were left when the evaluation ended.
    #[cycle(eval)]
    pub fn eval(&mut self, alloc: Global, e: &Expr) -> Result<Value, Code>
        ensures spent { IfOk result (λ _. self.new.steps < self.old.steps) }
        ensures does { Evaluates S.NodeStore (λ i. meaning.value i (expr_tree e.now)) (λ v. v) self.old result self.new }
        ensures steady { S.steady → IsTrue (S.has_room self.new.store.now) → result ≢ Err Zstore }
    {
        let mut value = Value::of_whole(0);
        self.eval_into(alloc, e, &mut value)?;
        Ok(value)
    }

    // The number of an expression's value, put in a place.
    #[cycle(eval)]
    fn expression_number(&mut self, alloc: Global, e: &Expr, place: &mut Num) -> Result<(), Code>
        ensures spent { IfOk result (λ _. self.new.steps < self.old.steps) }
        ensures does { Evaluates S.NodeStore (λ i. line.number_of i (expr_tree e.now)) (λ _. units place.new) self.old result self.new }
    {
        if e.rest.is_empty() {
            return self.operand_number(alloc, &e.first, place);
        }
        let mut value = Value::of_whole(0);
        self.eval_into(alloc, e, &mut value)?;
        *place = number_of(&value)?;
        Ok(())
    }

    /// The number of an expression's value. It costs at least one step.
    ///
    /// # Errors
    ///
    /// Those of the value; `Zover` if its number is too large.
    pub fn number(&mut self, alloc: Global, e: &Expr) -> Result<Num, Code>
        ensures spent { IfOk result (λ _. self.new.steps < self.old.steps) }
        ensures does { Evaluates S.NodeStore (λ i. line.number_of i (expr_tree e.now)) units self.old result self.new }
    {
        let mut number = Num::from_whole(0);
        self.expression_number(alloc, e, &mut number)?;
        Ok(number)
    }

    /// Whether an expression's value is true. It costs at least one step.
    ///
    /// # Errors
    ///
    /// Those of the value; `Zover` if its number is too large.
    pub fn truth(&mut self, alloc: Global, e: &Expr) -> Result<bool, Code>
        ensures spent { IfOk result (λ _. self.new.steps < self.old.steps) }
        ensures does { Evaluates S.NodeStore (λ i. acts.truth i (expr_tree e.now)) (λ is_true. is_true) self.old result self.new }
    {
        let value = self.eval(alloc, e)?;
        truth_of(&value)
    }
}

// SPDX-License-Identifier: Apache-2.0
// What the actuals of a DO hand over.
ghost use Rattle.std.specs.Prelude.{◌≡◌, ◌↔◌, [], map, IsTrue};
ghost use Rattle.mgrammar.specs.Grammar as grammar;
ghost use Rattle.mgrammar.specs.Grammar.{actuals_of, indirect_actual, missing_actual};
ghost use Rattle.mmeaning.specs.Expression.{linked_by};
ghost use Rattle.mmeaning.specs.Parameters as meaning;
ghost use Rattle.mtree.specs.Tree.{actual_tree, primary_tree};
ghost use Rattle.mlocal.specs.Bindings.{binding_of};
ghost use Rattle.mcommand.specs.Does.{Does};

use crate::parts::Parts;
use mlocal::Binding;
use mnodes::NodeStore;
use mnum::Name;
use moperator::Code;
use mtree::{Actual, Primary};
use mvalue::Value;
use std::alloc::Global;

// Whether an actual is missing.
fn is_missing(actual: &Actual) -> bool
    ensures { IsTrue result ↔ (actual_tree actual.now ≡ missing_actual) }
{
    match actual {
        Actual::Missing => true,
        Actual::Value(_) => false,
        Actual::Name(_) => false,
        Actual::IndirectName(_) => false,
    }
}

// Whether a list is one actual that is missing, alone in its brackets.
fn is_bare(actuals: &[Actual]) -> bool
    ensures { IsTrue result ↔ (actuals_of (map actual_tree actuals.now) ≡ grammar.actuals missing_actual grammar.no_actuals) }
{
    match actuals {
        [only] => is_missing(only),
        _ => false,
    }
}

impl<'a, S: NodeStore> Parts<'a, S> {
    /// The variable whose name a value is.
    ///
    /// # Errors
    ///
    /// `Zdepth` if that would be one indirection too many, `Zsyntax` if it is no name; `Zmem` if memory runs out.
    #[inline]
    pub fn linked_by(&mut self, alloc: Global, given: Value) -> Result<Binding, Code>
        ensures { Does S.NodeStore (λ i. linked_by i given) binding_of self.old result self.new }
    {
        let Some(_) = self.eval.depth.indirected() else {
            return Err(Code::Zdepth);
        };
        let text = given.into_text(alloc)?;
        match Name::new(text) {
            Ok(name) => Ok(Binding::Linked(name)),
            Err(_) => Err(Code::Zsyntax),
        }
    }

    // The variable whose name the value of an operand is.
    fn handed_name(&mut self, alloc: Global, operand: &Primary) -> Result<Binding, Code>
        ensures { Does S.NodeStore (λ i. meaning.handed i (indirect_actual (primary_tree operand.now))) binding_of self.old result self.new }
    {
        let given = self.eval.primary(alloc, operand)?;
        self.linked_by(alloc, given)
    }

    /// What an actual hands over: a value, a variable of the caller, or nothing.
    ///
    /// # Errors
    ///
    /// Those of its value, and of `linked_by`; `Zmem` if memory runs out.
    pub fn handed(&mut self, alloc: Global, actual: &Actual) -> Result<Binding, Code>
        ensures { Does S.NodeStore (λ i. meaning.handed i (actual_tree actual.now)) binding_of self.old result self.new }
    {
        match actual {
            Actual::Missing => Ok(Binding::Unset),
            Actual::Value(e) => {
                let value = self.eval.eval(alloc, e)?;
                Ok(Binding::Valued(value))
            }
            Actual::Name(name) => Ok(Binding::Linked(name.copy()?)),
            Actual::IndirectName(operand) => self.handed_name(alloc, operand),
        }
    }

    // What actuals hand over, from left to right. Kept out of line, so that a DO without actuals is short.
    #[inline(never)]
    fn all_handed(&mut self, alloc: Global, actuals: &[Actual]) -> Result<Vec<Binding>, Code>
        ensures { Does S.NodeStore (λ i. meaning.all_handed i [] (actuals_of (map actual_tree actuals.now)))
            (λ bindings. map binding_of bindings.items) self.old result self.new }
    {
        let mut bindings = Vec::with_capacity(alloc, actuals.len())?;
        for actual in actuals {
            let binding = self.handed(alloc, actual)?;
            bindings.push(binding)?;
        }
        Ok(bindings)
    }

    /// What the actuals of a DO hand over, from left to right: values, variables of the caller, or nothing. One that is missing, alone in its
    /// brackets, is none.
    ///
    /// # Errors
    ///
    /// Those of the actuals' values; `Zdepth` if the text of an `@` would be one indirection too many, `Zsyntax` if it is no name; `Zmem`
    /// if memory runs out.
    pub fn handed_over(&mut self, alloc: Global, actuals: &[Actual]) -> Result<Vec<Binding>, Code>
        ensures { Does S.NodeStore (λ i. meaning.handed_over i (actuals_of (map actual_tree actuals.now)))
            (λ bindings. map binding_of bindings.items) self.old result self.new }
    {
        if actuals.is_empty() {
            return Ok(Vec::new(alloc));
        }
        if is_bare(actuals) {
            return Ok(Vec::new(alloc));
        }
        self.all_handed(alloc, actuals)
    }
}

// SPDX-License-Identifier: Apache-2.0
// A parameter of FOR: how its turns begin, and whether there is one more.
ghost use Rattle.std.specs.Prelude.{◌≡◌, ℤ, ◌+ℤ◌, map, option_map};
ghost use Rattle.mmeaning.specs.Programs.{looped, some_numbers, begun_within};
ghost use Rattle.mcommand.specs.Steps.{item_view};
ghost use Rattle.mmeaning.specs.Courses as courses;
ghost use Rattle.mnum.specs.Num.{units};
ghost use Rattle.mgrammar.specs.Grammar.{onward, until};
ghost use Rattle.mtree.specs.Tree.{expr_tree, parameter_tree};
ghost use Rattle.mcommand.specs.Does.{Does};
ghost use Rattle.mcommand.specs.ForParameters.{course_view, start_and_increment, started, advanced, added, added_within};

use crate::items::Item;
use crate::parts::Parts;
use mnodes::NodeStore;
use mnum::{Name, Num};
use moperator::{Code, computed};
use mtree::{Expr, Parameter};
use mvalue::Value;
use std::alloc::Global;

/// How a FOR goes on after a turn. Contracts see it by `course_view`, as one of the definitions.
#[derive(Clone, Copy)]
pub enum Course {
    /// With the next parameter.
    LastTurn,
    /// By this increment, without an end.
    Endless(Num),
    /// By this increment, up to this limit.
    Limited(Num, Num),
    /// Without a parameter, and without an end.
    Forever,
}

// Whether an index of `at` units is beyond the limit, if `by` is the increment.
fn is_past(by: Num, at: i128, limit: Num) -> bool
    ensures { result ≡ courses.is_past (units by) at (units limit) }
{
    if by.to_units() < 0 {
        at < limit.to_units()
    } else {
        limit.to_units() < at
    }
}

// Whether a first value is beyond the limit.
fn starts_past(by: Num, number: Num, limit: Num) -> bool
    ensures { result ≡ courses.is_past (units by) (units number) (units limit) }
{
    is_past(by, number.to_units(), limit)
}

// How the turns of a start go on, unless it is beyond the limit.
fn course_within(by: Num, number: Num, limit: Num) -> Option<Course>
    ensures { option_map course_view result ≡ begun_within (units number) (units by) (units limit) }
{
    if starts_past(by, number, limit) {
        None
    } else {
        Some(Course::Limited(by, limit))
    }
}

// Whether an index is beyond the limit once the increment is added, before the sum is rounded.
fn goes_past(by: Num, number: Num, limit: Num) -> bool
    ensures { result ≡ courses.is_past (units by) (units number +ℤ units by) (units limit) }
{
    is_past(by, number.to_units() + by.to_units(), limit)
}

impl<'a, S: NodeStore> Parts<'a, S> {
    // The numbers of a start and of an increment.
    fn start_and_increment(
        &mut self,
        alloc: Global,
        e: &Expr,
        by: &Expr,
    ) -> Result<(Num, Num), Code>
        ensures { Does S.NodeStore (λ i. start_and_increment i (expr_tree e.now) (expr_tree by.now)) (λ numbers.
            (units numbers.0, units numbers.1)) self.old result self.new }
    {
        let number = self.eval.number(alloc, e)?;
        let by = self.eval.number(alloc, by)?;
        Ok((number, by))
    }

    // The turns of a start and an increment: how they go on.
    fn start_endless(
        &mut self,
        alloc: Global,
        index: &Name,
        e: &Expr,
        by: &Expr,
    ) -> Result<Option<Course>, Code>
        ensures { Does S.NodeStore (λ i. started i index.now (onward (expr_tree e.now) (expr_tree by.now))) (option_map course_view) self.old result self.new }
    {
        let (number, by) = self.start_and_increment(alloc, e, by)?;
        self.eval.set_variable(index, Value::of_number(number))?;
        Ok(Some(Course::Endless(by)))
    }

    // The turns of a start, an increment and a limit: how they go on, if the start is not beyond the limit.
    fn start_limited(
        &mut self,
        alloc: Global,
        index: &Name,
        e: &Expr,
        by: &Expr,
        limit: &Expr,
    ) -> Result<Option<Course>, Code>
        ensures { Does S.NodeStore (λ i. started i index.now (until (expr_tree e.now) (expr_tree by.now) (expr_tree limit.now)))
            (option_map course_view) self.old result self.new }
    {
        let (number, by) = self.start_and_increment(alloc, e, by)?;
        let limit = self.eval.number(alloc, limit)?;
        self.eval.set_variable(index, Value::of_number(number))?;
        Ok(course_within(by, number, limit))
    }

    /// Evaluates a parameter of FOR and gives the index its first value. Returns how its turns go on, or nothing if there is no turn.
    ///
    /// # Errors
    ///
    /// Those of the values; `Zover` if a number is too large; `Zmem` if memory runs out.
    pub fn start_parameter(
        &mut self,
        alloc: Global,
        index: &Name,
        parameter: &Parameter,
    ) -> Result<Option<Course>, Code>
        ensures { Does S.NodeStore (λ i. started i index.now (parameter_tree parameter.now)) (option_map course_view) self.old result self.new }
    {
        match parameter {
            Parameter::Once(e) => {
                let value = self.eval.eval(alloc, e)?;
                self.eval.set_variable(index, value)?;
                Ok(Some(Course::LastTurn))
            }
            Parameter::Onward(e, by) => self.start_endless(alloc, index, e, by),
            Parameter::Until(e, by, limit) => self.start_limited(alloc, index, e, by, limit),
        }
    }

    // Gives the index the start of numbers that a parameter left: how its turns go on, if there is one.
    fn begin_numbers(&mut self, index: &Name, numbers: &[Num]) -> Result<Option<Course>, Code>
        ensures { Does S.NodeStore (λ i. looped index.now (some_numbers (map units numbers.now))) (option_map course_view) self.old result self.new }
    {
        match numbers {
            [start, by] => {
                self.eval.set_variable(index, Value::of_number(*start))?;
                Ok(Some(Course::Endless(*by)))
            }
            [start, by, limit] => {
                self.eval.set_variable(index, Value::of_number(*start))?;
                Ok(course_within(*by, *start, *limit))
            }
            _ => Err(Code::Zsyntax),
        }
    }

    /// Gives the index its first value, from what a parameter of FOR left on a stack. Returns how its turns go on, or nothing if there is no
    /// turn.
    ///
    /// # Errors
    ///
    /// `Zsyntax` if that is neither a value nor numbers, as it is in each program; `Zmem` if memory runs out.
    pub fn begin_course(&mut self, index: &Name, left: Item) -> Result<Option<Course>, Code>
        ensures { Does S.NodeStore (λ i. looped index.now (item_view left)) (option_map course_view) self.old result self.new }
    {
        match left {
            Item::Value(first) => {
                self.eval.set_variable(index, first)?;
                Ok(Some(Course::LastTurn))
            }
            Item::Numbers(numbers) => self.begin_numbers(index, &numbers),
            _ => Err(Code::Zsyntax),
        }
    }

    // Gives the index its number with the increment added.
    fn add(&mut self, index: &Name, number: Num, by: Num) -> Result<bool, Code>
        ensures { Does S.NodeStore (λ i. added index.now (units number) (units by)) (λ goes_on. goes_on) self.old result self.new }
    {
        let next = computed(number.add(by))?;
        self.eval.set_variable(index, next)?;
        Ok(true)
    }

    // The same, unless that is beyond the limit.
    fn add_within(&mut self, index: &Name, number: Num, by: Num, limit: Num) -> Result<bool, Code>
        ensures { Does S.NodeStore (λ i. added_within index.now (units number) (units by) (units limit)) (λ goes_on. goes_on) self.old result self.new }
    {
        if goes_past(by, number, limit) {
            return Ok(false);
        }
        self.add(index, number, by)
    }

    /// Goes on after a turn: whether there is one more turn of this course, for which the index is set.
    ///
    /// # Errors
    ///
    /// `M15` if the index is undefined; `Zover` if its number, or the sum, is too large; `Zmem` if memory runs out.
    pub fn advance_parameter(&mut self, index: &Name, course: Course) -> Result<bool, Code>
        ensures { Does S.NodeStore (λ i. advanced index.now (course_view course)) (λ goes_on. goes_on) self.old result self.new }
    {
        match course {
            Course::LastTurn => Ok(false),
            Course::Endless(by) => {
                let number = self.eval.index(index)?;
                self.add(index, number, by)
            }
            Course::Limited(by, limit) => {
                let number = self.eval.index(index)?;
                self.add_within(index, number, by, limit)
            }
            Course::Forever => Ok(true),
        }
    }
}

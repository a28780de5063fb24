// SPDX-License-Identifier: Apache-2.0
// What commands ask of the session of an evaluation, and change in it.
ghost use Rattle.std.specs.Prelude.{◌≡◌, [], ◌∷◌, Ok, IfOk};
ghost use Rattle.mgrammar.specs.Specials.{special_of};
ghost use Rattle.mspec.specs.Act.{with_locals, test_is, set_test, cursor_is, move_cursor};
ghost use Rattle.mspec.specs.Cursor.{after_characters, after_formats};
ghost use Rattle.mspec.specs.Scopes.{killed_except, newed, newed_except};
ghost use Rattle.mmeaning.specs.Variables as variables;
ghost use Rattle.mmeaning.specs.LineMeaning as line;
ghost use Rattle.mnum.specs.Num.{units};
ghost use Rattle.mspec.specs.Access.{Write};
ghost use Rattle.mspec.specs.KeyBytes.{AreSubscripts};
ghost use Rattle.meval.specs.Evaluates.{Evaluates, standing_of};
ghost use Rattle.meval.specs.Sessions.{cursor_of};
ghost use Rattle.meval.specs.Places.{place_view, IsOpen};

use crate::cursor::Cursor;
use crate::eval::Eval;
use crate::place::Place;
use mnodes::NodeStore;
use mnum::{Bytes7, Name, Num};
use moperator::{Code, number_of};
use mspec::limits::MAX_TEXT;
use mtree::{SpecialVariable, special_of};
use mvalue::Value;
use std::alloc::{AllocError, Global};
use std::slice::from_ref;

// Copies of the names.
fn copied(alloc: Global, names: &[Name]) -> Result<Vec<Name>, AllocError>
    ensures { IfOk result (λ copies. copies.items ≡ names.now) }
{
    let mut copies = Vec::with_capacity(alloc, names.len())?;
    for name in names {
        copies.push(name.copy()?)?;
    }
    Ok(copies)
}

impl<'a, S: NodeStore> Eval<'a, S> {
    // Sets the value of a local variable that the checks let through.
    #[tactic(auto, unfolding(mspec::specs::Act::assigned_to))]
    pub(crate) fn set_local(
        &mut self,
        name: &Name,
        subscripts: &[Value],
        value: Value,
    ) -> Result<(), Code>
        requires { AreSubscripts subscripts.now }
        ensures { Evaluates S.NodeStore (λ i. variables.put_at (variables.at_local name.now subscripts.now) value) (λ u. u) self.old result self.new }
    {
        self.session.locals.set(name, subscripts, value)?;
        Ok(())
    }

    /// Sets the value of a place that may be changed.
    ///
    /// # Errors
    ///
    /// `Zmem` if memory runs out, and `Zstore` if the store refuses; the variable is then as it was. `Zlong` if a global is to have
    /// more than 4,095 characters.
    pub fn put(&mut self, alloc: Global, place: &Place, value: Value) -> Result<(), Code>
        requires { IsOpen (standing_of self.old) Write (place_view place.now) }
        ensures { Evaluates S.NodeStore (λ i. variables.put_at (place_view place.now) value) (λ u. u) self.old result self.new }
    {
        match place {
            Place::Local(name, subscripts) => {
                self.set_local(name.as_name(), subscripts.as_slice(), value)
            }
            Place::Node(key) => {
                let text = value.into_text(alloc)?;
                self.put_node(key, &text)
            }
        }
    }

    /// Removes the texts of a place that may be changed, and of what is below it.
    ///
    /// # Errors
    ///
    /// `Zmem` if memory runs out, and `Zstore` if the store refuses; the variable is then as it was.
    pub fn kill(&mut self, place: &Place) -> Result<(), Code>
        requires { IsOpen (standing_of self.old) Write (place_view place.now) }
        ensures { Evaluates S.NodeStore (λ i. variables.kill_at (place_view place.now)) (λ u. u) self.old result self.new }
    {
        match place {
            Place::Local(name, subscripts) => {
                let name = name.as_name();
                self.session.locals.kill(name, subscripts.as_slice())?;
                Ok(())
            }
            Place::Node(key) => self.kill_node(key),
        }
    }

    /// Removes the texts of all local variables that can be seen, except those of these names. Takes no memory.
    pub fn kill_others(&mut self, names: &[Name])
        ensures { Evaluates S.NodeStore (λ i. with_locals (killed_except names.now)) (λ u. u) self.old (Ok tt) self.new }
    {
        self.session.locals.kill_except(names);
    }

    /// Hides the local variable of this name, until the level ends.
    ///
    /// # Errors
    ///
    /// `Zmem` if memory runs out; all variables are then as they were.
    pub fn hide_one(&mut self, name: &Name) -> Result<(), Code>
        ensures { Evaluates S.NodeStore (λ i. with_locals (newed (name.now ∷ []))) (λ u. u) self.old result self.new }
    {
        self.session.locals.new_vars(from_ref(name))?;
        Ok(())
    }

    /// Hides all local variables except those of these names, until the level ends.
    ///
    /// # Errors
    ///
    /// `Zmem` if memory runs out; all variables are then as they were.
    pub fn hide_others(&mut self, alloc: Global, names: &[Name]) -> Result<(), Code>
        ensures { Evaluates S.NodeStore (λ i. with_locals (newed_except names.now)) (λ u. u) self.old result self.new }
    {
        let spared = copied(alloc, names)?;
        self.session.locals.new_except(spared)?;
        Ok(())
    }

    /// The number of a FOR's index. Takes no memory.
    ///
    /// # Errors
    ///
    /// `M15` if the index is undefined, `Zover` if its number is too large.
    #[inline(always)]
    pub fn index(&mut self, name: &Name) -> Result<Num, Code>
        ensures { Evaluates S.NodeStore (λ i. line.index_number name.now) units self.old result self.new }
    {
        match self.session.locals.own(name) {
            Some(value) => number_of(value),
            None => Err(Code::M15),
        }
    }

    /// Gives a local variable without subscripts a value, as SET and FOR do.
    ///
    /// # Errors
    ///
    /// `Zmem` if memory runs out; the variable is then as it was.
    #[tactic(auto, unfolding(mspec::specs::Act::assigned_to))]
    pub fn set_variable(&mut self, name: &Name, value: Value) -> Result<(), Code>
        ensures { Evaluates S.NodeStore (λ i. variables.put_at (variables.at_local name.now []) value) (λ u. u) self.old result self.new }
    {
        self.session.locals.set_own(name, value)?;
        Ok(())
    }

    // The number of its line's terminal.
    fn terminal_number(&self) -> Value
        ensures { Evaluates S.NodeStore (λ i. variables.terminal_number) (λ v. v) self.now (Ok result) self.now }
    {
        Value::of_whole(self.terminal as i64)
    }

    // The value of a special variable.
    pub(crate) fn special(&mut self, word: &Bytes7) -> Result<Value, Code>
        ensures { Evaluates S.NodeStore (λ i. variables.special_value i.depth.wants_value (special_of word.now)) (λ v. v) self.old result self.new }
    {
        match special_of(word.as_bytes()) {
            Some(SpecialVariable::Test) => Ok(Value::of_truth(self.session.test)),
            Some(SpecialVariable::Io) => Ok(self.terminal_number()),
            Some(SpecialVariable::Job) => Ok(self.terminal_number()),
            Some(SpecialVariable::Principal) => Ok(self.terminal_number()),
            Some(SpecialVariable::Quit) => Ok(Value::of_truth(self.depth.wants_value)),
            Some(SpecialVariable::Storage) => Ok(Value::of_whole(MAX_TEXT as i64)),
            Some(SpecialVariable::Column) => Ok(Value::of_whole(self.session.cursor.column as i64)),
            Some(SpecialVariable::Row) => Ok(Value::of_whole(self.session.cursor.row as i64)),
            None => Err(Code::Zsyntax),
        }
    }

    /// `$TEST`. Takes no memory.
    pub fn test(&self) -> bool
        ensures { Evaluates S.NodeStore (λ i. test_is) (λ test. test) self.now (Ok result) self.now }
    {
        self.session.test
    }

    /// `$X` and `$Y`. Takes no memory.
    pub fn cursor(&self) -> Cursor
        ensures { Evaluates S.NodeStore (λ i. cursor_is) cursor_of self.now (Ok result) self.now }
    {
        self.session.cursor
    }

    /// Counts characters that were written. Takes no memory.
    pub fn wrote(&mut self, count: usize)
        ensures { Evaluates S.NodeStore (λ i. move_cursor (after_characters count)) (λ u. u) self.old (Ok tt) self.new }
    {
        self.session.cursor = self.session.cursor.after_characters(count);
    }

    /// Counts formats that were written. Takes no memory.
    pub fn wrote_formats(&mut self, formats: &[u8])
        ensures { Evaluates S.NodeStore (λ i. move_cursor (after_formats formats.now)) (λ u. u) self.old (Ok tt) self.new }
    {
        self.session.cursor = self.session.cursor.after_formats(formats);
    }

    /// Sets `$TEST`. Takes no memory.
    pub fn set_test(&mut self, test: bool)
        ensures { Evaluates S.NodeStore (λ i. set_test test) (λ u. u) self.old (Ok tt) self.new }
    {
        self.session.test = test;
    }
}

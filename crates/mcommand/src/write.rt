// SPDX-License-Identifier: Apache-2.0
// WRITE.
ghost use Rattle.std.specs.Prelude.{◌≡◌, ◌++◌, map, replicate, OnOk};
ghost use Rattle.mspec.specs.Code.{Zarg};
ghost use Rattle.mspec.specs.Act.{unless, write, write_formats};
ghost use Rattle.mspec.specs.Cursor.{format_byte, is_column, spaces_to};
ghost use Rattle.mmeaning.specs.Yields.{Yields};
ghost use Rattle.moperator.specs.Codes.{fault_of};
ghost use Rattle.mcommand.specs.Columns.{spacing};
ghost use Rattle.mmeaning.specs.LineMeaning as meaning;
ghost use Rattle.mtree.specs.Tree.{expr_tree, condition_tree};
ghost use Rattle.mcommand.specs.Does.{Does};

use crate::parts::Parts;
use mnodes::NodeStore;
use moperator::{Code, whole_of};
use mspec::limits::MAX_TEXT;
use mtree::Expr;
use mvalue::Value;
use std::alloc::{AllocError, Global};

/// The end of a line in an output. No text has this byte.
pub const LINE_END: u8 = 255;

// The beginning of a page in an output.
const FORM_FEED: u8 = 12;

// What a format writes.
fn format_byte(format: u8) -> u8
    ensures { result ≡ format_byte format }
{
    if format == b'!' { LINE_END } else { FORM_FEED }
}

// The character of a code, if there is one.
fn coded_character(code: i64) -> Option<u8>
    ensures { result ≡ meaning.coded_character code }
{
    if code < 0 || code > 127 {
        return None;
    }
    Some(code as u8)
}

// Appends what formats write.
fn push_formats(out: &mut Vec<u8>, formats: &[u8]) -> Result<(), AllocError>
    ensures { OnOk result (out.new.items ≡ out.old.items ++ map format_byte formats.now) }
{
    for format in formats {
        out.push(format_byte(*format))?;
    }
    Ok(())
}

// Appends this many spaces.
fn push_spaces(out: &mut Vec<u8>, count: usize) -> Result<(), AllocError>
    ensures { OnOk result (out.new.items ≡ out.old.items ++ replicate count 32) }
{
    for _ in 0..count {
        out.push(b' ')?;
    }
    Ok(())
}

// How many spaces lead from a column to another: none if that is not after it.
fn spaces_between(from: u32, to: i64) -> usize
    ensures { replicate result 32 ≡ spaces_to to from }
{
    let from = from as i64;
    if from < to { (to - from) as usize } else { 0 }
}

// Refuses a column that no text reaches.
fn check_column(column: i64) -> Result<(), Code>
    ensures { Yields fault_of (unless Zarg (is_column column)) (λ u. u) result }
{
    if column > MAX_TEXT as i64 {
        return Err(Code::Zarg);
    }
    Ok(())
}

impl<'a, S: NodeStore> Parts<'a, S> {
    /// Writes formats, each a `!` or a `#`.
    ///
    /// # Errors
    ///
    /// `Zmem` if memory runs out.
    pub fn write_formats(&mut self, formats: &[u8]) -> Result<(), Code>
        ensures { Does S.NodeStore (λ i. write_formats formats.now) (λ u. u) self.old result self.new }
    {
        push_formats(self.out, formats)?;
        self.eval.wrote_formats(formats);
        Ok(())
    }

    // Writes spaces up to a column, unless the line is there.
    fn write_spaces(&mut self, column: i64) -> Result<(), Code>
        ensures { Does S.NodeStore (λ i. spacing column) (λ u. u) self.old result self.new }
    {
        let count = spaces_between(self.eval.cursor().column, column);
        push_spaces(self.out, count)?;
        self.eval.wrote(count);
        Ok(())
    }

    /// Writes spaces up to the column that a value gives, unless the line is there.
    ///
    /// # Errors
    ///
    /// `Zover` if the value's number is too large; `Zarg` if no text is as long as that; `Zmem` if memory runs out.
    #[inline]
    pub fn spaced_to(&mut self, place: &Value) -> Result<(), Code>
        ensures { Does S.NodeStore (λ i. meaning.spaced_to place.now) (λ u. u) self.old result self.new }
    {
        let column = whole_of(place)?;
        check_column(column)?;
        self.write_spaces(column)
    }

    // What a column after a `?` does, if there is one.
    fn tabbing(&mut self, alloc: Global, tab: &Option<Box<Expr>>) -> Result<(), Code>
        ensures { Does S.NodeStore (λ i. meaning.tabbing i (condition_tree tab.now)) (λ u. u) self.old result self.new }
    {
        let Some(e) = tab else {
            return Ok(());
        };
        let place = self.eval.eval(alloc, e)?;
        self.spaced_to(&place)
    }

    /// Writes formats, each a `!` or a `#`, and spaces up to a column, if there is one.
    ///
    /// # Errors
    ///
    /// Those of the column's value; `Zarg` if no text is as long as that; `Zmem` if memory runs out.
    pub fn formats(
        &mut self,
        alloc: Global,
        formats: &[u8],
        tab: &Option<Box<Expr>>,
    ) -> Result<(), Code>
        ensures { Does S.NodeStore (λ i. meaning.formatting i formats.now (condition_tree tab.now)) (λ u. u) self.old result self.new }
    {
        self.write_formats(formats)?;
        self.tabbing(alloc, tab)
    }

    /// Writes the character of the code that a value gives.
    ///
    /// # Errors
    ///
    /// `Zover` if the value's number is too large; `Zchar` if no character has the code; `Zmem` if memory runs out.
    #[inline]
    pub fn character_written(&mut self, number: &Value) -> Result<(), Code>
        ensures { Does S.NodeStore (λ i. meaning.character_written number.now) (λ u. u) self.old result self.new }
    {
        let code = whole_of(number)?;
        let Some(character) = coded_character(code) else {
            return Err(Code::Zchar);
        };
        self.out.push(character)?;
        self.eval.wrote(1);
        Ok(())
    }

    /// Writes the character of the code that an expression gives.
    ///
    /// # Errors
    ///
    /// Those of the expression's value, and of `character_written`.
    pub fn coding(&mut self, alloc: Global, e: &Expr) -> Result<(), Code>
        ensures { Does S.NodeStore (λ i. meaning.coding i (expr_tree e.now)) (λ u. u) self.old result self.new }
    {
        let number = self.eval.eval(alloc, e)?;
        self.character_written(&number)
    }

    /// Writes a value.
    ///
    /// # Errors
    ///
    /// `Zmem` if memory runs out.
    #[inline]
    pub fn write_value(&mut self, value: &Value) -> Result<(), Code>
        ensures { Does S.NodeStore (λ i. write value.now) (λ u. u) self.old result self.new }
    {
        let before = self.out.len();
        value.write(self.out)?;
        self.eval.wrote(self.out.len() - before);
        Ok(())
    }

    /// Writes the value of an expression.
    ///
    /// # Errors
    ///
    /// Those of the expression's value; `Zmem` if memory runs out.
    pub fn showing(&mut self, alloc: Global, e: &Expr) -> Result<(), Code>
        ensures { Does S.NodeStore (λ i. meaning.showing i (expr_tree e.now)) (λ u. u) self.old result self.new }
    {
        let value = self.eval.eval(alloc, e)?;
        self.write_value(&value)
    }
}

// SPDX-License-Identifier: Apache-2.0
// Where DO and GOTO lead.
ghost use Rattle.std.specs.Prelude.{◌≡◌, true, slice_get, map, position, IfOk};
ghost use Rattle.mmeaning.specs.Levels as levels;
ghost use Rattle.mmeaning.specs.Yields.{Yields};
ghost use Rattle.moperator.specs.Codes.{fault_of};
ghost use Rattle.mgrammar.specs.RoutineLine.{label_of};
ghost use Rattle.mtree.specs.Tree.{entry_tree, routine_tree};
ghost use Rattle.meval.specs.Evaluates.{standing_of};
ghost use Rattle.mcommand.specs.Does.{Does};
ghost use Rattle.mcommand.specs.Targets.{begin_apart, target_view, target_among};

use crate::parts::Parts;
use mnodes::NodeStore;
use mnum::Bytes7;
use moperator::Code;
use mscan::{dots_of, label_of};
use mtree::{Entry, RoutineRef};
use std::alloc::Global;
use std::rc::Rc;

/// A line of a routine: all its lines, and its place among them. Contracts see it by `target_view`, as one of the definitions.
#[derive(Drop)]
pub struct Target {
    pub copy: Rc<Vec<Bytes7>>,
    pub line: usize,
}

// Whether two texts begin with different characters.
#[inline]
fn begin_apart(one: &[u8], other: &[u8]) -> bool
    ensures { result ≡ begin_apart one.now other.now }
{
    match (one, other) {
        ([a, ..], [b, ..]) => *a != *b,
        _ => false,
    }
}

// Whether a line has this label. Kept out of line, so that lines which begin with another character are passed at once.
#[inline(never)]
fn reads_label(language: u32, label: &[u8], line: &[u8]) -> bool
    ensures { result ≡ levels.is_label label.now (label_of language line.now) }
{
    match label_of(language, line) {
        None => false,
        Some(name) => name == label,
    }
}

// Whether a line has this label. Most lines begin with another character, so their label need not be read.
#[inline(always)]
fn has_label(language: u32, label: &[u8], line: &[u8]) -> bool
    ensures { result ≡ levels.is_label label.now (label_of language line.now) }
{
    if begin_apart(label, line) {
        return false;
    }
    reads_label(language, label, line)
}

// Whether a line matches an entry in a language. The first such line is the one that is meant.
fn is_entry(language: u32, entry: &Entry, line: &[u8]) -> bool
    ensures { result ≡ levels.is_entry language (entry_tree entry.now) line.now }
{
    match entry {
        Entry::Label(label) => has_label(language, label.as_bytes(), line),
        Entry::LabelIn(label, _) => has_label(language, label.as_bytes(), line),
        Entry::Routine(_) => true,
    }
}

// The place of the line that is meant.
fn place_of(language: u32, entry: &Entry, lines: &[Bytes7]) -> Option<usize>
    ensures { result ≡ position (levels.is_entry language (entry_tree entry.now)) lines.now }
{
    lines
        .iter()
        .position(|line| is_entry(language, entry, line.as_bytes()))
}

// The line that is meant, among these lines.
#[inline(always)]
fn among(language: u32, entry: &Entry, dots: usize, copy: Rc<Vec<Bytes7>>) -> Result<Target, Code>
    ensures stands { IfOk result (λ target. levels.has_dots language dots (slice_get target.copy.value.items target.line) ≡ true) }
    ensures does { Yields fault_of (target_among language copy.value.items dots (entry_tree entry.now)) target_view result }
{
    let Some(line) = place_of(language, entry, &copy) else {
        return Err(Code::M13);
    };
    if dots_of(language, copy[line].as_bytes()) != dots {
        return Err(Code::Zlevel);
    }
    Ok(Target { copy, line })
}

impl<'a, S: NodeStore> Parts<'a, S> {
    // The lines of a routine: of the account's own, or of another account's.
    fn lines_of_routine(
        &mut self,
        alloc: Global,
        routine: &RoutineRef,
    ) -> Result<Rc<Vec<Bytes7>>, Code>
        ensures { Does S.NodeStore (λ i. levels.lines_of_routine (routine_tree routine.now)) (λ lines. lines.value.items) self.old result self.new }
    {
        match routine {
            RoutineRef::Own(name) => self.eval.routine(alloc, name),
            RoutineRef::Shared(shared) => self.eval.routine_of(alloc, shared),
        }
    }

    // The lines in which a label is sought: a routine that is named is read, and a label alone is in the level's own lines.
    fn lines_of_entry(
        &mut self,
        alloc: Global,
        copy: &Rc<Vec<Bytes7>>,
        entry: &Entry,
    ) -> Result<Rc<Vec<Bytes7>>, Code>
        ensures { Does S.NodeStore (λ i. levels.lines_of_entry copy.now.value.items (entry_tree entry.now))
            (λ lines. lines.value.items) self.old result self.new }
    {
        match entry {
            Entry::Label(_) => Ok(copy.clone()?),
            Entry::LabelIn(_, routine) => self.lines_of_routine(alloc, routine),
            Entry::Routine(routine) => self.lines_of_routine(alloc, routine),
        }
    }

    /// The line that DO or GOTO leads to in the account's language, if the level has these lines and the line is to have this many dots.
    ///
    /// # Errors
    ///
    /// `Zgrant` if the routine is that of an account that does not let this one read its routines; `M13` if there is no such routine, or
    /// no such label in it; `Zlevel` if the line does not have this many dots; `Zmem` if memory runs out, and `Zstore` if the store
    /// refuses.
    #[inline(always)]
    pub fn target(
        &mut self,
        alloc: Global,
        copy: &Rc<Vec<Bytes7>>,
        dots: usize,
        entry: &Entry,
    ) -> Result<Target, Code>
        ensures stands { IfOk result (λ target. levels.has_dots (standing_of self.old.eval).given.language dots (slice_get target.copy.value.items target.line)
            ≡ true) }
        ensures does { Does S.NodeStore (λ i. levels.target copy.now.value.items dots (entry_tree entry.now)) target_view self.old result self.new }
    {
        let copy = self.lines_of_entry(alloc, copy, entry)?;
        among(self.eval.language(), entry, dots, copy)
    }
}

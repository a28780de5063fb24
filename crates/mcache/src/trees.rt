// SPDX-License-Identifier: Apache-2.0
// The cache of trees.
ghost use Rattle.std.specs.Prelude.{◌≡◌, ◌↔◌, ◌+◌, ◌<◌, ◌≤◌, IsTrue, length, IfOk, IfSome, Err, Some, None};
ghost use Rattle.mgrammar.specs.Reading.{line_at};
ghost use Rattle.mgrammar.specs.RoutineLine.{routine_line_at};
ghost use Rattle.mgrammar.specs.Languages.{line_in, routine_line_in};
ghost use Rattle.mtree.specs.Tree.{line_tree, routine_line_tree, IsCounted, IsBodyCounted};
ghost use Rattle.mcache.specs.Kept.{IsWithin};

use crate::doorkeeper::Doorkeeper;
use crate::tree_cache::{TreeCache, find, keep, let_go};
use lru::LruCache;
use mparse::{ParseFault, parse_line, parse_routine_line};
use mtree::{Line, RoutineLine, since_routine_line};
use std::alloc::{AllocError, Global};
use std::marker::Model;
use std::rc::Rc;

/// Trees of texts, of which as many are kept as there are entries: of lines, as they come from a terminal or follow XECUTE, and of lines
/// of routines. The two kinds are kept apart, since a text may be both.
///
/// Once all entries are taken, a tree is kept if its text has already come recently. So texts that come once do not push out those that
/// come again, and nothing is spent on keeping them.
///
/// Contracts see it as the count of its entries: which trees are kept shows in no answer.
pub struct Trees {
    entries: usize,
    lines: TreeCache<Line>,
    routine_lines: TreeCache<RoutineLine>,
    doorkeeper: Doorkeeper,
}

// Written out, so that dropping it is one call, which is proved once.
impl Drop for Trees {
    fn drop(self) {
        let Trees {
            entries: _,
            lines: _,
            routine_lines: _,
            doorkeeper: _,
        } = self;
    }
}

impl Model for Trees {
    ghost use Rattle.std.specs.Prelude.{ℕ};
    ghost use Rattle.mcache.specs.Kept.{AreTrees};

    ghost Value = { ℕ };

    ghost view = { λ trees. trees.entries };

    ghost invariant = { λ trees. AreTrees trees.entries trees.lines.entries trees.routine_lines.entries };
}

// Whether all entries are taken.
fn is_full(lines: &TreeCache<Line>, routine_lines: &TreeCache<RoutineLine>, entries: usize) -> bool
    requires { length lines.now.entries + length routine_lines.now.entries ≤ entries }
    ensures { IsTrue result ↔ entries ≤ length lines.now.entries + length routine_lines.now.entries }
{
    lines.len() + routine_lines.len() >= entries
}

// Makes room for one more tree: of the kind of which more are kept, the least recently used one goes.
fn make_room(
    lines: &mut TreeCache<Line>,
    routine_lines: &mut TreeCache<RoutineLine>,
    entries: usize,
)
    requires some { 0 < entries }
    requires fit { length lines.old.entries + length routine_lines.old.entries ≤ entries }
    ensures lines { IsWithin lines.new.entries lines.old.entries }
    ensures routine_lines { IsWithin routine_lines.new.entries routine_lines.old.entries }
    ensures room { length lines.new.entries + length routine_lines.new.entries < entries }
{
    if !is_full(lines, routine_lines, entries) {
        return;
    }
    if lines.len() > routine_lines.len() {
        let_go(lines);
    } else {
        let_go(routine_lines);
    }
}

// Whether the tree of a text is to be kept: if an entry is free, and otherwise if the text came recently.
fn is_wanted(doorkeeper: &mut Doorkeeper, is_full: bool, text: &[u8]) -> bool {
    !is_full || doorkeeper.note(text)
}

impl Trees {
    /// With this many entries, and no tree yet.
    ///
    /// # Errors
    ///
    /// If memory runs out.
    pub fn new(alloc: Global, entries: usize) -> Result<Trees, AllocError>
        requires { 0 < entries }
        ensures { IfOk result (λ trees. trees ≡ entries) }
    {
        Ok(Trees {
            entries,
            lines: LruCache::unbounded(alloc)?,
            routine_lines: LruCache::unbounded(alloc)?,
            doorkeeper: Doorkeeper::new(alloc)?,
        })
    }

    /// How many trees are kept. Takes no memory.
    pub fn len(&self) -> usize
        ensures { result ≤ self.now }
    {
        self.lines.len() + self.routine_lines.len()
    }

    // The tree of a line, whatever language it needs, which is the one that `parse_line` gives.
    fn any_line(&mut self, alloc: Global, text: &[u8]) -> Result<Rc<Line>, ParseFault>
        ensures tree { IfOk result (λ line. line_at text.now ≡ Some (line_tree line.value)) }
        ensures counted { IfOk result (λ line. IsCounted line.value) }
        ensures syntax { result ≡ Err ParseFault.Syntax → line_at text.now ≡ None }
        ensures same { self.new ≡ self.old }
    {
        if let Some(line) = find(&mut self.lines, text) {
            return Ok(line);
        }
        let line = Rc::new(alloc, parse_line(alloc, text)?)?;
        let is_full = is_full(&self.lines, &self.routine_lines, self.entries);
        if !is_wanted(&mut self.doorkeeper, is_full, text) {
            return Ok(line);
        }
        make_room(&mut self.lines, &mut self.routine_lines, self.entries);
        keep(alloc, &mut self.lines, text, &line);
        Ok(line)
    }

    // The same of a routine's line, which `parse_routine_line` gives.
    fn any_routine_line(
        &mut self,
        alloc: Global,
        text: &[u8],
    ) -> Result<Rc<RoutineLine>, ParseFault>
        ensures tree { IfOk result (λ line. routine_line_at text.now ≡ Some (routine_line_tree line.value)) }
        ensures counted { IfOk result (λ line. IsBodyCounted line.value.body) }
        ensures syntax { result ≡ Err ParseFault.Syntax → routine_line_at text.now ≡ None }
        ensures same { self.new ≡ self.old }
    {
        if let Some(line) = find(&mut self.routine_lines, text) {
            return Ok(line);
        }
        let line = Rc::new(alloc, parse_routine_line(alloc, text)?)?;
        let is_full = is_full(&self.lines, &self.routine_lines, self.entries);
        if !is_wanted(&mut self.doorkeeper, is_full, text) {
            return Ok(line);
        }
        make_room(&mut self.lines, &mut self.routine_lines, self.entries);
        keep(alloc, &mut self.routine_lines, text, &line);
        Ok(line)
    }

    /// The tree of a routine's line if it is kept, whatever language it needs. Takes no memory.
    pub fn kept_routine_line(&mut self, text: &[u8]) -> Option<Rc<RoutineLine>>
        ensures tree { IfSome result (λ line. routine_line_at text.now ≡ Some (routine_line_tree line.value)) }
        ensures same { self.new ≡ self.old }
    {
        find(&mut self.routine_lines, text)
    }

    /// The tree of a line that is read in this language. A tree that is kept is found by its text, without a copy of either; trees of
    /// all languages are kept alike. A tree that there is no memory to keep is returned all the same.
    ///
    /// # Errors
    ///
    /// `Syntax` only if no tree of the grammar has the text, or if its tree needs a later language; `Memory` if memory runs out.
    #[tactic(auto, using(mtree::proofs::InLanguages::no_line))]
    pub fn line(
        &mut self,
        alloc: Global,
        language: u32,
        text: &[u8],
    ) -> Result<Rc<Line>, ParseFault>
        ensures tree { IfOk result (λ line. line_in language text.now ≡ Some (line_tree line.value)) }
        ensures counted { IfOk result (λ line. IsCounted line.value) }
        ensures syntax { result ≡ Err ParseFault.Syntax → line_in language text.now ≡ None }
        ensures same { self.new ≡ self.old }
    {
        let line = self.any_line(alloc, text)?;
        if line.since > language {
            return Err(ParseFault::Syntax);
        }
        Ok(line)
    }

    /// The tree of a routine's line; otherwise as `line`.
    ///
    /// # Errors
    ///
    /// As `line`.
    #[tactic(auto, using(mtree::proofs::InLanguages::no_routine_line))]
    pub fn routine_line(
        &mut self,
        alloc: Global,
        language: u32,
        text: &[u8],
    ) -> Result<Rc<RoutineLine>, ParseFault>
        ensures tree { IfOk result (λ line. routine_line_in language text.now ≡ Some (routine_line_tree line.value)) }
        ensures counted { IfOk result (λ line. IsBodyCounted line.value.body) }
        ensures syntax { result ≡ Err ParseFault.Syntax → routine_line_in language text.now ≡ None }
        ensures same { self.new ≡ self.old }
    {
        let line = self.any_routine_line(alloc, text)?;
        if since_routine_line(&line) > language {
            return Err(ParseFault::Syntax);
        }
        Ok(line)
    }
}

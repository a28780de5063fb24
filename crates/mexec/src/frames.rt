// SPDX-License-Identifier: Apache-2.0
// What is still to be done of a line: frames, the innermost on top.
ghost use Rattle.std.specs.Prelude.{◌≡◌, ◌≤◌, true, map, IfOk};
ghost use Rattle.std.specs.List.{list_all};
ghost use Rattle.mgrammar.specs.ProgramsIn.{in_steps_arg};
ghost use Rattle.mtree.specs.Tree.{arg_tree};
ghost use Rattle.mexec.specs.Loops.{has_course};
ghost use Rattle.mexec.specs.Uncalled.{ArePlayed, IsPlayed};

use crate::suspended::Suspended;
use mcommand::Course;
use meval::Depth;
use mnum::Bytes7;
use mtree::{Arg, Line};
use std::alloc::AllocError;
use std::rc::Rc;

// The lines in which labels are sought, the place of the one that comes next, and how many dots the level's lines have.
pub(crate) struct Level {
    pub(crate) copy: Rc<Vec<Bytes7>>,
    pub(crate) next: Option<usize>,
    pub(crate) dots: usize,
}

// Written out, so that dropping it is one call, which is proved once.
impl Drop for Level {
    fn drop(self) {
        let Level {
            copy: _,
            next: _,
            dots: _,
        } = self;
    }
}

// Where a line stands: how deep, and in which level. Frames share it. Each dot is a level that is open.
pub(crate) struct Position {
    pub(crate) depth: Depth,
    pub(crate) level: Level,
    ghost opened: { level.dots ≤ depth.levels },
}

// Written out, so that dropping it is one call, which is proved once.
impl Drop for Position {
    fn drop(self) {
        let Position { depth: _, level: _ } = self;
    }
}

// How a level closes: not at all, as the outermost one does; its scope goes; its scope goes and $TEST is again what it was; or, of a
// function, that too, and there is a value.
#[derive(Clone, Copy)]
pub(crate) enum Closing {
    Stays,
    Leaves,
    Restores(bool),
    Answers(bool),
}

// The rest of a line: its commands from a place on.
#[derive(Drop)]
pub(crate) struct Continuation {
    pub(crate) position: Rc<Position>,
    pub(crate) line: Rc<Line>,
    pub(crate) at: usize,
    ghost played: { IsPlayed line.value },
}

impl Continuation {
    // A copy of it.
    pub(crate) fn copy(&self) -> Result<Continuation, AllocError>
        ensures position { IfOk result (λ rest. rest.position.value ≡ self.now.position.value) }
        ensures line { IfOk result (λ rest. rest.line.value ≡ self.now.line.value) }
        ensures at { IfOk result (λ rest. rest.at ≡ self.now.at) }
    {
        self.copy_from(self.at)
    }

    // The commands of the same line from another place on.
    pub(crate) fn copy_from(&self, at: usize) -> Result<Continuation, AllocError>
        ensures position { IfOk result (λ rest. rest.position.value ≡ self.now.position.value) }
        ensures line { IfOk result (λ rest. rest.line.value ≡ self.now.line.value) }
        ensures at { IfOk result (λ rest. rest.at ≡ at) }
    {
        Ok(Continuation {
            position: self.position.clone()?,
            line: self.line.clone()?,
            at,
        })
    }
}

// The arguments, from one on, of the command before the rest of a line.
pub(crate) struct PendingArguments {
    pub(crate) behind: Continuation,
    pub(crate) argument: usize,
}

// Written out, so that dropping it is one call, which is proved once.
impl Drop for PendingArguments {
    fn drop(self) {
        let PendingArguments {
            behind: _,
            argument: _,
        } = self;
    }
}

// Arguments that a text gave, the first language that has all their forms, and where they are done. Frames share them.
pub(crate) struct IndirectArguments {
    pub(crate) position: Position,
    pub(crate) args: Vec<Arg>,
    pub(crate) since: u32,
    ghost played: { ArePlayed args.items since },
    ghost stepped: { list_all in_steps_arg (map arg_tree args.items) ≡ true },
}

// Written out, so that dropping it is one call, which is proved once.
impl Drop for IndirectArguments {
    fn drop(self) {
        let IndirectArguments {
            position: _,
            args: _,
            since: _,
        } = self;
    }
}

// A FOR of which a turn is under way: its body, which comes after it, its next parameter, and how it goes on. Its index and its
// parameters are read from the line: unless it goes on without an end, it has an index there.
#[derive(Drop)]
pub(crate) struct ForLoop {
    pub(crate) body: Continuation,
    pub(crate) parameter: usize,
    pub(crate) course: Course,
    ghost indexed: { has_course body.line.value body.at course ≡ true },
}

// Something that is still to be done.
#[derive(Drop)]
pub(crate) enum Frame {
    Continuation(Continuation),
    PendingArguments(PendingArguments),
    // the arguments, from one on, that a text gave
    IndirectArguments(Rc<IndirectArguments>, usize),
    // in a box, which each turn takes off and puts back
    ForLoop(Box<ForLoop>),
    // a level of which a line is under way, and how it closes
    Level(Rc<Position>, Closing),
    // in a box, since it is large and rare
    Program(Box<Suspended>),
    // the command before the rest of a line, whose condition is under way
    Condition(Continuation),
}

// SPDX-License-Identifier: Apache-2.0
// Where arguments come from: the line of their command, or a text that gave them.
ghost use Rattle.std.specs.Prelude.{◌≡◌, ◌≤◌, ◌+◌, ◌∷◌, is_some, true, map, option_map, drop, length, IfOk, IfSome, OnOk};
ghost use Rattle.mmeaning.specs.Frames.{Lists, Programs};
ghost use Rattle.mprogram.specs.Views.{body_tree, whole_view};
ghost use Rattle.meval.specs.Evaluates.{depth_of};
ghost use Rattle.mcommand.specs.Steps.{items_view};
ghost use Rattle.mexec.specs.Wholes.{argument_of, condition_of, parameter_in, parameter_of, whole_of, steps_within, ending_within};
ghost use Rattle.mexec.specs.Places.{whole_at, place_position};
ghost use Rattle.mexec.specs.Loops.{has_index, loop_before as the_loop_before, spaced_before};
ghost use Rattle.mtree.specs.Tree.{arg_tree};
ghost use Rattle.mexec.specs.Frames.{args_before as the_args_before, position_of, stack, source_position, source_args, source_since, holder_position, view};
ghost use Rattle.mexec.specs.Arguments.{listing};
ghost use Rattle.mexec.specs.Falls.{size};

use crate::frames::{Continuation, Frame, IndirectArguments, PendingArguments, Position};
use crate::holder::Holder;
use crate::scratch::Scratch;
use crate::suspended::Suspended;
use mcommand::Item;
use meval::Depth;
use mnum::Name;
use mprogram::Whole;
use mtree::{Arg, Line, Parameter, Spaced};
use std::alloc::{AllocError, Global};
use std::rc::Rc;

// The arguments of a command: of the one before the rest of a line, or those that a text gave in its place.
#[derive(Clone, Copy)]
pub(crate) enum Source<'t> {
    Line(&'t Continuation),
    Text(&'t Rc<IndirectArguments>),
}

// The arguments of the command before a place of a line.
pub(crate) fn args_before(line: &Line, at: usize) -> &[Arg]
    ensures { result.now ≡ the_args_before line.now at }
{
    match line.commands.get(at.saturating_sub(1)) {
        None => &[],
        Some(spaced) => &spaced.command.args,
    }
}

impl<'t> Source<'t> {
    // Where they are done.
    pub(crate) fn position(self) -> &'t Position
        ensures { result.now ≡ source_position self.entry }
    {
        match self {
            Source::Line(behind) => &behind.position,
            Source::Text(given) => &given.position,
        }
    }

    // All of them.
    pub(crate) fn all(self) -> &'t [Arg]
        ensures { result.now ≡ source_args self.entry }
    {
        match self {
            Source::Line(behind) => args_before(&behind.line, behind.at),
            Source::Text(given) => &given.args,
        }
    }

    // The first language that has all forms of the line, or of the text.
    pub(crate) fn since(self) -> u32
        ensures { result ≡ source_since self.entry }
    {
        match self {
            Source::Line(behind) => behind.line.since,
            Source::Text(given) => given.since,
        }
    }

    // A frame of those from one on.
    fn frame(self, argument: usize) -> Result<Frame, AllocError>
        ensures { IfOk result (λ frame. view frame ≡ Lists (position_of (source_position self.entry)) (map arg_tree (drop argument (source_args self.entry)))) }
    {
        match self {
            Source::Line(behind) => {
                let behind = behind.copy()?;
                Ok(Frame::PendingArguments(PendingArguments { behind, argument }))
            }
            Source::Text(given) => Ok(Frame::IndirectArguments(given.clone()?, argument)),
        }
    }

    // Leaves those from one onwards on the frames, unless there are none.
    pub(crate) fn leave(self, argument: usize, scratch: &mut Scratch) -> Result<(), AllocError>
        ensures frames { OnOk result (stack scratch.new.frames.items ≡ listing (position_of (source_position self.entry)) (map arg_tree (drop argument (source_args self.entry))) (stack scratch.old.frames.items)) }
        ensures most { OnOk result (size scratch.new.frames.items ≤ size scratch.old.frames.items + 1) }
    {
        if argument >= self.all().len() {
            return Ok(());
        }
        scratch.frames.push(self.frame(argument)?)?;
        Ok(())
    }
}

// Where a program stands: at one of some arguments, at the condition of the command before the rest of a line, or at one of the parameters of
// the FOR before it.
#[derive(Clone, Copy)]
pub(crate) enum Place<'t> {
    Argument(Source<'t>, usize),
    Condition(&'t Continuation),
    Parameter(&'t Continuation, usize),
}

// The condition of the command before a place of a line, if it has one.
fn condition_before(line: &Line, at: usize) -> Option<Whole<'_>>
    ensures { option_map whole_view result ≡ condition_of (spaced_before line.now at) }
{
    match line.commands.get(at.saturating_sub(1)) {
        None => None,
        Some(spaced) => match &spaced.command.condition {
            None => None,
            Some(condition) => Some(Whole::Condition(condition)),
        },
    }
}

// The index and the parameters of the FOR before a place of a line, if it has an index.
pub(crate) fn loop_before(line: &Line, at: usize) -> Option<(&Name, &[Parameter])>
    ensures found { IfSome result (λ found. the_loop_before line.now at ≡ (found.0.now, found.1.now)) }
    ensures indexed { is_some result ≡ has_index line.now at }
{
    match args_before(line, at).first() {
        None => None,
        Some(first) => match first {
            Arg::Loop(index, parameters) => Some((index, parameters.as_slice())),
            _ => None,
        },
    }
}

// One of some parameters of FOR, with what comes after it.
fn parameter_in<'t>(
    index: &'t Name,
    parameters: &'t [Parameter],
    at: usize,
    body: &'t [Spaced],
) -> Option<Whole<'t>>
    ensures { option_map whole_view result ≡ parameter_in (index.now, parameters.now) (body_tree body.now) at }
{
    match parameters.get(at) {
        None => None,
        Some(parameter) => {
            let rest = &parameters[at + 1..];
            Some(Whole::Parameter(index, parameter, rest, body))
        }
    }
}

// One of the parameters of the FOR before a place of a line, if there is one.
fn parameter_at(line: &Line, at: usize, parameter: usize) -> Option<Whole<'_>>
    ensures { option_map whole_view result ≡ parameter_of line.now at parameter }
{
    match loop_before(line, at) {
        None => None,
        Some((index, parameters)) => {
            let body = &line.commands.as_slice()[at..];
            parameter_in(index, parameters, parameter, body)
        }
    }
}

// An argument with a program, if there is one at this place.
fn argument_at(args: &[Arg], at: usize) -> Option<Whole<'_>>
    ensures { option_map whole_view result ≡ argument_of args.now at }
{
    match args.get(at) {
        None => None,
        Some(arg) => Some(Whole::Argument(arg)),
    }
}

impl Holder {
    // The place, which this holds.
    pub(crate) fn place(&self) -> Place<'_>
        ensures whole { whole_at result ≡ whole_of self.now }
        ensures position { place_position result ≡ holder_position self.now }
    {
        match self {
            Holder::Line(behind, at) => Place::Argument(Source::Line(behind), *at),
            Holder::Text(given, at) => Place::Argument(Source::Text(given), *at),
            Holder::Condition(behind) => Place::Condition(behind),
            Holder::Parameter(body, at) => Place::Parameter(body, *at),
        }
    }
}

impl<'t> Place<'t> {
    // Where it is done.
    pub(crate) fn position(self) -> &'t Position
        ensures { result.now ≡ place_position self.entry }
    {
        match self {
            Place::Argument(source, _) => source.position(),
            Place::Condition(behind) => &behind.position,
            Place::Parameter(body, _) => &body.position,
        }
    }

    // What has the program.
    pub(crate) fn whole(self) -> Option<Whole<'t>>
        ensures { option_map whole_view result ≡ whole_at self.entry }
    {
        match self {
            Place::Argument(source, at) => argument_at(source.all(), at),
            Place::Condition(behind) => condition_before(&behind.line, behind.at),
            Place::Parameter(body, at) => parameter_at(&body.line, body.at, at),
        }
    }

    // A holder of it.
    fn holder(self) -> Result<Holder, AllocError>
        ensures whole { IfOk result (λ holder. whole_of holder ≡ whole_at self.entry) }
        ensures position { IfOk result (λ holder. position_of (holder_position holder) ≡ position_of (place_position self.entry)) }
    {
        match self {
            Place::Argument(source, at) => match source {
                Source::Line(behind) => Ok(Holder::Line(behind.copy()?, at)),
                Source::Text(given) => Ok(Holder::Text(given.clone()?, at)),
            },
            Place::Condition(behind) => Ok(Holder::Condition(behind.copy()?)),
            Place::Parameter(body, at) => Ok(Holder::Parameter(body.copy()?, at)),
        }
    }

    // Leaves what is left of its program after the call of a function that is so deep on the frames.
    pub(crate) fn leave(
        self,
        alloc: Global,
        depth: Depth,
        at: usize,
        items: Vec<Item>,
        scratch: &mut Scratch,
    ) -> Result<(), AllocError>
        requires { is_some (whole_at self) ≡ true }
        ensures frames { OnOk result (stack scratch.new.frames.items ≡ Programs (position_of (place_position self.entry)) (depth_of depth) (drop at (steps_within (whole_at self.entry))) (ending_within (whole_at self.entry)) (items_view items.items) ∷ stack scratch.old.frames.items) }
        ensures most { OnOk result (size scratch.new.frames.items ≤ size scratch.old.frames.items + 3) }
    {
        let holder = self.holder()?;
        let suspended = Suspended {
            holder,
            depth,
            at,
            items,
        };
        scratch
            .frames
            .push(Frame::Program(Box::new(alloc, suspended)?))?;
        Ok(())
    }
}

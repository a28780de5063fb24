// SPDX-License-Identifier: Apache-2.0
// The steps of an argument of a command, of a command's condition, and of a parameter of FOR.
ghost use Rattle.std.specs.Prelude.{◌≡◌, map, option_map, slice_get};
ghost use Rattle.mmeaning.specs.Programs as programs;
ghost use Rattle.mtree.specs.Tree.{expr_tree, reference_tree, called_tree, condition_tree, part_tree, target_tree, destination_tree, locked_tree};
ghost use Rattle.mtree.specs.Tree.{parameter_tree, arg_tree};
ghost use Rattle.mprogram.specs.Wholes.{steps_of};
ghost use Rattle.mprogram.specs.Found.{found_then, single, in_value, in_reference, in_list, in_target, in_targets, in_destination, in_names, in_timeout};
ghost use Rattle.mprogram.specs.Found.{in_number, in_onward, in_parameter, in_condition, in_argument, in_whole};
ghost use Rattle.mmeaning.specs.Locking.{names_of};
ghost use Rattle.mprogram.specs.Views.{op_view, whole_view, found_view};

use crate::op::{Found, Op, Whole};
use crate::steps::{
    in_list, in_primary, in_reference, in_value, reference_then, single, value_then, values_then,
};
use mnum::Bytes7;
use mtree::{
    Arg, Called, Destination, Expr, Locked, Parameter, PartTarget, Reference, Target,
    has_call_destination,
};

// Of the condition that an argument may have, and then the one that ends the argument if it does not hold.
fn in_condition<'t>(condition: &'t Option<Box<Expr>>, at: usize) -> Found<'t>
    ensures { found_view result ≡ in_condition (condition_tree condition.now) at }
{
    match condition {
        None => Found::Past(at),
        Some(expr) => value_then(expr, Op::Where, at),
    }
}

// Of a part of a variable that is a target.
fn in_part<'t>(part: &'t PartTarget, at: usize) -> Found<'t>
    ensures { found_view result ≡ in_target (part_tree part.now) at }
{
    match reference_then(&part.reference, Op::Values, at) {
        Found::Op(op) => Found::Op(op),
        Found::Past(left) => values_then(&part.more, Op::Part(&part.word), left),
    }
}

fn in_target<'t>(target: &'t Target, at: usize) -> Found<'t>
    ensures { found_view result ≡ in_target (target_tree target.now) at }
{
    match target {
        Target::Variable(reference) => reference_then(reference, Op::Target, at),
        Target::Part(part) => in_part(part, at),
    }
}

fn in_targets<'t>(targets: &'t [Target], at: usize) -> Found<'t>
    ensures { found_view result ≡ in_targets (map target_tree targets.now) at }
{
    let mut left = at;
    for target in targets {
        match in_target(target, left) {
            Found::Op(op) => return Found::Op(op),
            Found::Past(behind) => left = behind,
        }
    }
    Found::Past(left)
}

// Of what SET assigns to.
fn in_destination<'t>(destination: &'t Destination, at: usize) -> Found<'t>
    ensures { found_view result ≡ in_destination (destination_tree destination.now) at }
{
    if !has_call_destination(destination) {
        return single(Op::Prepare(destination), at);
    }
    match single(Op::Targets, at) {
        Found::Op(op) => Found::Op(op),
        Found::Past(left) => match destination {
            Destination::One(target) => in_target(target, left),
            Destination::Several(targets) => in_targets(targets, left),
        },
    }
}

// Of SET.
fn in_set<'t>(destination: &'t Destination, value: &'t Expr, at: usize) -> Found<'t>
    ensures { found_view result ≡ found_then (in_destination (destination_tree destination.now) at) (in_value (expr_tree value.now)) }
{
    match in_destination(destination, at) {
        Found::Op(op) => Found::Op(op),
        Found::Past(left) => in_value(value, left),
    }
}

fn in_references<'t>(references: &'t [Reference], at: usize) -> Found<'t>
    ensures { found_view result ≡ in_names (map reference_tree references.now) at }
{
    let mut left = at;
    for reference in references {
        match reference_then(reference, Op::Name, left) {
            Found::Op(op) => return Found::Op(op),
            Found::Past(behind) => left = behind,
        }
    }
    Found::Past(left)
}

// Of what LOCK names.
fn in_names<'t>(names: &'t Locked, at: usize) -> Found<'t>
    ensures { found_view result ≡ in_names (names_of (locked_tree names.now)) at }
{
    match names {
        Locked::One(reference) => reference_then(reference, Op::Name, at),
        Locked::Several(references) => in_references(references, at),
    }
}

// Of a timeout, if there is one.
fn in_timeout<'t>(timeout: &'t Option<Box<Expr>>, at: usize) -> Found<'t>
    ensures { found_view result ≡ in_timeout (condition_tree timeout.now) at }
{
    match timeout {
        None => Found::Past(at),
        Some(seconds) => in_value(seconds, at),
    }
}

// Of LOCK.
fn in_lock<'t>(names: &'t Locked, timeout: &'t Option<Box<Expr>>, at: usize) -> Found<'t>
    ensures { found_view result ≡ found_then (single programs.Names at)
        (λ left. found_then (in_names (names_of (locked_tree names.now)) left) (in_timeout (condition_tree timeout.now))) }
{
    match single(Op::Names, at) {
        Found::Op(op) => Found::Op(op),
        Found::Past(left) => match in_names(names, left) {
            Found::Op(op) => Found::Op(op),
            Found::Past(behind) => in_timeout(timeout, behind),
        },
    }
}

// Of a number of a parameter of FOR.
fn in_number<'t>(value: &'t Expr, at: usize) -> Found<'t>
    ensures { found_view result ≡ in_number (expr_tree value.now) at }
{
    value_then(value, Op::Number, at)
}

// Of two of them.
fn in_numbers<'t>(start: &'t Expr, step: &'t Expr, at: usize) -> Found<'t>
    ensures { found_view result ≡ found_then (in_number (expr_tree start.now) at) (in_number (expr_tree step.now)) }
{
    match in_number(start, at) {
        Found::Op(op) => Found::Op(op),
        Found::Past(left) => in_number(step, left),
    }
}

// Of a start and an increment.
fn in_onward<'t>(start: &'t Expr, step: &'t Expr, at: usize) -> Found<'t>
    ensures { found_view result ≡ in_onward (expr_tree start.now) (expr_tree step.now) at }
{
    match single(Op::Numbers, at) {
        Found::Op(op) => Found::Op(op),
        Found::Past(left) => in_numbers(start, step, left),
    }
}

// Of a start, an increment and a limit.
fn in_until<'t>(start: &'t Expr, step: &'t Expr, limit: &'t Expr, at: usize) -> Found<'t>
    ensures { found_view result ≡ found_then (in_onward (expr_tree start.now) (expr_tree step.now) at) (in_number (expr_tree limit.now)) }
{
    match in_onward(start, step, at) {
        Found::Op(op) => Found::Op(op),
        Found::Past(left) => in_number(limit, left),
    }
}

// Of a parameter of FOR.
fn in_parameter<'t>(parameter: &'t Parameter, at: usize) -> Found<'t>
    ensures { found_view result ≡ in_parameter (parameter_tree parameter.now) at }
{
    match parameter {
        Parameter::Once(value) => in_value(value, at),
        Parameter::Onward(start, step) => in_onward(start, step, at),
        Parameter::Until(start, step, limit) => in_until(start, step, limit, at),
    }
}

// Of WRITE of formats and a column.
fn in_formats<'t>(run: &'t Bytes7, column: &'t Expr, at: usize) -> Found<'t>
    ensures { found_view result ≡ found_then (single (programs.Formats run.now) at) (in_value (expr_tree column.now)) }
{
    match single(Op::Formats(run), at) {
        Found::Op(op) => Found::Op(op),
        Found::Past(left) => in_value(column, left),
    }
}

// Of the actuals of DO.
fn in_actuals<'t>(called: &'t Called, at: usize) -> Found<'t>
    ensures { found_view result ≡ found_then (single programs.Begin at) (in_list (called_tree called.now).1) }
{
    match single(Op::Begin, at) {
        Found::Op(op) => Found::Op(op),
        Found::Past(left) => in_list(&called.actuals, left),
    }
}

// Of DO.
fn in_do<'t>(called: &'t Called, condition: &'t Option<Box<Expr>>, at: usize) -> Found<'t>
    ensures { found_view result ≡ found_then (in_condition (condition_tree condition.now) at)
        (λ left. found_then (single programs.Begin left) (in_list (called_tree called.now).1)) }
{
    match in_condition(condition, at) {
        Found::Op(op) => Found::Op(op),
        Found::Past(left) => in_actuals(called, left),
    }
}

// Of XECUTE.
fn in_execute<'t>(text: &'t Expr, condition: &'t Option<Box<Expr>>, at: usize) -> Found<'t>
    ensures { found_view result ≡ found_then (in_condition (condition_tree condition.now) at) (in_value (expr_tree text.now)) }
{
    match in_condition(condition, at) {
        Found::Op(op) => Found::Op(op),
        Found::Past(left) => in_value(text, left),
    }
}

// Of MERGE.
fn in_merge<'t>(target: &'t Reference, source: &'t Reference, at: usize) -> Found<'t>
    ensures { found_view result ≡ found_then (in_reference (reference_tree target.now) at) (in_reference (reference_tree source.now)) }
{
    match in_reference(target, at) {
        Found::Op(op) => Found::Op(op),
        Found::Past(left) => in_reference(source, left),
    }
}

// Of an argument.
fn in_arg<'t>(arg: &'t Arg, at: usize) -> Found<'t>
    ensures { found_view result ≡ in_argument (arg_tree arg.now) at }
{
    match arg {
        Arg::Assign(destination, value) => in_set(destination, value, at),
        Arg::Formats(run, Some(column)) => in_formats(run, column, at),
        Arg::Formats(_, None) => Found::Past(at),
        Arg::Coded(code) => in_value(code, at),
        Arg::Value(value) => in_value(value, at),
        Arg::KillOne(reference) => in_reference(reference, at),
        Arg::KillOthers(_) => Found::Past(at),
        Arg::NewOne(_) => Found::Past(at),
        Arg::NewOthers(_) => Found::Past(at),
        Arg::Tested(condition) => in_value(condition, at),
        Arg::Loop(_, _) => Found::Past(at),
        Arg::DoOne(called, condition) => in_do(called, condition, at),
        Arg::GoTo(_, condition) => in_condition(condition, at),
        Arg::Executed(text, condition) => in_execute(text, condition, at),
        Arg::Lock(_, names, timeout) => in_lock(names, timeout, at),
        Arg::HangFor(seconds) => in_value(seconds, at),
        Arg::Returned(value) => in_value(value, at),
        Arg::MergeOne(target, source) => in_merge(target, source, at),
        Arg::Indirect(_, operand) => in_primary(operand, at),
    }
}

// Of an argument, of a condition, or of a parameter.
fn in_whole<'t>(whole: Whole<'t>, at: usize) -> Found<'t>
    ensures { found_view result ≡ in_whole (whole_view whole.entry) at }
{
    match whole {
        Whole::Argument(arg) => in_arg(arg, at),
        Whole::Condition(expr) => in_value(expr, at),
        Whole::Parameter(_, parameter, _, _) => in_parameter(parameter, at),
    }
}

/// The step at a number, which begins with 0; none past the last. Takes no memory.
#[tactic(auto, using(crate::proofs::Finding::whole_found))]
pub fn op_at<'t>(whole: Whole<'t>, at: usize) -> Option<Op<'t>>
    ensures { option_map op_view result ≡ slice_get (steps_of (whole_view whole.entry)) at }
{
    match in_whole(whole, at) {
        Found::Op(op) => Some(op),
        Found::Past(_) => None,
    }
}

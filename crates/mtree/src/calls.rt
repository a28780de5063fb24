// SPDX-License-Identifier: Apache-2.0
// Whether a tree has a call of a function in it, and whether each stands where it can be carried out a step at a time.
ghost use Rattle.std.specs.Prelude.{◌≡◌, ◌||◌, ◌&&◌, not, map};
ghost use Rattle.std.specs.List.{list_all, list_any};
ghost use Rattle.mgrammar.specs.Grammar.{tails_of, exprs_of, choices_of, actuals_of};
ghost use Rattle.mgrammar.specs.CallsIn.{has_call, has_call_tails, has_call_tail, has_call_operand, has_call_primary, has_call_reference, has_call_exprs};
ghost use Rattle.mgrammar.specs.CallsIn.{has_call_choices, has_call_actual, has_call_actuals, has_call_optional, has_call_target, has_call_destination};
ghost use Rattle.mgrammar.specs.CallsIn.{has_call_parameter, has_call_locked, has_call_arg};
ghost use Rattle.mgrammar.specs.ProgramsIn.{in_steps, in_steps_tails, in_steps_tail, in_steps_operand, in_steps_primary, in_steps_reference, in_steps_exprs};
ghost use Rattle.mgrammar.specs.ProgramsIn.{in_steps_choices, in_steps_actual, in_steps_actuals, in_steps_optional, in_steps_target, in_steps_destination};
ghost use Rattle.mgrammar.specs.ProgramsIn.{in_steps_parameter, in_steps_locked, in_steps_arg};
ghost use Rattle.mtree.specs.Tree.{expr_tree, tail_tree, operand_tree, primary_tree, reference_tree, referring_tree, choice_tree, actual_tree, part_tree};
ghost use Rattle.mtree.specs.Tree.{target_tree, destination_tree, parameter_tree, locked_tree, arg_tree, condition_tree};

use crate::tree::{
    Actual, Arg, Choice, Destination, Expr, Locked, Operand, Parameter, PartTarget, Primary,
    Reference, Referring, Tail, Target,
};

// Both are known: no branch.
fn either(one: bool, other: bool) -> bool
    ensures { result ≡ one || other }
{
    one | other
}

/// Whether a function is called in an expression. Takes no memory.
#[cycle(calls)]
pub fn has_call(expr: &Expr) -> bool
    ensures { result ≡ has_call (expr_tree expr.now) }
{
    either(has_call_operand(&expr.first), has_call_tails(&expr.rest))
}

#[cycle(calls)]
#[tactic(auto, using(crate::proofs::CallsFound::either_more))]
fn has_call_tails(tails: &[Tail]) -> bool
    ensures { result ≡ has_call_tails (tails_of (map tail_tree tails.now)) }
{
    let mut found = false;
    for tail in tails {
        found = either(found, has_call_tail(tail));
    }
    found
}

#[cycle(calls)]
fn has_call_tail(tail: &Tail) -> bool
    ensures { result ≡ has_call_tail (tail_tree tail.now) }
{
    match tail {
        Tail::Apply(_, operand) => has_call_operand(operand),
        Tail::Matches(_) => false,
        Tail::MatchesNot(_) => false,
        Tail::Raise(operand) => has_call_operand(operand),
        Tail::MatchesIndirect(operand) => has_call_primary(operand),
        Tail::MatchesNotIndirect(operand) => has_call_primary(operand),
    }
}

/// Whether a function is called in an operand. Takes no memory.
#[cycle(calls)]
pub fn has_call_operand(operand: &Operand) -> bool
    ensures { result ≡ has_call_operand (operand_tree operand.now) }
{
    has_call_primary(&operand.primary)
}

/// Whether a function is called in a primary, or it is a call. Takes no memory.
#[cycle(calls)]
pub fn has_call_primary(primary: &Primary) -> bool
    ensures { result ≡ has_call_primary (primary_tree primary.now) }
{
    match primary {
        Primary::Number(_) => false,
        Primary::Text(_) => false,
        Primary::Special(_) => false,
        Primary::Reference(reference) => has_call_reference(reference),
        Primary::Bracket(inner) => has_call(inner),
        Primary::Call(_, arguments) => has_call_exprs(arguments),
        Primary::Select(_, choices) => has_call_choices(choices),
        Primary::Refer(referring) => has_call_referring(referring),
        Primary::Extrinsic(_) => true,
    }
}

#[cycle(calls)]
fn has_call_referring(referring: &Referring) -> bool
    ensures { result ≡ has_call_primary (referring_tree referring.now) }
{
    either(
        has_call_reference(&referring.reference),
        has_call_exprs(&referring.more),
    )
}

#[cycle(calls)]
fn has_call_reference(reference: &Reference) -> bool
    ensures { result ≡ has_call_reference (reference_tree reference.now) }
{
    match reference {
        Reference::Variable(_) => false,
        Reference::Node(_, subscript) => has_call(subscript),
        Reference::Local(_, subscripts) => has_call_exprs(subscripts),
        Reference::Global(_, subscripts) => has_call_exprs(subscripts),
        Reference::Naked(subscripts) => has_call_exprs(subscripts),
        Reference::Indirect(operand, subscripts) => {
            either(has_call_primary(operand), has_call_exprs(subscripts))
        }
        Reference::Extended(environment, _, subscripts) => {
            either(has_call(environment), has_call_exprs(subscripts))
        }
    }
}

/// Whether a function is called in one of these expressions. Takes no memory.
#[cycle(calls)]
#[tactic(auto, using(crate::proofs::CallsFound::either_more))]
pub fn has_call_exprs(exprs: &[Expr]) -> bool
    ensures { result ≡ has_call_exprs (exprs_of (map expr_tree exprs.now)) }
{
    let mut found = false;
    for expr in exprs {
        found = either(found, has_call(expr));
    }
    found
}

#[cycle(calls)]
#[tactic(auto, using(crate::proofs::CallsFound::either_more))]
fn has_call_choices(choices: &[Choice]) -> bool
    ensures { result ≡ has_call_choices (choices_of (map choice_tree choices.now)) }
{
    let mut found = false;
    for choice in choices {
        let both = either(has_call(&choice.condition), has_call(&choice.value));
        found = either(found, both);
    }
    found
}

/// Whether a function is called in an actual. Takes no memory.
pub fn has_call_actual(actual: &Actual) -> bool
    ensures { result ≡ has_call_actual (actual_tree actual.now) }
{
    match actual {
        Actual::Missing => false,
        Actual::Value(value) => has_call(value),
        Actual::Name(_) => false,
        Actual::IndirectName(operand) => has_call_primary(operand),
    }
}

#[tactic(auto, using(crate::proofs::CallsFound::either_more))]
fn has_call_actuals(actuals: &[Actual]) -> bool
    ensures { result ≡ has_call_actuals (actuals_of (map actual_tree actuals.now)) }
{
    let mut found = false;
    for actual in actuals {
        found = either(found, has_call_actual(actual));
    }
    found
}

/// Whether a function is called in a condition, if there is one. Takes no memory.
pub fn has_call_optional(condition: &Option<Box<Expr>>) -> bool
    ensures { result ≡ has_call_optional (condition_tree condition.now) }
{
    match condition {
        None => false,
        Some(condition) => has_call(condition),
    }
}

fn has_call_part(part: &PartTarget) -> bool
    ensures { result ≡ has_call_target (part_tree part.now) }
{
    either(
        has_call_reference(&part.reference),
        has_call_exprs(&part.more),
    )
}

fn has_call_target(target: &Target) -> bool
    ensures { result ≡ has_call_target (target_tree target.now) }
{
    match target {
        Target::Variable(reference) => has_call_reference(reference),
        Target::Part(part) => has_call_part(part),
    }
}

#[tactic(auto, using(crate::proofs::CallsFound::either_more))]
fn has_call_targets(targets: &[Target]) -> bool
    ensures { result ≡ list_any has_call_target (map target_tree targets.now) }
{
    let mut found = false;
    for target in targets {
        found = either(found, has_call_target(target));
    }
    found
}

/// Whether a function is called in what SET assigns to. Takes no memory.
pub fn has_call_destination(destination: &Destination) -> bool
    ensures { result ≡ has_call_destination (destination_tree destination.now) }
{
    match destination {
        Destination::One(target) => has_call_target(target),
        Destination::Several(targets) => has_call_targets(targets),
    }
}

/// Whether a function is called in a parameter of FOR. Takes no memory.
pub fn has_call_parameter(parameter: &Parameter) -> bool
    ensures { result ≡ has_call_parameter (parameter_tree parameter.now) }
{
    match parameter {
        Parameter::Once(value) => has_call(value),
        Parameter::Onward(start, step) => either(has_call(start), has_call(step)),
        Parameter::Until(start, step, limit) => {
            either(has_call(start), either(has_call(step), has_call(limit)))
        }
    }
}

#[tactic(auto, using(crate::proofs::CallsFound::either_more))]
fn has_call_parameters(parameters: &[Parameter]) -> bool
    ensures { result ≡ list_any has_call_parameter (map parameter_tree parameters.now) }
{
    let mut found = false;
    for parameter in parameters {
        found = either(found, has_call_parameter(parameter));
    }
    found
}

#[tactic(auto, using(crate::proofs::CallsFound::either_more))]
fn has_call_references(references: &[Reference]) -> bool
    ensures { result ≡ list_any has_call_reference (map reference_tree references.now) }
{
    let mut found = false;
    for reference in references {
        found = either(found, has_call_reference(reference));
    }
    found
}

fn has_call_locked(locked: &Locked) -> bool
    ensures { result ≡ has_call_locked (locked_tree locked.now) }
{
    match locked {
        Locked::One(reference) => has_call_reference(reference),
        Locked::Several(references) => has_call_references(references),
    }
}

/// Whether a function is called in an argument of a command. Takes no memory.
pub fn has_call_arg(arg: &Arg) -> bool
    ensures { result ≡ has_call_arg (arg_tree arg.now) }
{
    match arg {
        Arg::Assign(destination, value) => either(
            has_call_destination(destination),
            has_call(value),
        ),
        Arg::Formats(_, tab) => has_call_optional(tab),
        Arg::Coded(code) => has_call(code),
        Arg::Value(value) => has_call(value),
        Arg::KillOne(reference) => has_call_reference(reference),
        Arg::KillOthers(_) => false,
        Arg::NewOne(_) => false,
        Arg::NewOthers(_) => false,
        Arg::Tested(condition) => has_call(condition),
        Arg::Loop(_, parameters) => has_call_parameters(parameters),
        Arg::DoOne(called, condition) => {
            either(
                has_call_actuals(&called.actuals),
                has_call_optional(condition),
            )
        }
        Arg::GoTo(_, condition) => has_call_optional(condition),
        Arg::Executed(text, condition) => either(has_call(text), has_call_optional(condition)),
        Arg::Lock(_, names, timeout) => either(has_call_locked(names), has_call_optional(timeout)),
        Arg::HangFor(seconds) => has_call(seconds),
        Arg::Returned(value) => has_call(value),
        Arg::MergeOne(target, source) => either(
            has_call_reference(target),
            has_call_reference(source),
        ),
        Arg::Indirect(_, operand) => has_call_primary(operand),
    }
}

// The same of two that both have to hold.
fn both(one: bool, other: bool) -> bool
    ensures { result ≡ one && other }
{
    one & other
}

// Whether each call in an expression can be carried out a step at a time: none stands in the subscripts after an indirection.
#[cycle(steps)]
fn in_steps(expr: &Expr) -> bool
    ensures { result ≡ in_steps (expr_tree expr.now) }
{
    both(in_steps_operand(&expr.first), in_steps_tails(&expr.rest))
}

#[cycle(steps)]
#[tactic(auto, using(crate::proofs::CallsFound::both_more))]
fn in_steps_tails(tails: &[Tail]) -> bool
    ensures { result ≡ in_steps_tails (tails_of (map tail_tree tails.now)) }
{
    let mut all = true;
    for tail in tails {
        all = both(all, in_steps_tail(tail));
    }
    all
}

#[cycle(steps)]
fn in_steps_tail(tail: &Tail) -> bool
    ensures { result ≡ in_steps_tail (tail_tree tail.now) }
{
    match tail {
        Tail::Apply(_, operand) => in_steps_operand(operand),
        Tail::Matches(_) => true,
        Tail::MatchesNot(_) => true,
        Tail::Raise(operand) => in_steps_operand(operand),
        Tail::MatchesIndirect(operand) => in_steps_primary(operand),
        Tail::MatchesNotIndirect(operand) => in_steps_primary(operand),
    }
}

#[cycle(steps)]
fn in_steps_operand(operand: &Operand) -> bool
    ensures { result ≡ in_steps_operand (operand_tree operand.now) }
{
    in_steps_primary(&operand.primary)
}

#[cycle(steps)]
fn in_steps_primary(primary: &Primary) -> bool
    ensures { result ≡ in_steps_primary (primary_tree primary.now) }
{
    match primary {
        Primary::Number(_) => true,
        Primary::Text(_) => true,
        Primary::Special(_) => true,
        Primary::Reference(reference) => in_steps_reference(reference),
        Primary::Bracket(inner) => in_steps(inner),
        Primary::Call(_, arguments) => in_steps_exprs(arguments),
        Primary::Select(_, choices) => in_steps_choices(choices),
        Primary::Refer(referring) => in_steps_referring(referring),
        Primary::Extrinsic(called) => in_steps_actuals(&called.actuals),
    }
}

#[cycle(steps)]
fn in_steps_referring(referring: &Referring) -> bool
    ensures { result ≡ in_steps_primary (referring_tree referring.now) }
{
    both(
        in_steps_reference(&referring.reference),
        in_steps_exprs(&referring.more),
    )
}

#[cycle(steps)]
fn in_steps_reference(reference: &Reference) -> bool
    ensures { result ≡ in_steps_reference (reference_tree reference.now) }
{
    match reference {
        Reference::Variable(_) => true,
        Reference::Node(_, subscript) => in_steps(subscript),
        Reference::Local(_, subscripts) => in_steps_exprs(subscripts),
        Reference::Global(_, subscripts) => in_steps_exprs(subscripts),
        Reference::Naked(subscripts) => in_steps_exprs(subscripts),
        Reference::Indirect(operand, subscripts) => {
            both(in_steps_primary(operand), in_steps_exprs(subscripts))
        }
        Reference::Extended(environment, _, subscripts) => {
            both(in_steps(environment), in_steps_exprs(subscripts))
        }
    }
}

#[cycle(steps)]
#[tactic(auto, using(crate::proofs::CallsFound::both_more))]
fn in_steps_exprs(exprs: &[Expr]) -> bool
    ensures { result ≡ in_steps_exprs (exprs_of (map expr_tree exprs.now)) }
{
    let mut all = true;
    for expr in exprs {
        all = both(all, in_steps(expr));
    }
    all
}

#[cycle(steps)]
#[tactic(auto, using(crate::proofs::CallsFound::both_more))]
fn in_steps_choices(choices: &[Choice]) -> bool
    ensures { result ≡ in_steps_choices (choices_of (map choice_tree choices.now)) }
{
    let mut all = true;
    for choice in choices {
        let each = both(in_steps(&choice.condition), in_steps(&choice.value));
        all = both(all, each);
    }
    all
}

#[cycle(steps)]
fn in_steps_actual(actual: &Actual) -> bool
    ensures { result ≡ in_steps_actual (actual_tree actual.now) }
{
    match actual {
        Actual::Missing => true,
        Actual::Value(value) => in_steps(value),
        Actual::Name(_) => true,
        Actual::IndirectName(operand) => in_steps_primary(operand),
    }
}

#[cycle(steps)]
#[tactic(auto, using(crate::proofs::CallsFound::both_more))]
fn in_steps_actuals(actuals: &[Actual]) -> bool
    ensures { result ≡ in_steps_actuals (actuals_of (map actual_tree actuals.now)) }
{
    let mut all = true;
    for actual in actuals {
        all = both(all, in_steps_actual(actual));
    }
    all
}

// The same of a condition, if there is one.
pub(crate) fn in_steps_optional(condition: &Option<Box<Expr>>) -> bool
    ensures { result ≡ in_steps_optional (condition_tree condition.now) }
{
    match condition {
        None => true,
        Some(condition) => in_steps(condition),
    }
}

fn in_steps_part(part: &PartTarget) -> bool
    ensures { result ≡ in_steps_target (part_tree part.now) }
{
    both(
        in_steps_reference(&part.reference),
        in_steps_exprs(&part.more),
    )
}

fn in_steps_target(target: &Target) -> bool
    ensures { result ≡ in_steps_target (target_tree target.now) }
{
    match target {
        Target::Variable(reference) => in_steps_reference(reference),
        Target::Part(part) => in_steps_part(part),
    }
}

#[tactic(auto, using(crate::proofs::CallsFound::both_more))]
fn in_steps_targets(targets: &[Target]) -> bool
    ensures { result ≡ list_all in_steps_target (map target_tree targets.now) }
{
    let mut all = true;
    for target in targets {
        all = both(all, in_steps_target(target));
    }
    all
}

fn in_steps_destination(destination: &Destination) -> bool
    ensures { result ≡ in_steps_destination (destination_tree destination.now) }
{
    match destination {
        Destination::One(target) => in_steps_target(target),
        Destination::Several(targets) => in_steps_targets(targets),
    }
}

fn in_steps_parameter(parameter: &Parameter) -> bool
    ensures { result ≡ in_steps_parameter (parameter_tree parameter.now) }
{
    match parameter {
        Parameter::Once(value) => in_steps(value),
        Parameter::Onward(start, step) => both(in_steps(start), in_steps(step)),
        Parameter::Until(start, step, limit) => {
            both(in_steps(start), both(in_steps(step), in_steps(limit)))
        }
    }
}

#[tactic(auto, using(crate::proofs::CallsFound::both_more))]
fn in_steps_parameters(parameters: &[Parameter]) -> bool
    ensures { result ≡ list_all in_steps_parameter (map parameter_tree parameters.now) }
{
    let mut all = true;
    for parameter in parameters {
        all = both(all, in_steps_parameter(parameter));
    }
    all
}

#[tactic(auto, using(crate::proofs::CallsFound::both_more))]
fn in_steps_references(references: &[Reference]) -> bool
    ensures { result ≡ list_all in_steps_reference (map reference_tree references.now) }
{
    let mut all = true;
    for reference in references {
        all = both(all, in_steps_reference(reference));
    }
    all
}

fn in_steps_locked(locked: &Locked) -> bool
    ensures { result ≡ in_steps_locked (locked_tree locked.now) }
{
    match locked {
        Locked::One(reference) => in_steps_reference(reference),
        Locked::Several(references) => in_steps_references(references),
    }
}

// And of an argument of a command.
pub(crate) fn in_steps_arg(arg: &Arg) -> bool
    ensures { result ≡ in_steps_arg (arg_tree arg.now) }
{
    match arg {
        Arg::Assign(destination, value) => {
            both(in_steps_destination(destination), in_steps(value))
        }
        Arg::Formats(_, tab) => in_steps_optional(tab),
        Arg::Coded(code) => in_steps(code),
        Arg::Value(value) => in_steps(value),
        Arg::KillOne(reference) => in_steps_reference(reference),
        Arg::KillOthers(_) => true,
        Arg::NewOne(_) => true,
        Arg::NewOthers(_) => true,
        Arg::Tested(condition) => in_steps(condition),
        Arg::Loop(_, parameters) => in_steps_parameters(parameters),
        Arg::DoOne(called, condition) => {
            both(
                in_steps_actuals(&called.actuals),
                in_steps_optional(condition),
            )
        }
        Arg::GoTo(_, condition) => in_steps_optional(condition),
        Arg::Executed(text, condition) => both(in_steps(text), in_steps_optional(condition)),
        Arg::Lock(_, names, timeout) => both(in_steps_locked(names), in_steps_optional(timeout)),
        Arg::HangFor(seconds) => in_steps(seconds),
        Arg::Returned(value) => in_steps(value),
        Arg::MergeOne(target, source) => both(
            in_steps_reference(target),
            in_steps_reference(source),
        ),
        Arg::Indirect(_, operand) => in_steps_primary(operand),
    }
}

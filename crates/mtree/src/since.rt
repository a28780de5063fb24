// SPDX-License-Identifier: Apache-2.0
// The first language that has all forms of a tree.
ghost use Rattle.std.specs.Prelude.{◌≡◌, map, max};
ghost use Rattle.mgrammar.specs.Grammar.{tails_of, exprs_of, choices_of, actuals_of, formats};
ghost use Rattle.mgrammar.specs.Languages.{since_all, since_optional, since_atom, since_expr, since_tails, since_tail, since_operand, since_primary};
ghost use Rattle.mgrammar.specs.Languages.{since_reference, since_exprs, since_choices, since_routine, since_entry, since_actual, since_actuals, since_target};
ghost use Rattle.mgrammar.specs.Languages.{since_destination, since_parameter, since_locked, since_format, since_forms, since_calls, since_arg, since_args};
ghost use Rattle.mgrammar.specs.Languages.{since_condition, since_command, since_spaced, since_formals, since_body, since_routine_line};
ghost use Rattle.mtree.specs.Tree.{atom_tree, expr_tree, tail_tree, operand_tree, primary_tree, reference_tree, referring_tree, choice_tree, routine_tree};
ghost use Rattle.mtree.specs.Tree.{entry_tree, actual_tree, called_tree, part_tree, target_tree, destination_tree, parameter_tree, locked_tree, arg_tree};
ghost use Rattle.mtree.specs.Tree.{command_tree, spaced_tree, condition_tree, formals_tree, body_tree, routine_line_tree, IsBodyCounted};

use crate::calls::{in_steps_arg, in_steps_optional};
use crate::tree::{
    Actual, Arg, Atom, Body, Called, Choice, Command, Destination, Entry, Expr, Locked, Operand,
    Parameter, PartTarget, Primary, Reference, Referring, Repeated, RoutineLine, RoutineRef,
    Spaced, Tail, Target,
};
use crate::words::{later, since_function, since_keyword, since_part_of, since_special};
use mnum::Name;

// That of an atom of a pattern: no group stands in a pattern of the profile.
fn since_atom(atom: &Atom) -> u32
    ensures { result ≡ since_atom (atom_tree atom.now) }
{
    match &atom.repeated {
        Repeated::Classes(_) => 0,
        Repeated::Copies(_) => 0,
        Repeated::Group(_) => 1,
    }
}

#[tactic(auto, using(crate::proofs::InLanguages::max_more))]
fn since_atoms(atoms: &[Atom]) -> u32
    ensures { result ≡ since_all since_atom (map atom_tree atoms.now) }
{
    let mut since = 0;
    for atom in atoms {
        since = later(since, since_atom(atom));
    }
    since
}

// That of an expression.
#[cycle(since)]
#[tactic(auto, using(crate::proofs::InLanguages::max_none))]
fn since_expr(expr: &Expr) -> u32
    ensures { result ≡ since_expr (expr_tree expr.now) }
{
    if expr.rest.is_empty() {
        return since_operand(&expr.first);
    }
    later(since_operand(&expr.first), since_tails(&expr.rest))
}

#[cycle(since)]
#[tactic(auto, using(crate::proofs::InLanguages::max_more))]
fn since_tails(tails: &[Tail]) -> u32
    ensures { result ≡ since_tails (tails_of (map tail_tree tails.now)) }
{
    let mut since = 0;
    for tail in tails {
        since = later(since, since_tail(tail));
    }
    since
}

#[cycle(since)]
fn since_tail(tail: &Tail) -> u32
    ensures { result ≡ since_tail (tail_tree tail.now) }
{
    match tail {
        Tail::Apply(_, operand) => since_operand(operand),
        Tail::Matches(atoms) => since_atoms(atoms),
        Tail::MatchesNot(atoms) => since_atoms(atoms),
        Tail::Raise(operand) => later(1, since_operand(operand)),
        Tail::MatchesIndirect(operand) => later(1, since_primary(operand)),
        Tail::MatchesNotIndirect(operand) => later(1, since_primary(operand)),
    }
}

#[cycle(since)]
fn since_operand(operand: &Operand) -> u32
    ensures { result ≡ since_operand (operand_tree operand.now) }
{
    since_primary(&operand.primary)
}

#[cycle(since)]
fn since_primary(primary: &Primary) -> u32
    ensures { result ≡ since_primary (primary_tree primary.now) }
{
    match primary {
        Primary::Number(_) => 0,
        Primary::Text(_) => 0,
        Primary::Special(word) => since_special(word.as_bytes()),
        Primary::Reference(reference) => since_reference(reference),
        Primary::Bracket(inner) => since_expr(inner),
        Primary::Call(word, arguments) => {
            later(word.since(arguments.len()), since_exprs(arguments))
        }
        Primary::Select(word, choices) => {
            later(since_function(word.as_bytes()), since_choices(choices))
        }
        Primary::Refer(referring) => since_referring(referring),
        Primary::Extrinsic(called) => later(1, since_called(called)),
    }
}

#[cycle(since)]
fn since_referring(referring: &Referring) -> u32
    ensures { result ≡ since_primary (referring_tree referring.now) }
{
    let word = referring.word.since();
    let reference = since_reference(&referring.reference);
    later(word, later(reference, since_exprs(&referring.more)))
}

/// That of a variable. Takes no memory.
#[cycle(since)]
pub fn since_reference(reference: &Reference) -> u32
    ensures { result ≡ since_reference (reference_tree reference.now) }
{
    match reference {
        Reference::Variable(_) => 0,
        Reference::Node(_, subscript) => since_expr(subscript),
        Reference::Local(_, subscripts) => since_exprs(subscripts),
        Reference::Global(_, subscripts) => since_exprs(subscripts),
        Reference::Naked(subscripts) => since_exprs(subscripts),
        Reference::Indirect(operand, subscripts) => {
            later(since_primary(operand), since_exprs(subscripts))
        }
        Reference::Extended(environment, _, subscripts) => {
            later(since_expr(environment), since_exprs(subscripts))
        }
    }
}

#[cycle(since)]
#[tactic(auto, using(crate::proofs::InLanguages::max_more))]
fn since_exprs(exprs: &[Expr]) -> u32
    ensures { result ≡ since_exprs (exprs_of (map expr_tree exprs.now)) }
{
    let mut since = 0;
    for expr in exprs {
        since = later(since, since_expr(expr));
    }
    since
}

#[cycle(since)]
#[tactic(auto, using(crate::proofs::InLanguages::max_more))]
fn since_choices(choices: &[Choice]) -> u32
    ensures { result ≡ since_choices (choices_of (map choice_tree choices.now)) }
{
    let mut since = 0;
    for choice in choices {
        let both = later(since_expr(&choice.condition), since_expr(&choice.value));
        since = later(since, both);
    }
    since
}

#[cycle(since)]
fn since_actual(actual: &Actual) -> u32
    ensures { result ≡ since_actual (actual_tree actual.now) }
{
    match actual {
        Actual::Missing => 0,
        Actual::Value(value) => since_expr(value),
        Actual::Name(_) => 0,
        Actual::IndirectName(operand) => since_primary(operand),
    }
}

// That of actuals, whose list is of language 1.
#[cycle(since)]
#[tactic(auto, using(crate::proofs::InLanguages::max_three))]
fn since_actuals(actuals: &[Actual]) -> u32
    ensures { result ≡ since_actuals (actuals_of (map actual_tree actuals.now)) }
{
    let mut since = 0;
    for actual in actuals {
        since = later(since, later(1, since_actual(actual)));
    }
    since
}

// A routine of another account is of language 1.
fn since_routine(routine: &RoutineRef) -> u32
    ensures { result ≡ since_routine (routine_tree routine.now) }
{
    match routine {
        RoutineRef::Own(_) => 0,
        RoutineRef::Shared(_) => 1,
    }
}

fn since_entry(entry: &Entry) -> u32
    ensures { result ≡ since_entry (entry_tree entry.now) }
{
    match entry {
        Entry::Label(_) => 0,
        Entry::LabelIn(_, routine) => since_routine(routine),
        Entry::Routine(routine) => since_routine(routine),
    }
}

// That of what is called, and of its actuals.
#[cycle(since)]
fn since_called(called: &Called) -> u32
    ensures { result ≡ max (since_entry (called_tree called.now).0) (since_actuals (called_tree called.now).1) }
{
    later(since_entry(&called.entry), since_actuals(&called.actuals))
}

// That of an expression, if there is one.
fn since_optional(condition: &Option<Box<Expr>>) -> u32
    ensures { result ≡ since_optional since_expr (condition_tree condition.now) }
{
    match condition {
        None => 0,
        Some(condition) => since_expr(condition),
    }
}

#[tactic(auto, using(crate::proofs::InLanguages::counted))]
fn since_part(part: &PartTarget) -> u32
    ensures { result ≡ since_target (part_tree part.now) }
{
    let word = part.word.as_text().as_bytes();
    let target = later(since_function(word), since_part_of(word, part.more.len()));
    let reference = since_reference(&part.reference);
    later(target, later(reference, since_exprs(&part.more)))
}

fn since_target(target: &Target) -> u32
    ensures { result ≡ since_target (target_tree target.now) }
{
    match target {
        Target::Variable(reference) => since_reference(reference),
        Target::Part(part) => since_part(part),
    }
}

#[tactic(auto, using(crate::proofs::InLanguages::max_more))]
fn since_targets(targets: &[Target]) -> u32
    ensures { result ≡ since_all since_target (map target_tree targets.now) }
{
    let mut since = 0;
    for target in targets {
        since = later(since, since_target(target));
    }
    since
}

fn since_destination(destination: &Destination) -> u32
    ensures { result ≡ since_destination (destination_tree destination.now) }
{
    match destination {
        Destination::One(target) => since_target(target),
        Destination::Several(targets) => since_targets(targets),
    }
}

fn since_parameter(parameter: &Parameter) -> u32
    ensures { result ≡ since_parameter (parameter_tree parameter.now) }
{
    match parameter {
        Parameter::Once(value) => since_expr(value),
        Parameter::Onward(start, step) => later(since_expr(start), since_expr(step)),
        Parameter::Until(start, step, limit) => {
            later(
                since_expr(start),
                later(since_expr(step), since_expr(limit)),
            )
        }
    }
}

#[tactic(auto, using(crate::proofs::InLanguages::max_more))]
fn since_parameters(parameters: &[Parameter]) -> u32
    ensures { result ≡ since_all since_parameter (map parameter_tree parameters.now) }
{
    let mut since = 0;
    for parameter in parameters {
        since = later(since, since_parameter(parameter));
    }
    since
}

#[tactic(auto, using(crate::proofs::InLanguages::max_more))]
fn since_references(references: &[Reference]) -> u32
    ensures { result ≡ since_all since_reference (map reference_tree references.now) }
{
    let mut since = 0;
    for reference in references {
        since = later(since, since_reference(reference));
    }
    since
}

fn since_locked(locked: &Locked) -> u32
    ensures { result ≡ since_locked (locked_tree locked.now) }
{
    match locked {
        Locked::One(reference) => since_reference(reference),
        Locked::Several(references) => since_references(references),
    }
}

fn since_format(format: u8) -> u32
    ensures { result ≡ since_format format }
{
    if format == b'!' { 0 } else { 1 }
}

// That of formats that no column follows: a `#` is of language 1.
#[tactic(auto, using(crate::proofs::InLanguages::max_more))]
fn since_run(run: &[u8]) -> u32
    ensures { result ≡ since_all since_format run.now }
{
    let mut since = 0;
    for format in run {
        since = later(since, since_format(*format));
    }
    since
}

// A column is of language 1.
fn since_formats(run: &[u8], tab: &Option<Box<Expr>>) -> u32
    ensures { result ≡ since_forms (formats run.now (condition_tree tab.now)) }
{
    match tab {
        Some(column) => later(1, since_expr(column)),
        None => since_run(run),
    }
}

// That of an argument's forms, wherever functions are called in it.
fn since_forms(arg: &Arg) -> u32
    ensures { result ≡ since_forms (arg_tree arg.now) }
{
    match arg {
        Arg::Assign(destination, value) => later(since_destination(destination), since_expr(value)),
        Arg::Formats(run, tab) => since_formats(run.as_bytes(), tab),
        Arg::Coded(code) => later(1, since_expr(code)),
        Arg::Value(value) => since_expr(value),
        Arg::KillOne(reference) => since_reference(reference),
        Arg::KillOthers(_) => 0,
        Arg::NewOne(_) => 0,
        Arg::NewOthers(_) => 0,
        Arg::Tested(condition) => since_expr(condition),
        Arg::Loop(_, parameters) => since_parameters(parameters),
        Arg::DoOne(called, condition) => later(since_called(called), since_optional(condition)),
        Arg::GoTo(entry, condition) => later(since_entry(entry), since_optional(condition)),
        Arg::Executed(text, condition) => later(since_expr(text), since_optional(condition)),
        Arg::Lock(_, names, timeout) => later(since_locked(names), since_optional(timeout)),
        Arg::HangFor(seconds) => since_expr(seconds),
        Arg::Returned(value) => since_expr(value),
        Arg::MergeOne(target, source) => later(since_reference(target), since_reference(source)),
        Arg::Indirect(_, operand) => since_primary(operand),
    }
}

// That of the places where functions are called: elsewhere than a step at a time, they are of a language that no settings reach.
fn since_calls(stepped: bool) -> u32
    ensures { result ≡ since_calls stepped }
{
    if stepped { 0 } else { 2 }
}

// What is of the profile calls no function, so it is not looked through for calls.
#[tactic(auto, using(crate::proofs::InLanguages::plain_arg))]
fn since_arg(arg: &Arg) -> u32
    ensures { result ≡ since_arg (arg_tree arg.now) }
{
    let forms = since_forms(arg);
    if forms == 0 {
        return 0;
    }
    later(since_calls(in_steps_arg(arg)), forms)
}

/// That of some arguments. Takes no memory.
#[tactic(auto, using(crate::proofs::InLanguages::max_more, crate::proofs::InLanguages::max_none))]
pub fn since_args(args: &[Arg]) -> u32
    ensures { result ≡ since_args (map arg_tree args.now) }
{
    if let [arg] = args {
        return since_arg(arg);
    }
    let mut since = 0;
    for arg in args {
        since = later(since, since_arg(arg));
    }
    since
}

// That of the condition of a command, if there is one.
#[tactic(auto, using(crate::proofs::InLanguages::plain_condition))]
fn since_condition(condition: &Option<Box<Expr>>) -> u32
    ensures { result ≡ since_condition (condition_tree condition.now) }
{
    let forms = since_optional(condition);
    if forms == 0 {
        return 0;
    }
    later(since_calls(in_steps_optional(condition)), forms)
}

#[tactic(auto, using(crate::proofs::InLanguages::args_counted))]
fn since_command(command: &Command) -> u32
    ensures { result ≡ since_command (command_tree command.now) }
{
    let keyword = since_keyword(command.keyword, command.args.len());
    let condition = since_condition(&command.condition);
    later(keyword, later(condition, since_args(&command.args)))
}

/// That of a line of these commands. Takes no memory.
#[tactic(auto, using(crate::proofs::InLanguages::max_more))]
pub fn since_commands(commands: &[Spaced]) -> u32
    ensures { result ≡ since_all since_spaced (map spaced_tree commands.now) }
{
    let mut since = 0;
    for spaced in commands {
        since = later(since, since_command(&spaced.command));
    }
    since
}

// That of a formal list, if there is one.
fn since_formals(formals: &Option<Vec<Name>>) -> u32
    ensures { result ≡ since_formals (formals_tree formals.now) }
{
    match formals {
        None => 0,
        Some(_) => 1,
    }
}

fn since_body(body: &Body) -> u32
    requires { IsBodyCounted body.now }
    ensures { result ≡ since_body (body_tree body.now) }
{
    match body {
        Body::Short(_) => 0,
        Body::Spaced(_, line) => line.since,
    }
}

/// That of a routine's line, which its formal list and its commands tell. Takes no memory.
pub fn since_routine_line(line: &RoutineLine) -> u32
    requires { IsBodyCounted line.now.body }
    ensures { result ≡ since_routine_line (routine_line_tree line.now) }
{
    later(since_formals(&line.formals), since_body(&line.body))
}

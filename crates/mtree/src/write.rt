// SPDX-License-Identifier: Apache-2.0
// The text of a line: each function appends the spelling of its part, as `mgrammar` has it.
ghost use Rattle.std.specs.Prelude.{◌≡◌, ◌++◌, ◌∷◌, [], List, ℕ, IfOk, OnOk, map};
ghost use Rattle.mgrammar.specs.Grammar.{assign, loop, spell_target, spell_destination, spell_names, spell_parameter, spell_entry, spell_called, spell_kind};
ghost use Rattle.mgrammar.specs.Grammar.{spell_locked, spell_arg, spell_condition, spell_args, spell_comment, spell_command, spell_commands, spell};
ghost use Rattle.mgrammar.specs.Grammar.{do_one, go_to, executed, formats, locked, merge_one, spell_expr, spell_primary, spell_reference};
ghost use Rattle.mgrammar.specs.RoutineLine.{spell_dots, spell_label, spell_formals, spell_body, spell_routine_line};
ghost use Rattle.mtree.specs.Tree.{expr_tree, primary_tree, part_tree, target_tree, destination_tree, parameter_tree, entry_tree, called_tree, kind_tree};
ghost use Rattle.mtree.specs.Tree.{locked_tree, reference_tree, arg_tree, command_tree, spaced_tree, line_tree, condition_tree, formals_tree, body_tree};
ghost use Rattle.mtree.specs.Tree.{routine_line_tree};

use crate::expression::{
    put_called, put_entry, put_expr, put_more, put_primary, put_reference, put_word,
};
use crate::pieces::{put_run, put_text};
use crate::put_list::{Listed, put_bracketed, put_list};
use crate::tree::{
    Arg, Body, Called, Command, Destination, Entry, Expr, Line, LockKind, Locked, Parameter,
    PartTarget, Primary, Reference, RoutineLine, Spaced, Target,
};
use mnum::{Bytes7, Name};
use std::alloc::{AllocError, Global};

fn put_part(out: &mut Bytes7, part: &PartTarget) -> Result<(), AllocError>
    ensures { OnOk result (out.new ≡ out.old ++ spell_target (part_tree part.now)) }
{
    put_word(out, part.word.as_text())?;
    put_reference(out, &part.reference)?;
    put_more(out, &part.more)?;
    out.push(b')')
}

impl Listed for Target {
    ghost spelling = { λ target. spell_target (target_tree target) };

    fn put(&self, out: &mut Bytes7) -> Result<(), AllocError> {
        match self {
            Target::Variable(reference) => put_reference(out, reference),
            Target::Part(part) => put_part(out, part),
        }
    }
}

#[tactic(auto, using(crate::proofs::ListTexts::targets))]
fn put_destination(out: &mut Bytes7, destination: &Destination) -> Result<(), AllocError>
    ensures { OnOk result (out.new ≡ out.old ++ spell_destination (destination_tree destination.now)) }
{
    match destination {
        Destination::One(target) => target.put(out),
        Destination::Several(targets) => put_bracketed(out, targets),
    }
}

fn put_assignment(
    out: &mut Bytes7,
    destination: &Destination,
    value: &Expr,
) -> Result<(), AllocError>
    ensures { OnOk result (out.new ≡ out.old ++ spell_arg (assign (destination_tree destination.now) (expr_tree value.now))) }
{
    put_destination(out, destination)?;
    out.push(b'=')?;
    put_expr(out, value)
}

impl Listed for Name {
    ghost spelling = { λ name. name };

    fn put(&self, out: &mut Bytes7) -> Result<(), AllocError> {
        put_text(out, self.as_bytes7())
    }
}

// In brackets.
fn put_names(out: &mut Bytes7, names: &Vec<Name>) -> Result<(), AllocError>
    ensures { OnOk result (out.new ≡ out.old ++ spell_names names.now.items) }
{
    put_bracketed(out, names)
}

impl Listed for Parameter {
    ghost spelling = { λ parameter. spell_parameter (parameter_tree parameter) };

    fn put(&self, out: &mut Bytes7) -> Result<(), AllocError> {
        match self {
            Parameter::Once(value) => put_expr(out, value),
            Parameter::Onward(start, step) => {
                put_expr(out, start)?;
                out.push(b':')?;
                put_expr(out, step)
            }
            Parameter::Until(start, step, limit) => {
                put_expr(out, start)?;
                out.push(b':')?;
                put_expr(out, step)?;
                out.push(b':')?;
                put_expr(out, limit)
            }
        }
    }
}

fn put_loop(out: &mut Bytes7, index: &Name, parameters: &Vec<Parameter>) -> Result<(), AllocError>
    ensures { OnOk result (out.new ≡ out.old ++ spell_arg (loop index.now (map parameter_tree parameters.now.items))) }
{
    put_text(out, index.as_bytes7())?;
    out.push(b'=')?;
    put_list(out, parameters)
}

// After a colon, if there is one.
fn put_condition(out: &mut Bytes7, condition: &Option<Box<Expr>>) -> Result<(), AllocError>
    ensures { OnOk result (out.new ≡ out.old ++ spell_condition (condition_tree condition.now)) }
{
    if let Some(condition) = condition {
        out.push(b':')?;
        put_expr(out, condition)?;
    }
    Ok(())
}

// What DO calls, and the condition after that.
fn put_conditioned_call(
    out: &mut Bytes7,
    called: &Called,
    condition: &Option<Box<Expr>>,
) -> Result<(), AllocError>
    ensures { OnOk result (out.new ≡ out.old ++ spell_called (called_tree called.now) ++ spell_condition (condition_tree condition.now)) }
{
    put_called(out, called)?;
    put_condition(out, condition)
}

// Where GOTO leads, and the condition after that.
fn put_conditioned_entry(
    out: &mut Bytes7,
    entry: &Entry,
    condition: &Option<Box<Expr>>,
) -> Result<(), AllocError>
    ensures { OnOk result (out.new ≡ out.old ++ spell_entry (entry_tree entry.now) ++ spell_condition (condition_tree condition.now)) }
{
    put_entry(out, entry)?;
    put_condition(out, condition)
}

fn put_execution(
    out: &mut Bytes7,
    text: &Expr,
    condition: &Option<Box<Expr>>,
) -> Result<(), AllocError>
    ensures { OnOk result (out.new ≡ out.old ++ spell_arg (executed (expr_tree text.now) (condition_tree condition.now))) }
{
    put_expr(out, text)?;
    put_condition(out, condition)
}

fn put_kind(out: &mut Bytes7, kind: LockKind) -> Result<(), AllocError>
    ensures { OnOk result (out.new ≡ out.old ++ spell_kind (kind_tree kind)) }
{
    match kind {
        LockKind::Anew => Ok(()),
        LockKind::Adding => out.push(b'+'),
        LockKind::GivingBack => out.push(b'-'),
    }
}

impl Listed for Reference {
    ghost spelling = { λ reference. spell_reference (reference_tree reference) };

    fn put(&self, out: &mut Bytes7) -> Result<(), AllocError> {
        put_reference(out, self)
    }
}

#[tactic(auto, using(crate::proofs::ListTexts::references))]
fn put_locked(out: &mut Bytes7, locked: &Locked) -> Result<(), AllocError>
    ensures { OnOk result (out.new ≡ out.old ++ spell_locked (locked_tree locked.now)) }
{
    match locked {
        Locked::One(reference) => put_reference(out, reference),
        Locked::Several(references) => put_bracketed(out, references),
    }
}

// How it begins, what it names, and a timeout if there is one.
fn put_lock(
    out: &mut Bytes7,
    kind: LockKind,
    names: &Locked,
    timeout: &Option<Box<Expr>>,
) -> Result<(), AllocError>
    ensures { OnOk result (out.new ≡ out.old ++ spell_arg (locked (kind_tree kind) (locked_tree names.now) (condition_tree timeout.now))) }
{
    put_kind(out, kind)?;
    put_locked(out, names)?;
    put_condition(out, timeout)
}

// Of MERGE.
fn put_merge(out: &mut Bytes7, target: &Reference, source: &Reference) -> Result<(), AllocError>
    ensures { OnOk result (out.new ≡ out.old ++ spell_arg (merge_one (reference_tree target.now) (reference_tree source.now))) }
{
    put_reference(out, target)?;
    out.push(b'=')?;
    put_reference(out, source)
}

// Formats, and a column after a `?`, if there is one.
fn put_formats(out: &mut Bytes7, run: &Bytes7, tab: &Option<Box<Expr>>) -> Result<(), AllocError>
    ensures { OnOk result (out.new ≡ out.old ++ spell_arg (formats run.now (condition_tree tab.now))) }
{
    put_text(out, run)?;
    if let Some(column) = tab {
        out.push(b'?')?;
        put_expr(out, column)?;
    }
    Ok(())
}

// After a `*`.
fn put_code(out: &mut Bytes7, code: &Expr) -> Result<(), AllocError>
    ensures { OnOk result (out.new ≡ out.old ++ 42 ∷ spell_expr (expr_tree code.now)) }
{
    out.push(b'*')?;
    put_expr(out, code)
}

// After an `@`.
fn put_operand(out: &mut Bytes7, operand: &Primary) -> Result<(), AllocError>
    ensures { OnOk result (out.new ≡ out.old ++ 64 ∷ spell_primary (primary_tree operand.now)) }
{
    out.push(b'@')?;
    put_primary(out, operand)
}

impl Listed for Arg {
    ghost spelling = { λ arg. spell_arg (arg_tree arg) };

    fn put(&self, out: &mut Bytes7) -> Result<(), AllocError> {
        match self {
            Arg::Assign(destination, value) => put_assignment(out, destination, value),
            Arg::Formats(run, tab) => put_formats(out, run, tab),
            Arg::Coded(code) => put_code(out, code),
            Arg::Value(value) => put_expr(out, value),
            Arg::KillOne(reference) => put_reference(out, reference),
            Arg::KillOthers(names) => put_names(out, names),
            Arg::NewOne(name) => put_text(out, name.as_bytes7()),
            Arg::NewOthers(names) => put_names(out, names),
            Arg::Tested(condition) => put_expr(out, condition),
            Arg::Loop(index, parameters) => put_loop(out, index, parameters),
            Arg::DoOne(called, condition) => put_conditioned_call(out, called, condition),
            Arg::GoTo(entry, condition) => put_conditioned_entry(out, entry, condition),
            Arg::Executed(text, condition) => put_execution(out, text, condition),
            Arg::Lock(kind, names, timeout) => put_lock(out, *kind, names, timeout),
            Arg::HangFor(seconds) => put_expr(out, seconds),
            Arg::Returned(value) => put_expr(out, value),
            Arg::MergeOne(target, source) => put_merge(out, target, source),
            Arg::Indirect(_, operand) => put_operand(out, operand),
        }
    }
}

// After a space, if there are some.
fn put_args(out: &mut Bytes7, args: &Vec<Arg>) -> Result<(), AllocError>
    ensures { OnOk result (out.new ≡ out.old ++ spell_args (map arg_tree args.now.items)) }
{
    if args.is_empty() {
        return Ok(());
    }
    out.push(b' ')?;
    put_list(out, args)
}

fn put_command(out: &mut Bytes7, command: &Command) -> Result<(), AllocError>
    ensures { OnOk result (out.new ≡ out.old ++ spell_command (command_tree command.now)) }
{
    put_text(out, &command.word)?;
    put_condition(out, &command.condition)?;
    put_args(out, &command.args)
}

fn put_commands(out: &mut Bytes7, commands: &[Spaced]) -> Result<(), AllocError>
    ensures { OnOk result (out.new ≡ out.old ++ spell_commands (map spaced_tree commands.now)) }
{
    for spaced in commands {
        put_command(out, &spaced.command)?;
        put_run(out, b' ', spaced.spaces)?;
    }
    Ok(())
}

// After a `;`, if there is one.
fn put_comment(out: &mut Bytes7, comment: &Option<Bytes7>) -> Result<(), AllocError>
    ensures { OnOk result (out.new ≡ out.old ++ spell_comment comment.now) }
{
    if let Some(comment) = comment {
        out.push(b';')?;
        put_text(out, comment)?;
    }
    Ok(())
}

fn put_line(out: &mut Bytes7, line: &Line) -> Result<(), AllocError>
    ensures { OnOk result (out.new ≡ out.old ++ spell (line_tree line.now)) }
{
    put_run(out, b' ', line.lead)?;
    put_commands(out, &line.commands)?;
    put_comment(out, &line.comment)
}

// Each with its spaces in front.
fn put_dots(out: &mut Bytes7, dots: &[usize]) -> Result<(), AllocError>
    ensures { OnOk result (out.new ≡ out.old ++ spell_dots dots.now) }
{
    for spaces in dots {
        put_run(out, b' ', *spaces)?;
        out.push(b'.')?;
    }
    Ok(())
}

fn put_label(out: &mut Bytes7, label: &Option<Name>) -> Result<(), AllocError>
    ensures { OnOk result (out.new ≡ out.old ++ spell_label label.now) }
{
    if let Some(label) = label {
        put_text(out, label.as_bytes7())?;
    }
    Ok(())
}

// In brackets, if there is a list.
fn put_formals(out: &mut Bytes7, formals: &Option<Vec<Name>>) -> Result<(), AllocError>
    ensures { OnOk result (out.new ≡ out.old ++ spell_formals (formals_tree formals.now)) }
{
    if let Some(names) = formals {
        put_names(out, names)?;
    }
    Ok(())
}

fn put_body(out: &mut Bytes7, body: &Body) -> Result<(), AllocError>
    ensures { OnOk result (out.new ≡ out.old ++ spell_body (body_tree body.now)) }
{
    match body {
        Body::Short(comment) => put_comment(out, comment),
        Body::Spaced(dots, line) => {
            out.push(b' ')?;
            put_dots(out, dots)?;
            put_line(out, line)
        }
    }
}

/// The text of a line, with its spaces, words and digits as the tree keeps them.
///
/// # Errors
///
/// `AllocError` if it runs out of memory.
pub fn write_line(alloc: Global, line: &Line) -> Result<Bytes7, AllocError>
    ensures { IfOk result (λ text. text ≡ spell (line_tree line.now)) }
{
    let mut out = Bytes7::empty(alloc);
    put_line(&mut out, line)?;
    Ok(out)
}

/// The text of a routine's line, with its spaces, words and digits as the tree keeps them.
///
/// # Errors
///
/// `AllocError` if it runs out of memory.
pub fn write_routine_line(alloc: Global, line: &RoutineLine) -> Result<Bytes7, AllocError>
    ensures { IfOk result (λ text. text ≡ spell_routine_line (routine_line_tree line.now)) }
{
    let mut out = Bytes7::empty(alloc);
    put_label(&mut out, &line.label)?;
    put_formals(&mut out, &line.formals)?;
    put_body(&mut out, &line.body)?;
    Ok(out)
}

// SPDX-License-Identifier: Apache-2.0
// The text of an expression.
ghost use Rattle.std.specs.Prelude.{◌≡◌, ◌++◌, ◌<◌, ◌∷◌, [], List, ℕ, OnOk, map};
ghost use Rattle.mgrammar.specs.Grammar.{sign_char, spell_truth, spell_binary, spell_signs, spell_atoms, spell_expr, tails_of, exprs_of, choices_of};
ghost use Rattle.mgrammar.specs.Grammar.{spell_tails, spell_tail, spell_operand, spell_primary, spell_reference, spell_subscripts, spell_attached, spell_exprs};
ghost use Rattle.mgrammar.specs.Grammar.{spell_more_exprs, spell_choices, actuals_of, spell_routine, spell_entry, spell_actual, spell_actuals, spell_called};
ghost use Rattle.mtree.specs.Tree.{sign_tree, truth_tree, binary_tree, atom_tree, expr_tree, tail_tree, operand_tree, primary_tree, reference_tree};
ghost use Rattle.mtree.specs.Tree.{referring_tree, choice_tree, shared_tree, routine_tree, entry_tree, actual_tree, called_tree};

use crate::function_word::ValueWord;
use crate::patterns::put_atoms;
use crate::pieces::{put_string, put_text};
use crate::put_list::{Listed, put_list};
use crate::tree::{
    Actual, Binary, Called, Choice, Entry, Expr, Operand, Primary, Reference, Referring,
    RoutineRef, SharedRoutine, Sign, Tail, Truth,
};
use mnum::Bytes7;
use std::alloc::AllocError;

fn sign_byte(sign: Sign) -> u8
    ensures value { result ≡ sign_char (sign_tree sign) }
    ensures seven_bits { result < 128 }
{
    match sign {
        Sign::Plus => b'+',
        Sign::Minus => b'-',
        Sign::Not => b'\'',
    }
}

fn put_signs(out: &mut Bytes7, signs: &[Sign]) -> Result<(), AllocError>
    ensures { OnOk result (out.new ≡ out.old ++ spell_signs (map sign_tree signs.now)) }
{
    for sign in signs {
        out.push(sign_byte(*sign))?;
    }
    Ok(())
}

fn put_truth(out: &mut Bytes7, operator: Truth) -> Result<(), AllocError>
    ensures { OnOk result (out.new ≡ out.old ++ spell_truth (truth_tree operator)) }
{
    match operator {
        Truth::Equals => out.push(b'='),
        Truth::Less => out.push(b'<'),
        Truth::Greater => out.push(b'>'),
        Truth::Contains => out.push(b'['),
        Truth::Follows => out.push(b']'),
        Truth::SortsAfter => {
            out.push(b']')?;
            out.push(b']')
        }
        Truth::Both => out.push(b'&'),
        Truth::Either => out.push(b'!'),
    }
}

fn put_binary(out: &mut Bytes7, operator: Binary) -> Result<(), AllocError>
    ensures { OnOk result (out.new ≡ out.old ++ spell_binary (binary_tree operator)) }
{
    match operator {
        Binary::Add => out.push(b'+'),
        Binary::Subtract => out.push(b'-'),
        Binary::Multiply => out.push(b'*'),
        Binary::Divide => out.push(b'/'),
        Binary::DivideWhole => out.push(b'\\'),
        Binary::Remainder => out.push(b'#'),
        Binary::Join => out.push(b'_'),
        Binary::Is(truth) => put_truth(out, truth),
        Binary::IsNot(truth) => {
            out.push(b'\'')?;
            put_truth(out, truth)
        }
    }
}

#[cycle(expr)]
pub fn put_expr(out: &mut Bytes7, expr: &Expr) -> Result<(), AllocError>
    ensures { OnOk result (out.new ≡ out.old ++ spell_expr (expr_tree expr.now)) }
{
    put_operand(out, &expr.first)?;
    put_tails(out, &expr.rest)
}

#[cycle(expr)]
fn put_tails(out: &mut Bytes7, tails: &[Tail]) -> Result<(), AllocError>
    ensures { OnOk result (out.new ≡ out.old ++ spell_tails (tails_of (map tail_tree tails.now))) }
{
    for tail in tails {
        put_tail(out, tail)?;
    }
    Ok(())
}

#[cycle(expr)]
fn put_tail(out: &mut Bytes7, tail: &Tail) -> Result<(), AllocError>
    ensures { OnOk result (out.new ≡ out.old ++ spell_tail (tail_tree tail.now)) }
{
    match tail {
        Tail::Apply(operator, operand) => {
            put_binary(out, *operator)?;
            put_operand(out, operand)
        }
        Tail::Matches(atoms) => {
            out.push(b'?')?;
            put_atoms(out, atoms)
        }
        Tail::MatchesNot(atoms) => {
            out.push(b'\'')?;
            out.push(b'?')?;
            put_atoms(out, atoms)
        }
        Tail::Raise(operand) => {
            out.push(b'*')?;
            out.push(b'*')?;
            put_operand(out, operand)
        }
        Tail::MatchesIndirect(operand) => {
            out.push(b'?')?;
            out.push(b'@')?;
            put_primary(out, operand)
        }
        Tail::MatchesNotIndirect(operand) => {
            out.push(b'\'')?;
            out.push(b'?')?;
            out.push(b'@')?;
            put_primary(out, operand)
        }
    }
}

#[cycle(expr)]
fn put_operand(out: &mut Bytes7, operand: &Operand) -> Result<(), AllocError>
    ensures { OnOk result (out.new ≡ out.old ++ spell_operand (operand_tree operand.now)) }
{
    put_signs(out, &operand.signs)?;
    put_primary(out, &operand.primary)
}

#[cycle(expr)]
pub fn put_primary(out: &mut Bytes7, primary: &Primary) -> Result<(), AllocError>
    ensures { OnOk result (out.new ≡ out.old ++ spell_primary (primary_tree primary.now)) }
{
    match primary {
        Primary::Number(literal) => put_text(out, literal.as_text()),
        Primary::Text(text) => put_string(out, text),
        Primary::Special(word) => put_special(out, word),
        Primary::Reference(reference) => put_reference(out, reference),
        Primary::Bracket(inner) => put_bracket(out, inner),
        Primary::Call(word, arguments) => put_call(out, word, arguments),
        Primary::Select(word, choices) => put_select(out, word, choices),
        Primary::Refer(referring) => put_referring(out, referring),
        Primary::Extrinsic(called) => put_extrinsic(out, called),
    }
}

#[cycle(expr)]
pub fn put_reference(out: &mut Bytes7, reference: &Reference) -> Result<(), AllocError>
    ensures { OnOk result (out.new ≡ out.old ++ spell_reference (reference_tree reference.now)) }
{
    match reference {
        Reference::Variable(name) => put_text(out, name.as_bytes7()),
        Reference::Node(name, subscript) => {
            put_text(out, name.as_bytes7())?;
            put_bracket(out, subscript)
        }
        Reference::Local(name, subscripts) => {
            put_text(out, name.as_bytes7())?;
            put_subscripts(out, subscripts)
        }
        Reference::Global(name, subscripts) => {
            out.push(b'^')?;
            put_text(out, name.as_bytes7())?;
            put_subscripts(out, subscripts)
        }
        Reference::Naked(subscripts) => {
            out.push(b'^')?;
            put_subscripts(out, subscripts)
        }
        Reference::Indirect(operand, subscripts) => {
            out.push(b'@')?;
            put_primary(out, operand)?;
            put_attached(out, subscripts)
        }
        Reference::Extended(environment, name, subscripts) => {
            put_environment(out, environment)?;
            put_text(out, name.as_bytes7())?;
            put_subscripts(out, subscripts)
        }
    }
}

// In brackets, if there are some.
#[cycle(expr)]
fn put_subscripts(out: &mut Bytes7, subscripts: &Vec<Expr>) -> Result<(), AllocError>
    ensures { OnOk result (out.new ≡ out.old ++ spell_subscripts (exprs_of (map expr_tree subscripts.now.items))) }
{
    if subscripts.is_empty() {
        return Ok(());
    }
    out.push(b'(')?;
    put_list(out, subscripts)?;
    out.push(b')')
}

// After an `@`, if there are some.
#[cycle(expr)]
fn put_attached(out: &mut Bytes7, subscripts: &Vec<Expr>) -> Result<(), AllocError>
    ensures { OnOk result (out.new ≡ out.old ++ spell_attached (exprs_of (map expr_tree subscripts.now.items))) }
{
    if !subscripts.is_empty() {
        out.push(b'@')?;
    }
    put_subscripts(out, subscripts)
}

// Between bars, after a `^`.
#[cycle(expr)]
fn put_environment(out: &mut Bytes7, environment: &Expr) -> Result<(), AllocError>
    ensures { OnOk result (out.new ≡ out.old ++ 94 ∷ 124 ∷ (spell_expr (expr_tree environment.now) ++ 124 ∷ [])) }
{
    out.push(b'^')?;
    out.push(b'|')?;
    put_expr(out, environment)?;
    out.push(b'|')
}

#[cycle(expr)]
fn put_bracket(out: &mut Bytes7, inner: &Expr) -> Result<(), AllocError>
    ensures { OnOk result (out.new ≡ out.old ++ 40 ∷ (spell_expr (expr_tree inner.now) ++ 41 ∷ [])) }
{
    out.push(b'(')?;
    put_expr(out, inner)?;
    out.push(b')')
}

fn put_special(out: &mut Bytes7, word: &Bytes7) -> Result<(), AllocError>
    ensures { OnOk result (out.new ≡ out.old ++ 36 ∷ word.now) }
{
    out.push(b'$')?;
    put_text(out, word)
}

// A function's word, and the bracket after it.
pub fn put_word(out: &mut Bytes7, word: &Bytes7) -> Result<(), AllocError>
    ensures { OnOk result (out.new ≡ out.old ++ 36 ∷ (word.now ++ 40 ∷ [])) }
{
    out.push(b'$')?;
    put_text(out, word)?;
    out.push(b'(')
}

#[cycle(expr)]
fn put_call(out: &mut Bytes7, word: &ValueWord, arguments: &Vec<Expr>) -> Result<(), AllocError>
    ensures { OnOk result (out.new ≡ out.old ++ 36 ∷ (word.now ++ 40 ∷ (spell_exprs (exprs_of (map expr_tree arguments.now.items)) ++ 41 ∷ []))) }
{
    put_word(out, word.as_text())?;
    put_list(out, arguments)?;
    out.push(b')')
}

#[cycle(expr)]
fn put_select(out: &mut Bytes7, word: &Bytes7, choices: &Vec<Choice>) -> Result<(), AllocError>
    ensures { OnOk result (out.new ≡ out.old ++ 36 ∷ (word.now ++ 40 ∷ (spell_choices (choices_of (map choice_tree choices.now.items)) ++ 41 ∷ []))) }
{
    put_word(out, word)?;
    put_list(out, choices)?;
    out.push(b')')
}

#[cycle(expr)]
fn put_referring(out: &mut Bytes7, referring: &Referring) -> Result<(), AllocError>
    ensures { OnOk result (out.new ≡ out.old ++ spell_primary (referring_tree referring.now)) }
{
    put_word(out, referring.word.as_text())?;
    put_reference(out, &referring.reference)?;
    put_more(out, &referring.more)?;
    out.push(b')')
}

fn put_shared(out: &mut Bytes7, routine: &SharedRoutine) -> Result<(), AllocError>
    ensures { OnOk result (out.new ≡ out.old ++ spell_routine (shared_tree routine.now)) }
{
    out.push(b'|')?;
    put_string(out, &routine.account)?;
    out.push(b'|')?;
    put_text(out, routine.name.as_bytes7())
}

// After a `^`.
fn put_routine(out: &mut Bytes7, routine: &RoutineRef) -> Result<(), AllocError>
    ensures { OnOk result (out.new ≡ out.old ++ spell_routine (routine_tree routine.now)) }
{
    match routine {
        RoutineRef::Own(name) => put_text(out, name.as_bytes7()),
        RoutineRef::Shared(routine) => put_shared(out, routine),
    }
}

pub fn put_entry(out: &mut Bytes7, entry: &Entry) -> Result<(), AllocError>
    ensures { OnOk result (out.new ≡ out.old ++ spell_entry (entry_tree entry.now)) }
{
    match entry {
        Entry::Label(label) => put_text(out, label.as_bytes7()),
        Entry::LabelIn(label, routine) => {
            put_text(out, label.as_bytes7())?;
            out.push(b'^')?;
            put_routine(out, routine)
        }
        Entry::Routine(routine) => {
            out.push(b'^')?;
            put_routine(out, routine)
        }
    }
}

// In brackets, if there are some.
#[cycle(expr)]
fn put_actuals(out: &mut Bytes7, actuals: &Vec<Actual>) -> Result<(), AllocError>
    ensures { OnOk result (out.new ≡ out.old ++ spell_actuals (actuals_of (map actual_tree actuals.now.items))) }
{
    if actuals.is_empty() {
        return Ok(());
    }
    out.push(b'(')?;
    put_list(out, actuals)?;
    out.push(b')')
}

#[cycle(expr)]
pub fn put_called(out: &mut Bytes7, called: &Called) -> Result<(), AllocError>
    ensures { OnOk result (out.new ≡ out.old ++ spell_called (called_tree called.now)) }
{
    put_entry(out, &called.entry)?;
    put_actuals(out, &called.actuals)
}

#[cycle(expr)]
fn put_extrinsic(out: &mut Bytes7, called: &Called) -> Result<(), AllocError>
    ensures { OnOk result (out.new ≡ out.old ++ 36 ∷ 36 ∷ spell_called (called_tree called.now)) }
{
    out.push(b'$')?;
    out.push(b'$')?;
    put_called(out, called)
}

// Each with a comma before it.
#[cycle(expr)]
pub fn put_more(out: &mut Bytes7, more: &[Expr]) -> Result<(), AllocError>
    ensures { OnOk result (out.new ≡ out.old ++ spell_more_exprs (exprs_of (map expr_tree more.now))) }
{
    for expr in more {
        out.push(b',')?;
        put_expr(out, expr)?;
    }
    Ok(())
}

impl Listed for Expr {
    ghost spelling = { λ e. spell_expr (expr_tree e) };

    #[cycle(expr)]
    fn put(&self, out: &mut Bytes7) -> Result<(), AllocError> {
        put_expr(out, self)
    }
}

impl Listed for Actual {
    ghost spelling = { λ a. spell_actual (actual_tree a) };

    #[cycle(expr)]
    fn put(&self, out: &mut Bytes7) -> Result<(), AllocError> {
        match self {
            Actual::Missing => Ok(()),
            Actual::Value(value) => put_expr(out, value),
            Actual::Name(name) => {
                out.push(b'.')?;
                put_text(out, name.as_bytes7())
            }
            Actual::IndirectName(operand) => {
                out.push(b'.')?;
                out.push(b'@')?;
                put_primary(out, operand)
            }
        }
    }
}

impl Listed for Choice {
    ghost spelling = { λ c. spell_expr (choice_tree c).0 ++ 58 ∷ spell_expr (choice_tree c).1 };

    #[cycle(expr)]
    fn put(&self, out: &mut Bytes7) -> Result<(), AllocError> {
        put_expr(out, &self.condition)?;
        out.push(b':')?;
        put_expr(out, &self.value)
    }
}

// SPDX-License-Identifier: Apache-2.0
// The step of a part of a tree by its number. Each function follows the definition of its name.
ghost use Rattle.std.specs.Prelude.{◌≡◌, map};
ghost use Rattle.mgrammar.specs.Grammar as grammar;
ghost use Rattle.mgrammar.specs.Grammar.{tails_of, exprs_of, choices_of, actuals_of, bracket, call, select, extrinsic, local, exprs, no_exprs};
ghost use Rattle.mgrammar.specs.Functions.{function_of};
ghost use Rattle.mmeaning.specs.Programs as programs;
ghost use Rattle.mtree.specs.Tree.{sign_tree, expr_tree, tail_tree, operand_tree, primary_tree, reference_tree, referring_tree, choice_tree, actual_tree};
ghost use Rattle.mtree.specs.Tree.{called_tree};
ghost use Rattle.mtree.specs.declared.tree.Referring.{out-Referring};
ghost use Rattle.mprogram.specs.Found.{found_then, single, both, passing_value, passing_choices, in_signs, in_value, in_tails, in_tail, in_operand, in_primary};
ghost use Rattle.mprogram.specs.Found.{in_reference, in_values, in_choices, in_referred, in_actual, in_actuals, in_list};
ghost use Rattle.mprogram.specs.Views.{op_view, found_view};

use crate::missing::is_bare;
use crate::op::{Found, Op};
use mnum::{Bytes7, Name};
use mtree::{
    Actual, Called, Choice, Expr, Operand, Primary, Reference, Referring, Sign, Tail, ValueWord,
    VariableFunction, has_call, has_call_exprs, has_call_operand, has_call_primary,
};

// One step.
pub(crate) fn single<'t>(op: Op<'t>, at: usize) -> Found<'t>
    ensures { found_view result ≡ single (op_view op.entry) at }
{
    if at == 0 {
        return Found::Op(op);
    }
    Found::Past(at - 1)
}

// Of signs, the one that applies them, if there are any.
fn in_signs<'t>(signs: &'t [Sign], at: usize) -> Found<'t>
    ensures { found_view result ≡ in_signs (map sign_tree signs.now) at }
{
    match signs {
        [] => Found::Past(at),
        _ => single(Op::Sign(signs), at),
    }
}

// Of an expression.
#[cycle(steps)]
pub(crate) fn in_value<'t>(expr: &'t Expr, at: usize) -> Found<'t>
    ensures { found_view result ≡ in_value (expr_tree expr.now) at }
{
    match in_operand(&expr.first, at) {
        Found::Op(op) => Found::Op(op),
        Found::Past(left) => in_tails(&expr.rest, left),
    }
}

#[cycle(steps)]
fn in_tails<'t>(tails: &'t [Tail], at: usize) -> Found<'t>
    ensures { found_view result ≡ in_tails (tails_of (map tail_tree tails.now)) at }
{
    let mut left = at;
    for tail in tails {
        match in_tail(tail, left) {
            Found::Op(op) => return Found::Op(op),
            Found::Past(behind) => left = behind,
        }
    }
    Found::Past(left)
}

#[cycle(steps)]
fn in_tail<'t>(tail: &'t Tail, at: usize) -> Found<'t>
    ensures { found_view result ≡ in_tail (tail_tree tail.now) at }
{
    match tail {
        Tail::Apply(binary, operand) => {
            if !has_call_operand(operand) {
                return single(Op::Tail(tail), at);
            }
            in_applied(operand, Op::Join(*binary), at)
        }
        Tail::Raise(operand) => {
            if !has_call_operand(operand) {
                return single(Op::Tail(tail), at);
            }
            in_applied(operand, Op::Raise, at)
        }
        Tail::Matches(_) => single(Op::Tail(tail), at),
        Tail::MatchesNot(_) => single(Op::Tail(tail), at),
        Tail::MatchesIndirect(operand) => {
            if !has_call_primary(operand) {
                return single(Op::Tail(tail), at);
            }
            primary_then(operand, Op::Match, at)
        }
        Tail::MatchesNotIndirect(operand) => {
            if !has_call_primary(operand) {
                return single(Op::Tail(tail), at);
            }
            primary_then(operand, Op::MatchNot, at)
        }
    }
}

// Of an operand to the right of an operator, and then that.
#[cycle(steps)]
fn in_applied<'t>(operand: &'t Operand, op: Op<'t>, at: usize) -> Found<'t>
    ensures { found_view result ≡ found_then (in_operand (operand_tree operand.now) at) (single (op_view op.entry)) }
{
    match in_operand(operand, at) {
        Found::Op(found) => Found::Op(found),
        Found::Past(left) => single(op, left),
    }
}

#[cycle(steps)]
fn in_operand<'t>(operand: &'t Operand, at: usize) -> Found<'t>
    ensures { found_view result ≡ in_operand (operand_tree operand.now) at }
{
    if !has_call_primary(&operand.primary) {
        return single(Op::Operand(operand), at);
    }
    match in_primary(&operand.primary, at) {
        Found::Op(op) => Found::Op(op),
        Found::Past(left) => in_signs(&operand.signs, left),
    }
}

#[cycle(steps)]
pub(crate) fn in_primary<'t>(primary: &'t Primary, at: usize) -> Found<'t>
    ensures { found_view result ≡ in_primary (primary_tree primary.now) at }
{
    match primary {
        Primary::Number(_) => single(Op::Primary(primary), at),
        Primary::Text(_) => single(Op::Primary(primary), at),
        Primary::Special(_) => single(Op::Primary(primary), at),
        Primary::Reference(reference) => in_read(reference, at),
        Primary::Bracket(inner) => in_bracket(inner, at),
        Primary::Call(word, arguments) => in_call(word, arguments, at),
        Primary::Select(word, choices) => in_select(word, choices, at),
        Primary::Refer(referring) => in_referring(referring, at),
        Primary::Extrinsic(called) => in_called(called, at),
    }
}

// Of a primary, and then this one.
#[cycle(steps)]
fn primary_then<'t>(primary: &'t Primary, op: Op<'t>, at: usize) -> Found<'t>
    ensures { found_view result ≡ found_then (in_primary (primary_tree primary.now) at) (single (op_view op.entry)) }
{
    match in_primary(primary, at) {
        Found::Op(found) => Found::Op(found),
        Found::Past(left) => single(op, left),
    }
}

// Of the value of a variable.
#[cycle(steps)]
fn in_read<'t>(reference: &'t Reference, at: usize) -> Found<'t>
    ensures { found_view result ≡ in_primary (grammar.reference (reference_tree reference.now)) at }
{
    match single(Op::Spend, at) {
        Found::Op(op) => Found::Op(op),
        Found::Past(left) => reference_then(reference, Op::Read, left),
    }
}

// Of a reference, and then this one.
#[cycle(steps)]
pub(crate) fn reference_then<'t>(reference: &'t Reference, op: Op<'t>, at: usize) -> Found<'t>
    ensures { found_view result ≡ found_then (in_reference (reference_tree reference.now) at) (single (op_view op.entry)) }
{
    match in_reference(reference, at) {
        Found::Op(found) => Found::Op(found),
        Found::Past(left) => single(op, left),
    }
}

// Of what a reference has to evaluate, and of the reference.
#[cycle(steps)]
pub(crate) fn in_reference<'t>(reference: &'t Reference, at: usize) -> Found<'t>
    ensures { found_view result ≡ in_reference (reference_tree reference.now) at }
{
    match reference {
        Reference::Variable(name) => in_both(Op::Values, Op::Local(name), at),
        Reference::Node(name, subscript) => in_node(name, subscript, at),
        Reference::Local(name, subscripts) => in_subscripts(subscripts, Op::Local(name), at),
        Reference::Global(name, subscripts) => in_subscripts(subscripts, Op::Global(name), at),
        Reference::Naked(subscripts) => in_subscripts(subscripts, Op::Naked, at),
        Reference::Indirect(operand, subscripts) if has_call_exprs(subscripts) => {
            let before = primary_then(operand, Op::Deeper, at);
            subscripts_after(subscripts, Op::Attach, before)
        }
        Reference::Indirect(operand, subscripts) => primary_then(
            operand,
            Op::Named(subscripts),
            at,
        ),
        Reference::Extended(environment, name, subscripts) => {
            let before = value_then(environment, Op::Values, at);
            values_after(subscripts, Op::Extended(name), before)
        }
    }
}

// Of a local variable by one subscript.
#[cycle(steps)]
fn in_node<'t>(name: &'t Name, subscript: &'t Expr, at: usize) -> Found<'t>
    ensures { found_view result ≡ in_reference (local name.now (exprs (expr_tree subscript.now) no_exprs)) at }
{
    match single(Op::Values, at) {
        Found::Op(op) => Found::Op(op),
        Found::Past(left) => match value_then(subscript, Op::Add, left) {
            Found::Op(op) => Found::Op(op),
            Found::Past(behind) => single(Op::Local(name), behind),
        },
    }
}

// Of subscripts or of other values, and then what is made of them.
#[cycle(steps)]
fn in_subscripts<'t>(subscripts: &'t [Expr], op: Op<'t>, at: usize) -> Found<'t>
    ensures { found_view result ≡ found_then (single programs.Values at)
        (λ left. found_then (in_values (exprs_of (map expr_tree subscripts.now)) left) (single (op_view op.entry))) }
{
    match single(Op::Values, at) {
        Found::Op(op) => Found::Op(op),
        Found::Past(left) => values_then(subscripts, op, left),
    }
}

// Of values, and then this one.
#[cycle(steps)]
pub(crate) fn values_then<'t>(exprs: &'t [Expr], op: Op<'t>, at: usize) -> Found<'t>
    ensures { found_view result ≡ found_then (in_values (exprs_of (map expr_tree exprs.now)) at) (single (op_view op.entry)) }
{
    match in_values(exprs, at) {
        Found::Op(found) => Found::Op(found),
        Found::Past(left) => single(op, left),
    }
}

// The same after a part of which this is found.
#[cycle(steps)]
fn values_after<'t>(exprs: &'t [Expr], op: Op<'t>, before: Found<'t>) -> Found<'t>
    ensures { found_view result ≡ found_then (found_view before.entry)
        (λ left. found_then (in_values (exprs_of (map expr_tree exprs.now)) left) (single (op_view op.entry))) }
{
    match before {
        Found::Op(found) => Found::Op(found),
        Found::Past(left) => values_then(exprs, op, left),
    }
}

// Of subscripts after a part of which this is found, and then what is made of them.
#[cycle(steps)]
fn subscripts_after<'t>(subscripts: &'t [Expr], op: Op<'t>, before: Found<'t>) -> Found<'t>
    ensures { found_view result ≡ found_then (found_view before.entry) (λ left. found_then (single programs.Values left)
        (λ left. found_then (in_values (exprs_of (map expr_tree subscripts.now)) left) (single (op_view op.entry)))) }
{
    match before {
        Found::Op(found) => Found::Op(found),
        Found::Past(left) => in_subscripts(subscripts, op, left),
    }
}

// Of $SELECT.
#[cycle(steps)]
fn in_select<'t>(word: &'t Bytes7, choices: &'t [Choice], at: usize) -> Found<'t>
    ensures { found_view result ≡ in_primary (select word.now (choices_of (map choice_tree choices.now))) at }
{
    match single(Op::Spend, at) {
        Found::Op(op) => Found::Op(op),
        Found::Past(left) => in_choices(choices, left),
    }
}

// Of the choices of $SELECT.
#[cycle(steps)]
pub(crate) fn in_choices<'t>(choices: &'t [Choice], at: usize) -> Found<'t>
    ensures { found_view result ≡ in_choices (choices_of (map choice_tree choices.now)) at }
{
    let mut left = at;
    for (index, choice) in choices.iter().enumerate() {
        match in_choice(choice, &choices[index + 1..], left) {
            Found::Op(op) => return Found::Op(op),
            Found::Past(behind) => left = behind,
        }
    }
    single(Op::NoChoice, left)
}

// Of a choice, which these come after.
#[cycle(steps)]
fn in_choice<'t>(choice: &'t Choice, rest: &'t [Choice], at: usize) -> Found<'t>
    ensures { found_view result ≡ found_then (found_then (in_value (choice_tree choice.now).0 at) (single (passing_value (choice_tree choice.now).1)))
        (λ left. found_then (in_value (choice_tree choice.now).1 left) (single (passing_choices (choices_of (map choice_tree rest.now))))) }
{
    match value_then(&choice.condition, Op::Unless(&choice.value), at) {
        Found::Op(op) => Found::Op(op),
        Found::Past(left) => value_then(&choice.value, Op::Pass(rest), left),
    }
}

// Of a function of a variable.
#[cycle(steps)]
fn in_referring<'t>(referring: &'t Referring, at: usize) -> Found<'t>
    ensures { found_view result ≡ in_primary (referring_tree referring.now) at }
{
    match single(Op::Spend, at) {
        Found::Op(op) => Found::Op(op),
        Found::Past(left) => in_referred(referring, left),
    }
}

// Of the variable, its checks if it has any, and the values after it.
#[cycle(steps)]
fn in_referred<'t>(referring: &'t Referring, at: usize) -> Found<'t>
    ensures { found_view result ≡ in_referred (function_of (out-Referring referring.now).word) (in_reference (reference_tree
        (out-Referring referring.now).reference)) (in_values (exprs_of (map expr_tree (out-Referring referring.now).more.items))) at }
{
    match referring.word.function() {
        VariableFunction::Data => reference_then(&referring.reference, Op::Data, at),
        VariableFunction::Get => in_checked(referring, Op::Resolve, Op::Get, at),
        VariableFunction::Increment => in_unchecked(referring, Op::Increment, at),
        VariableFunction::Name => in_unchecked(referring, Op::TellName, at),
        VariableFunction::Order => in_checked(referring, Op::Walk, Op::Order, at),
        VariableFunction::Query => in_checked(referring, Op::Seek, Op::Query, at),
    }
}

// Of the variable, its checks, the values after it, and what is asked then.
#[cycle(steps)]
fn in_checked<'t>(referring: &'t Referring, check: Op<'t>, ask: Op<'t>, at: usize) -> Found<'t>
    ensures { found_view result ≡ found_then (in_reference (reference_tree (out-Referring referring.now).reference) at)
        (λ left. found_then (both (op_view check.entry) programs.Values left)
        (λ left. found_then (in_values (exprs_of (map expr_tree (out-Referring referring.now).more.items)) left) (single (op_view ask.entry)))) }
{
    match in_reference(&referring.reference, at) {
        Found::Op(op) => Found::Op(op),
        Found::Past(left) => match in_both(check, Op::Values, left) {
            Found::Op(op) => Found::Op(op),
            Found::Past(behind) => values_then(&referring.more, ask, behind),
        },
    }
}

// Of the variable, the values after it, and what is asked then.
#[cycle(steps)]
fn in_unchecked<'t>(referring: &'t Referring, ask: Op<'t>, at: usize) -> Found<'t>
    ensures { found_view result ≡ found_then (in_reference (reference_tree (out-Referring referring.now).reference) at)
        (λ left. found_then (single programs.Values left)
        (λ left. found_then (in_values (exprs_of (map expr_tree (out-Referring referring.now).more.items)) left) (single (op_view ask.entry)))) }
{
    match in_reference(&referring.reference, at) {
        Found::Op(op) => Found::Op(op),
        Found::Past(left) => in_subscripts(&referring.more, ask, left),
    }
}

#[cycle(steps)]
fn in_bracket<'t>(inner: &'t Expr, at: usize) -> Found<'t>
    ensures { found_view result ≡ in_primary (bracket (expr_tree inner.now)) at }
{
    match single(Op::Spend, at) {
        Found::Op(op) => Found::Op(op),
        Found::Past(left) => in_value(inner, left),
    }
}

// Of a function of values: its word, and its arguments.
#[cycle(steps)]
fn in_call<'t>(word: &'t ValueWord, arguments: &'t [Expr], at: usize) -> Found<'t>
    ensures { found_view result ≡ in_primary (call word.now (exprs_of (map expr_tree arguments.now))) at }
{
    match in_both(Op::Spend, Op::Values, at) {
        Found::Op(op) => Found::Op(op),
        Found::Past(left) => match in_values(arguments, left) {
            Found::Op(op) => Found::Op(op),
            Found::Past(behind) => single(Op::Function(word), behind),
        },
    }
}

// Two steps.
fn in_both<'t>(one: Op<'t>, next: Op<'t>, at: usize) -> Found<'t>
    ensures { found_view result ≡ both (op_view one.entry) (op_view next.entry) at }
{
    match single(one, at) {
        Found::Op(op) => Found::Op(op),
        Found::Past(left) => single(next, left),
    }
}

#[cycle(steps)]
fn in_values<'t>(exprs: &'t [Expr], at: usize) -> Found<'t>
    ensures { found_view result ≡ in_values (exprs_of (map expr_tree exprs.now)) at }
{
    let mut left = at;
    for expr in exprs {
        match value_then(expr, Op::Add, left) {
            Found::Op(op) => return Found::Op(op),
            Found::Past(behind) => left = behind,
        }
    }
    Found::Past(left)
}

// Of an expression, and then this one.
#[cycle(steps)]
pub(crate) fn value_then<'t>(expr: &'t Expr, op: Op<'t>, at: usize) -> Found<'t>
    ensures { found_view result ≡ found_then (in_value (expr_tree expr.now) at) (single (op_view op.entry)) }
{
    match in_value(expr, at) {
        Found::Op(found) => Found::Op(found),
        Found::Past(left) => single(op, left),
    }
}

// Of a call of a function.
#[cycle(steps)]
fn in_called<'t>(called: &'t Called, at: usize) -> Found<'t>
    ensures { found_view result ≡ in_primary (extrinsic (called_tree called.now).0 (called_tree called.now).1) at }
{
    match in_both(Op::Spend, Op::Begin, at) {
        Found::Op(op) => Found::Op(op),
        Found::Past(left) => match in_list(&called.actuals, left) {
            Found::Op(op) => Found::Op(op),
            Found::Past(behind) => single(Op::Call(&called.entry), behind),
        },
    }
}

// Of actuals: none, if one is missing, alone in its brackets.
#[cycle(steps)]
pub(crate) fn in_list<'t>(actuals: &'t [Actual], at: usize) -> Found<'t>
    ensures { found_view result ≡ in_list (actuals_of (map actual_tree actuals.now)) at }
{
    if is_bare(actuals) {
        return Found::Past(at);
    }
    in_actuals(actuals, at)
}

#[cycle(steps)]
fn in_actuals<'t>(actuals: &'t [Actual], at: usize) -> Found<'t>
    ensures { found_view result ≡ in_actuals (actuals_of (map actual_tree actuals.now)) at }
{
    let mut left = at;
    for actual in actuals {
        match in_actual(actual, left) {
            Found::Op(op) => return Found::Op(op),
            Found::Past(behind) => left = behind,
        }
    }
    Found::Past(left)
}

#[cycle(steps)]
fn in_actual<'t>(actual: &'t Actual, at: usize) -> Found<'t>
    ensures { found_view result ≡ in_actual (actual_tree actual.now) at }
{
    match actual {
        Actual::Missing => single(Op::Actual(actual), at),
        Actual::Value(value) => {
            if !has_call(value) {
                return single(Op::Actual(actual), at);
            }
            value_then(value, Op::Hand, at)
        }
        Actual::Name(_) => single(Op::Actual(actual), at),
        Actual::IndirectName(operand) => {
            if !has_call_primary(operand) {
                return single(Op::Actual(actual), at);
            }
            in_named(operand, at)
        }
    }
}

// Of the name of a variable that is handed over, and then the one that adds that variable.
#[cycle(steps)]
fn in_named<'t>(operand: &'t Primary, at: usize) -> Found<'t>
    ensures { found_view result ≡ found_then (in_primary (primary_tree operand.now) at) (single programs.Hand_name) }
{
    match in_primary(operand, at) {
        Found::Op(op) => Found::Op(op),
        Found::Past(left) => single(Op::HandName, left),
    }
}

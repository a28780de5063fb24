// SPDX-License-Identifier: Apache-2.0
// Expressions.
ghost use Rattle.std.specs.Prelude.{◌≡◌, ◌<◌, length, map, option_map};
ghost use Rattle.mgrammar.specs.Grammar.{exprs_of, choices_of, actuals_of};
ghost use Rattle.mgrammar.specs.ReadingWords.{past, with_front, many, after_comma, list_at};
ghost use Rattle.mgrammar.specs.ReadingExpressions.{subscripts_with, attached_at, attached_with, indirect_with, local_by, extended_with, owned_by};
ghost use Rattle.mgrammar.specs.ReadingExpressions.{reference_with, bracket_with, choice_with, select_with, call_with, refer_with, dollar_with, primary_with};
ghost use Rattle.mgrammar.specs.ReadingExpressions.{operand_with, matches_by, matches_not_by, tail_by, tail_with, expr_with, is_reference_point};
ghost use Rattle.mgrammar.specs.ReadingExpressions.{name_actual_by, actual_with, actuals_with, called_with, dollars_by, readers_at, inner_at};
ghost use Rattle.mtree.specs.Tree.{atom_tree, expr_tree, operand_tree, primary_tree, reference_tree, tail_tree, choice_tree, actual_tree, called_tree};
ghost use Rattle.mscan.specs.Gives.{Gives};
ghost use Rattle.mscan.specs.Operators.{operator_tree};

use crate::entry::entry;
use mforms::takes;
use mnum::Bytes7;
use mscan::{
    Class, Operator, ParseFault, expect, name, next_operator, number, past, pattern, run, signs,
    text_after,
};
use mtree::{
    Actual, Atom, Called, Choice, Expr, FunctionWord, Literal, Operand, Primary, Reference,
    Referring, Tail, ValueWord, VariableWord, special_of,
};
use std::alloc::Global;

// An expression within which `depth` brackets may be open.
#[cycle(expr)]
#[tactic(auto, unfolding(mgrammar::specs::ReadingExpressions::expr_with))]
pub fn expr(alloc: Global, bytes: &[u8], depth: u32) -> Result<(Expr, &[u8]), ParseFault>
    ensures { Gives (λ x. (expr_tree x.0, x.1.now)) result (expr_with (readers_at depth) bytes.now) }
{
    let (first, rest) = operand(alloc, bytes, depth)?;
    let (rest, after) = tails(alloc, rest, depth)?;
    Ok((Expr { first, rest }, after))
}

#[cycle(expr)]
fn tails(alloc: Global, bytes: &[u8], depth: u32) -> Result<(Vec<Tail>, &[u8]), ParseFault>
    ensures { Gives (λ x. (map tail_tree x.0.items, x.1.now)) result (many (tail_with (readers_at depth)) (length bytes.now) bytes.now) }
{
    let mut tails = Vec::new(alloc);
    let mut rest = bytes;
    for _ in 0..bytes.len() {
        let Some((tail, after)) = tail(alloc, rest, depth)? else {
            break;
        };
        tails.push(tail)?;
        rest = after;
    }
    Ok((tails, rest))
}

// The next tail, if an operator begins.
#[cycle(expr)]
#[tactic(auto, unfolding(mgrammar::specs::ReadingExpressions::tail_with))]
fn tail(alloc: Global, bytes: &[u8], depth: u32) -> Result<Option<(Tail, &[u8])>, ParseFault>
    ensures { Gives (λ o. option_map (λ x. (tail_tree x.0, x.1.now)) o) result (tail_with (readers_at depth) bytes.now) }
{
    let Some((operator, rest)) = next_operator(bytes) else {
        return Ok(None);
    };
    Ok(Some(tail_by(alloc, operator, rest, depth)?))
}

// The tail of this operator.
#[cycle(expr)]
#[tactic(auto, unfolding(mgrammar::specs::ReadingExpressions::tail_by))]
fn tail_by(
    alloc: Global,
    operator: Operator,
    bytes: &[u8],
    depth: u32,
) -> Result<(Tail, &[u8]), ParseFault>
    ensures { Gives (λ x. (tail_tree x.0, x.1.now)) result (tail_by (readers_at depth) (operator_tree operator) bytes.now) }
{
    match operator {
        Operator::Between(binary) => {
            let (operand, rest) = operand(alloc, bytes, depth)?;
            Ok((Tail::Apply(binary, operand), rest))
        }
        Operator::Match => matches(alloc, bytes, depth),
        Operator::MatchNot => matches_not(alloc, bytes, depth),
        Operator::Raise => {
            let (operand, rest) = operand(alloc, bytes, depth)?;
            Ok((Tail::Raise(operand), rest))
        }
    }
}

// A pattern as it is written, within which `depth` brackets may be open.
#[tactic(auto, using(mgrammar::proofs::ReadingExprs::pattern_read))]
fn as_written(alloc: Global, bytes: &[u8], depth: u32) -> Result<(Vec<Atom>, &[u8]), ParseFault>
    ensures { Gives (λ x. (map atom_tree x.0.items, x.1.now)) result ((readers_at depth).pattern bytes.now) }
{
    pattern(alloc, bytes, depth)
}

// The rest of a tail that matches, after its `?`: the operand of an `@` if one comes, and otherwise a pattern.
#[cycle(expr)]
fn matches(alloc: Global, bytes: &[u8], depth: u32) -> Result<(Tail, &[u8]), ParseFault>
    ensures { Gives (λ x. (tail_tree x.0, x.1.now)) result (matches_by (readers_at depth) bytes.now (past 64 bytes.now)) }
{
    let Some(behind) = past(b'@', bytes) else {
        let (atoms, rest) = as_written(alloc, bytes, depth)?;
        return Ok((Tail::Matches(atoms), rest));
    };
    let (operand, rest) = below(alloc, behind, depth)?;
    let operand = Box::new(alloc, operand)?;
    Ok((Tail::MatchesIndirect(operand), rest))
}

// The same after a `'?`.
#[cycle(expr)]
fn matches_not(alloc: Global, bytes: &[u8], depth: u32) -> Result<(Tail, &[u8]), ParseFault>
    ensures { Gives (λ x. (tail_tree x.0, x.1.now)) result (matches_not_by (readers_at depth) bytes.now (past 64 bytes.now)) }
{
    let Some(behind) = past(b'@', bytes) else {
        let (atoms, rest) = as_written(alloc, bytes, depth)?;
        return Ok((Tail::MatchesNot(atoms), rest));
    };
    let (operand, rest) = below(alloc, behind, depth)?;
    let operand = Box::new(alloc, operand)?;
    Ok((Tail::MatchesNotIndirect(operand), rest))
}

#[cycle(expr)]
#[tactic(auto, unfolding(mgrammar::specs::ReadingExpressions::operand_with))]
fn operand(alloc: Global, bytes: &[u8], depth: u32) -> Result<(Operand, &[u8]), ParseFault>
    ensures { Gives (λ x. (operand_tree x.0, x.1.now)) result (operand_with (readers_at depth) bytes.now) }
{
    let (signs, rest) = signs(alloc, bytes)?;
    let (primary, after) = primary(alloc, rest, depth)?;
    Ok((Operand { signs, primary }, after))
}

#[cycle(expr)]
#[tactic(auto, unfolding(mgrammar::specs::ReadingExpressions::primary_with))]
fn primary(alloc: Global, bytes: &[u8], depth: u32) -> Result<(Primary, &[u8]), ParseFault>
    ensures { Gives (λ x. (primary_tree x.0, x.1.now)) result (primary_with (readers_at depth) bytes.now) }
{
    let Some((first, rest)) = bytes.split_first() else {
        return Err(ParseFault::Syntax);
    };
    if Class::DigitOrPoint.has(*first) {
        let (literal, after) = number(alloc, bytes)?;
        return Ok((Primary::Number(Literal::new(literal)), after));
    }
    match *first {
        b'"' => {
            let (text, after) = text_after(alloc, rest)?;
            Ok((Primary::Text(text), after))
        }
        b'(' => bracket(alloc, rest, depth),
        b'$' => dollar(alloc, rest, depth),
        _ => {
            let (reference, after) = reference(alloc, bytes, depth)?;
            Ok((Primary::Reference(reference), after))
        }
    }
}

// A variable. After a `^` come subscripts alone if a bracket opens there, and otherwise a name before them.
#[cycle(expr)]
#[tactic(auto, unfolding(mgrammar::specs::ReadingExpressions::reference_with))]
pub fn reference(alloc: Global, bytes: &[u8], depth: u32) -> Result<(Reference, &[u8]), ParseFault>
    ensures { Gives (λ x. (reference_tree x.0, x.1.now)) result (reference_with (readers_at depth) bytes.now) }
{
    let Some(behind) = past(b'^', bytes) else {
        return local(alloc, bytes, depth);
    };
    if past(b'(', behind).is_some() {
        let (subscripts, rest) = subscripts(alloc, behind, depth)?;
        return Ok((Reference::Naked(subscripts), rest));
    }
    global(alloc, behind, depth)
}

// The rest of a global variable that is named, after its `^`: an environment if a bar comes, a name and subscripts.
#[cycle(expr)]
fn global(alloc: Global, bytes: &[u8], depth: u32) -> Result<(Reference, &[u8]), ParseFault>
    ensures { Gives (λ x. (reference_tree x.0, x.1.now)) result (owned_by (readers_at depth) bytes.now (past 124 bytes.now)) }
{
    if let Some(inside) = past(b'|', bytes) {
        return extended(alloc, inside, depth);
    }
    let (name, rest) = name(alloc, bytes)?;
    let (subscripts, rest) = subscripts(alloc, rest, depth)?;
    Ok((Reference::Global(name, subscripts), rest))
}

// The rest of a global variable of an environment, after the bar that opens the environment.
#[cycle(expr)]
#[tactic(auto, unfolding(mgrammar::specs::ReadingExpressions::extended_with))]
fn extended(alloc: Global, bytes: &[u8], depth: u32) -> Result<(Reference, &[u8]), ParseFault>
    ensures { Gives (λ x. (reference_tree x.0, x.1.now)) result (extended_with (readers_at depth) bytes.now) }
{
    let (environment, rest) = inner(alloc, bytes, depth)?;
    let rest = expect(b'|', rest)?;
    let (name, rest) = name(alloc, rest)?;
    let (subscripts, rest) = subscripts(alloc, rest, depth)?;
    let environment = Box::new(alloc, environment)?;
    Ok((Reference::Extended(environment, name, subscripts), rest))
}

// A variable with no `^` in front: name indirection at an `@`, and otherwise a local one.
#[cycle(expr)]
fn local(alloc: Global, bytes: &[u8], depth: u32) -> Result<(Reference, &[u8]), ParseFault>
    ensures { Gives (λ x. (reference_tree x.0, x.1.now)) result (local_by (readers_at depth) bytes.now (past 64 bytes.now)) }
{
    if let Some(behind) = past(b'@', bytes) {
        return indirect(alloc, behind, depth);
    }
    let (name, rest) = name(alloc, bytes)?;
    let (subscripts, rest) = subscripts(alloc, rest, depth)?;
    let local = Reference::of_local(alloc, name, subscripts)?;
    Ok((local, rest))
}

// The rest of a name indirection, after its `@`.
#[cycle(expr)]
#[tactic(auto, unfolding(mgrammar::specs::ReadingExpressions::indirect_with))]
fn indirect(alloc: Global, bytes: &[u8], depth: u32) -> Result<(Reference, &[u8]), ParseFault>
    ensures { Gives (λ x. (reference_tree x.0, x.1.now)) result (indirect_with (readers_at depth) bytes.now) }
{
    let (operand, rest) = below(alloc, bytes, depth)?;
    let (subscripts, rest) = attached(alloc, rest, depth)?;
    let operand = Box::new(alloc, operand)?;
    Ok((Reference::Indirect(operand, subscripts), rest))
}

// The subscripts after an operand, if an `@` with a bracket after it comes.
#[cycle(expr)]
#[tactic(auto, unfolding(mgrammar::specs::ReadingExpressions::attached_with))]
fn attached(alloc: Global, bytes: &[u8], depth: u32) -> Result<(Vec<Expr>, &[u8]), ParseFault>
    ensures { Gives (λ x. (exprs_of (map expr_tree x.0.items), x.1.now)) result (attached_with (readers_at depth) bytes.now) }
{
    match attached_at(bytes) {
        None => Ok((Vec::new(alloc), bytes)),
        Some(behind) => subscripts(alloc, behind, depth),
    }
}

// What comes after an `@`, if a bracket opens there.
fn attached_at(bytes: &[u8]) -> Option<&[u8]>
    ensures { option_map (λ x. x.now) result ≡ attached_at bytes.now }
{
    let behind = past(b'@', bytes)?;
    past(b'(', behind)?;
    Some(behind)
}

// Subscripts, if a bracket opens.
#[cycle(expr)]
#[tactic(auto, unfolding(mgrammar::specs::ReadingExpressions::subscripts_with))]
fn subscripts(alloc: Global, bytes: &[u8], depth: u32) -> Result<(Vec<Expr>, &[u8]), ParseFault>
    ensures { Gives (λ x. (exprs_of (map expr_tree x.0.items), x.1.now)) result (subscripts_with (readers_at depth) bytes.now) }
{
    let Some((b'(', behind)) = bytes.split_first() else {
        return Ok((Vec::new(alloc), bytes));
    };
    let (subscripts, rest) = exprs(alloc, behind, depth)?;
    let rest = expect(b')', rest)?;
    Ok((subscripts, rest))
}

// The expression after an opening bracket, in which one bracket fewer may open.
#[cycle(expr)]
#[tactic(auto, unfolding(mgrammar::specs::ReadingExpressions::readers_at))]
pub fn inner(alloc: Global, bytes: &[u8], depth: u32) -> Result<(Expr, &[u8]), ParseFault>
    ensures { Gives (λ x. (expr_tree x.0, x.1.now)) result (inner_at depth bytes.now) }
{
    if depth == 0 {
        return Err(ParseFault::Syntax);
    }
    expr(alloc, bytes, depth - 1)
}

// The variable after an opening bracket, in which one bracket fewer may open.
#[cycle(expr)]
#[tactic(auto, unfolding(mgrammar::specs::ReadingExpressions::readers_at))]
pub fn within(alloc: Global, bytes: &[u8], depth: u32) -> Result<(Reference, &[u8]), ParseFault>
    ensures { Gives (λ x. (reference_tree x.0, x.1.now)) result ((readers_at depth).within bytes.now) }
{
    if depth == 0 {
        return Err(ParseFault::Syntax);
    }
    reference(alloc, bytes, depth - 1)
}

// The operand after an `@`, in which one bracket fewer may open.
#[cycle(expr)]
#[tactic(auto, unfolding(mgrammar::specs::ReadingExpressions::readers_at))]
pub fn below(alloc: Global, bytes: &[u8], depth: u32) -> Result<(Primary, &[u8]), ParseFault>
    ensures { Gives (λ x. (primary_tree x.0, x.1.now)) result ((readers_at depth).below bytes.now) }
{
    if depth == 0 {
        return Err(ParseFault::Syntax);
    }
    primary(alloc, bytes, depth - 1)
}

// The rest of an expression in brackets, after the bracket that opens it.
#[cycle(expr)]
#[tactic(auto, unfolding(mgrammar::specs::ReadingExpressions::bracket_with))]
fn bracket(alloc: Global, bytes: &[u8], depth: u32) -> Result<(Primary, &[u8]), ParseFault>
    ensures { Gives (λ x. (primary_tree x.0, x.1.now)) result (bracket_with (readers_at depth) bytes.now) }
{
    let (expr, rest) = inner(alloc, bytes, depth)?;
    let rest = expect(b')', rest)?;
    Ok((Primary::Bracket(Box::new(alloc, expr)?), rest))
}

// The rest of what begins with a `$`, after the `$`: a call after a further `$`, a function if a bracket opens after its word, and
// otherwise a special variable.
#[cycle(expr)]
#[tactic(auto, unfolding(mgrammar::specs::ReadingExpressions::dollar_with))]
fn dollar(alloc: Global, bytes: &[u8], depth: u32) -> Result<(Primary, &[u8]), ParseFault>
    ensures { Gives (λ x. (primary_tree x.0, x.1.now)) result (dollar_with (readers_at depth) bytes.now) }
{
    if let Some(behind) = past(b'$', bytes) {
        return extrinsic(alloc, behind, depth);
    }
    let (letters, rest) = run(Class::Letter, bytes);
    let word = Bytes7::from_slice(alloc, letters)?;
    let Some(rest) = past(b'(', rest) else {
        let Some(_) = special_of(letters) else {
            return Err(ParseFault::Syntax);
        };
        return Ok((Primary::Special(word), rest));
    };
    let Some(word) = FunctionWord::new(word) else {
        return Err(ParseFault::Syntax);
    };
    match word {
        FunctionWord::OfValues { word, least, most } => call(alloc, word, least, most, rest, depth),
        FunctionWord::OfVariable { word, most } => refer(alloc, word, most, rest, depth),
        FunctionWord::OfChoices(word) => select(alloc, word, rest, depth),
    }
}

// The rest of a call of a function of a routine, after its `$$`.
#[cycle(expr)]
fn extrinsic(alloc: Global, bytes: &[u8], depth: u32) -> Result<(Primary, &[u8]), ParseFault>
    ensures { Gives (λ x. (primary_tree x.0, x.1.now)) result (dollars_by (readers_at depth) bytes.now (Some bytes.now)) }
{
    let (called, rest) = called(alloc, bytes, depth)?;
    Ok((Primary::Extrinsic(Box::new(alloc, called)?), rest))
}

// What DO or a function calls: where that stands, and its actuals.
#[cycle(expr)]
#[tactic(auto, unfolding(mgrammar::specs::ReadingExpressions::called_with))]
pub fn called(alloc: Global, bytes: &[u8], depth: u32) -> Result<(Called, &[u8]), ParseFault>
    ensures { Gives (λ x. (called_tree x.0, x.1.now)) result (called_with (readers_at depth) bytes.now) }
{
    let (entry, rest) = entry(alloc, bytes)?;
    let (actuals, rest) = actuals(alloc, rest, depth)?;
    Ok((Called { entry, actuals }, rest))
}

// Actuals, if a bracket opens.
#[cycle(expr)]
#[tactic(auto, unfolding(mgrammar::specs::ReadingExpressions::actuals_with))]
fn actuals(alloc: Global, bytes: &[u8], depth: u32) -> Result<(Vec<Actual>, &[u8]), ParseFault>
    ensures { Gives (λ x. (actuals_of (map actual_tree x.0.items), x.1.now)) result (actuals_with (readers_at depth) bytes.now) }
{
    let Some((b'(', behind)) = bytes.split_first() else {
        return Ok((Vec::new(alloc), bytes));
    };
    let (actuals, rest) = some_actuals(alloc, behind, depth)?;
    let rest = expect(b')', rest)?;
    Ok((actuals, rest))
}

// Actuals with commas between.
#[cycle(expr)]
fn some_actuals(alloc: Global, bytes: &[u8], depth: u32) -> Result<(Vec<Actual>, &[u8]), ParseFault>
    ensures { Gives (λ x. (map actual_tree x.0.items, x.1.now)) result (list_at ((readers_at depth).handed) bytes.now) }
{
    let (first, start) = handed(alloc, bytes, depth)?;
    let mut all = Vec::new(alloc);
    all.push(first)?;
    let mut rest = start;
    for _ in 0..start.len() {
        let Some(behind) = past(b',', rest) else {
            break;
        };
        let (item, after) = handed(alloc, behind, depth)?;
        all.push(item)?;
        rest = after;
    }
    Ok((all, rest))
}

// The actual after an opening bracket, in which one bracket fewer may open.
#[cycle(expr)]
#[tactic(auto, unfolding(mgrammar::specs::ReadingExpressions::readers_at))]
fn handed(alloc: Global, bytes: &[u8], depth: u32) -> Result<(Actual, &[u8]), ParseFault>
    ensures { Gives (λ x. (actual_tree x.0, x.1.now)) result ((readers_at depth).handed bytes.now) }
{
    if depth == 0 {
        return Err(ParseFault::Syntax);
    }
    actual(alloc, bytes, depth - 1)
}

// Whether a character is a point that begins no number.
fn is_reference_point(byte: u8, behind: &[u8]) -> bool
    ensures { result ≡ is_reference_point byte behind.now }
{
    byte == b'.' && run(Class::Digit, behind).0.is_empty()
}

// Nothing where a comma or the closing bracket comes, a variable after a point that begins no number, and otherwise a value.
#[cycle(expr)]
#[tactic(auto, unfolding(mgrammar::specs::ReadingExpressions::actual_with))]
fn actual(alloc: Global, bytes: &[u8], depth: u32) -> Result<(Actual, &[u8]), ParseFault>
    ensures { Gives (λ x. (actual_tree x.0, x.1.now)) result (actual_with (readers_at depth) bytes.now) }
{
    let Some((first, behind)) = bytes.split_first() else {
        return Err(ParseFault::Syntax);
    };
    if *first == b',' || *first == b')' {
        return Ok((Actual::Missing, bytes));
    }
    if is_reference_point(*first, behind) {
        return by_reference(alloc, behind, depth);
    }
    let (value, rest) = expr(alloc, bytes, depth)?;
    Ok((Actual::Value(value), rest))
}

// The rest of an actual by reference, after its point: the operand of an `@` if one comes, and otherwise a name.
#[cycle(expr)]
fn by_reference(alloc: Global, bytes: &[u8], depth: u32) -> Result<(Actual, &[u8]), ParseFault>
    ensures { Gives (λ x. (actual_tree x.0, x.1.now)) result (name_actual_by (readers_at depth) bytes.now (past 64 bytes.now)) }
{
    let Some(behind) = past(b'@', bytes) else {
        let (name, rest) = name(alloc, bytes)?;
        return Ok((Actual::Name(name), rest));
    };
    let (operand, rest) = below(alloc, behind, depth)?;
    let operand = Box::new(alloc, operand)?;
    Ok((Actual::IndirectName(operand), rest))
}

// The rest of a function of a variable and at most `most` values, after its bracket.
#[cycle(expr)]
#[tactic(auto, unfolding(mgrammar::specs::ReadingExpressions::refer_with))]
fn refer(
    alloc: Global,
    word: VariableWord,
    most: usize,
    bytes: &[u8],
    depth: u32,
) -> Result<(Primary, &[u8]), ParseFault>
    ensures { Gives (λ x. (primary_tree x.0, x.1.now)) result (refer_with (readers_at depth) most word bytes.now) }
{
    let (reference, rest) = within(alloc, bytes, depth)?;
    let (more, rest) = more_exprs(alloc, Vec::new(alloc), rest, depth)?;
    let rest = expect(b')', rest)?;
    if more.len() > most {
        return Err(ParseFault::Syntax);
    }
    let referring = Referring {
        word,
        reference,
        more,
    };
    Ok((Primary::Refer(Box::new(alloc, referring)?), rest))
}

// The rest of a call of a function of at least `least` and at most `most` values, after its bracket.
#[cycle(expr)]
#[tactic(auto, unfolding(mgrammar::specs::ReadingExpressions::call_with))]
fn call(
    alloc: Global,
    word: ValueWord,
    least: usize,
    most: Option<usize>,
    bytes: &[u8],
    depth: u32,
) -> Result<(Primary, &[u8]), ParseFault>
    ensures { Gives (λ x. (primary_tree x.0, x.1.now)) result (call_with (readers_at depth) least most word bytes.now) }
{
    let (arguments, rest) = exprs(alloc, bytes, depth)?;
    let rest = expect(b')', rest)?;
    if !takes(least, most, arguments.len()) {
        return Err(ParseFault::Syntax);
    }
    Ok((Primary::Call(word, arguments), rest))
}

// The rest of a `$SELECT`, after its bracket.
#[cycle(expr)]
#[tactic(auto, unfolding(mgrammar::specs::ReadingExpressions::select_with))]
fn select(
    alloc: Global,
    word: Bytes7,
    bytes: &[u8],
    depth: u32,
) -> Result<(Primary, &[u8]), ParseFault>
    ensures { Gives (λ x. (primary_tree x.0, x.1.now)) result (select_with (readers_at depth) word bytes.now) }
{
    let (choices, rest) = choices(alloc, bytes, depth)?;
    let rest = expect(b')', rest)?;
    Ok((Primary::Select(word, choices), rest))
}

#[cycle(expr)]
#[tactic(auto, unfolding(mgrammar::specs::ReadingExpressions::choice_with))]
fn choice(alloc: Global, bytes: &[u8], depth: u32) -> Result<(Choice, &[u8]), ParseFault>
    ensures { Gives (λ x. (choice_tree x.0, x.1.now)) result (choice_with (readers_at depth) bytes.now) }
{
    let (condition, rest) = inner(alloc, bytes, depth)?;
    let rest = expect(b':', rest)?;
    let (value, rest) = inner(alloc, rest, depth)?;
    Ok((Choice { condition, value }, rest))
}

// Expressions with commas between.
#[cycle(expr)]
fn exprs(alloc: Global, bytes: &[u8], depth: u32) -> Result<(Vec<Expr>, &[u8]), ParseFault>
    ensures { Gives (λ x. (map expr_tree x.0.items, x.1.now)) result (list_at (inner_at depth) bytes.now) }
{
    let (first, rest) = inner(alloc, bytes, depth)?;
    let mut all = Vec::new(alloc);
    all.push(first)?;
    more_exprs(alloc, all, rest, depth)
}

// These expressions, and as many more as come after commas.
#[cycle(expr)]
pub fn more_exprs(
    alloc: Global,
    front: Vec<Expr>,
    bytes: &[u8],
    depth: u32,
) -> Result<(Vec<Expr>, &[u8]), ParseFault>
    ensures { Gives (λ x. (map expr_tree x.0.items, x.1.now)) result (with_front (map expr_tree front.items) (many (after_comma (inner_at depth))
        (length bytes.now) bytes.now)) }
{
    let mut all = front;
    let mut rest = bytes;
    for _ in 0..bytes.len() {
        let Some(behind) = past(b',', rest) else {
            break;
        };
        let (item, after) = inner(alloc, behind, depth)?;
        all.push(item)?;
        rest = after;
    }
    Ok((all, rest))
}

// Choices with commas between.
#[cycle(expr)]
fn choices(alloc: Global, bytes: &[u8], depth: u32) -> Result<(Vec<Choice>, &[u8]), ParseFault>
    ensures { Gives (λ x. (map choice_tree x.0.items, x.1.now)) result (list_at (choice_with (readers_at depth)) bytes.now) }
{
    let (first, start) = choice(alloc, bytes, depth)?;
    let mut all = Vec::new(alloc);
    all.push(first)?;
    let mut rest = start;
    for _ in 0..start.len() {
        let Some(behind) = past(b',', rest) else {
            break;
        };
        let (item, after) = choice(alloc, behind, depth)?;
        all.push(item)?;
        rest = after;
    }
    Ok((all, rest))
}

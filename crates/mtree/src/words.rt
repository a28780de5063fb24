// SPDX-License-Identifier: Apache-2.0
// Words of commands, of functions and of special variables.
ghost use Rattle.std.specs.Prelude.{◌≡◌, max, option_map, unwrap_or};
ghost use Rattle.mgrammar.specs.Grammar.{is_either};
ghost use Rattle.mgrammar.specs.Specials.{special_of, since_special};
ghost use Rattle.mgrammar.specs.Commands.{keyword_of, since_keyword};
ghost use Rattle.mgrammar.specs.Functions.{of_values, of_variable, function_of, since_function, since_values, is_part, since_part};
ghost use Rattle.mtree.specs.Tree.{keyword_tree, value_function_tree, variable_function_tree, function_tree, special_tree};

use crate::intrinsic::{Function, SpecialVariable, ValueFunction, VariableFunction};
use crate::tree::Keyword;

// The later of two languages.
pub(crate) fn later(one: u32, other: u32) -> u32
    ensures { result ≡ max one other }
{
    if one < other { other } else { one }
}

// Whether the word is this one or that one, in either case of letters.
fn is_either(word: &[u8], short: &[u8], long: &[u8]) -> bool
    ensures { result ≡ is_either short.now long.now word.now }
{
    word.eq_ignore_ascii_case(short) || word.eq_ignore_ascii_case(long)
}

/// What a command's word says: the whole word or its first letter, in either case of letters. Takes no memory.
#[tactic(auto, unfolding(mgrammar::specs::Commands::keyword_of))]
pub fn keyword_of(word: &[u8]) -> Option<Keyword>
    ensures { option_map keyword_tree result ≡ keyword_of word.now }
{
    if is_either(word, b"s", b"set") {
        Some(Keyword::Set)
    } else if is_either(word, b"k", b"kill") {
        Some(Keyword::Kill)
    } else if is_either(word, b"n", b"new") {
        Some(Keyword::New)
    } else if is_either(word, b"i", b"if") {
        Some(Keyword::If)
    } else if is_either(word, b"e", b"else") {
        Some(Keyword::Else)
    } else if is_either(word, b"f", b"for") {
        Some(Keyword::For)
    } else if is_either(word, b"q", b"quit") {
        Some(Keyword::Quit)
    } else if is_either(word, b"w", b"write") {
        Some(Keyword::Write)
    } else if is_either(word, b"d", b"do") {
        Some(Keyword::Do)
    } else if is_either(word, b"g", b"goto") {
        Some(Keyword::Goto)
    } else if is_either(word, b"x", b"xecute") {
        Some(Keyword::Execute)
    } else if is_either(word, b"l", b"lock") {
        Some(Keyword::Lock)
    } else if is_either(word, b"m", b"merge") {
        Some(Keyword::Merge)
    } else if is_either(word, b"halt", b"halt") {
        Some(Keyword::Halt)
    } else if is_either(word, b"hang", b"hang") {
        Some(Keyword::Hang)
    } else if is_either(word, b"h", b"h") {
        Some(Keyword::HaltOrHang)
    } else {
        None
    }
}

/// The first language that has a command with this many arguments. Takes no memory.
pub fn since_keyword(keyword: Keyword, count: usize) -> u32
    ensures { result ≡ since_keyword (keyword_tree keyword) count }
{
    match keyword {
        Keyword::Set
        | Keyword::Kill
        | Keyword::New
        | Keyword::If
        | Keyword::Else
        | Keyword::For
        | Keyword::Write
        | Keyword::Do
        | Keyword::Goto
        | Keyword::Execute
        | Keyword::Lock
        | Keyword::Halt => 0,
        Keyword::Merge | Keyword::Hang => 1,
        Keyword::Quit | Keyword::HaltOrHang => { if count > 0 { 1 } else { 0 } }
    }
}

// A function of values.
fn values(function: ValueFunction, least: usize, most: Option<usize>) -> Function
    ensures { function_tree result ≡ of_values (value_function_tree function) least most }
{
    Function::OfValues {
        function,
        least,
        most,
    }
}

// A function of a variable.
fn variable(function: VariableFunction, most: usize) -> Function
    ensures { function_tree result ≡ of_variable (variable_function_tree function) most }
{
    Function::OfVariable { function, most }
}

// What a function's word says, and the first language that has the function: the rows of the functions. Takes no memory.
#[tactic(auto, unfolding(mgrammar::specs::Functions::function_of, mgrammar::specs::Functions::since_function))]
pub(crate) fn function_row(word: &[u8]) -> Option<(Function, u32)>
    ensures function { option_map (λ row. function_tree row.0) result ≡ function_of word.now }
    ensures since { unwrap_or (option_map (λ row. row.1) result) 0 ≡ since_function word.now }
{
    if is_either(word, b"a", b"ascii") {
        Some((values(ValueFunction::Ascii, 1, Some(2)), 0))
    } else if is_either(word, b"c", b"char") {
        Some((values(ValueFunction::Char, 1, None), 0))
    } else if is_either(word, b"d", b"data") {
        Some((variable(VariableFunction::Data, 0), 0))
    } else if is_either(word, b"e", b"extract") {
        Some((values(ValueFunction::Extract, 1, Some(3)), 0))
    } else if is_either(word, b"f", b"find") {
        Some((values(ValueFunction::Find, 2, Some(3)), 0))
    } else if is_either(word, b"fn", b"fnumber") {
        Some((values(ValueFunction::FormatNumber, 2, Some(3)), 1))
    } else if is_either(word, b"g", b"get") {
        Some((variable(VariableFunction::Get, 1), 0))
    } else if is_either(word, b"i", b"increment") {
        Some((variable(VariableFunction::Increment, 1), 1))
    } else if is_either(word, b"j", b"justify") {
        Some((values(ValueFunction::Justify, 2, Some(3)), 0))
    } else if is_either(word, b"l", b"length") {
        Some((values(ValueFunction::Length, 1, Some(2)), 0))
    } else if is_either(word, b"na", b"name") {
        Some((variable(VariableFunction::Name, 1), 1))
    } else if is_either(word, b"o", b"order") {
        Some((variable(VariableFunction::Order, 1), 0))
    } else if is_either(word, b"p", b"piece") {
        Some((values(ValueFunction::Piece, 2, Some(4)), 0))
    } else if is_either(word, b"q", b"query") {
        Some((variable(VariableFunction::Query, 1), 1))
    } else if is_either(word, b"ql", b"qlength") {
        Some((values(ValueFunction::NameLength, 1, Some(1)), 1))
    } else if is_either(word, b"qs", b"qsubscript") {
        Some((values(ValueFunction::NameSubscript, 2, Some(2)), 1))
    } else if is_either(word, b"re", b"reverse") {
        Some((values(ValueFunction::Reverse, 1, Some(1)), 1))
    } else if is_either(word, b"s", b"select") {
        Some((Function::OfChoices, 0))
    } else if is_either(word, b"tr", b"translate") {
        Some((values(ValueFunction::Translate, 2, Some(3)), 0))
    } else {
        None
    }
}

/// What a function's word says, without its `$`: the whole word or its abbreviation, in either case of letters. Takes no
/// memory.
pub fn function_of(word: &[u8]) -> Option<Function>
    ensures { option_map function_tree result ≡ function_of word.now }
{
    match function_row(word) {
        Some((function, _)) => Some(function),
        None => None,
    }
}

/// The first language that has the function of a word, which comes without its `$`; 0 if no function has the word. Takes no memory.
pub fn since_function(word: &[u8]) -> u32
    ensures { result ≡ since_function word.now }
{
    match function_row(word) {
        Some((_, since)) => since,
        None => 0,
    }
}

/// The first language in which the function of a word, which comes without its `$`, takes this many values; 0 if it takes them since it is
/// there. Takes no memory.
pub fn since_values(word: &[u8], count: usize) -> u32
    ensures { result ≡ since_values word.now count }
{
    if count > 2 && is_either(word, b"j", b"justify") {
        1
    } else {
        0
    }
}

/// Whether the call of a function may be a target of SET, if its first value is a variable. Takes no memory.
pub fn is_part(function: ValueFunction) -> bool
    ensures { result ≡ is_part (value_function_tree function) }
{
    matches!(function, ValueFunction::Extract | ValueFunction::Piece)
}

// The first language in which a call of this word, with this many values after the variable, may be a target of SET.
pub(crate) fn since_part_of(word: &[u8], count: usize) -> u32
    ensures { result ≡ since_part word.now count }
{
    if is_either(word, b"p", b"piece") && count <= 2 {
        0
    } else {
        1
    }
}

// What a special variable's word says, and the first language that has the special variable: the rows of the special variables.
#[tactic(auto, unfolding(mgrammar::specs::Specials::special_of, mgrammar::specs::Specials::since_special))]
fn special_row(word: &[u8]) -> Option<(SpecialVariable, u32)>
    ensures special { option_map (λ row. special_tree row.0) result ≡ special_of word.now }
    ensures since { unwrap_or (option_map (λ row. row.1) result) 0 ≡ since_special word.now }
{
    if is_either(word, b"t", b"test") {
        Some((SpecialVariable::Test, 0))
    } else if is_either(word, b"i", b"io") {
        Some((SpecialVariable::Io, 1))
    } else if is_either(word, b"j", b"job") {
        Some((SpecialVariable::Job, 1))
    } else if is_either(word, b"p", b"principal") {
        Some((SpecialVariable::Principal, 1))
    } else if is_either(word, b"q", b"quit") {
        Some((SpecialVariable::Quit, 1))
    } else if is_either(word, b"s", b"storage") {
        Some((SpecialVariable::Storage, 1))
    } else if is_either(word, b"x", b"x") {
        Some((SpecialVariable::Column, 1))
    } else if is_either(word, b"y", b"y") {
        Some((SpecialVariable::Row, 1))
    } else {
        None
    }
}

/// What a special variable's word says, without its `$`: the whole word or its abbreviation, in either case of letters. Takes no
/// memory.
pub fn special_of(word: &[u8]) -> Option<SpecialVariable>
    ensures { option_map special_tree result ≡ special_of word.now }
{
    match special_row(word) {
        Some((special, _)) => Some(special),
        None => None,
    }
}

/// The first language that has the special variable of a word, which comes without its `$`; 0 if none has the word. Takes no
/// memory.
pub fn since_special(word: &[u8]) -> u32
    ensures { result ≡ since_special word.now }
{
    match special_row(word) {
        Some((_, since)) => since,
        None => 0,
    }
}

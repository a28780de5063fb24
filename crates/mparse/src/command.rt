// SPDX-License-Identifier: Apache-2.0
// Commands and their arguments.
ghost use Rattle.std.specs.Prelude.{◌≡◌, map};
ghost use Rattle.mgrammar.specs.Grammar.{ArgTree, write_argument};
ghost use Rattle.mgrammar.specs.Commands.{form_of};
ghost use Rattle.mgrammar.specs.Reading.{value_by, write_argument_at, settled_with, arg_at, has_args, args_at, command_at};
ghost use Rattle.mgrammar.specs.ReadingWords.{past};
ghost use Rattle.mtree.specs.Tree.{arg_tree, keyword_tree, command_tree};
ghost use Rattle.mscan.specs.Gives.{Gives};

use crate::control::{for_argument, hang_argument, if_argument, postcondition, quit_argument};
use crate::entry::{do_argument, goto_argument, xecute_argument};
use crate::expr::expr;
use crate::list::{Items, list};
use crate::lock_arguments::lock_argument;
use crate::merge_arguments::merge_argument;
use crate::scope::{kill_argument, new_argument};
use crate::set_arguments::set_argument;
use mforms::takes_args;
use mnum::Bytes7;
use mscan::{Class, ParseFault, past, run};
use mspec::limits::MAX_DEPTH;
use mtree::{Arg, Command, Keyword, keyword_of};
use std::alloc::Global;

// A value, or a character by its code, where no format is.
fn written_value(alloc: Global, bytes: &[u8]) -> Result<(Arg, &[u8]), ParseFault>
    ensures { Gives (λ x. (arg_tree x.0, x.1.now)) result (settled_with (λ cs. value_by cs (past 42 cs)) write_argument bytes.now) }
{
    if let Some(behind) = past(b'*', bytes) {
        let (code, rest) = expr(alloc, behind, MAX_DEPTH)?;
        return Ok((Arg::Coded(code), rest));
    }
    let (value, rest) = expr(alloc, bytes, MAX_DEPTH)?;
    match value.into_operand() {
        Ok(operand) => Ok((Arg::Indirect(Keyword::Write, operand), rest)),
        Err(value) => Ok((Arg::Value(value), rest)),
    }
}

#[tactic(auto, unfolding(mgrammar::specs::Reading::write_argument_at))]
fn write_argument(alloc: Global, bytes: &[u8]) -> Result<(Arg, &[u8]), ParseFault>
    ensures { Gives (λ x. (arg_tree x.0, x.1.now)) result (settled_with write_argument_at write_argument bytes.now) }
{
    let (formats, rest) = run(Class::Format, bytes);
    if let Some(behind) = past(b'?', rest) {
        let (column, rest) = expr(alloc, behind, MAX_DEPTH)?;
        let formats = Bytes7::from_slice(alloc, formats)?;
        let tab = Some(Box::new(alloc, column)?);
        return Ok((Arg::Formats(formats, tab), rest));
    }
    if formats.is_empty() {
        return written_value(alloc, rest);
    }
    let formats = Bytes7::from_slice(alloc, formats)?;
    Ok((Arg::Formats(formats, None), rest))
}

// The arguments of a command.
impl Items for Keyword {
    type Item = Arg;

    ghost Tree = { ArgTree };

    ghost tree = { arg_tree };

    ghost read = { λ keyword. arg_at (form_of (keyword_tree keyword)) };

    fn item(self, alloc: Global, bytes: &[u8]) -> Result<(Arg, &[u8]), ParseFault> {
        match self {
            Keyword::Set => set_argument(alloc, bytes),
            Keyword::Kill => kill_argument(alloc, bytes),
            Keyword::New => new_argument(alloc, bytes),
            Keyword::If => if_argument(alloc, bytes),
            Keyword::For => for_argument(alloc, bytes),
            Keyword::Write => write_argument(alloc, bytes),
            Keyword::Do => do_argument(alloc, bytes),
            Keyword::Goto => goto_argument(alloc, bytes),
            Keyword::Execute => xecute_argument(alloc, bytes),
            Keyword::Lock => lock_argument(alloc, bytes),
            Keyword::Merge => merge_argument(alloc, bytes),
            Keyword::Hang | Keyword::HaltOrHang => hang_argument(alloc, bytes),
            Keyword::Quit => quit_argument(alloc, bytes),
            Keyword::Else | Keyword::Halt => Err(ParseFault::Syntax),
        }
    }
}

// Whether arguments come after a word: a space, and after it no space, no comment and no end.
fn has_args(bytes: &[u8]) -> bool
    ensures { result ≡ has_args bytes.now }
{
    match bytes {
        [b' ', first, ..] => *first != b' ' && *first != b';',
        _ => false,
    }
}

#[tactic(auto, unfolding(mgrammar::specs::Reading::args_at))]
fn args(alloc: Global, keyword: Keyword, bytes: &[u8]) -> Result<(Vec<Arg>, &[u8]), ParseFault>
    ensures { Gives (λ x. (map arg_tree x.0.items, x.1.now)) result (args_at (form_of (keyword_tree keyword)) bytes.now) }
{
    if !has_args(bytes) {
        return Ok((Vec::new(alloc), bytes));
    }
    list(keyword, alloc, &bytes[1..])
}

#[tactic(auto, unfolding(mgrammar::specs::Reading::command_at))]
pub fn command(alloc: Global, bytes: &[u8]) -> Result<(Command, &[u8]), ParseFault>
    ensures { Gives (λ x. (command_tree x.0, x.1.now)) result (command_at bytes.now) }
{
    let (letters, rest) = run(Class::Letter, bytes);
    let Some(keyword) = keyword_of(letters) else {
        return Err(ParseFault::Syntax);
    };
    let (condition, rest) = postcondition(alloc, keyword, rest)?;
    let (args, rest) = args(alloc, keyword, rest)?;
    if !takes_args(keyword, args.len()) {
        return Err(ParseFault::Syntax);
    }
    let word = Bytes7::from_slice(alloc, letters)?;
    let command = Command {
        keyword,
        word,
        condition,
        args,
    };
    Ok((command, rest))
}

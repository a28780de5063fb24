// SPDX-License-Identifier: Apache-2.0
// Texts by their trees, in a language, with the first language that has all their forms.
ghost use Rattle.std.specs.Prelude.{◌≡◌, ◌≤◌, true, map, IfOk};
ghost use Rattle.std.specs.List.{list_all};
ghost use Rattle.mgrammar.specs.ProgramsIn.{in_steps_arg};
ghost use Rattle.mexec.specs.Uncalled.{ArePlayed, IsBodyPlayed, IsPlayed};
ghost use Rattle.mexec.specs.Words.{Yields, Zsyntax, arg_tree, args_in, fault_of, form_of, give_some, keyword_tree, line_in, line_tree, routine_line_in};
ghost use Rattle.mexec.specs.Words.{routine_line_tree};

use mcache::Trees;
use moperator::Code;
use mparse::{ParseFault, parse_args};
use mtree::{Arg, Keyword, Line, RoutineLine, since_args};
use std::alloc::Global;
use std::rc::Rc;

// The tree of a text of XECUTE.
pub(crate) fn read_line(
    alloc: Global,
    trees: &mut Trees,
    language: u32,
    text: &[u8],
) -> Result<Rc<Line>, Code>
    requires { language ≤ 1 }
    ensures played { IfOk result (λ line. IsPlayed line.value) }
    ensures does { Yields fault_of (give_some Zsyntax (line_in language text.now)) (λ line. line_tree line.value) result }
{
    match trees.line(alloc, language, text) {
        Ok(line) => Ok(line),
        Err(ParseFault::Syntax) => Err(Code::Zsyntax),
        Err(ParseFault::Memory) => Err(Code::Zmem),
    }
}

// The tree of a line of a routine.
pub(crate) fn read_routine_line(
    alloc: Global,
    trees: &mut Trees,
    language: u32,
    text: &[u8],
) -> Result<Rc<RoutineLine>, Code>
    requires { language ≤ 1 }
    ensures played { IfOk result (λ line. IsBodyPlayed line.value.body) }
    ensures does { Yields fault_of (give_some Zsyntax (routine_line_in language text.now)) (λ line. routine_line_tree line.value) result }
{
    match trees.routine_line(alloc, language, text) {
        Ok(line) => Ok(line),
        Err(ParseFault::Syntax) => Err(Code::Zsyntax),
        Err(ParseFault::Memory) => Err(Code::Zmem),
    }
}

// The text of an indirection as arguments of a command with this word, with the first language that has all their forms.
#[tactic(auto, using(mtree::proofs::InLanguages::args_kept, mtree::proofs::InLanguages::args_left_out, mtree::proofs::InLanguages::no_args))]
pub(crate) fn read_arguments(
    alloc: Global,
    language: u32,
    keyword: Keyword,
    text: &[u8],
) -> Result<(Vec<Arg>, u32), Code>
    requires { language ≤ 1 }
    ensures played { IfOk result (λ given. ArePlayed given.0.items given.1) }
    ensures stepped { IfOk result (λ given. list_all in_steps_arg (map arg_tree given.0.items) ≡ true) }
    ensures does { Yields fault_of (give_some Zsyntax (args_in (form_of (keyword_tree keyword)) language text.now)) (λ given. map arg_tree given.0.items) result }
{
    match parse_args(alloc, keyword, text) {
        Ok(args) => {
            let since = since_args(&args);
            if since > language {
                Err(Code::Zsyntax)
            } else {
                Ok((args, since))
            }
        }
        Err(ParseFault::Syntax) => Err(Code::Zsyntax),
        Err(ParseFault::Memory) => Err(Code::Zmem),
    }
}

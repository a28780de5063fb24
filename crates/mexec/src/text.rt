// SPDX-License-Identifier: Apache-2.0
// A text, carried out.
ghost use Rattle.std.specs.Prelude.{◌≡◌, ◌≢◌, IsTrue};
ghost use Rattle.mgrammar.specs.Languages.{line_in};
ghost use Rattle.meval.specs.Evaluates.{standing_of};
ghost use Rattle.moperator.specs.declared.code.Code.TheVariants.{Zstore};
ghost use Rattle.mexec.specs.Runs.{RunsText, ended_by};

use crate::line::run_line;
use crate::scratch::Scratch;
use mcommand::Parts;
use mnodes::NodeStore;
use moperator::Code;
use mparse::ParseFault;
use std::alloc::Global;

/// How a text ended.
#[derive(Clone, Copy, PartialEq, Eq)]
pub enum Ended {
    /// At its end, or by QUIT.
    Done,
    /// By HALT.
    Halt,
    /// By a code.
    Fault(Code),
}

// How a line that fails with a code ends: HALT is one that no reply shows.
fn ending(code: Code) -> Ended
    ensures { result ≡ ended_by code }
{
    match code {
        Code::Halting => Ended::Halt,
        _ => Ended::Fault(code),
    }
}

/// Carries out a text. What the scratch kept before plays no part.
///
/// Returns `Fault` with `Zsyntax`, and has done nothing, if the text has no tree in the language of the account; otherwise what was done before a code
/// remains. After `Zmem` or `Zstore` the session and the output may be any that the text could have had on its way.
pub fn run_text<S: NodeStore>(
    alloc: Global,
    parts: &mut Parts<S>,
    scratch: &mut Scratch,
    text: &[u8],
) -> Ended
    ensures does { RunsText S.NodeStore (line_in (standing_of parts.old.eval).given.language text.now) parts.old result parts.new }
    ensures steady { S.steady → IsTrue (S.has_room parts.new.eval.store.now) → result ≢ Ended.Fault Zstore }
{
    match scratch.trees.line(alloc, parts.eval.language(), text) {
        Err(ParseFault::Syntax) => Ended::Fault(Code::Zsyntax),
        Err(ParseFault::Memory) => Ended::Fault(Code::Zmem),
        Ok(line) => match run_line(alloc, parts, line, scratch) {
            Err(code) => ending(code),
            Ok(_) => Ended::Done,
        },
    }
}

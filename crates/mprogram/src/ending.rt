// SPDX-License-Identifier: Apache-2.0
// What a command does in the end.
ghost use Rattle.std.specs.Prelude.{◌≡◌, not, map};
ghost use Rattle.mgrammar.specs.Grammar.{actuals_of};
ghost use Rattle.mmeaning.specs.Programs.{is_list};
ghost use Rattle.mtree.specs.Tree.{actual_tree, arg_tree};
ghost use Rattle.mprogram.specs.Views.{ending_view, whole_view};
ghost use Rattle.mprogram.specs.Wholes.{ending_of, ending_of_argument};

use crate::op::{Ending, Whole};
use mtree::{Actual, Arg};

// Whether a list of actuals is written.
fn is_list(actuals: &[Actual]) -> bool
    ensures { result ≡ is_list (actuals_of (map actual_tree actuals.now)) }
{
    match actuals {
        [] => false,
        _ => true,
    }
}

fn ending_of_arg<'t>(arg: &'t Arg) -> Ending<'t>
    ensures { ending_view result ≡ ending_of_argument (arg_tree arg.now) }
{
    match arg {
        Arg::Assign(_, _) => Ending::Assign,
        Arg::Formats(_, Some(_)) => Ending::Tab,
        Arg::Formats(_, None) => Ending::Hold,
        Arg::Coded(_) => Ending::Character,
        Arg::Value(_) => Ending::Show,
        Arg::KillOne(_) => Ending::Kill,
        Arg::KillOthers(_) => Ending::Hold,
        Arg::NewOne(_) => Ending::Hold,
        Arg::NewOthers(_) => Ending::Hold,
        Arg::Tested(_) => Ending::Test,
        Arg::Loop(_, _) => Ending::Nothing,
        Arg::DoOne(called, _) => Ending::Enter(&called.entry, is_list(&called.actuals)),
        Arg::GoTo(entry, _) => Ending::Go(entry),
        Arg::Executed(_, _) => Ending::Run,
        Arg::Lock(kind, _, timeout) => Ending::Lock(*kind, timeout.is_some()),
        Arg::HangFor(_) => Ending::Wait,
        Arg::Returned(_) => Ending::Return,
        Arg::MergeOne(_, _) => Ending::Merge,
        Arg::Indirect(word, _) => Ending::Indirect(*word),
    }
}

/// What a command does in the end with what the steps of this leave; `Hold` if it has none. Takes no memory.
pub fn ending_of<'t>(whole: Whole<'t>) -> Ending<'t>
    ensures { ending_view result ≡ ending_of (whole_view whole.entry) }
{
    match whole {
        Whole::Argument(arg) => ending_of_arg(arg),
        Whole::Condition(_) => Ending::Hold,
        Whole::Parameter(index, _, rest, body) => Ending::Loop(index, rest, body),
    }
}

// SPDX-License-Identifier: Apache-2.0
// How many arguments a function or a command takes, and which commands take a postconditional.
ghost use Rattle.std.specs.Prelude.{◌≡◌};
ghost use Rattle.mgrammar.specs.Grammar.{is_at_most};
ghost use Rattle.mgrammar.specs.Commands.{command_row, takes_args, takes_condition};
ghost use Rattle.mgrammar.specs.Functions.{takes};
ghost use Rattle.mtree.specs.Tree.{keyword_tree};

use mtree::Keyword;

/// Whether `count` values may be in brackets that take `least` to `most` values, or `least` or more without a bound: at least one.
/// Takes no memory.
pub fn takes(least: usize, most: Option<usize>, count: usize) -> bool
    ensures { result ≡ takes least most count }
{
    1 <= count && (least <= count && is_at_most(most, count))
}

fn is_at_most(most: Option<usize>, count: usize) -> bool
    ensures { result ≡ is_at_most most count }
{
    match most {
        None => true,
        Some(most) => count <= most,
    }
}

// How many arguments the command takes at least, and at most, if there is a bound.
fn bounds(keyword: Keyword) -> (usize, Option<usize>)
    ensures { result ≡ ((command_row (keyword_tree keyword)).least, (command_row (keyword_tree keyword)).most) }
{
    match keyword {
        Keyword::Set
        | Keyword::Write
        | Keyword::Goto
        | Keyword::Execute
        | Keyword::Merge
        | Keyword::Hang => (1, None),
        Keyword::Kill
        | Keyword::New
        | Keyword::If
        | Keyword::Do
        | Keyword::Lock
        | Keyword::HaltOrHang => (0, None),
        Keyword::Else | Keyword::Halt => (0, Some(0)),
        Keyword::For | Keyword::Quit => (0, Some(1)),
    }
}

/// Whether the command takes `count` arguments. Takes no memory.
pub fn takes_args(keyword: Keyword, count: usize) -> bool
    ensures { result ≡ takes_args (keyword_tree keyword) count }
{
    let (least, most) = bounds(keyword);
    least <= count && is_at_most(most, count)
}

/// Whether a postconditional may come after the command's word. Takes no memory.
pub fn takes_condition(keyword: Keyword) -> bool
    ensures { result ≡ takes_condition (keyword_tree keyword) }
{
    match keyword {
        Keyword::Set
        | Keyword::Kill
        | Keyword::New
        | Keyword::Quit
        | Keyword::Write
        | Keyword::Do
        | Keyword::Goto
        | Keyword::Execute
        | Keyword::Lock
        | Keyword::Merge
        | Keyword::Halt
        | Keyword::Hang
        | Keyword::HaltOrHang => true,
        Keyword::If | Keyword::Else | Keyword::For => false,
    }
}

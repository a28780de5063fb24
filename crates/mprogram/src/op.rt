// SPDX-License-Identifier: Apache-2.0
// Steps, and what they are of: parts of a tree, lent by it.
use mnum::{Bytes7, Name};
use mtree::{
    Actual, Arg, Binary, Choice, Destination, Entry, Expr, Keyword, LockKind, Operand, Parameter,
    Primary, Sign, Spaced, Tail, ValueWord,
};

/// What has steps: an argument of a command; a command's condition; or a parameter of FOR, with the index before it, and the parameters and
/// the rest of the line after it.
#[derive(Clone, Copy)]
pub enum Whole<'t> {
    Argument(&'t Arg),
    Condition(&'t Expr),
    Parameter(&'t Name, &'t Parameter, &'t [Parameter], &'t [Spaced]),
}

/// A step.
#[derive(Clone, Copy)]
pub enum Op<'t> {
    /// Evaluates an operand without a call in it.
    Operand(&'t Operand),
    /// Evaluates a primary without steps of its own, as an operand without signs.
    Primary(&'t Primary),
    /// Does with the value on top what a tail without a call does with a value to its left.
    Tail(&'t Tail),
    /// Spends the step that a primary costs.
    Spend,
    /// Applies signs to the value on top.
    Sign(&'t [Sign]),
    /// Applies an operator to the two values on top.
    Join(Binary),
    /// Raises the one of the two values on top to the power of the other.
    Raise,
    /// Begins with the values of a function's arguments.
    Values,
    /// Adds the value on top to these.
    Add,
    /// Calls a function of values: its word after the `$`.
    Function(&'t ValueWord),
    /// Begins with what actuals hand over.
    Begin,
    /// Adds to that what an actual without a call hands over.
    Actual(&'t Actual),
    /// Adds to that the value on top.
    Hand,
    /// Adds to that the variable whose name is on top.
    HandName,
    /// Calls the function that stands there.
    Call(&'t Entry),
    /// Ends the argument here if the value on top is false.
    Where,
    /// Writes formats.
    Formats(&'t Bytes7),
    /// Evaluates what the targets of SET have to evaluate.
    Prepare(&'t Destination),
    /// Whether the value below the one on top matches the pattern that this is the text of.
    Match,
    /// Whether it does not.
    MatchNot,
    /// Makes a reference of the values on top: to a local variable of this name.
    Local(&'t Name),
    /// To a global variable of the account.
    Global(&'t Name),
    /// To a node beside the one that was referred to last.
    Naked,
    /// To a global variable of the account whose name is below these values.
    Extended(&'t Name),
    /// To what the text on top names, with these subscripts, in which there is no call.
    Named(&'t [Expr]),
    /// To what the text on top names, and goes one indirection deeper, to the subscripts after it.
    Deeper,
    /// Adds these to the reference below them, and comes back from the indirection.
    Attach,
    /// Reads the variable of the reference on top.
    Read,
    /// $DATA of the variable of the reference on top.
    Data,
    /// Checks the reference on top, of whose place $GET is to be asked.
    Resolve,
    /// $GET of the place below the values on top.
    Get,
    /// Checks the reference on top, of whose place $ORDER is to be asked.
    Walk,
    /// $ORDER of the place below the values on top.
    Order,
    /// $NAME of the reference below the values on top.
    TellName,
    /// $INCREMENT of the reference below the values on top.
    Increment,
    /// The place of the reference on top, by the checks of $QUERY.
    Seek,
    /// $QUERY of the place below the values on top.
    Query,
    /// Passes by the steps of this value of $SELECT and the one after them, if the value on top is false.
    Unless(&'t Expr),
    /// Passes by the steps of these choices of $SELECT.
    Pass(&'t [Choice]),
    /// No choice of $SELECT was true.
    NoChoice,
    /// Begins with the targets of SET.
    Targets,
    /// Adds the reference on top to these.
    Target,
    /// Adds a part of the reference below the values on top: the word after its `$`.
    Part(&'t ValueWord),
    /// Begins with the names of LOCK.
    Names,
    /// Checks the reference on top, and adds its name to these.
    Name,
    /// Begins with the numbers of a parameter of FOR.
    Numbers,
    /// Adds the number of the value on top to these.
    Number,
}

/// What a command does in the end with what its steps leave.
#[derive(Clone, Copy)]
pub enum Ending<'t> {
    /// SET.
    Assign,
    /// WRITE of a value.
    Show,
    /// WRITE of a column.
    Tab,
    /// WRITE of a character by its code.
    Character,
    /// IF.
    Test,
    /// A command's condition.
    Hold,
    /// HANG.
    Wait,
    /// QUIT.
    Return,
    /// XECUTE.
    Run,
    /// DO: where it leads, and whether a list of actuals is written.
    Enter(&'t Entry, bool),
    /// GOTO: where it leads.
    Go(&'t Entry),
    /// KILL.
    Kill,
    /// MERGE, with the reference of the source on top of that of the target.
    Merge,
    /// LOCK: how it begins, and whether there is a timeout.
    Lock(LockKind, bool),
    /// The arguments that a text has: the word that the command has.
    Indirect(Keyword),
    /// FOR as an argument, whose parameters have steps of their own.
    Nothing,
    /// The turns of a parameter of FOR: the index, the parameters after it, and the rest of the line.
    Loop(&'t Name, &'t [Parameter], &'t [Spaced]),
}

// What is found at a number in a part of a tree.
#[derive(Clone, Copy)]
pub(crate) enum Found<'t> {
    Op(Op<'t>),
    // The part has no such step, and this many are left to pass after it.
    Past(usize),
}

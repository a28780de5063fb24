// SPDX-License-Identifier: Apache-2.0
// The tree of a line.
mod bare_operand;

use crate::count::Count;
use crate::function_word::{ValueWord, VariableWord};
use crate::intrinsic::SpecialVariable;
use crate::letters::Letters;
use crate::literal::Literal;
use mnum::{Bytes7, Name};
use std::rc::Rc;

/// A unary operator in front of a primary.
#[derive(Clone, Copy, PartialEq, Eq)]
pub enum Sign {
    Plus,
    Minus,
    /// `'`, which negates a truth value.
    Not,
}

/// An operator that gives a truth value of its two operands.
#[derive(Clone, Copy, PartialEq, Eq)]
pub enum Truth {
    /// `=`, of texts.
    Equals,
    /// `<`, of numbers.
    Less,
    /// `>`, of numbers.
    Greater,
    /// `[`: the left text contains the right one.
    Contains,
    /// `]`: the left text is greater by character codes.
    Follows,
    /// `]]`: the left text comes later in the order of subscripts.
    SortsAfter,
    /// `&`
    Both,
    /// `!`
    Either,
}

/// An operator between two operands.
#[derive(Clone, Copy, PartialEq, Eq)]
pub enum Binary {
    Add,
    Subtract,
    Multiply,
    /// `/`
    Divide,
    /// `\`, the quotient without its fraction.
    DivideWhole,
    /// `#`, the remainder of division with a floor.
    Remainder,
    /// `_`, which joins two texts.
    Join,
    Is(Truth),
    /// The operator after a `'`.
    IsNot(Truth),
}

/// What an atom of a pattern repeats.
#[cycle(pattern)]
pub enum Repeated {
    /// Characters of any of these classes.
    Classes(Letters),
    /// A string, without the quotes around it.
    Copies(Bytes7),
    /// A group: texts that each match any of these patterns.
    Group(Vec<Alternative>),
}

/// An atom of a pattern.
#[cycle(pattern)]
pub struct Atom {
    pub count: Count,
    pub repeated: Repeated,
}

/// A pattern of a group: its atoms in turn.
#[cycle(pattern)]
pub struct Alternative {
    pub atoms: Vec<Atom>,
}

/// Operands with operators between them, which apply from left to right.
#[cycle(tree)]
pub struct Expr {
    pub first: Operand,
    pub rest: Vec<Tail>,
}

/// What is done with the value to the left.
#[cycle(tree)]
pub enum Tail {
    /// An operator, and the operand to its right.
    Apply(Binary, Operand),
    /// `?`, and a pattern.
    Matches(Vec<Atom>),
    /// `'?`, and a pattern.
    MatchesNot(Vec<Atom>),
    /// `**`, and the exponent.
    Raise(Operand),
    /// `?`, and the operand after an `@`, whose value is the text of a pattern.
    MatchesIndirect(Box<Primary>),
    /// `'?`, and such an operand.
    MatchesNotIndirect(Box<Primary>),
}

/// A primary with the signs in front of it, which bind to it alone.
#[derive(Drop)]
#[cycle(tree)]
pub struct Operand {
    pub signs: Vec<Sign>,
    pub primary: Primary,
}

/// What an operand stands on.
#[cycle(tree)]
pub enum Primary {
    /// A number.
    Number(Literal),
    /// A string without the quotes around it; a doubled quote within is one here.
    Text(Bytes7),
    /// A special variable: its word after the `$`.
    Special(Bytes7),
    /// The value of a variable.
    Reference(Reference),
    /// An expression in brackets.
    Bracket(Box<Expr>),
    /// A function of values: its word after the `$`, and its arguments.
    Call(ValueWord, Vec<Expr>),
    /// `$SELECT`, with its word after the `$`.
    Select(Bytes7, Vec<Choice>),
    /// A function of a variable.
    Refer(Box<Referring>),
    /// The value that a function of a routine gives: where it stands, after `$$`, and its actuals.
    Extrinsic(Box<Called>),
}

/// What is handed over to a formal.
#[cycle(tree)]
pub enum Actual {
    /// Nothing: the formal has no value.
    Missing,
    /// A value.
    Value(Expr),
    /// By reference: the name of a local variable after a `.`.
    Name(Name),
    /// By reference: the operand after `.@`, whose value is such a name.
    IndirectName(Box<Primary>),
}

/// What DO or a function calls: where that stands, and the actuals after it. A list in brackets has one actual or more, and of none
/// there is no list.
#[cycle(tree)]
pub struct Called {
    pub entry: Entry,
    pub actuals: Vec<Actual>,
}

/// A variable. `Reference::of_local` makes the local ones.
#[cycle(tree)]
pub enum Reference {
    /// A local variable without subscripts: its name.
    Variable(Name),
    /// A local variable by one subscript: its name, and the subscript.
    Node(Name, Box<Expr>),
    /// Any other local variable: its name, and its subscripts.
    Local(Name, Vec<Expr>),
    /// A global variable: its name after the `^`, and its subscripts, of which there may be none.
    Global(Name, Vec<Expr>),
    /// A naked reference: its subscripts after the `^`, which take the place of the last one of the global reference before it.
    Naked(Vec<Expr>),
    /// Name indirection: the operand after an `@`, whose value is the text of a variable, and the subscripts after a further `@`,
    /// of which there may be none.
    Indirect(Box<Primary>, Vec<Expr>),
    /// A global variable of an account that is named: the expression between the bars after the `^`, whose value is the
    /// account's name, then the variable's name, and its subscripts, of which there may be none.
    Extended(Box<Expr>, Name, Vec<Expr>),
}

/// A function of a variable, as `$DATA`, `$GET` and `$ORDER` are: its word after the `$`, the variable, and the arguments
/// after that.
#[cycle(tree)]
pub struct Referring {
    pub word: VariableWord,
    pub reference: Reference,
    pub more: Vec<Expr>,
}

/// An argument of `$SELECT`: a condition, and the value if it is true.
#[cycle(tree)]
pub struct Choice {
    pub condition: Expr,
    pub value: Expr,
}

/// A part of a variable, to which SET assigns, as `$PIECE` and `$EXTRACT` are: its word after the `$`, the variable, and the
/// values after that.
pub struct PartTarget {
    pub word: ValueWord,
    pub reference: Reference,
    pub more: Vec<Expr>,
}

/// What SET assigns to.
#[derive(Drop)]
pub enum Target {
    Variable(Reference),
    /// In a box, since it is large and rare.
    Part(Box<PartTarget>),
}

/// What an argument of SET assigns its value to.
#[derive(Drop)]
pub enum Destination {
    One(Target),
    /// A list in brackets.
    Several(Vec<Target>),
}

/// What the index of FOR takes on, one value or one after another.
pub enum Parameter {
    /// A value.
    Once(Expr),
    /// A start, and what is added at each turn.
    Onward(Expr, Expr),
    /// A start, what is added at each turn, and a limit.
    Until(Expr, Expr, Expr),
}

/// A routine of another account: the account's name, which is a string between the bars after the `^`, without the quotes around
/// it, and the routine's.
pub struct SharedRoutine {
    pub account: Bytes7,
    pub name: Name,
}

/// The routine after a `^`.
#[derive(Drop)]
pub enum RoutineRef {
    /// One of the account's own.
    Own(Name),
    /// One of another account. In a box, since it is large and rare.
    Shared(Box<SharedRoutine>),
}

/// Where DO, GOTO and functions lead.
#[derive(Drop)]
pub enum Entry {
    /// To a label of the level's own routine.
    Label(Name),
    /// To a label of a routine.
    LabelIn(Name, RoutineRef),
    /// To the first line of a routine.
    Routine(RoutineRef),
}

/// How an argument of LOCK begins.
#[derive(Clone, Copy, PartialEq, Eq)]
pub enum LockKind {
    /// Without a sign: the locks held before are given back.
    Anew,
    /// `+`
    Adding,
    /// `-`
    GivingBack,
}

/// What an argument of LOCK names.
#[derive(Drop)]
pub enum Locked {
    One(Reference),
    /// A list in brackets.
    Several(Vec<Reference>),
}

/// An argument of a command.
pub enum Arg {
    /// Of SET: what it assigns to, and the value.
    Assign(Destination, Expr),
    /// Of WRITE: formats, each a `!` or a `#`, and a column after a `?`, if there is one.
    Formats(Bytes7, Option<Box<Expr>>),
    /// Of WRITE: a character by its code, after a `*`.
    Coded(Expr),
    /// Of WRITE: a value.
    Value(Expr),
    /// Of KILL: a variable.
    KillOne(Reference),
    /// Of KILL: the names that it spares, in brackets.
    KillOthers(Vec<Name>),
    /// Of NEW: a name.
    NewOne(Name),
    /// Of NEW: the names that it spares, in brackets.
    NewOthers(Vec<Name>),
    /// Of IF: a condition.
    Tested(Expr),
    /// Of FOR: the name of its index, and what that takes on.
    Loop(Name, Vec<Parameter>),
    /// Of DO: what it calls, and its own postconditional.
    DoOne(Called, Option<Box<Expr>>),
    /// Of GOTO: where it leads, and its own postconditional.
    GoTo(Entry, Option<Box<Expr>>),
    /// Of XECUTE: a text, and its own postconditional.
    Executed(Expr, Option<Box<Expr>>),
    /// Of LOCK: how it begins, what it names, and its timeout.
    Lock(LockKind, Locked, Option<Box<Expr>>),
    /// Of HANG: how many seconds.
    HangFor(Expr),
    /// Of QUIT: its value.
    Returned(Expr),
    /// Of MERGE: the target, and the source.
    MergeOne(Reference, Reference),
    /// Argument indirection: the word that the command has, and the operand after an `@`, whose value is the text of arguments.
    Indirect(Keyword, Primary),
}

/// What a command's word says.
#[derive(Clone, Copy, PartialEq, Eq)]
pub enum Keyword {
    Set,
    Kill,
    New,
    If,
    Else,
    For,
    Quit,
    Write,
    Do,
    Goto,
    Execute,
    Lock,
    Merge,
    Halt,
    Hang,
    /// `H`: HALT without arguments, and else HANG.
    HaltOrHang,
}

/// A command: what its word says, the word as it is written, its postconditional if it has one, and its arguments.
pub struct Command {
    pub keyword: Keyword,
    pub word: Bytes7,
    /// In a box, since it is large and rare.
    pub condition: Option<Box<Expr>>,
    pub args: Vec<Arg>,
}

/// A command, and how many spaces come after it.
#[derive(Drop)]
pub struct Spaced {
    pub command: Command,
    pub spaces: usize,
}

/// A line: its commands with the spaces around them, and its comment.
pub struct Line {
    /// How many spaces the line begins with.
    pub lead: usize,
    pub commands: Vec<Spaced>,
    /// The text after `;`, if there is one.
    pub comment: Option<Bytes7>,
    /// The first language that has all forms of the line (`since_commands`), so that it is counted once, however often the line
    /// is entered. It is no part of the tree that contracts see.
    pub since: u32,
}

/// What comes after the label and the formal list of a routine's line.
#[derive(Drop)]
pub enum Body {
    /// Nothing, or at once a comment: the text after `;`, if there is one.
    Short(Option<Bytes7>),
    /// After a space: for each dot, how many spaces are in front of it, and then what a line of a terminal has too. The line is
    /// also held by what runs it.
    Spaced(Vec<usize>, Rc<Line>),
}

/// A line of a routine: its label and its formal list, if it has them, and what comes after those.
pub struct RoutineLine {
    pub label: Option<Name>,
    /// The names of the formal list, which stands after a label alone, and of which no two are equal.
    pub formals: Option<Vec<Name>>,
    pub body: Body,
}

// Drop is written out, so that the crates above do not prove again how each part of a tree is dropped. An expression ends the
// cycle of types: what contains a tree drops it by one call.
impl Drop for Repeated {
    #[cycle(drop_pattern)]
    fn drop(self) {
        match self {
            Repeated::Classes(_) => {}
            Repeated::Copies(_) => {}
            Repeated::Group(_) => {}
        }
    }
}

impl Drop for Atom {
    #[cycle(drop_pattern)]
    fn drop(self) {
        let Atom {
            count: _,
            repeated: _,
        } = self;
    }
}

impl Drop for Alternative {
    #[cycle(drop_pattern)]
    fn drop(self) {
        let Alternative { atoms: _ } = self;
    }
}

impl Drop for Expr {
    #[cycle(drop)]
    fn drop(self) {
        let Expr { first: _, rest: _ } = self;
    }
}

impl Drop for Tail {
    #[cycle(drop)]
    fn drop(self) {
        match self {
            Tail::Apply(_, _) => {}
            Tail::Matches(_) => {}
            Tail::MatchesNot(_) => {}
            Tail::Raise(_) => {}
            Tail::MatchesIndirect(_) => {}
            Tail::MatchesNotIndirect(_) => {}
        }
    }
}

impl Drop for Primary {
    #[cycle(drop)]
    fn drop(self) {
        match self {
            Primary::Number(_) => {}
            Primary::Text(_) => {}
            Primary::Special(_) => {}
            Primary::Reference(_) => {}
            Primary::Bracket(_) => {}
            Primary::Call(_, _) => {}
            Primary::Select(_, _) => {}
            Primary::Refer(_) => {}
            Primary::Extrinsic(_) => {}
        }
    }
}

impl Drop for Actual {
    #[cycle(drop)]
    fn drop(self) {
        match self {
            Actual::Missing => {}
            Actual::Value(_) => {}
            Actual::Name(_) => {}
            Actual::IndirectName(_) => {}
        }
    }
}

impl Drop for Called {
    #[cycle(drop)]
    fn drop(self) {
        let Called {
            entry: _,
            actuals: _,
        } = self;
    }
}

impl Drop for Reference {
    #[cycle(drop)]
    fn drop(self) {
        match self {
            Reference::Variable(_) => {}
            Reference::Node(_, _) => {}
            Reference::Local(_, _) => {}
            Reference::Global(_, _) => {}
            Reference::Naked(_) => {}
            Reference::Indirect(_, _) => {}
            Reference::Extended(_, _, _) => {}
        }
    }
}

impl Drop for Referring {
    #[cycle(drop)]
    fn drop(self) {
        let Referring {
            word: _,
            reference: _,
            more: _,
        } = self;
    }
}

impl Drop for Choice {
    #[cycle(drop)]
    fn drop(self) {
        let Choice {
            condition: _,
            value: _,
        } = self;
    }
}

impl Drop for PartTarget {
    fn drop(self) {
        let PartTarget {
            word: _,
            reference: _,
            more: _,
        } = self;
    }
}

impl Drop for SharedRoutine {
    fn drop(self) {
        let SharedRoutine {
            account: _,
            name: _,
        } = self;
    }
}

impl Drop for Parameter {
    fn drop(self) {
        match self {
            Parameter::Once(_) => {}
            Parameter::Onward(_, _) => {}
            Parameter::Until(_, _, _) => {}
        }
    }
}

impl Drop for Arg {
    fn drop(self) {
        match self {
            Arg::Assign(_, _) => {}
            Arg::Formats(_, _) => {}
            Arg::Coded(_) => {}
            Arg::Value(_) => {}
            Arg::KillOne(_) => {}
            Arg::KillOthers(_) => {}
            Arg::NewOne(_) => {}
            Arg::NewOthers(_) => {}
            Arg::Tested(_) => {}
            Arg::Loop(_, _) => {}
            Arg::DoOne(_, _) => {}
            Arg::GoTo(_, _) => {}
            Arg::Executed(_, _) => {}
            Arg::Lock(_, _, _) => {}
            Arg::HangFor(_) => {}
            Arg::Returned(_) => {}
            Arg::MergeOne(_, _) => {}
            Arg::Indirect(_, _) => {}
        }
    }
}

impl Drop for Command {
    fn drop(self) {
        let Command {
            keyword: _,
            word: _,
            condition: _,
            args: _,
        } = self;
    }
}

impl Drop for Line {
    fn drop(self) {
        let Line {
            lead: _,
            commands: _,
            comment: _,
            since: _,
        } = self;
    }
}

impl Drop for RoutineLine {
    fn drop(self) {
        let RoutineLine {
            label: _,
            formals: _,
            body: _,
        } = self;
    }
}

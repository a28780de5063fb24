// SPDX-License-Identifier: Apache-2.0
// What the words of intrinsic functions and of intrinsic special variables say.

/// A function of values.
#[derive(Clone, Copy, PartialEq, Eq)]
pub enum ValueFunction {
    Ascii,
    Char,
    Extract,
    Find,
    FormatNumber,
    Justify,
    Length,
    NameLength,
    NameSubscript,
    Piece,
    Reverse,
    Translate,
}

/// A function of a variable.
#[derive(Clone, Copy, PartialEq, Eq)]
pub enum VariableFunction {
    Data,
    Get,
    Increment,
    Name,
    Order,
    Query,
}

/// What a function's word says: the function, and what its brackets hold.
#[derive(Clone, Copy, PartialEq, Eq)]
pub enum Function {
    /// At least `least` values, and at most `most`, if there is a bound.
    OfValues {
        function: ValueFunction,
        least: usize,
        most: Option<usize>,
    },
    /// A variable, and after it at most `most` values.
    OfVariable {
        function: VariableFunction,
        most: usize,
    },
    /// Choices: `$SELECT`.
    OfChoices,
}

/// What a special variable's word says.
#[derive(Clone, Copy, PartialEq, Eq)]
pub enum SpecialVariable {
    /// What the last condition of IF gave.
    Test,
    /// The device in use: the number of the line's terminal.
    Io,
    /// The job: that number too.
    Job,
    /// The device that the line comes from: that number too.
    Principal,
    /// How many characters a text may have.
    Storage,
    /// `$X`: how many characters the terminal's line has.
    Column,
    /// `$Y`: how many lines its page has before that one.
    Row,
    /// Whether a value is wanted of the level, as of a function's.
    Quit,
}

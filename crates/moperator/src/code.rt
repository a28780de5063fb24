// SPDX-License-Identifier: Apache-2.0
// The codes that end a line.
/// A code that ends a line. Those that begin with M are the standard's, those that begin with Z mserve's own.
#[derive(Clone, Copy, PartialEq, Eq)]
pub enum Code {
    /// The naked indicator is undefined.
    M1,
    /// A format of `$FNUMBER` that has brackets beside something of a sign.
    M2,
    /// No condition of `$SELECT` is true.
    M4,
    /// A local variable is undefined.
    M6,
    /// A global is undefined.
    M7,
    /// A division by zero.
    M9,
    /// In a pattern the least count is above the greatest.
    M10,
    /// A line with a formal list that is not called.
    M11,
    /// There is no such line.
    M13,
    /// The index of a FOR is undefined.
    M15,
    /// QUIT with a value where none is wanted.
    M16,
    /// A function that ends without a value.
    M17,
    /// MERGE of a node with one above it or below it.
    M19,
    /// Actuals for a line that has no formal list.
    M20,
    /// An exponent with a fraction.
    M28,
    /// More actuals than the line has formal parameters.
    M58,
    /// A text that is no name of a node.
    M90,
    /// Zero to the power zero.
    M94,
    /// A text of more than 4,095 characters.
    Zlong,
    /// A text that the grammar has no tree for.
    Zsyntax,
    /// A number that is too large.
    Zover,
    /// An argument out of its range.
    Zarg,
    /// A subscript that is refused.
    Zsub,
    /// No grant allows it.
    Zgrant,
    /// A lock in conflict, without a timeout.
    Zlocked,
    /// The steps of the line are used up.
    Zsteps,
    /// Too many levels are open.
    Zdepth,
    /// A line of a routine at a level that is not run.
    Zlevel,
    /// A character over 127.
    Zchar,
    /// A line of more than 255 characters.
    Zline,
    /// A terminal that no account has.
    Zterm,
    /// HALT, which ends a line as a code does, from whatever level; no reply shows it.
    Halting,
    /// Out of memory.
    Zmem,
    /// A fault of the database.
    Zstore,
}

// SPDX-License-Identifier: Apache-2.0
//! The functions and operators of texts: pieces, characters, searches, the texts that they make, and pattern match.
//!
//! The definitions that the contracts cite are in `mspec`: `Pieces`, `TextFunctions`, `NumberFormats` and `Pattern`. Places are counted from
//! 1, and are whole numbers of any size. An argument that the language lets a program leave out is an `Option`.
#![tactic(auto)]

mod by_character;
mod classes;
mod cutting;
mod delimiter;
mod ending;
mod fault;
mod formats;
mod functions;
mod making;
mod numbers;
mod pattern;
mod places;

pub use classes::Classes;
pub use cutting::{piece, pieces};
pub use ending::{Ending, LentAtom, LentRepeated, segment_end};
pub use fault::TextFault;
pub use functions::{contains, extract, find, follows};
pub use making::{justify, set_piece, set_range, translate};
pub use numbers::{format_number, justify_number};
pub use pattern::{
    Atom, Count, PatternCode, Repeated, either_marks, ends_of, first_marks, has_mark,
};
pub use places::has_places;

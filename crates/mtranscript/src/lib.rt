// SPDX-License-Identifier: Apache-2.0
//! The cases of transcripts: reading them, and printing them with what they give.
//!
//! The crates that play cases read those of `transcripts/` at the top of the repository, without the lines that are indented;
//! what they print must be the transcripts themselves.
//!
//! Blocks stand between blank lines. A block begins with `== KIND: NAME`, and has a case in each further line; a line
//! that begins with `# ` is a comment. What a case gives comes below it, indented by four spaces.
//!
//! In a case `{41}` is the byte with these hexadecimal digits, `{250*x}` is what comes after the star, that many times,
//! and `{}` is nothing, for a case that is an empty text.
//!
//! No call has a contract: a program's output is the test of it.
#![tactic(auto)]

mod block;
mod database;
mod escapes;
mod playing;
mod printing;
mod words;

pub use block::{Block, blocks_of};
pub use database::remove;
pub use escapes::bytes_of;
pub use playing::{play, play_each};
pub use printing::{print, print_case, print_others, print_result, print_results};
pub use words::{
    data_word, key_of, name_of, names_of, numbered, push_numbered, text_of, texts_of, words_of,
};

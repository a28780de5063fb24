// SPDX-License-Identifier: Apache-2.0
//! A table of nodes in a file: how it is opened and closed.
#![tactic(auto)]

mod closed_files;
mod file_table;

pub use closed_files::ClosedFiles;
pub use file_table::{FileTable, close_table, open_table};

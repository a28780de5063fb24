// SPDX-License-Identifier: Apache-2.0
//! The command line of mserve: what its words ask for, by the kit's `clap`, and what is reported if they ask for nothing.
#![tactic(auto)]

pub mod command_line;
pub mod jobs;
mod options;
pub mod refusal;

// SPDX-License-Identifier: Apache-2.0
//! Plays the cases of transcripts that call the parts which need no store: numbers, keys, local variables, locks and settings.
//! `mtranscript` says what a case looks like.
//!
//! No call has a contract: a program's output is the test of it.
#![tactic(auto)]

mod keys;
mod locals;
mod locks;
mod numbers;
mod settings;

pub use keys::play_keys;
pub use locals::play_locals;
pub use locks::play_locks;
pub use numbers::play_numbers;
pub use settings::play_settings;

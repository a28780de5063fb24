// SPDX-License-Identifier: Apache-2.0
//! Settings: accounts, their terminals and steps, and what they grant one another, read from a TOML document.
//!
//! The definitions that the contracts cite are in `mspec`: `Access` (settings, and who may do what) and `Flow` (whose doings
//! can show at whom). What a document says, and what is wrong with it, is defined in `specs/Document.antt`, and islands are defined in
//! `specs/Islands.antt`.
#![tactic(auto)]

mod account_id;
mod accounts;
mod checks;
mod document;
mod fault;
mod flow;
mod grants;
mod language;
mod mode;
mod names;
mod settings;
mod words;

pub use account_id::AccountId;
pub use fault::SettingsFault;
pub use mode::Mode;
pub use settings::Settings;

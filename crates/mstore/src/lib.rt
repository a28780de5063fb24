// SPDX-License-Identifier: Apache-2.0
//! A store of nodes in a table over `sqlite`: how a database is opened, made and migrated, and what each call asks of it.
//!
//! What a store of nodes is stands in `mnodes`.
#![tactic(auto)]

mod ahead;
mod create;
pub mod file_laws;
pub mod files;
mod layout;
mod migrating;
mod open_fault;
mod opening;
mod statements;
mod stretch;
pub mod table;
mod version;

pub use open_fault::OpenFault;
pub use table::Table;

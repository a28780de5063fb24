// SPDX-License-Identifier: Apache-2.0
//! All that the program `mserve` does: from the words of its command line to its exit status.
//!
//! To be read in this order: why a job ends early (`fault`); where documents are read (`documents`), where stores are kept (`store_files`)
//! and where peers connect (`ports`), together (`host`), as the system has them (`system`, `system_stores`) and in memory (`in_memory`); the settings
//! (`settings_document`), what is asked for by them (`tasks`), a world over the store that is named (`worlds`); in it a stream answered
//! (`run`), a stream whose replies one account alone is shown (`only_job`), and connections served (`serve_job`, and `port`); a job carried out
//! (`carrying_out`), what is reported of it (`report`), and the program (`program`).
#![tactic(auto)]

mod carrying_out;
mod documents;
mod fault;
mod host;
pub mod in_memory;
mod only_job;
mod port;
mod ports;
pub mod program;
mod report;
mod run;
mod serve_job;
mod settings_document;
mod store_files;
mod system;
mod system_stores;
mod tasks;
mod worlds;

pub use documents::{DocumentFault, Documents};
pub use fault::RunFault;
pub use host::Host;
pub use mwire::AcceptFault;
pub use only_job::run_only_job;
pub use port::serve_connections;
pub use ports::Ports;
pub use store_files::StoreFiles;
pub use system::host_of;
pub use system_stores::SystemStores;

// SPDX-License-Identifier: Apache-2.0
//! The wire: a stream of bytes in, the replies out.
//!
//! A line feed ends a line, and a carriage return just before it goes with it; an unfinished last line counts. A line is a
//! terminal, 1 to 9999, a space and a text, which is run and answered before the next line is. The connections of any listener
//! that hands out their readers and writers are served one after another.
#![tactic(auto)]

mod connections;
mod ending;
mod events;
mod fault;
mod line_buffer;
mod listener;
mod only;
mod peers;
mod reply_bytes;
mod serving;
mod watched;
pub mod wire_laws;
mod wire_line;

pub use connections::serve_each;
pub use events::read_events;
pub use fault::{AcceptFault, WireFault};
pub use listener::Listener;
pub use only::serve_only;
pub use peers::Peers;
pub use reply_bytes::push_reply;
pub use serving::{serve, write_whole};
pub use watched::Watched;

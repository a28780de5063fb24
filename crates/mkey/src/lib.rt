// SPDX-License-Identifier: Apache-2.0
//! The bytes under which a node is stored in a table, and the order of subscripts.
//!
//! The bytes of keys are in the order of their nodes, and the keys that begin with a given key are those of its node and of the
//! nodes below it. The definitions that the contracts cite are in `mspec`: `NodeOrder` (the order of texts and of nodes) and
//! `KeyBytes` (the bytes); their laws are `key_laws` there.
#![tactic(auto)]

mod ancestors;
mod decoding;
mod encoding;
mod fault;
mod head;
mod key;
pub mod laws;
mod names;
mod order;
mod place;
mod subs;
mod subs_key;
mod values;
mod walk;

pub use decoding::read;
pub use fault::KeyFault;
pub use key::NodeKey;
pub use mnum::is_name;
pub use names::{AccountName, is_account_name};
pub use order::compare;
pub use place::{collate, is_numeric};
pub use subs::{Subs, order_values_ok, subs_ok, values_ok};
pub use subs_key::SubsKey;
pub use walk::{Data, Direction, ends_empty, front, last, without_empty};

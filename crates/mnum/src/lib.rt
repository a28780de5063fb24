// SPDX-License-Identifier: Apache-2.0
//! Numbers of eighteen significant digits, exact in their arithmetic and rounded once, texts of seven-bit characters, and names.
//!
//! A number is a whole count of units of 10^-18, below 10^18 in size. The definitions that the contracts cite are in
//! `mspec`: `Number` (rounding and the operators), `NumberText` (the value of a text, and the text of a number).
#![tactic(auto)]

mod arithmetic;
mod bytes;
mod fixed;
mod name;
mod num;
mod numbered;
mod powers;
mod reading;
mod rounding;
mod size;
mod units;
mod whole;
mod writing;

pub use bytes::Bytes7;
pub use name::{Name, continue_name, is_name};
pub use num::{ArithFault, Num, Over};
pub use reading::short_whole;
pub use writing::{is_canonical, is_canonical_by};

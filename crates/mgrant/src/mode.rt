// SPDX-License-Identifier: Apache-2.0
/// What a grant lets an account do with another's global.
#[derive(Clone, Copy, PartialEq, Eq, Hash)]
pub enum Mode {
    /// To read: values, `$DATA`, `$GET`, `$ORDER`.
    Read,
    /// To read and to write: `SET`, `KILL`, `LOCK` too.
    Write,
}

// SPDX-License-Identifier: Apache-2.0
// The versions of a store that can be opened.

/// How many digits the numbers of a store's keys keep: fifteen in the first version, eighteen in the second.
#[derive(Clone, Copy)]
pub(crate) enum Version {
    First,
    Second,
}

// SPDX-License-Identifier: Apache-2.0
// What a run of the program has around it, beside its words and its streams.

/// The documents, the files of stores and the ports that the words of a command line can name.
#[derive(Drop)]
pub struct Host<D, F, P> {
    pub documents: D,
    pub stores: F,
    pub ports: P,
}

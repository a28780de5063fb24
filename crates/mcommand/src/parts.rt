// SPDX-License-Identifier: Apache-2.0
// What a text is lent while it is carried out.
use meval::Eval;
use mlock::Locks;

/// What a text is lent while it is carried out.
#[derive(Drop)]
pub struct Parts<'a, S> {
    /// The session, the store, and where the text stands.
    pub eval: Eval<'a, S>,
    /// The locks of all terminals.
    pub locks: &'a mut Locks,
    /// The output so far, to which the text's is appended: ASCII, and the byte 255 for each end of a line.
    pub out: &'a mut Vec<u8>,
}

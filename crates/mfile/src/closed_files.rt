// SPDX-License-Identifier: Apache-2.0
// The files of a table that was closed.
use sqlite_disk::{Files, Start};
use sqlite_std_file::FileFrom;

/// The two files of a table that was closed, on which no call is made any more. No other process opens them before it is dropped.
pub struct ClosedFiles<S: Start> {
    pub files: Files<FileFrom<S>>,
    /// Whether they have the two tables and no other.
    pub alone: bool,
}

// Written out, so that dropping it is one call, which is proved once.
impl<S: Start> Drop for ClosedFiles<S> {
    fn drop(self) {
        let ClosedFiles { files: _, alone: _ } = self;
    }
}

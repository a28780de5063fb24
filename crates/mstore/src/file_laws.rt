// SPDX-License-Identifier: Apache-2.0
// The laws of what files hold. Each function's contract is the law, and its body is empty: the code never calls them.
ghost use Rattle.mstore.specs.InFiles.{NewFilesAreEmpty, TablesAreFound};

/// A table that is opened from a file with no byte, as one that was just created, holds nothing.
pub fn new_files_are_empty()
    ensures { NewFilesAreEmpty }
{}

/// A table that is opened from files that hold one, as those that were closed, also after a crash, has that one's globals: two runs, one
/// after the other, are one history.
pub fn tables_are_found()
    ensures { TablesAreFound }
{}

// SPDX-License-Identifier: Apache-2.0
// The files of databases that cases are played over.
use std::fs;
use std::rt::HostRuntime;

/// Removes a database, with its log; a file that does not exist need not be removed.
pub fn remove(rt: &HostRuntime, path: &str, log: &str) {
    let _ = fs::remove_file(rt, path);
    let _ = fs::remove_file(rt, log);
}

// SPDX-License-Identifier: Apache-2.0
// What a command line asks for.

/// Where the globals are kept.
#[derive(Drop)]
pub enum Store {
    /// A database in memory, which is empty at the start.
    Memory,
    /// A database in the file of this path.
    File(String),
}

/// What a command line asks for. Its texts are as they were given.
#[derive(Drop)]
pub enum Job {
    /// To answer the lines of the standard input.
    Run {
        /// The path of the settings.
        settings: String,
        /// Where the globals are kept.
        store: Store,
        /// The only account whose replies are wanted, if one is named.
        only: Option<String>,
    },
    /// To answer the lines of connections, one connection after the other.
    Serve {
        /// The path of the settings.
        settings: String,
        /// Where the globals are kept.
        store: Store,
        /// The port of 127.0.0.1 to listen at.
        port: u16,
        /// How many connections are served.
        connections: u32,
    },
}

/// Why a command line asks for nothing.
#[derive(Drop)]
pub enum JobFault {
    /// It is refused, or asks for help: the error has `clap`'s text.
    Line(clap::Error),
    /// There was no memory for it. It also comes if `clap` took the words and found less than the command must have. No words are
    /// known to lead to that.
    Memory,
}

// SPDX-License-Identifier: Apache-2.0
// What is reported if the words of a command line ask for no job, and the exit status.
ghost use Rattle.std.specs.Prelude.{◌≡◌, ◌≢◌};
ghost use Rattle.std.specs.IoError.{error_kind};

use crate::jobs::JobFault;
use std::io;
use std::io::{ErrorKind, Write};

/// Reports to `errors` why the words ask for no job, and gives the exit status: 2. A fault in writing to `errors` is passed over.
pub fn refused<E: Write>(fault: &JobFault, errors: &mut E) -> u8
    ensures status { result ≡ 2 }
{
    match fault {
        JobFault::Line(error) => {
            let _ = write!(errors, "{error}");
            2
        }
        JobFault::Memory => short_of_memory(errors),
    }
}

/// The exit status if the words of the command line cannot be had: 2. `errors` gets a line if that is because memory ran out, and
/// none if words are not UTF-8.
pub fn no_words<E: Write>(error: &io::Error, errors: &mut E) -> u8
    ensures status { result ≡ 2 }
    ensures untold { error_kind error.now ≢ ErrorKind.OutOfMemory → errors.new ≡ errors.old }
{
    if error.kind() == ErrorKind::OutOfMemory {
        return short_of_memory(errors);
    }
    2
}

// Reports to `errors` that there was no memory for the command line, and gives the exit status.
fn short_of_memory<E: Write>(errors: &mut E) -> u8
    ensures { result ≡ 2 }
{
    let _ = writeln!(errors, "mserve: Memory");
    2
}

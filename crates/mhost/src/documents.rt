// SPDX-License-Identifier: Apache-2.0
// Where documents are read.
ghost use Rattle.std.specs.Prelude.{◌≡◌, Option, None, Some, IfOk, Err, option_map, take};
ghost use Rattle.mspec.specs.Act.{Text};

use std::alloc::Global;

/// Why a document is not read.
#[derive(Clone, Copy, PartialEq, Eq, Drop)]
pub enum DocumentFault {
    /// There is no such file, or it cannot be read.
    Unread,
    /// Out of memory.
    Memory,
}

/// Files that are read whole, by their paths.
///
/// What is said of them holds if the type `tells` what they hold, a fact that only contracts see: it is true of a document in memory,
/// and not claimed of the system's files.
pub trait Documents {
    ghost tells: { Type 0 };

    ghost held: { Self → Text → Option Text };

    /// The bytes of the file at this path, up to the first `most`. What it holds may change from one call to the next.
    ///
    /// # Errors
    ///
    /// `Unread` if there is no such file or it cannot be read, and `Memory`.
    fn first_bytes(
        &mut self,
        alloc: Global,
        path: &str,
        most: u64,
    ) -> Result<Vec<u8>, DocumentFault>
        ensures bytes { tells → IfOk result (λ bytes. option_map (take most) (held self.old path.now) ≡ Some bytes.items) }
        ensures unread { tells → result ≡ Err DocumentFault.Unread → held self.old path.now ≡ None };
}

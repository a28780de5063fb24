// SPDX-License-Identifier: Apache-2.0
// Where peers connect.
ghost use Rattle.std.specs.Prelude.{◌≡◌, List, [], ◌∷◌, ◌++◌, map, Some, IfOk, OnOk, OnErr};
ghost use Rattle.mspec.specs.Act.{Text};

use crate::fault::AcceptFault;
use std::io::{Read, Write};

/// Where peers connect, one after another.
///
/// What is said of the peers holds if the listener's type `tells` who comes, a fact that only contracts see. It is true of peers in
/// memory, and not claimed of sockets.
pub trait Listener {
    type Reader: Read;

    type Writer: Write;

    ghost tells: { Type 0 };

    ghost waiting: { Self → List Text };

    ghost answered: { Self → List Text };

    ghost occupied: { Self → Type 0 };

    /// The reader and the writer of the next connection, which `close` takes back.
    ///
    /// # Errors
    ///
    /// If no connection can be had: if the type `tells` who comes, that is when nobody waits.
    fn accept(&mut self) -> Result<(Self::Reader, Self::Writer), AcceptFault>
        ensures came { tells → IfOk result (λ c. map Some (waiting self.old) ≡ Self.Reader.remaining c.0 ∷ map Some (waiting self.new)) }
        ensures fresh { tells → IfOk result (λ c. Self.Writer.contents c.1 ≡ Some []) }
        ensures occupied { tells → OnOk result (occupied self.new) }
        ensures nobody { tells → OnErr result ((waiting self.old ≡ []) × (waiting self.new ≡ [])) }
        ensures answered { tells → answered self.new ≡ answered self.old };

    /// Ends a connection. The condition: it is the one that `accept` gave last.
    fn close(&mut self, reader: Self::Reader, writer: Self::Writer)
        requires occupied { tells → occupied self.old }
        ensures went { tells → map Some (answered self.new) ≡ map Some (answered self.old) ++ Self.Writer.contents writer ∷ [] }
        ensures waiting { tells → waiting self.new ≡ waiting self.old };
}

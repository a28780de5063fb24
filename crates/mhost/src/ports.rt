// SPDX-License-Identifier: Apache-2.0
// Where peers connect from outside.
ghost use Rattle.std.specs.Prelude.{◌≡◌, ℕ, List, Option, None, Some, IfSome, IsSome};
ghost use Rattle.mspec.specs.Act.{Text};

use mwire::Listener;

/// Ports at which peers connect.
///
/// What is said of them holds if the type `tells` who comes, a fact that only contracts see: it is true of a port in memory, and not
/// claimed of the system's ports.
pub trait Ports {
    type Port: Listener + Drop;

    ghost tells: { Type 0 };

    ghost waiting: { Self → ℕ → Option (List Text) };

    ghost answered: { Self → ℕ → List Text };

    ghost lent: { Self → ℕ → Type 0 };

    /// A listener at this port, which it owns, and which `close` takes back: there, those who wait connect.
    ///
    /// `None`: the port is taken, or may not be listened at.
    fn listen(&mut self, number: u16) -> Option<Self::Port>
        ensures tells { tells → IsSome result → Self.Port.tells }
        ensures waiting { tells → IfSome result (λ port. waiting self.old number ≡ Some (Self.Port.waiting port)) }
        ensures answered { tells → IfSome result (λ port. answered self.old number ≡ Self.Port.answered port) }
        ensures lent { tells → IsSome result → lent self.new number }
        ensures taken { tells → result ≡ None → waiting self.old number ≡ None };

    /// Ends listening at this port. The condition: `listen` gave the listener.
    fn close(&mut self, number: u16, port: Self::Port)
        requires lent { tells → lent self.old number }
        ensures waiting { tells → waiting self.new number ≡ Some (Self.Port.waiting port) }
        ensures answered { tells → answered self.new number ≡ Self.Port.answered port };
}

// SPDX-License-Identifier: Apache-2.0
// Where stores are kept.
ghost use Rattle.std.specs.Prelude.{◌≡◌, ◌≢◌, Option, Some, IfOk, OnOk, OnErr};
ghost use Rattle.mspec.specs.Act.{Text};
ghost use Rattle.mspec.specs.Globals.{Globals};

use mnodes::NodeStore;
use mstore::OpenFault;
use std::alloc::Global;

/// Files of stores, by their paths.
///
/// What is said of them at each path holds if the type `tells` what they hold, a fact that only contracts see: it is true of a file in
/// memory, and not claimed of the system's files. Of those is said what one opening `finds` in the two files of a store, as long as there
/// is no doubt of the store; and what the closing `leaves` in them, if all answers of the disk up to it were true (`clean`), as then there
/// never was a doubt. No clause ties these to the path.
pub trait StoreFiles {
    type Store: NodeStore + Drop;

    ghost tells: { Type 0 };

    ghost held: { Self → Text → Option Globals };

    ghost lent: { Self → Text → Type 0 };

    ghost finds: { Self → Globals → Type 0 };

    ghost clean: { Self → Type 0 };

    ghost leaves: { Self → Globals → Type 0 };

    /// The store in the file at this path, which is created if it does not exist. `close` takes it back.
    ///
    /// # Errors
    ///
    /// If there can be no store in it, or out of memory. All files are then as they were.
    fn open(&mut self, alloc: Global, path: &str) -> Result<Self::Store, OpenFault>
        ensures undoubted { tells → IfOk result (λ store. Self.Store.doubt store ≡ 0) }
        ensures globals { tells → IfOk result (λ store. held self.old path.now ≡ Some (Self.Store.content store)) }
        ensures finds { IfOk result (λ store. Self.Store.doubt store ≡ 0 → finds self.old (Self.Store.content store)) }
        ensures lent { tells → OnOk result (lent self.new path.now) }
        ensures others { tells → (other : Text) → other ≢ path.now → held self.new other ≡ held self.old other }
        ensures same { tells → OnErr result (held self.new path.now ≡ held self.old path.now) };

    /// Ends a store of the file at this path. The condition: `open` gave it.
    fn close(&mut self, path: &str, store: Self::Store)
        requires lent { tells → lent self.old path.now }
        ensures globals { tells → held self.new path.now ≡ Some (Self.Store.content store) }
        ensures leaves { clean self.new → leaves self.new (Self.Store.content store) }
        ensures sure { clean self.new → Self.Store.doubt store ≡ 0 }
        ensures others { tells → (other : Text) → other ≢ path.now → held self.new other ≡ held self.old other };
}

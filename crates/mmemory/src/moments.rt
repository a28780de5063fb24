// SPDX-License-Identifier: Apache-2.0
// Going back, and what goes before it.
ghost use Rattle.std.specs.Prelude.{◌≡◌, ◌≤◌, ℕ, All, [], length};
ghost use Rattle.mmemory.specs.Held.{now, moment};

use crate::held::Held;
use crate::undoing::undo;

// A log longer than this is given back at the commit.
const LONG_LOG: usize = 1024;

impl Held {
    // Takes back what is in the log from a place on.
    pub(crate) fn undo_to(&mut self, len: usize)
        requires { All (λ m. m ≤ len) self.old.marks.items }
        ensures past { (k : ℕ) → k ≤ len → moment self.new k ≡ moment self.old k }
        ensures now { now self.new ≡ moment self.old len }
        ensures marks { self.new.marks.items ≡ self.old.marks.items }
        ensures log { len ≤ length self.old.log.items → len ≤ length self.new.log.items }
    {
        while self.log.len() > len {
            let change = self.log.pop().unwrap();
            undo(&mut self.trees, &mut self.version, change);
        }
    }

    // Forgets how to go back.
    pub(crate) fn forget(&mut self)
        ensures now { now self.new ≡ now self.old }
        ensures log { self.new.log.items ≡ [] }
        ensures marks { self.new.marks.items ≡ [] }
    {
        self.marks.clear();
        if self.log.len() > LONG_LOG {
            self.log = Vec::new(self.alloc);
        } else {
            self.log.clear();
        }
    }
}

// SPDX-License-Identifier: Apache-2.0
// What a store of nodes is.
ghost use Rattle.std.specs.Prelude.{◌≡◌, ◌≢◌, ◌≤◌, ℕ, Bool, length, option_map, IfOk, IfSome, OnOk, OnErr, Err, IsTrue, is_ok};
ghost use Rattle.std.specs.FinMap.{get, insert};
ghost use Rattle.mspec.specs.Globals.{Globals, without_subtree, next_key, previous_key, lines_of};
ghost use Rattle.mspec.specs.KeyBytes.{IsAccountName};
ghost use Rattle.mspec.specs.Names.{IsName};
ghost use Rattle.mspec.specs.TextFunctions.{max_text};
ghost use Rattle.mnodes.specs.Doubt.{Doubts};
ghost use Rattle.mnodes.specs.Held.{AreHeld};
ghost use Rattle.mnodes.specs.declared.store.StoreFault.TheVariants.{Memory};

use mkey::NodeKey;
use mnum::Bytes7;
use std::alloc::AllocError;
use std::rc::Rc;

/// Why a call of a store failed. What the store holds is then as it was.
#[derive(Clone, Copy, PartialEq, Eq, Drop)]
pub enum StoreFault {
    /// Out of memory.
    Memory,
    /// The database refused, or holds what no call put there.
    Store,
}

impl From<AllocError> for StoreFault {
    ghost from_gives = { λ _ fault. fault ≡ Memory };

    fn from(_error: AllocError) -> StoreFault {
        StoreFault::Memory
    }
}

/// A finite map from nodes to texts of at most 4,095 characters.
///
/// Contracts alone see what is known of a store besides what it holds:
/// - its `doubt`, a number that no call lowers. What a call says of the content, it says if the doubt is 0 after it;
/// - whether it `has_room`: one more row can be put. No call gives room back, so a store with room had it all along;
/// - two facts of its type. If it is `sound`, no call raises the doubt. If it is `steady`, a call answers `Store` only if the store
///   has no room then. A steady type is sound.
///
/// The reads, and a `put` that was taken, also say that the keys of what the store holds are those of nodes, and that its texts
/// are short enough.
///
/// # Errors
///
/// From each call: `Memory` if it runs out of memory, and `Store` if the database refuses or a row is not in form. What the store
/// holds is then as it was.
pub trait NodeStore {
    ghost content: { Self → Globals };

    ghost doubt: { Self → ℕ };

    ghost sound: { Type 0 };

    ghost steady: { Type 0 };

    ghost has_room: { Self → Bool };

    /// The text at a node, if there is one.
    fn get(&mut self, key: &NodeKey) -> Result<Option<Bytes7>, StoreFault>
        ensures found { doubt self.new ≡ 0 → IfOk result (λ text. text ≡ get (content self.old) key.now) }
        ensures held { doubt self.new ≡ 0 → AreHeld (content self.old) }
        ensures same { doubt self.new ≡ 0 → content self.new ≡ content self.old }
        ensures doubt { Doubts sound (doubt self.old) (doubt self.new) (has_room self.old) (has_room self.new) (is_ok result) }
        ensures store { steady → IsTrue (has_room self.new) → result ≢ Err StoreFault.Store };

    /// Gives a node a text, and keeps what is below it.
    fn put(&mut self, key: &NodeKey, text: &Bytes7) -> Result<(), StoreFault>
        requires { length text.now ≤ max_text }
        ensures put { doubt self.new ≡ 0 → OnOk result (content self.new ≡ insert (content self.old) key.now text.now) }
        ensures held { doubt self.new ≡ 0 → OnOk result (AreHeld (content self.old)) }
        ensures fault { doubt self.new ≡ 0 → OnErr result (content self.new ≡ content self.old) }
        ensures doubt { Doubts sound (doubt self.old) (doubt self.new) (has_room self.old) (has_room self.new) (is_ok result) }
        ensures store { steady → IsTrue (has_room self.new) → result ≢ Err StoreFault.Store };

    /// Removes a node, with all that is below it.
    fn kill(&mut self, key: &NodeKey) -> Result<(), StoreFault>
        ensures killed { doubt self.new ≡ 0 → OnOk result (content self.new ≡ without_subtree (content self.old) key.now) }
        ensures fault { doubt self.new ≡ 0 → OnErr result (content self.new ≡ content self.old) }
        ensures doubt { Doubts sound (doubt self.old) (doubt self.new) (has_room self.old) (has_room self.new) (is_ok result) }
        ensures store { steady → IsTrue (has_room self.new) → result ≢ Err StoreFault.Store };

    /// The bytes of the first key from `low` on and before `high`, if there is one.
    fn next(&mut self, low: &[u8], high: &[u8]) -> Result<Option<Vec<u8>>, StoreFault>
        ensures found { doubt self.new ≡ 0 → IfOk result (λ key. option_map (λ bytes. bytes.items) key ≡ next_key (content self.old) low.now high.now) }
        ensures held { doubt self.new ≡ 0 → AreHeld (content self.old) }
        ensures same { doubt self.new ≡ 0 → content self.new ≡ content self.old }
        ensures doubt { Doubts sound (doubt self.old) (doubt self.new) (has_room self.old) (has_room self.new) (is_ok result) }
        ensures store { steady → IsTrue (has_room self.new) → result ≢ Err StoreFault.Store };

    /// The bytes of the last key from `low` on and before `high`, if there is one.
    fn prev(&mut self, low: &[u8], high: &[u8]) -> Result<Option<Vec<u8>>, StoreFault>
        ensures found { doubt self.new ≡ 0 → IfOk result (λ key. option_map (λ bytes. bytes.items) key ≡ previous_key (content self.old) low.now high.now) }
        ensures held { doubt self.new ≡ 0 → AreHeld (content self.old) }
        ensures same { doubt self.new ≡ 0 → content self.new ≡ content self.old }
        ensures doubt { Doubts sound (doubt self.old) (doubt self.new) (has_room self.old) (has_room self.new) (is_ok result) }
        ensures store { steady → IsTrue (has_room self.new) → result ≢ Err StoreFault.Store };

    /// The lines of an account's routine, if the store keeps a copy of them. A store that has no method of its own keeps none.
    fn kept_routine(&mut self, account: &Bytes7, name: &Bytes7) -> Option<Rc<Vec<Bytes7>>>
        ensures lines { doubt self.new ≡ 0 → IfSome result (λ lines. lines.value.items ≡ lines_of (content self.old) account.now name.now) }
        ensures same { doubt self.new ≡ 0 → content self.new ≡ content self.old }
        ensures doubt { doubt self.new ≡ doubt self.old }
        ensures room { has_room self.new ≡ has_room self.old }
    {
        None
    }

    /// Hands over the lines of an account's routine, of which the store may keep a copy.
    fn keep_routine(&mut self, account: &Bytes7, name: &Bytes7, lines: &Rc<Vec<Bytes7>>)
        requires account { IsAccountName account.now }
        requires name { IsName name.now }
        requires lines { doubt self.old ≡ 0 → lines.now.value.items ≡ lines_of (content self.old) account.now name.now }
        ensures same { doubt self.new ≡ 0 → content self.new ≡ content self.old }
        ensures doubt { doubt self.new ≡ doubt self.old }
        ensures room { has_room self.new ≡ has_room self.old }
    {}

    ghost steady_is_sound: { steady → sound };

    ghost steady_is_told: { steady → (s : Self) → IsTrue (has_room s) → doubt s ≡ 0 };
}

// SPDX-License-Identifier: Apache-2.0
// A store of which one call fails.
ghost use Rattle.std.specs.Prelude.{◌≡◌, ◌≢◌, ◌↔◌, ◌-◌, ◌<◌, ◌≤◌, ◌==◌, length, option_map};
ghost use Rattle.std.specs.Prelude.{IsTrue, IfOk, OnOk, OnErr, Err, is_ok, if◌then◌else◌};
ghost use Rattle.std.specs.FinMap.{get, insert};
ghost use Rattle.mspec.specs.Globals.{without_subtree, next_key, previous_key};
ghost use Rattle.mspec.specs.TextFunctions.{max_text};
ghost use Rattle.mnodes.specs.Over.{DoubtsOver};
ghost use Rattle.mnodes.specs.Failures.{IsDue, Counts};
ghost use Rattle.mnodes.specs.Held.{AreHeld};

use crate::store::{NodeStore, StoreFault};
use mkey::NodeKey;
use mnum::Bytes7;
use std::rc::Rc;

/// A kind of call of a store.
#[derive(Clone, Copy, PartialEq, Eq, Drop)]
pub enum StoreCall {
    Get,
    Put,
    Kill,
    Next,
    Prev,
}

/// A store around another. One of its calls, the nth of a kind, answers `Store` and changes nothing. Each other call is passed on.
/// It has what the store beneath has, and is as sound; it is not steady.
///
/// Contracts see its fields: the store beneath, the kind of call, and how many calls of that kind are left up to and including
/// the one that fails.
pub struct Failing<S: NodeStore> {
    store: S,
    call: StoreCall,
    left: u32,
}

// Written out, so that dropping it is one call, which is proved once.
impl<S: NodeStore + Drop> Drop for Failing<S> {
    fn drop(self) {
        let Failing {
            store: _,
            call: _,
            left: _,
        } = self;
    }
}

impl<S: NodeStore> Failing<S> {
    /// The store, of which the `n`th call of this kind fails. Takes no memory.
    pub fn new(store: S, call: StoreCall, n: u32) -> Failing<S>
        requires { 0 < n }
        ensures { result ≡ record { store = store; call = call; left = n } }
    {
        Failing {
            store,
            call,
            left: n,
        }
    }

    /// How many calls have failed: 0, and 1 once that call was made. Takes no memory.
    pub fn failures(&self) -> u32
        ensures { result ≡ (if self.now.left == 0 then 1 else 0) }
    {
        if self.left == 0 { 1 } else { 0 }
    }

    // Counts a call, and says whether it is the one that fails.
    fn fails(&mut self, call: StoreCall) -> bool
        ensures due { IsTrue result ↔ (call ≡ self.old.call) × (self.old.left ≡ 1) }
        ensures counted { call ≡ self.old.call → self.new ≡ record self.old { left = self.old.left - 1 } }
        ensures passed { call ≢ self.old.call → self.new ≡ self.old }
        ensures store { self.new.store ≡ self.old.store }
    {
        if call != self.call || self.left == 0 {
            return false;
        }
        self.left -= 1;
        self.left == 0
    }
}

// A read that fails was answered by the store beneath, which it does not change; the answer is dropped.
impl<S: NodeStore> NodeStore for Failing<S> {
    ghost content = { λ failing. S.content failing.store };

    ghost doubt = { λ failing. S.doubt failing.store };

    ghost sound = { S.sound };

    ghost steady = { ⊥ };

    ghost has_room = { λ failing. S.has_room failing.store };

    fn get(&mut self, key: &NodeKey) -> Result<Option<Bytes7>, StoreFault>
        ensures found { S.doubt self.new.store ≡ 0 → IfOk result (λ text. text ≡ get (S.content self.old.store) key.now) }
        ensures held { S.doubt self.new.store ≡ 0 → AreHeld (S.content self.old.store) }
        ensures same { S.doubt self.new.store ≡ 0 → S.content self.new.store ≡ S.content self.old.store }
        ensures doubt { DoubtsOver S.NodeStore self.old.store self.new.store (is_ok result) }
        ensures store { ⊥ → IsTrue (S.has_room self.new.store) → result ≢ Err StoreFault.Store }
        ensures due { IsDue self.old.call self.old.left StoreCall.Get → result ≡ Err StoreFault.Store }
        ensures alone { S.steady → IsTrue (S.has_room self.new.store) → result ≡ Err StoreFault.Store → IsDue self.old.call self.old.left StoreCall.Get }
        ensures counts { Counts self.old.call self.old.left self.new.left StoreCall.Get }
        ensures kind { self.new.call ≡ self.old.call }
    {
        let answer = self.store.get(key);
        if self.fails(StoreCall::Get) {
            return Err(StoreFault::Store);
        }
        answer
    }

    fn put(&mut self, key: &NodeKey, text: &Bytes7) -> Result<(), StoreFault>
        requires { length text.now ≤ max_text }
        ensures put { S.doubt self.new.store ≡ 0 → OnOk result (S.content self.new.store ≡ insert (S.content self.old.store) key.now text.now) }
        ensures held { S.doubt self.new.store ≡ 0 → OnOk result (AreHeld (S.content self.old.store)) }
        ensures fault { S.doubt self.new.store ≡ 0 → OnErr result (S.content self.new.store ≡ S.content self.old.store) }
        ensures doubt { DoubtsOver S.NodeStore self.old.store self.new.store (is_ok result) }
        ensures store { ⊥ → IsTrue (S.has_room self.new.store) → result ≢ Err StoreFault.Store }
        ensures due { IsDue self.old.call self.old.left StoreCall.Put → result ≡ Err StoreFault.Store }
        ensures alone { S.steady → IsTrue (S.has_room self.new.store) → result ≡ Err StoreFault.Store → IsDue self.old.call self.old.left StoreCall.Put }
        ensures counts { Counts self.old.call self.old.left self.new.left StoreCall.Put }
        ensures kind { self.new.call ≡ self.old.call }
    {
        if self.fails(StoreCall::Put) {
            return Err(StoreFault::Store);
        }
        self.store.put(key, text)
    }

    fn kill(&mut self, key: &NodeKey) -> Result<(), StoreFault>
        ensures killed { S.doubt self.new.store ≡ 0 → OnOk result (S.content self.new.store ≡ without_subtree (S.content self.old.store) key.now) }
        ensures fault { S.doubt self.new.store ≡ 0 → OnErr result (S.content self.new.store ≡ S.content self.old.store) }
        ensures doubt { DoubtsOver S.NodeStore self.old.store self.new.store (is_ok result) }
        ensures store { ⊥ → IsTrue (S.has_room self.new.store) → result ≢ Err StoreFault.Store }
        ensures due { IsDue self.old.call self.old.left StoreCall.Kill → result ≡ Err StoreFault.Store }
        ensures alone { S.steady → IsTrue (S.has_room self.new.store) → result ≡ Err StoreFault.Store → IsDue self.old.call self.old.left StoreCall.Kill }
        ensures counts { Counts self.old.call self.old.left self.new.left StoreCall.Kill }
        ensures kind { self.new.call ≡ self.old.call }
    {
        if self.fails(StoreCall::Kill) {
            return Err(StoreFault::Store);
        }
        self.store.kill(key)
    }

    fn next(&mut self, low: &[u8], high: &[u8]) -> Result<Option<Vec<u8>>, StoreFault>
        ensures found { S.doubt self.new.store ≡ 0 → IfOk result (λ key. option_map (λ bytes. bytes.items) key ≡ next_key
            (S.content self.old.store) low.now high.now) }
        ensures held { S.doubt self.new.store ≡ 0 → AreHeld (S.content self.old.store) }
        ensures same { S.doubt self.new.store ≡ 0 → S.content self.new.store ≡ S.content self.old.store }
        ensures doubt { DoubtsOver S.NodeStore self.old.store self.new.store (is_ok result) }
        ensures store { ⊥ → IsTrue (S.has_room self.new.store) → result ≢ Err StoreFault.Store }
        ensures due { IsDue self.old.call self.old.left StoreCall.Next → result ≡ Err StoreFault.Store }
        ensures alone { S.steady → IsTrue (S.has_room self.new.store) → result ≡ Err StoreFault.Store → IsDue self.old.call self.old.left StoreCall.Next }
        ensures counts { Counts self.old.call self.old.left self.new.left StoreCall.Next }
        ensures kind { self.new.call ≡ self.old.call }
    {
        let answer = self.store.next(low, high);
        if self.fails(StoreCall::Next) {
            return Err(StoreFault::Store);
        }
        answer
    }

    fn prev(&mut self, low: &[u8], high: &[u8]) -> Result<Option<Vec<u8>>, StoreFault>
        ensures found { S.doubt self.new.store ≡ 0 → IfOk result (λ key. option_map (λ bytes. bytes.items) key ≡ previous_key
            (S.content self.old.store) low.now high.now) }
        ensures held { S.doubt self.new.store ≡ 0 → AreHeld (S.content self.old.store) }
        ensures same { S.doubt self.new.store ≡ 0 → S.content self.new.store ≡ S.content self.old.store }
        ensures doubt { DoubtsOver S.NodeStore self.old.store self.new.store (is_ok result) }
        ensures store { ⊥ → IsTrue (S.has_room self.new.store) → result ≢ Err StoreFault.Store }
        ensures due { IsDue self.old.call self.old.left StoreCall.Prev → result ≡ Err StoreFault.Store }
        ensures alone { S.steady → IsTrue (S.has_room self.new.store) → result ≡ Err StoreFault.Store → IsDue self.old.call self.old.left StoreCall.Prev }
        ensures counts { Counts self.old.call self.old.left self.new.left StoreCall.Prev }
        ensures kind { self.new.call ≡ self.old.call }
    {
        let answer = self.store.prev(low, high);
        if self.fails(StoreCall::Prev) {
            return Err(StoreFault::Store);
        }
        answer
    }

    fn kept_routine(&mut self, account: &Bytes7, name: &Bytes7) -> Option<Rc<Vec<Bytes7>>> {
        self.store.kept_routine(account, name)
    }

    fn keep_routine(&mut self, account: &Bytes7, name: &Bytes7, lines: &Rc<Vec<Bytes7>>) {
        self.store.keep_routine(account, name, lines);
    }

    ghost steady_is_sound = { λ steady. absurd steady };

    ghost steady_is_told = { λ steady. absurd steady };
}

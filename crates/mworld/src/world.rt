// SPDX-License-Identifier: Apache-2.0
// The world: one session for each terminal, and the locks of all, over a store.
ghost use Rattle.std.specs.Prelude.{◌≡◌};
ghost use Rattle.mmeaning.specs.Transition.{is_lost};
ghost use Rattle.moperator.specs.Codes.{fault_of};
ghost use Rattle.misolation.specs.Cut.{AreFit};

use crate::admission::admitted;
use crate::reply::Reply;
use crate::session_run::run_over;
use crate::terminals::{begin_session, end_session};
use meval::Session;
use mexec::{Ended, Scratch};
use mgrant::{AccountId, Settings};
use mlock::Locks;
use mnodes::NodeStore;
use moperator::Code;
use std::alloc::Global;
use std::collections::HashMap;

// How many texts' trees a world keeps.
const KEPT_TREES: usize = 256;

/// The sessions and the locks of all terminals over a store, with the settings that say which account each terminal belongs to. Contracts
/// see it through `world_of`, as the world of the definitions, and through `settings_of`.
///
/// In every world over a store without doubt, each lock is known to be on a name that its terminal's account may hold: one without `^` of its
/// own, or a global that it may write.
pub struct World<S: NodeStore> {
    settings: Settings,
    sessions: HashMap<u32, Session>,
    locks: Locks,
    store: S,
    // what lines of all accounts run with
    scratch: Scratch,
    // buffer for the output of a line
    room: Vec<u8>,
    alloc: Global,
    pub ghost fit: { S.doubt store ≡ 0 → AreFit settings locks },
}

// Written out, so that dropping it is one call, which is proved once.
impl<S: NodeStore + Drop> Drop for World<S> {
    fn drop(self) {
        let World {
            settings: _,
            sessions: _,
            locks: _,
            store: _,
            scratch: _,
            room: _,
            alloc: _,
        } = self;
    }
}

impl<S: NodeStore> World<S> {
    ghost use Rattle.std.specs.Prelude.{◌≡◌, ◌≢◌, ◌≤◌, false, IsTrue, IfOk, IfErr};
    ghost use Rattle.mmeaning.specs.Transition.{Transition};
    ghost use Rattle.mmeaning.specs.History.{opening};
    ghost use Rattle.moperator.specs.declared.code.Code.TheVariants.{Zstore};
    ghost use Rattle.misolation.specs.Reach.{Accounts, IsClosed};
    ghost use Rattle.misolation.specs.Cut.{is_inside, cut_world};
    ghost use Rattle.misolation.specs.TransitionLaws.{TransitionWrites, TransitionWithin};
    ghost use Rattle.mnodes.specs.Over.{DoubtsOver};
    ghost use Rattle.mexec.specs.Runs.{is_kept_by};
    ghost use Rattle.mworld.specs.Promises.{IsUndoubted};
    ghost use Rattle.mworld.specs.View.{settings_of, world_of, doubt_of, reply_of};
    ghost use Rattle.mworld.specs.Admits.{Passes};

    /// A world without a session and without a lock, over a store. It keeps the trees of at most 256 texts that were run, of all
    /// accounts; no reply shows which they are.
    ///
    /// # Errors
    ///
    /// The settings and the store are given back if memory runs out.
    pub fn new(alloc: Global, settings: Settings, store: S) -> Result<World<S>, (Settings, S)>
        ensures world { IfOk result (λ world. world_of S.NodeStore world ≡ opening (S.content store)) }
        ensures settings { IfOk result (λ world. settings_of world ≡ settings) }
        ensures doubt { IfOk result (λ world. doubt_of S.NodeStore world ≡ S.doubt store) }
        ensures back { IfErr result (λ back. back ≡ (settings, store)) }
    {
        World::with_entries(alloc, settings, store, KEPT_TREES)
    }

    /// The same, but it keeps the trees of at most `entries` texts.
    ///
    /// # Errors
    ///
    /// The settings and the store are given back if memory runs out.
    pub fn with_entries(
        alloc: Global,
        settings: Settings,
        store: S,
        entries: usize,
    ) -> Result<World<S>, (Settings, S)>
        requires { 1 ≤ entries }
        ensures world { IfOk result (λ world. world_of S.NodeStore world ≡ opening (S.content store)) }
        ensures settings { IfOk result (λ world. settings_of world ≡ settings) }
        ensures doubt { IfOk result (λ world. doubt_of S.NodeStore world ≡ S.doubt store) }
        ensures back { IfErr result (λ back. back ≡ (settings, store)) }
    {
        let Ok(scratch) = Scratch::new(alloc, entries) else {
            return Err((settings, store));
        };
        Ok(World {
            settings,
            sessions: HashMap::new(alloc),
            locks: Locks::new(alloc),
            store,
            scratch,
            room: Vec::new(alloc),
            alloc,
        })
    }

    /// The store as the lines left it, lent. Takes no memory.
    pub fn store(&self) -> &S
        ensures content { S.content result.now ≡ (world_of S.NodeStore self.now).shared.globals }
        ensures doubt { S.doubt result.now ≡ doubt_of S.NodeStore self.now }
    {
        &self.store
    }

    /// The store as the lines left it. Takes no memory.
    pub fn into_store(self) -> S
        ensures content { S.content result ≡ (world_of S.NodeStore self).shared.globals }
        ensures doubt { S.doubt result ≡ doubt_of S.NodeStore self }
    {
        let World {
            settings: _,
            sessions: _,
            locks: _,
            store: left,
            scratch: _,
            room: _,
            alloc: _,
        } = self;
        left
    }

    /// Runs a line of a terminal, to its end: one transition of the definitions, if there is no doubt of the store after it.
    ///
    /// The reply says how it ended. `Zterm`, `Zline` and `Zchar` change nothing. After HALT the terminal's session and its locks are gone. The
    /// same happens after `Zmem` and `Zstore`, and then there is no output. These two can come anywhere after the check for `Zchar`, and
    /// `Zstore` over a steady store only if that has no room then.
    ///
    /// **It keeps every closed set of accounts apart from the others.** At a member's terminal it is that transition over what is left where there
    /// is nothing but the set, with the same reply and the same writes; at any other terminal it leaves that as it was. The globals that
    /// it leaves are the old ones after the line's writes up to some point: after all of them, if it did not fail.
    pub fn line(&mut self, terminal: u32, text: &[u8]) -> Reply
        ensures transition { IsUndoubted S.NodeStore self.new → Transition (settings_of self.old) (record { terminal = terminal; text = text.now })
            (reply_of result) (world_of S.NodeStore self.old) (world_of S.NodeStore self.new) }
        ensures writes { IsUndoubted S.NodeStore self.new → TransitionWrites (settings_of self.old) (record { terminal = terminal; text = text.now })
            (reply_of result) (world_of S.NodeStore self.old) (world_of S.NodeStore self.new) }
        ensures inside { IsUndoubted S.NodeStore self.new → (s : Accounts) → IsClosed (settings_of self.old) s → IsTrue (is_inside s
            (settings_of self.old) terminal) →
            TransitionWithin s (settings_of self.old) (record { terminal = terminal; text = text.now }) (reply_of result) (world_of S.NodeStore self.old)
            (world_of S.NodeStore self.new) }
        ensures outside { IsUndoubted S.NodeStore self.new → (s : Accounts) → IsClosed (settings_of self.old) s → is_inside s (settings_of self.old) terminal
            ≡ false →
            cut_world s (settings_of self.old) (world_of S.NodeStore self.new) ≡ cut_world s (settings_of self.old) (world_of S.NodeStore self.old) }
        ensures settings { settings_of self.new ≡ settings_of self.old }
        ensures doubt { DoubtsOver S.NodeStore self.old.store self.new.store (is_kept_by result.ending) }
        ensures steady { S.steady → IsTrue (S.has_room self.new.store) → result.ending ≢ Ended.Fault Zstore }
    {
        match admitted(&self.settings, terminal, text) {
            Ok(account) => self.run(terminal, account, text),
            Err(code) => Reply::refused(self.alloc, code),
        }
    }

    // The settings that say which account each terminal belongs to.
    pub(crate) fn settings(&self) -> &Settings
        ensures { result.now ≡ settings_of self.now }
    {
        &self.settings
    }

    /// Takes back the buffer of a reply for the lines to come, so that they ask for none. Takes no memory.
    pub fn reuse(&mut self, reply: Reply)
        ensures world { world_of S.NodeStore self.new ≡ world_of S.NodeStore self.old }
        ensures doubt { doubt_of S.NodeStore self.new ≡ doubt_of S.NodeStore self.old }
        ensures room { S.has_room self.new.store ≡ S.has_room self.old.store }
        ensures settings { settings_of self.new ≡ settings_of self.old }
    {
        self.room = reply.out;
    }

    // Runs a line that passed the checks before its text is parsed. The session stays where it is, and the line changes it there.
    fn run(&mut self, terminal: u32, account: AccountId, text: &[u8]) -> Reply
        requires { Passes (settings_of self.now) (record { terminal = terminal; text = text.now }) account }
        ensures transition { IsUndoubted S.NodeStore self.new → Transition (settings_of self.old) (record { terminal = terminal; text = text.now })
            (reply_of result) (world_of S.NodeStore self.old) (world_of S.NodeStore self.new) }
        ensures settings { settings_of self.new ≡ settings_of self.old }
        ensures doubt { DoubtsOver S.NodeStore self.old.store self.new.store (is_kept_by result.ending) }
        ensures steady { S.steady → IsTrue (S.has_room self.new.store) → result.ending ≢ Ended.Fault Zstore }
    {
        let Ok(()) = begin_session(self.alloc, &mut self.sessions, terminal) else {
            self.locks.release_all(terminal);
            return Reply::refused(self.alloc, Code::Zmem);
        };
        let Some(session) = self.sessions.get_mut(&terminal) else {
            unreachable!();
        };
        let reply = run_over(
            self.alloc,
            &self.settings,
            terminal,
            account,
            text,
            session,
            &mut self.store,
            &mut self.locks,
            &mut self.scratch,
            &mut self.room,
        );
        if let Ended::Fault(code) = reply.ending {
            if loses_session(code) {
                end_session(&mut self.sessions, &mut self.locks, terminal);
                return Reply::refused(self.alloc, code);
            }
        }
        if let Ended::Halt = reply.ending {
            end_session(&mut self.sessions, &mut self.locks, terminal);
            return reply;
        }
        session.locals.leave_all();
        reply
    }
}

// Whether memory or the store did not suffice for a line.
pub(crate) fn loses_session(code: Code) -> bool
    ensures { result ≡ is_lost (fault_of code) }
{
    match code {
        Code::Zmem | Code::Zstore => true,
        _ => false,
    }
}
